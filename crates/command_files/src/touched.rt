//! Files with the numbers of the commands that touch them.

ghost use Rattle.std.specs.Prelude.{◌≡◌, ◌++◌, map, OnOk, IfOk, string_bytes};
ghost use Rattle.command_files.specs.Touched as spec;

use std::alloc::{AllocError, Global};
use std::collections::HashMap;

/// The numbers of the commands that read a file, and of those that write it, in ascending order.
#[derive(Drop)]
pub struct Users {
    pub readers: Vec<usize>,
    pub writers: Vec<usize>,
}

/// Files with the numbers of the commands that touch them. Contracts see two functions from a path to such numbers.
#[derive(Drop)]
pub struct Touched<'a> {
    users: HashMap<&'a str, Users>,
}

impl<'a> Touched<'a> {
    /// No files, with room for `count`.
    pub fn with_capacity(alloc: Global, count: usize) -> Result<Touched<'a>, AllocError>
        ensures readers { IfOk result (λ touched. spec.readers_seen touched ≡ spec.no_numbers) }
        ensures writers { IfOk result (λ touched. spec.writers_seen touched ≡ spec.no_numbers) }
    {
        Ok(Touched {
            users: HashMap::with_capacity(alloc, count)?,
        })
    }

    // Notes that the command with a number reads `path`, and puts the numbers of the earlier ones last that write it.
    fn read(
        &mut self,
        alloc: Global,
        needs: &mut Vec<usize>,
        number: usize,
        path: &'a str,
    ) -> Result<(), AllocError>
        ensures needs { OnOk result (needs.new.items ≡ needs.old.items ++ spec.below number (spec.writers_seen self.old path.entry.now)) }
        ensures readers { OnOk result (spec.readers_seen self.new ≡ spec.with_number (spec.readers_seen self.old) path.entry.now number) }
        ensures writers { OnOk result (spec.writers_seen self.new ≡ spec.writers_seen self.old) }
    {
        let users = self.users.entry(path)?.or_insert(Users {
            readers: Vec::new(alloc),
            writers: Vec::new(alloc),
        });
        push_below(needs, number, users.writers.as_slice())?;
        users.readers.push(number)?;
        Ok(())
    }

    // Notes that the command with a number writes `path`, and puts the numbers of the earlier ones last that touch it.
    fn write(
        &mut self,
        alloc: Global,
        needs: &mut Vec<usize>,
        number: usize,
        path: &'a str,
    ) -> Result<(), AllocError>
        ensures needs { OnOk result (needs.new.items
            ≡ needs.old.items ++ (spec.below number (spec.writers_seen self.old path.entry.now) ++ spec.below number (spec.readers_seen self.old path.entry.now))) }
        ensures readers { OnOk result (spec.readers_seen self.new ≡ spec.readers_seen self.old) }
        ensures writers { OnOk result (spec.writers_seen self.new ≡ spec.with_number (spec.writers_seen self.old) path.entry.now number) }
    {
        let users = self.users.entry(path)?.or_insert(Users {
            readers: Vec::new(alloc),
            writers: Vec::new(alloc),
        });
        push_below(needs, number, users.writers.as_slice())?;
        push_below(needs, number, users.readers.as_slice())?;
        users.writers.push(number)?;
        Ok(())
    }

    /// Notes that the command with a number reads `paths`, and puts the numbers of the earlier ones last that write one of them.
    pub fn read_all(
        &mut self,
        alloc: Global,
        needs: &mut Vec<usize>,
        number: usize,
        paths: &'a [String],
    ) -> Result<(), AllocError>
        ensures needs { OnOk result (needs.new.items
            ≡ needs.old.items ++ spec.touching number (spec.writers_seen self.old) (map string_bytes paths.entry.now)) }
        ensures readers { OnOk result (spec.readers_seen self.new
            ≡ spec.with_numbers (spec.readers_seen self.old) (map string_bytes paths.entry.now) number) }
        ensures writers { OnOk result (spec.writers_seen self.new ≡ spec.writers_seen self.old) }
    {
        for path in paths {
            self.read(alloc, needs, number, path.as_str())?;
        }
        Ok(())
    }

    /// Notes that the command with a number writes `paths`, and puts the numbers of the earlier ones last that touch one of them.
    pub fn write_all(
        &mut self,
        alloc: Global,
        needs: &mut Vec<usize>,
        number: usize,
        paths: &'a [String],
    ) -> Result<(), AllocError>
        ensures needs { OnOk result (needs.new.items ≡ needs.old.items
            ++ spec.touching_either number (spec.readers_seen self.old) (spec.writers_seen self.old) (map string_bytes paths.entry.now)) }
        ensures readers { OnOk result (spec.readers_seen self.new ≡ spec.readers_seen self.old) }
        ensures writers { OnOk result (spec.writers_seen self.new
            ≡ spec.with_numbers (spec.writers_seen self.old) (map string_bytes paths.entry.now) number) }
    {
        for path in paths {
            self.write(alloc, needs, number, path.as_str())?;
        }
        Ok(())
    }
}

/// Puts the numbers below a bound last.
pub fn push_below(needs: &mut Vec<usize>, bound: usize, numbers: &[usize]) -> Result<(), AllocError>
    ensures { OnOk result (needs.new.items ≡ needs.old.items ++ spec.below bound numbers.now) }
{
    for number in numbers {
        if *number < bound {
            needs.push(*number)?;
        }
    }
    Ok(())
}
