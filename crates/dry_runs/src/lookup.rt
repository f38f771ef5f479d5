//! Look-ups of programs.

ghost use Rattle.std.specs.Prelude.{◌≡◌, IfOk, OnOk};
ghost use Rattle.std.specs.List.{list_any};
ghost use Rattle.dry_runs.specs.Lookup.{lookup_of, same_lookup, with_lookup};

use std::alloc::{AllocError, Global};
use texts::text::Text;

/// A look-up of a program.
#[derive(Debug, Drop)]
pub struct Lookup {
    /// The program's name, as the command has it.
    pub program: Text,
    /// The value of `PATH`.
    pub path: Text,
    /// The working directory.
    pub folder: Text,
}

impl Lookup {
    /// The look-up of a program by the value of `PATH` and the working directory, in memory of its own.
    pub fn copy_of(
        alloc: Global,
        program: &str,
        path: &str,
        folder: &str,
    ) -> Result<Lookup, AllocError>
        ensures { IfOk result (λ lookup. lookup ≡ lookup_of program.now path.now folder.now) }
    {
        Ok(Lookup {
            program: Text::copy_of(alloc, program)?,
            path: Text::copy_of(alloc, path)?,
            folder: Text::copy_of(alloc, folder)?,
        })
    }

    /// Whether this is the look-up of that program by that value of `PATH` and that working directory.
    pub fn is(&self, program: &str, path: &str, folder: &str) -> bool
        ensures { result ≡ same_lookup self.now (lookup_of program.now path.now folder.now) }
    {
        self.program.as_str() == program
            && self.path.as_str() == path
            && self.folder.as_str() == folder
    }
}

fn holds(lookups: &[Lookup], program: &str, path: &str, folder: &str) -> bool
    ensures { result ≡ list_any (λ known. same_lookup known (lookup_of program.now path.now folder.now)) lookups.now }
{
    lookups.iter().any(|known| known.is(program, path, folder))
}

// Puts the look-up of a program last, unless the list has it.
pub(crate) fn add(
    alloc: Global,
    lookups: &mut Vec<Lookup>,
    program: &str,
    path: &str,
    folder: &str,
) -> Result<(), AllocError>
    ensures { OnOk result (lookups.new.items ≡ with_lookup lookups.old.items (lookup_of program.now path.now folder.now)) }
{
    if holds(lookups.as_slice(), program, path, folder) {
        return Ok(());
    }
    lookups.push(Lookup::copy_of(alloc, program, path, folder)?)?;
    Ok(())
}
