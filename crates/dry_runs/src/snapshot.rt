//! Look-ups with what they found.

ghost use Rattle.std.specs.Prelude.{◌≡◌, option_map};
ghost use Rattle.dry_runs.specs.Snapshot.{answer_in};

use crate::Which;
use crate::lookup::Lookup;
use std::alloc::{AllocError, Global};
use std::marker::Model;
use texts::text::Text;

/// A look-up, and what it found.
#[derive(Debug, Drop)]
pub struct Entry {
    /// The look-up.
    pub lookup: Lookup,
    /// The program's path, `None` where there is none.
    pub found: Option<Text>,
}

/// The answers of a look-up, taken once. As a `Which` it answers what the first entry of the program, `PATH` and folder
/// found, and `None` where there is none. Contracts see the list of entries.
#[derive(Debug, Drop)]
pub struct Snapshot {
    entries: Vec<Entry>,
}

impl Model for Snapshot {
    ghost use Rattle.std.specs.Prelude.{List};
    ghost use Rattle.dry_runs.specs.declared.snapshot.Entry.{Entry};

    ghost Value = { List Entry };

    ghost view = { λ s. s.entries.items };
}

impl Snapshot {
    /// Holds these entries.
    pub fn new(entries: Vec<Entry>) -> Snapshot
        ensures { result ≡ entries.items }
    {
        Snapshot { entries }
    }

    /// The entries as a slice.
    pub fn as_slice(&self) -> &[Entry]
        ensures { result.now ≡ self.now }
    {
        self.entries.as_slice()
    }

    /// Gives the entries back.
    pub fn into_vec(self) -> Vec<Entry>
        ensures { result.items ≡ self }
    {
        self.entries
    }
}

fn answer<'a>(entries: &'a [Entry], program: &str, path: &str, folder: &str) -> Option<&'a Text>
    ensures { option_map (λ text. text.now) result ≡ answer_in entries.now program.now path.now folder.now }
{
    for entry in entries {
        if entry.lookup.is(program, path, folder) {
            return entry.found.as_ref();
        }
    }
    None
}

impl Which for Snapshot {
    ghost answer = { λ s program path folder. answer_in s program path folder };

    fn found(
        &self,
        alloc: Global,
        exe: &str,
        path: &str,
        cwd: &str,
    ) -> Result<Option<String>, AllocError> {
        match answer(self.as_slice(), exe, path, cwd) {
            None => Ok(None),
            Some(text) => Ok(Some(String::from_str(alloc, text.as_str())?)),
        }
    }
}
