//! What a dry run says: its commands and its environment.

ghost use Rattle.std.specs.Prelude.{◌≡◌, ◌∷◌, ◌++◌, [], map, OnErr, OnOk, nat_eq, string_bytes};
ghost use Rattle.compilers.specs.CommandLines.{line_seen};

use std::alloc::{AllocError, Global};
use std::marker::Model;
use texts::variables::Variables;

/// The command lines of a dry run, in order: of each the number of its line, its program's path, and
/// its words. Contracts see the list of these, as texts.
///
/// `from_vec` and `into_vec` don't allocate.
#[derive(Debug, Drop)]
pub struct Commands {
    lines: Vec<(usize, String, Vec<String>)>,
}

impl Model for Commands {
    ghost use Rattle.std.specs.Prelude.{List, map};
    ghost use Rattle.compilers.specs.CommandLines.{CommandLine, line_seen};

    ghost Value = { List CommandLine };

    ghost view = { λ c. map line_seen c.lines.items };
}

impl Commands {
    /// No commands.
    pub fn new(alloc: Global) -> Commands
        ensures { result ≡ [] }
    {
        Commands {
            lines: Vec::new(alloc),
        }
    }

    /// Holds the command lines of `lines`.
    pub fn from_vec(lines: Vec<(usize, String, Vec<String>)>) -> Commands
        ensures { result ≡ map line_seen lines.items }
    {
        Commands { lines }
    }

    /// The command lines as a slice.
    pub fn as_slice(&self) -> &[(usize, String, Vec<String>)]
        ensures { map line_seen result.now ≡ self.now }
    {
        self.lines.as_slice()
    }

    /// Puts a command line last: the number of its line, its program's path and its words. On an error the lines are
    /// unchanged.
    pub fn push(
        &mut self,
        line: usize,
        program: String,
        words: Vec<String>,
    ) -> Result<(), AllocError>
        ensures ok { OnOk result (self.new ≡ self.old ++ (line, string_bytes program, map string_bytes words.items) ∷ []) }
        ensures err { OnErr result (self.new ≡ self.old) }
    {
        self.lines.push((line, program, words))?;
        Ok(())
    }

    /// Gives the `Vec` back.
    pub fn into_vec(self) -> Vec<(usize, String, Vec<String>)>
        ensures { map line_seen result.items ≡ self }
    {
        self.lines
    }
}

impl PartialEq for Commands {
    ghost use Rattle.std.specs.Cmp.Lexicographic.{pointwise};
    ghost use Rattle.std.specs.Cmp.Rules.{comparing};
    ghost use Rattle.std.specs.Ordering.{on, eq_of_both};
    ghost use Rattle.std.proofs.Common.{rules};

    ghost eq = { pointwise (eq_of_both (eq_of_both (on (λ c. c.0) nat_eq) (on (λ c. c.1) (pointwise nat_eq))) (on (λ c. c.2) (pointwise (pointwise nat_eq)))) };

    ghost laws = { Prim.search (comparing, rules) depth 9 };

    fn eq(&self, other: &Commands) -> bool {
        self.as_slice() == other.as_slice()
    }
}

/// What a dry run says.
#[derive(Debug, PartialEq, Drop)]
pub struct DryRun {
    /// Its commands, in the order of their lines.
    pub commands: Commands,
    /// What its environment lines set, in their order. A name may occur twice.
    pub env: Variables,
}
