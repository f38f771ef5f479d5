//! A limit for what reading a dry run makes and holds.

ghost use Rattle.std.specs.Prelude.{◌≡◌, ◌∷◌, [], ◌+◌, Some, length, map, string_bytes};
ghost use Rattle.texts.specs.declared.fault.Fault.TheVariants.{Memory};
ghost use Rattle.dry_runs.specs.declared.limit.LimitedFault.TheVariants as limited;
ghost use Rattle.dry_runs.specs.Limit as spec;

use std::alloc::{AllocError, AllocFailed};
use std::error::Error;
use std::fmt;
use texts::fault::Fault;

/// Why a dry run can't be read within a limit.
#[derive(Debug, PartialEq, Drop)]
pub enum LimitedFault {
    /// It can't be read without a limit either.
    Fault(Fault),
    /// A line exceeds the limit. The run is 1 or 2, the first or the second dry run, and its lines are numbered from 0,
    /// as in a `Fault`. A message that people read should add 1.
    TooLong {
        /// The dry run.
        run: usize,
        /// The line's number.
        line: usize,
    },
}

impl fmt::Display for LimitedFault {
    ghost output = { λ f. Some (spec.limited_message_of f) };

    fn fmt<W: fmt::Write>(&self, f: &mut fmt::Formatter<W>) -> fmt::Result {
        match self {
            LimitedFault::Fault(fault) => write!(f, "{fault}"),
            LimitedFault::TooLong { run, line } => {
                write!(f, "run {run} line {line}: over the limit")
            }
        }
    }
}

impl Error for LimitedFault {}

impl LimitedFault {
    /// Returns the fault of a reader that has no limit: `Fault::Memory` if a line exceeds even the largest limit, since no
    /// memory can hold such a line, and no time suffices to make such texts.
    pub fn without_limit(self) -> Fault
        ensures { result ≡ spec.without_limit self }
    {
        match self {
            LimitedFault::Fault(fault) => fault,
            LimitedFault::TooLong { .. } => Fault::Memory,
        }
    }
}

impl From<Fault> for LimitedFault {
    ghost from_gives = { λ fault e. e ≡ limited.Fault fault };

    fn from(fault: Fault) -> LimitedFault {
        LimitedFault::Fault(fault)
    }
}

impl From<AllocError> for LimitedFault {
    ghost from_gives = { λ _ e. e ≡ limited.Fault Memory };

    fn from(_error: AllocError) -> LimitedFault {
        LimitedFault::Fault(Fault::Memory)
    }
}

impl<T: Drop> From<AllocFailed<T>> for LimitedFault {
    ghost from_gives = { λ _ e. e ≡ limited.Fault Memory };

    fn from(_error: AllocFailed<T>) -> LimitedFault {
        LimitedFault::Fault(Fault::Memory)
    }
}

// What a variable and a command count beside their texts: each is compared with those before it, and each of a thousand
// commands in two runs can wait for all before it, which makes half a million needs.
const LINE_COST: usize = 4096;

fn left_behind_word(left: usize, word: &str) -> Option<usize>
    ensures { result ≡ spec.left_behind left (length word.now + 1) }
{
    left.checked_sub(word.len())?.checked_sub(1)
}

// What is left of a limit once a command is held, with its program's path and its words.
pub(crate) fn left_behind_command(left: usize, path: &str, words: &[String]) -> Option<usize>
    ensures { result ≡ spec.left_behind left (spec.line_cost + spec.bytes_of_words (path.now ∷ map string_bytes words.now)) }
{
    let mut room = left_behind_word(left.checked_sub(LINE_COST)?, path)?;
    for word in words {
        room = left_behind_word(room, word.as_str())?;
    }
    Some(room)
}

pub(crate) fn left_behind_variable(left: usize, name: &str, value: &str) -> Option<usize>
    ensures { result ≡ spec.left_behind left (spec.line_cost + spec.bytes_of_words (name.now ∷ value.now ∷ [])) }
{
    let room = left.checked_sub(LINE_COST)?;
    left_behind_word(left_behind_word(room, name)?, value)
}
