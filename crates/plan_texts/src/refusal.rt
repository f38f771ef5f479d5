//! Why a format can't represent a plan.

use std::alloc::AllocError;
use std::error::Error;
use std::fmt;

/// Why a format can't represent a plan.
#[derive(Clone, Copy, Debug, PartialEq)]
pub enum Refusal {
    /// A text of the plan has a byte that the format can't represent.
    Unheld,
    /// `env` would not take a variable's name for one.
    VariableName,
    /// `env` would not take a program's path for one.
    Program,
    /// Memory ran out.
    Memory,
}

impl fmt::Display for Refusal {
    ghost use Rattle.std.specs.Prelude.{Some};
    ghost use Rattle.plan_texts.specs.Message.{message_of};

    ghost output = { λ r. Some (message_of r) };

    fn fmt<W: fmt::Write>(&self, f: &mut fmt::Formatter<W>) -> fmt::Result {
        f.write_str(match self {
            Refusal::Unheld => "a text of the plan holds a byte that the form can't",
            Refusal::VariableName => {
                "a variable of the plan has a name that env takes for something else"
            }
            Refusal::Program => {
                "a program of the plan has a path that env takes for something else"
            }
            Refusal::Memory => "out of memory",
        })
    }
}

impl Error for Refusal {}

impl From<AllocError> for Refusal {
    ghost use Rattle.std.specs.Prelude.{◌≡◌};
    ghost use Rattle.plan_texts.specs.declared.refusal.Refusal.TheVariants.{Memory};

    ghost from_gives = { λ _ e. e ≡ Memory };

    fn from(_error: AllocError) -> Refusal {
        Refusal::Memory
    }
}
