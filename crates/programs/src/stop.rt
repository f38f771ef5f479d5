//! Why a program stops.

ghost use Rattle.std.specs.Prelude.{OnOk};
ghost use Rattle.std.specs.Io.KnownBytes.{Appends};
ghost use Rattle.programs.specs.Messages as spec;

use std::alloc::AllocError;
use std::fmt;
use std::io::{self, Write};
use texts::fault::Fault;

/// Why a program prints nothing more. Its text is what follows the program's name on standard error.
#[derive(Debug, Drop)]
pub enum Stop {
    /// A line, a plan or a file is at fault, or memory ran out.
    Fault(Fault),
    /// The line compiles nothing.
    NotCompilation,
    /// Writing the output failed.
    Write,
}

impl fmt::Display for Stop {
    ghost use Rattle.std.specs.Prelude.{Some};
    ghost use Rattle.programs.specs.Messages.{message_of};

    ghost output = { λ s. Some (message_of s) };

    fn fmt<W: fmt::Write>(&self, f: &mut fmt::Formatter<W>) -> fmt::Result {
        match self {
            Stop::Fault(fault) => write!(f, "{fault}"),
            Stop::NotCompilation => f.write_str("not a compilation"),
            Stop::Write => f.write_str("cannot write"),
        }
    }
}

impl From<Fault> for Stop {
    ghost use Rattle.std.specs.Prelude.{◌≡◌};
    ghost use Rattle.programs.specs.declared.stop.Stop.TheVariants as stops;

    ghost from_gives = { λ f e. e ≡ stops.Fault f };

    fn from(fault: Fault) -> Stop {
        Stop::Fault(fault)
    }
}

impl From<AllocError> for Stop {
    ghost use Rattle.std.specs.Prelude.{◌≡◌};
    ghost use Rattle.texts.specs.declared.fault.Fault.TheVariants.{Memory};
    ghost use Rattle.programs.specs.declared.stop.Stop.TheVariants as stops;

    ghost from_gives = { λ _ e. e ≡ stops.Fault Memory };

    fn from(_error: AllocError) -> Stop {
        Stop::Fault(Fault::Memory)
    }
}

/// Writes the line `PROGRAM: REASON` that says why a program stops. It allocates nothing, so it also says that memory
/// ran out.
///
/// If a write fails, part of the line may have been written.
pub fn complain<E: Write>(program: &str, stop: &Stop, err: &mut E) -> io::Result<()>
    ensures { OnOk result (Appends (E.contents err.old) (E.contents err.new) (spec.complaint program.now stop.now)) }
{
    write!(err, "{program}: {stop}\n")
}
