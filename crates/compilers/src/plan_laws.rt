//! Laws of the records of plans.

ghost use Rattle.texts.specs.Equality.{TellsEqual};

use crate::plans::{Dropped, DroppedCommands, Groups, NvccGeneratedSubcommand, Plan, Reason};

/// `==` on the records of plans compares all fields: it says whether two values are equal.
pub fn equality()
    ensures command { TellsEqual ⟦<NvccGeneratedSubcommand as PartialEq>⟧.eq }
    ensures reason { TellsEqual ⟦<Reason as PartialEq>⟧.eq }
    ensures dropped_command { TellsEqual ⟦<Dropped as PartialEq>⟧.eq }
    ensures groups { TellsEqual ⟦<Groups as PartialEq>⟧.eq }
    ensures dropped_commands { TellsEqual ⟦<DroppedCommands as PartialEq>⟧.eq }
    ensures plan { TellsEqual ⟦<Plan as PartialEq>⟧.eq }
{}
