//! Laws of the records.

ghost use Rattle.texts.specs.Equality.{TellsEqual, TellsEqualBy};
ghost use Rattle.compilers.specs.Arguments.{answer_seen};

use crate::arguments::{CompilerArguments, ParsedArguments};
use crate::command::SingleCompileCommand;
use crate::compiler::Places;
use crate::outputs::{ArtifactDescriptor, Outputs};

/// `==` compares all fields: it says whether two values are equal.
pub fn equality()
    ensures artifact { TellsEqual ⟦<ArtifactDescriptor as PartialEq>⟧.eq }
    ensures outputs { TellsEqual ⟦<Outputs as PartialEq>⟧.eq }
    ensures arguments { TellsEqual ⟦<ParsedArguments as PartialEq>⟧.eq }
    ensures command { TellsEqual ⟦<SingleCompileCommand as PartialEq>⟧.eq }
    ensures places { TellsEqual ⟦<Places as PartialEq>⟧.eq }
{}

/// `==` on what a reader answers says whether two answers are equal, if `==` does so for what they
/// hold.
pub fn answer_equality<T: PartialEq>()
    requires { TellsEqual T.eq }
    ensures { TellsEqualBy answer_seen ⟦<CompilerArguments<T> as PartialEq>⟧.eq }
{}
