//! Laws of the records.

ghost use Rattle.texts.specs.Equality.{TellsEqual};

use crate::bytes::Bytes;
use crate::fault::Fault;
use crate::status::{CompileFinished, ExitStatus, Output};
use crate::text::Text;
use crate::variables::Variables;
use crate::words::Words;

/// `==` compares all fields: it says whether two values are equal.
pub fn equality()
    ensures text { TellsEqual ⟦<Text as PartialEq>⟧.eq }
    ensures words { TellsEqual ⟦<Words as PartialEq>⟧.eq }
    ensures variables { TellsEqual ⟦<Variables as PartialEq>⟧.eq }
    ensures bytes { TellsEqual ⟦<Bytes as PartialEq>⟧.eq }
    ensures status { TellsEqual ⟦<ExitStatus as PartialEq>⟧.eq }
    ensures output { TellsEqual ⟦<Output as PartialEq>⟧.eq }
    ensures finished { TellsEqual ⟦<CompileFinished as PartialEq>⟧.eq }
    ensures fault { TellsEqual ⟦<Fault as PartialEq>⟧.eq }
{}
