//! Laws of the commands of dry runs, and examples worked out by hand.

ghost use Rattle.texts.specs.Equality.{TellsEqual};
ghost use Rattle.compilers.specs.OneKernel.{WordsOfACommand};
ghost use Rattle.compilers.specs.Replacing.{PlacesAreReplaced};

use crate::dry_run::{Commands, DryRun};

/// `==` on dry runs and on their commands says whether two values are equal.
pub fn equality()
    ensures commands { TellsEqual ⟦<Commands as PartialEq>⟧.eq }
    ensures dry_run { TellsEqual ⟦<DryRun as PartialEq>⟧.eq }
{}

/// How a command of the one-kernel dry run is cut into words (`words`), and how the places of a text in another are
/// replaced (`replaced`): places that touch, places that overlap, and a new text that contains the old one.
pub fn worked_examples()
    ensures words { WordsOfACommand }
    ensures replaced { PlacesAreReplaced }
{}
