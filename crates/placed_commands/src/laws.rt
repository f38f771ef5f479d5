//! Laws of commands that run in the call's own directory.

ghost use Rattle.placed_commands.specs.Laws.{KeepsCount, ChangesEnds, KeepsSteps, KeepsPlanSteps};

/// Only directories and names of files change.
///
/// A command has as many words as before (`count`). Each is the word that it was, or that word with a whole path in place of an end that
/// names a file of the record (`ends`). A command's record, its role in any group, and whether it preprocesses stay (`steps`). So do those
/// of all commands of a plan: their needs stay, and what is said of the orders in which they may run (`plan`).
pub fn places()
    ensures count { KeepsCount }
    ensures ends { ChangesEnds }
    ensures steps { KeepsSteps }
    ensures plan { KeepsPlanSteps }
{}
