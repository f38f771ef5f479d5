//! Laws of the layouts of all texts.

ghost use Rattle.source_layouts.specs.Examples as examples;
ghost use Rattle.source_layouts.specs.LayoutLaws as spec;
ghost use Rattle.source_layouts.specs.LineNumbers as lines;

/// A comment between two tokens doesn't count, nor does an empty line if lines don't.
pub fn comments()
    ensures places { spec.TextsLeaveNothing }
    ensures remarks { spec.CommentsDontCount }
    ensures blocks { spec.CommentsAreBlanks }
    ensures lines { spec.EmptyLinesDontCount }
{}

/// Texts of one layout have the same tokens of what is no directive, and the same directives, by the definition `pieces`: if lines count, on the same
/// lines.
pub fn readings()
    ensures found { spec.TextsHavePieces }
    ensures pieces { spec.LayoutsHaveThePieces }
    ensures same { spec.SamePieces }
{}

/// If a set of words shuts out the number of a line, no word becomes it: each closed set has what words may become, and this one is closed.
pub fn line_numbers()
    ensures sets { lines.ClosedSetsShutOut }
    ensures tried { lines.SetsAreTried }
{}

/// Examples: texts with their layouts, and texts without one.
pub fn worked_texts()
    ensures blanks { examples.BlanksAreLeftOut }
    ensures lines { examples.LinesCount }
    ensures texts { examples.TextsAreKept }
    ensures doubts { examples.DoubtsHaveNone }
    ensures pieces { examples.PiecesAreRead }
    ensures unread { examples.DoubtsAreNotRead }
{}
