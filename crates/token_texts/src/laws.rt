//! Laws of the tokens of all texts.

ghost use Rattle.token_texts.specs.Examples as examples;
ghost use Rattle.token_texts.specs.TokenLaws as spec;

/// Two texts have one normal form if and only if they have the same tokens in the same order.
pub fn keys()
    ensures tokens { spec.SameNormal }
    ensures normal { spec.SameTokens }
{}

/// The number of a line marker doesn't count, and a line that is a comment doesn't.
pub fn lines()
    ensures numbers { spec.NumbersDontCount }
    ensures comments { spec.CommentsDontCount }
{}

/// A text that is cut in front of line markers that enter files has the tokens of its parts. Cut between any two lines, their tokens
/// determine its own.
pub fn parts()
    ensures tokens { spec.PartsHaveTheTokens }
    ensures same { spec.PartsDetermine }
    ensures others { examples.OtherPartsDont }
{}

/// Examples: texts with their tokens, and texts without a reading.
pub fn worked_texts()
    ensures words { examples.WordsAreRead }
    ensures literals { examples.LiteralsAreRead }
    ensures comments { examples.CommentsAreLeftOut }
    ensures directives { examples.DirectivesAreRead }
    ensures doubts { examples.DoubtsHaveNone }
{}
