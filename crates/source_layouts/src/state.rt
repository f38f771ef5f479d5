//! Where a reader is in a text.

#[derive(Clone, Copy)]
pub(crate) enum State {
    /// In no token that could go on.
    Between,
    /// In an identifier.
    Word,
    /// In a word with a letter that isn't one to each preprocessor.
    OtherWord,
    /// In a number.
    Number,
    /// In a number, after an `e` or a `p`: a sign goes on with it.
    Exponent,
    /// After a `.`: a digit goes on with it.
    Dot,
    /// After a `/`, which isn't written yet: it may begin a comment.
    Slash,
    /// After a line's first `%`: a `:` makes a directive of it.
    Percent,
    /// In a string.
    Text,
    /// In a string, after a backslash.
    TextEscape,
    /// In a character literal.
    Character,
    /// In a character literal, after a backslash.
    CharacterEscape,
    /// In a comment that ends with the line.
    LineComment,
    /// In a comment that ends with `*/`.
    Comment,
    /// In such a comment, after a `*`.
    CommentStar,
    /// In such a comment, after a `/`.
    CommentSlash,
    /// In a directive, after its `#` and blanks.
    Hash,
    /// In a directive.
    Directive,
    /// In a directive, after a backslash and blanks.
    DirectiveEscape,
    /// The text has no layout.
    Refused,
}
