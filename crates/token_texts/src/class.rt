//! Classes of bytes.

ghost use Rattle.std.specs.Prelude.{◌≡◌};
ghost use Rattle.token_texts.specs.Classes as spec;

/// What a byte is outside literals, comments and directives.
#[derive(Clone, Copy)]
pub(crate) enum Class {
    /// A space or a tab.
    Blank,
    /// A newline.
    LineEnd,
    /// A letter, `_`, `$`, or a byte of a character that isn't ASCII.
    Word,
    /// A digit.
    Digit,
    /// One of `( ) { } ; ,`, which no compiler joins with what is beside it.
    Lone,
    /// A byte of an operator, but for `.` and `/`.
    Operator,
    /// `.`, which may begin a number.
    Dot,
    /// `/`, which may begin a comment.
    Slash,
    /// `"`.
    DoubleQuote,
    /// `'`.
    SingleQuote,
    /// Any other byte: outside literals, comments and directives it has no reading.
    Other,
}

#[inline(always)]
pub(crate) fn class_of(byte: u8) -> Class
    ensures { result ≡ spec.class_of byte }
{
    match byte {
        b' ' | b'\t' => Class::Blank,
        b'\n' => Class::LineEnd,
        b'a'..=b'z' | b'A'..=b'Z' | b'_' | b'$' | 128..=255 => Class::Word,
        b'0'..=b'9' => Class::Digit,
        b'(' | b')' | b'{' | b'}' | b';' | b',' => Class::Lone,
        b'.' => Class::Dot,
        b'/' => Class::Slash,
        b'"' => Class::DoubleQuote,
        b'\'' => Class::SingleQuote,
        b'!'
        | b'%'
        | b'&'
        | b'*'
        | b'+'
        | b'-'
        | b':'
        | b'<'
        | b'='
        | b'>'
        | b'?'
        | b'['
        | b']'
        | b'^'
        | b'|'
        | b'~' => Class::Operator,
        _ => Class::Other,
    }
}
