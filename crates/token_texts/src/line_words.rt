//! Words by which a text sees its own line numbers.

ghost use Rattle.std.specs.Prelude.{◌≡◌};
ghost use Rattle.token_texts.specs.LineWords as spec;

/// Whether a text mentions a word by which it may see its own lines, columns or files: `__LINE__`, `source_location`, and
/// `__builtin_LINE`, `__builtin_FILE`, `__builtin_COLUMN` and words that begin like them. It may be in a comment or a literal.
///
/// What `assert` expands to has the line as a number, which is a token like any other.
pub fn sees_lines(text: &[u8]) -> bool
    ensures { result ≡ spec.sees_lines text.now }
{
    let mut rest = text;
    while let Some((_, others)) = rest.split_first() {
        if begins_with_line_word(rest) {
            return true;
        }
        rest = others;
    }
    false
}

fn begins_with_line_word(text: &[u8]) -> bool
    ensures { result ≡ spec.begins_with_line_word text.now }
{
    text.starts_with(b"__LINE__")
        || text.starts_with(b"__builtin_LINE")
        || text.starts_with(b"__builtin_FILE")
        || text.starts_with(b"__builtin_COLUMN")
        || text.starts_with(b"source_location")
}
