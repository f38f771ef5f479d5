//! The normal form of a text.

ghost use Rattle.std.specs.Prelude.{◌≡◌, IfOk, option_map};
ghost use Rattle.token_texts.specs.Lexing.{has_trigraph};
ghost use Rattle.token_texts.specs.Normal.{normal};

use crate::lexer::Lexer;
use std::alloc::{AllocError, Global};

/// Writes the tokens of a preprocessed text, each with a newline after it. Returns `None` if it isn't sure of them. The only error
/// is an allocation failure.
///
/// Two texts give the same bytes if and only if they have the same tokens in the same order (the law `keys`).
/// Tokens are those of C++ and C, but don't depend on the language, its version and the compiler: operators stay together if
/// there is no blank between them. A directive is one token, with its line end. A line marker is one if it enters a file,
/// returns to one, or names another than the last one. It has the name and the flags, and no number.
///
/// There are none if a literal or a comment is open at its end, if two lines may be joined, if there may be a trigraph or the
/// digraph `%:`, if a `#` isn't a line's first byte, for `#line` and comments in directives, for a raw string's delimiter that
/// has more than 16 bytes or other than letters and digits, and for bytes that mean nothing outside literals.
///
/// # When a cache may use it
///
/// A product doesn't show lines by itself: with nvcc 13.0 and gcc 12, from `-O0` to `-O3`, `-rdc=true` or not, the PTX,
/// cubin and object stayed the same byte for byte when only comments, blanks and line numbers changed. The files that cudafe++
/// writes have numbers, and those that were there first stay. The tokens aren't enough, and the text itself has to count,
///
/// - if the command asks for lines: `-g`, `-G`, `-lineinfo`, `--source-in-ptx`; `-dlto` and targets such as `lto_80`, whose
///   products changed too; `-flto`, sanitizers and `--coverage` of the host compiler. Clang wasn't tried;
/// - if the text may see its lines ([`sees_lines`](crate::sees_lines));
/// - if the command prints anything, since messages name lines, and comments can silence a warning;
/// - if macros that the text defines turn arguments into strings, which shows blanks.
///
/// What the files contain that `#include` names, as cudafe++'s texts do, isn't in the tokens.
pub fn token_text(alloc: Global, text: &[u8]) -> Result<Option<Vec<u8>>, AllocError>
    ensures { IfOk result (λ found. option_map (λ v. v.items) found ≡ normal text.now) }
{
    if has_trigraph(text) {
        return Ok(None);
    }
    let mut lexer = Lexer::new(alloc);
    for byte in text {
        lexer.read(*byte)?;
    }
    lexer.finish()
}

// Whether there may be a trigraph: two question marks in a row.
fn has_trigraph(text: &[u8]) -> bool
    ensures { result ≡ has_trigraph text.now }
{
    let mut rest = text;
    while let Some((byte, others)) = rest.split_first() {
        if *byte == b'?' && others.starts_with(b"?") {
            return true;
        }
        rest = others;
    }
    false
}
