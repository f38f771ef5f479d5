//! The layout of a text.

ghost use Rattle.std.specs.Prelude.{◌≡◌, IfOk, option_map};
ghost use Rattle.source_layouts.specs.Reading as spec;

use crate::reader::Reader;
use std::alloc::{AllocError, Global};

/// Writes the layout of a source text: its tokens with one blank between two that have any between them, and its directives byte for byte.
/// Comments, other blanks and lines without a token are left out. Returns `None` if it has none. The only error is an allocation failure.
///
/// If `is_lined` says that lines count, each line end counts too, also in a comment.
///
/// A text has none that a preprocessor may read in another way, or of which it may warn: with a raw string, a trigraph, an open literal or comment,
/// a backslash outside literals and directives, a quote right behind a number or a word with `$` or letters that aren't ASCII, a comment within a
/// comment or one that goes on behind a directive, a byte order mark, and control bytes. Unless lines count, it has none either with a bracket that
/// isn't closed, with more than 65,535 open at once, with a directive within brackets, or with one that may set the number of a line.
pub fn layout(alloc: Global, text: &[u8], is_lined: bool) -> Result<Option<Vec<u8>>, AllocError>
    ensures { IfOk result (λ found. option_map (λ v. v.items) found ≡ spec.layout is_lined text.now) }
{
    if text.starts_with(b"\xef\xbb\xbf") || has_trigraph(text) {
        return Ok(None);
    }
    let mut reader = Reader::new(alloc, is_lined);
    for byte in text {
        reader.read(*byte)?;
    }
    reader.finish()
}

// Whether there may be a trigraph: two question marks in a row.
fn has_trigraph(text: &[u8]) -> bool
    ensures { result ≡ spec.has_trigraph text.now }
{
    let mut rest = text;
    while let Some((byte, others)) = rest.split_first() {
        if *byte == b'?' && others.starts_with(b"?") {
            return true;
        }
        rest = others;
    }
    false
}
