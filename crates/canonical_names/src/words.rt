//! The words of a dry run: their heads and cores.

ghost use Rattle.std.specs.Prelude.{◌≡◌, ◌++◌, nat_eq, codes, IfOk, string_bytes};
ghost use Rattle.std.specs.List.{starts_with};
ghost use Rattle.canonical_names.specs.Generated as spec;

use std::alloc::{AllocError, Global};

pub(crate) fn is_marked(word: &str) -> bool
    ensures { result ≡ starts_with nat_eq word.now (codes "-Fi") }
{
    word.as_bytes().starts_with(b"-Fi")
}

// The core of a word: what is left without every `-Fi` that it begins with.
pub(crate) fn core(word: &str) -> &str
    ensures { result.now ≡ spec.core_of word.now }
{
    let mut rest = word;
    while let Some(front) = rest.strip_prefix("-Fi") {
        rest = front;
    }
    rest
}

/// Whether a text begins with `-`.
pub fn begins_with_dash(text: &str) -> bool
    ensures { result ≡ spec.begins_with_dash text.now }
{
    text.as_bytes().starts_with(b"-")
}

// A text after the head of a word: after one `-Fi` if the word begins with `-Fi`.
pub(crate) fn with_head(alloc: Global, word: &str, text: String) -> Result<String, AllocError>
    ensures { IfOk result (λ t. string_bytes t ≡ spec.head_of word.now ++ string_bytes text) }
{
    if is_marked(word) {
        format!(in alloc; "-Fi{text}")
    } else {
        Ok(text)
    }
}
