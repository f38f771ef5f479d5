//! Words that refer to generated files.

ghost use Rattle.std.specs.Prelude.{◌≡◌, ◌<◌, ◌≤◌, ◌+◌, map, drop, length, length as length_of, IfOk, string_bytes};
ghost use Rattle.std.specs.List.{AllByRecursion};
ghost use Rattle.texts.specs.Variables.{pair_of};
ghost use Rattle.canonical_names.specs.Alike as alike;
ghost use Rattle.canonical_names.specs.Counted.{old_names};
ghost use Rattle.canonical_names.specs.References as spec;
ghost use Rattle.compilers.specs.Replacing.{replaced};

use indexmap::IndexMap;
use std::alloc::{AllocError, Global};

pub(crate) fn holds(text: &str, part: &str) -> bool
    ensures { result ≡ alike.holds part.now text.now }
{
    text.contains(part)
}

// A text with each `old`, which isn't empty, replaced by `new`; no copy if it doesn't contain `old`.
fn replace(alloc: Global, whole: String, old: &str, new: &str) -> Result<String, AllocError>
    requires { 0 < length old.now }
    ensures { IfOk result (λ t. string_bytes t ≡ replaced old.now new.now (string_bytes whole)) }
{
    let text = whole.as_str();
    if !holds(text, old) {
        return Ok(whole);
    }
    text.replace(alloc, old, new)
}

// `text` with each name of `length` bytes replaced by its canonical name, in their order.
fn replace_of(
    alloc: Global,
    names: &IndexMap<String, String>,
    text: String,
    length: usize,
) -> Result<String, AllocError>
    requires { 0 < length }
    ensures { IfOk result (λ t. string_bytes t ≡ spec.replaced_by_length length (map pair_of names.now.entries) (string_bytes text)) }
{
    let mut new = text;
    for (name, canonical) in names.iter() {
        if name.len() == length {
            new = replace(alloc, new, name.as_str(), canonical.as_str())?;
        }
    }
    Ok(new)
}

// Whether the `length` bytes of `text` from `start` are a name.
fn is_name_at(names: &IndexMap<String, String>, text: &str, start: usize, length: usize) -> bool
    requires some { 0 < length }
    requires within { start + length ≤ length_of text.now }
    ensures { result ≡ spec.window_is length (old_names (map pair_of names.now.entries)) (drop start text.now) }
{
    match text.get(start..start + length) {
        None => false,
        Some(part) => names.contains_key(part),
    }
}

// Whether `text` contains a name of `length` bytes: looks up each part of that length.
fn stand_of(names: &IndexMap<String, String>, text: &str, length: usize) -> bool
    requires { 0 < length }
    ensures { result ≡ spec.stand_of length (old_names (map pair_of names.now.entries)) text.now }
{
    if text.len() < length {
        return false;
    }
    for start in 0..text.len() - length + 1 {
        if is_name_at(names, text, start, length) {
            return true;
        }
    }
    false
}

// The length of the longest name in `text` of at most `most` bytes, or 0 if there is none: looks up the parts of
// `text`.
fn longest_part(names: &IndexMap<String, String>, text: &str, most: usize) -> usize
    ensures { result ≡ spec.longest_in text.now most (old_names (map pair_of names.now.entries)) }
{
    let mut length = most;
    while length > 0 {
        if stand_of(names, text, length) {
            return length;
        }
        length -= 1;
    }
    0
}

// The same: searches `text` for one name after the other.
fn longest_name(names: &IndexMap<String, String>, text: &str, most: usize) -> usize
    ensures { result ≡ spec.longest_in text.now most (old_names (map pair_of names.now.entries)) }
{
    let mut best = 0;
    for (name, _) in names.iter() {
        if best < name.len() && name.len() <= most && holds(text, name.as_str()) {
            best = name.len();
        }
    }
    best
}

// The same, by what there are fewer of: the parts of `text`, or the names.
fn longest_in(names: &IndexMap<String, String>, text: &str, most: usize) -> usize
    ensures { result ≡ spec.longest_in text.now most (old_names (map pair_of names.now.entries)) }
{
    if text.len().saturating_mul(text.len()) / 2 < names.len() {
        longest_part(names, text, most)
    } else {
        longest_name(names, text, most)
    }
}

/// Replaces each name of a map in `text` by its canonical name: the longest name first, and of equally long
/// ones the one that was added first. No name is empty.
///
/// It visits only the lengths of names that `text` contains, so the names needn't be sorted.
pub(crate) fn rewrite(
    alloc: Global,
    names: &IndexMap<String, String>,
    text: &str,
) -> Result<String, AllocError>
    requires { AllByRecursion (λ p. 0 < length p.0) (map pair_of names.now.entries) }
    ensures { IfOk result (λ t. string_bytes t ≡ spec.replaced_by_all (spec.longest_pairs_first (map pair_of names.now.entries)) text.now) }
{
    let mut new = String::from_str(alloc, text)?;
    let mut longest = longest_in(names, text, text.len());
    while longest > 0 {
        new = replace_of(alloc, names, new, longest)?;
        longest = longest_in(names, new.as_str(), longest - 1);
    }
    Ok(new)
}
