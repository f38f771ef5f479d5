//! The environment lines of a dry run, and the expansion of references to what they set.

ghost use Rattle.std.specs.Prelude.{◌≡◌, ◌++◌, ◌<◌, ◌≤◌, Some, true, false, nat_le, length, map, fold, drop, codes, IfOk, IfSome, string_bytes, option_copied, option_map, chars};
ghost use Rattle.std.specs.List.{list_all};
ghost use Rattle.texts.specs.Lists.{rest_after};
ghost use Rattle.texts.specs.Shell.Splitting.{shell_words};
ghost use Rattle.dry_runs.specs.Environment as spec;
ghost use Rattle.dry_runs.specs.Limit as limit;
ghost use Rattle.compilers.specs.Replacing as replacing;
ghost use Rattle.dry_runs.specs.Reading.{texts_of, IsCutAt};

use crate::places::name_cut;
use crate::plain_words::words_of;
use crate::set_variables::{Reference, SetVariables};
use std::alloc::{AllocError, Global};
use unicode::perl::is_word_character;

// What stands before and behind the first `mark` in a text.
pub fn parted(text: &str, mark: char) -> Option<(&str, &str)>
    requires { mark < 128 }
    ensures cut { IsCutAt mark text.now result }
    ensures less { IfSome result (λ parts. length parts.1.now < length text.now) }
{
    text.split_once(mark)
}

// Whether a byte may stand in the name of an environment line.
pub(crate) fn is_name_byte(byte: u8) -> bool
    ensures { result ≡ spec.is_name_byte byte }
{
    byte == b'_' || byte.is_ascii_uppercase()
}

pub(crate) fn is_of_name_bytes(text: &[u8]) -> bool
    ensures { result ≡ list_all spec.is_name_byte text.now }
{
    text.iter().all(|byte| is_name_byte(*byte))
}

/// The name and the value that an environment line assigns, or `None` if the text is no such line. The first byte
/// rules most commands out.
pub fn assignment(text: &str) -> Option<(&str, &str)>
    ensures { option_map texts_of result ≡ spec.assignment text.now }
{
    let (name, rest) = name_cut(text);
    if name.is_empty() {
        return None;
    }
    match behind_name(rest, "=") {
        None => None,
        Some(value) => Some((name, value)),
    }
}

// Whether a text begins with a character that no name goes on with.
pub(crate) fn begins_otherwise(text: &str) -> bool
    ensures { result ≡ spec.begins_otherwise (chars text.now) }
{
    text.chars().next().is_some_and(|c| !is_word_character(c))
}

pub(crate) fn behind_name<'a>(text: &'a str, name: &str) -> Option<&'a str>
    ensures rest { option_copied result ≡ rest_after name.now text.now }
    ensures less { IfSome result (λ rest. length rest.now ≤ length text.now) }
{
    text.strip_prefix(name)
}

// Appends a text, unless that makes one longer than `left`. Answers whether it did.
fn push_within(out: &mut String, piece: &str, left: usize) -> Result<bool, AllocError>
    ensures fits { IfOk result (λ fits. fits ≡ nat_le (length (string_bytes out.old ++ piece.now)) left) }
    ensures text { IfOk result (λ fits. fits ≡ true → string_bytes out.new ≡ string_bytes out.old ++ piece.now) }
{
    let Some(room) = left.checked_sub(out.len()) else {
        return Ok(false);
    };
    if piece.len() > room {
        return Ok(false);
    }
    out.push_str(piece)?;
    Ok(true)
}

// Returns what replaces a `$`, and the text that is left to read: the value if the name follows the `$`, otherwise the `$`
// itself.
fn piece_of<'a>(after: &'a str, name: &str, value: &'a str) -> (&'a str, &'a str)
    ensures cut { replacing.replaced (codes "$" ++ name.now) value.now (codes "$" ++ after.now)
        ≡ result.0.now ++ replacing.replaced (codes "$" ++ name.now) value.now result.1.now }
    ensures less { length result.1.now ≤ length after.now }
{
    match behind_name(after, name) {
        Some(behind) => (value, behind),
        None => ("$", after),
    }
}

// A text with each place of `$` and a variable's name replaced by its value, and what that text leaves of the limit, or
// `None` if it is longer than `left`.
fn made(
    alloc: Global,
    text: &str,
    name: &str,
    value: &str,
    left: usize,
) -> Result<Option<(usize, String)>, AllocError>
    ensures { IfOk result (λ t. option_map limit.text_seen t ≡ limit.made left (replacing.replaced (codes "$" ++ name.now) value.now text.now)) }
{
    let room = text.len().saturating_add(value.len()).min(left);
    let mut out = String::with_capacity(alloc, room)?;
    let mut rest = text;
    while let Some((front, after)) = parted(rest, '$') {
        let (piece, behind) = piece_of(after, name, value);
        if !push_within(&mut out, front, left)? {
            return Ok(None);
        }
        if !push_within(&mut out, piece, left)? {
            return Ok(None);
        }
        rest = behind;
    }
    if !push_within(&mut out, rest, left)? {
        return Ok(None);
    }
    match left.checked_sub(out.len()) {
        None => Ok(None),
        Some(less) => Ok(Some((less, out))),
    }
}

// What is left of the limit, and a text with a variable that it refers to expanded, and then those behind it, one after
// the other, or `None` if these texts together are longer than `left`.
fn expanded(
    alloc: Global,
    env: &SetVariables,
    text: &str,
    first: Reference,
    left: usize,
) -> Result<Option<(usize, String)>, AllocError>
    ensures { IfOk result (λ t. option_map limit.text_seen t
        ≡ fold limit.expanded_fitting (limit.made left (replacing.replaced (codes "$" ++ first.entry.name.now) first.entry.value.now text.now)) (drop first.entry.next env.now)) }
{
    let Some((mut room, mut expanded)) = made(alloc, text, first.name, first.value, left)? else {
        return Ok(None);
    };
    let mut from = first.next;
    while let Some(next) = env.first_reference(from, expanded.as_str()) {
        let Some((less, more)) = made(alloc, expanded.as_str(), next.name, next.value, room)? else {
            return Ok(None);
        };
        room = less;
        expanded = more;
        from = next.next;
    }
    Ok(Some((room, expanded)))
}

// The shell words of a text, `None` if it doesn't split, and what is left of the limit.
fn words_alone(
    alloc: Global,
    text: &str,
    left: usize,
) -> Result<Option<(Option<Vec<String>>, usize)>, AllocError>
    ensures { IfOk result (λ found. option_map limit.words_seen found ≡ Some (limit.words_left (left, text.now))) }
{
    Ok(Some((words_of(alloc, text)?, left)))
}

// The shell words of a text in which the variables of an environment are expanded, and what is left of the limit: an inner
// `None` if the result doesn't split, and an outer one if the text, or all texts together that the expansion makes, are
// longer than `left`. A text that refers to no variable isn't copied.
pub fn expanded_words_within(
    alloc: Global,
    env: &SetVariables,
    text: &str,
    left: usize,
) -> Result<Option<(Option<Vec<String>>, usize)>, AllocError>
    ensures { IfOk result (λ found. option_map limit.words_seen found
        ≡ option_map limit.words_left (limit.expanded_within left env.now text.now)) }
{
    if text.len() > left {
        return Ok(None);
    }
    match env.first_reference(0, text) {
        None => words_alone(alloc, text, left),
        Some(first) => match expanded(alloc, env, text, first, left)? {
            None => Ok(None),
            Some((room, expanded)) => words_alone(alloc, expanded.as_str(), room),
        },
    }
}

/// The shell words of a text in which the variables of an environment are expanded, or `None` if the result doesn't
/// split. A text that refers to no variable isn't copied.
pub fn expanded_words(
    alloc: Global,
    env: &SetVariables,
    text: &str,
) -> Result<Option<Vec<String>>, AllocError>
    ensures { IfOk result (λ found.
        option_map (λ v. map string_bytes v.items) found ≡ shell_words (spec.expanded env.now text.now)) }
{
    match expanded_words_within(alloc, env, text, usize::MAX)? {
        None => Err(AllocError),
        Some((words, _)) => Ok(words),
    }
}
