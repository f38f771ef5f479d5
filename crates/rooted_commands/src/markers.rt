//! What preprocessors write, with rooted names in its line markers.

ghost use Rattle.std.specs.Prelude.{◌≡◌, ◌++◌, ◌∷◌, [], ◌==◌, ◌≤◌, ◌<◌, IfOk, OnOk, IfSome, MatchOption, length, option_copied, option_map, position};
ghost use Rattle.std.specs.List.{list_all};
ghost use Rattle.rooted_commands.specs.Markers as spec;
ghost use Rattle.texts.specs.Path.{lacks};

use crate::own::behind;
use crate::paths::{Root, rooted_path};
use std::alloc::{AllocError, Global};
use std::str;
use texts::bytes::Bytes;

// How long a text's first line is, with its newline.
fn line_length(text: &[u8]) -> usize
    ensures value { result ≡ spec.line_length text.now }
    ensures within { result ≤ length text.now }
{
    for (place, byte) in text.iter().enumerate() {
        if *byte == b'\n' {
            return place.saturating_add(1);
        }
    }
    text.len()
}

// A text's first line, with its newline, and the rest.
fn first_line(text: &[u8]) -> Option<(&[u8], &[u8])>
    ensures cut { MatchOption result (spec.lines_of text.now ≡ []) (λ cut. spec.lines_of text.now ≡ cut.0.now ∷ spec.lines_of cut.1.now) }
    ensures less { IfSome result (λ cut. length cut.1.now < length text.now) }
{
    if text.is_empty() {
        None
    } else {
        Some(text.split_at(line_length(text)))
    }
}

// What is behind the digits that a text begins with.
fn behind_digits(text: &[u8]) -> &[u8]
    ensures { result.now ≡ spec.behind_digits text.now }
{
    let mut rest = text;
    while let Some((byte, others)) = rest.split_first() {
        if !byte.is_ascii_digit() {
            return rest;
        }
        rest = others;
    }
    rest
}

// The same, if there is one.
fn behind_number(text: &[u8]) -> Option<&[u8]>
    ensures { option_copied result ≡ spec.behind_number text.now }
{
    let (byte, others) = text.split_first()?;
    if byte.is_ascii_digit() {
        Some(behind_digits(others))
    } else {
        None
    }
}

// The rest of a line marker from its name on.
fn marker_rest(line: &[u8]) -> Option<&[u8]>
    ensures { option_copied result ≡ spec.marker_rest line.now }
{
    let number = behind(line, b"# ")?;
    behind(behind_number(number)?, b" \"")
}

// The place of the first byte that is `mark`.
fn place_of(mark: u8, text: &[u8]) -> Option<usize>
    ensures value { result ≡ position (λ c. c == mark) text.now }
    ensures within { IfSome result (λ place. place ≤ length text.now) }
{
    text.iter().position(|byte| *byte == mark)
}

fn has_no(byte: u8, text: &[u8]) -> bool
    ensures { result ≡ lacks byte text.now }
{
    !text.contains(&byte)
}

// Whether a name is that of a file, as it is.
fn is_file_name(name: &[u8]) -> bool
    ensures { result ≡ spec.is_file_name name.now }
{
    has_no(b'\\', name) && !name.starts_with(b"<")
}

// A name as a text.
fn if_utf8(name: &[u8]) -> Option<&str>
    ensures { option_copied result ≡ spec.if_utf8 name.now }
{
    match str::from_utf8(name) {
        Ok(path) => Some(path),
        Err(_) => None,
    }
}

// The path that a name is.
fn file_path(name: &[u8]) -> Option<&str>
    ensures { option_copied result ≡ spec.file_path name.now }
{
    if is_file_name(name) {
        if_utf8(name)
    } else {
        None
    }
}

// Adds a name, rooted if it is a path.
fn push_name(alloc: Global, root: &Root, text: &mut Vec<u8>, name: &[u8]) -> Result<(), AllocError>
    ensures { OnOk result (text.new.items ≡ text.old.items ++ spec.rooted_name root.now name.now) }
{
    match file_path(name) {
        None => text.extend_from_slice(name),
        Some(path) => text.extend_from_slice(rooted_path(alloc, root, path)?.as_bytes()),
    }
}

// Adds a line that begins outside of raw strings.
fn push_marker(
    alloc: Global,
    root: &Root,
    text: &mut Vec<u8>,
    line: &[u8],
) -> Result<(), AllocError>
    ensures { OnOk result (text.new.items ≡ text.old.items ++ spec.rooted_marker root.now line.now (spec.marker_rest line.now)) }
{
    let Some(rest) = marker_rest(line) else {
        return text.extend_from_slice(line);
    };
    text.extend_from_slice(&line[..line.len().saturating_sub(rest.len())])?;
    let Some(place) = place_of(b'"', rest) else {
        return text.extend_from_slice(rest);
    };
    push_name(alloc, root, text, &rest[..place])?;
    text.extend_from_slice(&rest[place..])
}

// The delimiter of a raw string that a text begins with, before `(`.
fn delimiter(text: &[u8]) -> Option<&[u8]>
    ensures { option_copied result ≡ spec.delimiter text.now }
{
    let place = place_of(b'(', text)?;
    let delim = &text[..place];
    if place <= 16 && are_delimiter_bytes(delim) {
        Some(delim)
    } else {
        None
    }
}

fn are_delimiter_bytes(bytes: &[u8]) -> bool
    ensures { result ≡ list_all spec.is_delimiter_byte bytes.now }
{
    bytes
        .iter()
        .all(|byte| !matches!(*byte, b' ' | b')' | b'\\' | b'"'))
}

// What is behind the end of a raw string that a text begins with.
fn behind_end<'a>(delim: &[u8], text: &'a [u8]) -> Option<&'a [u8]>
    ensures { option_copied result ≡ spec.behind_end delim.now text.now }
{
    let rest = behind(text, b")")?;
    behind(behind(rest, delim)?, b"\"")
}

// What is behind the first one in a text.
fn behind_first_end<'a>(delim: &[u8], text: &'a [u8]) -> Option<&'a [u8]>
    ensures { option_copied result ≡ spec.behind_first_end delim.now text.now }
{
    let mut rest = text;
    while let Some((_, others)) = rest.split_first() {
        if let Some(found) = behind_end(delim, rest) {
            return Some(found);
        }
        rest = others;
    }
    None
}

// The delimiter of the raw string that a text begins with, if it has no end there.
fn open_at(text: &[u8]) -> Option<&[u8]>
    ensures { option_copied result ≡ spec.open_at text.now }
{
    let inside = behind(text, b"R\"")?;
    let delim = delimiter(inside)?;
    match behind_first_end(delim, inside) {
        None => Some(delim),
        Some(_) => None,
    }
}

// The first of a line that has no end in it: its delimiter, and what is behind its `R`.
fn first_open(line: &[u8]) -> Option<(&[u8], &[u8])>
    ensures { option_map spec.shown_open result ≡ spec.first_open line.now }
{
    let mut rest = line;
    while let Some((_, others)) = rest.split_first() {
        if let Some(delim) = open_at(rest) {
            return Some((delim, others));
        }
        rest = others;
    }
    None
}

/// Where a line begins.
#[derive(Clone, Copy, Debug, Drop)]
pub enum Place<'a> {
    /// Outside of raw strings.
    Outside,
    /// Inside of a raw string with a delimiter.
    Inside(&'a [u8]),
    /// That isn't known.
    Lost,
}

// Where the next line begins, if this one begins outside of raw strings.
fn behind_outside(line: &[u8]) -> Place<'_>
    ensures { spec.shown result ≡ spec.behind_outside line.now }
{
    let Some((delim, rest)) = first_open(line) else {
        return Place::Outside;
    };
    match first_open(rest) {
        None => Place::Inside(delim),
        Some(_) => Place::Lost,
    }
}

// Where the next line begins.
fn place_after<'a>(place: Place<'a>, line: &'a [u8]) -> Place<'a>
    ensures { spec.shown result ≡ spec.state_after (spec.shown place.entry) line.now }
{
    match place {
        Place::Outside => behind_outside(line),
        Place::Inside(delim) => match behind_first_end(delim, line) {
            None => Place::Inside(delim),
            Some(rest) => behind_outside(rest),
        },
        Place::Lost => Place::Lost,
    }
}

// Adds a line by where it begins.
fn push_line(
    alloc: Global,
    root: &Root,
    text: &mut Vec<u8>,
    place: Place<'_>,
    line: &[u8],
) -> Result<(), AllocError>
    ensures { OnOk result (text.new.items ≡ text.old.items ++ spec.rooted_line root.now (spec.shown place.entry) line.now) }
{
    match place {
        Place::Outside => push_marker(alloc, root, text, line),
        Place::Inside(_) | Place::Lost => text.extend_from_slice(line),
    }
}

/// A preprocessor's text, with rooted names in its line markers, as in `# 12 "NAME" 1`.
///
/// A name in angle brackets stays, and so does one with a backslash, or that is no UTF-8. Lines of raw strings stay. If a line may begin more
/// than one that goes on in the next line, all further lines stay.
pub fn rooted_text(alloc: Global, root: &Root, text: &[u8]) -> Result<Bytes, AllocError>
    ensures { IfOk result (λ rooted. rooted ≡ spec.rooted_text root.now text.now) }
{
    let mut rooted = Vec::new(alloc);
    let mut place = Place::Outside;
    let mut rest = text;
    while let Some((line, others)) = first_line(rest) {
        push_line(alloc, root, &mut rooted, place, line)?;
        place = place_after(place, line);
        rest = others;
    }
    Ok(Bytes::from_vec(rooted))
}
