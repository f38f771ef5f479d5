//! The files that preprocessed texts list in line markers, each once, in order of first appearance.

ghost use Rattle.std.specs.Prelude.{◌≡◌, [], IfOk, OnOk, Some, map, vec_items, ◌==◌, ◌≤◌, length, IfSome, position, option_copied};
ghost use Rattle.dependency_rules.specs.Markers as spec;
ghost use Rattle.texts.specs.Lists.{with_name, rest_after};

use dry_runs::first_line;
use indexmap::IndexSet;
use std::alloc::{AllocError, Global};
use texts::bytes::Bytes;

// Notes a file, unless it is noted.
fn note(alloc: Global, names: &mut IndexSet<Vec<u8>>, name: &[u8]) -> Result<(), AllocError>
    ensures { OnOk result (map vec_items names.new.keys ≡ with_name (map vec_items names.old.keys) (Some name.now)) }
{
    names.insert_full(Vec::from_slice(alloc, name)?)?;
    Ok(())
}

// Notes the files that a text lists.
fn note_text(
    alloc: Global,
    names: &mut IndexSet<Vec<u8>>,
    of_system: bool,
    text: &[u8],
) -> Result<(), AllocError>
    ensures { OnOk result (map vec_items names.new.keys ≡ spec.noted_all of_system (map vec_items names.old.keys) text.now) }
{
    let mut rest = text;
    while let Some((line, others)) = first_line(rest) {
        if let Some(name) = file_listed(of_system, line) {
            note(alloc, names, name)?;
        }
        rest = others;
    }
    Ok(())
}

/// The files of texts, the source first, with those of the system or without.
pub fn files_of(
    alloc: Global,
    of_system: bool,
    source: &[u8],
    texts: &[Bytes],
) -> Result<IndexSet<Vec<u8>>, AllocError>
    ensures { IfOk result (λ names. map vec_items names.keys ≡ spec.files_of of_system source.now texts.now) }
{
    let mut names = IndexSet::new(alloc);
    note(alloc, &mut names, source)?;
    for text in texts {
        note_text(alloc, &mut names, of_system, text.as_slice())?;
    }
    Ok(names)
}

// What follows a mark that a text begins with.
fn behind<'a>(text: &'a [u8], mark: &[u8]) -> Option<&'a [u8]>
    ensures { option_copied result ≡ rest_after mark.now text.now }
{
    text.strip_prefix(mark)
}

// The place of the first quote.
fn quote(text: &[u8]) -> Option<usize>
    ensures value { result ≡ position (λ c. c == 34) text.now }
    ensures within { IfSome result (λ place. place ≤ length text.now) }
{
    text.iter().position(|byte| *byte == b'"')
}

// Whether a name is none of a file.
fn is_no_file(name: &[u8]) -> bool
    ensures { result ≡ spec.is_no_file name.now }
{
    name.starts_with(b"<") || name.ends_with(b"/")
}

// Whether a text is a mark and no more.
fn is_mark(mark: &[u8], text: &[u8]) -> bool
    ensures { result ≡ spec.is_mark mark.now text.now }
{
    match behind(text, mark) {
        None => false,
        Some(rest) => matches!(rest, []),
    }
}

// Whether gcc writes this behind the name of a file of the program, from the quote on.
fn is_of_program(flags: &[u8]) -> bool
    ensures { result ≡ spec.is_of_program flags.now }
{
    is_mark(b"\"", flags) || is_mark(b"\" 1", flags) || is_mark(b"\" 2", flags)
}

// Whether it writes that behind the name of a file of the system.
fn is_of_system(flags: &[u8]) -> bool
    ensures { result ≡ spec.is_of_system flags.now }
{
    is_mark(b"\" 3", flags)
        || is_mark(b"\" 1 3", flags)
        || is_mark(b"\" 2 3", flags)
        || is_mark(b"\" 3 4", flags)
        || is_mark(b"\" 1 3 4", flags)
        || is_mark(b"\" 2 3 4", flags)
}

// The name that a rule lists by a name and what is behind it.
fn listed<'a>(of_system: bool, name: &'a [u8], flags: &'a [u8]) -> Option<&'a [u8]>
    ensures { option_copied result ≡ spec.listed of_system name.now flags.now }
{
    if is_no_file(name) {
        None
    } else if of_system || is_of_program(flags) {
        Some(name)
    } else if is_of_system(flags) {
        None
    } else {
        Some(flags)
    }
}

/// The file that a rule lists by a line of a preprocessed text, if the line is the marker of a file's beginning: a file of the system only if
/// these are listed too.
pub fn file_listed(of_system: bool, line: &[u8]) -> Option<&[u8]>
    ensures { option_copied result ≡ spec.file_listed of_system line.now }
{
    let text = behind(line, b"# 1 \"")?;
    let place = quote(text)?;
    listed(of_system, &text[..place], &text[place..])
}

// What follows the beginning of a line marker, as gcc numbers a text's first line.
fn behind_number(line: &[u8]) -> Option<&[u8]>
    ensures { option_copied result ≡ spec.behind_number line.now }
{
    behind(line, b"# 0 \"").or(behind(line, b"# 1 \""))
}

// Whether a line says that the source follows.
fn is_source(source: &[u8], line: &[u8]) -> bool
    ensures { result ≡ spec.is_source source.now line.now }
{
    let Some(name) = behind_number(line) else {
        return false;
    };
    match behind(name, source) {
        None => false,
        Some(rest) => matches!(rest, [b'"']),
    }
}

// Whether a text begins with the source.
pub fn begins_with_source(source: &[u8], text: &[u8]) -> bool
    ensures { result ≡ spec.begins_with_source source.now text.now }
{
    match first_line(text) {
        None => false,
        Some((line, _)) => is_source(source, line),
    }
}
