//! The forms of a dry run's lines: what two dry runs of one call are compared by.

ghost use Rattle.std.specs.Prelude.{◌≡◌, ◌++◌, ◌==◌, ◌∷◌, ◌≤◌, [], length, IfOk, OnOk, nat_eq, option_copied, option_map, option_to_list};
ghost use Rattle.std.specs.List.{ends_with, list_any, starts_with};
ghost use Rattle.dry_run_pairs.specs.Forms as spec;
ghost use Rattle.dry_run_pairs.specs.Parts.{parts_of};

use crate::comparison::Comparison;
use crate::cuts::{behind, cut, holds};
use crate::lines::marked;
use crate::names::push_bare;
use dry_runs::first_line;
use std::alloc::{AllocError, Global};
use texts::bytes::Bytes;

// A directory with a `/` at its end.
fn with_slash(alloc: Global, path: &[u8]) -> Result<Bytes, AllocError>
    ensures { IfOk result (λ folder. folder ≡ spec.with_slash path.now) }
{
    let mut folder = Vec::from_slice(alloc, path)?;
    if !path.ends_with(b"/") {
        folder.push(b'/')?;
    }
    Ok(Bytes::from_vec(folder))
}

// The directory that keeps generated files, seen from the working directory if it is below that.
fn kept_folder(alloc: Global, here: &[u8], path: &[u8]) -> Result<Bytes, AllocError>
    ensures { IfOk result (λ folder. folder ≡ spec.kept_folder here.now path.now) }
{
    if path.is_empty() {
        return Ok(Bytes::new(alloc));
    }
    with_slash(alloc, behind(path, here).unwrap_or(path))
}

// The directories that don't count in front of a name.
fn folders_of(alloc: Global, call: &Comparison<'_>) -> Result<Vec<Bytes>, AllocError>
    ensures { IfOk result (λ folders. folders.items ≡ spec.folders_of (spec.call_of call.now)) }
{
    let here = with_slash(alloc, call.cwd.as_bytes())?;
    let kept = kept_folder(alloc, here.as_slice(), call.keep_dir.as_bytes())?;
    let mut folders = Vec::with_capacity(alloc, 2)?;
    folders.push(here)?;
    folders.push(kept)?;
    Ok(folders)
}

// Whether a text is the end of a command that prints to files.
fn is_printing(text: &[u8]) -> bool
    ensures { result ≡ spec.is_printing text.now }
{
    text.starts_with(b" > ")
        && !text.contains(&b'"')
        && holds(text, b"_stdout 2>")
        && text.ends_with(b"_stderr")
}

// A line without such an end.
fn without_printing(line: &[u8]) -> &[u8]
    ensures { result.now ≡ spec.without_printing line.now }
{
    for at in 0..line.len() {
        if is_printing(&line[at..]) {
            return &line[..at];
        }
    }
    line
}

// Whether a line is a command that prints to files.
fn prints(line: &[u8]) -> bool
    ensures { result ≡ spec.prints line.now }
{
    match marked(line) {
        None => false,
        Some(text) => without_printing(text).len() != text.len(),
    }
}

/// Whether a dry run's commands run side by side: then one prints to files, which nvcc reads later.
pub fn prints_to_files(run: &[u8]) -> bool
    ensures { result ≡ spec.prints_to_files run.now }
{
    let mut rest = run;
    while let Some((line, others)) = first_line(rest) {
        if prints(line) {
            return true;
        }
        rest = others;
    }
    false
}

// A line without blanks at its end.
fn without_blanks(line: &[u8]) -> &[u8]
    ensures { result.now ≡ spec.without_blanks line.now }
{
    let mut rest = line;
    while let Some((last, front)) = rest.split_last() {
        if *last != b' ' {
            break;
        }
        rest = front;
    }
    rest
}

// What is in front of the file that fatbinary makes beside the one that it embeds, and behind it.
fn around_created(line: &[u8]) -> Option<(&[u8], &[u8])>
    ensures { option_map parts_of result ≡ spec.around_created line.now }
{
    if !holds(line, b" --embedded-fatbin=") {
        return None;
    }
    let (front, created) = cut(line, b" --create=\"")?;
    let (_, rest) = cut(created, b"\" -64 ")?;
    Some((front, rest))
}

// A line without that file.
fn without_created(alloc: Global, line: &[u8]) -> Result<Vec<u8>, AllocError>
    ensures { IfOk result (λ text. text.items ≡ spec.without_created line.now) }
{
    let Some((front, rest)) = around_created(line) else {
        return Vec::from_slice(alloc, line);
    };
    let mut text = Vec::from_slice(alloc, front)?;
    text.extend_from_slice(b" -64 ")?;
    text.extend_from_slice(rest)?;
    Ok(text)
}

// Whether a line is none of a command of the plan: nvcc removes a file, or makes the dependency file.
fn is_other(text: &[u8]) -> bool
    ensures { result ≡ spec.is_other text.now }
{
    text.starts_with(b"rm ") || text.starts_with(b"-- ")
}

// Whether a line is a preprocessor's for the host or for a dependency file.
fn is_host_preprocessor(line: &[u8]) -> bool
    ensures { result ≡ spec.is_host_preprocessor line.now }
{
    holds(line, b" -E ") && !line.ends_with(b".cpp1.ii\"")
}

// The text of a line that counts.
fn counted<'a>(call: &Comparison<'_>, line: &'a [u8]) -> Option<&'a [u8]>
    ensures { option_copied result ≡ spec.counted (spec.call_of call.now) line.now }
{
    let text = marked(line)?;
    if is_other(text) {
        return None;
    }
    let command = without_blanks(without_printing(text));
    if call.writes_rule && is_host_preprocessor(command) {
        None
    } else {
        Some(command)
    }
}

// The form of a line that counts.
fn form_of_text(alloc: Global, folders: &[Bytes], text: &[u8]) -> Result<Bytes, AllocError>
    ensures { IfOk result (λ form. form ≡ spec.form_of_text folders.now text.now) }
{
    let line = without_created(alloc, text)?;
    let mut form = Vec::with_capacity(alloc, line.len())?;
    push_bare(&mut form, true, folders, line.as_slice())?;
    Ok(Bytes::from_vec(form))
}

// The forms of a dry run's lines, in order.
pub fn forms_of(alloc: Global, call: &Comparison<'_>, run: &[u8]) -> Result<Vec<Bytes>, AllocError>
    ensures { IfOk result (λ forms. forms.items ≡ spec.forms_of (spec.call_of call.now) run.now) }
{
    let folders = folders_of(alloc, call)?;
    let mut forms = Vec::new(alloc);
    let mut rest = run;
    while let Some((line, others)) = first_line(rest) {
        if let Some(text) = counted(call, line) {
            forms.push(form_of_text(alloc, folders.as_slice(), text)?)?;
        }
        rest = others;
    }
    Ok(forms)
}
