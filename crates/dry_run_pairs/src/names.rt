//! What stands in front of names in a line of a dry run, which is taken out: directories, and the beginnings of temporary files' names.

ghost use Rattle.std.specs.Prelude.{◌≡◌, ◌++◌, ◌∷◌, ◌<◌, ◌≤◌, [], length, IfOk, OnOk, IfSome, map, option_copied};
ghost use Rattle.dry_run_pairs.specs.Cuts as cuts;
ghost use Rattle.dry_run_pairs.specs.Names as spec;

use crate::cuts::behind;
use std::alloc::{AllocError, Global};
use texts::bytes::Bytes;

// Whether a name may begin behind a byte.
fn opens_name(byte: u8) -> bool
    ensures { result ≡ spec.opens_name byte }
{
    byte == b'"' || byte == b'='
}

// How many bytes of directories a name begins with.
fn folder_front(folders: &[Bytes], name: &[u8]) -> usize
    ensures value { result ≡ spec.folder_front folders.now name.now }
    ensures within { result ≤ length name.now }
{
    let mut rest = name;
    for folder in folders {
        rest = behind(rest, folder.as_slice()).unwrap_or(rest);
    }
    name.len() - rest.len()
}

fn is_hex_digit(byte: u8) -> bool
    ensures { result ≡ spec.is_hex_digit byte }
{
    matches!(byte, b'0'..=b'9' | b'a'..=b'f')
}

// What follows the hexadecimal digits that a text begins with.
fn past_hex(text: &[u8]) -> &[u8]
    ensures rest { result.now ≡ cuts.past spec.is_hex_digit text.now }
    ensures less { length result.now ≤ length text.now }
{
    for (at, byte) in text.iter().enumerate() {
        if !is_hex_digit(*byte) {
            return &text[at..];
        }
    }
    &[]
}

// What follows the digits that a text begins with.
fn past_digits(text: &[u8]) -> &[u8]
    ensures rest { result.now ≡ cuts.past spec.is_digit text.now }
    ensures less { length result.now ≤ length text.now }
{
    for (at, byte) in text.iter().enumerate() {
        if !byte.is_ascii_digit() {
            return &text[at..];
        }
    }
    &[]
}

// What follows the beginning of a temporary file's name, as `tmpxft_000030a2_00000000-7_`, in a text that begins with one.
fn after_beginning(text: &[u8]) -> Option<&[u8]>
    ensures rest { option_copied result ≡ spec.after_beginning text.now }
    ensures less { IfSome result (λ rest. length rest.now ≤ length text.now) }
{
    let process = past_hex(behind(text, b"tmpxft_")?);
    let call = past_hex(behind(process, b"_")?);
    let number = past_digits(behind(call, b"-")?);
    behind(number, b"_")
}

// What follows a process's number in the name of a temporary file.
fn after_process(text: &[u8]) -> Option<&[u8]>
    ensures { option_copied result ≡ spec.after_process text.now }
{
    let process = past_hex(behind(text, b"tmpxft_")?);
    behind(process, b"_")
}

/// Whether a name without a directory is that of a temporary file of nvcc, as `tmpxft_000030a2_00000000-7_k.ptx`. It also looks for
/// some that end sooner, as `tmpxft_000030a2_00000000-2.cpp`.
pub fn is_temporary(name: &[u8]) -> bool
    ensures { result ≡ spec.is_temporary name.now }
{
    after_process(name).is_some()
}

// What follows the last such beginning in a name.
fn after_last(name: &[u8]) -> Option<&[u8]>
    ensures rest { option_copied result ≡ spec.after_last name.now }
    ensures less { IfSome result (λ rest. length rest.now ≤ length name.now) }
{
    let mut found = None;
    for (at, byte) in name.iter().enumerate() {
        if opens_name(*byte) {
            return found;
        }
        found = after_beginning(&name[at..]).or(found);
    }
    found
}

// How many bytes of a name there are in front of a temporary file's own name.
fn temporary_front(name: &[u8]) -> usize
    ensures value { result ≡ spec.temporary_front name.now }
    ensures within { result ≤ length name.now }
{
    match after_last(name) {
        None => 0,
        Some(rest) => name.len() - rest.len(),
    }
}

// How many bytes of a name are taken out: those in front of a temporary file's own name, if these go, or else those of directories.
fn front(temporaries: bool, folders: &[Bytes], name: &[u8]) -> usize
    ensures value { result ≡ spec.front_of temporaries folders.now name.now }
    ensures within { result ≤ length name.now }
{
    let count = if temporaries {
        temporary_front(name)
    } else {
        0
    };
    if count == 0 {
        folder_front(folders, name)
    } else {
        count
    }
}

// Adds a text without what is taken out in front of its names.
pub fn push_bare(
    out: &mut Vec<u8>,
    temporaries: bool,
    folders: &[Bytes],
    text: &[u8],
) -> Result<(), AllocError>
    ensures { OnOk result (out.new.items ≡ out.old.items ++ spec.bare (spec.front_of temporaries folders.now) text.now) }
{
    let mut rest = text;
    let mut opens = false;
    while let Some((byte, others)) = rest.split_first() {
        let count = if opens {
            front(temporaries, folders, rest)
        } else {
            0
        };
        if count == 0 {
            out.push(*byte)?;
            opens = opens_name(*byte);
            rest = others;
        } else {
            opens = false;
            rest = &rest[count..];
        }
    }
    Ok(())
}

/// A dry run without the directory `folder` in front of names, those behind a quote or `=`. The directory is given without a `/` at its
/// end.
pub fn without_folder(alloc: Global, dry_run: &[u8], folder: &str) -> Result<Vec<u8>, AllocError>
    ensures { IfOk result (λ text. text.items ≡ spec.without_folder folder.now dry_run.now) }
{
    let mut path = Vec::from_slice(alloc, folder.as_bytes())?;
    path.push(b'/')?;
    let folders = vec![in alloc; Bytes::from_vec(path)]?;
    let mut text = Vec::with_capacity(alloc, dry_run.len())?;
    push_bare(&mut text, false, folders.as_slice(), dry_run)?;
    Ok(text)
}
