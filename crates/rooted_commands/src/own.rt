//! What tools say, as the user of a checkout reads it.

ghost use Rattle.std.specs.Prelude.{◌≡◌, IfOk, option_copied};
ghost use Rattle.texts.specs.Lists.{first_word, rest_after};
ghost use Rattle.rooted_commands.specs.OwnTexts as spec;

use crate::paths::Root;
use std::alloc::{AllocError, Global};
use texts::bytes::Bytes;

// Whether a byte may be inside a name, so that no path begins behind it.
fn is_in_name(byte: u8) -> bool
    ensures { result ≡ spec.is_in_name byte }
{
    byte.is_ascii_alphanumeric() || matches!(byte, b'_' | b'.' | b'/' | b'+' | b'-') || byte >= 128
}

/// What follows a text that bytes begin with.
pub fn behind<'a>(text: &'a [u8], mark: &[u8]) -> Option<&'a [u8]>
    ensures { option_copied result ≡ rest_after mark.now text.now }
{
    text.strip_prefix(mark)
}

// Whether a text begins with the root and `/`.
fn begins_with_root(root: &Root, text: &[u8]) -> bool
    ensures { result ≡ spec.begins_with_root root.now text.now }
{
    match behind(text, root.root.as_bytes()) {
        None => false,
        Some(rest) => rest.starts_with(b"/"),
    }
}

// The folder as the user names it.
fn first_folder(root: &Root) -> Option<&str>
    ensures { option_copied result ≡ first_word root.now.folders }
{
    match root.folders.as_slice() {
        [] => None,
        [folder, ..] => Some(folder.as_str()),
    }
}

// A text with a folder in place of the root.
fn with_folder(alloc: Global, root: &Root, folder: &str, text: &[u8]) -> Result<Bytes, AllocError>
    ensures { IfOk result (λ own. own ≡ spec.own_by root.now text.now (Some folder.now)) }
{
    let mut own = Vec::new(alloc);
    let mut left: usize = 0;
    let mut in_name = false;
    let mut rest = text;
    while let Some((byte, others)) = rest.split_first() {
        if left > 0 {
            left = left.saturating_sub(1);
            in_name = true;
        } else if !in_name && begins_with_root(root, rest) {
            own.extend_from_slice(folder.as_bytes())?;
            left = root.root.len().saturating_sub(1);
            in_name = true;
        } else {
            own.push(*byte)?;
            in_name = is_in_name(*byte);
        }
        rest = others;
    }
    Ok(Bytes::from_vec(own))
}

/// What a tool said, with the checkout's first folder in place of the root, wherever a path begins with the root and `/`. A path doesn't
/// begin behind a letter, a digit, one of `_./+-`, or a byte beyond ASCII. Each other byte stays.
pub fn own_text(alloc: Global, root: &Root, text: &[u8]) -> Result<Bytes, AllocError>
    ensures { IfOk result (λ own. own ≡ spec.own_text root.now text.now) }
{
    match first_folder(root) {
        None => Bytes::copy_of(alloc, text),
        Some(folder) => with_folder(alloc, root, folder, text),
    }
}
