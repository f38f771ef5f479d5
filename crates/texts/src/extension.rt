//! The extension of a path text.

ghost use Rattle.std.specs.Prelude.{◌≡◌, ◌<◌, IfOk, string_bytes, option_map, option_copied};
ghost use Rattle.texts.specs.Extension as spec;

use std::alloc::{AllocError, Global};

// A text split at the last place of the ASCII character `mark`: what stands before it, and what
// follows it.
pub(crate) fn split_last(text: &str, mark: char) -> Option<(&str, &str)>
    requires { mark < 128 }
    ensures { option_map spec.parts_of result ≡ spec.split_at_last mark text.now }
{
    text.rsplit_once(mark)
}

/// What follows the last `/` of a path text: all of it if it holds none, nothing if it ends in one.
pub fn last(path: &str) -> &str
    ensures { result.now ≡ spec.last_part path.now }
{
    match split_last(path, '/') {
        Some((_, name)) => name,
        None => path,
    }
}

// A name without its extension and the `.` before that.
pub(crate) fn stem(name: &str) -> &str
    ensures { result.now ≡ spec.stem_of name.now }
{
    match split_last(name, '.') {
        Some((stem, _)) if !stem.is_empty() => stem,
        _ => name,
    }
}

/// What follows the last `.` of a path's last part, unless that `.` is its first character.
pub fn extension(path: &str) -> Option<&str>
    ensures { option_copied result ≡ spec.extension_of path.now }
{
    match split_last(last(path), '.') {
        Some((stem, extension)) if !stem.is_empty() => Some(extension),
        _ => None,
    }
}

/// A path with `extension` in place of its own, or with `extension` added if it has none. So
/// `a.b/c.cu` with `o` is `a.b/c.o`, and `.c` with `o` is `.c.o`.
pub fn with_extension(alloc: Global, path: &str, extension: &str) -> Result<String, AllocError>
    ensures { IfOk result (λ whole. string_bytes whole ≡ spec.with_extension path.now extension.now) }
{
    let mut whole = String::new(alloc);
    if let Some((folder, _)) = split_last(path, '/') {
        whole.push_str(folder)?;
        whole.push('/')?;
    }
    whole.push_str(stem(last(path)))?;
    whole.push('.')?;
    whole.push_str(extension)?;
    Ok(whole)
}
