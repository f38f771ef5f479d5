//! Whether a directory has one text only.

ghost use Rattle.std.specs.Prelude.{◌≡◌, codes, nat_eq};
ghost use Rattle.std.specs.List.{ends_with, starts_with};
ghost use Rattle.canonical_names.specs.Directories as spec;

use crate::references::holds;

// Whether a part inside a path is empty, `.` or `..`.
fn has_odd_part(path: &str) -> bool
    ensures { result ≡ spec.has_odd_part path.now }
{
    holds(path, "//") || holds(path, "/./") || holds(path, "/../")
}

// Whether the last part of a path is empty, `.` or `..`.
fn has_odd_end(path: &str) -> bool
    ensures { result ≡ spec.has_odd_end path.now }
{
    let bytes = path.as_bytes();
    bytes.ends_with(b"/") || bytes.ends_with(b"/.") || bytes.ends_with(b"/..")
}

/// Whether a path is absolute and plain: it begins with `/`, and no part of it is empty, `.` or `..`. The root is plain.
pub fn is_plain(path: &str) -> bool
    ensures { result ≡ spec.is_plain path.now }
{
    path == "/" || path.as_bytes().starts_with(b"/") && !has_odd_part(path) && !has_odd_end(path)
}
