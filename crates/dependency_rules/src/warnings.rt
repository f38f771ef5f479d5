//! What nvcc says that makes a dependency file.

ghost use Rattle.std.specs.Prelude.{◌≡◌, IfOk};
ghost use Rattle.std.specs.List.{starts_with};
ghost use Rattle.dependency_rules.specs.Warnings as spec;

use std::alloc::{AllocError, Global};
use texts::bytes::Bytes;

// Whether a text begins with a line in which nvcc itself warns.
fn begins_with_warning(text: &[u8]) -> bool
    ensures { result ≡ spec.begins_with_warning text.now }
{
    text.starts_with(b"nvcc warning : ")
}

/// A text without the lines in which nvcc itself warns: a dry run has said the same.
pub fn without_warnings(alloc: Global, text: &[u8]) -> Result<Bytes, AllocError>
    ensures { IfOk result (λ left. left ≡ spec.without_warnings text.now) }
{
    let mut left = Vec::new(alloc);
    let mut warns = begins_with_warning(text);
    let mut rest = text;
    while let Some((byte, behind)) = rest.split_first() {
        if !warns {
            left.push(*byte)?;
        }
        if *byte == b'\n' {
            warns = begins_with_warning(behind);
        }
        rest = behind;
    }
    Ok(Bytes::from_vec(left))
}
