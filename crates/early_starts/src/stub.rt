//! A stub file under the name by which its reader knows it.

ghost use Rattle.std.specs.Prelude.{◌≡◌, ◌++◌, [], IfOk, OnOk, string_bytes};
ghost use Rattle.early_starts.specs.StubTexts as spec;

use std::alloc::{AllocError, Global};
use texts::bytes::Bytes;

// The line marker by which a stub file says that it begins.
fn marker(alloc: Global, path: &str) -> Result<String, AllocError>
    ensures { IfOk result (λ line. string_bytes line ≡ spec.marker path.now) }
{
    let mut line = String::from_str(alloc, "# 1 \"")?;
    line.push_str(path)?;
    line.push_str("\"")?;
    Ok(line)
}

// Appends a line, or another marker in place of one.
fn push_line(text: &mut Vec<u8>, own: &[u8], other: &[u8], line: &[u8]) -> Result<(), AllocError>
    ensures { OnOk result (text.new.items ≡ text.old.items ++ spec.renamed_line own.now other.now line.now) }
{
    if line == own {
        text.extend_from_slice(other)
    } else {
        text.extend_from_slice(line)
    }
}

// A text whose markers are others.
fn with_marker(alloc: Global, own: &[u8], other: &[u8], text: &[u8]) -> Result<Bytes, AllocError>
    ensures { IfOk result (λ made. made ≡ spec.renamed_from own.now other.now [] text.now) }
{
    let mut made = Vec::with_capacity(alloc, text.len())?;
    let mut line = Vec::new(alloc);
    for byte in text {
        if *byte == b'\n' {
            push_line(&mut made, own, other, line.as_slice())?;
            made.push(b'\n')?;
            line.clear();
        } else {
            line.push(*byte)?;
        }
    }
    push_line(&mut made, own, other, line.as_slice())?;
    Ok(Bytes::from_vec(made))
}

/// What a stub file says that cicc wrote to the path `own`, as it would at the path `other`: each line marker that says that the file begins
/// names the other path.
pub fn stub_text(alloc: Global, own: &str, other: &str, text: &[u8]) -> Result<Bytes, AllocError>
    ensures { IfOk result (λ made. made ≡ spec.stub_text own.now other.now text.now) }
{
    let (own, other) = (marker(alloc, own)?, marker(alloc, other)?);
    with_marker(alloc, own.as_bytes(), other.as_bytes(), text)
}
