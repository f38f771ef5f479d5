//! A token as it is written, and the prefixes of literals.

ghost use Rattle.std.specs.Prelude.{◌≡◌, ◌++◌, OnOk};
ghost use Rattle.token_texts.specs.Lexing as spec;
ghost use Rattle.token_texts.specs.Normal.{encoded_byte, encoded_token};

use std::alloc::AllocError;

/// Appends a token to a normal form.
pub(crate) fn push_token(out: &mut Vec<u8>, token: &[u8]) -> Result<(), AllocError>
    ensures { OnOk result (out.new.items ≡ out.old.items ++ encoded_token token.now) }
{
    for byte in token {
        push_byte(out, *byte)?;
    }
    out.push(b'\n')?;
    Ok(())
}

#[inline(always)]
fn push_byte(out: &mut Vec<u8>, byte: u8) -> Result<(), AllocError>
    ensures { OnOk result (out.new.items ≡ out.old.items ++ encoded_byte byte) }
{
    match byte {
        b'\n' => out.extend_from_slice(b"\\n")?,
        b'\\' => out.extend_from_slice(b"\\\\")?,
        _ => out.push(byte)?,
    }
    Ok(())
}

/// Whether a quote right after this word is a literal's, with the word as its encoding.
pub(crate) fn is_encoding(word: &[u8]) -> bool
    ensures { result ≡ spec.is_encoding word.now }
{
    matches!(word, b"L" | b"u" | b"U" | b"u8")
}

/// Whether a `"` right after this word begins a raw string.
pub(crate) fn is_raw_prefix(word: &[u8]) -> bool
    ensures { result ≡ spec.is_raw_prefix word.now }
{
    matches!(word, b"R" | b"LR" | b"uR" | b"UR" | b"u8R")
}
