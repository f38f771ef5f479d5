//! What bytes are in source texts.

ghost use Rattle.std.specs.Prelude.{◌≡◌};
ghost use Rattle.source_layouts.specs.Bytes as spec;

pub(crate) fn begins_word(byte: u8) -> bool
    ensures { result ≡ spec.begins_word byte }
{
    byte.is_ascii_alphabetic() || byte == b'_'
}

pub(crate) fn is_word(byte: u8) -> bool
    ensures { result ≡ spec.is_word byte }
{
    begins_word(byte) || byte.is_ascii_digit()
}

// Whether some preprocessors take a byte for a part of a letter, and some don't.
pub(crate) fn may_be_letter(byte: u8) -> bool
    ensures { result ≡ spec.may_be_letter byte }
{
    byte == b'$' || byte >= 128
}

pub(crate) fn is_blank(byte: u8) -> bool
    ensures { result ≡ spec.is_blank byte }
{
    byte == b' ' || byte == b'\t'
}

// Whether a byte means nothing outside literals, or may join two lines.
pub(crate) fn is_odd(byte: u8) -> bool
    ensures { result ≡ spec.is_odd byte }
{
    matches!(byte, 0..=8 | 11..=31 | 127 | b'\\')
}

pub(crate) fn is_exponent(byte: u8) -> bool
    ensures { result ≡ spec.is_exponent byte }
{
    byte == b'e' || byte == b'E' || byte == b'p' || byte == b'P'
}

/// Whether a `"` right after this word begins a raw string.
pub(crate) fn is_raw_prefix(word: &[u8]) -> bool
    ensures { result ≡ spec.is_raw_prefix word.now }
{
    matches!(word, b"R" | b"LR" | b"uR" | b"UR" | b"u8R")
}
