//! Tests of words, an option with its value in one word, and the words of options files.

ghost use Rattle.std.specs.Prelude.{◌≡◌, map, IfOk, string_bytes};
ghost use Rattle.std.specs.List.{list_all};
ghost use Rattle.texts.specs.Variables.{pair_of};
ghost use Rattle.nvcc_calls.specs.Words as spec;

use std::alloc::{AllocError, Global};
use texts::shell::split;
use texts::variables::first_value;
use texts::words::Words;

fn is_unexpanded(word: &[u8]) -> bool
    ensures { result ≡ spec.is_unexpanded word.now }
{
    word.iter().all(|byte| b' ' <= *byte && *byte != b'$' && *byte != b'`' && *byte != 127)
}

/// Whether nvcc's shell reads no character of these words as its own inside double quotes: `$`, a backtick or a control
/// character.
pub fn are_unexpanded(words: &[String]) -> bool
    ensures { result ≡ list_all spec.is_unexpanded (map string_bytes words.now) }
{
    for word in words {
        if !is_unexpanded(word.as_str().as_bytes()) {
            return false;
        }
    }
    true
}

// Whether a shell leaves a byte as it is outside quotes.
fn is_plain_byte(byte: u8) -> bool
    ensures { result ≡ spec.is_plain_byte byte }
{
    !b"!#&()*;<>?[]{|}~".contains(&byte)
}

/// Whether a shell reads no character of a value as its own outside quotes.
pub fn has_no_operator(value: &str) -> bool
    ensures { result ≡ spec.has_no_operator value.now }
{
    value.as_bytes().iter().all(|byte| is_plain_byte(*byte))
}

/// Whether nvcc cuts a variable's value at a byte as a shell does.
pub fn is_cut_alike(byte: u8) -> bool
    ensures { result ≡ spec.is_cut_alike byte }
{
    b' ' <= byte && byte != b'"' && byte != b'#' && byte != b'\'' && byte != b'\\' && byte != 127
}

/// Whether nvcc cuts a variable's value at its spaces alone, as a shell does.
pub fn is_cut_at_spaces(value: &str) -> bool
    ensures { result ≡ spec.is_cut_at_spaces value.now }
{
    value.as_bytes().iter().all(|byte| is_cut_alike(*byte))
}

fn is_digit(byte: u8) -> bool
    ensures { result ≡ spec.is_digit byte }
{
    b'0' <= byte && byte <= b'9'
}

fn are_digits(bytes: &[u8]) -> bool
    ensures { result ≡ list_all spec.is_digit bytes.now }
{
    bytes.iter().all(|byte| is_digit(*byte))
}

/// Whether a text is a number that nvcc and sccache's reader take alike: one to nine digits, without a leading 0.
pub fn is_number(text: &str) -> bool
    ensures { result ≡ spec.is_number text.now }
{
    match text.as_bytes() {
        [] => false,
        [first, others @ ..] => {
            is_digit(*first)
                && are_digits(others)
                && others.len() < 9
                && (*first != b'0' || others.is_empty())
        }
    }
}

/// Whether a name looks like one: it isn't empty and doesn't begin with `-`.
pub fn is_usual_name(name: &str) -> bool
    ensures { result ≡ spec.is_usual_name name.now }
{
    !matches!(name.as_bytes(), [] | [b'-', ..])
}

/// An option and its value in one word: with `=` between them, unless the option's text ends in one.
pub fn equals_word(alloc: Global, text: &str, value: &str) -> Result<String, AllocError>
    ensures { IfOk result (λ word. string_bytes word ≡ spec.equals_word text.now value.now) }
{
    let has_delimiter = text.as_bytes().ends_with(b"=");
    let mut word = String::from_str(alloc, text)?;
    word.push_str(if has_delimiter { "" } else { "=" })?;
    word.push_str(value)?;
    Ok(word)
}

// Whether nvcc and a shell read each byte of an options file alike.
fn are_file_bytes(bytes: &[u8]) -> bool
    ensures { result ≡ list_all spec.is_file_byte bytes.now }
{
    bytes.iter().all(|byte| is_cut_alike(*byte)
        || *byte == b'"'
        || *byte == b'\t'
        || *byte == b'\n')
}

// The words of a file's text, if they are certain.
fn words_in(alloc: Global, text: &str) -> Result<Option<Words>, AllocError>
    ensures { IfOk result (λ words. words ≡ spec.words_in text.now) }
{
    if !are_file_bytes(text.as_bytes()) {
        return Ok(None);
    }
    Ok(split(alloc, text)?.map(Words::from_vec))
}

// Whether nvcc takes each byte of an option's value for one of a file's name.
fn are_name_bytes(bytes: &[u8]) -> bool
    ensures { result ≡ list_all spec.is_name_byte bytes.now }
{
    bytes.iter().all(|byte| {
        b' ' < *byte && *byte != b'"' && *byte != b',' && *byte != b'\\' && *byte != 127
    })
}

/// The words of the options file of a name, given the files' names and texts. `None` if no file has that name, or if nvcc may read
/// its name or its text in a way of its own.
pub fn words_of_file(
    alloc: Global,
    files: &[(String, String)],
    name: &str,
) -> Result<Option<Words>, AllocError>
    ensures { IfOk result (λ words. words ≡ spec.words_of_file (map pair_of files.now) name.now) }
{
    match first_value(files, name) {
        Some(text) if is_usual_name(name) && are_name_bytes(name.as_bytes()) => {
            words_in(alloc, text)
        }
        _ => Ok(None),
    }
}
