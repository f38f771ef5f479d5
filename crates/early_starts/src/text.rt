//! The generated file through which a host compiler reads a fatbin, and what takes its place.

ghost use Rattle.std.specs.Prelude.{◌≡◌, ◌++◌, IfOk, OnOk, option_copied};
ghost use Rattle.texts.specs.Lists.{rest_after};
ghost use Rattle.early_starts.specs.LateTexts as spec;

use std::alloc::{AllocError, Global};
use texts::bytes::Bytes;
use texts::text::Text;

/// Where the next byte is, in a list of C strings.
#[derive(Clone, Copy, Debug)]
pub enum State {
    /// In no string.
    Between,
    /// In a string.
    Inside,
    /// After a backslash in a string.
    Escaped,
}

// The file's text before the assembler text.
fn head(is_linked: bool) -> &'static str
    ensures { result.now ≡ spec.head is_linked }
{
    if is_linked {
        "#ifndef __SKIP_INTERNAL_FATBINARY_HEADERS\n#include \"fatbinary_section.h\"\n#endif\n#define __CUDAFATBINSECTION  \".nvFatBinSegment\"\n#define __CUDAFATBINDATASECTION  \"__nv_relfatbin\"\nasm(\n"
    } else {
        "#ifndef __SKIP_INTERNAL_FATBINARY_HEADERS\n#include \"fatbinary_section.h\"\n#endif\n#define __CUDAFATBINSECTION  \".nvFatBinSegment\"\n#define __CUDAFATBINDATASECTION  \".nv_fatbin\"\nasm(\n"
    }
}

// The file's text between the assembler text and the fatbin's count of numbers.
fn middle() -> &'static str
    ensures { result.now ≡ spec.middle }
{
    ");\n#ifdef __cplusplus\nextern \"C\" {\n#endif\nextern const unsigned long long fatbinData["
}

// The file's text after the count.
fn tail(is_linked: bool) -> &'static str
    ensures { result.now ≡ spec.tail is_linked }
{
    if is_linked {
        "];\n#ifdef __cplusplus\n}\n#endif\n#ifdef __cplusplus\nextern \"C\" {\n#endif\n#undef __FATIDNAME_CORE\n#undef __FATIDNAME\n#define __FATIDNAME_CORE(x) __fatbinwrap##x\n#define __FATIDNAME(x) __FATIDNAME_CORE(x)\nextern const __fatBinC_Wrapper_t __FATIDNAME(__NV_MODULE_ID) __attribute__ ((aligned (8))) __attribute__ ((section (__CUDAFATBINSECTION)))= \n\t{ 0x466243b1, 1, fatbinData, 0 };\n#ifdef __cplusplus\n}\n#endif\n"
    } else {
        "];\n#ifdef __cplusplus\n}\n#endif\n#ifdef __cplusplus\nextern \"C\" {\n#endif\nstatic const __fatBinC_Wrapper_t __fatDeviceText __attribute__ ((aligned (8))) __attribute__ ((section (__CUDAFATBINSECTION)))= \n\t{ 0x466243b1, 1, fatbinData, 0 };\n#ifdef __cplusplus\n}\n#endif\n"
    }
}

// Whether strings end at a byte.
fn ends_strings(state: State, byte: u8) -> bool
    ensures { result ≡ spec.ends_strings state byte }
{
    matches!((state, byte), (State::Between, b')'))
}

fn state_after(state: State, byte: u8) -> Option<State>
    ensures { result ≡ spec.state_after state byte }
{
    match (state, byte) {
        (State::Between, b'"') => Some(State::Inside),
        (State::Between, b'\n') => Some(State::Between),
        (State::Inside, b'"') => Some(State::Between),
        (State::Inside, b'\\') => Some(State::Escaped),
        (State::Inside, b'\n') => None,
        (State::Inside, _) => Some(State::Inside),
        (State::Escaped, b'"' | b'n') => Some(State::Inside),
        _ => None,
    }
}

// Adds the byte of the assembler text that a byte of the strings encodes, if it encodes one.
fn push_byte(text: &mut Vec<u8>, state: State, byte: u8) -> Result<(), AllocError>
    ensures { OnOk result (text.new.items ≡ text.old.items ++ spec.bytes_of state byte) }
{
    match state {
        State::Between => {}
        State::Inside => {
            if byte != b'"' && byte != b'\\' {
                text.push(byte)?;
            }
        }
        State::Escaped => text.push(if byte == b'n' { b'\n' } else { byte })?,
    }
    Ok(())
}

// The rest of a text after the strings that it begins with. It begins with a `)`.
fn behind_strings(text: &[u8]) -> Option<&[u8]>
    ensures { option_copied result ≡ spec.behind_strings spec.between text.now }
{
    let mut state = State::Between;
    let mut rest = text;
    while let Some((byte, behind)) = rest.split_first() {
        if ends_strings(state, *byte) {
            return Some(rest);
        }
        let Some(next) = state_after(state, *byte) else {
            return None;
        };
        state = next;
        rest = behind;
    }
    None
}

// What these strings say.
fn strings_of(alloc: Global, text: &[u8]) -> Result<Bytes, AllocError>
    ensures { IfOk result (λ said. said ≡ spec.strings_of spec.between text.now) }
{
    let mut said = Vec::new(alloc);
    let mut state = State::Between;
    for byte in text {
        if ends_strings(state, *byte) {
            return Ok(Bytes::from_vec(said));
        }
        push_byte(&mut said, state, *byte)?;
        let Some(next) = state_after(state, *byte) else {
            return Ok(Bytes::from_vec(said));
        };
        state = next;
    }
    Ok(Bytes::from_vec(said))
}

// The rest of a text after the digits that it begins with.
fn behind_digits(text: &[u8]) -> &[u8]
    ensures { result.now ≡ spec.behind_digits text.now }
{
    let mut rest = text;
    while let Some((byte, behind)) = rest.split_first() {
        if !byte.is_ascii_digit() {
            return rest;
        }
        rest = behind;
    }
    rest
}

// What follows a text in another that begins with it.
fn behind<'a>(text: &'a [u8], beginning: &[u8]) -> Option<&'a [u8]>
    ensures { option_copied result ≡ rest_after beginning.now text.now }
{
    text.strip_prefix(beginning)
}

// The strings of a file that fatbinary writes, and all that follows them.
fn strings_in(is_linked: bool, text: &[u8]) -> Option<&[u8]>
    ensures { option_copied result ≡ spec.strings_in is_linked text.now }
{
    let strings = behind(text, head(is_linked).as_bytes())?;
    let count = behind(behind_strings(strings)?, middle().as_bytes())?;
    if behind_digits(count) == tail(is_linked).as_bytes() {
        Some(strings)
    } else {
        None
    }
}

/// The assembler text in the file `text` that fatbinary writes for a host compiler (`--embedded-fatbin`): of one that is linked with others
/// (`--device-c`) if `is_linked`. `None` if the file hasn't the form that fatbinary of nvcc 13 gives it.
pub fn assembler_text(
    alloc: Global,
    is_linked: bool,
    text: &[u8],
) -> Result<Option<Bytes>, AllocError>
    ensures { IfOk result (λ answer. answer ≡ spec.assembler_text is_linked text.now) }
{
    match strings_in(is_linked, text) {
        None => Ok(None),
        Some(strings) => Ok(Some(strings_of(alloc, strings)?)),
    }
}

// Whether a path can be written in a string of C and in one of the assembler as it is.
fn is_plain(path: &str) -> bool
    ensures { result ≡ spec.is_plain path.now }
{
    let mut bytes = path.as_bytes().iter();
    bytes.all(|byte| (32..=126).contains(byte) && !matches!(byte, b'"' | b'?' | b'\\'))
}

/// The file that a host compiler gets in place of fatbinary's, before that is there: all is as in fatbinary's, but its assembler text
/// includes the file at `path`, and its array has one number. Only debugging information shows how many that are.
///
/// `None` if the path has quotes, `?`, `\` or bytes that aren't printable ASCII.
pub fn placeholder(alloc: Global, is_linked: bool, path: &str) -> Result<Option<Text>, AllocError>
    ensures { IfOk result (λ answer. answer ≡ spec.placeholder is_linked path.now) }
{
    if !is_plain(path) {
        return Ok(None);
    }
    let mut text = String::from_str(alloc, head(is_linked))?;
    text.push_str("\".include \\\"")?;
    text.push_str(path)?;
    text.push_str("\\\"\\n\"\n")?;
    text.push_str(middle())?;
    text.push_str("1")?;
    text.push_str(tail(is_linked))?;
    Ok(Some(Text::new(text)))
}
