//! The words of the two halves of a host compile: the compiler's, which makes assembler text, and the assembler's.

ghost use Rattle.std.specs.Prelude.{◌≡◌, IfOk, map, string_bytes};
ghost use Rattle.command_files.specs.Files.{is_among};
ghost use Rattle.early_starts.specs.LateWords as spec;

use std::alloc::{AllocError, Global};
use texts::words::Words;

/// A half of a host compile.
#[derive(Clone, Copy, Debug)]
pub enum Half {
    /// The compiler makes assembler text.
    Compiler,
    /// The assembler makes the object.
    Assembler,
}

/// What a word of a host compile is for.
#[derive(Clone, Copy, Debug)]
pub enum Role {
    /// `-c`.
    Phase,
    /// The language, which is `c++`.
    Language,
    /// cudafe++'s file.
    Source,
    /// The object.
    Product,
    /// It stays in both halves.
    Kept,
    /// It may mean something else to a half, or have it write or print more.
    Unknown,
}

// The words that change neither what is printed nor written beside the object, and mean the same to both halves.
fn kept_words() -> &'static [&'static str]
    ensures { map spec.shown result.now ≡ spec.kept_words }
{
    &[
        "-O",
        "-O0",
        "-O1",
        "-O2",
        "-O3",
        "-Os",
        "-Ofast",
        "-fPIC",
        "-fpic",
        "-fPIE",
        "-fpie",
        "-fdata-sections",
        "-ffast-math",
        "-ffunction-sections",
        "-fno-exceptions",
        "-fno-omit-frame-pointer",
        "-fno-rtti",
        "-fno-strict-aliasing",
        "-fomit-frame-pointer",
        "-fopenmp",
        "-fpermissive",
        "-fvisibility-inlines-hidden",
        "-isystem",
        "-m64",
        "-mavx2",
        "-mfma",
        "-o",
        "-pthread",
        "-w",
        "-x",
    ]
}

// Beginnings of such words, if more follows in the same word.
fn kept_beginnings() -> &'static [&'static str]
    ensures { map spec.shown result.now ≡ spec.kept_beginnings }
{
    &[
        "-D",
        "-I",
        "-U",
        "-W",
        "-fdiagnostics-color",
        "-fstack-protector",
        "-ftemplate-depth=",
        "-fvisibility=",
        "-march=",
        "-mtune=",
        "-std=",
    ]
}

// The beginnings of words that go to the preprocessor, the assembler or the linker.
fn forwarded_beginnings() -> &'static [&'static str]
    ensures { map spec.shown result.now ≡ spec.forwarded_beginnings }
{
    &["-Wa,", "-Wl,", "-Wp,"]
}

// Whether a word is one of these.
fn is_among(words: &[&str], word: &str) -> bool
    ensures { result ≡ is_among (map spec.shown words.now) word.now }
{
    for other in words {
        if word == *other {
            return true;
        }
    }
    false
}

// Whether a word begins with one of these, and goes on.
fn goes_on(beginnings: &[&str], word: &str) -> bool
    ensures { result ≡ spec.goes_on (map spec.shown beginnings.now) word.now }
{
    for beginning in beginnings {
        if word.as_bytes().starts_with(beginning.as_bytes()) && word.len() > beginning.len() {
            return true;
        }
    }
    false
}

// Whether a word stays in both halves.
fn is_kept(word: &str) -> bool
    ensures { result ≡ spec.is_kept word.now }
{
    is_among(kept_words(), word)
        || (goes_on(kept_beginnings(), word) && !goes_on(forwarded_beginnings(), word))
}

// Whether a word names cudafe++'s file.
fn is_source(word: &str) -> bool
    ensures { result ≡ spec.is_source word.now }
{
    !word.as_bytes().starts_with(b"-") && word.as_bytes().ends_with(b".cudafe1.cpp")
}

// What a word is for that isn't the value of another.
fn role_alone(word: &str) -> Role
    ensures { result ≡ spec.role_alone word.now }
{
    if word == "-c" {
        Role::Phase
    } else if is_kept(word) {
        Role::Kept
    } else if is_source(word) {
        Role::Source
    } else {
        Role::Unknown
    }
}

// What a word is for after another.
fn role_behind(before: &str, word: &str) -> Role
    ensures { result ≡ spec.role_behind before.now word.now }
{
    if before == "-o" {
        Role::Product
    } else if before == "-isystem" {
        Role::Kept
    } else if before != "-x" {
        role_alone(word)
    } else if word == "c++" {
        Role::Language
    } else {
        Role::Unknown
    }
}

// What counts as the word before the next one. A value doesn't: it isn't an option.
fn next_before<'a>(before: &str, word: &'a str) -> &'a str
    ensures { result.now ≡ spec.next_before before.now word.now }
{
    if before == "-o" || before == "-isystem" || before == "-x" {
        ""
    } else {
        word
    }
}

// The place of a role in a line. Words that stay have none.
fn place_of(role: Role) -> usize
    ensures { result ≡ spec.place_of role }
{
    match role {
        Role::Phase => 0,
        Role::Language => 1,
        Role::Source => 2,
        Role::Product => 3,
        Role::Kept => 4,
        Role::Unknown => 5,
    }
}

// The next role, of those that a line has in order. After the product there is none.
fn role_after(role: Role) -> Role
    ensures { result ≡ spec.role_after role }
{
    match role {
        Role::Phase => Role::Language,
        Role::Language => Role::Source,
        Role::Source => Role::Product,
        _ => Role::Kept,
    }
}

// Whether a line is a host compile that has halves: all its words are known, and those that don't stay are in nvcc's order.
fn has_halves(words: &[String]) -> bool
    ensures { result ≡ spec.has_halves (map string_bytes words.now) }
{
    let mut expected = Role::Phase;
    let mut before = "";
    for word in words {
        let place = place_of(role_behind(before, word.as_str()));
        if place != 4 {
            if place != place_of(expected) {
                return false;
            }
            expected = role_after(expected);
        }
        before = next_before(before, word.as_str());
    }
    place_of(expected) == 4
}

// A word of a half, given what it is for in the whole compile.
fn word_of<'a>(half: Half, role: Role, word: &'a str, text_file: &'a str) -> &'a str
    ensures { result.now ≡ spec.word_of half role word.now text_file.now }
{
    match (half, role) {
        (Half::Compiler, Role::Phase) => "-S",
        (Half::Compiler, Role::Product) => text_file,
        (Half::Assembler, Role::Language) => "assembler",
        (Half::Assembler, Role::Source) => text_file,
        _ => word,
    }
}

/// The words of a half of a host compile, whose assembler text goes to `text_file`. `None` if the words aren't those of such a compile.
///
/// It has to be nvcc's compile of cudafe++'s file to an object, and each word has to be among those that are known to mean the same
/// to both halves, to change nothing that is written beside the object, and to print nothing: what gcc itself hands to the assembler
/// is then the same in the second half. Words such as `-g`, `-flto`, `-pipe`, `-save-temps` and `-Wa,` aren't among them: they show the
/// length of the fatbin, or have gcc write other files.
pub fn late_words(
    alloc: Global,
    half: Half,
    words: &[String],
    text_file: &str,
) -> Result<Option<Words>, AllocError>
    ensures { IfOk result (λ late. late ≡ spec.late_words half text_file.now (map string_bytes words.now)) }
{
    if !has_halves(words) {
        return Ok(None);
    }
    let mut late = Words::with_capacity(alloc, words.len())?;
    let mut before = "";
    for word in words {
        let role = role_behind(before, word.as_str());
        late.push_str(alloc, word_of(half, role, word.as_str(), text_file))?;
        before = next_before(before, word.as_str());
    }
    Ok(Some(late))
}
