//! The shell words of a text, which are soon found in a plain one.

ghost use Rattle.std.specs.Prelude.{◌≡◌, ◌++◌, not, map, IfOk, OnOk, string_bytes, option_map};
ghost use Rattle.std.specs.List.{list_all};
ghost use Rattle.memchr.specs.Find.{is_byte3};
ghost use Rattle.texts.specs.Shell.Splitting.{shell_words};
ghost use Rattle.dry_runs.specs.PlainWords as spec;

use crate::environment::parted;
use memchr::memchr3;
use std::alloc::{AllocError, Global};
use texts::shell::split;

// The room that a list of words begins with: a command of a dry run seldom has fewer.
const ROOM: usize = 8;

// Whether a text holds none of three bytes.
fn lacks_three(text: &str, first: u8, second: u8, third: u8) -> bool
    ensures { result ≡ list_all (λ byte. not (is_byte3 first second third byte)) text.now }
{
    memchr3(first, second, third, text.as_bytes()).is_none()
}

// Whether a text is plain: it holds no quote and no backslash, no `#`, and of the blanks none but spaces.
fn is_plain(text: &str) -> bool
    ensures { result ≡ spec.is_plain text.now }
{
    lacks_three(text, b'"', b'\'', b'\\') && lacks_three(text, b'\t', b'\n', b'#')
}

// Puts a word last, unless it is empty.
fn push_word(alloc: Global, words: &mut Vec<String>, word: &str) -> Result<(), AllocError>
    ensures { OnOk result (map string_bytes words.new.items ≡ map string_bytes words.old.items ++ spec.word_of word.now) }
{
    if !word.is_empty() {
        words.push(String::from_str(alloc, word)?)?;
    }
    Ok(())
}

fn cut_at_spaces(alloc: Global, text: &str) -> Result<Vec<String>, AllocError>
    ensures { IfOk result (λ words. map string_bytes words.items ≡ spec.between text.now) }
{
    let mut words = Vec::with_capacity(alloc, ROOM)?;
    let mut rest = text;
    while let Some((word, behind)) = parted(rest, ' ') {
        push_word(alloc, &mut words, word)?;
        rest = behind;
    }
    push_word(alloc, &mut words, rest)?;
    Ok(words)
}

// The shell words of a text, and `None` where it has none.
pub fn words_of(alloc: Global, text: &str) -> Result<Option<Vec<String>>, AllocError>
    ensures { IfOk result (λ found. option_map (λ v. map string_bytes v.items) found ≡ shell_words text.now) }
{
    if is_plain(text) {
        return Ok(Some(cut_at_spaces(alloc, text)?));
    }
    split(alloc, text)
}
