//! Quotes the words of shell commands.

ghost use Rattle.std.specs.Prelude.{◌≡◌, ◌++◌, ◌∷◌, Some, map, IfOk, OnOk, encode_utf8_all, string_bytes, chars};
ghost use Rattle.texts.specs.Shell.{HasWords};
ghost use Rattle.texts.specs.Shell.Splitting.{split_chars};
ghost use Rattle.texts.specs.Shell.Quoting.{is_safe, is_plain, quoted_char, quoted_word, further, quoted, written};

use std::alloc::{AllocError, Global};

/// Writes the words of a command so that a POSIX shell, and [`split`](super::split), read them back.
///
/// There is a space between two words. A word of safe characters stays as it is. Any other word, and the empty one, is in
/// single quotes, with `'\''` for each `'`. A `=` is safe only in a word that begins with `-`, because `A=b` is an
/// assignment to a shell. The first word follows the same rule, so it must be a program: a shell may take another one as
/// its own, such as `if`, an alias, or in bash a job like `%1`.
pub fn quote(alloc: Global, words: &[String]) -> Result<String, AllocError>
    // The text, exactly.
    ensures text { IfOk result (λ t.
        string_bytes t ≡ encode_utf8_all (quoted (map chars (map string_bytes words.now)))) }
    // It has these words, whatever they hold.
    ensures words { IfOk result (λ t. HasWords (string_bytes t) (map string_bytes words.now)) }
    ensures value { IfOk result (λ t.
        split_chars (chars (string_bytes t)) ≡ Some (map chars (map string_bytes words.now))) }
{
    let mut text = String::new(alloc);
    if let [first, rest @ ..] = words {
        push_quoted(&mut text, first, rest)?;
    }
    Ok(text)
}

/// Appends the words `first` and `rest` to `text`, quoted like [`quote`] quotes them.
///
/// No space is written before `first`. The only error is an allocation failure; `text` may then end in a part of the words.
pub fn push_quoted(text: &mut String, first: &str, rest: &[String]) -> Result<(), AllocError>
    ensures { OnOk result (string_bytes text.new ≡ string_bytes text.old ++ written (first.now ∷ map string_bytes rest.now)) }
{
    push_word(text, first)?;
    push_further(text, rest)
}

/// Appends words, each after a space.
fn push_further(text: &mut String, words: &[String]) -> Result<(), AllocError>
    ensures { OnOk result (string_bytes text.new
        ≡ string_bytes text.old ++ encode_utf8_all (further (map chars (map string_bytes words.now)))) }
{
    for word in words {
        text.push(' ')?;
        push_word(text, word)?;
    }
    Ok(())
}

fn push_word(text: &mut String, word: &str) -> Result<(), AllocError>
    ensures { OnOk result (string_bytes text.new
        ≡ string_bytes text.old ++ encode_utf8_all (quoted_word (chars word.now))) }
{
    if is_plain(word) {
        return text.push_str(word);
    }
    text.push('\'')?;
    for c in word.chars() {
        push_char(text, c)?;
    }
    text.push('\'')
}

fn push_char(text: &mut String, c: char) -> Result<(), AllocError>
    ensures { OnOk result (string_bytes text.new ≡ string_bytes text.old ++ encode_utf8_all (quoted_char c)) }
{
    if c == '\'' {
        text.push_str("'\\''")
    } else {
        text.push(c)
    }
}

fn is_plain(word: &str) -> bool
    ensures { result ≡ is_plain (chars word.now) }
{
    let mut chars = word.chars();
    let Some(first) = chars.next() else {
        return false;
    };
    is_safe(first) && chars.all(|c| is_safe(c) || first == '-' && c == '=')
}

/// Whether every POSIX shell reads a character as itself.
fn is_safe(c: char) -> bool
    ensures { result ≡ is_safe c }
{
    matches!(c, '_' | '-' | '.' | '/' | ':' | ',' | '+' | '@' | '%') || c.is_ascii_alphanumeric()
}
