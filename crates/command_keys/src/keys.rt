//! The key of a command.

ghost use Rattle.std.specs.Prelude.{◌≡◌, ◌++◌, ◌≤◌, map, length, IfOk, OnOk, option_map};
ghost use Rattle.std.specs.List.{flat_map, list_all};
ghost use Rattle.texts.specs.Path.{lacks};
ghost use Rattle.command_keys.specs.Keys as spec;
ghost use Rattle.command_keys.specs.Keys.{shown, shown_variable};

use crate::marks::push_text;
use std::alloc::{AllocError, Global};

/// How many roots a key can have.
pub const MOST_ROOTS: usize = 26;

pub(crate) fn is_plain(text: &[u8]) -> bool
    ensures { result ≡ lacks 0 text.now }
{
    !text.contains(&0)
}

pub(crate) fn are_plain(words: &[&[u8]]) -> bool
    ensures { result ≡ list_all (lacks 0) (map shown words.now) }
{
    for word in words {
        if !is_plain(word) {
            return false;
        }
    }
    true
}

pub(crate) fn are_plain_variables(variables: &[(&[u8], &[u8])]) -> bool
    ensures { result ≡ list_all spec.is_plain_variable (map shown_variable variables.now) }
{
    for variable in variables {
        if !is_plain(variable.0) || !is_plain(variable.1) {
            return false;
        }
    }
    true
}

pub(crate) fn push_words(
    key: &mut Vec<u8>,
    roots: &[&[u8]],
    words: &[&[u8]],
) -> Result<(), AllocError>
    requires { length roots.now ≤ 26 }
    ensures { OnOk result (key.new.items ≡ key.old.items
        ++ flat_map (spec.key_of_text (map shown roots.now)) (map (λ word. (word, spec.word_end)) (map shown words.now))) }
{
    for word in words {
        push_text(key, roots, word, b'0')?;
    }
    Ok(())
}

pub(crate) fn push_variables(
    key: &mut Vec<u8>,
    roots: &[&[u8]],
    variables: &[(&[u8], &[u8])],
) -> Result<(), AllocError>
    requires { length roots.now ≤ 26 }
    ensures { OnOk result (key.new.items ≡ key.old.items
        ++ flat_map (spec.key_of_text (map shown roots.now)) (flat_map spec.texts_of_variable (map shown_variable variables.now))) }
{
    for variable in variables {
        push_text(key, roots, variable.0, b'1')?;
        push_text(key, roots, variable.1, b'2')?;
    }
    Ok(())
}

/// The key of a command: its `words`, the program first, and `variables`, names with their values, in the order given.
///
/// In each text, from the left, a mark replaces each of `roots` that begins there: NUL and a letter, `A` for the first root of the list.
/// A root that begins with `/` is a directory, and counts only in front of a `/` or at the end of the text: `/u/proj` isn't in
/// `/u/proj-deps`. Another root is a name, and counts anywhere. Of several that begin at one byte, the longest counts, so the innermost
/// directory, wherever it is in the list. An empty root is nowhere. NUL and `0` end a word, NUL and `1` a name, NUL and `2` a value.
///
/// `None` if a text of the command contains NUL, or if there are more than `MOST_ROOTS` roots. The work is linear in the length of the
/// texts, times that of all roots.
pub fn command_key(
    alloc: Global,
    words: &[&[u8]],
    variables: &[(&[u8], &[u8])],
    roots: &[&[u8]],
) -> Result<Option<Vec<u8>>, AllocError>
    ensures { IfOk result (λ key. option_map (λ key. key.items) key
        ≡ spec.key_of (map shown roots.now) (map shown words.now, map shown_variable variables.now)) }
{
    if roots.len() > MOST_ROOTS || !are_plain(words) || !are_plain_variables(variables) {
        return Ok(None);
    }
    let mut key = Vec::new(alloc);
    push_words(&mut key, roots, words)?;
    push_variables(&mut key, roots, variables)?;
    Ok(Some(key))
}
