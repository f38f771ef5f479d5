//! Replaces generated names in the words of commands by canonical ones.

ghost use Rattle.std.specs.Prelude.{◌≡◌, ◌⊎◌, ◌++◌, ◌∷◌, [], ℕ, map, take, IfOk, OnOk, OnErr, string_bytes, option_map, unwrap_or};
ghost use Rattle.texts.specs.Lists.{with_name};
ghost use Rattle.canonical_names.specs.Counted.{class_of_core};
ghost use Rattle.canonical_names.specs.Renaming as spec;

use crate::renames::Renames;
use crate::suffixes::Suffixes;
use crate::words::{core, with_head};
use compilers::dry_run::Commands;
use std::alloc::{AllocError, Global};
use texts::words::Words;

fn remap_core(alloc: Global, text: &str, renames: &mut Renames) -> Result<String, AllocError>
    ensures text { IfOk result (λ new. string_bytes new
        ≡ spec.renamed_core renames.old.0 renames.old.1 text.now (class_of_core renames.old.0 text.now)) }
    ensures names { OnOk result (renames.new
        ≡ (renames.old.0, with_name renames.old.1 (option_map (λ _. text.now) (class_of_core renames.old.0 text.now)))) }
    ensures err { OnErr result (renames.new ≡ renames.old) }
{
    match renames.class(text) {
        None => renames.rewritten(alloc, text),
        Some(class) => renames.canonical(alloc, text, class),
    }
}

// The new text of a word, or `None` if it stays as it is. After an error the word's own name may count as seen.
fn remap_word(
    alloc: Global,
    word: &str,
    renames: &mut Renames,
) -> Result<Option<String>, AllocError>
    ensures word { IfOk result (λ new. unwrap_or (option_map string_bytes new) word.now ≡ spec.renamed_word renames.old.0 renames.old.1 word.now) }
    ensures names { OnOk result (renames.new ≡ (renames.old.0, spec.seen_after_word renames.old.0 renames.old.1 word.now)) }
    ensures err { OnErr result ((renames.new ≡ renames.old)
        ⊎ (renames.new ≡ (renames.old.0, spec.seen_after_word renames.old.0 renames.old.1 word.now))) }
{
    if renames.keep(word) {
        return Ok(None);
    }
    let new = remap_core(alloc, core(word), renames)?;
    Ok(Some(with_head(alloc, word, new)?))
}

fn push_or_copy(
    alloc: Global,
    words: &mut Words,
    new: Option<String>,
    word: &str,
) -> Result<(), AllocError>
    ensures { OnOk result (words.new ≡ words.old ++ unwrap_or (option_map string_bytes new) word.now ∷ []) }
{
    match new {
        None => words.push_str(alloc, word),
        Some(new) => words.push(new),
    }
}

/// Replaces the generated names in the words of a command by canonical ones. `renames` holds the names
/// of the commands before, and gains those of these words, in order.
///
/// A word's core is what is left without all `-Fi` that it begins with. The word is generated if its core
/// ends in one of the suffixes and doesn't begin with `-`. Its name becomes `x_`, a number and the suffix, in
/// the same folder; the number counts the different names of that suffix seen before this one. In any other
/// word, each name seen so far is replaced by its canonical name: the longest first, and of equally long
/// ones the one seen first. A word that begins with `-Fi` keeps exactly one.
///
/// A name of one suffix can be the beginning of a name of another. After `k.cudafe1.c` the word
/// `-I=k.cudafe1.cpp` counts as a reference to that, even if `k.cudafe1.cpp` comes later.
///
/// The only error is an allocation failure; `renames` then has the names of the first words.
pub fn remap_generated_filenames(
    alloc: Global,
    args: &[String],
    renames: &mut Renames,
) -> Result<Words, AllocError>
    ensures words { IfOk result (λ words. words ≡ spec.renamed_words renames.old.0 renames.old.1 (map string_bytes args.now)) }
    ensures names { OnOk result (renames.new ≡ (renames.old.0, spec.seen_after renames.old.0 renames.old.1 (map string_bytes args.now))) }
    ensures refused { OnErr result ((k : ℕ)
        × (renames.new ≡ (renames.old.0, spec.seen_after renames.old.0 renames.old.1 (take k (map string_bytes args.now))))) }
{
    let mut words = Words::with_capacity(alloc, args.len())?;
    for word in args {
        let text = word.as_str();
        let new = remap_word(alloc, text, renames)?;
        push_or_copy(alloc, &mut words, new, text)?;
    }
    Ok(words)
}

// The same, taking the words: those that stay as they are move.
fn remap_words(
    alloc: Global,
    words: Vec<String>,
    renames: &mut Renames,
) -> Result<Vec<String>, AllocError>
    ensures words { IfOk result (λ new. map string_bytes new.items ≡ spec.renamed_words renames.old.0 renames.old.1 (map string_bytes words.items)) }
    ensures names { OnOk result (renames.new ≡ (renames.old.0, spec.seen_after renames.old.0 renames.old.1 (map string_bytes words.items))) }
{
    let mut renamed = Vec::with_capacity(alloc, words.len())?;
    for word in words {
        let new = remap_word(alloc, word.as_str(), renames)?;
        renamed.push(new.unwrap_or(word))?;
    }
    Ok(renamed)
}

/// Replaces the generated names in all commands of a run by canonical ones. The names of earlier commands count
/// for later ones.
pub fn remap_commands(
    alloc: Global,
    commands: Commands,
    suffixes: &Suffixes,
) -> Result<Commands, AllocError>
    ensures { IfOk result (λ c. c ≡ spec.renamed suffixes.now commands) }
{
    let mut renames = Renames::new(alloc, suffixes)?;
    let mut renamed = Vec::new(alloc);
    for command in commands.into_vec() {
        let (line, program, words) = command;
        let words = remap_words(alloc, words, &mut renames)?;
        renamed.push((line, program, words))?;
    }
    Ok(Commands::from_vec(renamed))
}
