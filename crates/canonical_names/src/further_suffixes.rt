//! The standard suffixes, with further ones of a caller.

ghost use Rattle.std.specs.Prelude.{◌≡◌, ◌++◌, IfOk, OnOk, map, string_bytes, option_copied, option_to_list};
ghost use Rattle.texts.specs.Fault.{UnlessMemory};
ghost use Rattle.canonical_names.specs.FurtherSuffixes as spec;
ghost use Rattle.canonical_names.specs.Generated.{standard_suffixes};

use crate::suffixes::Suffixes;
use std::alloc::{AllocError, Global};
use texts::fault::Fault;
use texts::words::Words;

fn push_suffix(alloc: Global, words: &mut Words, suffix: Option<&str>) -> Result<(), AllocError>
    ensures { OnOk result (words.new ≡ words.old ++ option_to_list (option_copied suffix.entry)) }
{
    match suffix {
        None => Ok(()),
        Some(suffix) => words.push_str(alloc, suffix),
    }
}

fn words_of(alloc: Global, suffixes: &Suffixes) -> Result<Words, AllocError>
    ensures { IfOk result (λ words. words ≡ suffixes.now) }
{
    let mut words = Words::new(alloc);
    for index in 0..suffixes.len() {
        push_suffix(alloc, &mut words, suffixes.get(index))?;
    }
    Ok(words)
}

/// The texts of the standard suffixes, and `further` ones behind them, which may break the rule of such a list.
pub fn all_texts(alloc: Global, further: &[String]) -> Result<Words, AllocError>
    ensures { IfOk result (λ words. words ≡ standard_suffixes ++ map string_bytes further.now) }
{
    let mut words = words_of(alloc, &Suffixes::standard())?;
    words.push_copies(alloc, further)?;
    Ok(words)
}

/// The standard suffixes of generated files, and `further` ones behind them.
///
/// Fails if together they break the rule of such a list (`Fault::BadSuffixes`).
pub fn all_suffixes(alloc: Global, further: &[String]) -> Result<Suffixes, Fault>
    ensures { UnlessMemory result (spec.all_suffixes (map string_bytes further.now)) }
{
    let texts = all_texts(alloc, further)?;
    Suffixes::new(alloc, texts.as_slice())
}
