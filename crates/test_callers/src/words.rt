//! Splitting and quoting shell words.

ghost use Rattle.std.specs.Prelude.{◌≡◌, [], ◌∷◌, Some, codes, map, IfOk, string_bytes, option_map};
ghost use Rattle.cuda_plans.specs.declared.language.Language.TheVariants.{Ptx};
ghost use Rattle.cuda_plans.specs.Rows.{spaced};
ghost use Rattle.cuda_plans.specs.Cicc.{cicc_options};
ghost use Rattle.cuda_plans.specs.Reading.{tool_reading};
ghost use Rattle.test_callers.specs.Known as spec;

use cuda_plans::shell;
use std::alloc::{AllocError, Global};

/// Quotes words into one text and splits it again. The result is the same words, whatever they hold.
pub fn requoted(alloc: Global, words: &[String]) -> Result<Option<Vec<String>>, AllocError>
    ensures { IfOk result (λ found. option_map (λ v. map string_bytes v.items) found ≡ Some (map string_bytes words.now)) }
{
    let text = shell::quote(alloc, words)?;
    shell::split(alloc, text.as_str())
}

/// The words of a constant text. The contract computes them.
pub fn known_flags(alloc: Global) -> Result<Option<Vec<String>>, AllocError>
    ensures { IfOk result (λ found. option_map (λ v. map string_bytes v.items) found
        ≡ Some (codes "-O2" ∷ codes "-DNAME=a b" ∷ [])) }
{
    shell::split(alloc, "-O2 '-DNAME=a b' # as a shell reads them")
}

/// The common words of a constant cicc line. The contract computes them.
pub fn known_line()
    ensures { spec.common_words (tool_reading cicc_options (codes "/w") Ptx 3 (spaced "--device-c -arch compute_80 kernel.cpp1.ii -o kernel.ptx"))
        ≡ Some (spaced "--device-c -arch compute_80") }
{}
