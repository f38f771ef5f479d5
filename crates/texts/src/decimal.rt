//! Numbers in decimal digits.

ghost use Rattle.std.specs.Prelude.{◌≡◌, ◌++◌, IfOk, OnOk, OnErr, string_bytes};
ghost use Rattle.texts.specs.Numeral.{numeral};

use std::alloc::{AllocError, Global};

/// The decimal digits of `number`, with no leading zero.
pub fn number_text(alloc: Global, number: usize) -> Result<String, AllocError>
    ensures { IfOk result (λ text. string_bytes text ≡ numeral number) }
{
    format!(in alloc; "{number}")
}

/// Appends the decimal digits of `number` to `text`. On an error `text` is unchanged.
pub fn push_number(alloc: Global, text: &mut String, number: usize) -> Result<(), AllocError>
    ensures ok { OnOk result (string_bytes text.new ≡ string_bytes text.old ++ numeral number) }
    ensures err { OnErr result (string_bytes text.new ≡ string_bytes text.old) }
{
    text.push_str(number_text(alloc, number)?.as_str())
}
