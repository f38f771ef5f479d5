//! Whether a line keeps the options of another.

ghost use Rattle.std.specs.Prelude.{◌≡◌, [], IfOk, map, string_bytes};
ghost use Rattle.compilers.specs.Table.{entry_of};
ghost use Rattle.texts.specs.Variables.{pair_of};
ghost use Rattle.nvcc_calls.specs.Asked.{asked_of};
ghost use Rattle.nvcc_calls.specs.Keeping as spec;

use crate::asked::Asked;
use crate::{Purpose, table};
use compilers::table::Table;
use std::alloc::{AllocError, Global};
use texts::words::Words;

// The values of an option, in order.
fn values_of(alloc: Global, name: &str, options: &[(String, String)]) -> Result<Words, AllocError>
    ensures { IfOk result (λ values. values ≡ spec.values_of name.now (map pair_of options.now)) }
{
    let mut values = Words::new(alloc);
    for option in options {
        if name == option.0.as_str() {
            values.push_str(alloc, option.1.as_str())?;
        }
    }
    Ok(values)
}

// Whether each option of a table has the same values on both lines.
fn keeps_table(
    alloc: Global,
    options: &[(String, String)],
    others: &[(String, String)],
    table: &Table<'_, Purpose>,
) -> Result<bool, AllocError>
    ensures { IfOk result (λ b. b ≡ spec.same_options (map pair_of options.now) (map pair_of others.now) (map entry_of table.now.rows.now)) }
{
    for row in table.rows {
        let values = values_of(alloc, row.text(), options)?;
        let other = values_of(alloc, row.text(), others)?;
        if values != other {
            return Ok(false);
        }
    }
    Ok(true)
}

impl Asked {
    // Whether a line that asks for `other` isn't left to nvcc, and has the same phase and the same words for nvcc to forward.
    fn begins_as(&self, other: &Asked) -> bool
        ensures { result ≡ spec.begins_as self.now other.now }
    {
        other.refusal.is_none() && self.phase() == other.phase() && self.unknown == other.unknown
    }

    fn is_kept_by(&self, alloc: Global, other: &Asked) -> Result<bool, AllocError>
        ensures { IfOk result (λ b. b ≡ spec.keeps self.now other.now) }
    {
        if !self.begins_as(other) {
            return Ok(false);
        }
        let known = table();
        let (options, others) = (self.options.as_slice(), other.options.as_slice());
        keeps_table(alloc, options, others, &known)
    }

    /// Whether words keep the options of a line that asks for this: nvcc reads the same phase, forwards the same words, and each of its
    /// options has the same values in the same order. Options that say where to write, in which language the input is, what to keep and
    /// how many threads to use don't count, nor do those of dependency files.
    pub fn is_kept_in(&self, alloc: Global, written: &[String]) -> Result<bool, AllocError>
        ensures { IfOk result (λ b. b ≡ spec.keeps self.now (asked_of [] (map string_bytes written.now))) }
    {
        let other = Asked::of(alloc, written, &[])?;
        let is_kept = self.is_kept_by(alloc, &other);
        // Dropped by a call: see "Explicit drops" in docs/ARCHITECTURE.md.
        drop(other);
        is_kept
    }
}
