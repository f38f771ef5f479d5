//! The environment of an nvcc line.

ghost use Rattle.std.specs.Prelude.{◌≡◌, ◌++◌, map, IfOk, string_bytes};
ghost use Rattle.texts.specs.Variables.{pair_of};
ghost use Rattle.host_lines.specs.NvccEnvironment as spec;

use std::alloc::{AllocError, Global};
use texts::shell::split;
use texts::variables::{Variables, first_value};
use texts::words::Words;

const PREPENDED: &str = "NVCC_PREPEND_FLAGS";

const APPENDED: &str = "NVCC_APPEND_FLAGS";

// Whether nvcc reads words from the variable of this name.
fn is_flags_name(name: &str) -> bool
    ensures { result ≡ spec.is_flags_name name.now }
{
    name == PREPENDED || name == APPENDED
}

/// The variables without `NVCC_PREPEND_FLAGS` and `NVCC_APPEND_FLAGS`. The arguments of a line already include the
/// words of both, so nvcc would read them twice.
pub fn without_flags(alloc: Global, env_vars: &[(String, String)]) -> Result<Variables, AllocError>
    ensures { IfOk result (λ v. v ≡ spec.without_flags (map pair_of env_vars.now)) }
{
    let mut left = Variables::new(alloc);
    for pair in env_vars {
        if !is_flags_name(pair.0.as_str()) {
            let name = String::from_str(alloc, pair.0.as_str())?;
            let value = String::from_str(alloc, pair.1.as_str())?;
            left.push(name, value)?;
        }
    }
    Ok(left)
}

// The shell words that the first variable of a name adds; none if the shell can't split its value.
fn added_words(
    alloc: Global,
    env_vars: &[(String, String)],
    name: &str,
) -> Result<Words, AllocError>
    ensures { IfOk result (λ w. w ≡ spec.added_words name.now (map pair_of env_vars.now)) }
{
    let words = match first_value(env_vars, name) {
        Some(text) => split(alloc, text)?,
        None => None,
    };
    Ok(Words::from_vec(words.unwrap_or(Vec::new(alloc))))
}

/// Adds the words of the environment to a line: those of the first `NVCC_PREPEND_FLAGS` before it, and those of the
/// first `NVCC_APPEND_FLAGS` after it. A value is split like a shell splits it, as in sccache 0.19.0; one with an
/// open quote adds no word. (nvcc itself keeps quotes.)
pub fn whole_line(
    alloc: Global,
    arguments: &[String],
    env_vars: &[(String, String)],
) -> Result<Words, AllocError>
    ensures { IfOk result (λ w. w ≡ spec.with_added_words (map pair_of env_vars.now) (map string_bytes arguments.now)) }
{
    let mut words = added_words(alloc, env_vars, PREPENDED)?;
    words.extend(alloc, arguments)?;
    words.append(added_words(alloc, env_vars, APPENDED)?)?;
    Ok(words)
}
