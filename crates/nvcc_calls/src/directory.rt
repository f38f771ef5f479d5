//! The name of a call's directory.

ghost use Rattle.std.specs.Prelude.{◌≡◌, ◌++◌, IfOk, OnOk, codes, flat_map, map, string_bytes, unwrap_or, option_copied};
ghost use Rattle.texts.specs.Variables.{pair_of};
ghost use Rattle.nvcc_calls.specs.Directory as spec;
ghost use Rattle.compilers.specs.Calls.{directory_of};

use compilers::DirectoryCall;
use sha2::{Digest, Sha256};
use std::alloc::{AllocError, Global};
use texts::decimal::push_number;
use texts::variables::first_value;

// Adds a part after its length.
fn push_sized(alloc: Global, text: &mut String, part: &str) -> Result<(), AllocError>
    ensures { OnOk result (string_bytes text.new ≡ string_bytes text.old ++ spec.sized part.now) }
{
    push_number(alloc, text, part.len())?;
    text.push_str(":")?;
    text.push_str(part)
}

fn push_words(alloc: Global, text: &mut String, words: &[String]) -> Result<(), AllocError>
    ensures { OnOk result (string_bytes text.new ≡ string_bytes text.old ++ spec.identity (map string_bytes words.now)) }
{
    for word in words {
        push_sized(alloc, text, word.as_str())?;
    }
    Ok(())
}

// Adds a variable's value after its length.
fn push_value(
    alloc: Global,
    text: &mut String,
    variables: &[(String, String)],
    name: &str,
) -> Result<(), AllocError>
    ensures { OnOk result (string_bytes text.new ≡ string_bytes text.old ++ spec.sized (spec.value_in (map pair_of variables.now) name.now)) }
{
    push_sized(alloc, text, first_value(variables, name).unwrap_or(""))
}

// All that a call depends on, as one text.
fn identity(
    alloc: Global,
    call: &DirectoryCall<'_>,
    variables: &[(String, String)],
) -> Result<String, AllocError>
    ensures { IfOk result (λ text. string_bytes text ≡ spec.identity (spec.parts_of (directory_of call.now) (map pair_of variables.now))) }
{
    let mut text = String::new(alloc);
    push_sized(alloc, &mut text, call.cwd)?;
    push_sized(alloc, &mut text, call.nvcc)?;
    push_value(alloc, &mut text, variables, "NVCC_PREPEND_FLAGS")?;
    push_value(alloc, &mut text, variables, "NVCC_APPEND_FLAGS")?;
    push_words(alloc, &mut text, call.words)?;
    Ok(text)
}

/// The name of the directory of an nvcc call: `zigrunk-` and the SHA-256 of all that the call depends on, in lower-case hex
/// digits: the working directory, nvcc, both variables of nvcc's flags and the words, each after its length, so no two calls
/// share a text.
pub fn directory_name(
    alloc: Global,
    call: &DirectoryCall<'_>,
    variables: &[(String, String)],
) -> Result<String, AllocError>
    ensures { IfOk result (λ name. string_bytes name ≡ spec.directory_name (directory_of call.now) (map pair_of variables.now)) }
{
    let identity = identity(alloc, call, variables)?;
    let mut name = String::from_str(alloc, "zigrunk-")?;
    let digest = hex::encode(alloc, Sha256::digest(identity.as_str().as_bytes()))?;
    name.push_str(digest.as_str())?;
    Ok(name)
}
