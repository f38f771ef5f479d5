//! The rule of a dependency file, as nvcc writes it.

ghost use Rattle.std.specs.Prelude.{◌≡◌, ◌++◌, ◌<◌, ◌||◌, ◌==◌, IfOk, OnOk, map, option_map, vec_items};
ghost use Rattle.std.specs.List.{flat_map, list_all};
ghost use Rattle.dependency_rules.specs.Asking.{is_name_byte, rule_of};
ghost use Rattle.dependency_rules.specs.Markers as markers;
ghost use Rattle.dependency_rules.specs.Rules as spec;

use crate::asking::{Rule, is_name_byte};
use crate::files::{begins_with_source, files_of};
use std::alloc::{AllocError, Global};
use texts::bytes::Bytes;

fn are_written_bytes(bytes: &[u8]) -> bool
    ensures { result ≡ list_all (λ byte. is_name_byte byte || byte == 32) bytes.now }
{
    bytes
        .iter()
        .all(|byte| is_name_byte(*byte) || *byte == b' ')
}

// Whether a file's name has no byte but plain ones and blanks.
fn is_written_alike(name: &[u8]) -> bool
    ensures { result ≡ spec.is_written_alike name.now }
{
    !name.is_empty() && are_written_bytes(name)
}

// Whether all files' names are such, and the source isn't alone.
fn is_certain(files: &[Vec<u8>]) -> bool
    ensures { result ≡ spec.is_certain (map vec_items files.now) }
{
    for file in files {
        if !is_written_alike(file.as_slice()) {
            return false;
        }
    }
    files.len() > 1
}

// Adds a file's name, with a backslash before each blank.
fn push_name(text: &mut Vec<u8>, name: &[u8]) -> Result<(), AllocError>
    ensures { OnOk result (text.new.items ≡ text.old.items ++ spec.written name.now) }
{
    for byte in name {
        if *byte == b' ' {
            text.push(b'\\')?;
        }
        text.push(*byte)?;
    }
    Ok(())
}

// Adds further files, each on a line of its own.
fn push_further(text: &mut Vec<u8>, files: &[Vec<u8>]) -> Result<(), AllocError>
    ensures { OnOk result (text.new.items ≡ text.old.items ++ flat_map spec.further (map vec_items files.now)) }
{
    for file in files {
        text.extend_from_slice(b" \\\n    ")?;
        push_name(text, file.as_slice())?;
    }
    Ok(())
}

// The text of a rule for a target that needs these files.
fn text_of(alloc: Global, target: &str, files: &[Vec<u8>]) -> Result<Vec<u8>, AllocError>
    ensures { IfOk result (λ text. text.items ≡ spec.text_of target.now (map vec_items files.now)) }
{
    let mut text = Vec::from_slice(alloc, target.as_bytes())?;
    let [source, further @ ..] = files else {
        text.extend_from_slice(b" :\n")?;
        return Ok(text);
    };
    text.extend_from_slice(b" : ")?;
    push_name(&mut text, source.as_slice())?;
    push_further(&mut text, further)?;
    text.push(b'\n')?;
    Ok(text)
}

// Adds further files as targets without files.
fn push_targets(text: &mut Vec<u8>, files: &[Vec<u8>]) -> Result<(), AllocError>
    ensures { OnOk result (text.new.items ≡ text.old.items ++ flat_map spec.target_alone (map vec_items files.now)) }
{
    for file in files {
        text.push(b'\n')?;
        push_name(text, file.as_slice())?;
        text.extend_from_slice(b":\n")?;
    }
    Ok(())
}

// The text of a rule with what it lists.
fn listing_text(alloc: Global, rule: &Rule<'_>, files: &[Vec<u8>]) -> Result<Vec<u8>, AllocError>
    ensures { IfOk result (λ text. text.items ≡ spec.listing_text (rule_of rule.now) (map vec_items files.now)) }
{
    let mut text = text_of(alloc, rule.target, files)?;
    match files {
        [_, further @ ..] if rule.listing.targets => push_targets(&mut text, further)?,
        _ => {}
    }
    Ok(text)
}

// Whether all texts begin with the source.
fn all_begin_with_source(source: &[u8], texts: &[Bytes]) -> bool
    ensures { result ≡ list_all (markers.begins_with_source source.now) texts.now }
{
    texts
        .iter()
        .all(|text| begins_with_source(source, text.as_slice()))
}

/// The text of the file that gets a rule, from what the preprocessors have written, in nvcc's order (`order_of`). The rule names the source first, and
/// then each file of which a text has the first line, once.
///
/// `None` if nvcc has to make it: if a text doesn't begin with the source, if there is no other file, if a file's name has other bytes than letters,
/// digits, blanks and `_./+-`, or if a line marker isn't as gcc writes them.
pub fn rule_text(
    alloc: Global,
    rule: &Rule<'_>,
    texts: &[Bytes],
) -> Result<Option<Vec<u8>>, AllocError>
    ensures { IfOk result (λ text. option_map vec_items text ≡ spec.rule_text (rule_of rule.now) texts.now) }
{
    let source = rule.source.as_bytes();
    if !all_begin_with_source(source, texts) {
        return Ok(None);
    }
    let files = files_of(alloc, rule.listing.of_system, source, texts)?;
    if !is_certain(files.as_slice()) {
        return Ok(None);
    }
    Ok(Some(listing_text(alloc, rule, files.as_slice())?))
}
