//! The key of a command that others may take for theirs.

ghost use Rattle.std.specs.Prelude.{◌≡◌, ◌++◌, ◌≤◌, map, length, IfOk, OnOk, option_map};
ghost use Rattle.std.specs.List.{flat_map, list_all, list_any};
ghost use Rattle.texts.specs.Path.{lacks};
ghost use Rattle.command_keys.specs.Actions as spec;
ghost use Rattle.command_keys.specs.Keys.{is_plain_variable, key_of_text, shown, shown_variable};

use crate::counting::{NamedFiles, counted_words};
use crate::keys::{
    MOST_ROOTS, are_plain, are_plain_variables, is_plain, push_variables, push_words,
};
use crate::known_words::names_reach;
use crate::marks::push_text;
use compilers::plans::Program;
use std::alloc::{AllocError, Global};

/// A command with all that what it makes depends on.
#[derive(Clone, Copy, Debug)]
pub struct Action<'a> {
    /// The digest of its tool, as text.
    pub tool: &'a [u8],
    /// Its words behind the program.
    pub words: &'a [&'a [u8]],
    /// The variables that it sees, with their values.
    pub variables: &'a [(&'a [u8], &'a [u8])],
    /// The path of the directory where it runs.
    pub cwd: &'a [u8],
    /// The paths of the files that it reads, with the digests of their contents, as text.
    pub inputs: &'a [(&'a [u8], &'a [u8])],
    /// The paths of the files that it may write.
    pub outputs: &'a [&'a [u8]],
}

// The paths of inputs.
fn paths_of<'a>(alloc: Global, inputs: &[(&'a [u8], &'a [u8])]) -> Result<Vec<&'a [u8]>, AllocError>
    ensures { IfOk result (λ paths. map shown paths.items ≡ spec.paths_of (map shown_variable inputs.now)) }
{
    let mut paths = Vec::with_capacity(alloc, inputs.len())?;
    for input in inputs {
        paths.push(input.0)?;
    }
    Ok(paths)
}

// Whether all texts of an action lack NUL.
fn is_plain_action(action: &Action<'_>) -> bool
    ensures { result ≡ spec.is_plain_action (spec.shared_of action.now) }
{
    is_plain(action.tool)
        && are_plain(action.words)
        && are_plain_variables(action.variables)
        && are_plain_variables(action.inputs)
        && are_plain(action.outputs)
}

/// Whether what a command makes depends on nothing but what an action has: a cache knows all its words, it reads no file that isn't an
/// input, and no file's name reaches what it makes.
pub fn may_be_shared(alloc: Global, tool: Program, action: &Action<'_>) -> Result<bool, AllocError>
    ensures { IfOk result (λ may_be. may_be ≡ spec.may_be_shared tool (spec.cwd_of action.now) (spec.shared_of action.now)) }
{
    if names_reach(tool, action.words) {
        return Ok(false);
    }
    let reads = paths_of(alloc, action.inputs)?;
    let files = NamedFiles {
        cwd: action.cwd,
        reads: reads.as_slice(),
        products: action.outputs,
    };
    let counted = counted_words(alloc, tool, action.words, &files)?;
    Ok(counted.is_some())
}

fn push_inputs(
    key: &mut Vec<u8>,
    roots: &[&[u8]],
    inputs: &[(&[u8], &[u8])],
) -> Result<(), AllocError>
    requires { length roots.now ≤ 26 }
    ensures { OnOk result (key.new.items ≡ key.old.items
        ++ flat_map (key_of_text (map shown roots.now)) (flat_map spec.texts_of_input (map shown_variable inputs.now))) }
{
    for input in inputs {
        push_text(key, roots, input.0, b'3')?;
        push_text(key, roots, input.1, b'4')?;
    }
    Ok(())
}

fn push_outputs(key: &mut Vec<u8>, roots: &[&[u8]], outputs: &[&[u8]]) -> Result<(), AllocError>
    requires { length roots.now ≤ 26 }
    ensures { OnOk result (key.new.items ≡ key.old.items
        ++ flat_map (key_of_text (map shown roots.now)) (map (λ output. (output, spec.output_end)) (map shown outputs.now))) }
{
    for output in outputs {
        push_text(key, roots, output, b'5')?;
    }
    Ok(())
}

/// The key of an action: its tool, words, variables, inputs and outputs, in the order given, with marks in place of `roots`, as in
/// [`command_key`](crate::command_key). Actions with one key are the same but for their roots (`laws::actions`).
///
/// NUL and `6` end the tool, NUL and `3` an input's path, NUL and `4` its digest, NUL and `5` an output. `None` if the command may not be
/// shared ([`may_be_shared`]), if a text contains NUL, or if there are more than `MOST_ROOTS` roots.
pub fn action_key(
    alloc: Global,
    tool: Program,
    action: &Action<'_>,
    roots: &[&[u8]],
) -> Result<Option<Vec<u8>>, AllocError>
    ensures { IfOk result (λ key. option_map (λ key. key.items) key
        ≡ spec.key_of_action (map shown roots.now) tool (spec.cwd_of action.now) (spec.shared_of action.now)) }
{
    if roots.len() > MOST_ROOTS
        || !is_plain_action(action)
        || !may_be_shared(alloc, tool, action)?
    {
        return Ok(None);
    }
    let mut key = Vec::new(alloc);
    push_text(&mut key, roots, action.tool, b'6')?;
    push_words(&mut key, roots, action.words)?;
    push_variables(&mut key, roots, action.variables)?;
    push_inputs(&mut key, roots, action.inputs)?;
    push_outputs(&mut key, roots, action.outputs)?;
    Ok(Some(key))
}
