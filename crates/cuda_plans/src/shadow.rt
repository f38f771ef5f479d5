//! Shadow runs: second runs that put the generated files of the first run into a temporary directory.

ghost use Rattle.std.specs.Prelude.{◌≡◌, ◌++◌, ◌&&◌, ℕ, map, codes, IfOk, OnOk, string_bytes, option_copied, bytes_eq};
ghost use Rattle.std.specs.Cmp.Lexicographic.{pointwise};
ghost use Rattle.std.specs.List.{list_all, filter_map};
ghost use Rattle.texts.specs.Lists as lists;
ghost use Rattle.texts.specs.Path as paths;
ghost use Rattle.texts.specs.Path.{joined};
ghost use Rattle.compilers.specs.CommandLines.{line_seen, words_of_command};
ghost use Rattle.canonical_names.specs.Appearances.{appearances};
ghost use Rattle.canonical_names.specs.Shown.{name_shown};
ghost use Rattle.canonical_names.specs.Generated.{generated_name};
ghost use Rattle.cuda_plans.specs.Shadow as spec;

use canonical_names::{Suffixes, begins_with_dash};
use compilers::dry_run::DryRun;
use std::alloc::{AllocError, Global};
use texts::device_files::is_cicc_input;
use texts::text::{file_name, is_bare, join};
use texts::words::word_after;

fn push_names<'a>(
    names: &mut Vec<&'a str>,
    words: &'a [String],
    suffixes: &Suffixes,
) -> Result<(), AllocError>
    ensures { OnOk result (map name_shown names.new.items ≡ map name_shown names.old.items ++ filter_map (generated_name suffixes.now) (map string_bytes words.now)) }
{
    for word in words {
        if let Some(name) = suffixes.generated_name(word.as_str()) {
            names.push(name)?;
        }
    }
    Ok(())
}

// The generated names of a run in order of appearance, each as often as it appears.
fn appearances<'a>(
    alloc: Global,
    commands: &'a [(usize, String, Vec<String>)],
    suffixes: &Suffixes,
) -> Result<Vec<&'a str>, AllocError>
    ensures { IfOk result (λ names. map name_shown names.items ≡ appearances suffixes.now (map line_seen commands.now)) }
{
    let mut names = Vec::new(alloc);
    for command in commands {
        push_names(&mut names, command.2.as_slice(), suffixes)?;
    }
    Ok(names)
}

// The names in `appearances` that end in `.cpp1.ii`.
fn step_names<'a>(
    alloc: Global,
    commands: &'a [(usize, String, Vec<String>)],
    suffixes: &Suffixes,
) -> Result<Vec<&'a str>, AllocError>
    ensures { IfOk result (λ names. map name_shown names.items ≡ spec.step_names suffixes.now (map line_seen commands.now)) }
{
    let names = appearances(alloc, commands, suffixes)?;
    let mut kept = Vec::new(alloc);
    for name in names.as_slice() {
        let name: &'a str = name;
        if is_cicc_input(name) {
            kept.push(name)?;
        }
    }
    Ok(kept)
}

fn are_bare(names: &[&str]) -> bool
    ensures { result ≡ list_all paths.is_bare (map name_shown names.now) }
{
    names.iter().all(|name| is_bare(name))
}

// Whether the names of `second` are those of `first`, put into a folder.
fn are_joined(
    alloc: Global,
    folder: &str,
    first: &[&str],
    second: &[&str],
) -> Result<bool, AllocError>
    ensures { IfOk result (λ b. b ≡ pointwise bytes_eq (map name_shown second.now) (map (joined folder.now) (map name_shown first.now))) }
{
    if first.len() != second.len() {
        return Ok(false);
    }
    for index in 0..first.len() {
        let path = join(alloc, folder, first[index])?;
        if second[index] != path.as_str() {
            return Ok(false);
        }
    }
    Ok(true)
}

// Whether an output's file name isn't that of an input of cicc, or the output ends like such an input and doesn't
// begin with `-`.
fn is_plain_output(word: Option<&str>) -> bool
    ensures { result ≡ spec.is_plain_output (option_copied word.entry) }
{
    match word {
        None => true,
        Some(word) => match file_name(word) {
            Some(name) if is_cicc_input(name) => !begins_with_dash(word) && is_cicc_input(word),
            _ => true,
        },
    }
}

fn are_plain(commands: &[(usize, String, Vec<String>)]) -> bool
    ensures { result ≡ list_all (λ c. spec.is_plain_output (lists.word_after (codes "-o") (words_of_command c))) (map line_seen commands.now) }
{
    commands.iter().all(|command| is_plain_output(word_after(command.2.as_slice(), "-o")))
}

// Whether the names of the first run are bare, those of the second run are the same ones in a folder, and the second
// run's outputs are plain.
fn are_shadows(
    alloc: Global,
    first: &[&str],
    second: &[&str],
    folder: &str,
    commands: &[(usize, String, Vec<String>)],
) -> Result<bool, AllocError>
    ensures { IfOk result (λ b. b ≡ spec.are_shadows (map name_shown first.now) (map name_shown second.now) folder.now (map line_seen commands.now)) }
{
    if !are_bare(first) {
        return Ok(false);
    }
    Ok(are_joined(alloc, folder, first, second)? && are_plain(commands))
}

/// Whether `run2` shadows `run1` in the folder `tmp`: the generated names of `run1` are bare, those of `run2`
/// are the same ones joined to the folder, one by one, and the outputs of `run2` are plain.
///
/// An output is the word after a command's first `-o`. It is plain if its file name doesn't end in
/// `.cpp1.ii`, or if the whole word ends in `.cpp1.ii` and doesn't begin with `-`. `k.cpp1.ii/` isn't plain:
/// its file name ends so, and the word doesn't.
pub fn is_shadow(
    alloc: Global,
    run1: &DryRun,
    run2: &DryRun,
    tmp: &str,
    suffixes: &Suffixes,
) -> Result<bool, AllocError>
    ensures { IfOk result (λ b. b ≡ spec.is_shadow suffixes.now run1.now.commands run2.now.commands tmp.now) }
{
    let first = appearances(alloc, run1.commands.as_slice(), suffixes)?;
    let second = appearances(alloc, run2.commands.as_slice(), suffixes)?;
    let commands = run2.commands.as_slice();
    are_shadows(alloc, first.as_slice(), second.as_slice(), tmp, commands)
}

/// The same, but only for names that end in `.cpp1.ii`: the files that preprocess steps write and cicc reads.
///
/// nvcc 13.0 leaves the name of cudafe++'s stub file bare in its second run, so most of its runs are shadows
/// by this test and not by `is_shadow`.
pub fn is_step_shadow(
    alloc: Global,
    run1: &DryRun,
    run2: &DryRun,
    tmp: &str,
    suffixes: &Suffixes,
) -> Result<bool, AllocError>
    ensures { IfOk result (λ b. b ≡ spec.is_step_shadow suffixes.now run1.now.commands run2.now.commands tmp.now) }
{
    let first = step_names(alloc, run1.commands.as_slice(), suffixes)?;
    let second = step_names(alloc, run2.commands.as_slice(), suffixes)?;
    let commands = run2.commands.as_slice();
    are_shadows(alloc, first.as_slice(), second.as_slice(), tmp, commands)
}
