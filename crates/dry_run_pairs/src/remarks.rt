//! What else is read off dry runs: nvcc's messages, and in which order it runs device commands.

ghost use Rattle.std.specs.Prelude.{◌≡◌, ◌++◌, IfOk, OnOk, codes, not, ◌&&◌, map, option_map};
ghost use Rattle.std.specs.List.{list_any};
ghost use Rattle.std.specs.Str.Lines.{lines};
ghost use Rattle.dry_run_pairs.specs.Lines.{is_marked};
ghost use Rattle.dry_run_pairs.specs.Remarks as spec;

use crate::cuts::{cut, holds};
use crate::lines::{is_marked, marked};
use dry_runs::first_line;
use std::alloc::{AllocError, Global};

// Adds a line and its newline.
fn push_line(text: &mut Vec<u8>, line: &[u8]) -> Result<(), AllocError>
    ensures { OnOk result (text.new.items ≡ text.old.items ++ spec.ended line.now) }
{
    text.extend_from_slice(line)?;
    text.push(b'\n')?;
    Ok(())
}

/// nvcc's messages in a dry run: the lines that are no commands or variables, each with its newline, without a carriage return before that.
pub fn remarks_in(alloc: Global, run: &[u8]) -> Result<Vec<u8>, AllocError>
    ensures { IfOk result (λ text. text.items ≡ spec.remarks run.now) }
{
    let mut text = Vec::new(alloc);
    let mut rest = run;
    while let Some((line, others)) = first_line(rest) {
        if !is_marked(line) {
            push_line(&mut text, line)?;
        }
        rest = others;
    }
    Ok(text)
}

// Whether nvcc says in a line that it lacks a file that a command would have printed to.
fn misses_printed(line: &[u8]) -> bool
    ensures { result ≡ spec.misses_printed line.now }
{
    holds(line, b"Could not open input file ") && line.ends_with(b"_stdout")
}

/// Whether a dry run says that it lacks a file that a command would have printed to: an nvcc before version 13 reads such files even in a dry run
/// with `--threads`. One with `--threads 1` has the commands then.
pub fn fails_by_threads(run: &[u8]) -> bool
    ensures { result ≡ spec.fails_by_threads run.now }
{
    let mut rest = run;
    while let Some((line, others)) = first_line(rest) {
        if misses_printed(line) {
            return true;
        }
        rest = others;
    }
    false
}

// Adds the messages of a dry run, but for those on missing files.
fn push_remarks(text: &mut Vec<u8>, run: &[u8]) -> Result<(), AllocError>
    ensures { OnOk result (text.new.items ≡ text.old.items ++ spec.lines_that spec.is_other_remark run.now) }
{
    let mut rest = run;
    while let Some((line, others)) = first_line(rest) {
        if !is_marked(line) && !misses_printed(line) {
            push_line(text, line)?;
        }
        rest = others;
    }
    Ok(())
}

// Adds the commands and variables of a dry run.
fn push_commands(text: &mut Vec<u8>, run: &[u8]) -> Result<(), AllocError>
    ensures { OnOk result (text.new.items ≡ text.old.items ++ spec.lines_that is_marked run.now) }
{
    let mut rest = run;
    while let Some((line, others)) = first_line(rest) {
        if is_marked(line) {
            push_line(text, line)?;
        }
        rest = others;
    }
    Ok(())
}

/// The dry run that `run` would have been, if it failed by threads: its other messages, and the commands of `again`, which is the dry run with
/// `--threads 1`.
pub fn with_commands(alloc: Global, run: &[u8], again: &[u8]) -> Result<Vec<u8>, AllocError>
    ensures { IfOk result (λ text. text.items ≡ spec.with_commands run.now again.now) }
{
    let mut text = Vec::new(alloc);
    push_remarks(&mut text, run)?;
    push_commands(&mut text, again)?;
    Ok(text)
}

// A command's program, with its path, or nothing if the line is none.
fn program(line: &[u8]) -> &[u8]
    ensures { result.now ≡ spec.program_of line.now }
{
    let Some(text) = marked(line) else {
        return &[];
    };
    match cut(text, b" ") {
        None => &[],
        Some((program, _)) => program,
    }
}

// Whether a line is a command of cicc.
fn runs_cicc(line: &[u8]) -> bool
    ensures { result ≡ spec.runs (codes "cicc") line.now }
{
    let path = program(line);
    path.ends_with(b"cicc") || path.ends_with(b"cicc\"")
}

// Whether a line is a command of cudafe++.
fn runs_cudafe(line: &[u8]) -> bool
    ensures { result ≡ spec.runs (codes "cudafe++") line.now }
{
    let path = program(line);
    path.ends_with(b"cudafe++") || path.ends_with(b"cudafe++\"")
}

// Whether a command of cudafe++ is among these lines.
fn one_runs_cudafe(run: &[u8]) -> bool
    ensures { result ≡ list_any (spec.runs (codes "cudafe++")) (lines run.now) }
{
    let mut rest = run;
    while let Some((line, others)) = first_line(rest) {
        if runs_cudafe(line) {
            return true;
        }
        rest = others;
    }
    false
}

/// Whether nvcc runs a device's cicc before cudafe++, as it does before version 12. A plan runs cudafe++ first, so if a command fails, nvcc may have
/// run others before it.
pub fn runs_devices_first(run: &[u8]) -> bool
    ensures { result ≡ spec.devices_first run.now }
{
    let mut rest = run;
    while let Some((line, others)) = first_line(rest) {
        if runs_cudafe(line) {
            return false;
        }
        if runs_cicc(line) {
            return one_runs_cudafe(others);
        }
        rest = others;
    }
    false
}
