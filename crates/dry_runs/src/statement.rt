//! What a line of a dry run says.

ghost use Rattle.std.specs.Prelude.{◌≡◌, Some, IfOk, option_map};
ghost use Rattle.dry_runs.specs.DryRun as spec;
ghost use Rattle.dry_runs.specs.Limit as limit;

use crate::environment::{assignment, expanded_words_within};
use crate::lines::marked;
use crate::set_variables::SetVariables;
use std::alloc::{AllocError, Global};
use texts::text::Text;
use texts::words::Words;

/// What a line of a dry run says by itself, before its program is looked up.
#[derive(Debug, Drop)]
pub enum Statement {
    /// Nothing: the line has no mark.
    Nothing,
    /// It sets a variable: its name, and its value.
    Sets(Text, Text),
    /// It runs a command: the shell words of its line, once the variables are expanded. There may be none.
    Runs(Words),
    /// It is a command's line that has an open quote or ends in a backslash.
    BadShell,
    /// It isn't UTF-8.
    NotUtf8,
}

// What a command says, by the text behind its mark, and what is left of the limit, or `None` if its expansion makes texts
// that together are longer than `left`.
fn command(
    alloc: Global,
    env: &SetVariables,
    text: &str,
    left: usize,
) -> Result<Option<(Statement, usize)>, AllocError>
    ensures { IfOk result (λ s. s ≡ option_map (λ w. (spec.stated_by_words w.0, w.1)) (option_map limit.words_left (limit.expanded_within left env.now text.now))) }
{
    match expanded_words_within(alloc, env, text, left)? {
        None => Ok(None),
        Some((words, less)) => match words {
            None => Ok(Some((Statement::BadShell, less))),
            Some(words) => Ok(Some((Statement::Runs(Words::from_vec(words)), less))),
        },
    }
}

// What a marked line says, by the text behind its mark, and what is left of the limit, or `None` as for a command.
fn marked_line(
    alloc: Global,
    env: &SetVariables,
    text: &str,
    left: usize,
) -> Result<Option<(Statement, usize)>, AllocError>
    ensures { IfOk result (λ s. s ≡ limit.stated_marked_within left env.now (Some text.now)) }
{
    match assignment(text) {
        Some((name, value)) => {
            let name = Text::copy_of(alloc, name)?;
            Ok(Some((Statement::Sets(name, Text::copy_of(alloc, value)?), left)))
        }
        None => command(alloc, env, text, left),
    }
}

/// What `line` says behind the environment lines that set `env`, as `statement_of`, and how many of `left` bytes are left
/// once the texts are counted that expanding one variable after the other makes. It is `None` if the line is a command and its
/// text, or these texts together, are longer than `left` bytes.
pub fn statement_within(
    alloc: Global,
    env: &SetVariables,
    line: &[u8],
    left: usize,
) -> Result<Option<(Statement, usize)>, AllocError>
    ensures { IfOk result (λ s. s ≡ limit.stated_within left env.now line.now) }
{
    match str::from_utf8(line) {
        Err(_) => Ok(Some((Statement::NotUtf8, left))),
        Ok(text) => match marked(text) {
            None => Ok(Some((Statement::Nothing, left))),
            Some(text) => marked_line(alloc, env, text, left),
        },
    }
}

/// What `line` says behind the environment lines that set `env`: `read_dry_run` says by which rules.
///
/// The line is one that `first_line` cuts off, without its newline.
pub fn statement_of(alloc: Global, env: &SetVariables, line: &[u8]) -> Result<Statement, AllocError>
    ensures { IfOk result (λ s. s ≡ spec.stated env.now line.now) }
{
    match statement_within(alloc, env, line, usize::MAX)? {
        None => Err(AllocError),
        Some((statement, _)) => Ok(statement),
    }
}
