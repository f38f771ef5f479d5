//! A dry run that is parsed, and the look-ups of its programs.

ghost use Rattle.std.specs.Prelude.{◌≡◌, IfOk, Result};
ghost use Rattle.texts.specs.Fault.{UnlessMemory};
ghost use Rattle.dry_runs.specs.declared.limit.LimitedFault.{LimitedFault};
ghost use Rattle.dry_runs.specs.declared.parsed.ParsedRun.{ParsedRun};
ghost use Rattle.dry_runs.specs.Limit.{UnlessMemoryWithin};
ghost use Rattle.dry_runs.specs.Parsed as spec;
ghost use Rattle.dry_runs.specs.Reading.{dry_run_seen, dry_run_seen_within};

use crate::limit::LimitedFault;
use crate::which::{Which, found_program, program_in};
use compilers::dry_run::{Commands, DryRun};
use std::alloc::{AllocError, Global};
use texts::fault::Fault;
use texts::variables::{Variables, first_value};

/// A dry run that is parsed up to its first bad line. Its programs aren't looked up yet.
#[derive(Debug, Drop)]
pub struct ParsedRun {
    /// Its commands, in the order of their lines. In place of its program's path each has its question: the value of
    /// `PATH`, and the program's name behind it (`program_in`).
    pub commands: Commands,
    /// What its environment lines set, in their order.
    pub env: Variables,
    /// Why its first bad line is bad, if there is one. No look-up makes that line good.
    pub fault: Option<Fault>,
}

// The value of `PATH`, or nothing.
fn path_of(env: &Variables) -> &str
    ensures { result.now ≡ spec.path_of env.now }
{
    first_value(env.as_slice(), "PATH").unwrap_or("")
}

// The commands with the paths of their programs.
fn found_commands<W: Which>(
    alloc: Global,
    commands: Commands,
    path: &str,
    cwd: &str,
    which: &W,
) -> Result<Commands, Fault>
    ensures { UnlessMemory result (spec.found_commands (W.answer which.now) cwd.now path.now commands) }
{
    let mut found = Commands::new(alloc);
    for (line, question, words) in commands.into_vec() {
        let program = program_in(path, question.as_str());
        let file = found_program(alloc, which, program, path, cwd)?;
        found.push(line, file, words)?;
    }
    Ok(found)
}

// The line of the first command whose program isn't found.
fn first_missing<W: Which>(
    alloc: Global,
    commands: &Commands,
    path: &str,
    cwd: &str,
    which: &W,
) -> Result<Option<usize>, AllocError>
    ensures { IfOk result (λ line. line ≡ spec.first_missing (W.answer which.now) cwd.now path.now commands.now) }
{
    for command in commands.as_slice() {
        let program = program_in(path, command.1.as_str());
        if which.found(alloc, program, path, cwd)?.is_none() {
            return Ok(Some(command.0));
        }
    }
    Ok(None)
}

impl ParsedRun {
    /// The value of `PATH` at each command, or nothing if no line sets it.
    pub fn path(&self) -> &str
        ensures { result.now ≡ spec.path_of self.now.env }
    {
        path_of(&self.env)
    }

    /// Looks up the programs of the commands with `which`, from the working directory `cwd`.
    ///
    /// Fails with `NotFound` for the first program that `which` doesn't find, or else with the fault of the first bad line.
    pub fn resolved<W: Which>(self, alloc: Global, cwd: &str, which: &W) -> Result<DryRun, Fault>
        ensures { UnlessMemory (dry_run_seen result) (spec.resolved (W.answer which.now) cwd.now self) }
    {
        let ParsedRun {
            commands,
            env,
            fault,
        } = self;
        let commands = found_commands(alloc, commands, path_of(&env), cwd, which)?;
        match fault {
            None => Ok(DryRun { commands, env }),
            Some(fault) => Err(fault),
        }
    }

    /// The number of the line for which `resolved` fails, if it does: of the first command whose program `which` doesn't
    /// find, or else of the first bad line.
    pub fn bad_line<W: Which>(
        &self,
        alloc: Global,
        cwd: &str,
        which: &W,
    ) -> Result<Option<usize>, AllocError>
        ensures { IfOk result (λ line. line ≡ spec.bad_line (W.answer which.now) cwd.now self.now) }
    {
        if let Some(line) = first_missing(alloc, &self.commands, self.path(), cwd, which)? {
            return Ok(Some(line));
        }
        match &self.fault {
            Some(
                Fault::NotUtf8 { line, .. }
                | Fault::BadShell { line, .. }
                | Fault::EmptyCommand { line, .. }
                | Fault::NoPath { line, .. },
            ) => Ok(Some(*line)),
            _ => Ok(None),
        }
    }
}

// A run that was read, if no line is bad.
pub(crate) fn whole(read: Result<ParsedRun, LimitedFault>) -> Result<DryRun, LimitedFault>
    ensures { (expected : Result ParsedRun LimitedFault) → UnlessMemoryWithin read expected → UnlessMemoryWithin (dry_run_seen_within result) (spec.whole_in expected) }
{
    match read {
        Ok(run) => {
            let ParsedRun {
                commands,
                env,
                fault,
            } = run;
            match fault {
                None => Ok(DryRun { commands, env }),
                Some(fault) => Err(LimitedFault::Fault(fault)),
            }
        }
        Err(fault) => Err(fault),
    }
}
