//! Reading a dry run.

ghost use Rattle.std.specs.Prelude.{◌≡◌, [], map, codes, IfOk, OnErr, string_bytes};
ghost use Rattle.texts.specs.Fault.{UnlessMemory};
ghost use Rattle.texts.specs.Variables as variables;
ghost use Rattle.dry_runs.specs.DryRun.{dry_run_of, meaning, meaning_of_words, meaning_by_path, Assigns};
ghost use Rattle.dry_runs.specs.Limit.{UnlessMemoryWithin, dry_run_within, left_behind_line};
ghost use Rattle.dry_runs.specs.Parsed as spec;
ghost use Rattle.dry_runs.specs.Reading.{dry_run_seen, dry_run_seen_within, said_parsed, said_ended, said_left, said_next, next_within, next_held};

use crate::limit::{LimitedFault, left_behind_command, left_behind_variable};
use crate::lines::first_line;
use crate::parsed::{ParsedRun, whole};
use crate::set_variables::SetVariables;
use crate::statement::{Statement, statement_within};
use crate::which::{Question, Which, found_program};
use compilers::dry_run::{Commands, DryRun};
use std::alloc::{AllocError, Global};
use texts::fault::Fault;
use texts::text::Text;
use texts::variables::first_value;

/// Reads what `nvcc --dryrun` printed: its commands, each with its line, its program's path and its words,
/// and what its environment lines set.
///
/// `run` is the number of the dry run, 1 or 2, which faults carry. `cwd` is the working directory, and `which`
/// looks up the programs.
///
/// - A line ends at a newline. One carriage return right before that newline is removed too. Lines are numbered
///   from 0. A line that doesn't begin with the mark `#$ ` counts, but says nothing.
/// - A marked line `NAME=value`, its name of capital letters and `_`, sets a variable. The value is not expanded.
/// - Any other marked line is a command. The variables set before it are expanded in it, one after the other: if
///   some `$NAME` comes before a character that isn't a word character, every `$NAME` of the line becomes the
///   value. The result is split into shell words. The first one is the program, which `which` looks up with the
///   first value of `PATH` set before the line.
///
/// These are the rules of sccache 0.19.0's reader of dry runs.
///
/// The first bad line refuses the whole run, with the first of these faults that applies: `NotUtf8` if the line
/// isn't UTF-8, marked or not; and for a command `BadShell` if a quote is left open or a backslash ends it,
/// `EmptyCommand` if it has no word, `NoPath` if `PATH` isn't set before it, even if its program contains a `/`,
/// and `NotFound` if `which` doesn't find the program. `Memory` may come in place of any answer.
///
/// A text can double with each environment line: by lines like `A=$AA.$AA.`, 469 bytes become 295 kB.
/// Read dry runs that you don't trust with `read_dry_run_within`.
pub fn read_dry_run<W: Which>(
    alloc: Global,
    dry_run: &[u8],
    run: usize,
    cwd: &str,
    which: &W,
) -> Result<DryRun, Fault>
    ensures { UnlessMemory (dry_run_seen result) (dry_run_of run dry_run.now cwd.now (W.answer which.now)) }
{
    let parsed = parse_dry_run(alloc, dry_run, run)?;
    parsed.resolved(alloc, cwd, which)
}

/// Parses a dry run as `read_dry_run` does, up to its first bad line, and looks up no program.
///
/// The only error is a failed allocation. Parse dry runs that you don't trust with `parse_dry_run_within`.
pub fn parse_dry_run(alloc: Global, dry_run: &[u8], run: usize) -> Result<ParsedRun, AllocError>
    ensures { IfOk result (λ p. p ≡ spec.parsed_of run dry_run.now) }
{
    match parse_dry_run_within(alloc, dry_run, run, usize::MAX) {
        Ok(parsed) => Ok(parsed),
        Err(_) => Err(AllocError),
    }
}

/// Parses a dry run as `parse_dry_run` does, within a limit in bytes.
///
/// It counts as `read_dry_run_within` does, with the question of each command in place of its program's path. The errors
/// are `LimitedFault::TooLong` for a line that exceeds the limit before any line is bad, and `Fault::Memory`.
pub fn parse_dry_run_within(
    alloc: Global,
    dry_run: &[u8],
    run: usize,
    limit: usize,
) -> Result<ParsedRun, LimitedFault>
    ensures { UnlessMemoryWithin result (spec.parsed_within limit run dry_run.now) }
{
    let setting = Setting {
        alloc,
        run,
        cwd: "",
        which: &Question,
    };
    read_lines(&setting, dry_run, limit)
}

/// Reads a dry run as `read_dry_run` does, within a limit in bytes.
///
/// What the lines so far hold, and the texts that a line is expanded to on the way, are counted:
///
/// - A variable holds its name and its value, and a command its program's path and its words. Each of these texts
///   counts its bytes and one more, so that empty words count too. Each variable and each command counts 4,096 bytes
///   beside its texts, since later steps compare it with others.
/// - Each text that expanding one variable after the other makes counts its bytes. The text of a command itself may be as
///   long as what is left of the limit.
///
/// Lines without the mark count nothing, and each run has the whole limit. The first line that exceeds the limit refuses the
/// run with `LimitedFault::TooLong`, unless a line before it is bad. Such a line, or any other fault, gives
/// `LimitedFault::Fault` as `read_dry_run` does. The path that `which` finds for a program is counted after it is made.
pub fn read_dry_run_within<W: Which>(
    alloc: Global,
    dry_run: &[u8],
    run: usize,
    cwd: &str,
    which: &W,
    limit: usize,
) -> Result<DryRun, LimitedFault>
    ensures { UnlessMemoryWithin (dry_run_seen_within result) (dry_run_within limit run dry_run.now cwd.now (W.answer which.now)) }
{
    let setting = Setting {
        alloc,
        run,
        cwd,
        which,
    };
    whole(read_lines(&setting, dry_run, limit))
}

// Reads a run up to its first bad line, within a limit.
fn read_lines<W: Which>(
    setting: &Setting<W>,
    dry_run: &[u8],
    limit: usize,
) -> Result<ParsedRun, LimitedFault>
    ensures { UnlessMemoryWithin result (spec.lines_read_within (W.answer setting.now.which.now) limit setting.now.run dry_run.now setting.now.cwd.now) }
{
    let mut said = Said::new(setting.alloc);
    let mut left = limit;
    let mut number = 0;
    let mut rest = dry_run;
    while let Some((line, behind)) = first_line(rest) {
        match said.read(setting, left, number, line) {
            Ok(less) => left = less,
            Err(fault) => return said.ended(fault),
        }
        number += 1;
        rest = behind;
    }
    Ok(said.parsed(None))
}

// What the lines of a dry run are read with.
#[derive(Drop)]
struct Setting<'a, W> {
    alloc: Global,
    run: usize,
    cwd: &'a str,
    which: &'a W,
}

// What the lines so far say.
#[derive(Drop)]
struct Said {
    commands: Commands,
    env: SetVariables,
}

impl Said {
    fn new(alloc: Global) -> Said
        ensures { result ≡ record { commands = []; env = [] } }
    {
        Said {
            commands: Commands::new(alloc),
            env: SetVariables::new(alloc),
        }
    }

    // The run that the lines so far are, and why the next one is bad, if it is.
    fn parsed(self, fault: Option<Fault>) -> ParsedRun
        ensures { result ≡ said_parsed self fault }
    {
        ParsedRun {
            commands: self.commands,
            env: self.env.into_variables(),
            fault,
        }
    }

    // The run that the lines so far are, if the next one is bad.
    fn ended(self, fault: LimitedFault) -> Result<ParsedRun, LimitedFault>
        ensures { result ≡ said_ended self fault }
    {
        match fault {
            LimitedFault::Fault(Fault::Memory) => Err(LimitedFault::Fault(Fault::Memory)),
            LimitedFault::Fault(fault) => Ok(self.parsed(Some(fault))),
            LimitedFault::TooLong { run, line } => Err(LimitedFault::TooLong { run, line }),
        }
    }

    // Reads line `number` with `left` bytes of the limit, and returns how many are left after it. On an error nothing more
    // is said.
    fn read<W: Which>(
        &mut self,
        setting: &Setting<W>,
        left: usize,
        number: usize,
        line: &[u8],
    ) -> Result<usize, LimitedFault>
        ensures said { UnlessMemoryWithin (said_left result self.new) (next_within setting.now.run number
            (left_behind_line (W.answer setting.now.which.now) setting.now.run setting.now.cwd.now left self.old.env (number, line.now))
            (said_next self.old (meaning (W.answer setting.now.which.now) setting.now.run setting.now.cwd.now
            self.old.env (number, line.now)))) }
        ensures kept { OnErr result (self.new ≡ self.old) }
    {
        let run = setting.run;
        let stated = statement_within(setting.alloc, &self.env, line, left)?;
        let Some((statement, less)) = stated else {
            return Err(LimitedFault::TooLong { run, line: number });
        };
        match statement {
            Statement::Nothing => Ok(less),
            Statement::Sets(name, value) => self.set(setting, less, number, name, value),
            Statement::Runs(words) => self.run(setting, less, number, words.into_vec()),
            Statement::BadShell => Err(LimitedFault::Fault(Fault::BadShell { run, line: number })),
            Statement::NotUtf8 => Err(LimitedFault::Fault(Fault::NotUtf8 { run, line: number })),
        }
    }

    fn set<W: Which>(
        &mut self,
        setting: &Setting<W>,
        left: usize,
        number: usize,
        name: Text,
        value: Text,
    ) -> Result<usize, LimitedFault>
        ensures said { UnlessMemoryWithin (said_left result self.new) (next_held setting.now.run number left self.old (Assigns (name, value))) }
        ensures kept { OnErr result (self.new ≡ self.old) }
    {
        let Some(left) = left_behind_variable(left, name.as_str(), value.as_str()) else {
            let run = setting.run;
            return Err(LimitedFault::TooLong { run, line: number });
        };
        let name = name.into_string();
        self.env.push(setting.alloc, name, value.into_string())?;
        Ok(left)
    }

    fn run<W: Which>(
        &mut self,
        setting: &Setting<W>,
        left: usize,
        number: usize,
        mut words: Vec<String>,
    ) -> Result<usize, LimitedFault>
        ensures said { UnlessMemoryWithin (said_left result self.new) (next_held setting.now.run number left self.old
            (meaning_of_words (W.answer setting.now.which.now) setting.now.run setting.now.cwd.now number
            self.old.env (Some (map string_bytes words.items)))) }
        ensures kept { OnErr result (self.new ≡ self.old) }
    {
        if words.is_empty() {
            return Err(LimitedFault::Fault(Fault::EmptyCommand {
                run: setting.run,
                line: number,
            }));
        }
        let program = words.remove(0);
        self.run_program(setting, left, number, program, words)
    }

    fn run_program<W: Which>(
        &mut self,
        setting: &Setting<W>,
        left: usize,
        number: usize,
        program: String,
        words: Vec<String>,
    ) -> Result<usize, LimitedFault>
        ensures said { UnlessMemoryWithin (said_left result self.new) (next_held setting.now.run number left self.old
            (meaning_by_path (W.answer setting.now.which.now) setting.now.run setting.now.cwd.now
            number (string_bytes program) (map string_bytes words.items) (variables.first_value (codes "PATH") self.old.env))) }
        ensures kept { OnErr result (self.new ≡ self.old) }
    {
        let Some(path) = first_value(self.env.as_slice(), "PATH") else {
            return Err(LimitedFault::Fault(Fault::NoPath {
                run: setting.run,
                line: number,
            }));
        };
        let cwd = setting.cwd;
        let found = found_program(setting.alloc, setting.which, program.as_str(), path, cwd)?;
        let Some(left) = left_behind_command(left, found.as_str(), words.as_slice()) else {
            let run = setting.run;
            return Err(LimitedFault::TooLong { run, line: number });
        };
        self.commands.push(number, found, words)?;
        Ok(left)
    }
}
