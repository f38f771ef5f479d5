//! What the arguments of an nvcc line say.

ghost use Rattle.std.specs.Prelude.{◌≡◌, IfOk, Ok, codes, map, string_bytes, option_and_then};
ghost use Rattle.texts.specs.Fault.{UnlessMemory};
ghost use Rattle.texts.specs.Variables as variables_spec;
ghost use Rattle.texts.specs.Variables.{pair_of};
ghost use Rattle.compilers.specs.Calls.{nvcc_of};
ghost use Rattle.host_lines.specs.KeepThreads.{number_of};
ghost use Rattle.nvcc_calls.specs.Answer as spec;

use crate::hazard::holds;
use compilers::NvccCall;
use compilers::arguments::ParsedArguments;
use compilers::command::SingleCompileCommand;
use compilers::compiler::{CCompilerImpl, Places};
use host_lines::nvcc::{Nvcc, NvccCompileCommand, take_keep, take_threads};
use std::alloc::{AllocError, Global};
use texts::fault::Fault;
use texts::text::{Text, join};
use texts::variables::first_value;

/// What an nvcc line says: the commands to run before there is a plan, and how to run it.
///
/// The commands' words have those of `NVCC_PREPEND_FLAGS` and `NVCC_APPEND_FLAGS` in them, so they run without these variables.
#[derive(Debug, Drop)]
pub struct Outline {
    /// The command that writes the dependency file, if the line asks for one.
    pub dependencies: Option<SingleCompileCommand>,
    /// The first dry run.
    pub first: SingleCompileCommand,
    /// The second dry run.
    pub second: SingleCompileCommand,
    /// The compilation flag, as `-c`, or empty if the line has none.
    pub flag: Text,
    /// How many commands run at once, or 0 if neither the line nor the environment says.
    pub jobs: usize,
    /// The directory that keeps the generated files, if one does.
    pub keep_dir: Option<Text>,
}

fn dependencies(
    alloc: Global,
    call: &NvccCall<'_>,
    parsed: &ParsedArguments,
    variables: &[(String, String)],
) -> Result<Option<SingleCompileCommand>, Fault>
    ensures { UnlessMemory result (spec.dependencies_of (nvcc_of call.now) parsed.now (map pair_of variables.now)) }
{
    if parsed.dependency_args.is_empty() {
        return Ok(None);
    }
    let commands = Nvcc::gcc().preprocess(alloc, call.nvcc, parsed, call.cwd, variables)?;
    match commands.as_slice() {
        [] => Ok(None),
        [command, ..] => Ok(Some(command.try_clone(alloc)?)),
    }
}

// The number of threads that a line asks for, or 0 if it has no thread words.
fn threads(alloc: Global, cwd: &str, parsed: &ParsedArguments) -> Result<usize, Fault>
    ensures { UnlessMemory result (spec.threads_of_line cwd.now parsed.now) }
{
    let (kept, _) = take_keep(alloc, parsed.unhashed_args.as_slice(), cwd)?;
    let (left, number) = take_threads(alloc, kept.as_slice())?;
    Ok(if left.len() == kept.len() { 0 } else { number })
}

fn number_in(text: &str) -> Option<usize>
    ensures { result ≡ number_of text.now }
{
    text.parse::<usize>().ok()
}

fn number_given(variables: &[(String, String)]) -> Option<usize>
    ensures { result ≡ option_and_then number_of (variables_spec.first_value (codes "ZIGRUNK_JOBS") (map pair_of variables.now)) }
{
    number_in(first_value(variables, "ZIGRUNK_JOBS")?)
}

// How many commands run at once, or 0 if nobody says, given the line's number of `threads` or 0.
//
// `ZIGRUNK_JOBS` decides if it is a number. Else, under a make that hands out jobs, one command runs at a time.
fn number_of_jobs(variables: &[(String, String)], threads: usize) -> usize
    ensures { result ≡ spec.jobs_of (map pair_of variables.now) threads }
{
    match (number_given(variables), first_value(variables, "MAKEFLAGS")) {
        (Some(number), _) => number,
        (None, Some(flags)) if holds(flags, "--jobserver-auth=") => 1,
        (None, Some(flags)) if holds(flags, "--jobserver-fds=") => 1,
        _ => threads,
    }
}

// Whether a word asks for the source's lines in device code.
fn is_lines_word(word: &str) -> bool
    ensures { result ≡ spec.is_lines_word word.now }
{
    matches!(
        word,
        "-lineinfo" | "--generate-line-info" | "-G" | "--device-debug"
    )
}

fn asks_lines(words: &[String]) -> bool
    ensures { result ≡ spec.asks_lines (map string_bytes words.now) }
{
    for word in words {
        if is_lines_word(word.as_str()) {
            return true;
        }
    }
    false
}

// The input's path, as nvcc's command names it.
fn input(
    alloc: Global,
    cwd: &str,
    parsed: &ParsedArguments,
    variables: &[(String, String)],
) -> Result<Text, AllocError>
    ensures { IfOk result (λ path. path ≡ spec.input_of cwd.now parsed.now (map pair_of variables.now)) }
{
    let runs_in_place = first_value(variables, "ZIGRUNK_IN_PLACE").is_some();
    if asks_lines(parsed.common_args.as_slice()) && !runs_in_place {
        Ok(Text::new(join(alloc, cwd, parsed.input.as_str())?))
    } else {
        parsed.input.try_clone(alloc)
    }
}

/// The nvcc command of a line's arguments.
pub fn command(
    alloc: Global,
    call: &NvccCall<'_>,
    parsed: &ParsedArguments,
    variables: &[(String, String)],
) -> Result<NvccCompileCommand, Fault>
    ensures { UnlessMemory result (spec.command_of (nvcc_of call.now) parsed.now (map pair_of variables.now)) }
{
    let places = Places {
        temp_dir: Text::copy_of(alloc, call.tmp)?,
        canonical_input: input(alloc, call.cwd, parsed, variables)?,
    };
    let (command, _) = Nvcc::gcc().generate_compile_commands(
        alloc, call.nvcc, parsed, call.cwd, variables, &places,
    )?;
    Ok(command)
}

fn outline_with(
    alloc: Global,
    command: &NvccCompileCommand,
    dependencies: Option<SingleCompileCommand>,
    jobs: usize,
) -> Result<Outline, AllocError>
    ensures { IfOk result (λ outline. outline ≡ spec.outline_with command.now dependencies jobs) }
{
    let (first, second) = command.dryrun_commands(alloc)?;
    Ok(Outline {
        dependencies,
        first,
        second,
        flag: command.compilation_flag.try_clone(alloc)?,
        jobs,
        keep_dir: Text::clone_optional(alloc, &command.keep_dir)?,
    })
}

/// What a line's arguments say, given their command.
pub fn outline_of(
    alloc: Global,
    call: &NvccCall<'_>,
    parsed: &ParsedArguments,
    variables: &[(String, String)],
    command: &NvccCompileCommand,
) -> Result<Outline, Fault>
    ensures { UnlessMemory result (spec.outline_of (nvcc_of call.now) parsed.now (map pair_of variables.now) command.now) }
{
    let dependencies = dependencies(alloc, call, parsed, variables)?;
    let threads = threads(alloc, call.cwd, parsed)?;
    let jobs = number_of_jobs(variables, threads);
    Ok(outline_with(alloc, command, dependencies, jobs)?)
}
