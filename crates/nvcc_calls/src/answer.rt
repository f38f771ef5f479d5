//! What becomes of an nvcc line.

ghost use Rattle.std.specs.Prelude.{map};
ghost use Rattle.texts.specs.Fault.{UnlessMemory};
ghost use Rattle.texts.specs.Variables.{pair_of};
ghost use Rattle.nvcc_calls.specs.Answer as spec;
ghost use Rattle.compilers.specs.Calls.{nvcc_of};

use crate::hazard::hazard_of;
use crate::outline::{Outline, command, outline_of};
use crate::{Asked, Call, Reason, Verdict, read_line};
use compilers::NvccCall;
use compilers::arguments::{CompilerArguments, ParsedArguments};
use compilers::compiler::CCompilerImpl;
use host_lines::nvcc::Nvcc;
use std::alloc::Global;
use texts::fault::Fault;

/// What becomes of an nvcc line.
#[derive(Debug, Drop)]
pub enum Answer {
    /// It compiles one source: what to run.
    Split(Outline),
    /// It goes to nvcc unchanged: why.
    Pass(Reason),
}

/// Reads an nvcc line as nvcc does, at the call's working directory, with `variables`, those of the environment that nvcc and
/// Ninja's jobs depend on, `ZIGRUNK_IN_PLACE` if the caller runs nvcc's tools in the call's own directory, and `files`, the options
/// files by name and text. `file_names` names them. A call that compiles one source is split, unless a plan of it would make something
/// else; any other goes to nvcc. It sees names, not the disk: you have to look whether a link leads to standard input, or an input is a pipe.
///
/// Fails if `generate_compile_commands` or `preprocess` of nvcc does.
pub fn read_call(
    alloc: Global,
    call: &NvccCall<'_>,
    variables: &[(String, String)],
    files: &[(String, String)],
) -> Result<Answer, Fault>
    ensures { UnlessMemory result (spec.nvcc_answer (nvcc_of call.now) (map pair_of variables.now) (map pair_of files.now)) }
{
    match read_line(alloc, call.words, variables, files)? {
        Ok(asked) => {
            let answer = answer_to_line(alloc, call, variables, &asked);
            // Dropped by a call: see "Explicit drops" in docs/ARCHITECTURE.md.
            drop(asked);
            answer
        }
        Err(reason) => Ok(Answer::Pass(reason)),
    }
}

fn answer_to_line(
    alloc: Global,
    call: &NvccCall<'_>,
    variables: &[(String, String)],
    asked: &Asked,
) -> Result<Answer, Fault>
    ensures { UnlessMemory result (spec.answer_to_line (nvcc_of call.now) (map pair_of variables.now) asked.now) }
{
    match asked.verdict(alloc)? {
        Verdict::Split(normal) => answer_to_normal(alloc, call, variables, asked, &normal),
        Verdict::Pass(reason) => Ok(Answer::Pass(reason)),
    }
}

// The answer to a line with a normal form, unless a plan of it would make something else.
fn answer_to_normal(
    alloc: Global,
    call: &NvccCall<'_>,
    variables: &[(String, String)],
    asked: &Asked,
    normal: &Call,
) -> Result<Answer, Fault>
    ensures { UnlessMemory result (spec.answer_to_normal (nvcc_of call.now) (map pair_of variables.now) asked.now normal.now) }
{
    if let Some(reason) = hazard_of(alloc, call, asked, normal)? {
        return Ok(Answer::Pass(reason));
    }
    let reading = Nvcc::gcc().parse_arguments(alloc, normal.words.as_slice(), call.cwd, &[])?;
    let answer = match &reading {
        CompilerArguments::Ok(parsed) => answer_to_arguments(alloc, call, variables, asked, parsed),
        _ => Ok(Answer::Pass(Reason::OtherReading)),
    };
    drop(reading);
    answer
}

// The answer to arguments. Their command has to keep the line's options: sccache's reader may read an option otherwise than nvcc.
fn answer_to_arguments(
    alloc: Global,
    call: &NvccCall<'_>,
    variables: &[(String, String)],
    asked: &Asked,
    parsed: &ParsedArguments,
) -> Result<Answer, Fault>
    ensures { UnlessMemory result (spec.answer_to_arguments (nvcc_of call.now) (map pair_of variables.now) asked.now parsed.now) }
{
    let command = command(alloc, call, parsed, variables)?;
    if !asked.is_kept_in(alloc, command.arguments.as_slice())? {
        return Ok(Answer::Pass(Reason::OtherReading));
    }
    Ok(Answer::Split(outline_of(alloc, call, parsed, variables, &command)?))
}
