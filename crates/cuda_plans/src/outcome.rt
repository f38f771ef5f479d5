//! Outputs joined, and the outputs of faults and of finished compilers.

ghost use Rattle.std.specs.Prelude.{◌≡◌, ◌++◌, IfOk, string_bytes};
ghost use Rattle.std.specs.Fmt.{signed_decimal};
ghost use Rattle.cuda_plans.specs.Outcome as spec;

use std::alloc::{AllocError, Global};
use texts::bytes::Bytes;
use texts::fault::Fault;
use texts::status::{CompileFinished, ExitStatus, Output};
use texts::text::file_stem;

fn joined(first: Bytes, second: Bytes) -> Result<Bytes, AllocError>
    ensures { IfOk result (λ bytes. bytes ≡ first ++ second) }
{
    let mut bytes = first.into_vec();
    bytes.extend_from_slice(second.as_slice())?;
    Ok(Bytes::from_vec(bytes))
}

/// Joins two outputs: the texts of `lhs` followed by those of `rhs`, with the first status that isn't
/// success. It consumes both, so a failed allocation loses them.
pub fn aggregate_output(lhs: Output, rhs: Output) -> Result<Output, AllocError>
    ensures { IfOk result (λ output. output ≡ spec.aggregated lhs rhs) }
{
    let status = if lhs.status.success() {
        rhs.status
    } else {
        lhs.status
    };
    Ok(Output {
        status,
        stdout: joined(lhs.stdout, rhs.stdout)?,
        stderr: joined(lhs.stderr, rhs.stderr)?,
    })
}

/// The output of a fault: that of the process that failed, and of any other fault code 1 with its message on
/// standard error. So a `Process` whose status is success gives a success.
pub fn error_to_output(alloc: Global, fault: Fault) -> Result<Output, AllocError>
    ensures { IfOk result (λ output. output ≡ spec.output_of_fault fault) }
{
    match fault {
        Fault::Process(output) => Ok(output),
        fault => {
            let message = fault.message(alloc)?;
            Ok(Output {
                status: ExitStatus::from_code(1),
                stdout: Bytes::new(alloc),
                stderr: Bytes::from_vec(message.into_bytes()),
            })
        }
    }
}

// The stem of a program's path, or all of a path that has none.
fn program_name(exe: &str) -> &str
    ensures { result.now ≡ spec.program_name exe.now }
{
    match file_stem(exe) {
        Some(stem) => stem,
        None => exe,
    }
}

fn number_text(alloc: Global, signal: i32) -> Result<String, AllocError>
    ensures said { IfOk result (λ text. string_bytes text ≡ signed_decimal signal) }
    ensures numeral { IfOk result (λ text. string_bytes text ≡ spec.signed_numeral signal) }
{
    format!(in alloc; "{signal}")
}

fn terminated_text(alloc: Global, exe: &str, signal: i32) -> Result<String, AllocError>
    ensures { IfOk result (λ text. string_bytes text ≡ spec.terminated_text exe.now signal) }
{
    let name = program_name(exe);
    let number = number_text(alloc, signal)?;
    format!(in alloc; "{name} terminated (signal: {number})")
}

/// The output of a finished run of the program `exe`. If a signal ended it, the status is that signal, and
/// standard error begins `STEM terminated (signal: N)`, with no newline before what was there, and with the
/// whole path if it has no stem. Else the status is the code's, or success if there is no code.
pub fn compile_result_to_output(
    alloc: Global,
    exe: &str,
    finished: CompileFinished,
) -> Result<Output, AllocError>
    ensures { IfOk result (λ output. output ≡ spec.output_of_finished exe.now finished) }
{
    let CompileFinished {
        retcode,
        signal,
        stdout,
        stderr,
    } = finished;
    match signal {
        None => Ok(Output {
            status: ExitStatus::from_code(retcode.unwrap_or(0)),
            stdout,
            stderr,
        }),
        Some(signal) => {
            let text = terminated_text(alloc, exe, signal)?;
            Ok(Output {
                status: ExitStatus::from_signal(signal),
                stdout,
                stderr: joined(Bytes::from_vec(text.into_bytes()), stderr)?,
            })
        }
    }
}
