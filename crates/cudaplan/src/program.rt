//! The program's calls.

ghost use Rattle.std.specs.Prelude.{◌≡◌, map, string_bytes, option_map};
ghost use Rattle.cudaplan.specs.Calls as spec;

use programs::{
    LineCall, PlanCall, Sources, Stop, complain, line_call, plan_call, write_line,
    write_plan_of_files,
};
use std::alloc::Global;
use std::io::Write;

const USAGE: &str = "usage: cudaplan line TOOL CWD WORD.. | plan CWD TMP FLAG DRY1 DRY2 SUFFIX..\n";

// A call of the program.
#[derive(Drop)]
enum Call<'a> {
    // Reads a tool's line and writes it back.
    Line(LineCall<'a>),
    // Plans two dry runs.
    Plan(PlanCall<'a>),
}

// Parses the words after the program's name: `line TOOL CWD WORD..` or `plan CWD TMP FLAG DRY1 DRY2 SUFFIX..`.
fn call_of<'a>(words: &'a [String]) -> Option<Call<'a>>
    ensures { option_map spec.seen result ≡ spec.call_of (map string_bytes words.now) }
{
    let [verb, rest @ ..] = words else {
        return None;
    };
    match verb.as_str() {
        "line" => line_call(rest).map(Call::Line),
        "plan" => plan_call(rest).map(Call::Plan),
        _ => None,
    }
}

// Runs the engine that a call asks for.
fn serve<S: Sources, W: Write>(
    alloc: Global,
    sources: &S,
    call: &Call<'_>,
    out: &mut W,
) -> Result<(), Stop>
    ensures { spec.Serves (S.holds sources.now) (spec.seen call.now) result (W.contents out.old) (W.contents out.new) }
{
    match call {
        Call::Line(line) => write_line(alloc, line.tool, line.cwd, line.words, out),
        Call::Plan(plan) => write_plan_of_files(alloc, sources, plan, out),
    }
}

/// Writes the line that says why the program stops to `err`, and gives the exit status, 1.
pub fn stopped<E: Write>(stop: Stop, err: &mut E) -> u8
    ensures { result ≡ 1 }
{
    let _ = complain("cudaplan", &stop, err);
    1
}

/// Runs a call of the program, given the words after its name. The files come from `sources`. The output goes to `out`, and the line that says why the
/// program stopped to `err`. Gives the exit status: 0 on success, 1 on a fault or if a write failed, 2 for wrong usage.
pub fn run_program<S: Sources, W: Write, E: Write>(
    alloc: Global,
    sources: &S,
    words: &[String],
    out: &mut W,
    err: &mut E,
) -> u8
    ensures { spec.Ends (S.holds sources.now) result (spec.call_of (map string_bytes words.now)) (W.contents out.old) (W.contents out.new) }
{
    let Some(call) = call_of(words) else {
        let _ = err.write_all(USAGE.as_bytes());
        return 2;
    };
    match serve(alloc, sources, &call, out) {
        Ok(()) => 0,
        Err(stop) => stopped(stop, err),
    }
}
