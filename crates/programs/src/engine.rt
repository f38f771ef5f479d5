//! The engines that programs run: they read a line or plan two dry runs, and write the text.

ghost use Rattle.std.specs.Prelude.{ℕ, List, Result, map, string_bytes};
ghost use Rattle.programs.specs.Operands.{plan_of};
ghost use Rattle.programs.specs.declared.stop.Stop.{Stop};
ghost use Rattle.programs.specs.Delivery.{Answers, Delivers, text_of};
ghost use Rattle.programs.specs.PlanText as spec;

use crate::PlanCall;
use crate::sources::Sources;
use crate::stop::Stop;
use canonical_names::all_suffixes;
use command_groups::group_nvcc_subcommands_by_compilation_stage;
use compilers::compiler::NvccHostCompiler;
use dry_runs::FirstDir;
use plan_texts::{Tool, show_line, show_plan};
use std::alloc::Global;
use std::io::Write;

/// Writes a text in one piece, or nothing if there is none.
///
/// Fails with the reason why there is no text, and if `w` fails (`Stop::Write`).
pub fn deliver<W: Write>(answer: Result<String, Stop>, w: &mut W) -> Result<(), Stop>
    ensures { (expected : Result (List ℕ) Stop) → Answers (text_of answer) expected → Delivers result expected (W.contents w.old) (W.contents w.new) }
{
    let text = answer?;
    match w.write_all(text.as_bytes()) {
        Ok(()) => Ok(()),
        Err(_) => Err(Stop::Write),
    }
}

/// Reads the words of a tool's line at the working directory `cwd`, writes them back, and writes the written words to `w`
/// in one piece, each followed by a newline.
///
/// Fails if the line compiles nothing (`Stop::NotCompilation`) or names no output (`Fault::MissingOutput`), with nothing
/// written, and if `w` fails (`Stop::Write`).
pub fn write_line<W: Write>(
    alloc: Global,
    tool: Tool,
    cwd: &str,
    words: &[String],
    w: &mut W,
) -> Result<(), Stop>
    ensures { Delivers result (spec.shown_line tool cwd.now (map string_bytes words.now)) (W.contents w.old) (W.contents w.new) }
{
    match show_line(alloc, tool, cwd, words)? {
        Some(text) => deliver(Ok(text.into_string()), w),
        None => Err(Stop::NotCompilation),
    }
}

/// Plans the dry runs of one `nvcc` call, `dry1` of `--dryrun --keep` and `dry2` of `--keep-dir TMP --dryrun --keep`, and
/// writes the text of the plan to `w` in one piece. `cwd` is the working directory, `tmp` the temporary directory, `flag` the
/// compilation flag, as `-c`. It takes every program to be in the first folder of `PATH`, gcc to compile host code, and the
/// call's environment to be empty. The further `suffixes` of generated files follow the standard ones.
///
/// Fails, in this order and with nothing written, if the suffixes break the rule (`Fault::BadSuffixes`), at the first bad
/// line of the first run, and at that of the second. Fails if `w` fails (`Stop::Write`).
pub fn write_plan<W: Write>(
    alloc: Global,
    cwd: &str,
    tmp: &str,
    flag: &str,
    dry1: &[u8],
    dry2: &[u8],
    suffixes: &[String],
    w: &mut W,
) -> Result<(), Stop>
    ensures { Delivers result (spec.shown_plan cwd.now tmp.now flag.now dry1.now dry2.now (map string_bytes suffixes.now))
        (W.contents w.old) (W.contents w.new) }
{
    let suffixes = all_suffixes(alloc, suffixes)?;
    let plan = group_nvcc_subcommands_by_compilation_stage(
        alloc,
        dry1,
        dry2,
        flag,
        cwd,
        tmp,
        None,
        &[],
        NvccHostCompiler::Gcc,
        &FirstDir,
        &suffixes,
    )?;
    deliver(Ok(show_plan(alloc, &plan)?), w)
}

/// Reads the two files of a call from `sources`, plans their dry runs as [`write_plan`] does, and writes the plan's text
/// to `w`.
///
/// Fails as [`write_plan`] does, and before that if a file can't be read (`Fault::Read`).
pub fn write_plan_of_files<S: Sources, W: Write>(
    alloc: Global,
    sources: &S,
    call: &PlanCall<'_>,
    w: &mut W,
) -> Result<(), Stop>
    ensures { spec.PlansFiles (S.holds sources.now) (plan_of call.now) result (W.contents w.old) (W.contents w.new) }
{
    let dry1 = sources.read_file(call.dry1)?;
    let dry2 = sources.read_file(call.dry2)?;
    write_plan(
        alloc,
        call.cwd,
        call.tmp,
        call.flag,
        dry1.as_slice(),
        dry2.as_slice(),
        call.suffixes,
        w,
    )
}
