//! The plan of two dry runs.

ghost use Rattle.std.specs.Prelude.{◌≡◌, map, IfOk, Result, option_copied};
ghost use Rattle.texts.specs.Fault.{UnlessMemory};
ghost use Rattle.texts.specs.Variables.{pair_of};
ghost use Rattle.dry_runs.specs.declared.limit.LimitedFault.{LimitedFault};
ghost use Rattle.compilers.specs.CommandLines.{line_of};
ghost use Rattle.dry_runs.specs.Limit.{UnlessMemoryWithin, dry_run_within};
ghost use Rattle.dry_runs.specs.Parsed.{AreParsed, IsParsed, resolved};
ghost use Rattle.dry_runs.specs.Reading.{dry_run_seen, dry_run_seen_within};
ghost use Rattle.compilers.specs.declared.plans.origins.PlanWithOrigins.{PlanWithOrigins};
ghost use Rattle.command_groups.specs.MergeLaws.{Rises};
ghost use Rattle.command_groups.specs.Origins as origins;
ghost use Rattle.command_groups.specs.PlanOfBytes as spec;
ghost use Rattle.command_groups.specs.PlanWithin as within;
ghost use Rattle.command_groups.specs.Views.{call_seen};

use crate::environment::Environments;
use crate::groups::plan_of_commands;
use crate::merged_commands::merge;
use crate::setting::{CallToPlan, Setting};
use canonical_names::{Suffixes, remap_commands};
use compilers::compiler::NvccHostCompiler;
use compilers::dry_run::{Commands, DryRun};
use compilers::plans::{Plan, PlanWithOrigins};
use dry_runs::{LimitedFault, ParsedRun, ParsedRuns, Which, parse_dry_runs, read_dry_run_within};
use std::alloc::{AllocError, Global};
use texts::fault::Fault;

// Reads a dry run within a limit. Its commands have rising lines.
fn read_run<W: Which>(
    alloc: Global,
    dry_run: &[u8],
    run: usize,
    cwd: &str,
    which: &W,
    limit: usize,
) -> Result<DryRun, LimitedFault>
    ensures said { UnlessMemoryWithin (dry_run_seen_within result) (dry_run_within limit run dry_run.now cwd.now (W.answer which.now)) }
    ensures rises { IfOk result (λ said. Rises (map line_of said.commands)) }
{
    read_dry_run_within(alloc, dry_run, run, cwd, which, limit)
}

// Looks up the programs of a parsed run. Its commands have rising lines.
fn resolve<W: Which>(alloc: Global, run: ParsedRun, cwd: &str, which: &W) -> Result<DryRun, Fault>
    requires { IsParsed run }
    ensures said { UnlessMemory (dry_run_seen result) (resolved (W.answer which.now) cwd.now run) }
    ensures rises { IfOk result (λ said. Rises (map line_of said.commands)) }
{
    run.resolved(alloc, cwd, which)
}

// The commands of a run as they are planned: with canonical names, unless files are kept in a folder.
fn named(
    alloc: Global,
    suffixes: &Suffixes,
    keep_dir: Option<&str>,
    commands: Commands,
) -> Result<Commands, AllocError>
    ensures { IfOk result (λ c. c ≡ spec.named suffixes.now (option_copied keep_dir.entry) commands) }
{
    match keep_dir {
        None => remap_commands(alloc, commands, suffixes),
        Some(_) => Ok(commands),
    }
}

fn plan_of_dry_runs(
    alloc: Global,
    call: &CallToPlan<'_>,
    first: DryRun,
    second: DryRun,
) -> Result<PlanWithOrigins, AllocError>
    requires first_rises { Rises (map line_of first.commands) }
    requires second_rises { Rises (map line_of second.commands) }
    ensures { IfOk result (λ planned. planned ≡ origins.plan_with_origins (call_seen call.now) first.env (spec.named call.now.suffixes.now (option_copied call.now.keep_dir) first.commands) (spec.named call.now.suffixes.now (option_copied call.now.keep_dir) second.commands)) }
{
    let setting = Setting {
        call,
        environments: Environments::folded(alloc, call.env_vars, first.env)?,
    };
    let first = named(alloc, call.suffixes, call.keep_dir, first.commands)?;
    let second = named(alloc, call.suffixes, call.keep_dir, second.commands)?;
    plan_of_commands(alloc, &setting, merge(alloc, first, second)?)
}

/// Plans one nvcc call as [`plan_with_origins`](crate::plan_with_origins) does, if each of its dry runs can be read
/// within `limit` bytes.
///
/// What counts is said at `read_dry_run_within`: what the lines of a run hold, and the texts that they are expanded to on
/// the way. Each run has the whole limit. The commands of the plan take the memory of those that were read, and share the
/// environment.
///
/// Fails with `LimitedFault::TooLong`, which names the run and the line, if a line exceeds the limit before any line is
/// bad, else as `plan_with_origins` does (`LimitedFault::Fault`). An error in the first run takes precedence.
pub fn plan_with_origins_within<W: Which>(
    alloc: Global,
    dry1: &[u8],
    dry2: &[u8],
    call: &CallToPlan<'_>,
    which: &W,
    limit: usize,
) -> Result<PlanWithOrigins, LimitedFault>
    ensures { UnlessMemoryWithin result (within.planning_with_origins_within limit call.now.suffixes.now (option_copied call.now.keep_dir)
        (call_seen call.now) (W.answer which.now) dry1.now dry2.now) }
{
    let first = read_run(alloc, dry1, 1, call.cwd, which, limit)?;
    let second = read_run(alloc, dry2, 2, call.cwd, which, limit)?;
    let planned = plan_of_dry_runs(alloc, call, first, second)?;
    Ok(planned)
}

fn plan_alone<E>(planned: Result<PlanWithOrigins, E>) -> Result<Plan, E>
    ensures { result ≡ origins.plan_alone planned }
{
    match planned {
        Ok(PlanWithOrigins { plan, .. }) => Ok(plan),
        Err(fault) => Err(fault),
    }
}

/// Plans one nvcc call as
/// [`group_nvcc_subcommands_by_compilation_stage`](crate::group_nvcc_subcommands_by_compilation_stage) does, if each of its
/// dry runs can be read within `limit` bytes.
///
/// The limit counts as for [`plan_with_origins_within`], and the errors are the same.
pub fn group_nvcc_subcommands_by_compilation_stage_within<W: Which>(
    alloc: Global,
    dry1: &[u8],
    dry2: &[u8],
    call: &CallToPlan<'_>,
    which: &W,
    limit: usize,
) -> Result<Plan, LimitedFault>
    ensures { UnlessMemoryWithin result (within.planning_within limit call.now.suffixes.now (option_copied call.now.keep_dir)
        (call_seen call.now) (W.answer which.now) dry1.now dry2.now) }
{
    plan_alone(plan_with_origins_within(alloc, dry1, dry2, call, which, limit))
}

/// Plans one nvcc call from its two dry runs, which are parsed, as [`plan_with_origins`](crate::plan_with_origins) does from
/// what nvcc printed.
///
/// Fails as that call does.
pub fn plan_of_parsed<W: Which>(
    alloc: Global,
    runs: ParsedRuns,
    call: &CallToPlan<'_>,
    which: &W,
) -> Result<PlanWithOrigins, Fault>
    requires { AreParsed runs }
    ensures { UnlessMemory result (origins.planning_of_parsed call.now.suffixes.now (option_copied call.now.keep_dir)
        (call_seen call.now) (W.answer which.now) runs) }
{
    let ParsedRuns { first, second } = runs;
    let first = resolve(alloc, first, call.cwd, which)?;
    let second = resolve(alloc, second, call.cwd, which)?;
    let planned = plan_of_dry_runs(alloc, call, first, second)?;
    Ok(planned)
}

/// Plans one nvcc call from two dry runs of it, as
/// [`group_nvcc_subcommands_by_compilation_stage`](crate::group_nvcc_subcommands_by_compilation_stage) does, and says which
/// line of which run each command of its groups comes from.
///
/// Fails as that call does.
pub fn plan_with_origins<W: Which>(
    alloc: Global,
    dry1: &[u8],
    dry2: &[u8],
    call: &CallToPlan<'_>,
    which: &W,
) -> Result<PlanWithOrigins, Fault>
    ensures { UnlessMemory result (origins.planning_with_origins call.now.suffixes.now (option_copied call.now.keep_dir)
        (call_seen call.now) (W.answer which.now) dry1.now dry2.now) }
{
    let runs = parse_dry_runs(alloc, dry1, dry2)?;
    plan_of_parsed(alloc, runs, call, which)
}

/// Plans one nvcc call from two dry runs of it: its commands in groups, and those that are in no group, each with the
/// reason.
///
/// - `dry1` and `dry2` are what nvcc prints on standard error with `--dryrun --keep`, and `dry2` with `--keep-dir` and
///   `tmp` too. nvcc's own tools (cicc, ptxas, cudafe++, nvlink and fatbinary, by their stems) are those of `dry1`,
///   and run in `tmp`; all other programs are those of `dry2`, and run in `cwd`. A program without a stem is left out.
///   The commands are planned in order of their lines, and on equal lines the first run's comes first.
/// - `compilation_flag` is the option that says what nvcc makes, as `-c`.
/// - `keep_dir` is the folder in which the call keeps generated files. If there is none, the generated files of each run,
///   recognized by `suffixes`, get canonical names; else all names stay.
/// - `env_vars` is the call's environment. All commands run in it with the first run's environment lines folded in: a
///   known name gets its value at its first place, and a new one comes last.
/// - `which` looks up the programs of both runs from `cwd`.
///
/// Each command has a group, or a reason why it has none:
///
/// - cudafe++ goes to the front group. If its words lack `--gen_module_id_file`, it is added before the first
///   `--module_id_file_name`.
/// - A program that isn't nvcc's own and has no word that begins with `-D__CUDACC__`, `-D__NVCC__`, `-D__CUDA_ARCH__`
///   or `-D__CUDA_ARCH_LIST__` is `NotCuda`. With such a word and `-E`, or `-P` if `host_compiler` is `Msvc`, it is a
///   preprocess step: if the word after its first `-o` has a file name that ends in `.cpp1.ii`, the step opens a device
///   group of that name and goes to it, else it goes to the front group. Any other one compiles host code: it goes to
///   the final group, and has the variable `__SCCACHE_THIS_IS_A_CUDA_COMPILATION__`, empty, last in its environment:
///   sccache's server then counts the compilation as CUDA.
/// - cicc goes to the device group that its first `.cpp1.ii` word names, or is `NoCiccGroup`. If `compilation_flag`
///   asks for an object, it loses its first `--gen_module_id_file`.
/// - ptxas goes to the first device group with a cicc whose last word is ptxas's first `.ptx` word, or is
///   `NoPtxasGroup`. If ciccs of two groups write one file, every ptxas of that file goes to the first of these groups.
/// - nvlink and fatbinary go to the final group.
///
/// A step that opens a group again empties it, and the group keeps its place: its former commands are `Superseded`.
/// Device groups are in order of first appearance of their names.
///
/// Refuses a run that can't be read with the fault of its first bad line, as `read_dry_run` does. An error in the first
/// run takes precedence. So the faults are `NotUtf8`, `BadShell`, `EmptyCommand`, `NoPath`, `NotFound` and `Memory`,
/// which may come in place of any other answer.
///
/// As sccache 0.19.0's grouping, with these exceptions: in sccache ptxas joins a group only by that group's last command,
/// so it loses the second of two ptxas of one file; it drops commands silently; and it fixes neither the order of device
/// groups nor which of two bad runs it reports.
pub fn group_nvcc_subcommands_by_compilation_stage<W: Which>(
    alloc: Global,
    dry1: &[u8],
    dry2: &[u8],
    compilation_flag: &str,
    cwd: &str,
    tmp: &str,
    keep_dir: Option<&str>,
    env_vars: &[(String, String)],
    host_compiler: NvccHostCompiler,
    which: &W,
    suffixes: &Suffixes,
) -> Result<Plan, Fault>
    ensures { UnlessMemory result (spec.planning_of suffixes.now (option_copied keep_dir.entry)
        (record { cwd = cwd.now; tmp = tmp.now; flag = compilation_flag.now; host_compiler = host_compiler; env_vars = map pair_of env_vars.now })
        (W.answer which.now) dry1.now dry2.now) }
{
    let call = CallToPlan {
        cwd,
        tmp,
        compilation_flag,
        keep_dir,
        env_vars,
        host_compiler,
        suffixes,
    };
    plan_alone(plan_with_origins(alloc, dry1, dry2, &call, which))
}
