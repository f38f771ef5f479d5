//! Running the commands of an nvcc call, group by group.

ghost use Rattle.std.specs.Prelude.{◌≡◌, option_copied, ◌++◌, ◌∷◌, [], ◌-◌, map, IfOk, MatchResult, true, false, nat_lt, not, ◌&&◌, fold};
ghost use Rattle.cuda_plans.specs.NvccPlan.{planned};
ghost use Rattle.cuda_plans.specs.Outcome.{aggregated, empty_success, output_of_answer as output_of};
ghost use Rattle.cuda_plans.specs.Schedule as spec;
ghost use Rattle.cuda_plans.specs.Schedule.{Gains, ExecutesAs, OfGroup, step_at};
ghost use Rattle.texts.specs.Fault.{UnlessMemory};

use crate::outcome::{aggregate_output, compile_result_to_output, error_to_output};
use crate::runner::{Answer, Place, Runner};
use canonical_names::Suffixes;
use command_groups::group_nvcc_subcommands_by_compilation_stage;
use compilers::plans::{Groups, NvccGeneratedSubcommand, Plan};
use dry_runs::Which;
use host_lines::nvcc::NvccCompileCommand;
use std::alloc::{AllocError, Global};
use texts::bytes::Bytes;
use texts::fault::Fault;
use texts::status::{ExitStatus, Output};
use texts::text::Text;

fn path_of(folder: &Option<Text>) -> Option<&str>
    ensures { option_copied result ≡ folder.now }
{
    match folder {
        None => None,
        Some(path) => Some(path.as_str()),
    }
}

fn plan_of<W: Which>(
    alloc: Global,
    call: &NvccCompileCommand,
    dry1: &[u8],
    dry2: &[u8],
    which: &W,
    suffixes: &Suffixes,
) -> Result<Plan, Fault>
    ensures { UnlessMemory result (planned call.now suffixes.now (W.answer which.now) dry1.now dry2.now) }
{
    group_nvcc_subcommands_by_compilation_stage(
        alloc,
        dry1,
        dry2,
        call.compilation_flag.as_str(),
        call.cwd.as_str(),
        call.temp_dir.as_str(),
        path_of(&call.keep_dir),
        call.env_vars.as_slice(),
        call.host_compiler,
        which,
        suffixes,
    )
}

/// Runs the commands of the call, and returns the joined output.
///
/// `dry1` and `dry2` are what the two commands of `dryrun_commands` print on standard error.
/// `group_nvcc_subcommands_by_compilation_stage` plans them, with `which` and `suffixes`, before anything
/// runs. The plan's groups run in chunks: the front group, the device groups by `num_parallel` at a time,
/// at least one and at most all of them, and the final group. `runner` receives each command once, with its
/// place, one after the other.
///
/// A command fails if its answer's output isn't a success. Then its group stops and no later chunk runs, but
/// the other groups of its chunk do. The outputs' texts are joined in the order of the places, and the first
/// failure's status is kept.
///
/// The runner's account says what ran: what it gains is
/// - with an output, every command of the plan, none of which failed;
/// - with `Process`, which has the joined output, all that the failures let run;
/// - with another refusal of the planning, nothing;
/// - with `Memory`, a beginning of what is due. What ran before it stays run.
///
/// As in sccache 0.19.0, except that sccache makes the dry runs itself, that it runs the groups of a chunk at
/// the same time, and that it moves the intermediate files to the keep directory.
pub fn execute<W: Which, R: Runner>(
    alloc: Global,
    call: &NvccCompileCommand,
    dry1: &[u8],
    dry2: &[u8],
    which: &W,
    runner: &mut R,
    suffixes: &Suffixes,
) -> Result<Output, Fault>
    ensures { Gains (R.log runner.old) (R.log runner.new) (λ account. ExecutesAs (planned call.now suffixes.now (W.answer which.now) dry1.now dry2.now) call.now.num_parallel account result) }
{
    let plan = plan_of(alloc, call, dry1, dry2, which, suffixes)?;
    run_plan(alloc, runner, plan.groups, call.num_parallel)
}

fn output_of_answer(alloc: Global, exe: &str, answer: Answer) -> Result<Output, AllocError>
    ensures { IfOk result (λ output. output ≡ output_of exe.now answer) }
{
    match answer {
        Answer::Ran(output) => Ok(output),
        Answer::Finished(finished) => compile_result_to_output(alloc, exe, finished),
        Answer::Failed(fault) => error_to_output(alloc, fault),
    }
}

// Has a command run, and says what its answer's output is.
fn run_command<R: Runner>(
    alloc: Global,
    runner: &mut R,
    place: Place,
    command: NvccGeneratedSubcommand,
) -> Result<Output, AllocError>
    ensures { MatchResult result
        (λ output. (e : spec.AccountEntry) × (R.log runner.new ≡ R.log runner.old ++ e ∷ []) × (spec.step_of e ≡ step_at place.group place.index command) × (output ≡ spec.output_of_entry e))
        (λ _. spec.Gains (R.log runner.old) (R.log runner.new) (λ account. OfGroup false place.group place.index account (command ∷ []))) }
{
    let exe = command.exe.try_clone(alloc)?;
    let answer = runner.run(alloc, place, command)?;
    output_of_answer(alloc, exe.as_str(), answer)
}

// Has the commands of a group run, up to the first that fails, and joins their outputs to `output`.
fn run_group<R: Runner>(
    alloc: Global,
    runner: &mut R,
    group: usize,
    commands: Vec<NvccGeneratedSubcommand>,
    output: Output,
) -> Result<Output, AllocError>
    ensures { MatchResult result
        (λ joined. spec.Gains (R.log runner.old) (R.log runner.new) (λ account. OfGroup true group 0 account commands.items × (joined ≡ fold aggregated output (map spec.output_of_entry account))))
        (λ _. spec.Gains (R.log runner.old) (R.log runner.new) (λ account. OfGroup false group 0 account commands.items)) }
{
    let mut joined = output;
    let mut index = 0;
    for command in commands {
        let left = run_command(alloc, runner, Place { group, index }, command)?;
        let success = left.status.success();
        joined = aggregate_output(joined, left)?;
        if !success {
            return Ok(joined);
        }
        index += 1;
    }
    Ok(joined)
}

// The number of the chunk that a group is in, if there are so many device groups.
fn chunk_of(device_groups: usize, num_parallel: usize, group: usize) -> usize
    ensures { result ≡ spec.chunk_of device_groups num_parallel group }
{
    let size = device_groups.min(num_parallel).max(1);
    if group == 0 {
        0
    } else if group <= device_groups {
        1 + (group - 1) / size
    } else {
        device_groups + 1
    }
}

// Whether the next group is held back: it begins a chunk, and not all before it succeeded.
fn is_held_back(chunk: usize, next: usize, success: bool) -> bool
    ensures { result ≡ (nat_lt chunk next && not success) }
{
    chunk < next && !success
}

// Runs the groups of a plan, and joins their outputs. After a failure no later chunk runs.
fn run_groups<R: Runner>(
    alloc: Global,
    runner: &mut R,
    groups: Groups,
    num_parallel: usize,
) -> Result<Output, AllocError>
    ensures { MatchResult result
        (λ joined. spec.Gains (R.log runner.old) (R.log runner.new) (λ account. spec.IsWhole groups num_parallel account × (joined ≡ spec.output_of_account account)))
        (λ _. spec.Gains (R.log runner.old) (R.log runner.new) (λ account. spec.Follows groups num_parallel account)) }
{
    let lists = groups.into_vec();
    let device_groups = lists.len().saturating_sub(2);
    let mut joined = empty_output(alloc);
    let mut chunk = 0;
    let mut group = 0;
    for commands in lists {
        let next = chunk_of(device_groups, num_parallel, group);
        let success = joined.status.success();
        if is_held_back(chunk, next, success) {
            return Ok(joined);
        }
        joined = run_group(alloc, runner, group, commands, joined)?;
        chunk = next;
        group += 1;
    }
    Ok(joined)
}

fn empty_output(alloc: Global) -> Output
    ensures { result ≡ empty_success }
{
    Output {
        status: ExitStatus::from_code(0),
        stdout: Bytes::new(alloc),
        stderr: Bytes::new(alloc),
    }
}

/// Runs the groups of a plan. A failure carries the joined output.
pub fn run_plan<R: Runner>(
    alloc: Global,
    runner: &mut R,
    groups: Groups,
    num_parallel: usize,
) -> Result<Output, Fault>
    ensures { spec.Gains (R.log runner.old) (R.log runner.new) (λ account. spec.RunsAs groups num_parallel account result) }
{
    let output = run_groups(alloc, runner, groups, num_parallel)?;
    if output.status.success() {
        Ok(output)
    } else {
        Err(Fault::Process(output))
    }
}
