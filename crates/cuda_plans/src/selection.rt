//! The commands of one dry run that a caller selects.

ghost use Rattle.std.specs.Prelude.{◌≡◌, List, ℕ, Bool, map, IfOk, OnErr};
ghost use Rattle.texts.specs.Fault.{UnlessMemory};
ghost use Rattle.texts.specs.Variables.{pair_of};
ghost use Rattle.dry_runs.specs.DryRun.{dry_run_of};
ghost use Rattle.command_groups.specs.Merge.{is_taken, selected};
ghost use Rattle.cuda_plans.specs.Selection as spec;

use canonical_names::{Suffixes, remap_commands};
use command_groups::with_variables;
use compilers::dry_run::Commands;
use dry_runs::{Which, read_dry_run};
use std::alloc::{AllocError, Global};
use texts::fault::Fault;
use texts::text::file_stem;

// Whether a program has a stem that is selected.
fn takes<F: Fn(&str) -> bool>(select: &F, program: &str) -> bool
    requires { F.IsAlwaysCallable select.now }
    ensures { (test : List ℕ → Bool) → spec.AnswersAs (F.post select.now) test → result ≡ is_taken test program.now }
{
    match file_stem(program) {
        None => false,
        Some(stem) => select(stem),
    }
}

// The commands whose program has a stem that is selected, in order.
fn taken<F: Fn(&str) -> bool>(
    alloc: Global,
    select: &F,
    commands: Commands,
) -> Result<Commands, AllocError>
    requires { F.IsAlwaysCallable select.now }
    ensures { (test : List ℕ → Bool) → spec.AnswersAs (F.post select.now) test → IfOk result (λ taken. taken ≡ selected test commands) }
{
    let mut taken = Vec::new(alloc);
    for line in commands.into_vec() {
        if takes(select, line.1.as_str()) {
            taken.push(line)?;
        }
    }
    Ok(Commands::from_vec(taken))
}

// The commands of a run whose program has a stem that is selected, in order, with canonical names where asked.
fn chosen<F: Fn(&str) -> bool>(
    alloc: Global,
    suffixes: &Suffixes,
    remap: bool,
    select: &F,
    commands: Commands,
) -> Result<Commands, AllocError>
    requires { F.IsAlwaysCallable select.now }
    ensures { (test : List ℕ → Bool) → spec.AnswersAs (F.post select.now) test → IfOk result (λ c. c ≡ selected test (spec.named_if suffixes.now remap commands)) }
{
    let commands = if remap {
        remap_commands(alloc, commands, suffixes)?
    } else {
        commands
    };
    taken(alloc, select, commands)
}

/// The commands of one dry run whose program has a stem that `select` accepts, in order: of each the number of its line,
/// its program's path and its words.
///
/// `run`, `cwd` and `which` are for `read_dry_run`, which reads the run. A program's stem is its file name without the
/// last extension. A program without a stem isn't selected. `select` must accept any text as its argument.
///
/// If `remap`, generated files, recognized by `suffixes`, get canonical names. They are numbered over all commands of
/// the run, not just the selected ones, so a name has the same number whatever is selected.
///
/// Folds the run's environment lines into `env_vars`: a known name gets its value at its first place, and a new one
/// comes last. All environment lines count, also those after the last selected command.
///
/// Refuses a run that can't be read, with the fault of `read_dry_run`. On an error `env_vars` is unchanged.
///
/// The rules are those of sccache 0.19.0's selection.
pub fn select_nvcc_subcommands<F: Fn(&str) -> bool + Drop, W: Which>(
    alloc: Global,
    dry_run: &[u8],
    run: usize,
    cwd: &str,
    env_vars: &mut Vec<(String, String)>,
    remap: bool,
    select: F,
    which: &W,
    suffixes: &Suffixes,
) -> Result<Commands, Fault>
    requires { F.IsAlwaysCallable select }
    ensures commands { (test : List ℕ → Bool) → spec.AnswersAs (F.post select) test
        → UnlessMemory result (spec.selection_of suffixes.now remap test (dry_run_of run dry_run.now cwd.now (W.answer which.now))) }
    ensures environment { UnlessMemory (spec.environment_after_call result (map pair_of env_vars.new.items)) (spec.environment_behind (map pair_of env_vars.old.items) (dry_run_of run dry_run.now cwd.now (W.answer which.now))) }
    ensures unchanged { OnErr result (env_vars.new ≡ env_vars.old) }
{
    let said = read_dry_run(alloc, dry_run, run, cwd, which)?;
    let commands = chosen(alloc, suffixes, remap, &select, said.commands)?;
    let folded = with_variables(alloc, env_vars.as_slice(), said.env)?;
    *env_vars = folded.into_vec()?;
    Ok(commands)
}
