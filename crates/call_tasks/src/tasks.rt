//! The tasks of a plan.

ghost use Rattle.std.specs.Prelude.{◌≡◌, IfOk, option_copied};
ghost use Rattle.compilers.specs.Listed as lists;
ghost use Rattle.call_tasks.specs.Halves as halves;
ghost use Rattle.call_tasks.specs.Tasks as spec;

use crate::halves::{last_split, task_of, with_split};
use crate::heads::{plain_step, with_heads};
use crate::task::{Asks, Task};
use command_files::{CommandFiles, step_of};
use compilers::plans::{ListedCommand, NvccGeneratedSubcommand, Plan};
use early_starts::Split;
use placed_commands::placed_command;
use std::alloc::{AllocError, Global};
use texts::text::join;
use texts::words::{Words, word_after};

// A command as it runs.
fn placed(
    alloc: Global,
    asks: &Asks,
    command: &NvccGeneratedSubcommand,
) -> Result<NvccGeneratedSubcommand, AllocError>
    ensures { IfOk result (λ placed. placed ≡ spec.placed asks.now command.now) }
{
    if asks.in_place {
        placed_command(alloc, command, asks.tmp.as_str(), asks.cwd.as_str())
    } else {
        command.try_clone(alloc)
    }
}

fn planned_task(
    alloc: Global,
    asks: &Asks,
    count: usize,
    listed: &ListedCommand<'_>,
) -> Result<Task, AllocError>
    ensures { IfOk result (λ task. task ≡ spec.planned_task asks.now count listed.now) }
{
    let step = step_of(alloc, count, listed.group, listed.command)?;
    Ok(task_of(placed(alloc, asks, listed.command)?, step))
}

// The commands of a plan, each with its record and role.
fn planned(alloc: Global, asks: &Asks, plan: &Plan) -> Result<Vec<Task>, AllocError>
    ensures { IfOk result (λ tasks. tasks.items ≡ spec.planned asks.now plan.now) }
{
    let count = plan.groups.as_slice().len();
    let commands = plan.groups.listed(alloc)?;
    let mut tasks = Vec::with_capacity(alloc, commands.len())?;
    for listed in &commands {
        tasks.push(planned_task(alloc, asks, count, listed)?)?;
    }
    Ok(tasks)
}

fn halved_by(
    alloc: Global,
    asks: &Asks,
    split: &Option<Split>,
    tasks: Vec<Task>,
) -> Result<Vec<Task>, AllocError>
    ensures { IfOk result (λ made. made.items ≡ halves.halved_by asks.now tasks.items split.now) }
{
    match split {
        None => Ok(tasks),
        Some(split) => with_split(alloc, asks, split, tasks),
    }
}

fn rule_files(alloc: Global, command: &NvccGeneratedSubcommand) -> Result<CommandFiles, AllocError>
    ensures { IfOk result (λ files. files ≡ spec.rule_files command.now) }
{
    let mut writes = Words::new(alloc);
    if let Some(word) = word_after(command.args.as_slice(), "-MF") {
        writes.push(join(alloc, command.cwd.as_str(), word)?)?;
    }
    Ok(CommandFiles {
        reads: Words::new(alloc),
        writes,
        may_write: Words::new(alloc),
        complete: false,
    })
}

fn rule_task(alloc: Global, command: &NvccGeneratedSubcommand) -> Result<Task, AllocError>
    ensures { IfOk result (λ task. task ≡ spec.rule_task command.now) }
{
    let files = rule_files(alloc, command)?;
    Ok(Task {
        command: command.try_clone(alloc)?,
        step: plain_step(files),
        is_rule: true,
        head: None,
    })
}

// Tasks with what makes the dependency file, before the last.
fn with_rule(
    alloc: Global,
    rule: &Option<NvccGeneratedSubcommand>,
    tasks: Vec<Task>,
) -> Result<Vec<Task>, AllocError>
    ensures { IfOk result (λ made. made.items ≡ spec.with_rule rule.now tasks.items) }
{
    let Some(command) = rule else {
        return Ok(tasks);
    };
    let task = rule_task(alloc, command)?;
    let mut made = tasks;
    let place = made.len().saturating_sub(1);
    made.insert(place, task)?;
    Ok(made)
}

fn headed(alloc: Global, asks: &Asks, tasks: Vec<Task>) -> Result<Vec<Task>, AllocError>
    ensures { IfOk result (λ made. made.items ≡ spec.with_heads asks.now tasks.items) }
{
    if asks.heads {
        with_heads(alloc, asks.own.as_str(), tasks)
    } else {
        Ok(tasks)
    }
}

/// What is started of a plan.
#[derive(Drop)]
pub struct Tasks {
    /// The tasks: in the plan's order, but for the halves of its last host compile in place of that, and for what makes the dependency
    /// file before the last.
    pub tasks: Vec<Task>,
    /// The halves, if it runs in two.
    pub split: Option<Split>,
}

/// What is started of a plan, as the caller asks.
///
/// A command of the plan has its words, or those of [`placed_command`]. The last host compile runs in two halves if it is asked for, the
/// plan is of nvcc 13, and [`split_compile`](early_starts::split_compile) knows its words. cicc has a head if it reads a module id that
/// cudafe++ makes. So has the compiler's half, if a cicc makes its stub file: then that cicc writes it elsewhere.
pub fn tasks_of(alloc: Global, asks: &Asks, plan: &Plan) -> Result<Tasks, AllocError>
    ensures tasks { IfOk result (λ made. made.tasks.items ≡ spec.tasks_of asks.now plan.now) }
    ensures split { IfOk result (λ made. made.split ≡ spec.split_of_plan asks.now plan.now) }
{
    let tasks = planned(alloc, asks, plan)?;
    let split = last_split(alloc, asks, tasks.as_slice())?;
    let tasks = halved_by(alloc, asks, &split, tasks)?;
    let tasks = headed(alloc, asks, with_rule(alloc, &asks.rule, tasks)?)?;
    Ok(Tasks { tasks, split })
}
