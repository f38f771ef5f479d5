//! What each task needs, and what its head does.

ghost use Rattle.std.specs.Prelude.{◌≡◌, ◌++◌, IfOk};
ghost use Rattle.command_files.specs.Order.{numbers_where};
ghost use Rattle.command_files.specs.PlanNeeds.{step_needs};
ghost use Rattle.call_tasks.specs.Needs as spec;

use crate::task::{Head, Task};
use command_files::{CommandNeeds, Step, needs_role};
use early_starts::follows;
use std::alloc::{AllocError, Global};

fn needs_step(earlier: &Step, later: &Step) -> bool
    ensures { result ≡ step_needs earlier.now later.now }
{
    follows(&earlier.files, &later.files) || needs_role(later.role, earlier.role)
}

// Whether two commands preprocess, and touch no file that one of them writes.
fn goes_ahead(earlier: &Step, later: &Step) -> bool
    ensures { result ≡ spec.goes_ahead earlier.now later.now }
{
    earlier.preprocesses && later.preprocesses && !follows(&earlier.files, &later.files)
}

// Whether a part of a task needs an earlier task.
fn needs_task(frees: bool, is_rule: bool, earlier: &Task, later: &Step) -> bool
    ensures { result ≡ spec.needs_task frees is_rule earlier.now later.now }
{
    let by_rule = earlier.is_rule || (is_rule && earlier.step.preprocesses);
    (by_rule || needs_step(&earlier.step, later)) && !(frees && goes_ahead(&earlier.step, later))
}

// The numbers of the earlier tasks that a part of a task needs.
fn numbers(
    alloc: Global,
    frees: bool,
    is_rule: bool,
    earlier: &[Task],
    later: &Step,
) -> Result<Vec<usize>, AllocError>
    ensures { IfOk result (λ numbers. numbers.items ≡ numbers_where (λ e. spec.needs_task frees is_rule e later.now) 0 earlier.now) }
{
    let mut numbers = Vec::new(alloc);
    for (number, task) in earlier.iter().enumerate() {
        if needs_task(frees, is_rule, task, later) {
            numbers.push(number)?;
        }
    }
    Ok(numbers)
}

/// What each task needs before it may start, or before it may go on behind its head.
///
/// A task needs an earlier one if either writes a file that the other touches, or by their roles, as
/// [`needs`](command_files::needs) says. If preprocessors are free (`frees`), they need each other by their files alone. What makes the
/// dependency file needs all that preprocess, and what is behind it needs it.
pub fn needs_of(alloc: Global, frees: bool, tasks: &[Task]) -> Result<CommandNeeds, AllocError>
    ensures { IfOk result (λ needs. needs ≡ spec.needs_of frees tasks.now) }
{
    let mut needs = Vec::with_capacity(alloc, tasks.len())?;
    for (number, task) in tasks.iter().enumerate() {
        let earlier = &tasks[..number];
        needs.push(numbers(alloc, frees, task.is_rule, earlier, &task.step)?)?;
    }
    Ok(CommandNeeds::new(needs))
}

fn head_numbers(
    alloc: Global,
    frees: bool,
    earlier: &[Task],
    head: &Option<Head>,
) -> Result<Vec<usize>, AllocError>
    ensures { IfOk result (λ numbers. numbers.items ≡ spec.head_numbers frees earlier.now head.now) }
{
    match head {
        None => Ok(Vec::new(alloc)),
        Some(head) => numbers(alloc, frees, false, earlier, &head.step),
    }
}

/// What the head of each task needs before it may begin, and nothing for a task without one. It may begin beside all else that the task
/// needs: it touches no file that one of these writes, nor the other way round.
pub fn head_needs_of(alloc: Global, frees: bool, tasks: &[Task]) -> Result<CommandNeeds, AllocError>
    ensures { IfOk result (λ needs. needs ≡ spec.head_needs_of frees tasks.now) }
{
    let mut needs = Vec::with_capacity(alloc, tasks.len())?;
    for (number, task) in tasks.iter().enumerate() {
        needs.push(head_numbers(alloc, frees, &tasks[..number], &task.head)?)?;
    }
    Ok(CommandNeeds::new(needs))
}
