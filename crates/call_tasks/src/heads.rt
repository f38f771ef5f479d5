//! What a command touches before it reads a file late, and how it begins without that file.

ghost use Rattle.std.specs.Prelude.{◌≡◌, ◌++◌, [], IfOk, codes};
ghost use Rattle.std.specs.List.{list_any};
ghost use Rattle.early_starts.specs.LateFiles as late_files;
ghost use Rattle.texts.specs.Path.{joined};
ghost use Rattle.call_tasks.specs.Heads as spec;

use crate::task::{Head, Task, Wait};
use command_files::{CommandFiles, Role, Step};
use early_starts::{gives, late_file, module_id_option, renamed};
use std::alloc::{AllocError, Global};
use texts::decimal::push_number;
use texts::text::{Text, join};
use texts::words::Words;

/// The record of a command until it reads a file.
pub(crate) fn head_files(
    alloc: Global,
    late: &str,
    files: &CommandFiles,
) -> Result<CommandFiles, AllocError>
    ensures { IfOk result (λ head. head ≡ spec.head_files late.now files.now) }
{
    let mut reads = Words::new(alloc);
    for path in files.reads.as_slice() {
        if path.as_str() != late {
            reads.push_str(alloc, path.as_str())?;
        }
    }
    Ok(CommandFiles {
        reads,
        writes: files.writes.try_clone(alloc)?,
        may_write: files.may_write.try_clone(alloc)?,
        complete: files.complete,
    })
}

/// A command by its record alone.
pub(crate) fn plain_step(files: CommandFiles) -> Step
    ensures { result ≡ spec.plain_step files }
{
    Step {
        files,
        role: Role::Plain,
        preprocesses: false,
    }
}

fn withheld_name(alloc: Global, own: &str, number: usize) -> Result<Text, AllocError>
    ensures { IfOk result (λ name. name ≡ spec.withheld_name own.now number) }
{
    let mut name = String::from_str(alloc, "module_id.")?;
    push_number(alloc, &mut name, number)?;
    Ok(Text::new(join(alloc, own, name.as_str())?))
}

fn opening_head(
    alloc: Global,
    own: &str,
    number: usize,
    late: Text,
    task: &Task,
) -> Result<Head, AllocError>
    ensures { IfOk result (λ head. head ≡ spec.opening_head own.now number late task.now) }
{
    let withheld = withheld_name(alloc, own, number)?;
    let words = task.command.args.as_slice();
    let files = head_files(alloc, late.as_str(), &task.step.files)?;
    Ok(Head {
        args: renamed(alloc, module_id_option(), withheld.as_str(), words)?,
        step: plain_step(files),
        file: late,
        withheld,
        wait: Wait::Opening,
    })
}

// Whether one of some tasks is cudafe++, and makes this file as its module id's.
fn one_gives(alloc: Global, late: &str, before: &[Task]) -> Result<bool, AllocError>
    ensures { IfOk result (λ answer. answer ≡ list_any (λ e. late_files.gives late.now e.command) before.now) }
{
    for task in before {
        if gives(alloc, late, &task.command)? {
            return Ok(true);
        }
    }
    Ok(false)
}

fn found_head(
    alloc: Global,
    own: &str,
    before: &[Task],
    task: &Task,
) -> Result<Option<Head>, AllocError>
    ensures { IfOk result (λ head. head ≡ spec.found_head own.now before.now task.now (late_files.late_file task.now.command)) }
{
    match late_file(alloc, &task.command)? {
        None => Ok(None),
        Some(late) => head_by(alloc, own, before, task, late),
    }
}

fn head_by(
    alloc: Global,
    own: &str,
    before: &[Task],
    task: &Task,
    late: Text,
) -> Result<Option<Head>, AllocError>
    ensures { IfOk result (λ head. head ≡ spec.head_by own.now before.now task.now late) }
{
    let is_plain = matches!(task.step.role, Role::Plain);
    if !is_plain || !one_gives(alloc, late.as_str(), before)? {
        return Ok(None);
    }
    Ok(Some(opening_head(alloc, own, before.len(), late, task)?))
}

/// Tasks with the heads of those that read a file late which a cudafe++ before them makes.
pub(crate) fn with_heads(
    alloc: Global,
    own: &str,
    tasks: Vec<Task>,
) -> Result<Vec<Task>, AllocError>
    ensures { IfOk result (λ headed. headed.items ≡ spec.heads_behind own.now [] tasks.items) }
{
    let mut headed = Vec::with_capacity(alloc, tasks.len())?;
    for task in tasks {
        let found = found_head(alloc, own, headed.as_slice(), &task)?;
        headed.push(Task {
            command: task.command,
            step: task.step,
            is_rule: task.is_rule,
            head: found.or(task.head),
        })?;
    }
    Ok(headed)
}
