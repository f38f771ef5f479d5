//! The last host compile in two halves.

ghost use Rattle.std.specs.Prelude.{◌≡◌, ◌-◌, ◌++◌, IfOk, OnOk, length, map, option_copied, reverse, string_bytes, take};
ghost use Rattle.std.specs.List.{list_any, list_all};
ghost use Rattle.command_files.specs.Files.{is_among};
ghost use Rattle.early_starts.specs.LatePlans as late_plans;
ghost use Rattle.call_tasks.specs.Halves as spec;

use crate::heads::plain_step;
use crate::task::{Asks, Head, Task, Wait};
use command_files::{Role, Step, files_of, has_word, preprocesses};
use compilers::plans::{NvccGeneratedSubcommand, Program};
use early_starts::{Places, Split, renamed, split_compile};
use std::alloc::{AllocError, Global};
use texts::text::{Text, join};
use texts::words::word_after;

fn place_in(alloc: Global, own: &str, name: &str) -> Result<Text, AllocError>
    ensures { IfOk result (λ place. place ≡ spec.place_in own.now name.now) }
{
    Ok(Text::new(join(alloc, own, name)?))
}

// Where the files go that the driver adds.
fn places_in(alloc: Global, own: &str) -> Result<Places, AllocError>
    ensures { IfOk result (λ places. places ≡ spec.places_in own.now) }
{
    Ok(Places {
        text_file: place_in(alloc, own, "late.s")?,
        fatbin_file: place_in(alloc, own, "fatbin.c")?,
        included: place_in(alloc, own, "fatbin.s")?,
    })
}

/// A command with its record and role, and no head.
pub(crate) fn task_of(command: NvccGeneratedSubcommand, step: Step) -> Task
    ensures { result ≡ spec.task_of command step }
{
    Task {
        command,
        step,
        is_rule: false,
        head: None,
    }
}

fn version_word() -> &'static str
    ensures { result.now ≡ spec.version_word }
{
    "-D__CUDACC_VER_MAJOR__=13"
}

fn names_version(tasks: &[Task]) -> bool
    ensures { result ≡ list_any (λ t. is_among t.command.args spec.version_word) tasks.now }
{
    for task in tasks {
        if has_word(task.command.args.as_slice(), version_word()) {
            return true;
        }
    }
    false
}

// Whether one of some tasks writes a file for certain.
fn is_written(tasks: &[Task], path: &str) -> bool
    ensures { result ≡ spec.is_written tasks.now path.now }
{
    for task in tasks {
        if has_word(task.step.files.writes.as_slice(), path) {
            return true;
        }
    }
    false
}

fn are_written(tasks: &[Task], paths: &[String]) -> bool
    ensures { result ≡ list_all (spec.is_written tasks.now) (map string_bytes paths.now) }
{
    for path in paths {
        if !is_written(tasks, path.as_str()) {
            return false;
        }
    }
    true
}

// The halves of a compile, if what they read of it is written by some tasks.
fn if_written(tasks: &[Task], compile: &Task, split: Split) -> Option<Split>
    ensures { result ≡ spec.if_written tasks.now compile.now split }
{
    let reads = compile.step.files.reads.as_slice();
    if is_written(tasks, split.stub.as_str()) && are_written(tasks, reads) {
        Some(split)
    } else {
        None
    }
}

// The halves of the last of some tasks, behind fatbinary's.
fn split_behind(
    alloc: Global,
    own: &str,
    before: &[Task],
    fatbinary: &Task,
    compile: &Task,
) -> Result<Option<Split>, AllocError>
    ensures { IfOk result (λ split. split ≡ spec.split_of_two own.now before.now fatbinary.now compile.now) }
{
    let places = places_in(alloc, own)?;
    match split_compile(alloc, &places, &fatbinary.command, &compile.command)? {
        None => Ok(None),
        Some(split) => Ok(if_written(before, compile, split)),
    }
}

// The halves of a task behind others.
fn split_of_others(
    alloc: Global,
    own: &str,
    others: &[Task],
    compile: &Task,
) -> Result<Option<Split>, AllocError>
    ensures { IfOk result (λ split. split ≡ spec.split_of_others own.now compile.now (reverse others.now)) }
{
    match others.split_last() {
        None => Ok(None),
        Some((fatbinary, before)) => split_behind(alloc, own, before, fatbinary, compile),
    }
}

// The halves of the last of some tasks.
fn split_of_last(alloc: Global, own: &str, tasks: &[Task]) -> Result<Option<Split>, AllocError>
    ensures { IfOk result (λ split. split ≡ spec.split_behind own.now (reverse tasks.now)) }
{
    match tasks.split_last() {
        None => Ok(None),
        Some((compile, others)) => split_of_others(alloc, own, others, compile),
    }
}

/// The halves of the last of some tasks, if it is a host compile that may run so.
pub(crate) fn last_split(
    alloc: Global,
    asks: &Asks,
    tasks: &[Task],
) -> Result<Option<Split>, AllocError>
    ensures { IfOk result (λ split. split ≡ spec.last_split asks.now tasks.now) }
{
    if asks.halves && names_version(tasks) {
        split_of_last(alloc, asks.own.as_str(), tasks)
    } else {
        Ok(None)
    }
}

fn stub_option() -> &'static str
    ensures { result.now ≡ spec.stub_option }
{
    "--stub_file_name"
}

fn is_behind(words: &[String], option: &str, file: &str) -> bool
    ensures { result ≡ spec.is_behind option.now file.now (map string_bytes words.now) }
{
    match word_after(words, option) {
        None => false,
        Some(word) => word == file,
    }
}

// Whether a task is a cicc that names a stub file by its path.
fn names_stub(stub: &str, task: &Task) -> bool
    ensures { result ≡ spec.names_stub stub.now task.now }
{
    matches!(Program::at(task.command.exe.as_str()), Program::Cicc)
        && is_behind(task.command.args.as_slice(), stub_option(), stub)
}

fn one_names_stub(stub: &str, tasks: &[Task]) -> bool
    ensures { result ≡ list_any (spec.names_stub stub.now) tasks.now }
{
    for task in tasks {
        if names_stub(stub, task) {
            return true;
        }
    }
    false
}

// A command that writes the stub file elsewhere.
fn moved_command(
    alloc: Global,
    own: &str,
    command: NvccGeneratedSubcommand,
) -> Result<NvccGeneratedSubcommand, AllocError>
    ensures { IfOk result (λ moved. moved ≡ spec.moved_command own.now command) }
{
    let file = join(alloc, own, "stub.c")?;
    let args = renamed(alloc, stub_option(), file.as_str(), command.args.as_slice())?;
    Ok(NvccGeneratedSubcommand { args, ..command })
}

fn moved_task(alloc: Global, own: &str, stub: &str, task: Task) -> Result<Task, AllocError>
    ensures { IfOk result (λ moved. moved ≡ spec.moved_task own.now stub.now task) }
{
    if !names_stub(stub, &task) {
        return Ok(task);
    }
    let command = moved_command(alloc, own, task.command)?;
    let files = files_of(alloc, &command)?;
    let step = Step { files, ..task.step };
    Ok(Task {
        command,
        step,
        is_rule: task.is_rule,
        head: task.head,
    })
}

fn moved_tasks(
    alloc: Global,
    own: &str,
    stub: &str,
    tasks: Vec<Task>,
) -> Result<Vec<Task>, AllocError>
    ensures { IfOk result (λ moved. moved.items ≡ map (spec.moved_task own.now stub.now) tasks.items) }
{
    let mut moved = Vec::with_capacity(alloc, tasks.len())?;
    for task in tasks {
        moved.push(moved_task(alloc, own, stub, task)?)?;
    }
    Ok(moved)
}

// The record of the compiler's half, which reads files besides those of its words: one, and the placeholder.
fn compiler_step(alloc: Global, split: &Split, stub: Option<&str>) -> Result<Step, AllocError>
    ensures { IfOk result (λ step. step ≡ spec.compiler_step split.now (option_copied stub.entry)) }
{
    let mut files = files_of(alloc, &split.compiler)?;
    if let Some(stub) = stub {
        files.reads.push_str(alloc, stub)?;
    }
    files.reads.push_str(alloc, split.read.as_str())?;
    Ok(plain_step(files))
}

fn compiler_head(alloc: Global, own: &str, split: &Split) -> Result<Head, AllocError>
    ensures { IfOk result (λ head. head ≡ spec.compiler_head own.now split.now) }
{
    Ok(Head {
        args: split.compiler.args.try_clone(alloc)?,
        step: compiler_step(alloc, split, None)?,
        file: place_in(alloc, own, "stub.c")?,
        withheld: split.stub.try_clone(alloc)?,
        wait: Wait::Reading,
    })
}

// The compiler's half, which may begin before the stub file is there, or reads it by its words.
fn compiler_task(
    alloc: Global,
    own: &str,
    split: &Split,
    is_moved: bool,
) -> Result<Task, AllocError>
    ensures { IfOk result (λ task. task ≡ spec.compiler_task own.now split.now is_moved) }
{
    let command = split.compiler.try_clone(alloc)?;
    if !is_moved {
        let step = compiler_step(alloc, split, Some(split.stub.as_str()))?;
        return Ok(task_of(command, step));
    }
    let file = join(alloc, own, "stub.c")?;
    Ok(Task {
        command,
        step: compiler_step(alloc, split, Some(file.as_str()))?,
        is_rule: false,
        head: Some(compiler_head(alloc, own, split)?),
    })
}

fn final_task(alloc: Global, command: &NvccGeneratedSubcommand) -> Result<Task, AllocError>
    ensures { IfOk result (λ task. task ≡ spec.task_of command.now (late_plans.final_step command.now)) }
{
    let step = Step {
        files: files_of(alloc, command)?,
        role: Role::Final,
        preprocesses: preprocesses(command.args.as_slice()),
    };
    Ok(task_of(command.try_clone(alloc)?, step))
}

fn assembler_task(alloc: Global, own: &str, split: &Split) -> Result<Task, AllocError>
    ensures { IfOk result (λ task. task ≡ spec.assembler_task own.now split.now) }
{
    let places = places_in(alloc, own)?;
    let mut files = files_of(alloc, &split.assembler)?;
    files.reads.push_str(alloc, places.fatbin_file.as_str())?;
    files.writes.push_str(alloc, places.included.as_str())?;
    let step = Step {
        files,
        role: Role::Final,
        preprocesses: false,
    };
    Ok(task_of(split.assembler.try_clone(alloc)?, step))
}

// Puts the last tasks of a split behind those before them.
fn push_split(
    alloc: Global,
    own: &str,
    split: &Split,
    is_moved: bool,
    tasks: &mut Vec<Task>,
) -> Result<(), AllocError>
    ensures { OnOk result (tasks.new.items ≡ tasks.old.items ++ spec.last_tasks own.now split.now is_moved) }
{
    tasks.push(final_task(alloc, &split.fatbinary)?)?;
    tasks.push(compiler_task(alloc, own, split, is_moved)?)?;
    tasks.push(assembler_task(alloc, own, split)?)?;
    Ok(())
}

/// Tasks with a split in place of the last two.
pub(crate) fn with_split(
    alloc: Global,
    asks: &Asks,
    split: &Split,
    tasks: Vec<Task>,
) -> Result<Vec<Task>, AllocError>
    ensures { IfOk result (λ made. made.items ≡ spec.with_split asks.now split.now (take (length tasks.items - 2) tasks.items)) }
{
    let mut front = tasks;
    let count = front.len().saturating_sub(2);
    front.truncate(count);
    let (own, stub) = (asks.own.as_str(), split.stub.as_str());
    let is_moved = asks.pipes && one_names_stub(stub, front.as_slice());
    if is_moved {
        front = moved_tasks(alloc, own, stub, front)?;
    }
    push_split(alloc, own, split, is_moved, &mut front)?;
    Ok(front)
}
