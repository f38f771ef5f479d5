//! The commands of a plan, as what their needs depend on.

ghost use Rattle.std.specs.Prelude.{◌≡◌, IfOk, map, string_bytes};
ghost use Rattle.command_files.specs.Files.{is_among};
ghost use Rattle.command_files.specs.PlanNeeds as spec;

use crate::files::{CommandFiles, files_by};
use compilers::plans::{NvccGeneratedSubcommand, Plan, Program};
use std::alloc::{AllocError, Global};

/// What a command does in its plan, as far as others wait for it or it waits for others whatever the files.
#[derive(Clone, Copy)]
pub enum Role {
    /// A preprocess step of the front group.
    FrontStep,
    /// A preprocess step of a device group.
    DeviceStep,
    /// A command of the final group.
    Final,
    /// Any other command.
    Plain,
}

/// A command of a plan, as what its needs and its orders depend on.
#[derive(Drop)]
pub struct Step {
    /// Which files it reads and writes.
    pub files: CommandFiles,
    /// Where in the plan it is.
    pub role: Role,
    /// Whether its words ask a host compiler to preprocess only.
    pub preprocesses: bool,
}

// The role of a command in the group numbered `group` of `count`. `compiles`: whether its program is a host compiler, as nvlink counts here.
fn role_of(count: usize, group: usize, compiles: bool) -> Role
    ensures { result ≡ spec.role_of count group compiles }
{
    if group == 0 {
        if compiles {
            Role::FrontStep
        } else {
            Role::Plain
        }
    } else if count.saturating_sub(group) == 1 {
        Role::Final
    } else if compiles {
        Role::DeviceStep
    } else {
        Role::Plain
    }
}

/// Whether a word is among words, or a path among paths.
pub fn has_word(words: &[String], word: &str) -> bool
    ensures { result ≡ is_among (map string_bytes words.now) word.now }
{
    for other in words {
        if word == other.as_str() {
            return true;
        }
    }
    false
}

/// Whether words ask a host compiler to preprocess only, as the words of nvcc's steps do, by `-E`.
pub fn preprocesses(words: &[String]) -> bool
    ensures { result ≡ spec.preprocesses (map string_bytes words.now) }
{
    has_word(words, "-E")
}

/// A command of the group numbered `group` of `count`.
pub fn step_of(
    alloc: Global,
    count: usize,
    group: usize,
    command: &NvccGeneratedSubcommand,
) -> Result<Step, AllocError>
    ensures { IfOk result (λ step. step ≡ spec.step_of count group command.now) }
{
    let program = Program::at(command.exe.as_str());
    Ok(Step {
        files: files_by(alloc, program, command)?,
        role: role_of(
            count,
            group,
            matches!(program, Program::Nvlink | Program::Other),
        ),
        preprocesses: preprocesses(command.args.as_slice()),
    })
}

/// The commands of a plan, in plan order.
pub fn steps_of(alloc: Global, plan: &Plan) -> Result<Vec<Step>, AllocError>
    ensures { IfOk result (λ steps. steps.items ≡ spec.plan_steps plan.now) }
{
    let count = plan.groups.as_slice().len();
    let commands = plan.groups.listed(alloc)?;
    let mut steps = Vec::with_capacity(alloc, commands.len())?;
    for listed in &commands {
        steps.push(step_of(alloc, count, listed.group, listed.command)?)?;
    }
    Ok(steps)
}

/// The files of commands, in their order.
pub fn files_of_steps(alloc: Global, steps: Vec<Step>) -> Result<Vec<CommandFiles>, AllocError>
    ensures { IfOk result (λ files. files.items ≡ map (λ s. s.files) steps.items) }
{
    let mut files = Vec::with_capacity(alloc, steps.len())?;
    for step in steps {
        files.push(step.files)?;
    }
    Ok(files)
}

/// The files that each command of a plan reads and writes, in plan order.
pub fn files_of_plan(alloc: Global, plan: &Plan) -> Result<Vec<CommandFiles>, AllocError>
    ensures { IfOk result (λ files. files.items ≡ spec.plan_files plan.now) }
{
    files_of_steps(alloc, steps_of(alloc, plan)?)
}
