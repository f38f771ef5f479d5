//! What each command of a plan needs, and whether records say enough to run the commands in other orders.

ghost use Rattle.std.specs.Prelude.{◌≡◌, ◌++◌, IfOk, OnOk, map, vec_items, ◌||◌};
ghost use Rattle.std.specs.List.Sorted.{IsStrictlyIncreasing};
ghost use Rattle.command_files.specs.Order.{needs_by};
ghost use Rattle.command_files.specs.PlanNeeds.{role_needs, step_needs, plan_files, plan_needs};
ghost use Rattle.command_files.specs.PlanOrders as orders;
ghost use Rattle.command_files.specs.Touched as spec;
ghost use Rattle.command_files.specs.declared.steps.Role.TheVariants.{DeviceStep, Final};

use crate::files::CommandFiles;
use crate::steps::{Role, Step, files_of_steps, steps_of};
use crate::touched::{Touched, push_below};
use compilers::plans::Plan;
use std::alloc::{AllocError, Global};
use std::marker::Model;

/// What each command of a plan, or each of other tasks, needs, in order: the numbers of the earlier ones that have to run before it,
/// in ascending order, seen in contracts as the list of these lists.
#[derive(Debug, Drop)]
pub struct CommandNeeds {
    needs: Vec<Vec<usize>>,
}

impl Model for CommandNeeds {
    ghost use Rattle.std.specs.Prelude.{List, ℕ, map, vec_items};

    ghost Value = { List (List ℕ) };

    ghost view = { λ n. map vec_items n.needs.items };
}

impl CommandNeeds {
    /// From the list of what each command needs.
    pub fn new(needs: Vec<Vec<usize>>) -> CommandNeeds
        ensures { result ≡ map vec_items needs.items }
    {
        CommandNeeds { needs }
    }

    /// What each command needs.
    pub fn as_slice(&self) -> &[Vec<usize>]
        ensures { map vec_items result.now ≡ self.now }
    {
        self.needs.as_slice()
    }
}

/// Whether a command's role needs that of an earlier one, whatever the files of both.
pub fn needs_role(role: Role, earlier: Role) -> bool
    ensures { result ≡ role_needs role earlier }
{
    matches!(
        (role, earlier),
        (Role::DeviceStep, Role::FrontStep) | (Role::Final, _)
    )
}

// The numbers of the commands whose roles a role needs.
fn role_numbers(alloc: Global, role: Role, steps: &[Step]) -> Result<Vec<usize>, AllocError>
    ensures { IfOk result (λ numbers. numbers.items ≡ spec.role_numbers role steps.now) }
{
    let mut numbers = Vec::new(alloc);
    for (number, step) in steps.iter().enumerate() {
        if needs_role(role, step.role) {
            numbers.push(number)?;
        }
    }
    Ok(numbers)
}

/// What makes commands need others whatever their files.
#[derive(Drop)]
pub struct RoleNeeds {
    /// What device preprocess steps need.
    pub fronts: Vec<usize>,
    /// What commands of the final group need.
    pub all: Vec<usize>,
}

// The numbers of the commands that a role needs.
fn numbers_for(needs: &RoleNeeds, role: Role) -> &[usize]
    ensures { result.now ≡ spec.numbers_for needs.now.fronts.items needs.now.all.items role }
{
    match role {
        Role::Plain | Role::FrontStep => &[],
        Role::DeviceStep => needs.fronts.as_slice(),
        Role::Final => needs.all.as_slice(),
    }
}

// Where the needs of the command with a number are found, given the files of the earlier ones, to which it adds its own.
fn gathered<'a>(
    alloc: Global,
    touched: &mut Touched<'a>,
    others: &[usize],
    number: usize,
    step: &'a Step,
) -> Result<Vec<usize>, AllocError>
    ensures numbers { IfOk result (λ numbers. numbers.items
        ≡ spec.gathered (spec.readers_seen touched.old) (spec.writers_seen touched.old) others.now number step.now) }
    ensures readers { OnOk result (spec.readers_seen touched.new ≡ spec.with_numbers (spec.readers_seen touched.old) (spec.read_by step.now) number) }
    ensures writers { OnOk result (spec.writers_seen touched.new ≡ spec.with_numbers (spec.writers_seen touched.old) (spec.written_by step.now) number) }
{
    let mut numbers = Vec::new(alloc);
    touched.read_all(alloc, &mut numbers, number, step.files.reads.as_slice())?;
    touched.write_all(alloc, &mut numbers, number, step.files.writes.as_slice())?;
    touched.write_all(alloc, &mut numbers, number, step.files.may_write.as_slice())?;
    push_below(&mut numbers, number, others)?;
    Ok(numbers)
}

// Numbers in ascending order, each once.
fn each_once(numbers: Vec<usize>) -> Vec<usize>
    ensures rises { IsStrictlyIncreasing result.items }
    ensures same { spec.SameElements numbers.items result.items }
{
    let mut sorted = numbers;
    sorted.sort_unstable();
    sorted.dedup();
    sorted
}

// What the commands of a plan need.
fn needs_of_steps(alloc: Global, steps: &[Step]) -> Result<Vec<Vec<usize>>, AllocError>
    ensures { IfOk result (λ needs. map vec_items needs.items ≡ needs_by step_needs steps.now) }
{
    let by_role = RoleNeeds {
        fronts: role_numbers(alloc, Role::DeviceStep, steps)?,
        all: role_numbers(alloc, Role::Final, steps)?,
    };
    let mut touched = Touched::with_capacity(alloc, steps.len())?;
    let mut needs = Vec::with_capacity(alloc, steps.len())?;
    for (number, step) in steps.iter().enumerate() {
        let others = numbers_for(&by_role, step.role);
        needs.push(each_once(gathered(alloc, &mut touched, others, number, step)?))?;
    }
    Ok(needs)
}

/// What each command of a plan needs.
///
/// Commands are numbered in plan order from 0: group after group, as they are run. A command needs an earlier one if either
/// writes a file that the other reads or writes, by the words of both ([`files_of`](crate::files_of)); a file that a command
/// may write counts as written. The commands of the final group need all earlier ones, because the generated source
/// includes files that no word names. The preprocess steps of device groups need those of the front group, so that a missing
/// header is reported once.
pub fn needs(alloc: Global, plan: &Plan) -> Result<CommandNeeds, AllocError>
    ensures { IfOk result (λ needs. needs ≡ plan_needs plan.now) }
{
    let steps = steps_of(alloc, plan)?;
    let needs = needs_of_steps(alloc, steps.as_slice())?;
    Ok(CommandNeeds { needs })
}

/// The files of each command of a plan, and what each needs, both in plan order.
#[derive(Debug, Drop)]
pub struct FilesAndNeeds {
    /// The files that each command reads and writes.
    pub files: Vec<CommandFiles>,
    /// What each command needs.
    pub needs: CommandNeeds,
}

/// What [`files_of_plan`](crate::files_of_plan) and [`needs`] give, in half the time of both: it reads each line once.
pub fn files_and_needs(alloc: Global, plan: &Plan) -> Result<FilesAndNeeds, AllocError>
    ensures files { IfOk result (λ both. both.files.items ≡ plan_files plan.now) }
    ensures needs { IfOk result (λ both. both.needs ≡ plan_needs plan.now) }
{
    let steps = steps_of(alloc, plan)?;
    let needs = needs_of_steps(alloc, steps.as_slice())?;
    Ok(FilesAndNeeds {
        files: files_of_steps(alloc, steps)?,
        needs: CommandNeeds { needs },
    })
}

/// Whether the records of a plan's commands say enough of them, so that they may run in each order that follows their needs.
///
/// Final commands need all before them, so nothing is asked of their records. Each other command must have a complete record
/// ([`CommandFiles`](crate::CommandFiles)), or the word `-E`: a preprocess step reads headers too, and no command of a plan
/// writes these. It isn't so, for example, if a line of cicc can't be read. `laws::plan_orders` says what follows.
pub fn keeps_orders(alloc: Global, plan: &Plan) -> Result<bool, AllocError>
    ensures { IfOk result (λ keeps. keeps ≡ orders.keeps_orders plan.now) }
{
    let steps = steps_of(alloc, plan)?;
    let mut rest = steps.as_slice().iter();
    Ok(rest.all(|step| {
        let is_final = matches!(step.role, Role::Final);
        is_final || step.files.complete || step.preprocesses
    }))
}
