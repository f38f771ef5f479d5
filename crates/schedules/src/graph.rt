//! Graphs of commands by what each needs.

ghost use Rattle.std.specs.Prelude.{◌≡◌, ℕ, ◌+◌, ◌<◌, ◌&&◌, ◌==◌, if◌then◌else◌, ◌++◌, IfOk, OnOk, Some, None, [], true, length, map, replicate, vec_items};
ghost use Rattle.schedules.specs.Entered.{are_below, AreEntered, Played, entrant};
ghost use Rattle.schedules.specs.Graphs as spec;
ghost use Rattle.schedules.specs.declared.command.CommandState.TheVariants.{NotStarted};

use crate::command::BadGraph;
use crate::tournament::enter;
use std::alloc::{AllocError, Global};

// Whether all numbers are below a number.
fn are_below(count: usize, numbers: &[usize]) -> bool
    ensures { result ≡ are_below count numbers.now }
{
    numbers.iter().all(|number| *number < count)
}

// The first command that needs one which isn't earlier.
fn first_late(needs: &[Vec<usize>]) -> Option<usize>
    ensures { result ≡ spec.first_late 0 (map vec_items needs.now) }
{
    for (number, needed) in needs.iter().enumerate() {
        if !are_below(number, needed.as_slice()) {
            return Some(number);
        }
    }
    None
}

/// What is wrong with a graph.
pub(crate) fn graph_fault(needs: &[Vec<usize>], priorities: usize, slots: usize) -> Option<BadGraph>
    ensures { result ≡ spec.graph_fault (map vec_items needs.now) priorities slots }
{
    if slots == 0 {
        Some(BadGraph::NoSlot)
    } else if priorities != needs.len() {
        Some(BadGraph::Priorities)
    } else {
        match first_late(needs) {
            None => None,
            Some(command) => Some(BadGraph::NeedsLater { command }),
        }
    }
}

// Empty rows.
fn empty_rows(alloc: Global, count: usize) -> Result<Vec<Vec<usize>>, AllocError>
    ensures { IfOk result (λ rows. map vec_items rows.items ≡ replicate count []) }
{
    let mut rows = Vec::with_capacity(alloc, count)?;
    for _ in 0..count {
        rows.push(Vec::new(alloc))?;
    }
    Ok(rows)
}

// Notes a command at one that it needs.
fn note_at(rows: &mut Vec<Vec<usize>>, need: usize, number: usize) -> Result<(), AllocError>
    requires { need < length rows.old.items }
    ensures { OnOk result (map vec_items rows.new.items ≡ spec.with_dependent number (map vec_items rows.old.items) need) }
{
    let row = &mut rows[need];
    row.push(number)?;
    Ok(())
}

// Notes a command at each one that it needs.
fn note(rows: &mut Vec<Vec<usize>>, number: usize, needed: &[usize]) -> Result<(), AllocError>
    requires { are_below (length rows.old.items) needed.now ≡ true }
    ensures { OnOk result (map vec_items rows.new.items ≡ spec.noted number (map vec_items rows.old.items) needed.now) }
{
    for need in needed {
        note_at(rows, *need, number)?;
    }
    Ok(())
}

/// For each command those that need it, as often as they need it.
pub(crate) fn dependents_of(
    alloc: Global,
    needs: &[Vec<usize>],
) -> Result<Vec<Vec<usize>>, AllocError>
    requires { spec.first_late 0 (map vec_items needs.now) ≡ None }
    ensures { IfOk result (λ rows. map vec_items rows.items ≡ spec.all_noted 0 (replicate (length needs.now) []) (map vec_items needs.now)) }
{
    let mut rows = empty_rows(alloc, needs.len())?;
    for (number, needed) in needs.iter().enumerate() {
        note(&mut rows, number, needed.as_slice())?;
    }
    Ok(rows)
}

/// How many commands each one needs.
pub(crate) fn counts_of(alloc: Global, needs: &[Vec<usize>]) -> Result<Vec<usize>, AllocError>
    ensures { IfOk result (λ counts. counts.items ≡ map length (map vec_items needs.now)) }
{
    let mut counts = Vec::with_capacity(alloc, needs.len())?;
    for needed in needs {
        counts.push(needed.len())?;
    }
    Ok(counts)
}

// Enters a command if it needs no other one.
fn admit_one(tree: &mut [usize], priorities: &[usize], command: usize, needs: usize)
    requires size { length tree.old ≡ length priorities.now + length priorities.now }
    requires there { command < length priorities.now }
    requires played { Played priorities.now tree.old }
    ensures played { Played priorities.now tree.new }
    ensures entrants { (k : ℕ) → k < length priorities.now → entrant priorities.now tree.new k ≡ (if k == command && needs == 0 then command else entrant priorities.now tree.old k) }
{
    if needs == 0 {
        enter(tree, priorities, command, command);
    }
}

// Enters the commands that need no other one.
fn admit(tree: &mut [usize], priorities: &[usize], waiting: &[usize])
    requires as_many_waiting { length waiting.now ≡ length priorities.now }
    requires empty { tree.old ≡ replicate (length priorities.now + length priorities.now) (length priorities.now) }
    ensures { AreEntered priorities.now tree.new (replicate (length priorities.now) NotStarted) waiting.now (length priorities.now) }
{
    for (command, needs) in waiting.iter().enumerate() {
        admit_one(tree, priorities, command, *needs);
    }
}

/// The tournament of the commands that need no other one.
pub(crate) fn first_tree(
    alloc: Global,
    priorities: &[usize],
    waiting: &[usize],
) -> Result<Vec<usize>, AllocError>
    requires { length waiting.now ≡ length priorities.now }
    ensures { IfOk result (λ tree. AreEntered priorities.now tree.items (replicate (length priorities.now) NotStarted) waiting.now (length priorities.now)) }
{
    let nobody = priorities.len();
    let mut tree = Vec::new(alloc);
    tree.resize(nobody + nobody, nobody)?;
    admit(&mut tree, priorities, waiting);
    Ok(tree)
}

// Adds the needs of a plan. Its numbers count on from those of earlier plans.
fn push_moved(
    alloc: Global,
    joined: &mut Vec<Vec<usize>>,
    offset: usize,
    plan: &[Vec<usize>],
) -> Result<(), AllocError>
    ensures { OnOk result (map vec_items joined.new.items ≡ map vec_items joined.old.items ++ map (map (spec.moved offset)) (map vec_items plan.now)) }
{
    for needed in plan {
        joined.push(moved(alloc, offset, needed.as_slice())?)?;
    }
    Ok(())
}

// Numbers of commands, counted on from those of earlier plans.
fn moved(alloc: Global, offset: usize, numbers: &[usize]) -> Result<Vec<usize>, AllocError>
    ensures { IfOk result (λ behind. behind.items ≡ map (spec.moved offset) numbers.now) }
{
    numbers
        .iter()
        .map(|number| number.saturating_add(offset))
        .collect(alloc)
}

/// The needs of several plans in one graph: the numbers of each plan count on from those of the plans before it.
pub fn joined_needs(alloc: Global, plans: &[&[Vec<usize>]]) -> Result<Vec<Vec<usize>>, AllocError>
    ensures { IfOk result (λ joined. map vec_items joined.items ≡ spec.joined_from 0 (map (λ p. map vec_items p.now) plans.now)) }
{
    let mut joined = Vec::new(alloc);
    for plan in plans {
        let offset = joined.len();
        push_moved(alloc, &mut joined, offset, plan)?;
    }
    Ok(joined)
}
