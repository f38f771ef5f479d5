//! The commands that may start, as the entrants of a tournament.

ghost use Rattle.std.specs.Prelude.{◌≡◌, ℕ, ◌+◌, ◌-◌, ◌<◌, ◌≤◌, ◌==◌, if◌then◌else◌, true, length, slice_index, slice_set};
ghost use Rattle.schedules.specs.Entered as spec;

use crate::command::{CommandState, is_waiting};
use crate::tournament::enter;

// Notes that one more need of a command is met: it enters if that was the last one.
fn meet(
    command: usize,
    states: &[CommandState],
    limit: usize,
    priorities: &[usize],
    waiting: &mut [usize],
    tree: &mut [usize],
)
    requires entered { spec.AreEntered priorities.now tree.old states.now waiting.old limit }
    requires as_many_states { length states.now ≡ length priorities.now }
    requires as_many_waiting { length waiting.old ≡ length priorities.now }
    requires there { command < length priorities.now }
    requires some { 0 < slice_index waiting.old command }
    ensures entered { spec.AreEntered priorities.now tree.new states.now waiting.new limit }
    ensures waiting { waiting.new ≡ slice_set waiting.old command (slice_index waiting.old command - 1) }
{
    let left = waiting[command] - 1;
    waiting[command] = left;
    if left == 0 && command < limit && is_waiting(states[command]) {
        enter(tree, priorities, command, command);
    }
}

/// Notes that a command has succeeded which others need: those that need no other one enter the tournament.
pub(crate) fn release(
    dependents: &[usize],
    states: &[CommandState],
    limit: usize,
    priorities: &[usize],
    waiting: &mut [usize],
    tree: &mut [usize],
)
    requires entered { spec.AreEntered priorities.now tree.old states.now waiting.old limit }
    requires as_many_states { length states.now ≡ length priorities.now }
    requires as_many_waiting { length waiting.old ≡ length priorities.now }
    requires within { spec.are_below (length priorities.now) dependents.now ≡ true }
    requires enough { (n : ℕ) → n < length priorities.now → spec.times n dependents.now ≤ slice_index waiting.old n }
    ensures entered { spec.AreEntered priorities.now tree.new states.now waiting.new limit }
    ensures waiting { (n : ℕ) → n < length priorities.now → slice_index waiting.new n + spec.times n dependents.now ≡ slice_index waiting.old n }
{
    for dependent in dependents {
        meet(*dependent, states, limit, priorities, waiting, tree);
    }
}

// Takes a command out of the tournament, if it's in it.
fn leave(tree: &mut [usize], priorities: &[usize], place: usize)
    requires size { length tree.old ≡ length priorities.now + length priorities.now }
    requires there { place < length priorities.now }
    requires played { spec.Played priorities.now tree.old }
    requires bounded { spec.AreBounded priorities.now tree.old }
    ensures played { spec.Played priorities.now tree.new }
    ensures bounded { spec.AreBounded priorities.now tree.new }
    ensures entrants { (k : ℕ) → k < length priorities.now → spec.entrant priorities.now tree.new k ≡ (if k == place then length priorities.now else spec.entrant priorities.now tree.old k) }
{
    let nobody = priorities.len();
    if tree[nobody + place] < nobody {
        enter(tree, priorities, place, nobody);
    }
}

/// Takes the commands with the numbers `from` up to `to`, without `to` itself, out of the tournament.
pub(crate) fn hold_back(tree: &mut [usize], priorities: &[usize], from: usize, to: usize)
    requires size { length tree.old ≡ length priorities.now + length priorities.now }
    requires ordered { from ≤ to }
    requires within { to ≤ length priorities.now }
    requires played { spec.Played priorities.now tree.old }
    requires bounded { spec.AreBounded priorities.now tree.old }
    ensures played { spec.Played priorities.now tree.new }
    ensures entrants { (k : ℕ) → k < length priorities.now → spec.entrant priorities.now tree.new k ≡ spec.unless_between from to (length priorities.now) k (spec.entrant priorities.now tree.old k) }
{
    for place in from..to {
        leave(tree, priorities, place);
    }
}
