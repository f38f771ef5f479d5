//! Priorities: how heavy a chain of commands begins with each.

ghost use Rattle.std.specs.Prelude.{◌≡◌, ◌<◌, Some, None, true, length, map, vec_items, MatchResult};
ghost use Rattle.std.specs.List.{fold};
ghost use Rattle.schedules.specs.Chains as spec;
ghost use Rattle.schedules.specs.Entered.{are_below};
ghost use Rattle.schedules.specs.Graphs as graphs;

use crate::command::BadGraph;
use crate::graph::graph_fault;
use std::alloc::Global;

// Notes that a chain of this weight follows a command.
fn raise_at(chains: &mut [usize], command: usize, weight: usize)
    requires { command < length chains.old }
    ensures { chains.new ≡ spec.raised weight chains.old command }
{
    if chains[command] < weight {
        chains[command] = weight;
    }
}

// Notes that a chain of this weight follows each of some commands.
fn raise(chains: &mut [usize], commands: &[usize], weight: usize)
    requires { are_below (length chains.old) commands.now ≡ true }
    ensures { chains.new ≡ fold (spec.raised weight) chains.old commands.now }
{
    for command in commands {
        raise_at(chains, *command, weight);
    }
}

// Puts a command before the chain that follows it.
fn put_in_front(chains: &mut [usize], command: usize, weight: usize, needs: &[usize])
    requires there { command < length chains.old }
    requires within { are_below (length chains.old) needs.now ≡ true }
    ensures { chains.new ≡ spec.with_command command needs.now weight chains.old }
{
    let heavier = chains[command].saturating_add(weight);
    chains[command] = heavier;
    raise(chains, needs, heavier);
}

// Puts each command before the chain that follows it, the last command first.
fn put_all_in_front(chains: &mut [usize], needs: &[Vec<usize>], weights: &[usize])
    requires as_many { length chains.old ≡ length needs.now }
    requires as_many_weights { length weights.now ≡ length needs.now }
    requires in_time { graphs.first_late 0 (map vec_items needs.now) ≡ None }
    ensures { chains.new ≡ spec.chains_from 0 (map vec_items needs.now) weights.now chains.old }
{
    let mut command = needs.len();
    while command > 0 {
        command -= 1;
        put_in_front(chains, command, weights[command], needs[command].as_slice());
    }
}

/// For each command the weight of the heaviest chain that begins with it, where each command needs the one before it: a good
/// priority, because what the rest waits for longest starts first.
///
/// `needs` is that of [`Schedule::new`](crate::Schedule::new), with the same errors, and `weights` has one number for each command, in
/// any unit ([`BadGraph::Priorities`]). A sum that no `usize` holds counts as the greatest one.
pub fn chain_weights(
    alloc: Global,
    needs: &[Vec<usize>],
    weights: &[usize],
) -> Result<Vec<usize>, BadGraph>
    ensures { MatchResult result
        (λ chains. (graphs.graph_fault (map vec_items needs.now) (length weights.now) 1 ≡ None)
        × (chains.items ≡ spec.chain_weights (map vec_items needs.now) weights.now))
        (λ bad. graphs.UnlessMemory bad (graphs.graph_fault (map vec_items needs.now) (length weights.now) 1 ≡ Some bad)) }
{
    if let Some(bad) = graph_fault(needs, weights.len(), 1) {
        return Err(bad);
    }
    let mut chains = Vec::new(alloc);
    chains.resize(needs.len(), 0)?;
    put_all_in_front(&mut chains, needs, weights);
    Ok(chains)
}
