//! A tournament of the commands that may start: the winner is at the root, and each game above an entrant that changed is
//! played again.
//!
//! A tree for a number of commands has twice as many places. The second half are the commands, in their order. The place 0 is
//! unused, 1 is the root, and the places below the place n are 2 n and 2 n + 1. At a place is the number of the command that won the
//! games below it. A number that no command has means that nobody won.

ghost use Rattle.std.specs.Prelude.{◌≡◌, ℕ, ◌+◌, ◌*◌, ◌<◌, ◌==◌, if◌then◌else◌, length, slice_index};
ghost use Rattle.schedules.specs.Tournament as spec;

/// The better one of two: a command beats nobody, a greater priority beats a lower one, and of equal priorities the lower
/// number wins.
pub(crate) fn better(priorities: &[usize], first: usize, second: usize) -> usize
    ensures { result ≡ spec.better priorities.now first second }
{
    if second >= priorities.len() {
        return first;
    }
    if first >= priorities.len() {
        return second;
    }
    let one = priorities[first];
    let other = priorities[second];
    if one < other || one == other && second < first {
        second
    } else {
        first
    }
}

/// Puts an entrant, a command or nobody, at the place of a command, and plays the games above it again.
pub(crate) fn enter(tree: &mut [usize], priorities: &[usize], place: usize, entrant: usize)
    requires size { length tree.old ≡ length priorities.now + length priorities.now }
    requires there { place < length priorities.now }
    requires played { spec.Played priorities.now tree.old }
    ensures played { spec.Played priorities.now tree.new }
    ensures entrants { (k : ℕ) → k < length priorities.now → spec.entrant priorities.now tree.new k ≡ (if k == place then entrant else spec.entrant priorities.now tree.old k) }
{
    let mut node = priorities.len() + place;
    tree[node] = entrant;
    while node > 1 {
        node /= 2;
        tree[node] = better(priorities, tree[2 * node], tree[2 * node + 1]);
    }
}
