//! Which outputs may be printed.

ghost use Rattle.std.specs.Prelude.{◌≡◌};
ghost use Rattle.schedules.specs.Told as spec;

use crate::command::{CommandState, PlanStatus, Told};

/// Which outputs of commands may be printed, given what has become of each: of those with the numbers from `first` up to `end`, without
/// `end` itself.
///
/// [`Schedule::told`](crate::Schedule::told) answers it of a schedule's commands, and `laws::told` says what that is.
pub fn told(states: &[CommandState], first: usize, end: usize) -> Told
    ensures { result ≡ spec.told states.now first end }
{
    let mut next = first;
    while next < end && next < states.len() {
        match states[next] {
            CommandState::Succeeded => next += 1,
            CommandState::Failed => {
                return Told {
                    end: next + 1,
                    status: PlanStatus::Failed,
                };
            }
            CommandState::NotStarted | CommandState::Running | CommandState::Cancelled => {
                return Told {
                    end: next,
                    status: PlanStatus::Unfinished,
                };
            }
        }
    }
    Told {
        end: next,
        status: PlanStatus::Succeeded,
    }
}
