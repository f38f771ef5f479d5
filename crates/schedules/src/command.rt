//! What happens to the commands of a schedule, and what a schedule says of them.

ghost use Rattle.std.specs.Prelude.{◌≡◌};
ghost use Rattle.schedules.specs.States as spec;

use std::alloc::AllocError;

/// What may start after a failure.
#[derive(Clone, Copy, Debug)]
pub enum AfterFailure {
    /// Nothing.
    StartNothing,
    /// Only commands that are earlier, in the order of the graph, than each one that failed.
    ///
    /// Then the outputs that are printed are those of the commands run one after the other, up to the first that fails.
    StartEarlier,
    /// Every command whose needs have all succeeded.
    GoOn,
}

/// How a command ended.
#[derive(Clone, Copy, Debug)]
pub enum Outcome {
    /// It succeeded.
    Success,
    /// It failed.
    Failure,
    /// The caller ended it. It holds others back as a failure does, but its output isn't printed.
    Cancelled,
}

/// What has become of a command.
#[derive(Clone, Copy, Debug)]
pub enum CommandState {
    /// It hasn't started.
    NotStarted,
    /// It has started and not ended.
    Running,
    /// It ended with success.
    Succeeded,
    /// It ended with failure.
    Failed,
    /// The caller ended it.
    Cancelled,
}

/// Why an event makes no sense. The schedule is unchanged.
#[derive(Clone, Copy, Debug)]
pub enum Refused {
    /// No command has this number.
    NoSuchCommand,
    /// The command has started before.
    StartedBefore,
    /// Not all that the command needs have succeeded.
    NeedsUnmet,
    /// Another command failed or was cancelled, so this one may not start.
    HeldBack,
    /// As many commands run as may.
    NoSlot,
    /// The command doesn't run, so it can't have ended.
    NotRunning,
}

/// Why there is no schedule of a graph.
#[derive(Clone, Copy, Debug)]
pub enum BadGraph {
    /// No command may ever run, because there are no slots.
    NoSlot,
    /// There isn't one priority for each command.
    Priorities,
    /// The command needs one that isn't earlier than itself.
    NeedsLater {
        /// The number of the command.
        command: usize,
    },
    /// A memory allocation failed.
    Memory,
}

impl From<AllocError> for BadGraph {
    ghost use Rattle.std.specs.Prelude.{◌≡◌};
    ghost use Rattle.schedules.specs.declared.command.BadGraph.TheVariants.{Memory};

    ghost from_gives = { λ _ e. e ≡ Memory };

    fn from(_error: AllocError) -> BadGraph {
        BadGraph::Memory
    }
}

/// How a plan has come out so far.
#[derive(Clone, Copy, Debug)]
pub enum PlanStatus {
    /// Not all of it has been printed.
    Unfinished,
    /// Every command succeeded.
    Succeeded,
    /// The last command whose output is printed failed, and nothing of the plan is printed after it.
    Failed,
}

/// Which outputs may be printed.
#[derive(Clone, Copy, Debug)]
pub struct Told {
    /// One more than the number of the last command whose output may be printed.
    pub end: usize,
    /// How the plan has come out so far.
    pub status: PlanStatus,
}

/// Whether a command hasn't started.
pub(crate) fn is_waiting(state: CommandState) -> bool
    ensures { result ≡ spec.is_waiting state }
{
    matches!(state, CommandState::NotStarted)
}

/// Whether a command runs.
pub(crate) fn is_running(state: CommandState) -> bool
    ensures { result ≡ spec.is_running state }
{
    matches!(state, CommandState::Running)
}

/// The number below which commands may start, after the command with a number has ended without success.
pub(crate) fn lowered(after_failure: AfterFailure, limit: usize, command: usize) -> usize
    ensures { result ≡ spec.lowered after_failure limit command }
{
    match after_failure {
        AfterFailure::StartNothing => 0,
        AfterFailure::StartEarlier => limit.min(command),
        AfterFailure::GoOn => limit,
    }
}
