//! Laws of schedules.

ghost use Rattle.schedules.specs.Chains.{WeightsAreHeaviest, ChainsOfFour, ChainsOfThree};
ghost use Rattle.schedules.specs.ScheduleLaws.{NeedsSucceedFirst, StartsOnce, SlotsSuffice, FailuresCount, EventsEnd, NeverStuck, ToldInOrder, NothingElseTold};

/// What holds of the events that a schedule accepts, whatever its caller does and however commands end.
///
/// Before a command starts, each one that it needs has succeeded (`needs_first`). No command starts twice (`once`). Never more
/// run than there are slots (`slots`). After a command that ended without success, only those start that the setting allows
/// (`failures`). There are at most twice as many events as commands (`ends`). And nothing is forgotten (`never_stuck`): when a
/// schedule is over, each command that is earlier than all that ended without success has succeeded, unless one of them did
/// and nothing starts after that.
pub fn events()
    ensures needs_first { NeedsSucceedFirst }
    ensures once { StartsOnce }
    ensures slots { SlotsSuffice }
    ensures failures { FailuresCount }
    ensures ends { EventsEnd }
    ensures never_stuck { NeverStuck }
{}

/// A schedule has the outputs printed that the plan's own order prints, one command after the other, up to the first failure.
///
/// The premise: a command ends as it does in that order, and only such commands are cancelled as that order doesn't come to.
/// Then a schedule that is over lets exactly that be printed, outputs and status, unless nothing starts after a failure (`in_order`). Before
/// that, and with any setting, it lets a beginning of it be printed (`nothing_else`).
pub fn told()
    ensures in_order { ToldInOrder }
    ensures nothing_else { NothingElseTold }
{}

/// What `chain_weights` answers for a command is its own weight and that of the heaviest chain that begins with a command which
/// needs it, or nothing if none does (`heaviest`). The definition gives these weights for two small graphs.
pub fn chains()
    ensures heaviest { WeightsAreHeaviest }
    ensures of_four { ChainsOfFour }
    ensures of_three { ChainsOfThree }
{}
