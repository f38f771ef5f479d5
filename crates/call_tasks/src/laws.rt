//! Laws of what is started of a plan.

ghost use Rattle.call_tasks.specs.PartLaws.{HeadsAreWithin, PartsHold, PartsAgree, HistoriesLeaveTasks, WithheldFilesAreWritten, TasksStandForPlans, WithoutStanding, WithoutLikeness};

/// Whatever the order and the overlap, the parts of a plan's tasks leave in files what the tasks leave one after the other.
///
/// A task is one part, or two: a head that begins before a file is there that it reads late, and the rest. Each has a record and needs of its
/// own. What a head touches is of its task's record (`within`). Parts are ordered of which either writes a file that the other touches
/// (`hold`), so every order by these needs does the same (`agree`), and every history of every schedule of the parts leaves what the tasks
/// leave one after the other (`histories`). There is one premise, that each part stays within its own record.
///
/// The driver gives a rest its file once the schedule has accepted the rest's start, and the process goes on when it has found the file. If the
/// kernel has it wait until then (`readers_wait`), such a history is one of these, and what the rest finds is what the file's writers
/// wrote (`withheld`).
///
/// What tasks leave stands for what the plan's commands leave if each task stands for its command (`plans`): that is a premise of the tools.
pub fn parts()
    ensures within { HeadsAreWithin }
    ensures hold { PartsHold }
    ensures agree { PartsAgree }
    ensures histories { HistoriesLeaveTasks }
    ensures withheld { WithheldFilesAreWritten }
    ensures plans { TasksStandForPlans }
{}

/// What tasks leave isn't always what commands leave if a task doesn't stand for its command (`standing`), or if files differ before
/// (`likeness`). `schedule_orders::laws::products_need` has the other premises of [`parts`].
pub fn parts_need()
    ensures standing { WithoutStanding → ⊥ }
    ensures likeness { WithoutLikeness → ⊥ }
{}
