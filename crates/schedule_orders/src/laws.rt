//! Laws of what is left in files by commands that a schedule orders.

ghost use Rattle.schedule_orders.specs.Examples.{OfOverlapping, OfStopped, OfOthers, OfWithheldFiles, OfNeeds, OfPlans};
ghost use Rattle.schedule_orders.specs.Needed as without;
ghost use Rattle.schedule_orders.specs.Withheld.{MayHappen, GivesWhatWasWritten};
ghost use Rattle.schedule_orders.specs.Plans.{PlanHolds, OthersSuffice, PlansHold};
ghost use Rattle.schedule_orders.specs.Products.{EachAfterItsNeeds, BeginsAnOrder, LeavesTheirs, LeavesTheProducts};

/// Whatever order and overlap a schedule allows, the files hold what they hold after the commands one after the other.
///
/// A history is what happens while a caller follows a schedule: the caller notes events, which the schedule accepts, and parts of
/// commands run, each while its command runs. The caller notes a command's success when all its parts have run. A part is any function
/// from what files hold to what they hold afterwards. There are two premises. Commands of which either writes a file that the other touches are ordered, by needs or by
/// needs of needs (`Hold`). And each part stays within its command's record, as in `command_files::laws::overlaps`.
///
/// Then the parts that ran are some of all, each once and after all that it needs (`ordered`), and a beginning of an order of all
/// (`begins`). They leave in every file what they leave one command after the other (`theirs`). If all commands have succeeded,
/// every file holds what it holds after the graph's own order, and each part has read the same (`all`).
pub fn products()
    ensures ordered { EachAfterItsNeeds }
    ensures begins { BeginsAnOrder }
    ensures theirs { LeavesTheirs }
    ensures all { LeavesTheProducts }
{}

/// A command may begin before a file is there that it reads late: as another command, its head, which needs less and doesn't touch the file.
///
/// In a history of this kind the caller gives a command its file once the schedule has accepted the command's start, and the command's parts
/// run once its process has found the file. There is one premise more than in `products`, about the kernel: a file that is withheld, or a pipe, is
/// found only once it is given (`readers_wait`).
///
/// Then each part runs while its command runs, so all that `products` says holds of this history (`happens`). A command is given its file
/// after all that it needs has run, and each file of its record holds then what it holds in the graph's own order: what its writers
/// wrote (`gives`).
pub fn withheld()
    ensures happens { MayHappen }
    ensures gives { GivesWhatWasWritten }
{}

/// No premise of `products` and `withheld` can be left out (`command_files::laws::orders_need` has the other one). What is left isn't always
/// the same if commands don't stay within their records (`staying`), if some haven't succeeded (`success`), if parts don't run as the
/// schedule is told (`happening`), if they are of no command (`commands`), or if an order leaves commands out (`order`). A
/// part may run before its command if the caller does what it likes (`acting`), or the kernel lets readers go on (`waiting`).
pub fn products_need()
    ensures staying { without.WithoutStayingWithin → ⊥ }
    ensures success { without.WithoutSuccess → ⊥ }
    ensures happening { without.WithoutHappening → ⊥ }
    ensures commands { without.WithoutCommands → ⊥ }
    ensures order { without.WithoutOrder → ⊥ }
    ensures acting { without.WithoutActing → ⊥ }
    ensures waiting { without.WithoutWaiting → ⊥ }
{}

/// `products` holds of a plan, and of several plans in one graph.
///
/// The needs of a plan order its commands as `products` asks (`one`), and it's enough that commands that aren't final stay within
/// their records (`others`): final ones may read and change any file. The needs of several plans (`schedules::joined_needs`) do so
/// if no command writes a file that a command of another plan touches (`several`). There all commands have to stay within their records.
pub fn plans()
    ensures one { PlanHolds }
    ensures others { OthersSuffice }
    ensures several { PlansHold }
{}

/// The definitions give these answers for small histories and graphs.
pub fn worked_histories()
    ensures overlapping { OfOverlapping }
    ensures stopped { OfStopped }
    ensures others { OfOthers }
    ensures withheld { OfWithheldFiles }
    ensures needs { OfNeeds }
    ensures plans { OfPlans }
{}
