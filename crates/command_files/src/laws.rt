//! Laws of the orders in which commands may run.

ghost use Rattle.command_files.specs.Files.{must_follow, but_reads_written, but_writes_read, but_writes_written};
ghost use Rattle.command_files.specs.Order.{OrdersAgree, RunsAgree, NeedsHold, OwnOrderIsOne};
ghost use Rattle.command_files.specs.Overlap.{OverlapsAgree};
ghost use Rattle.command_files.specs.PlanNeeds.{NeedsOfFatbin, NeedsOfObject};
ghost use Rattle.command_files.specs.PlanOrders.{PlanOrdersAgree, PlanRunsAgree, PlanOrderIsOne, FinalHasOnePlace, RecordsSuffice};

/// Commands may run in every order that puts each after all the commands that it needs.
///
/// A command is any function from what files hold to what they hold afterwards. There is one premise (`AllStayWithin`): a
/// command changes only files that its record says it writes, and looks only at files of its record, at files that no command
/// writes, and at those whose writers need it or are needed by it. A command that needs all before it, and that all behind it
/// need, may do anything. If each command needs at least the earlier ones that write a file which it reads or writes, or read
/// a file which it writes, every such order leaves the same in every file as the plan's own order, and every command reads
/// the same (`agree`). A run that stops early leaves what its commands leave in the plan's own order (`runs`). The needs that
/// are computed by a test hold it (`needs_hold`), and by them the plan's own order is such an order (`own_order`).
pub fn orders()
    ensures agree { OrdersAgree must_follow }
    ensures runs { RunsAgree must_follow }
    ensures needs_hold { NeedsHold }
    ensures own_order { OwnOrderIsOne }
{}

/// Commands may also run at the same time.
///
/// A command is cut into parts, which run one after the other, and parts of other commands may run between them. A part needs
/// the earlier parts of its command and all parts of the commands that its command needs. Then every such run leaves the same
/// in every file as all parts in the plan's own order, one command after the other, and every part reads the same. The
/// premises are those of [`orders`], of each part with its command's record. It is so of runs that stop early too.
pub fn overlaps()
    ensures { OverlapsAgree must_follow }
{}

/// None of the three kinds of needs can be left out. Orders don't all agree if a command doesn't need the earlier ones that
/// write what it reads (`read_after_write`), that read what it writes (`write_after_read`), or that write what it writes
/// (`write_after_write`).
pub fn orders_need()
    ensures read_after_write { OrdersAgree but_reads_written → ⊥ }
    ensures write_after_read { OrdersAgree but_writes_read → ⊥ }
    ensures write_after_write { OrdersAgree but_writes_written → ⊥ }
{}

/// The commands of a plan may run in every order that puts each after all the commands that it needs.
///
/// There is one premise, of the commands that aren't final: each stays within its record (`OthersStayWithin`). It changes
/// only files that it writes, and looks only at files of its record, at files that no command of the plan writes, and at
/// those whose writers need it or are needed by it. Final commands may do anything. Then each order by the needs of the plan
/// (`needs`) leaves the same in every file as the plan's own order, and every command reads the same (`agree`). A run that
/// stops early leaves what its commands leave in the plan's own order (`runs`). The plan's own order is such an order
/// (`own_order`). A final command needs all commands before it, and all behind it need it (`last`). If `keeps_orders` says
/// so of a plan, the premise is needed only of the commands with a complete record and of preprocess steps (`recorded`).
pub fn plan_orders()
    ensures agree { PlanOrdersAgree }
    ensures runs { PlanRunsAgree }
    ensures own_order { PlanOrderIsOne }
    ensures last { FinalHasOnePlace }
    ensures recorded { RecordsSuffice }
{}

/// The definitions give these needs for two real plans.
pub fn worked_needs()
    ensures fatbin { NeedsOfFatbin }
    ensures object { NeedsOfObject }
{}
