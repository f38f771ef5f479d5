//! A schedule: what the commands of a graph need, and what has become of each.

ghost use Rattle.std.specs.Prelude.{◌≡◌, ◌<◌, Some, None, true, length, map, nat_lt, vec_items, IfOk, MatchResult, IfSome};
ghost use Rattle.schedules.specs.States.{is_waiting, is_running, is_bad, state_at, ended_as, limit};
ghost use Rattle.schedules.specs.declared.command.CommandState.TheVariants.{Running, Succeeded};
ghost use Rattle.schedules.specs.Graphs as graphs;
ghost use Rattle.schedules.specs.Scheduled as spec;
ghost use Rattle.schedules.specs.Told as telling;

use crate::command::{
    AfterFailure, BadGraph, CommandState, Outcome, Refused, Told, is_running, is_waiting, lowered,
};
use crate::graph::{counts_of, dependents_of, first_tree, graph_fault};
use crate::ready::{hold_back, release};
use crate::telling::told;
use crate::tournament::enter;
use std::alloc::{AllocError, Global};
use std::marker::Model;

/// Which commands of a graph may start next, and what has become of each.
///
/// Commands are numbered from 0, each after all that it needs. Several plans are one graph if the numbers of each begin
/// where those of the one before it end.
#[derive(Drop)]
pub struct Schedule {
    needs: Vec<Vec<usize>>,
    // The commands that need each command, the other way round.
    dependents: Vec<Vec<usize>>,
    priorities: Vec<usize>,
    states: Vec<CommandState>,
    // How many of its needs have not succeeded, for each command.
    waiting: Vec<usize>,
    // The tournament of the commands that may start.
    tree: Vec<usize>,
    slots: usize,
    running: usize,
    // The number below which commands may start.
    limit: usize,
    after_failure: AfterFailure,
}

impl Model for Schedule {
    ghost use Rattle.schedules.specs.Scheduled.{Scheduled};

    ghost Value = { Scheduled };

    ghost use Rattle.schedules.specs.Kept.{scheduled, IsKept};

    ghost view = { scheduled };

    ghost invariant = { IsKept };
}

impl Schedule {
    /// A schedule before its first command.
    ///
    /// For each command, `needs` has the numbers of the commands that have to succeed before it starts: only smaller numbers
    /// than its own, else the error is [`BadGraph::NeedsLater`]. `priorities` has one number for each command, of any size
    /// ([`BadGraph::Priorities`]): of those that may start, the one with the greatest number is next. At most `slots` commands
    /// run at once ([`BadGraph::NoSlot`] if that is 0).
    pub fn new(
        alloc: Global,
        needs: Vec<Vec<usize>>,
        priorities: Vec<usize>,
        slots: usize,
        after_failure: AfterFailure,
    ) -> Result<Schedule, BadGraph>
        ensures { MatchResult result
            (λ schedule. (graphs.graph_fault (map vec_items needs.items) (length priorities.items) slots ≡ None)
            × (schedule ≡ graphs.fresh (map vec_items needs.items) priorities.items slots after_failure))
            (λ bad. graphs.UnlessMemory bad (graphs.graph_fault (map vec_items needs.items) (length priorities.items) slots ≡ Some bad)) }
    {
        if let Some(bad) = graph_fault(&needs, priorities.len(), slots) {
            return Err(bad);
        }
        Ok(Schedule::without_fault(alloc, needs, priorities, slots, after_failure)?)
    }

    // The same, of a graph with which nothing is wrong.
    fn without_fault(
        alloc: Global,
        needs: Vec<Vec<usize>>,
        priorities: Vec<usize>,
        slots: usize,
        after_failure: AfterFailure,
    ) -> Result<Schedule, AllocError>
        requires { graphs.graph_fault (map vec_items needs.items) (length priorities.items) slots ≡ None }
        ensures { IfOk result (λ schedule. schedule ≡ graphs.fresh (map vec_items needs.items) priorities.items slots after_failure) }
    {
        let count = needs.len();
        let dependents = dependents_of(alloc, &needs)?;
        let waiting = counts_of(alloc, &needs)?;
        let tree = first_tree(alloc, &priorities, &waiting)?;
        let mut states = Vec::new(alloc);
        states.resize(count, CommandState::NotStarted)?;
        Ok(Schedule {
            needs,
            dependents,
            priorities,
            states,
            waiting,
            tree,
            slots,
            running: 0,
            limit: count,
            after_failure,
        })
    }

    /// How many commands there are.
    pub fn len(&self) -> usize
        ensures { result ≡ length self.now.states }
    {
        self.states.len()
    }

    /// How many commands run.
    pub fn running(&self) -> usize
        ensures { result ≡ spec.running self.now.states }
    {
        self.running
    }

    /// What has become of a command, if there is one with this number.
    pub fn state(&self, command: usize) -> Option<CommandState>
        ensures { result ≡ spec.state_of self.now command }
    {
        self.states.get(command).copied()
    }

    /// The command that may start next: of those that haven't started, whose needs have all succeeded and that no failure
    /// holds back, the one with the greatest priority, and of equal ones the first. There is none if as many run as may.
    pub fn next(&self) -> Option<usize>
        ensures answer { result ≡ spec.next self.now }
        ensures may_start { IfSome result (λ command. spec.start_refusal self.now command ≡ None) }
    {
        if self.running < self.slots && self.tree.len() > 1 {
            let winner = self.tree[1];
            if winner < self.priorities.len() {
                Some(winner)
            } else {
                None
            }
        } else {
            None
        }
    }

    /// Whether nothing runs and nothing may start.
    pub fn over(&self) -> bool
        ensures { result ≡ spec.is_over self.now }
    {
        self.running == 0 && self.next().is_none()
    }

    // Whether all that a command needs have succeeded.
    fn is_met(&self, command: usize) -> bool
        requires { command < length self.now.states }
        ensures { result ≡ spec.are_met self.now.needs self.now.states command }
    {
        self.waiting[command] == 0
    }

    // Why a command can't start now.
    fn start_refusal(&self, command: usize) -> Option<Refused>
        ensures { result ≡ spec.start_refusal self.now command }
    {
        if command >= self.len() {
            Some(Refused::NoSuchCommand)
        } else if !is_waiting(self.states[command]) {
            Some(Refused::StartedBefore)
        } else if !self.is_met(command) {
            Some(Refused::NeedsUnmet)
        } else if command >= self.limit {
            Some(Refused::HeldBack)
        } else if self.running >= self.slots {
            Some(Refused::NoSlot)
        } else {
            None
        }
    }

    // Why a command can't end now.
    fn end_refusal(&self, command: usize) -> Option<Refused>
        ensures { result ≡ spec.end_refusal self.now command }
    {
        if command >= self.len() {
            Some(Refused::NoSuchCommand)
        } else if !is_running(self.states[command]) {
            Some(Refused::NotRunning)
        } else {
            None
        }
    }

    // Notes that a command which may start runs now.
    fn begin(&mut self, command: usize)
        requires { spec.start_refusal self.old command ≡ None }
        ensures { self.new ≡ spec.with_state self.old command Running }
    {
        self.states[command] = CommandState::Running;
        self.running += 1;
        let nobody = self.priorities.len();
        enter(&mut self.tree, &self.priorities, command, nobody);
    }

    // Notes that a command which runs has succeeded.
    fn succeed(&mut self, command: usize)
        requires { spec.end_refusal self.old command ≡ None }
        ensures { self.new ≡ spec.with_state self.old command Succeeded }
    {
        self.states[command] = CommandState::Succeeded;
        self.running -= 1;
        release(
            &self.dependents[command],
            &self.states,
            self.limit,
            &self.priorities,
            &mut self.waiting,
            &mut self.tree,
        );
    }

    // Notes that a command which runs has ended without success.
    fn fail(&mut self, command: usize, state: CommandState)
        requires runs { spec.end_refusal self.old command ≡ None }
        requires bad { is_bad state ≡ true }
        ensures { self.new ≡ spec.with_state self.old command state }
    {
        let limit = lowered(self.after_failure, self.limit, command);
        hold_back(&mut self.tree, &self.priorities, limit, self.limit);
        self.states[command] = state;
        self.running -= 1;
        self.limit = limit;
    }

    /// Notes that a command has started. If it may not start now, it's refused, and nothing changes.
    pub fn started(&mut self, command: usize) -> Result<(), Refused>
        ensures { MatchResult result
            (λ _. (spec.start_refusal self.old command ≡ None) × (self.new ≡ spec.with_state self.old command Running))
            (λ refused. (spec.start_refusal self.old command ≡ Some refused) × (self.new ≡ self.old)) }
    {
        if let Some(refused) = self.start_refusal(command) {
            return Err(refused);
        }
        self.begin(command);
        Ok(())
    }

    /// Notes that a command has ended. If it doesn't run, that's refused, and nothing changes.
    pub fn ended(&mut self, command: usize, outcome: Outcome) -> Result<(), Refused>
        ensures { MatchResult result
            (λ _. (spec.end_refusal self.old command ≡ None) × (self.new ≡ spec.with_state self.old command (ended_as outcome)))
            (λ refused. (spec.end_refusal self.old command ≡ Some refused) × (self.new ≡ self.old)) }
    {
        if let Some(refused) = self.end_refusal(command) {
            return Err(refused);
        }
        match outcome {
            Outcome::Success => self.succeed(command),
            Outcome::Failure => self.fail(command, CommandState::Failed),
            Outcome::Cancelled => self.fail(command, CommandState::Cancelled),
        }
        Ok(())
    }

    /// The command that may start next, and notes that it has started.
    pub fn start_next(&mut self) -> Option<usize>
        ensures answer { result ≡ spec.next self.old }
        ensures started { self.new ≡ spec.after_next self.old }
    {
        let next = self.next();
        if let Some(command) = next {
            self.begin(command);
        }
        next
    }

    /// Which outputs of a plan, or of what hasn't been printed of it, may be printed now, in this order.
    ///
    /// Its commands are those with the numbers from `first` up to `end`, without `end` itself; all before `first` have been
    /// printed, and succeeded. The outputs of those up to the answer's `end` may be printed: of commands that succeeded, and at last
    /// of one that failed, if the status says so. Go on from there when more has ended.
    pub fn told(&self, first: usize, end: usize) -> Told
        ensures { result ≡ telling.told self.now.states first end }
    {
        told(&self.states, first, end)
    }
}
