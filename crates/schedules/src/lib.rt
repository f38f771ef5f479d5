//! Schedules: which command may start next, what a failure means, and which outputs may be printed.
//!
//! A [`Schedule`] starts no process. You say what happened, and it says what to do next.
#![tactic(auto)]

mod chains;
mod command;
mod graph;
mod kinds;
pub mod laws;
mod ready;
mod schedule;
mod telling;
mod tournament;

pub use chains::chain_weights;
pub use command::{AfterFailure, BadGraph, CommandState, Outcome, PlanStatus, Refused, Told};
pub use graph::joined_needs;
pub use kinds::{CommandKind, usual_weight};
pub use schedule::Schedule;
pub use telling::told;
