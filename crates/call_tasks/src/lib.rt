//! What a driver starts of a plan: the words, the folder, the record and the needs of each task, and of the part that may begin before
//! all needs have ended.
//!
//! [`tasks_of`] gives the tasks of a plan as [`Asks`] says: nvcc's tools run in the caller's directory, the last host compile runs in two
//! halves, a task makes the dependency file. [`needs_of`] and [`head_needs_of`] say what each has to wait for. A task with a [`Head`] is in
//! two parts, each with a record and needs of its own.
#![tactic(auto)]

mod halves;
mod heads;
pub mod laws;
mod needs;
mod task;
mod tasks;

pub use needs::{head_needs_of, needs_of};
pub use task::{Asks, Head, Task, Wait};
pub use tasks::{Tasks, tasks_of};
