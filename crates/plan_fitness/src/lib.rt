//! Whether a plan can be run: whether it has all commands of its call, and each of these what it reads.
#![tactic(auto)]

mod files;
mod plan_to_run;
mod reasons;
mod written;

pub use plan_to_run::{PlanToRun, fitness};
pub use reasons::{Directory, Fitness};
