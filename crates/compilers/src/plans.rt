//! Plans: the commands that one `nvcc` call runs, in groups, those that it doesn't run, and the lines that they come from.

mod listed;
mod origins;
mod plan;
mod program;

pub use listed::ListedCommand;
pub use origins::{Origin, Origins, PlanWithOrigins};
pub use plan::{Dropped, DroppedCommands, Groups, NvccGeneratedSubcommand, Plan, Reason};
pub use program::Program;
