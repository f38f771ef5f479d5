//! The files that the commands of a plan read and write, and which command needs which because of them.
#![tactic(auto)]

mod files;
pub mod laws;
mod needed;
mod steps;
mod touched;

pub use files::{CommandFiles, files_of};
pub use needed::{CommandNeeds, FilesAndNeeds, files_and_needs, keeps_orders, needs, needs_role};
pub use steps::{Role, Step, files_of_plan, has_word, preprocesses, step_of};
