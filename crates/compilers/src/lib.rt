//! What the layers above share: option tables, the items that the words of a line are read as, the arguments, outputs and command of a
//! compiler, the trait of compilers, the commands of a dry run, and plans.
#![tactic(auto)]

pub mod arguments;
mod calls;
pub mod command;
pub mod compiler;
pub mod dry_run;
pub mod dry_run_laws;
pub mod items;
pub mod laws;
pub mod outputs;
pub mod plan_laws;
pub mod plans;
pub mod table;
pub mod views;

pub use calls::{DirectoryCall, NvccCall};
