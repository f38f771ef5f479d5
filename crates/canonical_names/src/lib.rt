//! Canonical names for the files that nvcc generates. With them, a plan doesn't depend on what nvcc calls these files.
//! Beside them, which directories a plan may be made for: those whose path has one text only.
#![tactic(auto)]

mod clean;
mod directory;
mod further_suffixes;
pub mod laws;
mod references;
mod remap;
mod renames;
mod suffixes;
mod words;

pub use clean::is_clean;
pub use directory::is_plain;
pub use further_suffixes::{all_suffixes, all_texts};
pub use remap::{remap_commands, remap_generated_filenames};
pub use renames::Renames;
pub use suffixes::{Suffixes, is_suffix};
pub use words::begins_with_dash;
