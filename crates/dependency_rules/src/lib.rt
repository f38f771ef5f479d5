//! The rule of a dependency file, from what a plan's preprocessors have written. nvcc makes it in the same way, but would preprocess again.
//!
//! A rule is made only if each version of nvcc writes the same. Otherwise nvcc has to make it.
#![tactic(auto)]

mod asking;
mod files;
mod orders;
mod rules;
mod warnings;

pub use asking::{Rule, rule_asked};
pub use files::file_listed;
pub use orders::order_of;
pub use rules::rule_text;
pub use warnings::without_warnings;
