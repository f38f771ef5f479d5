//! Plans in each format.
#![tactic(auto)]

mod text;

pub use text::{plan_file, plan_text};
