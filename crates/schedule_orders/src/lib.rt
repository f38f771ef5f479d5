//! Laws of what is left in files by commands that a schedule orders.
#![tactic(auto)]

pub mod laws;
