//! The commands of a plan as they run in the call's own directory, where the words that a user wrote mean what they mean to nvcc.
//!
//! A plan runs nvcc's tools in the directory of generated files, whose names its words give without a directory. A tool writes the names
//! that it gets, and its own directory, into what it makes and says. So here it runs where nvcc runs it, and generated files have whole
//! paths.
#![tactic(auto)]

mod command;
pub mod laws;

pub use command::{are_same, placed_command};
