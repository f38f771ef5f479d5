//! The command lines of the tools that compile device code: cicc, cudafe++ and ptxas.
#![tactic(auto)]

pub mod cicc;
pub mod cudafe;
mod input;
pub mod laws;
mod options;
pub mod ptxas;
mod reader;
mod tools;

pub use reader::LineFiles;
pub use tools::{cicc_line_files, cudafe_line_files, ptxas_line_files};
