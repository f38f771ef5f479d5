//! Plans of CUDA compilations: the command lines of the CUDA tools, and what one `nvcc` call runs.
//!
//! All that a caller needs is named here: the crates below are handed on under these names.
#![tactic(auto)]

pub mod dry_run;
pub mod execution;
pub mod laws;
pub mod outcome;
pub mod runner;
pub mod selection;
pub mod shadow;

pub use command_groups as plan;
pub use compilers::{arguments, command, compiler, items, outputs, table, views};
pub use device_lines::{cicc, cudafe, ptxas};
pub use execution::run_plan;
pub use host_lines::{gcc, nvcc, nvhpc};
pub use texts::{
    bytes, decimal, extension, fault, language, shell, status, text, variables, words,
};
