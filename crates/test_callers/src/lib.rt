//! Callers of the library, each with its contract: a cicc line for a cache, the dry runs of an nvcc line and the commands
//! that it would start, shell words. `test_failures` calls each once.
#![tactic(auto)]

pub mod cache;
pub mod nvcc_line;
pub mod runs;
pub mod words;
