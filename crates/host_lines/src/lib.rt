//! Compilers of host code. `gcc` reads lines over this project's profile of gcc's options, which nvcc and nvhpc have too. `nvcc` also makes
//! the two commands whose dry runs print what a call runs.
#![tactic(auto)]

pub mod gcc;
pub mod laws;
pub mod nvcc;
pub mod nvhpc;
mod preprocess;
