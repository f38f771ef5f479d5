//! nvcc's own reading of its command line, a normal form of it that the reader of `cuda_plans` reads as nvcc does, and what to run for
//! it: its dry runs, the command that writes its dependency file, and what else the line says.
//!
//! That reader takes a line apart as sccache 0.19.0 does, which isn't always as nvcc does: it takes `-odir=x` for an output,
//! `-split-compile 4` for an option and an input. A call that has no normal form goes to nvcc unchanged.
#![tactic(auto)]

mod answer;
mod asked;
mod directory;
mod hazard;
mod keeping;
pub mod laws;
mod options;
mod outline;
mod reason;
mod settling;
mod tool_words;
mod verdict;
mod words;

pub use answer::{Answer, read_call};
pub use asked::Asked;
pub use directory::directory_name;
pub use options::{Purpose, table};
pub use outline::Outline;
pub use reason::Reason;
pub use settling::{Call, extension_of_phase, has_extension};
pub use verdict::{Verdict, file_names, normalize, read_line};
