//! The words of shell commands: splits a text into words, and quotes words for a shell.

mod quoting;
mod span;
mod splitting;

pub use quoting::{push_quoted, quote};
pub use splitting::split;
