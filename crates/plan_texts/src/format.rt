//! The formats of plans.

/// What a plan is written as.
#[derive(Clone, Copy, Debug)]
pub enum Format {
    /// A script for a POSIX shell.
    Shell,
    /// A Ninja file.
    Ninja,
    /// JSON, with each command's words, variables, files and needs.
    Json,
    /// Lines for people.
    Text,
}
