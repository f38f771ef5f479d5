//! What is known of commands that ran.

use texts::variables::Variables;
use texts::words::Words;

/// A command that ran. Files are pairs of a path and the digest of what is in it, in the order in which the command read or made them.
#[derive(Debug, Drop)]
pub struct Ran {
    /// Its words, the program's name first.
    pub words: Words,
    /// The variables that count.
    pub variables: Variables,
    /// The programs that it consists of.
    pub tools: Variables,
    /// The files that it read.
    pub inputs: Variables,
    /// The folders whose names may be in what it made: where it ran, and that of temporary files.
    pub folders: Words,
    /// The files that it made.
    pub outputs: Variables,
}

/// A call that was made.
#[derive(Debug, Drop)]
pub struct Record {
    /// Its commands: each behind those whose files it read.
    pub commands: Vec<Ran>,
    /// The files that it was asked for, as those of a command.
    pub products: Variables,
}
