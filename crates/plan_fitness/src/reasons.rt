//! The reasons why a plan can't be run.

/// A directory of a plan.
#[derive(Clone, Copy, Debug, PartialEq)]
pub enum Directory {
    /// The working directory of the call.
    Working,
    /// The directory for temporary files.
    Temporary,
}

/// Whether a plan can be run, or the first reason why it can't.
#[derive(Clone, Copy, Debug, PartialEq)]
pub enum Fitness {
    /// It can.
    Fit,
    /// A directory's path isn't absolute, or a part of it is empty, `.` or `..`: then names can't be made canonical.
    OddDirectory(Directory),
    /// It has no command.
    NoCommand,
    /// It dropped a command of the call.
    Dropped,
    /// A command reads a file in the directory for temporary files that no command before it writes: the command's number in plan order,
    /// and the file's place among those that it reads, both from 0.
    Unwritten(usize, usize),
    /// No command reads the call's source: the dry runs are of another call.
    SourceUnread,
    /// No command writes the call's product: the dry runs are of another call.
    ProductUnwritten,
}
