//! A task of a call, and what the caller asks for.

use command_files::Step;
use compilers::plans::NvccGeneratedSubcommand;
use texts::text::Text;
use texts::words::Words;

/// How a plan is to be run.
#[derive(Drop)]
pub struct Asks {
    /// The directory of generated files.
    pub tmp: Text,
    /// The caller's directory.
    pub cwd: Text,
    /// A directory for files that aren't the plan's.
    pub own: Text,
    /// Whether nvcc's tools run in the caller's directory.
    pub in_place: bool,
    /// Whether the last host compile may run in two halves.
    pub halves: bool,
    /// Whether the first of these may begin before the stub file is there that it reads late.
    pub pipes: bool,
    /// Whether cicc may begin before the module id is there.
    pub heads: bool,
    /// Whether preprocessors wait for each other only if they share a file.
    pub frees: bool,
    /// What makes the dependency file, if there is one: it has its name behind `-MF`.
    pub rule: Option<NvccGeneratedSubcommand>,
}

/// How a task waits for the file that it reads late.
#[derive(Clone, Copy, Debug)]
pub enum Wait {
    /// It opens the file by a name of its own, and goes on once the content is there.
    Opening,
    /// It always reads the file by the other name, through a pipe if it begins early.
    Reading,
}

/// How a task begins before a file is there that it reads late.
#[derive(Drop)]
pub struct Head {
    /// The words with which it begins.
    pub args: Words,
    /// What it touches before it reads the file, as others wait for it and it waits for others.
    pub step: Step,
    /// The file.
    pub file: Text,
    /// The name by which it reads the file.
    pub withheld: Text,
    /// How it waits for the file.
    pub wait: Wait,
}

/// What is started of a call: a command of its plan, a half of one, or what makes the dependency file.
#[derive(Drop)]
pub struct Task {
    /// What runs: words, variables, directory.
    pub command: NvccGeneratedSubcommand,
    /// The command's record and role, by which others wait for it and it waits for others.
    pub step: Step,
    /// Whether it makes the dependency file.
    pub is_rule: bool,
    /// How it begins early, if it may.
    pub head: Option<Head>,
}
