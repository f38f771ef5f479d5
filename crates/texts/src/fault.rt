//! What can go wrong with a line, a plan or a run of it.

ghost use Rattle.std.specs.Prelude.{◌≡◌, IfOk, string_bytes, Some};
ghost use Rattle.texts.specs.declared.fault.Fault.TheVariants.{Memory};
ghost use Rattle.texts.specs.Fault.{message_of};

use crate::language::Language;
use crate::status::Output;
use crate::text::Text;
use std::alloc::{AllocError, AllocFailed, Global};
use std::error::Error;
use std::fmt;

/// A refusal. A run is 1 or 2, the first or the second dry run, and its lines are numbered from 0.
#[derive(Debug, PartialEq, Drop)]
pub enum Fault {
    /// A line of a dry run isn't UTF-8.
    NotUtf8 {
        /// The dry run.
        run: usize,
        /// The line's number.
        line: usize,
    },
    /// A command's line, expanded, has an open quote or ends in a backslash.
    BadShell {
        /// The dry run.
        run: usize,
        /// The line's number.
        line: usize,
    },
    /// A command's line, expanded, holds no word.
    EmptyCommand {
        /// The dry run.
        run: usize,
        /// The line's number.
        line: usize,
    },
    /// No line before a command's line sets `PATH`.
    NoPath {
        /// The dry run.
        run: usize,
        /// The line's number.
        line: usize,
    },
    /// The look-up has no such program.
    NotFound {
        /// The program's name, as the command has it.
        program: Text,
    },
    /// Arguments that are to be written have no output `obj`.
    MissingOutput {
        /// The arguments' language.
        language: Language,
    },
    /// The path of the output `obj` has no file name.
    NoFileName,
    /// An option that names a keep directory is the last word.
    KeepDirValue,
    /// `--threads` is the last word.
    ThreadsValue,
    /// The tool can't preprocess the language: what it says of it.
    NoPreprocess(Text),
    /// A command failed: the output that was gathered.
    Process(Output),
    /// The runner says that it failed, and why.
    Runner(Text),
    /// Opening or reading a file failed, or it has no end.
    Read,
    /// An allocation failed.
    Memory,
    /// A list of suffixes of generated files breaks a rule: see `Suffixes`.
    BadSuffixes,
}

impl fmt::Display for Fault {
    ghost output = { λ f. Some (message_of f) };

    fn fmt<W: fmt::Write>(&self, f: &mut fmt::Formatter<W>) -> fmt::Result {
        match self {
            Fault::NotUtf8 { run, line } => write!(f, "run {run} line {line}: not UTF-8"),
            Fault::BadShell { .. } => f.write_str("Could not parse shell line"),
            Fault::EmptyCommand { .. } => f.write_str("Could not split shell line"),
            Fault::NoPath { run, line } => write!(f, "run {run} line {line}: no PATH"),
            Fault::NotFound { program } => write!(f, "{program}: not found"),
            Fault::MissingOutput { language } => {
                write!(f, "Missing \"{}\" file output", language.as_str())
            }
            Fault::NoFileName => f.write_str("output has no file name"),
            Fault::KeepDirValue => f.write_str("keep directory without a value"),
            Fault::ThreadsValue => f.write_str("--threads without a value"),
            Fault::NoPreprocess(text) => f.write_str(text.as_str()),
            Fault::Process(_) => f.write_str("process failed"),
            Fault::Runner(text) => f.write_str(text.as_str()),
            Fault::Read => f.write_str("cannot read input"),
            Fault::Memory => f.write_str("out of memory"),
            Fault::BadSuffixes => f.write_str("bad generated suffixes"),
        }
    }
}

impl Error for Fault {}

impl From<AllocError> for Fault {
    ghost from_gives = { λ _ e. e ≡ Memory };

    fn from(_error: AllocError) -> Fault {
        Fault::Memory
    }
}

impl<T: Drop> From<AllocFailed<T>> for Fault {
    ghost from_gives = { λ _ e. e ≡ Memory };

    fn from(_error: AllocFailed<T>) -> Fault {
        Fault::Memory
    }
}

impl Fault {
    /// The fault's text, as `Display` writes it.
    pub fn message(&self, alloc: Global) -> Result<String, AllocError>
        ensures { IfOk result (λ text. string_bytes text ≡ message_of self.now) }
    {
        self.to_string(alloc)
    }

    /// An equal fault, in memory of its own.
    pub fn try_clone(&self, alloc: Global) -> Result<Fault, AllocError>
        ensures { IfOk result (λ f. f ≡ self.now) }
    {
        Ok(match self {
            &Fault::NotUtf8 { run, line } => Fault::NotUtf8 { run, line },
            &Fault::BadShell { run, line } => Fault::BadShell { run, line },
            &Fault::EmptyCommand { run, line } => Fault::EmptyCommand { run, line },
            &Fault::NoPath { run, line } => Fault::NoPath { run, line },
            Fault::NotFound { program } => Fault::NotFound {
                program: program.try_clone(alloc)?,
            },
            &Fault::MissingOutput { language } => Fault::MissingOutput { language },
            Fault::NoFileName => Fault::NoFileName,
            Fault::KeepDirValue => Fault::KeepDirValue,
            Fault::ThreadsValue => Fault::ThreadsValue,
            Fault::NoPreprocess(text) => Fault::NoPreprocess(text.try_clone(alloc)?),
            Fault::Process(output) => Fault::Process(output.try_clone(alloc)?),
            Fault::Runner(text) => Fault::Runner(text.try_clone(alloc)?),
            Fault::Read => Fault::Read,
            Fault::Memory => Fault::Memory,
            Fault::BadSuffixes => Fault::BadSuffixes,
        })
    }
}
