//! The look-up of the programs that a dry run names.

ghost use Rattle.std.specs.Prelude.{◌≡◌, IfOk, string_bytes, ℕ, List, Option, option_map};
ghost use Rattle.texts.specs.Fault.{UnlessMemory};
ghost use Rattle.dry_runs.specs.FirstDir.{first_dir};
ghost use Rattle.dry_runs.specs.Parsed as spec;
ghost use Rattle.dry_runs.specs.Reading.{found_seen, found_or_fault};

use crate::environment::behind_name;
use std::alloc::{AllocError, Global};
use texts::fault::Fault;
use texts::text::{Text, is_bare, join};

/// A look-up of programs.
pub trait Which {
    /// What it finds, by the program's name, the value of `PATH` and the working directory.
    ghost answer: { Self → List ℕ → List ℕ → List ℕ → Option (List ℕ) };

    /// The path of the program `exe`, or `None` if there is none. `path` is the value of `PATH`, and
    /// `cwd` the working directory. The only error is a failed allocation.
    fn found(
        &self,
        alloc: Global,
        exe: &str,
        path: &str,
        cwd: &str,
    ) -> Result<Option<String>, AllocError>
        ensures { IfOk result (λ found. option_map string_bytes found ≡ answer self.now exe.now path.now cwd.now) };
}

// The path of a program, by the value of `PATH` and the working directory.
pub(crate) fn found_program<W: Which>(
    alloc: Global,
    which: &W,
    program: &str,
    path: &str,
    cwd: &str,
) -> Result<String, Fault>
    ensures { UnlessMemory (found_seen result) (found_or_fault program.now (W.answer which.now program.now path.now cwd.now)) }
{
    match which.found(alloc, program, path, cwd)? {
        None => Err(Fault::NotFound {
            program: Text::copy_of(alloc, program)?,
        }),
        Some(found) => Ok(found),
    }
}

/// A look-up that reads no disk. It joins a name with a `/` to the working directory, and expects any
/// other program in the first folder of `PATH`, unless that is empty.
#[derive(Clone, Copy, Debug)]
pub struct FirstDir;

impl Which for FirstDir {
    ghost answer = { λ _ exe path cwd. first_dir exe path cwd };

    fn found(
        &self,
        alloc: Global,
        exe: &str,
        path: &str,
        cwd: &str,
    ) -> Result<Option<String>, AllocError> {
        if !is_bare(exe) {
            return Ok(Some(join(alloc, cwd, exe)?));
        }
        let folder = match path.split_once(':') {
            None => path,
            Some((folder, _)) => folder,
        };
        if folder.is_empty() {
            return Ok(None);
        }
        Ok(Some(join(alloc, folder, exe)?))
    }
}

// A look-up that answers its question: the value of `PATH`, and the program's name behind it. A command that is parsed
// with it counts the value of `PATH`, which looking its program up in folders holds.
#[derive(Clone, Copy)]
pub(crate) struct Question;

impl Which for Question {
    ghost use Rattle.dry_runs.specs.Parsed.{question_of};

    ghost answer = { λ _ exe path cwd. question_of exe path cwd };

    fn found(
        &self,
        alloc: Global,
        exe: &str,
        path: &str,
        _cwd: &str,
    ) -> Result<Option<String>, AllocError> {
        let mut text = String::with_capacity(alloc, path.len().saturating_add(exe.len()))?;
        text.push_str(path)?;
        text.push_str(exe)?;
        Ok(Some(text))
    }
}

/// The name of the program in a question, given the value of `PATH`.
pub fn program_in<'a>(path: &str, question: &'a str) -> &'a str
    ensures { result.now ≡ spec.program_in path.now question.now }
{
    behind_name(question, path).unwrap_or("")
}
