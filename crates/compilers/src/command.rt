//! The commands that a plan or a compiler is made of.

ghost use Rattle.std.specs.Prelude.{◌≡◌, List, ℕ, IfOk, map, string_bytes};
ghost use Rattle.texts.specs.Variables.{pair_of};
ghost use Rattle.compilers.specs.Command.{single_command};

use std::alloc::{AllocError, Global};
use texts::text::Text;
use texts::variables::Variables;
use texts::words::Words;

/// Whether a command's outputs may come from a cache.
#[derive(Clone, Copy, Debug, PartialEq)]
pub enum Cacheable {
    /// They may.
    Yes,
    /// The command has to run.
    No,
}

/// A command that a process can run.
#[derive(Debug, PartialEq, Drop)]
pub struct SingleCompileCommand {
    /// The program's path.
    pub executable: Text,
    /// The words after the program's name.
    pub arguments: Words,
    /// The environment.
    pub env_vars: Variables,
    /// The working directory's path.
    pub cwd: Text,
    /// Whether the process may take part in a jobserver.
    pub share_jobserver: bool,
}

/// A command whose parts can be read.
pub trait CompileCommandImpl {
    ghost executable: { Self → List ℕ };

    ghost arguments: { Self → List (List ℕ) };

    ghost env_vars: { Self → List (List ℕ × List ℕ) };

    ghost cwd: { Self → List ℕ };

    /// The program's path.
    fn get_executable(&self) -> &str
        ensures { result.now ≡ executable self.now };

    /// The words after the program's name.
    fn get_arguments(&self) -> &[String]
        ensures { map string_bytes result.now ≡ arguments self.now };

    /// The environment.
    fn get_env_vars(&self) -> &[(String, String)]
        ensures { map pair_of result.now ≡ env_vars self.now };

    /// The working directory's path.
    fn get_cwd(&self) -> &str
        ensures { result.now ≡ cwd self.now };
}

impl CompileCommandImpl for SingleCompileCommand {
    ghost executable = { λ c. c.executable };

    ghost arguments = { λ c. c.arguments };

    ghost env_vars = { λ c. c.env_vars };

    ghost cwd = { λ c. c.cwd };

    fn get_executable(&self) -> &str {
        self.executable.as_str()
    }

    fn get_arguments(&self) -> &[String] {
        self.arguments.as_slice()
    }

    fn get_env_vars(&self) -> &[(String, String)] {
        self.env_vars.as_slice()
    }

    fn get_cwd(&self) -> &str {
        self.cwd.as_str()
    }
}

impl SingleCompileCommand {
    /// The command that runs `executable` with `arguments`, and copies of the other parts. It takes
    /// no part in a jobserver.
    pub fn copy_of(
        alloc: Global,
        executable: &str,
        arguments: Words,
        cwd: &str,
        env_vars: &[(String, String)],
    ) -> Result<SingleCompileCommand, AllocError>
        ensures { IfOk result (λ c. c ≡ single_command executable.now arguments cwd.now (map pair_of env_vars.now)) }
    {
        Ok(SingleCompileCommand {
            executable: Text::copy_of(alloc, executable)?,
            cwd: Text::copy_of(alloc, cwd)?,
            arguments,
            env_vars: Variables::copy_of(alloc, env_vars)?,
            share_jobserver: false,
        })
    }

    /// An equal command, in memory of its own.
    pub fn try_clone(&self, alloc: Global) -> Result<SingleCompileCommand, AllocError>
        ensures { IfOk result (λ c. c ≡ self.now) }
    {
        Ok(SingleCompileCommand {
            executable: self.executable.try_clone(alloc)?,
            cwd: self.cwd.try_clone(alloc)?,
            arguments: self.arguments.try_clone(alloc)?,
            env_vars: self.env_vars.try_clone(alloc)?,
            share_jobserver: self.share_jobserver,
        })
    }
}
