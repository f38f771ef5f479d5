//! What a plan is made for, besides the commands.

use crate::environment::Environments;
use canonical_names::Suffixes;
use compilers::compiler::NvccHostCompiler;

/// One nvcc call to plan, besides its dry runs.
#[derive(Clone, Copy)]
pub struct CallToPlan<'a> {
    /// The working directory's path, where host compilers run.
    pub cwd: &'a str,
    /// The path of the folder for temporary files, where nvcc's own tools run.
    pub tmp: &'a str,
    /// The option that says what nvcc makes, as `-c`.
    pub compilation_flag: &'a str,
    /// The folder in which the call keeps generated files. If there is one, they keep nvcc's names, else they get canonical ones.
    pub keep_dir: Option<&'a str>,
    /// The environment of the call.
    pub env_vars: &'a [(String, String)],
    /// The compiler of host code.
    pub host_compiler: NvccHostCompiler,
    /// What the names of generated files end in.
    pub suffixes: &'a Suffixes,
}

/// A call, and the environments that its commands share in place of the call's own.
#[derive(Drop)]
pub struct Setting<'a> {
    pub call: &'a CallToPlan<'a>,
    pub environments: Environments,
}
