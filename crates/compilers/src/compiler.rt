//! What a compiler is to the layers above.

ghost use Rattle.std.specs.Prelude.{◌≡◌, ℕ, Bool, List, [], Option, Result, IfOk, map, string_bytes, option_map};
ghost use Rattle.texts.specs.Variables.{pair_of};
ghost use Rattle.texts.specs.Fault.{UnlessMemory};
ghost use Rattle.compilers.specs.Compiler.{Reading, reading_of};

use crate::arguments::{CompilerArguments, ParsedArguments};
use crate::command::{Cacheable, CompileCommandImpl};
use std::alloc::{AllocError, Global};
use texts::fault::Fault;
use texts::text::Text;

/// The tools whose command lines can be read.
#[derive(Clone, Copy, Debug, PartialEq)]
pub enum CCompilerKind {
    /// cicc, which makes PTX of preprocessed device code.
    Cicc,
    /// cudafe++, which makes host code of preprocessed CUDA code.
    CudaFE,
    /// ptxas, which makes a cubin of PTX.
    Ptxas,
    /// nvcc, which calls the others.
    Nvcc,
    /// nvc, nvc++ or nvfortran, the compilers of the NVIDIA HPC SDK.
    Nvhpc,
}

/// The compiler that nvcc compiles host code with.
#[derive(Clone, Copy, Debug, PartialEq)]
pub enum NvccHostCompiler {
    /// gcc, or clang, which takes the same words.
    Gcc,
    /// cl.exe.
    Msvc,
    /// nvc++.
    Nvhpc,
}

/// What a caller prepares for a compilation: the path of a folder for temporary files, and the input's path with
/// symbolic links resolved.
#[derive(Debug, PartialEq, Drop)]
pub struct Places {
    /// The path of the folder for temporary files.
    pub temp_dir: Text,
    /// The input's path, with symbolic links resolved.
    pub canonical_input: Text,
}

impl Places {
    /// Two empty paths, for a compiler that needs no places.
    pub fn empty(alloc: Global) -> Places
        ensures temp_dir { result.temp_dir ≡ [] }
        ensures canonical_input { result.canonical_input ≡ [] }
    {
        Places {
            temp_dir: Text::new(String::new(alloc)),
            canonical_input: Text::new(String::new(alloc)),
        }
    }
}

/// A compiler whose command lines can be read and written back. Its members `reading` and `writing` say what
/// they give, so that contracts of generic callers can cite them.
pub trait CCompilerImpl {
    ghost use Rattle.compilers.specs.declared.compiler.CCompilerKind.{CCompilerKind};
    ghost use Rattle.compilers.specs.declared.compiler.Places.{Places};
    ghost use Rattle.compilers.specs.declared.arguments.ParsedArguments.{ParsedArguments};
    ghost use Rattle.compilers.specs.declared.command.Cacheable.{Cacheable};
    ghost use Rattle.texts.specs.declared.fault.Fault.{Fault};

    /// What the compiler's command is.
    type Command: CompileCommandImpl;

    ghost kind: { Self → CCompilerKind };

    ghost plusplus: { Self → Bool };

    ghost version: { Self → Option (List ℕ) };

    /// What words are read as, at a working directory and in an environment.
    ghost reading: { Self → List (List ℕ) → List ℕ → List (List ℕ × List ℕ) → Reading };

    /// What arguments are written back as: of the executable, the arguments, the working directory,
    /// the environment and the places.
    ghost writing: { Self → List ℕ → ParsedArguments → List ℕ → List (List ℕ × List ℕ) → Places → Result (Self.Command × Cacheable) Fault };

    /// Which tool it is.
    fn kind(&self) -> CCompilerKind
        ensures { result ≡ kind self.now };

    /// Whether it takes C files for C++.
    fn plusplus(&self) -> bool
        ensures { result ≡ plusplus self.now };

    /// The text of its version, if one is known.
    fn version(&self, alloc: Global) -> Result<Option<String>, AllocError>
        ensures { IfOk result (λ v. option_map string_bytes v ≡ version self.now) };

    /// Reads the words of a line, without the compiler's name.
    fn parse_arguments(
        &self,
        alloc: Global,
        arguments: &[String],
        cwd: &str,
        env_vars: &[(String, String)],
    ) -> Result<CompilerArguments<ParsedArguments>, AllocError>
        ensures { IfOk result (λ r. reading_of r ≡ reading self.now (map string_bytes arguments.now) cwd.now (map pair_of env_vars.now)) };

    /// Writes arguments back as a command, and says whether a cache may serve it.
    fn generate_compile_commands(
        &self,
        alloc: Global,
        executable: &str,
        parsed_args: &ParsedArguments,
        cwd: &str,
        env_vars: &[(String, String)],
        places: &Places,
    ) -> Result<(Self::Command, Cacheable), Fault>
        ensures { UnlessMemory result (writing self.now executable.now parsed_args.now cwd.now (map pair_of env_vars.now) places.now) };
}
