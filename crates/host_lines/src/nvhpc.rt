//! The command lines of nvhpc, NVIDIA's compilers for C and C++, and the commands that preprocess their input.

ghost use Rattle.std.specs.Prelude.{◌≡◌, true, map, IfOk, string_bytes};
ghost use Rattle.texts.specs.Variables.{pair_of};
ghost use Rattle.texts.specs.Fault.{UnlessMemory};
ghost use Rattle.compilers.specs.Table.{entry_of};
ghost use Rattle.host_lines.specs.GccOptions.{differ};
ghost use Rattle.host_lines.specs.Nvhpc as spec;
ghost use Rattle.host_lines.specs.Preprocess as preprocessing;

use crate::gcc::{self, ArgData, language_to_gcc_arg};
use crate::preprocess::{commands, common_command, refused};
use compilers::arguments::{CompilerArguments, ParsedArguments};
use compilers::command::{Cacheable, SingleCompileCommand};
use compilers::compiler::{CCompilerImpl, CCompilerKind, Places};
use compilers::entries;
use compilers::table::{ArgInfo, EITHER_WAY, EITHER_WAY_OR_EQUALS, JOINED, Pair, Table};
use std::alloc::{AllocError, Global};
use texts::fault::Fault;
use texts::language::Language;
use texts::text::Text;
use texts::variables::Variables;
use texts::words::Words;

/// nvhpc's options besides gcc's, as in sccache 0.19.0's table. No two have the same text.
pub const ARGS: [ArgInfo<ArgData>; 29] = entries![
    EITHER_WAY_OR_EQUALS PassThrough:
        "--gcc-toolchain" "-Mconcur" "-Xlinker" "-acc" "-cudalib" "-gpu" "-mcmodel" "-mcpu" "-ta"
        "-target" "-tp";
    EITHER_WAY PassThrough: "--linker-options" "-Xfatbinary" "-Xnvlink" "-Xptxas";
    EITHER_WAY PreprocessorArgumentPath: "--include-path" "--system-include-path";
    EITHER_WAY PreprocessorArgument: "-Werror";
    EITHER_WAY_OR_EQUALS PreprocessorArgument: "-Xcompiler";
    flag PreprocessorArgumentFlag: "-Mnostdlib" "-cuda";
    flag PassThroughFlag:
        "-acclibs" "-c++libs" "-cudaforlibs" "-fortranlibs" "-gopt" "-noswitcherror";
    JOINED Standard: "-c++";
    EITHER_WAY_OR_EQUALS Language: "-x";
];

/// nvhpc's option table, the second of a pair after gcc's.
pub fn table() -> Table<'static, ArgData>
    ensures entries { map entry_of result.rows.now ≡ spec.nvhpc_options }
    ensures differ { differ (map entry_of result.rows.now) ≡ true }
{
    Table { rows: &ARGS }
}

/// nvhpc, as a compiler.
///
/// It reads lines with gcc's options and nvhpc's own. Of two options that match a word the longer one counts,
/// and nvhpc's if both are equally long. It ignores the environment. It writes arguments back like gcc.
#[derive(Debug, PartialEq, Drop)]
pub struct Nvhpc {
    /// Whether it is `nvc++`, which compiles C files as C++.
    pub nvcplusplus: bool,
    /// The text of its version, if known. It may be empty.
    pub version: Option<Text>,
}

impl Nvhpc {
    /// Copies the value into memory of its own.
    pub fn try_clone(&self, alloc: Global) -> Result<Nvhpc, AllocError>
        ensures { IfOk result (λ c. c ≡ self.now) }
    {
        Ok(Nvhpc {
            nvcplusplus: self.nvcplusplus,
            version: Text::clone_optional(alloc, &self.version)?,
        })
    }

    /// The one or two commands that preprocess a line's input, as in sccache 0.19.0: like those of
    /// [`Nvcc::preprocess`](crate::nvcc::Nvcc::preprocess), except for the words that they end in.
    ///
    /// The command for the dependency file adds the dependency words, with `-M` for `-MD` and `-MM` for `-MMD`. The
    /// command for the code adds `-E`. Both get all of `env_vars`.
    ///
    /// Refuses a language that nvhpc can't preprocess, CUDA among them: `NoPreprocess`.
    pub fn preprocess(
        &self,
        alloc: Global,
        executable: &str,
        parsed_args: &ParsedArguments,
        cwd: &str,
        env_vars: &[(String, String)],
    ) -> Result<Vec<SingleCompileCommand>, Fault>
        ensures { UnlessMemory (preprocessing.commands_seen result)
            (preprocessing.nvhpc_preprocess executable.now parsed_args.now cwd.now (map pair_of env_vars.now)) }
    {
        if parsed_args.language == Language::Cuda {
            return refused(alloc, "CUDA compilation not supported by nvhpc");
        }
        let Some(name) = language_to_gcc_arg(parsed_args.language) else {
            return refused(alloc, "PCH not supported by nvhpc");
        };
        let dependency = dependency_words(alloc, parsed_args.dependency_args.as_slice())?;
        let mut code = Words::new(alloc);
        code.push_str(alloc, "-E")?;
        let env_vars = Variables::copy_of(alloc, env_vars)?;
        let common = common_command(alloc, executable, parsed_args, name, cwd, env_vars)?;
        let commands = commands(alloc, &common, &dependency, &code);
        // Dropped by a call: see "Explicit drops" in docs/ARCHITECTURE.md.
        drop(common);
        Ok(commands?)
    }
}

impl CCompilerImpl for Nvhpc {
    ghost use Rattle.compilers.specs.declared.compiler.CCompilerKind.TheVariants as kinds;
    ghost use Rattle.compilers.specs.Command.{written};
    ghost use Rattle.host_lines.specs.GccLine.{gcc_words};
    ghost use Rattle.host_lines.specs.Nvhpc as spec;

    type Command = SingleCompileCommand;

    ghost kind = { λ _. kinds.Nvhpc };

    ghost plusplus = { λ c. c.nvcplusplus };

    ghost version = { λ c. c.version };

    ghost reading = { λ c words cwd _. spec.nvhpc_reading c.nvcplusplus cwd words };

    ghost writing = { λ _ executable p cwd env_vars _. written gcc_words executable p cwd env_vars };

    fn kind(&self) -> CCompilerKind {
        CCompilerKind::Nvhpc
    }

    fn plusplus(&self) -> bool {
        self.nvcplusplus
    }

    fn version(&self, alloc: Global) -> Result<Option<String>, AllocError> {
        Ok(Text::clone_optional(alloc, &self.version)?.map(Text::into_string))
    }

    fn parse_arguments(
        &self,
        alloc: Global,
        arguments: &[String],
        cwd: &str,
        _env_vars: &[(String, String)],
    ) -> Result<CompilerArguments<ParsedArguments>, AllocError> {
        let tables = Pair {
            first: gcc::table(),
            second: table(),
        };
        let kind = CCompilerKind::Nvhpc;
        gcc::parse_arguments(alloc, arguments, cwd, tables, self.nvcplusplus, kind)
    }

    fn generate_compile_commands(
        &self,
        alloc: Global,
        executable: &str,
        parsed_args: &ParsedArguments,
        cwd: &str,
        env_vars: &[(String, String)],
        _places: &Places,
    ) -> Result<(SingleCompileCommand, Cacheable), Fault> {
        gcc::generate_compile_commands(alloc, executable, parsed_args, cwd, env_vars)
    }
}

// The words for nvhpc's dependency file: without a compilation, two are others.
fn dependency_words(alloc: Global, words: &[String]) -> Result<Words, AllocError>
    ensures { IfOk result (λ w. w ≡ map preprocessing.nvhpc_dependency_word (map string_bytes words.now)) }
{
    let mut replaced = Words::new(alloc);
    for word in words {
        replaced.push_str(alloc, nvhpc_dependency_word(word.as_str()))?;
    }
    Ok(replaced)
}

// nvhpc's word for the dependency file without a compilation.
fn nvhpc_dependency_word<'a>(word: &'a str) -> &'a str
    ensures { result.now ≡ preprocessing.nvhpc_dependency_word word.now }
{
    match word {
        "-MD" => "-M",
        "-MMD" => "-MM",
        _ => word,
    }
}
