//! The commands that preprocess the input of an nvcc line.

ghost use Rattle.std.specs.Prelude.{◌≡◌, Some, map, IfOk, OnOk, string_bytes};
ghost use Rattle.texts.specs.Fault.{UnlessMemory};
ghost use Rattle.texts.specs.Lists.{with_name};
ghost use Rattle.texts.specs.Variables.{pair_of};
ghost use Rattle.host_lines.specs.Preprocess as spec;

use crate::gcc::language_to_gcc_arg;
use crate::nvcc::compiler::Nvcc;
use crate::nvcc::environment::without_flags;
use crate::preprocess::{commands, common_command, refused};
use compilers::arguments::ParsedArguments;
use compilers::command::SingleCompileCommand;
use compilers::compiler::NvccHostCompiler;
use indexmap::IndexSet;
use std::alloc::{AllocError, Global};
use texts::fault::Fault;
use texts::words::Words;

impl Nvcc {
    /// The one or two commands that preprocess the input of an nvcc line, as in sccache 0.19.0. The last one prints
    /// the preprocessed code. If the line has dependency words, the first one writes the dependency file. Run them in
    /// order, up to the first that fails.
    ///
    /// Both begin with the preprocessor's words, the common words, `-x`, the language's name and the input. The command
    /// for the dependency file adds the dependency words, with `-M` for `-MD` and
    /// `--generate-dependencies-with-compile`, and `-MM` for `-MMD` and
    /// `--generate-nonsystem-dependencies-with-compile`: the words replaced want the file beside a compilation, and this
    /// is none. Two of these words may have become the same, so a repeated word is left out, even if it is an option's
    /// value.
    ///
    /// The command for the code adds `-E`, which nvcc accepts only after the other words, and a word that turns off the
    /// host compiler's line numbers: `-Xcompiler=-P` (gcc), `-Xcompiler=-EP` (MSVC), or the empty word for nvhpc, which
    /// has no such option. Both get `env_vars` without `NVCC_PREPEND_FLAGS` and `NVCC_APPEND_FLAGS`.
    ///
    /// The code isn't enough for a cache's key of the whole call: `nvcc -E` always defines `__CUDA_ARCH__`, so a change in
    /// host code under `#ifndef __CUDA_ARCH__` doesn't show. Plan the call, and cache its commands.
    ///
    /// Refuses a language that nvcc can't preprocess: `NoPreprocess`.
    pub fn preprocess(
        &self,
        alloc: Global,
        executable: &str,
        parsed_args: &ParsedArguments,
        cwd: &str,
        env_vars: &[(String, String)],
    ) -> Result<Vec<SingleCompileCommand>, Fault>
        ensures { UnlessMemory (spec.commands_seen result)
            (spec.nvcc_preprocess self.now.host_compiler executable.now parsed_args.now cwd.now (map pair_of env_vars.now)) }
    {
        let Some(name) = language_to_gcc_arg(parsed_args.language) else {
            return refused(alloc, "PCH not supported by nvcc");
        };
        let dependency = nvcc_dependency_words(alloc, parsed_args.dependency_args.as_slice())?;
        let code = nvcc_code_words(alloc, self.host_compiler)?;
        let env_vars = without_flags(alloc, env_vars)?;
        let common = common_command(alloc, executable, parsed_args, name, cwd, env_vars)?;
        let commands = commands(alloc, &common, &dependency, &code);
        // Dropped by a call: see "Explicit drops" in docs/ARCHITECTURE.md.
        drop(common);
        Ok(commands?)
    }
}

// nvcc's word for the dependency file without a compilation.
fn nvcc_dependency_word<'a>(word: &'a str) -> &'a str
    ensures { result.now ≡ spec.nvcc_dependency_word word.now }
{
    match word {
        "-MD" | "--generate-dependencies-with-compile" => "-M",
        "-MMD" | "--generate-nonsystem-dependencies-with-compile" => "-MM",
        _ => word,
    }
}

// Appends a word, unless it was seen.
fn push_unseen<'a>(
    alloc: Global,
    seen: &mut IndexSet<&'a str>,
    first: &mut Words,
    word: &'a str,
) -> Result<(), AllocError>
    requires { map (λ k. k.now) seen.old.keys ≡ first.old }
    ensures seen { OnOk result (map (λ k. k.now) seen.new.keys ≡ first.new) }
    ensures first { OnOk result (first.new ≡ with_name first.old (Some word.now)) }
{
    if !seen.insert(word)? {
        return Ok(());
    }
    first.push_str(alloc, word)
}

// The words for nvcc's dependency file, each at its first appearance.
fn nvcc_dependency_words(alloc: Global, words: &[String]) -> Result<Words, AllocError>
    ensures { IfOk result (λ w. w ≡ spec.nvcc_dependency_words (map string_bytes words.now)) }
{
    let mut seen = IndexSet::new(alloc);
    let mut first = Words::new(alloc);
    for word in words {
        let word = nvcc_dependency_word(word.as_str());
        push_unseen(alloc, &mut seen, &mut first, word)?;
    }
    Ok(first)
}

// The words for nvcc's preprocessed code, without line numbers from the host compiler.
fn nvcc_code_words(alloc: Global, host_compiler: NvccHostCompiler) -> Result<Words, AllocError>
    ensures { IfOk result (λ w. w ≡ spec.nvcc_preprocessor_words host_compiler) }
{
    let quiet = match host_compiler {
        NvccHostCompiler::Gcc => "-Xcompiler=-P",
        NvccHostCompiler::Msvc => "-Xcompiler=-EP",
        NvccHostCompiler::Nvhpc => "",
    };
    let mut words = Words::new(alloc);
    words.push_pair(alloc, "-E", quiet)?;
    Ok(words)
}
