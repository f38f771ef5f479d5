//! What a reader makes of a command line.

ghost use Rattle.std.specs.Prelude.{◌≡◌, IfOk, OnOk, MatchResult, Ok, Err};
ghost use Rattle.compilers.specs.Arguments as spec;

use crate::outputs::{ArtifactDescriptor, OBJ, Outputs};
use std::alloc::{AllocError, Global};
use texts::fault::Fault;
use texts::language::Language;
use texts::text::Text;
use texts::words::Words;

/// Whether a compiler colours its messages.
#[derive(Clone, Copy, Debug, PartialEq)]
pub enum ColorMode {
    /// Never.
    Off,
    /// Always.
    On,
    /// The compiler decides.
    Auto,
}

/// A command line, read: what it compiles, the files that it makes, and its words by what they are
/// for. Words and paths are UTF-8 texts, in the order of the line.
#[derive(Debug, PartialEq, Drop)]
pub struct ParsedArguments {
    /// The path of the file that is compiled, as the line gives it.
    pub input: Text,
    /// The files that the command makes, by their keys.
    pub outputs: Outputs,
    /// Whether the input comes after `--`.
    pub double_dash_input: bool,
    /// The input's language, or what the tool makes of it.
    pub language: Language,
    /// The option that asks for a compilation, as `-c`; empty if the tool needs none.
    pub compilation_flag: Text,
    /// The path of the dependency file.
    pub depfile: Option<Text>,
    /// The words that ask for dependencies.
    pub dependency_args: Words,
    /// The words for the preprocessor.
    pub preprocessor_args: Words,
    /// The words that are part of a cache key.
    pub common_args: Words,
    /// The words that name architectures.
    pub arch_args: Words,
    /// The words that are no part of a cache key.
    pub unhashed_args: Words,
    /// Paths of files that a distributed compilation also needs.
    pub extra_dist_files: Words,
    /// Paths of files whose contents are part of a cache key.
    pub extra_hash_files: Words,
    /// False: a field of sccache's that no reader of these tools sets.
    pub uses_external_assembler: bool,
    /// False: a field of sccache's that no reader of these tools sets.
    pub msvc_show_includes: bool,
    /// False: a field of sccache's that no reader of these tools sets.
    pub msvc_explicit_language: bool,
    /// False: a field of sccache's that no reader of these tools sets.
    pub profile_generate: bool,
    /// Whether messages have colours.
    pub color_mode: ColorMode,
    /// False: a field of sccache's that no reader of these tools sets.
    pub suppress_rewrite_includes_only: bool,
    /// The option that keeps a cache from looking at the preprocessor's input.
    pub too_hard_for_preprocessor_cache_mode: Option<Text>,
}

/// What a reader answers: arguments, the option that no cache can serve with a word on it, or that
/// the line is no compilation.
#[derive(Debug, PartialEq, Drop)]
pub enum CompilerArguments<T> {
    /// The arguments.
    Ok(T),
    /// No cache can serve the line: the reason, and a word about it.
    CannotCache(&'static str, Option<Text>),
    /// The line compiles nothing.
    NotCompilation,
}

impl ParsedArguments {
    /// The arguments of a line that names an input and the files that are made of it, and nothing
    /// else: no words, no flag, no dependency file, and each choice off.
    pub fn of(alloc: Global, input: Text, language: Language, outputs: Outputs) -> ParsedArguments
        ensures { result ≡ spec.plain_arguments input language outputs }
    {
        ParsedArguments {
            input,
            outputs,
            double_dash_input: false,
            language,
            compilation_flag: Text::new(String::new(alloc)),
            depfile: None,
            dependency_args: Words::new(alloc),
            preprocessor_args: Words::new(alloc),
            common_args: Words::new(alloc),
            arch_args: Words::new(alloc),
            unhashed_args: Words::new(alloc),
            extra_dist_files: Words::new(alloc),
            extra_hash_files: Words::new(alloc),
            uses_external_assembler: false,
            msvc_show_includes: false,
            msvc_explicit_language: false,
            profile_generate: false,
            color_mode: ColorMode::Off,
            suppress_rewrite_includes_only: false,
            too_hard_for_preprocessor_cache_mode: None,
        }
    }

    /// The file that the command is run for: the output under the key `OBJ`. Without one the
    /// arguments can't be written back: `MissingOutput`, with the language.
    pub fn obj(&self) -> Result<&ArtifactDescriptor, Fault>
        ensures { MatchResult result
            (λ obj. spec.obj_of self.now ≡ Ok obj.now)
            (λ fault. spec.obj_of self.now ≡ Err fault) }
    {
        match self.outputs.get(OBJ) {
            Some(obj) => Ok(obj),
            None => Err(Fault::MissingOutput {
                language: self.language,
            }),
        }
    }

    /// Equal arguments, in memory of their own.
    pub fn try_clone(&self, alloc: Global) -> Result<ParsedArguments, AllocError>
        ensures { IfOk result (λ p. p ≡ self.now) }
    {
        let outputs = self.outputs.try_clone(alloc)?;
        let input = self.input.try_clone(alloc)?;
        let mut copy = ParsedArguments::of(alloc, input, self.language, outputs);
        copy.double_dash_input = self.double_dash_input;
        copy.uses_external_assembler = self.uses_external_assembler;
        copy.msvc_show_includes = self.msvc_show_includes;
        copy.msvc_explicit_language = self.msvc_explicit_language;
        copy.profile_generate = self.profile_generate;
        copy.color_mode = self.color_mode;
        copy.suppress_rewrite_includes_only = self.suppress_rewrite_includes_only;
        match copy.add_texts(alloc, self) {
            Ok(()) => Ok(copy),
            Err(refused) => {
                // Dropped by a call: see "Explicit drops" in docs/ARCHITECTURE.md.
                drop(copy);
                Err(refused)
            }
        }
    }

    // Takes copies of the flag, the optional texts and the words of `other`.
    fn add_texts(&mut self, alloc: Global, other: &ParsedArguments) -> Result<(), AllocError>
        ensures { OnOk result (self.new ≡ record self.old {
          compilation_flag = other.now.compilation_flag;
          depfile = other.now.depfile;
          dependency_args = other.now.dependency_args;
          preprocessor_args = other.now.preprocessor_args;
          common_args = other.now.common_args;
          arch_args = other.now.arch_args;
          unhashed_args = other.now.unhashed_args;
          extra_dist_files = other.now.extra_dist_files;
          extra_hash_files = other.now.extra_hash_files;
          too_hard_for_preprocessor_cache_mode = other.now.too_hard_for_preprocessor_cache_mode;
        }) }
    {
        self.compilation_flag = other.compilation_flag.try_clone(alloc)?;
        self.depfile = Text::clone_optional(alloc, &other.depfile)?;
        self.too_hard_for_preprocessor_cache_mode = Text::clone_optional(
            alloc,
            &other.too_hard_for_preprocessor_cache_mode,
        )?;
        self.dependency_args = other.dependency_args.try_clone(alloc)?;
        self.preprocessor_args = other.preprocessor_args.try_clone(alloc)?;
        self.common_args = other.common_args.try_clone(alloc)?;
        self.arch_args = other.arch_args.try_clone(alloc)?;
        self.unhashed_args = other.unhashed_args.try_clone(alloc)?;
        self.extra_dist_files = other.extra_dist_files.try_clone(alloc)?;
        self.extra_hash_files = other.extra_hash_files.try_clone(alloc)?;
        Ok(())
    }
}
