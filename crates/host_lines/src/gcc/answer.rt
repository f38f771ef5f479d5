//! What is answered to a gcc line, of what its items ask for.

ghost use Rattle.std.specs.Prelude.{◌≡◌, ◌++◌, None, map, IfOk, OnOk, MatchResult, string_bytes};
ghost use Rattle.compilers.specs.Compiler.{reading_of, accepted};
ghost use Rattle.host_lines.specs.Gcc as spec;

use super::gathered::Gathered;
use compilers::arguments::{ColorMode, CompilerArguments, ParsedArguments};
use compilers::compiler::CCompilerKind;
use compilers::outputs::{ArtifactDescriptor, Outputs};
use std::alloc::{AllocError, Global};
use texts::extension::with_extension;
use texts::language::Language;
use texts::text::Text;

impl Gathered {
    ghost use Rattle.host_lines.specs.GccSteps.{asked_by};

    // The language that an option names, else that of the first input.
    fn language_read(&self, plusplus: bool) -> Option<Language>
        ensures { result ≡ spec.language_read plusplus (asked_by self.now) }
    {
        if self.language.is_some() {
            return self.language;
        }
        let input = self.inputs.as_slice().first()?;
        match Language::from_file_name(input.as_str()) {
            Some(Language::C) if plusplus => Some(Language::Cxx),
            language => language,
        }
    }

    // Whether the line asks for a compilation. A single CUDA file is one for nvcc.
    fn is_compilation(&self, kind: CCompilerKind, language: Option<Language>) -> bool
        ensures { result ≡ spec.is_compilation kind language (asked_by self.now) }
    {
        self.compilation_flag.is_some()
            || kind == CCompilerKind::Nvcc
                && language == Some(Language::Cuda)
                && self.inputs.len() == 1
    }

    // The files that the command makes of `input`. Puts the words that name the target and the dependency file last
    // among the words that ask for dependencies.
    fn make_outputs(&mut self, alloc: Global, input: &str) -> Result<Outputs, AllocError>
        ensures outputs { IfOk result (λ o. o ≡ spec.outputs_of (spec.obj_of (asked_by self.old) input.now)
            (spec.dependency_file_of (asked_by self.old) (spec.obj_of (asked_by self.old) input.now))) }
        ensures words { OnOk result (asked_by self.new ≡ record (asked_by self.old) {
          dependency_args = (self.old.dependency_args ++ spec.target_words (asked_by self.old) (spec.obj_of (asked_by self.old) input.now))
              ++ spec.dependency_file_words (asked_by self.old) (spec.obj_of (asked_by self.old) input.now);
          dependency_file = None;
        }) }
    {
        let obj = match &self.obj {
            Some(path) => path.try_clone(alloc)?,
            None => Text::new(with_extension(alloc, input, "o")?),
        };
        if self.target_needed {
            match &self.target {
                Some(words) => self.dependency_args.extend(alloc, words.as_slice())?,
                None => self.dependency_args.push_pair(alloc, "-MT", obj.as_str())?,
            }
            if self.dependency_file.is_none() {
                let path = Text::new(with_extension(alloc, obj.as_str(), "d")?);
                self.dependency_args.push_pair(alloc, "-MF", path.as_str())?;
                self.dependency_file = Some(path);
            }
        }
        let mut outputs = Outputs::new(alloc);
        outputs.insert("obj", made_file(obj))?;
        if let Some(path) = self.dependency_file.take() {
            outputs.insert("d", made_file(path))?;
        }
        Ok(outputs)
    }

    // What is answered to a line whose input and language are known.
    fn accept(
        mut self,
        alloc: Global,
        input: Text,
        language: Language,
    ) -> Result<CompilerArguments<ParsedArguments>, AllocError>
        ensures { IfOk result (λ r. reading_of r
            ≡ accepted (spec.arguments_of (asked_by self) input language (spec.obj_of (asked_by self) input))) }
    {
        match self.make_outputs(alloc, input.as_str()) {
            Ok(outputs) => {
                let mut arguments = ParsedArguments::of(alloc, input, language, outputs);
                arguments.double_dash_input = self.double_dash_input;
                arguments.compilation_flag = self
                    .compilation_flag
                    .unwrap_or(Text::new(String::new(alloc)));
                arguments.dependency_args = self.dependency_args;
                arguments.preprocessor_args = self.preprocessor_args;
                arguments.common_args = self.common_args;
                arguments.arch_args = self.arch_args;
                arguments.unhashed_args = self.unhashed_args;
                arguments.extra_hash_files = self.extra_hash_files;
                arguments.color_mode = ColorMode::Auto;
                Ok(CompilerArguments::Ok(arguments))
            }
            Err(refused) => {
                drop(self);
                Err(refused)
            }
        }
    }

    /// What is answered to a line that asks for this.
    // It is dropped by calls: so many fields that are dropped in place make a long proof.
    pub fn finish(
        self,
        alloc: Global,
        plusplus: bool,
        kind: CCompilerKind,
    ) -> Result<CompilerArguments<ParsedArguments>, AllocError>
        ensures { IfOk result (λ r. reading_of r ≡ spec.reading_of_asked plusplus kind (asked_by self)) }
    {
        let language = self.language_read(plusplus);
        if !self.is_compilation(kind, language) {
            drop(self);
            return Ok(CompilerArguments::NotCompilation);
        }
        match sole_input(self.inputs.as_slice(), language) {
            Ok((input, language)) => match Text::copy_of(alloc, input) {
                Ok(input) => self.accept(alloc, input, language),
                Err(refused) => {
                    drop(self);
                    Err(refused)
                }
            },
            Err(text) => {
                drop(self);
                Ok(CompilerArguments::CannotCache(text, None))
            }
        }
    }
}

// The input of a line and its language, or the text that the line is refused with.
fn sole_input<'a>(
    inputs: &'a [String],
    language: Option<Language>,
) -> Result<(&'a str, Language), &'static str>
    ensures { MatchResult result
        (λ found. spec.sole_input language (map string_bytes inputs.entry.now) ≡ Ok (found.0.now, found.1))
        (λ text. spec.sole_input language (map string_bytes inputs.entry.now) ≡ Err text.now) }
{
    let Some((input, others)) = inputs.split_first() else {
        return Err("no input file");
    };
    if !others.is_empty() {
        return Err("multiple input files");
    }
    match language {
        Some(language) => Ok((input.as_str(), language)),
        None => Err("unknown source language"),
    }
}

// A file that is always made.
fn made_file(path: Text) -> ArtifactDescriptor
    ensures { result ≡ spec.made_file path }
{
    ArtifactDescriptor {
        path,
        optional: false,
    }
}
