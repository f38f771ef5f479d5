//! Why a line's call is left to nvcc, and nvcc's reading of it if it isn't.

ghost use Rattle.std.specs.Prelude.{◌≡◌, IfOk, OnOk};
ghost use Rattle.nvcc_calls.specs.NormalForm as spec;

use crate::Reason;
use crate::asked::{Asked, push_joined, reason_unless};
use crate::words::is_usual_name;
use std::alloc::{AllocError, Global};
use texts::compilation_flags::asks_object;
use texts::extension::{extension, last, with_extension};
use texts::text::{Text, join};
use texts::words::Words;

/// nvcc's reading of a call that compiles one source, and the line's normal form. Words and paths are UTF-8.
#[derive(Debug, Drop)]
pub struct Call {
    /// The flag for the phase that the call ends with, as the line spells it: `-c`, `--ptx`, ..
    pub flag: Text,
    /// The source's path, as the line gives it.
    pub input: Text,
    /// The output's path: as the line gives it, else nvcc's default.
    pub output: Text,
    /// The line in its normal form: the flag, `-o` and the output, the other options in their order, and the input. Right
    /// before the input are `-odir`, `-x`, `-t`, `-keep-dir`, `-MF` and `-MT`, in this order and each once, with its last
    /// value. A value is in its option's word, except after `-o`, `-include`, `-MF` and `-MT`. The words of
    /// `NVCC_PREPEND_FLAGS` and `NVCC_APPEND_FLAGS` are in it.
    pub words: Words,
}

impl Call {
    /// Whether two calls are equal.
    pub fn is_same(&self, other: &Call) -> bool
        ensures { result ≡ spec.same_call self.now other.now }
    {
        self.flag == other.flag
            && self.input == other.input
            && self.output == other.output
            && self.words == other.words
    }
}

// The first of some texts, and the empty text if there is none.
fn first_of(texts: &Words) -> &str
    ensures { result.now ≡ spec.first_of texts.now }
{
    match texts.as_slice() {
        [] => "",
        [first, ..] => first.as_str(),
    }
}

/// The value of an option, and the empty text if it isn't given.
pub fn value_of(option: &Option<Text>) -> &str
    ensures { result.now ≡ spec.value_of option.now }
{
    match option {
        Some(value) => value.as_str(),
        None => "",
    }
}

// Adds an option's value, if it is given, in the option's word.
fn push_value(
    alloc: Global,
    words: &mut Words,
    name: &str,
    option: &Option<Text>,
) -> Result<(), AllocError>
    ensures { OnOk result (words.new ≡ spec.with_joined name.now option.now words.old) }
{
    match option {
        Some(value) => push_joined(alloc, words, name, value.as_str()),
        None => Ok(()),
    }
}

// Adds an option and its value, if it is given, as two words.
fn push_next_value(
    alloc: Global,
    words: &mut Words,
    name: &str,
    option: &Option<Text>,
) -> Result<(), AllocError>
    ensures { OnOk result (words.new ≡ spec.with_next name.now option.now words.old) }
{
    match option {
        Some(value) => words.push_pair(alloc, name, value.as_str()),
        None => Ok(()),
    }
}

fn differ(texts: &Words) -> bool
    ensures { result ≡ spec.differ texts.now }
{
    let first = first_of(texts);
    for text in texts.as_slice() {
        if first != text.as_str() {
            return true;
        }
    }
    false
}

// Whether the file name of a path is empty or begins with `.`.
fn is_hidden(path: &str) -> bool
    ensures { result ≡ spec.is_hidden path.now }
{
    matches!(last(path).as_bytes(), [] | [b'.', ..])
}

/// Whether a path has an extension.
pub fn has_extension(wanted: &str, path: &str) -> bool
    ensures { result ≡ spec.has_extension wanted.now path.now }
{
    matches!(extension(path), Some(extension) if wanted == extension)
}

/// The extension that nvcc gives to what a phase makes.
pub fn extension_of_phase(flag: &str) -> &'static str
    ensures { result.now ≡ spec.extension_of_phase flag.now }
{
    if asks_object(flag) {
        return "o";
    }
    match flag {
        "-ptx" | "--ptx" => "ptx",
        "-cubin" | "--cubin" => "cubin",
        "-fatbin" | "--fatbin" => "fatbin",
        _ => "optixir",
    }
}

impl Asked {
    /// The phase, as the line first spells it.
    pub fn phase(&self) -> &str
        ensures { result.now ≡ spec.phase_of self.now }
    {
        first_of(&self.phases)
    }

    fn input(&self) -> &str
        ensures { result.now ≡ spec.input_of self.now }
    {
        first_of(&self.inputs)
    }

    fn output(&self, alloc: Global) -> Result<Text, AllocError>
        ensures { IfOk result (λ path. path ≡ spec.output_of self.now) }
    {
        if self.output.is_some() {
            return Text::copy_of(alloc, value_of(&self.output));
        }
        let name = with_extension(alloc, last(self.input()), extension_of_phase(self.phase()))?;
        Ok(Text::new(join(alloc, value_of(&self.directory), name.as_str())?))
    }

    fn is_cuda(&self) -> bool
        ensures { result ≡ spec.is_cuda self.now }
    {
        if self.language.is_some() {
            return value_of(&self.language) == "cu";
        }
        has_extension("cu", self.input())
    }

    fn is_host(&self) -> bool
        ensures { result ≡ spec.is_host self.now }
    {
        if self.language.is_some() {
            return matches!(value_of(&self.language), "c" | "c++");
        }
        matches!(extension(self.input()), Some("c" | "cc" | "cpp" | "cxx"))
    }

    fn names_target(&self) -> bool
        ensures { result ≡ spec.names_target self.now }
    {
        self.dependency_target.is_some() || self.output.is_some()
    }

    // The target in a dependency file, if the line names it or the output.
    fn target(&self) -> &str
        ensures { result.now ≡ spec.target_of self.now }
    {
        if self.dependency_target.is_some() {
            value_of(&self.dependency_target)
        } else {
            value_of(&self.output)
        }
    }

    // Whether the dependency file and its target have usual names, and not one name.
    fn names_two_files(&self) -> bool
        ensures { result ≡ spec.names_two_files self.now }
    {
        if self.names_target() && !is_usual_name(self.target()) {
            return false;
        }
        if self.dependency_file.is_some() {
            let file = value_of(&self.dependency_file);
            is_usual_name(file)
                && file != self.target()
                && (self.names_target() || !has_extension("o", file))
        } else {
            !has_extension("d", self.target())
        }
    }

    // Whether the dependency file and its target have names that sccache's reader finds.
    fn names_usual_file(&self) -> bool
        ensures { result ≡ spec.names_usual_file self.now }
    {
        if self.output.is_some() {
            self.dependency_file.is_some() || !is_hidden(value_of(&self.output))
        } else {
            asks_object(self.phase())
        }
    }

    fn has_usual_dependencies(&self) -> bool
        ensures { result ≡ spec.has_usual_dependencies self.now }
    {
        if self.dependencies.is_empty() {
            return self.dependency_file.is_none()
                && self.dependency_target.is_none()
                && self.phonies.is_empty();
        }
        !differ(&self.dependencies)
            && self.directory.is_none()
            && self.names_usual_file()
            && self.names_two_files()
    }

    fn language_reason(&self) -> Option<Reason>
        ensures { result ≡ spec.language_reason self.now }
    {
        if self.is_cuda() {
            None
        } else if self.is_host() {
            reason_unless(asks_object(self.phase()), Reason::HostSource)
        } else {
            Some(Reason::NotSource)
        }
    }

    fn output_reason(&self) -> Option<Reason>
        ensures { result ≡ spec.output_reason self.now }
    {
        if self.output.is_none() {
            return reason_unless(!is_hidden(self.input()), Reason::HiddenName);
        }
        let output = value_of(&self.output);
        reason_unless(!output.is_empty() && output != "-", Reason::StandardOutput)
    }

    fn reason(&self) -> Option<Reason>
        ensures { result ≡ spec.reason_of self.now }
    {
        let is_forwarded = self.unknown.is_empty() || !self.forwards.is_empty();
        self.refusal
            .or(reason_unless(is_forwarded, Reason::UnknownOption))
            .or(reason_unless(!self.phases.is_empty(), Reason::Links))
            .or(reason_unless(!differ(&self.phases), Reason::SeveralPhases))
            .or(reason_unless(!self.inputs.is_empty(), Reason::NoInput))
            .or(reason_unless(self.inputs.len() <= 1, Reason::SeveralInputs))
            .or(self.language_reason())
            .or(self.output_reason())
            .or(reason_unless(self.has_usual_dependencies(), Reason::DependencyWords))
    }

    fn push_last_values(&self, alloc: Global, words: &mut Words) -> Result<(), AllocError>
        ensures { OnOk result (words.new ≡ spec.with_last_values self.now words.old) }
    {
        push_value(alloc, words, "--output-directory=", &self.directory)?;
        push_value(alloc, words, "-x=", &self.language)?;
        push_value(alloc, words, "--threads=", &self.threads)?;
        push_value(alloc, words, "--keep-dir=", &self.keep_directory)?;
        push_next_value(alloc, words, "-MF", &self.dependency_file)?;
        push_next_value(alloc, words, "-MT", &self.dependency_target)
    }

    fn words(&self, alloc: Global, output: &str) -> Result<Words, AllocError>
        ensures { IfOk result (λ words. words ≡ spec.normal_words self.now output.now) }
    {
        let mut words = Words::new(alloc);
        words.push_str(alloc, self.phase())?;
        words.push_pair(alloc, "-o", output)?;
        words.extend(alloc, self.kept.as_slice())?;
        self.push_last_values(alloc, &mut words)?;
        words.push_str(alloc, self.input())?;
        Ok(words)
    }

    /// nvcc's reading of the line that asks for this, or why its call is left to nvcc.
    pub fn settle(&self, alloc: Global) -> Result<Result<Call, Reason>, AllocError>
        ensures { IfOk result (λ r. r ≡ spec.settled self.now) }
    {
        if let Some(reason) = self.reason() {
            return Ok(Err(reason));
        }
        let output = self.output(alloc)?;
        Ok(Ok(Call {
            flag: Text::copy_of(alloc, self.phase())?,
            input: Text::copy_of(alloc, self.input())?,
            words: self.words(alloc, output.as_str())?,
            output,
        }))
    }
}
