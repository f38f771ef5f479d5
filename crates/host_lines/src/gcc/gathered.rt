//! What the items of a gcc line ask for.

ghost use Rattle.std.specs.Prelude.{◌≡◌, [], ◌++◌, true, false, OnOk};
ghost use Rattle.compilers.specs.Items.{item_of, words_of};
ghost use Rattle.host_lines.specs.GccItems as spec;

use super::ArgData;
use super::languages::language_from_gcc_arg;
use compilers::items::{Argument, Line, NormalizedDisposition};
use std::alloc::{AllocError, Global};
use texts::language::Language;
use texts::text::{Text, join};
use texts::words::Words;

/// What the items so far ask for.
#[derive(Drop)]
pub struct Gathered {
    /// The words that are no options.
    pub inputs: Words,
    /// Whether `--` stood before some of them.
    pub double_dash_input: bool,
    /// The language that the last option for it names.
    pub language: Option<Language>,
    /// The flag that asks for a compilation.
    pub compilation_flag: Option<Text>,
    /// The path of the file that is made.
    pub obj: Option<Text>,
    /// The path of the dependency file.
    pub dependency_file: Option<Text>,
    /// Whether the dependency file needs a target.
    pub target_needed: bool,
    /// The two words that name the target.
    pub target: Option<Words>,
    pub common_args: Words,
    pub preprocessor_args: Words,
    pub arch_args: Words,
    pub unhashed_args: Words,
    pub dependency_args: Words,
    pub extra_hash_files: Words,
}

impl Gathered {
    ghost use Rattle.host_lines.specs.GccSteps.{asked_by, with_item, with_words, with_note};

    /// The line asks for nothing.
    pub fn new(alloc: Global) -> Gathered
        ensures { asked_by result ≡ spec.asked_of [] false [] }
    {
        Gathered {
            inputs: Words::new(alloc),
            double_dash_input: false,
            language: None,
            compilation_flag: None,
            obj: None,
            dependency_file: None,
            target_needed: false,
            target: None,
            common_args: Words::new(alloc),
            preprocessor_args: Words::new(alloc),
            arch_args: Words::new(alloc),
            unhashed_args: Words::new(alloc),
            dependency_args: Words::new(alloc),
            extra_hash_files: Words::new(alloc),
        }
    }

    /// Takes the words after `--`, each of which is an input.
    pub fn take_inputs(&mut self, alloc: Global, line: Line<'_>) -> Result<(), AllocError>
        ensures { OnOk result (asked_by self.new
            ≡ record (asked_by self.old) { inputs = self.old.inputs ++ line.entry; double_dash_input = true }) }
    {
        self.double_dash_input = true;
        line.write(alloc, &mut self.inputs)
    }

    /// Takes an item that doesn't refuse.
    pub fn take(
        &mut self,
        alloc: Global,
        cwd: &str,
        item: Argument<ArgData>,
    ) -> Result<(), AllocError>
        ensures { OnOk result (asked_by self.new ≡ with_item cwd.now (asked_by self.old) (item_of item)) }
    {
        // How to write an item that may be written both ways.
        let disposition = match item.flag_str() {
            Some(text) if text.len() == 2 => NormalizedDisposition::Concatenated,
            _ => NormalizedDisposition::Separated,
        };
        match item.normalize(disposition) {
            Argument::Raw(word) => self.inputs.push(word),
            Argument::UnknownFlag(word) => self.common_args.push(word),
            Argument::Flag(text, kind) => {
                self.note(alloc, cwd, text, "", kind)?;
                self.file(alloc, kind, Argument::Flag(text, kind))
            }
            Argument::WithValue(text, kind, value, form) => {
                self.note(alloc, cwd, text, value.as_str(), kind)?;
                self.file(alloc, kind, Argument::WithValue(text, kind, value, form))
            }
        }
    }

    // Notes what an option says besides its words, of its text and value.
    fn note(
        &mut self,
        alloc: Global,
        cwd: &str,
        text: &'static str,
        value: &str,
        kind: ArgData,
    ) -> Result<(), AllocError>
        ensures { OnOk result (asked_by self.new ≡ with_note cwd.now (asked_by self.old) text.now value.now kind) }
    {
        match kind {
            ArgData::ExtraHashFile => self.extra_hash_files.push(join(alloc, cwd, value)?),
            ArgData::NeedDepTarget => {
                self.target_needed = true;
                Ok(())
            }
            ArgData::DepArgumentPath => Text::put_copy(&mut self.dependency_file, alloc, value),
            ArgData::DepTarget => {
                let mut words = Words::new(alloc);
                words.push_pair(alloc, text, value)?;
                self.target = Some(words);
                Ok(())
            }
            ArgData::DoCompilation => Text::put_copy(&mut self.compilation_flag, alloc, text),
            ArgData::Output => Text::put_copy(&mut self.obj, alloc, value),
            ArgData::Language => {
                self.language = language_from_gcc_arg(value).or(self.language);
                Ok(())
            }
            _ => Ok(()),
        }
    }

    // Puts an option's words last in the list that they go to.
    fn file(
        &mut self,
        alloc: Global,
        kind: ArgData,
        option: Argument<ArgData>,
    ) -> Result<(), AllocError>
        ensures { OnOk result (asked_by self.new
            ≡ with_words (spec.destination_of_kind kind) (words_of (item_of option)) (asked_by self.old)) }
    {
        match kind {
            ArgData::PassThrough
            | ArgData::PassThroughFlag
            | ArgData::Standard
            | ArgData::ExtraHashFile => option.write(alloc, &mut self.common_args),
            ArgData::PreprocessorArgument
            | ArgData::PreprocessorArgumentFlag
            | ArgData::PreprocessorArgumentPath => option.write(alloc, &mut self.preprocessor_args),
            ArgData::Unhashed | ArgData::UnhashedFlag => {
                option.write(alloc, &mut self.unhashed_args)
            }
            ArgData::Arch => option.write(alloc, &mut self.arch_args),
            ArgData::NeedDepTarget | ArgData::DepArgumentPath => {
                option.write(alloc, &mut self.dependency_args)
            }
            ArgData::TooHard
            | ArgData::TooHardFlag
            | ArgData::DepTarget
            | ArgData::DoCompilation
            | ArgData::Output
            | ArgData::Language => Ok(()),
        }
    }
}
