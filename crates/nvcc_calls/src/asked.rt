//! What a line asks nvcc for, item by item.

ghost use Rattle.std.specs.Prelude.{◌≡◌, ◌++◌, ◌∷◌, [], None, OnOk, IfOk, map, string_bytes};
ghost use Rattle.compilers.specs.Views.{item_viewed};
ghost use Rattle.texts.specs.Variables.{pair_of};
ghost use Rattle.nvcc_calls.specs.Asked as spec;

use crate::words::{are_unexpanded, equals_word, has_no_operator, is_number, words_of_file};
use crate::{Purpose, Reason, table};
use compilers::items::{ArgParseError, Line};
use compilers::table::{Pair, SearchableArgInfo};
use compilers::views::{ArgumentView, view_item};
use host_lines::{gcc, nvcc};
use std::alloc::{AllocError, Global};
use texts::text::Text;
use texts::variables::Variables;
use texts::words::Words;

/// What the items of a line ask nvcc for. Each list has texts in the line's order.
#[derive(Drop)]
pub struct Asked {
    /// Why an item leaves the call to nvcc: that of the first such item.
    pub refusal: Option<Reason>,
    /// The flags that name phases.
    pub phases: Words,
    /// The words that are no options.
    pub inputs: Words,
    /// The last value of `-o`.
    pub output: Option<Text>,
    /// The last value of `-odir`.
    pub directory: Option<Text>,
    /// The last value of `-x`.
    pub language: Option<Text>,
    /// The last value of `-t`.
    pub threads: Option<Text>,
    /// The last value of `-keep-dir`.
    pub keep_directory: Option<Text>,
    /// The flags `-MD` and `-MMD`.
    pub dependencies: Words,
    /// The flags `-MP`.
    pub phonies: Words,
    /// The last value of `-MF`.
    pub dependency_file: Option<Text>,
    /// The last value of `-MT`.
    pub dependency_target: Option<Text>,
    /// The names of options files whose words aren't given.
    pub files: Words,
    /// The flags that have nvcc forward words that it doesn't know.
    pub forwards: Words,
    /// The words that look like options and that nvcc doesn't know.
    pub unknown: Words,
    /// The words of the other options, in a normal form: all but phases and those of which only the last value counts.
    pub kept: Words,
    /// The options that a plan has to keep, by name and value: all but those of phases, outputs, kept files, dependency files and
    /// threads. A flag has the empty value.
    pub options: Variables,
}

/// Adds a word that is two texts.
pub fn push_joined(
    alloc: Global,
    words: &mut Words,
    first: &str,
    second: &str,
) -> Result<(), AllocError>
    ensures { OnOk result (words.new ≡ words.old ++ (first.now ++ second.now) ∷ []) }
{
    let mut word = String::from_str(alloc, first)?;
    word.push_str(second)?;
    words.push(word)
}

fn push_named(
    alloc: Global,
    options: &mut Variables,
    name: &str,
    value: &str,
) -> Result<(), AllocError>
    ensures { OnOk result (options.new ≡ options.old ++ (name.now, value.now) ∷ []) }
{
    let name = String::from_str(alloc, name)?;
    options.push(name, String::from_str(alloc, value)?)
}

// The name of an option without the `=` of its longer spelling.
fn bare_name(text: &str) -> &str
    ensures { result.now ≡ spec.bare_name text.now }
{
    match text {
        "-O=" => "-O",
        "-L=" => "-L",
        "-l=" => "-l",
        _ => text,
    }
}

pub fn reason_unless(is_well: bool, reason: Reason) -> Option<Reason>
    ensures { result ≡ spec.reason_unless is_well reason }
{
    if is_well { None } else { Some(reason) }
}

// Why an option with this value leaves the call to nvcc.
fn value_refusal(value: &str, purpose: Purpose) -> Option<Reason>
    ensures { result ≡ spec.value_refusal value.now purpose }
{
    match purpose {
        Purpose::Passes(reason) => Some(reason),
        Purpose::Unquoted | Purpose::Quoted if value.is_empty() => Some(Reason::BadValue),
        Purpose::Unquoted => reason_unless(has_no_operator(value), Reason::ShellCharacter),
        Purpose::Define | Purpose::Undefine | Purpose::Include => match value.as_bytes() {
            [] | [b'=', ..] => Some(Reason::BadValue),
            _ => None,
        },
        Purpose::Language => match value {
            "c" | "c++" | "cu" => None,
            _ => Some(Reason::BadValue),
        },
        Purpose::Threads => reason_unless(is_number(value), Reason::BadValue),
        Purpose::File => Some(Reason::OptionsFile),
        _ => None,
    }
}

fn is_known_to_sccache(word: &str) -> bool
    ensures { result ≡ spec.is_known_to_sccache word.now }
{
    let tables = Pair {
        first: gcc::table(),
        second: nvcc::table(),
    };
    tables.search(word).is_some()
}

// Whether a word that nvcc forwards may stay where it is.
fn is_forwardable(word: &str) -> bool
    ensures { result ≡ spec.is_forwardable word.now }
{
    has_no_operator(word) && !is_known_to_sccache(word) && word != "--"
}

impl Asked {
    fn new(alloc: Global) -> Asked
        ensures { result ≡ spec.nothing_asked }
    {
        Asked {
            refusal: None,
            phases: Words::new(alloc),
            inputs: Words::new(alloc),
            output: None,
            directory: None,
            language: None,
            threads: None,
            keep_directory: None,
            dependencies: Words::new(alloc),
            phonies: Words::new(alloc),
            dependency_file: None,
            dependency_target: None,
            files: Words::new(alloc),
            forwards: Words::new(alloc),
            unknown: Words::new(alloc),
            kept: Words::new(alloc),
            options: Variables::new(alloc),
        }
    }

    // Notes why the call is left to nvcc, unless an earlier item says so.
    fn refuse(&mut self, reason: Option<Reason>)
        ensures { self.new ≡ spec.with_refusal reason self.old }
    {
        if self.refusal.is_none() {
            self.refusal = reason;
        }
    }

    fn keep_flag(&mut self, alloc: Global, text: &str) -> Result<(), AllocError>
        ensures { OnOk result (self.new ≡ spec.with_kept text.now [] (text.now ∷ []) self.old) }
    {
        push_named(alloc, &mut self.options, text, "")?;
        self.kept.push_str(alloc, text)
    }

    fn take_flag(&mut self, alloc: Global, text: &str, purpose: Purpose) -> Result<(), AllocError>
        ensures { OnOk result (self.new ≡ spec.with_flag self.old text.now purpose) }
    {
        match purpose {
            Purpose::Phase => self.phases.push_str(alloc, text),
            Purpose::Keep => self.kept.push_str(alloc, text),
            Purpose::Dependencies => {
                self.dependencies.push_str(alloc, text)?;
                self.kept.push_str(alloc, text)
            }
            Purpose::DependencyPhonies => {
                self.phonies.push_str(alloc, text)?;
                self.kept.push_str(alloc, "-MP")
            }
            Purpose::Forward => {
                self.forwards.push_str(alloc, text)?;
                self.keep_flag(alloc, text)
            }
            Purpose::Passes(reason) => {
                self.refuse(Some(reason));
                self.keep_flag(alloc, text)
            }
            _ => self.keep_flag(alloc, text),
        }
    }

    // Keeps an option under its name with its value, and as one word: a beginning and the value.
    fn keep_joined(
        &mut self,
        alloc: Global,
        name: &str,
        beginning: &str,
        value: &str,
    ) -> Result<(), AllocError>
        ensures { OnOk result (self.new ≡ spec.with_kept name.now value.now ((beginning.now ++ value.now) ∷ []) self.old) }
    {
        push_named(alloc, &mut self.options, name, value)?;
        push_joined(alloc, &mut self.kept, beginning, value)
    }

    // Takes an option with its value. Options that take one value keep the last, all others keep each.
    fn take_option(
        &mut self,
        alloc: Global,
        text: &str,
        value: &str,
        purpose: Purpose,
    ) -> Result<(), AllocError>
        ensures { OnOk result (self.new ≡ spec.with_option self.old text.now value.now purpose) }
    {
        self.refuse(value_refusal(value, purpose));
        match purpose {
            Purpose::Output => Text::put_copy(&mut self.output, alloc, value),
            Purpose::OutputDirectory => Text::put_copy(&mut self.directory, alloc, value),
            Purpose::Language => Text::put_copy(&mut self.language, alloc, value),
            Purpose::Threads => Text::put_copy(&mut self.threads, alloc, value),
            Purpose::KeepDirectory => Text::put_copy(&mut self.keep_directory, alloc, value),
            Purpose::DependencyFile => Text::put_copy(&mut self.dependency_file, alloc, value),
            Purpose::DependencyTarget => Text::put_copy(&mut self.dependency_target, alloc, value),
            Purpose::File => self.files.push_str(alloc, value),
            Purpose::Define => self.keep_joined(alloc, "-D", "-D", value),
            Purpose::Undefine => self.keep_joined(alloc, "-U", "-U", value),
            Purpose::Include => self.keep_joined(alloc, "-I", "-I", value),
            Purpose::PreInclude => {
                push_named(alloc, &mut self.options, "-include", value)?;
                self.kept.push_pair(alloc, "-include", value)
            }
            Purpose::OptimizationInfo => {
                self.keep_joined(alloc, "--optimization-info", "--optimization-info=", value)
            }
            Purpose::TargetDirectory => {
                self.keep_joined(alloc, "--target-directory", "--target-directory=", value)
            }
            _ => {
                push_named(alloc, &mut self.options, bare_name(text), value)?;
                self.kept.push(equals_word(alloc, text, value)?)
            }
        }
    }

    fn take_read(
        &mut self,
        alloc: Global,
        read: Result<ArgumentView<'_, Purpose>, ArgParseError>,
    ) -> Result<(), AllocError>
        ensures { OnOk result (self.new ≡ spec.with_item self.old (item_viewed read.entry)) }
    {
        match read {
            Ok(ArgumentView::Raw(word)) => self.inputs.push_str(alloc, word),
            Ok(ArgumentView::UnknownFlag(word)) => {
                self.refuse(reason_unless(is_forwardable(word), Reason::UnknownOption));
                self.unknown.push_str(alloc, word)?;
                self.kept.push_str(alloc, word)
            }
            Ok(ArgumentView::Flag(text, purpose)) => self.take_flag(alloc, text, purpose),
            Ok(ArgumentView::WithValue(text, purpose, value, _)) => {
                self.take_option(alloc, text, value, purpose)
            }
            Err(_) => {
                self.refuse(Some(Reason::MissingValue));
                Ok(())
            }
        }
    }

    fn take_file_words(&mut self, alloc: Global, words: &[String]) -> Result<(), AllocError>
        ensures { OnOk result (self.new ≡ spec.with_file_words self.old (map string_bytes words.now)) }
    {
        if !are_unexpanded(words) {
            self.refuse(Some(Reason::ShellCharacter));
            return Ok(());
        }
        let options = table();
        let mut line = Line::new(words);
        while let Some(word) = line.next_word() {
            let row = options.search(word);
            let read = view_item(row, word, &mut line);
            self.take_read(alloc, read)?;
        }
        Ok(())
    }

    fn take_line_item(
        &mut self,
        alloc: Global,
        read: Result<ArgumentView<'_, Purpose>, ArgParseError>,
        files: &[(String, String)],
    ) -> Result<(), AllocError>
        ensures { OnOk result (self.new ≡ spec.with_line_item (map pair_of files.now) self.old (item_viewed read.entry)) }
    {
        match read {
            Ok(ArgumentView::WithValue(text, Purpose::File, name, _)) => {
                match words_of_file(alloc, files, name)? {
                    Some(words) => self.take_file_words(alloc, words.as_slice()),
                    None => self.take_option(alloc, text, name, Purpose::File),
                }
            }
            other => self.take_read(alloc, other),
        }
    }

    fn take_line(
        &mut self,
        alloc: Global,
        words: &[String],
        files: &[(String, String)],
    ) -> Result<(), AllocError>
        ensures { OnOk result (self.new ≡ spec.line_asked_after (map pair_of files.now) self.old (map string_bytes words.now)) }
    {
        let options = table();
        let mut line = Line::new(words);
        while let Some(word) = line.next_word() {
            let row = options.search(word);
            let read = view_item(row, word, &mut line);
            self.take_line_item(alloc, read, files)?;
        }
        Ok(())
    }

    /// What a line asks for, given the names and texts of options files.
    pub fn of(
        alloc: Global,
        words: &[String],
        files: &[(String, String)],
    ) -> Result<Asked, AllocError>
        ensures { IfOk result (λ a. a ≡ spec.asked_of (map pair_of files.now) (map string_bytes words.now)) }
    {
        let mut asked = Asked::new(alloc);
        match asked.take_line(alloc, words, files) {
            Ok(()) => Ok(asked),
            Err(refused) => {
                // Dropped by a call: see "Explicit drops" in docs/ARCHITECTURE.md.
                drop(asked);
                Err(refused)
            }
        }
    }
}
