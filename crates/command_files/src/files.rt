//! The files that a planned command reads and writes according to its words.

ghost use Rattle.std.specs.Prelude.{◌≡◌, ◌<◌, ◌++◌, ◌∷◌, [], ℕ, List, Option, length, map, IfOk, IfSome, MatchOption, OnOk, string_bytes, option_copied, option_map};
ghost use Rattle.texts.specs.Lists.{rest_after};
ghost use Rattle.compilers.specs.declared.arguments.ParsedArguments.{ParsedArguments};
ghost use Rattle.device_lines.specs.LineFiles.{files_of as line_files};
ghost use Rattle.device_lines.specs.Reading.{reading_as_answer};
ghost use Rattle.command_files.specs.CommandFiles as spec;

use compilers::outputs::Outputs;
use compilers::plans::{NvccGeneratedSubcommand, Program};
use device_lines::{LineFiles, cicc_line_files, cudafe_line_files, ptxas_line_files};
use std::alloc::{AllocError, Global};
use texts::text::join;
use texts::words::{Words, word_after};

/// The files that a command reads and writes according to its words, as paths joined to its working directory.
#[derive(Debug, Drop)]
pub struct CommandFiles {
    /// The files that it reads.
    pub reads: Words,
    /// The files that it writes.
    pub writes: Words,
    /// The files that it may write or leave out.
    pub may_write: Words,
    /// Whether the words name all files of the compilation that the command touches. Host compilers also read headers and
    /// libraries, and a line that can't be read names nothing.
    pub complete: bool,
}

// Puts a path last, joined to `cwd`, if there is one.
fn push_joined(
    alloc: Global,
    files: &mut Words,
    cwd: &str,
    path: Option<&str>,
) -> Result<(), AllocError>
    ensures { OnOk result (files.new ≡ files.old ++ spec.joined_option cwd.now (option_copied path.entry)) }
{
    match path {
        None => Ok(()),
        Some(path) => files.push(join(alloc, cwd, path)?),
    }
}

// The paths of the outputs that a command may leave out, or of the others.
fn paths_of(alloc: Global, optional: bool, outputs: &Outputs) -> Result<Words, AllocError>
    ensures { IfOk result (λ paths. paths ≡ spec.paths_of optional outputs.now) }
{
    let mut paths = Words::new(alloc);
    for (_, file) in outputs.iter() {
        if file.optional == optional {
            paths.push_str(alloc, file.path.as_str())?;
        }
    }
    Ok(paths)
}

// The files of a line that leaves out none of those that it writes.
fn all_written(alloc: Global, reads: Words, writes: Words, complete: bool) -> CommandFiles
    ensures { result ≡ record { reads = reads; writes = writes; may_write = []; complete = complete } }
{
    CommandFiles {
        reads,
        writes,
        may_write: Words::new(alloc),
        complete,
    }
}

// The files of a device tool's line, if it could be read.
fn files_of_line(alloc: Global, line: Option<LineFiles>) -> Result<CommandFiles, AllocError>
    ensures { (cwd : List ℕ) (p : Option ParsedArguments) → line ≡ option_map (line_files cwd) p
        → IfOk result (λ files. files ≡ spec.files_of_reading cwd (reading_as_answer p)) }
{
    match line {
        None => Ok(all_written(alloc, Words::new(alloc), Words::new(alloc), false)),
        Some(line) => Ok(CommandFiles {
            writes: paths_of(alloc, false, &line.outputs)?,
            may_write: paths_of(alloc, true, &line.outputs)?,
            reads: line.reads,
            complete: true,
        }),
    }
}

// The files of a cicc line.
fn cicc_files(alloc: Global, cwd: &str, words: &[String]) -> Result<CommandFiles, AllocError>
    ensures { IfOk result (λ files. files ≡ spec.cicc_files cwd.now (map string_bytes words.now)) }
{
    let mut files = files_of_line(alloc, cicc_line_files(alloc, words, cwd)?)?;
    push_joined(alloc, &mut files.writes, cwd, word_after(words, "-olto"))?;
    Ok(files)
}

// What follows a text that a word begins with.
fn rest_of<'a>(word: &'a str, text: &str) -> Option<&'a str>
    ensures { option_copied result ≡ rest_after text.now word.now }
{
    word.strip_prefix(text)
}

// Puts the paths last that words give behind a text that they begin with, joined to `cwd`.
fn push_paths_behind(
    alloc: Global,
    files: &mut Words,
    cwd: &str,
    text: &str,
    words: &[String],
) -> Result<(), AllocError>
    ensures { OnOk result (files.new ≡ files.old ++ spec.paths_behind cwd.now text.now (map string_bytes words.now)) }
{
    for word in words {
        push_joined(alloc, files, cwd, rest_of(word.as_str(), text))?;
    }
    Ok(())
}

// The first part of an image, and what stands behind its comma; `None` if all of it is one part.
fn first_part(image: &str) -> Option<(&str, &str)>
    ensures parts { MatchOption result (spec.parts_of image.now ≡ image.now ∷ []) (λ cut. spec.parts_of image.now ≡ cut.0.now ∷ spec.parts_of cut.1.now) }
    ensures less { IfSome result (λ cut. length cut.1.now < length image.now) }
{
    image.split_once(',')
}

// The file of a word that names an image.
fn image_file(word: &str) -> Option<&str>
    ensures { option_copied result ≡ spec.image_file word.now }
{
    let mut rest = rest_of(word, "--image")?;
    while let Some((part, behind)) = first_part(rest) {
        if let Some(path) = rest_of(part, "file=") {
            return Some(path);
        }
        rest = behind;
    }
    rest_of(rest, "file=")
}

// The files of a fatbinary line.
fn fatbinary_files(alloc: Global, cwd: &str, words: &[String]) -> Result<CommandFiles, AllocError>
    ensures { IfOk result (λ files. files ≡ spec.fatbinary_files cwd.now (map string_bytes words.now)) }
{
    let mut reads = Words::new(alloc);
    for word in words {
        push_joined(alloc, &mut reads, cwd, image_file(word.as_str()))?;
    }
    let mut writes = Words::new(alloc);
    push_paths_behind(alloc, &mut writes, cwd, "--create=", words)?;
    push_paths_behind(alloc, &mut writes, cwd, "--embedded-fatbin=", words)?;
    Ok(all_written(alloc, reads, writes, true))
}

// The word right before the first that is `option`.
fn word_before<'a>(words: &'a [String], option: &str) -> Option<&'a str>
    ensures { option_copied result ≡ spec.word_before option.now None (map string_bytes words.now) }
{
    let mut before = None;
    for word in words {
        if option == word.as_str() {
            return before;
        }
        before = Some(word.as_str());
    }
    None
}

// The input of a host compiler's line: the word right before `-o`, unless it is an option.
fn host_input(words: &[String]) -> Option<&str>
    ensures { option_copied result ≡ spec.host_input (map string_bytes words.now) }
{
    let word = word_before(words, "-o")?;
    if word.is_empty() || word.as_bytes().starts_with(b"-") {
        None
    } else {
        Some(word)
    }
}

// The files of an nvlink line or a host compiler's line.
fn host_files(alloc: Global, cwd: &str, words: &[String]) -> Result<CommandFiles, AllocError>
    ensures { IfOk result (λ files. files ≡ spec.host_files cwd.now (map string_bytes words.now)) }
{
    let mut reads = Words::new(alloc);
    push_joined(alloc, &mut reads, cwd, host_input(words))?;
    let mut writes = Words::new(alloc);
    push_joined(alloc, &mut writes, cwd, word_after(words, "-o"))?;
    push_paths_behind(alloc, &mut writes, cwd, "--register-link-binaries=", words)?;
    Ok(all_written(alloc, reads, writes, false))
}

/// The files that a planned command reads and writes according to its words.
///
/// Lines of cicc, ptxas and cudafe++ are read by their readers in `device_lines`: the input and the files that count for
/// the outputs are read, the outputs are written. cicc also writes what follows `-olto`. fatbinary reads the `file=` parts
/// of its `--image` words and writes what stands behind `--create=` and `--embedded-fatbin=`. Any other program writes
/// what follows its first `-o` (nvlink also what stands behind `--register-link-binaries=`) and reads the word before
/// that, if it is no option; it may read other files too.
///
/// Programs are known by the stem of their path's file name.
pub fn files_of(
    alloc: Global,
    command: &NvccGeneratedSubcommand,
) -> Result<CommandFiles, AllocError>
    ensures { IfOk result (λ files. files ≡ spec.files_of_words command.now.exe command.now.args command.now.cwd) }
{
    files_by(alloc, Program::at(command.exe.as_str()), command)
}

/// The same of a command whose program is known.
pub fn files_by(
    alloc: Global,
    program: Program,
    command: &NvccGeneratedSubcommand,
) -> Result<CommandFiles, AllocError>
    ensures { IfOk result (λ files. files ≡ spec.files_of_program program command.now.cwd command.now.args) }
{
    let words = command.args.as_slice();
    let cwd = command.cwd.as_str();
    match program {
        Program::Cicc => cicc_files(alloc, cwd, words),
        Program::Cudafe => files_of_line(alloc, cudafe_line_files(alloc, words, cwd)?),
        Program::Ptxas => files_of_line(alloc, ptxas_line_files(alloc, words, cwd)?),
        Program::Fatbinary => fatbinary_files(alloc, cwd, words),
        Program::Nvlink | Program::Other => host_files(alloc, cwd, words),
    }
}
