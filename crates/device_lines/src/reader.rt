//! The reader of device tools' lines, which cicc, ptxas and cudafe++ share.

ghost use Rattle.std.specs.Prelude.{◌≡◌, ◌<◌, [], map, length, position, IfOk, IfSome, string_bytes, slice_index_or};
ghost use Rattle.compilers.specs.Compiler.{reading_of};
ghost use Rattle.device_lines.specs.Reading as spec;

mod gathered;
mod line_files;
mod named_files;

use crate::options::ArgData;
use compilers::arguments::{CompilerArguments, ParsedArguments};
use compilers::items::Line;
use compilers::table::SearchableArgInfo;
use gathered::Gathered;
pub use line_files::{LineFiles, line_files_of};
use std::alloc::{AllocError, Global};
use texts::device_files::{is_cicc_input, is_ptxas_input};
use texts::language::Language;

// Whether a word ends like the input of the tool that writes `language`.
fn is_input(language: Language, word: &str) -> bool
    ensures { result ≡ spec.is_input_word language word.now }
{
    match language {
        Language::Ptx => is_cicc_input(word),
        Language::Cubin => is_ptxas_input(word),
        _ => false,
    }
}

// The position of the first word that ends like the input.
fn place_by_end(language: Language, words: &[String]) -> Option<usize>
    ensures { result ≡ position (λ word. spec.is_input_word language (string_bytes word)) words.now }
{
    words
        .iter()
        .position(|word| is_input(language, word.as_str()))
}

// The position of the input: by its ending, else `offset` words from the end, if the line is that long.
fn input_place(language: Language, offset: usize, words: &[String]) -> Option<usize>
    ensures place { result ≡ spec.input_place language offset (map string_bytes words.now) }
    ensures within { IfSome result (λ place. place < length words.now) }
{
    match place_by_end(language, words) {
        None if offset > 0 => words.len().checked_sub(offset),
        found => found,
    }
}

// The word at a position.
fn word_at(words: &[String], place: usize) -> &str
    requires { place < length words.now }
    ensures { result.now ≡ slice_index_or (map string_bytes words.now) place [] }
{
    words[place].as_str()
}

/// Reads a device tool's line, as sccache 0.19.0's cicc reader does.
///
/// `arguments` are the words without the tool's name; paths are joined to `cwd`. The input is the first word that
/// ends in `.cpp1.ii` (for `Language::Ptx`) or `.ptx` (for `Language::Cubin`). For other languages, or if no word
/// ends so, it is the word `input_arg_offset_from_end` words from the end; 1 is the last word. The input is cut out
/// before the other words are read as items over `arg_info`, because it may be between an option and its value.
///
/// Returns `NotCompilation` if there is no input: the offset is 0, or the line is shorter.
pub fn parse_arguments<S: SearchableArgInfo<ArgData> + Drop>(
    alloc: Global,
    arguments: &[String],
    cwd: &str,
    language: Language,
    arg_info: S,
    input_arg_offset_from_end: usize,
) -> Result<CompilerArguments<ParsedArguments>, AllocError>
    ensures { IfOk result (λ r. reading_of r
        ≡ spec.line_reading (S.chosen arg_info) cwd.now language input_arg_offset_from_end (map string_bytes arguments.now)) }
{
    let Some(place) = input_place(language, input_arg_offset_from_end, arguments) else {
        return Ok(CompilerArguments::NotCompilation);
    };
    let mut gathered = Gathered::with_capacity(alloc, arguments.len())?;
    let line = Line::without(arguments, place);
    gathered.take_line(alloc, cwd, line, &arg_info)?;
    gathered.into_answer(alloc, cwd, language, word_at(arguments, place))
}
