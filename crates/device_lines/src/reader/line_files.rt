//! The files that a device tool's line names, without the arguments that a cache needs.

ghost use Rattle.std.specs.Prelude.{◌≡◌, ◌<◌, map, length, IfOk, string_bytes, option_map};
ghost use Rattle.device_lines.specs.LineFiles.{files_of};
ghost use Rattle.device_lines.specs.Reading as spec;

use super::named_files::NamedFiles;
use super::{input_place, word_at};
use crate::options::ArgData;
use compilers::items::Line;
use compilers::outputs::Outputs;
use compilers::table::SearchableArgInfo;
use std::alloc::{AllocError, Global};
use texts::language::Language;
use texts::text::join;
use texts::words::Words;

/// The files that a line names, as paths joined to its working directory.
#[derive(Debug, Drop)]
pub struct LineFiles {
    /// The files that the tool reads: the input, and those that count for what it writes.
    pub reads: Words,
    /// The files that it writes.
    pub outputs: Outputs,
}

// The files of a line whose input is at `place`.
fn files_around<S: SearchableArgInfo<ArgData>>(
    alloc: Global,
    arguments: &[String],
    place: usize,
    cwd: &str,
    language: Language,
    arg_info: &S,
) -> Result<LineFiles, AllocError>
    requires { place < length arguments.now }
    ensures { IfOk result (λ f. f
        ≡ files_of cwd.now (spec.reading_around (S.chosen arg_info.now) cwd.now language (map string_bytes arguments.now) place)) }
{
    let mut files = NamedFiles::new(alloc);
    files.take_line(alloc, cwd, Line::without(arguments, place), arg_info)?;
    let mut reads = Words::with_capacity(alloc, 2)?;
    reads.push(join(alloc, cwd, word_at(arguments, place))?)?;
    reads.append(files.module_id_file(alloc, cwd)?)?;
    files.record_module_id(alloc, cwd)?;
    Ok(LineFiles {
        reads,
        outputs: files.outputs,
    })
}

/// The files that a device tool's line names, as [`parse_arguments`](super::parse_arguments) reads it, in half the time; `None` if
/// that says `NotCompilation`.
pub fn line_files_of<S: SearchableArgInfo<ArgData> + Drop>(
    alloc: Global,
    arguments: &[String],
    cwd: &str,
    language: Language,
    arg_info: S,
    input_arg_offset_from_end: usize,
) -> Result<Option<LineFiles>, AllocError>
    ensures { IfOk result (λ f. f
        ≡ option_map (files_of cwd.now) (spec.reading (S.chosen arg_info) cwd.now language input_arg_offset_from_end (map string_bytes arguments.now))) }
{
    let Some(place) = input_place(language, input_arg_offset_from_end, arguments) else {
        return Ok(None);
    };
    Ok(Some(files_around(alloc, arguments, place, cwd, language, &arg_info)?))
}
