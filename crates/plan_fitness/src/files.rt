//! Whether the commands of a plan find what they read.

ghost use Rattle.std.specs.Prelude.{◌≡◌, IfOk, map, string_bytes, option_copied};
ghost use Rattle.std.specs.List.{list_any, position_from};
ghost use Rattle.plan_fitness.specs.Fitness as spec;
ghost use Rattle.plan_fitness.specs.Written.{seen};

use crate::written::Written;
use command_files::CommandFiles;
use std::alloc::{AllocError, Global};
use texts::text::join;

// Whether a path is that of a file, if there is one.
fn is_file(file: Option<&str>, path: &str) -> bool
    ensures { result ≡ spec.is_file (option_copied file.entry) path.now }
{
    match file {
        Some(file) => path == file,
        None => false,
    }
}

// Whether a command that reads a file finds none: it's in the folder for temporary files, isn't the source, and no command wrote it.
fn is_missing(folder: &str, source: Option<&str>, written: &Written<'_>, path: &str) -> bool
    ensures { result ≡ spec.is_missing folder.now (option_copied source.entry) (seen written.now) path.now }
{
    path.as_bytes().starts_with(folder.as_bytes()) && !is_file(source, path) && !written.has(path)
}

// The place of the first such file among those that a command reads.
fn first_missing(
    folder: &str,
    source: Option<&str>,
    written: &Written<'_>,
    reads: &[String],
) -> Option<usize>
    ensures { result ≡ position_from (spec.is_missing folder.now (option_copied source.entry) (seen written.now)) 0 (map string_bytes reads.now) }
{
    for (place, path) in reads.iter().enumerate() {
        if is_missing(folder, source, written, path.as_str()) {
            return Some(place);
        }
    }
    None
}

/// The first command that reads a file in the directory `tmp` that no command before it writes, unless that is `source`: its number, and
/// the place of the file among those that it reads.
pub fn first_unwritten(
    alloc: Global,
    tmp: &str,
    source: Option<&str>,
    records: &[CommandFiles],
) -> Result<Option<(usize, usize)>, AllocError>
    ensures { IfOk result (λ found. found ≡ spec.first_unwritten_of tmp.now (option_copied source.entry) records.now) }
{
    let folder = join(alloc, tmp, "")?;
    let mut written = Written::new(alloc);
    for (number, record) in records.iter().enumerate() {
        let missing = first_missing(folder.as_str(), source, &written, record.reads.as_slice());
        if let Some(place) = missing {
            return Ok(Some((number, place)));
        }
        written.add_all(record.writes.as_slice())?;
        written.add_all(record.may_write.as_slice())?;
    }
    Ok(None)
}

// Whether a path is among others.
fn is_among(path: &str, paths: &[String]) -> bool
    ensures { result ≡ spec.is_among path.now (map string_bytes paths.now) }
{
    for other in paths {
        if path == other.as_str() {
            return true;
        }
    }
    false
}

/// Whether a command reads a file.
pub fn is_read(path: &str, records: &[CommandFiles]) -> bool
    ensures { result ≡ list_any (spec.reads_file path.now) records.now }
{
    for record in records {
        if is_among(path, record.reads.as_slice()) {
            return true;
        }
    }
    false
}

/// Whether a command writes a file, or may write it.
pub fn is_written(path: &str, records: &[CommandFiles]) -> bool
    ensures { result ≡ list_any (spec.writes_file path.now) records.now }
{
    for record in records {
        if is_among(path, record.writes.as_slice()) || is_among(path, record.may_write.as_slice()) {
            return true;
        }
    }
    false
}
