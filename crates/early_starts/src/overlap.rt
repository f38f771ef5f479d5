//! Commands that may run beside each other.

ghost use Rattle.std.specs.Prelude.{◌≡◌, map, string_bytes};
ghost use Rattle.command_files.specs.Files.{is_among, share};
ghost use Rattle.command_files.specs.PlanNeeds.{record_of};
ghost use Rattle.early_starts.specs.Overlaps as spec;

use command_files::{CommandFiles, has_word};

// Whether one of some paths is among others.
fn have_one_of(others: &[String], paths: &[String]) -> bool
    ensures { result ≡ share (map string_bytes paths.now) (map string_bytes others.now) }
{
    for path in paths {
        if has_word(others, path.as_str()) {
            return true;
        }
    }
    false
}

// Whether a command writes one of some files for certain, or may.
fn writes_one_of(files: &CommandFiles, paths: &[String]) -> bool
    ensures { result ≡ share (map string_bytes paths.now) (record_of files.now).writes }
{
    for path in paths {
        if writes(files, path.as_str()) {
            return true;
        }
    }
    false
}

// Whether a command writes a file for certain, or may.
fn writes(files: &CommandFiles, path: &str) -> bool
    ensures { result ≡ is_among (record_of files.now).writes path.now }
{
    has_word(files.writes.as_slice(), path) || has_word(files.may_write.as_slice(), path)
}

// Whether a command touches one of some files.
fn touches_one_of(files: &CommandFiles, paths: &[String]) -> bool
    ensures { result ≡ spec.touches_one_of (map string_bytes paths.now) files.now }
{
    have_one_of(files.reads.as_slice(), paths) || writes_one_of(files, paths)
}

/// Whether a command has to follow an earlier one by their records: either writes a file that the other touches.
pub fn follows(earlier: &CommandFiles, later: &CommandFiles) -> bool
    ensures { result ≡ spec.follows earlier.now later.now }
{
    touches_one_of(later, earlier.writes.as_slice())
        || touches_one_of(later, earlier.may_write.as_slice())
        || writes_one_of(later, earlier.reads.as_slice())
}
