//! The marks of a dry run's lines.

ghost use Rattle.std.specs.Prelude.{◌≡◌, option_copied};
ghost use Rattle.dry_run_pairs.specs.Lines as spec;

use crate::cuts::behind;

// What follows the mark of a line that isn't a message of nvcc.
pub fn marked(line: &[u8]) -> Option<&[u8]>
    ensures { option_copied result ≡ spec.marked line.now }
{
    behind(line, b"#$ ")
}

// Whether a line has such a mark.
pub fn is_marked(line: &[u8]) -> bool
    ensures { result ≡ spec.is_marked line.now }
{
    marked(line).is_some()
}
