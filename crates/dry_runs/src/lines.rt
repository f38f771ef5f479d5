//! The lines of a dry run.

ghost use Rattle.std.specs.Prelude.{◌≡◌, ◌<◌, ◌∷◌, [], length, MatchOption, IfSome, option_copied};
ghost use Rattle.std.specs.Str.Lines.{lines, strip_carriage_return};
ghost use Rattle.dry_runs.specs.DryRunLines.{marked_text};
ghost use Rattle.dry_runs.specs.DryRunText as spec;

use memchr::memchr;

// A line without the carriage return that it ends in, if it does.
fn without_return(line: &[u8]) -> &[u8]
    ensures { result.now ≡ strip_carriage_return line.now }
{
    match line {
        [front @ .., b'\r'] => front,
        _ => line,
    }
}

/// The first line of `rest` and what follows it, or `None` if nothing is left.
///
/// A line ends at a newline. One carriage return right before that newline is removed too. The text after the last
/// newline is a line of its own unless it is empty, and keeps its carriage return.
pub fn first_line(rest: &[u8]) -> Option<(&[u8], &[u8])>
    ensures lines { MatchOption result (lines rest.now ≡ []) (λ cut. lines rest.now ≡ cut.0.now ∷ lines cut.1.now) }
    ensures less { IfSome result (λ cut. length cut.1.now < length rest.now) }
{
    if rest.is_empty() {
        return None;
    }
    match memchr(b'\n', rest) {
        None => Some((rest, &[])),
        Some(end) => Some((without_return(&rest[..end]), &rest[end + 1..])),
    }
}

/// What follows a line's mark, the text `#$ `, or `None` if the line has no mark.
pub fn marked(line: &str) -> Option<&str>
    ensures { option_copied result ≡ marked_text line.now }
{
    line.strip_prefix("#$ ")
}

/// Whether a text has a line of a dry run: one that begins with `#$ `, as nvcc prints it.
pub fn is_dry_run(bytes: &[u8]) -> bool
    ensures { result ≡ spec.is_dry_run bytes.now }
{
    let mut rest = bytes;
    while let Some((line, behind)) = first_line(rest) {
        if line.starts_with(b"#$ ") {
            return true;
        }
        rest = behind;
    }
    false
}
