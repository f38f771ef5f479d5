//! When two dry runs of one call agree.

ghost use Rattle.std.specs.Prelude.{◌≡◌, ◌<◌, None, Some, IfOk, MatchBool, MatchOption, length};
ghost use Rattle.std.specs.List.{remove};
ghost use Rattle.dry_run_pairs.specs.Agreement as spec;
ghost use Rattle.dry_run_pairs.specs.Forms.{call_of};

use crate::comparison::Comparison;
use crate::forms::forms_of;
use std::alloc::{AllocError, Global};
use texts::bytes::Bytes;

// The place of a line among others.
fn place_of(lines: &[Bytes], line: &Bytes) -> Option<usize>
    ensures { MatchOption result (spec.without_one line.now lines.now ≡ None) (λ place. (place < length lines.now) × (spec.without_one line.now lines.now ≡ Some (remove lines.now place))) }
{
    for (place, other) in lines.iter().enumerate() {
        if line == other {
            return Some(place);
        }
    }
    None
}

// Takes a line out of others. Answers whether it was there.
fn take_one(lines: &mut Vec<Bytes>, line: &Bytes) -> bool
    ensures { MatchBool result (spec.without_one line.now lines.old.items ≡ Some lines.new.items) (spec.without_one line.now lines.old.items ≡ None) }
{
    match place_of(lines.as_slice(), line) {
        None => false,
        Some(place) => {
            drop(lines.remove(place));
            true
        }
    }
}

// Whether two lists have the same lines, each as often, in any order.
fn are_same(lines: &[Bytes], mut others: Vec<Bytes>) -> bool
    ensures { result ≡ spec.are_same lines.now others.items }
{
    for line in lines {
        if !take_one(&mut others, line) {
            return false;
        }
    }
    others.is_empty()
}

/// Whether the dry run `of_line`, of a line as it is, and `of_plan`, of the words that its plan is made from, agree: they have the same
/// commands and variables, in any order. Then nvcc does for the line what the plan's commands do.
///
/// What differs between two dry runs of one call doesn't count: the directory of the call or of kept files in front of a name, where
/// temporary files are and how they are numbered, files that commands print to with `--threads`, blanks at a line's end, the file that
/// fatbinary makes with `--keep`, which files nvcc removes, nvcc's messages, and how it makes a dependency file. Directories of temporary files
/// and of kept files are found if no `=` is in their paths. Two dry runs without a command don't agree.
pub fn agree(
    alloc: Global,
    call: &Comparison<'_>,
    of_line: &[u8],
    of_plan: &[u8],
) -> Result<bool, AllocError>
    ensures { IfOk result (λ agrees. agrees ≡ spec.agree (call_of call.now) of_line.now of_plan.now) }
{
    let lines = forms_of(alloc, call, of_line)?;
    let others = forms_of(alloc, call, of_plan)?;
    Ok(!lines.is_empty() && are_same(lines.as_slice(), others))
}
