//! The paths that a look-up of a program tries.

ghost use Rattle.std.specs.Prelude.{◌≡◌, ◌<◌, ◌∷◌, [], length, IfOk, IfSome, MatchOption, string_bytes};
ghost use Rattle.dry_runs.specs.Candidates.{candidates_of, in_part as path_in_part, parts_of};

use crate::is_bare;
use std::alloc::{AllocError, Global};
use texts::text::join;
use texts::words::Words;

// The path of a program in a part of `PATH`.
pub(crate) fn in_part(
    alloc: Global,
    program: &str,
    folder: &str,
    part: &str,
) -> Result<String, AllocError>
    ensures { IfOk result (λ path. string_bytes path ≡ path_in_part program.now folder.now part.now) }
{
    let base = join(alloc, folder, part)?;
    join(alloc, base.as_str(), program)
}

// The first part of a `PATH` and what follows its `:`, or `None` if all of it is one part.
pub(crate) fn first_part(path: &str) -> Option<(&str, &str)>
    ensures parts { MatchOption result (parts_of path.now ≡ path.now ∷ []) (λ cut. parts_of path.now ≡ cut.0.now ∷ parts_of cut.1.now) }
    ensures less { IfSome result (λ cut. length cut.1.now < length path.now) }
{
    path.split_once(':')
}

/// The paths that a look-up of `program` tries, in order. `path` is the value of `PATH`, and `folder` the working
/// directory.
///
/// A name that holds a `/` counts from the folder, so an absolute path is tried as it is written. Any other is tried in
/// each part of `PATH`, and an empty part is the folder itself, as POSIX has it. A part that is no absolute path counts
/// from the folder, too. An empty `PATH` is one empty part.
pub fn candidates(
    alloc: Global,
    program: &str,
    path: &str,
    folder: &str,
) -> Result<Words, AllocError>
    ensures { IfOk result (λ paths. paths ≡ candidates_of program.now path.now folder.now) }
{
    let mut paths = Words::new(alloc);
    if !is_bare(program) {
        paths.push(join(alloc, folder, program)?)?;
        return Ok(paths);
    }
    let mut rest = path;
    while let Some((part, behind)) = first_part(rest) {
        paths.push(in_part(alloc, program, folder, part)?)?;
        rest = behind;
    }
    paths.push(in_part(alloc, program, folder, rest)?)?;
    Ok(paths)
}
