//! A limit for the paths that look-ups try.

ghost use Rattle.std.specs.Prelude.{◌≡◌, ◌+◌, length, IfOk, Ok};
ghost use Rattle.texts.specs.Results.{and_then};
ghost use Rattle.dry_runs.specs.Limit.{UnlessMemoryWithin, left_behind};
ghost use Rattle.dry_runs.specs.Parsed.{both_parsed};
ghost use Rattle.dry_runs.specs.Candidates.{candidates_of};
ghost use Rattle.dry_runs.specs.LookupLimit as spec;

use crate::search_path::{first_part, in_part};
use crate::{LimitedFault, ParsedRun, ParsedRuns, is_bare, parse_dry_runs_within, program_in};
use std::alloc::{AllocError, Global};
use texts::text::join;

// What a path counts beside its bytes: trying it is a call of the system.
const PATH_COST: usize = 16;

// What is left of a limit once a path is tried.
fn left_behind_path(left: usize, path: &str) -> Option<usize>
    ensures { result ≡ left_behind left (length path.now + spec.path_cost) }
{
    left.checked_sub(path.len())?.checked_sub(PATH_COST)
}

// What is left once the paths of a look-up are tried.
fn left_behind_lookup(
    alloc: Global,
    left: usize,
    program: &str,
    path: &str,
    folder: &str,
) -> Result<Option<usize>, AllocError>
    ensures { IfOk result (λ room. room ≡ left_behind left (spec.tried_bytes (candidates_of program.now path.now folder.now))) }
{
    if !is_bare(program) {
        let tried = join(alloc, folder, program)?;
        return Ok(left_behind_path(left, tried.as_str()));
    }
    let mut room = left;
    let mut rest = path;
    while let Some((part, behind)) = first_part(rest) {
        let tried = in_part(alloc, program, folder, part)?;
        let Some(less) = left_behind_path(room, tried.as_str()) else {
            return Ok(None);
        };
        room = less;
        rest = behind;
    }
    let tried = in_part(alloc, program, folder, rest)?;
    Ok(left_behind_path(room, tried.as_str()))
}

// The line of the first command of a run whose look-up exceeds the limit, with those before it.
fn over_in(
    alloc: Global,
    run: &ParsedRun,
    folder: &str,
    limit: usize,
) -> Result<Option<usize>, AllocError>
    ensures { IfOk result (λ line. line ≡ spec.over_in limit folder.now run.now) }
{
    let path = run.path();
    let mut left = limit;
    for command in run.commands.as_slice() {
        let program = program_in(path, command.1.as_str());
        match left_behind_lookup(alloc, left, program, path, folder)? {
            None => return Ok(Some(command.0)),
            Some(less) => left = less,
        }
    }
    Ok(None)
}

// Refuses two runs if the look-ups of one exceed the limit.
fn check_runs(
    alloc: Global,
    runs: &ParsedRuns,
    folder: &str,
    limit: usize,
) -> Result<(), LimitedFault>
    ensures { UnlessMemoryWithin (and_then result (λ _. Ok runs.now)) (spec.fitting_runs limit folder.now (Ok runs.now)) }
{
    if let Some(line) = over_in(alloc, &runs.first, folder, limit)? {
        return Err(LimitedFault::TooLong { run: 1, line });
    }
    if let Some(line) = over_in(alloc, &runs.second, folder, limit)? {
        return Err(LimitedFault::TooLong { run: 2, line });
    }
    Ok(())
}

/// Parses two dry runs as `parse_dry_runs_within`, and counts the paths that looking up their programs from the working
/// directory `folder` tries.
///
/// Each command counts the `candidates` of its program: of each its bytes, and 16 more, since trying one is a call of the
/// system. The look-ups of each run have the whole limit. The first command that exceeds it refuses the runs with
/// `LimitedFault::TooLong`. A run that can't be parsed within the limit takes precedence.
pub fn parse_within(
    alloc: Global,
    dry1: &[u8],
    dry2: &[u8],
    folder: &str,
    limit: usize,
) -> Result<ParsedRuns, LimitedFault>
    ensures answer { UnlessMemoryWithin result (spec.both_fitting limit folder.now dry1.now dry2.now) }
    ensures whole { IfOk result (λ runs. runs ≡ both_parsed dry1.now dry2.now) }
{
    let runs = parse_dry_runs_within(alloc, dry1, dry2, limit)?;
    match check_runs(alloc, &runs, folder, limit) {
        Ok(()) => Ok(runs),
        Err(fault) => {
            // Dropped by a call: see "Explicit drops" in docs/ARCHITECTURE.md.
            drop(runs);
            Err(fault)
        }
    }
}
