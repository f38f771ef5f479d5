//! The look-ups that reading a dry run makes.

ghost use Rattle.std.specs.Prelude.{◌≡◌, IfOk, OnOk};
ghost use Rattle.dry_runs.specs.Lookup.{with_lookups};
ghost use Rattle.dry_runs.specs.Asked as spec;
ghost use Rattle.dry_runs.specs.Asked.{asked_of, asked_of_both};

use crate::lookup::{Lookup, add};
use crate::{ParsedRun, ParsedRuns, parse_dry_run, parse_dry_runs, program_in};
use std::alloc::{AllocError, Global};

// Appends the look-ups of a run's commands, unless the list has them.
fn add_asked(
    alloc: Global,
    lookups: &mut Vec<Lookup>,
    run: &ParsedRun,
    folder: &str,
) -> Result<(), AllocError>
    ensures { OnOk result (lookups.new.items ≡ with_lookups lookups.old.items (spec.lookups_in folder.now run.now)) }
{
    let path = run.path();
    for command in run.commands.as_slice() {
        let program = program_in(path, command.1.as_str());
        add(alloc, lookups, program, path, folder)?;
    }
    Ok(())
}

/// The look-ups that two parsed runs ask for from the working directory `folder`: those of the first, followed by those of the
/// second that the first doesn't ask for. No look-up is listed twice.
///
/// Each command is compared with the look-ups listed before it. If all commands of a run name different programs, the
/// time is quadratic in their number; nvcc names some ten. The only error is `AllocError`.
pub fn lookups_of_runs(
    alloc: Global,
    runs: &ParsedRuns,
    folder: &str,
) -> Result<Vec<Lookup>, AllocError>
    ensures { IfOk result (λ lookups. lookups.items ≡ spec.asked_by folder.now runs.now) }
{
    let mut lookups = Vec::new(alloc);
    add_asked(alloc, &mut lookups, &runs.first, folder)?;
    add_asked(alloc, &mut lookups, &runs.second, folder)?;
    Ok(lookups)
}

/// The look-ups that reading a dry run makes from the working directory `folder`, in order of first ask, none twice.
///
/// They depend on the text and the folder alone, not on what a look-up answers. A line that no answer can make good
/// ends the list, as it ends the reading. Reading also ends at the first program that isn't found; the list goes on, and
/// includes what the later lines would have asked for.
///
/// It takes the time that `lookups_of_runs` says. The only error is `AllocError`. A text that can't be read is refused by
/// `read_dry_run`.
pub fn asked_lookups(alloc: Global, dry_run: &[u8], folder: &str) -> Result<Vec<Lookup>, AllocError>
    ensures { IfOk result (λ lookups. lookups.items ≡ asked_of dry_run.now folder.now) }
{
    let run = parse_dry_run(alloc, dry_run, 1)?;
    let mut lookups = Vec::new(alloc);
    let added = add_asked(alloc, &mut lookups, &run, folder);
    // Dropped by a call: see "Explicit drops" in docs/ARCHITECTURE.md.
    drop(run);
    added?;
    Ok(lookups)
}

/// The look-ups that reading the two dry runs of one call makes from the working directory `folder`: those of `dry1`,
/// followed by those of `dry2` that `dry1` doesn't make.
///
/// It lists each run as `asked_lookups` does. The only error is `AllocError`.
pub fn asked_lookups_of_both(
    alloc: Global,
    dry1: &[u8],
    dry2: &[u8],
    folder: &str,
) -> Result<Vec<Lookup>, AllocError>
    ensures { IfOk result (λ lookups. lookups.items ≡ asked_of_both dry1.now dry2.now folder.now) }
{
    let runs = parse_dry_runs(alloc, dry1, dry2)?;
    let lookups = lookups_of_runs(alloc, &runs, folder);
    // Dropped by a call: see "Explicit drops" in docs/ARCHITECTURE.md.
    drop(runs);
    lookups
}
