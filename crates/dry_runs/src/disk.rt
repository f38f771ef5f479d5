//! The answers of a disk.

ghost use Rattle.std.specs.Prelude.{◌≡◌, ◌≢◌, ◌↔◌, ℕ, List, Bool, IsTrue, IfOk, bit_and};
ghost use Rattle.std.specs.Fs.{IsFile, file_type, metadata_mode};
ghost use Rattle.dry_runs.specs.Asked.{asked_by, asked_of_both};
ghost use Rattle.dry_runs.specs.Candidates.{found_on};
ghost use Rattle.dry_runs.specs.Snapshot as spec;

use crate::asking::{asked_lookups_of_both, lookups_of_runs};
use crate::lookup::Lookup;
use crate::search_path::candidates;
use crate::snapshot::{Entry, Snapshot};
use crate::{ParsedRuns, parse_dry_runs};
use std::alloc::{AllocError, Global};
use std::fs::{self, Files, Metadata};
use std::os::unix::fs::MetadataExt;
use texts::text::Text;
use texts::words::Words;

// The bits of a file's mode that let its owner, its group and all others run it.
const EXECUTE_BITS: u32 = 0o111;

// The first path of which `runs` says yes.
fn first_that<F: Fn(&str) -> bool>(
    alloc: Global,
    paths: &Words,
    runs: &F,
) -> Result<Option<Text>, AllocError>
    requires { F.IsAlwaysCallable runs.now }
    ensures { IfOk result (λ found. spec.IsFirstThat (F.post runs.now) paths.now found) }
{
    for path in paths {
        if runs(path.as_str()) {
            return Ok(Some(Text::copy_of(alloc, path.as_str())?));
        }
    }
    Ok(None)
}

// What a look-up finds: the first of its paths of which `runs` says yes.
fn found_by<F: Fn(&str) -> bool>(
    alloc: Global,
    lookup: &Lookup,
    runs: &F,
) -> Result<Option<Text>, AllocError>
    requires { F.IsAlwaysCallable runs.now }
    ensures { IfOk result (λ found. spec.IsFirstThat (F.post runs.now) (spec.tried_by lookup.now) found) }
{
    let paths = candidates(
        alloc,
        lookup.program.as_str(),
        lookup.path.as_str(),
        lookup.folder.as_str(),
    )?;
    first_that(alloc, &paths, runs)
}

fn answered<F: Fn(&str) -> bool>(
    alloc: Global,
    lookups: Vec<Lookup>,
    runs: &F,
) -> Result<Snapshot, AllocError>
    requires { F.IsAlwaysCallable runs.now }
    ensures taken { IfOk result (λ snapshot. spec.IsTaken (F.post runs.now) lookups.items snapshot) }
    ensures tried { IfOk result (λ snapshot. spec.IsSnapshotOf lookups.items snapshot) }
{
    let mut entries = Vec::new(alloc);
    for lookup in lookups {
        let found = found_by(alloc, &lookup, runs)?;
        entries.push(Entry { lookup, found })?;
    }
    Ok(Snapshot::new(entries))
}

/// A snapshot of the look-ups that reading two dry runs from the working directory `folder` makes: each look-up once, in
/// order of first ask. A look-up finds the first of its `candidates` that `runs` accepts as a program.
///
/// If `runs` is a function of the path, reading with the snapshot equals reading with the look-up itself
/// (`lookup_laws::reading`). The only error is a failed allocation.
pub fn snapshot_by<F: Fn(&str) -> bool + Drop>(
    alloc: Global,
    dry1: &[u8],
    dry2: &[u8],
    folder: &str,
    runs: F,
) -> Result<Snapshot, AllocError>
    requires { F.IsAlwaysCallable runs }
    ensures taken { IfOk result (λ snapshot. spec.IsTaken (F.post runs) (asked_of_both dry1.now dry2.now folder.now) snapshot) }
    ensures tried { IfOk result (λ snapshot. spec.IsSnapshotOf (asked_of_both dry1.now dry2.now folder.now) snapshot) }
    ensures exact { (test : List ℕ → Bool) → spec.AnswersAs (F.post runs) test
        → IfOk result (λ snapshot. snapshot ≡ spec.taken (found_on test) (asked_of_both dry1.now dry2.now folder.now)) }
{
    let both = asked_lookups_of_both(alloc, dry1, dry2, folder)?;
    answered(alloc, both, &runs)
}

// Whether a file is a plain one, with an execute bit.
fn is_runnable(file: &Metadata) -> bool
    ensures { IsTrue result ↔ (IsFile (file_type file.now) × (bit_and (metadata_mode file.now) 0o111 ≢ 0)) }
{
    file.is_file() && file.mode() & EXECUTE_BITS != 0
}

// Whether a path names such a file. It doesn't where the disk answers an error, as for a file that isn't there.
fn is_program<R: Files>(rt: &R, path: &str) -> bool {
    fs::metadata(rt, path).is_ok_and(|file| is_runnable(&file))
}

/// A snapshot of the disk: the look-ups that two parsed runs ask for from the working directory `folder`, each once, in order of
/// first ask.
///
/// A look-up finds the first of its `candidates` that is a plain file with an execute bit. It follows symbolic links.
/// Any execute bit will do: owner, group or others. Whether this very process may run the file can't be asked here, so
/// an access list or a file system mounted `noexec` shows only when the program runs. A path that can't be read counts
/// as missing.
///
/// The only error is a failed allocation. If a program is missing, the planning that uses the snapshot refuses the run.
pub fn snapshot_for<R: Files + AllocGlobal>(
    rt: &R,
    runs: &ParsedRuns,
    folder: &str,
) -> Result<Snapshot, AllocError>
    ensures { IfOk result (λ snapshot. spec.IsSnapshotOf (asked_by folder.now runs.now) snapshot) }
{
    let lookups = lookups_of_runs(rt.alloc(), runs, folder)?;
    answered(rt.alloc(), lookups, &|path: &str| is_program(rt, path))
}

/// A snapshot of the disk as `snapshot_for` takes it, of the look-ups that reading two dry runs from the working directory
/// `folder` makes.
///
/// The only error is a failed allocation. If a text can't be read or a program is missing, the reading that uses the
/// snapshot refuses it.
pub fn snapshot_of<R: Files + AllocGlobal>(
    rt: &R,
    dry1: &[u8],
    dry2: &[u8],
    folder: &str,
) -> Result<Snapshot, AllocError>
    ensures { IfOk result (λ snapshot. spec.IsSnapshotOf (asked_of_both dry1.now dry2.now folder.now) snapshot) }
{
    let runs = parse_dry_runs(rt.alloc(), dry1, dry2)?;
    let snapshot = snapshot_for(rt, &runs, folder);
    // Dropped by a call: see "Explicit drops" in docs/ARCHITECTURE.md.
    drop(runs);
    snapshot
}
