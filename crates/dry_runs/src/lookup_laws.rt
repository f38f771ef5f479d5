//! Laws of asked look-ups and of snapshots.

ghost use Rattle.dry_runs.specs.LookupLaws.{ReadsAlike, SnapshotReads, AskedOnce, FirstFolderIsFirst, AskedInOrder, AskedExpanded, AskedBeforeABadLine, AskedByBoth, AskedByAnotherPath};

/// What a dry run says depends on a look-up by its answers to what the dry run asks for, and by nothing else.
///
/// - `alike`: two look-ups that answer alike what a dry run asks for read it alike.
/// - `snapshot`: the entries that a look-up gives for what two dry runs ask for read both as the look-up itself does.
/// - `once`: no look-up is listed twice.
pub fn reading()
    ensures alike { ReadsAlike }
    ensures snapshot { SnapshotReads }
    ensures once { AskedOnce }
{}

/// Where the first folder of `PATH` is an absolute path, or the name holds a `/`, the path that `FirstDir` answers is the
/// first candidate.
pub fn first_candidate()
    ensures { FirstFolderIsFirst }
{}

/// What some dry runs ask for, by the definitions.
pub fn worked_lookups()
    ensures asked_in_order { AskedInOrder }
    ensures asked_expanded { AskedExpanded }
    ensures asked_before_a_bad_line { AskedBeforeABadLine }
    ensures asked_by_both { AskedByBoth }
    ensures asked_by_another_path { AskedByAnotherPath }
{}
