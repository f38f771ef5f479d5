//! The two dry runs of a call, parsed.

ghost use Rattle.std.specs.Prelude.{◌≡◌, IfOk};
ghost use Rattle.dry_runs.specs.Limit.{UnlessMemoryWithin};
ghost use Rattle.dry_runs.specs.Parsed as spec;

use crate::limit::LimitedFault;
use crate::parsed::ParsedRun;
use crate::reader::{parse_dry_run, parse_dry_run_within};
use std::alloc::{AllocError, Global};

/// The two dry runs of one nvcc call, parsed.
#[derive(Debug, Drop)]
pub struct ParsedRuns {
    /// What nvcc prints with `--dryrun --keep`.
    pub first: ParsedRun,
    /// What nvcc prints with `--keep-dir TMP --dryrun --keep`.
    pub second: ParsedRun,
}

/// Parses the two dry runs of a call, each as `parse_dry_run` does.
///
/// The only error is a failed allocation. Parse dry runs that you don't trust with `parse_dry_runs_within`.
pub fn parse_dry_runs(alloc: Global, dry1: &[u8], dry2: &[u8]) -> Result<ParsedRuns, AllocError>
    ensures { IfOk result (λ runs. runs ≡ spec.both_parsed dry1.now dry2.now) }
{
    let first = parse_dry_run(alloc, dry1, 1)?;
    let second = parse_dry_run(alloc, dry2, 2)?;
    Ok(ParsedRuns { first, second })
}

/// Parses the two dry runs of a call, each as `parse_dry_run_within` does, with the whole limit.
///
/// The errors are those of `parse_dry_run_within`. An error in the first run takes precedence.
pub fn parse_dry_runs_within(
    alloc: Global,
    dry1: &[u8],
    dry2: &[u8],
    limit: usize,
) -> Result<ParsedRuns, LimitedFault>
    ensures answer { UnlessMemoryWithin result (spec.both_parsed_within limit dry1.now dry2.now) }
    ensures whole { IfOk result (λ runs. runs ≡ spec.both_parsed dry1.now dry2.now) }
{
    let first = parse_dry_run_within(alloc, dry1, 1, limit)?;
    let second = parse_dry_run_within(alloc, dry2, 2, limit)?;
    Ok(ParsedRuns { first, second })
}
