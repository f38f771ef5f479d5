//! Dry runs, and the canonical names of the files that they name.

pub use canonical_names::{Renames, Suffixes, is_clean, remap_commands, remap_generated_filenames};
pub use dry_runs::{
    Commands, DryRun, FirstDir, LimitedFault, ParsedRun, ParsedRuns, Which, parse_dry_run,
    parse_dry_run_within, parse_dry_runs, parse_dry_runs_within, program_in, read_dry_run,
    read_dry_run_within,
};
