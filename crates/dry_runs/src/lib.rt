//! Dry runs: the commands and the environment that `nvcc --dryrun` prints, and the look-up of the programs in it.
#![tactic(auto)]

mod asking;
mod disk;
mod environment;
pub mod laws;
mod limit;
mod lines;
mod lookup;
pub mod lookup_laws;
mod lookup_limit;
mod parsed;
mod parsed_runs;
mod places;
mod plain_words;
mod reader;
mod search_path;
mod set_variables;
mod snapshot;
mod statement;
mod which;

pub use asking::{asked_lookups, asked_lookups_of_both, lookups_of_runs};
pub use compilers::dry_run::{Commands, DryRun};
pub use disk::{snapshot_by, snapshot_for, snapshot_of};
pub use environment::{assignment, expanded_words};
pub use limit::LimitedFault;
pub use lines::{first_line, is_dry_run, marked};
pub use lookup::Lookup;
pub use lookup_limit::parse_within;
pub use parsed::ParsedRun;
pub use parsed_runs::{ParsedRuns, parse_dry_runs, parse_dry_runs_within};
pub use reader::{parse_dry_run, parse_dry_run_within, read_dry_run, read_dry_run_within};
pub use search_path::candidates;
pub use set_variables::SetVariables;
pub use snapshot::{Entry, Snapshot};
pub use statement::{Statement, statement_of, statement_within};
pub use texts::text::is_bare;
pub use which::{FirstDir, Which, program_in};
