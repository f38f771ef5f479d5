//! Two dry runs of one call: whether they agree, so that the plan of one does what the line asks for; and what else is read off them.
//!
//! nvcc's own dry run of a line says which commands it would run. A plan is made from dry runs of other words: those of the line's normal
//! form, with options that keep generated files. So a call is split only if the dry run of the line and that of the plan agree.
#![tactic(auto)]

mod agreement;
mod comparison;
mod cuts;
mod forms;
pub mod laws;
mod lines;
mod names;
mod remarks;

pub use agreement::agree;
pub use comparison::Comparison;
pub use forms::prints_to_files;
pub use names::{is_temporary, without_folder};
pub use remarks::{fails_by_threads, remarks_in, runs_devices_first, with_commands};
