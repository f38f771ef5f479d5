//! What a program does around its engines: the words of its call, the files it reads, how it writes what an engine made, and what it says
//! when it stops.
#![tactic(auto)]

mod engine;
pub mod laws;
mod operands;
mod sources;
mod start;
mod stop;

pub use engine::{deliver, write_line, write_plan, write_plan_of_files};
pub use operands::{LineCall, PlanCall, line_call, plan_call};
pub use sources::{Disk, Sources};
pub use start::{Process, Start, call_words};
pub use stop::{Stop, complain};
