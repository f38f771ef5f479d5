//! Why two builds differ: the first command whose result does, and what it had otherwise.
#![tactic(auto)]

mod causes;
pub mod laws;
mod ran;

pub use causes::{Cause, Part, cause_of};
pub use ran::{Ran, Record};
