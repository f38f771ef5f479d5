//! Layouts of source texts, for the keys of a cache.
//!
//! [`layout`] writes what of a text a preprocessor may see but for comments, blanks and empty lines. Texts of one layout have the same tokens and the
//! same directives (`laws::readings`). [`shuts_lines_out`] says whether words never become the number of a line.
#![tactic(auto)]

mod bytes;
pub mod laws;
mod line_numbers;
mod reader;
mod state;
mod text;

pub use line_numbers::{Macro, shuts_lines_out};
pub use text::layout;
