//! How the commands of a plan name files, so that two checkouts of a project make equal objects.
//!
//! nvcc's tools and host compilers write names of sources into what they make. Here a name below the folder of a checkout has the same
//! text in its place everywhere: the root.
#![tactic(auto)]

mod commands;
pub mod laws;
mod markers;
mod own;
mod paths;

pub use commands::rooted_command;
pub use markers::rooted_text;
pub use own::own_text;
pub use paths::{Root, line_word, own_path, rooted_path};
