//! The key of a command, for caches: its words and the variables that its tool reads, in a text that doesn't depend on where
//! temporary files are.
//!
//! The key has a mark in place of each *root*, a directory whose path doesn't count. A mark can't occur in a command, so a key
//! says which command it is of: commands with one key are the same but for their roots (`laws::keys`). The key says nothing
//! of the contents of files: a cache adds those.
#![tactic(auto)]

mod actions;
mod counting;
mod environment;
mod images;
mod keys;
mod known_words;
pub mod laws;
mod marks;
mod reading;

pub use actions::{Action, action_key, may_be_shared};
pub use counting::{CountedWord, NamedFiles, counted_key, counted_text, counted_words};
pub use environment::tool_variables;
pub use keys::{MOST_ROOTS, command_key};
pub use known_words::{
    Form, KnownWord, Meaning, known_word, names_reach, own_name_reaches, own_words, shared_words,
};
pub use marks::Part;
pub use reading::{ReadWord, Role, read_words};
