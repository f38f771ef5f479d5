//! Plans as JSON.
#![tactic(auto)]

mod json;
pub mod laws;
mod value;

pub use json::json_text;
pub use value::{push_text, put_text, put_texts, texts_value};
