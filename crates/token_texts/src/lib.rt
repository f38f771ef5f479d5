//! The tokens of preprocessed C++ and CUDA texts, for the keys of a cache.
//!
//! [`token_text`] writes the tokens of a text, and leaves out what a compiler mostly doesn't see: blanks, line ends, comments
//! and line numbers. Two texts have the same tokens if and only if it writes the same for both (`laws::keys`).
#![tactic(auto)]

mod class;
pub mod laws;
mod lexer;
mod line_words;
mod text;
mod token;

pub use line_words::sees_lines;
pub use text::token_text;
