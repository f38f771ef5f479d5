//! What the lines and the dry runs are made of: texts, paths, words, variables, languages and faults, and the words of shell commands.
#![tactic(auto)]

pub mod bytes;
pub mod compilation_flags;
pub mod decimal;
pub mod device_files;
pub mod extension;
pub mod fault;
pub mod language;
pub mod laws;
pub mod shell;
pub mod shell_laws;
pub mod status;
pub mod text;
pub mod variables;
pub mod words;
