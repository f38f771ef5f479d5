//! Lines and plans as text: in a fixed format, as shell scripts and as Ninja files.
#![tactic(auto)]

mod description;
mod format;
mod judging;
pub mod laws;
mod line;
mod ninja;
mod plan;
mod refusal;
mod shell;
mod tool;

pub use format::Format;
pub use judging::{holds_text, holds_words, judge_commands};
pub use line::show_line;
pub use ninja::ninja_file;
pub use plan::show_plan;
pub use refusal::Refusal;
pub use shell::{assignments, push_command, shell_script};
pub use tool::Tool;
