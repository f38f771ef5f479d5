//! Which file of a command is read late, and the halves of a host compile that may begin early.
//!
//! cicc reads cudafe++'s module id once it has parsed its input, so it may parse beside cudafe++.
//!
//! nvcc's last host compile reads device code in one place: a generated file, whose `asm` statement has the fatbin as numbers. So gcc can
//! make assembler text beside ptxas and fatbinary if that statement includes a file that is written later, for the assembler.
#![tactic(auto)]

pub mod late_laws;
mod module_id;
mod overlap;
mod split;
mod stub;
mod text;
mod words;

pub use module_id::{gives, late_file, module_id_option, renamed};
pub use overlap::follows;
pub use split::{Places, Split, split_compile};
pub use stub::stub_text;
pub use text::{assembler_text, placeholder};
pub use words::{Half, late_words};
