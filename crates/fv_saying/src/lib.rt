//! The other way of the script language: the line that says a command, and the script of a seed as text.
#![tactic(auto)]

mod drawn;
mod spelling;
mod write;

pub use drawn::{generated_reads_back, write_generated};
pub use write::write_command;
