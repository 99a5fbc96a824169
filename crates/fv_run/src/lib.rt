//! The top call: everything that the program does, from the words of its command line to the bytes
//! that it gives out and the status that it ends with.
#![tactic(auto)]

mod answering;
mod checking;
mod create;
mod ending;
mod generating;
mod program;
mod running;
mod verdict;
mod words;

pub use generating::run_generated;
pub use program::flexvol;
pub use running::run_script;
pub use words::{Order, WordsFault, read_words};
