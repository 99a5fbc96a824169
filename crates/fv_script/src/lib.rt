//! The script language: reading a line, writing a reply, drawing a script; and the numbers on a command line.
#![tactic(auto)]

mod content;
mod fault;
mod files;
mod finding;
mod generate;
mod hex;
mod lines;
mod others;
mod read;
mod seeds;
mod snapshots;
mod summary;
mod values;
mod volumes;
mod words;
mod write;

pub use fault::LineFault;
pub use finding::before;
pub use generate::Generator;
pub use read::{LONGEST, read_into, read_line};
pub use seeds::{read_draws, read_seed};
pub use summary::write_summary;
pub use values::read_blocks;
pub use write::{write_done, write_reply};
