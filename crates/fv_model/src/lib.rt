//! The machine of named file tables: its definitions (in `specs/`) and the plain types of its commands and replies.
//!
//! A machine is a set of named volumes, each a table of files with its snapshots. The definitions say what every command
//! does to it, which reply it gives and when it is refused; they know nothing of blocks on a disk. The types here are the
//! words in which commands come in and replies go out.
#![tactic(auto)]

mod answers;
mod commands;
mod naming;
mod ranges;
mod sizes;

pub use answers::{Refusal, Reply, Stat};
pub use commands::{Block, Command, Kind};
pub use naming::{Name, Names};
pub use ranges::{in_index, in_reserve, in_size, in_steps};
pub use sizes::{map_blocks, map_index, map_slot};
