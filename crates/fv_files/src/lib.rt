//! The active table of a volume in memory: its inode file, and the trees of the files that changed since the last flush.
//!
//! A table reaches its blocks through the trait `Blocks` of `fv_tree`. Over the map that a `Blocks` shows it is seen as the
//! machine's table, by the definitions of `fv_tables`.
#![tactic(auto)]

mod added;
mod create;
mod cut;
mod files;
mod flush;
mod held;
mod hold;
mod list;
mod numbers;
mod pending;
mod read;
mod remove;
mod staying;
mod taken;
mod taking;
mod write;

pub use files::{Files, FilesFault};
pub use numbers::FileNumbers;
