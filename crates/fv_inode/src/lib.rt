//! Inode files: the files of a table by their names, as records in the cells of a tree.
#![tactic(auto)]

mod blank;
mod change;
mod create;
mod file;
mod find;
mod info;
mod list;
mod losing;
mod ready;
mod records;
mod remove;
mod root;

pub use create::least_levels;
pub use file::InodeFile;
pub use info::{Info, InodeFault};
