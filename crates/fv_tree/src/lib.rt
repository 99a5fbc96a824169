//! Partly loaded trees: a file's cells and marks over blocks that are read when they are needed.
//!
//! A tree reaches its blocks through the trait `Blocks`. It is seen, over the map that a `Blocks` shows,
//! as the levels, the cells and the marks of one file, by the definitions that the machine has of them.
#![tactic(auto)]

mod added;
mod blank;
mod blocks;
mod cut;
mod erase;
mod flush;
mod grow;
mod holding;
mod keep;
mod kept;
mod next;
mod pending;
mod placing;
mod read;
mod refill;
mod remove;
mod rewrite;
mod roots;
mod sharing;
mod sizes;
mod staying;
mod taken;
mod tree;
mod way;
mod write;

pub use blocks::{Blocks, Placed, TreeFault};
pub use kept::Tree;
pub use sharing::Sharing;
pub use taken::Taken;
