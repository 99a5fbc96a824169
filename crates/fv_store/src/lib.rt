//! Block reads through a cache: the blocks that were used last are held in memory.
//!
//! A store is seen as the list of the pairs of block number and block that it holds, the most recently
//! used first. `specs/Held.antt` says what each call makes of the list. A read is the disk's, held or not.
#![tactic(auto)]

mod judged;
mod store;

pub use store::Store;
