//! Tests of trees: blocks in memory, what no clause of `fv_tree` says, and random changes against the plain
//! machine, equal in full after each step.
#![tactic(auto)]

mod memory;
mod silent;
#[cfg(test)]
mod tests;
mod untold;

pub use memory::MemBlocks;
pub use silent::Silent;
pub use untold::Untold;
