//! The aggregate map in memory: which blocks the root on the disk holds, and which the next root will
//! hold. A block is free where neither holds it. `docs/SPACE.md` says why both count.
#![tactic(auto)]

mod fault;
mod free;
mod freeing;
mod load;
mod map;

pub use fault::AggFault;
pub use map::AggMap;
