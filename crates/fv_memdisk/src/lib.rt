//! A host in memory: a disk, a source and a sink that tell everything, with failures that the caller
//! names and with the disk that a crash leaves.
//!
//! It keeps each write, barrier and give as data. A moment is the state before the first call of a run
//! or after one of those calls: what a crash during a call may leave, a crash right before or right
//! after it may leave too. So the images at all moments, by all tears, stand for crashes anywhere.
//!
//! A call fails exactly where `fail` named it or no memory was found for its record, which `starved`
//! counts. A write that fails counts as written, so `Fill` fills its block. The place of a write that
//! was not kept for want of memory is known to proofs alone (`forgotten.rt`).
//!
//! A read and a write cost a block and the logarithm of the number of blocks, a barrier and a give
//! what they add, however long the past is. An image costs the calls up to its moment.
#![tactic(auto)]

mod blocks;
mod call;
mod forgotten;
mod history;
mod host;
mod kept;
mod tally;
mod torn;
mod unsettled;

pub use call::{Call, Tear};
pub use host::MemHost;
