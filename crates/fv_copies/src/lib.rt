//! Copies of the blocks under the numbers of a slot of a volume's maps, without places, which a sink takes one after another.
#![tactic(auto)]

mod copying;
mod landing;
mod sink;

pub use copying::copy_blocks;
pub use landing::{Landing, copy_into};
pub use sink::Sink;
