//! The second pass of a check: the walks along the pointers of all roots of an aggregate, and the blocks of its volumes as walks reach
//! them.
#![tactic(auto)]

mod entries;
mod reached;
mod roots;
mod second;
mod volume_source;

pub use entries::entry_word;
pub use reached::Reached;
pub use second::pass_two;
pub use volume_source::VolumeSource;
