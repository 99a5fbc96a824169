//! The commands on snapshots of a volume: one is made of the active table, one is removed, and the active table becomes that of one.
//! Each is judged first, and what changed of the files is placed before the snapshots change; nothing is copied but maps.
#![tactic(auto)]

mod creating;
mod deleting;
mod restoring;

pub use creating::{Granted, create, judge_create, make};
pub use deleting::delete;
pub use restoring::restore;
