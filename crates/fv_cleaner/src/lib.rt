//! Filling in the places of a volume that has pointers without them, block by block.
#![tactic(auto)]

mod cleaning;
mod filling;
mod searching;
mod stepping;

pub use cleaning::{clean_finish, clean_step};
pub use filling::fill_all;
pub use searching::{Found, find_under};
