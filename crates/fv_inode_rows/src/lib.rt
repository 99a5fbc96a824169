//! Tests of inode files: calls that meet their premises by a look-up, what no clause of `fv_inode` says, and random changes beside a
//! plain list of files.
#![tactic(auto)]

mod calls;
mod tables;
#[cfg(test)]
mod tests;

pub use calls::{change, create, remove, set_root};
pub use tables::{
    Done, Told, length, make, read, staying, staying_by_removal, taken_by_cut, taken_by_removal,
    write,
};
