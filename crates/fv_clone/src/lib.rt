//! The command that makes a clone: a volume that begins with the table of another volume's snapshot, and shares its blocks. It's judged first,
//! and then made in memory; nothing is copied but maps.
#![tactic(auto)]

mod admitting;
mod creating;

pub use admitting::{Admitted, admit};
pub use creating::{create, make};
