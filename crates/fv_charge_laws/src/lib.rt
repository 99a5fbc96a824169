//! The law of the kept ledger: after any list of changes its numbers are those that are counted from scratch.
#![tactic(auto)]

mod laws;

pub use laws::{calls_keep_it, change_all};
