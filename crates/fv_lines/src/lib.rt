//! The lines of the script that a host's source has, one after another, up to a limit of bytes.
#![tactic(auto)]

mod reading;
mod script;

pub use reading::{Found, next_line};
pub use script::Script;
