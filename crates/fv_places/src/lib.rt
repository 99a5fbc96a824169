//! What stays where a block moves under its number: the laws of hints, which are the places that pointers name; and calls that take the
//! places out of a block, and look for one that isn't known.
#![tactic(auto)]

mod blanks;
mod kind;
mod unknown;

pub use blanks::blank;
pub use kind::form_of;
pub use unknown::{first_unknown, has_unknown, is_unknown, roots_of};
