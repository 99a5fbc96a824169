//! The fourth pass of a check: the fault lines (`fv_faults`) of hints, of bases, and of the space that volumes use, commit and need.
#![tactic(auto)]

mod bases;
mod charging;
mod filled;
mod hints;
mod needs;
mod numbers;
mod pass;
mod places;
mod reach_sets;
mod space;
mod space_sums;
mod tables;
mod tally;
mod uses;
mod volume;

pub use bases::note_base;
pub use charging::charge_of;
pub use filled::count_filled;
pub use pass::pass_four;
pub use space::{Filled, note_commits, note_room};
pub use tables::{Walked, note_roots};
pub use uses::{count_charge, count_used, note_use};
