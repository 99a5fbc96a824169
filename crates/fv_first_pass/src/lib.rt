//! The first pass of a check: the fault lines (`fv_faults`) of the root, the labels and the containers of an aggregate.
#![tactic(auto)]

mod against;
mod bases;
mod child;
mod container;
mod fault;
mod first;
mod label;
mod labels;
mod names;
mod node;
mod noting;
mod places;
mod roots;
mod said;
mod site;
mod slots;
mod tree;
mod verdict;
mod volume_names;

pub use against::{note_base, note_stops};
pub use bases::parent_from;
pub use container::read_container;
pub use fault::CheckFault;
pub use first::{Known, pass_one};
pub use labels::read_labels;
pub use roots::note_roots;
pub use site::Site;
pub use verdict::Verdict;
