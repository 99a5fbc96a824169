//! Containers: which block stands under each VVBN of a volume.
#![tactic(auto)]

mod bits;
mod chain;
mod container;
mod entry;
mod fault;
mod finding;
mod flush;
mod free;
mod known;
mod layout;
mod leaf;
mod load;
mod looking;
mod marking;
mod passing;
mod places;
mod position;
mod steps;
mod telling;
mod told;
mod write;

pub use chain::Containers;
pub use container::Container;
pub use entry::Entry;
pub use fault::ContainerFault;
pub use free::Free;
pub use layout::height_of;
pub use steps::Steps;
