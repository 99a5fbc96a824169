//! The volumes of an aggregate by slot: reading them from their root, making, finding and removing them, what they commit together, and
//! writing the stored form of one. `fv_volume` has what one volume is.
#![tactic(auto)]

mod admit;
mod destroying;
mod giving;
mod learning;
mod load;
mod promising;
mod putting;
mod search;
mod standing;
mod taking;
mod volumes;
mod write;

pub use admit::{Admitted, Wanted};
pub use taking::mark_maps;
pub use volumes::Volumes;
pub use write::write_volume;
