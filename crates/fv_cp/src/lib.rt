//! Consistency points: all that changed in the volumes is written to free blocks, and then a new root counts. A crash at any moment
//! leaves the volumes of before or those of after. `docs/SPACE.md` has the order of a point.
#![tactic(auto)]

mod asking;
mod fault;
mod full;
mod placing;
mod planning;
mod point;
mod preparing;
mod reclaiming;
mod slots;

pub use fault::CpFault;
pub use full::full_point;
pub use placing::flush;
pub use planning::Plan;
pub use point::consistency_point;
pub use preparing::prepare;
pub use slots::known_slots;
