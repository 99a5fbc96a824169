//! Delayed frees: which regions of the containers a consistency point reclaims, and the reclaim of one.
//!
//! A block that is freed in its volume stays in the container and in the aggregate map until its region is
//! reclaimed. `specs/Delay.antt` says which entries wait so, `specs/Choice.antt` which regions are chosen,
//! `specs/ByThreshold.antt` how that is found without a list, and `specs/Reclaims.antt` what a reclaim makes of them.
#![tactic(auto)]

mod choosing;
mod counts;
mod delayed;
mod listed;
mod reclaiming;
mod regions;
mod taken;
mod threshold;

pub use choosing::choose_regions;
pub use counts::{Count, Counts};
pub use delayed::delayed_by_region;
pub use listed::Listed;
pub use reclaiming::reclaim;
pub use regions::{Region, Regions};
pub use taken::{mark_taken, reclaim_taken, table_of};
pub use threshold::{Table, Threshold};
