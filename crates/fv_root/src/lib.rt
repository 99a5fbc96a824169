//! The fixed blocks of an aggregate: its superblock, two root slots with their gates, and the two map
//! areas. `docs/FORMAT.md` has their layout and the order of writes.
#![tactic(auto)]

mod find;
mod fresh;
mod next;
mod places;
mod sizes;

pub use find::{Found, RootFault, find_root};
pub use fresh::format;
pub use next::{commit, next_found};
pub use places::{area_place, root_place};
pub use sizes::{area_blocks, capacity, first_block};
