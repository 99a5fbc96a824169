//! One volume of an aggregate, and the calls on its files. `fv_pool` has what volumes share, and how the blocks of one are lent to its
//! trees; `fv_volumes` has all volumes by slot.
#![tactic(auto)]

mod active;
mod admitting;
mod asking;
mod changing;
mod cloning;
mod judging;
mod known;
mod label;
mod making;
mod mirroring;
mod moving;
mod numbering;
mod placing;
mod probing;
mod promising;
mod removing;
mod room;
mod rooting;
mod sizes;
mod snaps;
mod standing;
mod state;
mod tables;

pub use fv_pool::{
    Guard, Home, Kept, Noted, Pool, Rooted, VolumeBlocks, VolumeDrops, VolumeFault, VolumePlaces,
    place_block, read_pointed,
};
pub use label::read_label;
pub use sizes::{entry_count, map_vvbn};
pub use state::{Base, Snap, Snapshots, VolumeState, new_ledger};
