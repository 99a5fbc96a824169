//! What the volumes of an aggregate share: reads through a cache, the aggregate map, the containers, and the blocks that were placed
//! and aren't written yet; and how the blocks of one volume are lent to its trees. `docs/SPACE.md` says when kept blocks are written.
//! `fv_volume` has what one volume is.
#![tactic(auto)]

mod blocks;
mod fault;
mod kept;
mod known;
mod lent_changes;
mod lent_files;
mod lent_placing;
mod lent_removals;
mod lent_staying;
mod looking;
mod moving;
mod noted;
mod pool;
mod rooted;
mod volume_blocks;
mod volume_drops;
mod volume_places;

pub use blocks::{Home, place_block, read_pointed, read_pointed_as};
pub use fault::VolumeFault;
pub use kept::Kept;
pub use known::known_maps;
pub use lent_changes::{added_told, create_told, number_told, room_told, write_told};
pub use lent_files::{cell_told, find_told, kept_table, list_told, numbers_told, take_table};
pub use lent_placing::place_table;
pub use lent_removals::{cut_told, remove_told};
pub use lent_staying::{staying_new_told, staying_told, taken_cut_told, taken_removal_told};
pub use looking::find_held;
pub use moving::move_block;
pub use noted::Noted;
pub use pool::Pool;
pub use rooted::Rooted;
pub use volume_blocks::{Guard, VolumeBlocks};
pub use volume_drops::VolumeDrops;
pub use volume_places::VolumePlaces;
