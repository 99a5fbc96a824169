//! What volumes are charged for, need and commit.

ghost use Rattle.std.specs.Prelude.{◌<◌};

use crate::blocks::{FAN, leaves_of, map_blocks};
use crate::table::Tables;
use crate::walk::{File, INODES, Item, RECORDS, Step, is_one_id, is_one_place};
use fv_codec::{Label, Pointer};
use std::alloc::{AllocError, Global};

/// Each id of these steps once, by its first pointer.
pub fn ids_in(alloc: Global, steps: &[Step]) -> Result<Vec<Item>, AllocError> {
    let mut ids = Vec::new(alloc);
    for step in steps.iter() {
        if !has_id(ids.as_slice(), &step.item) {
            ids.push(step.item)?;
        }
    }
    Ok(ids)
}

/// Whether one of these has the id of another.
fn has_id(ids: &[Item], item: &Item) -> bool {
    for id in ids.iter() {
        if is_one_id(id, item) {
            return true;
        }
    }
    false
}

/// How many snapshots a label has.
fn snapshots_in(label: &Label) -> u64 {
    let mut count: u64 = 0;
    for record in label.snapshots.iter() {
        count = count.saturating_add(u64::from(record.name_length != 0));
    }
    count
}

/// The ids in the active table or a snapshot, without those of a base from which the volume isn't being split, and the map of each
/// snapshot.
pub fn charge_of(alloc: Global, volume: &Tables) -> Result<u64, AllocError> {
    let mut own = Vec::new(alloc);
    for table in volume.tables.iter() {
        own.extend_from_slice(table.walk.steps.as_slice())?;
    }
    let base = ids_in(alloc, volume.base.as_slice())?;
    let mut charge = snapshots_in(&volume.label).saturating_mul(map_blocks(&volume.label));
    let ids = ids_in(alloc, own.as_slice())?;
    for id in ids.iter() {
        if volume.is_splitting() || !has_id(base.as_slice(), id) {
            charge = charge.saturating_add(1);
        }
    }
    Ok(charge)
}

/// The blocks that the reserves of a volume of kind `file` still need.
pub fn need_of(alloc: Global, volume: &Tables) -> Result<u64, AllocError> {
    let Some(active) = volume.tables.first() else {
        return Ok(0);
    };
    if volume.label.kind != 1 {
        return Ok(0);
    }
    let mut shared = Vec::new(alloc);
    for table in volume.tables.iter().skip(1) {
        shared.extend_from_slice(table.walk.steps.as_slice())?;
    }
    shared.extend_from_slice(volume.base.as_slice())?;
    let shared = ids_in(alloc, shared.as_slice())?;
    let mut need: u64 = 0;
    for file in active.walk.files.iter() {
        let places = reserved_places(alloc, active.root.levels, file)?;
        for place in places.iter() {
            if needs_block(active.walk.steps.as_slice(), shared.as_slice(), place) {
                need = need.saturating_add(1);
            }
        }
    }
    Ok(need)
}

/// Whether a write at a place takes a block: nothing stands there, or what stands there is shared.
fn needs_block(steps: &[Step], shared: &[Item], place: &Item) -> bool {
    for step in steps.iter() {
        if is_one_place(&step.item, place) {
            return has_id(shared, &step.item);
        }
    }
    true
}

/// A place of a tree.
fn place_of(owner: u64, level: u64, place: u64) -> Item {
    Item {
        owner,
        level,
        place,
        pointer: Pointer::HOLE,
        holder: Pointer::HOLE,
    }
}

/// How many indexes a range of a level has.
fn width_of(level: u64) -> u64
    ensures { 0 < result }
{
    match level {
        0 => 1,
        1 => 128,
        2 => 16_384,
        _ => 2_097_152,
    }
}

/// All places for which the reserve of a file stands: the ranges of each level that meet the indexes below it, and the file's cell of the
/// inode file with the marks over it.
fn reserved_places(alloc: Global, inode_levels: u64, file: &File) -> Result<Vec<Item>, AllocError> {
    let mut places = Vec::new(alloc);
    let reserve = u64::from(file.record.reserve);
    if reserve == 0 {
        return Ok(places);
    }
    for level in 0..=u64::from(file.record.levels) {
        for place in 0..reserve.div_ceil(width_of(level)) {
            places.push(place_of(file.number, level, place))?;
        }
    }
    for level in 0..=inode_levels {
        let cell = file.number / RECORDS;
        places.push(place_of(INODES, level, cell / width_of(level)))?;
    }
    Ok(places)
}

/// The blocks that a volume needs beside its data: a label, the active map, and its container.
pub fn overhead_of(label: &Label) -> u64 {
    let leaves = leaves_of(label);
    let above = if leaves <= FAN {
        1
    } else {
        leaves.div_ceil(FAN).saturating_add(1)
    };
    map_blocks(label)
        .saturating_add(leaves)
        .saturating_add(above)
        .saturating_add(1)
}
