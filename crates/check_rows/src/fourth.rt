//! Pass 4: hints, what labels say of them, and space, by the rules 11 to 14.

use crate::blocks::map_blocks;
use crate::fault::Lines;
use crate::image::Image;
use crate::layout::{Layout, is_used};
use crate::space::{charge_of, need_of, overhead_of};
use crate::table::Tables;
use crate::walk::{Item, Step, is_one_place, pointers_under, reaches};
use std::alloc::{AllocError, Global};

/// A pointer of a table, with the map slot of the table.
#[derive(Clone, Copy)]
struct Held {
    map: u64,
    item: Item,
}

/// The lines of the pass.
pub fn fourth_pass(
    alloc: Global,
    image: &Image,
    layout: &Layout,
    volumes: &[Tables],
    lines: &mut Lines,
) -> Result<(), AllocError> {
    let mut commits: u64 = 0;
    for volume in volumes.iter() {
        for table in volume.tables.iter() {
            for step in table.walk.steps.iter() {
                hint_lines(step, lines)?;
                unknown_lines(alloc, image, step, lines)?;
            }
        }
        place_lines(alloc, layout, volume, lines)?;
        let taken = charge_of(alloc, volume)?.saturating_add(need_of(alloc, volume)?);
        let size = u64::from(volume.label.size);
        if taken > size {
            lines.add(14, volume.place, size, taken)?;
        }
        let promised = if volume.label.kind == 0 { size } else { taken };
        let overhead = overhead_of(&volume.label).saturating_mul(2);
        commits = commits.saturating_add(overhead).saturating_add(promised);
    }
    space_lines(layout, volumes, commits, lines)
}

/// Rule 11: a known pointer leads to the place of its VVBN.
fn hint_lines(step: &Step, lines: &mut Lines) -> Result<(), AllocError> {
    let hint = step.item.pointer.pvbn;
    let at = match step.at {
        Some(entry) => entry.pvbn,
        None => 0,
    };
    if hint == 0 {
        return Ok(());
    }
    lines.want(11, step.block, at, hint)
}

/// Whether a pointer leads to a block whose place isn't known.
fn is_unknown(item: &Item) -> bool {
    item.pointer.stamp != 0 && item.pointer.pvbn == 0
}

/// Whether it leads to one whose place is known.
fn is_known(item: &Item) -> bool {
    item.pointer.stamp != 0 && item.pointer.pvbn != 0
}

/// Rule 12: no known pointer leads to a node or an inode block that holds an unknown one.
fn unknown_lines(
    alloc: Global,
    image: &Image,
    step: &Step,
    lines: &mut Lines,
) -> Result<(), AllocError> {
    let Some(entry) = step.at else {
        return Ok(());
    };
    let mut count: u64 = 0;
    let under = pointers_under(alloc, image, step.item, entry)?;
    for child in under.iter() {
        count = count.saturating_add(u64::from(is_unknown(child)));
    }
    if is_known(&step.item) {
        lines.want(12, step.block, 0, count)?;
    }
    Ok(())
}

/// Whether a pointer stands in a label.
fn is_in_label(item: &Item) -> bool {
    item.holder.stamp == 0
}

/// Whether two are one pointer, which several roots may reach: it stands in the label for one root, or at one position in one block.
fn is_one_pointer(one: &Held, other: &Held) -> bool {
    if is_in_label(&one.item) || is_in_label(&other.item) {
        return is_in_label(&one.item) && is_in_label(&other.item) && one.map == other.map;
    }
    one.item.holder.vvbn == other.item.holder.vvbn && is_one_place(&one.item, &other.item)
}

/// Whether a base table reaches a VVBN under which the volume has an entry of its own.
fn is_copy(layout: &Layout, volume: &Tables, vvbn: u64) -> bool {
    reaches(volume.base.as_slice(), vvbn) && layout.own(volume.slot, vvbn).is_some()
}

/// Whether a pointer breaks what is asked of a volume that is being split: it is known, and stands in the label, leads to a copy or
/// stands in one.
fn breaks_split(layout: &Layout, volume: &Tables, item: &Item) -> bool {
    is_known(item)
        && (is_in_label(item)
            || is_copy(layout, volume, item.pointer.vvbn)
            || is_copy(layout, volume, item.holder.vvbn))
}

/// The four numbers of rule 13, each of which has to be 0.
fn place_lines(
    alloc: Global,
    layout: &Layout,
    volume: &Tables,
    lines: &mut Lines,
) -> Result<(), AllocError> {
    let mut unknown = Vec::new(alloc);
    let mut known = Vec::new(alloc);
    for table in volume.tables.iter() {
        for step in table.walk.steps.iter() {
            let held = Held {
                map: table.root.map,
                item: step.item,
            };
            if volume.label.known == 1 && is_unknown(&step.item) {
                add_once(&mut unknown, held)?;
            }
            if volume.is_splitting() && breaks_split(layout, volume, &step.item) {
                add_once(&mut known, held)?;
            }
        }
    }
    lines.want(13, volume.place, 0, unknown.len() as u64)?;
    lines.want(13, volume.place, 0, known.len() as u64)?;
    base_lines(layout, volume, lines)
}

/// Adds a pointer, unless it is there.
fn add_once(all: &mut Vec<Held>, held: Held) -> Result<(), AllocError> {
    for other in all.iter() {
        if is_one_pointer(other, &held) {
            return Ok(());
        }
    }
    all.push(held)?;
    Ok(())
}

/// Rule 13 of a volume with a base: where it isn't being split it has no entry under what its base table reaches; and what it reaches has
/// an entry of its own or is reached by its base table.
fn base_lines(layout: &Layout, volume: &Tables, lines: &mut Lines) -> Result<(), AllocError> {
    if !volume.has_base() {
        return Ok(());
    }
    let mut copies: u64 = 0;
    let mut resting: u64 = 0;
    for vvbn in 0..u64::from(volume.label.span) {
        if is_copy(layout, volume, vvbn) {
            copies = copies.saturating_add(1);
        }
        let is_own = layout.own(volume.slot, vvbn).is_some();
        let is_based = reaches(volume.base.as_slice(), vvbn);
        if volume.reaches(vvbn) && !is_own && !is_based {
            resting = resting.saturating_add(1);
        }
    }
    if !volume.is_splitting() {
        lines.want(13, volume.place, 0, copies)?;
    }
    lines.want(13, volume.place, 0, resting)
}

/// Rule 14 of the aggregate: the commits fit the capacity, and beside the volumes' own entries and the delayed ones there is room for all
/// overheads twice and 256 blocks.
fn space_lines(
    layout: &Layout,
    volumes: &[Tables],
    commits: u64,
    lines: &mut Lines,
) -> Result<(), AllocError> {
    let all = layout.blocks.saturating_sub(layout.first_block());
    let capacity = all.saturating_sub(256);
    if commits > capacity {
        lines.add(14, layout.root_place(), capacity, commits)?;
    }
    let mut room: u64 = 256;
    let mut left = all;
    for volume in volumes.iter() {
        room = room.saturating_add(overhead_of(&volume.label).saturating_mul(2));
        left = left.saturating_sub(kept_by(layout, volume));
    }
    if room > left {
        lines.add(14, layout.root_place(), room, left)?;
    }
    Ok(())
}

/// How many entries of a volume are its own or delayed: all but those of the active map's blocks that are held.
fn kept_by(layout: &Layout, volume: &Tables) -> u64 {
    let Some(entries) = layout.volume(volume.slot) else {
        return 0;
    };
    let mut count: u64 = 0;
    for (vvbn, entry) in entries.entries.iter().enumerate() {
        let vvbn = vvbn as u64;
        if entry.kind == 0 {
            continue;
        }
        let is_held = is_held(volume, vvbn);
        let is_own = is_held && !is_active_map(volume, vvbn);
        if is_own || !is_held {
            count = count.saturating_add(1);
        }
    }
    count
}

/// Whether a VVBN is one of a block of the active map.
fn is_active_map(volume: &Tables, vvbn: u64) -> bool {
    let span = u64::from(volume.label.span);
    span <= vvbn && vvbn < span.saturating_add(map_blocks(&volume.label))
}

/// Whether a VVBN is held: below the span by a map in use, and past it where it is of a block of one.
fn is_held(volume: &Tables, vvbn: u64) -> bool {
    let span = u64::from(volume.label.span);
    let blocks = map_blocks(&volume.label);
    if vvbn >= span && blocks != 0 {
        return is_used(&volume.label, vvbn.saturating_sub(span) / blocks);
    }
    for table in volume.tables.iter() {
        if table.bits.get(vvbn as usize) == Some(&true) {
            return true;
        }
    }
    false
}
