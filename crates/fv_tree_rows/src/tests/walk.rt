//! What blocks spell, from a root down.

use crate::memory::MemBlocks;
use crate::tests::pair::{OWNER, Stored, Wrong, block, cells, push};
use fv_codec::{Node, Pointer};
use fv_reference::Tree as Machine;
use fv_tree::Blocks;
use std::alloc::{AllocError, Global};
use std::collections::BTreeMap;

/// The stamps of cells and marks, by level and place.
type Stamps = BTreeMap<(u32, u32), u64>;

/// Ranges of one level by their places, with the pointers to them.
type Ranges = Vec<(u32, Pointer)>;

/// Whether the blocks under a root spell the machine's tree: its levels, all stamps, and each cell's content.
pub fn spells(
    alloc: Global,
    stored: &mut Stored,
    root: &Pointer,
    machine: &Machine,
) -> Result<bool, Wrong> {
    let levels = stored.tree.levels();
    let mut stamps = BTreeMap::new(alloc);
    let mut ranges = Vec::new(alloc);
    add_range(&mut stamps, &mut ranges, levels, 0, root)?;
    for above in 0..levels {
        let level = levels - above;
        let mut below = Vec::new(alloc);
        for (place, pointer) in &ranges {
            let node = node_at(&mut stored.blocks, level, *place, pointer)?;
            add_children(&mut stamps, &mut below, level, *place, &node)?;
        }
        ranges = below;
    }
    let cells = cells(alloc, machine)?;
    Ok(
        u32::from(levels) == machine.levels()
            && same(&stamps, machine.stamps())
            && hold_cells(&mut stored.blocks, &ranges, &cells)?,
    )
}

/// Adds a range that a pointer leads to, and its stamp.
fn add_range(
    stamps: &mut Stamps,
    ranges: &mut Ranges,
    level: u8,
    place: u32,
    pointer: &Pointer,
) -> Result<(), Wrong> {
    if pointer.stamp == 0 {
        return Ok(());
    }
    match stamps.insert((u32::from(level), place), pointer.stamp) {
        Ok(_) => push(ranges, (place, *pointer)),
        Err(failed) => Err(AllocError::from(failed).into()),
    }
}

/// The node of a position, from its block.
fn node_at(
    blocks: &mut MemBlocks,
    level: u8,
    place: u32,
    pointer: &Pointer,
) -> Result<Node, Wrong> {
    let mut block = [0; 4096];
    blocks.load(pointer, &mut block)?;
    match Node::decode(&block) {
        Ok(node) if node.owner == OWNER && node.level == level && node.place == u64::from(place) =>
            Ok(node),
        _ => Err(Wrong::NoNode),
    }
}

/// Adds the ranges of a node.
fn add_children(
    stamps: &mut Stamps,
    ranges: &mut Ranges,
    level: u8,
    place: u32,
    node: &Node,
) -> Result<(), Wrong> {
    for slot in 0..128 {
        let below = place.saturating_mul(128).saturating_add(slot as u32);
        let child = node.children[slot];
        add_range(stamps, ranges, level.saturating_sub(1), below, &child)?;
    }
    Ok(())
}

/// Whether two maps are equal.
fn same(one: &Stamps, other: &Stamps) -> bool {
    for (spot, stamp) in one {
        if other.get(spot) != Some(stamp) {
            return false;
        }
    }
    one.len() == other.len()
}

/// Whether the blocks of cells are these cells' contents, in this order.
fn hold_cells(
    blocks: &mut MemBlocks,
    found: &[(u32, Pointer)],
    cells: &[(u32, u64)],
) -> Result<bool, Wrong> {
    for ((place, pointer), (index, stamp)) in found.iter().zip(cells) {
        let mut content = [0; 4096];
        blocks.load(pointer, &mut content)?;
        if place != index || content != block(*stamp) {
            return Ok(false);
        }
    }
    Ok(found.len() == cells.len())
}
