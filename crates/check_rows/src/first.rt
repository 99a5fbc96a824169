//! Pass 1: labels, bases, names of volumes and of snapshots, and containers, by the rules 1 to 4.

use crate::blocks::{FAN, Node, entries_of, height_of, map_blocks, root_of};
use crate::fault::Lines;
use crate::image::Image;
use crate::layout::{Layout, Volume, covering, is_used, map_vvbn};
use fv_codec::{ContainerInner, ContainerLeaf, Label, Pointer};
use fv_disk::Block;
use std::alloc::{AllocError, Global};

/// A child of a node, or an entry of a leaf: its number on its level, its place, and whether it is there.
#[derive(Clone, Copy)]
struct Child {
    number: u64,
    place: u64,
    is_there: bool,
}

/// The lines of the pass.
pub fn first_pass(
    alloc: Global,
    image: &Image,
    layout: &Layout,
    lines: &mut Lines,
) -> Result<(), AllocError> {
    for volume in layout.volumes.iter() {
        leads(layout, lines, layout.root_place(), volume.place)?;
    }
    if lines.count() != 0 {
        return Ok(());
    }
    for volume in layout.volumes.iter() {
        match &volume.label {
            Err(shape) => lines.add(1, volume.place, shape.want, shape.found)?,
            Ok(label) => label_lines(alloc, image, layout, volume, label, lines)?,
        }
    }
    Ok(())
}

/// A line of rule 2 where a number in a block leads to no block that can be allocated.
pub fn leads(layout: &Layout, lines: &mut Lines, block: u64, pvbn: u64) -> Result<(), AllocError> {
    let last = layout.blocks.saturating_sub(1);
    lines.within(2, block, layout.first_block(), last, pvbn)
}

/// The lines of rule 2 of a pointer: its VVBN is below the span, and its place is unknown or can be allocated.
pub fn pointer_lines(
    layout: &Layout,
    lines: &mut Lines,
    span: u32,
    block: u64,
    pointer: &Pointer,
) -> Result<(), AllocError> {
    if pointer.stamp == 0 {
        return Ok(());
    }
    let last = u64::from(span).saturating_sub(1);
    lines.within(2, block, 0, last, pointer.vvbn)?;
    if pointer.pvbn != 0 {
        leads(layout, lines, block, pointer.pvbn)?;
    }
    Ok(())
}

/// The lines of a label that has its shape, and of its container where the label has none but of rule 3.
fn label_lines(
    alloc: Global,
    image: &Image,
    layout: &Layout,
    volume: &Volume,
    label: &Label,
    lines: &mut Lines,
) -> Result<(), AllocError> {
    if label.parent != 0 && !stands(layout, volume.slot, label) {
        lines.add(3, volume.place, 1, 0)?;
    }
    let before = lines.count();
    number_lines(layout, volume.place, label, lines)?;
    name_lines(layout, volume, label, lines)?;
    snapshot_lines(volume.place, label, lines)?;
    if lines.count() == before {
        container_lines(alloc, image, layout, label, lines)?;
    }
    Ok(())
}

/// Whether a volume with a base stands on a snapshot that can carry it, and its chain of bases ends. A parent's label without its shape
/// says nothing here.
fn stands(layout: &Layout, slot: u64, label: &Label) -> bool {
    let Some(parent) = layout.volume(u64::from(label.parent).saturating_sub(1)) else {
        return false;
    };
    let is_carried = match &parent.label {
        Err(_) => true,
        Ok(parent) => carries(parent, label),
    };
    is_carried && ends(layout, slot)
}

/// Whether a parent has the snapshot on which a volume stands, a span that isn't greater, and is known and not being split.
fn carries(parent: &Label, label: &Label) -> bool {
    label.base_slot != 0
        && is_used(parent, u64::from(label.base_slot))
        && parent.span <= label.span
        && parent.known == 1
        && (parent.parent == 0 || parent.splitting == 0)
}

/// Whether the chain of bases from a slot comes to an end.
fn ends(layout: &Layout, slot: u64) -> bool {
    let mut slot = slot;
    for _ in 0..64 {
        match layout.parent(slot) {
            Some(parent) => slot = parent,
            None => return true,
        }
    }
    false
}

/// Rule 2: the container's root, its height, and the pointers in the label.
fn number_lines(
    layout: &Layout,
    place: u64,
    label: &Label,
    lines: &mut Lines,
) -> Result<(), AllocError> {
    leads(layout, lines, place, u64::from(label.container))?;
    let height = height_of(label);
    lines.within(2, place, height, height, u64::from(label.height))?;
    pointer_lines(layout, lines, label.span, place, &label.root)?;
    for record in label.snapshots.iter() {
        if record.name_length != 0 {
            pointer_lines(layout, lines, label.span, place, &record.root)?;
        }
    }
    Ok(())
}

/// Rule 4: the first volume of an earlier slot that has the name of this one.
fn name_lines(
    layout: &Layout,
    volume: &Volume,
    label: &Label,
    lines: &mut Lines,
) -> Result<(), AllocError> {
    for earlier in layout.volumes.iter() {
        if earlier.slot >= volume.slot {
            break;
        }
        if let Ok(other) = &earlier.label {
            if other.name_length == label.name_length && other.name == label.name {
                return lines.add(4, volume.place, earlier.slot, volume.slot);
            }
        }
    }
    Ok(())
}

/// Rule 4: each snapshot with the first in an earlier map slot that has its name.
fn snapshot_lines(place: u64, label: &Label, lines: &mut Lines) -> Result<(), AllocError> {
    for (later, record) in label.snapshots.iter().enumerate() {
        for (first, other) in label.snapshots.iter().enumerate().take(later) {
            let same = other.name_length == record.name_length && other.name == record.name;
            if record.name_length != 0 && same {
                let slots = (first as u64).saturating_add(1);
                lines.add(4, place, slots, (later as u64).saturating_add(1))?;
                break;
            }
        }
    }
    Ok(())
}

/// The nodes of a container, each at its position, and what is below it where it has no line.
fn container_lines(
    alloc: Global,
    image: &Image,
    layout: &Layout,
    label: &Label,
    lines: &mut Lines,
) -> Result<(), AllocError> {
    let mut left = Vec::new(alloc);
    left.push(root_of(label))?;
    for _ in 0..u64::MAX {
        let Some(node) = left.pop() else {
            break;
        };
        let before = lines.count();
        let children = node_lines(alloc, image, layout, label, node, lines)?;
        if lines.count() == before {
            left.extend_from_slice(children.as_slice())?;
        }
    }
    Ok(())
}

/// The lines of a node, by its shape, its position and what it has. Answers its children that are nodes.
fn node_lines(
    alloc: Global,
    image: &Image,
    layout: &Layout,
    label: &Label,
    node: Node,
    lines: &mut Lines,
) -> Result<Vec<Node>, AllocError> {
    let block = image.block(node.place);
    if node.level != 0 {
        return inner_lines(alloc, layout, label, node, &block, lines);
    }
    leaf_lines(layout, label, node, &block, lines)?;
    Ok(Vec::new(alloc))
}

fn leaf_lines(
    layout: &Layout,
    label: &Label,
    node: Node,
    block: &Block,
    lines: &mut Lines,
) -> Result<(), AllocError> {
    let leaf = match ContainerLeaf::decode(block) {
        Ok(leaf) => leaf,
        Err(shape) => return lines.add(1, node.place, shape.want, shape.found),
    };
    lines.want(4, node.place, node.number, leaf.index)?;
    let first = node.number.saturating_mul(FAN);
    for (k, (pvbn, kind)) in leaf.pvbns.iter().zip(leaf.kinds.iter()).enumerate() {
        let child = Child {
            number: first.saturating_add(k as u64),
            place: u64::from(*pvbn),
            is_there: *kind != 0,
        };
        child_lines(layout, label, node, child, lines)?;
    }
    Ok(())
}

fn inner_lines(
    alloc: Global,
    layout: &Layout,
    label: &Label,
    node: Node,
    block: &Block,
    lines: &mut Lines,
) -> Result<Vec<Node>, AllocError> {
    let mut children = Vec::new(alloc);
    let inner = match ContainerInner::decode(block) {
        Ok(inner) => inner,
        Err(shape) => {
            lines.add(1, node.place, shape.want, shape.found)?;
            return Ok(children);
        }
    };
    lines.want(4, node.place, node.level, u64::from(inner.level))?;
    lines.want(4, node.place, node.number, inner.place)?;
    let first = node.number.saturating_mul(FAN);
    for (k, place) in inner.children.iter().enumerate() {
        let child = Child {
            number: first.saturating_add(k as u64),
            place: u64::from(*place),
            is_there: *place != 0,
        };
        child_lines(layout, label, node, child, lines)?;
        if child.is_there {
            children.push(Node {
                level: node.level.saturating_sub(1),
                number: child.number,
                place: child.place,
            })?;
        }
    }
    Ok(children)
}

/// Rule 2 of a child of a node. One that is there can be allocated, and its first entry isn't past the last; where there is none, no block of
/// a map in use has its entry under it.
fn child_lines(
    layout: &Layout,
    label: &Label,
    node: Node,
    child: Child,
    lines: &mut Lines,
) -> Result<(), AllocError> {
    if !child.is_there {
        if covers_a_map(label, node.level, child.number) {
            leads(layout, lines, node.place, 0)?;
        }
        return Ok(());
    }
    leads(layout, lines, node.place, child.place)?;
    let last = entries_of(label).saturating_sub(1);
    let first = match node.level {
        0 => child.number,
        1 => child.number.saturating_mul(FAN),
        _ => child.number.saturating_mul(FAN).saturating_mul(FAN),
    };
    lines.within(2, node.place, 0, last, first)
}

/// Whether the VVBN of a block of a map in use is under a child of a node of a level.
fn covers_a_map(label: &Label, level: u64, number: u64) -> bool {
    for map in 0..25 {
        if !is_used(label, map) {
            continue;
        }
        for k in 0..map_blocks(label) {
            if covering(map_vvbn(label, map, k), level) == number {
                return true;
            }
        }
    }
    false
}
