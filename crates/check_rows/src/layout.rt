//! What an image holds under the root that counts: its volumes, by slot, with their labels and the entries of their containers.

use crate::blocks::{BLOCK_BITS, FAN, Node, entries_of, first_block, map_blocks, nodes_of};
use crate::fault::Lines;
use crate::image::{Image, bit_in};
use fv_codec::{Label, Root, Shape, Super, gate_open};
use std::alloc::{AllocError, Global};

/// An entry of a container that isn't a hole, which has a kind.
#[derive(Clone, Copy)]
pub struct Entry {
    pub pvbn: u64,
    pub kind: u64,
}

/// A hole.
pub const HOLE: Entry = Entry { pvbn: 0, kind: 0 };

/// The volume of a slot in use.
#[derive(Drop)]
pub struct Volume {
    pub slot: u64,
    /// Where its label lies.
    pub place: u64,
    pub label: Result<Label, Shape>,
    /// The nodes of its container, once they were read.
    pub nodes: Vec<Node>,
    /// The entries of its container by VVBN, once they were read.
    pub entries: Vec<Entry>,
}

/// An aggregate by the root that counts.
#[derive(Drop)]
pub struct Layout {
    /// How many blocks it has.
    pub blocks: u64,
    /// The slot of the root, 0 or 1.
    pub root: u64,
    pub volumes: Vec<Volume>,
}

/// What counts in an image.
#[derive(Drop)]
pub enum Counts {
    /// Block 0 is no superblock, or no gate is open.
    Nothing,
    /// A root behind an open gate hasn't its shape. These are the lines of such roots.
    Faults(Lines),
    Root(Layout),
}

/// What stands behind the gate of a slot: nothing where it isn't open.
fn behind(image: &Image, slot: u64) -> Option<Result<Root, Shape>> {
    if gate_open(&image.block(1 + slot % 2)) {
        Some(Root::decode(&image.block(3 + slot % 2)))
    } else {
        None
    }
}

/// What counts in an image.
pub fn counts_in(alloc: Global, image: &Image) -> Result<Counts, AllocError> {
    let Ok(superblock) = Super::decode(&image.block(0)) else {
        return Ok(Counts::Nothing);
    };
    let blocks = u64::from(superblock.blocks);
    match (behind(image, 0), behind(image, 1)) {
        (None, None) => Ok(Counts::Nothing),
        (Some(Ok(root)), None) => layout_of(alloc, image, blocks, 0, &root),
        (None, Some(Ok(root))) => layout_of(alloc, image, blocks, 1, &root),
        (Some(Ok(first)), Some(Ok(second))) => {
            if second.generation == first.generation.wrapping_add(1) {
                layout_of(alloc, image, blocks, 1, &second)
            } else {
                layout_of(alloc, image, blocks, 0, &first)
            }
        }
        (first, second) => {
            let mut lines = Lines::new(alloc);
            add_shape(&mut lines, 3, &first)?;
            add_shape(&mut lines, 4, &second)?;
            Ok(Counts::Faults(lines))
        }
    }
}

/// The line of a root behind an open gate that hasn't its shape.
fn add_shape(
    lines: &mut Lines,
    at: u64,
    root: &Option<Result<Root, Shape>>,
) -> Result<(), AllocError> {
    match root {
        Some(Err(shape)) => lines.add(1, at, shape.want, shape.found),
        _ => Ok(()),
    }
}

/// The layout by a root, with no container read.
fn layout_of(
    alloc: Global,
    image: &Image,
    blocks: u64,
    slot: u64,
    root: &Root,
) -> Result<Counts, AllocError> {
    let mut volumes = Vec::new(alloc);
    for (number, place) in root.labels.iter().enumerate() {
        let place = u64::from(*place);
        if place != 0 {
            volumes.push(Volume {
                slot: number as u64,
                place,
                label: Label::decode(&image.block(place)),
                nodes: Vec::new(alloc),
                entries: Vec::new(alloc),
            })?;
        }
    }
    Ok(Counts::Root(Layout {
        blocks,
        root: slot,
        volumes,
    }))
}

impl Volume {
    /// The entry of a VVBN, if it isn't a hole.
    pub fn entry(&self, vvbn: u64) -> Option<Entry> {
        match self.entries.get(vvbn as usize) {
            Some(entry) if entry.kind != 0 => Some(*entry),
            _ => None,
        }
    }

    /// Reads the nodes and the entries of its container, in which nothing is wrong.
    pub fn read_container(&mut self, alloc: Global, image: &Image) -> Result<(), AllocError> {
        let label = match &self.label {
            Ok(label) => *label,
            Err(_) => return Ok(()),
        };
        self.nodes = nodes_of(alloc, image, &label)?;
        self.entries = vec![in alloc; HOLE; entries_of(&label) as usize]?;
        for node in self.nodes.iter() {
            let entries = node.entries(alloc, image)?;
            for (entry, pvbn, kind) in entries.iter() {
                if let Some(into) = self.entries.get_mut(*entry as usize) {
                    *into = Entry {
                        pvbn: *pvbn,
                        kind: *kind,
                    };
                }
            }
        }
        Ok(())
    }
}

impl Layout {
    /// Where the root lies.
    pub fn root_place(&self) -> u64 {
        3 + self.root % 2
    }

    /// The first block that can be allocated.
    pub fn first_block(&self) -> u64 {
        first_block(self.blocks)
    }

    /// The volume of a slot, if it is in use.
    pub fn volume(&self, slot: u64) -> Option<&Volume> {
        for volume in self.volumes.iter() {
            if volume.slot == slot {
                return Some(volume);
            }
        }
        None
    }

    /// The label of a slot, where it has its shape.
    pub fn label(&self, slot: u64) -> Option<Label> {
        match &self.volume(slot)?.label {
            Ok(label) => Some(*label),
            Err(_) => None,
        }
    }

    /// The slot of a volume's parent, if it has a base.
    pub fn parent(&self, slot: u64) -> Option<u64> {
        let label = self.label(slot)?;
        if label.parent == 0 {
            None
        } else {
            Some(u64::from(label.parent).saturating_sub(1))
        }
    }

    /// A volume's own entry of a VVBN.
    pub fn own(&self, slot: u64, vvbn: u64) -> Option<Entry> {
        self.volume(slot)?.entry(vvbn)
    }

    /// The place of a VVBN of a volume: the first entry along the chain of bases; past the span the volume's own entry alone.
    pub fn place(&self, slot: u64, vvbn: u64) -> Option<Entry> {
        let span = match self.label(slot) {
            Some(label) => u64::from(label.span),
            None => 0,
        };
        if vvbn >= span {
            return self.own(slot, vvbn);
        }
        let mut slot = slot;
        for _ in 0..64 {
            if let Some(entry) = self.own(slot, vvbn) {
                return Some(entry);
            }
            slot = self.parent(slot)?;
        }
        None
    }

    /// The bits of the map of a map slot of a volume, with all those of its blocks.
    pub fn map_bits(
        &self,
        alloc: Global,
        image: &Image,
        slot: u64,
        map: u64,
    ) -> Result<Vec<bool>, AllocError> {
        let mut bits = Vec::new(alloc);
        let Some(label) = self.label(slot) else {
            return Ok(bits);
        };
        for k in 0..map_blocks(&label) {
            let block = match self.own(slot, map_vvbn(&label, map, k)) {
                Some(entry) => image.block(entry.pvbn),
                None => [0; 4096],
            };
            for bit in 0..BLOCK_BITS {
                bits.push(bit_in(&block, bit))?;
            }
        }
        Ok(bits)
    }
}

/// The VVBN of block k of the map of a map slot.
pub fn map_vvbn(label: &Label, map: u64, k: u64) -> u64 {
    let first = u64::from(label.span).saturating_add(map.saturating_mul(map_blocks(label)));
    first.saturating_add(k)
}

/// Which of the 25 map slots are in use: the active one is, and those of snapshots.
pub fn is_used(label: &Label, map: u64) -> bool {
    if map == 0 {
        return true;
    }
    match label.snapshots.get(map.saturating_sub(1) as usize) {
        Some(record) => record.name_length != 0,
        None => false,
    }
}

/// Which number of a level covers a VVBN: entries are of level 0, leaves of level 1.
pub fn covering(vvbn: u64, level: u64) -> u64 {
    match level {
        0 => vvbn,
        1 => vvbn / FAN,
        2 => vvbn / FAN / FAN,
        _ => vvbn / FAN / FAN / FAN,
    }
}
