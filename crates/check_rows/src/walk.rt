//! The walk along the pointers of one root: depth first, children in order.

use crate::fault::Lines;
use crate::first::pointer_lines;
use crate::image::Image;
use crate::layout::{Entry, Layout};
use fv_codec::{InodeBlock, InodeRecord, Label, Node, Pointer};
use std::alloc::{AllocError, Global};

/// The owner of the inode file's nodes and blocks.
pub const INODES: u64 = u64::MAX;

/// How many pointers a node has.
const FAN: u64 = 128;

/// How many records an inode block has.
pub const RECORDS: u64 = 16;

/// A pointer at a position of a tree.
#[derive(Clone, Copy)]
pub struct Item {
    /// The number of the file, or that of the inode file.
    pub owner: u64,
    pub level: u64,
    pub place: u64,
    pub pointer: Pointer,
    /// The pointer to the block in which it stands; a hole where that is a label.
    pub holder: Pointer,
}

/// A step of the walk: a pointer that isn't a hole.
#[derive(Clone, Copy)]
pub struct Step {
    pub item: Item,
    /// The block in which the pointer stands.
    pub block: u64,
    /// Where its VVBN is found along the chain of bases.
    pub at: Option<Entry>,
}

/// A used record of an inode block, with the number of its file.
#[derive(Clone, Copy)]
pub struct File {
    pub number: u64,
    pub record: InodeRecord,
}

/// The root of a table, as a label names it.
#[derive(Clone, Copy)]
pub struct Rooted {
    /// 0 for the active table, and else the map slot of the snapshot.
    pub map: u64,
    pub levels: u64,
    pub pointer: Pointer,
}

/// Where a walk goes: a volume of an image.
#[derive(Clone, Copy)]
pub struct Ground<'a> {
    pub alloc: Global,
    pub image: &'a Image,
    pub layout: &'a Layout,
    pub slot: u64,
    pub span: u32,
}

/// What a walk has met.
#[derive(Drop)]
pub struct Walk {
    pub steps: Vec<Step>,
    /// The files whose records were met.
    pub files: Vec<File>,
    /// The lines of the rules 1, 2, 4 and 5. The walk doesn't go below a block, nor along a pointer, that has one.
    pub lines: Lines,
}

/// The roots of a volume: the active one, and those of snapshots by their map slots.
pub fn roots_of(alloc: Global, label: &Label) -> Result<Vec<Rooted>, AllocError> {
    let mut roots = Vec::new(alloc);
    roots.push(Rooted {
        map: 0,
        levels: u64::from(label.levels),
        pointer: label.root,
    })?;
    for (k, record) in label.snapshots.iter().enumerate() {
        if record.name_length != 0 {
            roots.push(Rooted {
                map: (k as u64).saturating_add(1),
                levels: u64::from(record.levels),
                pointer: record.root,
            })?;
        }
    }
    Ok(roots)
}

/// Walks from a root, which stands in the label at a place.
pub fn walk_from(ground: Ground<'_>, label: u64, root: Rooted) -> Result<Walk, AllocError> {
    let mut walk = Walk {
        steps: Vec::new(ground.alloc),
        files: Vec::new(ground.alloc),
        lines: Lines::new(ground.alloc),
    };
    let first = Item {
        owner: INODES,
        level: root.levels,
        place: 0,
        pointer: root.pointer,
        holder: Pointer::HOLE,
    };
    let mut left = Vec::new(ground.alloc);
    left.push((first, label))?;
    for _ in 0..u64::MAX {
        let Some((item, block)) = left.pop() else {
            break;
        };
        if item.pointer.stamp != 0 {
            walk.go(ground, item, block, &mut left)?;
        }
    }
    Ok(walk)
}

impl Walk {
    /// Makes a step, and has the pointers come next to which it leads where it has no line.
    fn go(
        &mut self,
        ground: Ground<'_>,
        item: Item,
        block: u64,
        left: &mut Vec<(Item, u64)>,
    ) -> Result<(), AllocError> {
        let vvbn = item.pointer.vvbn;
        let at = ground.layout.place(ground.slot, vvbn);
        let before = self.lines.count();
        if self.reaches(vvbn) {
            self.lines.add(5, block, 1, 2)?;
        } else if let Some(entry) = at {
            self.block_lines(ground, item, entry)?;
        } else {
            self.lines.add(5, block, 1, 0)?;
        }
        self.steps.push(Step { item, block, at })?;
        if let Some(entry) = at {
            if self.lines.count() == before {
                let under = pointers_under(ground.alloc, ground.image, item, entry)?;
                for child in under.iter().rev() {
                    left.push((*child, entry.pvbn))?;
                }
            }
        }
        Ok(())
    }

    /// Whether a step leads to a VVBN.
    pub fn reaches(&self, vvbn: u64) -> bool {
        reaches(self.steps.as_slice(), vvbn)
    }

    /// The lines of a block that is met for the first time: its shape and position, its pointers, and the names in it.
    fn block_lines(
        &mut self,
        ground: Ground<'_>,
        item: Item,
        entry: Entry,
    ) -> Result<(), AllocError> {
        self.shape_lines(ground.image, item, entry.pvbn)?;
        let under = pointers_under(ground.alloc, ground.image, item, entry)?;
        for child in under.iter() {
            pointer_lines(
                ground.layout,
                &mut self.lines,
                ground.span,
                entry.pvbn,
                &child.pointer,
            )?;
        }
        let files = files_under(ground.alloc, ground.image, item, entry)?;
        for file in files.iter() {
            self.name_lines(file, entry.pvbn)?;
            self.files.push(*file)?;
        }
        Ok(())
    }

    /// Rules 1 and 4: the block has the shape of its kind, and is the one of its position.
    fn shape_lines(&mut self, image: &Image, item: Item, at: u64) -> Result<(), AllocError> {
        let block = image.block(at);
        if item.level != 0 {
            return match Node::decode(&block) {
                Err(shape) => self.lines.add(1, at, shape.want, shape.found),
                Ok(node) => {
                    self.lines.want(4, at, item.level, u64::from(node.level))?;
                    self.lines.want(4, at, item.owner, node.owner)?;
                    self.lines.want(4, at, item.place, node.place)
                }
            };
        }
        if item.owner != INODES {
            return Ok(());
        }
        match InodeBlock::decode(&block) {
            Err(shape) => self.lines.add(1, at, shape.want, shape.found),
            Ok(inodes) => self.lines.want(4, at, item.place, inodes.index),
        }
    }

    /// Rule 4: a file with the first that was met before and has its name.
    fn name_lines(&mut self, file: &File, at: u64) -> Result<(), AllocError> {
        for first in self.files.iter() {
            let same = first.record.name_length == file.record.name_length
                && first.record.name == file.record.name;
            if same {
                return self.lines.add(4, at, first.number, file.number);
            }
        }
        Ok(())
    }
}

/// Whether two pointers are of one position.
pub fn is_one_place(one: &Item, other: &Item) -> bool {
    one.owner == other.owner && one.level == other.level && one.place == other.place
}

/// Whether two pointers have one id: a position and a stamp.
pub fn is_one_id(one: &Item, other: &Item) -> bool {
    is_one_place(one, other) && one.pointer.stamp == other.pointer.stamp
}

/// Whether one of these steps leads to a VVBN.
pub fn reaches(steps: &[Step], vvbn: u64) -> bool {
    for step in steps {
        if step.item.pointer.vvbn == vvbn {
            return true;
        }
    }
    false
}

/// The files whose records stand in the block to which a pointer leads.
pub fn files_under(
    alloc: Global,
    image: &Image,
    item: Item,
    entry: Entry,
) -> Result<Vec<File>, AllocError> {
    let mut files = Vec::new(alloc);
    if item.level != 0 || item.owner != INODES {
        return Ok(files);
    }
    let Ok(inodes) = InodeBlock::decode(&image.block(entry.pvbn)) else {
        return Ok(files);
    };
    for (k, record) in inodes.files.iter().enumerate() {
        if record.name_length != 0 {
            files.push(File {
                number: item.place.wrapping_mul(RECORDS).wrapping_add(k as u64),
                record: *record,
            })?;
        }
    }
    Ok(files)
}

/// The pointers in the block to which a pointer leads, holes among them.
pub fn pointers_under(
    alloc: Global,
    image: &Image,
    item: Item,
    entry: Entry,
) -> Result<Vec<Item>, AllocError> {
    let mut items = Vec::new(alloc);
    if item.level == 0 {
        let files = files_under(alloc, image, item, entry)?;
        for file in files.iter() {
            items.push(Item {
                owner: file.number,
                level: u64::from(file.record.levels),
                place: 0,
                pointer: file.record.root,
                holder: item.pointer,
            })?;
        }
        return Ok(items);
    }
    let Ok(node) = Node::decode(&image.block(entry.pvbn)) else {
        return Ok(items);
    };
    for (k, pointer) in node.children.iter().enumerate() {
        items.push(Item {
            owner: item.owner,
            level: item.level.saturating_sub(1),
            place: item.place.wrapping_mul(FAN).wrapping_add(k as u64),
            pointer: *pointer,
            holder: item.pointer,
        })?;
    }
    Ok(items)
}
