//! A tree over blocks, the machine's tree beside it, and changes of both.

ghost use Rattle.std.specs.Prelude.{◌≤◌};

use crate::memory::MemBlocks;
use fv_codec::Pointer;
use fv_reference::Tree as Machine;
use fv_tree::{Tree, TreeFault};
use std::alloc::{AllocError, Global};

/// The file's number.
pub const OWNER: u64 = 7;

/// How many indexes there are.
pub const INDEXES: u32 = 2_097_152;

/// What went wrong.
#[derive(Debug, PartialEq, Eq, Drop)]
pub enum Wrong {
    /// A call failed.
    Fault(TreeFault),
    /// A block isn't the node of its position.
    NoNode,
    /// The two aren't equal after this step.
    Differs(u64),
}

impl From<TreeFault> for Wrong {
    fn from(fault: TreeFault) -> Wrong {
        Wrong::Fault(fault)
    }
}

impl From<AllocError> for Wrong {
    fn from(_: AllocError) -> Wrong {
        Wrong::Fault(TreeFault::Memory)
    }
}

/// What a change does to the cell at its index, or from its index on.
#[derive(Clone, Copy)]
pub enum Kind {
    Put,
    Remove,
    Cut,
}

/// A change, with its stamp, which is the content of a cell that it writes, too.
#[derive(Clone, Copy)]
pub struct Change {
    pub kind: Kind,
    pub index: u32,
    pub stamp: u64,
}

/// A tree over its blocks, with the levels that it has without a cell.
#[derive(Drop)]
pub struct Stored {
    pub start: u8,
    pub tree: Tree,
    pub blocks: MemBlocks,
}

/// What the last flush left, and the changes since.
#[derive(Drop)]
pub struct Past {
    blocks: MemBlocks,
    levels: u8,
    root: Pointer,
    changes: Vec<Change>,
}

/// A tree over blocks, the machine's tree, and what brings the first one back.
#[derive(Drop)]
pub struct Pair {
    pub alloc: Global,
    pub stored: Stored,
    pub machine: Machine,
    past: Past,
}

/// A pointer that leads to nothing.
const HOLE: Pointer = Pointer {
    vvbn: 0,
    pvbn: 0,
    stamp: 0,
};

/// A tree without a cell.
pub fn new_pair(alloc: Global, start: u8) -> Pair
    requires { start ≤ 3 }
{
    Pair {
        alloc,
        stored: Stored {
            start,
            tree: Tree::new(alloc, OWNER, start),
            blocks: MemBlocks::new(alloc),
        },
        machine: Machine::new(alloc, u32::from(start)),
        past: Past {
            blocks: MemBlocks::new(alloc),
            levels: start,
            root: HOLE,
            changes: Vec::new(alloc),
        },
    }
}

/// A block that begins with a number.
pub fn block(number: u64) -> [u8; 4096] {
    let mut block = [0; 4096];
    block[0..8].copy_from_slice(&number.to_be_bytes());
    block
}

/// Changes both.
pub fn change_both(pair: &mut Pair, change: Change) -> Result<(), Wrong> {
    change_stored(&mut pair.stored, change)?;
    let start = pair.stored.start;
    pair.machine = changed(pair.alloc, &pair.machine, start, change)?;
    push(&mut pair.past.changes, change)
}

/// Changes a tree over blocks.
fn change_stored(stored: &mut Stored, change: Change) -> Result<(), Wrong> {
    let (start, index, stamp) = (stored.start, change.index, change.stamp);
    if index >= INDEXES || stamp == 0 || start > 3 {
        return Err(Wrong::Differs(stamp));
    }
    match change.kind {
        Kind::Put => stored
            .tree
            .put(&mut stored.blocks, index, &block(stamp), stamp)?,
        Kind::Remove => {
            stored.tree.remove(&mut stored.blocks, index, start, stamp)?;
        }
        Kind::Cut => {
            stored.tree.cut(&mut stored.blocks, index, start, stamp)?;
        }
    }
    Ok(())
}

/// The machine's tree after a change.
fn changed(alloc: Global, machine: &Machine, start: u8, change: Change) -> Result<Machine, Wrong> {
    if start > 3 {
        return Err(Wrong::Differs(change.stamp));
    }
    let cut = match change.kind {
        Kind::Put => return Ok(machine.written(alloc, change.stamp, change.index)?),
        Kind::Remove => false,
        Kind::Cut => true,
    };
    let mut gone = Vec::new(alloc);
    let mut left = Vec::new(alloc);
    let cells = cells(alloc, machine)?;
    for (index, _) in &cells {
        if *index == change.index || (cut && *index > change.index) {
            push(&mut gone, *index)?;
        } else {
            push(&mut left, *index)?;
        }
    }
    Ok(machine.erased(alloc, change.stamp, u32::from(start), &gone, &left)?)
}

/// The machine's cells with their stamps.
pub fn cells(alloc: Global, machine: &Machine) -> Result<Vec<(u32, u64)>, Wrong> {
    let mut cells = Vec::new(alloc);
    for (spot, stamp) in machine.stamps() {
        if spot.0 == 0 {
            push(&mut cells, (spot.1, *stamp))?;
        }
    }
    Ok(cells)
}

/// Adds an item.
pub fn push<T: Drop>(items: &mut Vec<T>, item: T) -> Result<(), Wrong> {
    match items.push(item) {
        Ok(()) => Ok(()),
        Err(_) => Err(Wrong::Fault(TreeFault::Memory)),
    }
}

/// Places what changed, remembers what that left, and answers the root.
pub fn flush(pair: &mut Pair) -> Result<Pointer, Wrong> {
    let root = pair.stored.tree.flush(&mut pair.stored.blocks, false)?;
    pair.past = Past {
        blocks: pair.stored.blocks.copy()?,
        levels: pair.stored.tree.levels(),
        root,
        changes: Vec::new(pair.alloc),
    };
    Ok(root)
}

/// The tree over blocks once more: what the last flush left, with the changes since. All calls are determined by
/// what went before, so it is in memory and on its blocks as the pair's.
pub fn replayed(pair: &Pair) -> Result<Stored, Wrong> {
    let past = &pair.past;
    let mut stored = Stored {
        start: pair.stored.start,
        tree: tree_at(pair.alloc, past.levels, past.root),
        blocks: past.blocks.copy()?,
    };
    for change in &past.changes {
        change_stored(&mut stored, *change)?;
    }
    Ok(stored)
}

/// The tree that a root spells.
pub fn tree_at(alloc: Global, levels: u8, root: Pointer) -> Tree {
    let fits = root.stamp != 0 && root.vvbn <= 1_048_575 && root.pvbn <= 1_048_575;
    Tree::at(
        alloc,
        OWNER,
        if levels > 3 { 3 } else { levels },
        if fits { root } else { HOLE },
    )
}
