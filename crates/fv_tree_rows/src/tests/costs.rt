//! What no clause says: how many blocks calls load and place and of which kinds, that a damaged node is answered
//! as damage, and that a flush goes on where an earlier one failed.

ghost use Rattle.std.specs.Prelude.{◌≤◌};

use crate::memory::MemBlocks;
use crate::silent::Silent;
use crate::tests::pair::{INDEXES, OWNER, block, tree_at};
use crate::tests::spelled::{MARK, large, node, small, wrong};
use crate::untold::Untold;
use fv_codec::Pointer;
use fv_tree::{Tree, TreeFault};
use std::alloc::Global;
use std::test::Fail;

const INODE_FILE: u64 = u64::MAX;

/// Writes a cell.
fn put(tree: &mut Tree, blocks: &mut MemBlocks, index: u32, stamp: u64) -> Result<(), TreeFault> {
    if index >= INDEXES || stamp == 0 {
        return Ok(());
    }
    tree.put(blocks, index, &block(stamp), stamp)
}

/// A tree that got the cells 0, 128 and another, none of them placed.
fn written(
    alloc: Global,
    owner: u64,
    blocks: &mut MemBlocks,
    other: u32,
) -> Result<Tree, TreeFault> {
    let mut tree = Tree::new(alloc, owner, 0);
    put(&mut tree, blocks, 0, 1)?;
    put(&mut tree, blocks, 128, 2)?;
    put(&mut tree, blocks, other, 3)?;
    Ok(tree)
}

/// How many blocks of each kind from 1 to 7 were placed.
fn kinds(blocks: &MemBlocks) -> [u64; 7] {
    let mut kinds = [0; 7];
    for kind in 0..7 {
        kinds[kind] = blocks.placed(kind as u8 + 1);
    }
    kinds
}

/// The kinds that flushes of a tree with three cells place, where the call with this number fails first; whether
/// the root is known; and how many blocks one more flush places.
fn flushed(
    alloc: Global,
    owner: u64,
    other: u32,
    fails: Option<u64>,
    hidden: u32,
) -> Result<([u64; 7], bool, u64), TreeFault> {
    let mut blocks = MemBlocks::new(alloc);
    let mut tree = written(alloc, owner, &mut blocks, other)?;
    blocks.hide(hidden);
    if let Some(call) = fails {
        blocks.fail(call);
        if tree.flush(&mut blocks, false) != Err(TreeFault::DiskFault) {
            return Err(TreeFault::Memory);
        }
    }
    let root = tree.flush(&mut blocks, false)?;
    let kinds = kinds(&blocks);
    let before = blocks.calls();
    tree.flush(&mut blocks, false)?;
    let more = blocks.calls().saturating_sub(before);
    Ok((kinds, root.pvbn != 0, more))
}

#[test]
fn kinds_of_blocks(rt: HostRuntime) -> Result<(), Fail> {
    let file = [3, 3, 2, 1, 0, 0, 0];
    assert_eq!(rt;
        flushed(rt.alloc(), OWNER, 16_384, None, 99),
        Ok((file, true, 0))
    );
    assert_eq!(rt;
        flushed(rt.alloc(), OWNER, 16_384, None, 0),
        Ok((file, false, 0))
    );
    let inodes = [0, 0, 0, 0, 3, 2, 1];
    assert_eq!(rt;
        flushed(rt.alloc(), INODE_FILE, 127, None, 99),
        Ok((inodes, true, 0))
    );
    Ok(())
}

/// A flush that fails places the rest the next time, and no block twice.
#[test]
fn each_place_fails(rt: HostRuntime) -> Result<(), Fail> {
    for call in 0..9 {
        assert_eq!(rt;
            flushed(rt.alloc(), OWNER, 16_384, Some(call), 99),
            Ok(([3, 3, 2, 1, 0, 0, 0], true, 0))
        );
    }
    Ok(())
}

/// What is pending in a tree that got three cells, how many blocks its flush places, and what is pending then.
fn pending(alloc: Global, other: u32) -> Result<(u64, u64, u64), TreeFault> {
    let mut blocks = MemBlocks::new(alloc);
    let mut tree = written(alloc, OWNER, &mut blocks, other)?;
    let before = tree.pending();
    let start = blocks.calls();
    tree.flush(&mut blocks, false)?;
    let placed = blocks.calls().saturating_sub(start);
    Ok((before, placed, tree.pending()))
}

#[test]
fn a_flush_places_what_is_pending(rt: HostRuntime) -> Result<(), Fail> {
    assert_eq!(rt; pending(rt.alloc(), 16_384), Ok((9, 9, 0)));
    assert_eq!(rt; pending(rt.alloc(), 127), Ok((6, 6, 0)));
    Ok(())
}

/// A call on a stored tree.
#[derive(Clone, Copy)]
enum Call {
    Get(u32),
    Put(u32),
    Refill(u32),
    Remove(u32),
    Cut(u32),
}

/// Makes a call.
fn make(tree: &mut Tree, blocks: &mut MemBlocks, call: Call) -> Result<(), TreeFault> {
    match call {
        Call::Get(index) => {
            if index < INDEXES {
                let mut into = [0; 4096];
                tree.get(&mut Untold { blocks }, index, &mut into)?;
            }
            Ok(())
        }
        Call::Put(index) => put(tree, blocks, index, 9),
        Call::Refill(index) => {
            tree.refill(blocks, index, &block(9))?;
            Ok(())
        }
        Call::Remove(index) => {
            tree.remove(blocks, index, 0, 9)?;
            Ok(())
        }
        Call::Cut(length) => {
            tree.cut(blocks, length, 0, 9)?;
            Ok(())
        }
    }
}

/// How many blocks are loaded by a call and by another one after it, in a stored tree with the cells 0, 1 and 128; and
/// how many blocks were named, and how often one that was gone.
fn loads(alloc: Global, first: Call, second: Call) -> Result<([u64; 2], (u64, u64)), TreeFault> {
    let (mut tree, mut blocks) = small(alloc)?;
    let start = blocks.calls();
    make(&mut tree, &mut blocks, first)?;
    let once = blocks.calls();
    make(&mut tree, &mut blocks, second)?;
    let twice = blocks.calls();
    Ok((
        [once.saturating_sub(start), twice.saturating_sub(once)],
        blocks.gone(),
    ))
}

#[test]
fn loads_of_calls(rt: HostRuntime) -> Result<(), Fail> {
    let rows = [
        (Call::Get(1), Call::Get(129), ([3, 2], (0, 0))),
        (Call::Put(2), Call::Put(3), ([2, 0], (0, 0))),
        (Call::Refill(1), Call::Refill(2), ([2, 0], (0, 0))),
        (Call::Remove(128), Call::Remove(0), ([2, 1], (3, 0))),
        (Call::Cut(129), Call::Cut(2), ([2, 1], (2, 0))),
        (Call::Cut(129), Call::Get(128), ([2, 3], (0, 0))),
        (Call::Put(2), Call::Get(0), ([2, 1], (0, 0))),
        (Call::Cut(16_384), Call::Cut(0), ([0, 3], (6, 0))),
    ];
    for (first, second, want) in rows {
        assert_eq!(rt; loads(rt.alloc(), first, second), Ok(want));
    }
    Ok(())
}

/// The next cell from an index on in a stored tree with the cells 0, 1 and 128, and how many blocks the look loads.
fn next(alloc: Global, from: u32) -> Result<(Option<u32>, u64), TreeFault> {
    let (tree, mut blocks) = small(alloc)?;
    let start = blocks.calls();
    let next = tree.next(&mut blocks, from)?;
    Ok((next, blocks.calls().saturating_sub(start)))
}

#[test]
fn next_cells(rt: HostRuntime) -> Result<(), Fail> {
    let rows = [
        (0, Some(0), 2),
        (1, Some(1), 2),
        (2, Some(128), 4),
        (129, None, 3),
        (16_384, None, 0),
    ];
    for (from, want, loads) in rows {
        assert_eq!(rt; next(rt.alloc(), from), Ok((want, loads)));
    }
    Ok(())
}

/// Whether another content for a cell of a stored tree with the cells 0, 1 and 128 was taken; whether it is read
/// after a flush; how many blocks that placed; and the root's stamp.
fn refilled(alloc: Global, index: u32) -> Result<(bool, bool, u64, u64), TreeFault> {
    let (mut tree, mut blocks) = small(alloc)?;
    let there = tree.refill(&mut blocks, index, &block(77))?;
    let before = blocks.calls();
    let root = tree.flush(&mut blocks, false)?;
    let placed = blocks.calls().saturating_sub(before);
    let mut into = [0; 4096];
    let mut lent = Untold {
        blocks: &mut blocks,
    };
    let found = tree.get(&mut lent, index, &mut into)?;
    Ok((there, found && into == block(77), placed, root.stamp))
}

#[test]
fn another_content_keeps_the_stamps(rt: HostRuntime) -> Result<(), Fail> {
    assert_eq!(rt; refilled(rt.alloc(), 1), Ok((true, true, 3, 1)));
    assert_eq!(rt; refilled(rt.alloc(), 2), Ok((false, false, 0, 1)));
    assert_eq!(rt; refilled(rt.alloc(), 16_384), Ok((false, false, 0, 1)));
    Ok(())
}

/// How many blocks over a cell are shared in a stored tree with the cells 0, 1 and 128 after all its blocks were, before and
/// after a write of another cell, and how many blocks that looks for.
fn staying(alloc: Global, index: u32, other: u32) -> Result<(u32, u32, u64), TreeFault> {
    let (mut tree, mut blocks) = small(alloc)?;
    blocks.share();
    let before = tree.staying(&mut blocks, index)?;
    put(&mut tree, &mut blocks, other, 9)?;
    let start = blocks.calls();
    let after = tree.staying(&mut blocks, index)?;
    Ok((before, after, blocks.calls().saturating_sub(start)))
}

#[test]
fn blocks_that_stay_charged(rt: HostRuntime) -> Result<(), Fail> {
    let rows = [
        (0, 0, (3, 0, 0)),
        (0, 1, (3, 1, 0)),
        (0, 128, (3, 2, 1)),
        (2, 0, (2, 0, 0)),
        (256, 0, (1, 0, 0)),
        (16_384, 0, (0, 0, 0)),
    ];
    for (index, other, want) in rows {
        assert_eq!(rt; staying(rt.alloc(), index, other), Ok(want));
    }
    Ok(())
}

/// How many blocks are pending in that tree after all its blocks were shared, once a cell is ready or was written then; how
/// many of those over the cell stay charged; and how many blocks a flush places.
fn readied(alloc: Global, index: u32, writes: bool) -> Result<(u64, u32, u64), TreeFault> {
    let (mut tree, mut blocks) = small(alloc)?;
    blocks.share();
    if tree.ready(&mut blocks, index)? && writes {
        tree.rewrite(index, &block(9), 9);
    }
    let pending = tree.pending();
    let staying = tree.staying(&mut blocks, index)?;
    let start = blocks.calls();
    tree.flush(&mut blocks, false)?;
    Ok((pending, staying, blocks.calls().saturating_sub(start)))
}

#[test]
fn what_is_ready_has_not_changed(rt: HostRuntime) -> Result<(), Fail> {
    assert_eq!(rt; readied(rt.alloc(), 1, false), Ok((0, 3, 0)));
    assert_eq!(rt; readied(rt.alloc(), 1, true), Ok((3, 0, 3)));
    assert_eq!(rt; readied(rt.alloc(), 2, true), Ok((0, 2, 0)));
    Ok(())
}

/// How many of all blocks are shared in that tree, before and after such a write, and how many blocks each look loads.
fn staying_all(alloc: Global, other: u32) -> Result<[(u32, u64); 2], TreeFault> {
    let (mut tree, mut blocks) = small(alloc)?;
    blocks.share();
    let start = blocks.calls();
    let before = tree.staying_all(&mut blocks)?;
    let looked = blocks.calls();
    put(&mut tree, &mut blocks, other, 9)?;
    let changed = blocks.calls();
    let after = tree.staying_all(&mut blocks)?;
    Ok([
        (before, looked.saturating_sub(start)),
        (after, blocks.calls().saturating_sub(changed)),
    ])
}

#[test]
fn all_blocks_that_stay_charged(rt: HostRuntime) -> Result<(), Fail> {
    assert_eq!(rt; staying_all(rt.alloc(), 0), Ok([(6, 3), (3, 1)]));
    assert_eq!(rt; staying_all(rt.alloc(), 128), Ok([(6, 3), (3, 1)]));
    assert_eq!(rt; staying_all(rt.alloc(), 2), Ok([(6, 3), (4, 1)]));
    Ok(())
}

/// The answer of a call on a tree of one level over a block that stands in place of its node.
fn answer(alloc: Global, root: &[u8; 4096], call: Call) -> Result<(), TreeFault> {
    let (mut tree, mut blocks) = wrong(alloc, root)?;
    make(&mut tree, &mut blocks, call)
}

#[test]
fn nodes_are_judged_by_their_shape(rt: HostRuntime) -> Result<(), Fail> {
    for call in [
        Call::Get(0),
        Call::Put(1),
        Call::Refill(0),
        Call::Remove(0),
        Call::Cut(0),
    ] {
        for (level, place) in [(1, 0), (2, 0), (1, 5)] {
            assert_eq!(rt;
                answer(rt.alloc(), &node(level, place, 1, 0, 1), call),
                Ok(())
            );
        }
        assert_eq!(rt;
            answer(rt.alloc(), &block(0), call),
            Err(TreeFault::Damaged {
                at: 2,
                want: MARK,
                found: 0
            })
        );
    }
    Ok(())
}

/// What a look-up answers in a tree of so many levels, each block of which is this one.
fn over_one_block(
    alloc: Global,
    levels: u8,
    every: &[u8; 4096],
    index: u32,
) -> Result<bool, TreeFault> {
    let root = Pointer {
        vvbn: 1,
        pvbn: 0,
        stamp: 1,
    };
    let mut blocks = Silent::new(*every);
    let mut into = [0; 4096];
    tree_at(alloc, levels, root).get(&mut blocks, index, &mut into)
}

/// A source that tells nothing may give any block: the cell is read, or its fault is named.
#[test]
fn any_block_is_read_or_named(rt: HostRuntime) -> Result<(), Fail> {
    let lowest = node(1, 0, 1, 0, 1);
    assert_eq!(rt; over_one_block(rt.alloc(), 0, &block(7), 0), Ok(true));
    assert_eq!(rt; over_one_block(rt.alloc(), 1, &lowest, 0), Ok(true));
    assert_eq!(rt; over_one_block(rt.alloc(), 1, &lowest, 5), Ok(false));
    assert_eq!(rt; over_one_block(rt.alloc(), 3, &lowest, 0), Ok(true));
    assert_eq!(rt; over_one_block(rt.alloc(), 3, &lowest, 128), Ok(false));
    assert_eq!(rt;
        over_one_block(rt.alloc(), 2, &block(0), 0),
        Err(TreeFault::Damaged {
            at: 0,
            want: MARK,
            found: 0
        })
    );
    Ok(())
}

/// The loads of a write and the places of the flush after it, in a file of 100,000 cells after a flush.
fn cost(alloc: Global, index: u32) -> Result<(u64, u64), TreeFault> {
    let (mut tree, mut blocks) = large(alloc)?;
    put(&mut tree, &mut blocks, 100_000, 2)?;
    tree.flush(&mut blocks, false)?;
    let start = blocks.calls();
    put(&mut tree, &mut blocks, index, 3)?;
    let loaded = blocks.calls();
    tree.flush(&mut blocks, false)?;
    let placed = blocks.calls();
    Ok((loaded.saturating_sub(start), placed.saturating_sub(loaded)))
}

#[test]
fn a_write_costs_its_path(rt: HostRuntime) -> Result<(), Fail> {
    for index in [1, 54_321, 98_304] {
        assert_eq!(rt; cost(rt.alloc(), index), Ok((3, 4)));
    }
    Ok(())
}
