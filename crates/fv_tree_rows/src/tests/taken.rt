//! What removals take of a tree whose blocks are shared, by counts that were worked out by hand, and how many blocks that loads.

use crate::memory::MemBlocks;
use crate::tests::pair::block;
use crate::tests::spelled::small;
use fv_tree::{Taken, Tree, TreeFault};
use std::alloc::Global;
use std::test::Fail;

/// A stored tree with the cells 0, 1 and 128, and so with two nodes under its root. All of its blocks are shared, and then cell 0 was
/// written where that is asked.
fn shared(alloc: Global, writes: bool) -> Result<(Tree, MemBlocks), TreeFault> {
    let (mut tree, mut blocks) = small(alloc)?;
    blocks.share();
    if writes {
        tree.put(&mut blocks, 0, &block(9), 9)?;
    }
    Ok((tree, blocks))
}

/// How many positions of that tree go with all cells from one on, how many blocks stay charged, and how many blocks that loads.
fn taken(alloc: Global, writes: bool, from: u32) -> Result<(u32, u32, u64), TreeFault> {
    let (tree, mut blocks) = shared(alloc, writes)?;
    let start = blocks.calls();
    let Taken { gone, staying } = tree.taken(&mut blocks, from)?;
    Ok((gone, staying, blocks.calls().saturating_sub(start)))
}

/// From 1 on cell 1 goes, and cell 128 with its node; that over 0 and 1 and the root get another stamp. After the write the written
/// cell, the node over it and the root differ from what is shared.
#[test]
fn what_a_cut_takes(rt: HostRuntime) -> Result<(), Fail> {
    let rows = [
        (false, 0, (6, 6, 3)),
        (false, 1, (3, 5, 3)),
        (false, 2, (2, 3, 3)),
        (false, 128, (2, 3, 2)),
        (false, 129, (0, 0, 2)),
        (false, 256, (0, 0, 1)),
        (false, 16_384, (0, 0, 0)),
        (true, 0, (6, 3, 1)),
        (true, 1, (3, 3, 1)),
        (true, 2, (2, 2, 1)),
        (true, 129, (0, 0, 1)),
        (true, 256, (0, 0, 0)),
    ];
    for (writes, from, want) in rows {
        assert_eq!(rt; taken(rt.alloc(), writes, from), Ok(want));
    }
    Ok(())
}

/// How many positions of that tree go with one cell, and how many blocks that loads.
fn lost(alloc: Global, index: u32) -> Result<(u32, u64), TreeFault> {
    let (tree, mut blocks) = shared(alloc, false)?;
    let start = blocks.calls();
    Ok((
        tree.lost(&mut blocks, index)?,
        blocks.calls().saturating_sub(start),
    ))
}

/// Cell 128 has a node of its own.
#[test]
fn what_goes_with_a_cell(rt: HostRuntime) -> Result<(), Fail> {
    let rows = [
        (0, (1, 2)),
        (1, (1, 2)),
        (128, (2, 2)),
        (2, (0, 2)),
        (256, (0, 1)),
        (16_384, (0, 0)),
    ];
    for (index, want) in rows {
        assert_eq!(rt; lost(rt.alloc(), index), Ok(want));
    }
    Ok(())
}
