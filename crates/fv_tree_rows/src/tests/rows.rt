//! Random changes of a tree, and of the machine's.

use crate::memory::MemBlocks;
use crate::tests::pair::{
    Change, INDEXES, Kind, Pair, Wrong, block, change_both, flush, new_pair, replayed,
};
use crate::tests::walk::spells;
use crate::untold::Untold;
use std::alloc::Global;
use std::test::Fail;

/// The next number of a sequence that looks random, below 2^31.
fn next(state: &mut u64) -> u64 {
    *state = state
        .wrapping_mul(6_364_136_223_846_793_005)
        .wrapping_add(1_442_695_040_888_963_407);
    *state >> 33
}

/// An index: one at the edge of a level, one of few, or any.
fn pick(state: &mut u64) -> u32 {
    let edges = [0, 1, 127, 128, 129, 16_383, 16_384, 2_097_151];
    match next(state) % 8 {
        0 | 1 => edges[(next(state) % 8) as usize],
        2 => (next(state) % 2_097_152) as u32,
        _ => (next(state) % 150) as u32,
    }
}

/// A change with a stamp: of 64 changes, so many are cuts, 24 are cuts and removals, and the others write.
fn any_change(state: &mut u64, cuts: u64, stamp: u64) -> Change {
    let index = pick(state);
    let chance = next(state) % 64;
    let kind = if chance < cuts {
        Kind::Cut
    } else if chance < 24 {
        Kind::Remove
    } else {
        Kind::Put
    };
    Change { kind, index, stamp }
}

/// Whether the tree, read as it is in memory, has the machine's levels, and its cells and holes at the index of the last
/// change, beside it, and at two other indexes.
fn agree_in_memory(pair: &mut Pair, state: &mut u64, last: u32) -> Result<bool, Wrong> {
    let levels = u32::from(pair.stored.tree.levels());
    Ok(
        levels == pair.machine.levels()
            && agree_around(pair, last)?
            && agree_at(pair, pick(state))?
            && agree_at(pair, pick(state))?,
    )
}

/// Whether both have the same cells at an index and beside it.
fn agree_around(pair: &mut Pair, index: u32) -> Result<bool, Wrong> {
    Ok(
        agree_at(pair, index.saturating_sub(1))?
            && agree_at(pair, index)?
            && agree_at(pair, index.saturating_add(1))?,
    )
}

/// Whether both have the same cell at an index, if there is such an index.
fn agree_at(pair: &mut Pair, index: u32) -> Result<bool, Wrong> {
    if index >= INDEXES {
        return Ok(true);
    }
    let mut into = [0; 4096];
    let mut blocks = Untold {
        blocks: &mut pair.stored.blocks,
    };
    let there = pair.stored.tree.get(&mut blocks, index, &mut into)?;
    Ok(match pair.machine.stamps().get(&(0, index)) {
        Some(stamp) => there && into == block(*stamp),
        None => !there,
    })
}

/// Whether a flush now would leave blocks that spell the machine's tree. It is made of a replay, so the pair's
/// tree stays as it is in memory.
fn agree_if_flushed(pair: &Pair) -> Result<bool, Wrong> {
    let mut stored = replayed(pair)?;
    let root = stored.tree.flush(&mut stored.blocks, false)?;
    spells(pair.alloc, &mut stored, &root, &pair.machine)
}

/// Places what changed, and tells whether the blocks spell the machine's tree, under the root that the same
/// flush of a replay gives.
fn agree_when_flushed(pair: &mut Pair) -> Result<bool, Wrong> {
    let mut stored = replayed(pair)?;
    let again = stored.tree.flush(&mut stored.blocks, false)?;
    let root = flush(pair)?;
    Ok(root == again && spells(pair.alloc, &mut pair.stored, &root, &pair.machine)?)
}

/// Makes a change in both, and tells whether they are equal: levels, all cells with their contents, and all stamps.
fn step(pair: &mut Pair, state: &mut u64, one: Change) -> Result<(), Wrong> {
    change_both(pair, one)?;
    if agree_in_memory(pair, state, one.index)? && agree_if_flushed(pair)? {
        Ok(())
    } else {
        Err(Wrong::Differs(one.stamp))
    }
}

/// Changes a tree at random in so many steps, and places what changed after each step that a number divides. The
/// last step takes all cells, and with them each block that was placed, once.
fn run(alloc: Global, start: u8, steps: u64, every: u64, cuts: u64) -> Result<(), Wrong> {
    if start > 3 || every == 0 {
        return Err(Wrong::Differs(0));
    }
    let mut pair = new_pair(alloc, start);
    let mut state = 41 + u64::from(start);
    for stamp in 1..steps {
        let one = any_change(&mut state, cuts, stamp);
        step(&mut pair, &mut state, one)?;
        if stamp % every == 0 && !agree_when_flushed(&mut pair)? {
            return Err(Wrong::Differs(stamp));
        }
    }
    let last = Change {
        kind: Kind::Cut,
        index: 0,
        stamp: steps,
    };
    step(&mut pair, &mut state, last)?;
    if agree_when_flushed(&mut pair)? && is_empty(&pair.stored.blocks) {
        Ok(())
    } else {
        Err(Wrong::Differs(steps))
    }
}

/// Whether each block that was placed was named once.
fn is_empty(blocks: &MemBlocks) -> bool {
    let mut placed = 0_u64;
    for kind in 1..8 {
        placed = placed.saturating_add(blocks.placed(kind));
    }
    placed > 0 && blocks.gone() == (placed, 0)
}

#[test]
fn random_changes(rt: HostRuntime) -> Result<(), Fail> {
    let rows = [(0, 2000, 7, 6), (1, 200, 1, 3), (2, 200, 20, 3)];
    for (start, steps, every, cuts) in rows {
        assert_eq!(rt; run(rt.alloc(), start, steps, every, cuts), Ok(()));
    }
    Ok(())
}
