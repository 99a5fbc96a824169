//! What a flush of a table places: blocks that changed, each once.

use crate::tables::{make, write};
use crate::tests::beside::Wrong;
use crate::tests::stored::{full, has, name, table_at};
use fv_files::{Files, FilesFault};
use fv_tree_rows::MemBlocks;
use std::alloc::Global;
use std::test::Fail;

/// How many blocks were placed: blocks of files, nodes over them, inode blocks, and nodes over those.
fn placed(blocks: &MemBlocks) -> [u64; 4] {
    [
        blocks.placed(1),
        blocks.placed(2),
        blocks.placed(5),
        blocks.placed(6),
    ]
}

/// How many were placed since.
fn since(blocks: &MemBlocks, before: &[u64; 4]) -> [u64; 4] {
    let mut counts = placed(blocks);
    for kind in 0..4_usize {
        counts[kind] = counts[kind].saturating_sub(before[kind]);
    }
    counts
}

/// A stored table with 17 files, so with two inode blocks under a node. The first and the last file have two blocks under a node.
pub(crate) fn two_files(alloc: Global, blocks: &mut MemBlocks) -> Result<Files, Wrong> {
    let mut table = Files::new(alloc);
    for number in 0..17_u8 {
        make(&mut table, blocks, &name(number)?, 0, 1)?;
    }
    for index in 0..2 {
        write(&mut table, blocks, &name(0)?, index, &full(1), 2)?;
        write(&mut table, blocks, &name(16)?, index, &full(1), 2)?;
    }
    let root = table.flush(blocks)?;
    Ok(table_at(alloc, table.levels(), root))
}

/// Whether a write of the first file fails at its last load, that of the node over the block. The six loads before it are those of the
/// look-up and those that hold the file ready.
fn fails(table: &mut Files, blocks: &mut MemBlocks) -> Result<bool, Wrong> {
    blocks.fail(blocks.calls().saturating_add(6));
    let answer = write(table, blocks, &name(0)?, 0, &full(2), 3);
    blocks.fail(u64::MAX);
    Ok(answer == Err(FilesFault::DiskFault))
}

/// What a flush places after a write that failed, and after one of another file behind it, where there is one.
fn failed(alloc: Global, other: Option<u8>) -> Result<(bool, [u64; 4]), Wrong> {
    let mut blocks = MemBlocks::new(alloc);
    let mut table = two_files(alloc, &mut blocks)?;
    let before = placed(&blocks);
    let fault = fails(&mut table, &mut blocks)?;
    if let Some(number) = other {
        write(&mut table, &mut blocks, &name(number)?, 0, &full(3), 4)?;
    }
    table.flush(&mut blocks)?;
    Ok((fault, since(&blocks, &before)))
}

/// What a flush places after a write of the first file, and what one more after a write of another.
fn in_turn(alloc: Global, other: u8) -> Result<[[u64; 4]; 2], Wrong> {
    let mut blocks = MemBlocks::new(alloc);
    let mut table = two_files(alloc, &mut blocks)?;
    let before = placed(&blocks);
    write(&mut table, &mut blocks, &name(0)?, 0, &full(2), 3)?;
    table.flush(&mut blocks)?;
    let first = since(&blocks, &before);
    let between = placed(&blocks);
    write(&mut table, &mut blocks, &name(other)?, 0, &full(3), 4)?;
    table.flush(&mut blocks)?;
    Ok([first, since(&blocks, &between)])
}

/// What two flushes place of which the first fails at a call; and whether the file is as written then.
fn stopped(alloc: Global, call: u64) -> Result<(bool, [u64; 4], bool), Wrong> {
    let mut blocks = MemBlocks::new(alloc);
    let mut table = two_files(alloc, &mut blocks)?;
    write(&mut table, &mut blocks, &name(0)?, 0, &full(2), 3)?;
    let before = placed(&blocks);
    blocks.fail(blocks.calls().saturating_add(call));
    let fault = table.flush(&mut blocks).is_err();
    blocks.fail(u64::MAX);
    let root = table.flush(&mut blocks)?;
    let counts = since(&blocks, &before);
    let mut again = table_at(alloc, table.levels(), root);
    Ok((
        fault,
        counts,
        has(&mut again, &mut blocks, &name(0)?, 0, 2)?,
    ))
}

/// What was held ready for a write that failed isn't placed. The second file is in the same inode block, the last one in another.
#[test]
fn flushes_after_a_fault(rt: HostRuntime) -> Result<(), Fail> {
    let rows = [
        (None, [0, 0, 0, 0]),
        (Some(0), [1, 1, 1, 1]),
        (Some(1), [1, 0, 1, 1]),
        (Some(16), [1, 1, 1, 1]),
    ];
    for (other, wanted) in rows {
        assert_eq!(rt; failed(rt.alloc(), other), Ok((true, wanted)));
    }
    Ok(())
}

/// The first file's inode block is placed once more only where the other file is in it.
#[test]
fn flushes_in_turn(rt: HostRuntime) -> Result<(), Fail> {
    let first = [1, 1, 1, 1];
    assert_eq!(rt; in_turn(rt.alloc(), 1), Ok([first, [1, 0, 1, 1]]));
    assert_eq!(rt; in_turn(rt.alloc(), 16), Ok([first, first]));
    Ok(())
}

/// A block, its node, an inode block and its node are placed, none of them twice.
#[test]
fn stopped_flushes(rt: HostRuntime) -> Result<(), Fail> {
    let once = [1, 1, 1, 1];
    for call in 0..5 {
        assert_eq!(rt; stopped(rt.alloc(), call), Ok((call < 4, once, true)));
    }
    Ok(())
}
