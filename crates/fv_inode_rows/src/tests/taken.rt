//! What cuts and removals take of a stored table, where another table has all of its blocks, too. The counts were worked out by hand.

use crate::tables::{taken_by_cut, taken_by_removal, write};
use crate::tests::beside::Wrong;
use crate::tests::flushed::two_files;
use crate::tests::stored::{full, name, stored, table_at};
use fv_files::Files;
use fv_tree::Taken;
use fv_tree_rows::MemBlocks;
use std::alloc::Global;
use std::test::Fail;

/// How many positions go, and how many blocks stay charged.
fn counts(taken: Option<Taken>) -> Option<(u32, u32)> {
    taken.map(|taken: Taken| (taken.gone, taken.staying))
}

/// What is taken of a file by cuts to 201, 200, 1 and no blocks, and by its removal.
fn seen(
    table: &mut Files,
    blocks: &mut MemBlocks,
    number: u8,
) -> Result<[Option<(u32, u32)>; 5], Wrong> {
    let file = name(number)?;
    Ok([
        counts(taken_by_cut(table, blocks, &file, 201)?),
        counts(taken_by_cut(table, blocks, &file, 200)?),
        counts(taken_by_cut(table, blocks, &file, 1)?),
        counts(taken_by_cut(table, blocks, &file, 0)?),
        counts(taken_by_removal(table, blocks, &file)?),
    ])
}

/// That of a table with one file, whose blocks 0 and 200 have a node each under its root, before and after a write of block 0.
fn alone(alloc: Global) -> Result<[[Option<(u32, u32)>; 5]; 2], Wrong> {
    let mut blocks = MemBlocks::new(alloc);
    let (levels, root) = stored(alloc, &mut blocks)?;
    blocks.share();
    let mut table = table_at(alloc, levels, root);
    let before = seen(&mut table, &mut blocks, 7)?;
    write(&mut table, &mut blocks, &name(7)?, 0, &full(9), 5)?;
    Ok([before, seen(&mut table, &mut blocks, 7)?])
}

/// A cut that takes no block replaces the inode block all the same. One to 200 or to 1 takes block 200 and the node over it, and replaces the
/// root. The removal takes the inode block, too. What was written differs from what is shared afterwards.
#[test]
fn what_changes_of_a_file_alone_take(rt: HostRuntime) -> Result<(), Fail> {
    let before = [(0, 1), (2, 4), (2, 4), (5, 6), (6, 6)].map(Some);
    let after = [(0, 0), (2, 2), (2, 2), (5, 2), (6, 2)].map(Some);
    assert_eq!(rt; alone(rt.alloc()), Ok([before, after]));
    Ok(())
}

/// That of the first, the second and the last of 17 files, of which the first and the last have two blocks under a node, and of a name
/// that no file has.
fn beside(alloc: Global) -> Result<[[Option<(u32, u32)>; 5]; 4], Wrong> {
    let mut blocks = MemBlocks::new(alloc);
    let mut table = two_files(alloc, &mut blocks)?;
    blocks.share();
    Ok([
        seen(&mut table, &mut blocks, 0)?,
        seen(&mut table, &mut blocks, 1)?,
        seen(&mut table, &mut blocks, 16)?,
        seen(&mut table, &mut blocks, 17)?,
    ])
}

/// Two inode blocks lie under a node, and the last file is alone in the second. So its removal takes that block, and that of the first takes
/// none: it replaces the inode block and the node over it, and five blocks stay charged for three that go.
#[test]
fn what_changes_of_files_beside_others_take(rt: HostRuntime) -> Result<(), Fail> {
    let first = [(0, 2), (0, 2), (1, 4), (3, 5), (3, 5)].map(Some);
    let second = [(0, 2), (0, 2), (0, 2), (0, 2), (0, 2)].map(Some);
    let last = [(0, 2), (0, 2), (1, 4), (3, 5), (4, 5)].map(Some);
    assert_eq!(rt; beside(rt.alloc()), Ok([first, second, last, [None; 5]]));
    Ok(())
}
