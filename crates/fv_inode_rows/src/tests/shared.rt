//! How many blocks of a stored table stay charged, where another table has all of them, too.

use crate::calls::{change, create};
use crate::tables::{staying, staying_by_removal, write};
use crate::tests::beside::Wrong;
use crate::tests::stored::{full, name, stored, table_at};
use fv_files::Files;
use fv_inode::InodeFile;
use fv_tree_rows::MemBlocks;
use std::alloc::Global;
use std::test::Fail;

/// What stays of the file of a stored table: with a write of its blocks 0, 200, 1, 256 and 16,384, with its removal, and with a new
/// file in the first inode block and in the second.
fn seen(table: &mut Files, blocks: &mut MemBlocks) -> Result<[Option<u32>; 8], Wrong> {
    let file = name(7)?;
    Ok([
        staying(table, blocks, &file, 0)?,
        staying(table, blocks, &file, 200)?,
        staying(table, blocks, &file, 1)?,
        staying(table, blocks, &file, 256)?,
        staying(table, blocks, &file, 16_384)?,
        staying_by_removal(table, blocks, &file)?,
        Some(table.staying_by_new(blocks, 1)?),
        Some(table.staying_by_new(blocks, 16)?),
    ])
}

/// What stays before and after a write of block 0, where each block of the stored table is shared.
fn shared(alloc: Global) -> Result<[[Option<u32>; 8]; 2], Wrong> {
    let mut blocks = MemBlocks::new(alloc);
    let (levels, root) = stored(alloc, &mut blocks)?;
    blocks.share();
    let mut table = table_at(alloc, levels, root);
    let before = seen(&mut table, &mut blocks)?;
    write(&mut table, &mut blocks, &name(7)?, 0, &full(9), 5)?;
    Ok([before, seen(&mut table, &mut blocks)?])
}

/// Each way to a block of the file has a root, a node and the block, and the inode file has one block. The written block, its way and
/// the inode block differ from what is shared afterwards.
#[test]
fn blocks_of_a_table_that_stay(rt: HostRuntime) -> Result<(), Fail> {
    let before = [4, 4, 3, 2, 1, 6, 1, 0].map(Some);
    let after = [0, 2, 0, 0, 0, 2, 0, 0].map(Some);
    assert_eq!(rt; shared(rt.alloc()), Ok([before, after]));
    Ok(())
}

/// What stays of an inode file of 17 files, so with two inode blocks under a node, where another table has all of it: with a change of the
/// first file, of the last, and of one in an inode block that isn't there; before and after a change of the first.
fn inode_blocks(alloc: Global) -> Result<[[u32; 3]; 2], Wrong> {
    let mut blocks = MemBlocks::new(alloc);
    let mut file = InodeFile::new(alloc);
    for number in 0..17_u8 {
        create(&mut file, &mut blocks, &name(number)?, 0, 1)?;
    }
    file.flush(&mut blocks, false)?;
    blocks.share();
    let before = over_blocks(&file, &mut blocks)?;
    change(&mut file, &mut blocks, &name(0)?, 5, 2)?;
    Ok([before, over_blocks(&file, &mut blocks)?])
}

/// What stays over those three inode blocks.
fn over_blocks(file: &InodeFile, blocks: &mut MemBlocks) -> Result<[u32; 3], Wrong> {
    Ok([
        file.staying(blocks, 0)?,
        file.staying(blocks, 16)?,
        file.staying(blocks, 32)?,
    ])
}

/// The changed inode block and the node over it differ from what is shared afterwards; the other inode block doesn't.
#[test]
fn inode_blocks_that_stay(rt: HostRuntime) -> Result<(), Fail> {
    assert_eq!(rt; inode_blocks(rt.alloc()), Ok([[2, 2, 1], [0, 1, 0]]));
    Ok(())
}

/// A name that no file has, and a table without blocks.
#[test]
fn nothing_stays_without_a_file(rt: HostRuntime) -> Result<(), Fail> {
    let mut blocks = MemBlocks::new(rt.alloc());
    let mut table = Files::new(rt.alloc());
    let none = seen(&mut table, &mut blocks);
    assert_eq!(rt;
        none,
        Ok([None, None, None, None, None, None, Some(0), Some(0)])
    );
    Ok(())
}
