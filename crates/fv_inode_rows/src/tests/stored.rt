//! Rows of tables in memory: files that are made, written and read, and a table that stands in its blocks.

use crate::calls::{change, create, set_root};
use crate::tables::{length, make, read, write};
use crate::tests::beside::Wrong;
use fv_codec::Pointer;
use fv_files::{Files, FilesFault};
use fv_inode::InodeFile;
use fv_model::Name;
use fv_tree::Tree;
use fv_tree_rows::{MemBlocks, Untold};
use std::alloc::Global;
use std::test::Fail;

/// A name of one letter and one digit.
pub(crate) fn name(number: u8) -> Result<Name, Wrong> {
    let bytes = [97 + number / 10 % 26, 48 + number % 10];
    match Name::read(&bytes) {
        Some(name) => Ok(name),
        None => Err(Wrong::Differs(0)),
    }
}

/// A block of one byte.
pub(crate) fn full(byte: u8) -> [u8; 4096] {
    [byte; 4096]
}

/// Whether block `index` of a file starts and ends with a byte.
pub(crate) fn has(
    table: &mut Files,
    blocks: &mut MemBlocks,
    name: &Name,
    index: u32,
    byte: u8,
) -> Result<bool, Wrong> {
    let mut into = full(255);
    let there = read(table, &mut Untold { blocks }, name, index, &mut into)?;
    Ok(there && into[0] == byte && into[4095] == byte)
}

/// Forty files, each with a block of its own. The first one grows to 2 levels.
fn forty(alloc: Global) -> Result<bool, Wrong> {
    let mut table = Files::new(alloc);
    let mut blocks = MemBlocks::new(alloc);
    let mut same = true;
    for number in 0..40_u8 {
        let stamp = 1 + 2 * u64::from(number);
        let file = name(number)?;
        same = same && make(&mut table, &mut blocks, &file, 0, stamp)?;
        let (cell, block) = (u32::from(number), full(1 + number));
        same = same && write(&mut table, &mut blocks, &file, cell, &block, stamp + 1)?;
    }
    let first = name(0)?;
    same = same && write(&mut table, &mut blocks, &first, 200, &full(77), 100)?;
    same = same && has(&mut table, &mut blocks, &first, 200, 77)?;
    for number in 0..40_u8 {
        let file = name(number)?;
        let cell = u32::from(number);
        same = same && has(&mut table, &mut blocks, &file, cell, 1 + number)?;
        same = same && has(&mut table, &mut blocks, &file, 300, 0)?;
    }
    same = same && length(&mut table, &mut blocks, &first)? == Some(201);
    same = same && length(&mut table, &mut blocks, &name(39)?)? == Some(40);
    same = same && length(&mut table, &mut blocks, &name(40)?)?.is_none();
    same = same && !has(&mut table, &mut blocks, &name(40)?, 0, 0)?;
    Ok(same && table.list(&mut blocks)?.as_slice().len() == 40 && blocks.calls() == 0)
}

/// The root of a stored table with a file of 2 levels: blocks 0 and 200 are of bytes 5 and 6.
pub(crate) fn stored(alloc: Global, blocks: &mut MemBlocks) -> Result<(u8, Pointer), Wrong> {
    let mut inodes = InodeFile::new(alloc);
    let file = name(7)?;
    if create(&mut inodes, blocks, &file, 0, 1)?.is_none() {
        return Err(Wrong::Differs(1));
    }
    let mut tree = Tree::new(alloc, 0, 0);
    tree.put(blocks, 0, &full(5), 2)?;
    tree.put(blocks, 200, &full(6), 3)?;
    let root = tree.flush(blocks, false)?;
    let done = change(&mut inodes, blocks, &file, 201, 4)?
        && set_root(&mut inodes, blocks, &file, tree.levels(), root)?;
    if !done {
        return Err(Wrong::Differs(2));
    }
    let root = inodes.flush(blocks, false)?;
    Ok((inodes.levels(), root))
}

/// The table of a root pointer.
pub(crate) fn table_at(alloc: Global, levels: u8, root: Pointer) -> Files {
    let fits = root.stamp != 0 && root.vvbn <= 1_048_575 && root.pvbn <= 1_048_575;
    if fits && levels <= 2 {
        Files::at(alloc, levels, root)
    } else {
        Files::new(alloc)
    }
}

/// What a write answers whose load with this number fails; whether the blocks are as before it then, and as written after
/// the same write again.
fn failed(alloc: Global, call: u64) -> Result<(Option<FilesFault>, bool), Wrong> {
    let mut blocks = MemBlocks::new(alloc);
    let (levels, root) = stored(alloc, &mut blocks)?;
    let mut table = table_at(alloc, levels, root);
    let file = name(7)?;
    let start = blocks.calls();
    blocks.fail(start.saturating_add(call));
    let fault = match write(&mut table, &mut blocks, &file, 200, &full(9), 5) {
        Ok(_) => None,
        Err(fault) => Some(fault),
    };
    blocks.fail(u64::MAX);
    let mut same = has(&mut table, &mut blocks, &file, 0, 5)?;
    if fault.is_some() {
        same = same && has(&mut table, &mut blocks, &file, 200, 6)?;
        same = same && write(&mut table, &mut blocks, &file, 200, &full(9), 5)?;
    }
    same = same && has(&mut table, &mut blocks, &file, 200, 9)?;
    same = same && length(&mut table, &mut blocks, &file)? == Some(201);
    Ok((fault, same))
}

#[test]
fn files_in_memory(rt: HostRuntime) -> Result<(), Fail> {
    assert_eq!(rt; forty(rt.alloc()), Ok(true));
    Ok(())
}

#[test]
fn failing_writes(rt: HostRuntime) -> Result<(), Fail> {
    let fault = Some(FilesFault::DiskFault);
    for call in 0..5 {
        assert_eq!(rt; failed(rt.alloc(), call), Ok((fault, true)));
    }
    assert_eq!(rt; failed(rt.alloc(), 5), Ok((None, true)));
    Ok(())
}
