//! Inode files with far numbers, laid as the format spells them and read from their root; roots that are set; and each load of a
//! change failing in turn.

use crate::calls::{change, create, remove, set_root};
use crate::tests::beside::{Wrong, opened};
use fv_codec::Pointer;
use fv_inode::{InodeFault, InodeFile};
use fv_model::Name;
use fv_tree::Tree;
use fv_tree_rows::MemBlocks;
use std::alloc::Global;
use std::test::Fail;

/// The root that rows set.
const ROOT: Pointer = Pointer {
    vvbn: 77,
    pvbn: 78,
    stamp: 4,
};

/// The eight letters that spell a number.
fn letters(number: u32) -> [u8; 8] {
    let mut letters = [97; 8];
    let mut rest = number;
    for place in 0..8_usize {
        letters[place] = 97 + (rest % 16) as u8;
        rest /= 16;
    }
    letters
}

/// The name of the file that is laid under a number.
fn name(number: u32) -> Result<Name, Wrong> {
    match Name::read(&letters(number)) {
        Some(name) => Ok(name),
        None => Err(Wrong::Differs(u64::from(number))),
    }
}

/// The inode block of an index, with files from a slot on.
fn inode_block(cell: u32, first: u32) -> [u8; 4096] {
    let mut block = [0; 4096];
    block[..8].copy_from_slice(&0x4656_494e_4f44_4553u64.to_be_bytes());
    block[8..16].copy_from_slice(&u64::from(cell).to_be_bytes());
    for slot in first..16 {
        let at = 256 + 240 * slot as usize;
        let number = cell.wrapping_mul(16).wrapping_add(slot);
        block[at] = 8;
        block[at + 1..at + 9].copy_from_slice(&letters(number));
    }
    block
}

/// A cell that no inode file has.
const NONE: u32 = 16_384;

/// An inode file of which so many inode blocks are full, and one more, if any, has its last file alone.
fn laid(alloc: Global, blocks: &mut MemBlocks, full: u32, last: u32) -> Result<InodeFile, Wrong> {
    let mut tree = Tree::new(alloc, u64::MAX, 0);
    for cell in 0..full {
        if cell < NONE {
            tree.put(blocks, cell, &inode_block(cell, 0), 1)?;
        }
    }
    if last < NONE {
        tree.put(blocks, last, &inode_block(last, 15), 1)?;
    }
    let root = tree.flush(blocks, false)?;
    Ok(opened(alloc, tree.levels(), root))
}

/// Places what changed, and begins again with what the root spells; answers the root's stamp.
fn reopen(alloc: Global, blocks: &mut MemBlocks, file: &mut InodeFile) -> Result<u64, Wrong> {
    let root = file.flush(blocks, false)?;
    let levels = file.levels();
    *file = opened(alloc, levels, root);
    Ok(root.stamp)
}

/// The number of the file that is laid under a number, and its length.
fn told(
    file: &mut InodeFile,
    blocks: &mut MemBlocks,
    number: u32,
) -> Result<Option<(u32, u32)>, Wrong> {
    match file.find(blocks, &name(number)?)? {
        Some(info) => Ok(Some((info.number, info.length))),
        None => Ok(None),
    }
}

/// The number that a file gets after 2,048 others, the levels before and after, and whether both ends are found again.
fn next_number(alloc: Global) -> Result<(u8, Option<u32>, u8, bool), Wrong> {
    let mut blocks = MemBlocks::new(alloc);
    let mut file = laid(alloc, &mut blocks, 128, NONE)?;
    let before = file.levels();
    let made = create(&mut file, &mut blocks, &name(9999)?, 0, 3)?;
    reopen(alloc, &mut blocks, &mut file)?;
    let first = told(&mut file, &mut blocks, 0)? == Some((0, 0));
    let last = told(&mut file, &mut blocks, 9999)? == Some((2048, 0));
    let number = match made {
        Some(info) => Some(info.number),
        None => None,
    };
    Ok((before, number, file.levels(), first && last))
}

/// How many blocks a look-up of the last number loads; what is known of it before a change and after one; and, once it is gone,
/// the levels, and how often a block was named that wasn't in use.
fn last_number(
    alloc: Global,
) -> Result<(u64, Option<(u32, u32)>, Option<(u32, u32)>, (u8, u64)), Wrong> {
    let mut blocks = MemBlocks::new(alloc);
    let mut file = laid(alloc, &mut blocks, 0, 16_383)?;
    let start = blocks.calls();
    let before = told(&mut file, &mut blocks, 262_143)?;
    let loads = blocks.calls().saturating_sub(start);
    change(&mut file, &mut blocks, &name(262_143)?, 7, 2)?;
    reopen(alloc, &mut blocks, &mut file)?;
    let after = told(&mut file, &mut blocks, 262_143)?;
    remove(&mut file, &mut blocks, &name(262_143)?, 3)?;
    Ok((loads, before, after, (file.levels(), blocks.gone().1)))
}

/// How many blocks are named when the last file of an inode block goes, and what a look-up of no file then loads.
fn last_of_a_block(alloc: Global) -> Result<((u64, u64), u64), Wrong> {
    let mut blocks = MemBlocks::new(alloc);
    let mut file = laid(alloc, &mut blocks, 1, 1)?;
    remove(&mut file, &mut blocks, &name(31)?, 2)?;
    let gone = blocks.gone();
    reopen(alloc, &mut blocks, &mut file)?;
    let start = blocks.calls();
    told(&mut file, &mut blocks, 31)?;
    Ok((gone, blocks.calls().saturating_sub(start)))
}

#[test]
fn far_numbers(rt: HostRuntime) -> Result<(), Fail> {
    assert_eq!(rt; next_number(rt.alloc()), Ok((1, Some(2048), 2, true)));
    let last = Ok((16_513, Some((262_143, 0)), Some((262_143, 7)), (0, 0)));
    assert_eq!(rt; last_number(rt.alloc()), last);
    assert_eq!(rt; last_of_a_block(rt.alloc()), Ok(((1, 0), 129)));
    Ok(())
}

/// Sets a root after a change with the stamp 2, or without one: what that loads, the stamp of the inode file's root after a flush,
/// and whether the record says it all then.
fn rooted(alloc: Global, changed: bool) -> Result<(u64, u64, bool), Wrong> {
    let mut blocks = MemBlocks::new(alloc);
    let mut file = laid(alloc, &mut blocks, 1, 1)?;
    if changed {
        change(&mut file, &mut blocks, &name(3)?, 9, 2)?;
    }
    let start = blocks.calls();
    set_root(&mut file, &mut blocks, &name(3)?, 2, ROOT)?;
    let loads = blocks.calls().saturating_sub(start);
    let stamp = reopen(alloc, &mut blocks, &mut file)?;
    let length = if changed { 9 } else { 0 };
    let says = match file.find(&mut blocks, &name(3)?)? {
        Some(info) => info.levels == 2 && info.root == ROOT && info.length == length,
        None => false,
    };
    Ok((loads, stamp, says))
}

#[test]
fn roots(rt: HostRuntime) -> Result<(), Fail> {
    assert_eq!(rt; rooted(rt.alloc(), true), Ok((0, 2, true)));
    assert_eq!(rt; rooted(rt.alloc(), false), Ok((5, 1, true)));
    Ok(())
}

/// A change of an inode file.
#[derive(Clone, Copy)]
enum Call {
    Create,
    Change,
    Remove,
    SetRoot,
}

/// Makes a change.
fn make(file: &mut InodeFile, blocks: &mut MemBlocks, call: Call) -> Result<(), Wrong> {
    match call {
        Call::Create => {
            create(file, blocks, &name(16)?, 0, 2)?;
        }
        Call::Change => {
            change(file, blocks, &name(31)?, 5, 2)?;
        }
        Call::Remove => {
            remove(file, blocks, &name(31)?, 2)?;
        }
        Call::SetRoot => {
            set_root(file, blocks, &name(31)?, 2, ROOT)?;
        }
    }
    Ok(())
}

/// What a change answers where its n-th load fails, and what is known of a file once it was made again.
fn failed(
    alloc: Global,
    call: Call,
    load: u64,
    number: u32,
) -> Result<(bool, Option<(u32, u32)>), Wrong> {
    let mut blocks = MemBlocks::new(alloc);
    let mut file = laid(alloc, &mut blocks, 1, 1)?;
    blocks.fail(blocks.calls().saturating_add(load));
    let answer = make(&mut file, &mut blocks, call);
    blocks.fail(u64::MAX);
    let fails = answer == Err(Wrong::Fault(InodeFault::DiskFault));
    if fails {
        make(&mut file, &mut blocks, call)?;
    }
    Ok((fails, told(&mut file, &mut blocks, number)?))
}

#[test]
fn failing_changes(rt: HostRuntime) -> Result<(), Fail> {
    let rows = [
        (Call::Create, 7, 16, Some((16, 0))),
        (Call::Change, 8, 31, Some((31, 5))),
        (Call::Remove, 8, 31, None),
        (Call::SetRoot, 7, 31, Some((31, 0))),
    ];
    for (call, loads, number, wanted) in rows {
        for load in 0..loads {
            assert_eq!(rt; failed(rt.alloc(), call, load, number), Ok((true, wanted)));
        }
        assert_eq!(rt;
            failed(rt.alloc(), call, loads, number),
            Ok((false, wanted))
        );
    }
    Ok(())
}
