//! An aggregate that is filled to its last block.

use crate::points::{go, make};
use fv_model::{Command, Name};
use fv_volume_rows::{Pair, Wrong, agrees, name, new_pair};
use std::alloc::Global;
use std::test::Fail;

/// Whether both answer a write of a block alike.
fn put(pair: &mut Pair, volume: Name, file: Name, index: u32, byte: u8) -> Result<bool, Wrong> {
    agrees(
        pair,
        &Command::Put {
            volume,
            file,
            index,
            block: [byte; 4096],
        },
    )
}

/// Whether a write of a block is refused for want of room in the aggregate.
fn is_refused(pair: &mut Pair, index: u32, byte: u8) -> Result<bool, Wrong> {
    let before = pair.seen[9];
    if !put(pair, name(b"a")?, name(b"f")?, index, byte)? {
        return Err(Wrong::Differs(index as usize));
    }
    Ok(pair.seen[9] != before)
}

/// Writes blocks until one is refused.
fn fill(pair: &mut Pair, byte: u8) -> Result<u32, Wrong> {
    for index in 0..1000 {
        if is_refused(pair, index, byte)? {
            return Ok(index);
        }
    }
    Err(Wrong::Row)
}

/// How many blocks go in, and how many are free after a point.
fn round(mut pair: Pair, byte: u8) -> Result<(Pair, (u32, u32)), Wrong> {
    let count = fill(&mut pair, byte)?;
    let pair = make(pair)?;
    let free = pair.opened.pool.map.free_count();
    Ok((pair, (count, free)))
}

/// Fills an aggregate of 512 blocks and makes a point, then writes all of it again and makes one, twice.
fn filled(alloc: Global) -> Result<[(u32, u32); 3], Wrong> {
    let pair = go(
        new_pair(alloc, 512)?,
        &[b"vol create a 400 none", b"new a f"],
    )?;
    let (pair, first) = round(pair, 1)?;
    let (pair, second) = round(pair, 2)?;
    let (_pair, third) = round(pair, 3)?;
    Ok([first, second, third])
}

/// Of 249 blocks the volume's overhead takes 40. The file takes an inode block, a node over each 128 blocks and one over those: 209 blocks
/// are 205 of content, 3 nodes and an inode block. The volume is written by five blocks, with a leaf more where the files' VVBNs lie in two.
#[test]
fn a_full_aggregate(rt: HostRuntime) -> Result<(), Fail> {
    assert_eq!(rt;
        filled(rt.alloc()),
        Ok([
            (205, 505 - 209 - 5),
            (205, 505 - 209 - 6),
            (205, 505 - 209 - 6)
        ])
    );
    Ok(())
}
