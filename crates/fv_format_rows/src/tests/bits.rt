//! Bit maps, with values worked out by hand.

ghost use Rattle.std.specs.Prelude.{◌≡◌, ◌+◌, ◌≤◌, length, IfNone, OnSome};
ghost use Rattle.fv_bits.specs.Members.{IsFullFrom, count_of};

use fv_bits::BitMap;
use std::alloc::{AllocError, Global};
use std::test::Fail;

/// Adds the least number from `from` on that isn't a member: a caller with a proof.
#[tactic(auto, using(fv_bits::proofs::Laws::count_laws))]
fn take_free(map: &mut BitMap, from: u32) -> Option<u32>
    requires { from ≤ length map.old }
    ensures more { OnSome result (count_of map.new ≡ count_of map.old + 1) }
    ensures full { IfNone result (IsFullFrom map.old from) }
    ensures same { IfNone result (map.new ≡ map.old) }
{
    let free = map.first_free(from)?;
    map.set(free);
    Some(free)
}

fn with_members(alloc: Global, len: u32, members: &[u32]) -> Result<BitMap, AllocError> {
    let mut map = BitMap::new(alloc, len)?;
    for i in members {
        if *i < map.len() {
            map.set(*i);
        }
    }
    Ok(map)
}

/// The members from `from` up to `to`, and the least number from `from` on that is none.
fn told(map: &BitMap, from: u32, to: u32) -> Option<(u32, Option<u32>)> {
    if from <= to && to <= map.len() {
        Some((map.count_range(from, to), map.first_free(from)))
    } else {
        None
    }
}

/// Makes a map equal to another one, and then adds the members of a third.
fn joined(map: &mut BitMap, first: &BitMap, second: &BitMap) {
    if map.len() == first.len() && map.len() == second.len() {
        map.copy_from(first);
        map.or(second);
    }
}

/// Takes the first number out and the least free one in.
fn turned(map: &mut BitMap) -> Option<u32> {
    if map.len() == 0 {
        return None;
    }
    map.clear(0);
    take_free(map, 0)
}

/// From where up to where is counted, how many members there are, and the least number from there on that is none.
const COUNTS: [(u32, u32, u32, Option<u32>); 5] = [
    (0, 200, 6, Some(2)),
    (63, 65, 2, Some(65)),
    (64, 64, 0, Some(65)),
    (131, 199, 0, Some(131)),
    (199, 200, 1, None),
];

/// Whether each row of the counts holds.
fn counts_hold(map: &BitMap) -> bool {
    for (from, to, members, free) in COUNTS {
        if told(map, from, to) != Some((members, free)) {
            return false;
        }
    }
    true
}

#[test]
fn members_and_counts(rt: HostRuntime) -> Result<(), Fail> {
    let first = with_members(rt.alloc(), 200, &[1, 63, 64, 130])?;
    let second = with_members(rt.alloc(), 200, &[0, 63, 199])?;
    let mut map = with_members(rt.alloc(), 200, &[5])?;
    joined(&mut map, &first, &second);
    assert!(rt; counts_hold(&map));
    assert!(rt; turned(&mut map) == Some(0));
    Ok(())
}

/// Block `index` of a map, and 255 in each byte where it has none.
fn block(map: &BitMap, index: u32) -> [u8; 4096] {
    let mut bytes = [255; 4096];
    if index <= 31 && index * 32768 < map.len() {
        map.to_block(index, &mut bytes);
    }
    bytes
}

/// Bytes of the two blocks of a map of 40,000 numbers: the block, the byte, and what it is.
const BYTES: [(u32, usize, u8); 7] = [
    (0, 0, 128),
    (0, 1, 0),
    (0, 4095, 128),
    (1, 0, 1),
    (1, 903, 128),
    (1, 904, 0),
    (1, 4095, 0),
];

/// Whether each row of the bytes holds.
fn bytes_hold(map: &BitMap) -> bool {
    for (index, at, want) in BYTES {
        if block(map, index).get(at) != Some(&want) {
            return false;
        }
    }
    true
}

#[test]
fn blocks_written(rt: HostRuntime) -> Result<(), Fail> {
    let map = with_members(rt.alloc(), 40000, &[7, 32767, 32768, 39999])?;
    assert!(rt; bytes_hold(&map));
    Ok(())
}

/// What is read of a block that is zero but for one byte: the number past the length, or whether the map has
/// this one alone.
fn read(
    alloc: Global,
    len: u32,
    index: u32,
    at: usize,
    byte: u8,
) -> Result<(Option<u32>, u32), AllocError> {
    let mut map = BitMap::new(alloc, len)?;
    let mut block = [0; 4096];
    if at < 4096 {
        block[at] = byte;
    }
    if index > 31 || index * 32768 >= len {
        return Ok((None, u32::MAX));
    }
    let past = map.from_block(index, &block);
    Ok((past, map.count()))
}

/// A length, a block, a byte of it, and what is read: the number past the length, and how many members there are.
const READS: [(u32, u32, usize, u8, Option<u32>, u32); 8] = [
    (63, 0, 7, 64, None, 1),
    (63, 0, 7, 128, Some(63), 0),
    (64, 0, 7, 128, None, 1),
    (64, 0, 8, 1, Some(64), 0),
    (32768, 0, 4095, 129, None, 2),
    (32769, 1, 0, 1, None, 1),
    (32769, 1, 0, 3, Some(32769), 0),
    (1_048_576, 31, 4095, 128, None, 1),
];

#[test]
fn blocks_read(rt: HostRuntime) -> Result<(), Fail> {
    for (len, index, at, byte, past, members) in READS {
        assert!(rt; read(rt.alloc(), len, index, at, byte)? == (past, members));
    }
    Ok(())
}
