//! Points of which a call of the disk fails.

use crate::points::{Lines, go, make_point};
use crate::torn::{either_of, look};
use fv_memdisk::{Call, MemHost};
use fv_volume::VolumeFault;
use fv_volume_rows::{Opened, Pair, Wrong, new_pair, open};
use std::alloc::{AllocError, Global};
use std::test::Fail;

/// How many lines there are up to the first point.
const POINT: usize = 6;

const FIRST: Lines = &[
    b"vol create a 100 volume",
    b"vol create b 300 none",
    b"new a f",
    b"put a f 0 01",
    b"put a f 130 02",
    b"cp",
    b"put a f 0 03",
    b"put a f 1 04",
    b"new b f",
    b"put b f 0 06",
];

/// Lets the call of a number fail, counted from 0 over all calls of its kind.
fn fail(opened: &mut Opened, call: Call, nth: u64) -> Result<(), AllocError> {
    opened.disk.fail(call, nth)
}

/// Looks at the images that a host whose last call failed may leave: each is that of before the last point or that of after it.
fn see_images(alloc: Global, disk: &MemHost) -> Result<(), Wrong> {
    let mut either = either_of(alloc, FIRST, 5, FIRST.len())?;
    let last = disk.moments().saturating_sub(1);
    look(alloc, disk, last, 24, &mut either)
}

/// Whether a call fails in the point of volumes. It then leaves one of the two machines.
fn fails_in(alloc: Global, pair: Pair) -> Result<bool, Wrong> {
    match make_point(pair.opened) {
        Ok(_) => Ok(false),
        Err(lost) => {
            if lost.fault != VolumeFault::DiskFault {
                return Err(Wrong::Fault(lost.fault));
            }
            see_images(alloc, &lost.disk)?;
            Ok(true)
        }
    }
}

/// The volumes before the last point. They are opened anew behind the first one: else the leaves that it wrote are held by the cache.
fn come_to_point(alloc: Global, pair: Pair) -> Result<Pair, Wrong> {
    let Pair {
        opened,
        machine,
        seen,
    } = go(pair, &FIRST[..POINT])?;
    let opened = open(alloc, opened.disk)?;
    let pair = Pair {
        opened,
        machine,
        seen,
    };
    go(pair, &FIRST[POINT..])
}

/// Whether the call of a number is one of the last point, if it isn't an earlier one; it fails then.
fn fails(alloc: Global, call: Call, nth: u64) -> Result<Option<bool>, Wrong> {
    let mut pair = new_pair(alloc, 1024)?;
    fail(&mut pair.opened, call, nth)?;
    match come_to_point(alloc, pair) {
        Ok(pair) => Ok(Some(fails_in(alloc, pair)?)),
        // No root is found where a read fails in opening.
        Err(Wrong::Fault(VolumeFault::DiskFault) | Wrong::NoRoot) => Ok(None),
        Err(wrong) => Err(wrong),
    }
}

/// How many calls of a kind the last point makes, each of which fails in turn, up to the call of a number.
fn calls_of(alloc: Global, call: Call, most: u64) -> Result<u64, Wrong> {
    let mut count: u64 = 0;
    for nth in 0..most {
        match fails(alloc, call, nth)? {
            Some(true) => count = count.saturating_add(1),
            Some(false) if count > 0 => return Ok(count),
            _ => {}
        }
    }
    Ok(count)
}

/// Both volumes changed: two cells, two nodes and an inode block of `a` are kept, a cell and an inode block of `b`. Five blocks are written for each
/// volume, and four by the commit. The nodes that a flush changes are in memory, so a point reads leaves of containers alone: that of `a` in which
/// entries of its file are set anew. Of each volume the one with the entry of its map's block was read by opening, and that of `b` for its file is
/// absent.
#[test]
fn each_call_fails(rt: HostRuntime) -> Result<(), Fail> {
    assert_eq!(rt; calls_of(rt.alloc(), Call::Write, 80), Ok(21));
    assert_eq!(rt; calls_of(rt.alloc(), Call::Barrier, 12), Ok(3));
    assert_eq!(rt; calls_of(rt.alloc(), Call::Read, 40), Ok(1));
    Ok(())
}
