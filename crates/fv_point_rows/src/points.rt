//! Consistency points of volumes with files, and what they cost.

ghost use Rattle.std.specs.Prelude.{OnOk};
ghost use Rattle.fv_volume_rows.specs.Held.{AreFit, AreHeld};

use fv_cp::full_point;
use fv_disk::Disk;
use fv_memdisk::MemHost;
use fv_volume::{Pool, VolumeFault};
use fv_volume_rows::{Opened, Pair, Wrong, agrees_on, new_pair};
use fv_volumes::Volumes;
use std::alloc::Global;
use std::test::Fail;

/// The disk of volumes whose point failed, and why.
#[derive(Drop)]
pub(crate) struct Lost {
    pub(crate) disk: MemHost,
    pub(crate) fault: VolumeFault,
}

/// Places what changed of all volumes, and makes a point.
fn point<D: Disk>(
    volumes: &mut Volumes,
    pool: &mut Pool,
    disk: &mut D,
    delays: &mut [bool; 64],
) -> Result<(), VolumeFault>
    requires held { AreHeld (D.shown disk.old) pool.old volumes.old }
    requires fit { AreFit (D.shown disk.old) pool.old volumes.old }
    ensures held { OnOk result (AreHeld (D.shown disk.new) pool.new volumes.new) }
    ensures fit { OnOk result (AreFit (D.shown disk.new) pool.new volumes.new) }
{
    full_point(volumes, pool, disk, delays, 0)?;
    Ok(())
}

/// The volumes after a point.
pub(crate) fn make_point(mut opened: Opened) -> Result<Opened, Lost> {
    match point(
        &mut opened.volumes,
        &mut opened.pool,
        &mut opened.disk,
        &mut opened.delays,
    ) {
        Ok(()) => Ok(opened),
        Err(fault) => Err(Lost {
            disk: opened.disk,
            fault,
        }),
    }
}

/// The volumes and their machine after a point.
pub(crate) fn make(pair: Pair) -> Result<Pair, Wrong> {
    let Pair {
        opened,
        machine,
        seen,
    } = pair;
    match make_point(opened) {
        Ok(opened) => Ok(Pair {
            opened,
            machine,
            seen,
        }),
        Err(lost) => Err(Wrong::Fault(lost.fault)),
    }
}

/// A line of a script: `cp` makes a point, and each other one is answered as the machine answers it.
pub(crate) fn step(mut pair: Pair, line: &[u8]) -> Result<Pair, Wrong> {
    if line == b"cp".as_slice() {
        return make(pair);
    }
    if agrees_on(&mut pair, line)? {
        Ok(pair)
    } else {
        Err(Wrong::Row)
    }
}

/// Lines of a script.
pub(crate) type Lines = &'static [&'static [u8]];

/// All lines, one after the other.
pub(crate) fn go(pair: Pair, lines: Lines) -> Result<Pair, Wrong> {
    let mut pair = pair;
    for line in lines {
        pair = step(pair, line)?;
    }
    Ok(pair)
}

/// How many writes and barriers a point makes, and how many blocks are free after it.
type Cost = (u64, u32);

/// What a point costs after lines.
fn cost(pair: Pair, lines: Lines) -> Result<(Pair, Cost), Wrong> {
    let pair = go(pair, lines)?;
    let before = pair.opened.disk.moments();
    let pair = make(pair)?;
    let calls = pair.opened.disk.moments().saturating_sub(before);
    let free = pair.opened.pool.map.free_count();
    Ok((pair, (calls, free)))
}

const MAKES: Lines = &[
    b"vol create a 100 volume",
    b"vol create b 100 none",
    b"new a f",
    b"put a f 0 01",
    b"put a f 200 02",
];

const OVERWRITES: Lines = &[b"put a f 0 03", b"put a f 200 04"];

/// The costs of a first point, of one without changes, and of three after the same blocks were overwritten.
fn costs(alloc: Global) -> Result<[Cost; 5], Wrong> {
    let (pair, first) = cost(new_pair(alloc, 1024)?, MAKES)?;
    let (pair, second) = cost(pair, &[])?;
    let (pair, third) = cost(pair, OVERWRITES)?;
    let (pair, fourth) = cost(pair, OVERWRITES)?;
    let (_pair, fifth) = cost(pair, OVERWRITES)?;
    Ok([first, second, third, fourth, fifth])
}

/// Of 1,024 blocks 1,017 can be allocated. A file of 201 blocks with two cells has two levels: three nodes, two cells and an inode block are
/// kept. A volume is written by its map's block, its leaves (that of the files and that of the map's block, the latter alone for `b`), a node over them and its label:
/// five blocks for `a`, four for `b`. A commit writes the map area, a root and a gate, with two barriers, and once both gates are open another
/// gate and barrier before. The six blocks that an overwrite replaces stay delayed: no region has 64 of them, and the space rule lacks nothing.
#[test]
fn points_write_what_changed(rt: HostRuntime) -> Result<(), Fail> {
    let free = 1017 - 6 - 5 - 4;
    let commit = 3 + 2;
    let later = 4 + 3;
    assert_eq!(rt;
        costs(rt.alloc()),
        Ok([
            (6 + 5 + 4 + commit, free),
            (later, free),
            (6 + 5 + later, free - 6),
            (6 + 5 + later, free - 2 * 6),
            (6 + 5 + later, free - 3 * 6)
        ])
    );
    Ok(())
}
