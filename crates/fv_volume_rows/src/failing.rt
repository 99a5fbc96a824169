//! Each read of a command failing in turn, over images with files: the volume then stands for what it stood for, and the same
//! command goes through.

use crate::beside::{Pair, agree_on};
use crate::calls::apply;
use crate::images::{LAID, Laid, laid};
use crate::opened::{Opened, Part, fail_read, host_of, open};
use crate::wrong::Wrong;
use fv_memdisk::Call;
use fv_model::Command;
use fv_script::read_line;
use fv_volume::VolumeFault;
use std::alloc::Global;
use std::test::Fail;

/// What is asked after each command.
const ASKED: [&[u8]; 8] = [
    b"vol stat a",
    b"ls a",
    b"len a f",
    b"get a f 0",
    b"get a f 1",
    b"get a f 2",
    b"get a f 128",
    b"get a f 2097151",
];

/// Whether an image is opened where the read of a number fails.
fn opens(alloc: Global, parts: &[Part], nth: u64) -> Result<bool, Wrong> {
    let mut host = host_of(alloc, parts)?;
    host.fail(Call::Read, nth)?;
    Ok(open(alloc, host).is_ok())
}

/// How many reads opening makes: the number of the first one that it doesn't make.
fn opening_reads(alloc: Global, parts: &[Part]) -> Result<u64, Wrong> {
    for nth in 0..100 {
        if opens(alloc, parts, nth)? {
            return Ok(nth);
        }
    }
    Err(Wrong::Row)
}

/// Whether a read fails in a command.
fn fails_in(opened: &mut Opened, command: &Command) -> Result<bool, Wrong> {
    match apply(opened, command) {
        Err(VolumeFault::DiskFault) => Ok(true),
        Err(fault) => Err(Wrong::Fault(fault)),
        Ok(_) => Ok(false),
    }
}

/// Whether a read fails in the command of a line.
fn fails(opened: &mut Opened, line: &[u8]) -> Result<bool, Wrong> {
    match read_line(line) {
        Ok(command) => fails_in(opened, &command),
        Err(_) => Err(Wrong::Row),
    }
}

/// Whether a line makes the read of a number, which fails. The volumes then answer the line as the machine does, and agree with it.
fn goes_through(pair: &mut Pair, line: &[u8], nth: u64) -> Result<bool, Wrong> {
    fail_read(&mut pair.opened, nth)?;
    if !fails(&mut pair.opened, line)? {
        return Ok(false);
    }
    agree_on(pair, &[line])?;
    agree_on(pair, &ASKED)?;
    Ok(true)
}

/// Wants a line whose read of a number fails to leave the volumes as they were.
fn stays(pair: &mut Pair, line: &[u8], nth: u64) -> Result<(), Wrong> {
    fail_read(&mut pair.opened, nth)?;
    if !fails(&mut pair.opened, line)? {
        return Err(Wrong::Row);
    }
    agree_on(pair, &ASKED)
}

/// The first over the volumes of an image.
fn goes_through_over(alloc: Global, image: &Laid, line: &[u8], nth: u64) -> Result<bool, Wrong> {
    let mut pair = laid(alloc, image)?;
    goes_through(&mut pair, line, nth)
}

/// The second over the volumes of an image.
fn stays_over(alloc: Global, image: &Laid, line: &[u8], nth: u64) -> Result<(), Wrong> {
    let mut pair = laid(alloc, image)?;
    stays(&mut pair, line, nth)
}

/// Whether a line makes the read of a number, which fails. The volumes answer the line as the machine does once it goes through,
/// and agree with it, then and before.
fn fails_at(alloc: Global, image: &Laid, line: &[u8], nth: u64) -> Result<bool, Wrong> {
    if !goes_through_over(alloc, image, line, nth)? {
        return Ok(false);
    }
    stays_over(alloc, image, line, nth)?;
    Ok(true)
}

/// How many reads a line makes.
fn reads_of(alloc: Global, image: &Laid, line: &[u8]) -> Result<u64, Wrong> {
    let first = opening_reads(alloc, image.0)?;
    for count in 0..50 {
        if !fails_at(alloc, image, line, first.saturating_add(count))? {
            return Ok(count);
        }
    }
    Err(Wrong::Row)
}

/// An image, a line, and how many blocks it reads.
type Read = (usize, &'static [u8], u64);

/// The block of the inode file is read once, then the nodes over a cell, and for `get` the cell.
const READS: [Read; 12] = [
    (0, b"ls a", 1),
    (0, b"len a f", 1),
    (0, b"get a f 128", 4),
    (0, b"get a f 2", 3),
    (0, b"put a f 1 05", 3),
    (0, b"put a f 2 05", 3),
    (0, b"put a f 2097151 05", 1),
    (0, b"new a g", 1),
    (0, b"cut a f 1", 4),
    (0, b"rm a f", 4),
    (1, b"get a f 2097151", 5),
    (1, b"put a f 0 02", 2),
];

#[test]
fn each_read_fails_in_turn(rt: HostRuntime) -> Result<(), Fail> {
    for (image, line, count) in READS {
        if image < 2 {
            assert_eq!(rt; reads_of(rt.alloc(), &LAID[image], line), Ok(count));
        }
    }
    Ok(())
}

/// Whether a line that was answered makes no read when it is answered twice again, while the read of a number, which is the next one,
/// fails: it does so in another line.
fn reads_no_more(pair: &mut Pair, next: u64, line: &[u8], cold: &[u8]) -> Result<bool, Wrong> {
    fail_read(&mut pair.opened, next)?;
    agree_on(pair, &[line, line, line])?;
    fails(&mut pair.opened, cold)
}

/// The same over the volumes of an image, where the line makes `count` reads the first time.
fn is_warm(
    alloc: Global,
    image: &Laid,
    line: &[u8],
    count: u64,
    cold: &[u8],
) -> Result<bool, Wrong> {
    let first = opening_reads(alloc, image.0)?;
    let mut pair = laid(alloc, image)?;
    reads_no_more(&mut pair, first.saturating_add(count), line, cold)
}

#[test]
fn warm_gets_read_nothing(rt: HostRuntime) -> Result<(), Fail> {
    let alloc = rt.alloc();
    assert_eq!(rt;
        is_warm(alloc, &LAID[0], b"get a f 128", 4, b"get a f 1"),
        Ok(true)
    );
    assert_eq!(rt;
        is_warm(alloc, &LAID[0], b"get a f 2", 3, b"get a f 128"),
        Ok(true)
    );
    Ok(())
}
