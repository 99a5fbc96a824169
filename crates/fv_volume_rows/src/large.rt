//! Tall files, many files, and an aggregate that is full.

use crate::beside::{Pair, Row, agrees, name, new_pair, tells, walk};
use crate::wrong::Wrong;
use fv_model::{Command, Name};
use std::alloc::Global;
use std::test::Fail;

/// A file grows to three levels and is cut back to nothing. Each level that comes takes a node over what stands, and each cell that goes
/// takes the nodes that are left bare.
const TALL: [Row; 22] = [
    (b"vol create a 100 volume", b"ok"),
    (b"new a f", b"ok"),
    (b"put a f 0 01", b"ok"),
    (b"put a f 16384 02", b"ok"),
    (
        b"vol stat a",
        b"size 100 used 8 need 0 commit 140 kind volume clean yes",
    ),
    (b"put a f 2097151 03", b"ok"),
    (
        b"vol stat a",
        b"size 100 used 11 need 0 commit 140 kind volume clean yes",
    ),
    (b"get a f 0", b"01"),
    (b"get a f 16384", b"02"),
    (b"get a f 2097151", b"03"),
    (b"cut a f 16385", b"ok"),
    (
        b"vol stat a",
        b"size 100 used 8 need 0 commit 140 kind volume clean yes",
    ),
    (b"cut a f 16386", b"err 10 number out of range"),
    (b"cut a f 16384", b"ok"),
    (
        b"vol stat a",
        b"size 100 used 5 need 0 commit 140 kind volume clean yes",
    ),
    (b"get a f 0", b"01"),
    (b"cut a f 0", b"ok"),
    (
        b"vol stat a",
        b"size 100 used 1 need 0 commit 140 kind volume clean yes",
    ),
    (b"put a f 0 04", b"ok"),
    (
        b"vol stat a",
        b"size 100 used 2 need 0 commit 140 kind volume clean yes",
    ),
    (b"rm a f", b"ok"),
    (
        b"vol stat a",
        b"size 100 used 0 need 0 commit 140 kind volume clean yes",
    ),
];

/// Five volumes that commit 140 blocks each, and one of which what it uses counts: the commits sum to 740 of 761.
const SIX_VOLUMES: [Row; 8] = [
    (b"vol create v1 100 volume", b"ok"),
    (b"vol create v2 100 volume", b"ok"),
    (b"vol create v3 100 volume", b"ok"),
    (b"vol create v4 100 volume", b"ok"),
    (b"vol create v5 100 volume", b"ok"),
    (b"vol create v6 100 volume", b"err 9 aggregate full"),
    (b"vol create t 50 none", b"ok"),
    (b"new t f", b"ok"),
];

/// After 19 blocks of the file nothing more fits, but what is there can be written again, and volumes that set their size aside go on.
const FULL_AGGREGATE: [Row; 8] = [
    (
        b"vol stat t",
        b"size 50 used 21 need 0 commit 61 kind none clean yes",
    ),
    (b"put t f 19 01", b"err 9 aggregate full"),
    (b"put t f 0 02", b"ok"),
    (b"new v1 f", b"ok"),
    (b"put v1 f 0 01", b"ok"),
    (b"cut t f 18", b"ok"),
    (b"put t f 19 01", b"ok"),
    (b"put t f 18 01", b"err 9 aggregate full"),
];

/// Applies a command to both, and wants equal replies.
fn agree(pair: &mut Pair, number: u32, command: &Command) -> Result<(), Wrong> {
    if agrees(pair, command)? {
        Ok(())
    } else {
        Err(Wrong::Differs(number as usize))
    }
}

/// A write of a block of one byte at an index.
fn put(volume: &Name, file: &Name, index: u32, byte: u8) -> Command {
    Command::Put {
        volume: *volume,
        file: *file,
        index,
        block: [byte; 4096],
    }
}

/// Writes a block of the file of the volume `t`.
fn put_next(pair: &mut Pair, index: u32) -> Result<(), Wrong> {
    agree(pair, index, &put(&name(b"t")?, &name(b"f")?, index, 1))
}

/// Fills an aggregate of 1024 blocks.
fn fill(pair: &mut Pair) -> Result<(), Wrong> {
    walk(pair, &SIX_VOLUMES)?;
    for index in 0..19 {
        put_next(pair, index)?;
    }
    walk(pair, &FULL_AGGREGATE)
}

/// A new aggregate that is filled.
fn full(alloc: Global) -> Result<(), Wrong> {
    let mut pair = new_pair(alloc, 1024)?;
    fill(&mut pair)
}

#[test]
fn tall_and_full(rt: HostRuntime) -> Result<(), Fail> {
    assert_eq!(rt; tells(rt.alloc(), &TALL), Ok(()));
    assert_eq!(rt; full(rt.alloc()), Ok(()));
    Ok(())
}

/// The name of a file by its number: three letters.
fn file_name(number: u32) -> Result<Name, Wrong> {
    let mut letters = [97; 3];
    let mut rest = number;
    for place in 0..3_usize {
        letters[place] = 97 + (rest % 16) as u8;
        rest /= 16;
    }
    name(&letters)
}

/// Makes a file.
fn make(pair: &mut Pair, volume: &Name, number: u32, file: Name) -> Result<(), Wrong> {
    let made = Command::New {
        volume: *volume,
        file,
        reserve: 0,
    };
    agree(pair, number, &made)
}

/// Writes a block of the file of a number.
fn put_one(pair: &mut Pair, volume: &Name, number: u32, file: &Name) -> Result<(), Wrong> {
    agree(pair, number, &put(volume, file, number, 1))
}

/// Makes the file of a number, and writes a block of each fifth one.
fn make_file(pair: &mut Pair, volume: &Name, number: u32) -> Result<(), Wrong> {
    let file = file_name(number)?;
    make(pair, volume, number, file)?;
    if number % 5 == 0 {
        put_one(pair, volume, number, &file)?;
    }
    Ok(())
}

/// Makes files with the numbers of a range.
fn make_files(pair: &mut Pair, volume: &Name, first: u32, end: u32) -> Result<(), Wrong> {
    for number in first..end {
        make_file(pair, volume, number)?;
    }
    Ok(())
}

/// Removes the file of a number.
fn remove_file(pair: &mut Pair, volume: &Name, number: u32) -> Result<(), Wrong> {
    let gone = Command::Remove {
        volume: *volume,
        file: file_name(number)?,
    };
    agree(pair, number, &gone)
}

/// Removes each third of so many files.
fn remove_files(pair: &mut Pair, volume: &Name, count: u32) -> Result<(), Wrong> {
    for number in 0..count {
        if number % 3 == 0 {
            remove_file(pair, volume, number)?;
        }
    }
    Ok(())
}

/// Whether both list the same names.
fn agree_on_names(pair: &mut Pair, volume: Name) -> Result<(), Wrong> {
    let snapshot = None;
    agree(pair, 0, &Command::Ls { volume, snapshot })
}

/// Whether both tell the same numbers.
fn agree_on_numbers(pair: &mut Pair, volume: Name) -> Result<(), Wrong> {
    agree(pair, 1, &Command::VolStat { volume })
}

/// Whether both list the same names and tell the same numbers.
fn agree_on_volume(pair: &mut Pair, volume: &Name) -> Result<(), Wrong> {
    agree_on_names(pair, *volume)?;
    agree_on_numbers(pair, *volume)
}

/// A volume gets 300 files, of which a third goes and others come.
fn change_many(pair: &mut Pair) -> Result<(), Wrong> {
    walk(pair, &[(b"vol create a 600 none", b"ok")])?;
    let volume = name(b"a")?;
    make_files(pair, &volume, 0, 300)?;
    agree_on_volume(pair, &volume)?;
    remove_files(pair, &volume, 300)?;
    agree_on_volume(pair, &volume)?;
    make_files(pair, &volume, 300, 350)?;
    agree_on_volume(pair, &volume)
}

/// The same in a new aggregate.
fn many(alloc: Global) -> Result<(), Wrong> {
    let mut pair = new_pair(alloc, 1024)?;
    change_many(&mut pair)
}

#[test]
fn many_files(rt: HostRuntime) -> Result<(), Fail> {
    assert_eq!(rt; many(rt.alloc()), Ok(()));
    Ok(())
}
