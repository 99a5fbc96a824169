//! Images with files that another implementation wrote: they are read, changed and read again.

use crate::beside::{Pair, Row, walk};
use crate::opened::{Part, host_of, open};
use crate::random::{VOLUMES, run};
use crate::wrong::Wrong;
use fv_model::Command;
use fv_reference::Machine;
use fv_script::read_line;
use std::alloc::Global;
use std::test::Fail;

/// A file of two levels with blocks 0, 1 and 128, in an aggregate of 1024 blocks.
const LEVELS: [Part; 38] = [
    (0, 0, b"FVAGGR01\0\0\0\0\0\0\x04"),
    (1, 0, b"GATEOPEN"),
    (2, 0, b"GATEOPEN"),
    (3, 0, b"FVROOT00\0\0\0\0\0\0\0\x01\0\0\0\0\0\0\0\x01"),
    (4, 0, b"FVROOT00\0\0\0\0\0\0\0\x02\0\0\0\0\0\0\0\x01"),
    (4, 71, b"\x12"),
    (6, 0, b"\x80\xff\x07"),
    (7, 0, b"FVINODES"),
    (7, 256, b"\x01f"),
    (7, 335, b"\x81"),
    (
        7,
        351,
        b"\x02\0\0\0\0\0\0\0\x01\0\0\0\0\0\0\0\x08\0\0\0\0\0\0\0\x04",
    ),
    (8, 0, b"FVNODE00\0\0\0\0\0\0\0\x02"),
    (
        8,
        1031,
        b"\x02\0\0\0\0\0\0\0\x09\0\0\0\0\0\0\0\x03\0\0\0\0\0\0\0\x03",
    ),
    (8, 1063, b"\x0a\0\0\0\0\0\0\0\x04"),
    (9, 0, b"FVNODE00\0\0\0\0\0\0\0\x01"),
    (
        9,
        1031,
        b"\x04\0\0\0\0\0\0\0\x0b\0\0\0\0\0\0\0\x02\0\0\0\0\0\0\0\x05",
    ),
    (9, 1063, b"\x0c\0\0\0\0\0\0\0\x03"),
    (10, 0, b"FVNODE00\0\0\0\0\0\0\0\x01"),
    (10, 31, b"\x01"),
    (10, 1031, b"\x06\0\0\0\0\0\0\0\x0d\0\0\0\0\0\0\0\x04"),
    (11, 0, b"hi"),
    (12, 0, b"\x01"),
    (13, 0, b"\x01"),
    (14, 0, b"\x7f"),
    (15, 0, b"FVCLEAF0"),
    (
        15,
        1031,
        b"\x07\0\0\0\x05\0\0\0\0\0\0\0\x08\0\0\0\x03\0\0\0\0\0\0\0\x09\0\0\0\x02",
    ),
    (
        15,
        1067,
        b"\x0a\0\0\0\x02\0\0\0\0\0\0\0\x0b\0\0\0\x01\0\0\0\0\0\0\0\x0c\0\0\0\x01",
    ),
    (15, 1103, b"\x0d\0\0\0\x01"),
    (16, 0, b"FVCLEAF0\0\0\0\0\0\0\0\x10"),
    (16, 1031, b"\x0e\0\0\0\x08"),
    (17, 0, b"FVCINNER\0\0\0\0\0\0\0\x01"),
    (17, 1031, b"\x0f"),
    (17, 1159, b"\x10"),
    (18, 0, b"FVLABEL0\0\0\0\0\0\0\0\x01a"),
    (18, 95, b"d\0\0\0\0\0\0\0\xc8\0\0\0\0\0\0\x10"),
    (18, 119, b"\x04"),
    (18, 151, b"\x01\0\0\0\0\0\0\0\x11\0\0\0\0\0\0\0\x01"),
    (18, 191, b"\x07\0\0\0\0\0\0\0\x04"),
];

/// A file of three levels with its last block alone, in an aggregate of 1024 blocks.
const DEEP: [Part; 34] = [
    (0, 0, b"FVAGGR01\0\0\0\0\0\0\x04"),
    (1, 0, b"GATEOPEN"),
    (2, 0, b"GATEOPEN"),
    (3, 0, b"FVROOT00\0\0\0\0\0\0\0\x01\0\0\0\0\0\0\0\x01"),
    (4, 0, b"FVROOT00\0\0\0\0\0\0\0\x02\0\0\0\0\0\0\0\x01"),
    (4, 71, b"\x10"),
    (6, 0, b"\x80\xff\x01"),
    (7, 0, b"FVINODES"),
    (7, 256, b"\x01f"),
    (7, 333, b"\x20"),
    (
        7,
        351,
        b"\x03\0\0\0\0\0\0\0\x01\0\0\0\0\0\0\0\x08\0\0\0\0\0\0\0\x02",
    ),
    (8, 0, b"FVNODE00\0\0\0\0\0\0\0\x03"),
    (8, 4079, b"\x02\0\0\0\0\0\0\0\x09\0\0\0\0\0\0\0\x02"),
    (9, 0, b"FVNODE00\0\0\0\0\0\0\0\x02"),
    (9, 31, b"\x7f"),
    (9, 4079, b"\x03\0\0\0\0\0\0\0\x0a\0\0\0\0\0\0\0\x02"),
    (10, 0, b"FVNODE00\0\0\0\0\0\0\0\x01"),
    (10, 30, b"?\xff"),
    (10, 4079, b"\x04\0\0\0\0\0\0\0\x0b\0\0\0\0\0\0\0\x02"),
    (11, 0, b"\x01"),
    (12, 0, b"\x1f"),
    (13, 0, b"FVCLEAF0"),
    (
        13,
        1031,
        b"\x07\0\0\0\x05\0\0\0\0\0\0\0\x08\0\0\0\x04\0\0\0\0\0\0\0\x09\0\0\0\x03",
    ),
    (13, 1067, b"\x0a\0\0\0\x02\0\0\0\0\0\0\0\x0b\0\0\0\x01"),
    (14, 0, b"FVCLEAF0\0\0\0\0\0\0\0\x10"),
    (14, 1031, b"\x0c\0\0\0\x08"),
    (15, 0, b"FVCINNER\0\0\0\0\0\0\0\x01"),
    (15, 1031, b"\x0d"),
    (15, 1159, b"\x0e"),
    (16, 0, b"FVLABEL0\0\0\0\0\0\0\0\x01a"),
    (16, 95, b"d\0\0\0\0\0\0\0\xc8\0\0\0\0\0\0\x10"),
    (16, 119, b"\x02"),
    (16, 151, b"\x01\0\0\0\0\0\0\0\x0f\0\0\0\0\0\0\0\x01"),
    (16, 191, b"\x07\0\0\0\0\0\0\0\x02"),
];

/// A file with a snapshot of it, written over since, in an aggregate of 1024 blocks.
const KEPT: [Part; 34] = [
    (0, 0, b"FVAGGR01\0\0\0\0\0\0\x04"),
    (1, 0, b"GATEOPEN"),
    (2, 0, b"GATEOPEN"),
    (3, 0, b"FVROOT00\0\0\0\0\0\0\0\x01\0\0\0\0\0\0\0\x01"),
    (4, 0, b"FVROOT00\0\0\0\0\0\0\0\x02\0\0\0\0\0\0\0\x01"),
    (4, 71, b"\x10"),
    (6, 0, b"\x80\xff\x01"),
    (7, 0, b"FVINODES"),
    (7, 256, b"\x01f"),
    (7, 335, b"\x01"),
    (7, 359, b"\x02\0\0\0\0\0\0\0\x09\0\0\0\0\0\0\0\x02"),
    (8, 0, b"FVINODES"),
    (8, 256, b"\x01f"),
    (8, 335, b"\x01"),
    (8, 359, b"\x03\0\0\0\0\0\0\0\x0a\0\0\0\0\0\0\0\x03"),
    (9, 0, b"hi"),
    (10, 0, b"z"),
    (11, 0, b"\x0a"),
    (12, 0, b"\x05"),
    (13, 0, b"FVCLEAF0"),
    (
        13,
        1031,
        b"\x07\0\0\0\x05\0\0\0\0\0\0\0\x08\0\0\0\x05\0\0\0\0\0\0\0\x09\0\0\0\x01",
    ),
    (13, 1067, b"\x0a\0\0\0\x01"),
    (14, 0, b"FVCLEAF0\0\0\0\0\0\0\0\x10"),
    (14, 1031, b"\x0b\0\0\0\x08\0\0\0\0\0\0\0\x0c\0\0\0\x08"),
    (15, 0, b"FVCINNER\0\0\0\0\0\0\0\x01"),
    (15, 1031, b"\x0d"),
    (15, 1159, b"\x0e"),
    (16, 0, b"FVLABEL0\0\0\0\0\0\0\0\x01a"),
    (16, 95, b"d\0\0\0\0\0\0\0\xc8\0\0\0\0\0\0\x10"),
    (16, 119, b"\x03"),
    (16, 151, b"\x01\0\0\0\0\0\0\0\x0f\0\0\0\0\0\0\0\x01"),
    (16, 183, b"\x01\0\0\0\0\0\0\0\x08\0\0\0\0\0\0\0\x03"),
    (16, 263, b"\x01s"),
    (16, 351, b"\x07\0\0\0\0\0\0\0\x02"),
];

/// The lines after which the images stand for the machine.
const LEVELS_LINES: [&[u8]; 5] = [
    b"vol create a 100 volume",
    b"new a f",
    b"put a f 0 6869",
    b"put a f 1 01",
    b"put a f 128 01",
];

const DEEP_LINES: [&[u8]; 3] = [
    b"vol create a 100 volume",
    b"new a f",
    b"put a f 2097151 01",
];

const KEPT_LINES: [&[u8]; 5] = [
    b"vol create a 100 volume",
    b"new a f",
    b"put a f 0 6869",
    b"snap create a s",
    b"put a f 0 7a",
];

/// An image, with the lines that lead to it.
pub(crate) type Laid = (&'static [Part], &'static [&'static [u8]]);

/// The two images.
pub(crate) const LAID: [Laid; 2] = [(&LEVELS, &LEVELS_LINES), (&DEEP, &DEEP_LINES)];

/// The image with a snapshot.
const LAID_KEPT: Laid = (&KEPT, &KEPT_LINES);

/// Applies a command to a machine.
fn apply_to(alloc: Global, machine: &mut Machine, command: &Command) -> Result<(), Wrong> {
    let _reply = machine.apply(alloc, command)?;
    Ok(())
}

/// Applies a line to a machine.
fn lead(alloc: Global, machine: &mut Machine, line: &[u8]) -> Result<(), Wrong> {
    match read_line(line) {
        Ok(command) => apply_to(alloc, machine, &command),
        Err(_) => Err(Wrong::Row),
    }
}

/// Applies lines to a machine, one after the other.
fn lead_on(alloc: Global, machine: &mut Machine, lines: &[&[u8]]) -> Result<(), Wrong> {
    for line in lines {
        lead(alloc, machine, line)?;
    }
    Ok(())
}

/// The volumes of an image, and their machine.
pub(crate) fn laid(alloc: Global, laid: &Laid) -> Result<Pair, Wrong> {
    let (parts, lines) = laid;
    let mut machine = Machine::new(alloc, 1024);
    lead_on(alloc, &mut machine, lines)?;
    let opened = open(alloc, host_of(alloc, parts)?)?;
    Ok(Pair {
        opened,
        machine,
        seen: [0; 17],
    })
}

/// What is read of the image of two levels, changed and read again.
const READ_LEVELS: [Row; 22] = [
    (b"ls a", b"f"),
    (b"len a f", b"129"),
    (b"get a f 0", b"6869"),
    (b"get a f 1", b"01"),
    (b"get a f 2", b"-"),
    (b"get a f 127", b"-"),
    (b"get a f 128", b"01"),
    (b"get a f 129", b"err 10 number out of range"),
    (b"put a f 2 02", b"ok"),
    (b"get a f 2", b"02"),
    (
        b"vol stat a",
        b"size 100 used 8 need 0 commit 140 kind volume clean yes",
    ),
    (b"new a g", b"ok"),
    (b"put a g 0 03", b"ok"),
    (
        b"vol stat a",
        b"size 100 used 9 need 0 commit 140 kind volume clean yes",
    ),
    (b"cut a f 128", b"ok"),
    (
        b"vol stat a",
        b"size 100 used 7 need 0 commit 140 kind volume clean yes",
    ),
    (b"get a f 0", b"6869"),
    (b"rm a f", b"ok"),
    (
        b"vol stat a",
        b"size 100 used 2 need 0 commit 140 kind volume clean yes",
    ),
    (b"ls a", b"g"),
    (b"get a g 0", b"03"),
    (b"get a f 0", b"err 4 no such file"),
];

/// The same of the image of three levels.
const READ_DEEP: [Row; 10] = [
    (b"len a f", b"2097152"),
    (b"get a f 2097151", b"01"),
    (b"get a f 0", b"-"),
    (b"put a f 0 02", b"ok"),
    (
        b"vol stat a",
        b"size 100 used 8 need 0 commit 140 kind volume clean yes",
    ),
    (b"cut a f 1", b"ok"),
    (
        b"vol stat a",
        b"size 100 used 5 need 0 commit 140 kind volume clean yes",
    ),
    (b"get a f 0", b"02"),
    (b"cut a f 0", b"ok"),
    (
        b"vol stat a",
        b"size 100 used 1 need 0 commit 140 kind volume clean yes",
    ),
];

/// The same of the image with a snapshot, which stays as it is.
const READ_KEPT: [Row; 14] = [
    (
        b"vol stat a",
        b"size 100 used 5 need 0 commit 140 kind volume clean yes",
    ),
    (b"snap list a", b"s"),
    (b"ls a@s", b"f"),
    (b"len a@s f", b"1"),
    (b"get a@s f 0", b"6869"),
    (b"get a f 0", b"7a"),
    (b"put a f 0 02", b"ok"),
    (b"put a f 1 03", b"ok"),
    (b"new a g", b"ok"),
    (b"get a@s f 0", b"6869"),
    (b"get a@s f 1", b"err 10 number out of range"),
    (b"get a@s g 0", b"err 4 no such file"),
    (b"rm a f", b"ok"),
    (b"get a@s f 0", b"6869"),
];

/// Whether an image answers rows as they say.
fn reads(alloc: Global, image: &Laid, rows: &[Row]) -> Result<(), Wrong> {
    let mut pair = laid(alloc, image)?;
    walk(&mut pair, rows)
}

#[test]
fn images_are_read_and_changed(rt: HostRuntime) -> Result<(), Fail> {
    assert_eq!(rt; reads(rt.alloc(), &LAID[0], &READ_LEVELS), Ok(()));
    assert_eq!(rt; reads(rt.alloc(), &LAID[1], &READ_DEEP), Ok(()));
    assert_eq!(rt; reads(rt.alloc(), &LAID_KEPT, &READ_KEPT), Ok(()));
    Ok(())
}

/// Makes the other volumes beside that of an image, and applies random commands to all.
fn go_on(pair: &mut Pair, seed: u64) -> Result<(), Wrong> {
    walk(pair, &VOLUMES[1..3])?;
    run(pair, seed, 300)
}

/// Random commands where the first volume is that of an image.
fn on_image(alloc: Global, image: &Laid, seed: u64) -> Result<(), Wrong> {
    let mut pair = laid(alloc, image)?;
    go_on(&mut pair, seed)
}

#[test]
fn random_commands_on_images(rt: HostRuntime) -> Result<(), Fail> {
    assert_eq!(rt; on_image(rt.alloc(), &LAID[0], 11), Ok(()));
    assert_eq!(rt; on_image(rt.alloc(), &LAID[1], 13), Ok(()));
    Ok(())
}
