//! Rows worked out by hand, each in a new aggregate of 1024 blocks.

use crate::beside::{Pair, Row, new_pair, tells, walk};
use crate::random::{VOLUMES, run};
use crate::wrong::Wrong;
use std::alloc::Global;
use std::test::Fail;

/// A file grows by a level, and by another one. It reads as zeros where it was never written.
const LEVELS: [Row; 16] = [
    (b"vol create a 100 volume", b"ok"),
    (b"new a f", b"ok"),
    (b"put a f 0 6869", b"ok"),
    (b"get a f 0", b"6869"),
    (
        b"vol stat a",
        b"size 100 used 2 need 0 commit 140 kind volume clean yes",
    ),
    (b"len a f", b"1"),
    (b"ls a", b"f"),
    (b"put a f 1 01", b"ok"),
    (
        b"vol stat a",
        b"size 100 used 4 need 0 commit 140 kind volume clean yes",
    ),
    (b"put a f 128 01", b"ok"),
    (
        b"vol stat a",
        b"size 100 used 7 need 0 commit 140 kind volume clean yes",
    ),
    (b"get a f 127", b"-"),
    (b"get a f 129", b"err 10 number out of range"),
    (b"get a f 0", b"6869"),
    (b"get a f 1", b"01"),
    (b"get a f 128", b"01"),
];

/// The last block that a file can have takes three levels.
const LAST_BLOCK: [Row; 8] = [
    (b"vol create a 100 volume", b"ok"),
    (b"new a f", b"ok"),
    (b"put a f 2097151 01", b"ok"),
    (
        b"vol stat a",
        b"size 100 used 5 need 0 commit 140 kind volume clean yes",
    ),
    (b"len a f", b"2097152"),
    (b"put a f 2097152 01", b"err 10 number out of range"),
    (b"get a f 2097151", b"01"),
    (b"get a f 2097150", b"-"),
];

/// What is put last is read.
const CONTENTS: [Row; 10] = [
    (b"vol create a 100 volume", b"ok"),
    (b"new a f", b"ok"),
    (b"put a f 0 01", b"ok"),
    (b"put a f 0 02", b"ok"),
    (b"put a f 1 03", b"ok"),
    (b"put a f 0 04", b"ok"),
    (b"put a f 1 05", b"ok"),
    (b"get a f 0", b"04"),
    (b"get a f 1", b"05"),
    (b"len a f", b"2"),
];

/// Holes, the end of a file, and lines that say no command.
const HOLES: [Row; 11] = [
    (b"", b"err 1 syntax"),
    (b"vol create a 100 volume", b"ok"),
    (b"new a f", b"ok"),
    (b"put a f 0 123", b"err 1 syntax"),
    (b"put a f 0 -", b"ok"),
    (b"put a f 2 01", b"ok"),
    (b"get a f 0", b"-"),
    (b"get a f 1", b"-"),
    (b"get a f 3", b"err 10 number out of range"),
    (
        b"vol create b 99999999999999999999 none",
        b"err 10 number out of range",
    ),
    (b"len a f", b"3"),
];

/// A file that is gone, and what was never there.
const GONE: [Row; 12] = [
    (b"vol create a 100 none", b"ok"),
    (b"new a f", b"ok"),
    (b"new a f", b"err 5 file exists"),
    (b"rm a f", b"ok"),
    (b"rm a f", b"err 4 no such file"),
    (b"get a f 0", b"err 4 no such file"),
    (b"get b f 0", b"err 2 no such volume"),
    (b"ls a", b"-"),
    (b"len a@s f", b"err 6 no such snapshot"),
    (b"get a@s f 0", b"err 6 no such snapshot"),
    (b"ls a@s", b"err 6 no such snapshot"),
    (
        b"vol stat a",
        b"size 100 used 0 need 0 commit 40 kind none clean yes",
    ),
];

/// Each line could be refused for several causes, and is for the first of them.
const ORDER: [Row; 30] = [
    (b"vol create a 4 volume", b"ok"),
    (b"new a f", b"ok"),
    (b"put a f 0 01", b"ok"),
    (b"put a f 1 02", b"ok"),
    (
        b"vol stat a",
        b"size 4 used 4 need 0 commit 44 kind volume clean yes",
    ),
    (b"vol create a 0 volume", b"err 10 number out of range"),
    (b"vol create a 1000 volume", b"err 3 volume exists"),
    (b"new b f 2097153", b"err 10 number out of range"),
    (b"new b f 1", b"err 2 no such volume"),
    (b"new a f 1", b"err 5 file exists"),
    (b"new a g 1", b"err 16 kind doesn't fit"),
    (b"put b g 2097152 03", b"err 10 number out of range"),
    (b"put b g 2 03", b"err 2 no such volume"),
    (b"put a g 2 03", b"err 4 no such file"),
    (b"put a f 2 03", b"err 8 volume full"),
    (b"get b@s g 2097152", b"err 10 number out of range"),
    (b"get b@s g 9", b"err 2 no such volume"),
    (b"get a@s g 9", b"err 6 no such snapshot"),
    (b"get a g 9", b"err 4 no such file"),
    (b"get a f 9", b"err 10 number out of range"),
    (b"len b@s g", b"err 2 no such volume"),
    (b"len a@s g", b"err 6 no such snapshot"),
    (b"cut b g 2097153", b"err 10 number out of range"),
    (b"cut b g 9", b"err 2 no such volume"),
    (b"cut a g 9", b"err 4 no such file"),
    (b"cut a f 9", b"err 10 number out of range"),
    (b"rm b g", b"err 2 no such volume"),
    (b"ls b@s", b"err 2 no such volume"),
    (b"get a f 0", b"01"),
    (b"get a f 1", b"02"),
];

/// A volume of four blocks fills, refuses, and goes on.
const FULL_VOLUME: [Row; 14] = [
    (b"vol create a 4 volume", b"ok"),
    (b"new a f", b"ok"),
    (b"put a f 0 01", b"ok"),
    (b"put a f 1 02", b"ok"),
    (b"put a f 2 03", b"err 8 volume full"),
    (b"new a g", b"ok"),
    (b"put a g 0 01", b"err 8 volume full"),
    (b"put a f 0 04", b"ok"),
    (b"cut a f 1", b"ok"),
    (b"put a g 0 05", b"ok"),
    (b"put a f 1 06", b"err 8 volume full"),
    (b"get a f 0", b"04"),
    (b"get a g 0", b"05"),
    (b"ls a", b"f g"),
];

/// Content that is written again costs nothing and is told by both files.
const EQUAL: [Row; 10] = [
    (b"vol create a 100 volume", b"ok"),
    (b"new a f", b"ok"),
    (b"new a g", b"ok"),
    (b"put a f 0 07", b"ok"),
    (b"put a f 0 07", b"ok"),
    (b"put a g 0 07", b"ok"),
    (
        b"vol stat a",
        b"size 100 used 3 need 0 commit 140 kind volume clean yes",
    ),
    (b"put a f 0 08", b"ok"),
    (b"get a f 0", b"08"),
    (b"get a g 0", b"07"),
];

#[test]
fn worked_rows(rt: HostRuntime) -> Result<(), Fail> {
    assert_eq!(rt; tells(rt.alloc(), &LEVELS), Ok(()));
    assert_eq!(rt; tells(rt.alloc(), &LAST_BLOCK), Ok(()));
    assert_eq!(rt; tells(rt.alloc(), &CONTENTS), Ok(()));
    assert_eq!(rt; tells(rt.alloc(), &HOLES), Ok(()));
    assert_eq!(rt; tells(rt.alloc(), &GONE), Ok(()));
    assert_eq!(rt; tells(rt.alloc(), &ORDER), Ok(()));
    Ok(())
}

#[test]
fn space(rt: HostRuntime) -> Result<(), Fail> {
    assert_eq!(rt; tells(rt.alloc(), &FULL_VOLUME), Ok(()));
    assert_eq!(rt; tells(rt.alloc(), &EQUAL), Ok(()));
    Ok(())
}

/// Whether no such file, file exists, volume full, aggregate full and a number out of range were all answered.
fn saw_refusals(pair: &Pair) -> bool {
    let seen = &pair.seen;
    seen[0] > 0 && seen[4] > 0 && seen[5] > 0 && seen[8] > 0 && seen[9] > 0 && seen[10] > 0
}

/// Random commands on volumes of each kind. Whether each refusal was seen.
fn go(pair: &mut Pair) -> Result<bool, Wrong> {
    walk(pair, &VOLUMES)?;
    run(pair, 7, 1000)?;
    Ok(saw_refusals(pair))
}

/// The same in a new aggregate.
fn on_new_volumes(alloc: Global) -> Result<bool, Wrong> {
    let mut pair = new_pair(alloc, 1024)?;
    go(&mut pair)
}

#[test]
fn random_commands(rt: HostRuntime) -> Result<(), Fail> {
    assert_eq!(rt; on_new_volumes(rt.alloc()), Ok(true));
    Ok(())
}
