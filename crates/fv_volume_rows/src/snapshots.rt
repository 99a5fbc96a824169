//! Snapshots of a volume: each line is answered as the plain machine answers it.

use crate::beside::{Pair, agree_on, new_pair};
use crate::calls::flush;
use crate::wrong::Wrong;
use std::alloc::Global;
use std::test::Fail;

/// One is made, read after changes, and restored.
const ONE: [&[u8]; 32] = [
    b"vol create a 100 volume",
    b"new a f",
    b"put a f 0 6869",
    b"put a f 130 02",
    b"snap list a",
    b"snap create a s",
    b"vol stat a",
    b"snap list a",
    b"snap create a s",
    b"get a@s f 0",
    b"put a f 0 07",
    b"put a f 1 08",
    b"new a g",
    b"put a g 3 09",
    b"get a@s f 0",
    b"get a f 0",
    b"len a@s f",
    b"len a f",
    b"ls a",
    b"ls a@s",
    b"get a@s f 130",
    b"get a@s g 3",
    b"snap restore a t",
    b"snap restore a s",
    b"vol stat a",
    b"ls a",
    b"get a f 0",
    b"get a f 1",
    b"get a f 130",
    b"put a f 0 0a",
    b"get a@s f 0",
    b"get a f 0",
];

/// Three are made, each of another content; the middle one is removed, then the others.
const THREE: [&[u8]; 32] = [
    b"vol create a 200 none",
    b"new a f",
    b"put a f 0 01",
    b"put a f 5 01",
    b"snap create a z",
    b"put a f 0 02",
    b"put a f 200 02",
    b"snap create a m",
    b"put a f 0 03",
    b"cut a f 3",
    b"snap create a b",
    b"snap list a",
    b"rm a f",
    b"snap create a e",
    b"get a@z f 0",
    b"get a@m f 0",
    b"get a@b f 0",
    b"get a@m f 200",
    b"snap delete a m",
    b"vol stat a",
    b"get a@m f 0",
    b"get a@z f 5",
    b"get a@b f 0",
    b"snap create a m",
    b"snap list a",
    b"snap delete a z",
    b"vol stat a",
    b"snap restore a b",
    b"get a f 0",
    b"vol stat a",
    b"snap delete a b",
    b"snap delete a q",
];

/// A volume that is too full for a map more.
const FULL: [&[u8]; 12] = [
    b"vol create a 3 volume",
    b"new a f",
    b"put a f 0 01",
    b"snap create a s",
    b"vol stat a",
    b"snap create a t",
    b"snap delete a s",
    b"vol stat a",
    b"snap create a t",
    b"vol stat a",
    b"snap create b t",
    b"snap delete b t",
];

/// Whether lines are answered as by the machine in a new aggregate of 2048 blocks.
fn agree(alloc: Global, lines: &[&[u8]]) -> Result<(), Wrong> {
    let mut pair = new_pair(alloc, 2048)?;
    agree_on(&mut pair, lines)
}

#[test]
fn snapshots(rt: HostRuntime) -> Result<(), Fail> {
    assert_eq!(rt; agree(rt.alloc(), &ONE), Ok(()));
    assert_eq!(rt; agree(rt.alloc(), &THREE), Ok(()));
    assert_eq!(rt; agree(rt.alloc(), &FULL), Ok(()));
    Ok(())
}
