//! The host in memory.

use crate::calls::{get, give, put, settle, take};
use fv_disk::{Disk, Host};
use fv_memdisk::{Call, MemHost, Tear};
use std::alloc::{AllocError, Global};
use std::test::Fail;

/// A host whose source has one byte.
fn begin(alloc: Global, byte: u8) -> Result<MemHost, AllocError> {
    Ok(MemHost::new(alloc, [byte].to_vec(alloc)?))
}

/// What the calls of a host answer, one after another.
fn lived<H: Host>(host: &mut H) -> [Option<u8>; 8] {
    let empty = get(host, 5);
    let put = put(host, 5, 7);
    let settled = settle(host);
    let got = get(host, 5);
    let byte = take(host);
    let next = take(host);
    let given = give(host, 8);
    [empty, put, settled, got, byte, next, given, give(host, 9)]
}

#[test]
fn each_call(rt: HostRuntime) -> Result<(), Fail> {
    let mut host = begin(rt.alloc(), 6)?;
    let answers = lived(&mut host);
    let want = [
        Some(0),
        Some(7),
        Some(0),
        Some(7),
        Some(6),
        Some(0),
        Some(8),
        Some(9),
    ];
    assert!(rt; answers == want);
    assert!(rt; host.given() == b"\x08\x09".as_slice());
    Ok(())
}

/// Blocks 1 and 2 hold 1 at a barrier. Then block 2 gets 3, and block 1 gets 2.
fn fill<D: Disk>(disk: &mut D) {
    put(disk, 1, 1);
    put(disk, 2, 1);
    settle(disk);
    put(disk, 2, 3);
    put(disk, 1, 2);
}

/// What a crash at the end leaves.
fn image_of(host: &MemHost, tear: Tear) -> Result<MemHost, AllocError> {
    host.image(host.moments().saturating_sub(1), tear)
}

/// What blocks 1 and 2 hold.
fn both<D: Disk>(disk: &mut D) -> [Option<u8>; 2] {
    [get(disk, 1), get(disk, 2)]
}

/// What a crash leaves in blocks 1 and 2.
fn torn(alloc: Global, tear: Tear) -> Result<[Option<u8>; 2], AllocError> {
    let mut host = begin(alloc, 0)?;
    fill(&mut host);
    let mut image = image_of(&host, tear)?;
    Ok(both(&mut image))
}

const TEARS: [(Tear, u8, u8); 6] = [
    (Tear::Old, 1, 1),
    (Tear::New, 2, 3),
    (Tear::Fill(9), 9, 9),
    (Tear::First(0), 1, 1),
    (Tear::First(1), 1, 3),
    (Tear::First(2), 2, 3),
];

#[test]
fn tears(rt: HostRuntime) -> Result<(), Fail> {
    for (tear, first, second) in TEARS {
        let left = torn(rt.alloc(), tear)?;
        assert!(rt; left == [Some(first), Some(second)]);
    }
    Ok(())
}

/// Each moment of `fill` and of one further write of block 1 has so many blocks that wait for a barrier.
#[test]
fn waiting(rt: HostRuntime) -> Result<(), Fail> {
    let mut host = begin(rt.alloc(), 0)?;
    fill(&mut host);
    put(&mut host, 1, 4);
    let mut counts = Vec::new(rt.alloc());
    for moment in 0..host.moments() {
        counts.push(host.waiting(moment)?)?;
    }
    assert!(rt; counts.as_slice() == [0, 1, 2, 0, 1, 2, 2].as_slice());
    Ok(())
}

const CALLS: [Call; 5] = [
    Call::Read,
    Call::Write,
    Call::Barrier,
    Call::Take,
    Call::Give,
];

/// A host on which the first call of each kind fails.
fn failing(alloc: Global) -> Result<MemHost, AllocError> {
    let mut host = begin(alloc, 6)?;
    for call in CALLS {
        host.fail(call, 0)?;
    }
    Ok(host)
}

/// What a crash at the end leaves in block 5.
fn left(host: &MemHost, tear: Tear) -> Result<Option<u8>, AllocError> {
    let mut image = image_of(host, tear)?;
    Ok(get(&mut image, 5))
}

/// A write that failed may be torn all the same.
#[test]
fn failures(rt: HostRuntime) -> Result<(), Fail> {
    let mut host = failing(rt.alloc())?;
    let answers = lived(&mut host);
    let want = [None, None, None, Some(0), None, Some(6), None, Some(9)];
    assert!(rt; answers == want);
    assert!(rt; (host.faults(), host.write_faults()) == (3, 2));
    assert!(rt; left(&host, Tear::Fill(9))? == Some(9));
    Ok(())
}
