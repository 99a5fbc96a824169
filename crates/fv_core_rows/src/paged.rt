//! Containers whose leaves are read when they are asked for: which blocks are read and written, over a host in memory.

ghost use Rattle.std.specs.Prelude.{◌≡◌, ◌<◌, ◌≤◌, length};
ghost use Rattle.fv_image.specs.Containers.{most_entries};
ghost use Rattle.fv_store.specs.Held.{StandsOn};

use crate::containers::{aggregate, set_data, written};
use fv_aggmap::AggMap;
use fv_codec::ContainerInner;
use fv_container::{Container, ContainerFault, height_of};
use fv_disk::Disk;
use fv_memdisk::{Call, MemHost, Tear};
use fv_store::Store;
use std::alloc::Global;
use std::test::Fail;

/// 274 leaves under two inner nodes and a root.
const ENTRIES: u32 = 70_000;

/// The PVBN under a VVBN, 0 for a hole.
fn look<D: Disk>(
    container: &Container,
    store: &mut Store,
    disk: &mut D,
    vvbn: u32,
) -> Result<u32, ContainerFault>
    requires size { length container.now.map.entries ≡ 70000 }
    requires stands { StandsOn (D.shown disk.old) store.old.pairs }
    ensures stands { StandsOn (D.shown disk.new) store.new.pairs }
{
    if vvbn >= ENTRIES {
        return Ok(0);
    }
    match container.find(store, disk, vvbn)? {
        Some(entry) => Ok(entry.pvbn),
        None => Ok(0),
    }
}

/// No VVBN of the container.
const NONE: u32 = ENTRIES;

/// Opens a container, and looks up three VVBNs, one after the other. `NONE` is found without a look.
#[tactic(auto, using(fv_store::proofs::Laws::stands_at_first))]
fn looks<D: Disk>(
    alloc: Global,
    disk: &mut D,
    root: u32,
    vvbns: [u32; 3],
) -> Result<[u32; 3], ContainerFault> {
    let mut store = Store::new(alloc, 8)?;
    let container = Container::at(alloc, &mut store, disk, ENTRIES, height_of(ENTRIES), root)?;
    let [first, second, third] = vvbns;
    let first = look(&container, &mut store, disk, first)?;
    let second = look(&container, &mut store, disk, second)?;
    let third = look(&container, &mut store, disk, third)?;
    Ok([first, second, third])
}

/// A host whose disk is that of another one, and of which the read of a number fails, counted from 0.
fn failing(host: &MemHost, read: u64) -> Result<MemHost, Fail> {
    let mut image = host.image(host.moments().saturating_sub(1), Tear::New)?;
    image.fail(Call::Read, read)?;
    Ok(image)
}

/// Whether the next read of a host fails.
fn fails_next(host: &mut MemHost) -> bool {
    let mut block = [0; 4096];
    host.read(0, &mut block).is_err()
}

/// Data blocks stand under three VVBNs, in the first two leaves and in the last one. Opening reads the three nodes above the leaves. Then each leaf is
/// read that is asked for and is there, once, since the cache holds it; and it isn't asked for where the first read of it fails.
#[test]
fn a_leaf_is_read_once_it_is_asked_for(rt: HostRuntime) -> Result<(), Fail> {
    let alloc = rt.alloc();
    let mut host = MemHost::new(alloc, Vec::new(alloc));
    let mut map = aggregate(alloc, &mut host).ok_or("there is an aggregate")?;
    let root = written(alloc, &mut host, &mut map, ENTRIES, &[5, 300, 69_999]);
    let root = root.ok_or("it is written")?;
    let rows = [
        ([NONE, NONE, NONE], 3, [0, 0, 0]),
        ([1000, 69_000, NONE], 3, [0, 0, 0]),
        ([5, 6, 255], 4, [105, 0, 0]),
        ([5, 300, 5], 5, [105, 400, 105]),
        ([5, 300, 69_999], 6, [105, 400, 70_099]),
    ];
    for (vvbns, reads, wanted) in rows {
        let mut image = failing(&host, reads)?;
        assert_eq!(rt; looks(alloc, &mut image, root, vvbns), Ok(wanted));
        assert!(rt; fails_next(&mut image));
        let mut image = failing(&host, reads - 1)?;
        assert_eq!(rt;
            looks(alloc, &mut image, root, vvbns),
            Err(ContainerFault::DiskFault)
        );
        assert_eq!(rt; image.faults(), 1);
    }
    Ok(())
}

/// Places data blocks under these VVBNs of a container, and flushes it: its root.
fn flushed<D: Disk>(
    container: &mut Container,
    store: &mut Store,
    disk: &mut D,
    map: &mut AggMap,
    entries: u32,
    vvbns: &[u32],
) -> Option<u32>
    requires few { entries ≤ most_entries }
    requires size { length container.old.map.entries ≡ entries }
    requires stands { StandsOn (D.shown disk.old) store.old.pairs }
    ensures size { length container.new.map.entries ≡ entries }
    ensures stands { StandsOn (D.shown disk.new) store.new.pairs }
{
    set_data(container, store, disk, entries, vvbns).ok()?;
    if map.free_count() < entries / 256 + entries / 65536 + 4 {
        return None;
    }
    container.flush(store, disk, map).ok()
}

/// Opens a container, places data blocks under these VVBNs, and flushes it: its root.
#[tactic(auto, using(fv_store::proofs::Laws::stands_at_first))]
fn flushed_again<D: Disk>(
    alloc: Global,
    disk: &mut D,
    map: &mut AggMap,
    entries: u32,
    root: u32,
    vvbns: &[u32],
) -> Option<u32>
    requires { entries ≤ most_entries }
{
    let mut store = Store::new(alloc, 8).ok()?;
    let height = height_of(entries);
    let mut container = Container::at(alloc, &mut store, disk, entries, height, root).ok()?;
    flushed(&mut container, &mut store, disk, map, entries, vvbns)
}

/// Opens a container, places a data block under a VVBN, flushes it, and looks the VVBN up.
#[tactic(auto, using(fv_store::proofs::Laws::stands_at_first))]
fn looked_after_flush<D: Disk>(
    alloc: Global,
    disk: &mut D,
    map: &mut AggMap,
    root: u32,
    vvbn: u32,
) -> Option<u32> {
    let mut store = Store::new(alloc, 8).ok()?;
    let height = height_of(ENTRIES);
    let mut container = Container::at(alloc, &mut store, disk, ENTRIES, height, root).ok()?;
    flushed(&mut container, &mut store, disk, map, ENTRIES, &[vvbn])?;
    look(&container, &mut store, disk, vvbn).ok()
}

/// Opening reads the three nodes above the leaves, and the placing of a block its leaf. The flush writes that leaf, which is in the cache
/// from then on: it is looked up where the next read fails.
#[test]
fn a_leaf_is_held_once_it_is_flushed(rt: HostRuntime) -> Result<(), Fail> {
    let alloc = rt.alloc();
    let mut host = MemHost::new(alloc, Vec::new(alloc));
    let mut map = aggregate(alloc, &mut host).ok_or("there is an aggregate")?;
    let root = written(alloc, &mut host, &mut map, ENTRIES, &[5, 300, 69_999]);
    let root = root.ok_or("it is written")?;
    let mut image = failing(&host, 4)?;
    let found = looked_after_flush(alloc, &mut image, &mut map, root, 6);
    assert_eq!(rt; found, Some(106));
    assert_eq!(rt; image.faults(), 0);
    assert!(rt; fails_next(&mut image));
    Ok(())
}

/// The first flush writes three leaves, two inner nodes and the root. Where nothing is set none is written, and where one entry is set its leaf, the
/// node above that and the root.
#[test]
fn one_entry_takes_three_writes(rt: HostRuntime) -> Result<(), Fail> {
    let alloc = rt.alloc();
    let mut host = MemHost::new(alloc, Vec::new(alloc));
    let mut map = aggregate(alloc, &mut host).ok_or("there is an aggregate")?;
    let before = host.moments();
    let root = written(alloc, &mut host, &mut map, ENTRIES, &[5, 300, 69_999]);
    let root = root.ok_or("it is written")?;
    assert_eq!(rt; host.moments().saturating_sub(before), 6);
    let before = host.moments();
    let same = flushed_again(alloc, &mut host, &mut map, ENTRIES, root, &[]);
    assert_eq!(rt; same, Some(root));
    assert_eq!(rt; host.moments(), before);
    let next = flushed_again(alloc, &mut host, &mut map, ENTRIES, root, &[6]);
    let next = next.ok_or("it is flushed")?;
    assert!(rt; next != root);
    assert_eq!(rt; host.moments().saturating_sub(before), 3);
    assert_eq!(rt;
        looks(alloc, &mut host, next, [5, 6, 69_999]),
        Ok([105, 106, 70_099])
    );
    Ok(())
}

/// The places of the children of an inner node.
fn children_at<D: Disk>(disk: &mut D, at: u32) -> Option<[u32; 256]> {
    let mut block = [0; 4096];
    disk.read(u64::from(at), &mut block).ok()?;
    let node = ContainerInner::decode(&block).ok()?;
    Some(node.children)
}

/// Each of the 33 leaves of 8,217 entries gets a first entry. Where that of VVBN 6 is set, leaf 0 and the root get other places, and no other leaf
/// does.
#[test]
fn the_other_leaves_stay(rt: HostRuntime) -> Result<(), Fail> {
    let alloc = rt.alloc();
    let mut host = MemHost::new(alloc, Vec::new(alloc));
    let mut map = aggregate(alloc, &mut host).ok_or("there is an aggregate")?;
    let mut firsts = Vec::new(alloc);
    for leaf in 0..33 {
        firsts.push(256 * leaf)?;
    }
    let root = written(alloc, &mut host, &mut map, 8217, firsts.as_slice());
    let root = root.ok_or("it is written")?;
    let old = children_at(&mut host, root).ok_or("it is there")?;
    let next = flushed_again(alloc, &mut host, &mut map, 8217, root, &[6]);
    let next = next.ok_or("it is flushed")?;
    let new = children_at(&mut host, next).ok_or("it is there")?;
    assert!(rt; next != root);
    assert!(rt; old[0] != new[0] && new[0] != 0);
    assert!(rt; old[1..] == new[1..]);
    assert!(rt; old.iter().filter(|place| **place != 0).count() == 33);
    Ok(())
}
