//! Containers over a host in memory, with blocks of a real aggregate map.

ghost use Rattle.std.specs.Prelude.{◌≡◌, ◌<◌, ◌≤◌, ◌+◌, length, IfOk};
ghost use Rattle.fv_image.specs.Containers.{most_entries};
ghost use Rattle.fv_store.specs.Held.{StandsOn};

use fv_aggmap::AggMap;
use fv_container::{Container, ContainerFault, Containers, Entry, Steps, height_of};
use fv_disk::Disk;
use fv_memdisk::MemHost;
use fv_root::{find_root, format};
use fv_store::Store;
use std::alloc::Global;
use std::marker::Brand;
use std::sync::ledger::{Blank, Ledger};
use std::test::Fail;

/// Sets data blocks under these VVBNs, 100 blocks past them.
pub(crate) fn set_data<D: Disk>(
    container: &mut Container,
    store: &mut Store,
    disk: &mut D,
    entries: u32,
    vvbns: &[u32],
) -> Result<(), ContainerFault>
    requires size { length container.old.map.entries ≡ entries }
    requires stands { StandsOn (D.shown disk.old) store.old.pairs }
    ensures size { length container.new.map.entries ≡ entries }
    ensures stands { StandsOn (D.shown disk.new) store.new.pairs }
{
    for vvbn in vvbns {
        if *vvbn < entries && *vvbn < 1_000_000 {
            let entry = Entry {
                pvbn: *vvbn + 100,
                kind: 1,
            };
            container.set(store, disk, *vvbn, Some(entry))?;
        }
    }
    Ok(())
}

/// The PVBN under a VVBN, 0 for a hole.
fn pvbn_at<D: Disk>(
    container: &Container,
    store: &mut Store,
    disk: &mut D,
    vvbn: u32,
) -> Result<u32, ContainerFault>
    requires within { vvbn < length container.now.map.entries }
    requires stands { StandsOn (D.shown disk.old) store.old.pairs }
    ensures stands { StandsOn (D.shown disk.new) store.new.pairs }
{
    match container.find(store, disk, vvbn)? {
        Some(entry) => Ok(entry.pvbn),
        None => Ok(0),
    }
}

/// Whether just these VVBNs of a container have their data blocks.
fn has_just<D: Disk>(
    container: &Container,
    store: &mut Store,
    disk: &mut D,
    entries: u32,
    vvbns: &[u32],
) -> Result<bool, ContainerFault>
    requires size { length container.now.map.entries ≡ entries }
    requires stands { StandsOn (D.shown disk.old) store.old.pairs }
{
    for vvbn in 0..entries {
        let want = if vvbns.contains(&vvbn) {
            vvbn as u64 + 100
        } else {
            0
        };
        let pvbn = pvbn_at(container, store, disk, vvbn)?;
        if u64::from(pvbn) != want {
            return Ok(false);
        }
    }
    Ok(true)
}

/// The map of a new aggregate.
pub(crate) fn aggregate<D: Disk>(alloc: Global, disk: &mut D) -> Option<AggMap> {
    format(disk, 2048).ok()?;
    let found = find_root(disk).ok()?;
    AggMap::load(alloc, disk, &found).ok()
}

/// A container with data blocks under these VVBNs.
fn with_data<D: Disk>(
    alloc: Global,
    store: &mut Store,
    disk: &mut D,
    entries: u32,
    vvbns: &[u32],
) -> Result<Container, ContainerFault>
    requires few { entries ≤ most_entries }
    requires stands { StandsOn (D.shown disk.old) store.old.pairs }
    ensures size { IfOk result (λ container. length container.map.entries ≡ entries) }
    ensures stands { StandsOn (D.shown disk.new) store.new.pairs }
{
    let mut container = Container::new(alloc, entries)?;
    set_data(&mut container, store, disk, entries, vvbns)?;
    Ok(container)
}

/// Writes a container with data blocks under these VVBNs, where there are blocks enough, and answers its root.
#[tactic(auto, using(fv_store::proofs::Laws::stands_at_first))]
pub(crate) fn written<D: Disk>(
    alloc: Global,
    disk: &mut D,
    map: &mut AggMap,
    entries: u32,
    vvbns: &[u32],
) -> Option<u32>
    requires { entries ≤ most_entries }
{
    let mut store = Store::new(alloc, 8).ok()?;
    let mut container = with_data(alloc, &mut store, disk, entries, vvbns).ok()?;
    if map.free_count() < entries / 256 + entries / 65536 + 4 {
        return None;
    }
    container.flush(&mut store, disk, map).ok()
}

/// Whether a tree spells just the data blocks under these VVBNs.
#[tactic(auto, using(fv_store::proofs::Laws::stands_at_first))]
fn spells<D: Disk>(
    alloc: Global,
    disk: &mut D,
    root: u32,
    entries: u32,
    vvbns: &[u32],
) -> Option<bool>
    requires { entries ≤ most_entries }
{
    let mut store = Store::new(alloc, 2).ok()?;
    let height = height_of(entries);
    let container = Container::at(alloc, &mut store, disk, entries, height, root).ok()?;
    has_just(&container, &mut store, disk, entries, vvbns).ok()
}

/// Whether a container that was written is read again as it was.
fn comes_back<D: Disk>(alloc: Global, disk: &mut D, entries: u32, vvbns: &[u32]) -> Option<bool>
    requires { entries ≤ most_entries }
{
    let mut map = aggregate(alloc, disk)?;
    let root = written(alloc, disk, &mut map, entries, vvbns)?;
    spells(alloc, disk, root, entries, vvbns)
}

/// Whether it comes back over a host in memory.
fn keeps(alloc: Global, entries: u32, vvbns: &[u32]) -> Option<bool>
    requires { entries ≤ most_entries }
{
    let mut host = MemHost::new(alloc, Vec::new(alloc));
    comes_back(alloc, &mut host, entries, vvbns)
}

/// One leaf, several leaves, and a tree of two levels of inner nodes.
#[test]
fn written_and_read_again(rt: HostRuntime) {
    let one = keeps(rt.alloc(), 4121, &[0, 255, 256, 4120]);
    assert!(rt; one == Some(true));
    let more = keeps(rt.alloc(), 8217, &[5, 4096, 8191, 8216]);
    assert!(rt; more == Some(true));
    let two = keeps(rt.alloc(), 65537, &[0, 65535, 65536]);
    assert!(rt; two == Some(true));
}

/// A container of 10 entries, of which one has its data block.
#[tactic(auto, using(fv_store::proofs::Laws::stands_at_first))]
fn with_one<D: Disk>(
    alloc: Global,
    store: &mut Store,
    disk: &mut D,
    vvbn: u32,
) -> Result<Container, ContainerFault>
    requires stands { StandsOn (D.shown disk.old) store.old.pairs }
    ensures stands { StandsOn (D.shown disk.new) store.new.pairs }
{
    let mut container = Container::new(alloc, 10)?;
    if vvbn < 10 {
        let entry = Entry {
            pvbn: vvbn + 100,
            kind: 1,
        };
        container.set(store, disk, vvbn, Some(entry))?;
    }
    Ok(container)
}

/// Two containers in a chain: the first has an entry for VVBN 4, and the other one for VVBN 9.
fn chain<D: Disk>(
    alloc: Global,
    store: &mut Store,
    disk: &mut D,
) -> Result<Containers, ContainerFault>
    requires stands { StandsOn (D.shown disk.old) store.old.pairs }
    ensures stands { StandsOn (D.shown disk.new) store.new.pairs }
{
    let mut containers = Containers::new(alloc)?;
    containers.put(0, with_one(alloc, store, disk, 4)?, Some(7));
    containers.put(7, with_one(alloc, store, disk, 9)?, None);
    Ok(containers)
}

/// The entries of VVBNs 9, 4 and 5 along a chain, with one step each.
fn chain_entries<D: Disk, L: Ledger>(
    containers: &mut Containers,
    store: &mut Store,
    disk: &mut D,
    steps: &mut Steps<L>,
) -> Result<[Option<Entry>; 3], ContainerFault>
    requires stands { StandsOn (D.shown disk.old) store.old.pairs }
    ensures steps { IfOk result (λ _. steps.new ≡ steps.old + 3) }
{
    let nine = containers.look_up_chain(store, disk, 0, 9, steps)?;
    let four = containers.look_up_chain(store, disk, 0, 4, steps)?;
    let five = containers.look_up_chain(store, disk, 0, 5, steps)?;
    Ok([nine, four, five])
}

#[tactic(auto, using(fv_store::proofs::Laws::stands_at_first))]
fn chained<D: Disk, L: Ledger>(
    alloc: Global,
    disk: &mut D,
    blank: Blank,
) -> Result<[Option<Entry>; 3], ContainerFault>
    requires name { blank.name ≡ L.name }
    requires parts { blank.parts ≡ L.parts }
    requires some { 0 < L.parts }
{
    let mut steps: Steps<L> = Steps::open(blank);
    let mut store = Store::new(alloc, 2)?;
    let mut containers = chain(alloc, &mut store, disk)?;
    chain_entries(&mut containers, &mut store, disk, &mut steps)
}

#[test]
fn a_chain_of_two(rt: HostRuntime) {
    let mut host = MemHost::new(rt.alloc(), Vec::new(rt.alloc()));
    let entries = chained::<MemHost, Brand>(rt.alloc(), &mut host, Blank::new(1));
    let nine = Entry { pvbn: 109, kind: 1 };
    let four = Entry { pvbn: 104, kind: 1 };
    assert!(rt; entries == Ok([Some(nine), Some(four), None]));
}
