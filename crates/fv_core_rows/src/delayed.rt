//! Delayed frees: which regions are chosen, and the reclaim of one.

ghost use Rattle.std.specs.Prelude.{◌≡◌, length, IfOk, IfSome};
ghost use Rattle.fv_store.specs.Held.{StandsOn};

use fv_aggmap::AggMap;
use fv_container::{Container, ContainerFault, Entry};
use fv_delay::{Count, Counts, Region, choose_regions, delayed_by_region, reclaim};
use fv_disk::Disk;
use fv_memdisk::MemHost;
use fv_root::{find_root, format};
use fv_store::Store;
use fv_volmap::VolMap;
use std::alloc::{AllocError, Global};
use std::test::Fail;

/// Whether just these regions are chosen, in this order, where so many blocks are missing. Volume 0 has 64 and 63 delayed entries in its regions
/// 0 and 1, and volume 1 has 10 and 63 in its regions 0 and 2.
fn are_chosen(alloc: Global, missing: u64, want: &[Region]) -> Result<bool, AllocError> {
    let mut counts = Counts::new(alloc);
    for (slot, region, count) in [(0, 0, 64), (0, 1, 63), (1, 0, 10), (1, 2, 63)] {
        counts.push(Count {
            slot,
            region,
            count,
        })?;
    }
    let regions = choose_regions(alloc, &counts, missing)?;
    Ok(regions.as_slice() == want)
}

/// Those with 64 first, then those with most, by volume and region among equals, as long as something is missing.
#[test]
fn regions_are_chosen(rt: HostRuntime) -> Result<(), Fail> {
    let all = [
        Region { slot: 0, region: 0 },
        Region { slot: 0, region: 1 },
        Region { slot: 1, region: 2 },
        Region { slot: 1, region: 0 },
    ];
    for (missing, count) in [(0, 1), (64, 1), (100, 2), (127, 2), (128, 3), (300, 4)] {
        assert!(rt; are_chosen(rt.alloc(), missing, &all[..count])?);
    }
    Ok(())
}

/// The map of a new aggregate.
fn aggregate<D: Disk>(alloc: Global, disk: &mut D) -> Option<AggMap> {
    format(disk, 512).ok()?;
    let found = find_root(disk).ok()?;
    AggMap::load(alloc, disk, &found).ok()
}

/// The maps of a volume of 300 numbers, of which 0 is taken.
fn with_one(alloc: Global) -> Option<VolMap>
    ensures { IfSome result (λ map. map.span ≡ 300) }
{
    let mut map = VolMap::new(alloc, 300).ok()?;
    map.allocate()?;
    Some(map)
}

/// Sets a block of the aggregate under a VVBN.
fn set_block<D: Disk>(
    container: &mut Container,
    store: &mut Store,
    disk: &mut D,
    map: &mut AggMap,
    vvbn: u32,
) -> Result<(), ContainerFault>
    requires size { length container.old.map.entries ≡ 325 }
    requires stands { StandsOn (D.shown disk.old) store.old.pairs }
    ensures size { length container.new.map.entries ≡ 325 }
    ensures stands { StandsOn (D.shown disk.new) store.new.pairs }
{
    if let Some(pvbn) = map.take_free()
        && vvbn < 325
        && 0 < pvbn
        && pvbn < 512
    {
        container.set(store, disk, vvbn, Some(Entry { pvbn, kind: 1 }))?;
    }
    Ok(())
}

/// A container for 300 numbers and 25 maps of a block, with blocks under these VVBNs.
fn with_blocks<D: Disk>(
    alloc: Global,
    store: &mut Store,
    disk: &mut D,
    map: &mut AggMap,
    vvbns: &[u32],
) -> Result<Container, ContainerFault>
    requires stands { StandsOn (D.shown disk.old) store.old.pairs }
    ensures size { IfOk result (λ container. length container.map.entries ≡ 325) }
    ensures stands { StandsOn (D.shown disk.new) store.new.pairs }
{
    let mut container = Container::new(alloc, 325)?;
    for vvbn in vvbns {
        set_block(&mut container, store, disk, map, *vvbn)?;
    }
    Ok(container)
}

/// How many entries of the first three regions are delayed.
fn delayed<D: Disk>(
    container: &mut Container,
    store: &mut Store,
    disk: &mut D,
    map: &VolMap,
) -> Result<[u32; 3], ContainerFault>
    requires size { length container.old.map.entries ≡ 325 }
    requires span { map.now.span ≡ 300 }
    requires stands { StandsOn (D.shown disk.old) store.old.pairs }
    ensures size { length container.new.map.entries ≡ 325 }
    ensures stands { StandsOn (D.shown disk.new) store.new.pairs }
{
    container.learn_all(store, disk)?;
    Ok([
        delayed_by_region(container, map, 0),
        delayed_by_region(container, map, 1),
        delayed_by_region(container, map, 2),
    ])
}

/// Reclaims region 1, and answers how many entries became holes.
fn reclaim_second<D: Disk>(
    container: &mut Container,
    store: &mut Store,
    disk: &mut D,
    map: &VolMap,
    pool_map: &mut AggMap,
) -> Result<u32, ContainerFault>
    requires size { length container.old.map.entries ≡ 325 }
    requires span { map.now.span ≡ 300 }
    requires stands { StandsOn (D.shown disk.old) store.old.pairs }
    ensures size { length container.new.map.entries ≡ 325 }
    ensures stands { StandsOn (D.shown disk.new) store.new.pairs }
{
    container.load(store, disk, 1)?;
    Ok(reclaim(container, map, 1, pool_map))
}

/// Reclaims region 1. Answers the delayed entries before and afterwards, how many became holes, and the free blocks before, afterwards and once
/// the next root is committed.
#[tactic(auto, using(fv_store::proofs::Laws::stands_at_first))]
fn reclaimed<D: Disk>(alloc: Global, disk: &mut D) -> Option<([u32; 3], [u32; 3], [u32; 4])> {
    let mut pool_map = aggregate(alloc, disk)?;
    let map = with_one(alloc)?;
    let mut store = Store::new(alloc, 2).ok()?;
    let vvbns = [0, 7, 299, 300, 301];
    let mut container = with_blocks(alloc, &mut store, disk, &mut pool_map, &vvbns).ok()?;
    pool_map.committed();
    let before = delayed(&mut container, &mut store, disk, &map).ok()?;
    let free = pool_map.free_count();
    let count = reclaim_second(&mut container, &mut store, disk, &map, &mut pool_map).ok()?;
    let soon = pool_map.free_count();
    pool_map.committed();
    let behind = delayed(&mut container, &mut store, disk, &map).ok()?;
    Some((before, behind, [count, free, soon, pool_map.free_count()]))
}

/// Number 0 is in the active map, and 300 is the block of that. So 7 waits in region 0, and in region 1 number 299 and 301, a block of
/// the map of a slot that isn't in use.
#[test]
fn a_region_is_reclaimed(rt: HostRuntime) -> Result<(), Fail> {
    let mut host = MemHost::new(rt.alloc(), Vec::new(rt.alloc()));
    let seen = reclaimed(rt.alloc(), &mut host).ok_or("it is made")?;
    assert!(rt; seen == ([1, 2, 0], [1, 0, 0], [2, 500, 500, 502]));
    Ok(())
}
