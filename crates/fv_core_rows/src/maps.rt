//! The maps of a volume, and the map of an aggregate.

use fv_aggmap::AggMap;
use fv_disk::Disk;
use fv_memdisk::MemHost;
use fv_root::{find_root, format};
use fv_volmap::VolMap;
use std::alloc::{AllocError, Global};
use std::test::Fail;

/// Loads a block that is zero but for one byte into slot 3 of a volume with 20 numbers. Answers the number past the span, whether 0
/// is held, and the next number.
fn loaded(
    alloc: Global,
    at: usize,
    byte: u8,
) -> Result<(Option<u32>, bool, Option<u32>), AllocError> {
    let mut volume = VolMap::new(alloc, 20)?;
    let mut block = [0; 4096];
    if at < 4096 {
        block[at] = byte;
    }
    let past = volume.load_slot(3, 0, &block)?;
    let held = volume.held(0);
    Ok((past, held, volume.allocate()))
}

#[test]
fn a_snapshot_is_loaded(rt: HostRuntime) -> Result<(), Fail> {
    assert!(rt; loaded(rt.alloc(), 2, 16)? == (Some(20), false, Some(0)));
    assert!(rt; loaded(rt.alloc(), 0, 1)? == (None, true, Some(1)));
    Ok(())
}

/// Keeps the active set in a slot, where that is free.
fn keep(volume: &mut VolMap, slot: u8) -> Result<(), AllocError> {
    if slot < 26 && volume.snapshot(slot).is_none() {
        volume.keep(slot)?;
    }
    Ok(())
}

/// Restores a slot, where that is used.
fn restore(volume: &mut VolMap, slot: u8) {
    if slot < 26 && volume.snapshot(slot).is_some() {
        volume.restore(slot);
    }
}

/// Numbers are given out, taken back, kept by a snapshot and restored.
fn given_out(volume: &mut VolMap) -> Result<[Option<u32>; 6], AllocError> {
    let first = volume.allocate();
    let second = volume.allocate();
    volume.release(0);
    keep(volume, 1)?;
    let third = volume.allocate();
    volume.release(1);
    let none = volume.allocate();
    restore(volume, 1);
    let fourth = volume.allocate();
    volume.forget(1);
    volume.release(1);
    Ok([first, second, third, none, fourth, volume.allocate()])
}

/// Of two numbers the snapshot keeps 1.
#[test]
fn numbers_of_a_volume(rt: HostRuntime) -> Result<(), Fail> {
    let mut volume = VolMap::new(rt.alloc(), 2)?;
    let want = [Some(0), Some(1), Some(0), None, Some(0), Some(1)];
    assert!(rt; given_out(&mut volume)? == want);
    Ok(())
}

/// How many numbers some slot has, how many slot 1 and slot 2 have alone, and which of 0 to 3 a snapshot has.
fn shared(volume: &mut VolMap) -> (u32, u32, u32, [bool; 4]) {
    let united = volume.count_united();
    let kept = [0, 1, 2, 3].map(|v| volume.in_snapshot(v));
    (united, volume.count_alone(1), volume.count_alone(2), kept)
}

/// Slot 1 keeps 0 and 1, slot 2 keeps 0 and 2, and then 0 is let go. Answers what is shared then, and once slot 1 is forgotten.
fn kept_twice(volume: &mut VolMap) -> Result<[(u32, u32, u32, [bool; 4]); 2], AllocError> {
    volume.allocate();
    volume.allocate();
    keep(volume, 1)?;
    volume.release(1);
    volume.allocate();
    keep(volume, 2)?;
    volume.release(0);
    let both = shared(volume);
    volume.forget(1);
    Ok([both, shared(volume)])
}

/// With both slots 1 is in slot 1 alone, and slot 2 has nothing alone: 0 is in slot 1, too, and 2 is active. Without slot 1 only 0 is
/// in slot 2 alone, and a free slot has nothing. 3 is past the span.
#[test]
fn numbers_of_two_snapshots(rt: HostRuntime) -> Result<(), Fail> {
    let mut volume = VolMap::new(rt.alloc(), 3)?;
    let both = (3, 1, 0, [true, true, true, false]);
    let later = (2, 0, 1, [true, false, true, false]);
    assert!(rt; kept_twice(&mut volume)? == [both, later]);
    Ok(())
}

/// Stands a volume on a slot of another one, where that is used and its span isn't greater.
fn stand_on(volume: &mut VolMap, parent: &VolMap, slot: u8) -> Result<(), AllocError> {
    if slot < 26 && parent.snapshot(slot).is_some() && parent.span() <= volume.span() {
        volume.stand_on(parent, slot)?;
    }
    Ok(())
}

/// A volume with 3 numbers whose slot 2 keeps 0 and 2; later 0 is let go, and 1 is given out.
fn parent(alloc: Global) -> Result<VolMap, AllocError> {
    let mut volume = VolMap::new(alloc, 3)?;
    volume.allocate();
    volume.allocate();
    volume.allocate();
    volume.release(1);
    keep(&mut volume, 2)?;
    volume.release(0);
    volume.allocate();
    Ok(volume)
}

/// A clone of slot 2 of that volume, with 6 numbers, as it is made: its base and its active set have 0 and 2.
fn clone(alloc: Global) -> Result<VolMap, AllocError> {
    let mut volume = VolMap::new(alloc, 6)?;
    stand_on(&mut volume, &parent(alloc)?, 2)?;
    restore(&mut volume, 25);
    Ok(volume)
}

/// Numbers that a clone gives out: those of its base never, also where its active set lets one go.
fn given_beside(volume: &mut VolMap) -> [Option<u32>; 7] {
    let first = volume.allocate();
    volume.release(0);
    let second = volume.allocate();
    volume.release(1);
    let third = volume.allocate();
    let fourth = volume.allocate();
    let fifth = volume.allocate();
    let none = volume.allocate();
    volume.release(2);
    [first, second, third, fourth, fifth, none, volume.allocate()]
}

/// 1, 3, 4 and 5 are in no slot; 1 is let go and found again after 5. Then 0 and 2 are in the base alone.
#[test]
fn numbers_of_a_clone(rt: HostRuntime) -> Result<(), Fail> {
    let mut volume = clone(rt.alloc())?;
    let want = [Some(1), Some(3), Some(4), Some(5), Some(1), None, None];
    assert!(rt; given_beside(&mut volume) == want);
    Ok(())
}

/// A volume that gave out 0 before it stands on slot 2: 0 and 2 are in the base, so 1 comes next, and then 3. Without its base it gives
/// out 4 and 5, and then 2.
#[test]
fn a_base_that_comes_and_goes(rt: HostRuntime) -> Result<(), Fail> {
    let mut volume = VolMap::new(rt.alloc(), 6)?;
    let before = volume.allocate();
    stand_on(&mut volume, &parent(rt.alloc())?, 2)?;
    let beside = [volume.allocate(), volume.allocate()];
    volume.forget(25);
    let after = [volume.allocate(), volume.allocate(), volume.allocate()];
    assert!(rt; before == Some(0));
    assert!(rt; beside == [Some(1), Some(3)]);
    assert!(rt; after == [Some(4), Some(5), Some(2)]);
    Ok(())
}

/// How many numbers a clone is charged for, how many its slots from 0 to 24 have, and how many are free.
fn counted(volume: &mut VolMap) -> (u32, u32, u32) {
    let charged = volume.count_charged();
    let united = volume.count_united();
    (charged, united, volume.count_free(9))
}

/// A clone counted as it is made, with 1 and 3 given out and 0 let go, with these kept by slot 1 and 1 let go, and without its base.
fn counted_on(volume: &mut VolMap) -> Result<[(u32, u32, u32); 4], AllocError> {
    let made = counted(volume);
    volume.allocate();
    volume.allocate();
    volume.release(0);
    let later = counted(volume);
    keep(volume, 1)?;
    volume.release(1);
    let kept = counted(volume);
    volume.forget(25);
    Ok([made, later, kept, counted(volume)])
}

/// At first 0 and 2 are the base's. Later slot 0 has 1, 2 and 3, of which 2 is the base's, and 4 and 5 are free; slot 1 keeps that so.
/// Without the base 1, 2 and 3 count, and 0 is free, too.
#[test]
fn what_a_clone_is_charged_for(rt: HostRuntime) -> Result<(), Fail> {
    let mut volume = clone(rt.alloc())?;
    let want = [(0, 2, 4), (2, 3, 2), (2, 3, 2), (3, 3, 3)];
    assert!(rt; counted_on(&mut volume)? == want);
    Ok(())
}

/// Which of 0 to 6 are in another slot than the active one, and which in a snapshot's.
fn beside(volume: &VolMap) -> ([bool; 7], [bool; 7]) {
    let numbers = [0, 1, 2, 3, 4, 5, 6];
    let elsewhere = numbers.map(|v| volume.is_elsewhere(v));
    (elsewhere, numbers.map(|v| volume.in_snapshot(v)))
}

/// The base has 0 and 2. Slot 24 keeps 1 and 2, once 1 is given out and 0 let go; 3, given out after it, is active alone. 6 is past the
/// span.
#[test]
fn numbers_in_other_slots(rt: HostRuntime) -> Result<(), Fail> {
    let mut volume = clone(rt.alloc())?;
    let made = beside(&volume);
    volume.allocate();
    volume.release(0);
    keep(&mut volume, 24)?;
    volume.allocate();
    let later = beside(&volume);
    let none = [false; 7];
    let base = [true, false, true, false, false, false, false];
    let both = [true, true, true, false, false, false, false];
    let kept = [false, true, true, false, false, false, false];
    assert!(rt; made == (base, none));
    assert!(rt; later == (both, kept));
    Ok(())
}

/// The map of a new aggregate of 512 blocks.
fn aggregate<D: Disk>(alloc: Global, disk: &mut D) -> Option<AggMap> {
    format(disk, 512).ok()?;
    let found = find_root(disk).ok()?;
    AggMap::load(alloc, disk, &found).ok()
}

fn release(map: &mut AggMap, pvbn: u32) {
    if pvbn < map.blocks() {
        map.release_after_commit(pvbn);
    }
}

/// A block is free again where it is given back before its commit, and after it only once a commit has let it go.
fn taken(map: &mut AggMap) -> [(Option<u32>, u32); 4] {
    let first = (map.take_free(), map.free_count());
    let second = (map.take_free(), map.free_count());
    release(map, 7);
    let third = (map.take_free(), map.free_count());
    map.committed();
    release(map, 8);
    let before = map.free_count();
    map.committed();
    [first, second, third, (Some(before), map.free_count())]
}

#[test]
fn blocks_of_an_aggregate(rt: HostRuntime) -> Result<(), Fail> {
    let mut host = MemHost::new(rt.alloc(), Vec::new(rt.alloc()));
    let mut map = aggregate(rt.alloc(), &mut host).ok_or("it is made")?;
    assert!(rt; (map.blocks(), map.free_count()) == (512, 505));
    let want = [
        (Some(7), 504),
        (Some(8), 503),
        (Some(9), 503),
        (Some(503), 504),
    ];
    assert!(rt; taken(&mut map) == want);
    Ok(())
}
