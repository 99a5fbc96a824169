//! The list of a volume's snapshots.

use fv_codec::Pointer;
use fv_model::Name;
use fv_volume::{Rooted, Snap, Snapshots};
use std::alloc::{AllocError, Global};
use std::test::Fail;

/// A snapshot of an empty table.
fn snap(slot: u8, name: Name) -> Snap {
    Snap {
        slot,
        name,
        table: Rooted {
            levels: 0,
            root: Pointer {
                vvbn: 0,
                pvbn: 0,
                stamp: 0,
            },
        },
    }
}

/// The slots of the first three snapshots, with 0 where there is none.
fn first_slots(snaps: &Snapshots) -> [u8; 3] {
    let mut slots = [0; 3];
    for (at, snap) in snaps.as_slice().iter().take(3).enumerate() {
        slots[at] = snap.slot;
    }
    slots
}

/// Adds slots 2, 1 and 4 under three names and removes the first. Answers the slots and the least free one after each step.
fn added_and_removed(
    alloc: Global,
    names: [Name; 3],
) -> Result<[([u8; 3], Option<u8>); 4], AllocError> {
    let mut snaps = Snapshots::new(alloc);
    snaps.insert(snap(2, names[0]))?;
    let first = (first_slots(&snaps), snaps.free_slot());
    snaps.insert(snap(1, names[1]))?;
    let second = (first_slots(&snaps), snaps.free_slot());
    snaps.insert(snap(4, names[2]))?;
    let third = (first_slots(&snaps), snaps.free_slot());
    if snaps.len() > 0 {
        snaps.remove(0);
    }
    Ok([
        first,
        second,
        third,
        (first_slots(&snaps), snaps.free_slot()),
    ])
}

/// The list goes by slots, and the least slot that no snapshot has is free.
#[test]
fn snapshots_go_by_their_slots(rt: HostRuntime) -> Result<(), Fail> {
    let names = [name(b"b")?, name(b"a")?, name(b"d")?];
    let want = [
        ([2, 0, 0], Some(1)),
        ([1, 2, 0], Some(3)),
        ([1, 2, 4], Some(3)),
        ([2, 4, 0], Some(1)),
    ];
    assert!(rt; added_and_removed(rt.alloc(), names)? == want);
    Ok(())
}

/// The name that a word spells.
fn name(word: &[u8]) -> Result<Name, Fail> {
    Ok(Name::read(word).ok_or("it is a name")?)
}

/// Where three names are found: behind a lesser slot, first, and nowhere.
#[test]
fn snapshots_are_found_by_name(rt: HostRuntime) -> Result<(), Fail> {
    let mut snaps = Snapshots::new(rt.alloc());
    snaps.insert(snap(7, name(b"late")?))?;
    snaps.insert(snap(3, name(b"early")?))?;
    assert!(rt; snaps.find(&name(b"late")?) == Some(1));
    assert!(rt; snaps.find(&name(b"early")?) == Some(0));
    assert!(rt; snaps.find(&name(b"lat")?) == None);
    Ok(())
}

/// Behind 24 snapshots no slot is free.
#[test]
fn no_slot_past_24(rt: HostRuntime) -> Result<(), Fail> {
    let mut snaps = Snapshots::new(rt.alloc());
    for slot in 1..25 {
        assert!(rt; snaps.free_slot() == Some(slot));
        snaps.insert(snap(slot, name(b"s")?))?;
    }
    assert!(rt; snaps.free_slot() == None);
    Ok(())
}
