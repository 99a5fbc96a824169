//! A mirror in a session: copies that failed and are made again, and the steps of a `get` in it.

ghost use Rattle.std.specs.Prelude.{◌≡◌, ◌<◌};

use crate::containers::aggregate;
use crate::going_on::{Told, failing, make, new, play, put, seen};
use fv_aggregate::{OpenFault, Session};
use fv_container::Steps;
use fv_disk::Disk;
use fv_memdisk::MemHost;
use fv_model::{Command, Kind, Name};
use fv_root::format;
use std::alloc::Global;
use std::marker::Brand;
use std::sync::ledger::{Blank, Ledger};
use std::test::Fail;

/// The number of a read that isn't made.
const NO_READ: u64 = 1000;

/// The mirror of a snapshot that has its volume's name.
fn mirror(source: Name, volume: Name) -> Command {
    Command::Mirror {
        source,
        snapshot: source,
        volume,
        size: 300,
        kind: Kind::Thin,
    }
}

/// The last block of the file of a mirror's source.
fn last_of(volume: Name, file: Name) -> Command {
    Command::Get {
        volume,
        snapshot: None,
        file,
        index: 300,
    }
}

/// A host with a volume, whose file has blocks 0, 128 and 300, and with a snapshot of it, all of one name. Under the snapshot lie eight
/// blocks: these three, three nodes over them, one node over these, and an inode block.
fn with_snapshot(alloc: Global, a: Name) -> Result<MemHost, Fail> {
    let mut host = MemHost::new(alloc, Vec::new(alloc));
    format(&mut host, 1024).map_err(|_| "it is made")?;
    let lines = [make(a), new(a), put(a, 0, 1), Command::Cp];
    play(alloc, &mut host, &lines).map_err(|_| "it is opened")?;
    let snap = Command::SnapCreate {
        volume: a,
        snapshot: a,
    };
    let lines = [put(a, 128, 2), put(a, 300, 3), snap, Command::Cp];
    play(alloc, &mut host, &lines).map_err(|_| "it is opened")?;
    Ok(host)
}

/// How many blocks of an aggregate are free.
fn free_in(alloc: Global, host: &mut MemHost) -> Option<u32> {
    match aggregate(alloc, host) {
        Some(map) => Some(map.free_count()),
        None => None,
    }
}

/// Opening makes eleven reads, the last one of the snapshot's map. A mirror then reads the leaf in which the numbers of all eight blocks lie,
/// and each of them once. Where one of these reads fails the next try is done, and as many blocks are free as without that fault.
#[test]
fn a_mirror_that_failed_to_read_is_made_again(rt: HostRuntime) -> Result<(), Fail> {
    let alloc = rt.alloc();
    let a = Name::read(b"a").ok_or("it is a name")?;
    let w = Name::read(b"w").ok_or("it is a name")?;
    let host = with_snapshot(alloc, a)?;
    let mut whole = failing(&host, NO_READ)?;
    let lines = [mirror(a, w), Command::Cp, last_of(w, a), Command::Cp];
    let wanted = [Told::Done, Told::Done, Told::First(3), Told::Done];
    assert_eq!(rt; play(alloc, &mut whole, &lines), Ok(wanted));
    let free = free_in(alloc, &mut whole);
    for read in [11, 12, 13, 14, 15, 16, 17, 18, 19] {
        let mut image = failing(&host, read)?;
        let lines = [mirror(a, w), mirror(a, w), last_of(w, a), Command::Cp];
        let wanted = [Told::DiskFault, Told::Done, Told::First(3), Told::Done];
        assert_eq!(rt; play(alloc, &mut image, &lines), Ok(wanted));
        assert_eq!(rt; (image.faults(), image.write_faults()), (1, 0));
        assert_eq!(rt; free_in(alloc, &mut image), free);
    }
    Ok(())
}

/// What three commands are answered in a session, and how many steps they make together. Of these only a `get` makes any.
fn answers_and_steps<D: Disk, L: Ledger>(
    alloc: Global,
    disk: &mut D,
    commands: &[Command; 3],
    blank: Blank,
) -> Result<([Told; 3], u64), OpenFault>
    requires name { blank.name ≡ L.name }
    requires parts { blank.parts ≡ L.parts }
    requires some { 0 < L.parts }
{
    let mut steps: Steps<L> = Steps::open(blank);
    let mut session = Session::open(alloc, disk)?;
    let [one, two, three] = commands;
    let one = session.apply(disk, one, &mut steps);
    let two = session.apply(disk, two, &mut steps);
    let three = session.apply(disk, three, &mut steps);
    Ok(([seen(&one), seen(&two), seen(&three)], steps.counted()))
}

fn play_counted(
    alloc: Global,
    host: &mut MemHost,
    commands: &[Command; 3],
) -> Result<([Told; 3], u64), OpenFault> {
    answers_and_steps::<MemHost, Brand>(alloc, host, commands, Blank::new(1))
}

/// In a mirror four pointers on the way to block 300 have no place: to the inode block, to the file's node, to the node below it, and to the
/// block. Behind a `cut` that leaves all blocks the inode block waits to be written, and three are left. In the source there is none.
#[test]
fn a_get_in_a_mirror_makes_a_step_for_each_unknown_place(rt: HostRuntime) -> Result<(), Fail> {
    let alloc = rt.alloc();
    let a = Name::read(b"a").ok_or("it is a name")?;
    let w = Name::read(b"w").ok_or("it is a name")?;
    let host = with_snapshot(alloc, a)?;
    let cut = Command::Cut {
        volume: w,
        file: a,
        length: 301,
    };
    let scripts = [
        ([mirror(a, w), Command::Cp, last_of(w, a)], 4),
        ([mirror(a, w), cut, last_of(w, a)], 3),
        ([mirror(a, w), Command::Cp, last_of(a, a)], 0),
    ];
    for (lines, steps) in &scripts {
        let mut image = failing(&host, NO_READ)?;
        let answers = [Told::Done, Told::Done, Told::First(3)];
        assert_eq!(rt;
            play_counted(alloc, &mut image, lines),
            Ok((answers, *steps))
        );
    }
    Ok(())
}
