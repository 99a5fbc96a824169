//! A session goes on after a read that failed.

ghost use Rattle.std.specs.Prelude.{◌≡◌, ◌<◌};

use fv_aggregate::{Fault, OpenFault, Session};
use fv_container::Steps;
use fv_disk::Disk;
use fv_memdisk::{Call, MemHost, Tear};
use fv_model::{Command, Kind, Name, Reply};
use fv_root::format;
use std::alloc::{AllocError, Global};
use std::marker::Brand;
use std::sync::ledger::{Blank, Ledger};
use std::test::Fail;

/// What a command is answered, as far as a row tells it.
#[derive(Clone, Copy, Debug, PartialEq, Eq)]
pub(crate) enum Told {
    Done,
    /// A block with this first byte.
    First(u8),
    DiskFault,
    Other,
}

pub(crate) fn seen(answer: &Result<Reply, Fault>) -> Told {
    match answer {
        Ok(Reply::Done) => Told::Done,
        Ok(Reply::Content([first, ..])) => Told::First(*first),
        Err(Fault::DiskFault) => Told::DiskFault,
        _ => Told::Other,
    }
}

pub(crate) fn make(volume: Name) -> Command {
    Command::VolCreate {
        volume,
        size: 300,
        kind: Kind::Thin,
    }
}

/// A file gets its volume's name.
pub(crate) fn new(volume: Name) -> Command {
    Command::New {
        volume,
        file: volume,
        reserve: 0,
    }
}

pub(crate) fn put(volume: Name, index: u32, byte: u8) -> Command {
    Command::Put {
        volume,
        file: volume,
        index,
        block: [byte; 4096],
    }
}

fn get(volume: Name, index: u32) -> Command {
    Command::Get {
        volume,
        snapshot: None,
        file: volume,
        index,
    }
}

/// Puts so many blocks into the file of a volume, and makes a point once all are put. It answers how many were.
fn fill<D: Disk, L: Ledger>(
    alloc: Global,
    disk: &mut D,
    volume: Name,
    count: u32,
    blank: Blank,
) -> Result<u32, OpenFault>
    requires name { blank.name ≡ L.name }
    requires parts { blank.parts ≡ L.parts }
    requires some { 0 < L.parts }
{
    let mut steps: Steps<L> = Steps::open(blank);
    let mut session = Session::open(alloc, disk)?;
    for index in 0..count {
        let answer = session.apply(disk, &put(volume, index, 1), &mut steps);
        if seen(&answer) != Told::Done {
            return Ok(index);
        }
    }
    let _ = session.consistency_point(disk);
    Ok(count)
}

/// What four commands are answered in a session, one after the other.
fn answers<D: Disk, L: Ledger>(
    alloc: Global,
    disk: &mut D,
    commands: &[Command; 4],
    blank: Blank,
) -> Result<[Told; 4], OpenFault>
    requires name { blank.name ≡ L.name }
    requires parts { blank.parts ≡ L.parts }
    requires some { 0 < L.parts }
{
    let mut steps: Steps<L> = Steps::open(blank);
    let mut session = Session::open(alloc, disk)?;
    let [one, two, three, four] = commands;
    let one = session.apply(disk, one, &mut steps);
    let two = session.apply(disk, two, &mut steps);
    let three = session.apply(disk, three, &mut steps);
    let four = session.apply(disk, four, &mut steps);
    Ok([seen(&one), seen(&two), seen(&three), seen(&four)])
}

pub(crate) fn play(
    alloc: Global,
    host: &mut MemHost,
    commands: &[Command; 4],
) -> Result<[Told; 4], OpenFault> {
    answers::<MemHost, Brand>(alloc, host, commands, Blank::new(1))
}

/// The disk of a host as it reads, of which the read of a number fails.
pub(crate) fn failing(host: &MemHost, read: u64) -> Result<MemHost, AllocError> {
    let mut image = host.image(host.moments().saturating_sub(1), Tear::New)?;
    image.fail(Call::Read, read)?;
    Ok(image)
}

/// Opening makes ten reads. The next one is that of the inode block, and then comes that of the file's block.
#[test]
fn a_read_that_failed_is_made_again(rt: HostRuntime) -> Result<(), Fail> {
    let alloc = rt.alloc();
    let mut host = MemHost::new(alloc, Vec::new(alloc));
    assert!(rt; format(&mut host, 1024).is_ok());
    let word = Name::read(b"a");
    assert!(rt; word.is_some());
    let Some(a) = word else {
        return Ok(());
    };
    let lines = [make(a), new(a), put(a, 0, 1), Command::Cp];
    assert_eq!(rt; play(alloc, &mut host, &lines), Ok([Told::Done; 4]));
    for read in [10, 11] {
        let mut image = failing(&host, read)?;
        let lines = [get(a, 0), get(a, 0), put(a, 1, 2), get(a, 1)];
        let wanted = [Told::DiskFault, Told::First(1), Told::Done, Told::First(2)];
        assert_eq!(rt; play(alloc, &mut image, &lines), Ok(wanted));
        assert_eq!(rt; image.faults(), 1);
    }
    let mut image = failing(&host, 10)?;
    let lines = [put(a, 0, 3), put(a, 0, 3), Command::Cp, get(a, 0)];
    let wanted = [Told::DiskFault, Told::Done, Told::Done, Told::First(3)];
    assert_eq!(rt; play(alloc, &mut image, &lines), Ok(wanted));
    assert_eq!(rt; (image.faults(), image.write_faults()), (1, 0));
    Ok(())
}

/// A host with a volume `a` whose file has 260 blocks: with three nodes over them, one over these and an inode block they have VVBNs in two leaves.
fn with_two_leaves(alloc: Global, a: Name) -> Result<MemHost, Fail> {
    let mut host = MemHost::new(alloc, Vec::new(alloc));
    format(&mut host, 1024).map_err(|_| "it is made")?;
    let lines = [make(a), new(a), put(a, 0, 1), Command::Cp];
    play(alloc, &mut host, &lines).map_err(|_| "it is opened")?;
    let done = fill::<MemHost, Brand>(alloc, &mut host, a, 260, Blank::new(1));
    match done {
        Ok(260) => Ok(host),
        _ => Err("all are put".into()),
    }
}

/// A point first reads the two leaves. Where one of these reads fails it has written nothing, all is told as before, and the next point is done. Opening
/// makes ten reads, and the first `get` four. A disk has one moment before its first call, and one more once opening has made its barrier.
#[test]
fn a_point_that_failed_to_read_is_made_again(rt: HostRuntime) -> Result<(), Fail> {
    let alloc = rt.alloc();
    let a = Name::read(b"a").ok_or("it is a name")?;
    let host = with_two_leaves(alloc, a)?;
    for read in [14, 15] {
        let mut image = failing(&host, read)?;
        let lines = [get(a, 0), Command::Cp, get(a, 0), get(a, 259)];
        let wanted = [
            Told::First(1),
            Told::DiskFault,
            Told::First(1),
            Told::First(1),
        ];
        assert_eq!(rt; play(alloc, &mut image, &lines), Ok(wanted));
        assert_eq!(rt;
            (image.moments(), image.faults(), image.write_faults()),
            (2, 1, 0)
        );
    }
    for read in [10, 11] {
        let mut image = failing(&host, read)?;
        let lines = [Command::Cp, Command::Cp, put(a, 0, 2), Command::Cp];
        let wanted = [Told::DiskFault, Told::Done, Told::Done, Told::Done];
        assert_eq!(rt; play(alloc, &mut image, &lines), Ok(wanted));
        assert_eq!(rt; (image.faults(), image.write_faults()), (1, 0));
    }
    Ok(())
}
