//! The volumes of an aggregate over a host in memory, with what they share.

ghost use Rattle.std.specs.Prelude.{IfOk, IsTrue};
ghost use Rattle.fv_disk.specs.DiskCalls.{OnlyReads};
ghost use Rattle.fv_root.specs.Finding.{IsFound, IsInRange};
ghost use Rattle.fv_volume_rows.specs.Held.{AreFit, AreHeld};

use crate::wrong::Wrong;
use fv_disk::{Block, Disk};
use fv_memdisk::{Call, MemHost, Tear};
use fv_root::{Found, find_root, format};
use fv_volume::Pool;
use fv_volumes::Volumes;
use std::alloc::{AllocError, Global};
use std::marker::Model;

/// The volumes of an aggregate over its disk, with what they share. Contracts see how many blocks the aggregate has.
#[derive(Drop)]
pub struct Opened {
    pub alloc: Global,
    pub disk: MemHost,
    pub pool: Pool,
    pub volumes: Volumes,
    /// By slot: whether entries of its volume may be delayed though it hasn't changed.
    pub delays: [bool; 64],
}

impl Model for Opened {
    ghost use Rattle.std.specs.Prelude.{ℕ};
    ghost use Rattle.fv_memdisk.specs.Host.{shown_of};
    ghost use Rattle.fv_volume_rows.specs.Held.{AreFit, AreHeld};

    ghost Value = { ℕ };

    ghost view = { λ o. o.pool.found.blocks };

    ghost invariant = { λ o. AreHeld (shown_of o.disk) o.pool o.volumes × AreFit (shown_of o.disk) o.pool o.volumes };
}

/// What the volumes of the aggregate that a disk holds share, and the volumes.
fn read<D: Disk>(alloc: Global, disk: &mut D) -> Result<(Pool, Volumes), Wrong>
    ensures held { IfOk result (λ opened. AreHeld (D.shown disk.new) opened.0 opened.1) }
    ensures fit { IfOk result (λ opened. AreFit (D.shown disk.new) opened.0 opened.1) }
{
    disk.barrier()?;
    let found = root_of(disk)?;
    let mut pool = Pool::open(alloc, disk, found)?;
    let volumes = Volumes::open(alloc, &mut pool, disk)?;
    Ok((pool, volumes))
}

/// The volumes of the aggregate that a disk holds.
pub fn open(alloc: Global, mut disk: MemHost) -> Result<Opened, Wrong> {
    let (pool, volumes) = read(alloc, &mut disk)?;
    Ok(Opened {
        alloc,
        disk,
        pool,
        volumes,
        delays: [true; 64],
    })
}

/// Lets the read of a number fail, counted from 0 over all reads of the host.
pub fn fail_read(opened: &mut Opened, nth: u64) -> Result<(), AllocError> {
    opened.disk.fail(Call::Read, nth)
}

/// The newest root.
fn root_of<D: Disk>(disk: &mut D) -> Result<Found, Wrong>
    ensures range { IfOk result IsInRange }
    ensures finds { IsTrue (D.shown disk.old).tells → IfOk result (IsFound (D.shown disk.old).reads) }
    ensures only_reads { OnlyReads (D.shown disk.old) (D.shown disk.new) }
{
    match find_root(disk) {
        Ok(found) => Ok(found),
        Err(_) => Err(Wrong::NoRoot),
    }
}

/// A new aggregate of so many blocks, from 512 to 1,048,576, without a volume.
pub fn empty(alloc: Global, blocks: u32) -> Result<Opened, Wrong> {
    if !(512..=1_048_576).contains(&blocks) {
        return Err(Wrong::Row);
    }
    let mut host = MemHost::new(alloc, Vec::new(alloc));
    format(&mut host, blocks)?;
    open(alloc, host)
}

/// Bytes of an image: the block that they stand in, where in it they begin, and what they are. Bytes that no part has are zero.
pub type Part = (u64, usize, &'static [u8]);

/// A host whose disk is an image. No call was made of it yet.
pub fn host_of(alloc: Global, parts: &[Part]) -> Result<MemHost, Wrong> {
    let mut host = MemHost::new(alloc, Vec::new(alloc));
    for (at, offset, bytes) in parts {
        patch(&mut host, *at, *offset, bytes);
    }
    Ok(host.image(host.moments().saturating_sub(1), Tear::New)?)
}

/// Writes bytes into a block from an offset on.
fn patch<D: Disk>(disk: &mut D, at: u64, offset: usize, bytes: &[u8]) {
    let mut block: Block = [0; 4096];
    let _ = disk.read(at, &mut block);
    for (i, byte) in bytes.iter().enumerate() {
        let place = offset.saturating_add(i);
        if place < 4096 {
            block[place] = *byte;
        }
    }
    let _ = disk.write(at, &block);
}
