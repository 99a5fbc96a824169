//! Calls of one volume with one file, over a host in memory.

ghost use Rattle.std.specs.Prelude.{◌≡◌, ◌<◌, IfOk, IfSome, OnOk};
ghost use Rattle.fv_container.specs.Chains.{slot_count};
ghost use Rattle.fv_store.specs.Held.{StandsOn};
ghost use Rattle.fv_root.specs.Formatted.{IsSize};
ghost use Rattle.fv_root.specs.Finding.{IsInRange};
ghost use Rattle.fv_volume.specs.OneVolume.{IsReady};
ghost use Rattle.fv_volume.specs.States.{state_at};

use crate::counted::{Counted, Counting};
use fv_container::Steps;
use fv_disk::{Block, BlockFault, Disk, Failed};
use fv_memdisk::MemHost;
use fv_model::{Kind, Name};
use fv_root::{Found, find_root, format};
use fv_volume::{Pool, VolumeFault, VolumeState};
use fv_volumes::Volumes;
use std::alloc::{AllocError, Global};
use std::marker::Brand;
use std::sync::ledger::{Blank, Ledger};

/// How many blocks of the file are read in turn: it has two levels.
const READ: u32 = 300;

/// The size of the volume, in blocks.
const SIZE: u32 = 100_000;

/// What is done with the file once it is written.
#[derive(Clone, Copy, Debug, PartialEq, Eq)]
enum Reads {
    /// Nothing.
    None,
    /// So many gets of blocks that changed since the last point, so they are in memory.
    Changed(u32),
    /// So many gets of blocks that lie on the disk, each of which was read before.
    Cached(u32),
    /// So many gets of blocks that lie on the disk, none of which was read before.
    Cold(u32),
}

/// So many gets of blocks that changed. Answers how many gave what was written, and 0 where the disk was called.
pub(crate) fn gets(alloc: Global, times: u32) -> Result<u64, AllocError> {
    Ok(work(alloc, READ, Reads::Changed(times)).unwrap_or(0))
}

/// So many gets of blocks that lie on the disk and were read before. Answers as `gets`.
pub(crate) fn cached_gets(alloc: Global, times: u32) -> Result<u64, AllocError> {
    Ok(work(alloc, READ, Reads::Cached(times)).unwrap_or(0))
}

/// A get of each of so many blocks, at most 300, none of which was read before. Answers how many calls of the disk they made.
pub(crate) fn cold_gets(alloc: Global, times: u32) -> Result<u64, AllocError> {
    Ok(work(alloc, READ, Reads::Cold(times)).unwrap_or(0))
}

/// So many writes of new blocks of a file. Answers how many were done.
pub(crate) fn puts(alloc: Global, times: u32) -> Result<u64, AllocError> {
    Ok(work(alloc, times, Reads::None).unwrap_or(0))
}

/// What `gets` does beside the gets. Answers how often a block was as wanted.
pub(crate) fn looks(times: u32) -> u64 {
    let mut done: u64 = 0;
    for time in 0..times {
        let index = time % READ;
        let block = content(index);
        if is_content(index, &block) {
            done = done.saturating_add(1);
        }
    }
    done
}

/// The content of a block of the file, another one for each index: the index in front, and a byte that depends on it behind.
fn content(index: u32) -> Block {
    let mut block: Block = [(index % 251) as u8; 4096];
    block[..4].copy_from_slice(&index.to_be_bytes());
    block
}

/// Whether the block is that of an index, with each of its bytes.
fn is_content(index: u32, block: &Block) -> bool {
    *block == content(index)
}

/// Makes an aggregate with one volume, writes so many blocks of a file of it, and reads them.
fn work(alloc: Global, puts: u32, reads: Reads) -> Result<u64, VolumeFault> {
    let mut disk = Counting::new(MemHost::new(alloc, Vec::new(alloc)));
    let found = root_of(&mut disk)?;
    let mut pool = Pool::open(alloc, &mut disk, found)?;
    on_aggregate(alloc, &mut pool, &mut disk, puts, reads)
}

/// The root of a new aggregate of 262,144 blocks.
fn root_of<D: Disk>(disk: &mut D) -> Result<Found, BlockFault>
    ensures { IfOk result IsInRange }
{
    format(disk, 262_144)?;
    match find_root(disk) {
        Ok(found) => Ok(found),
        Err(_) => Err(BlockFault::DiskFault),
    }
}

/// Makes a volume, and calls it.
fn on_aggregate<D: Counted>(
    alloc: Global,
    pool: &mut Pool,
    disk: &mut D,
    puts: u32,
    reads: Reads,
) -> Result<u64, VolumeFault>
    requires stands { StandsOn (D.shown disk.old) pool.old.store.pairs }
    requires size { IsSize pool.old.found.blocks }
{
    let Some(name) = Name::read(b"a") else {
        return Ok(0);
    };
    let mut volumes = Volumes::open(alloc, pool, disk)?;
    let mut commits = volumes.commits();
    let admitted = match volumes.admit(pool.found.blocks, commits, &name, SIZE, Kind::Thin) {
        Err(refusal) => return Err(VolumeFault::Refused(refusal)),
        Ok(admitted) => admitted,
    };
    let Ok(slot) = volumes.create(pool, &mut commits, &name, SIZE, Kind::Thin, admitted) else {
        return Err(VolumeFault::Memory);
    };
    on_slot(&mut volumes, slot, alloc, pool, disk, puts, reads)
}

/// Calls the volume of a slot.
fn on_slot<D: Counted>(
    volumes: &mut Volumes,
    slot: u8,
    alloc: Global,
    pool: &mut Pool,
    disk: &mut D,
    puts: u32,
    reads: Reads,
) -> Result<u64, VolumeFault>
    requires slot { slot < slot_count }
    requires ready { IfSome (state_at volumes.old slot) (IsReady (D.shown disk.old) pool.old) }
{
    let Some(file) = Name::read(b"f") else {
        return Ok(0);
    };
    match volumes.get_mut(slot) {
        None => Ok(0),
        Some(volume) => call(volume, alloc, pool, disk, &file, puts, reads),
    }
}

/// Writes the first blocks of a new file, and then reads.
fn call<D: Counted>(
    volume: &mut VolumeState,
    alloc: Global,
    pool: &mut Pool,
    disk: &mut D,
    file: &Name,
    puts: u32,
    reads: Reads,
) -> Result<u64, VolumeFault>
    requires ready { IsReady (D.shown disk.old) pool.old volume.old }
{
    let done = write(volume, alloc, pool, disk, file, puts)?;
    match reads {
        Reads::None => Ok(done),
        Reads::Changed(times) => read_warm(volume, alloc, pool, disk, file, times),
        Reads::Cached(times) => {
            place(volume, pool, disk)?;
            read(volume, alloc, pool, disk, file, READ)?;
            read_warm(volume, alloc, pool, disk, file, times)
        }
        Reads::Cold(times) => {
            place(volume, pool, disk)?;
            let before = disk.calls();
            read(volume, alloc, pool, disk, file, times)?;
            Ok(disk.calls().saturating_sub(before))
        }
    }
}

/// Makes a file and writes so many of its blocks.
fn write<D: Disk>(
    volume: &mut VolumeState,
    alloc: Global,
    pool: &mut Pool,
    disk: &mut D,
    file: &Name,
    count: u32,
) -> Result<u64, VolumeFault>
    requires ready { IsReady (D.shown disk.old) pool.old volume.old }
    ensures ready { IsReady (D.shown disk.new) pool.new volume.new }
{
    volume.new_file(alloc, pool, disk, 0, file, 0)?;
    let mut done: u64 = 0;
    for index in 0..count {
        volume.put(alloc, pool, disk, 0, file, index, &content(index))?;
        done = done.saturating_add(1);
    }
    Ok(done)
}

/// Places what changed and writes it, so that nothing of the file is in memory.
#[tactic(auto, using(crate::proofs::Made::written_ready))]
fn place<D: Disk>(
    volume: &mut VolumeState,
    pool: &mut Pool,
    disk: &mut D,
) -> Result<(), VolumeFault>
    requires ready { IsReady (D.shown disk.old) pool.old volume.old }
    ensures ready { OnOk result (IsReady (D.shown disk.new) pool.new volume.new) }
{
    let mut room = 0;
    volume.flush(pool, disk, &mut room)?;
    match pool.write_kept(disk) {
        Ok(()) => Ok(()),
        Err(Failed) => Err(VolumeFault::DiskFault),
    }
}

/// So many gets; answers how many gave what was written, and 0 where one of them called the disk.
fn read_warm<D: Counted>(
    volume: &mut VolumeState,
    alloc: Global,
    pool: &mut Pool,
    disk: &mut D,
    file: &Name,
    count: u32,
) -> Result<u64, VolumeFault>
    requires ready { IsReady (D.shown disk.old) pool.old volume.old }
{
    let before = disk.calls();
    let done = read(volume, alloc, pool, disk, file, count)?;
    if disk.calls() == before {
        Ok(done)
    } else {
        Ok(0)
    }
}

/// So many gets, of one block after another; answers how many gave what was written.
fn read<D: Disk>(
    volume: &mut VolumeState,
    alloc: Global,
    pool: &mut Pool,
    disk: &mut D,
    file: &Name,
    count: u32,
) -> Result<u64, VolumeFault>
    requires ready { IsReady (D.shown disk.old) pool.old volume.old }
    ensures ready { IsReady (D.shown disk.new) pool.new volume.new }
{
    read_with::<D, Brand>(volume, alloc, pool, disk, file, count, Blank::new(1))
}

fn read_with<D: Disk, L: Ledger>(
    volume: &mut VolumeState,
    alloc: Global,
    pool: &mut Pool,
    disk: &mut D,
    file: &Name,
    count: u32,
    blank: Blank,
) -> Result<u64, VolumeFault>
    requires name { blank.name ≡ L.name }
    requires parts { blank.parts ≡ L.parts }
    requires some { 0 < L.parts }
    requires ready { IsReady (D.shown disk.old) pool.old volume.old }
    ensures ready { IsReady (D.shown disk.new) pool.new volume.new }
{
    let mut steps: Steps<L> = Steps::open(blank);
    let mut block: Block = [0; 4096];
    let mut done: u64 = 0;
    for time in 0..count {
        let index = time % READ;
        volume.get(alloc, pool, disk, None, file, index, &mut block, &mut steps)?;
        if is_content(index, &block) {
            done = done.saturating_add(1);
        }
    }
    Ok(done)
}
