//! Commands as calls of their volumes.

ghost use Rattle.std.specs.Prelude.{◌≡◌, ◌<◌, ◌≤◌, ◌^◌, ℕ, IfSome};
ghost use Rattle.fv_container.specs.Chains.{slot_count};
ghost use Rattle.fv_model.specs.Numbers.{greatest_span};
ghost use Rattle.fv_pool.specs.Calls.{Reads};
ghost use Rattle.fv_volume.specs.OneVolume.{IsReady};
ghost use Rattle.fv_volume.specs.States.{state_at};
ghost use Rattle.fv_volume_rows.specs.Held.{AreFit, AreHeld, LeavesPlace};

use crate::opened::Opened;
use fv_container::Steps;
use fv_disk::{Block, Disk};
use fv_model::{Command, Kind, Name, Refusal, Reply};
use fv_snapshot::{create as create_snapshot, delete, restore};
use fv_volume::{Pool, VolumeFault, VolumeState};
use fv_volumes::Volumes;
use std::alloc::Global;
use std::marker::Brand;
use std::sync::ledger::{Blank, Ledger};

/// The most that other volumes may commit together.
const MOST: u64 = 4_611_686_018_427_387_904;

/// What a command is answered, refusals among it: making a volume, or a call of one volume.
pub fn apply(opened: &mut Opened, command: &Command) -> Result<Reply, VolumeFault> {
    let alloc = opened.alloc;
    let volumes = &mut opened.volumes;
    let pool = &mut opened.pool;
    match answer(volumes, alloc, pool, &mut opened.disk, command) {
        Err(VolumeFault::Refused(refusal)) => Ok(Reply::Refused(refusal)),
        Err(fault) => Err(fault),
        Ok(reply) => Ok(reply),
    }
}

/// What volumes answer to a command.
fn answer<D: Disk>(
    volumes: &mut Volumes,
    alloc: Global,
    pool: &mut Pool,
    disk: &mut D,
    command: &Command,
) -> Result<Reply, VolumeFault>
    requires held { AreHeld (D.shown disk.old) pool.old volumes.old }
    requires fit { AreFit (D.shown disk.old) pool.old volumes.old }
    ensures held { AreHeld (D.shown disk.new) pool.new volumes.new }
    ensures fit { AreFit (D.shown disk.new) pool.new volumes.new }
{
    match command {
        Command::VolCreate { volume, size, kind } => {
            create(volumes, pool, disk, volume, *size, *kind)
        }
        Command::SnapCreate { volume, .. } => on_snapshots(volumes, pool, disk, volume, command),
        Command::SnapDelete { volume, snapshot } => {
            delete_snapshot(volumes, pool, disk, volume, snapshot)
        }
        Command::SnapRestore { volume, .. } => on_snapshots(volumes, pool, disk, volume, command),
        _ => ask(volumes, alloc, pool, disk, command),
    }
}

/// Removes a snapshot from the volume of a name.
fn delete_snapshot<D: Disk>(
    volumes: &mut Volumes,
    pool: &mut Pool,
    disk: &mut D,
    name: &Name,
    snapshot: &Name,
) -> Result<Reply, VolumeFault>
    requires held { AreHeld (D.shown disk.old) pool.old volumes.old }
    requires fit { AreFit (D.shown disk.old) pool.old volumes.old }
    ensures held { AreHeld (D.shown disk.new) pool.new volumes.new }
    ensures fit { AreFit (D.shown disk.new) pool.new volumes.new }
{
    let Some(slot) = volumes.find(name) else {
        return Err(VolumeFault::Refused(Refusal::NoVolume));
    };
    done(delete(volumes, slot, pool, disk, snapshot))
}

/// What the volume of a name answers to a command that makes or restores a snapshot of it.
fn on_snapshots<D: Disk>(
    volumes: &mut Volumes,
    pool: &mut Pool,
    disk: &mut D,
    name: &Name,
    command: &Command,
) -> Result<Reply, VolumeFault>
    requires held { AreHeld (D.shown disk.old) pool.old volumes.old }
    requires fit { AreFit (D.shown disk.old) pool.old volumes.old }
    ensures held { AreHeld (D.shown disk.new) pool.new volumes.new }
    ensures fit { AreFit (D.shown disk.new) pool.new volumes.new }
{
    let Some(slot) = volumes.find(name) else {
        return Err(VolumeFault::Refused(Refusal::NoVolume));
    };
    let others = commits_beside(volumes, slot);
    match volumes.get_mut(slot) {
        None => Err(VolumeFault::Refused(Refusal::NoVolume)),
        Some(volume) => done(change_snapshots(volume, pool, disk, others, command)),
    }
}

/// Makes or restores a snapshot of a volume.
fn change_snapshots<D: Disk>(
    volume: &mut VolumeState,
    pool: &mut Pool,
    disk: &mut D,
    others: u64,
    command: &Command,
) -> Result<(), VolumeFault>
    requires ready { IsReady (D.shown disk.old) pool.old volume.old }
    requires others { others ≤ 2 ^ 62 }
    ensures ready { IsReady (D.shown disk.new) pool.new volume.new }
    ensures leaves { LeavesPlace (D.shown disk.old) (D.shown disk.new) pool.old pool.new volume.old volume.new }
{
    match command {
        Command::SnapCreate { snapshot, .. } => create_snapshot(
            volume, pool, disk, others, snapshot,
        ),
        Command::SnapRestore { snapshot, .. } => restore(volume, pool, disk, others, snapshot),
        _ => Err(VolumeFault::Refused(Refusal::Syntax)),
    }
}

/// Makes a volume where it is admitted.
fn create<D: Disk>(
    volumes: &mut Volumes,
    pool: &mut Pool,
    disk: &mut D,
    name: &Name,
    size: u32,
    kind: Kind,
) -> Result<Reply, VolumeFault>
    requires held { AreHeld (D.shown disk.old) pool.old volumes.old }
    requires fit { AreFit (D.shown disk.old) pool.old volumes.old }
    ensures held { AreHeld (D.shown disk.new) pool.new volumes.new }
    ensures fit { AreFit (D.shown disk.new) pool.new volumes.new }
{
    let mut commits = volumes.commits();
    match volumes.admit(pool.found.blocks, commits, name, size, kind) {
        Err(refusal) => Err(VolumeFault::Refused(refusal)),
        Ok(admitted) => match volumes.create(pool, &mut commits, name, size, kind, admitted) {
            Ok(_) => Ok(Reply::Done),
            Err(_) => Err(VolumeFault::Memory),
        },
    }
}

/// The volume that a command speaks of.
fn volume_of(command: &Command) -> Option<&Name> {
    match command {
        Command::VolStat { volume } => Some(volume),
        Command::New { volume, .. } => Some(volume),
        Command::Put { volume, .. } => Some(volume),
        Command::Get { volume, .. } => Some(volume),
        Command::Len { volume, .. } => Some(volume),
        Command::Cut { volume, .. } => Some(volume),
        Command::Remove { volume, .. } => Some(volume),
        Command::Ls { volume, .. } => Some(volume),
        Command::SnapList { volume } => Some(volume),
        _ => None,
    }
}

/// What the volume of a command answers.
fn ask<D: Disk>(
    volumes: &mut Volumes,
    alloc: Global,
    pool: &mut Pool,
    disk: &mut D,
    command: &Command,
) -> Result<Reply, VolumeFault>
    requires held { AreHeld (D.shown disk.old) pool.old volumes.old }
    requires fit { AreFit (D.shown disk.old) pool.old volumes.old }
    ensures held { AreHeld (D.shown disk.new) pool.new volumes.new }
    ensures fit { AreFit (D.shown disk.new) pool.new volumes.new }
{
    let Some(name) = volume_of(command) else {
        return Err(VolumeFault::Refused(Refusal::Syntax));
    };
    let Some(slot) = volumes.find(name) else {
        return Err(VolumeFault::Refused(Refusal::NoVolume));
    };
    let others = commits_beside(volumes, slot);
    on_volume(volumes, slot, alloc, pool, disk, others, command)
}

/// What the volume of a slot answers.
fn on_volume<D: Disk>(
    volumes: &mut Volumes,
    slot: u8,
    alloc: Global,
    pool: &mut Pool,
    disk: &mut D,
    others: u64,
    command: &Command,
) -> Result<Reply, VolumeFault>
    requires held { AreHeld (D.shown disk.old) pool.old volumes.old }
    requires fit { AreFit (D.shown disk.old) pool.old volumes.old }
    requires slot { slot < slot_count }
    requires others { others ≤ 2 ^ 62 }
    ensures held { AreHeld (D.shown disk.new) pool.new volumes.new }
    ensures fit { AreFit (D.shown disk.new) pool.new volumes.new }
{
    match volumes.get_mut(slot) {
        None => Err(VolumeFault::Refused(Refusal::NoVolume)),
        Some(volume) => call(volume, alloc, pool, disk, others, command),
    }
}

/// Places what changed in the volume of a slot below 64, where there is one.
pub fn flush(opened: &mut Opened, slot: u8) -> Result<(), VolumeFault> {
    if slot >= 64 {
        return Ok(());
    }
    flush_volume(
        &mut opened.volumes,
        slot,
        &mut opened.pool,
        &mut opened.disk,
    )
}

/// Places what changed in the volume of a slot, where there is one.
fn flush_volume<D: Disk>(
    volumes: &mut Volumes,
    slot: u8,
    pool: &mut Pool,
    disk: &mut D,
) -> Result<(), VolumeFault>
    requires held { AreHeld (D.shown disk.old) pool.old volumes.old }
    requires fit { AreFit (D.shown disk.old) pool.old volumes.old }
    requires slot { slot < slot_count }
    ensures held { AreHeld (D.shown disk.new) pool.new volumes.new }
    ensures fit { AreFit (D.shown disk.new) pool.new volumes.new }
{
    match volumes.get_mut(slot) {
        None => Ok(()),
        Some(volume) => {
            let mut room = 0;
            volume.flush(pool, disk, &mut room)
        }
    }
}

/// What all volumes but that of a slot commit together.
fn commits_beside(volumes: &Volumes, slot: u8) -> u64
    requires each { (s : ℕ) → IfSome (state_at volumes.now s) (λ x. x.ledger.span ≤ greatest_span) }
    ensures { result ≤ 2 ^ 62 }
{
    let mut sum: u64 = 0;
    for other in 0..64_u8 {
        if let Some(volume) = volumes.get(other) {
            if other != slot {
                sum = sum.saturating_add(volume.ledger.commit());
            }
        }
    }
    sum.min(MOST)
}

/// What a volume answers to a command.
fn call<D: Disk>(
    volume: &mut VolumeState,
    alloc: Global,
    pool: &mut Pool,
    disk: &mut D,
    others: u64,
    command: &Command,
) -> Result<Reply, VolumeFault>
    requires ready { IsReady (D.shown disk.old) pool.old volume.old }
    requires others { others ≤ 2 ^ 62 }
    ensures ready { IsReady (D.shown disk.new) pool.new volume.new }
    ensures slot { volume.new.slot ≡ volume.old.slot }
    ensures span { volume.new.span ≡ volume.old.span }
    ensures base { volume.new.base ≡ volume.old.base }
    ensures reads { Reads (D.shown disk.old) pool.old (D.shown disk.new) pool.new }
{
    match command {
        Command::New { file, reserve, .. } => {
            done(new_file(volume, alloc, pool, disk, others, file, *reserve))
        }
        Command::Put {
            file,
            index,
            block,
            ..
        } => done(volume.put(alloc, pool, disk, others, file, *index, block)),
        Command::Cut { file, length, .. } => {
            done(volume.cut(alloc, pool, disk, others, file, *length))
        }
        Command::Remove { file, .. } => done(volume.remove(alloc, pool, disk, others, file)),
        _ => tell(volume, alloc, pool, disk, command),
    }
}

/// The reply to a change.
fn done(change: Result<(), VolumeFault>) -> Result<Reply, VolumeFault> {
    change?;
    Ok(Reply::Done)
}

/// Makes a file. Reserves of files aren't built yet.
fn new_file<D: Disk>(
    volume: &mut VolumeState,
    alloc: Global,
    pool: &mut Pool,
    disk: &mut D,
    others: u64,
    file: &Name,
    reserve: u32,
) -> Result<(), VolumeFault>
    requires ready { IsReady (D.shown disk.old) pool.old volume.old }
    requires others { others ≤ 2 ^ 62 }
    ensures ready { IsReady (D.shown disk.new) pool.new volume.new }
    ensures slot { volume.new.slot ≡ volume.old.slot }
    ensures span { volume.new.span ≡ volume.old.span }
    ensures base { volume.new.base ≡ volume.old.base }
    ensures reads { Reads (D.shown disk.old) pool.old (D.shown disk.new) pool.new }
{
    if reserve > 0 && volume.kind == Kind::File {
        return Err(VolumeFault::Memory);
    }
    volume.new_file(alloc, pool, disk, others, file, reserve)
}

/// What is asked of a volume.
fn tell<D: Disk>(
    volume: &mut VolumeState,
    alloc: Global,
    pool: &mut Pool,
    disk: &mut D,
    command: &Command,
) -> Result<Reply, VolumeFault>
    requires ready { IsReady (D.shown disk.old) pool.old volume.old }
    ensures same { volume.new ≡ volume.old }
    ensures reads { Reads (D.shown disk.old) pool.old (D.shown disk.new) pool.new }
{
    match command {
        Command::VolStat { .. } => Ok(Reply::Stat(volume.stat())),
        Command::SnapList { .. } => match volume.snapshot_names(alloc) {
            Ok(names) => Ok(Reply::Names(names)),
            Err(_) => Err(VolumeFault::Memory),
        },
        Command::Len { snapshot, file, .. } => {
            let length = volume.length(alloc, pool, disk, snapshot.as_ref(), file)?;
            Ok(Reply::Number(u64::from(length)))
        }
        Command::Ls { snapshot, .. } => {
            let names = volume.list(alloc, pool, disk, snapshot.as_ref())?;
            Ok(Reply::Names(names))
        }
        Command::Get {
            snapshot,
            file,
            index,
            ..
        } => {
            let block = content(volume, alloc, pool, disk, snapshot.as_ref(), file, *index)?;
            Ok(Reply::Content(block))
        }
        _ => Err(VolumeFault::Refused(Refusal::Syntax)),
    }
}

/// A block of a file.
fn content<D: Disk>(
    volume: &mut VolumeState,
    alloc: Global,
    pool: &mut Pool,
    disk: &mut D,
    snapshot: Option<&Name>,
    file: &Name,
    index: u32,
) -> Result<Block, VolumeFault>
    requires ready { IsReady (D.shown disk.old) pool.old volume.old }
    ensures same { volume.new ≡ volume.old }
    ensures reads { Reads (D.shown disk.old) pool.old (D.shown disk.new) pool.new }
{
    counted::<D, Brand>(
        volume,
        alloc,
        pool,
        disk,
        snapshot,
        file,
        index,
        Blank::new(1),
    )
}

/// The same, with a counter of its own.
fn counted<D: Disk, L: Ledger>(
    volume: &mut VolumeState,
    alloc: Global,
    pool: &mut Pool,
    disk: &mut D,
    snapshot: Option<&Name>,
    file: &Name,
    index: u32,
    blank: Blank,
) -> Result<Block, VolumeFault>
    requires name { blank.name ≡ L.name }
    requires parts { blank.parts ≡ L.parts }
    requires some { 0 < L.parts }
    requires ready { IsReady (D.shown disk.old) pool.old volume.old }
    ensures same { volume.new ≡ volume.old }
    ensures reads { Reads (D.shown disk.old) pool.old (D.shown disk.new) pool.new }
{
    let mut steps: Steps<L> = Steps::open(blank);
    let mut block: Block = [0; 4096];
    volume.get(
        alloc, pool, disk, snapshot, file, index, &mut block, &mut steps,
    )?;
    Ok(block)
}
