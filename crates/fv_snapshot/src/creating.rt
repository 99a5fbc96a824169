//! Making a snapshot.

ghost use Rattle.std.specs.Prelude.{◌≡◌, ◌<◌, ◌≤◌, ◌^◌, ℕ, None, false, get_or, pos, true, IfErr, IfOk, OnErr, OnOk};
ghost use Rattle.fv_charge.specs.Changes.{CanChange};
ghost use Rattle.fv_model.specs.Numbers.{greatest_span};
ghost use Rattle.fv_model.specs.Space.{map_blocks};
ghost use Rattle.fv_model.specs.Spelling.{is_name};
ghost use Rattle.fv_root.specs.Formatted.{IsSize};
ghost use Rattle.fv_volmap.specs.Slots.{slot_at, stored_count};
ghost use Rattle.fv_model.specs.declared.answers.Refusal.{Refusal};
ghost use Rattle.fv_pool.specs.declared.fault.VolumeFault.TheVariants.{Memory, Refused};
ghost use Rattle.fv_volume.specs.Files.{IsLabelled};
ghost use Rattle.fv_volume.specs.OneVolume.{greatest_charge, IsBooked, IsReady};
ghost use Rattle.fv_volume.specs.Snaps.{with_snapshot};
ghost use Rattle.fv_snapshot.specs.Creating.{creation_refusal, Creates, IsGranted, JudgesCreation, TellsCreation};
ghost use Rattle.fv_snapshot.specs.Granting.{slot_granted};

use fv_charge::{Delta, Ledger};
use fv_disk::Disk;
use fv_model::{Name, Refusal, map_blocks};
use fv_root::capacity;
use fv_volmap::MapSlot;
use fv_volume::{Pool, VolumeFault, VolumeState};

/// What a snapshot gets that isn't refused.
#[derive(Clone, Copy, Debug, PartialEq, Eq)]
pub struct Granted {
    /// The map slot, from 1 to 24.
    pub slot: MapSlot,
    /// How many blocks the map has, from 1 to 32.
    pub room: u64,
}

/// Whether a snapshot of a name is made of a volume, in an aggregate of so many blocks of which the other volumes commit `others`, at most
/// 2^62: the map slot that it gets, the least that is free, and the blocks of its map. `make` takes it.
///
/// # Errors
/// The refusal comes exactly where the machine refuses `snap create`, and is its refusal: a snapshot has the name; there are 24; the volume
/// would use more than its size with the blocks of the snapshot's map; commits would pass the capacity, in this order.
///
/// Costs a step for each slot and snapshot, takes no memory and changes nothing. `docs/MACHINE.md` has the command.
pub fn judge_create(
    volume: &VolumeState,
    blocks: u32,
    others: u64,
    name: &Name,
) -> Result<Granted, Refusal>
    requires booked { IsBooked volume.now }
    requires labelled { IsLabelled volume.now.slot volume.now }
    requires blocks { IsSize blocks }
    requires others { others ≤ 2 ^ 62 }
    ensures judges { JudgesCreation volume.entry.now blocks others name.now (slot_granted result) }
    ensures room { IfOk result (λ granted. granted.room ≡ map_blocks volume.entry.now.span) }
{
    if volume.snapshots.named(name).is_some() {
        return Err(Refusal::SnapshotExists);
    }
    let Some(slot) = volume.snapshots.free_slot() else {
        return Err(Refusal::TooMany);
    };
    let room = map_room(volume.span);
    let delta = map_more(&volume.ledger, room);
    volume.ledger.admit(&delta, others, capacity(blocks))?;
    Ok(Granted {
        slot,
        room: u64::from(room),
    })
}

/// How many blocks the map of a span has.
fn map_room(span: u32) -> u32
    requires { span ≤ greatest_span }
    ensures exact { result ≡ map_blocks span }
    ensures few { result ≤ 32 }
{
    map_blocks(span)
}

/// A change of a ledger by the blocks of one map more.
fn map_more(ledger: &Ledger, room: u32) -> Delta
    requires charge { ledger.now.charge ≤ greatest_charge }
    requires need { ledger.now.need ≡ 0 }
    requires room { room ≤ 32 }
    ensures charge { result.charge ≡ pos room }
    ensures need { result.need ≡ pos 0 }
    ensures size { result.size ≡ ledger.now.size }
    ensures kind { result.kind ≡ ledger.now.kind }
    ensures fits { CanChange ledger.now result }
{
    Delta {
        charge: i64::from(room),
        need: 0,
        size: ledger.size,
        kind: ledger.kind,
    }
}

/// Makes a snapshot of the active table of a volume, where it isn't refused: `judge_create`, and then `make`.
///
/// `others` is what the other volumes of the aggregate commit together, in blocks, at most 2^62.
///
/// # Errors
/// `Refused` as `judge_create` refuses; nothing changes then. `Damaged`, `DiskFault` and `Memory` as `make`. After each of them the volume
/// stands for what it stood for.
///
/// Nothing is written to the disk. Costs what both cost.
pub fn create<D: Disk>(
    volume: &mut VolumeState,
    pool: &mut Pool,
    disk: &mut D,
    others: u64,
    name: &Name,
) -> Result<(), VolumeFault>
    requires ready { IsReady (D.shown disk.old) pool.old volume.old }
    requires others { others ≤ 2 ^ 62 }
    ensures creates { Creates (D.shown disk.old) pool.old volume.old others name.now (D.shown disk.new) pool.new volume.new result }
    ensures tells { TellsCreation pool.old volume.old others name.now volume.new result }
    ensures refused { IfErr result (λ e. (r : Refusal) → e ≡ Refused r → disk.new ≡ disk.old) }
    ensures idle { volume.old.files ≡ None → disk.new ≡ disk.old }
    ensures ready { IsReady (D.shown disk.new) pool.new volume.new }
{
    match judge_create(volume, pool.found.blocks, others, name) {
        Ok(granted) => make(volume, pool, disk, granted, name),
        Err(refusal) => Err(VolumeFault::Refused(refusal)),
    }
}

/// Makes what `judge_create` granted: a snapshot of the active table of a volume. What changed of its files is placed first, so that the
/// active root spells the table. Of the snapshot's map no block is placed: it waits for the next consistency point.
///
/// `granted` is what `judge_create` answered for the name, since when neither the volume's snapshots nor its ledger changed. So it isn't
/// refused.
///
/// # Errors
/// `Damaged`, `DiskFault` and `Memory` as `VolumeState::place_files`, and `Memory` where there is none for the snapshot. After each of them
/// the volume stands for what it stood for.
///
/// Nothing is written to the disk. Costs what `VolumeState::place_files` costs and a step for each word of 64 numbers of the span, whatever
/// the number of files. Nothing is copied but the map.
pub fn make<D: Disk>(
    volume: &mut VolumeState,
    pool: &mut Pool,
    disk: &mut D,
    granted: Granted,
    name: &Name,
) -> Result<(), VolumeFault>
    requires ready { IsReady (D.shown disk.old) pool.old volume.old }
    requires granted { IsGranted volume.old name.now granted.slot }
    ensures creates { (others : ℕ) → creation_refusal volume.old.snapshots volume.old.ledger pool.old.found.blocks others name.now ≡ None
        → Creates (D.shown disk.old) pool.old volume.old others name.now (D.shown disk.new) pool.new volume.new result }
    ensures tells { (others : ℕ) → TellsCreation pool.old volume.old others name.now volume.new result }
    ensures accepted { IfErr result (λ e. (r : Refusal) → e ≡ Refused r → ⊥) }
    ensures idle { volume.old.files ≡ None → disk.new ≡ disk.old }
    ensures ready { IsReady (D.shown disk.new) pool.new volume.new }
{
    volume.place_files(pool, disk)?;
    match volume.keep_snapshot(granted.slot, name) {
        Ok(()) => Ok(()),
        Err(_) => Err(VolumeFault::Memory),
    }
}
