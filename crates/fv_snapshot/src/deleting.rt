//! Removing a snapshot.

ghost use Rattle.std.specs.Prelude.{◌≡◌, ◌<◌, None, Some, IfErr, IfSome, is_some, true};
ghost use Rattle.fv_container.specs.Chains.{slot_count};
ghost use Rattle.fv_model.specs.declared.answers.Refusal.{Refusal};
ghost use Rattle.fv_pool.specs.declared.fault.VolumeFault.TheVariants.{Refused};
ghost use Rattle.fv_volume.specs.OneVolume.{IsReady};
ghost use Rattle.fv_volume.specs.States.{state_at};
ghost use Rattle.fv_snapshot.specs.Deleting.{Deletes, DeletesAt, is_used};

use fv_disk::Disk;
use fv_model::{Name, Refusal};
use fv_volume::{Pool, VolumeFault, VolumeState};
use fv_volumes::Volumes;

/// Removes the snapshot of a name from the volume of a slot, with its map. What changed of the files is placed first, so that the ledger can be
/// counted by the maps. A block that the active table or another snapshot has stays the volume's; the others are freed in the volume, and in the
/// aggregate by a later consistency point. The volumes of the other slots stay.
///
/// # Errors
/// `Refused` as the machine refuses `snap delete`: `NoSnapshot` exactly where no snapshot has the name, and else `SnapshotInUse` exactly where a
/// clone stands on it; nothing changes then. `Damaged`, `DiskFault` and `Memory` as `VolumeState::place_files`; the volume stands for what it stood
/// for then.
///
/// Nothing is written to the disk. Costs a step for each slot, what `VolumeState::place_files` costs, and a step for each word of 64 numbers of each
/// used slot, whatever the number of files.
pub fn delete<D: Disk>(
    volumes: &mut Volumes,
    slot: u8,
    pool: &mut Pool,
    disk: &mut D,
    name: &Name,
) -> Result<(), VolumeFault>
    requires slot { slot < slot_count }
    requires there { is_some (state_at volumes.old slot) ≡ true }
    requires ready { IfSome (state_at volumes.old slot) (IsReady (D.shown disk.old) pool.old) }
    ensures deletes { DeletesAt (D.shown disk.old) pool.old volumes.old slot name.now (D.shown disk.new) pool.new volumes.new result }
    ensures refused { IfErr result (λ e. (r : Refusal) → e ≡ Refused r → disk.new ≡ disk.old) }
    ensures idle { IfSome (state_at volumes.old slot) (λ x. x.files ≡ None) → disk.new ≡ disk.old }
    ensures ready { IfSome (state_at volumes.new slot) (IsReady (D.shown disk.new) pool.new) }
{
    let stood = is_used(volumes, slot, name);
    match volumes.get_mut(slot) {
        Some(volume) => delete_from(volume, pool, disk, name, stood),
        None => unreachable!(),
    }
}

/// Whether a clone stands on the snapshot of a name of the volume of a slot.
fn is_used(volumes: &Volumes, slot: u8, name: &Name) -> bool
    requires { slot < slot_count }
    ensures { result ≡ is_used volumes.now slot name.now }
{
    match volumes.get(slot) {
        Some(volume) => match volume.snapshots.named(name) {
            Some(snap) => volumes.is_snap_stood_on(slot, snap.slot),
            None => false,
        },
        None => false,
    }
}

/// Removes the snapshot of a name from a volume, as it is told whether a clone stands on it.
fn delete_from<D: Disk>(
    volume: &mut VolumeState,
    pool: &mut Pool,
    disk: &mut D,
    name: &Name,
    stood: bool,
) -> Result<(), VolumeFault>
    requires ready { IsReady (D.shown disk.old) pool.old volume.old }
    ensures deletes { Deletes (D.shown disk.old) pool.old volume.old stood name.now (D.shown disk.new) pool.new volume.new result }
    ensures refused { IfErr result (λ e. (r : Refusal) → e ≡ Refused r → disk.new ≡ disk.old) }
    ensures idle { volume.old.files ≡ None → disk.new ≡ disk.old }
    ensures ready { IsReady (D.shown disk.new) pool.new volume.new }
{
    let Some(at) = volume.snapshots.find(name) else {
        return Err(VolumeFault::Refused(Refusal::NoSnapshot));
    };
    if stood {
        return Err(VolumeFault::Refused(Refusal::SnapshotInUse));
    }
    volume.place_files(pool, disk)?;
    let slot = volume.snapshots.as_slice()[at].slot;
    volume.remove_snapshot(at, slot);
    volume.recount();
    Ok(())
}
