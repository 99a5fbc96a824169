//! Placing what changed of the files of all volumes.

ghost use Rattle.std.specs.Prelude.{◌≡◌, ◌<◌, ℕ, Some, None, IfErr, IfSome, IsTrue, OnOk};
ghost use Rattle.fv_container.specs.Chains.{slot_count};
ghost use Rattle.fv_store.specs.Held.{StandsOn};
ghost use Rattle.fv_volume.specs.States.{state_at};
ghost use Rattle.fv_cp.specs.Lent.{FitTogether};
ghost use Rattle.fv_model.specs.Machines.{Machine};
ghost use Rattle.fv_pool.specs.Causes.{IsNoDamage};
ghost use Rattle.fv_cp.specs.Held.{IsHeld};
ghost use Rattle.fv_cp.specs.Placing.{ArePlaced, AreReady, FailsToPlace, HasNoFiles, HasPlaceCause, HasWholeMap, HaveNoFiles, HaveRoom, IsIdle, IsReadyIn, MayFail, PlacesSlot};

use crate::slots::known_slots;
use fv_codec::SLOTS;
use fv_disk::Disk;
use fv_volume::{Pool, VolumeFault};
use fv_volumes::Volumes;

/// Places what changed of the files of all volumes, in the order of slots, so that a consistency point can follow: each block waits among
/// the kept ones, and its volume's active root names the files. Then no file is in memory. In every outcome the volumes stand for the
/// machine that they stood for, and a later call goes on where one failed. It writes nothing to the disk.
///
/// # Errors
/// `Damaged`, `DiskFault` and `Memory` come as in `VolumeState::flush`, for the volume of the least slot that they come for: `Damaged` at
/// the place of its label or of the root, with 1 and 0, or where a leaf of a container doesn't stand, where the trees of its table stand
/// on their blocks. Where volumes stand for a machine over a disk that tells, and each with files in memory has more free numbers, and the
/// aggregate more free blocks, than are pending, no damage comes. Nothing is `Refused`. Without a file in memory no fault comes.
///
/// Costs a step for each slot, and for each volume with files in memory a step for each number of its span and what its flush costs.
pub fn flush<D: Disk>(
    volumes: &mut Volumes,
    pool: &mut Pool,
    disk: &mut D,
) -> Result<(), VolumeFault>
    requires fit { FitTogether pool.old volumes.old }
    requires stands { StandsOn (D.shown disk.old) pool.old.store.pairs }
    requires ready { AreReady (D.shown disk.old) pool.old volumes.old }
    ensures placed { ArePlaced (D.shown disk.old) pool.old volumes.old (D.shown disk.new) pool.new volumes.new }
    ensures idle { IsIdle disk.old pool.old volumes.old disk.new pool.new volumes.new }
    ensures none { OnOk result ((s : ℕ) → HasNoFiles (state_at volumes.new s)) }
    ensures whole { OnOk result ((s : ℕ) → HasWholeMap (state_at volumes.new s)) }
    ensures stands { StandsOn (D.shown disk.new) pool.new.store.pairs }
    ensures ready { AreReady (D.shown disk.new) pool.new volumes.new }
    ensures enough { IsTrue (D.shown disk.old).tells → (before : Machine) → IsHeld (D.shown disk.old) pool.old volumes.old before → HaveRoom pool.old volumes.old → IfErr result IsNoDamage }
    ensures cause { HasPlaceCause (D.shown disk.old) (D.shown disk.new) result }
    ensures filed { IfErr result (λ e. HaveNoFiles volumes.old → ⊥) }
    ensures lacks { IfErr result (FailsToPlace (D.shown disk.old) pool.old volumes.old (D.shown disk.new)) }
{
    for slot in 0..SLOTS {
        known_slots(&pool.containers);
        flush_slot(volumes, pool, disk, slot)?;
    }
    Ok(())
}

/// Places what changed of the files of the volume of a slot, if there is one.
fn flush_slot<D: Disk>(
    volumes: &mut Volumes,
    pool: &mut Pool,
    disk: &mut D,
    slot: u8,
) -> Result<(), VolumeFault>
    requires slot { slot < slot_count }
    requires ready { IfSome (state_at volumes.old slot) (IsReadyIn (D.shown disk.old) pool.old slot) }
    ensures placed { PlacesSlot (D.shown disk.old) pool.old volumes.old slot (state_at volumes.old slot) (D.shown disk.new) pool.new volumes.new }
    ensures idle { state_at volumes.old slot ≡ None → (pool.new ≡ pool.old) × ((volumes.new ≡ volumes.old) × (disk.new ≡ disk.old)) }
    ensures still { HasNoFiles (state_at volumes.old slot) → disk.new ≡ disk.old }
    ensures none { OnOk result (HasNoFiles (state_at volumes.new slot)) }
    ensures whole { HasWholeMap (state_at volumes.new slot) }
    ensures fails { IfErr result (MayFail (D.shown disk.old) pool.old (state_at volumes.old slot)) }
    ensures cause { HasPlaceCause (D.shown disk.old) (D.shown disk.new) result }
{
    match volumes.get_mut(slot) {
        Some(state) => state.place_files(pool, disk),
        None => Ok(()),
    }
}
