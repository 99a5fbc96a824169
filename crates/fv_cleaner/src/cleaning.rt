//! Clean steps of the volumes of an aggregate, and the end of cleaning.

ghost use Rattle.std.specs.Prelude.{◌≡◌, ◌<◌, false, IfErr, IfOk, IfSome, OnErr, OnOk};
ghost use Rattle.std.specs.List.{list_any};
ghost use Rattle.fv_container.specs.Chains.{slot_count};
ghost use Rattle.fv_disk.specs.DiskCalls.{OnlyReads};
ghost use Rattle.fv_image.specs.HintRules.{is_unknown};
ghost use Rattle.fv_model.specs.declared.answers.Refusal.{Refusal};
ghost use Rattle.fv_pool.specs.BlocksOver.{LoadsPool};
ghost use Rattle.fv_pool.specs.Causes.{HasVolumeCause, IsNoDamage};
ghost use Rattle.fv_pool.specs.declared.fault.VolumeFault.TheVariants.{Refused};
ghost use Rattle.fv_store.specs.Held.{StandsOn};
ghost use Rattle.fv_volume.specs.OneVolume.{IsReady};
ghost use Rattle.fv_volume.specs.States.{state_at};
ghost use Rattle.fv_cleaner.specs.Cleaning.{CleansAt, FinishesAt, MovesAt};
ghost use Rattle.fv_cleaner.specs.Stepping.{CanClean, roots_of};

use crate::stepping::clean_volume;
use fv_disk::Disk;
use fv_pool::{Pool, VolumeFault};
use fv_volumes::Volumes;

/// Takes a clean step of the volume of a slot, and says whether there was one to take. It moves one block that holds an unknown pointer, while
/// what such pointers of it lead to holds none, with all its places filled in; where there is no such block, it fills in the root pointers of the
/// label. The volume isn't being split, and no file of it is in memory: the caller places them first.
///
/// # Errors
///
/// `Damaged` only where no block is free, at the place of the root; where a VVBN isn't held or has no place, at that of the label; where a block
/// hasn't the shape of its kind or leads to one whose kind isn't below its own; or where a leaf of a container doesn't stand where it has to.
/// `DiskFault` only where a read failed in this call, and `Memory` where memory ran out. Nothing but leaves in memory and the cache changes then.
///
/// It writes nothing. Costs a look-up and a read for each root, 24 and 1 of them at most; a look-up, a read and two decodes for each child
/// that the search looks at, on each of at most six levels: a few on average of a node over nodes over cells and of one over inode blocks,
/// those up to the first that isn't clean of another block, and all of a block twice at most; and a look-up for each unknown pointer of the
/// block that it cleans, 128 at most, and a decode and an encode of that block.
pub fn clean_step<D: Disk>(
    volumes: &mut Volumes,
    slot: u8,
    pool: &mut Pool,
    disk: &mut D,
) -> Result<bool, VolumeFault>
    requires slot { slot < slot_count }
    requires ready { IfSome (state_at volumes.old slot) (IsReady (D.shown disk.old) pool.old) }
    requires stands { StandsOn (D.shown disk.old) pool.old.store.pairs }
    ensures cleans { IfOk result (CleansAt (D.shown disk.old) pool.old volumes.old slot pool.new volumes.new) }
    ensures failed { OnErr result (LoadsPool (D.shown disk.old) pool.old pool.new) }
    ensures same { OnErr result (volumes.new ≡ volumes.old) }
    ensures stands { StandsOn (D.shown disk.new) pool.new.store.pairs }
    ensures only_reads { OnlyReads (D.shown disk.old) (D.shown disk.new) }
    ensures unled { OnOk result (MovesAt (D.shown disk.old) pool.old volumes.old slot pool.new) }
    ensures undamaged { IfSome (state_at volumes.old slot) (CanClean (D.shown disk.old) pool.old) → IfErr result IsNoDamage }
    ensures cause { HasVolumeCause (D.shown disk.old).faults (D.shown disk.new).faults result }
    ensures unrefused { IfErr result (λ e. (r : Refusal) → e ≡ Refused r → ⊥) }
{
    match volumes.get_mut(slot) {
        Some(state) => Ok(clean_volume(state, pool, disk)?),
        None => Ok(false),
    }
}

/// Says that all places of the volume of a slot are known: no pointer of its label is unknown, so none of its tables is. The next consistency
/// point writes it. It calls no disk and takes no memory. Costs a step.
pub fn clean_finish(volumes: &mut Volumes, slot: u8)
    requires slot { slot < slot_count }
    requires none { IfSome (state_at volumes.old slot) (λ x. list_any is_unknown (roots_of x) ≡ false) }
    ensures { FinishesAt volumes.old slot volumes.new }
{
    if let Some(state) = volumes.get_mut(slot) {
        state.known = true;
        state.mark();
    }
}
