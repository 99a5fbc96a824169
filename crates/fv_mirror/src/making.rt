//! Making a mirror.

ghost use Rattle.std.specs.Prelude.{◌≡◌, ◌<◌, ℕ, true, Some, IfErr, IfOk, IfSome, OnErr, OnOk};
ghost use Rattle.std.specs.Option.{is_some};
ghost use Rattle.fv_container.specs.Chains.{slot_count};
ghost use Rattle.fv_disk.specs.Faults.{HasBlockCause};
ghost use Rattle.fv_pool.specs.Causes.{HasVolumeCause};
ghost use Rattle.fv_root.specs.Formatted.{IsSize};
ghost use Rattle.fv_store.specs.Held.{StandsOn};
ghost use Rattle.fv_volmap.specs.Slots.{IsVolume, slot_at, slot_count as map_slot_count};
ghost use Rattle.fv_volume.specs.Files.{IsLabelled};
ghost use Rattle.fv_volume.specs.Slots.{sum_of};
ghost use Rattle.fv_volume.specs.States.{state_at};
ghost use Rattle.fv_copies.specs.Copying.{HasWriteCause, IsUndamaged};
ghost use Rattle.fv_mirror.specs.Admitting.{CanMake};
ghost use Rattle.fv_mirror.specs.Making.{CanCopy, HasVolumeWriteCause, Imports, IsImportFault, IsMirrored, IsUnmade, LeavesOthers};

use crate::admitting::{Admitted, admit};
use fv_bits::BitMap;
use fv_copies::{Landing, copy_into};
use fv_disk::{BlockFault, Disk};
use fv_model::{Kind, Name};
use fv_volmap::MapSlot;
use fv_volume::{Home, Pool, VolumeFault, VolumeState, entry_count};
use fv_volumes::Volumes;

/// Makes a mirror of a snapshot of the volume `source`, where it isn't refused, and answers its slot: `admit`, and then `make`.
///
/// `commits` is what all volumes commit together, in blocks, before the call and behind it.
///
/// # Errors
/// `Refused` as `admit` refuses, and the faults of `make`. The volumes, the containers and the map of free blocks are as before then.
///
/// Costs what both cost. As many blocks are free as the snapshot's map has numbers: the caller makes room for them.
#[tactic(auto, using(fv_copies::proofs::Leaving::leaves_none))]
pub fn import_local<D: Disk>(
    volumes: &mut Volumes,
    pool: &mut Pool,
    disk: &mut D,
    commits: &mut u64,
    source: &Name,
    snapshot: &Name,
    name: &Name,
    size: u32,
    kind: Kind,
) -> Result<u8, VolumeFault>
    requires each { (s : ℕ) → IfSome (state_at volumes.old s) (IsLabelled s) }
    requires blocks { IsSize pool.old.found.blocks }
    requires sum { commits.old ≡ sum_of volumes.old }
    requires stands { StandsOn (D.shown disk.old) pool.old.store.pairs }
    ensures imports { IfOk result (Imports (D.shown disk.old) volumes.old pool.old source.now snapshot.now name.now size kind (D.shown disk.new) volumes.new pool.new) }
    ensures fails { IfErr result (IsImportFault (D.shown disk.old) volumes.old pool.old source.now snapshot.now name.now size kind) }
    ensures same { OnErr result (IsUnmade volumes.old pool.old volumes.new pool.new) }
    ensures leaves { LeavesOthers (D.shown disk.old) pool.old (D.shown disk.new) pool.new }
    ensures sum { commits.new ≡ sum_of volumes.new }
    ensures stands { StandsOn (D.shown disk.new) pool.new.store.pairs }
    ensures cause { HasVolumeCause (D.shown disk.old).faults (D.shown disk.new).faults result }
    ensures write_cause { HasVolumeWriteCause (D.shown disk.old).write_faults (D.shown disk.new).write_faults result }
{
    let blocks = pool.found.blocks;
    let committed = *commits;
    match admit(
        volumes, blocks, committed, source, snapshot, name, size, kind,
    ) {
        Ok(admitted) => {
            let slot = admitted.slot;
            make(volumes, pool, disk, commits, name, size, kind, admitted)?;
            Ok(slot)
        }
        Err(refusal) => Err(VolumeFault::Refused(refusal)),
    }
}

/// Makes a mirror where it was admitted: each block under a number of the snapshot's map is copied to a free block, with one write at once, under
/// its VVBN, with each place in it unknown. Neither the root on the disk holds such a block, nor is it kept to be written by the next point. The
/// label and the blocks of the active map are placed by the next consistency point.
///
/// `admitted` is what `admit` handed out for this name, size and kind. A consistency point may lie between the two calls, and nothing else that
/// changes the volumes. So nothing is refused here. `commits` is what all volumes commit together, in blocks, before the call and behind it.
///
/// # Errors
/// `DiskFault` only where a disk call failed. `Damaged` as `copy_into` says it: never where what is copied is whole and as many blocks are free.
/// `Memory` where memory ran out. The volumes, the containers and the map of free blocks are as before then, and no block that isn't free was
/// written.
///
/// Costs a read, a look-up and a write for each number of the snapshot's map. Takes memory for the entries of the new container, for the bits of
/// its map, and for a bit for each place; nothing of a block stays in memory.
#[tactic(auto, using(crate::proofs::Made::leaves_still, crate::proofs::Made::leaves_put, fv_copies::proofs::Leaving::leaves_none))]
pub fn make<D: Disk>(
    volumes: &mut Volumes,
    pool: &mut Pool,
    disk: &mut D,
    commits: &mut u64,
    name: &Name,
    size: u32,
    kind: Kind,
    admitted: Admitted,
) -> Result<(), BlockFault>
    requires each { (s : ℕ) → IfSome (state_at volumes.old s) (IsLabelled s) }
    requires admitted { CanMake volumes.old pool.old.found.blocks name.now size kind admitted }
    requires sum { commits.old ≡ sum_of volumes.old }
    requires stands { StandsOn (D.shown disk.old) pool.old.store.pairs }
    ensures mirrored { OnOk result (IsMirrored (D.shown disk.old) volumes.old pool.old name.now size kind admitted (D.shown disk.new) volumes.new pool.new) }
    ensures enough { CanCopy (D.shown disk.old) volumes.old pool.old admitted → IfErr result IsUndamaged }
    ensures same { OnErr result (IsUnmade volumes.old pool.old volumes.new pool.new) }
    ensures leaves { LeavesOthers (D.shown disk.old) pool.old (D.shown disk.new) pool.new }
    ensures sum { commits.new ≡ sum_of volumes.new }
    ensures stands { StandsOn (D.shown disk.new) pool.new.store.pairs }
    ensures cause { HasBlockCause (D.shown disk.old).faults (D.shown disk.new).faults result }
    ensures write_cause { HasWriteCause (D.shown disk.old).write_faults (D.shown disk.new).write_faults result }
{
    let Admitted {
        slot,
        span,
        source,
        count,
    } = admitted;
    let alloc = volumes.alloc();
    let state = volume_in(volumes, source.parent);
    let map = map_in(state, source.slot);
    let home = Home {
        slot: source.parent,
        label: state.label_place(),
    };
    let mirror = VolumeState::mirror_of(alloc, slot, name, size, kind, span, source, count, state)?;
    let mut landing = Landing::new(alloc, entry_count(span))?;
    copy_into(pool, disk, &home, map, &mut landing)?;
    volumes.put_with(pool, commits, mirror, landing.into_container(), None);
    Ok(())
}

/// The volume of a slot, which is there.
fn volume_in(volumes: &Volumes, slot: u8) -> &VolumeState
    requires slot { slot < slot_count }
    requires there { is_some (state_at volumes.now slot) ≡ true }
    ensures { state_at volumes.now slot ≡ Some result.now }
{
    match volumes.get(slot) {
        Some(state) => state,
        None => unreachable!(),
    }
}

/// The numbers of a map slot of a volume, which is used.
fn map_in(state: &VolumeState, slot: MapSlot) -> &BitMap
    requires slot { slot < map_slot_count }
    requires used { is_some (slot_at state.now.map slot) ≡ true }
    ensures bits { slot_at state.entry.now.map slot ≡ Some result.now }
    ensures whole { IsVolume state.entry.now.map }
{
    match state.map.snapshot(slot) {
        Some(map) => map,
        None => unreachable!(),
    }
}
