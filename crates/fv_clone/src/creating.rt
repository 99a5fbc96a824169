//! Making a clone.

ghost use Rattle.std.specs.Prelude.{◌≡◌, ◌<◌, ◌≤◌, ◌+◌, ℕ, IfErr, IfOk, IfSome, OnErr, OnOk};
ghost use Rattle.fv_root.specs.Formatted.{IsSize};
ghost use Rattle.fv_volume.specs.Files.{IsLabelled};
ghost use Rattle.fv_volume.specs.Slots.{sum_of};
ghost use Rattle.fv_volume.specs.States.{state_at};
ghost use Rattle.fv_clone.specs.Admitting.{CanMake};
ghost use Rattle.fv_clone.specs.Creating.{Creates, IsCloned, IsCreateFault};

use crate::admitting::{Admitted, admit};
use fv_model::{Kind, Name};
use fv_volume::{Pool, VolumeFault, VolumeState};
use fv_volumes::Volumes;
use std::alloc::AllocError;

/// Makes a clone of a snapshot of the volume `parent`, where it isn't refused, and answers its slot: `admit`, and then `make`.
///
/// `commits` is what all volumes commit together, in blocks, before the call and behind it.
///
/// # Errors
/// `Refused` as `admit` refuses, and `Memory` where memory ran out; nothing changes then. There is no other fault.
///
/// The disk isn't called. Costs what both cost.
pub fn create(
    volumes: &mut Volumes,
    pool: &mut Pool,
    commits: &mut u64,
    parent: &Name,
    snapshot: &Name,
    name: &Name,
    size: u32,
    kind: Kind,
) -> Result<u8, VolumeFault>
    requires each { (s : ℕ) → IfSome (state_at volumes.old s) (IsLabelled s) }
    requires blocks { IsSize pool.old.found.blocks }
    requires sum { commits.old ≡ sum_of volumes.old }
    ensures creates { IfOk result (Creates volumes.old pool.old parent.now snapshot.now name.now size kind volumes.new pool.new) }
    ensures fails { IfErr result (IsCreateFault volumes.old pool.old.found.blocks parent.now snapshot.now name.now size kind) }
    ensures same { OnErr result ((volumes.new ≡ volumes.old) × (pool.new ≡ pool.old)) }
    ensures sum { commits.new ≡ sum_of volumes.new }
{
    let blocks = pool.found.blocks;
    let committed = *commits;
    match admit(
        volumes, blocks, committed, parent, snapshot, name, size, kind,
    ) {
        Ok(admitted) => {
            let slot = admitted.slot;
            match make(volumes, pool, commits, name, size, kind, admitted) {
                Ok(()) => Ok(slot),
                Err(_) => Err(VolumeFault::Memory),
            }
        }
        Err(refusal) => Err(VolumeFault::Refused(refusal)),
    }
}

/// Makes a clone where it was admitted: in memory, with a container of holes. Its label and the blocks of its active map are placed by the next
/// consistency point; its table's blocks are its parent's.
///
/// `admitted` is what `admit` handed out for this name, size and kind. A consistency point may lie between the two calls, and nothing else that
/// changes the volumes: `CanMake` speaks of what a point keeps. So nothing is refused here. The one error is want of memory; nothing changes then. `commits` is what all volumes commit
/// together, in blocks, before the call and behind it.
///
/// The disk isn't called. Costs a step for each word of 64 numbers of the span and for each region of the container, whatever the number of
/// files, and takes memory for the bits of two maps and of their union, and for an empty container.
pub fn make(
    volumes: &mut Volumes,
    pool: &mut Pool,
    commits: &mut u64,
    name: &Name,
    size: u32,
    kind: Kind,
    admitted: Admitted,
) -> Result<(), AllocError>
    requires each { (s : ℕ) → IfSome (state_at volumes.old s) (IsLabelled s) }
    requires admitted { CanMake volumes.old pool.old.found.blocks name.now size kind admitted }
    requires sum { commits.old ≡ sum_of volumes.old }
    ensures cloned { OnOk result (IsCloned volumes.old pool.old name.now size kind admitted volumes.new pool.new) }
    ensures same { OnErr result ((volumes.new ≡ volumes.old) × (pool.new ≡ pool.old)) }
    ensures sum { commits.new ≡ sum_of volumes.new }
{
    let Admitted { slot, span, base } = admitted;
    let home = base.parent;
    let alloc = volumes.alloc();
    let Some(parent) = volumes.get(home) else {
        return Ok(());
    };
    let state = VolumeState::clone_of(alloc, slot, name, size, kind, span, base, parent)?;
    volumes.put(pool, commits, state, Some(home))
}
