//! Moving a block to another place under its number.

ghost use Rattle.std.specs.Prelude.{◌≡◌, ◌<◌, ◌≤◌, ◌+◌, length, IfOk, IfErr, OnOk, OnErr};
ghost use Rattle.fv_aggmap.specs.Space.{blocks_of, free_blocks};
ghost use Rattle.fv_container.specs.Chains.{container_at, slot_count};
ghost use Rattle.fv_disk.specs.DiskCalls.{OnlyReads};
ghost use Rattle.fv_disk.specs.Faults.{HasBlockCause};
ghost use Rattle.fv_image.specs.Layout.{root_place};
ghost use Rattle.fv_store.specs.Held.{StandsOn};
ghost use Rattle.fv_tree.specs.Sources.{IsKind};
ghost use Rattle.fv_pool.specs.BlocksOver.{LoadsPool, entries_in};
ghost use Rattle.fv_pool.specs.Moving.{LacksFreeBlock, LacksMove, MovesBlock, TakesPlace};

use crate::blocks::{Home, give_back, lacking, prepare_place, set_entry};
use crate::pool::Pool;
use fv_aggmap::AggMap;
use fv_container::Entry;
use fv_disk::{Block, BlockFault, Disk};
use fv_root::root_place;
use fv_tree::Placed;

/// Gives a block of a kind another place under its VVBN: a block that neither root holds is taken, the volume's own entry is set to it, and
/// the block is kept there until it is written. The block of the entry that the volume's own container had there is given back after the
/// next commit; one of a volume that it stands on stays. The VVBN stays taken in the maps.
///
/// # Errors
///
/// `Damaged` only where no block is free, at the place of the root, where it wants 1 and finds 0; or where the leaf of the container that has
/// the VVBN doesn't stand where it has to. `DiskFault` only where a read failed in this call. `Memory` where there is no memory to keep the
/// block or the leaf. Nothing but what is in memory of leaves changes then.
///
/// Costs a step for each word of 64 blocks that is passed, and a read where the leaf isn't in memory.
pub fn move_block<D: Disk>(
    pool: &mut Pool,
    disk: &mut D,
    home: &Home,
    vvbn: u32,
    kind: u8,
    block: &Block,
) -> Result<(), BlockFault>
    requires slot { home.now.slot < slot_count }
    requires kind { IsKind kind }
    requires within { vvbn < length (entries_in (container_at pool.old.containers home.now.slot)) }
    requires stands { StandsOn (D.shown disk.old) pool.old.store.pairs }
    ensures moved { OnOk result (MovesBlock (D.shown disk.old) pool.old home.now.slot vvbn kind block.now pool.new) }
    ensures failed { OnErr result (LoadsPool (D.shown disk.old) pool.old pool.new) }
    ensures fault { IfErr result (LacksMove (D.shown disk.old) pool.old.containers pool.old.map (root_place pool.old.found.slot)) }
    ensures leaves { OnOk result (free_blocks pool.old.map ≤ free_blocks pool.new.map + 1) }
    ensures stands { StandsOn (D.shown disk.new) pool.new.store.pairs }
    ensures only_reads { OnlyReads (D.shown disk.old) (D.shown disk.new) }
    ensures cause { HasBlockCause (D.shown disk.old).faults (D.shown disk.new).faults result }
{
    let root = root_place(pool.found.slot);
    let pvbn = take_place(&mut pool.map, root)?;
    let placed = Placed { vvbn, pvbn };
    if let Err(fault) = prepare_place(pool, disk, home.slot, &placed, block) {
        pool.map.release_after_commit(pvbn);
        return Err(fault);
    }
    let entry = Entry { pvbn, kind };
    let before = set_entry(&mut pool.containers, home.slot, vvbn, entry);
    give_back(&mut pool.map, before);
    Ok(())
}

/// Takes a free block.
fn take_place(space: &mut AggMap, root: u64) -> Result<u32, BlockFault>
    ensures taken { IfOk result (λ place. TakesPlace space.old place space.new) }
    ensures within { IfOk result (λ place. place < blocks_of space.new) }
    ensures failed { OnErr result (space.new ≡ space.old) }
    ensures fault { IfErr result (LacksFreeBlock space.old root) }
    ensures leaves { OnOk result (free_blocks space.old ≤ free_blocks space.new + 1) }
{
    match space.take_free() {
        Some(place) => Ok(place),
        None => Err(lacking(root)),
    }
}
