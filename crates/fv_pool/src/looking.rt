//! Where the block under a VVBN lies, for calls that don't count their look-ups.

ghost use Rattle.std.specs.Prelude.{◌≡◌, ◌<◌, ◌≤◌, true, Some, IfOk, IfErr, IfSome, OnOk};
ghost use Rattle.fv_codec.specs.Blocks.{last_place};
ghost use Rattle.fv_container.specs.Chains.{slot_count};
ghost use Rattle.fv_container.specs.Mapped.{IsEntry, IsHeld};
ghost use Rattle.fv_disk.specs.DiskCalls.{OnlyReads};
ghost use Rattle.fv_disk.specs.Faults.{HasBlockCause};
ghost use Rattle.fv_store.specs.Held.{StandsOn};
ghost use Rattle.fv_volmap.specs.Slots.{taken_in};
ghost use Rattle.fv_pool.specs.BlocksOver.{LeavesPool, TellsEntries, IsEntryFault, held_entry};
ghost use Rattle.fv_pool.specs.Moving.{LacksHeld};

use crate::blocks::{Home, LAST, is_taken};
use crate::pool::Pool;
use fv_container::Entry;
use fv_disk::{BlockFault, Disk};
use fv_volmap::VolMap;

/// The entry of a VVBN that is held: the first along the chain of the volume. No step is counted.
///
/// # Errors
///
/// `Damaged` only where the VVBN isn't held or its entry names no place: the place of the volume's label, 1 and 0; or where a leaf of a
/// container doesn't stand where it has to. `DiskFault` only where a read failed in this call. `Memory` never comes. Costs a leaf of a
/// container for each volume of the chain at most.
pub fn find_held<D: Disk>(
    pool: &mut Pool,
    disk: &mut D,
    map: &VolMap,
    home: &Home,
    vvbn: u64,
) -> Result<Entry, BlockFault>
    requires slot { home.now.slot < slot_count }
    requires stands { StandsOn (D.shown disk.old) pool.old.store.pairs }
    ensures entry { TellsEntries (D.shown disk.old) pool.old.containers → IfOk result (λ e. held_entry map.now pool.old.containers home.now.slot vvbn ≡ Some e) }
    ensures range { IfOk result IsEntry }
    ensures low { OnOk result (vvbn ≤ last_place) }
    ensures taken { OnOk result (taken_in map.now.slots vvbn ≡ true) }
    ensures fault { IfErr result (LacksHeld (D.shown disk.old) pool.old.containers (held_entry map.now pool.old.containers home.now.slot vvbn) home.now.label) }
    ensures leaves { LeavesPool pool.old pool.new }
    ensures stands { StandsOn (D.shown disk.new) pool.new.store.pairs }
    ensures only_reads { OnlyReads (D.shown disk.old) (D.shown disk.new) }
    ensures cause { HasBlockCause (D.shown disk.old).faults (D.shown disk.new).faults result }
{
    match entry_of(pool, disk, map, home.slot, vvbn)? {
        Some(entry) if entry.pvbn != 0 => Ok(entry),
        _ => Err(BlockFault::Damaged {
            at: u64::from(home.label),
            want: 1,
            found: 0,
        }),
    }
}

/// The entry of a VVBN; `None` exactly where it isn't held.
#[tactic(auto, unfolding(crate::specs::BlocksOver::held_entry), using(crate::proofs::Lent::of_found, crate::proofs::Setting::entry_fault))]
fn entry_of<D: Disk>(
    pool: &mut Pool,
    disk: &mut D,
    map: &VolMap,
    slot: u8,
    vvbn: u64,
) -> Result<Option<Entry>, BlockFault>
    requires slot { slot < slot_count }
    requires stands { StandsOn (D.shown disk.old) pool.old.store.pairs }
    ensures entry { TellsEntries (D.shown disk.old) pool.old.containers → IfOk result (λ entry. entry ≡ held_entry map.now pool.old.containers slot vvbn) }
    ensures held { IfOk result (λ entry. IfSome entry IsHeld) }
    ensures low { IfOk result (λ entry. IfSome entry (λ e. vvbn ≤ last_place)) }
    ensures taken { IfOk result (λ entry. IfSome entry (λ e. taken_in map.now.slots vvbn ≡ true)) }
    ensures fault { IfErr result (IsEntryFault (D.shown disk.old) pool.old.containers) }
    ensures leaves { LeavesPool pool.old pool.new }
    ensures stands { StandsOn (D.shown disk.new) pool.new.store.pairs }
    ensures only_reads { OnlyReads (D.shown disk.old) (D.shown disk.new) }
    ensures cause { HasBlockCause (D.shown disk.old).faults (D.shown disk.new).faults result }
{
    if vvbn > LAST || !is_taken(map, vvbn as u32) {
        return Ok(None);
    }
    pool.containers
        .first_entry(&mut pool.store, disk, slot, vvbn as u32)
}
