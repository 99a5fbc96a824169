//! One step: the next block is cleaned, or the root pointers of the label get their places.

ghost use Rattle.std.specs.Prelude.{◌≡◌, ◌<◌, true, IfErr, IfOk, OnOk, OnErr, IfSome, map};
ghost use Rattle.std.specs.List.{list_any};
ghost use Rattle.fv_image.specs.HintRules.{is_unknown};
ghost use Rattle.fv_image.specs.Mapped.{AreInSlots};
ghost use Rattle.fv_container.specs.Chains.{slot_count, TellsEntries};
ghost use Rattle.fv_disk.specs.DiskCalls.{OnlyReads};
ghost use Rattle.fv_disk.specs.Faults.{HasBlockCause};
ghost use Rattle.fv_pool.specs.BlocksOver.{LeavesPool, LoadsPool};
ghost use Rattle.fv_store.specs.Held.{StandsOn};
ghost use Rattle.fv_volume.specs.OneVolume.{IsReady};
ghost use Rattle.fv_volume.specs.States.{head_in};
ghost use Rattle.fv_cleaner.specs.Searching.{CanFollow, IsFoundIn, IsUndamaged, LeadBelow, LeadsBelow, lies_in};
ghost use Rattle.fv_cleaner.specs.Stepping.{ArePlacesOf, CanClean, CleansVolume, IsPlaceOf, MovesOutside, MovesUnled, PlacesRoots, SearchesRoot, SearchesRoots, root_of_snap, roots_of};

use crate::filling::fill_all;
use crate::searching::{Found, find_under};
use fv_codec::Pointer;
use fv_disk::{Block, BlockFault, Disk, ZERO};
use fv_places::is_unknown;
use fv_pool::{Home, Pool, find_held, known_maps, move_block};
use fv_volmap::{STORED_SLOTS, VolMap};
use fv_volume::{Snap, VolumeState};

/// Takes a clean step of a volume that isn't being split, and of which no file is in memory.
#[tactic(auto, using(crate::proofs::Lying::leaves_then, fv_disk::proofs::Resting::reads_then, crate::proofs::Lying::leaves_itself, crate::proofs::Lying::only_itself))]
pub(crate) fn clean_volume<D: Disk>(
    state: &mut VolumeState,
    pool: &mut Pool,
    disk: &mut D,
) -> Result<bool, BlockFault>
    requires ready { IsReady (D.shown disk.old) pool.old state.old }
    ensures cleans { IfOk result (CleansVolume (D.shown disk.old) pool.old state.old pool.new state.new) }
    ensures failed { OnErr result (LoadsPool (D.shown disk.old) pool.old pool.new) }
    ensures failed_state { OnErr result (state.new ≡ state.old) }
    ensures stands { StandsOn (D.shown disk.new) pool.new.store.pairs }
    ensures only_reads { OnlyReads (D.shown disk.old) (D.shown disk.new) }
    ensures cause { HasBlockCause (D.shown disk.old).faults (D.shown disk.new).faults result }
    ensures unled { OnOk result (MovesUnled (D.shown disk.old) pool.old state.old pool.new) }
    ensures outside { OnOk result (MovesOutside (D.shown disk.old) pool.old state.old pool.new) }
    ensures undamaged { CanClean (D.shown disk.old) pool.old state.old → IfErr result IsUndamaged }
{
    known_maps(&state.map);
    let home = Home {
        slot: state.slot,
        label: state.label_place(),
    };
    let mut block = ZERO;
    match find_in(state, pool, disk, &home, &mut block)? {
        Some(found) => {
            fill_all(pool, disk, &state.map, &home, &found.entry, &mut block)?;
            move_block(pool, disk, &home, found.vvbn, found.entry.kind, &block)?;
            state.mark();
            Ok(true)
        }
        None => place_roots(state, pool, disk, &home),
    }
}

/// Searches from each unknown root of a volume, the active table's first, for the block to clean next, and reads it.
#[tactic(auto, using(crate::proofs::Lying::leaves_then, fv_disk::proofs::Resting::reads_then, crate::proofs::Lying::leaves_itself, crate::proofs::Lying::only_itself))]
fn find_in<D: Disk>(
    state: &VolumeState,
    pool: &mut Pool,
    disk: &mut D,
    home: &Home,
    into: &mut Block,
) -> Result<Option<Found>, BlockFault>
    requires slot { home.now.slot < slot_count }
    requires stands { StandsOn (D.shown disk.old) pool.old.store.pairs }
    ensures searches { TellsEntries (D.shown disk.old) pool.old.containers
        → IfOk result (SearchesRoots (lies_in state.entry.now.map pool.old home.now.slot (D.shown disk.old).reads) (roots_of state.entry.now) into.new) }
    ensures found { IfOk result (λ found. IfSome found (λ f. IsFoundIn state.entry.now.map f into.new)) }
    ensures leaves { LeavesPool pool.old pool.new }
    ensures stands { StandsOn (D.shown disk.new) pool.new.store.pairs }
    ensures only_reads { OnlyReads (D.shown disk.old) (D.shown disk.new) }
    ensures cause { HasBlockCause (D.shown disk.old).faults (D.shown disk.new).faults result }
    ensures undamaged { TellsEntries (D.shown disk.old) pool.old.containers → CanFollow (lies_in state.entry.now.map pool.old home.now.slot (D.shown disk.old).reads) → LeadBelow (lies_in state.entry.now.map pool.old home.now.slot (D.shown disk.old).reads) 8 (roots_of state.entry.now) → IfErr result IsUndamaged }
{
    let first = find_from(pool, disk, &state.map, home, &state.active.root, into)?;
    if first.is_some() {
        return Ok(first);
    }
    for snap in state.snapshots.as_slice() {
        let next = find_from(pool, disk, &state.map, home, &snap.table.root, into)?;
        if next.is_some() {
            return Ok(next);
        }
    }
    Ok(None)
}

/// Searches from a root, where its pointer is unknown.
#[tactic(auto, using(crate::proofs::Rooted::root_searched, crate::proofs::Rooted::known_clear, crate::proofs::Lying::leaves_itself, crate::proofs::Lying::only_itself))]
fn find_from<D: Disk>(
    pool: &mut Pool,
    disk: &mut D,
    map: &VolMap,
    home: &Home,
    root: &Pointer,
    into: &mut Block,
) -> Result<Option<Found>, BlockFault>
    requires slot { home.now.slot < slot_count }
    requires stands { StandsOn (D.shown disk.old) pool.old.store.pairs }
    ensures searches { TellsEntries (D.shown disk.old) pool.old.containers
        → IfOk result (SearchesRoot (lies_in map.now pool.old home.now.slot (D.shown disk.old).reads) root.now into.new) }
    ensures found { IfOk result (λ found. IfSome found (λ f. IsFoundIn map.now f into.new)) }
    ensures leaves { LeavesPool pool.old pool.new }
    ensures stands { StandsOn (D.shown disk.new) pool.new.store.pairs }
    ensures only_reads { OnlyReads (D.shown disk.old) (D.shown disk.new) }
    ensures cause { HasBlockCause (D.shown disk.old).faults (D.shown disk.new).faults result }
    ensures undamaged { TellsEntries (D.shown disk.old) pool.old.containers → CanFollow (lies_in map.now pool.old home.now.slot (D.shown disk.old).reads) → (is_unknown root.now ≡ true → LeadsBelow (lies_in map.now pool.old home.now.slot (D.shown disk.old).reads) 8 root.now.vvbn) → IfErr result IsUndamaged }
{
    if is_unknown(root) {
        find_under(pool, disk, map, home, root.vvbn, into)
    } else {
        Ok(None)
    }
}

/// Gives each unknown root pointer of a volume its place, and says whether there was one.
#[tactic(auto, using(crate::proofs::Lying::leaves_then, fv_disk::proofs::Resting::reads_then, crate::proofs::Lying::leaves_itself, crate::proofs::Lying::only_itself))]
fn place_roots<D: Disk>(
    state: &mut VolumeState,
    pool: &mut Pool,
    disk: &mut D,
    home: &Home,
) -> Result<bool, BlockFault>
    requires slot { home.now.slot < slot_count }
    requires slots { AreInSlots (head_in state.old) }
    requires stands { StandsOn (D.shown disk.old) pool.old.store.pairs }
    ensures places { IfOk result (PlacesRoots (TellsEntries (D.shown disk.old) pool.old.containers) (lies_in state.old.map pool.old home.now.slot (D.shown disk.old).reads) state.old state.new) }
    ensures failed { OnErr result (state.new ≡ state.old) }
    ensures leaves { LeavesPool pool.old pool.new }
    ensures stands { StandsOn (D.shown disk.new) pool.new.store.pairs }
    ensures only_reads { OnlyReads (D.shown disk.old) (D.shown disk.new) }
    ensures cause { HasBlockCause (D.shown disk.old).faults (D.shown disk.new).faults result }
    ensures undamaged { TellsEntries (D.shown disk.old) pool.old.containers → LeadBelow (lies_in state.old.map pool.old home.now.slot (D.shown disk.old).reads) 8 (roots_of state.old) → IfErr result IsUndamaged }
{
    if !is_root_unknown(state) {
        return Ok(false);
    }
    let places = find_places(state, pool, disk, home)?;
    state.place_roots(&places);
    Ok(true)
}

/// Whether a root pointer of a volume is unknown.
fn is_root_unknown(state: &VolumeState) -> bool
    ensures { result ≡ list_any is_unknown (roots_of state.entry.now) }
{
    is_unknown(&state.active.root) || is_snap_unknown(state.snapshots.as_slice())
}

fn is_snap_unknown(snaps: &[Snap]) -> bool
    ensures { result ≡ list_any is_unknown (map root_of_snap snaps.entry.now) }
{
    for snap in snaps {
        if is_unknown(&snap.table.root) {
            return true;
        }
    }
    false
}

/// The places of the unknown root pointers by map slot, 0 for the active table's; 0 where the pointer is known.
#[tactic(auto, using(crate::proofs::Lying::leaves_then, fv_disk::proofs::Resting::reads_then, crate::proofs::Lying::leaves_itself, crate::proofs::Lying::only_itself))]
fn find_places<D: Disk>(
    state: &VolumeState,
    pool: &mut Pool,
    disk: &mut D,
    home: &Home,
) -> Result<[u32; STORED_SLOTS], BlockFault>
    requires slot { home.now.slot < slot_count }
    requires slots { AreInSlots (head_in state.now) }
    requires stands { StandsOn (D.shown disk.old) pool.old.store.pairs }
    ensures places { IfOk result (ArePlacesOf (TellsEntries (D.shown disk.old) pool.old.containers) (lies_in state.entry.now.map pool.old home.now.slot (D.shown disk.old).reads) state.entry.now) }
    ensures leaves { LeavesPool pool.old pool.new }
    ensures stands { StandsOn (D.shown disk.new) pool.new.store.pairs }
    ensures only_reads { OnlyReads (D.shown disk.old) (D.shown disk.new) }
    ensures cause { HasBlockCause (D.shown disk.old).faults (D.shown disk.new).faults result }
    ensures undamaged { TellsEntries (D.shown disk.old) pool.old.containers → LeadBelow (lies_in state.entry.now.map pool.old home.now.slot (D.shown disk.old).reads) 8 (roots_of state.entry.now) → IfErr result IsUndamaged }
{
    let mut places = [0; STORED_SLOTS];
    let active = place_of(pool, disk, &state.map, home, &state.active.root)?;
    places[0] = active;
    for snap in state.snapshots.as_slice() {
        let place = place_of(pool, disk, &state.map, home, &snap.table.root)?;
        let at = snap.slot as usize;
        places[at] = place;
    }
    Ok(places)
}

/// The place of an unknown root pointer; 0 for a known one.
#[tactic(auto, using(crate::proofs::Lying::leaves_then, fv_disk::proofs::Resting::reads_then, crate::proofs::Lying::leaves_itself, crate::proofs::Lying::only_itself))]
fn place_of<D: Disk>(
    pool: &mut Pool,
    disk: &mut D,
    map: &VolMap,
    home: &Home,
    root: &Pointer,
) -> Result<u32, BlockFault>
    requires slot { home.now.slot < slot_count }
    requires stands { StandsOn (D.shown disk.old) pool.old.store.pairs }
    ensures place { IfOk result (IsPlaceOf (TellsEntries (D.shown disk.old) pool.old.containers) (lies_in map.now pool.old home.now.slot (D.shown disk.old).reads) root.now) }
    ensures leaves { LeavesPool pool.old pool.new }
    ensures stands { StandsOn (D.shown disk.new) pool.new.store.pairs }
    ensures only_reads { OnlyReads (D.shown disk.old) (D.shown disk.new) }
    ensures cause { HasBlockCause (D.shown disk.old).faults (D.shown disk.new).faults result }
    ensures undamaged { TellsEntries (D.shown disk.old) pool.old.containers → (is_unknown root.now ≡ true → LeadsBelow (lies_in map.now pool.old home.now.slot (D.shown disk.old).reads) 8 root.now.vvbn) → IfErr result IsUndamaged }
{
    if !is_unknown(root) {
        return Ok(0);
    }
    let entry = find_held(pool, disk, map, home, root.vvbn)?;
    Ok(entry.pvbn)
}
