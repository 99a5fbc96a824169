//! What a consistency point does before it writes anything: what it reads, and what takes memory.

ghost use Rattle.std.specs.Prelude.{◌≡◌, ◌≢◌, ◌≤◌, ◌<◌, ◌||◌, ℕ, true, false, get_or, length, IfErr, IfSome, IsTrue, OnOk};
ghost use Rattle.fv_disk.specs.DiskCalls.{OnlyReads};
ghost use Rattle.fv_disk.specs.Faults.{HasBlockCause};
ghost use Rattle.fv_store.specs.Held.{StandsOn};
ghost use Rattle.fv_root.specs.Finding.{IsInRange};
ghost use Rattle.fv_aggmap.specs.Space.{free_blocks};
ghost use Rattle.fv_image.specs.Containers.{level_width};
ghost use Rattle.fv_image.specs.Views.{entry_count};
ghost use Rattle.fv_container.specs.Chains.{KeepsMaps, TellsEntries, container_at, paged_at, slot_count};
ghost use Rattle.fv_container.specs.Loading.{KeepsMap};
ghost use Rattle.fv_container.specs.Seeing.{IsSomeFault};
ghost use Rattle.fv_container.specs.Clean.{IsCleanOn};
ghost use Rattle.fv_delay.specs.ByThreshold.{AreTakenHere, taken_in};
ghost use Rattle.fv_delay.specs.Delay.{AreKnown, AreSure};
ghost use Rattle.fv_delay.specs.Holding.{held_by};
ghost use Rattle.fv_pool.specs.BlocksOver.{IsHoldFault, LoadsPool};
ghost use Rattle.fv_volume.specs.Files.{IsLabelled};
ghost use Rattle.fv_volume.specs.Loading.{Houses};
ghost use Rattle.fv_volume.specs.States.{state_at};
ghost use Rattle.fv_volume.specs.Writing.{HasMapLeaves};
ghost use Rattle.fv_volumes.specs.Housed.{AreHoused};
ghost use Rattle.fv_cp.specs.Choosing.{asked_marked, holdings};
ghost use Rattle.fv_cp.specs.Course.{AreHereIn, HaveHere};
ghost use Rattle.fv_cp.specs.Planning.{AreKnownAmong, AreOthersLeft, AreSlotsKnown, HasLeavesAt, HaveLeaves, IsSlotKnown, Plans, is_counted, is_set, taken};
ghost use Rattle.fv_cp.specs.Points.{LacksPoint};

use crate::asking::blocks_asked;
use crate::fault::CpFault;
use crate::planning::{Plan, choose};
use fv_codec::SLOTS;
use fv_container::{Container, Containers};
use fv_delay::{Threshold, mark_taken};
use fv_disk::{BlockFault, Disk};
use fv_root::root_place;
use fv_store::Store;
use fv_volume::{Pool, VolumeState};
use fv_volumes::{Volumes, mark_maps};

/// As many regions as the largest container has.
const REGIONS: usize = 4100;

/// Plans a consistency point, and holds in memory what it needs: after `Ok` `consistency_point` reads nothing and needs no memory.
///
/// It plans to reclaim the regions with 64 or more delayed entries, and then those with most while the space rule lacks blocks for what is
/// used, delayed and wanted; a volume with such a region is written, too. Where with these the volumes ask for more blocks than are free
/// it plans to reclaim none, and still marks each volume with delayed entries. `delays` says by slot of which volumes an entry may be
/// delayed though they haven't changed, and `want` is the room in blocks that the event needs which asked for the point.
///
/// In every outcome the volumes are as they were, and so is all that is in memory of them but leaves of containers, and which entries are
/// known to be holes.
///
/// # Errors
/// `Damaged` comes only where fewer blocks are free than the volumes ask for that changed: at the place of the root that counts, with both
/// numbers; or where a leaf of a container doesn't stand where it has to. `DiskFault` comes only where a read failed in this call, and
/// `Memory` where there was none for a leaf.
///
/// Costs a read for each leaf of which it isn't known yet which entries are holes, of each volume that changed or of which `delays` says
/// that an entry may be delayed, and for each that is changed and isn't in memory; and what `table_of` of `fv_delay` costs for these volumes,
/// so again for each volume of which a region is chosen.
pub fn prepare<D: Disk>(
    volumes: &Volumes,
    pool: &mut Pool,
    disk: &mut D,
    delays: &[bool; 64],
    want: u64,
    plan: &mut Plan,
) -> Result<(), CpFault>
    requires range { IsInRange pool.old.found }
    requires housed { AreHoused pool.old.containers volumes.now }
    requires stands { StandsOn (D.shown disk.old) pool.old.store.pairs }
    ensures loads { LoadsPool (D.shown disk.old) pool.old pool.new }
    ensures plans { TellsEntries (D.shown disk.old) pool.old.containers → OnOk result (Plans pool.old volumes.now want delays.now plan.new) }
    ensures room { OnOk result (asked_marked (is_set plan.new.due) volumes.now ≤ free_blocks pool.old.map) }
    ensures leaves { OnOk result (HaveLeaves plan.new pool.new.containers volumes.now) }
    ensures here { TellsEntries (D.shown disk.old) pool.old.containers → OnOk result (HaveHere (taken plan.new (holdings pool.new.containers volumes.now)) pool.new.containers) }
    ensures lacks { IfErr result (LacksPoint (D.shown disk.old) pool.old volumes.now) }
    ensures stands { StandsOn (D.shown disk.new) pool.new.store.pairs }
    ensures only_reads { OnlyReads (D.shown disk.old) (D.shown disk.new) }
    ensures cause { HasBlockCause (D.shown disk.old).faults (D.shown disk.new).faults result }
{
    learn(volumes, pool, disk, delays)?;
    choose(volumes, pool, delays, want, plan);
    let asked = blocks_asked(volumes, &plan.due);
    let free = u64::from(pool.map.free_count());
    if free < asked {
        return Err(CpFault::Damaged {
            at: root_place(pool.found.slot),
            want: asked,
            found: free,
        });
    }
    load(volumes, pool, disk, plan)
}

/// Learns of the volumes of all slots that changed or may have delayed entries which entries of their containers are holes. Those that changed
/// come last: the next changes need their leaves, so these are the ones that stay in the cache.
fn learn<D: Disk>(
    volumes: &Volumes,
    pool: &mut Pool,
    disk: &mut D,
    delays: &[bool; 64],
) -> Result<(), BlockFault>
    requires stands { StandsOn (D.shown disk.old) pool.old.store.pairs }
    ensures loads { LoadsPool (D.shown disk.old) pool.old pool.new }
    ensures known { OnOk result (AreSlotsKnown pool.new.containers volumes.now delays.now) }
    ensures fault { IfErr result (IsHoldFault (D.shown disk.old) pool.old.containers) }
    ensures stands { StandsOn (D.shown disk.new) pool.new.store.pairs }
    ensures only_reads { OnlyReads (D.shown disk.old) (D.shown disk.new) }
    ensures cause { HasBlockCause (D.shown disk.old).faults (D.shown disk.new).faults result }
{
    learn_among(volumes, pool, disk, delays, false)?;
    learn_among(volumes, pool, disk, delays, true)
}

/// Learns it of those among them that changed, or of the others.
fn learn_among<D: Disk>(
    volumes: &Volumes,
    pool: &mut Pool,
    disk: &mut D,
    delays: &[bool; 64],
    changed: bool,
) -> Result<(), BlockFault>
    requires stands { StandsOn (D.shown disk.old) pool.old.store.pairs }
    ensures loads { LoadsPool (D.shown disk.old) pool.old pool.new }
    ensures known { OnOk result (AreKnownAmong changed pool.new.containers volumes.now delays.now) }
    ensures others { AreOthersLeft changed volumes.now pool.old.containers pool.new.containers }
    ensures fault { IfErr result (IsHoldFault (D.shown disk.old) pool.old.containers) }
    ensures stands { StandsOn (D.shown disk.new) pool.new.store.pairs }
    ensures only_reads { OnlyReads (D.shown disk.old) (D.shown disk.new) }
    ensures cause { HasBlockCause (D.shown disk.old).faults (D.shown disk.new).faults result }
{
    for slot in 0..SLOTS {
        let may_delay = delays[slot as usize];
        if has_changed(volumes, slot) != changed {
            continue;
        }
        learn_slot(
            volumes,
            &mut pool.containers,
            &mut pool.store,
            disk,
            slot,
            may_delay,
        )?;
    }
    Ok(())
}

/// Whether a slot has a volume that changed.
fn has_changed(volumes: &Volumes, slot: u8) -> bool
    requires { slot < slot_count }
    ensures { result ≡ is_counted false (state_at volumes.now slot) }
{
    match volumes.get(slot) {
        Some(state) => state.is_changed(),
        None => false,
    }
}

/// Learns it of the volume of a slot, if it changed or may have delayed entries.
fn learn_slot<D: Disk>(
    volumes: &Volumes,
    containers: &mut Containers,
    store: &mut Store,
    disk: &mut D,
    slot: u8,
    may_delay: bool,
) -> Result<(), BlockFault>
    requires slot { slot < slot_count }
    requires stands { StandsOn (D.shown disk.old) store.old.pairs }
    ensures maps { KeepsMaps (D.shown disk.old) containers.old containers.new }
    ensures others { (s : ℕ) → s ≢ slot → paged_at containers.new s ≡ paged_at containers.old s }
    ensures known { OnOk result (IsSlotKnown containers.new volumes.now slot may_delay) }
    ensures fault { IfErr result (IsHoldFault (D.shown disk.old) containers.old) }
    ensures stands { StandsOn (D.shown disk.new) store.new.pairs }
    ensures only_reads { OnlyReads (D.shown disk.old) (D.shown disk.new) }
    ensures cause { HasBlockCause (D.shown disk.old).faults (D.shown disk.new).faults result }
{
    let Some(state) = volumes.get(slot) else {
        return Ok(());
    };
    if !may_delay && !state.is_changed() {
        return Ok(());
    }
    let Some(container) = containers.get_mut(slot) else {
        return Ok(());
    };
    container.learn_all(store, disk)
}

/// Holds in memory what the writing of all volumes by a plan needs of their containers.
fn load<D: Disk>(
    volumes: &Volumes,
    pool: &mut Pool,
    disk: &mut D,
    plan: &Plan,
) -> Result<(), BlockFault>
    requires housed { AreHoused pool.old.containers volumes.now }
    requires stands { StandsOn (D.shown disk.old) pool.old.store.pairs }
    ensures loads { LoadsPool (D.shown disk.old) pool.old pool.new }
    ensures leaves { OnOk result (HaveLeaves plan.now pool.new.containers volumes.now) }
    ensures here { TellsEntries (D.shown disk.old) pool.old.containers → OnOk result (HaveHere (taken plan.now (holdings pool.new.containers volumes.now)) pool.new.containers) }
    ensures fault { IfErr result (IsHoldFault (D.shown disk.old) pool.old.containers) }
    ensures stands { StandsOn (D.shown disk.new) pool.new.store.pairs }
    ensures only_reads { OnlyReads (D.shown disk.old) (D.shown disk.new) }
    ensures cause { HasBlockCause (D.shown disk.old).faults (D.shown disk.new).faults result }
{
    for slot in 0..SLOTS {
        load_slot(
            volumes,
            plan,
            &mut pool.containers,
            &mut pool.store,
            disk,
            slot,
        )?;
    }
    Ok(())
}

/// Holds it for the volume of a slot, if it changed or is due.
fn load_slot<D: Disk>(
    volumes: &Volumes,
    plan: &Plan,
    containers: &mut Containers,
    store: &mut Store,
    disk: &mut D,
    slot: u8,
) -> Result<(), BlockFault>
    requires slot { slot < slot_count }
    requires labelled { IfSome (state_at volumes.now slot) (IsLabelled slot) }
    requires housed { Houses (state_at volumes.now slot) (container_at containers.old slot) }
    requires stands { StandsOn (D.shown disk.old) store.old.pairs }
    ensures maps { KeepsMaps (D.shown disk.old) containers.old containers.new }
    ensures others { (s : ℕ) → s ≢ slot → paged_at containers.new s ≡ paged_at containers.old s }
    ensures leaves { OnOk result (HasLeavesAt plan.now slot (state_at volumes.now slot) (paged_at containers.new slot)) }
    ensures here { TellsEntries (D.shown disk.old) containers.old → OnOk result (IfSome (paged_at containers.new slot) (AreHereIn (taken plan.now (holdings containers.new volumes.now) slot))) }
    ensures fault { IfErr result (IsHoldFault (D.shown disk.old) containers.old) }
    ensures stands { StandsOn (D.shown disk.new) store.new.pairs }
    ensures only_reads { OnlyReads (D.shown disk.old) (D.shown disk.new) }
    ensures cause { HasBlockCause (D.shown disk.old).faults (D.shown disk.new).faults result }
{
    let Some(state) = volumes.get(slot) else {
        return Ok(());
    };
    let Some(container) = containers.get_mut(slot) else {
        return Ok(());
    };
    let at = slot as usize;
    load_volume(state, plan.due[at], plan.starts[at], container, store, disk)
}

/// Holds what the writing of a volume needs of its container, whose regions are reclaimed that a threshold takes where it is due.
fn load_volume<D: Disk>(
    state: &VolumeState,
    due: bool,
    start: Threshold,
    container: &mut Container,
    store: &mut Store,
    disk: &mut D,
) -> Result<(), BlockFault>
    requires state { IsLabelled state.now.slot state.now }
    requires entries { length container.old.map.entries ≡ entry_count state.now.span }
    requires stands { StandsOn (D.shown disk.old) store.old.pairs }
    ensures kept { KeepsMap (D.shown disk.old) container.old container.new }
    ensures known { OnOk result (due ≡ true → AreKnown container.new) }
    ensures taken { IsTrue (D.shown disk.old).tells → IsCleanOn (D.shown disk.old).reads container.old
        → OnOk result (due ≡ true → AreTakenHere start state.entry.now.map container.new) }
    ensures maps { OnOk result ((due || state.entry.now.changed) ≡ true → HasMapLeaves state.entry.now container.new) }
    ensures fault { IsTrue (D.shown disk.old).tells
        → IfErr result (IsSomeFault (D.shown disk.old).reads container.old.map.tree (level_width (length container.old.map.entries) 0)) }
    ensures stands { StandsOn (D.shown disk.new) store.new.pairs }
    ensures only_reads { OnlyReads (D.shown disk.old) (D.shown disk.new) }
    ensures cause { HasBlockCause (D.shown disk.old).faults (D.shown disk.new).faults result }
{
    if !due && !state.is_changed() {
        return Ok(());
    }
    let mut regions = [false; REGIONS];
    mark_due(state, due, start, container, store, disk, &mut regions)?;
    mark_maps(state, &mut regions);
    container.load_all(store, disk, &regions)
}

/// Where a volume is due, learns which entries of its container are holes, and marks the regions that a threshold takes.
fn mark_due<D: Disk>(
    state: &VolumeState,
    due: bool,
    start: Threshold,
    container: &mut Container,
    store: &mut Store,
    disk: &mut D,
    regions: &mut [bool],
) -> Result<(), BlockFault>
    requires state { IsLabelled state.now.slot state.now }
    requires entries { length container.old.map.entries ≡ entry_count state.now.span }
    requires long { level_width (length container.old.map.entries) 0 ≤ length regions.old }
    requires stands { StandsOn (D.shown disk.old) store.old.pairs }
    ensures kept { KeepsMap (D.shown disk.old) container.old container.new }
    ensures long { length regions.new ≡ length regions.old }
    ensures known { OnOk result (due ≡ true → AreKnown container.new) }
    ensures marked { OnOk result (due ≡ true → AreSure container.new → (k : ℕ) → k < level_width (length container.new.map.entries) 0
        → taken_in start (held_by state.entry.now.map container.new.map) k ≡ true → get_or regions.new k false ≡ true) }
    ensures others { (k : ℕ) → level_width (length container.old.map.entries) 0 ≤ k → get_or regions.new k false ≡ get_or regions.old k false }
    ensures fault { IsTrue (D.shown disk.old).tells
        → IfErr result (IsSomeFault (D.shown disk.old).reads container.old.map.tree (level_width (length container.old.map.entries) 0)) }
    ensures stands { StandsOn (D.shown disk.new) store.new.pairs }
    ensures only_reads { OnlyReads (D.shown disk.old) (D.shown disk.new) }
    ensures cause { HasBlockCause (D.shown disk.old).faults (D.shown disk.new).faults result }
{
    if !due {
        return Ok(());
    }
    container.learn_all(store, disk)?;
    mark_taken(start, container, &state.map, regions);
    Ok(())
}
