//! The whole of a consistency point.

ghost use Rattle.std.specs.Prelude.{All, ◌≡◌, ◌≤◌, ◌<◌, ◌+◌, ℕ, Bool, List, IsTrue, OnOk, OnErr, IfErr, IfSome, option_copied, length};
ghost use Rattle.std.specs.Option.{option_map};
ghost use Rattle.fv_disk.specs.Crash.{Leaves};
ghost use Rattle.fv_disk.specs.DiskCalls.{Counted};
ghost use Rattle.fv_disk.specs.Sparing.{Spares};
ghost use Rattle.fv_codec.specs.Blocks.{IsRoot};
ghost use Rattle.fv_model.specs.Machines.{Machine};
ghost use Rattle.fv_root.specs.Finding.{IsInRange};
ghost use Rattle.fv_root.specs.Commits.{IsCommitted, IsFoundOn, OldOrNew};
ghost use Rattle.fv_store.specs.Held.{StandsOn};
ghost use Rattle.fv_disk.specs.declared.fault.BlockFault.TheVariants.{DiskFault};
ghost use Rattle.fv_container.specs.Chains.{paged_at, slot_count};
ghost use Rattle.fv_container.specs.Clean.{IsCleanOn};
ghost use Rattle.fv_aggmap.specs.Space.{blocks_of, free_blocks};
ghost use Rattle.fv_volume.specs.States.{state_at, with_state};
ghost use Rattle.fv_volumes.specs.Housed.{AreHoused, settled_as, settled_at};
ghost use Rattle.fv_cp.specs.Lent.{AreKept, FitTogether, IsLent, asked_by, blocks_asked};
ghost use Rattle.fv_cp.specs.Points.{Counts, GoesOn, IsPoint, IsSwitched, OldOrLent};
ghost use Rattle.fv_volume.specs.Writing.{IsTaken, on_disk};
ghost use Rattle.fv_codec.specs.Blocks.{last_place};
ghost use Rattle.fv_cp.specs.Course.{AreHereIn, AreNamedFor, GoesPast, HasCome, HaveHere, label_lent};
ghost use Rattle.fv_cp.specs.Choosing.{CanChoose, asked_marked, asked_with, holdings, regions_chosen};
ghost use Rattle.fv_cp.specs.Planning.{AreCounted, FlagsDelayed, HaveLeaves, HasLeavesAt, LeaveDelays, LeavesDelays, Plans, is_set, taken};

use crate::fault::CpFault;
use crate::planning::Plan;
use crate::reclaiming::{mark, reclaim_due};
use fv_codec::{Root, SLOTS};
use fv_disk::{Disk, Failed};
use fv_root::{commit, first_block, next_found};
use fv_volume::{Pool, VolumeState};
use fv_volumes::{Volumes, write_volume};

/// Writes what changed in the volumes and makes a root count that names it, past the point's last barrier: the kept blocks are written
/// to their places, then each volume that changed or is due by the plan in the order of slots, to blocks that were free, and then the root
/// is committed. The blocks of files stay where they are. A volume without changes isn't written. What changed of files in memory isn't
/// either: `full_point` places it first, and then it waits among the kept blocks. The plan is one that `prepare` made of these volumes,
/// since when neither they nor the pool changed.
///
/// Of the containers it reclaims the regions of the plan. After `Ok` `delays` says by slot of which volumes an entry may be delayed that
/// the new root names. Where no point is done it stays.
///
/// Where the plan is for what is wanted, and there is room for the volumes that changed or have a chosen region, a crash at any moment
/// leaves an image that stands for the machine of before, with each block that the root on the disk holds as it was; or one in which the
/// new root counts and that stands for the machine of the volumes lent. After `Ok` it is the latter, on a settled disk. On any disk
/// another root counts then, in the other slot and one generation on, also where nothing changed. Each slot keeps its parent in the chain
/// of containers. It reads nothing and needs no memory: the cache holds the leaves that are written where it finds some.
///
/// # Errors
/// `DiskFault` comes only where a write or a barrier failed in this call; of what is in memory nothing is said then, of images as above. No
/// other error comes.
///
/// Costs what `reclaim_taken` of `fv_delay` costs for each volume of which a region is reclaimed; a write for each kept block, and for
/// each volume that is written a step for each node of its container, for each entry of a dirty leaf and for each block of its maps, and a
/// write for each of at most as many blocks as it asks for; beside that a commit, a step for each fixed block, and one for each 64 blocks.
pub fn consistency_point<D: Disk>(
    volumes: &mut Volumes,
    pool: &mut Pool,
    disk: &mut D,
    plan: &Plan,
    delays: &mut [bool; 64],
) -> Result<(), CpFault>
    requires stands { StandsOn (D.shown disk.old) pool.old.store.pairs }
    requires found { IsTrue (D.shown disk.old).tells → IsFoundOn (D.shown disk.old) pool.old.found }
    requires fit { FitTogether pool.old volumes.old }
    requires leaves { HaveLeaves plan.now pool.old.containers volumes.old }
    requires room { asked_marked (is_set plan.now.due) volumes.old ≤ free_blocks pool.old.map }
    ensures any_moment { IsTrue (D.shown disk.old).tells → (before : Machine) → IsLent (D.shown disk.old) pool.old volumes.old before → (want : ℕ) (marks : List Bool) → CanChoose (D.shown disk.old) pool.old volumes.old want marks
        → Plans pool.old volumes.old want marks plan.now → HaveHere (taken plan.now (holdings pool.old.containers volumes.old)) pool.old.containers → Leaves (D.shown disk.old) (D.shown disk.new) (OldOrLent (D.shown disk.old) pool.old volumes.old before) }
    ensures point { IsTrue (D.shown disk.old).tells → (before : Machine) → IsLent (D.shown disk.old) pool.old volumes.old before → (want : ℕ) (marks : List Bool) → CanChoose (D.shown disk.old) pool.old volumes.old want marks
        → Plans pool.old volumes.old want marks plan.now → HaveHere (taken plan.now (holdings pool.old.containers volumes.old)) pool.old.containers → OnOk result (IsPoint (D.shown disk.old) pool.old volumes.old want (D.shown disk.new) pool.new volumes.new delays.new) }
    ensures goes_on { OnOk result (GoesOn (D.shown disk.old) pool.old volumes.old (D.shown disk.new) pool.new volumes.new) }
    ensures fault { IfErr result (λ e. e ≡ DiskFault) }
    ensures counts { Counts (D.shown disk.old) (D.shown disk.new) result }
    ensures delays { OnErr result (delays.new ≡ delays.old) }
    ensures flags { IsTrue (D.shown disk.old).tells → (before : Machine) → IsLent (D.shown disk.old) pool.old volumes.old before → (want : ℕ) (marks : List Bool) → Plans pool.old volumes.old want marks plan.now → HaveHere (taken plan.now (holdings pool.old.containers volumes.old)) pool.old.containers → AreCounted pool.old.containers volumes.old marks
        → free_blocks pool.old.map < asked_with (regions_chosen pool.old volumes.old want) volumes.old → OnOk result (FlagsDelayed pool.old.containers volumes.old delays.new) }
{
    mark(volumes, &plan.due);
    let mut root = pool.found.root;
    root.version = pool.version;
    let mut left = plan.delays;
    clear_free(volumes, &mut root.labels);
    write_volumes(volumes, plan, pool, disk, &mut root.labels, &mut left)?;
    switch(pool, disk, &root)?;
    settle(volumes, &root.labels);
    *delays = left;
    Ok(())
}

/// Names no label for a slot without a volume, whatever the root on the disk names there: its volume was removed since.
fn clear_free(volumes: &Volumes, labels: &mut [u32; 64])
    requires places { All (λ place. place ≤ last_place) labels.old }
    ensures { AreNamedFor volumes.now labels.old labels.new }
{
    for slot in 0..SLOTS {
        labels[slot as usize] = label_lent(volumes.get(slot), labels[slot as usize]);
    }
}

/// The place of a volume's label; a slot without a volume has none, 0.
fn label_lent(state: Option<&VolumeState>, place: u32) -> u32
    ensures { result ≡ label_lent (option_copied state.entry) place }
{
    match state {
        Some(_) => place,
        None => 0,
    }
}

/// Writes the kept blocks and each volume that changed, once its regions of a plan are reclaimed, and names it by the labels of the new
/// root. `delays` says then of each volume that was due whether an entry is delayed.
fn write_volumes<D: Disk>(
    volumes: &Volumes,
    plan: &Plan,
    pool: &mut Pool,
    disk: &mut D,
    labels: &mut [u32; 64],
    delays: &mut [bool; 64],
) -> Result<(), Failed>
    requires labels { AreNamedFor volumes.now pool.old.found.root.labels labels.old }
    requires range { IsInRange pool.old.found }
    requires stands { StandsOn (D.shown disk.old) pool.old.store.pairs }
    requires housed { AreHoused pool.old.containers volumes.now }
    requires map { blocks_of pool.old.map ≡ pool.old.found.blocks }
    requires kept { AreKept pool.old }
    requires leaves { HaveLeaves plan.now pool.old.containers volumes.now }
    requires room { blocks_asked volumes.now ≤ free_blocks pool.old.map }
    ensures come { OnOk result (HasCome (taken plan.now (holdings pool.old.containers volumes.now)) (HaveHere (taken plan.now (holdings pool.old.containers volumes.now)) pool.old.containers) (D.shown disk.old) pool.old volumes.now slot_count labels.new pool.new (D.shown disk.new)) }
    ensures delays { IsTrue (D.shown disk.old).tells → (before : Machine) → IsLent (D.shown disk.old) pool.old volumes.now before → HaveHere (taken plan.now (holdings pool.old.containers volumes.now)) pool.old.containers
        → OnOk result (LeaveDelays plan.now (holdings pool.old.containers volumes.now) slot_count delays.old delays.new) }
    ensures spares { Spares (IsTaken (on_disk pool.old.map)) (D.shown disk.old) (D.shown disk.new) result }
{
    pool.write_kept(disk)?;
    for slot in 0..SLOTS {
        write_slot(volumes, plan, pool, disk, slot, labels, delays)?;
    }
    Ok(())
}

/// Reclaims the regions of a plan in the volume of a slot and writes it, if it changed.
fn write_slot<D: Disk>(
    volumes: &Volumes,
    plan: &Plan,
    pool: &mut Pool,
    disk: &mut D,
    slot: u8,
    labels: &mut [u32; 64],
    delays: &mut [bool; 64],
) -> Result<(), Failed>
    requires slot { slot < slot_count }
    requires stands { StandsOn (D.shown disk.old) pool.old.store.pairs }
    requires housed { AreHoused pool.old.containers volumes.now }
    requires leaves { HasLeavesAt plan.now slot (state_at volumes.now slot) (paged_at pool.old.containers slot) }
    requires room { asked_by (state_at volumes.now slot) ≤ free_blocks pool.old.map }
    ensures past { OnOk result (GoesPast (taken plan.now (holdings pool.old.containers volumes.now)) (state_at volumes.now slot) slot labels.old pool.old (D.shown disk.old) labels.new pool.new (D.shown disk.new)) }
    ensures delays { IsTrue (D.shown disk.old).tells → IfSome (paged_at pool.old.containers slot) (IsCleanOn (D.shown disk.old).reads)
        → IfSome (paged_at pool.old.containers slot) (AreHereIn (taken plan.now (holdings pool.old.containers volumes.now) slot)) → OnOk result (LeavesDelays plan.now slot (holdings pool.old.containers volumes.now slot) delays.old delays.new) }
    ensures count { OnOk result (free_blocks pool.old.map ≤ free_blocks pool.new.map + asked_by (state_at volumes.now slot)) }
    ensures spares { Spares (IsTaken (on_disk pool.old.map)) (D.shown disk.old) (D.shown disk.new) result }
    ensures committed { pool.new.map.committed ≡ pool.old.map.committed }
    ensures found { pool.new.found ≡ pool.old.found }
    ensures version { pool.new.version ≡ pool.old.version }
    ensures kept { pool.new.kept ≡ pool.old.kept }
    ensures stands { StandsOn (D.shown disk.new) pool.new.store.pairs }
{
    let Some(state) = volumes.get(slot) else {
        return Ok(());
    };
    if !state.is_changed() {
        return Ok(());
    }
    let Some(container) = pool.containers.get_mut(slot) else {
        return Ok(());
    };
    reclaim_due(plan, slot, container, &state.map, &mut pool.map, delays);
    let label = write_volume(state, container, &mut pool.store, &mut pool.map, disk)?;
    labels[slot as usize] = label;
    Ok(())
}

/// Makes the new root count.
fn switch<D: Disk>(pool: &mut Pool, disk: &mut D, root: &Root) -> Result<(), Failed>
    requires stands { StandsOn (D.shown disk.old) pool.old.store.pairs }
    requires range { IsInRange pool.old.found }
    requires map { blocks_of pool.old.map ≡ pool.old.found.blocks }
    requires found { IsTrue (D.shown disk.old).tells → IsFoundOn (D.shown disk.old) pool.old.found }
    requires root { IsRoot root.now }
    ensures any_moment { IsTrue (D.shown disk.old).tells
        → Leaves (D.shown disk.old) (D.shown disk.new) (OldOrNew (D.shown disk.old) pool.old.found root.now pool.old.map.next) }
    ensures committed { IsTrue (D.shown disk.old).tells
        → OnOk result (IsCommitted (D.shown disk.old) pool.old.found root.now pool.old.map.next (D.shown disk.new)) }
    ensures switched { OnOk result (IsSwitched pool.old root.now pool.new) }
    ensures kept { pool.new.kept ≡ pool.old.kept }
    ensures containers { pool.new.containers ≡ pool.old.containers }
    ensures counted { Counted (D.shown disk.old) (D.shown disk.new) result }
    ensures stands { StandsOn (D.shown disk.new) pool.new.store.pairs }
{
    pool.store.forget_before(first_block(pool.found.blocks));
    commit(disk, &pool.found, root, pool.map.next_map())?;
    pool.found = next_found(&pool.found, root);
    pool.map.committed();
    Ok(())
}

/// Says of each volume that changed that the root on the disk names it as it is now.
fn settle(volumes: &mut Volumes, labels: &[u32; 64])
    requires long { length volumes.old ≡ slot_count }
    ensures settled { (s : ℕ) → state_at volumes.new s ≡ settled_at labels.now volumes.old s }
    ensures long { length volumes.new ≡ slot_count }
{
    for slot in 0..SLOTS {
        settle_slot(volumes, slot, labels[slot as usize]);
    }
}

/// Says it of the volume of a slot.
fn settle_slot(volumes: &mut Volumes, slot: u8, label: u32)
    requires slot { slot < slot_count }
    requires long { length volumes.old ≡ slot_count }
    ensures settled { volumes.new ≡ with_state volumes.old slot (option_map (settled_as label) (state_at volumes.old slot)) }
{
    if let Some(state) = volumes.get_mut(slot)
        && state.is_changed()
    {
        state.settled(label);
    }
}
