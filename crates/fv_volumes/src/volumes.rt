//! The volumes of an aggregate by slot.

ghost use Rattle.std.specs.Prelude.{◌≡◌, ◌<◌, ◌≤◌, ◌+◌, ◌*◌, ◌^◌, ℕ, true, false, length, None, Some, IsSome, IsNone, IfSome, IfNone, IfOk, IfErr, IsTrue, OnOk, OnErr, option_copied, replicate, sum_by, take};
ghost use Rattle.std.specs.Option.{is_some, option_map, option_copied_mut};
ghost use Rattle.fv_disk.specs.Shown.{Image};
ghost use Rattle.fv_container.specs.Chains.{paged_at, slot_count, with_container, with_parent};
ghost use Rattle.fv_container.specs.Paged.{empty_paged};
ghost use Rattle.fv_model.specs.declared.commands.Command.TheVariants.{VolCreate};
ghost use Rattle.fv_model.specs.Numbers.{greatest_span};
ghost use Rattle.fv_model.specs.Refusals.{refusal, next};
ghost use Rattle.fv_model.specs.Space.{commits as commits_of, overhead};
ghost use Rattle.fv_model.specs.Machines.{capacity};
ghost use Rattle.fv_root.specs.Formatted.{IsSize};
ghost use Rattle.fv_pool.specs.declared.pool.Pool.{Pool};
ghost use Rattle.fv_store.specs.Held.{StandsOn};
ghost use Rattle.fv_volumes.specs.Footing.{AreFooted, is_snap_stood_on, is_stood_on};
ghost use Rattle.fv_volumes.specs.Creating.{Admits, FindsPlace, IsMade, IsNew, with_holes, Refuses, RefusesWanted};
ghost use Rattle.fv_pool.specs.Causes.{WithBlockFault};
ghost use Rattle.fv_volume.specs.Opening.{OpensVolumes};
ghost use Rattle.fv_volume.specs.States.{view_over, state_at, with_state};
ghost use Rattle.fv_volume.specs.Trees.{Trees, machine_in};
ghost use Rattle.fv_volume.specs.Files.{AreStates, IsLabelled, Over};
ghost use Rattle.fv_volume.specs.Slots.{IsFirstFree, IsFull, HasName, NoneHasName, sum_of};

use crate::admit::{Admitted, Wanted, admit, judge};
use crate::load::load_states;
use crate::search::{find_name, free_slot, sum_commits};
use crate::standing::{is_snap_stood_on, is_stood_on};
use fv_container::Containers;
use fv_disk::{BlockFault, Disk};
use fv_model::{Kind, Name, Refusal};
use fv_volmap::MapSlot;
use fv_volume::{Pool, VolumeFault, VolumeState};
use std::alloc::{AllocError, Global};
use std::marker::Model;

/// Up to 64 volumes by slot. Contracts see the row of 64 slots, each free or with its volume.
#[derive(Drop)]
pub struct Volumes {
    pub(crate) alloc: Global,
    states: Vec<Option<VolumeState>>,
}

impl Model for Volumes {
    ghost use Rattle.std.specs.Prelude.{◌≡◌, length};
    ghost use Rattle.fv_container.specs.Chains.{slot_count};
    ghost use Rattle.std.specs.Coded.{coded_list, coded_option};
    ghost use Rattle.fv_volume.specs.contracts.state.VolumeState as state;
    ghost use Rattle.fv_volume.specs.States.{States};

    ghost Value = { States };

    ghost coded = { coded_list (coded_option state.the_row.coded) };

    ghost view = { λ volumes. volumes.states.items };

    ghost invariant = { λ volumes. length volumes.states.items ≡ slot_count };
}

impl Volumes {
    ghost use Rattle.std.specs.Borrow.{LendsIf, sem};
    ghost use Rattle.fv_volumes.specs.contracts.volumes.Volumes.{the_row};
    ghost use Rattle.fv_volumes.specs.Rows.{state_row};

    /// Reads the labels of the pool's root with their containers and the maps of their used slots, and puts the
    /// containers into the pool. It writes nothing.
    ///
    /// # Errors
    /// `Damaged` comes only where a block that this call read isn't as it has to be: a label without its
    /// shape, or of a volume that is being split, which can't be loaded yet; a node
    /// of a container without its shape, whatever position it names; or a block of a map with a bit set
    /// past the span. `DiskFault` comes only where a read failed in this call, and `Memory` where memory ran out. The
    /// pool's containers stay then.
    ///
    /// Each label, each node of the containers above the leaves and each block of the maps is read once, and the leaves that have the
    /// entries of these blocks through the pool's cache. Each word of each used slot's map is looked at once more, for the ledgers.
    /// Memory is taken for each node of the containers, and for the bits of the maps; no leaf is held.
    pub fn open<D: Disk>(
        alloc: Global,
        pool: &mut Pool,
        disk: &mut D,
    ) -> Result<Volumes, BlockFault>
        requires { StandsOn (D.shown disk.old) pool.old.store.pairs }
        ensures { OpensVolumes (D.shown disk.old) pool.old (D.shown disk.new) pool.new result }
    {
        let mut containers = Containers::new(alloc)?;
        let states = load_states(alloc, &mut pool.store, disk, &pool.found, &mut containers)?;
        pool.containers = containers;
        Ok(Volumes { alloc, states })
    }

    /// As `open`, with its fault as one of volumes; nothing is `Refused`.
    pub fn load<D: Disk>(
        alloc: Global,
        pool: &mut Pool,
        disk: &mut D,
    ) -> Result<Volumes, VolumeFault>
        requires { StandsOn (D.shown disk.old) pool.old.store.pairs }
        ensures { WithBlockFault (OpensVolumes (D.shown disk.old) pool.old (D.shown disk.new) pool.new) result }
    {
        Ok(Volumes::open(alloc, pool, disk)?)
    }

    /// The volume of a slot below 64, `None` exactly for a free one. Costs one step.
    pub fn get(&self, slot: u8) -> Option<&VolumeState>
        requires { slot < slot_count }
        ensures { option_copied result ≡ state_at self.now slot }
    {
        self.states[slot as usize].as_ref()
    }

    /// The volume of a slot below 64, to be changed; `None` exactly for a free one. What the caller makes
    /// of it is the slot's afterwards.
    pub fn get_mut(&mut self, slot: u8) -> Option<&mut VolumeState>
        requires { slot < slot_count }
        ensures* writes_back { sem 𝓛 (LendsIf the_row state_row self.entry result (λ state. with_state self.old slot (Some state)) self.old) }
        ensures state { option_copied_mut result ≡ state_at self.old slot }
    {
        self.states[slot as usize].as_mut()
    }

    /// The least slot that is free; `None` exactly where all 64 are in use. Costs a step for each slot.
    pub fn free_slot(&self) -> Option<u8>
        ensures some { IfSome result (IsFirstFree self.now) }
        ensures none { IfNone result (IsFull self.now) }
    {
        free_slot(&self.states)
    }

    /// Where a volume goes that is wanted so, in an aggregate of `blocks` blocks of which all volumes commit `commits`: the least slot that is
    /// free, and its span.
    ///
    /// # Errors
    /// In this order `Range` exactly where the span would be above 1,048,576, `TooMany` where all 64 slots are in use, `VolumeFull` where the
    /// volume would use more than its size, and `AggregateFull` where all would commit more than the capacity. Costs a step for each slot. It
    /// takes no memory and changes nothing.
    pub fn judge(&self, blocks: u32, commits: u64, wanted: &Wanted) -> Result<Admitted, Refusal>
        requires blocks { IsSize blocks }
        requires sum { commits ≡ sum_of self.now }
        ensures found { IfOk result (λ a. FindsPlace self.now blocks wanted.now a.slot a.span) }
        ensures refused { IfErr result (RefusesWanted self.now blocks wanted.now) }
    {
        judge(&self.states, blocks, commits, wanted)
    }

    /// Gives a slot below 64 this volume, in place of what it had.
    pub(crate) fn fill(&mut self, slot: u8, state: VolumeState)
        requires { slot < slot_count }
        ensures row { self.new ≡ with_state self.old slot (Some state) }
        ensures long { length self.old ≡ slot_count }
    {
        self.states[slot as usize] = Some(state);
    }

    /// Frees a slot below 64. Costs a step for what was kept of its volume.
    pub(crate) fn clear(&mut self, slot: u8)
        requires { slot < slot_count }
        ensures { self.new ≡ with_state self.old slot None }
    {
        self.states[slot as usize] = None;
    }

    /// The first slot whose volume has this name, `None` exactly for an unused name. Costs a comparison for
    /// each volume.
    pub fn find(&self, name: &Name) -> Option<u8>
        ensures long { length self.now ≡ slot_count }
        ensures some { IfSome result (λ slot. (slot < slot_count) × HasName self.now slot name.now) }
        ensures none { IfNone result (NoneHasName self.now name.now) }
    {
        find_name(&self.states, name)
    }

    /// Whether a clone stands on the volume of a slot, on whichever of its snapshots. Costs a step for each slot.
    pub fn is_stood_on(&self, slot: u8) -> bool
        ensures { result ≡ is_stood_on self.now slot }
    {
        is_stood_on(&self.states, slot)
    }

    /// Whether a clone stands on the snapshot with this map slot of the volume of a slot. Costs a step for each slot.
    pub fn is_snap_stood_on(&self, slot: u8, snap: MapSlot) -> bool
        ensures { result ≡ is_snap_stood_on self.now slot snap }
    {
        is_snap_stood_on(&self.states, slot, snap)
    }

    /// What all volumes commit together, in blocks. Costs a step for each slot.
    pub fn commits(&self) -> u64
        requires { (s : ℕ) → IfSome (state_at self.now s) (IsLabelled s) }
        ensures exact { result ≡ sum_of self.now }
        ensures most { result ≤ 2 ^ 40 }
        ensures machine { (pool : Pool) (trees : Trees) → Over pool self.now trees (λ m. result ≡ commits_of m) }
    {
        sum_commits(&self.states)
    }

    /// Makes an empty volume where it was admitted, and answers its slot, the least that is free. It has a
    /// container of holes: its label and the blocks of its active map are placed by the next consistency point.
    ///
    /// `admitted` is what `admit` handed out for this name, size and kind. A consistency point may lie between
    /// the two calls, and nothing else that changes the volumes: `Admits` speaks of names, slots in use and what
    /// is committed, which a point keeps. So nothing is refused here. The one error is want of memory; nothing
    /// changes then. `commits` is what all volumes commit together, in blocks, before the call and behind it.
    ///
    /// Costs a step for each region of the new volume's container, and takes memory for its container and its maps.
    pub fn create(
        &mut self,
        pool: &mut Pool,
        commits: &mut u64,
        name: &Name,
        size: u32,
        kind: Kind,
        admitted: Admitted,
    ) -> Result<u8, AllocError>
        requires each { (s : ℕ) → IfSome (state_at self.old s) (IsLabelled s) }
        requires admitted { Admits self.old pool.old.found.blocks name.now size kind admitted.slot admitted.span }
        requires sum { commits.old ≡ sum_of self.old }
        ensures sum { commits.new ≡ sum_of self.new }
        ensures slot { IfOk result (IsFirstFree self.old) }
        ensures made { IfOk result (λ slot. IsMade self.old slot name.now size kind self.new) }
        ensures new { IfOk result (λ slot. IsNew (state_at self.new slot) (paged_at pool.new.containers slot) name.now size kind) }
        ensures holes { IfOk result (λ slot. pool.new ≡ with_holes pool.old slot size) }
        ensures long { length self.new ≡ slot_count }
        ensures each { OnOk result ((s : ℕ) → IfSome (state_at self.new s) (IsLabelled s)) }
        ensures states { OnOk result ((trees : Trees) (i : Image) → AreFooted self.old pool.old.containers → AreStates (view_over pool.old self.old i) trees self.old → AreStates (view_over pool.new self.new i) trees self.new) }
        ensures accepted { OnOk result ((trees : Trees) → Over pool.old self.old trees (λ m. refusal m (VolCreate name.now size kind) ≡ None)) }
        ensures machine { OnOk result ((trees : Trees) (i : Image) → AreFooted self.old pool.old.containers → AreStates (view_over pool.old self.old i) trees self.old
            → machine_in pool.new self.new trees i ≡ next (machine_in pool.old self.old trees i) (VolCreate name.now size kind)) }
        ensures footed { OnOk result (AreFooted self.old pool.old.containers → AreFooted self.new pool.new.containers) }
        ensures same { OnErr result ((self.new ≡ self.old) × (pool.new ≡ pool.old)) }
    {
        let Admitted { slot, span } = admitted;
        let state = VolumeState::empty(self.alloc, slot, name, size, kind, span)?;
        self.put(pool, commits, state, None)?;
        Ok(slot)
    }

    /// Whether a new volume is admitted in an aggregate of so many blocks: where it goes, for `create`, or why it
    /// is refused.
    ///
    /// # Errors
    /// The refusal comes exactly where the machine refuses `vol create`, and is its refusal: a size that isn't 1 to
    /// 500,000, a name that is taken, 64 volumes, and commits that would pass the capacity, in this order.
    ///
    /// `commits` is what all volumes commit together, in blocks. Costs a comparison for each volume and a step. It takes no memory and
    /// changes nothing.
    pub fn admit(
        &self,
        blocks: u32,
        commits: u64,
        name: &Name,
        size: u32,
        kind: Kind,
    ) -> Result<Admitted, Refusal>
        requires each { (s : ℕ) → IfSome (state_at self.now s) (IsLabelled s) }
        requires blocks { IsSize blocks }
        requires sum { commits ≡ sum_of self.now }
        ensures admitted { IfOk result (λ a. Admits self.now blocks name.now size kind a.slot a.span) }
        ensures accepted { IfOk result (λ a. (pool : Pool) (trees : Trees) → pool.found.blocks ≡ blocks
            → Over pool self.now trees (λ m. refusal m (VolCreate name.now size kind) ≡ None)) }
        ensures room { IfOk result (λ a. (pool : Pool) (trees : Trees) → pool.found.blocks ≡ blocks
            → Over pool self.now trees (λ m. commits_of m + 2 * overhead a.span ≤ capacity blocks)) }
        ensures refused { IfErr result (λ r. (pool : Pool) (trees : Trees) → pool.found.blocks ≡ blocks
            → Over pool self.now trees (λ m. refusal m (VolCreate name.now size kind) ≡ Some r)) }
        ensures why { IfErr result (Refuses self.now blocks name.now size kind) }
    {
        admit(&self.states, blocks, commits, name, size, kind)
    }
}
