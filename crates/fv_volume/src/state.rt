//! One volume, as it is kept in memory.

ghost use Rattle.std.specs.Prelude.{◌≡◌, ◌==◌, ◌<◌, ◌≤◌, ◌+◌, ◌*◌, ◌-◌, ◌∷◌, ◌++◌, [], false, true, nat_lt, length, map, position, take, drop, All, None, IfSome, IfNone, IfOk, OnOk, OnErr, option_copied, replicate};
ghost use Rattle.std.specs.List.{position_or_len};
ghost use Rattle.fv_model.specs.Numbers.{greatest_span, most_snapshots, most_asked};
ghost use Rattle.fv_codec.specs.Blocks.{IsLabel, IsSnapRecord};
ghost use Rattle.fv_image.specs.Views.{head_of, snaps_from};
ghost use Rattle.fv_model.specs.Spelling.{is_name};
ghost use Rattle.fv_volmap.specs.Slots.{empty_volume, stored_count};
ghost use Rattle.fv_volume.specs.Asking.{snap_named};
ghost use Rattle.fv_volume.specs.Labels.{label_said};
ghost use Rattle.fv_volume.specs.Snapshots.{FindsSnap, IsLeastFree, AreSlotsFull, has_slot, added};
ghost use Rattle.fv_container.specs.Chains.{slot_count};
ghost use Rattle.fv_volume.specs.Loading.{IsRead, form_in};
ghost use Rattle.fv_volume.specs.OneVolume.{tables_of};
ghost use Rattle.fv_volume.specs.Placements.{snap_at};
ghost use Rattle.fv_volume.specs.SnapRecords.{snaps_recorded};
ghost use Rattle.fv_volume.specs.States.{empty_head, head_in, ledger_of_empty, snaps_in, IsAtFirst, IsLaid};
ghost use Rattle.fv_volume.specs.Stored.{is_rewritten};
ghost use Rattle.fv_volume.specs.Writing.{asked, map_count};

use crate::known::known_name;
use crate::label::{
    HOLE, base_fields, base_of, kind_number, kind_of, name_field, name_of, records_of, snap_of,
};
use crate::rooting::place_snaps;
use fv_charge::{Ledger, overhead};
use fv_codec::{Label, SnapRecord};
use fv_files::{FileNumbers, Files};
use fv_model::{Kind, Name, map_blocks};
use fv_pool::Rooted;
use fv_volmap::{BASE_SLOT, MapSlot, SNAPSHOT_SLOTS, STORED_SLOTS, VolMap};
use std::alloc::{AllocError, Global};
use std::marker::Model;

/// What a clone stands on: a snapshot of another volume, its parent.
#[derive(Clone, Copy, Debug)]
pub struct Base {
    /// The slot of its parent, below 64.
    pub parent: u8,
    /// The map slot of the parent's snapshot, 1 to 24.
    pub slot: MapSlot,
    /// Whether it is being split from it.
    pub splitting: bool,
    /// The name of its parent.
    pub name: Name,
    /// The name of the parent's snapshot.
    pub snapshot: Name,
    /// The table of the parent's snapshot.
    pub table: Rooted,
}

/// A snapshot.
#[derive(Debug, Drop)]
pub struct Snap {
    /// Its map slot, 1 to 24.
    pub slot: MapSlot,
    /// Its name.
    pub name: Name,
    /// Its table.
    pub table: Rooted,
}

/// The snapshots of a volume. Contracts see the list of them.
#[derive(Debug, Drop)]
pub struct Snapshots {
    snaps: Vec<Snap>,
}

impl Model for Snapshots {
    ghost use Rattle.std.specs.Prelude.{List};
    ghost use Rattle.fv_volume.specs.declared.state.Snap.{Snap};

    ghost Value = { List Snap };

    ghost view = { λ s. s.snaps.items };
}

impl Snapshots {
    /// No snapshots. It takes no memory.
    pub fn new(alloc: Global) -> Snapshots
        ensures { result ≡ [] }
    {
        Snapshots {
            snaps: Vec::new(alloc),
        }
    }

    /// The snapshots that the used ones of a label's 24 records say, of the map slots from 1 on: record 0 is that of slot 1. The one error
    /// is want of memory. Costs a step for each record, and memory for each snapshot. `docs/FORMAT.md` has the records.
    pub fn of_records(
        alloc: Global,
        records: &[SnapRecord; SNAPSHOT_SLOTS],
    ) -> Result<Snapshots, AllocError>
        requires { All IsSnapRecord records.now }
        ensures said { IfOk result (λ snaps. snaps_in snaps ≡ snaps_from 1 records.entry.now) }
        ensures long { length records.entry.now ≡ most_snapshots }
    {
        let mut snaps = Snapshots::new(alloc);
        for at in 0..SNAPSHOT_SLOTS {
            snaps.add_said(&records[at], at as MapSlot + 1)?;
        }
        Ok(snaps)
    }

    /// Adds the snapshot that the record of a map slot says at the end, where the record is a used one.
    fn add_said(&mut self, said: &SnapRecord, slot: MapSlot) -> Result<(), AllocError>
        requires { IsSnapRecord said.now }
        ensures { OnOk result (snaps_in self.new ≡ snaps_in self.old ++ snaps_recorded slot said.now) }
    {
        if said.name_length == 0 {
            return Ok(());
        }
        self.push(snap_of(said, slot))
    }

    /// Adds a snapshot at the end. Where no memory is found nothing changes.
    fn push(&mut self, snap: Snap) -> Result<(), AllocError>
        ensures pushed { OnOk result (self.new ≡ self.old ++ snap ∷ []) }
        ensures failed { OnErr result (self.new ≡ self.old) }
    {
        match self.snaps.push(snap) {
            Ok(()) => Ok(()),
            Err(fault) => Err(AllocError::from(fault)),
        }
    }

    /// The snapshots in the order of their slots.
    pub fn as_slice(&self) -> &[Snap]
        ensures { result.now ≡ self.now }
    {
        self.snaps.as_slice()
    }

    /// How many snapshots there are, at most 24 in a volume.
    pub fn len(&self) -> usize
        ensures { result ≡ length self.now }
    {
        self.snaps.len()
    }

    /// The place of the first snapshot of a name in the order of their slots; `None` exactly where none has it.
    /// Costs a step for each snapshot.
    pub fn find(&self, name: &Name) -> Option<usize>
        ensures { FindsSnap self.now name.now result }
    {
        self.snaps.iter().position(|snap| snap.name == *name)
    }

    /// The first snapshot of a name in the order of their slots; `None` exactly where none has it. Costs a step for
    /// each snapshot.
    pub fn named(&self, name: &Name) -> Option<&Snap>
        ensures { option_copied result ≡ snap_named self.entry.now name.now }
    {
        self.snaps.iter().find(|snap| *name == snap.name)
    }

    /// Whether a snapshot has this slot. Costs a step for each snapshot.
    pub fn has_slot(&self, slot: MapSlot) -> bool
        ensures { result ≡ has_slot self.now slot }
    {
        self.snaps.iter().any(|snap| snap.slot == slot)
    }

    /// The least slot from 1 to 24 that no snapshot has; `None` exactly where each is a snapshot's. Costs a step
    /// for each slot and snapshot.
    pub fn free_slot(&self) -> Option<MapSlot>
        ensures free { IfSome result (IsLeastFree self.now) }
        ensures full { IfNone result (AreSlotsFull self.now) }
    {
        for slot in 1..BASE_SLOT {
            if !self.has_slot(slot) {
                return Some(slot);
            }
        }
        None
    }

    /// The place of the first snapshot of a greater slot.
    fn next_after(&self, slot: MapSlot) -> Option<usize>
        ensures { result ≡ position (λ snap. nat_lt slot snap.slot) self.now }
    {
        self.snaps.iter().position(|snap| slot < snap.slot)
    }

    /// Where a snapshot of this slot goes: before the first of a greater slot.
    fn place_of(&self, slot: MapSlot) -> usize
        ensures place { result ≡ position_or_len (λ snap. nat_lt slot snap.slot) self.now }
        ensures within { result ≤ length self.now }
    {
        match self.next_after(slot) {
            Some(place) => place,
            None => self.len(),
        }
    }

    /// Adds a snapshot before the first of a greater slot. The one error is want of memory; nothing changes then.
    /// Costs a step for each snapshot.
    pub fn insert(&mut self, snap: Snap) -> Result<(), AllocError>
        ensures added { OnOk result (self.new ≡ added snap self.old) }
        ensures failed { OnErr result (self.new ≡ self.old) }
    {
        let place = self.place_of(snap.slot);
        match self.snaps.insert(place, snap) {
            Ok(()) => Ok(()),
            Err(fault) => Err(AllocError::from(fault)),
        }
    }

    /// Removes the snapshot at a place. Costs a step for each behind it.
    pub fn remove(&mut self, at: usize)
        requires { at < length self.old }
        ensures { self.new ≡ take at self.old ++ drop (at + 1) self.old }
    {
        self.snaps.remove(at);
    }

    /// Gives the root pointer of each snapshot the place that there is for its map slot. Costs a step for each snapshot.
    pub(crate) fn put_roots(&mut self, places: &[u32; STORED_SLOTS])
        ensures { self.new ≡ map (snap_at places.entry.now) self.old }
    {
        place_snaps(&mut self.snaps, places);
    }
}

/// One volume.
#[derive(Drop)]
pub struct VolumeState {
    /// Its slot, below 64, among the volumes and among the pool's containers.
    pub slot: u8,
    /// Its name.
    pub name: Name,
    /// Its kind of guarantee.
    pub kind: Kind,
    /// Its size in blocks, 1 to 500,000.
    pub size: u32,
    /// The greatest size in blocks that it may get: twice its first size.
    pub most: u32,
    /// How many VVBNs there are for data, a multiple of 4096 up to 1,048,576.
    pub span: u32,
    /// The stamp of its last change.
    pub now: u64,
    /// Whether every place is known.
    pub known: bool,
    /// What it stands on, for a clone.
    pub base: Option<Base>,
    /// The active table.
    pub active: Rooted,
    /// The snapshots.
    pub snapshots: Snapshots,
    /// The maps of the active table and of the snapshots.
    pub map: VolMap,
    /// What it is charged for, needs and commits.
    pub ledger: Ledger,
    /// The trees of the active table that are in memory. Where there are none, `active` spells the table; else its root is that of
    /// the last flush.
    pub(crate) files: Option<Files>,
    /// The numbers of the files by their names, once they were read; they are those of the active table.
    pub(crate) numbers: Option<FileNumbers>,
    /// Where the label lies that the root on the disk names; 0 where there is none yet.
    pub(crate) label: u32,
    /// Whether the next consistency point has something to write.
    pub(crate) changed: bool,
    /// Whether the map of each slot waits to be written: a snapshot's that was kept since the last consistency point.
    pub(crate) fresh: [bool; STORED_SLOTS],
}

impl VolumeState {
    /// A new empty volume of this size in blocks and kind, with so many VVBNs for data, for a slot below 64. It may get twice the size, has
    /// no snapshot, no file and no label yet, and waits to be written.
    ///
    /// The one error is want of memory. Costs a step for each 64 numbers of the span, and takes memory for the bits of its active map.
    pub fn empty(
        alloc: Global,
        slot: u8,
        name: &Name,
        size: u32,
        kind: Kind,
        span: u32,
    ) -> Result<VolumeState, AllocError>
        requires { size ≤ 500000 }
        ensures slot { IfOk result (λ state. state.slot ≡ slot) }
        ensures head { IfOk result (λ state. head_in state ≡ empty_head name.now size kind span) }
        ensures ledger { IfOk result (λ state. state.ledger ≡ ledger_of_empty size kind span) }
        ensures map { IfOk result (λ state. state.map ≡ empty_volume span) }
        ensures label { IfOk result (λ state. state.label ≡ 0) }
        ensures changed { IfOk result (λ state. state.changed ≡ true) }
        ensures base { IfOk result (λ state. state.base ≡ None) }
        ensures rests { IfOk result IsAtFirst }
        ensures named { is_name name.now ≡ true }
    {
        known_name(name);
        let active = Rooted {
            levels: 0,
            root: HOLE,
        };
        let map = VolMap::new(alloc, span)?;
        Ok(VolumeState::made(alloc, slot, name, size, kind, span, 0, None, active, map))
    }

    /// The volume that a label at this PVBN says, for a slot below 64, with its snapshots and the maps of its tables. It hasn't changed,
    /// and no file is in memory. The label has no form that can't be loaded. Of what it stands on the label says where that is alone: names
    /// and root are its parent's to say. Its ledger isn't counted yet (`recount`): it says that nothing is charged and nothing needed.
    ///
    /// Costs a step for each byte of the name, and takes no memory.
    pub fn of_label(
        slot: u8,
        place: u32,
        label: &Label,
        snapshots: Snapshots,
        map: VolMap,
    ) -> VolumeState
        requires range { IsLabel label.now }
        requires form { form_in label.now ≡ None }
        requires few { length snapshots ≤ most_snapshots }
        requires said { snaps_in snapshots ≡ snaps_from 1 label.now.snapshots }
        ensures laid { IsLaid result slot place map }
        ensures head { head_in result ≡ head_of label.entry.now }
        ensures span { result.span ≡ label.entry.now.span }
        ensures base { IfSome result.base (λ base. base.parent < slot_count) }
        ensures rests { IsAtFirst result }
        ensures named { is_name result.name ≡ true }
        ensures read { IsRead result }
        ensures ledger { result.ledger.span ≡ label.entry.now.span }
    {
        let kind = kind_of(label);
        VolumeState {
            slot,
            name: name_of(label),
            kind,
            size: label.size,
            most: label.most,
            span: label.span,
            now: label.now,
            known: label.known == 1,
            base: base_of(label),
            active: Rooted {
                levels: label.levels,
                root: label.root,
            },
            snapshots,
            map,
            ledger: new_ledger(label.size, kind, label.span),
            files: None,
            numbers: None,
            label: place,
            changed: false,
            fresh: [false; STORED_SLOTS],
        }
    }

    /// Whether it keeps no table beside the active one, neither that of a snapshot nor that of a base. Costs one step.
    pub(crate) fn has_one_table(&self) -> bool
        ensures { result ≡ (length (tables_of self.entry.now) == 0) }
    {
        self.base.is_none() && self.snapshots.len() == 0
    }

    /// Where the label lies that the root on the disk names, a PVBN; 0 where there is none yet.
    pub fn label_place(&self) -> u32
        ensures { result ≡ self.entry.now.label }
    {
        self.label
    }

    /// Whether the next consistency point has something to write: a change since the last one, or entries whose blocks it was chosen to
    /// give back (`mark`).
    pub fn is_changed(&self) -> bool
        ensures { result ≡ self.entry.now.changed }
    {
        self.changed
    }

    /// Whether the next consistency point writes the map of a slot below 25: that of the active table, slot 0, and one that was kept since
    /// the last point. Costs a step.
    pub fn is_rewritten(&self, slot: MapSlot) -> bool
        requires { slot < stored_count }
        ensures { result ≡ is_rewritten self.entry.now slot }
    {
        slot == 0 || self.fresh[slot as usize]
    }

    /// How many maps wait to be written beside the active one.
    fn waiting_maps(&self) -> u32
        ensures value { result ≡ map_count self.entry.now.fresh - 1 }
        ensures most { result ≤ most_snapshots }
    {
        let mut count = 0;
        for slot in 1..STORED_SLOTS {
            if self.fresh[slot] {
                count += 1;
            }
        }
        count
    }

    /// The blocks that a consistency point asks for to write the volume: its overhead, and those of the snapshots' maps that wait; of the
    /// greatest span, 1,048,576, 4151 and 32 for each of at most 24 maps. Costs a step for each slot.
    #[tactic(auto, using(crate::proofs::MapCounts::few_blocks))]
    pub fn asked(&self) -> u64
        requires { self.now.span ≤ greatest_span }
        ensures value { result ≡ asked self.entry.now }
        ensures most { result ≤ most_asked }
    {
        u64::from(overhead(self.span) + self.waiting_maps() * map_blocks(self.span))
    }

    /// The label that says this volume, with the place of its container's root, 0 where that is all holes, and
    /// with the container's height. It takes no memory.
    #[tactic(auto, unfolding(crate::specs::Labels::label_said))]
    pub fn label(&self, container: u32, height: u8) -> Label
        requires base { IfSome self.now.base (λ base. base.parent < slot_count) }
        ensures { result ≡ label_said self.entry.now container height }
    {
        let (name_length, name) = name_field(&self.name);
        let (parent, base_slot, splitting) = base_fields(self.base);
        Label {
            name_length,
            name,
            kind: kind_number(self.kind),
            size: self.size,
            most: self.most,
            span: self.span,
            now: self.now,
            parent,
            base_slot,
            splitting,
            known: u8::from(self.known),
            container,
            height,
            levels: self.active.levels,
            root: self.active.root,
            snapshots: records_of(self.snapshots.as_slice()),
        }
    }

    /// Says that the next consistency point has something to write. Costs one step.
    pub fn mark(&mut self)
        ensures { self.new ≡ record self.old { changed = true } }
    {
        self.changed = true;
    }

    /// Says that the root on the disk names a label of this volume as it is now, at this PVBN. Costs one step, and takes
    /// no memory.
    pub fn settled(&mut self, label: u32)
        ensures head { head_in self.new ≡ head_in self.old }
        ensures map { self.new.map ≡ self.old.map }
        ensures ledger { self.new.ledger ≡ self.old.ledger }
        ensures slot { self.new.slot ≡ self.old.slot }
        ensures label { self.new.label ≡ label }
        ensures changed { self.new.changed ≡ false }
        ensures others { self.new ≡ record self.old { label = label; changed = false; fresh = replicate stored_count false } }
    {
        self.label = label;
        self.changed = false;
        self.fresh = [false; STORED_SLOTS];
    }
}

/// The ledger of an empty volume of this size and kind, with so many VVBNs for data: nothing is charged, and nothing needed. Costs a step.
pub fn new_ledger(size: u32, kind: Kind, span: u32) -> Ledger
    ensures { result ≡ ledger_of_empty size kind span }
{
    Ledger {
        charge: 0,
        need: 0,
        size,
        kind,
        span,
    }
}
