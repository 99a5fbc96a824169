//! The snapshots of a volume: their names, and what is kept in memory of one that is made, removed or made the active table.
//!
//! Nothing is judged here, and no block is placed: `fv_snapshot` has the commands.

ghost use Rattle.std.specs.Prelude.{◌≡◌, ◌<◌, ◌≤◌, ◌-◌, ℕ, [], false, true, get_or, None, length, IfOk, OnOk, OnErr};
ghost use Rattle.std.specs.FinMap as fin;
ghost use Rattle.fv_model.specs.Numbers.{greatest_span, most_snapshots};
ghost use Rattle.std.specs.BTreeSet.{insert_key};
ghost use Rattle.fv_model.specs.Spelling.{is_name, name_cmp};
ghost use Rattle.fv_tables.specs.Spelled.{Under};
ghost use Rattle.fv_volmap.specs.Slots.{CountsBeside, IsVolume, slot_at, stored_count};
ghost use Rattle.fv_volume.specs.Loading.{HasCounted, IsCountOf, base_counted};
ghost use Rattle.fv_volume.specs.OneVolume.{greatest_charge, snaps_by};
ghost use Rattle.fv_volume.specs.Snaps.{names_kept, turned_to, with_snapshot, without_snapshot};

use crate::known::known_name;
use crate::state::{Base, Snap, VolumeState};
use fv_charge::Ledger;
use fv_model::{Kind, Name, Names, map_blocks};
use fv_pool::Rooted;
use fv_volmap::{MapSlot, VolMap};
use std::alloc::{AllocError, Global};
use std::collections::BTreeSet;

impl VolumeState {
    /// The names of the snapshots, in byte order, whatever lies in their blocks. The one error is want of memory. Costs some comparisons
    /// for each snapshot, and memory for each name twice. `docs/MACHINE.md` has the command, `snap list`.
    #[tactic(auto, using(crate::proofs::SnapNames::names_told))]
    pub fn snapshot_names(&self, alloc: Global) -> Result<Names, AllocError>
        ensures { IfOk result (λ names. (blocks : ℕ → Under) → names ≡ fin.keys (snaps_by blocks self.entry.now.snapshots)) }
    {
        let mut sorted = BTreeSet::new(alloc);
        sort_names(self.snapshots.as_slice(), &mut sorted)?;
        listed(alloc, &sorted)
    }

    /// Forgets the trees in memory, what changed of them with them, and makes `table` the active one. Map and ledger stay; they are the
    /// caller's to set (`VolMap::restore`, `recount`). Costs a step for what was kept of the trees, and takes no memory.
    pub fn turn_to(&mut self, table: Rooted)
        ensures { self.new ≡ turned_to self.old table }
    {
        self.active = table;
        self.files = None;
        self.numbers = None;
        self.changed = true;
    }

    /// Keeps the active table as a snapshot of this name under a free map slot, with the active map, which waits for the next consistency
    /// point; the volume is charged for the blocks of that map. No file is in memory, so `active` spells the table, and no snapshot has the
    /// name. The one error is want of memory; nothing changes then. Costs a step for each word of 64 numbers of the span and for each
    /// snapshot. Nothing is copied but the map.
    #[tactic(auto, using(crate::proofs::SnapNames::slot_back))]
    pub fn keep_snapshot(&mut self, slot: MapSlot, name: &Name) -> Result<(), AllocError>
        requires above { 0 < slot }
        requires stored { slot < stored_count }
        requires free { slot_at self.old.map slot ≡ None }
        requires charge { self.old.ledger.charge ≤ greatest_charge }
        requires span { self.old.span ≤ greatest_span }
        ensures kept { OnOk result (self.new ≡ with_snapshot self.old slot name.now) }
        ensures failed { OnErr result (self.new ≡ self.old) }
        ensures waits { OnOk result (get_or self.new.fresh slot false ≡ true) }
        ensures named { is_name name.now ≡ true }
    {
        known_name(name);
        self.map.keep(slot)?;
        let snap = Snap {
            slot,
            name: *name,
            table: self.active,
        };
        if let Err(fault) = self.snapshots.insert(snap) {
            self.map.forget(slot);
            return Err(fault);
        }
        self.ledger.charge += map_blocks(self.span);
        self.fresh[slot as usize] = true;
        self.changed = true;
        Ok(())
    }

    /// Removes the snapshot at a place of the list, whose map slot this is, with its map. The ledger stays; it is the caller's to set
    /// (`recount`). Costs a step for each snapshot, and takes no memory.
    pub fn remove_snapshot(&mut self, at: usize, slot: MapSlot)
        requires place { at < length self.old.snapshots }
        requires above { 0 < slot }
        requires stored { slot < stored_count }
        ensures { self.new ≡ without_snapshot self.old at slot }
    {
        self.snapshots.remove(at);
        self.map.forget(slot);
        self.fresh[slot as usize] = false;
        self.changed = true;
    }

    /// Counts the ledger anew: what the slots of the maps on the disk have together, of a clone that isn't being split without what the
    /// slot of its base has, and the blocks of each snapshot's map. It is right where each block of the volume has its number, as after a
    /// flush, and no file has a reserve. Costs a step for each word of 64 numbers of each used slot, and takes no memory.
    pub fn recount(&mut self)
        requires map { self.old.map.span ≡ self.old.span }
        requires span { self.old.span ≤ greatest_span }
        requires few { length self.old.snapshots ≤ most_snapshots }
        ensures counted { IsCountOf self.old self.new.ledger }
        ensures valid { IsVolume self.old.map }
        ensures others { self.new ≡ record self.old { ledger = self.new.ledger } }
    {
        let count = self.snapshots.len() as u32;
        self.ledger = count_ledger(
            &mut self.map,
            self.base,
            count,
            self.span,
            self.size,
            self.kind,
        );
    }
}

/// How many numbers a volume is charged for, by its maps: all that the slots on the disk have, and of a clone that isn't being split those
/// alone that the slot of its base lacks. The maps stay.
#[tactic(auto, using(crate::proofs::CountedMaps::counted_alone, crate::proofs::CountedMaps::counted_beside))]
fn count_numbers(map: &mut VolMap, base: Option<Base>) -> u32
    ensures same { map.new ≡ map.old }
    ensures valid { IsVolume map.old }
    ensures counted { CountsBeside map.old (base_counted base map.old) result }
    ensures most { result ≤ map.old.span }
{
    let Some(base) = base else {
        return map.count_united();
    };
    if base.splitting {
        map.count_united()
    } else {
        map.count_charged()
    }
}

/// The ledger of a volume without reserves, counted from what the slots of its maps on the disk have together, and of a clone that isn't
/// being split without what the slot of its base has; they stay.
#[tactic(auto, using(crate::proofs::CountedMaps::counted_ledger))]
fn count_ledger(
    map: &mut VolMap,
    base: Option<Base>,
    snapshots: u32,
    span: u32,
    size: u32,
    kind: Kind,
) -> Ledger
    requires map { map.old.span ≡ span }
    requires span { span ≤ greatest_span }
    requires few { snapshots ≤ most_snapshots }
    ensures same { map.new ≡ map.old }
    ensures valid { IsVolume map.old }
    ensures counted { HasCounted map.old (base_counted base map.old) snapshots span size kind result }
{
    Ledger {
        charge: count_numbers(map, base) + map_blocks(span) * snapshots,
        need: 0,
        size,
        kind,
        span,
    }
}

/// Adds the names of snapshots, from the last to the first.
fn sort_names(snaps: &[Snap], sorted: &mut BTreeSet<Name>) -> Result<(), AllocError>
    requires { sorted.old.keys ≡ [] }
    ensures { OnOk result (sorted.new.keys ≡ names_kept snaps.entry.now) }
{
    for step in 0..snaps.len() {
        sort_name(sorted, snaps[snaps.len() - 1 - step].name)?;
    }
    Ok(())
}

/// Adds a name.
fn sort_name(sorted: &mut BTreeSet<Name>, name: Name) -> Result<(), AllocError>
    ensures { OnOk result (sorted.new.keys ≡ insert_key name_cmp sorted.old.keys name) }
{
    sorted.insert(name)?;
    Ok(())
}

/// The names of a set, in its order.
fn listed(alloc: Global, sorted: &BTreeSet<Name>) -> Result<Names, AllocError>
    ensures { IfOk result (λ names. names ≡ sorted.now.keys) }
{
    let mut names = Names::new(alloc);
    for name in sorted.iter() {
        names.push(name)?;
    }
    Ok(names)
}
