//! Making a clone of a snapshot, in memory.

ghost use Rattle.std.specs.Prelude.{◌≡◌, ◌<◌, ◌≤◌, IfOk, IsSome};
ghost use Rattle.std.specs.Option.{option_map};
ghost use Rattle.fv_volmap.specs.Slots.{slot_at, slot_count, IsVolume};
ghost use Rattle.fv_volume.specs.Asking.{snap_named};
ghost use Rattle.fv_volume.specs.Cloning.{base_on, count_in, AreMapsOn, IsCloneOf};

use crate::known::known_name;
use crate::state::{Base, VolumeState};
use fv_model::{Kind, Name};
use fv_volmap::{BASE_SLOT, MapSlot, VolMap};
use std::alloc::{AllocError, Global};

impl VolumeState {
    /// What a clone of the snapshot of a name stands on: this volume, and the snapshot's map slot, name and table. `None` exactly where no
    /// snapshot has the name. Costs a step for each snapshot.
    pub fn base_at(&self, snapshot: &Name) -> Option<Base>
        ensures { result ≡ option_map (base_on self.entry.now) (snap_named self.entry.now.snapshots snapshot.now) }
    {
        let snap = self.snapshots.named(snapshot)?;
        Some(Base {
            parent: self.slot,
            slot: snap.slot,
            splitting: false,
            name: self.name,
            snapshot: snap.name,
            table: snap.table,
        })
    }

    /// How many numbers the map of a slot below 26 has, none for a free one; of the map of a snapshot as many as its table has ids. Costs
    /// a step for each word of 64 numbers of the span.
    pub fn count_in(&self, slot: MapSlot) -> u32
        requires { slot < slot_count }
        ensures count { result ≡ count_in self.entry.now slot }
        ensures most { result ≤ self.entry.now.map.span }
        ensures whole { IsVolume self.entry.now.map }
    {
        match self.map.snapshot(slot) {
            Some(map) => map.count(),
            None => 0,
        }
    }

    /// A new clone of this size in blocks and kind, with so many VVBNs for data, for a slot below 64. Its active table is that of the
    /// snapshot of `parent` which `base` says (`base_at`), and it begins with as many changes as `parent`. It may get twice the size, has no
    /// snapshot, nothing of its files in memory and no label yet, is charged for nothing, and waits to be written.
    ///
    /// The one error is want of memory. Costs a step for each word of 64 numbers of the span, whatever the number of files, and takes memory
    /// for the bits of two maps and of their union.
    pub fn clone_of(
        alloc: Global,
        slot: u8,
        name: &Name,
        size: u32,
        kind: Kind,
        span: u32,
        base: Base,
        parent: &VolumeState,
    ) -> Result<VolumeState, AllocError>
        requires size { size ≤ 500000 }
        requires base { base.slot < slot_count }
        requires used { IsSome (slot_at parent.now.map base.slot) }
        requires span { parent.now.map.span ≤ span }
        ensures { IfOk result (IsCloneOf parent.entry.now base slot name.now size kind span) }
    {
        known_name(name);
        let now = parent.now;
        let active = base.table;
        let map = maps_on(alloc, span, &parent.map, base.slot)?;
        Ok(VolumeState::made(
            alloc,
            slot,
            name,
            size,
            kind,
            span,
            now,
            Some(base),
            active,
            map,
        ))
    }
}

/// The maps of a new clone of this span, which stands on a slot of its parent's maps. Its active set is what that slot has.
fn maps_on(alloc: Global, span: u32, parent: &VolMap, slot: MapSlot) -> Result<VolMap, AllocError>
    requires slot { slot < slot_count }
    requires used { IsSome (slot_at parent.now slot) }
    requires span { parent.now.span ≤ span }
    ensures { IfOk result (AreMapsOn (slot_at parent.entry.now slot) span) }
{
    let mut maps = VolMap::new(alloc, span)?;
    maps.stand_on(parent, slot)?;
    maps.restore(BASE_SLOT);
    Ok(maps)
}
