//! Making a mirror of a snapshot, in memory.

ghost use Rattle.std.specs.Prelude.{◌≡◌, ◌<◌, ◌≤◌, IfOk, IsSome};
ghost use Rattle.fv_volmap.specs.Slots.{slot_at, slot_count};
ghost use Rattle.fv_volume.specs.Mirroring.{AreMapsOf, IsMirrorOf, mirror_table};

use crate::known::known_name;
use crate::state::{Base, VolumeState};
use fv_model::{Kind, Name};
use fv_pool::Rooted;
use fv_volmap::{BASE_SLOT, MapSlot, VolMap};
use std::alloc::{AllocError, Global};

impl VolumeState {
    /// A new mirror of this size in blocks and kind, with so many VVBNs for data, for a slot below 64. Its active table is that of the snapshot
    /// of `source` which `base` says (`base_at`), at a place that isn't known, and its active map has the numbers of the snapshot's; it begins
    /// with as many changes as `source`. It may get twice the size, stands on no base, has no snapshot, nothing of its files in memory and no
    /// label yet, is charged for `count` blocks, and waits to be written. Its places aren't known.
    ///
    /// The one error is want of memory. Costs a step for each word of 64 numbers of the span, whatever the number of files, and takes memory
    /// for the bits of a map and, meanwhile, of another.
    pub fn mirror_of(
        alloc: Global,
        slot: u8,
        name: &Name,
        size: u32,
        kind: Kind,
        span: u32,
        base: Base,
        count: u32,
        source: &VolumeState,
    ) -> Result<VolumeState, AllocError>
        requires size { size ≤ 500000 }
        requires base { base.slot < slot_count }
        requires used { IsSome (slot_at source.now.map base.slot) }
        requires span { source.now.map.span ≤ span }
        ensures { IfOk result (IsMirrorOf source.entry.now base count slot name.now size kind span) }
    {
        known_name(name);
        let now = source.now;
        let active = mirror_table(base.table);
        let map = maps_of(alloc, span, &source.map, base.slot)?;
        let mut state = VolumeState::made(
            alloc, slot, name, size, kind, span, now, None, active, map,
        );
        state.known = false;
        state.ledger.charge = count;
        Ok(state)
    }
}

/// A table at a place that isn't known.
fn mirror_table(mut table: Rooted) -> Rooted
    ensures { result ≡ mirror_table table }
{
    table.root.pvbn = 0;
    table
}

/// The maps of a new mirror of this span. Its active set is what a slot of another volume's maps has, and each other slot is free.
#[tactic(auto, using(crate::proofs::Mirrored::maps_made))]
fn maps_of(alloc: Global, span: u32, source: &VolMap, slot: MapSlot) -> Result<VolMap, AllocError>
    requires slot { slot < slot_count }
    requires used { IsSome (slot_at source.now slot) }
    requires span { source.now.span ≤ span }
    ensures { IfOk result (AreMapsOf (slot_at source.entry.now slot) span) }
{
    let mut maps = VolMap::new(alloc, span)?;
    // No call copies a set into the active slot alone: it goes by the base's slot, which is free again behind it.
    maps.stand_on(source, slot)?;
    maps.restore(BASE_SLOT);
    maps.forget(BASE_SLOT);
    Ok(maps)
}
