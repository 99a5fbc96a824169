//! What a new volume is in memory.

ghost use Rattle.std.specs.Prelude.{◌≡◌, ◌≤◌};
ghost use Rattle.fv_volume.specs.States.{new_state};

use crate::state::{Base, Snapshots, VolumeState, new_ledger};
use fv_model::{Kind, Name};
use fv_pool::Rooted;
use fv_volmap::{STORED_SLOTS, VolMap};
use std::alloc::Global;

impl VolumeState {
    /// A new volume of this size in blocks and kind, with so many VVBNs for data, after `now` changes, with its base, its active table and
    /// its maps. It may get twice the size, has no snapshot, nothing of its files in memory and no label yet, is charged for nothing, and
    /// waits to be written. Costs some steps.
    pub(crate) fn made(
        alloc: Global,
        slot: u8,
        name: &Name,
        size: u32,
        kind: Kind,
        span: u32,
        now: u64,
        base: Option<Base>,
        active: Rooted,
        map: VolMap,
    ) -> VolumeState
        requires { size ≤ 500000 }
        ensures { result ≡ new_state slot name.now size kind span now base active map }
    {
        VolumeState {
            slot,
            name: *name,
            kind,
            size,
            most: 2 * size,
            span,
            now,
            known: true,
            base,
            active,
            snapshots: Snapshots::new(alloc),
            map,
            ledger: new_ledger(size, kind, span),
            files: None,
            numbers: None,
            label: 0,
            changed: true,
            fresh: [false; STORED_SLOTS],
        }
    }
}
