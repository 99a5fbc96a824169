//! What a volume stands on, once its parent was read.

ghost use Rattle.std.specs.Prelude.{◌≡◌, ◌==◌, ◌<◌, find, None, IfSome, OnErr, OnOk, option_copied};
ghost use Rattle.fv_image.specs.Volumes.{snap_at};
ghost use Rattle.fv_volume.specs.Files.{IsLabelled};
ghost use Rattle.fv_volume.specs.KnownBase.{KeepsRest, KnowsBase};
ghost use Rattle.fv_volume.specs.States.{head_in};

use crate::state::{Base, Snap, Snapshots, VolumeState};
use fv_volmap::MapSlot;
use std::alloc::AllocError;

impl Snapshots {
    /// The snapshot of a map slot; `None` exactly where none has it. Costs a step for each snapshot.
    fn of_slot(&self, slot: MapSlot) -> Option<&Snap>
        ensures { option_copied result ≡ find (λ snap. snap.slot == slot) self.entry.now }
    {
        self.as_slice().iter().find(|snap| snap.slot == slot)
    }
}

impl VolumeState {
    /// Learns from `parent`, the volume in the slot of its base, what it stands on: the names of that and of its snapshot, the snapshot's
    /// table, and the numbers that this reaches. Where `parent` has no such snapshot, or is wider, nothing changes: no sound image says so.
    ///
    /// The one error is want of memory; nothing changes then. Costs a step for each snapshot of `parent` and for each word of 64 numbers
    /// of the span, and reads no block.
    pub fn learn_base(&mut self, parent: &VolumeState) -> Result<(), AllocError>
        requires labelled { IsLabelled self.old.slot self.old }
        requires parent { IsLabelled parent.now.slot parent.now }
        ensures failed { OnErr result (self.new ≡ self.old) }
        ensures lacking { IfSome self.old.base (λ base. snap_at (head_in parent.entry.now) base.slot ≡ None → self.new ≡ self.old) }
        ensures wider { self.old.span < parent.entry.now.span → self.new ≡ self.old }
        ensures rest { KeepsRest self.old self.new }
        ensures knows { OnOk result (KnowsBase parent.entry.now self.new) }
    {
        let Some(base) = self.base else {
            return Ok(());
        };
        let Some(snap) = parent.snapshots.of_slot(base.slot) else {
            return Ok(());
        };
        if self.span < parent.span {
            return Ok(());
        }
        self.map.stand_on(&parent.map, base.slot)?;
        self.base = Some(Base {
            name: parent.name,
            snapshot: snap.name,
            table: snap.table,
            ..base
        });
        Ok(())
    }
}
