//! What a volume is charged for, by what roots reach.

ghost use Rattle.std.specs.Prelude.{◌≡◌, ◌≤◌, ◌<◌, ℕ, length, map, IfOk};
ghost use Rattle.fv_disk.specs.Shown.{Image};
ghost use Rattle.fv_codec.specs.Blocks.{IsLabel};
ghost use Rattle.fv_image.specs.NewerRoot.{Taken};
ghost use Rattle.fv_image.specs.Held.{layout_at};
ghost use Rattle.fv_image.specs.Views.{head_of};
ghost use Rattle.fv_image.specs.Volumes.{volume_told};
ghost use Rattle.fv_model.specs.Space.{charge};
ghost use Rattle.fv_fourth_pass.specs.Silent.{IsSilentLabel};

use crate::reach_sets::{left_of, sets_of};
use crate::uses::count_charge;
use fv_codec::Label;
use fv_first_pass::Known;
use fv_second_pass::Reached;
use fv_third_pass::roots_of;
use std::alloc::{AllocError, Global};

/// How many blocks the volume of a label in a slot is charged for, in an aggregate in which the first three passes found nothing, by what
/// the second told of roots (`reached`).
///
/// The one error is want of memory. Takes a bit for each VVBN of the volume, and with a base another one; costs a step for each word of
/// a root's set, and with a base for each VVBN.
pub fn charge_of(
    alloc: Global,
    reached: &Reached,
    slot: u8,
    label: &Label,
) -> Result<u32, AllocError>
    requires slot { slot < 64 }
    requires label { IsLabel label.now }
    requires long { length label.now.snapshots ≡ 24 }
    ensures { (t : Taken) (i : Image) (known : Known) → ((b : ℕ) → length (i b) ≡ 4096) → 1 ≤ t.blocks
        → IsSilentLabel t i known reached.now slot label.entry.now
        → IfOk result (λ n. n ≡ charge (volume_told (layout_at t i).view slot (head_of label.entry.now))) }
{
    let roots = roots_of(alloc, label)?;
    let sets = sets_of(alloc, reached, slot, label, &roots)?;
    Ok(count_charge(label, &sets.held, left_of(label, sets.base())))
}
