//! What volumes take of an aggregate: the blocks that each uses, and the entries that lead to blocks.

ghost use Rattle.std.specs.Prelude.{◌≡◌, ◌≤◌, ◌<◌, ◌+◌, ◌++◌, ◌∷◌, ◌^◌, [], ℕ, length, IfSome, OnOk};
ghost use Rattle.fv_codec.specs.Blocks.{IsLabel};
ghost use Rattle.fv_image.specs.Views.{View, head_of};
ghost use Rattle.fv_image.specs.Volumes.{volume_told};
ghost use Rattle.fv_model.specs.Space.{need};
ghost use Rattle.fv_fourth_pass.specs.Filled.{HasFilled};
ghost use Rattle.fv_fourth_pass.specs.Silent.{left_of};
ghost use Rattle.fv_fourth_pass.specs.Summed.{AreWithin, IsSpace, IsWithin};
ghost use Rattle.fv_fourth_pass.specs.Used.{HasSets};

use crate::filled::count_filled;
use crate::reach_sets::{Sets, left_of};
use crate::space::Filled;
use crate::uses::count_used;
use fv_codec::Label;
use std::alloc::AllocError;

/// What a volume takes.
#[derive(Clone, Copy, Debug, PartialEq, Eq)]
pub(crate) struct VolumeSpace {
    /// How many blocks it uses.
    pub used: u64,
    /// Which of its entries lead to blocks.
    pub filled: Filled,
}

/// What no volume takes.
pub(crate) const NOTHING: VolumeSpace = VolumeSpace {
    used: 0,
    filled: Filled { own: 0, delayed: 0 },
};

/// What the volumes of the first slots take.
#[derive(Debug, Drop)]
pub(crate) struct Sums {
    /// By slot, how many blocks each volume uses; 0 of a slot that isn't in use.
    pub uses: Vec<u64>,
    /// Which of all their entries lead to blocks.
    pub filled: Filled,
}

/// What the volume of a label takes, by its sets, the words of its entries, and how many blocks the reserves of its files still need.
///
/// Costs two steps for each entry, and a step for each word of a set; with a base one for each VVBN.
pub(crate) fn count_space(label: &Label, sets: &Sets, row: &[u32], needed: u64) -> VolumeSpace
    requires label { IsLabel label.now }
    requires long { length label.now.snapshots ≡ 24 }
    requires held { length sets.now.held ≡ label.now.span }
    requires base { IfSome sets.now.base (λ set. length set ≡ label.now.span) }
    requires needed { needed ≤ 2 ^ 55 }
    ensures exact { (w : View) (s : ℕ)
        → HasSets w s (head_of label.entry.now) sets.now.held (left_of label.entry.now sets.now.base)
        → HasFilled w s (head_of label.entry.now) sets.now.held row.now → needed ≡ need (volume_told w s (head_of label.entry.now))
        → IsSpace w s (head_of label.entry.now) result }
    ensures within { IsWithin result }
{
    VolumeSpace {
        used: count_used(label, &sets.held, left_of(label, sets.base()), needed),
        filled: count_filled(label, &sets.held, row),
    }
}

/// Adds what the volume of the next slot takes. The one error is want of memory.
pub(crate) fn add_space(sums: &mut Sums, space: VolumeSpace) -> Result<(), AllocError>
    requires low { length sums.old.uses.items < 64 }
    requires within { AreWithin sums.old }
    requires space { IsWithin space }
    ensures uses { OnOk result (sums.new.uses.items ≡ sums.old.uses.items ++ space.used ∷ []) }
    ensures own { OnOk result (sums.new.filled.own ≡ sums.old.filled.own + space.filled.own) }
    ensures delayed { OnOk result (sums.new.filled.delayed ≡ sums.old.filled.delayed + space.filled.delayed) }
{
    sums.uses.push(space.used)?;
    sums.filled.own += space.filled.own;
    sums.filled.delayed += space.filled.delayed;
    Ok(())
}
