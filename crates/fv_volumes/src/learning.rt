//! What the volumes of a root stand on, once all of them were read.

ghost use Rattle.std.specs.Prelude.{◌≡◌, ◌≢◌, ℕ, ◌<◌, length, IfSome, OnOk};
ghost use Rattle.fv_container.specs.Chains.{slot_count};
ghost use Rattle.fv_volume.specs.Files.{IsLabelled};
ghost use Rattle.fv_volume.specs.KnownBase.{KeepsRest, KnowsBase};
ghost use Rattle.fv_volume.specs.States.{state_at};
ghost use Rattle.fv_volumes.specs.Learned.{HaveLearned, LearnsIn};

use fv_volume::VolumeState;
use std::alloc::AllocError;

/// Lets a volume learn what it stands on from the one of these in the slot of its base, if there is one.
fn learn_from(state: &mut VolumeState, states: &[Option<VolumeState>]) -> Result<(), AllocError>
    requires labelled { IsLabelled state.old.slot state.old }
    requires others { (s : ℕ) → IfSome (state_at states.now s) (IsLabelled s) }
    ensures rest { KeepsRest state.old state.new }
    ensures knows { OnOk result (IfSome state.new.base (λ base. IfSome (state_at states.entry.now base.parent) (λ parent. KnowsBase parent state.new))) }
{
    let Some(base) = state.base else {
        return Ok(());
    };
    match states.get(base.parent as usize) {
        Some(Some(parent)) => state.learn_base(parent),
        _ => Ok(()),
    }
}

/// Lets the volume of a slot learn what it stands on. It's away from its slot meanwhile, so one that says that it stands on itself finds
/// nothing there.
fn learn_volume(states: &mut Vec<Option<VolumeState>>, slot: usize) -> Result<(), AllocError>
    requires slot { slot < length states.old.items }
    requires labelled { (s : ℕ) → IfSome (state_at states.old.items s) (IsLabelled s) }
    ensures long { length states.new.items ≡ length states.old.items }
    ensures learns { OnOk result (LearnsIn states.old.items slot (state_at states.old.items slot) (state_at states.new.items slot)) }
    ensures others { (s : ℕ) → s ≢ slot → state_at states.new.items s ≡ state_at states.old.items s }
{
    let Some(mut state) = states[slot].take() else {
        return Ok(());
    };
    let learned = learn_from(&mut state, states);
    states[slot] = Some(state);
    learned
}

/// Lets the volumes of all slots learn what they stand on, whichever slots are the lower ones. Where a parent or its snapshot isn't there,
/// or the parent is wider, a volume stays as it was read: no sound image has one. The one error is want of memory.
///
/// Costs for each volume that stands on another a step for each snapshot of that, and for each word of 64 numbers of its span; it reads no
/// block.
pub(crate) fn learn_bases(states: &mut Vec<Option<VolumeState>>) -> Result<(), AllocError>
    requires long { length states.old.items ≡ slot_count }
    requires labelled { (s : ℕ) → IfSome (state_at states.old.items s) (IsLabelled s) }
    ensures { OnOk result (HaveLearned slot_count states.old.items states.new.items) }
{
    for slot in 0..64 {
        learn_volume(states, slot)?;
    }
    Ok(())
}
