//! Walks over the slots of volumes.

ghost use Rattle.std.specs.Prelude.{◌≡◌, ◌<◌, ◌≤◌, ◌+◌, ◌*◌, ◌^◌, ℕ, true, false, length, None, IfSome, IfNone, take, sum_by};
ghost use Rattle.fv_container.specs.Chains.{slot_count};
ghost use Rattle.fv_model.specs.Numbers.{greatest_span};
ghost use Rattle.fv_volume.specs.States.{state_at};
ghost use Rattle.fv_volume.specs.Slots.{HasName, HaveSpans, HasSpan, IsFirstFree, IsFull, NoneHasName, committed_by, is_named, sum_of};

use fv_model::Name;
use fv_volume::VolumeState;

/// Whether a slot's volume has this name.
fn is_named(state: &Option<VolumeState>, name: &Name) -> bool
    ensures { result ≡ is_named state.now name.now }
{
    match state {
        Some(state) => state.name == *name,
        None => false,
    }
}

/// The first slot whose volume has this name.
pub(crate) fn find_name(states: &[Option<VolumeState>], name: &Name) -> Option<u8>
    requires { length states.now ≡ slot_count }
    ensures some { IfSome result (λ slot. (slot < slot_count) × HasName states.now slot name.now) }
    ensures none { IfNone result (NoneHasName states.now name.now) }
{
    for slot in 0..states.len() {
        if is_named(&states[slot], name) {
            return Some(slot as u8);
        }
    }
    None
}

/// The first free slot.
pub(crate) fn free_slot(states: &[Option<VolumeState>]) -> Option<u8>
    requires { length states.now ≡ slot_count }
    ensures some { IfSome result (λ slot. IsFirstFree states.now slot) }
    ensures none { IfNone result (IsFull states.now) }
{
    for slot in 0..states.len() {
        if states[slot].is_none() {
            return Some(slot as u8);
        }
    }
    None
}

/// What a slot's volume commits; nothing for a free one.
fn commit_of(state: &Option<VolumeState>) -> u64
    requires { HasSpan state.now }
    ensures value { result ≡ committed_by state.now }
    ensures most { result ≤ 2 ^ 34 }
{
    match state {
        Some(state) => state.ledger.commit(),
        None => 0,
    }
}

/// What all volumes commit together.
pub(crate) fn sum_commits(states: &[Option<VolumeState>]) -> u64
    requires few { length states.now ≡ slot_count }
    requires spans { HaveSpans states.now }
    ensures sum { result ≡ sum_of states.now }
    ensures most { result ≤ 64 * 2 ^ 34 }
{
    let mut sum = 0;
    for slot in 0..states.len() {
        sum += commit_of(&states[slot]);
    }
    sum
}
