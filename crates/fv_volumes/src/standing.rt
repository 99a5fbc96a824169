//! Whether clones stand on a volume, or on a snapshot of it.

ghost use Rattle.std.specs.Prelude.{◌≡◌, ◌==◌, true, length};
ghost use Rattle.std.specs.Option.{option_map_or};
ghost use Rattle.fv_container.specs.Chains.{slot_count};
ghost use Rattle.fv_volumes.specs.Footing.{is_base_on, is_snap_stood_on, is_stood_on, some_stands, stands_by};

use fv_volmap::MapSlot;
use fv_volume::VolumeState;

/// Whether a map slot is the one that is looked for; each is where none is given.
fn is_wanted(slot: MapSlot, wanted: Option<MapSlot>) -> bool
    ensures { result ≡ option_map_or (λ w. slot == w) wanted true }
{
    match wanted {
        Some(wanted) => slot == wanted,
        None => true,
    }
}

/// Whether a slot's volume stands on the volume of another slot: on its snapshot with a map slot, or on whichever where none is given.
fn is_on(state: &Option<VolumeState>, slot: u8, snap: Option<MapSlot>) -> bool
    ensures { result ≡ stands_by (is_base_on slot snap) state.now }
{
    match state {
        Some(state) => match &state.base {
            Some(base) => base.parent == slot && is_wanted(base.slot, snap),
            None => false,
        },
        None => false,
    }
}

/// Whether a clone stands on the volume of a slot: on its snapshot with a map slot, or on whichever where none is given.
fn some_is_on(states: &[Option<VolumeState>], slot: u8, snap: Option<MapSlot>) -> bool
    requires { length states.now ≡ slot_count }
    ensures { result ≡ some_stands states.now (is_base_on slot snap) }
{
    for at in 0..states.len() {
        if is_on(&states[at], slot, snap) {
            return true;
        }
    }
    false
}

/// Whether a clone stands on the volume of a slot.
pub(crate) fn is_stood_on(states: &[Option<VolumeState>], slot: u8) -> bool
    requires { length states.now ≡ slot_count }
    ensures { result ≡ is_stood_on states.now slot }
{
    some_is_on(states, slot, None)
}

/// Whether a clone stands on the snapshot with a map slot of the volume of a slot.
pub(crate) fn is_snap_stood_on(states: &[Option<VolumeState>], slot: u8, snap: MapSlot) -> bool
    requires { length states.now ≡ slot_count }
    ensures { result ≡ is_snap_stood_on states.now slot snap }
{
    some_is_on(states, slot, Some(snap))
}
