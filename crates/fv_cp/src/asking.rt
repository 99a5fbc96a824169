//! What a consistency point asks for.

ghost use Rattle.std.specs.Prelude.{◌≡◌, ◌≤◌, ℕ, IfSome, option_copied};
ghost use Rattle.std.specs.Option.{option_map};
ghost use Rattle.fv_model.specs.Numbers.{greatest_span, most_asked};
ghost use Rattle.fv_volume.specs.Files.{IsLabelled};
ghost use Rattle.fv_volume.specs.States.{state_at};
ghost use Rattle.fv_cp.specs.Lent.{asked_by};
ghost use Rattle.fv_cp.specs.Choosing.{asked_marked, marked_as};
ghost use Rattle.fv_cp.specs.Planning.{is_set};

use fv_codec::SLOTS;
use fv_volume::VolumeState;
use fv_volumes::Volumes;

/// The blocks that the volumes ask for that changed or are due to be written.
pub(crate) fn blocks_asked(volumes: &Volumes, due: &[bool; 64]) -> u64
    requires { (s : ℕ) → IfSome (state_at volumes.now s) (IsLabelled s) }
    ensures { result ≡ asked_marked (is_set due.now) volumes.now }
{
    let mut asked = 0;
    for slot in 0..SLOTS {
        asked += asked_by(volumes.get(slot), due[slot as usize]);
    }
    asked
}

/// The blocks that the volume of a slot asks for, where it changed or is to be written: its overhead, and those of its snapshots' maps that
/// wait.
fn asked_by(state: Option<&VolumeState>, due: bool) -> u64
    requires { IfSome (option_copied state) (λ x. x.span ≤ greatest_span) }
    ensures value { result ≡ asked_by (option_map (marked_as due) (option_copied state.entry)) }
    ensures most { result ≤ most_asked }
{
    match state {
        Some(state) if due || state.is_changed() => state.asked(),
        _ => 0,
    }
}
