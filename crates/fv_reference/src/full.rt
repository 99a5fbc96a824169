//! When a command is refused for want of space.
ghost use Rattle.std.specs.Prelude.{◌≡◌, ◌∷◌, [], Some, None};
ghost use Rattle.fv_model.specs.Machines.{Machine};
ghost use Rattle.fv_model.specs.Effects.{effect};
ghost use Rattle.fv_model.specs.Refusals.{first_of, is_volume_full, is_aggregate_full};
ghost use Rattle.fv_laws.specs.Halves.{for_space};

use crate::aggregates::Aggregate;
use fv_model::{Command, Name, Refusal};

/// The refusal for want of space, given the volumes after the command.
#[tactic(auto, unfolding(fv_model::specs::Refusals::conditions))]
pub fn refusal_for_space(after: &Aggregate, command: &Command) -> Option<Refusal>
    ensures { (m : Machine) → after.now ≡ effect m command.now → result ≡ first_of (for_space m command.now) }
{
    match command {
        Command::VolCreate { .. } => of_aggregate(after),
        Command::VolResize { volume, .. }
        | Command::VolGuarantee { volume, .. }
        | Command::New { volume, .. }
        | Command::Put { volume, .. }
        | Command::Cut { volume, .. }
        | Command::Remove { volume, .. }
        | Command::SnapCreate { volume, .. }
        | Command::SnapRestore { volume, .. }
        | Command::Mirror { volume, .. } => of_volume(after, volume),
        Command::CloneCreate { clone, .. } | Command::SplitStart { clone } => {
            of_volume(after, clone)
        }
        _ => None,
    }
}

fn of_volume(after: &Aggregate, name: &Name) -> Option<Refusal>
    ensures { result ≡ first_of ((Refusal.VolumeFull, is_volume_full after.now name.now) ∷ (Refusal.AggregateFull, is_aggregate_full after.now) ∷ []) }
{
    if is_volume_full(after, name) {
        return Some(Refusal::VolumeFull);
    }
    of_aggregate(after)
}

fn of_aggregate(after: &Aggregate) -> Option<Refusal>
    ensures { result ≡ first_of ((Refusal.AggregateFull, is_aggregate_full after.now) ∷ []) }
{
    if after.is_full() {
        Some(Refusal::AggregateFull)
    } else {
        None
    }
}

/// Whether the volume uses more than its size.
fn is_volume_full(after: &Aggregate, name: &Name) -> bool
    ensures { result ≡ is_volume_full after.now name.now }
{
    match after.counted(name) {
        None => false,
        Some(counted) => u128::from(counted.volume().size()) < counted.use_of(),
    }
}
