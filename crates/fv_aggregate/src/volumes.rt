//! What a session tells of its volumes.

ghost use Rattle.std.specs.Prelude.{◌≡◌, ◌<◌, ◌≤◌, ◌++◌, ℕ, [], IfOk, OnOk, OnErr, Some, None, length};
ghost use Rattle.fv_container.specs.Chains.{slot_count};
ghost use Rattle.fv_volume.specs.States.{state_at};
ghost use Rattle.fv_volume.specs.Trees.{Trees};
ghost use Rattle.fv_volume.specs.Files.{Over};
ghost use Rattle.fv_pool.specs.declared.pool.Pool.{Pool};
ghost use Rattle.fv_aggregate.specs.Standing.{charged_in};
ghost use Rattle.fv_aggregate.specs.Telling.{charged_by, charged_from, names_from, with_name};

use fv_codec::SLOTS;
use fv_model::{Name, Names};
use fv_volumes::Volumes;
use std::alloc::{AllocError, Global};
use std::collections::BTreeSet;

/// The names of all volumes in byte order.
pub(crate) fn names_of(alloc: Global, volumes: &Volumes) -> Result<Names, AllocError>
    ensures { IfOk result (λ names. names ≡ names_from volumes.now 0 slot_count) }
{
    let mut sorted = BTreeSet::new(alloc);
    sort_names(volumes, &mut sorted)?;
    listed(alloc, &sorted)
}

/// Adds the names of all volumes, from the last slot to the first.
#[tactic(auto, using(crate::proofs::Telling::names_none, crate::proofs::Telling::names_more))]
fn sort_names(volumes: &Volumes, sorted: &mut BTreeSet<Name>) -> Result<(), AllocError>
    requires { sorted.old.keys ≡ [] }
    ensures { OnOk result (sorted.new.keys ≡ names_from volumes.now 0 slot_count) }
{
    for step in 0..SLOTS {
        sort_name(volumes, sorted, SLOTS - 1 - step)?;
    }
    Ok(())
}

fn sort_name(volumes: &Volumes, sorted: &mut BTreeSet<Name>, slot: u8) -> Result<(), AllocError>
    requires { slot < slot_count }
    ensures { OnOk result (sorted.new.keys ≡ with_name (state_at volumes.now slot) sorted.old.keys) }
{
    if let Some(state) = volumes.get(slot) {
        sorted.insert(state.name)?;
    }
    Ok(())
}

fn listed(alloc: Global, sorted: &BTreeSet<Name>) -> Result<Names, AllocError>
    ensures { IfOk result (λ names. names ≡ sorted.now.keys) }
{
    let mut names = Names::new(alloc);
    for name in sorted.iter() {
        names.push(name)?;
    }
    Ok(names)
}

/// What the volume of a slot is charged for, in blocks; nothing for a free slot.
fn charge_of(volumes: &Volumes, slot: u8) -> u64
    requires { slot < slot_count }
    ensures charge { result ≡ charged_by (state_at volumes.now slot) }
    ensures most { result < 4294967296 }
{
    match volumes.get(slot) {
        Some(state) => u64::from(state.ledger.charge()),
        None => 0,
    }
}

/// The sum of the charges of all volumes, in blocks.
#[tactic(auto, using(crate::proofs::Charges::charges_are, crate::proofs::Charges::charges_none, crate::proofs::Charges::charges_more))]
pub(crate) fn sum_charges(volumes: &Volumes) -> u64
    ensures over { (pool : Pool) (trees : Trees) → Over pool volumes.now trees (λ m. result ≡ charged_in m) }
    ensures slots { result ≡ charged_from volumes.now 0 slot_count }
{
    let mut sum: u64 = 0;
    for step in 0..SLOTS {
        sum += charge_of(volumes, SLOTS - 1 - step);
    }
    sum
}
