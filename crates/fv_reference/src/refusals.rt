//! When something in the machine before a command refuses it.
ghost use Rattle.std.specs.Prelude.{◌≡◌, IfOk, Some, None};
ghost use Rattle.fv_model.specs.Refusals.{first_of};
ghost use Rattle.fv_laws.specs.Halves.{before_space};

use crate::aggregates::Aggregate;
use crate::asked::*;
use fv_model::{Block, Command, Kind, Name, Refusal, in_index, in_reserve, in_size, in_steps};
use std::alloc::{AllocError, Global};

/// The first refusal whose condition holds, those for want of space left out.
pub fn refusal_before_space(
    alloc: Global,
    aggregate: &Aggregate,
    command: &Command,
) -> Result<Option<Refusal>, AllocError>
    ensures { IfOk result (λ r. r ≡ first_of (before_space aggregate.now command.now)) }
{
    match command {
        Command::VolCreate { volume, size, kind } => Ok(of_creation(
            aggregate, volume, *size, *kind,
        )),
        Command::VolDestroy { volume } => Ok(of_removal(aggregate, volume)),
        Command::VolResize { volume, size } => Ok(of_size(aggregate, volume, *size)),
        Command::VolGuarantee { volume, kind } => Ok(of_kind(aggregate, volume, *kind)),
        Command::VolList => Ok(of_vol_list(aggregate)),
        Command::VolStat { volume } => Ok(of_stat(aggregate, volume)),
        Command::New {
            volume,
            file,
            reserve,
        } => Ok(of_new(aggregate, volume, file, *reserve)),
        Command::Put {
            volume,
            file,
            index,
            block,
        } => Ok(of_put(aggregate, volume, file, *index, block)),
        Command::Get {
            volume,
            snapshot,
            file,
            index,
        } => Ok(of_get(aggregate, volume, snapshot, file, *index)),
        Command::Len {
            volume,
            snapshot,
            file,
        } => Ok(of_len(aggregate, volume, snapshot, file)),
        Command::Cut {
            volume,
            file,
            length,
        } => Ok(of_cut(aggregate, volume, file, *length)),
        Command::Remove { volume, file } => Ok(of_remove(aggregate, volume, file)),
        Command::Ls { volume, snapshot } => Ok(of_ls(aggregate, volume, snapshot)),
        Command::SnapCreate { volume, snapshot } => Ok(of_snapshot(aggregate, volume, snapshot)),
        Command::SnapDelete { volume, snapshot } => Ok(of_deletion(aggregate, volume, snapshot)),
        Command::SnapRestore { volume, snapshot } => Ok(of_restoring(aggregate, volume, snapshot)),
        Command::SnapList { volume } => Ok(of_snap_list(aggregate, volume)),
        Command::CloneCreate {
            clone,
            parent,
            snapshot,
            size,
            kind,
        } => of_clone(alloc, aggregate, clone, parent, snapshot, *size, *kind),
        Command::SplitStart { clone } => Ok(of_split(aggregate, clone)),
        Command::SplitFinish { clone } => Ok(of_split_end(aggregate, clone)),
        Command::Mirror {
            source,
            snapshot,
            volume,
            size,
            kind,
        } => Ok(of_mirror(aggregate, source, snapshot, volume, *size, *kind)),
        Command::Clean { volume } => Ok(of_cleaning(aggregate, volume)),
        Command::Probe {
            volume,
            file,
            index,
        } => Ok(of_probe(aggregate, volume, file, *index)),
        Command::Work { steps } => Ok(of_work(aggregate, *steps)),
        Command::Cp => Ok(of_cp(aggregate)),
    }
}

/// The first of these refusals whose condition holds.
macro_rules! refusals {
    ($($refusal:ident: $condition:expr),*) => {
        first_of(&[$((Refusal::$refusal, $condition)),*])
    };
}

/// The first refusal whose condition holds.
fn first_of(conditions: &[(Refusal, bool)]) -> Option<Refusal>
    ensures { result ≡ first_of conditions.now }
{
    for condition in conditions {
        if condition.1 {
            return Some(condition.0);
        }
    }
    None
}

#[tactic(auto, unfolding(fv_model::specs::Refusals::conditions))]
fn of_creation(aggregate: &Aggregate, name: &Name, size: u32, kind: Kind) -> Option<Refusal>
    ensures { result ≡ first_of (before_space aggregate.now (Command.VolCreate name.now size kind)) }
{
    refusals!(Range: !in_size(u64::from(size)), VolumeExists: is_taken(aggregate, name), TooMany: has_all_volumes(aggregate))
}

#[tactic(auto, unfolding(fv_model::specs::Refusals::conditions))]
fn of_removal(aggregate: &Aggregate, name: &Name) -> Option<Refusal>
    ensures { result ≡ first_of (before_space aggregate.now (Command.VolDestroy name.now)) }
{
    refusals!(NoVolume: is_missing(aggregate, name), VolumeInUse: is_parent(aggregate, name))
}

#[tactic(auto, unfolding(fv_model::specs::Refusals::conditions))]
fn of_size(aggregate: &Aggregate, name: &Name, size: u32) -> Option<Refusal>
    ensures { result ≡ first_of (before_space aggregate.now (Command.VolResize name.now size)) }
{
    refusals!(Range: !in_size(u64::from(size)), NoVolume: is_missing(aggregate, name), Range: is_past_most(aggregate, name, size))
}

#[tactic(auto, unfolding(fv_model::specs::Refusals::conditions))]
fn of_kind(aggregate: &Aggregate, name: &Name, kind: Kind) -> Option<Refusal>
    ensures { result ≡ first_of (before_space aggregate.now (Command.VolGuarantee name.now kind)) }
{
    refusals!(NoVolume: is_missing(aggregate, name))
}

#[tactic(auto, unfolding(fv_model::specs::Refusals::conditions))]
fn of_stat(aggregate: &Aggregate, name: &Name) -> Option<Refusal>
    ensures { result ≡ first_of (before_space aggregate.now (Command.VolStat name.now)) }
{
    refusals!(NoVolume: is_missing(aggregate, name))
}

#[tactic(auto, unfolding(fv_model::specs::Refusals::conditions))]
fn of_new(aggregate: &Aggregate, name: &Name, file: &Name, reserve: u32) -> Option<Refusal>
    ensures { result ≡ first_of (before_space aggregate.now (Command.New name.now file.now reserve)) }
{
    refusals!(
        Range: !in_reserve(u64::from(reserve)), NoVolume: is_missing(aggregate, name),
        FileExists: has_file(aggregate, name, file), WrongKind: is_wrong_kind(aggregate, name, reserve),
        TooMany: has_all_files(aggregate, name) || has_all_changes(aggregate, name)
    )
}

#[tactic(auto, unfolding(fv_model::specs::Refusals::conditions))]
fn of_put(
    aggregate: &Aggregate,
    name: &Name,
    file: &Name,
    index: u32,
    block: &Block,
) -> Option<Refusal>
    ensures { result ≡ first_of (before_space aggregate.now (Command.Put name.now file.now index block.now)) }
{
    refusals!(
        Range: !in_index(u64::from(index)), NoVolume: is_missing(aggregate, name),
        NoFile: lacks_file(aggregate, name, &None, file), TooMany: has_all_changes(aggregate, name)
    )
}

#[tactic(auto, unfolding(fv_model::specs::Refusals::conditions))]
fn of_get(
    aggregate: &Aggregate,
    name: &Name,
    snapshot: &Option<Name>,
    file: &Name,
    index: u32,
) -> Option<Refusal>
    ensures { result ≡ first_of (before_space aggregate.now (Command.Get name.now snapshot.now file.now index)) }
{
    refusals!(
        Range: !in_index(u64::from(index)), NoVolume: is_missing(aggregate, name),
        NoSnapshot: lacks_snapshot(aggregate, name, snapshot), NoFile: lacks_file(aggregate, name, snapshot, file),
        Range: is_past_end(aggregate, name, snapshot, file, index)
    )
}

#[tactic(auto, unfolding(fv_model::specs::Refusals::conditions))]
fn of_len(
    aggregate: &Aggregate,
    name: &Name,
    snapshot: &Option<Name>,
    file: &Name,
) -> Option<Refusal>
    ensures { result ≡ first_of (before_space aggregate.now (Command.Len name.now snapshot.now file.now)) }
{
    refusals!(
        NoVolume: is_missing(aggregate, name), NoSnapshot: lacks_snapshot(aggregate, name, snapshot),
        NoFile: lacks_file(aggregate, name, snapshot, file)
    )
}

#[tactic(auto, unfolding(fv_model::specs::Refusals::conditions))]
fn of_cut(aggregate: &Aggregate, name: &Name, file: &Name, length: u32) -> Option<Refusal>
    ensures { result ≡ first_of (before_space aggregate.now (Command.Cut name.now file.now length)) }
{
    refusals!(
        Range: !in_reserve(u64::from(length)), NoVolume: is_missing(aggregate, name),
        NoFile: lacks_file(aggregate, name, &None, file), Range: is_past_length(aggregate, name, file, length),
        TooMany: has_all_changes(aggregate, name)
    )
}

#[tactic(auto, unfolding(fv_model::specs::Refusals::conditions))]
fn of_remove(aggregate: &Aggregate, name: &Name, file: &Name) -> Option<Refusal>
    ensures { result ≡ first_of (before_space aggregate.now (Command.Remove name.now file.now)) }
{
    refusals!(
        NoVolume: is_missing(aggregate, name), NoFile: lacks_file(aggregate, name, &None, file),
        TooMany: has_all_changes(aggregate, name)
    )
}

#[tactic(auto, unfolding(fv_model::specs::Refusals::conditions))]
fn of_ls(aggregate: &Aggregate, name: &Name, snapshot: &Option<Name>) -> Option<Refusal>
    ensures { result ≡ first_of (before_space aggregate.now (Command.Ls name.now snapshot.now)) }
{
    refusals!(NoVolume: is_missing(aggregate, name), NoSnapshot: lacks_snapshot(aggregate, name, snapshot))
}

#[tactic(auto, unfolding(fv_model::specs::Refusals::conditions))]
fn of_snapshot(aggregate: &Aggregate, name: &Name, snapshot: &Name) -> Option<Refusal>
    ensures { result ≡ first_of (before_space aggregate.now (Command.SnapCreate name.now snapshot.now)) }
{
    refusals!(
        NoVolume: is_missing(aggregate, name), SnapshotExists: has_snapshot(aggregate, name, snapshot),
        TooMany: has_all_snapshots(aggregate, name)
    )
}

#[tactic(auto, unfolding(fv_model::specs::Refusals::conditions))]
fn of_deletion(aggregate: &Aggregate, name: &Name, snapshot: &Name) -> Option<Refusal>
    ensures { result ≡ first_of (before_space aggregate.now (Command.SnapDelete name.now snapshot.now)) }
{
    refusals!(
        NoVolume: is_missing(aggregate, name), NoSnapshot: lacks_snapshot(aggregate, name, &Some(*snapshot)),
        SnapshotInUse: is_base(aggregate, name, snapshot)
    )
}

#[tactic(auto, unfolding(fv_model::specs::Refusals::conditions))]
fn of_restoring(aggregate: &Aggregate, name: &Name, snapshot: &Name) -> Option<Refusal>
    ensures { result ≡ first_of (before_space aggregate.now (Command.SnapRestore name.now snapshot.now)) }
{
    refusals!(NoVolume: is_missing(aggregate, name), NoSnapshot: lacks_snapshot(aggregate, name, &Some(*snapshot)))
}

#[tactic(auto, unfolding(fv_model::specs::Refusals::conditions))]
fn of_snap_list(aggregate: &Aggregate, name: &Name) -> Option<Refusal>
    ensures { result ≡ first_of (before_space aggregate.now (Command.SnapList name.now)) }
{
    refusals!(NoVolume: is_missing(aggregate, name))
}

#[tactic(auto, unfolding(fv_model::specs::Refusals::conditions))]
fn of_clone(
    alloc: Global,
    aggregate: &Aggregate,
    clone: &Name,
    parent: &Name,
    snapshot: &Name,
    size: u32,
    kind: Kind,
) -> Result<Option<Refusal>, AllocError>
    ensures { IfOk result (λ r. r ≡ first_of (before_space aggregate.now (Command.CloneCreate clone.now parent.now snapshot.now size kind))) }
{
    Ok(refusals!(
        Range: !in_size(u64::from(size)), NoVolume: is_missing(aggregate, parent),
        NoSnapshot: lacks_snapshot(aggregate, parent, &Some(*snapshot)), VolumeExists: is_taken(aggregate, clone),
        VolumeInUse: is_splitting(aggregate, parent), ParentNotClean: is_unclean(aggregate, parent),
        Range: is_clone_too_wide(alloc, aggregate, parent, snapshot, size)?, TooMany: has_all_volumes(aggregate)
    ))
}

#[tactic(auto, unfolding(fv_model::specs::Refusals::conditions))]
fn of_split(aggregate: &Aggregate, name: &Name) -> Option<Refusal>
    ensures { result ≡ first_of (before_space aggregate.now (Command.SplitStart name.now)) }
{
    refusals!(
        NoVolume: is_missing(aggregate, name), NotClone: is_no_whole_clone(aggregate, name),
        VolumeInUse: is_parent(aggregate, name)
    )
}

#[tactic(auto, unfolding(fv_model::specs::Refusals::conditions))]
fn of_split_end(aggregate: &Aggregate, name: &Name) -> Option<Refusal>
    ensures { result ≡ first_of (before_space aggregate.now (Command.SplitFinish name.now)) }
{
    refusals!(NoVolume: is_missing(aggregate, name), NotClone: is_unsplit(aggregate, name))
}

#[tactic(auto, unfolding(fv_model::specs::Refusals::conditions))]
fn of_mirror(
    aggregate: &Aggregate,
    source: &Name,
    snapshot: &Name,
    name: &Name,
    size: u32,
    kind: Kind,
) -> Option<Refusal>
    ensures { result ≡ first_of (before_space aggregate.now (Command.Mirror source.now snapshot.now name.now size kind)) }
{
    refusals!(
        Range: !in_size(u64::from(size)), NoVolume: is_missing(aggregate, source),
        NoSnapshot: lacks_snapshot(aggregate, source, &Some(*snapshot)), VolumeExists: is_taken(aggregate, name),
        Range: is_mirror_too_wide(aggregate, source, size), TooMany: has_all_volumes(aggregate)
    )
}

#[tactic(auto, unfolding(fv_model::specs::Refusals::conditions))]
fn of_cleaning(aggregate: &Aggregate, name: &Name) -> Option<Refusal>
    ensures { result ≡ first_of (before_space aggregate.now (Command.Clean name.now)) }
{
    refusals!(NoVolume: is_missing(aggregate, name), VolumeInUse: is_splitting(aggregate, name))
}

#[tactic(auto, unfolding(fv_model::specs::Refusals::conditions))]
fn of_probe(aggregate: &Aggregate, name: &Name, file: &Name, index: u32) -> Option<Refusal>
    ensures { result ≡ first_of (before_space aggregate.now (Command.Probe name.now file.now index)) }
{
    refusals!(
        Range: !in_index(u64::from(index)), NoVolume: is_missing(aggregate, name),
        NoFile: lacks_file(aggregate, name, &None, file), Range: is_past_end(aggregate, name, &None, file, index)
    )
}

#[tactic(auto, unfolding(fv_model::specs::Refusals::conditions))]
fn of_work(aggregate: &Aggregate, steps: u32) -> Option<Refusal>
    ensures { result ≡ first_of (before_space aggregate.now (Command.Work steps)) }
{
    refusals!(Range: !in_steps(u64::from(steps)))
}

#[tactic(auto, unfolding(fv_model::specs::Refusals::conditions))]
fn of_vol_list(aggregate: &Aggregate) -> Option<Refusal>
    ensures { result ≡ first_of (before_space aggregate.now Command.VolList) }
{
    let _asked = aggregate;
    first_of(&[])
}

#[tactic(auto, unfolding(fv_model::specs::Refusals::conditions))]
fn of_cp(aggregate: &Aggregate) -> Option<Refusal>
    ensures { result ≡ first_of (before_space aggregate.now Command.Cp) }
{
    let _asked = aggregate;
    first_of(&[])
}
