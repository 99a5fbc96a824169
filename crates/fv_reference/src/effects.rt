//! What each command does to an aggregate, where nothing in the aggregate before it refuses it.
ghost use Rattle.std.specs.Prelude.{◌≡◌, ◌+◌, ◌<◌, ◌≤◌, ◌^◌, IfOk, option_map, Some, None, true, false};
ghost use Rattle.std.specs.FinMap as fin;
ghost use Rattle.std.specs.FinSet as set;
ghost use Rattle.fv_model.specs.Numbers.{most_changes, most_files, greatest_span};
ghost use Rattle.fv_model.specs.Tables.{Table, new, put, cut, rm};
ghost use Rattle.fv_model.specs.Places.{ids_of};
ghost use Rattle.fv_model.specs.Space.{span_of};
ghost use Rattle.fv_model.specs.Effects.{changed, at_volume, at_file, at_snapshot, stamped, empty_volume, clone_of, mirror_of, being_split, Becomes, effect};
ghost use Rattle.fv_model.specs.Refusals.{first_of};
ghost use Rattle.fv_laws.specs.Halves.{before_space};

use crate::aggregates::Aggregate;
use crate::volumes::Volume;
use fv_model::{Block, Command, Kind, Name};
use std::alloc::{AllocError, Global};

/// The aggregate after a change.
type Changed = Result<Aggregate, AllocError>;

/// The aggregate with a change of what was found in it, or as it is where that isn't found.
macro_rules! where_found {
    ($aggregate:ident, $found:expr, $one:pat => $changed:expr) => {
        match $found {
            None => $aggregate.clone(),
            Some($one) => $changed,
        }
    };
}

/// The aggregate after a command, whatever the volumes use and commit then.
#[tactic(auto, unfolding(fv_model::specs::Effects::change_of))]
pub fn effect(
    alloc: Global,
    aggregate: &Aggregate,
    command: &Command,
) -> Result<Aggregate, AllocError>
    requires { first_of (before_space aggregate.now command.now) ≡ None }
    ensures { IfOk result (λ m. m ≡ effect aggregate.now command.now) }
{
    match command {
        Command::VolCreate { volume, size, kind } => {
            created(alloc, aggregate, volume, *size, *kind)
        }
        Command::VolDestroy { volume } => aggregate.without_volume(volume),
        Command::VolResize { volume, size } => resized(alloc, aggregate, volume, *size),
        Command::VolGuarantee { volume, kind } => guaranteed(alloc, aggregate, volume, *kind),
        Command::New {
            volume,
            file,
            reserve,
        } => with_file(alloc, aggregate, volume, file, *reserve),
        Command::Put {
            volume,
            file,
            index,
            block,
        } => written(alloc, aggregate, volume, file, *index, block),
        Command::Cut {
            volume,
            file,
            length,
        } => shortened(alloc, aggregate, volume, file, *length),
        Command::Remove { volume, file } => without_file(alloc, aggregate, volume, file),
        Command::SnapCreate { volume, snapshot } => kept(alloc, aggregate, volume, snapshot),
        Command::SnapDelete { volume, snapshot } => forgotten(alloc, aggregate, volume, snapshot),
        Command::SnapRestore { volume, snapshot } => restored(alloc, aggregate, volume, snapshot),
        Command::CloneCreate {
            clone,
            parent,
            snapshot,
            size,
            kind,
        } => cloned(alloc, aggregate, clone, parent, snapshot, *size, *kind),
        Command::SplitStart { clone } => split_started(alloc, aggregate, clone),
        Command::SplitFinish { clone } => split_finished(alloc, aggregate, clone),
        Command::Mirror {
            source,
            snapshot,
            volume,
            size,
            kind,
        } => mirrored(alloc, aggregate, source, snapshot, volume, *size, *kind),
        Command::Clean { volume } => cleaned(alloc, aggregate, volume),
        _ => aggregate.clone(),
    }
}

#[tactic(auto, using(crate::proofs::Room::size_of_new))]
fn created(alloc: Global, aggregate: &Aggregate, name: &Name, size: u32, kind: Kind) -> Changed
    requires { first_of (before_space aggregate.now (Command.VolCreate name.now size kind)) ≡ None }
    ensures { IfOk result (λ m. m ≡ changed aggregate.now (Becomes name.now (empty_volume size kind))) }
{
    aggregate.with_volume(alloc, name, Volume::empty(alloc, size, kind)?)
}

fn resized(alloc: Global, aggregate: &Aggregate, name: &Name, size: u32) -> Changed
    ensures { IfOk result (λ m. m ≡ changed aggregate.now (at_volume aggregate.now name.now (λ x. Becomes name.now (record x { size = size })))) }
{
    where_found!(aggregate, aggregate.volume(name), volume => aggregate.with_volume(alloc, name, volume.with_size(size)?))
}

fn guaranteed(alloc: Global, aggregate: &Aggregate, name: &Name, kind: Kind) -> Changed
    ensures { IfOk result (λ m. m ≡ changed aggregate.now (at_volume aggregate.now name.now (λ x. Becomes name.now (record x { kind = kind })))) }
{
    where_found!(aggregate, aggregate.volume(name), volume => aggregate.with_volume(alloc, name, volume.with_kind(kind)?))
}

#[tactic(auto, using(crate::proofs::Room::changes_left_by_new, crate::proofs::Room::files_left))]
fn with_file(
    alloc: Global,
    aggregate: &Aggregate,
    name: &Name,
    file: &Name,
    reserve: u32,
) -> Changed
    requires { first_of (before_space aggregate.now (Command.New name.now file.now reserve)) ≡ None }
    ensures { IfOk result (λ m. m ≡ changed aggregate.now (at_volume aggregate.now name.now (λ x. Becomes name.now (stamped x (new x.active file.now reserve))))) }
{
    where_found!(aggregate, aggregate.volume(name), volume => with_file_in(alloc, aggregate, name, volume, file, reserve))
}

fn with_file_in(
    alloc: Global,
    aggregate: &Aggregate,
    name: &Name,
    volume: &Volume,
    file: &Name,
    reserve: u32,
) -> Changed
    requires changes { volume.now.now < most_changes }
    requires files { fin.len volume.now.active.files < most_files }
    ensures { IfOk result (λ m. m ≡ changed aggregate.now (Becomes name.now (stamped volume.now (new volume.now.active file.now reserve)))) }
{
    let table = volume
        .active()
        .new_file(alloc, file, reserve, volume.next_stamp())?;
    aggregate.with_volume(alloc, name, volume.changed(table)?)
}

#[tactic(auto, using(crate::proofs::Room::changes_left_by_put))]
fn written(
    alloc: Global,
    aggregate: &Aggregate,
    name: &Name,
    file: &Name,
    index: u32,
    block: &Block,
) -> Changed
    requires { first_of (before_space aggregate.now (Command.Put name.now file.now index block.now)) ≡ None }
    ensures { IfOk result (λ m. m ≡ changed aggregate.now (at_volume aggregate.now name.now (λ x. at_file x file.now (λ n f. Becomes name.now (stamped x (put x.active n f index block.now)))))) }
{
    where_found!(aggregate, aggregate.volume(name), volume => written_in(alloc, aggregate, name, volume, file, index, block))
}

fn written_in(
    alloc: Global,
    aggregate: &Aggregate,
    name: &Name,
    volume: &Volume,
    file: &Name,
    index: u32,
    block: &Block,
) -> Changed
    requires { volume.now.now < most_changes }
    ensures { IfOk result (λ m. m ≡ changed aggregate.now (at_file volume.now file.now (λ n f. Becomes name.now (stamped volume.now (put volume.now.active n f index block.now))))) }
{
    where_found!(aggregate, volume.active().file_named(file), (number, file) => {
        let table = volume
            .active()
            .put(alloc, number, file, index, block, volume.next_stamp())?;
        aggregate.with_volume(alloc, name, volume.changed(table)?)
    })
}

#[tactic(auto, using(crate::proofs::Room::changes_left_by_cut))]
fn shortened(alloc: Global, aggregate: &Aggregate, name: &Name, file: &Name, length: u32) -> Changed
    requires { first_of (before_space aggregate.now (Command.Cut name.now file.now length)) ≡ None }
    ensures { IfOk result (λ m. m ≡ changed aggregate.now (at_volume aggregate.now name.now (λ x. at_file x file.now (λ n f. Becomes name.now (stamped x (cut x.active n f length)))))) }
{
    where_found!(aggregate, aggregate.volume(name), volume => shortened_in(alloc, aggregate, name, volume, file, length))
}

fn shortened_in(
    alloc: Global,
    aggregate: &Aggregate,
    name: &Name,
    volume: &Volume,
    file: &Name,
    length: u32,
) -> Changed
    requires { volume.now.now < most_changes }
    ensures { IfOk result (λ m. m ≡ changed aggregate.now (at_file volume.now file.now (λ n f. Becomes name.now (stamped volume.now (cut volume.now.active n f length))))) }
{
    where_found!(aggregate, volume.active().file_named(file), (number, file) => {
        let table = volume
            .active()
            .cut(alloc, number, file, length, volume.next_stamp())?;
        aggregate.with_volume(alloc, name, volume.changed(table)?)
    })
}

#[tactic(auto, using(crate::proofs::Room::changes_left_by_removal))]
fn without_file(alloc: Global, aggregate: &Aggregate, name: &Name, file: &Name) -> Changed
    requires { first_of (before_space aggregate.now (Command.Remove name.now file.now)) ≡ None }
    ensures { IfOk result (λ m. m ≡ changed aggregate.now (at_volume aggregate.now name.now (λ x. at_file x file.now (λ n f. Becomes name.now (stamped x (rm x.active n)))))) }
{
    where_found!(aggregate, aggregate.volume(name), volume => without_file_in(alloc, aggregate, name, volume, file))
}

fn without_file_in(
    alloc: Global,
    aggregate: &Aggregate,
    name: &Name,
    volume: &Volume,
    file: &Name,
) -> Changed
    requires { volume.now.now < most_changes }
    ensures { IfOk result (λ m. m ≡ changed aggregate.now (at_file volume.now file.now (λ n f. Becomes name.now (stamped volume.now (rm volume.now.active n))))) }
{
    where_found!(aggregate, volume.active().file_named(file), (number, _file) => {
        let table = volume.active().remove(alloc, number, volume.next_stamp())?;
        aggregate.with_volume(alloc, name, volume.changed(table)?)
    })
}

fn kept(alloc: Global, aggregate: &Aggregate, name: &Name, snapshot: &Name) -> Changed
    ensures { IfOk result (λ m. m ≡ changed aggregate.now (at_volume aggregate.now name.now (λ x. Becomes name.now (record x { snapshots = fin.insert x.snapshots snapshot.now x.active })))) }
{
    where_found!(aggregate, aggregate.volume(name), volume => aggregate.with_volume(alloc, name, volume.with_snapshot(snapshot)?))
}

fn forgotten(alloc: Global, aggregate: &Aggregate, name: &Name, snapshot: &Name) -> Changed
    ensures { IfOk result (λ m. m ≡ changed aggregate.now (at_volume aggregate.now name.now (λ x. Becomes name.now (record x { snapshots = fin.remove x.snapshots snapshot.now })))) }
{
    where_found!(aggregate, aggregate.volume(name), volume => aggregate.with_volume(alloc, name, volume.without_snapshot(snapshot)?))
}

fn restored(alloc: Global, aggregate: &Aggregate, name: &Name, snapshot: &Name) -> Changed
    ensures { IfOk result (λ m. m ≡ changed aggregate.now (at_volume aggregate.now name.now (λ x. at_snapshot x snapshot.now (λ t. Becomes name.now (record x { active = t }))))) }
{
    where_found!(aggregate, aggregate.volume(name), volume => restored_in(alloc, aggregate, name, volume, snapshot))
}

fn restored_in(
    alloc: Global,
    aggregate: &Aggregate,
    name: &Name,
    volume: &Volume,
    snapshot: &Name,
) -> Changed
    ensures { IfOk result (λ m. m ≡ changed aggregate.now (at_snapshot volume.now snapshot.now (λ t. Becomes name.now (record volume.now { active = t })))) }
{
    where_found!(aggregate, volume.snapshot(snapshot), table => aggregate.with_volume(alloc, name, volume.restored(table)?))
}

#[tactic(auto, using(crate::proofs::Room::span_of_clone))]
fn cloned(
    alloc: Global,
    aggregate: &Aggregate,
    clone: &Name,
    parent: &Name,
    snapshot: &Name,
    size: u32,
    kind: Kind,
) -> Changed
    requires { first_of (before_space aggregate.now (Command.CloneCreate clone.now parent.now snapshot.now size kind)) ≡ None }
    ensures { IfOk result (λ m. m ≡ changed aggregate.now (at_volume aggregate.now parent.now (λ x. at_snapshot x snapshot.now (λ t. Becomes clone.now (clone_of parent.now x snapshot.now t size kind))))) }
{
    where_found!(aggregate, aggregate.volume(parent), volume => cloned_from(alloc, aggregate, clone, parent, volume, snapshot, size, kind))
}

fn cloned_from(
    alloc: Global,
    aggregate: &Aggregate,
    clone: &Name,
    parent: &Name,
    volume: &Volume,
    snapshot: &Name,
    size: u32,
    kind: Kind,
) -> Changed
    requires { (t : Table) → Some t ≡ fin.get volume.now.snapshots snapshot.now → span_of size (set.len (ids_of t)) volume.now.span ≤ greatest_span }
    ensures { IfOk result (λ m. m ≡ changed aggregate.now (at_snapshot volume.now snapshot.now (λ t. Becomes clone.now (clone_of parent.now volume.now snapshot.now t size kind)))) }
{
    where_found!(aggregate, volume.snapshot(snapshot), table => aggregate.with_volume(alloc, clone, volume.clone_on(alloc, parent, snapshot, table, size, kind)?))
}

fn split_started(alloc: Global, aggregate: &Aggregate, name: &Name) -> Changed
    ensures { IfOk result (λ m. m ≡ changed aggregate.now (at_volume aggregate.now name.now (λ x. Becomes name.now (record x { base = option_map being_split x.base; known = false })))) }
{
    where_found!(aggregate, aggregate.volume(name), volume => aggregate.with_volume(alloc, name, volume.split_started()?))
}

fn split_finished(alloc: Global, aggregate: &Aggregate, name: &Name) -> Changed
    ensures { IfOk result (λ m. m ≡ changed aggregate.now (at_volume aggregate.now name.now (λ x. Becomes name.now (record x { base = None })))) }
{
    where_found!(aggregate, aggregate.volume(name), volume => aggregate.with_volume(alloc, name, volume.split_finished()?))
}

#[tactic(auto, using(crate::proofs::Room::span_of_mirror))]
fn mirrored(
    alloc: Global,
    aggregate: &Aggregate,
    source: &Name,
    snapshot: &Name,
    mirror: &Name,
    size: u32,
    kind: Kind,
) -> Changed
    requires { first_of (before_space aggregate.now (Command.Mirror source.now snapshot.now mirror.now size kind)) ≡ None }
    ensures { IfOk result (λ m. m ≡ changed aggregate.now (at_volume aggregate.now source.now (λ x. at_snapshot x snapshot.now (λ t. Becomes mirror.now (mirror_of x t size kind))))) }
{
    where_found!(aggregate, aggregate.volume(source), volume => mirrored_from(alloc, aggregate, volume, snapshot, mirror, size, kind))
}

fn mirrored_from(
    alloc: Global,
    aggregate: &Aggregate,
    volume: &Volume,
    snapshot: &Name,
    mirror: &Name,
    size: u32,
    kind: Kind,
) -> Changed
    requires { span_of size 0 volume.now.span ≤ greatest_span }
    ensures { IfOk result (λ m. m ≡ changed aggregate.now (at_snapshot volume.now snapshot.now (λ t. Becomes mirror.now (mirror_of volume.now t size kind)))) }
{
    where_found!(aggregate, volume.snapshot(snapshot), table => aggregate.with_volume(alloc, mirror, volume.mirror_with(alloc, table, size, kind)?))
}

fn cleaned(alloc: Global, aggregate: &Aggregate, name: &Name) -> Changed
    ensures { IfOk result (λ m. m ≡ changed aggregate.now (at_volume aggregate.now name.now (λ x. Becomes name.now (record x { known = true })))) }
{
    where_found!(aggregate, aggregate.volume(name), volume => aggregate.with_volume(alloc, name, volume.cleaned()?))
}
