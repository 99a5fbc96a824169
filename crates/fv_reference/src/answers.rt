//! What an accepted command is answered.
ghost use Rattle.std.specs.Prelude.{◌≡◌, ◌≤◌, ◌++◌, ◌∷◌, [], IfOk, map};
ghost use Rattle.std.specs.Option.{option_map_or};
ghost use Rattle.std.specs.FinMap as fin;
ghost use Rattle.fv_model.specs.Tables.{file_named};
ghost use Rattle.std.specs.Map.{keys_of};
ghost use Rattle.fv_model.specs.Spelling.{name_cmp};
ghost use Rattle.fv_model.specs.Space.{use_of};
ghost use Rattle.fv_laws.specs.Within.{IsWithin};
ghost use Rattle.fv_model.specs.Replies.{answer, about_volume, about_table, about_file, content, zero_block, file_names, numbers_by_name, stat_of};
ghost use Rattle.fv_reference.specs.Maps.{map_of};

use crate::aggregates::Aggregate;
use crate::asked::table_asked;
use crate::counted::Counted;
use crate::maps::from_entries;
use crate::tables::{File, Table};
use crate::volumes::Volume;
use fv_model::{Block, Command, Name, Names, Reply, Stat};
use std::alloc::{AllocError, Global};
use std::collections::BTreeMap;

/// The reply to an accepted command; to `probe` it is the one for a known volume.
#[tactic(auto, unfolding(fv_model::specs::Replies::answer))]
pub fn answer(alloc: Global, aggregate: &Aggregate, command: &Command) -> Result<Reply, AllocError>
    requires { IsWithin aggregate.now }
    ensures { IfOk result (λ r. r ≡ answer aggregate.now command.now) }
{
    match command {
        Command::VolList => Ok(Reply::Names(names_of(alloc, aggregate.volumes())?)),
        Command::VolStat { volume } => Ok(numbers(aggregate, volume)),
        Command::Get {
            volume,
            snapshot,
            file,
            index,
        } => Ok(content_asked(aggregate, volume, snapshot, file, *index)),
        Command::Len {
            volume,
            snapshot,
            file,
        } => Ok(length(aggregate, volume, snapshot, file)),
        Command::Ls { volume, snapshot } => files(alloc, aggregate, volume, snapshot),
        Command::SnapList { volume } => snapshots(alloc, aggregate, volume),
        Command::Probe { .. } => Ok(Reply::Number(0)),
        _ => Ok(Reply::Done),
    }
}

fn numbers(aggregate: &Aggregate, name: &Name) -> Reply
    requires { IsWithin aggregate.now }
    ensures { result ≡ about_volume aggregate.now name.now (λ x. Reply.Stat (stat_of x)) }
{
    match aggregate.counted(name) {
        None => Reply::Done,
        Some(counted) => Reply::Stat(stat(counted)),
    }
}

/// The numbers of a volume that uses no more than its size.
fn stat(counted: &Counted) -> Stat
    requires { use_of counted.now ≤ counted.now.size }
    ensures { result ≡ stat_of counted.now }
{
    let volume = counted.volume();
    Stat {
        size: volume.size(),
        used: counted.charge() as u32,
        need: counted.need() as u32,
        commit: counted.commit() as u64,
        kind: volume.kind(),
        clean: volume.is_known(),
    }
}

fn content_asked(
    aggregate: &Aggregate,
    name: &Name,
    snapshot: &Option<Name>,
    file: &Name,
    index: u32,
) -> Reply
    ensures { result ≡ about_file aggregate.now name.now snapshot.now file.now (λ f. Reply.Content (content f index)) }
{
    match aggregate.volume(name) {
        None => Reply::Done,
        Some(volume) => match table_asked(volume, snapshot) {
            None => Reply::Done,
            Some(table) => content_in(table, file, index),
        },
    }
}

fn content_in(table: &Table, file: &Name, index: u32) -> Reply
    ensures { result ≡ option_map_or (λ e. Reply.Content (content e.1 index)) (file_named table.now file.now) Reply.Done }
{
    match table.file_named(file) {
        None => Reply::Done,
        Some((_number, file)) => Reply::Content(content(file, index)),
    }
}

/// The block of a cell; a hole reads as zeros.
fn content(file: &File, index: u32) -> Block
    ensures { result ≡ content file.now index }
{
    match file.cell(index) {
        None => [0; 4096],
        Some(cell) => *cell.block(),
    }
}

fn length(aggregate: &Aggregate, name: &Name, snapshot: &Option<Name>, file: &Name) -> Reply
    ensures { result ≡ about_file aggregate.now name.now snapshot.now file.now (λ f. Reply.Number f.length) }
{
    match aggregate.volume(name) {
        None => Reply::Done,
        Some(volume) => match table_asked(volume, snapshot) {
            None => Reply::Done,
            Some(table) => length_in(table, file),
        },
    }
}

fn length_in(table: &Table, file: &Name) -> Reply
    ensures { result ≡ option_map_or (λ e. Reply.Number e.1.length) (file_named table.now file.now) Reply.Done }
{
    match table.file_named(file) {
        None => Reply::Done,
        Some((_number, file)) => Reply::Number(file.length()),
    }
}

fn files(
    alloc: Global,
    aggregate: &Aggregate,
    name: &Name,
    snapshot: &Option<Name>,
) -> Result<Reply, AllocError>
    ensures { IfOk result (λ r. r ≡ about_table aggregate.now name.now snapshot.now (λ t. Reply.Names (file_names t))) }
{
    match aggregate.volume(name) {
        None => Ok(Reply::Done),
        Some(volume) => match table_asked(volume, snapshot) {
            None => Ok(Reply::Done),
            Some(table) => Ok(Reply::Names(names_of(alloc, &numbers_by_name(alloc, table)?)?)),
        },
    }
}

/// The numbers of a table's files by their names.
fn numbers_by_name(alloc: Global, table: &Table) -> Result<BTreeMap<Name, u32>, AllocError>
    ensures { IfOk result (λ m. map_of name_cmp m ≡ numbers_by_name table.now) }
{
    let files = table.files();
    let _count = files.len();
    let listed = listed_names(alloc, files)?;
    from_entries(alloc, listed)
}

fn listed_names(alloc: Global, files: &BTreeMap<u32, File>) -> Result<Vec<(Name, u32)>, AllocError>
    ensures { IfOk result (λ v. v.items ≡ map (λ e. (e.1.name, e.0)) files.now.entries) }
{
    let mut listed = Vec::new(alloc);
    for (number, file) in files {
        listed.push((*file.name(), *number))?;
    }
    Ok(listed)
}

fn snapshots(alloc: Global, aggregate: &Aggregate, name: &Name) -> Result<Reply, AllocError>
    ensures { IfOk result (λ r. r ≡ about_volume aggregate.now name.now (λ x. Reply.Names (fin.keys x.snapshots))) }
{
    match aggregate.volume(name) {
        None => Ok(Reply::Done),
        Some(volume) => Ok(Reply::Names(names_of(alloc, volume.snapshots())?)),
    }
}

/// The names that are keys of a map, in order.
fn names_of<V>(alloc: Global, map: &BTreeMap<Name, V>) -> Result<Names, AllocError>
    ensures { IfOk result (λ n. n ≡ fin.keys (map_of name_cmp map.now)) }
{
    let _count = map.len();
    listed(alloc, map)
}

fn listed<V>(alloc: Global, map: &BTreeMap<Name, V>) -> Result<Names, AllocError>
    ensures { IfOk result (λ n. n ≡ keys_of map.now.entries) }
{
    let mut names = Names::new(alloc);
    for name in map.keys() {
        names.push(name)?;
    }
    Ok(names)
}
