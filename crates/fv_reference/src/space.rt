//! What a volume needs, uses and commits.
ghost use Rattle.std.specs.Prelude.{◌≡◌, ◌+◌, ◌*◌, ◌^◌, ◌++◌, ◌∷◌, [], ◌≤◌, ◌<◌, length, IfOk, OnOk, nat_lt, cond, map, flat_map, count_by, sum_by};
ghost use Rattle.std.specs.List.{range_with_len};
ghost use Rattle.std.specs.Ordering.{nat_cmp};
ghost use Rattle.std.specs.FinMap as fin;
ghost use Rattle.std.specs.FinSet as set;
ghost use Rattle.fv_model.specs.Numbers.{greatest_span};
ghost use Rattle.fv_model.specs.Spelling.{name_cmp};
ghost use Rattle.fv_model.specs.Trees.{fan};
ghost use Rattle.fv_model.specs.Places.{InodeFile, OfFile, placed, place_cmp, id_cmp, stamps_of};
ghost use Rattle.fv_model.specs.Space.{ids_in_any, base_ids, reserved_at, reserved_places, needs_block, need, nodes_above, leaves, overhead};
ghost use Rattle.fv_reference.specs.Maps.{map_of, set_of};

use crate::maps::get;
use crate::places::{Id, Place, add_ids, stamps_of};
use crate::sets::has;
use crate::tables::{File, Table};
use crate::trees::{Spot, spots_over, width};
use crate::volumes::{Base, Volume, add_kept};
use fv_model::{Kind, Name};
use std::alloc::{AllocError, Global};
use std::collections::{BTreeMap, BTreeSet};

/// Whether there was memory for what is listed.
type Listed = Result<(), AllocError>;

/// The blocks that the reserves of a volume of kind `file` still need.
#[tactic(auto, unfolding(fv_model::specs::Space::need))]
pub fn need(alloc: Global, volume: &Volume) -> Result<u128, AllocError>
    ensures is { IfOk result (λ n. n ≡ need volume.now) }
    ensures few { IfOk result (λ n. n < 2 ^ 127) }
{
    match volume.kind() {
        Kind::File => needed_of(alloc, volume.active(), volume.snapshots(), volume.base()),
        Kind::Volume | Kind::Thin => Ok(0),
    }
}

fn needed_of(
    alloc: Global,
    active: &Table,
    snapshots: &BTreeMap<Name, Table>,
    base: &Option<Base>,
) -> Result<u128, AllocError>
    ensures few { IfOk result (λ n. n < 2 ^ 127) }
    ensures is { IfOk result (λ n. n ≡ sum_by (λ e. count_by (needs_block (set.union (ids_in_any (fin.values (map_of name_cmp snapshots.now))) (base_ids base.now)) (stamps_of active.now)) (reserved_places active.now.inode.levels e.0 e.1)) (fin.entries active.now.files)) }
{
    let shared = shared_ids(alloc, snapshots, base)?;
    let stamps = stamps_of(alloc, active)?;
    let files = active.files();
    let _count = files.len();
    needed(alloc, &shared, &stamps, active.inode().levels(), files)
}

/// The ids that a snapshot or the base has, too.
fn shared_ids(
    alloc: Global,
    snapshots: &BTreeMap<Name, Table>,
    base: &Option<Base>,
) -> Result<BTreeSet<Id>, AllocError>
    ensures { IfOk result (λ s. set_of id_cmp s ≡ set.union (ids_in_any (fin.values (map_of name_cmp snapshots.now))) (base_ids base.now)) }
{
    let mut ids = BTreeSet::new(alloc);
    add_kept(alloc, &mut ids, snapshots)?;
    add_base(alloc, &mut ids, base)?;
    Ok(ids)
}

fn add_base(alloc: Global, ids: &mut BTreeSet<Id>, base: &Option<Base>) -> Listed
    ensures { OnOk result (set_of id_cmp ids.new ≡ set.union (set_of id_cmp ids.old) (base_ids base.now)) }
{
    match base {
        None => Ok(()),
        Some(base) => add_ids(alloc, ids, base.table()),
    }
}

/// The sum of what the files' reserves need.
fn needed(
    alloc: Global,
    shared: &BTreeSet<Id>,
    stamps: &BTreeMap<Place, u64>,
    levels: u32,
    files: &BTreeMap<u32, File>,
) -> Result<u128, AllocError>
    requires low { levels ≤ 5 }
    requires many { length files.now.entries < 2 ^ 64 }
    ensures few { IfOk result (λ n. n < 2 ^ 127) }
    ensures is { IfOk result (λ n. n ≡ sum_by (λ e. count_by (needs_block (set_of id_cmp shared.now) (map_of place_cmp stamps.now)) (reserved_places levels e.0 e.1)) files.now.entries) }
{
    let mut total: u128 = 0;
    for (number, file) in files {
        let places = reserved_places(alloc, levels, *number, file)?;
        total += count_needed(shared, stamps, &places) as u128;
    }
    Ok(total)
}

fn count_needed(shared: &BTreeSet<Id>, stamps: &BTreeMap<Place, u64>, places: &[Place]) -> usize
    ensures is { result ≡ count_by (needs_block (set_of id_cmp shared.now) (map_of place_cmp stamps.now)) places.now }
    ensures few { result < 2 ^ 63 }
{
    places
        .iter()
        .filter(|place| needs_block(shared, stamps, place))
        .count()
}

/// Whether a write at a place takes a block.
#[tactic(auto, unfolding(fv_model::specs::Space::needs_block))]
fn needs_block(shared: &BTreeSet<Id>, stamps: &BTreeMap<Place, u64>, place: &Place) -> bool
    ensures { result ≡ needs_block (set_of id_cmp shared.now) (map_of place_cmp stamps.now) place.now }
{
    match get(stamps, place) {
        None => true,
        Some(stamp) => has(shared, &(place.copy(), *stamp)),
    }
}

/// All places that a file's reserve stands for.
#[tactic(auto, unfolding(fv_model::specs::Space::reserved_places))]
fn reserved_places(
    alloc: Global,
    levels: u32,
    number: u32,
    file: &File,
) -> Result<Vec<Place>, AllocError>
    requires { levels ≤ 5 }
    ensures { IfOk result (λ v. v.items ≡ reserved_places levels number file.now) }
{
    let mut places = Vec::new(alloc);
    if file.reserve() == 0 {
        return Ok(places);
    }
    list_reserved(&mut places, number, file.reserve(), file.tree().levels())?;
    list_inode(&mut places, &spots_over(alloc, levels, number / 16)?)?;
    Ok(places)
}

fn list_reserved(places: &mut Vec<Place>, number: u32, reserve: u32, levels: u32) -> Listed
    requires { levels ≤ 5 }
    ensures { OnOk result (places.new.items ≡ places.old.items ++ flat_map (reserved_at number reserve) (range_with_len 0 (levels + 1))) }
{
    for level in 0..levels + 1 {
        list_level(places, number, reserve, level)?;
    }
    Ok(())
}

/// Lists the ranges of a level that meet the indexes below a reserve.
#[tactic(auto, unfolding(fv_model::specs::Space::reserved_at))]
fn list_level(places: &mut Vec<Place>, number: u32, reserve: u32, level: u32) -> Listed
    requires { level ≤ 5 }
    ensures { OnOk result (places.new.items ≡ places.old.items ++ reserved_at number reserve level) }
{
    for index in 0..reserve {
        list_range(places, number, reserve, level, index)?;
    }
    Ok(())
}

fn list_range(places: &mut Vec<Place>, number: u32, reserve: u32, level: u32, index: u32) -> Listed
    requires { level ≤ 5 }
    ensures { OnOk result (places.new.items ≡ places.old.items ++ cond (nat_lt (index * fan ^ level) reserve) (record { owner = OfFile number; level = level; index = index } ∷ []) []) }
{
    if u64::from(index).saturating_mul(width(level)) >= u64::from(reserve) {
        return Ok(());
    }
    places.push(Place::new(Some(number), level, index))?;
    Ok(())
}

fn list_inode(places: &mut Vec<Place>, spots: &[Spot]) -> Listed
    ensures { OnOk result (places.new.items ≡ places.old.items ++ map (placed InodeFile) spots.now) }
{
    for spot in spots {
        places.push(Place::new(None, spot.0, spot.1))?;
    }
    Ok(())
}

/// The nodes of 256 entries above n of them, up to one root.
#[tactic(auto, unfolding(fv_model::specs::Space::nodes_above))]
fn nodes_above(fuel: u32, n: u32) -> u32
    requires low { fuel ≤ 8 }
    requires few { n ≤ 2 ^ 20 }
    ensures is { result ≡ nodes_above fuel n }
    ensures few { result ≤ n + fuel + 1 }
{
    if fuel == 0 {
        return 0;
    }
    if n <= 256 {
        return 1;
    }
    let above = n.div_ceil(256);
    above + nodes_above(fuel - 1, above)
}

/// The blocks that a volume of a span needs beside its data.
#[tactic(auto, unfolding(fv_model::specs::Space::overhead))]
pub fn overhead(span: u32) -> u32
    requires { span ≤ greatest_span }
    ensures is { result ≡ overhead span }
    ensures few { result < 2 ^ 20 }
{
    let maps = span.div_ceil(32_768);
    let leaves = (span + 25 * maps).div_ceil(256);
    1 + maps + leaves + nodes_above(8, leaves)
}
