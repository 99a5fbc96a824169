//! Trees: levels, and the stamps of cells and marks.
ghost use Rattle.std.specs.Prelude.{◌≡◌, ◌+◌, ◌*◌, ◌^◌, ◌/◌, ◌<◌, ◌≤◌, ◌++◌, ◌∷◌, [], IfOk, OnOk, nat_lt, map, filter, flat_map, nat_eq, cond};
ghost use Rattle.std.specs.List.{range_with_len, list_any};
ghost use Rattle.std.specs.FinMap as fin;
ghost use Rattle.fv_model.specs.Trees.{fan, spot_cmp, least_levels, levels_with, spots_over, spots_grown, stamp_spots, holds_one, written, erased};
ghost use Rattle.fv_reference.specs.Maps.{map_of};
ghost use Rattle.fv_model.specs.Trees as trees;
ghost use Rattle.fv_reference.specs.Codes.{tree_code};

use crate::maps::{copy, insert, len};
use std::alloc::{AllocError, Global};
use std::collections::BTreeMap;
use std::marker::Model;

/// A level, 0 for a cell, and a range of that level.
pub type Spot = (u32, u32);

/// Levels, and the stamps of cells and marks.
#[derive(Drop)]
pub struct Tree {
    levels: u32,
    stamps: BTreeMap<Spot, u64>,
}

impl Model for Tree {
    ghost Value = { trees.Tree };

    ghost coded = { tree_code };

    ghost view = { λ t. record { levels = t.levels; stamps = map_of trees.spot_cmp t.stamps } };

    ghost invariant = { λ t. t.levels ≤ 5 };
}

impl Clone for Tree {
    ghost is_clone = { λ x y. y ≡ x };

    fn clone(&self) -> Result<Tree, AllocError> {
        Ok(Tree {
            levels: self.levels,
            stamps: copy(&self.stamps)?,
        })
    }
}

impl Tree {
    /// A tree without a cell.
    pub fn new(alloc: Global, levels: u32) -> Tree
        requires { levels ≤ 5 }
        ensures { result ≡ record { levels = levels; stamps = fin.empty } }
    {
        Tree {
            levels,
            stamps: BTreeMap::new(alloc),
        }
    }

    /// The number of levels.
    pub fn levels(&self) -> u32
        ensures is { result ≡ self.now.levels }
        ensures few { result ≤ 5 }
    {
        self.levels
    }

    /// The stamps of its cells and marks.
    pub fn stamps(&self) -> &BTreeMap<Spot, u64>
        ensures { map_of spot_cmp result.now ≡ self.now.stamps }
    {
        &self.stamps
    }

    /// The tree after a change wrote a cell.
    pub fn written(&self, alloc: Global, stamp: u64, index: u32) -> Result<Tree, AllocError>
        ensures { IfOk result (λ t. t ≡ written stamp index self.now) }
    {
        let levels = levels_with(self.levels, index);
        let over = spots_over(alloc, levels, index)?;
        let grown = spots_grown(alloc, len(&self.stamps) > 0, self.levels, levels)?;
        let mut stamps = copy(&self.stamps)?;
        stamp_spots(&mut stamps, stamp, &over)?;
        stamp_spots(&mut stamps, stamp, &grown)?;
        Ok(Tree { levels, stamps })
    }

    /// The tree after a change removed some cells and left others.
    #[tactic(auto, unfolding(fv_model::specs::Trees::erased))]
    pub fn erased(
        &self,
        alloc: Global,
        stamp: u64,
        start: u32,
        gone: &[u32],
        left: &[u32],
    ) -> Result<Tree, AllocError>
        requires { start ≤ 5 }
        ensures { IfOk result (λ t. t ≡ erased stamp start gone.now left.now self.now) }
    {
        let over = spots_over_all(alloc, self.levels, gone)?;
        let held = held_spots(alloc, &over, left)?;
        let mut stamps = copy(&self.stamps)?;
        keep_held(&mut stamps, left);
        stamp_spots(&mut stamps, stamp, &held)?;
        let levels = if left.is_empty() { start } else { self.levels };
        Ok(Tree { levels, stamps })
    }
}

/// How many indexes a range of a level holds.
pub fn width(level: u32) -> u64
    requires { level ≤ 5 }
    ensures is { result ≡ fan ^ level }
    ensures some { 0 < result }
{
    match level {
        0 => 1,
        1 => 128,
        2 => 16_384,
        3 => 2_097_152,
        4 => 268_435_456,
        _ => 34_359_738_368,
    }
}

/// The least number of levels whose one topmost range holds `n` indexes.
pub fn least_levels(n: u64) -> u32
    requires { n ≤ 2 ^ 32 }
    ensures least { result ≡ least_levels n }
    ensures few { result ≤ 5 }
{
    if n <= 1 {
        0
    } else if n <= 128 {
        1
    } else if n <= 16_384 {
        2
    } else if n <= 2_097_152 {
        3
    } else if n <= 268_435_456 {
        4
    } else {
        5
    }
}

/// The levels once an index is written.
#[tactic(auto, unfolding(fv_model::specs::Trees::levels_with))]
fn levels_with(levels: u32, index: u32) -> u32
    requires { levels ≤ 5 }
    ensures grown { result ≡ levels_with levels index }
    ensures few { result ≤ 5 }
{
    if u64::from(index) < width(levels) {
        levels
    } else {
        least_levels(u64::from(index) + 1)
    }
}

/// The range of a level in which an index lies.
pub fn range_at(index: u32, level: u32) -> u32
    ensures { result ≡ index / fan ^ level }
{
    if level > 5 {
        return 0;
    }
    (u64::from(index) / width(level)) as u32
}

/// A cell and the marks over it.
#[tactic(auto, unfolding(fv_model::specs::Trees::spots_over))]
pub fn spots_over(alloc: Global, levels: u32, index: u32) -> Result<Vec<Spot>, AllocError>
    requires { levels ≤ 5 }
    ensures { IfOk result (λ v. v.items ≡ spots_over levels index) }
{
    let mut spots = Vec::new(alloc);
    for level in 0..levels + 1 {
        add_spot(&mut spots, level, index)?;
    }
    Ok(spots)
}

fn add_spot(spots: &mut Vec<Spot>, level: u32, index: u32) -> Result<(), AllocError>
    ensures { OnOk result (spots.new.items ≡ spots.old.items ++ (level, index / fan ^ level) ∷ []) }
{
    spots.push((level, range_at(index, level)))?;
    Ok(())
}

/// The marks that a growth of levels makes over the cells that were there.
#[tactic(auto, unfolding(fv_model::specs::Trees::spots_grown))]
fn spots_grown(alloc: Global, any: bool, before: u32, after: u32) -> Result<Vec<Spot>, AllocError>
    requires low { before ≤ 5 }
    requires high { after ≤ 5 }
    ensures { IfOk result (λ v. v.items ≡ spots_grown any before after) }
{
    if any {
        first_ranges(alloc, before + 1, after.saturating_sub(before))
    } else {
        Ok(Vec::new(alloc))
    }
}

/// Range 0 of so many levels from one on.
fn first_ranges(alloc: Global, from: u32, count: u32) -> Result<Vec<Spot>, AllocError>
    requires low { from ≤ 6 }
    requires high { count ≤ 5 }
    ensures { IfOk result (λ v. v.items ≡ map (λ k. (k, 0)) (range_with_len from count)) }
{
    let mut spots = Vec::new(alloc);
    for level in from..from + count {
        spots.push((level, 0))?;
    }
    Ok(spots)
}

/// Gives each of these places a stamp.
#[tactic(auto, unfolding(fv_model::specs::Trees::stamp_spots))]
fn stamp_spots(
    stamps: &mut BTreeMap<Spot, u64>,
    stamp: u64,
    spots: &[Spot],
) -> Result<(), AllocError>
    ensures { OnOk result (map_of spot_cmp stamps.new ≡ stamp_spots stamp spots.now (map_of spot_cmp stamps.old)) }
{
    for spot in spots {
        insert(stamps, *spot, stamp)?;
    }
    Ok(())
}

/// Whether one of these cells lies in the range of a spot.
fn holds_one(cells: &[u32], spot: Spot) -> bool
    ensures { result ≡ holds_one cells.now spot }
{
    cells.iter().any(|cell| range_at(*cell, spot.0) == spot.1)
}

/// These cells and the marks over them.
fn spots_over_all(alloc: Global, levels: u32, cells: &[u32]) -> Result<Vec<Spot>, AllocError>
    requires { levels ≤ 5 }
    ensures { IfOk result (λ v. v.items ≡ flat_map (spots_over levels) cells.now) }
{
    let mut all = Vec::new(alloc);
    for cell in cells {
        all.extend_from_slice(&spots_over(alloc, levels, *cell)?)?;
    }
    Ok(all)
}

/// Those of some spots in whose range one of these cells lies.
fn held_spots(alloc: Global, spots: &[Spot], cells: &[u32]) -> Result<Vec<Spot>, AllocError>
    ensures { IfOk result (λ v. v.items ≡ filter (holds_one cells.now) spots.now) }
{
    spots
        .iter()
        .copied()
        .filter(|spot| holds_one(cells, *spot))
        .collect(alloc)
}

/// Takes out the stamps of those spots in whose range none of these cells lies.
fn keep_held(stamps: &mut BTreeMap<Spot, u64>, cells: &[u32])
    ensures { map_of spot_cmp stamps.new ≡ fin.retain_keys (map_of spot_cmp stamps.old) (holds_one cells.now) }
{
    stamps.retain(|spot, _| holds_one(cells, *spot));
}
