//! How many positions a write adds.

ghost use Rattle.std.specs.Prelude.{◌≡◌, ◌≤◌, ◌<◌, ◌+◌, ◌-◌, ◌==◌, if◌then◌else◌, cond, IfOk, IfErr};
ghost use Rattle.fv_model.specs.Trees.{levels_with};
ghost use Rattle.fv_tree.specs.Places.{HasRightPlaces};
ghost use Rattle.fv_tree.specs.Sources.{Counts, IsUntouched};
ghost use Rattle.fv_tree.specs.Standing.{standing, under, Fails};
ghost use Rattle.fv_tree.specs.Counting.{added_at, found_at};
ghost use Rattle.fv_tree.specs.Calls.{LoadsFrom};

use crate::blocks::{Blocks, TreeFault};
use crate::grow::levels_over;
use crate::kept::Tree;
use crate::sizes::width;
use crate::way::{step, top};
use fv_codec::Pointer;

impl Tree {
    /// How many positions a write of the cell at `index`, which is below 2,097,152, adds: the cell and the marks over
    /// it that don't stand, and where levels grow over cells the marks over these; at most 6. It keeps nothing in
    /// memory and loads at most the nodes over the cell that aren't in memory, and no content.
    ///
    /// # Errors
    ///
    /// As `get`.
    pub fn added<B: Blocks>(&self, blocks: &mut B, index: u32) -> Result<u32, TreeFault>
        requires index { index < 2097152 }
        requires right { B.told → HasRightPlaces (B.shown blocks.old) self.now }
        ensures added { B.told → IfOk result (λ count. count ≡ added_at (standing (under (B.shown blocks.old)) self.now) index) }
        ensures few { IfOk result (λ count. count ≤ 6) }
        ensures untouched { IsUntouched (B.shown blocks.old) (B.shown blocks.new) }
        ensures reads { B.reads blocks.old blocks.new }
        ensures counts { Counts (B.shown blocks.old) (B.shown blocks.new) result }
        ensures cause { IfErr result (Fails B.told (standing (under (B.shown blocks.old)) self.now) (B.shown blocks.old) (B.shown blocks.new)) }
    {
        let found = found_over(self, blocks, index)?;
        Ok(added_to(self, index, found))
    }
}

/// How many pointers over a cell lead somewhere.
fn found_over<B: Blocks>(tree: &Tree, blocks: &mut B, index: u32) -> Result<u32, TreeFault>
    requires right { B.told → HasRightPlaces (B.shown blocks.old) tree.now }
    ensures found { B.told → IfOk result (λ count. count ≡ found_at (standing (under (B.shown blocks.old)) tree.now) index) }
    ensures few { IfOk result (λ count. count ≤ tree.now.levels + 1) }
    ensures loads { LoadsFrom (B.reads blocks.old blocks.new) (Fails B.told (standing (under (B.shown blocks.old)) tree.now) (B.shown blocks.old) (B.shown blocks.new)) (B.shown blocks.old) (B.shown blocks.new) result }
{
    let mut level = tree.levels;
    let mut pointer = top(tree, index);
    let mut found = stands(&pointer);
    while level > 0 {
        pointer = step(tree, blocks, level, index, &pointer)?;
        found += stands(&pointer);
        level -= 1;
    }
    Ok(found)
}

/// 1 for a pointer that leads somewhere, and 0 for a hole.
fn stands(pointer: &Pointer) -> u32
    ensures exact { result ≡ cond (pointer.now.stamp == 0) 0 1 }
    ensures few { result ≤ 1 }
{
    if pointer.stamp == 0 { 0 } else { 1 }
}

/// How many positions a write adds, where so many are there.
fn added_to(tree: &Tree, index: u32, found: u32) -> u32
    requires index { index < 2097152 }
    requires found { found ≤ tree.now.levels + 1 }
    ensures exact { result ≡ (levels_with tree.now.levels index + 1 - found) + (if tree.now.root.stamp == 0 then 0 else levels_with tree.now.levels index - tree.now.levels - 1) }
    ensures few { result ≤ 6 }
{
    let levels = levels_with(tree.levels, index);
    let path = u32::from(levels) + 1 - found;
    if tree.root.stamp == 0 {
        return path;
    }
    path + u32::from((levels - tree.levels).saturating_sub(1))
}

/// The levels of a tree of these once a cell is written.
fn levels_with(levels: u8, index: u32) -> u8
    requires few { levels ≤ 3 }
    requires index { index < 2097152 }
    ensures exact { result ≡ levels_with levels index }
    ensures more { levels ≤ result }
    ensures few { result ≤ 3 }
{
    if index < width(levels) {
        levels
    } else {
        levels_over(index)
    }
}
