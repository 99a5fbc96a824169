//! How many blocks over a cell stay charged when a write replaces them.

ghost use Rattle.std.specs.Prelude.{◌≡◌, ◌≤◌, ◌<◌, ◌-◌, ◌*◌, ◌/◌, ◌^◌, ◌&&◌, not, cond, ◌==◌, IfOk, IfErr};
ghost use Rattle.fv_model.specs.Trees.{fan};
ghost use Rattle.fv_tree.specs.Places.{HasRightPlaces, IsPlaceOf};
ghost use Rattle.fv_tree.specs.Sources.{Counts, IsUntouched};
ghost use Rattle.fv_tree.specs.Standing.{standing, under, Fails};
ghost use Rattle.fv_tree.specs.Flushing.{changed_of, loaded};
ghost use Rattle.fv_tree.specs.Counting.{staying_at, staying_all, staying_under};

use crate::blocks::TreeFault;
use crate::kept::Tree;
use crate::next::children_of;
use crate::sharing::Sharing;
use crate::sizes::{FAN, width};
use crate::way::{step, top};
use fv_codec::Pointer;

impl Tree {
    /// How many of the blocks over the cell at `index`, its own and those of the nodes over it, are shared: at most 4. They
    /// stay charged when a write of the cell replaces them. A cell or node in memory that differs from its block isn't
    /// counted. It keeps nothing in memory and loads at most the nodes over the cell that aren't in memory, and no content.
    ///
    /// # Errors
    ///
    /// As `get`.
    pub fn staying<B: Sharing>(&self, blocks: &mut B, index: u32) -> Result<u32, TreeFault>
        requires right { B.told → HasRightPlaces (B.shown blocks.old) self.now }
        ensures staying { B.told → IfOk result (λ count. count ≡ staying_at (loaded (B.shown blocks.old) self.now) (B.shared blocks.old) index) }
        ensures few { IfOk result (λ count. count ≤ 4) }
        ensures untouched { IsUntouched (B.shown blocks.old) (B.shown blocks.new) }
        ensures reads { B.reads blocks.old blocks.new }
        ensures counts { Counts (B.shown blocks.old) (B.shown blocks.new) result }
        ensures cause { IfErr result (Fails B.told (standing (under (B.shown blocks.old)) self.now) (B.shown blocks.old) (B.shown blocks.new)) }
    {
        let mut level = self.levels;
        let mut pointer = top(self, index);
        let mut count = stays(self, blocks, level, index, &pointer);
        while level > 0 {
            pointer = step(self, blocks, level, index, &pointer)?;
            level -= 1;
            count += stays(self, blocks, level, index, &pointer);
        }
        Ok(count)
    }

    /// How many of the blocks of all cells and nodes are shared, as `staying` counts them: at most 4,194,303. They stay charged
    /// when all cells go. It keeps nothing in memory and loads each node that isn't in memory once, and no content.
    ///
    /// # Errors
    ///
    /// As `get`.
    pub fn staying_all<B: Sharing>(&self, blocks: &mut B) -> Result<u32, TreeFault>
        requires right { B.told → HasRightPlaces (B.shown blocks.old) self.now }
        ensures staying { B.told → IfOk result (λ count. count ≡ staying_all (loaded (B.shown blocks.old) self.now) (B.shared blocks.old)) }
        ensures few { IfOk result (λ count. count < 4194304) }
        ensures untouched { IsUntouched (B.shown blocks.old) (B.shown blocks.new) }
        ensures reads { B.reads blocks.old blocks.new }
        ensures counts { Counts (B.shown blocks.old) (B.shown blocks.new) result }
        ensures cause { IfErr result (Fails B.told (standing (under (B.shown blocks.old)) self.now) (B.shown blocks.old) (B.shown blocks.new)) }
    {
        staying_under(self, blocks, self.levels, 0, &self.root)
    }
}

/// How many of the blocks of a place and of all places under it are shared, by the pointer to it.
fn staying_under<B: Sharing>(
    tree: &Tree,
    blocks: &mut B,
    level: u8,
    place: u32,
    pointer: &Pointer,
) -> Result<u32, TreeFault>
    requires { IsPlaceOf B.told (B.shown blocks.old) tree.now level place pointer.now }
    ensures staying { B.told → IfOk result (λ count. count ≡ staying_under (loaded (B.shown blocks.old) tree.now) (B.shared blocks.old) level place) }
    ensures few { IfOk result (λ count. count < 2 * fan ^ level) }
    ensures untouched { IsUntouched (B.shown blocks.old) (B.shown blocks.new) }
    ensures reads { B.reads blocks.old blocks.new }
    ensures counts { Counts (B.shown blocks.old) (B.shown blocks.new) result }
    ensures cause { IfErr result (Fails B.told (standing (under (B.shown blocks.old)) tree.now) (B.shown blocks.old) (B.shown blocks.new)) }
{
    let mut count = stays_at(tree, blocks, level, place, pointer);
    if level == 0 || pointer.stamp == 0 {
        return Ok(count);
    }
    let children = children_of(tree, blocks, level, place, pointer)?;
    for slot in 0..FAN {
        count += staying_under(
            tree,
            blocks,
            level - 1,
            place * FAN + slot,
            &children[slot as usize],
        )?;
    }
    Ok(count)
}

/// 1 where the place of a level over a cell, with this pointer to it, leads to a block that is shared and that it doesn't
/// differ from, and else 0.
fn stays<B: Sharing>(tree: &Tree, blocks: &B, level: u8, index: u32, pointer: &Pointer) -> u32
    requires high { level ≤ 3 }
    ensures exact { result ≡ cond (not (pointer.now.stamp == 0) && (not (changed_of tree.now level (index / fan ^ level)) && B.shared blocks.now pointer.now.vvbn)) 1 0 }
    ensures few { result ≤ 1 }
{
    stays_at(tree, blocks, level, index / width(level), pointer)
}

/// 1 where a place, with this pointer to it, leads to a block that is shared and that it doesn't differ from, and else 0.
pub fn stays_at<B: Sharing>(
    tree: &Tree,
    blocks: &B,
    level: u8,
    place: u32,
    pointer: &Pointer,
) -> u32
    ensures exact { result ≡ cond (not (pointer.now.stamp == 0) && (not (changed_of tree.now level place) && B.shared blocks.now pointer.now.vvbn)) 1 0 }
    ensures few { result ≤ 1 }
{
    let changed = is_changed(tree, level, place);
    if pointer.stamp != 0 && !changed && blocks.is_shared(pointer.vvbn) {
        1
    } else {
        0
    }
}

/// Whether a cell or a node in memory differs from its block.
fn is_changed(tree: &Tree, level: u8, place: u32) -> bool
    ensures { result ≡ changed_of tree.now level place }
{
    if level == 0 {
        return match tree.cells.get(&place) {
            Some(cell) => cell.changed,
            None => false,
        };
    }
    match tree.nodes.get(&(level, place)) {
        Some(node) => node.changed,
        None => false,
    }
}
