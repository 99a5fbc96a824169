//! Another content for a cell, under the stamps that it has.

ghost use Rattle.std.specs.Prelude.{◌≡◌, ◌^◌, ◌<◌, ◌≢◌, ◌≤◌, ◌+◌, ◌⊎◌, ℕ, List, true, false, is_some, Some, IfOk, IfErr, OnErr};
ghost use Rattle.std.specs.BTreeMap as maps;
ghost use Rattle.fv_codec.specs.declared.pointer.Pointer.{Pointer};
ghost use Rattle.fv_codec.specs.Blocks.{all_holes};
ghost use Rattle.fv_model.specs.Trees.{spot_cmp};
ghost use Rattle.fv_tree.specs.Places.{HasRightPlaces};
ghost use Rattle.fv_tree.specs.Standing.{standing, under, node_in, children_in, IsSameBut};
ghost use Rattle.fv_tree.specs.Writing.{Remains};
ghost use Rattle.fv_disk.specs.declared.fault.BlockFault.TheVariants.{Memory};
ghost use Rattle.fv_tree.specs.Readying.{IsReady};
ghost use Rattle.fv_tree.specs.Refilling.{IsFilledWay, IsRefilled, Refills};
ghost use Rattle.fv_tree.specs.Flushing.{changed_in, loaded, placed_in, Stands, changed_of};
ghost use Rattle.fv_tree.specs.Altering.{Leaves};
ghost use Rattle.fv_tree.specs.Carried.{Marks, MarksNode};
ghost use Rattle.fv_tree.specs.Costs.{changes_in, pending};
ghost use Rattle.fv_tree.specs.Calls.{Steady};

use crate::blocks::{Blocks, TreeFault};
use crate::keep::keep_path;
use crate::kept::{KeptNode, Tree};
use crate::pending::recounted;
use crate::sizes::width;
use crate::write::keep_cell;
use std::collections::BTreeMap;

impl Tree {
    /// Gives the cell at `index` another content, under the stamps that it has, as the roots of files come into an
    /// inode block after their flush; false exactly for a hole, and then nothing changes. Levels, marks and all
    /// other cells stay. It loads at most the nodes over the cell that aren't in memory, and not the content that
    /// it replaces. Those nodes and the new content stay in memory, and the next `flush` places them. After a fault
    /// the tree is seen as before.
    ///
    /// # Errors
    ///
    /// As `get`, and `Memory` where there is no memory for the nodes and the content.
    pub fn refill<B: Blocks>(
        &mut self,
        blocks: &mut B,
        index: u32,
        block: &[u8; 4096],
    ) -> Result<bool, TreeFault>
        requires right { B.told → HasRightPlaces (B.shown blocks.old) self.old }
        ensures refilled { B.told → IfOk result (Refills (standing (under (B.shown blocks.old)) self.old) (standing (under (B.shown blocks.new)) self.new) index block.now) }
        ensures place_by_place { B.told → IfOk result (IsRefilled (standing (under (B.shown blocks.old)) self.old) (standing (under (B.shown blocks.new)) self.new) index block.now) }
        ensures failed { B.told → OnErr result (Remains (standing (under (B.shown blocks.old)) self.old) (standing (under (B.shown blocks.new)) self.new)) }
        ensures ready { IfOk result (λ there. there ≡ true → IsReady self.new index) }
        ensures held { IsReady self.old index → IfErr result (λ e. e ≡ Memory) }
        ensures levels { self.new.levels ≡ self.old.levels }
        ensures leaves { B.told → Stands (B.shown blocks.old) self.old → changed_of self.old 0 index ≡ true → Leaves (loaded (B.shown blocks.old) self.old) (loaded (B.shown blocks.new) self.new) }
        ensures unchanged { B.told → OnErr result (Leaves (loaded (B.shown blocks.old) self.old) (loaded (B.shown blocks.new) self.new)) }
        ensures still { OnErr result (pending self.new ≤ pending self.old) }
        ensures steady { Steady B.told (B.reads blocks.old blocks.new) (B.shown blocks.old) (B.shown blocks.new) self.old self.new 4 1 result }
    {
        if index >= width(self.levels) {
            return Ok(false);
        }
        let pointer = keep_path(self, blocks, index)?;
        if pointer.stamp == 0 {
            return Ok(false);
        }
        keep_cell(self, index, block, true)?;
        mark_path(self, index);
        Ok(true)
    }
}

/// Marks the nodes over a cell as changed.
fn mark_path(tree: &mut Tree, index: u32)
    requires { IsFilledWay tree.old index }
    ensures fields { IsSameBut tree.old tree.new }
    ensures nodes { (level place : ℕ) → node_in tree.new level place ≡ node_in tree.old level place }
    ensures marks { Marks tree.old tree.new index }
    ensures changes { changes_in tree.new.nodes ≤ changes_in tree.old.nodes + tree.old.levels }
{
    let levels = tree.levels;
    for below in 0..levels {
        let place = index / width(below + 1);
        mark_spot(&mut tree.nodes, &mut tree.changed_nodes, below + 1, place);
    }
}

/// Marks a node in memory as changed. `changed` counts the nodes that differ from their blocks.
fn mark_spot(nodes: &mut BTreeMap<(u8, u32), KeptNode>, changed: &mut u64, level: u8, place: u32)
    requires counted { changed.old ≡ changes_in nodes.old }
    requires filled { (xs : List Pointer) → children_in nodes.old level place ≡ Some xs → all_holes xs ≡ false }
    ensures counted { changed.new ≡ changes_in nodes.new }
    ensures fits { changed.new < 2 ^ 64 }
    ensures children { (k q : ℕ) → children_in nodes.new k q ≡ children_in nodes.old k q }
    ensures marked { MarksNode nodes.old nodes.new level place }
{
    let most = nodes.len();
    if let Some(node) = nodes.get_mut(&(level, place)) {
        *changed = recounted(*changed, most, node.changed, true);
        mark(node);
    }
}

/// Marks a node as changed.
fn mark(node: &mut KeptNode)
    requires filled { all_holes node.old.children ≡ false }
    ensures children { node.new.children ≡ node.old.children }
    ensures changed { node.new.changed ≡ true }
    ensures placed { node.new.placed ≡ node.old.placed }
{
    node.changed = true;
}
