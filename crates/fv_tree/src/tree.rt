//! The calls of a tree.

ghost use Rattle.std.specs.Prelude.{◌≡◌, ◌≤◌, ◌<◌, ◌+◌, ℕ, true, List, Option, cond, Some, None, IfOk, IfErr, OnOk, OnErr};
ghost use Rattle.std.specs.BTreeMap as maps;
ghost use Rattle.std.specs.FinMap as fin;
ghost use Rattle.std.specs.Ordering.{nat_cmp};
ghost use Rattle.fv_model.specs.Trees as trees;
ghost use Rattle.fv_codec.specs.Blocks.{IsPointer};
ghost use Rattle.fv_tree.specs.Places.{HasRightPlaces, IsReadable};
ghost use Rattle.fv_tree.specs.Spelled.{Under, hole, stored, block_at};
ghost use Rattle.fv_tree.specs.Sources.{Counts, Use, IsUntouched};
ghost use Rattle.fv_tree.specs.Standing.{standing, under, Shows, Fails};
ghost use Rattle.fv_tree.specs.Writing.{IsWritten, Writes, Remains};
ghost use Rattle.fv_tree.specs.Flushing.{changed_of, loaded, loaded_over, IsSound, ReachesOnce, Stands};
ghost use Rattle.fv_tree.specs.Altering.{Alters, Leaves};
ghost use Rattle.fv_tree.specs.Costs.{pending};
ghost use Rattle.fv_tree.specs.Lookups.{way_cost};
ghost use Rattle.fv_tree.specs.Calls.{Steady};

use crate::blocks::{Blocks, TreeFault};
use crate::kept::{HOLE, Tree};
use crate::sizes::width;
use crate::write::{write_past, write_within};
use fv_codec::Pointer;
use std::alloc::Global;
use std::collections::BTreeMap;

impl Tree {
    /// A tree without a cell, of at most 3 levels. `owner` is the file's number, or 2^64 - 1 for the inode
    /// file. Takes no memory before a cell comes.
    pub fn new(alloc: Global, owner: u64, levels: u8) -> Tree
        requires levels { levels ≤ 3 }
        ensures stored { (blocks : Under) → standing blocks result ≡ stored blocks owner levels hole }
        ensures seen { (blocks : Under) → Shows (standing blocks result) (record { levels = levels; stamps = fin.empty }) fin.empty }
        ensures stands { (blocks : Under) (used : ℕ → Option Use) → IsSound used (loaded_over blocks result) }
        ensures pending { pending result ≡ 0 }
    {
        Tree::at(alloc, owner, levels, HOLE)
    }

    /// The tree that a root pointer spells. Reads nothing and takes no memory.
    pub fn at(alloc: Global, owner: u64, levels: u8, root: Pointer) -> Tree
        requires levels { levels ≤ 3 }
        requires root { IsPointer root }
        ensures stored { (blocks : Under) → standing blocks result ≡ stored blocks owner levels root }
        ensures stands { (blocks : Under) (used : ℕ → Option Use) → ReachesOnce used (stored blocks owner levels root) → IsSound used (loaded_over blocks result) }
        ensures pending { pending result ≡ 0 }
    {
        unread(alloc, owner, levels, root)
    }

    /// How many levels of nodes it has, at most 3.
    pub fn levels(&self) -> u8
        ensures levels { result ≡ self.now.levels }
        ensures few { result ≤ 3 }
    {
        self.levels
    }

    /// The content of the cell at `index`, which is below 2,097,152; false exactly for a hole. It keeps
    /// nothing in memory and loads the blocks that `read` does.
    ///
    /// # Errors
    ///
    /// `DiskFault` and `Damaged` as the `Blocks` answers them, and `Damaged` for a block without the shape of a
    /// node, whatever position it names: its place, and its first field that isn't as said. `Memory` only from
    /// the `Blocks`.
    pub fn get<B: Blocks>(
        &mut self,
        blocks: &mut B,
        index: u32,
        into: &mut [u8; 4096],
    ) -> Result<bool, TreeFault>
        requires right { B.told → IsReadable (B.shown blocks.old) self.old }
        ensures cell { B.told → IfOk result (λ there. block_at (standing (under (B.shown blocks.old)) self.old) index ≡ cond there (Some into.new) None) }
        ensures seen { B.told → (seen : trees.Tree) (contents : fin.FinMap nat_cmp (List ℕ)) → Shows (standing (under (B.shown blocks.old)) self.old) seen contents → IfOk result (λ there. fin.get contents index ≡ cond there (Some into.new) None) }
        ensures spent { B.told → OnOk result ((B.shown blocks.new).spent ≡ (B.shown blocks.old).spent + way_cost (B.shown blocks.old).cost (loaded (B.shown blocks.old) self.old) index) }
        ensures tree { self.new ≡ self.old }
        ensures stands { Stands (B.shown blocks.old) self.old → Stands (B.shown blocks.new) self.new }
        ensures untouched { IsUntouched (B.shown blocks.old) (B.shown blocks.new) }
        ensures reads { B.reads blocks.old blocks.new }
        ensures counts { Counts (B.shown blocks.old) (B.shown blocks.new) result }
        ensures cause { IfErr result (Fails B.told (standing (under (B.shown blocks.old)) self.old) (B.shown blocks.old) (B.shown blocks.new)) }
    {
        let at = self.read(blocks, index, into)?;
        Ok(at.is_some())
    }

    /// Writes the cell at `index`, which is below 2,097,152, with a stamp of at least 1. Levels grow where they
    /// don't cover it. The cell, each mark over it and each mark that a growth makes get the stamp. It loads at
    /// most the nodes over the cell that aren't in memory, and none past the levels. Those nodes and the cell's
    /// content stay in memory. After a fault the tree is seen as before.
    ///
    /// # Errors
    ///
    /// As `get`, and `Memory` where there is no memory for the nodes and the content.
    pub fn put<B: Blocks>(
        &mut self,
        blocks: &mut B,
        index: u32,
        block: &[u8; 4096],
        stamp: u64,
    ) -> Result<(), TreeFault>
        requires index { index < 2097152 }
        requires stamp { 1 ≤ stamp }
        requires right { B.told → HasRightPlaces (B.shown blocks.old) self.old }
        ensures written { B.told → OnOk result (Writes (standing (under (B.shown blocks.old)) self.old) (standing (under (B.shown blocks.new)) self.new) index stamp block.now) }
        ensures place_by_place { B.told → OnOk result (IsWritten (standing (under (B.shown blocks.old)) self.old) (standing (under (B.shown blocks.new)) self.new) index stamp block.now) }
        ensures failed { B.told → OnErr result (Remains (standing (under (B.shown blocks.old)) self.old) (standing (under (B.shown blocks.new)) self.new)) }
        ensures alters { B.told → Alters stamp (loaded (B.shown blocks.old) self.old) (loaded (B.shown blocks.new) self.new) }
        ensures leaves { B.told → OnErr result (Leaves (loaded (B.shown blocks.old) self.old) (loaded (B.shown blocks.new) self.new)) }
        ensures marked { OnOk result (changed_of self.new 0 index ≡ true) }
        ensures steady { Steady B.told (B.reads blocks.old blocks.new) (B.shown blocks.old) (B.shown blocks.new) self.old self.new 6 1 result }
    {
        if index < width(self.levels) {
            write_within(self, blocks, index, block, stamp)
        } else {
            write_past(self, index, block, stamp)
        }
    }
}

/// A tree of which nothing is in memory.
fn unread(alloc: Global, owner: u64, levels: u8, root: Pointer) -> Tree
    requires levels { levels ≤ 3 }
    requires root { IsPointer root }
    ensures owner { result.owner ≡ owner }
    ensures levels { result.levels ≡ levels }
    ensures root { result.root ≡ root }
    ensures nodes { maps.btree_map_len result.nodes ≡ 0 }
    ensures cells { maps.btree_map_len result.cells ≡ 0 }
{
    Tree {
        owner,
        levels,
        root,
        nodes: BTreeMap::new(alloc),
        cells: BTreeMap::new(alloc),
        changed_nodes: 0,
        changed_cells: 0,
        alloc,
    }
}
