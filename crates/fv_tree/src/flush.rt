//! Placing what changed, from the cells up.

ghost use Rattle.std.specs.Prelude.{◌≡◌, ◌≢◌, ◌≤◌, ◌<◌, ◌+◌, ◌-◌, ◌/◌, ℕ, true, false, Some, IfOk, OnOk, OnErr};
ghost use Rattle.std.specs.BTreeMap as maps;
ghost use Rattle.fv_codec.specs.Blocks.{IsPointer};
ghost use Rattle.fv_model.specs.Trees.{fan};
ghost use Rattle.fv_tree.specs.Spelled.{stored};
ghost use Rattle.fv_tree.specs.Standing.{standing, under};
ghost use Rattle.fv_tree.specs.Writing.{Remains};
ghost use Rattle.fv_tree.specs.Flushing.{changed_in, loaded, pointer_in, HoldsAsMuch, IsCellStep, IsNodeStep, KeepsOthers, NamesUsed, ReachesOnce, Stands};
ghost use Rattle.fv_tree.specs.Stored.{IsStoredWell, HasPlaces, TellsPlaces};
ghost use Rattle.fv_tree.specs.Unknown.{KnowsRoots};
ghost use Rattle.fv_tree.specs.Costs.{changes_in, pending};
ghost use Rattle.fv_tree.specs.Calls.{PlacesChanged, PlacesOne};

use crate::blocks::{Blocks, TreeFault};
use crate::keep::empty_node;
use crate::kept::{KeptNode, Tree};
use crate::placing::{
    FoundCell, all_known, first_cell, first_node, forget_cell, forget_node, has_unknown_root,
    replace, spell,
};
use fv_codec::Pointer;

/// Places the cells in memory that changed.
fn flush_cells<B: Blocks>(tree: &mut Tree, blocks: &mut B, hides: bool) -> Result<(), TreeFault>
    ensures none { OnOk result (maps.btree_map_len tree.new.cells ≡ 0) }
    ensures flushing { PlacesChanged hides B.told B.known B.shown B.goes B.keeps blocks.old blocks.new tree.old tree.new result }
{
    let mut block = [0; 4096];
    for _ in 0..tree.cells.len() {
        flush_first_cell(tree, blocks, hides, &mut block)?;
    }
    Ok(())
}

/// Places the nodes in memory that changed, the lowest first.
fn flush_nodes<B: Blocks>(tree: &mut Tree, blocks: &mut B, hides: bool) -> Result<(), TreeFault>
    requires { maps.btree_map_len tree.old.cells ≡ 0 }
    ensures cells { tree.new.cells ≡ tree.old.cells }
    ensures none { OnOk result (maps.btree_map_len tree.new.nodes ≡ 0) }
    ensures flushing { PlacesChanged hides B.told B.known B.shown B.goes B.keeps blocks.old blocks.new tree.old tree.new result }
{
    let mut node = empty_node();
    let mut block = [0; 4096];
    for _ in 0..tree.nodes.len() {
        flush_first_node(tree, blocks, hides, &mut node, &mut block)?;
    }
    Ok(())
}

/// Places the first cell in memory, where it changed. Its content goes through `block`.
fn flush_first_cell<B: Blocks>(
    tree: &mut Tree,
    blocks: &mut B,
    hides: bool,
    block: &mut [u8; 4096],
) -> Result<(), TreeFault>
    ensures fewer { OnOk result (maps.btree_map_len tree.new.cells ≡ maps.btree_map_len tree.old.cells - 1) }
    ensures flushing { PlacesChanged hides B.told B.known B.shown B.goes B.keeps blocks.old blocks.new tree.old tree.new result }
{
    match first_cell(tree, block) {
        None => Ok(()),
        Some(cell) => {
            flush_cell(tree, blocks, hides, &cell, block)?;
            forget_cell(tree, cell.index);
            Ok(())
        }
    }
}

/// Places a cell, where it changed.
fn flush_cell<B: Blocks>(
    tree: &mut Tree,
    blocks: &mut B,
    hides: bool,
    cell: &FoundCell,
    block: &[u8; 4096],
) -> Result<(), TreeFault>
    ensures cell { B.told → OnOk result (IsCellStep hides (B.shown blocks.old) tree.old cell.now.index block.now cell.now.changed cell.now.placed (B.shown blocks.new) tree.new) }
    ensures keeps { B.told → (cell.now.changed ≡ true → NamesUsed (B.shown blocks.old) cell.now.placed (pointer_in tree.old 0 cell.now.index)) → KeepsOthers (λ v. B.keeps v blocks.old blocks.new) (B.shown blocks.old) (B.shown blocks.new) }
    ensures still { HoldsAsMuch tree.old tree.new }
    ensures failed { OnErr result (tree.new ≡ tree.old) }
    ensures changed { OnErr result (cell.now.changed ≡ true) }
    ensures changes { (cell.now.changed ≡ true → (pointer_in tree.old 0 cell.now.index).stamp ≢ 0 → 0 < tree.old.levels → changed_in tree.old.nodes 1 (cell.now.index / fan) ≡ true) → changes_in tree.new.nodes ≤ changes_in tree.old.nodes }
    ensures still_room { cell.now.changed ≡ false → (B.shown blocks.old).room ≤ (B.shown blocks.new).room }
    ensures one { PlacesOne B.told B.known (B.goes blocks.old blocks.new) (B.shown blocks.old) (B.shown blocks.new) result }
{
    if cell.changed {
        let known = !hides && !has_unknown_root(tree.owner, block);
        replace(tree, blocks, (0, cell.index), block, cell.placed, known)
    } else {
        Ok(())
    }
}

/// Places the first node in memory, where it changed. It goes through `node` and `block`.
fn flush_first_node<B: Blocks>(
    tree: &mut Tree,
    blocks: &mut B,
    hides: bool,
    node: &mut KeptNode,
    block: &mut [u8; 4096],
) -> Result<(), TreeFault>
    requires { maps.btree_map_len tree.old.cells ≡ 0 }
    ensures cells { tree.new.cells ≡ tree.old.cells }
    ensures fewer { OnOk result (maps.btree_map_len tree.new.nodes ≡ maps.btree_map_len tree.old.nodes - 1) }
    ensures flushing { PlacesChanged hides B.told B.known B.shown B.goes B.keeps blocks.old blocks.new tree.old tree.new result }
{
    match first_node(tree, node) {
        None => Ok(()),
        Some((level, place)) => {
            flush_node(tree, blocks, hides, level, place, node, block)?;
            forget_node(tree, level, place);
            Ok(())
        }
    }
}

/// Places a node, where it changed and lies within the levels. It is spelled in `block`.
fn flush_node<B: Blocks>(
    tree: &mut Tree,
    blocks: &mut B,
    hides: bool,
    level: u8,
    place: u32,
    node: &KeptNode,
    block: &mut [u8; 4096],
) -> Result<(), TreeFault>
    ensures node { B.told → OnOk result (IsNodeStep hides (B.shown blocks.old) tree.old level place node.now (B.shown blocks.new) tree.new) }
    ensures keeps { B.told → (1 ≤ level → node.now.changed ≡ true → NamesUsed (B.shown blocks.old) node.now.placed (pointer_in tree.old level place)) → KeepsOthers (λ v. B.keeps v blocks.old blocks.new) (B.shown blocks.old) (B.shown blocks.new) }
    ensures still { HoldsAsMuch tree.old tree.new }
    ensures failed { OnErr result (tree.new ≡ tree.old) }
    ensures changed { OnErr result (node.now.changed ≡ true) }
    ensures changes { (1 ≤ level → node.now.changed ≡ true → (pointer_in tree.old level place).stamp ≢ 0 → level < tree.old.levels → changed_in tree.old.nodes (level + 1) (place / fan) ≡ true) → changes_in tree.new.nodes ≤ changes_in tree.old.nodes }
    ensures own { changed_in tree.new.nodes level place ≡ changed_in tree.old.nodes level place }
    ensures still_room { node.now.changed ≡ false → (B.shown blocks.old).room ≤ (B.shown blocks.new).room }
    ensures one { PlacesOne B.told B.known (B.goes blocks.old blocks.new) (B.shown blocks.old) (B.shown blocks.new) result }
{
    if node.changed && 1 <= level && level <= tree.levels {
        spell(tree.owner, level, place, node, block);
        let known = !hides && all_known(&node.children);
        replace(tree, blocks, (level, place), block, node.placed, known)
    } else {
        Ok(())
    }
}

impl Tree {
    /// Places each cell and each node that changed since the last flush once, a node after all that it leads
    /// to, and names each block that one of them replaces once to `gone`. A node that holds an unknown pointer
    /// gets an unknown pointer itself, and so does an inode block in which the root of a file is unknown. Where
    /// the flush `hides` places, each pointer to a new block is unknown. Any other tells the PVBN that `place` answered.
    /// Each new block is placed with the kind of its level: 1 for a file's cell and 2 to 4 for its nodes, 5 for an
    /// inode file's cell and 6 and 7 for its nodes. Answers the root, and then nothing is in memory. Levels, cells and
    /// marks stay as they are, also after a fault, and a later flush then goes on where this one ended. What the source
    /// has under a VVBN stays, unless a new block of the tree lies there afterwards. All this is so for a tree that
    /// stands on its blocks. It takes no memory, loads nothing, and walks only what is in memory.
    ///
    /// # Errors
    ///
    /// As `place` of the `Blocks` answers them.
    pub fn flush<B: Blocks>(&mut self, blocks: &mut B, hides: bool) -> Result<Pointer, TreeFault>
        ensures remains { B.told → Stands (B.shown blocks.old) self.old → Remains (standing (under (B.shown blocks.old)) self.old) (standing (under (B.shown blocks.new)) self.new) }
        ensures stored_well { B.told → Stands (B.shown blocks.old) self.old → IsStoredWell (loaded (B.shown blocks.old) self.old) → IsStoredWell (loaded (B.shown blocks.new) self.new) }
        ensures tells { B.told → Stands (B.shown blocks.old) self.old → hides ≡ false → HasPlaces (B.shown blocks.new).used → KnowsRoots (loaded (B.shown blocks.old) self.old)
            → TellsPlaces (loaded (B.shown blocks.old) self.old) → TellsPlaces (loaded (B.shown blocks.new) self.new) }
        ensures pending { OnOk result (pending self.new ≡ 0) }
        ensures done { OnOk result ((level place : ℕ) → (loaded (B.shown blocks.new) self.new).changed level place ≡ false) }
        ensures root { IfOk result (λ root. root ≡ self.new.root) }
        ensures pointer { IfOk result IsPointer }
        ensures stored { IfOk result (λ root. standing (under (B.shown blocks.new)) self.new ≡ stored (under (B.shown blocks.new)) self.old.owner self.old.levels root) }
        ensures reaches { B.told → IfOk result (λ root. Stands (B.shown blocks.old) self.old → ReachesOnce (B.shown blocks.new).used (stored (under (B.shown blocks.new)) self.old.owner self.old.levels root)) }
        ensures flushing { PlacesChanged hides B.told B.known B.shown B.goes B.keeps blocks.old blocks.new self.old self.new result }
    {
        flush_cells(self, blocks, hides)?;
        flush_nodes(self, blocks, hides)?;
        Ok(self.root)
    }
}
