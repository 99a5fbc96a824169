//! Writing a cell that is in memory with the nodes over it, which can't fail.

ghost use Rattle.std.specs.Prelude.{◌≡◌, ◌≢◌, ◌≤◌, ◌+◌, ℕ, true, is_some, cond, nat_eq, Some, IfOk, IfErr, OnOk, OnErr};
ghost use Rattle.std.specs.BTreeMap as maps;
ghost use Rattle.std.specs.Ordering.{nat_cmp};
ghost use Rattle.fv_tree.specs.Places.{HasRightPlaces};
ghost use Rattle.fv_tree.specs.Spelled.{Under, pointer_at, stamp_in, block_at};
ghost use Rattle.fv_tree.specs.Standing.{standing, under, cell_in, IsSameButCells};
ghost use Rattle.fv_tree.specs.Writing.{IsAlike, IsWritten, Remains, Writes};
ghost use Rattle.fv_tree.specs.Flushing.{cell_changed, cell_placed, changed_of, loaded};
ghost use Rattle.fv_tree.specs.Altering.{AltersHeld, Leaves};
ghost use Rattle.fv_tree.specs.Readying.{HoldsCell, IsReady};
ghost use Rattle.fv_disk.specs.declared.fault.BlockFault.TheVariants.{Memory};
ghost use Rattle.fv_tree.specs.Costs.{cells_changed, cells_held, Rises};
ghost use Rattle.fv_tree.specs.Calls.{Steady};

use crate::blocks::{Blocks, TreeFault};
use crate::keep::keep_path;
use crate::kept::{KeptCell, Tree};
use crate::read::read_pointed;
use crate::sizes::width;
use crate::write::{boxed, set_content, stamp_path};
use fv_codec::Pointer;

impl Tree {
    /// Holds the cell at `index` and the nodes over it in memory, so that `rewrite` or `erase` can follow, which can't
    /// fail; false exactly for a hole. The tree is seen as before, after a fault, too. It loads at most the nodes
    /// over the cell that aren't in memory, and its content. What comes into memory by it hasn't changed: for it alone a
    /// later `flush` places nothing.
    ///
    /// # Errors
    ///
    /// As `get`, and `Memory` where there is no memory for the nodes and the content.
    pub fn ready<B: Blocks>(&mut self, blocks: &mut B, index: u32) -> Result<bool, TreeFault>
        requires right { B.told → HasRightPlaces (B.shown blocks.old) self.old }
        ensures ready { IfOk result (λ there. there ≡ true → IsReady self.new index) }
        ensures there { B.told → IfOk result (λ there. is_some (stamp_in (pointer_at (standing (under (B.shown blocks.old)) self.old) 0 index)) ≡ there) }
        ensures alike { B.told → IsAlike (standing (under (B.shown blocks.old)) self.old) (standing (under (B.shown blocks.new)) self.new) }
        ensures remains { B.told → Remains (standing (under (B.shown blocks.old)) self.old) (standing (under (B.shown blocks.new)) self.new) }
        ensures levels { self.new.levels ≡ self.old.levels }
        ensures leaves { B.told → Leaves (loaded (B.shown blocks.old) self.old) (loaded (B.shown blocks.new) self.new) }
        ensures steady { Steady B.told (B.reads blocks.old blocks.new) (B.shown blocks.old) (B.shown blocks.new) self.old self.new 0 1 result }
    {
        ready_cell(self, blocks, index)
    }

    /// The content of a cell that is in memory with the nodes over it.
    pub fn content(&self, index: u32, into: &mut [u8; 4096])
        requires ready { IsReady self.now index }
        ensures memory { cell_in self.now index ≡ Some into.new }
        ensures cell { (held : Under) → block_at (standing held self.now) index ≡ Some into.new }
    {
        copy_cell(self, index, into);
    }

    /// Writes a cell that is in memory with the nodes over it, as `put` does, with a stamp of at least 1. It loads
    /// nothing and takes no memory, so it can't fail. What is in memory stays there.
    pub fn rewrite(&mut self, index: u32, block: &[u8; 4096], stamp: u64)
        requires ready { IsReady self.old index }
        requires stamp { 1 ≤ stamp }
        ensures written { (held : Under) → Writes (standing held self.old) (standing held self.new) index stamp block.now }
        ensures place_by_place { (held : Under) → IsWritten (standing held self.old) (standing held self.new) index stamp block.now }
        ensures alters { AltersHeld self.old self.new stamp }
        ensures marked { changed_of self.new 0 index ≡ true }
        ensures memory { cell_in self.new index ≡ Some block.now }
        ensures rises { Rises self.old self.new 4 0 }
    {
        put_content(self, index, block);
        stamp_path(self, index, stamp);
    }
}

/// Holds a cell and the nodes over it in memory, where it stands.
fn ready_cell<B: Blocks>(tree: &mut Tree, blocks: &mut B, index: u32) -> Result<bool, TreeFault>
    requires right { B.told → HasRightPlaces (B.shown blocks.old) tree.old }
    ensures ready { IfOk result (λ there. there ≡ true → IsReady tree.new index) }
    ensures there { B.told → IfOk result (λ there. is_some (stamp_in (pointer_at (standing (under (B.shown blocks.old)) tree.old) 0 index)) ≡ there) }
    ensures alike { B.told → IsAlike (standing (under (B.shown blocks.old)) tree.old) (standing (under (B.shown blocks.new)) tree.new) }
    ensures levels { tree.new.levels ≡ tree.old.levels }
    ensures leaves { B.told → Leaves (loaded (B.shown blocks.old) tree.old) (loaded (B.shown blocks.new) tree.new) }
    ensures steady { Steady B.told (B.reads blocks.old blocks.new) (B.shown blocks.old) (B.shown blocks.new) tree.old tree.new 0 1 result }
{
    if index >= width(tree.levels) {
        return Ok(false);
    }
    let pointer = keep_path(tree, blocks, index)?;
    if pointer.stamp == 0 {
        return Ok(false);
    }
    if tree.cells.contains_key(&index) {
        return Ok(true);
    }
    let mut content = [0; 4096];
    read_pointed(tree, blocks, index, &pointer, &mut content)?;
    hold_cell(tree, index, &content)?;
    Ok(true)
}

/// Puts a cell's content into memory as its block has it, where it isn't there.
fn hold_cell(tree: &mut Tree, index: u32, block: &[u8; 4096]) -> Result<(), TreeFault>
    ensures holds { OnOk result (HoldsCell tree.old tree.new index block.now) }
    ensures fields { IsSameButCells tree.old tree.new }
    ensures same { OnErr result ((i : ℕ) → maps.get nat_cmp tree.new.cells i ≡ maps.get nat_cmp tree.old.cells i) }
    ensures changes { cells_changed tree.new.cells ≤ cells_changed tree.old.cells }
    ensures held { cells_held tree.new ≤ cells_held tree.old + 1 }
    ensures memory { IfErr result (λ e. e ≡ Memory) }
{
    if tree.cells.contains_key(&index) {
        return Ok(());
    }
    let block = boxed(tree, block)?;
    let cell = KeptCell {
        block,
        changed: false,
        placed: true,
    };
    match tree.cells.insert(index, cell) {
        Ok(_) => Ok(()),
        Err(_) => Err(TreeFault::Memory),
    }
}

/// Copies the content of a cell that is in memory.
fn copy_cell(tree: &Tree, index: u32, into: &mut [u8; 4096])
    requires there { is_some (cell_in tree.now index) ≡ true }
    ensures cell { cell_in tree.now index ≡ Some into.new }
{
    if let Some(cell) = tree.cells.get(&index) {
        *into = *cell.block;
    }
}

/// Puts another content over that of a cell in memory.
fn put_content(tree: &mut Tree, index: u32, block: &[u8; 4096])
    requires there { is_some (cell_in tree.old index) ≡ true }
    ensures fields { IsSameButCells tree.old tree.new }
    ensures count { cells_changed tree.new.cells ≤ cells_changed tree.old.cells + 1 }
    ensures held { cells_held tree.new ≡ cells_held tree.old }
    ensures changed { cell_changed (maps.get nat_cmp tree.new.cells index) ≡ true }
    ensures cell { (i : ℕ) → cell_in tree.new i ≡ cond (nat_eq i index) (Some block.now) (cell_in tree.old i) }
    ensures own { cell_placed (maps.get nat_cmp tree.new.cells index) ≡ cell_placed (maps.get nat_cmp tree.old.cells index) }
    ensures others { (i : ℕ) → i ≢ index → maps.get nat_cmp tree.new.cells i ≡ maps.get nat_cmp tree.old.cells i }
{
    set_content(&mut tree.cells, &mut tree.changed_cells, index, block, true);
}
