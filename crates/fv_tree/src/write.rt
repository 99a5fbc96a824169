//! Writing a cell: its content, and the stamps on the way to it.

ghost use Rattle.std.specs.Prelude.{◌≡◌, ◌≢◌, ◌≤◌, ◌<◌, ◌+◌, ◌-◌, ◌/◌, ◌^◌, ◌⊎◌, ◌&&◌, ℕ, true, is_some, cond, nat_eq, Some, IfOk, IfErr, OnOk, OnErr};
ghost use Rattle.std.specs.BTreeMap as maps;
ghost use Rattle.std.specs.Ordering.{nat_cmp};
ghost use Rattle.std.specs.Option.{option_map};
ghost use Rattle.fv_model.specs.Trees.{fan, spot_cmp};
ghost use Rattle.fv_tree.specs.Places.{HasRightPlaces};
ghost use Rattle.fv_tree.specs.declared.kept.KeptCell.{KeptCell};
ghost use Rattle.fv_tree.specs.Standing.{standing, under, children_in, cell_in, IsSameButCells};
ghost use Rattle.fv_tree.specs.Spelled.{Under};
ghost use Rattle.fv_tree.specs.Flushing.{cell_changed, cell_placed, changed_in, changed_of, loaded, loaded_over, placed_in};
ghost use Rattle.fv_tree.specs.Altering.{Alters, Leaves};
ghost use Rattle.fv_tree.specs.Carried.{Marks, MarksNode};
ghost use Rattle.fv_tree.specs.Writing.{stamped, stamped_in, new_child, Stamps, IsAlike, IsWritten};
ghost use Rattle.fv_tree.specs.Costs.{cells_changed, cells_held, changes_in};
ghost use Rattle.fv_tree.specs.Calls.{Steady, SteadyHeld};
ghost use Rattle.fv_disk.specs.declared.fault.BlockFault.TheVariants.{Memory};

use crate::blocks::{Blocks, TreeFault};
use crate::grow::{keep_new_levels, levels_over, new_mark};
use crate::keep::keep_path;
use crate::kept::{KeptCell, KeptNode, Tree};
use crate::pending::recounted;
use crate::sizes::{FAN, width};
use fv_codec::Pointer;
use std::collections::BTreeMap;

/// Puts a cell's content into memory, as one that changed.
pub fn keep_cell(
    tree: &mut Tree,
    index: u32,
    block: &[u8; 4096],
    placed: bool,
) -> Result<(), TreeFault>
    ensures fields { IsSameButCells tree.old tree.new }
    ensures cell { OnOk result ((i : ℕ) → cell_in tree.new i ≡ cond (nat_eq i index) (Some block.now) (cell_in tree.old i)) }
    ensures failed { OnErr result ((i : ℕ) → cell_in tree.new i ≡ cell_in tree.old i) }
    ensures own { OnOk result (cell_placed (maps.get nat_cmp tree.new.cells index) ≡ (placed && cell_placed (maps.get nat_cmp tree.old.cells index))) }
    ensures others { (i : ℕ) → i ≢ index → maps.get nat_cmp tree.new.cells i ≡ maps.get nat_cmp tree.old.cells i }
    ensures same { OnErr result ((i : ℕ) → maps.get nat_cmp tree.new.cells i ≡ maps.get nat_cmp tree.old.cells i) }
    ensures changed { OnOk result (cell_changed (maps.get nat_cmp tree.new.cells index) ≡ true) }
    ensures count { cells_changed tree.new.cells ≤ cells_changed tree.old.cells + 1 }
    ensures still { OnErr result (cells_changed tree.new.cells ≤ cells_changed tree.old.cells) }
    ensures held { cells_held tree.new ≤ cells_held tree.old + 1 }
    ensures memory { IfErr result (λ e. e ≡ Memory) }
{
    if tree.cells.contains_key(&index) {
        set_content(
            &mut tree.cells,
            &mut tree.changed_cells,
            index,
            block,
            placed,
        );
        return Ok(());
    }
    let block = boxed(tree, block)?;
    let cell = KeptCell {
        block,
        changed: true,
        placed,
    };
    let changed = recounted(tree.changed_cells, tree.cells.len(), false, true);
    match tree.cells.insert(index, cell) {
        Ok(_) => {
            tree.changed_cells = changed;
            Ok(())
        }
        Err(_) => Err(TreeFault::Memory),
    }
}

/// A block in a box of its own.
pub fn boxed(tree: &Tree, block: &[u8; 4096]) -> Result<Box<[u8; 4096]>, TreeFault>
    ensures content { IfOk result (λ made. made.value ≡ block.now) }
    ensures memory { IfErr result (λ e. e ≡ Memory) }
{
    match Box::new(tree.alloc, *block) {
        Ok(made) => Ok(made),
        Err(_) => Err(TreeFault::Memory),
    }
}

/// Puts another content over that of a cell in memory, where it lies. The pointer to it still leads to a block that it
/// replaces only where `placed` says so, too. `changed` counts the cells that differ from their blocks.
pub fn set_content(
    cells: &mut BTreeMap<u32, KeptCell>,
    changed: &mut u64,
    index: u32,
    block: &[u8; 4096],
    placed: bool,
)
    requires there { is_some (maps.get nat_cmp cells.old index) ≡ true }
    requires counted { changed.old ≡ cells_changed cells.old }
    ensures counted { changed.new ≡ cells_changed cells.new }
    ensures fits { changed.new < 2 ^ 64 }
    ensures count { cells_changed cells.new ≤ cells_changed cells.old + 1 }
    ensures len { maps.btree_map_len cells.new ≡ maps.btree_map_len cells.old }
    ensures changed { cell_changed (maps.get nat_cmp cells.new index) ≡ true }
    ensures content { (i : ℕ) → option_map (λ (kept : KeptCell). kept.block.value) (maps.get nat_cmp cells.new i) ≡ cond (nat_eq i index) (Some block.now) (option_map (λ (kept : KeptCell). kept.block.value) (maps.get nat_cmp cells.old i)) }
    ensures own { cell_placed (maps.get nat_cmp cells.new index) ≡ (placed && cell_placed (maps.get nat_cmp cells.old index)) }
    ensures others { (i : ℕ) → i ≢ index → maps.get nat_cmp cells.new i ≡ maps.get nat_cmp cells.old i }
{
    let most = cells.len();
    if let Some(cell) = cells.get_mut(&index) {
        *changed = recounted(*changed, most, cell.changed, true);
        *cell.block = *block;
        cell.changed = true;
        cell.placed = still_placed(placed, cell.placed);
    }
}

/// Whether a pointer leads to a block that is replaced, where it did so before.
fn still_placed(placed: bool, before: bool) -> bool
    ensures { result ≡ (placed && before) }
{
    placed && before
}

/// Whether the pointer to a cell, where there is one, leads to a block.
pub fn is_placed(tree: &Tree, index: u32) -> bool
    ensures { result ≡ cell_placed (maps.get nat_cmp tree.now.cells index) }
{
    match tree.cells.get(&index) {
        Some(cell) => cell.placed,
        None => true,
    }
}

/// Gives the root and each pointer on the way to a cell a stamp.
pub fn stamp_path(tree: &mut Tree, index: u32, stamp: u64)
    requires { 1 ≤ stamp }
    ensures stamps { Stamps tree.old tree.new index stamp }
    ensures marks { Marks tree.old tree.new index }
    ensures changes { changes_in tree.new.nodes ≤ changes_in tree.old.nodes + tree.old.levels }
    ensures again { ((level : ℕ) → 1 ≤ level → level ≤ tree.old.levels → changed_in tree.old.nodes level (index / fan ^ level) ≡ true) → changes_in tree.new.nodes ≤ changes_in tree.old.nodes }
    ensures top { changed_in tree.old.nodes tree.old.levels (index / fan ^ tree.old.levels) ≡ true → changes_in tree.new.nodes ≤ changes_in tree.old.nodes + (tree.old.levels - 1) }
{
    let levels = tree.levels;
    tree.root = stamped(&tree.root, stamp);
    for below in 0..levels {
        let place = index / width(below + 1);
        let slot = index / width(below) % FAN;
        stamp_slot(
            &mut tree.nodes,
            &mut tree.changed_nodes,
            below + 1,
            place,
            slot,
            stamp,
        );
    }
}

/// Gives one pointer of a node in memory a stamp. `changed` counts the nodes that differ from their blocks.
pub fn stamp_slot(
    nodes: &mut BTreeMap<(u8, u32), KeptNode>,
    changed: &mut u64,
    level: u8,
    place: u32,
    slot: u32,
    stamp: u64,
)
    requires slot { slot < fan }
    requires stamp { 1 ≤ stamp }
    requires counted { changed.old ≡ changes_in nodes.old }
    ensures counted { changed.new ≡ changes_in nodes.new }
    ensures fits { changed.new < 2 ^ 64 }
    ensures children { (k q : ℕ) → children_in nodes.new k q ≡ cond (nat_eq k level && nat_eq q place) (option_map (stamped_in slot stamp) (children_in nodes.old k q)) (children_in nodes.old k q) }
    ensures marked { MarksNode nodes.old nodes.new level place }
    ensures again { changed_in nodes.old level place ≡ true → changes_in nodes.new ≤ changes_in nodes.old }
    ensures ordered { maps.IsOrdered spot_cmp nodes.new }
{
    let most = nodes.len();
    if let Some(node) = nodes.get_mut(&(level, place)) {
        *changed = recounted(*changed, most, node.changed, true);
        stamp_child(node, slot, stamp);
    }
}

/// Gives one pointer of a node a stamp.
fn stamp_child(node: &mut KeptNode, slot: u32, stamp: u64)
    requires slot { slot < fan }
    requires stamp { 1 ≤ stamp }
    ensures children { node.new.children ≡ stamped_in slot stamp node.old.children }
    ensures changed { node.new.changed ≡ true }
    ensures placed { node.new.placed ≡ node.old.placed }
{
    let slot = slot as usize;
    let child = node.children[slot];
    node.children[slot] = stamped(&child, stamp);
    node.changed = true;
}

/// A pointer with another stamp.
pub fn stamped(pointer: &Pointer, stamp: u64) -> Pointer
    ensures { result ≡ stamped pointer.now stamp }
{
    Pointer {
        vvbn: pointer.vvbn,
        pvbn: pointer.pvbn,
        stamp,
    }
}

/// Writes a cell within the levels of a tree.
pub fn write_within<B: Blocks>(
    tree: &mut Tree,
    blocks: &mut B,
    index: u32,
    block: &[u8; 4096],
    stamp: u64,
) -> Result<(), TreeFault>
    requires index { index < fan ^ tree.old.levels }
    requires stamp { 1 ≤ stamp }
    requires right { B.told → HasRightPlaces (B.shown blocks.old) tree.old }
    ensures done { B.told → OnOk result (IsWritten (standing (under (B.shown blocks.old)) tree.old) (standing (under (B.shown blocks.new)) tree.new) index stamp block.now) }
    ensures failed { B.told → OnErr result (IsAlike (standing (under (B.shown blocks.old)) tree.old) (standing (under (B.shown blocks.new)) tree.new)) }
    ensures alters { B.told → Alters stamp (loaded (B.shown blocks.old) tree.old) (loaded (B.shown blocks.new) tree.new) }
    ensures leaves { B.told → OnErr result (Leaves (loaded (B.shown blocks.old) tree.old) (loaded (B.shown blocks.new) tree.new)) }
    ensures marked { OnOk result (changed_of tree.new 0 index ≡ true) }
    ensures steady { Steady B.told (B.reads blocks.old blocks.new) (B.shown blocks.old) (B.shown blocks.new) tree.old tree.new 6 1 result }
{
    let pointer = keep_path(tree, blocks, index)?;
    keep_cell(tree, index, block, pointer.stamp != 0)?;
    stamp_path(tree, index, stamp);
    Ok(())
}

/// Writes a cell past the levels of a tree, which grow. It reads nothing.
pub fn write_past(
    tree: &mut Tree,
    index: u32,
    block: &[u8; 4096],
    stamp: u64,
) -> Result<(), TreeFault>
    requires past { fan ^ tree.old.levels ≤ index }
    requires index { index < 2097152 }
    requires stamp { 1 ≤ stamp }
    ensures done { (blocks : Under) → OnOk result (IsWritten (standing blocks tree.old) (standing blocks tree.new) index stamp block.now) }
    ensures failed { (blocks : Under) → OnErr result (IsAlike (standing blocks tree.old) (standing blocks tree.new)) }
    ensures alters { (blocks : Under) → Alters stamp (loaded_over blocks tree.old) (loaded_over blocks tree.new) }
    ensures leaves { (blocks : Under) → OnErr result (Leaves (loaded_over blocks tree.old) (loaded_over blocks tree.new)) }
    ensures marked { OnOk result (changed_of tree.new 0 index ≡ true) }
    ensures memory { IfErr result (λ e. e ≡ Memory) }
    ensures steady { SteadyHeld tree.old tree.new 6 1 }
{
    let levels = levels_over(index);
    keep_new_levels(tree, levels, index, stamp)?;
    keep_cell(tree, index, block, false)?;
    raise(tree, levels, stamp);
    stamp_path(tree, index, stamp);
    Ok(())
}

/// Gives a tree new levels, whose root has no block yet.
fn raise(tree: &mut Tree, levels: u8, stamp: u64)
    requires { levels ≤ 3 }
    ensures owner { tree.new.owner ≡ tree.old.owner }
    ensures nodes { tree.new.nodes ≡ tree.old.nodes }
    ensures cells { tree.new.cells ≡ tree.old.cells }
    ensures levels { tree.new.levels ≡ levels }
    ensures root { tree.new.root ≡ new_child stamp }
{
    tree.levels = levels;
    tree.root = new_mark(stamp);
}
