//! Removing a cell whose way is in memory: the marks that have no cell left go with it.

ghost use Rattle.std.specs.Prelude.{◌≡◌, ◌≢◌, ◌≤◌, ◌<◌, ◌⊎◌, ◌+◌, ◌-◌, ◌/◌, ◌%◌, ◌^◌, ◌&&◌, ℕ, List, true, false, cond, nat_eq, is_some, Some, None};
ghost use Rattle.std.specs.Option.{option_map};
ghost use Rattle.std.specs.Ordering.{nat_cmp};
ghost use Rattle.std.specs.BTreeMap as tree_map;
ghost use Rattle.fv_codec.specs.declared.pointer.Pointer.{Pointer};
ghost use Rattle.fv_model.specs.Trees.{fan, spot_cmp};
ghost use Rattle.fv_tree.specs.Spelled.{Under, hole};
ghost use Rattle.fv_tree.specs.Sources.{IsCalm};
ghost use Rattle.fv_tree.specs.Standing.{standing, node_in, children_in};
ghost use Rattle.fv_tree.specs.Writing.{stamped, slot_of};
ghost use Rattle.fv_tree.specs.Erasing.{StandsAt};
ghost use Rattle.fv_tree.specs.Releasing.{Releases};
ghost use Rattle.fv_tree.specs.Flushing.{placed_in, placed_of, changed_in};
ghost use Rattle.fv_tree.specs.Costs.{cells_changed, cells_held, changes_in, pending};
ghost use Rattle.fv_tree.specs.Unlinking.{HasWay, HasNoOther, HasOther, AreBare, Unlinks, cleared_in, IsNamed, IsOnWay, IsOver, MarksOnly, NamesOnce, CutsWay, StampsAbove};
ghost use Rattle.fv_tree.specs.Carried.{MarksNode, MarksNoMore};
ghost use Rattle.fv_tree.specs.Readying.{IsReady, KeepsOthersReady};
ghost use Rattle.fv_tree.specs.Calls.{ErasesCell};

use crate::blocks::Blocks;
use crate::kept::{HOLE, KeptNode, Tree};
use crate::pending::recounted;
use crate::placing::{forget_cell, forget_node, pointer_in};
use crate::sizes::{FAN, width};
use crate::write::{is_placed, stamp_slot, stamped};
use fv_codec::Pointer;
use std::collections::BTreeMap;

/// Removes a cell that stands and over which all nodes are in memory, names the blocks that go, and answers how
/// many positions went. Over an image
/// of which nothing is known a node may be missing; then nothing is said of what goes.
pub fn erase_cell<B: Blocks>(
    tree: &mut Tree,
    blocks: &mut B,
    index: u32,
    start: u8,
    stamp: u64,
) -> u32
    requires start { start ≤ 3 }
    requires stamp { 1 ≤ stamp }
    ensures owner { tree.new.owner ≡ tree.old.owner }
    ensures few { result ≤ 4 }
    ensures others_ready { IsReady tree.old index → KeepsOthersReady tree.old tree.new index }
    ensures pending { pending tree.new ≤ pending tree.old + 3 }
    ensures differs { MarksOnly tree.old tree.new index }
    ensures room { (B.shown blocks.old).room ≤ (B.shown blocks.new).room }
    ensures calm { IsCalm (B.shown blocks.old) (B.shown blocks.new) }
    ensures calls { B.goes blocks.old blocks.new }
    ensures erases { HasWay tree.old index → (held : Under) → StandsAt (standing held tree.old) 0 index → ErasesCell held (B.shown blocks.old) (B.shown blocks.new) tree.old tree.new index start stamp result }
{
    let lost = bare_levels(tree, index);
    name_way(tree, blocks, index, lost);
    unlink(tree, index, lost, start, stamp);
    u32::from(lost) + 1
}

/// How many nodes over a cell, from the lowest up, lead to nothing but that cell.
fn bare_levels(tree: &Tree, index: u32) -> u8
    ensures { AreBare tree.now index result }
{
    let mut level = 0;
    while level < tree.levels && is_bare(tree, level + 1, index) {
        level += 1;
    }
    level
}

/// Whether the node of a level over a cell leads to nothing but what is over that cell.
fn is_bare(tree: &Tree, level: u8, index: u32) -> bool
    requires low { 1 ≤ level }
    requires high { level ≤ 3 }
    ensures bare { result ≡ true → (xs : List Pointer) → node_in tree.now level (index / fan ^ level) ≡ Some xs → HasNoOther xs (slot_of index level) }
    ensures other { result ≡ false → (xs : List Pointer) → node_in tree.now level (index / fan ^ level) ≡ Some xs → HasOther xs (slot_of index level) }
{
    let slot = index / width(level - 1) % FAN;
    match tree.nodes.get(&(level, index / width(level))) {
        Some(node) => has_no_other(&node.children, slot),
        None => false,
    }
}

/// Whether all pointers of a node but one are holes.
fn has_no_other(children: &[Pointer; 128], slot: u32) -> bool
    ensures bare { result ≡ true → HasNoOther children.now slot }
    ensures other { result ≡ false → HasOther children.now slot }
{
    for other in 0..128 {
        if other != slot && children[other as usize].stamp != 0 {
            return false;
        }
    }
    true
}

/// Names the blocks of a cell and of so many nodes over it, the lowest.
fn name_way<B: Blocks>(tree: &Tree, blocks: &mut B, index: u32, lost: u8)
    requires { lost ≤ tree.now.levels }
    ensures released { Releases (B.shown blocks.old) (B.shown blocks.new) (IsOnWay tree.now index (lost + 1)) }
    ensures strays { NamesOnce (B.shown blocks.old).used tree.now index (lost + 1) → (B.shown blocks.new).strays ≡ (B.shown blocks.old).strays }
    ensures room { (B.shown blocks.old).room ≤ (B.shown blocks.new).room }
    ensures calls { B.goes blocks.old blocks.new }
{
    for level in 0..lost + 1 {
        name_place(tree, blocks, level, index);
    }
}

/// Names the block of a cell, or of the node of a level over it, where it has one.
fn name_place<B: Blocks>(tree: &Tree, blocks: &mut B, level: u8, index: u32)
    requires { level ≤ tree.now.levels }
    ensures released { Releases (B.shown blocks.old) (B.shown blocks.new) (IsNamed tree.now level index) }
    ensures strays { ((v : ℕ) → IsNamed tree.now level index v → is_some ((B.shown blocks.old).used v) ≡ true) → (B.shown blocks.new).strays ≡ (B.shown blocks.old).strays }
    ensures room { (B.shown blocks.old).room ≤ (B.shown blocks.new).room }
    ensures calls { B.goes blocks.old blocks.new }
{
    let place = index / width(level);
    if has_block(tree, level, place) {
        let pointer = pointer_in(tree, level, place);
        blocks.gone(pointer.vvbn as u32);
    }
}

/// Whether a block lies under a place that a pointer leads to.
fn has_block(tree: &Tree, level: u8, place: u32) -> bool
    ensures { result ≡ placed_of tree.now level place }
{
    if level == 0 {
        return is_placed(tree, place);
    }
    match tree.nodes.get(&(level, place)) {
        Some(node) => node.placed,
        None => true,
    }
}

/// Lets nothing lead to a cell and to so many nodes over it, and stamps the marks that are left above.
fn unlink(tree: &mut Tree, index: u32, lost: u8, start: u8, stamp: u64)
    requires bare { AreBare tree.old index lost }
    requires start { start ≤ 3 }
    requires stamp { 1 ≤ stamp }
    ensures owner { tree.new.owner ≡ tree.old.owner }
    ensures unlinks { HasWay tree.old index → Unlinks tree.old tree.new index lost start stamp }
    ensures pending { pending tree.new ≤ pending tree.old + 3 }
    ensures differs { MarksOnly tree.old tree.new index }
{
    if lost == tree.levels {
        clear(tree, start);
    } else {
        cut_way(tree, index, lost, stamp);
    }
}

/// Makes a tree one without a cell.
fn clear(tree: &mut Tree, start: u8)
    requires { start ≤ 3 }
    ensures owner { tree.new.owner ≡ tree.old.owner }
    ensures levels { tree.new.levels ≡ start }
    ensures root { tree.new.root ≡ hole }
    ensures nodes { (level place : ℕ) → tree_map.get spot_cmp tree.new.nodes (level, place) ≡ None }
    ensures cells { (i : ℕ) → tree_map.get nat_cmp tree.new.cells i ≡ None }
    ensures pending { pending tree.new ≡ 0 }
    ensures held { cells_held tree.new ≡ 0 }
    ensures ordered { tree_map.IsOrdered spot_cmp tree.new.nodes }
{
    tree.levels = start;
    tree.root = HOLE;
    tree.nodes.clear();
    tree.changed_nodes = 0;
    tree.cells.clear();
    tree.changed_cells = 0;
}

/// Lets nothing lead to a cell and to so many nodes over it, above which another mark stands.
fn cut_way(tree: &mut Tree, index: u32, lost: u8, stamp: u64)
    requires bare { AreBare tree.old index lost }
    requires some { lost < tree.old.levels }
    requires stamp { 1 ≤ stamp }
    ensures cells { (i : ℕ) → i ≢ index → tree_map.get nat_cmp tree.new.cells i ≡ tree_map.get nat_cmp tree.old.cells i }
    ensures placed { (level place : ℕ) → (lost < level) ⊎ (place ≢ index / fan ^ level) → placed_in tree.new.nodes level place ≡ placed_in tree.old.nodes level place }
    ensures changed { (level : ℕ) → lost < level → level ≤ tree.old.levels → is_some (tree_map.get spot_cmp tree.old.nodes (level, index / fan ^ level)) ≡ true → changed_in tree.new.nodes level (index / fan ^ level) ≡ true }
    ensures same { (level place : ℕ) → place ≢ index / fan ^ level → tree_map.get spot_cmp tree.new.nodes (level, place) ≡ tree_map.get spot_cmp tree.old.nodes (level, place) }
    ensures gone { (level : ℕ) → 1 ≤ level → level ≤ lost → tree_map.get spot_cmp tree.new.nodes (level, index / fan ^ level) ≡ None }
    ensures pending { pending tree.new ≤ pending tree.old + (tree.old.levels - lost) }
    ensures differs { MarksOnly tree.old tree.new index }
    ensures cuts { CutsWay tree.old tree.new index lost stamp }
{
    forget_way(tree, index, lost);
    let place = index / width(lost + 1);
    let slot = index / width(lost) % FAN;
    clear_slot(
        &mut tree.nodes,
        &mut tree.changed_nodes,
        lost + 1,
        place,
        slot,
    );
    stamp_above(tree, index, lost + 1, stamp);
}

/// Takes a cell and so many nodes over it out of memory, the lowest.
fn forget_way(tree: &mut Tree, index: u32, lost: u8)
    requires { lost ≤ 3 }
    ensures owner { tree.new.owner ≡ tree.old.owner }
    ensures levels { tree.new.levels ≡ tree.old.levels }
    ensures root { tree.new.root ≡ tree.old.root }
    ensures cells { (i : ℕ) → i ≢ index → tree_map.get nat_cmp tree.new.cells i ≡ tree_map.get nat_cmp tree.old.cells i }
    ensures nodes { (level place : ℕ) → (lost < level) ⊎ (place ≢ index / fan ^ level) → tree_map.get spot_cmp tree.new.nodes (level, place) ≡ tree_map.get spot_cmp tree.old.nodes (level, place) }
    ensures gone { (level : ℕ) → 1 ≤ level → level ≤ lost → tree_map.get spot_cmp tree.new.nodes (level, index / fan ^ level) ≡ None }
    ensures pending { pending tree.new ≤ pending tree.old }
    ensures marks { MarksNoMore tree.old tree.new }
    ensures fewer { cells_changed tree.new.cells ≤ cells_changed tree.old.cells }
    ensures held { cells_held tree.new ≤ cells_held tree.old }
{
    forget_cell(tree, index);
    for below in 0..lost {
        forget_node(tree, below + 1, index / width(below + 1));
    }
}

/// Makes one pointer of a node in memory a hole. `changed` counts the nodes that differ from their blocks.
fn clear_slot(
    nodes: &mut BTreeMap<(u8, u32), KeptNode>,
    changed: &mut u64,
    level: u8,
    place: u32,
    slot: u32,
)
    requires slot { slot < fan }
    requires counted { changed.old ≡ changes_in nodes.old }
    requires other { (xs : List Pointer) → children_in nodes.old level place ≡ Some xs → HasOther xs slot }
    ensures counted { changed.new ≡ changes_in nodes.new }
    ensures fits { changed.new < 2 ^ 64 }
    ensures children { (k q : ℕ) → children_in nodes.new k q ≡ cond (nat_eq k level && nat_eq q place) (option_map (cleared_in slot) (children_in nodes.old k q)) (children_in nodes.old k q) }
    ensures marked { MarksNode nodes.old nodes.new level place }
    ensures ordered { tree_map.IsOrdered spot_cmp nodes.new }
{
    let most = nodes.len();
    if let Some(node) = nodes.get_mut(&(level, place)) {
        *changed = recounted(*changed, most, node.changed, true);
        clear_child(node, slot);
    }
}

/// Makes one pointer of a node a hole, where another one isn't.
fn clear_child(node: &mut KeptNode, slot: u32)
    requires slot { slot < fan }
    requires other { HasOther node.old.children slot }
    ensures children { node.new.children ≡ cleared_in slot node.old.children }
    ensures changed { node.new.changed ≡ true }
    ensures placed { node.new.placed ≡ node.old.placed }
{
    node.children[slot as usize] = HOLE;
    node.changed = true;
}

/// Gives the root and each pointer on the way to a cell, from a level up, a stamp.
fn stamp_above(tree: &mut Tree, index: u32, lowest: u8, stamp: u64)
    requires stamp { 1 ≤ stamp }
    ensures placed { (level place : ℕ) → placed_in tree.new.nodes level place ≡ placed_in tree.old.nodes level place }
    ensures changed { (level : ℕ) → lowest < level → level ≤ tree.old.levels → is_some (tree_map.get spot_cmp tree.old.nodes (level, index / fan ^ level)) ≡ true → changed_in tree.new.nodes level (index / fan ^ level) ≡ true }
    ensures same { (level place : ℕ) → (level ≤ lowest) ⊎ (place ≢ index / fan ^ level) → tree_map.get spot_cmp tree.new.nodes (level, place) ≡ tree_map.get spot_cmp tree.old.nodes (level, place) }
    ensures changes { lowest ≤ tree.old.levels → changes_in tree.new.nodes ≤ changes_in tree.old.nodes + (tree.old.levels - lowest) }
    ensures marks { lowest ≤ tree.old.levels → (level place : ℕ) → changed_in tree.new.nodes level place ≡ true → (changed_in tree.old.nodes level place ≡ true) ⊎ IsOver index level place }
    ensures ordered { tree_map.IsOrdered spot_cmp tree.old.nodes → tree_map.IsOrdered spot_cmp tree.new.nodes }
    ensures stamps { StampsAbove tree.old tree.new index lowest stamp }
{
    let levels = tree.levels;
    tree.root = stamped(&tree.root, stamp);
    for below in lowest..levels {
        let place = index / width(below + 1);
        let slot = index / width(below) % FAN;
        stamp_slot(
            &mut tree.nodes,
            &mut tree.changed_nodes,
            below + 1,
            place,
            slot,
            stamp,
        );
    }
}
