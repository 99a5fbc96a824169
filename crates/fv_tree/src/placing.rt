//! The steps of a flush: placing one block, and what its pointer and the memory are like afterwards.

ghost use Rattle.std.specs.Prelude.{◌≡◌, ◌^◌, ◌≢◌, ◌≤◌, ◌<◌, ◌⊎◌, ◌+◌, ◌/◌, ℕ, true, false, Ok, Some, None, is_some, slice_set, IfOk, IfSome, IfNone, OnOk, OnErr};
ghost use Rattle.std.specs.BTreeMap as maps;
ghost use Rattle.std.specs.Ordering.{nat_cmp};
ghost use Rattle.std.specs.Option.{option_map};
ghost use Rattle.std.specs.List.{list_any};
ghost use Rattle.fv_codec.specs.declared.inode.InodeRecord.{InodeRecord};
ghost use Rattle.fv_codec.specs.Blocks.{IsPointer, last_place, node_at};
ghost use Rattle.fv_model.specs.Trees.{fan, spot_cmp};
ghost use Rattle.fv_tree.specs.Sources.{Drops, IsCalm, IsKind, IsUntouched};
ghost use Rattle.fv_tree.specs.Standing.{children_in};
ghost use Rattle.fv_tree.specs.Costs.{cells_changed, cells_held, changes_in};
ghost use Rattle.fv_tree.specs.Flushing.{all_known, cell_changed, changed_in, has_unknown_root, is_unknown, kind_for, placed_in, pointer_in, ForgetsCell, ForgetsNode, HoldsAsMuch, IsHidden, IsMoved, KeepsOthers, NamesUsed, Points, Swaps};
ghost use Rattle.fv_tree.specs.Readying.{HasCell};
ghost use Rattle.fv_tree.specs.Calls.{PlacesOne};

use crate::blocks::{Blocks, Placed, TreeFault};
use crate::keep::differed;
use crate::kept::{HOLE, KeptCell, KeptNode, Tree};
use crate::pending::recounted;
use crate::sizes::FAN;
use fv_codec::{InodeBlock, InodeRecord, Node, Pointer};
use std::collections::BTreeMap;

/// What a flush asks of a cell in memory beside its content.
#[derive(Clone, Copy)]
pub struct FoundCell {
    /// Its index.
    pub index: u32,
    /// Whether it differs from its block.
    pub changed: bool,
    /// Whether the pointer to it leads to a block that it replaces.
    pub placed: bool,
}

/// The cell in memory with the least index, whose content is copied.
pub fn first_cell(tree: &Tree, into: &mut [u8; 4096]) -> Option<FoundCell>
    ensures there { IfSome result (λ e. HasCell (maps.get nat_cmp tree.now.cells e.index) into.new e.changed e.placed) }
    ensures none { IfNone result (maps.btree_map_len tree.now.cells ≡ 0) }
{
    match tree.cells.first_key_value() {
        None => None,
        Some((index, cell)) => {
            *into = *cell.block;
            Some(FoundCell {
                index: *index,
                changed: cell.changed,
                placed: cell.placed,
            })
        }
    }
}

/// The first node of the lowest level in memory, which is copied.
pub fn first_node(tree: &Tree, into: &mut KeptNode) -> Option<(u8, u32)>
    ensures there { IfSome result (λ e. maps.get spot_cmp tree.now.nodes e ≡ Some into.new) }
    ensures none { IfNone result (maps.btree_map_len tree.now.nodes ≡ 0) }
    ensures lowest { IfSome result (λ e. (k q : ℕ) → k < e.0 → maps.get spot_cmp tree.now.nodes (k, q) ≡ None) }
{
    match tree.nodes.first_key_value() {
        None => None,
        Some((spot, node)) => {
            *into = *node;
            Some(*spot)
        }
    }
}

/// Takes a cell out of memory.
pub fn forget_cell(tree: &mut Tree, index: u32)
    ensures forgets { ForgetsCell tree.old tree.new index }
    ensures len { is_some (maps.get nat_cmp tree.old.cells index) ≡ true → maps.btree_map_len tree.new.cells + 1 ≡ maps.btree_map_len tree.old.cells }
    ensures held { cells_held tree.new ≤ cells_held tree.old }
    ensures changes { cells_changed tree.new.cells ≤ cells_changed tree.old.cells }
    ensures fewer { cell_changed (maps.get nat_cmp tree.old.cells index) ≡ true → cells_changed tree.new.cells + 1 ≡ cells_changed tree.old.cells }
{
    let most = tree.cells.len();
    let gone = tree.cells.remove(&index);
    tree.changed_cells = recounted(tree.changed_cells, most, cell_differed(&gone), false);
}

/// Whether a cell, where there is one, differs from its block.
fn cell_differed(cell: &Option<KeptCell>) -> bool
    ensures { result ≡ cell_changed cell.now }
{
    match cell {
        Some(cell) => cell.changed,
        None => false,
    }
}

/// Takes a node out of memory.
pub fn forget_node(tree: &mut Tree, level: u8, place: u32)
    ensures forgets { ForgetsNode tree.old tree.new level place }
    ensures len { is_some (maps.get spot_cmp tree.old.nodes (level, place)) ≡ true → maps.btree_map_len tree.new.nodes + 1 ≡ maps.btree_map_len tree.old.nodes }
    ensures changes { changes_in tree.new.nodes ≤ changes_in tree.old.nodes }
    ensures fewer { changed_in tree.old.nodes level place ≡ true → changes_in tree.new.nodes + 1 ≡ changes_in tree.old.nodes }
{
    let most = tree.nodes.len();
    let gone = tree.nodes.remove(&(level, place));
    tree.changed_nodes = recounted(tree.changed_nodes, most, differed(&gone), false);
}

/// Spells a node that changed.
pub fn spell(owner: u64, level: u8, place: u32, node: &KeptNode, into: &mut [u8; 4096])
    requires low { 1 ≤ level }
    requires high { level ≤ 3 }
    requires changed { node.now.changed ≡ true }
    ensures { node_at into.new ≡ Ok (record { level = level; owner = owner; place = place; children = node.now.children }) }
{
    let spelled = Node {
        level,
        owner,
        place: u64::from(place),
        children: node.children,
    };
    spelled.encode(into);
}

/// Whether no pointer is an unknown one.
pub fn all_known(children: &[Pointer]) -> bool
    ensures { result ≡ all_known children.now }
{
    for child in children {
        if is_unknown(child) {
            return false;
        }
    }
    true
}

/// Whether a pointer leads to a block of which the place isn't known.
fn is_unknown(pointer: &Pointer) -> bool
    ensures { result ≡ is_unknown pointer.now }
{
    pointer.stamp != 0 && pointer.pvbn == 0
}

/// Whether a cell of a tree with this owner is an inode block in which the root of some file has an unknown place. Goes over an inode block
/// once, and over no other cell.
#[tactic(auto, unfolding(fv_tables::specs::Told::records_in))]
pub fn has_unknown_root(owner: u64, block: &[u8; 4096]) -> bool
    ensures { result ≡ has_unknown_root owner block.now }
{
    if owner != INODE_FILE {
        return false;
    }
    match InodeBlock::decode(block) {
        Ok(inodes) => some_root_unknown(&inodes.files),
        Err(_) => false,
    }
}

/// Whether the root of some record has an unknown place.
fn some_root_unknown(files: &[InodeRecord]) -> bool
    ensures { result ≡ list_any (λ (r : InodeRecord). is_unknown r.root) files.now }
{
    for file in files {
        if is_unknown(&file.root) {
            return true;
        }
    }
    false
}

/// The owner of the inode file's tree.
const INODE_FILE: u64 = u64::MAX;

/// The kind of a block of a level, by the tree's owner. An inode file has no nodes above level 2.
pub fn kind_of(owner: u64, level: u8) -> u8
    requires { level ≤ 3 }
    ensures exact { result ≡ kind_for owner level }
    ensures kind { IsKind result }
{
    match (owner == INODE_FILE, level) {
        (false, _) => 1 + level,
        (true, 0) => 5,
        (true, 1) => 6,
        (true, _) => 7,
    }
}

/// Places a block of a position, where a pointer leads to it, and lets the pointer lead to it there. Names the
/// block that it replaces, where it has `placed` one.
pub fn replace<B: Blocks>(
    tree: &mut Tree,
    blocks: &mut B,
    spot: (u8, u32),
    block: &[u8; 4096],
    placed: bool,
    known: bool,
) -> Result<(), TreeFault>
    requires { spot.0 ≤ 3 }
    ensures moves { B.told → OnOk result ((IsHidden (B.shown blocks.old) tree.old spot.0 spot.1 (B.shown blocks.new) tree.new) ⊎ (IsMoved (B.shown blocks.old) tree.old spot.0 spot.1 block.now placed known (B.shown blocks.new) tree.new)) }
    ensures keeps { B.told → NamesUsed (B.shown blocks.old) placed (pointer_in tree.old spot.0 spot.1) → KeepsOthers (λ v. B.keeps v blocks.old blocks.new) (B.shown blocks.old) (B.shown blocks.new) }
    ensures still { HoldsAsMuch tree.old tree.new }
    ensures failed { OnErr result (tree.new ≡ tree.old) }
    ensures changes { ((pointer_in tree.old spot.0 spot.1).stamp ≢ 0 → spot.0 < tree.old.levels → changed_in tree.old.nodes (spot.0 + 1) (spot.1 / fan) ≡ true) → changes_in tree.new.nodes ≤ changes_in tree.old.nodes }
    ensures own { changed_in tree.new.nodes spot.0 spot.1 ≡ changed_in tree.old.nodes spot.0 spot.1 }
    ensures one { PlacesOne B.told B.known (B.goes blocks.old blocks.new) (B.shown blocks.old) (B.shown blocks.new) result }
{
    let (level, place) = spot;
    let old = pointer_in(tree, level, place);
    if old.stamp == 0 {
        return Ok(());
    }
    let kind = kind_of(tree.owner, level);
    let new = swap(blocks, kind, block, &old, placed, known)?;
    point(tree, level, place, &new);
    Ok(())
}

/// Places a block in place of the one that a pointer leads to, and names that one where there is one. Answers
/// the pointer to the new block.
fn swap<B: Blocks>(
    blocks: &mut B,
    kind: u8,
    block: &[u8; 4096],
    old: &Pointer,
    placed: bool,
    known: bool,
) -> Result<Pointer, TreeFault>
    requires kind { IsKind kind }
    requires pointer { IsPointer old.now }
    requires some { old.now.stamp ≢ 0 }
    ensures swaps { B.told → IfOk result (λ p. Swaps (B.shown blocks.old) kind block.now placed known old.now.vvbn p (B.shown blocks.new)) }
    ensures keeps { B.told → NamesUsed (B.shown blocks.old) placed old.now → KeepsOthers (λ v. B.keeps v blocks.old blocks.new) (B.shown blocks.old) (B.shown blocks.new) }
    ensures stamp { IfOk result (λ p. p.stamp ≡ old.now.stamp) }
    ensures pointer { IfOk result IsPointer }
    ensures one { PlacesOne B.told B.known (B.goes blocks.old blocks.new) (B.shown blocks.old) (B.shown blocks.new) result }
{
    let at = blocks.place(kind, block)?;
    name_gone(blocks, placed, old.vvbn as u32);
    Ok(pointer_to(at, known, old.stamp))
}

/// Names a block as gone, where that is asked.
fn name_gone<B: Blocks>(blocks: &mut B, asked: bool, vvbn: u32)
    ensures gone { asked ≡ true → Drops (B.shown blocks.old) vvbn (B.shown blocks.new) }
    ensures untouched { asked ≡ false → IsUntouched (B.shown blocks.old) (B.shown blocks.new) }
    ensures keeps { (v : ℕ) → B.keeps v blocks.old blocks.new }
    ensures room { (B.shown blocks.old).room ≤ (B.shown blocks.new).room }
    ensures spent { (B.shown blocks.new).spent ≡ (B.shown blocks.old).spent }
    ensures calls { B.goes blocks.old blocks.new }
    ensures counts { IsCalm (B.shown blocks.old) (B.shown blocks.new) }
{
    if asked {
        blocks.gone(vvbn);
    }
}

/// The pointer to a block that was placed.
fn pointer_to(at: Placed, known: bool, stamp: u64) -> Pointer
    requires vvbn { at.vvbn ≤ last_place }
    requires pvbn { at.pvbn ≤ last_place }
    requires some { stamp ≢ 0 }
    ensures vvbn { result.vvbn ≡ at.vvbn }
    ensures stamp { result.stamp ≡ stamp }
    ensures known { known ≡ true → result.pvbn ≡ at.pvbn }
    ensures unknown { known ≡ false → result.pvbn ≡ 0 }
    ensures pointer { IsPointer result }
{
    Pointer {
        vvbn: u64::from(at.vvbn),
        pvbn: if known { u64::from(at.pvbn) } else { 0 },
        stamp,
    }
}

/// The pointer to a position, as the root or the node over it in memory has it.
#[tactic(auto, unfolding(crate::specs::Flushing::pointer_in))]
pub fn pointer_in(tree: &Tree, level: u8, place: u32) -> Pointer
    ensures is { result ≡ pointer_in tree.now level place }
    ensures pointer { IsPointer result }
{
    if level < tree.levels {
        match tree.nodes.get(&(level + 1, place / FAN)) {
            None => HOLE,
            Some(node) => node.children[(place % FAN) as usize],
        }
    } else if level == tree.levels && place == 0 {
        tree.root
    } else {
        HOLE
    }
}

/// Puts another pointer to a position into the root, or into the node over it in memory.
fn point(tree: &mut Tree, level: u8, place: u32, pointer: &Pointer)
    requires pointer { IsPointer pointer.now }
    requires some { pointer.now.stamp ≢ 0 }
    ensures points { Points tree.old tree.new level place pointer.now }
    ensures changes { (level < tree.old.levels → changed_in tree.old.nodes (level + 1) (place / fan) ≡ true) → changes_in tree.new.nodes ≤ changes_in tree.old.nodes }
    ensures own { changed_in tree.new.nodes level place ≡ changed_in tree.old.nodes level place }
{
    if level < tree.levels {
        point_slot(
            &mut tree.nodes,
            &mut tree.changed_nodes,
            level + 1,
            place / FAN,
            place % FAN,
            pointer,
        );
    } else {
        tree.root = *pointer;
    }
}

/// Puts another pointer into a node, where that is in memory. `changed` counts the nodes that differ from their blocks.
fn point_slot(
    nodes: &mut BTreeMap<(u8, u32), KeptNode>,
    changed: &mut u64,
    level: u8,
    place: u32,
    slot: u32,
    pointer: &Pointer,
)
    requires slot { slot < fan }
    requires pointer { IsPointer pointer.now }
    requires some { pointer.now.stamp ≢ 0 }
    requires counted { changed.old ≡ changes_in nodes.old }
    ensures counted { changed.new ≡ changes_in nodes.new }
    ensures fits { changed.new < 2 ^ 64 }
    ensures node { children_in nodes.new level place ≡ option_map (λ xs. slice_set xs slot pointer.now) (children_in nodes.old level place) }
    ensures others { (k q : ℕ) → (k ≢ level) ⊎ (q ≢ place) → children_in nodes.new k q ≡ children_in nodes.old k q }
    ensures len { maps.btree_map_len nodes.new ≡ maps.btree_map_len nodes.old }
    ensures again { changed_in nodes.old level place ≡ true → changes_in nodes.new ≤ changes_in nodes.old }
    ensures placed { (k q : ℕ) → placed_in nodes.new k q ≡ placed_in nodes.old k q }
    ensures changed { (k q : ℕ) → ((k ≢ level) ⊎ (q ≢ place)) ⊎ (changed_in nodes.old k q ≡ true) → changed_in nodes.new k q ≡ changed_in nodes.old k q }
{
    let most = nodes.len();
    if let Some(node) = nodes.get_mut(&(level, place)) {
        *changed = recounted(*changed, most, node.changed, true);
        point_child(node, slot, pointer);
    }
}

/// Puts another pointer into a node.
fn point_child(node: &mut KeptNode, slot: u32, pointer: &Pointer)
    requires slot { slot < fan }
    requires pointer { IsPointer pointer.now }
    requires some { pointer.now.stamp ≢ 0 }
    ensures children { node.new.children ≡ slice_set node.old.children slot pointer.now }
    ensures changed { node.new.changed ≡ true }
    ensures placed { node.new.placed ≡ node.old.placed }
{
    node.children[slot as usize] = *pointer;
    node.changed = true;
}
