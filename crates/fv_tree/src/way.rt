//! The way from the root to a cell.

ghost use Rattle.std.specs.Prelude.{◌≡◌, ◌≢◌, ◌≤◌, ◌<◌, ◌/◌, ◌%◌, ◌-◌, ◌^◌, Some, Err, IfOk, IfErr, IfSome, get_or, length, ◌+◌, is_some, true, false, OnOk, OnErr};
ghost use Rattle.std.specs.Option.{option_map};
ghost use Rattle.fv_codec.specs.Blocks.{IsNode, node_at};
ghost use Rattle.fv_codec.specs.declared.shape.Shape.{Shape};
ghost use Rattle.fv_disk.specs.declared.fault.BlockFault.TheVariants.{Damaged};
ghost use Rattle.fv_model.specs.Trees.{fan};
ghost use Rattle.fv_tree.specs.Places.{HasRightPlaces, IsReadable, MayLoad};
ghost use Rattle.fv_tree.specs.Spelled.{Under, hole, pointers_at, pointers_in, pointer_below, pointer_at};
ghost use Rattle.fv_tree.specs.Sources.{Counts, IsUntouched};
ghost use Rattle.fv_tree.specs.Standing.{standing, under, node_in, Fails, LoadFails};
ghost use Rattle.fv_tree.specs.Unlinking.{HasWay};
ghost use Rattle.fv_tree.specs.Flushing.{changed_in, loaded};
ghost use Rattle.fv_tree.specs.Lookups.{load_cost, place_cost, way_cost};
ghost use Rattle.fv_tree.specs.Calls.{LoadsFrom};

use crate::blocks::{Blocks, TreeFault};
use crate::kept::{HOLE, Tree};
use crate::sizes::{FAN, width};
use fv_codec::{Form, Node, Pointer};

/// The pointer to a cell, by the blocks of all nodes over it that didn't change.
pub fn find<B: Blocks>(tree: &Tree, blocks: &mut B, index: u32) -> Result<Pointer, TreeFault>
    requires right { B.told → IsReadable (B.shown blocks.old) tree.now }
    ensures pointer { B.told → IfOk result (λ p. p ≡ pointer_at (standing (under (B.shown blocks.old)) tree.now) 0 index) }
    ensures spent { B.told → OnOk result ((B.shown blocks.new).spent + place_cost (B.shown blocks.old).cost (loaded (B.shown blocks.old) tree.now) 0 index
        ≡ (B.shown blocks.old).spent + way_cost (B.shown blocks.old).cost (loaded (B.shown blocks.old) tree.now) index) }
    ensures loads { LoadsFrom (B.reads blocks.old blocks.new) (Fails B.told (standing (under (B.shown blocks.old)) tree.now) (B.shown blocks.old) (B.shown blocks.new)) (B.shown blocks.old) (B.shown blocks.new) result }
{
    let mut level = tree.levels;
    let mut pointer = top(tree, index);
    while level > 0 {
        pointer = follow(tree, blocks, level, index, &pointer)?;
        level -= 1;
    }
    Ok(pointer)
}

/// The pointer to a cell, by the nodes over it that are in memory, and the blocks of the others.
pub fn find_held<B: Blocks>(tree: &Tree, blocks: &mut B, index: u32) -> Result<Pointer, TreeFault>
    requires right { B.told → HasRightPlaces (B.shown blocks.old) tree.now }
    ensures pointer { B.told → IfOk result (λ p. p ≡ pointer_at (standing (under (B.shown blocks.old)) tree.now) 0 index) }
    ensures held { HasWay tree.now index → OnErr result ⊥ }
    ensures loads { LoadsFrom (B.reads blocks.old blocks.new) (Fails B.told (standing (under (B.shown blocks.old)) tree.now) (B.shown blocks.old) (B.shown blocks.new)) (B.shown blocks.old) (B.shown blocks.new) result }
{
    let mut level = tree.levels;
    let mut pointer = top(tree, index);
    while level > 0 {
        pointer = step(tree, blocks, level, index, &pointer)?;
        level -= 1;
    }
    Ok(pointer)
}

/// The pointer to the range of the tree's levels in which an index lies: the root, or a hole past it.
#[tactic(auto, unfolding(crate::specs::Spelled::pointer_below))]
pub fn top(tree: &Tree, index: u32) -> Pointer
    ensures { (blocks : Under) → result ≡ pointer_below (standing blocks tree.now) 0 (index / fan ^ tree.now.levels) }
{
    if index / width(tree.levels) == 0 {
        tree.root
    } else {
        HOLE
    }
}

/// From the pointer to the range of a level in which an index lies to that of the level below, by the node in memory, or else
/// by its block.
pub fn step<B: Blocks>(
    tree: &Tree,
    blocks: &mut B,
    level: u8,
    index: u32,
    pointer: &Pointer,
) -> Result<Pointer, TreeFault>
    requires low { 1 ≤ level }
    requires high { level ≤ tree.now.levels }
    requires pointer { B.told → pointer.now ≡ pointer_below (standing (under (B.shown blocks.old)) tree.now) (tree.now.levels - level) (index / fan ^ level) }
    requires right { B.told → HasRightPlaces (B.shown blocks.old) tree.now }
    ensures below { B.told → IfOk result (λ p. p ≡ pointer_below (standing (under (B.shown blocks.old)) tree.now) (tree.now.levels - (level - 1)) (index / fan ^ (level - 1))) }
    ensures held { is_some (node_in tree.now level (index / fan ^ level)) ≡ true → OnErr result ⊥ }
    ensures untouched { IsUntouched (B.shown blocks.old) (B.shown blocks.new) }
    ensures reads { B.reads blocks.old blocks.new }
    ensures counts { Counts (B.shown blocks.old) (B.shown blocks.new) result }
    ensures cause { IfErr result (Fails B.told (standing (under (B.shown blocks.old)) tree.now) (B.shown blocks.old) (B.shown blocks.new)) }
{
    let place = index / width(level);
    let slot = index / width(level - 1) % FAN;
    child(tree, blocks, level, place, slot, pointer)
}

/// One pointer of the node of a position, to which a pointer leads.
fn child<B: Blocks>(
    tree: &Tree,
    blocks: &mut B,
    level: u8,
    place: u32,
    slot: u32,
    pointer: &Pointer,
) -> Result<Pointer, TreeFault>
    requires slot { slot < fan }
    requires right { B.told → MayLoad (B.shown blocks.old) (is_some (node_in tree.now level place)) pointer.now }
    ensures child { B.told → IfOk result (λ p. p ≡ get_or (pointers_at (standing (under (B.shown blocks.old)) tree.now) level place pointer.now) slot hole) }
    ensures held { is_some (node_in tree.now level place) ≡ true → OnErr result ⊥ }
    ensures untouched { IsUntouched (B.shown blocks.old) (B.shown blocks.new) }
    ensures reads { B.reads blocks.old blocks.new }
    ensures counts { Counts (B.shown blocks.old) (B.shown blocks.new) result }
    ensures cause { IfErr result (LoadFails B.told (B.shown blocks.old) (B.shown blocks.new) pointer.now) }
{
    if pointer.stamp == 0 {
        return Ok(HOLE);
    }
    match tree.nodes.get(&(level, place)) {
        Some(node) => Ok(node.children[slot as usize]),
        None => {
            let child = load_child(blocks, slot, pointer)?;
            Ok(child)
        }
    }
}

/// As `step`, but by the node's block where it didn't change, whether it is in memory or not.
fn follow<B: Blocks>(
    tree: &Tree,
    blocks: &mut B,
    level: u8,
    index: u32,
    pointer: &Pointer,
) -> Result<Pointer, TreeFault>
    requires low { 1 ≤ level }
    requires high { level ≤ tree.now.levels }
    requires pointer { B.told → pointer.now ≡ pointer_below (standing (under (B.shown blocks.old)) tree.now) (tree.now.levels - level) (index / fan ^ level) }
    requires right { B.told → IsReadable (B.shown blocks.old) tree.now }
    ensures below { B.told → IfOk result (λ p. p ≡ pointer_below (standing (under (B.shown blocks.old)) tree.now) (tree.now.levels - (level - 1)) (index / fan ^ (level - 1))) }
    ensures spent { B.told → OnOk result ((B.shown blocks.new).spent ≡ (B.shown blocks.old).spent + place_cost (B.shown blocks.old).cost (loaded (B.shown blocks.old) tree.now) level (index / fan ^ level)) }
    ensures untouched { IsUntouched (B.shown blocks.old) (B.shown blocks.new) }
    ensures reads { B.reads blocks.old blocks.new }
    ensures counts { Counts (B.shown blocks.old) (B.shown blocks.new) result }
    ensures cause { IfErr result (Fails B.told (standing (under (B.shown blocks.old)) tree.now) (B.shown blocks.old) (B.shown blocks.new)) }
{
    let place = index / width(level);
    let slot = index / width(level - 1) % FAN;
    changed_or_loaded(tree, blocks, level, place, slot, pointer)
}

/// One pointer of the node of a position, to which a pointer leads: of the node in memory where that changed, or else of its block.
fn changed_or_loaded<B: Blocks>(
    tree: &Tree,
    blocks: &mut B,
    level: u8,
    place: u32,
    slot: u32,
    pointer: &Pointer,
) -> Result<Pointer, TreeFault>
    requires slot { slot < fan }
    requires right { B.told → MayLoad (B.shown blocks.old) (changed_in tree.now.nodes level place) pointer.now }
    requires same { B.told → changed_in tree.now.nodes level place ≡ false → pointer.now.stamp ≢ 0 → pointers_at (standing (under (B.shown blocks.old)) tree.now) level place pointer.now ≡ pointers_in (under (B.shown blocks.old) pointer.now.vvbn) }
    ensures child { B.told → IfOk result (λ p. p ≡ get_or (pointers_at (standing (under (B.shown blocks.old)) tree.now) level place pointer.now) slot hole) }
    ensures spent { OnOk result ((B.shown blocks.new).spent ≡ (B.shown blocks.old).spent + load_cost (B.shown blocks.old).cost (changed_in tree.now.nodes level place) pointer.now) }
    ensures changed { changed_in tree.now.nodes level place ≡ true → OnErr result ⊥ }
    ensures untouched { IsUntouched (B.shown blocks.old) (B.shown blocks.new) }
    ensures reads { B.reads blocks.old blocks.new }
    ensures counts { Counts (B.shown blocks.old) (B.shown blocks.new) result }
    ensures cause { IfErr result (LoadFails B.told (B.shown blocks.old) (B.shown blocks.new) pointer.now) }
{
    if pointer.stamp == 0 {
        return Ok(HOLE);
    }
    match changed_child(tree, level, place, slot) {
        Some(child) => Ok(child),
        None => {
            let child = load_child(blocks, slot, pointer)?;
            Ok(child)
        }
    }
}

/// One pointer of the node of a position that changed in memory; `None` where none did.
fn changed_child(tree: &Tree, level: u8, place: u32, slot: u32) -> Option<Pointer>
    requires slot { slot < fan }
    ensures some { IfSome result (λ p. option_map (λ xs. get_or xs slot hole) (node_in tree.now level place) ≡ Some p) }
    ensures changed { is_some result ≡ changed_in tree.now.nodes level place }
{
    match tree.nodes.get(&(level, place)) {
        Some(node) => {
            if node.changed {
                Some(node.children[slot as usize])
            } else {
                None
            }
        }
        None => None,
    }
}

/// One pointer of the node to which a pointer leads, whatever position its block names. Of a block that spells a node it
/// reads that pointer alone.
fn load_child<B: Blocks>(blocks: &mut B, slot: u32, pointer: &Pointer) -> Result<Pointer, TreeFault>
    requires slot { slot < fan }
    requires some { pointer.now.stamp ≢ 0 }
    requires right { B.told → (B.shown blocks.old).right pointer.now.vvbn pointer.now.pvbn }
    ensures child { B.told → IfOk result (λ p. get_or (pointers_in (under (B.shown blocks.old) pointer.now.vvbn)) slot hole ≡ p) }
    ensures spent { OnOk result ((B.shown blocks.new).spent ≡ (B.shown blocks.old).spent + (B.shown blocks.old).cost pointer.now) }
    ensures untouched { IsUntouched (B.shown blocks.old) (B.shown blocks.new) }
    ensures reads { B.reads blocks.old blocks.new }
    ensures counts { Counts (B.shown blocks.old) (B.shown blocks.new) result }
    ensures cause { IfErr result (LoadFails B.told (B.shown blocks.old) (B.shown blocks.new) pointer.now) }
{
    let mut block = [0; 4096];
    let mut is_node = false;
    let at = blocks.load_as(pointer, Form::Node, &mut block, &mut is_node)?;
    if is_node {
        return Ok(Node::child(&block, slot));
    }
    child_of(at, &block, slot)
}

/// One pointer of the node that a block spells, which was read at a place.
fn child_of(at: u32, block: &[u8; 4096], slot: u32) -> Result<Pointer, TreeFault>
    requires slot { slot < fan }
    ensures child { IfOk result (λ p. get_or (pointers_in (Some block.now)) slot hole ≡ p) }
    ensures damage { IfErr result (λ e. (shape : Shape) × (node_at block.now ≡ Err shape) × (e ≡ Damaged at shape.want shape.found)) }
{
    match Node::decode(block) {
        Ok(node) => Ok(node.children[slot as usize]),
        Err(shape) => Err(TreeFault::Damaged {
            at: u64::from(at),
            want: shape.want,
            found: shape.found,
        }),
    }
}

/// The node to which a pointer leads, whatever position its block names.
pub fn load_node<B: Blocks>(blocks: &mut B, pointer: &Pointer) -> Result<Node, TreeFault>
    requires some { pointer.now.stamp ≢ 0 }
    requires right { B.told → (B.shown blocks.old).right pointer.now.vvbn pointer.now.pvbn }
    ensures node { B.told → IfOk result (λ n. pointers_in (under (B.shown blocks.old) pointer.now.vvbn) ≡ n.children) }
    ensures long { IfOk result (λ n. length n.children ≡ 128) }
    ensures range { IfOk result (λ n. IsNode n) }
    ensures spent { OnOk result ((B.shown blocks.new).spent ≡ (B.shown blocks.old).spent + (B.shown blocks.old).cost pointer.now) }
    ensures untouched { IsUntouched (B.shown blocks.old) (B.shown blocks.new) }
    ensures reads { B.reads blocks.old blocks.new }
    ensures counts { Counts (B.shown blocks.old) (B.shown blocks.new) result }
    ensures cause { IfErr result (LoadFails B.told (B.shown blocks.old) (B.shown blocks.new) pointer.now) }
{
    let mut block = [0; 4096];
    let at = blocks.load(pointer, &mut block)?;
    match Node::decode(&block) {
        Ok(node) => Ok(node),
        Err(shape) => Err(TreeFault::Damaged {
            at: u64::from(at),
            want: shape.want,
            found: shape.found,
        }),
    }
}
