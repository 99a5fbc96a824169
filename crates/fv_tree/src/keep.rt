//! Holding the nodes over a cell in memory.

ghost use Rattle.std.specs.Prelude.{◌≡◌, ◌≢◌, ◌≤◌, ◌<◌, ◌/◌, ◌+◌, ◌-◌, ◌^◌, ◌&&◌, ◌⊎◌, ℕ, true, false, is_some, cond, nat_eq, Some, IfOk, IfErr, OnOk, OnErr, replicate};
ghost use Rattle.std.specs.List.{All};
ghost use Rattle.fv_codec.specs.Blocks.{IsPointer};
ghost use Rattle.fv_model.specs.Trees.{fan};
ghost use Rattle.fv_tree.specs.Places.{HasRightPlaces, MayLoad};
ghost use Rattle.fv_tree.specs.Spelled.{hole, pointer_at};
ghost use Rattle.fv_tree.specs.Standing.{standing, under, node_in, IsSameBut, LoadFails};
ghost use Rattle.fv_tree.specs.Keeping.{IsKept, Keeps, KeepsBelow, Spells};
ghost use Rattle.fv_tree.specs.Flushing.{node_changed, placed_in, pointer_in};
ghost use Rattle.fv_tree.specs.Carried.{kept_at, Brings, IsBlank};
ghost use Rattle.fv_tree.specs.Readying.{HoldsWay, IsChildOver, KeepsReady};
ghost use Rattle.fv_tree.specs.Unlinking.{HasWay};
ghost use Rattle.fv_tree.specs.Leading.{Carries};
ghost use Rattle.fv_tree.specs.Costs.{changes_in};
ghost use Rattle.fv_tree.specs.Calls.{Loading, LoadsFrom};
ghost use Rattle.fv_disk.specs.declared.fault.BlockFault.TheVariants.{Memory};

use crate::blocks::{Blocks, TreeFault};
use crate::kept::{HOLE, KeptNode, Tree};
use crate::pending::recounted;
use crate::placing::pointer_in;
use crate::sizes::width;
use crate::way::load_node;
use fv_codec::Pointer;

/// Holds the nodes over a cell in memory, and answers the pointer to the cell.
pub fn keep_path<B: Blocks>(
    tree: &mut Tree,
    blocks: &mut B,
    index: u32,
) -> Result<Pointer, TreeFault>
    requires index { index < fan ^ tree.old.levels }
    requires right { B.told → HasRightPlaces (B.shown blocks.old) tree.old }
    ensures pointer { B.told → IfOk result (λ p. p ≡ pointer_at (standing (under (B.shown blocks.old)) tree.old) 0 index) }
    ensures kept { B.told → OnOk result ((level : ℕ) → 1 ≤ level → level ≤ tree.old.levels → IsKept (standing (under (B.shown blocks.new)) tree.new) level (index / fan ^ level)) }
    ensures unplaced { B.told → OnOk result ((level : ℕ) → 1 ≤ level → level ≤ tree.old.levels → (pointer_at (standing (under (B.shown blocks.old)) tree.old) level (index / fan ^ level)).stamp ≡ 0 → placed_in tree.new.nodes level (index / fan ^ level) ≡ false) }
    ensures way { IfOk result (λ p. p.stamp ≢ 0 → HoldsWay tree.new index) }
    ensures keeps_ready { KeepsReady tree.old tree.new }
    ensures held { HasWay tree.old index → IfErr result (λ e. e ≡ Memory) }
    ensures carries { B.told → Carries (B.shown blocks.old) (B.shown blocks.new) tree.old tree.new }
    ensures loading { Loading B.told (B.reads blocks.old blocks.new) (B.shown blocks.old) (B.shown blocks.new) tree.old tree.new result }
{
    let mut level = tree.levels;
    let mut pointer = tree.root;
    while level > 0 {
        pointer = keep_step(tree, blocks, level, index, &pointer)?;
        level -= 1;
    }
    Ok(pointer)
}

/// Holds the node of a level over a cell in memory, and answers the pointer one level below it.
fn keep_step<B: Blocks>(
    tree: &mut Tree,
    blocks: &mut B,
    level: u8,
    index: u32,
    pointer: &Pointer,
) -> Result<Pointer, TreeFault>
    requires low { 1 ≤ level }
    requires high { level ≤ tree.old.levels }
    requires pointer { B.told → pointer.now ≡ pointer_at (standing (under (B.shown blocks.old)) tree.old) level (index / fan ^ level) }
    requires right { B.told → HasRightPlaces (B.shown blocks.old) tree.old }
    ensures below { B.told → IfOk result (λ p. p ≡ pointer_at (standing (under (B.shown blocks.old)) tree.old) (level - 1) (index / fan ^ (level - 1))) }
    ensures keeps { B.told → OnOk result (IsKept (standing (under (B.shown blocks.new)) tree.new) level (index / fan ^ level)) }
    ensures brings { B.told → Brings (under (B.shown blocks.old)) tree.old tree.new level (index / fan ^ level) pointer.now }
    ensures blank { OnOk result (pointer.now.stamp ≡ 0 → IsBlank (kept_at tree.new level (index / fan ^ level))) }
    ensures keeps_ready { pointer.now ≡ pointer_in tree.old level (index / fan ^ level) → KeepsReady tree.old tree.new }
    ensures held { is_some (kept_at tree.old level (index / fan ^ level)) ≡ true → IfErr result (λ e. e ≡ Memory) }
    ensures others { KeepsBelow (standing (under (B.shown blocks.old)) tree.old) (standing (under (B.shown blocks.new)) tree.new) level }
    ensures child { IfOk result (IsChildOver tree.new level index pointer.now) }
    ensures loading { Loading B.told (B.reads blocks.old blocks.new) (B.shown blocks.old) (B.shown blocks.new) tree.old tree.new result }
{
    let place = index / width(level);
    keep_node(tree, blocks, level, place, pointer)?;
    Ok(pointer_in(tree, level - 1, index / width(level - 1)))
}

/// Holds the node of a position, to which a pointer leads, in memory.
pub fn keep_node<B: Blocks>(
    tree: &mut Tree,
    blocks: &mut B,
    level: u8,
    place: u32,
    pointer: &Pointer,
) -> Result<(), TreeFault>
    requires right { B.told → MayLoad (B.shown blocks.old) (is_some (node_in tree.old level place)) pointer.now }
    ensures keeps { B.told → Keeps (standing (under (B.shown blocks.old)) tree.old) (standing (under (B.shown blocks.new)) tree.new) level place pointer.now }
    ensures spells { OnOk result (Spells B.told (standing (under (B.shown blocks.old)) tree.old) (standing (under (B.shown blocks.new)) tree.new) level place pointer.now) }
    ensures brings { B.told → Brings (under (B.shown blocks.old)) tree.old tree.new level place pointer.now }
    ensures blank { OnOk result (pointer.now.stamp ≡ 0 → IsBlank (kept_at tree.new level place)) }
    ensures others { (k q : ℕ) → (k ≢ level) ⊎ (q ≢ place) → kept_at tree.new k q ≡ kept_at tree.old k q }
    ensures stays { pointer.now.stamp ≢ 0 → is_some (kept_at tree.old level place) ≡ true → kept_at tree.new level place ≡ kept_at tree.old level place }
    ensures held { is_some (kept_at tree.old level place) ≡ true → IfErr result (λ e. e ≡ Memory) }
    ensures fields { IsSameBut tree.old tree.new }
    ensures changes { changes_in tree.new.nodes ≤ changes_in tree.old.nodes }
    ensures loads { LoadsFrom (B.reads blocks.old blocks.new) (LoadFails B.told (B.shown blocks.old) (B.shown blocks.new) pointer.now) (B.shown blocks.old) (B.shown blocks.new) result }
{
    if pointer.stamp == 0 {
        return keep(tree, level, place, empty_node());
    }
    if tree.nodes.contains_key(&(level, place)) {
        return Ok(());
    }
    let node = load_node(blocks, pointer)?;
    keep(tree, level, place, read_node(node.children))
}

/// Puts a node into memory.
pub fn keep(tree: &mut Tree, level: u8, place: u32, node: KeptNode) -> Result<(), TreeFault>
    ensures fields { IsSameBut tree.old tree.new }
    ensures node { OnOk result ((k q : ℕ) → node_in tree.new k q ≡ cond (nat_eq k level && nat_eq q place) (Some node.children) (node_in tree.old k q)) }
    ensures failed { OnErr result ((k q : ℕ) → node_in tree.new k q ≡ node_in tree.old k q) }
    ensures kept { OnOk result ((k q : ℕ) → kept_at tree.new k q ≡ cond (nat_eq k level && nat_eq q place) (Some node) (kept_at tree.old k q)) }
    ensures same { OnErr result ((k q : ℕ) → kept_at tree.new k q ≡ kept_at tree.old k q) }
    ensures changes { changes_in tree.new.nodes ≤ changes_in tree.old.nodes + 1 }
    ensures unchanged { node.changed ≡ false → changes_in tree.new.nodes ≤ changes_in tree.old.nodes }
    ensures memory { IfErr result (λ e. e ≡ Memory) }
{
    let most = tree.nodes.len();
    let changed = node.changed;
    match tree.nodes.insert((level, place), node) {
        Ok(before) => {
            tree.changed_nodes = recounted(tree.changed_nodes, most, differed(&before), changed);
            Ok(())
        }
        Err(_) => Err(TreeFault::Memory),
    }
}

/// Whether a node, where there is one, differs from its block.
pub fn differed(node: &Option<KeptNode>) -> bool
    ensures { result ≡ node_changed node.now }
{
    match node {
        Some(node) => node.changed,
        None => false,
    }
}

/// A node without a pointer, to which nothing leads.
pub fn empty_node() -> KeptNode
    ensures children { result.children ≡ replicate 128 hole }
    ensures changed { result.changed ≡ false }
    ensures placed { result.placed ≡ false }
{
    KeptNode {
        children: [HOLE; 128],
        changed: false,
        placed: false,
    }
}

/// A node as its block spells it.
fn read_node(children: [Pointer; 128]) -> KeptNode
    requires { All IsPointer children }
    ensures children { result.children ≡ children }
    ensures changed { result.changed ≡ false }
    ensures placed { result.placed ≡ true }
{
    KeptNode {
        children,
        changed: false,
        placed: true,
    }
}
