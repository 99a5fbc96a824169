//! Growing levels: a cell past the tree's levels.

ghost use Rattle.std.specs.Prelude.{◌≡◌, ◌≢◌, ◌≤◌, ◌<◌, ◌+◌, ◌/◌, ◌^◌, ◌⊎◌, ℕ, true, false, Some, IfErr, OnOk, OnErr, replicate, slice_set};
ghost use Rattle.fv_codec.specs.Blocks.{IsPointer};
ghost use Rattle.fv_model.specs.Trees.{fan, least_levels};
ghost use Rattle.fv_tree.specs.Spelled.{hole};
ghost use Rattle.fv_tree.specs.Standing.{node_in, IsSameBut};
ghost use Rattle.fv_tree.specs.Carried.{MarksFew, kept_at, BringsNew, IsBlank, IsTop};
ghost use Rattle.fv_tree.specs.Writing.{HasNewLevels, HasOldNodes, IsGrownNode, new_child};
ghost use Rattle.fv_tree.specs.Costs.{changes_in};
ghost use Rattle.fv_disk.specs.declared.fault.BlockFault.TheVariants.{Memory};

use crate::blocks::TreeFault;
use crate::keep::{empty_node, keep};
use crate::kept::{HOLE, KeptNode, Tree};
use crate::sizes::width;
use fv_codec::Pointer;

/// The least number of levels that cover `index`, which is below 2,097,152.
pub fn levels_over(index: u32) -> u8
    requires index { index < 2097152 }
    ensures least { result ≡ least_levels (index + 1) }
    ensures few { result ≤ 3 }
    ensures covers { index < fan ^ result }
    ensures lower { (level : ℕ) → level < result → fan ^ level ≤ index }
{
    if index < 1 {
        0
    } else if index < 128 {
        1
    } else if index < 16_384 {
        2
    } else {
        3
    }
}

/// Puts a node without a pointer into memory at each place over a cell.
pub fn keep_new_path(tree: &mut Tree, levels: u8, index: u32) -> Result<(), TreeFault>
    requires few { levels ≤ 3 }
    ensures fields { IsSameBut tree.old tree.new }
    ensures way { OnOk result ((level : ℕ) → 1 ≤ level → level ≤ levels → node_in tree.new level (index / fan ^ level) ≡ Some (replicate 128 hole)) }
    ensures others { (level place : ℕ) → (place ≢ index / fan ^ level) → node_in tree.new level place ≡ node_in tree.old level place }
    ensures brings { BringsNew tree.old tree.new index }
    ensures blank { OnOk result ((level : ℕ) → 1 ≤ level → level ≤ levels → IsBlank (kept_at tree.new level (index / fan ^ level))) }
    ensures changes { changes_in tree.new.nodes ≤ changes_in tree.old.nodes }
    ensures memory { IfErr result (λ e. e ≡ Memory) }
{
    for below in 0..levels {
        keep(tree, below + 1, index / width(below + 1), empty_node())?;
    }
    Ok(())
}

/// Puts the nodes of the new levels over what the tree holds into memory.
pub fn keep_grown(tree: &mut Tree, levels: u8, stamp: u64) -> Result<(), TreeFault>
    requires few { levels ≤ 3 }
    requires some { tree.old.root.stamp ≢ 0 }
    requires stamp { 1 ≤ stamp }
    ensures fields { IsSameBut tree.old tree.new }
    ensures grown { OnOk result ((level : ℕ) → tree.old.levels < level → level ≤ levels → IsGrownNode tree.old tree.new stamp level) }
    ensures others { (level place : ℕ) → (level ≤ tree.old.levels) ⊎ (place ≢ 0) → node_in tree.new level place ≡ node_in tree.old level place }
    ensures same { (level place : ℕ) → (level ≤ tree.old.levels) ⊎ (place ≢ 0) → kept_at tree.new level place ≡ kept_at tree.old level place }
    ensures tops { OnOk result ((level : ℕ) → tree.old.levels < level → level ≤ levels → IsTop tree.new level) }
    ensures changes { changes_in tree.new.nodes ≤ changes_in tree.old.nodes + 3 }
    ensures memory { IfErr result (λ e. e ≡ Memory) }
{
    let mut child = tree.root;
    for below in tree.levels..levels {
        keep(tree, below + 1, 0, node_over(&child))?;
        child = new_mark(stamp);
    }
    Ok(())
}

/// A node over one pointer.
fn node_over(child: &Pointer) -> KeptNode
    requires pointer { IsPointer child.now }
    requires some { child.now.stamp ≢ 0 }
    ensures children { result.children ≡ slice_set (replicate 128 hole) 0 child.now }
    ensures changed { result.changed ≡ true }
    ensures placed { result.placed ≡ false }
{
    let mut children = [HOLE; 128];
    children[0] = *child;
    KeptNode {
        children,
        changed: true,
        placed: false,
    }
}

/// A pointer to what has no block yet.
pub fn new_mark(stamp: u64) -> Pointer
    ensures is { result ≡ new_child stamp }
    ensures pointer { IsPointer result }
{
    Pointer {
        vvbn: 0,
        pvbn: 0,
        stamp,
    }
}

/// Puts the nodes of new levels into memory: those over a cell, and those over what the tree holds.
pub fn keep_new_levels(tree: &mut Tree, levels: u8, index: u32, stamp: u64) -> Result<(), TreeFault>
    requires few { levels ≤ 3 }
    requires past { fan ^ tree.old.levels ≤ index }
    requires least { (level : ℕ) → level < levels → fan ^ level ≤ index }
    requires stamp { 1 ≤ stamp }
    ensures fields { IsSameBut tree.old tree.new }
    ensures grows { OnOk result (HasNewLevels tree.old tree.new levels index stamp) }
    ensures failed { OnErr result (HasOldNodes tree.old tree.new index) }
    ensures brings { BringsNew tree.old tree.new index }
    ensures blank { OnOk result ((level : ℕ) → 1 ≤ level → level ≤ levels → (level < levels) ⊎ (tree.old.root.stamp ≡ 0) → IsBlank (kept_at tree.new level (index / fan ^ level))) }
    ensures tops { OnOk result (tree.old.root.stamp ≢ 0 → (level : ℕ) → tree.old.levels < level → level ≤ levels → IsTop tree.new level) }
    ensures memory { IfErr result (λ e. e ≡ Memory) }
    ensures few_marks { MarksFew tree.old tree.new }
{
    keep_new_path(tree, levels, index)?;
    if tree.root.stamp == 0 {
        return Ok(());
    }
    keep_grown(tree, levels, stamp)
}
