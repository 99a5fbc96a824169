//! The trees of files that are in memory, and what a flush may place for them.

ghost use Rattle.std.specs.Prelude.{◌≡◌, ◌≤◌, ◌<◌, ◌+◌, ◌^◌, ℕ, true, is_some, IfNone, IfSome, unwrap_or};
ghost use Rattle.std.specs.BTreeMap as maps;
ghost use Rattle.std.specs.Option.{option_copied, option_map};
ghost use Rattle.std.specs.Ordering.{nat_cmp};
ghost use Rattle.fv_files.specs.Pending.{pending_trees, tree_cost};

use fv_tree::Tree;
use std::alloc::Global;
use std::collections::BTreeMap;
use std::marker::Model;

/// The trees of files that are in memory, by number. What they cost is kept, too, so that no tree is looked at for it.
/// Contracts see the map of the trees.
#[derive(Drop)]
pub struct HeldTrees {
    pub(crate) by_number: BTreeMap<u32, Tree>,
    pub(crate) cost: u128,
}

impl Model for HeldTrees {
    ghost use Rattle.std.specs.Prelude.{ℕ, ◌≡◌, ◌+◌, sum_by};
    ghost use Rattle.std.specs.BTreeMap as maps;
    ghost use Rattle.fv_tree.specs.declared.kept.Tree.{Tree};
    ghost use Rattle.fv_files.specs.Codes.{trees_code};
    ghost use Rattle.fv_tree.specs.Costs.{pending};

    ghost Value = { maps.BTreeMap ℕ Tree };

    ghost coded = { trees_code };

    ghost view = { λ held. held.by_number };

    ghost invariant = { λ held. held.cost ≡ sum_by (λ held. pending held + 4) (maps.values held.by_number) };
}

impl HeldTrees {
    /// No tree. Takes no memory before one comes.
    pub fn new(alloc: Global) -> HeldTrees
        ensures len { maps.btree_map_len result ≡ 0 }
    {
        HeldTrees {
            by_number: BTreeMap::new(alloc),
            cost: 0,
        }
    }

    /// How many trees there are.
    pub fn len(&self) -> usize
        ensures len { result ≡ maps.btree_map_len self.now }
    {
        self.by_number.len()
    }

    /// The tree of a file, where it is in memory.
    pub fn get(&self, number: u32) -> Option<&Tree>
        ensures value { option_copied result ≡ maps.get nat_cmp self.now number }
    {
        self.by_number.get(&number)
    }

    /// The least number under which a tree is in memory.
    pub fn first_number(&self) -> Option<u32>
        ensures there { IfSome result (λ number. is_some (maps.get nat_cmp self.now number) ≡ true) }
        ensures none { IfNone result (maps.btree_map_len self.now ≡ 0) }
    {
        match self.by_number.first_key_value() {
            None => None,
            Some((number, _)) => Some(*number),
        }
    }

    /// What the trees cost.
    pub fn cost(&self) -> u128
        ensures { result ≡ pending_trees self.now }
    {
        self.cost
    }
}

/// What the root of a file's tree may cost in the inode file: its inode block and three nodes over it.
const ROOT_COST: u128 = 4;

/// What a tree costs: what differs of it from its blocks, and its root.
pub fn cost_of(tree: &Tree) -> u128
    ensures { result ≡ tree_cost tree.now }
{
    u128::from(tree.pending()) + ROOT_COST
}

/// What a tree costs, where there is one.
pub fn cost_of_any(tree: &Option<Tree>) -> u128
    ensures { result ≡ unwrap_or (option_map tree_cost tree.now) 0 }
{
    match tree {
        Some(tree) => cost_of(tree),
        None => 0,
    }
}

/// What trees cost, where one of them that cost `before` costs `now`.
pub fn recounted(cost: u128, before: u128, now: u128) -> u128
    requires there { before ≤ cost }
    requires fits { cost + now < 2 ^ 128 + before }
    ensures { result + before ≡ cost + now }
{
    cost - before + now
}
