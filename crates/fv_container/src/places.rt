//! The places of a tree: which nodes have one, taking them and giving them back.

ghost use Rattle.std.specs.Prelude.{◌≡◌, ◌≢◌, ◌<◌, ◌≤◌, ℕ, true, false, not, ◌&&◌, ◌==◌, length, get_or};
ghost use Rattle.std.specs.List.{list_any};
ghost use Rattle.std.specs.FinSet as set;
ghost use Rattle.fv_image.specs.Containers.{level_width, most_entries};
ghost use Rattle.fv_container.specs.Mapped.{node_count};
ghost use Rattle.fv_container.specs.Freeing.{Releases};
ghost use Rattle.fv_container.specs.Paged.{leaf_here};
ghost use Rattle.fv_container.specs.Written.{AreLeft, ArePlaced, HasReleased, HasTaken, IsSameBelow, TakesIf, is_full, is_there, may_move, passed_before, root_number};

use crate::free::Free;
use crate::layout::{FAN, clear, inner_count, leaf_count};
use crate::passing::{next_mark, next_place};
use fv_codec::ContainerLeaf;

/// Whether a leaf has an entry that isn't a hole.
fn has_entry(leaf: &ContainerLeaf) -> bool
    ensures { result ≡ list_any (λ kind. not (kind == 0)) leaf.now.kinds }
{
    for c in 0..leaf.kinds.len() {
        if leaf.kinds[c] != 0 {
            return true;
        }
    }
    false
}

/// Whether the leaf of a number is in memory, and has an entry that isn't a hole.
fn is_full(leaves: &[Option<Box<ContainerLeaf>>], leaf: usize) -> bool
    requires { leaf < length leaves.now }
    ensures { result ≡ is_full (leaf_here leaves.now leaf) }
{
    match &leaves[leaf] {
        Some(leaf) => has_entry(leaf),
        None => false,
    }
}

/// Whether the next tree has a node: a dirty leaf of holes is absent then, any other leaf is there where it is, and a root above the second
/// level stands only where that has more than one node.
#[tactic(auto, unfolding(crate::specs::Written::is_there))]
fn is_there(
    leaves: &[Option<Box<ContainerLeaf>>],
    tree: &[u32],
    dirty: &[bool],
    count: usize,
    node: usize,
) -> bool
    requires few { count ≤ most_entries }
    requires leaves { length leaves.now ≡ level_width count 0 }
    requires tree { length tree.now ≡ node_count count }
    requires dirty { length dirty.now ≡ node_count count }
    requires within { node < node_count count }
    ensures { result ≡ is_there leaves.now tree.now dirty.now count node }
{
    let low = leaf_count(count);
    let inner = inner_count(count);
    if node < low {
        if dirty[node] {
            is_full(leaves, node)
        } else {
            tree[node] != 0
        }
    } else {
        node < low + inner || inner > 1
    }
}

/// Which of the places is the root's.
pub(crate) fn root_number(entries: usize) -> usize
    requires { entries ≤ most_entries }
    ensures { result ≡ root_number entries }
{
    let leaves = leaf_count(entries);
    let inner = inner_count(entries);
    if inner > 1 { leaves + inner } else { leaves }
}

/// A free block where one is wanted, and else 0.
fn take_place<F: Free>(map: &mut F, wanted: bool) -> u32
    requires { wanted ≡ true → 0 < set.len (F.room map.old).free }
    ensures { TakesIf wanted (F.room map.old) result (F.room map.new) }
{
    if wanted { map.take_free().unwrap() } else { 0 }
}

/// Whether two rows of places are the same from a number on, up to another one. It compares all of them, so that the compiler compares
/// several at once.
fn is_same_between(tree: &[u32], places: &[u32], from: usize, end: usize) -> bool
    requires tree { end ≤ length tree.now }
    requires places { end ≤ length places.now }
    ensures same { result ≡ true → (k : ℕ) → from ≤ k → k < end → get_or places.now k 0 ≡ get_or tree.now k 0 }
    ensures differs { result ≡ false → ((k : ℕ) → from ≤ k → k < end → get_or places.now k 0 ≡ get_or tree.now k 0) → ⊥ }
{
    let mut same = true;
    for k in from..end {
        if places[k] != tree[k] {
            same = false;
        }
    }
    same
}

/// Whether the nodes below a node stay at their places.
fn is_same_below(entries: usize, tree: &[u32], places: &[u32], node: usize) -> bool
    requires few { entries ≤ most_entries }
    requires tree { length tree.now ≡ node_count entries }
    requires places { length places.now ≡ node_count entries }
    requires within { node < node_count entries }
    ensures same { result ≡ true → IsSameBelow entries tree.now places.now node }
    ensures differs { result ≡ false → IsSameBelow entries tree.now places.now node → ⊥ }
{
    let leaves = leaf_count(entries);
    let inner = inner_count(entries);
    if node < leaves {
        true
    } else if node < leaves + inner {
        let from = FAN * (node - leaves);
        is_same_between(tree, places, from, leaves.min(from + FAN))
    } else {
        is_same_between(tree, places, leaves, leaves + inner)
    }
}

/// Whether a node stays at its place: it is there, and has one, it isn't dirty, and the nodes below it stay.
fn may_stay(
    there: bool,
    count: usize,
    tree: &[u32],
    dirty: &[bool],
    places: &[u32],
    node: usize,
) -> bool
    requires few { count ≤ most_entries }
    requires tree { length tree.now ≡ node_count count }
    requires dirty { length dirty.now ≡ node_count count }
    requires places { length places.now ≡ node_count count }
    requires within { node < node_count count }
    ensures there { result ≡ true → there ≡ true }
    ensures some { result ≡ true → get_or tree.now node 0 ≢ 0 }
    ensures clean { result ≡ true → get_or dirty.now node true ≡ false }
    ensures below { result ≡ true → IsSameBelow count tree.now places.now node }
    ensures stays { result ≡ false → there ≡ true → get_or tree.now node 0 ≢ 0 → get_or dirty.now node true ≡ false
        → IsSameBelow count tree.now places.now node → ⊥ }
{
    tree[node] != 0 && !dirty[node] && there && is_same_below(count, tree, places, node)
}

/// Whether a node is written anew: it is there, and doesn't stay.
fn is_wanted(there: bool, stays: bool) -> bool
    ensures { result ≡ (not stays && there) }
{
    !stays && there
}

/// The first node from a number on that isn't a leaf that stays: one that is dirty, or a node above the leaves.
fn next_moving(dirty: &[bool], count: usize, from: usize) -> usize
    requires few { count ≤ most_entries }
    requires dirty { length dirty.now ≡ node_count count }
    requires within { from ≤ node_count count }
    ensures least { from ≤ result }
    ensures most { result ≤ node_count count }
    ensures low { (m : ℕ) → from ≤ m → m < result → m < level_width count 0 }
    ensures clean { (m : ℕ) → from ≤ m → m < result → get_or dirty.now m true ≡ false }
{
    let leaves = leaf_count(count);
    if from < leaves {
        next_mark(dirty, from, leaves)
    } else {
        from
    }
}

/// Puts the places of the next tree into `places`: a node that is there stays where it can, and else has a free block, which is in
/// `fresh`, too; for each other node there is 0. A leaf that isn't dirty stays. Costs a step for each node; of the leaves that aren't
/// dirty many are passed over at once.
pub(crate) fn take_places<F: Free>(
    map: &mut F,
    leaves: &[Option<Box<ContainerLeaf>>],
    count: usize,
    tree: &[u32],
    dirty: &[bool],
    places: &mut [u32],
    fresh: &mut [u32],
)
    requires few { count ≤ most_entries }
    requires leaves { length leaves.now ≡ level_width count 0 }
    requires tree { length tree.now ≡ node_count count }
    requires dirty { length dirty.now ≡ node_count count }
    requires places { length places.old ≡ node_count count }
    requires fresh { length fresh.old ≡ node_count count }
    requires room { passed_before (may_move leaves.now dirty.now count) (node_count count) ≤ set.len (F.room map.old).free }
    ensures len { length places.new ≡ length places.old }
    ensures anew { length fresh.new ≡ length fresh.old }
    ensures taken { HasTaken (F.room map.old) (may_move leaves.now dirty.now count) fresh.new (length fresh.new) (F.room map.new) }
    ensures placed { ArePlaced (is_there leaves.now tree.now dirty.now count) count tree.now dirty.now fresh.new places.new (length places.new) }
{
    places.copy_from_slice(tree);
    clear(fresh);
    let mut n = next_moving(dirty, count, 0);
    while n < places.len() {
        let there = is_there(leaves, tree, dirty, count, n);
        let stays = may_stay(there, count, tree, dirty, places, n);
        let place = take_place(map, is_wanted(there, stays));
        fresh[n] = place;
        places[n] = if stays { tree[n] } else { place };
        n = next_moving(dirty, count, n + 1);
    }
}

/// Puts the places of a tree that another one hasn't for the same node into a row, and 0 for each other node.
pub(crate) fn put_left(tree: &[u32], places: &[u32], into: &mut [u32])
    requires tree { length tree.now ≡ length into.old }
    requires places { length places.now ≡ length into.old }
    ensures len { length into.new ≡ length into.old }
    ensures left { AreLeft tree.now places.now into.new (length into.new) }
{
    for n in 0..into.len() {
        into[n] = if places[n] == tree[n] { 0 } else { tree[n] };
    }
}

/// Gives a place back; 0 is none.
fn release_place<F: Free>(map: &mut F, place: u32)
    ensures none { place ≡ 0 → F.room map.new ≡ F.room map.old }
    ensures some { place ≢ 0 → Releases (F.room map.old) place (F.room map.new) }
{
    if place != 0 {
        map.release_after_commit(place);
    }
}

/// Gives the places of a tree back.
pub(crate) fn release_places<F: Free>(map: &mut F, places: &[u32])
    ensures { HasReleased (F.room map.old) places.now (length places.now) (F.room map.new) }
{
    let mut n = next_place(places, 0);
    while n < places.len() {
        release_place(map, places[n]);
        n = next_place(places, n + 1);
    }
}
