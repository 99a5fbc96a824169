//! Writing the nodes of a tree to their places.

ghost use Rattle.std.specs.Prelude.{◌≡◌, ◌≢◌, ◌<◌, ◌≤◌, ◌^◌, ℕ, length, get_or, IfSome, IsTrue, Ok, OnOk};
ghost use Rattle.fv_disk.specs.Shown.{SameBut};
ghost use Rattle.fv_disk.specs.DiskCalls.{Writes};
ghost use Rattle.fv_codec.specs.Blocks.{last_place, leaf_at};
ghost use Rattle.fv_store.specs.Held.{StandsOn};
ghost use Rattle.fv_disk.specs.Sparing.{Spares};
ghost use Rattle.fv_container.specs.Paged.{AreWell, leaf_here};
ghost use Rattle.fv_container.specs.Written.{AreAnew, AreWritable, IsElsewhere, IsInnerOf, IsPutOf, child_from};

use crate::layout::{FAN, inner_count, leaf_count};
use crate::passing::next_place;
use fv_codec::{ContainerInner, ContainerLeaf};
use fv_disk::{Block, Disk, Failed, ZERO};
use fv_store::Store;

/// The block of a leaf in memory; where it isn't there, the block stays.
#[tactic(auto, using(crate::proofs::Regions::leaf_in_range))]
fn leaf_block(leaves: &[Option<Box<ContainerLeaf>>], index: usize, into: &mut Block)
    requires within { index < length leaves.now }
    requires well { AreWell leaves.now }
    ensures { IfSome (leaf_here leaves.now index) (λ b. leaf_at into.new ≡ Ok b.value) }
{
    if let Some(leaf) = &leaves[index] {
        leaf.encode(into);
    }
}

/// The places of children that stand in a row up to an end.
fn children_of(places: &[u32], from: usize, end: usize, children: &mut [u32; 256])
    requires from { from < 2 ^ 48 }
    requires end { end ≤ length places.now }
    requires bounded { (m : ℕ) → get_or places.now m 0 ≤ last_place }
    ensures children { (c : ℕ) → c < 256 → get_or children.new c 0 ≡ child_from places.now from end c }
    ensures bounded { (c : ℕ) → c < 256 → get_or children.new c 0 ≤ last_place }
{
    for c in 0..FAN {
        children[c] = if from + c < end { places[from + c] } else { 0 };
    }
}

/// The block of an inner node.
fn inner_block(places: &[u32], level: u8, number: u64, from: usize, end: usize, into: &mut Block)
    requires least { 1 ≤ level }
    requires greatest { level ≤ 2 }
    requires from { from < 2 ^ 48 }
    requires end { end ≤ length places.now }
    requires bounded { (m : ℕ) → get_or places.now m 0 ≤ last_place }
    ensures { IsInnerOf places.now level number from end into.new }
{
    let mut children = [0; 256];
    children_of(places, from, end, &mut children);
    let node = ContainerInner {
        level,
        place: number,
        children,
    };
    node.encode(into);
}

/// The block of a node, by its number.
fn node_block(
    leaves: &[Option<Box<ContainerLeaf>>],
    count: usize,
    places: &[u32],
    node: usize,
    into: &mut Block,
)
    requires rows { AreWritable leaves.now count places.now }
    requires within { node < length places.now }
    ensures { IsPutOf leaves.now count places.now node into.new }
{
    let low = leaf_count(count);
    let inner = inner_count(count);
    if node < low {
        leaf_block(leaves, node, into);
    } else if node < low + inner {
        let number = node - low;
        inner_block(places, 1, number as u64, FAN * number, low, into);
    } else {
        inner_block(places, 2, 0, low, low + inner, into);
    }
}

/// Writes the block of a node to its place. A leaf is held by the store from then on, where memory is found for it: so the next read of it
/// makes no disk call. The places of the nodes above are in memory, so these aren't read again.
fn put_node<D: Disk>(
    store: &mut Store,
    disk: &mut D,
    is_leaf: bool,
    at: u32,
    block: &Block,
) -> Result<(), Failed>
    requires stands { StandsOn (D.shown disk.old) store.old.pairs }
    ensures writes { Writes (D.shown disk.old) at block.now (D.shown disk.new) result }
    ensures stands { StandsOn (D.shown disk.new) store.new.pairs }
{
    if is_leaf {
        store.put_and_hold(disk, at, block)
    } else {
        store.put(disk, at, block)
    }
}

/// Writes a node to its new place; one whose new place is 0 stays, or is absent.
#[tactic(auto, using(fv_disk::proofs::Sparing::spares_none, fv_disk::proofs::Sparing::spares_then))]
fn write_node<D: Disk>(
    store: &mut Store,
    disk: &mut D,
    leaves: &[Option<Box<ContainerLeaf>>],
    count: usize,
    places: &[u32],
    fresh: &[u32],
    node: usize,
) -> Result<(), Failed>
    requires stands { StandsOn (D.shown disk.old) store.old.pairs }
    requires rows { AreWritable leaves.now count places.now }
    requires fresh { length fresh.now ≡ length places.now }
    requires within { node < length fresh.now }
    ensures written { IsTrue (D.shown disk.old).tells
        → OnOk result (get_or fresh.now node 0 ≢ 0 → IsPutOf leaves.now count places.now node ((D.shown disk.new).reads (get_or fresh.now node 0))) }
    ensures others { IsTrue (D.shown disk.old).tells
        → SameBut (get_or fresh.now node 0) (D.shown disk.old).reads (D.shown disk.new).reads }
    ensures spares { Spares (IsElsewhere fresh.now) (D.shown disk.old) (D.shown disk.new) result }
    ensures stands { StandsOn (D.shown disk.new) store.new.pairs }
{
    if fresh[node] == 0 {
        return Ok(());
    }
    let mut block = ZERO;
    node_block(leaves, count, places, node, &mut block);
    put_node(store, disk, node < leaf_count(count), fresh[node], &block)
}

/// Writes each node that has a new place.
#[tactic(auto, using(fv_disk::proofs::Sparing::spares_none, fv_disk::proofs::Sparing::spares_then))]
pub(crate) fn write_tree<D: Disk>(
    store: &mut Store,
    disk: &mut D,
    leaves: &[Option<Box<ContainerLeaf>>],
    count: usize,
    places: &[u32],
    fresh: &[u32],
) -> Result<(), Failed>
    requires stands { StandsOn (D.shown disk.old) store.old.pairs }
    requires rows { AreWritable leaves.now count places.now }
    requires fresh { length fresh.now ≡ length places.now }
    requires once { (m k : ℕ) → m < k → k < length fresh.now → get_or fresh.now k 0 ≢ 0 → get_or fresh.now m 0 ≢ get_or fresh.now k 0 }
    ensures written { IsTrue (D.shown disk.old).tells
        → OnOk result (AreAnew leaves.now count places.now fresh.now (length fresh.now) (D.shown disk.new).reads) }
    ensures spares { Spares (IsElsewhere fresh.now) (D.shown disk.old) (D.shown disk.new) result }
    ensures stands { StandsOn (D.shown disk.new) store.new.pairs }
{
    let mut n = next_place(fresh, 0);
    while n < fresh.len() {
        write_node(store, disk, leaves, count, places, fresh, n)?;
        n = next_place(fresh, n + 1);
    }
    Ok(())
}
