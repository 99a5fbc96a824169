//! Reading the tree of a container, from its root down to the places of the leaves, and a leaf. A node is taken by where the pointer led:
//! its shape alone is judged, and of a leaf the position that it names isn't asked.

ghost use Rattle.std.specs.Prelude.{◌≡◌, ◌≢◌, ◌<◌, ◌≤◌, ◌+◌, ◌*◌, ◌^◌, ◌-◌, ◌==◌, if◌then◌else◌, ℕ, true, length, get_or, replicate, IsTrue, Ok, IfOk, IfErr, OnOk};
ghost use Rattle.fv_codec.specs.Blocks.{IsContainerInner, IsContainerLeaf, IsEntry as IsLeafEntry, greatest_kind, inner_at, last_place, leaf_at};
ghost use Rattle.fv_image.specs.Containers.{child_in, entry_in, level_width, lying, node_below, node_shape};
ghost use Rattle.fv_store.specs.Held.{StandsOn};
ghost use Rattle.fv_disk.specs.DiskCalls.{OnlyReads};
ghost use Rattle.fv_disk.specs.Faults.{HasBlockCause};
ghost use Rattle.fv_container.specs.Spelled.{IsFault, IsShapedAbove};
ghost use Rattle.fv_container.specs.Reading.{AreChildren, AreShaped, FillsFrom, HasLevels, HasRead, IsBadNode, IsBlank, IsLevelFault, ReadsAs, StandInner, StandsInner, StaysOutside, TreeAt};
ghost use Rattle.fv_container.specs.Clean.{IsCleanTree};
ghost use Rattle.fv_container.specs.Loading.{IsReadFault};

use crate::layout::{FAN, inner_count, leaf_count};
use crate::position::{both, is_inner_as};
use fv_codec::{ContainerInner, ContainerLeaf, Shape};
use fv_disk::{Block, BlockFault, Disk, ZERO};
use fv_store::Store;

/// A leaf of holes.
fn no_entries() -> ContainerLeaf
    ensures pvbns { result.pvbns ≡ replicate 256 0 }
    ensures kinds { result.kinds ≡ replicate 256 0 }
{
    ContainerLeaf {
        index: 0,
        pvbns: [0; 256],
        kinds: [0; 256],
    }
}

/// An inner node without children.
fn no_children() -> ContainerInner
    ensures { result.children ≡ replicate 256 0 }
{
    ContainerInner {
        level: 1,
        place: 0,
        children: [0; 256],
    }
}

/// Reads a block.
fn read_block<D: Disk>(store: &mut Store, disk: &mut D, at: u32) -> Result<Block, BlockFault>
    requires stands { StandsOn (D.shown disk.old) store.old.pairs }
    ensures value { IsTrue (D.shown disk.old).tells → IfOk result (λ block. block ≡ (D.shown disk.old).reads at) }
    ensures only_fault { IfErr result (λ fault. fault ≡ BlockFault.DiskFault) }
    ensures read { HasRead (D.shown disk.old) (D.shown disk.new) store.new.pairs result }
{
    let mut block = ZERO;
    store.get(disk, at, &mut block)?;
    Ok(block)
}

/// The fault of the block at a place.
fn damaged(at: u32, want: u64, found: u64) -> BlockFault
    ensures { result ≡ BlockFault.Damaged at want found }
{
    BlockFault::Damaged {
        at: u64::from(at),
        want,
        found,
    }
}

/// The inner node that a block spells.
fn inner_in(block: &Block, at: u32) -> Result<ContainerInner, BlockFault>
    ensures said { ReadsAs at (λ node. node) (inner_at block.now) result }
    ensures range { IfOk result IsContainerInner }
{
    match ContainerInner::decode(block) {
        Ok(node) => Ok(node),
        Err(shape) => Err(damaged(at, shape.want, shape.found)),
    }
}

/// The leaf that a block spells.
fn leaf_in(block: &Block, at: u32, most_kind: u32) -> Result<ContainerLeaf, BlockFault>
    requires { most_kind ≡ greatest_kind }
    ensures said { ReadsAs at (λ leaf. leaf) (leaf_at block.now) result }
    ensures kind { IfErr result IsReadFault }
    ensures range { IfOk result IsContainerLeaf }
    ensures pvbns { IfOk result (λ leaf. length leaf.pvbns ≡ 256) }
    ensures kinds { IfOk result (λ leaf. length leaf.kinds ≡ 256) }
{
    match ContainerLeaf::decode_in(block, most_kind) {
        Ok(leaf) => Ok(leaf),
        Err(shape) => Err(damaged(at, shape.want, shape.found)),
    }
}

/// Reads an inner node. Where `at` is 0 the node is absent, and has no children.
#[tactic(auto, using(crate::proofs::Reading::reads_none))]
fn read_inner<D: Disk>(
    store: &mut Store,
    disk: &mut D,
    at: u32,
) -> Result<ContainerInner, BlockFault>
    requires stands { StandsOn (D.shown disk.old) store.old.pairs }
    ensures children { IsTrue (D.shown disk.old).tells
        → IfOk result (λ node. (c : ℕ) → get_or node.children c 0 ≡ child_in (lying inner_at (D.shown disk.old).reads at) c) }
    ensures said { IsTrue (D.shown disk.old).tells → IfOk result (λ node. at ≢ 0 → inner_at ((D.shown disk.old).reads at) ≡ Ok node) }
    ensures shaped { IsTrue (D.shown disk.old).tells → OnOk result (at ≢ 0 → node_shape 1 ((D.shown disk.old).reads at) ≡ Ok tt) }
    ensures bounded { IfOk result (λ node. (c : ℕ) → get_or node.children c 0 ≤ last_place) }
    ensures fault { IsTrue (D.shown disk.old).tells → IfErr result (IsBadNode (D.shown disk.old).reads at 1) }
    ensures read { HasRead (D.shown disk.old) (D.shown disk.new) store.new.pairs result }
{
    if at == 0 {
        return Ok(no_children());
    }
    let block = read_block(store, disk, at)?;
    let node = inner_in(&block, at)?;
    Ok(node)
}

/// Reads a leaf. Where `at` is 0 the leaf is absent, and all of its entries are holes.
#[tactic(auto, using(crate::proofs::Reading::reads_none))]
pub(crate) fn read_leaf<D: Disk>(
    store: &mut Store,
    disk: &mut D,
    at: u32,
    most_kind: u32,
) -> Result<ContainerLeaf, BlockFault>
    requires kinds { most_kind ≡ greatest_kind }
    requires stands { StandsOn (D.shown disk.old) store.old.pairs }
    ensures entries { IsTrue (D.shown disk.old).tells
        → IfOk result (λ leaf. (c : ℕ) → (get_or leaf.pvbns c 0, get_or leaf.kinds c 0) ≡ entry_in (lying leaf_at (D.shown disk.old).reads at) c) }
    ensures said { IsTrue (D.shown disk.old).tells → IfOk result (λ leaf. at ≢ 0 → leaf_at ((D.shown disk.old).reads at) ≡ Ok leaf) }
    ensures shaped { IsTrue (D.shown disk.old).tells → OnOk result (at ≢ 0 → node_shape 0 ((D.shown disk.old).reads at) ≡ Ok tt) }
    ensures fault { IsTrue (D.shown disk.old).tells → IfErr result (IsBadNode (D.shown disk.old).reads at 0) }
    ensures read { HasRead (D.shown disk.old) (D.shown disk.new) store.new.pairs result }
    ensures range { IfOk result (λ leaf. (c : ℕ) → c < 256 → IsLeafEntry (get_or leaf.pvbns c 0, get_or leaf.kinds c 0)) }
    ensures pvbns { IfOk result (λ leaf. length leaf.pvbns ≡ 256) }
    ensures kinds { IfOk result (λ leaf. length leaf.kinds ≡ 256) }
    ensures kind { IfErr result IsReadFault }
{
    if at == 0 {
        return Ok(no_entries());
    }
    let block = read_block(store, disk, at)?;
    let leaf = leaf_in(&block, at, most_kind)?;
    Ok(leaf)
}

/// Puts the places of a node's children into the row, up to the end of their level.
fn fill_children(places: &mut [u32], from: usize, end: usize, children: &[u32; 256])
    requires end { end ≤ length places.old }
    requires from { from < 2 ^ 32 }
    ensures len { length places.new ≡ length places.old }
    ensures filled { FillsFrom children.now places.new from end }
    ensures past { (m : ℕ) → end ≤ m → get_or places.new m 0 ≡ get_or places.old m 0 }
    ensures outside { StaysOutside 0 places.old places.new from }
{
    for c in 0..FAN {
        if from + c < end {
            places[from + c] = children[c];
        }
    }
}

/// Reads the nodes above the leaves, and puts the places of the leaves into the row. Answers `true` only where each of them is the one of
/// its position.
#[tactic(auto, using(crate::proofs::Reading::reads_none, fv_disk::proofs::Resting::reads_then))]
fn read_level<D: Disk>(
    store: &mut Store,
    disk: &mut D,
    places: &mut [u32],
    leaves: usize,
    inner: usize,
) -> Result<bool, BlockFault>
    requires stands { StandsOn (D.shown disk.old) store.old.pairs }
    requires within { leaves + inner ≤ length places.old }
    requires few { inner ≤ 256 }
    requires covered { leaves ≤ 256 * inner }
    ensures len { length places.new ≡ length places.old }
    ensures bounded { OnOk result (((m : ℕ) → m < leaves → get_or places.old m 0 ≤ last_place) → (m : ℕ) → m < leaves → get_or places.new m 0 ≤ last_place) }
    ensures leaves { IsTrue (D.shown disk.old).tells
        → OnOk result (AreChildren (D.shown disk.old).reads places.old places.new leaves leaves) }
    ensures past { (m : ℕ) → leaves ≤ m → get_or places.new m 0 ≡ get_or places.old m 0 }
    ensures shaped { IsTrue (D.shown disk.old).tells → OnOk result (AreShaped (D.shown disk.old).reads 1 places.old leaves inner) }
    ensures whole { IsTrue (D.shown disk.old).tells
        → IfOk result (λ whole. whole ≡ true → StandInner (D.shown disk.old).reads places.old leaves inner) }
    ensures kept { IsTrue (D.shown disk.old).tells → StandInner (D.shown disk.old).reads places.old leaves inner → IfOk result IsTrue }
    ensures fault { IsTrue (D.shown disk.old).tells → IfErr result (IsLevelFault (D.shown disk.old).reads 1 places.old leaves inner) }
    ensures read { HasRead (D.shown disk.old) (D.shown disk.new) store.new.pairs result }
{
    let mut whole = true;
    for q in 0..inner {
        let at = places[leaves + q];
        let node = read_inner(store, disk, at)?;
        fill_children(places, FAN * q, leaves, &node.children);
        whole = both(
            whole,
            is_inner_as(at, &node, 1, q, leaves.saturating_sub(FAN * q)),
        );
    }
    Ok(whole)
}

/// Puts the places of the root and of the level above the leaves into a row of zeros, and reads the root
/// where it stands above that level. Answers `true` only where it is the one of its position then.
#[tactic(auto, using(crate::proofs::Reading::reads_none, fv_disk::proofs::Resting::reads_then))]
fn read_root<D: Disk>(
    store: &mut Store,
    disk: &mut D,
    places: &mut [u32],
    leaves: usize,
    inner: usize,
    height: u8,
    root: u32,
) -> Result<bool, BlockFault>
    requires stands { StandsOn (D.shown disk.old) store.old.pairs }
    requires levels { HasLevels places.old leaves inner }
    requires least { 1 ≤ height }
    requires greatest { height ≤ 2 }
    ensures len { length places.new ≡ length places.old }
    ensures inner { IsTrue (D.shown disk.old).tells
        → OnOk result ((q : ℕ) → q < inner → get_or places.new (leaves + q) 0 ≡ node_below (D.shown disk.old).reads root (height - 1) q) }
    ensures low { OnOk result ((m : ℕ) → m < leaves → get_or places.new m 0 ≡ 0) }
    ensures top { OnOk result (get_or places.new (leaves + inner) 0 ≡ (if height == 2 then root else 0)) }
    ensures shaped { IsTrue (D.shown disk.old).tells
        → OnOk result (height ≡ 2 → root ≢ 0 → node_shape 1 ((D.shown disk.old).reads root) ≡ Ok tt) }
    ensures whole { IsTrue (D.shown disk.old).tells
        → IfOk result (λ whole. whole ≡ true → height ≡ 2 → root ≢ 0 → StandsInner (D.shown disk.old).reads root 2 0 inner) }
    ensures kept { IsTrue (D.shown disk.old).tells
        → (height ≡ 2 → root ≢ 0 → StandsInner (D.shown disk.old).reads root 2 0 inner) → IfOk result IsTrue }
    ensures fault { IsTrue (D.shown disk.old).tells
        → IfErr result (λ fault. (height ≡ 2) × IsBadNode (D.shown disk.old).reads root 1 fault) }
    ensures read { HasRead (D.shown disk.old) (D.shown disk.new) store.new.pairs result }
{
    if height == 1 {
        places[leaves] = root;
        return Ok(true);
    }
    let node = read_inner(store, disk, root)?;
    fill_children(places, leaves, leaves + inner, &node.children);
    places[leaves + inner] = root;
    Ok(is_inner_as(root, &node, 2, 0, inner))
}

/// Reads a tree of so many entries down to the places of its leaves, into a row of places, all 0 before. Answers `true` only where each
/// node above the leaves is the one of its position, and has nothing past the last entry.
#[tactic(auto, using(crate::proofs::Reading::reads_none, fv_disk::proofs::Resting::reads_then))]
pub(crate) fn read_tree<D: Disk>(
    store: &mut Store,
    disk: &mut D,
    places: &mut [u32],
    count: usize,
    height: u8,
    root: u32,
) -> Result<bool, BlockFault>
    requires stands { StandsOn (D.shown disk.old) store.old.pairs }
    requires blank { IsBlank count places.old }
    requires least { 1 ≤ height }
    requires greatest { height ≤ 2 }
    ensures places { length places.new ≡ length places.old }
    ensures bounded { OnOk result ((m : ℕ) → m < level_width count 0 → get_or places.new m 0 ≤ last_place) }
    ensures tree { IsTrue (D.shown disk.old).tells → OnOk result (TreeAt (D.shown disk.old).reads root height count places.new) }
    ensures above { IsTrue (D.shown disk.old).tells → OnOk result (IsShapedAbove (D.shown disk.old).reads root height count) }
    ensures kept { IsTrue (D.shown disk.old).tells → IsCleanTree (D.shown disk.old).reads root height count → IfOk result IsTrue }
    ensures fault { IsTrue (D.shown disk.old).tells → IfErr result (IsFault (D.shown disk.old).reads root height count) }
    ensures read { HasRead (D.shown disk.old) (D.shown disk.new) store.new.pairs result }
{
    let leaves = leaf_count(count);
    let inner = inner_count(count);
    let top = read_root(store, disk, places, leaves, inner, height, root)?;
    let level = read_level(store, disk, places, leaves, inner)?;
    Ok(both(top, level))
}
