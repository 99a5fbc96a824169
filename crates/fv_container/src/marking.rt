//! Marking the blocks to which leaves lead.

ghost use Rattle.std.specs.Prelude.{◌≡◌, ◌<◌, ◌≤◌, IfSome, IfErr, OnOk, IsTrue, length};
ghost use Rattle.fv_codec.specs.Blocks.{greatest_kind};
ghost use Rattle.fv_image.specs.Containers.{level_width, most_entries};
ghost use Rattle.fv_store.specs.Held.{StandsOn};
ghost use Rattle.fv_container.specs.Paged.{AreWell, IsLeafFor};
ghost use Rattle.fv_container.specs.Spelled.{is_at, names};
ghost use Rattle.fv_container.specs.Loading.{IsReadFault, Marks};
ghost use Rattle.fv_container.specs.Reading.{HasRead, IsBadNode};
ghost use Rattle.fv_container.specs.Seeing.{IsSomeFault, leads_first, leads_seen};

use crate::leaf::read_region;
use fv_bits::BitMap;
use fv_codec::ContainerLeaf;
use fv_disk::{BlockFault, Disk};
use fv_store::Store;

/// Marks a block, where the map has it. 0 is no block.
fn mark_one(bits: &mut BitMap, at: u32)
    ensures { Marks bits.old (λ b. is_at b at) bits.new }
{
    if at != 0 && at < bits.len() {
        bits.set(at);
    }
}

/// Marks the blocks to which the entries of a leaf lead.
#[tactic(auto, using(crate::proofs::Marked::marked_none, crate::proofs::Marked::marked_more))]
fn mark_leaf(leaf: &ContainerLeaf, bits: &mut BitMap)
    requires { length leaf.now.pvbns ≡ 256 }
    ensures { Marks bits.old (names leaf.now.pvbns) bits.new }
{
    for c in 0..leaf.pvbns.len() {
        mark_one(bits, leaf.pvbns[c]);
    }
}

/// Marks the blocks of the leaf of a region: of the one in memory, or of the one that is read.
#[tactic(auto, using(crate::proofs::Marked::seen_here, crate::proofs::Marked::seen_there))]
fn mark_region<D: Disk>(
    store: &mut Store,
    disk: &mut D,
    leaf: &Option<Box<ContainerLeaf>>,
    at: u32,
    region: usize,
    count: usize,
    bits: &mut BitMap,
    most_kind: u32,
) -> Result<(), BlockFault>
    requires few { count ≤ most_entries }
    requires region { region < 65536 }
    requires well { IfSome leaf.now (λ b. IsLeafFor region b.value) }
    requires kinds { most_kind ≡ greatest_kind }
    requires stands { StandsOn (D.shown disk.old) store.old.pairs }
    ensures marked { IsTrue (D.shown disk.old).tells
        → OnOk result (Marks bits.old (leads_seen (D.shown disk.old).reads count at region leaf.now) bits.new) }
    ensures fault { IsTrue (D.shown disk.old).tells → IfErr result (IsBadNode (D.shown disk.old).reads at 0) }
    ensures kind { IfErr result IsReadFault }
    ensures read { HasRead (D.shown disk.old) (D.shown disk.new) store.new.pairs result }
{
    match leaf {
        Some(leaf) => {
            mark_leaf(leaf, bits);
            Ok(())
        }
        None => {
            let leaf = read_region(store, disk, at, region, count, most_kind)?;
            mark_leaf(&leaf, bits);
            Ok(())
        }
    }
}

/// Marks the blocks of all leaves.
#[tactic(auto, using(crate::proofs::Marked::all_none, crate::proofs::Marked::all_more, crate::proofs::Whole::bad_leaf, crate::proofs::Reading::reads_none, fv_disk::proofs::Resting::reads_then))]
pub(crate) fn mark_all<D: Disk>(
    store: &mut Store,
    disk: &mut D,
    leaves: &[Option<Box<ContainerLeaf>>],
    tree: &[u32],
    count: usize,
    bits: &mut BitMap,
    most_kind: u32,
) -> Result<(), BlockFault>
    requires few { count ≤ most_entries }
    requires long { length leaves.now ≡ level_width count 0 }
    requires tree { length leaves.now ≤ length tree.now }
    requires well { AreWell leaves.now }
    requires kinds { most_kind ≡ greatest_kind }
    requires stands { StandsOn (D.shown disk.old) store.old.pairs }
    ensures marked { IsTrue (D.shown disk.old).tells
        → OnOk result (Marks bits.old (leads_first (D.shown disk.old).reads count leaves.now tree.now (length leaves.now)) bits.new) }
    ensures fault { IsTrue (D.shown disk.old).tells → IfErr result (IsSomeFault (D.shown disk.old).reads tree.now (length leaves.now)) }
    ensures kind { IfErr result IsReadFault }
    ensures read { HasRead (D.shown disk.old) (D.shown disk.new) store.new.pairs result }
{
    for k in 0..leaves.len() {
        mark_region(store, disk, &leaves[k], tree[k], k, count, bits, most_kind)?;
    }
    Ok(())
}
