//! The leaves in memory.

ghost use Rattle.std.specs.Prelude.{◌≡◌, ◌≢◌, ◌<◌, ◌≤◌, ◌*◌, ◌+◌, ℕ, true, false, None, IfSome, IfOk, IfErr, IsTrue, is_some, length, replicate, slice_set, if◌then◌else◌, nat_lt};
ghost use Rattle.std.specs.Vec.{vec_capacity};
ghost use Rattle.fv_codec.specs.Blocks.{IsEntry as IsLeafEntry, greatest_kind};
ghost use Rattle.fv_store.specs.Held.{StandsOn};
ghost use Rattle.fv_image.specs.Containers.{most_entries};
ghost use Rattle.fv_container.specs.Mapped.{IsHeld};
ghost use Rattle.fv_container.specs.Paged.{AreWell, IsLeafFor, leaf_here, pair_at};
ghost use Rattle.fv_container.specs.Spelled.{pair_of};
ghost use Rattle.fv_container.specs.Loading.{IsReadFault};
ghost use Rattle.fv_container.specs.Putting.{PutsIn};
ghost use Rattle.fv_container.specs.Reading.{HasRead, IsBadNode, LooksUp, pair_loaded};

use crate::entry::Entry;
use crate::fault::ContainerFault;
use crate::layout::FAN;
use crate::load::read_leaf;
use fv_codec::ContainerLeaf;
use fv_disk::{BlockFault, Disk};
use fv_store::Store;
use std::alloc::{AllocError, Global};

/// Makes the entries of a leaf holes from a number on.
fn clear_from(leaf: &mut ContainerLeaf, from: usize)
    requires pvbns { length leaf.old.pvbns ≡ 256 }
    requires kinds { length leaf.old.kinds ≡ 256 }
    ensures index { leaf.new.index ≡ leaf.old.index }
    ensures pvbns { length leaf.new.pvbns ≡ 256 }
    ensures kinds { length leaf.new.kinds ≡ 256 }
    ensures before { (c : ℕ) → c < 256 → c < from → pair_at leaf.new c ≡ pair_at leaf.old c }
    ensures past { (c : ℕ) → c < 256 → from ≤ c → pair_at leaf.new c ≡ (0, 0) }
{
    for c in 0..FAN {
        if c >= from {
            leaf.pvbns[c] = 0;
            leaf.kinds[c] = 0;
        }
    }
}

/// A leaf as that of a region of a container with so many entries: past the last one it has holes.
#[tactic(auto, using(crate::proofs::Loaded::fitted_range, crate::proofs::Loaded::fitted_pairs))]
fn fitted(leaf: ContainerLeaf, region: usize, count: usize) -> ContainerLeaf
    requires few { count ≤ most_entries }
    requires region { region < 65536 }
    requires pvbns { length leaf.pvbns ≡ 256 }
    requires kinds { length leaf.kinds ≡ 256 }
    requires range { (c : ℕ) → c < 256 → IsLeafEntry (pair_at leaf c) }
    ensures well { IsLeafFor region result }
    ensures pairs { (c : ℕ) → c < 256 → pair_at result c ≡ (if nat_lt (256 * region + c) count then pair_at leaf c else (0, 0)) }
{
    let mut leaf = leaf;
    leaf.index = region as u64;
    clear_from(&mut leaf, count.saturating_sub(FAN * region));
    leaf
}

/// Reads the leaf of a region at a place. Where that is 0 the leaf is absent, and all of its entries are holes.
#[tactic(auto, using(crate::proofs::Loaded::loaded_pairs))]
pub(crate) fn read_region<D: Disk>(
    store: &mut Store,
    disk: &mut D,
    at: u32,
    region: usize,
    count: usize,
    most_kind: u32,
) -> Result<ContainerLeaf, BlockFault>
    requires few { count ≤ most_entries }
    requires region { region < 65536 }
    requires kinds { most_kind ≡ greatest_kind }
    requires stands { StandsOn (D.shown disk.old) store.old.pairs }
    ensures well { IfOk result (IsLeafFor region) }
    ensures pairs { IsTrue (D.shown disk.old).tells
        → IfOk result (λ leaf. (c : ℕ) → c < 256 → pair_at leaf c ≡ pair_loaded (D.shown disk.old).reads count at region c) }
    ensures fault { IsTrue (D.shown disk.old).tells → IfErr result (IsBadNode (D.shown disk.old).reads at 0) }
    ensures kind { IfErr result IsReadFault }
    ensures read { HasRead (D.shown disk.old) (D.shown disk.new) store.new.pairs result }
{
    let leaf = read_leaf(store, disk, at, most_kind)?;
    Ok(fitted(leaf, region, count))
}

/// A leaf in memory.
pub(crate) fn boxed(
    alloc: Global,
    leaf: ContainerLeaf,
) -> Result<Box<ContainerLeaf>, ContainerFault>
    ensures value { IfOk result (λ b. b.value ≡ leaf) }
    ensures fault { IfErr result (λ fault. fault ≡ BlockFault.Memory) }
{
    match Box::new(alloc, leaf) {
        Ok(boxed) => Ok(boxed),
        Err(_) => Err(BlockFault::Memory),
    }
}

/// An entry as a leaf has it.
pub(crate) fn pair_of(entry: Option<Entry>) -> (u32, u32)
    requires { IfSome entry IsHeld }
    ensures pair { (result.0, result.1) ≡ pair_of entry }
    ensures range { IsLeafEntry (result.0, result.1) }
{
    match entry {
        Some(entry) => (entry.pvbn, u32::from(entry.kind)),
        None => (0, 0),
    }
}

/// An entry of a leaf.
fn entry_from(pvbn: u32, kind: u32) -> Option<Entry>
    requires { IsLeafEntry (pvbn, kind) }
    ensures pair { pair_of result ≡ (pvbn, kind) }
    ensures held { IfSome result IsHeld }
{
    if kind == 0 {
        return None;
    }
    Some(Entry {
        pvbn,
        kind: kind as u8,
    })
}

/// The entry of a leaf.
pub(crate) fn entry_of(leaf: &ContainerLeaf, c: usize) -> Option<Entry>
    requires within { c < 256 }
    requires pvbns { length leaf.now.pvbns ≡ 256 }
    requires kinds { length leaf.now.kinds ≡ 256 }
    requires range { IsLeafEntry (pair_at leaf.now c) }
    ensures pair { pair_of result ≡ pair_at leaf.now c }
    ensures held { IfSome result IsHeld }
{
    entry_from(leaf.pvbns[c], leaf.kinds[c])
}

/// Whether the leaf of a region is in memory.
pub(crate) fn has_leaf(leaves: &[Option<Box<ContainerLeaf>>], region: usize) -> bool
    ensures { result ≡ is_some (leaf_here leaves.now region) }
{
    region < leaves.len() && leaves[region].is_some()
}

/// The entry of the leaf of a region in memory; without one it is a hole.
pub(crate) fn entry_in(
    leaves: &[Option<Box<ContainerLeaf>>],
    region: usize,
    c: usize,
) -> Option<Entry>
    requires within { region < length leaves.now }
    requires number { c < 256 }
    requires well { AreWell leaves.now }
    ensures pair { IfSome (leaf_here leaves.now region) (λ b. pair_of result ≡ pair_at b.value c) }
    ensures held { IfSome result IsHeld }
{
    match &leaves[region] {
        Some(leaf) => entry_of(leaf, c),
        None => None,
    }
}

/// Looks an entry up: in the leaf in memory, and else in the one that is read, which isn't held.
pub(crate) fn look_in<D: Disk>(
    store: &mut Store,
    disk: &mut D,
    leaves: &[Option<Box<ContainerLeaf>>],
    at: u32,
    region: usize,
    c: usize,
    most_kind: u32,
) -> Result<Option<Entry>, BlockFault>
    requires within { region < length leaves.now }
    requires number { c < 256 }
    requires well { AreWell leaves.now }
    requires kinds { most_kind ≡ greatest_kind }
    requires stands { StandsOn (D.shown disk.old) store.old.pairs }
    ensures pair { IfOk result (λ entry. LooksUp (D.shown disk.old) at c (leaf_here leaves.now region) (pair_of entry)) }
    ensures held { IfOk result (λ entry. IfSome entry IsHeld) }
    ensures fault { IsTrue (D.shown disk.old).tells → IfErr result (IsBadNode (D.shown disk.old).reads at 0) }
    ensures kind { IfErr result IsReadFault }
    ensures read { HasRead (D.shown disk.old) (D.shown disk.new) store.new.pairs result }
{
    match &leaves[region] {
        Some(leaf) => Ok(entry_of(leaf, c)),
        None => {
            let leaf = read_leaf(store, disk, at, most_kind)?;
            Ok(entry_of(&leaf, c))
        }
    }
}

/// Sets the entry of a leaf, and answers whether it was another.
fn set_entry(leaf: &mut ContainerLeaf, region: usize, c: usize, entry: Option<Entry>) -> bool
    requires within { c < 256 }
    requires well { IsLeafFor region leaf.old }
    requires entry { IfSome entry IsHeld }
    ensures well { IsLeafFor region leaf.new }
    ensures set { pair_at leaf.new c ≡ pair_of entry }
    ensures others { (d : ℕ) → d ≢ c → pair_at leaf.new d ≡ pair_at leaf.old d }
    ensures other { result ≡ true → pair_at leaf.old c ≢ pair_of entry }
    ensures same { result ≡ false → pair_at leaf.old c ≡ pair_of entry }
{
    let pair = pair_of(entry);
    let changed = leaf.pvbns[c] != pair.0 || leaf.kinds[c] != pair.1;
    leaf.pvbns[c] = pair.0;
    leaf.kinds[c] = pair.1;
    changed
}

/// Sets an entry of the leaf of a region in memory, and answers whether it was another.
pub(crate) fn put_in(
    leaves: &mut [Option<Box<ContainerLeaf>>],
    region: usize,
    c: usize,
    entry: Option<Entry>,
) -> bool
    requires within { region < length leaves.old }
    requires number { c < 256 }
    requires well { AreWell leaves.old }
    requires entry { IfSome entry IsHeld }
    ensures puts { PutsIn region c (pair_of entry) leaves.old leaves.new }
    ensures well { AreWell leaves.new }
    ensures len { length leaves.new ≡ length leaves.old }
    ensures other { result ≡ true → IfSome (leaf_here leaves.old region) (λ b. pair_at b.value c ≢ pair_of entry) }
    ensures same { result ≡ false → IfSome (leaf_here leaves.old region) (λ b. pair_at b.value c ≡ pair_of entry) }
{
    match &mut leaves[region] {
        Some(leaf) => set_entry(leaf, region, c, entry),
        None => false,
    }
}

/// No leaf is in memory, and there is room for so many.
pub(crate) fn no_leaves(
    alloc: Global,
    regions: usize,
    room: usize,
) -> Result<Vec<Option<Box<ContainerLeaf>>>, AllocError>
    ensures leaves { IfOk result (λ leaves. leaves.items ≡ replicate regions None) }
    ensures room { IfOk result (λ leaves. room ≤ vec_capacity leaves) }
{
    let mut leaves = Vec::with_capacity(alloc, room)?;
    for _ in 0..regions {
        leaves.push(None)?;
    }
    Ok(leaves)
}

/// Drops all leaves from memory.
pub(crate) fn drop_leaves(leaves: &mut [Option<Box<ContainerLeaf>>])
    ensures { leaves.new ≡ replicate (length leaves.old) None }
{
    for k in 0..leaves.len() {
        if leaves[k].is_some() {
            leaves[k] = None;
        }
    }
}

/// Says that the leaf of a region is dirty, where one of its entries changed.
pub(crate) fn mark_changed(dirty: &mut [bool], region: usize, changed: bool)
    requires { region < length dirty.old }
    ensures { dirty.new ≡ (if changed then slice_set dirty.old region true else dirty.old) }
{
    if changed {
        dirty[region] = true;
    }
}
