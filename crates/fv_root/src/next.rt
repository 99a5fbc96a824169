//! Making a new root count.

ghost use Rattle.std.specs.Prelude.{◌≡◌, ◌<◌, IsTrue, OnOk, Ok, true, length};
ghost use Rattle.fv_disk.specs.Shown.{Image, IsSettled, SameBut};
ghost use Rattle.fv_disk.specs.DiskCalls.{Counted};
ghost use Rattle.fv_disk.specs.Crash.{Leaves};
ghost use Rattle.fv_codec.specs.Blocks.{IsRoot, gate_open, root_at};
ghost use Rattle.fv_image.specs.Layout.{gate_place, root_place, area_blocks, area_place};
ghost use Rattle.fv_bits.specs.Members.{IsBlockOf};
ghost use Rattle.fv_root.specs.Formatted.{SameVolumes};
ghost use Rattle.fv_root.specs.Finding.{other_slot};
ghost use Rattle.fv_disk.specs.Sparing.{Spares};
ghost use Rattle.fv_root.specs.Commits.{HasArea, IsCommitted, IsFoundOn, IsNotGate, IsOutside, IsShut, IsStaged, OldOrNew, OldSide, next_found, next_root};

use crate::find::Found;
use crate::places::{area_place, gate_place, root_place};
use crate::sizes::area_blocks;
use fv_bits::BitMap;
use fv_codec::{Root, open_gate};
use fv_disk::{Block, Disk, Failed, ZERO};

/// Makes `root` the root that counts, with the map of all blocks that it holds, and with the generation
/// that follows the one of `found` in place of its own. `found` is what `find_root` would answer, over
/// what reads give and over each image that a crash now may leave, and the map has a bit for each block.
///
/// Every crash during it leaves the old root or the whole new one, and after `Ok` the new one with both
/// gates open; it fails only where a write or barrier failed. It makes two barriers, and one more where
/// the older gate was open, writes one map area, one root and at most two gates, and no block from the
/// first allocatable one on. It reads nothing and takes no memory.
pub fn commit<D: Disk>(disk: &mut D, found: &Found, root: &Root, map: &BitMap) -> Result<(), Failed>
    requires stands { IsTrue (D.shown disk.old).tells → IsFoundOn (D.shown disk.old) found.now }
    requires root { IsRoot root.now }
    requires map { length map.now ≡ found.now.blocks }
    ensures any_moment { IsTrue (D.shown disk.old).tells
        → Leaves (D.shown disk.old) (D.shown disk.new) (OldOrNew (D.shown disk.old) found.now root.now map.now) }
    ensures committed { IsTrue (D.shown disk.old).tells
        → OnOk result (IsCommitted (D.shown disk.old) found.now root.now map.now (D.shown disk.new)) }
    ensures volumes { IsTrue (D.shown disk.old).tells
        → SameVolumes found.now.blocks (D.shown disk.old).reads (D.shown disk.new).reads }
    ensures counted { Counted (D.shown disk.old) (D.shown disk.new) result }
{
    close_older(disk, found)?;
    stage(disk, found, root, map)?;
    open_older(disk, found)
}

/// The slot that isn't this one.
fn other_slot(slot: u8) -> u8
    ensures { result ≡ other_slot slot }
{
    if slot == 0 { 1 } else { 0 }
}

/// Closes the gate of the older slot, for good, before anything behind it changes. A gate that isn't open
/// is left alone: a write in flight may leave any bytes there, those of an open gate too, over a root
/// that was torn.
fn close_older<D: Disk>(disk: &mut D, found: &Found) -> Result<(), Failed>
    requires { IsTrue (D.shown disk.old).tells → IsFoundOn (D.shown disk.old) found.now }
    ensures shut { IsTrue (D.shown disk.old).tells
        → OnOk result ((c : Image) → (D.shown disk.new).images c → IsShut (D.shown disk.old) found.now c) }
    ensures any_moment { IsTrue (D.shown disk.old).tells
        → Leaves (D.shown disk.old) (D.shown disk.new) (λ c g. OldSide (D.shown disk.old) found.now c × (g ≡ (D.shown disk.old).given)) }
    ensures volumes { IsTrue (D.shown disk.old).tells
        → SameVolumes found.now.blocks (D.shown disk.old).reads (D.shown disk.new).reads }
    ensures counted { Counted (D.shown disk.old) (D.shown disk.new) result }
{
    if !found.older_open {
        return Ok(());
    }
    write_gate(disk, other_slot(found.slot), &ZERO)
}

/// Opens the gate of the older slot, which now has the newer root.
fn open_older<D: Disk>(disk: &mut D, found: &Found) -> Result<(), Failed>
    ensures opened { IsTrue (D.shown disk.old).tells
        → OnOk result (gate_open ((D.shown disk.new).reads (gate_place (other_slot found.now.slot))) ≡ true) }
    ensures settled { IsTrue (D.shown disk.old).tells → OnOk result (IsSettled (D.shown disk.new)) }
    ensures spares { Spares (IsNotGate (other_slot found.now.slot)) (D.shown disk.old) (D.shown disk.new) result }
{
    let mut block = ZERO;
    open_gate(&mut block);
    write_gate(disk, other_slot(found.slot), &block)
}

/// Writes a gate, and waits until it is on the disk.
#[tactic(auto, using(fv_disk::proofs::Sparing::spares_write, fv_disk::proofs::Sparing::spares_barrier, fv_disk::proofs::Sparing::spares_then))]
fn write_gate<D: Disk>(disk: &mut D, slot: u8, block: &Block) -> Result<(), Failed>
    ensures written { IsTrue (D.shown disk.old).tells
        → OnOk result ((D.shown disk.new).reads (gate_place slot) ≡ block.now) }
    ensures settled { IsTrue (D.shown disk.old).tells → OnOk result (IsSettled (D.shown disk.new)) }
    ensures spares { Spares (IsNotGate slot) (D.shown disk.old) (D.shown disk.new) result }
{
    disk.write(gate_place(slot), block)?;
    disk.barrier()
}

/// Writes what the older gate leads to, and waits until it is on the disk.
#[tactic(auto, using(fv_disk::proofs::Sparing::spares_barrier, fv_disk::proofs::Sparing::spares_then))]
fn stage<D: Disk>(disk: &mut D, found: &Found, root: &Root, map: &BitMap) -> Result<(), Failed>
    requires root { IsRoot root.now }
    requires map { length map.now ≡ found.now.blocks }
    ensures staged { IsTrue (D.shown disk.old).tells
        → OnOk result (IsStaged found.now.blocks (other_slot found.now.slot) (next_root found.now root.now) map.now (D.shown disk.new).reads) }
    ensures settled { IsTrue (D.shown disk.old).tells → OnOk result (IsSettled (D.shown disk.new)) }
    ensures spares { Spares (IsOutside found.now.blocks (other_slot found.now.slot)) (D.shown disk.old) (D.shown disk.new) result }
{
    let next = next_found(found, root);
    write_area(disk, next.blocks, next.slot, map)?;
    write_root(disk, next.blocks, next.slot, &next.root)?;
    disk.barrier()
}

/// What `find_root` answers once `commit` has made `root` count over what was found: the root with the
/// generation that follows, in the other slot, and both gates open.
pub fn next_found(found: &Found, root: &Root) -> Found
    ensures { result ≡ next_found found.now root.now }
{
    Found {
        blocks: found.blocks,
        slot: other_slot(found.slot),
        root: next_root(found, root),
        older_open: true,
    }
}

/// The root with the generation that follows the one that was found.
fn next_root(found: &Found, root: &Root) -> Root
    ensures { result ≡ next_root found.now root.now }
{
    let mut next = *root;
    next.generation = found.root.generation.wrapping_add(1);
    next
}

#[tactic(auto, using(fv_disk::proofs::Sparing::spares_write))]
fn write_root<D: Disk>(disk: &mut D, blocks: u32, slot: u8, root: &Root) -> Result<(), Failed>
    requires { IsRoot root.now }
    ensures written { IsTrue (D.shown disk.old).tells
        → OnOk result (root_at ((D.shown disk.new).reads (root_place slot)) ≡ Ok root.now) }
    ensures others { IsTrue (D.shown disk.old).tells → SameBut (root_place slot) (D.shown disk.old).reads (D.shown disk.new).reads }
    ensures spares { Spares (IsOutside blocks slot) (D.shown disk.old) (D.shown disk.new) result }
{
    let mut block = ZERO;
    root.encode(&mut block);
    disk.write(root_place(slot), &block)
}

/// Writes the map into the map area of a slot.
fn write_area<D: Disk>(disk: &mut D, blocks: u32, slot: u8, map: &BitMap) -> Result<(), Failed>
    requires { length map.now ≡ blocks }
    ensures written { IsTrue (D.shown disk.old).tells
        → OnOk result (HasArea blocks slot map.now (area_blocks blocks) (D.shown disk.new).reads) }
    ensures spares { Spares (IsOutside blocks slot) (D.shown disk.old) (D.shown disk.new) result }
{
    for k in 0..area_blocks(blocks) {
        write_map_block(disk, blocks, slot, map, k)?;
    }
    Ok(())
}

/// Writes one block of the map into the map area of a slot.
#[tactic(auto, using(fv_disk::proofs::Sparing::spares_write))]
fn write_map_block<D: Disk>(
    disk: &mut D,
    blocks: u32,
    slot: u8,
    map: &BitMap,
    k: u32,
) -> Result<(), Failed>
    requires map { length map.now ≡ blocks }
    requires within { k < area_blocks blocks }
    ensures written { IsTrue (D.shown disk.old).tells
        → OnOk result (IsBlockOf map.now k ((D.shown disk.new).reads (area_place blocks slot k))) }
    ensures others { IsTrue (D.shown disk.old).tells → SameBut (area_place blocks slot k) (D.shown disk.old).reads (D.shown disk.new).reads }
    ensures spares { Spares (IsOutside blocks slot) (D.shown disk.old) (D.shown disk.new) result }
{
    let mut block = ZERO;
    map.to_block(k, &mut block);
    disk.write(area_place(blocks, slot, k), &block)
}
