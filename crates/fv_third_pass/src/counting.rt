//! How often each block of an aggregate is held, by labels, containers and entries.

ghost use Rattle.std.specs.Prelude.{◌≡◌, ◌<◌, ◌++◌, ℕ, IsTrue, List, [], None, length, get_or, IfOk, OnOk};
ghost use Rattle.fv_image.specs.Held.{layout_at};
ghost use Rattle.fv_root.specs.Finding.{IsInRange, root_found};
ghost use Rattle.fv_faults.specs.FirstPass.{first_pass};
ghost use Rattle.fv_first_pass.specs.Causes.{HasRead};
ghost use Rattle.fv_first_pass.specs.Passed.{Spells};
ghost use Rattle.fv_third_pass.specs.Counted.{IsCounted, blocks_to, label_of, slot_blocks, volume_blocks, words_of};
ghost use Rattle.fv_third_pass.specs.Tallied.{Tallies};

use crate::holders::Holders;
use crate::nodes::hold_nodes;
use crate::words::{hold_place, hold_row};
use fv_codec::{Label, Shape};
use fv_disk::Disk;
use fv_first_pass::{CheckFault, Known};
use fv_root::Found;
use std::alloc::Global;

/// The label of a slot, where it was read and has its shape.
fn label_in(labels: &[Option<Result<Label, Shape>>], slot: usize) -> Option<Label>
    ensures { result ≡ label_of (get_or labels.now slot None) }
{
    if slot >= labels.len() {
        return None;
    }
    match &labels[slot] {
        Some(Ok(label)) => Some(*label),
        _ => None,
    }
}

/// The words of a slot's entries; where there is no row, there are none.
pub(crate) fn words_in(rows: &[Option<Vec<u32>>], slot: usize) -> &[u32]
    ensures { result.now ≡ words_of (get_or rows.now slot None) }
{
    if slot >= rows.len() {
        return &[];
    }
    match &rows[slot] {
        Some(row) => row,
        None => &[],
    }
}

/// Counts the blocks of the nodes and of the entries of a container.
fn hold_volume<D: Disk>(
    alloc: Global,
    disk: &mut D,
    label: Option<Label>,
    row: &[u32],
    holders: &mut Holders,
) -> Result<(), CheckFault>
    ensures size { length holders.new.held ≡ length holders.old.held }
    ensures tallies { IsTrue (D.shown disk.old).tells → (list : List ℕ) → Tallies list holders.old
        → OnOk result (Tallies (list ++ volume_blocks (D.shown disk.old).reads label row.now) holders.new) }
    ensures read { HasRead (D.shown disk.old) (D.shown disk.new) result }
{
    let Some(label) = label else {
        return Ok(());
    };
    hold_nodes(alloc, disk, &label, holders)?;
    hold_row(holders, row, label.span)?;
    Ok(())
}

/// Counts what the volume of a slot holds.
fn hold_slot<D: Disk>(
    alloc: Global,
    disk: &mut D,
    found: &Found,
    known: &Known,
    slot: usize,
    holders: &mut Holders,
) -> Result<(), CheckFault>
    requires { slot < 64 }
    ensures size { length holders.new.held ≡ length holders.old.held }
    ensures tallies { IsTrue (D.shown disk.old).tells → (list : List ℕ) → Tallies list holders.old
        → OnOk result (Tallies (list ++ slot_blocks (D.shown disk.old).reads found.now.root known.now slot) holders.new) }
    ensures read { HasRead (D.shown disk.old) (D.shown disk.new) result }
{
    hold_place(holders, found.root.labels[slot])?;
    let label = label_in(&known.labels, slot);
    hold_volume(alloc, disk, label, words_in(&known.rows, slot), holders)?;
    Ok(())
}

/// Counts what the volumes of all slots hold.
#[tactic(auto, using(fv_disk::proofs::Resting::reads_then))]
fn hold_slots<D: Disk>(
    alloc: Global,
    disk: &mut D,
    found: &Found,
    known: &Known,
    holders: &mut Holders,
) -> Result<(), CheckFault>
    ensures size { length holders.new.held ≡ length holders.old.held }
    ensures tallies { IsTrue (D.shown disk.old).tells → (list : List ℕ) → Tallies list holders.old
        → OnOk result (Tallies (list ++ blocks_to (D.shown disk.old).reads found.now.root known.now 64) holders.new) }
    ensures read { HasRead (D.shown disk.old) (D.shown disk.new) result }
{
    for slot in 0..64 {
        hold_slot(alloc, disk, found, known, slot, holders)?;
    }
    Ok(())
}

/// Counts how often the labels, containers and entries of an aggregate hold each of its blocks, by what the first pass read.
///
/// `DiskFault` comes only where a read failed, `Memory` where memory was refused. It reads each inner node of a container once, no other
/// block, and takes a bit for each block and a number for each that is held more than once.
pub fn count_holders<D: Disk>(
    alloc: Global,
    disk: &mut D,
    found: &Found,
    known: &Known,
) -> Result<Holders, CheckFault>
    requires { IsInRange found.now }
    ensures counted { IsTrue (D.shown disk.old).tells → IfOk result (λ holders. (root : ℕ)
        → Spells (root_found found.now) (D.shown disk.old).reads known.now.labels.items known.now.rows.items
        → first_pass root (layout_at (root_found found.now) (D.shown disk.old).reads) ≡ []
        → IsCounted (layout_at (root_found found.now) (D.shown disk.old).reads) holders) }
    ensures size { IfOk result (λ holders. length holders.held ≡ found.now.blocks) }
    ensures read { HasRead (D.shown disk.old) (D.shown disk.new) result }
{
    let mut holders = Holders::new(alloc, found.blocks)?;
    hold_slots(alloc, disk, found, known, &mut holders)?;
    Ok(holders)
}
