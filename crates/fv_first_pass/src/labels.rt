//! Reading the labels of all slots.

ghost use Rattle.std.specs.Prelude.{◌≡◌, ◌++◌, [], ◌∷◌, ℕ, IsTrue, length, get_or, None, IfOk, OnOk};
ghost use Rattle.fv_image.specs.NewerRoot.{Taken};
ghost use Rattle.fv_image.specs.Held.{layout_at, lying_at};
ghost use Rattle.fv_first_pass.specs.Causes.{HasRead};
ghost use Rattle.fv_first_pass.specs.Heads.{HasLabels, IsReadLabel, label_read, labels_under};

use crate::fault::CheckFault;
use crate::tree::read_block;
use fv_codec::{Label, Root, Shape};
use fv_disk::Disk;
use std::alloc::{AllocError, Global};

/// Reads the label of a slot; 0 is no place.
fn read_label<D: Disk>(disk: &mut D, place: u32) -> Result<Option<Result<Label, Shape>>, CheckFault>
    ensures value { IsTrue (D.shown disk.old).tells → IfOk result (λ read. read ≡ label_read (lying_at (D.shown disk.old).reads place)) }
    ensures range { IfOk result IsReadLabel }
    ensures read { HasRead (D.shown disk.old) (D.shown disk.new) result }
{
    if place == 0 {
        return Ok(None);
    }
    let block = read_block(disk, place)?;
    Ok(Some(Label::decode(&block)))
}

/// Adds the label of the next slot.
fn add(
    labels: &mut Vec<Option<Result<Label, Shape>>>,
    read: Option<Result<Label, Shape>>,
) -> Result<(), AllocError>
    ensures { OnOk result (labels.new.items ≡ labels.old.items ++ read ∷ []) }
{
    labels.push(read)?;
    Ok(())
}

/// Reads the labels of all slots under a root.
#[tactic(auto, using(fv_disk::proofs::Resting::reads_then))]
fn read_all<D: Disk>(
    alloc: Global,
    disk: &mut D,
    root: &Root,
) -> Result<Vec<Option<Result<Label, Shape>>>, CheckFault>
    ensures value { IsTrue (D.shown disk.old).tells
        → IfOk result (λ labels. labels.items ≡ labels_under (D.shown disk.old).reads root.now 64) }
    ensures range { IfOk result (λ labels. (s : ℕ) → IsReadLabel (get_or labels.items s None)) }
    ensures long { IfOk result (λ labels. length labels.items ≡ 64) }
    ensures read { HasRead (D.shown disk.old) (D.shown disk.new) result }
{
    let mut labels = Vec::with_capacity(alloc, 64)?;
    for slot in 0..64 {
        let read = read_label(disk, root.labels[slot])?;
        add(&mut labels, read)?;
    }
    Ok(labels)
}

/// Reads the labels of all slots, in their order; an empty slot has none. `DiskFault` comes only where a read failed, `Memory` where
/// memory was refused. It reads a block for each slot in use.
pub fn read_labels<D: Disk>(
    alloc: Global,
    disk: &mut D,
    root: &Root,
) -> Result<Vec<Option<Result<Label, Shape>>>, CheckFault>
    ensures labels { IsTrue (D.shown disk.old).tells
        → IfOk result (λ labels. (t : Taken) → t.root ≡ root.now → HasLabels (layout_at t (D.shown disk.old).reads) labels.items) }
    ensures range { IfOk result (λ labels. (s : ℕ) → IsReadLabel (get_or labels.items s None)) }
    ensures long { IfOk result (λ labels. length labels.items ≡ 64) }
    ensures read { HasRead (D.shown disk.old) (D.shown disk.new) result }
{
    let labels = read_all(alloc, disk, root)?;
    Ok(labels)
}
