//! The labels and containers of all slots: their lines, and the entries that they spell.

ghost use Rattle.std.specs.Prelude.{◌≡◌, ◌<◌, ◌++◌, ◌∷◌, ℕ, IsTrue, [], length, get_or, Ok, None, IfOk, OnOk};
ghost use Rattle.fv_codec.specs.Blocks.{IsLabel};
ghost use Rattle.fv_image.specs.NewerRoot.{Taken};
ghost use Rattle.fv_image.specs.Held.{layout_at};
ghost use Rattle.fv_root.specs.Finding.{IsInRange, root_found};
ghost use Rattle.fv_faults.specs.Adding.{Adds};
ghost use Rattle.fv_faults.specs.FirstPass.{read_lines};
ghost use Rattle.fv_first_pass.specs.Causes.{HasRead};
ghost use Rattle.fv_first_pass.specs.Heads.{HasLabels, IsReadLabel};
ghost use Rattle.fv_first_pass.specs.Passed.{HasRow, IsLabelHere, slot_lines, slots_to};
ghost use Rattle.fv_first_pass.specs.Sites.{IsSite};

use crate::against::{note_base, note_stops};
use crate::container::read_container;
use crate::fault::CheckFault;
use crate::noting::note_shape;
use crate::site::Site;
use fv_codec::{Label, Shape};
use fv_disk::Disk;
use fv_faults::Lines;
use fv_root::Found;
use std::alloc::{AllocError, Global};

/// Notes the lines of a label at block `at` and of its container, and answers the container's entries where no line of the label stops the
/// pass.
fn read_volume<D: Disk>(
    alloc: Global,
    disk: &mut D,
    labels: &[Option<Result<Label, Shape>>],
    site: &Site,
    at: u64,
    lines: &mut Lines,
) -> Result<Option<Vec<u32>>, CheckFault>
    requires site { IsSite site.now }
    requires label { IsLabel site.now.label }
    requires range { (s : ℕ) → IsReadLabel (get_or labels.now s None) }
    requires long { length labels.now ≡ 64 }
    ensures adds { IsTrue (D.shown disk.old).tells
        → OnOk result ((t : Taken) → IsLabelHere t (D.shown disk.old).reads labels.now site.now
        → Adds (read_lines (layout_at t (D.shown disk.old).reads) site.now.slot at (Ok site.now.label)) lines.old lines.new) }
    ensures row { IsTrue (D.shown disk.old).tells
        → IfOk result (λ row. (t : Taken) → IsLabelHere t (D.shown disk.old).reads labels.now site.now
        → read_lines (layout_at t (D.shown disk.old).reads) site.now.slot at (Ok site.now.label) ≡ []
        → HasRow t (D.shown disk.old).reads site.now.slot row) }
    ensures read { HasRead (D.shown disk.old) (D.shown disk.new) result }
{
    note_base(alloc, labels, site, at, lines)?;
    let clean = note_stops(alloc, labels, site, at, lines)?;
    if !clean {
        return Ok(None);
    }
    let row = read_container(alloc, disk, site, lines)?;
    Ok(Some(row))
}

/// Notes the lines of a slot, and answers the entries of its container, if it has a volume and no line of its label stops the pass.
fn read_slot<D: Disk>(
    alloc: Global,
    disk: &mut D,
    found: &Found,
    labels: &[Option<Result<Label, Shape>>],
    slot: u8,
    lines: &mut Lines,
) -> Result<Option<Vec<u32>>, CheckFault>
    requires found { IsInRange found.now }
    requires range { (s : ℕ) → IsReadLabel (get_or labels.now s None) }
    requires long { length labels.now ≡ 64 }
    requires slot { slot < 64 }
    ensures adds { IsTrue (D.shown disk.old).tells
        → OnOk result (HasLabels (layout_at (root_found found.now) (D.shown disk.old).reads) labels.now
        → Adds (slot_lines (layout_at (root_found found.now) (D.shown disk.old).reads) slot) lines.old lines.new) }
    ensures row { IsTrue (D.shown disk.old).tells
        → IfOk result (λ row. HasLabels (layout_at (root_found found.now) (D.shown disk.old).reads) labels.now
        → slot_lines (layout_at (root_found found.now) (D.shown disk.old).reads) slot ≡ []
        → HasRow (root_found found.now) (D.shown disk.old).reads slot row) }
    ensures read { HasRead (D.shown disk.old) (D.shown disk.new) result }
{
    let at = found.root.labels[usize::from(slot)];
    match &labels[usize::from(slot)] {
        None => Ok(None),
        Some(Err(shape)) => {
            note_shape(lines, at, *shape)?;
            Ok(None)
        }
        Some(Ok(label)) => {
            let site = Site {
                blocks: found.blocks,
                slot,
                label: *label,
            };
            let row = read_volume(alloc, disk, labels, &site, u64::from(at), lines)?;
            Ok(row)
        }
    }
}

/// Adds the row of the next slot.
fn add(rows: &mut Vec<Option<Vec<u32>>>, row: Option<Vec<u32>>) -> Result<(), AllocError>
    ensures { OnOk result (rows.new.items ≡ rows.old.items ++ row ∷ []) }
{
    rows.push(row)?;
    Ok(())
}

/// Notes the lines of all slots, and answers the entries of each.
#[tactic(auto, using(fv_disk::proofs::Resting::reads_then))]
pub(crate) fn read_slots<D: Disk>(
    alloc: Global,
    disk: &mut D,
    found: &Found,
    labels: &[Option<Result<Label, Shape>>],
    lines: &mut Lines,
) -> Result<Vec<Option<Vec<u32>>>, CheckFault>
    requires found { IsInRange found.now }
    requires range { (s : ℕ) → IsReadLabel (get_or labels.now s None) }
    requires long { length labels.now ≡ 64 }
    ensures adds { IsTrue (D.shown disk.old).tells
        → OnOk result (HasLabels (layout_at (root_found found.now) (D.shown disk.old).reads) labels.now
        → Adds (slots_to (layout_at (root_found found.now) (D.shown disk.old).reads) 64) lines.old lines.new) }
    ensures rows { IsTrue (D.shown disk.old).tells
        → IfOk result (λ rows. HasLabels (layout_at (root_found found.now) (D.shown disk.old).reads) labels.now
        → (s : ℕ) → s < 64 → slot_lines (layout_at (root_found found.now) (D.shown disk.old).reads) s ≡ []
        → HasRow (root_found found.now) (D.shown disk.old).reads s (get_or rows.items s None)) }
    ensures read { HasRead (D.shown disk.old) (D.shown disk.new) result }
{
    let mut rows = Vec::with_capacity(alloc, 64)?;
    for slot in 0..64 {
        let row = read_slot(alloc, disk, found, labels, slot, lines)?;
        add(&mut rows, row)?;
    }
    Ok(rows)
}
