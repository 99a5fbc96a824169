//! The first pass: where the root has labels, and slot by slot the label and the container of a volume.

ghost use Rattle.std.specs.Prelude.{◌≡◌, ℕ, IsTrue, [], get_or, None, IfOk, OnOk};
ghost use Rattle.fv_image.specs.Layout.{root_place};
ghost use Rattle.fv_image.specs.Held.{layout_at};
ghost use Rattle.fv_root.specs.Finding.{IsInRange, root_found};
ghost use Rattle.fv_faults.specs.Adding.{Adds};
ghost use Rattle.fv_faults.specs.FirstPass.{first_pass};
ghost use Rattle.fv_first_pass.specs.Causes.{HasRead};
ghost use Rattle.fv_first_pass.specs.Heads.{IsReadLabel};
ghost use Rattle.fv_first_pass.specs.Passed.{Spells};

use crate::fault::CheckFault;
use crate::labels::read_labels;
use crate::places::note_places;
use crate::slots::read_slots;
use fv_codec::{Label, Shape};
use fv_disk::Disk;
use fv_faults::Lines;
use fv_root::Found;
use std::alloc::Global;

/// What the first pass reads of an aggregate. Where the pass noted a line it means nothing.
#[derive(Debug, Drop)]
pub struct Known {
    /// The labels of all 64 slots, in their order; an empty slot has none.
    pub labels: Vec<Option<Result<Label, Shape>>>,
    /// The entries of each slot's container by VVBN, one word for each: its kind times 2^24 and its place, and 0 for a hole. An empty
    /// slot has no row.
    pub rows: Vec<Option<Vec<u32>>>,
}

/// Makes the first pass over the aggregate with this root: notes its lines, rules 1 to 4, and answers what it read. Only where the places
/// of labels have no line does it read labels, and a container only where no line of its label stops it. `DiskFault` comes only where a
/// read failed, `Memory` where memory was refused. It reads each label and each node of a container once, and takes four bytes for each
/// entry, 269 MB at most (`docs/FORMAT.md`).
#[tactic(auto, using(fv_disk::proofs::Resting::reads_then))]
pub fn pass_one<D: Disk>(
    alloc: Global,
    disk: &mut D,
    found: &Found,
    lines: &mut Lines,
) -> Result<Known, CheckFault>
    requires { IsInRange found.now }
    ensures adds { IsTrue (D.shown disk.old).tells
        → OnOk result (Adds (first_pass (root_place found.now.slot) (layout_at (root_found found.now) (D.shown disk.old).reads))
        lines.old lines.new) }
    ensures spells { IsTrue (D.shown disk.old).tells
        → IfOk result (λ known. first_pass (root_place found.now.slot) (layout_at (root_found found.now) (D.shown disk.old).reads) ≡ []
        → Spells (root_found found.now) (D.shown disk.old).reads known.labels.items known.rows.items) }
    ensures range { IfOk result (λ known. (s : ℕ) → IsReadLabel (get_or known.labels.items s None)) }
    ensures read { HasRead (D.shown disk.old) (D.shown disk.new) result }
{
    let clean = note_places(alloc, found, lines)?;
    if !clean {
        return Ok(Known {
            labels: Vec::new(alloc),
            rows: Vec::new(alloc),
        });
    }
    let labels = read_labels(alloc, disk, &found.root)?;
    let rows = read_slots(alloc, disk, found, &labels, lines)?;
    Ok(Known { labels, rows })
}
