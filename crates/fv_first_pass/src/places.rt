//! Lines of the places at which a root has labels.

ghost use Rattle.std.specs.Prelude.{◌≡◌, ◌++◌, ◌↔◌, IsTrue, [], IfOk, OnOk};
ghost use Rattle.fv_disk.specs.Shown.{Image};
ghost use Rattle.fv_image.specs.Layout.{root_place};
ghost use Rattle.fv_image.specs.Held.{layout_at};
ghost use Rattle.fv_root.specs.Formatted.{IsSize};
ghost use Rattle.fv_root.specs.Finding.{IsInRange, root_found};
ghost use Rattle.fv_faults.specs.Adding.{Adds};
ghost use Rattle.fv_faults.specs.FirstPass.{root_lines};
ghost use Rattle.fv_first_pass.specs.Passed.{place_lines, places_to};

use crate::noting::note_all;
use crate::said::lead;
use fv_faults::{Fault, Lines};
use fv_root::{Found, root_place};
use std::alloc::{AllocError, Global};

/// A line of rule 2 of a root at `at`, where it has a label at a place that is none of a volume's block; 0 is the place of none.
fn place_lines(said: &mut Vec<Fault>, blocks: u32, at: u64, place: u32) -> Result<(), AllocError>
    requires { IsSize blocks }
    ensures { OnOk result (said.new.items ≡ said.old.items ++ place_lines blocks at place) }
{
    if place == 0 {
        return Ok(());
    }
    lead(said, blocks, at, u64::from(place))?;
    Ok(())
}

/// Lines of the places of all slots.
fn root_lines(said: &mut Vec<Fault>, found: &Found, at: u64) -> Result<(), AllocError>
    requires { IsSize found.now.blocks }
    ensures { OnOk result (said.new.items ≡ said.old.items ++ places_to found.now.blocks at found.now.root.labels 64) }
{
    for slot in 0..64 {
        place_lines(said, found.blocks, at, found.root.labels[slot])?;
    }
    Ok(())
}

/// Notes the lines of rule 2 of the places at which a root at `at` has labels, and says whether there is none.
fn note_all_places(
    alloc: Global,
    found: &Found,
    at: u64,
    lines: &mut Lines,
) -> Result<bool, AllocError>
    requires { IsSize found.now.blocks }
    ensures adds { OnOk result (Adds (places_to found.now.blocks at found.now.root.labels 64) lines.old lines.new) }
    ensures clean { IfOk result (λ clean. IsTrue clean ↔ (places_to found.now.blocks at found.now.root.labels 64 ≡ [])) }
{
    let mut said = Vec::new(alloc);
    root_lines(&mut said, found, at)?;
    note_all(lines, &said)?;
    Ok(said.is_empty())
}

/// Notes the lines of rule 2 of the places at which the root that counts has labels, and says whether there is none.
pub(crate) fn note_places(
    alloc: Global,
    found: &Found,
    lines: &mut Lines,
) -> Result<bool, AllocError>
    requires { IsInRange found.now }
    ensures adds { OnOk result ((i : Image)
        → Adds (root_lines (root_place found.now.slot) (layout_at (root_found found.now) i)) lines.old lines.new) }
    ensures clean { IfOk result (λ clean. (i : Image)
        → IsTrue clean ↔ (root_lines (root_place found.now.slot) (layout_at (root_found found.now) i) ≡ [])) }
{
    let clean = note_all_places(alloc, found, root_place(found.slot), lines)?;
    Ok(clean)
}
