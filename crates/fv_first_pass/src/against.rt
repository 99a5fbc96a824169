//! Noting the lines of a label against the other labels.

ghost use Rattle.std.specs.Prelude.{◌≡◌, ◌≤◌, ◌↔◌, ℕ, IsTrue, [], length, get_or, None, IfOk, OnOk};
ghost use Rattle.fv_image.specs.Views.{head_of};
ghost use Rattle.fv_image.specs.Held.{Layout};
ghost use Rattle.fv_faults.specs.Adding.{Adds};
ghost use Rattle.fv_faults.specs.FirstPass.{base_lines, label_stops};
ghost use Rattle.fv_first_pass.specs.Heads.{HasLabels, IsLabelIn, IsReadLabel, stops};
ghost use Rattle.fv_first_pass.specs.Sites.{IsSite};

use crate::bases::base_lines;
use crate::label::number_lines;
use crate::names::name_lines;
use crate::noting::note_all;
use crate::site::Site;
use crate::volume_names::volume_lines;
use fv_codec::{Label, Shape};
use fv_faults::Lines;
use std::alloc::{AllocError, Global};

/// Notes the line of a label's base, rule 3. `labels` has those of all slots. `AllocError` comes where memory was refused.
pub fn note_base(
    alloc: Global,
    labels: &[Option<Result<Label, Shape>>],
    site: &Site,
    at: u64,
    lines: &mut Lines,
) -> Result<(), AllocError>
    requires site { IsSite site.now }
    requires range { (s : ℕ) → IsReadLabel (get_or labels.now s None) }
    requires long { length labels.now ≡ 64 }
    requires low { site.now.label.parent ≤ 64 }
    ensures { OnOk result ((y : Layout) → HasLabels y labels.now
        → Adds (base_lines y site.now.slot at (head_of site.now.label)) lines.old lines.new) }
{
    let mut found = Vec::new(alloc);
    base_lines(&mut found, labels, site, at)?;
    note_all(lines, &found)?;
    Ok(())
}

/// Notes the lines of a label below which the pass doesn't go, by the labels of all slots.
fn note_own(
    alloc: Global,
    labels: &[Option<Result<Label, Shape>>],
    site: &Site,
    at: u64,
    lines: &mut Lines,
) -> Result<bool, AllocError>
    requires site { IsSite site.now }
    requires range { (s : ℕ) → IsReadLabel (get_or labels.now s None) }
    requires name { site.now.label.name_length ≤ 64 }
    ensures adds { OnOk result (Adds (stops labels.now site.now.blocks site.now.slot at site.now.label) lines.old lines.new) }
    ensures clean { IfOk result (λ clean. IsTrue clean ↔ (stops labels.now site.now.blocks site.now.slot at site.now.label ≡ [])) }
{
    let mut found = Vec::new(alloc);
    number_lines(&mut found, site, at)?;
    volume_lines(&mut found, labels, site, at)?;
    name_lines(&mut found, site, at)?;
    note_all(lines, &found)?;
    Ok(found.is_empty())
}

/// Notes the lines of a label at block `at` below which the first pass doesn't go: rule 2 of its numbers, and rule 4 of the names of its
/// volume and of its snapshots. It says whether there is none. `labels` has those of all slots. `AllocError` comes where memory was
/// refused. It takes time by the number of slots and snapshots.
pub fn note_stops(
    alloc: Global,
    labels: &[Option<Result<Label, Shape>>],
    site: &Site,
    at: u64,
    lines: &mut Lines,
) -> Result<bool, AllocError>
    requires site { IsSite site.now }
    requires range { (s : ℕ) → IsReadLabel (get_or labels.now s None) }
    requires name { site.now.label.name_length ≤ 64 }
    ensures adds { OnOk result ((y : Layout) → IsLabelIn y labels.now site.now.blocks site.now.slot site.now.label
        → Adds (label_stops y site.now.slot at site.now.label) lines.old lines.new) }
    ensures clean { IfOk result (λ clean. (y : Layout) → IsLabelIn y labels.now site.now.blocks site.now.slot site.now.label
        → IsTrue clean ↔ (label_stops y site.now.slot at site.now.label ≡ [])) }
{
    let clean = note_own(alloc, labels, site, at, lines)?;
    Ok(clean)
}
