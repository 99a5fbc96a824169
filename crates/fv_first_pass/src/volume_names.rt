//! Lines of the names of volumes.

ghost use Rattle.std.specs.Prelude.{◌≡◌, ◌≤◌, ◌++◌, [], ◌∷◌, ℕ, find, get_or, None, OnOk};
ghost use Rattle.std.specs.List.{range_with_len};
ghost use Rattle.fv_model.specs.Spelling.{is_same_name};
ghost use Rattle.fv_image.specs.Views.{head_of};
ghost use Rattle.fv_first_pass.specs.Heads.{IsReadLabel, earlier_lines, is_earlier};

use crate::said::say;
use crate::site::Site;
use fv_codec::{Label, Shape};
use fv_faults::Fault;
use std::alloc::AllocError;
use std::cmp::Ordering;

/// Whether two labels have one name.
#[tactic(auto, unfolding(fv_image::specs::Views::head_of))]
fn same_label(one: &Label, other: &Label) -> bool
    requires one { one.now.name_length ≤ 64 }
    requires other { other.now.name_length ≤ 64 }
    ensures { result ≡ is_same_name (head_of one.entry.now).name (head_of other.entry.now).name }
{
    let other = &other.name[..usize::from(other.name_length)];
    one.name[..usize::from(one.name_length)].cmp(other) == Ordering::Equal
}

/// A slot, if its volume has the name of a label.
fn named_in(labels: &[Option<Result<Label, Shape>>], label: &Label, slot: u8) -> Option<u8>
    requires range { (s : ℕ) → IsReadLabel (get_or labels.now s None) }
    requires name { label.now.name_length ≤ 64 }
    ensures { result ≡ find (is_earlier labels.now (head_of label.entry.now)) (slot ∷ []) }
{
    let at = usize::from(slot);
    if at >= labels.len() {
        return None;
    }
    match &labels[at] {
        Some(Ok(other)) if same_label(other, label) => Some(slot),
        _ => None,
    }
}

/// The first slot before one of which the volume has the name of a label.
fn first_in(labels: &[Option<Result<Label, Shape>>], label: &Label, slot: u8) -> Option<u8>
    requires range { (s : ℕ) → IsReadLabel (get_or labels.now s None) }
    requires name { label.now.name_length ≤ 64 }
    ensures { result ≡ find (is_earlier labels.now (head_of label.entry.now)) (range_with_len 0 slot) }
{
    let mut first = None;
    for earlier in 0..slot {
        first = first.or(named_in(labels, label, earlier));
    }
    first
}

/// A line of rule 4 of a label at `at`, where a volume in an earlier slot has its name.
pub(crate) fn volume_lines(
    found: &mut Vec<Fault>,
    labels: &[Option<Result<Label, Shape>>],
    site: &Site,
    at: u64,
) -> Result<(), AllocError>
    requires range { (s : ℕ) → IsReadLabel (get_or labels.now s None) }
    requires name { site.now.label.name_length ≤ 64 }
    ensures { OnOk result (found.new.items ≡ found.old.items ++ earlier_lines labels.now site.now.slot at (head_of site.now.label)) }
{
    if let Some(first) = first_in(labels, &site.label, site.slot) {
        say(found, 4, at, u64::from(first), u64::from(site.slot))?;
    }
    Ok(())
}
