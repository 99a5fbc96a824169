//! Lines of the bases of volumes.

ghost use Rattle.std.specs.Prelude.{◌≡◌, ◌≤◌, ◌<◌, ◌≢◌, ◌-◌, ◌==◌, ◌++◌, ◌+◌, ◌||◌, ◌&&◌, not, nat_le, true, ℕ, length, get_or, Some, None, OnOk};
ghost use Rattle.std.specs.List.{list_any};
ghost use Rattle.std.specs.Option.{is_some, option_map, option_and_then};
ghost use Rattle.fv_image.specs.Views.{Footing, Snap, head_of};
ghost use Rattle.fv_image.specs.Held.{Layout};
ghost use Rattle.fv_image.specs.Seen.{seen};
ghost use Rattle.fv_image.specs.Volumes.{snap_at};
ghost use Rattle.fv_image.specs.VolumeRules.{comes_to_end};
ghost use Rattle.fv_image.specs.HintRules.{is_splitting};
ghost use Rattle.fv_faults.specs.FirstPass.{base_lines, can_carry, stands_on};
ghost use Rattle.fv_first_pass.specs.Heads.{HasLabels, IsReadLabel, carried, footing, head_in, parent_in};
ghost use Rattle.fv_first_pass.specs.Records.{free, snap_if};

use crate::said::say_unless;
use crate::site::Site;
use fv_codec::{Label, Shape};
use fv_faults::Fault;
use std::alloc::AllocError;

/// The slot of the parent of a volume, by its label.
#[tactic(auto, unfolding(fv_image::specs::Views::head_of))]
fn parent_of(label: &Label) -> Option<u8>
    ensures { result ≡ option_map (λ (b : Footing). b.parent) (head_of label.entry.now).base }
{
    if label.parent == 0 {
        return None;
    }
    Some(label.parent - 1)
}

/// The slot of the parent of the volume of a slot, by the labels of all slots; `None` where it has none. Costs one step.
pub fn parent_from(labels: &[Option<Result<Label, Shape>>], slot: u8) -> Option<u8>
    ensures { result ≡ parent_in labels.now slot }
{
    let at = usize::from(slot);
    if at >= labels.len() {
        return None;
    }
    match &labels[at] {
        Some(Ok(label)) => parent_of(label),
        _ => None,
    }
}

/// Where the chain of bases of a volume is after one step more; none past its end.
fn on_from(labels: &[Option<Result<Label, Shape>>], at: Option<u8>) -> Option<u8>
    ensures { result ≡ option_and_then (λ s. parent_in labels.now s) at }
{
    match at {
        Some(slot) => parent_from(labels, slot),
        None => None,
    }
}

/// Whether the chain of bases of the volume of a slot comes to an end.
fn comes_to_end(labels: &[Option<Result<Label, Shape>>], slot: u8) -> bool
    ensures { (y : Layout) → HasLabels y labels.now → result ≡ comes_to_end (seen y.view) 64 slot }
{
    let mut at = Some(slot);
    for _ in 0..64_usize {
        at = on_from(labels, at);
    }
    at.is_none()
}

/// Whether record `k` is that of a snapshot with this map slot.
fn is_slot(label: &Label, k: usize, slot: u8) -> bool
    requires long { length label.now.snapshots ≡ 24 }
    requires record { k < 24 }
    ensures { result ≡ list_any (λ (p : Snap). p.slot == slot) (snap_if (1 + k) (get_or label.entry.now.snapshots k free)) }
{
    label.snapshots[k].name_length != 0 && 1 + k == usize::from(slot)
}

/// Whether one of two tests holds.
pub(crate) fn either(one: bool, other: bool) -> bool
    ensures { result ≡ (one || other) }
{
    one || other
}

/// Whether a volume has a snapshot with this map slot.
fn has_slot(label: &Label, slot: u8) -> bool
    requires long { length label.now.snapshots ≡ 24 }
    ensures { result ≡ is_some (snap_at (head_of label.entry.now) slot) }
{
    let mut any = false;
    for k in 0..24 {
        any = either(is_slot(label, k, slot), any);
    }
    any
}

/// Whether a parent's span is no greater.
fn has_room(label: &Label, parent: &Label) -> bool
    ensures { result ≡ nat_le parent.entry.now.span label.entry.now.span }
{
    parent.span <= label.span
}

/// Whether a volume is known and isn't being split.
#[tactic(auto, unfolding(fv_image::specs::Views::head_of))]
fn is_open(label: &Label) -> bool
    ensures { result ≡ ((head_of label.entry.now).known && not (is_splitting (head_of label.entry.now).base)) }
{
    if label.known != 1 {
        return false;
    }
    label.parent == 0 || label.splitting != 1
}

/// Whether both tests hold.
fn both(one: bool, other: bool) -> bool
    ensures { result ≡ (one && other) }
{
    one && other
}

/// Whether a parent can carry a volume.
fn carries_on(parent: &Label, label: &Label) -> bool
    requires long { length parent.now.snapshots ≡ 24 }
    ensures { result ≡ can_carry (head_of label.entry.now) (footing label.entry.now) (head_of parent.entry.now) }
{
    let there = has_slot(parent, label.base_slot);
    let rest = both(has_room(label, parent), is_open(parent));
    both(there, rest)
}

/// Whether the parent of a volume, if its label has its shape, can carry it.
fn carries(read: &Option<Result<Label, Shape>>, label: &Label) -> bool
    requires range { IsReadLabel read.now }
    ensures { result ≡ carried (head_in read.now) label.entry.now }
{
    match read {
        Some(Ok(parent)) => carries_on(parent, label),
        _ => true,
    }
}

/// Whether the volume of a slot, which has a base, can stand on it.
fn stands(labels: &[Option<Result<Label, Shape>>], slot: u8, label: &Label) -> bool
    requires long { length labels.now ≡ 64 }
    requires range { (s : ℕ) → IsReadLabel (get_or labels.now s None) }
    requires based { label.now.parent ≢ 0 }
    requires low { label.now.parent ≤ 64 }
    ensures { (y : Layout) → HasLabels y labels.now → result ≡ stands_on y slot (head_of label.entry.now) (footing label.entry.now) }
{
    let at = usize::from(label.parent - 1);
    let there = labels[at].is_some();
    let rest = both(carries(&labels[at], label), comes_to_end(labels, slot));
    both(there, rest)
}

/// A line of rule 3 of a label at `at` that has a base, where its volume can't stand on it.
fn based_lines(
    found: &mut Vec<Fault>,
    labels: &[Option<Result<Label, Shape>>],
    site: &Site,
    at: u64,
) -> Result<(), AllocError>
    requires long { length labels.now ≡ 64 }
    requires range { (s : ℕ) → IsReadLabel (get_or labels.now s None) }
    requires based { site.now.label.parent ≢ 0 }
    requires low { site.now.label.parent ≤ 64 }
    ensures { OnOk result ((y : Layout) → HasLabels y labels.now
        → found.new.items ≡ found.old.items ++ base_lines y site.now.slot at (head_of site.now.label)) }
{
    let firm = stands(labels, site.slot, &site.label);
    say_unless(found, firm, 3, at, 1, 0)?;
    Ok(())
}

/// A line of rule 3 of a label at `at`, where its volume has a base and can't stand on it.
#[tactic(auto, using(crate::proofs::Chain::no_base))]
pub(crate) fn base_lines(
    found: &mut Vec<Fault>,
    labels: &[Option<Result<Label, Shape>>],
    site: &Site,
    at: u64,
) -> Result<(), AllocError>
    requires long { length labels.now ≡ 64 }
    requires range { (s : ℕ) → IsReadLabel (get_or labels.now s None) }
    requires low { site.now.label.parent ≤ 64 }
    ensures { OnOk result ((y : Layout) → HasLabels y labels.now
        → found.new.items ≡ found.old.items ++ base_lines y site.now.slot at (head_of site.now.label)) }
{
    if site.label.parent == 0 {
        return Ok(());
    }
    based_lines(found, labels, site, at)?;
    Ok(())
}
