//! Rule 13: what a volume has of its own over its base, and what it rests on.

ghost use Rattle.std.specs.Prelude.{◌≡◌, ◌≤◌, ◌<◌, ◌++◌, ℕ, Bool, Ok, Some, count_by, length, IfSome, OnOk, option_copied, if◌then◌else◌};
ghost use Rattle.std.specs.List.{range_with_len};
ghost use Rattle.fv_faults.specs.Adding.{Adds};
ghost use Rattle.fv_faults.specs.FourthPass.{none_of, not_on_base, own_over_base};
ghost use Rattle.fv_image.specs.HintRules.{is_splitting};
ghost use Rattle.fv_image.specs.Views.{View, footing_of, head_of};
ghost use Rattle.fv_fourth_pass.specs.Based.{IsOver, copies, has_entry, is_copied, resting, rests_apart};

use fv_bits::BitMap;
use fv_codec::Label;
use fv_faults::{Fault, Lines};
use std::alloc::AllocError;

/// What one kind counts in the word of an entry.
const KIND: u32 = 16_777_216;

/// Whether a VVBN has an entry of its own, by the words of entries.
pub(crate) fn has_entry_at(row: &[u32], vvbn: usize) -> bool
    ensures { result ≡ has_entry row.now vvbn }
{
    if vvbn >= row.len() {
        return false;
    }
    row[vvbn] / KIND != 0
}

/// The same of a VVBN of a set.
fn has_entry(row: &[u32], vvbn: u32) -> bool
    ensures { result ≡ has_entry row.now vvbn }
{
    has_entry_at(row, vvbn as usize)
}

/// Whether a VVBN of the base has an entry of its own.
pub(crate) fn is_copied(base: &BitMap, row: &[u32], vvbn: u32) -> bool
    requires { vvbn < length base.now }
    ensures { result ≡ is_copied base.now row.now vvbn }
{
    base.get(vvbn) && has_entry(row, vvbn)
}

/// Whether a VVBN is reached, and has neither an entry of its own nor is of the base.
fn rests_apart(held: &BitMap, base: &BitMap, row: &[u32], vvbn: u32) -> bool
    requires held { vvbn < length held.now }
    requires base { vvbn < length base.now }
    ensures { result ≡ rests_apart held.now base.now row.now vvbn }
{
    held.get(vvbn) && !has_entry(row, vvbn) && !base.get(vvbn)
}

/// How many VVBNs of the base have an entry of their own.
#[tactic(auto, using(crate::proofs::Sums::counted_yes, crate::proofs::Sums::counted_no))]
fn count_copied(base: &BitMap, row: &[u32]) -> u32
    ensures { result ≡ count_by (is_copied base.now row.now) (range_with_len 0 (length base.now)) }
{
    let mut count = 0;
    for vvbn in 0..base.len() {
        if is_copied(base, row, vvbn) {
            count += 1;
        }
    }
    count
}

/// How many VVBNs are reached, and have neither an entry of their own nor are of the base.
#[tactic(auto, using(crate::proofs::Sums::counted_yes, crate::proofs::Sums::counted_no))]
fn count_resting(held: &BitMap, base: &BitMap, row: &[u32]) -> u32
    requires { length base.now ≡ length held.now }
    ensures { result ≡ count_by (rests_apart held.now base.now row.now) (range_with_len 0 (length held.now)) }
{
    let mut count = 0;
    for vvbn in 0..held.len() {
        if rests_apart(held, base, row, vvbn) {
            count += 1;
        }
    }
    count
}

/// How many VVBNs of the base have an entry of their own, none without a base.
fn copies(base: Option<&BitMap>, row: &[u32], span: u32) -> u32
    requires { IfSome (option_copied base) (λ set. length set ≡ span) }
    ensures { result ≡ copies (option_copied base.entry) row.now span }
{
    match base {
        Some(base) => count_copied(base, row),
        None => 0,
    }
}

/// How many VVBNs are reached, and have neither an entry of their own nor are of the base; none without a base.
fn resting(held: &BitMap, base: Option<&BitMap>, row: &[u32], span: u32) -> u32
    requires held { length held.now ≡ span }
    requires base { IfSome (option_copied base) (λ set. length set ≡ span) }
    ensures { result ≡ resting held.now (option_copied base.entry) row.now span }
{
    match base {
        Some(base) => count_resting(held, base, row),
        None => 0,
    }
}

/// Whether a volume is being split from its base.
pub(crate) fn is_splitting(label: &Label) -> bool
    ensures { result ≡ is_splitting (footing_of label.entry.now) }
{
    label.parent != 0 && label.splitting == 1
}

/// Notes a line of rule 13 where a number isn't 0.
#[tactic(auto, using(fv_faults::proofs::Adding::nothing_added))]
pub(crate) fn note_none(lines: &mut Lines, place: u64, found: u64) -> Result<(), AllocError>
    ensures { OnOk result (Adds (none_of place found) lines.old lines.new) }
{
    if found == 0 {
        return Ok(());
    }
    lines.note(Fault {
        rule: 13,
        block: place,
        want: 0,
        found,
    })
}

/// How many VVBNs of its base a volume has entries of its own under, which counts only where it isn't being split from it.
fn own_over_base(label: &Label, base: Option<&BitMap>, row: &[u32]) -> u32
    requires { IfSome (option_copied base) (λ set. length set ≡ label.now.span) }
    ensures { result ≡ (if is_splitting (footing_of label.entry.now) then 0
        else copies (option_copied base.entry) row.now label.entry.now.span) }
{
    if is_splitting(label) {
        0
    } else {
        copies(base, row, label.span)
    }
}

/// Notes the line of the entries of its own that a volume has over its base.
fn note_own_entries(
    label: &Label,
    base: Option<&BitMap>,
    row: &[u32],
    place: u64,
    lines: &mut Lines,
) -> Result<(), AllocError>
    requires { IfSome (option_copied base) (λ set. length set ≡ label.now.span) }
    ensures { OnOk result (Adds (none_of place (if is_splitting (footing_of label.entry.now) then 0
        else copies (option_copied base.entry) row.now label.entry.now.span)) lines.old lines.new) }
{
    note_none(lines, place, u64::from(own_over_base(label, base, row)))?;
    Ok(())
}

/// Notes the line of what a volume of so many VVBNs reaches beside its own entries and its base.
fn note_resting(
    held: &BitMap,
    base: Option<&BitMap>,
    row: &[u32],
    span: u32,
    place: u64,
    lines: &mut Lines,
) -> Result<(), AllocError>
    requires held { length held.now ≡ span }
    requires base { IfSome (option_copied base) (λ set. length set ≡ span) }
    ensures { OnOk result (Adds (none_of place (resting held.now (option_copied base.entry) row.now span)) lines.old lines.new) }
{
    note_none(lines, place, u64::from(resting(held, base, row, span)))?;
    Ok(())
}

/// Notes the lines of rule 13 (`docs/FORMAT.md`) on the base of the volume of a label: how many VVBNs of the base have an entry of the
/// volume's own, unless it is being split from it; and how many its roots reach that have no such entry and aren't of the base. `held`
/// has the VVBNs that its roots reach, `base` those that its base table reaches, where it has a base, and `row` the words of its entries
/// as the first pass reads them; `place` is that of the label.
///
/// The one error is want of memory. Costs two steps for each VVBN of a volume with a base.
pub fn note_base(
    label: &Label,
    held: &BitMap,
    base: Option<&BitMap>,
    row: &[u32],
    place: u64,
    lines: &mut Lines,
) -> Result<(), AllocError>
    requires held { length held.now ≡ label.now.span }
    requires base { IfSome (option_copied base) (λ set. length set ≡ label.now.span) }
    ensures { OnOk result ((w : View) (s : ℕ) → IsOver w s (head_of label.entry.now) held.now (option_copied base.entry) row.now
        → Adds (none_of place (own_over_base w s (head_of label.entry.now)) ++ none_of place (not_on_base w s (head_of label.entry.now)))
        lines.old lines.new) }
{
    note_own_entries(label, base, row, place, lines)?;
    note_resting(held, base, row, label.span, place, lines)?;
    Ok(())
}
