//! Rule 14: a volume uses at most its size.

ghost use Rattle.std.specs.Prelude.{◌≡◌, ◌≤◌, ◌^◌, ℕ, Ok, Some, count_by, length, IfSome, OnOk, option_copied};
ghost use Rattle.fv_faults.specs.Adding.{Adds};
ghost use Rattle.fv_faults.specs.FourthPass.{use_lines};
ghost use Rattle.fv_first_pass.specs.Heads.{IsReadLabel};
ghost use Rattle.fv_image.specs.Views.{View, head_of, kind_named};
ghost use Rattle.fv_image.specs.Volumes.{volume_told};
ghost use Rattle.fv_model.specs.Space.{charge, need, use_of};
ghost use Rattle.fv_fourth_pass.specs.Used.{is_used, HasSets};

use crate::space::note_most;
use fv_bits::BitMap;
use fv_charge::Ledger;
use fv_codec::{Label, SnapRecord};
use fv_faults::Lines;
use fv_model::Kind;
use std::alloc::AllocError;

/// How many of some records name a snapshot.
#[tactic(auto, using(std::proofs::lemmas::List::Sums::count_by_more_yes, std::proofs::lemmas::List::Sums::count_by_more_no))]
fn used_records(records: &[SnapRecord]) -> u32
    requires { length records.now ≤ 24 }
    ensures exact { result ≡ count_by is_used records.now }
    ensures most { result ≤ 24 }
{
    let mut count = 0;
    for k in 0..records.len() {
        if records[k].name_length != 0 {
            count += 1;
        }
    }
    count
}

/// The kind of a space guarantee by its number in a label.
fn kind_named(kind: u8) -> Kind
    ensures { result ≡ kind_named kind }
{
    match kind {
        0 => Kind::Volume,
        1 => Kind::File,
        _ => Kind::Thin,
    }
}

/// How many blocks the volume of a label is charged for. `held` has the VVBNs that its roots reach, `out` those that its base table
/// reaches; there is no `out` where the volume has no base or is being split from it.
///
/// Costs a step for each word of `held`, and with `out` for each VVBN. Takes no memory.
pub fn count_charge(label: &Label, held: &BitMap, out: Option<&BitMap>) -> u32
    requires label { IsReadLabel (Some (Ok label.now)) }
    requires held { length held.now ≡ label.now.span }
    requires out { IfSome (option_copied out) (λ set. length set ≡ label.now.span) }
    ensures { (w : View) (s : ℕ) → HasSets w s (head_of label.entry.now) held.now (option_copied out.entry)
        → result ≡ charge (volume_told w s (head_of label.entry.now)) }
{
    let ledger = Ledger::counted(
        held,
        out,
        used_records(&label.snapshots),
        0,
        label.span,
        label.size,
        kind_named(label.kind),
    );
    ledger.charge
}

/// How many blocks the volume of a label uses, by the same sets. `needed` is the number of blocks that the reserves of its files still
/// need.
///
/// Costs what `count_charge` costs. Takes no memory.
pub fn count_used(label: &Label, held: &BitMap, out: Option<&BitMap>, needed: u64) -> u64
    requires label { IsReadLabel (Some (Ok label.now)) }
    requires held { length held.now ≡ label.now.span }
    requires out { IfSome (option_copied out) (λ set. length set ≡ label.now.span) }
    requires needed { needed ≤ 2 ^ 55 }
    ensures exact { (w : View) (s : ℕ) → HasSets w s (head_of label.entry.now) held.now (option_copied out.entry)
        → needed ≡ need (volume_told w s (head_of label.entry.now)) → result ≡ use_of (volume_told w s (head_of label.entry.now)) }
    ensures most { result ≤ 2 ^ 56 }
{
    u64::from(count_charge(label, held, out)) + needed
}

/// Notes the line of rule 14 (`docs/FORMAT.md`) on the blocks that the volume of a label uses; `place` is that of the label. The one
/// error is want of memory. Costs a step.
pub fn note_use(label: &Label, used: u64, place: u64, lines: &mut Lines) -> Result<(), AllocError>
    ensures { OnOk result ((w : View) (s : ℕ) → used ≡ use_of (volume_told w s (head_of label.entry.now))
        → Adds (use_lines w s place (head_of label.entry.now)) lines.old lines.new) }
{
    note_most(lines, place, u64::from(label.size), used)?;
    Ok(())
}
