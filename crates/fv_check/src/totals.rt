//! How many volumes there are, and what they are charged together.

ghost use Rattle.std.specs.Prelude.{◌≡◌, ◌≤◌, ◌<◌, ◌+◌, ℕ, length, OnOk, IfOk};
ghost use Rattle.fv_disk.specs.Shown.{Image};
ghost use Rattle.fv_third_pass.specs.Surveys.{HasRange, layout_of};
ghost use Rattle.fv_fourth_pass.specs.Silent.{IsSilentOf};
ghost use Rattle.fv_check.specs.Judged.{AreFewTotals, AreTotals};

use fv_fourth_pass::charge_of;
use fv_third_pass::{Survey, label_of};
use std::alloc::{AllocError, Global};

/// The volumes of the first slots.
#[derive(Clone, Copy, Debug, PartialEq, Eq)]
pub(crate) struct Totals {
    /// How many there are.
    pub volumes: u32,
    /// The sum of what they are charged, in blocks.
    pub charged: u64,
}

/// Adds the volume of a slot, if it has one.
fn add_slot(
    alloc: Global,
    survey: &Survey<'_, '_, '_>,
    slot: u8,
    totals: &mut Totals,
) -> Result<(), AllocError>
    requires range { HasRange survey.now }
    requires slot { slot < 64 }
    requires few { AreFewTotals slot totals.old }
    ensures few { OnOk result (AreFewTotals (slot + 1) totals.new) }
    ensures exact { OnOk result ((i : Image) → ((b : ℕ) → length (i b) ≡ 4096) → IsSilentOf survey.now i
        → AreTotals (layout_of survey.now i).view slot totals.old → AreTotals (layout_of survey.now i).view (slot + 1) totals.new) }
{
    let Some(label) = label_of(survey.known, slot) else {
        return Ok(());
    };
    let charge = charge_of(alloc, survey.reached, slot, label)?;
    totals.charged += u64::from(charge);
    totals.volumes += 1;
    Ok(())
}

/// The volumes of all slots, in an aggregate in which the first three passes found nothing. The one error is want of memory.
pub(crate) fn count_totals(alloc: Global, survey: &Survey<'_, '_, '_>) -> Result<Totals, AllocError>
    requires { HasRange survey.now }
    ensures { (i : Image) → ((b : ℕ) → length (i b) ≡ 4096) → IsSilentOf survey.now i
        → IfOk result (AreTotals (layout_of survey.now i).view 64) }
{
    let mut totals = Totals {
        volumes: 0,
        charged: 0,
    };
    for slot in 0..64u8 {
        add_slot(alloc, survey, slot, &mut totals)?;
    }
    Ok(totals)
}
