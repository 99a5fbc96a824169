//! Rule 2 of spans.

ghost use Rattle.std.specs.Prelude.{◌≡◌, ℕ, OnOk};
ghost use Rattle.std.specs.FinSet as set;
ghost use Rattle.fv_model.specs.Space.{base_ids};
ghost use Rattle.fv_image.specs.Views.{View, head_of};
ghost use Rattle.fv_image.specs.Volumes.{volume_told};
ghost use Rattle.fv_faults.specs.Adding.{Adds};
ghost use Rattle.fv_faults.specs.ThirdPass.{span_lines};
ghost use Rattle.fv_third_pass.specs.Maps.{room_lines};

use fv_codec::Label;
use fv_faults::{Fault, Lines};
use std::alloc::AllocError;

/// How many VVBNs a span has beside those that the volume and its base may take at once.
const SPARE: u64 = 256;

/// Notes a line of rule 2 where a span is below the greatest size of its volume, so many ids of its base and 256 more.
#[tactic(auto, using(fv_faults::proofs::Adding::nothing_added))]
fn note_room(lines: &mut Lines, at: u64, most: u32, ids: u32, span: u32) -> Result<(), AllocError>
    ensures { OnOk result (Adds (room_lines at most ids span) lines.old lines.new) }
{
    let want = u64::from(most) + (u64::from(ids) + SPARE);
    let found = u64::from(span);
    if want <= found {
        return Ok(());
    }
    lines.note(Fault {
        rule: 2,
        block: at,
        want,
        found,
    })
}

/// Notes the line of rule 2 of a volume whose span is too small for its greatest size, its base and 256 VVBNs more (`docs/FORMAT.md`), said
/// of the label's block, which is `at`. `ids` is how many ids the blocks of its base have, 0 without a base. The one error is want of
/// memory.
pub fn note_span(lines: &mut Lines, label: &Label, at: u64, ids: u32) -> Result<(), AllocError>
    ensures { OnOk result ((w : View) (s : ℕ) → set.len (base_ids (volume_told w s (head_of label.entry.now)).base) ≡ ids
        → Adds (span_lines w s at (head_of label.entry.now)) lines.old lines.new) }
{
    note_room(lines, at, label.most, ids, label.span)?;
    Ok(())
}
