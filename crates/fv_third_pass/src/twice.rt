//! Rule 7: no block is held twice.

ghost use Rattle.std.specs.Prelude.{◌≡◌, length, nat_le, OnOk};
ghost use Rattle.fv_image.specs.Held.{Layout};
ghost use Rattle.fv_faults.specs.Adding.{Adds};
ghost use Rattle.fv_faults.specs.Lines.{line, unless};
ghost use Rattle.fv_faults.specs.ThirdPass.{twice_held};
ghost use Rattle.fv_third_pass.specs.Bits.{twice_to};
ghost use Rattle.fv_third_pass.specs.Counted.{IsCounted};

use crate::holders::Holders;
use fv_faults::{Fault, Lines};
use std::alloc::AllocError;

/// Notes the line of a block that is held more than once.
fn note_times(lines: &mut Lines, block: u32, times: u64) -> Result<(), AllocError>
    ensures { OnOk result (Adds (unless (nat_le times 1) (line 7 block 1 times)) lines.old lines.new) }
{
    if times <= 1 {
        return Ok(());
    }
    lines.note(Fault {
        rule: 7,
        block: u64::from(block),
        want: 1,
        found: times,
    })
}

/// Notes those of all blocks.
#[tactic(auto, using(crate::proofs::Noting::range_first, crate::proofs::Noting::range_next), unfolding(crate::specs::Bits::twice_to))]
fn note_all(holders: &Holders, lines: &mut Lines) -> Result<(), AllocError>
    ensures { OnOk result (Adds (twice_to holders.now (length holders.now.held)) lines.old lines.new) }
{
    for block in 0..holders.held.len() {
        note_times(lines, block, holders.times(block))?;
    }
    Ok(())
}

/// Notes a line of rule 7 for each block that is held more than once (`docs/FORMAT.md`). The one error is want of memory. It goes over all
/// blocks once.
#[tactic(auto, using(crate::proofs::Repeated::twice_added))]
pub fn note_twice(holders: &Holders, lines: &mut Lines) -> Result<(), AllocError>
    ensures { OnOk result ((y : Layout) → IsCounted y holders.now → Adds (twice_held y) lines.old lines.new) }
{
    note_all(holders, lines)?;
    Ok(())
}
