//! Rule 14: what all volumes commit fits the capacity, and there is room for consistency points.

ghost use Rattle.std.specs.Prelude.{◌≡◌, ◌≤◌, ◌^◌, ℕ, None, get_or, nat_le, OnOk};
ghost use Rattle.fv_faults.specs.Adding.{Adds};
ghost use Rattle.fv_faults.specs.FourthPass.{commit_lines, room_lines};
ghost use Rattle.fv_faults.specs.Lines.{line, unless};
ghost use Rattle.fv_first_pass.specs.Heads.{HasLabels, IsReadLabel};
ghost use Rattle.fv_image.specs.Held.{Layout};
ghost use Rattle.fv_image.specs.Views.{delayed, own};
ghost use Rattle.fv_root.specs.Formatted.{IsSize};
ghost use Rattle.fv_fourth_pass.specs.Spaced.{HasUses};

use crate::numbers::{commits, overheads};
use fv_codec::{Label, Shape};
use fv_faults::{Fault, Lines};
use fv_root::{capacity, first_block};
use std::alloc::AllocError;

/// Which entries of all volumes lead to blocks, as numbers of entries.
#[derive(Clone, Copy, Debug, PartialEq, Eq)]
pub struct Filled {
    /// Those that are the volumes' own: they are held, and aren't blocks of an active map.
    pub own: u64,
    /// Those that are delayed: no map holds them.
    pub delayed: u64,
}

/// Notes a line of rule 14 where a number is below the least that is wanted.
#[tactic(auto, using(fv_faults::proofs::Adding::nothing_added))]
fn note_least(lines: &mut Lines, root: u64, want: u64, found: u64) -> Result<(), AllocError>
    ensures { OnOk result (Adds (unless (nat_le want found) (line 14 root want found)) lines.old lines.new) }
{
    if want <= found {
        return Ok(());
    }
    lines.note(Fault {
        rule: 14,
        block: root,
        want,
        found,
    })
}

/// Notes a line of rule 14 where a number passes the greatest that is wanted.
#[tactic(auto, using(fv_faults::proofs::Adding::nothing_added))]
pub(crate) fn note_most(
    lines: &mut Lines,
    block: u64,
    want: u64,
    found: u64,
) -> Result<(), AllocError>
    ensures { OnOk result (Adds (unless (nat_le found want) (line 14 block want found)) lines.old lines.new) }
{
    if found <= want {
        return Ok(());
    }
    lines.note(Fault {
        rule: 14,
        block,
        want,
        found,
    })
}

/// Notes the line of rule 14 (`docs/FORMAT.md`) on the blocks that all volumes commit of an aggregate of so many blocks. `labels` are
/// those of all slots as the first pass reads them, `uses` the blocks that the volume of each slot uses, and `root` is the place of the
/// root.
///
/// The one error is want of memory. Costs a step for each slot.
pub fn note_commits(
    blocks: u32,
    labels: &[Option<Result<Label, Shape>>],
    uses: &[u64],
    root: u64,
    lines: &mut Lines,
) -> Result<(), AllocError>
    requires size { IsSize blocks }
    requires labels { (s : ℕ) → IsReadLabel (get_or labels.now s None) }
    requires uses { (s : ℕ) → get_or uses.now s 0 ≤ 2 ^ 56 }
    ensures { OnOk result ((y : Layout) → HasLabels y labels.now → y.view.blocks ≡ blocks → HasUses y.view uses.now
        → Adds (commit_lines root y.view) lines.old lines.new) }
{
    note_most(
        lines,
        root,
        u64::from(capacity(blocks)),
        commits(labels, uses),
    )?;
    Ok(())
}

/// Notes the line of rule 14 (`docs/FORMAT.md`) on the room for consistency points, in an aggregate of so many blocks. `labels` are those
/// of all slots as the first pass reads them, `filled` tells which entries lead to blocks, and `root` is the place of the root.
///
/// The one error is want of memory. Costs a step for each slot.
pub fn note_room(
    blocks: u32,
    labels: &[Option<Result<Label, Shape>>],
    filled: Filled,
    root: u64,
    lines: &mut Lines,
) -> Result<(), AllocError>
    requires size { IsSize blocks }
    requires labels { (s : ℕ) → IsReadLabel (get_or labels.now s None) }
    ensures { OnOk result ((y : Layout) → HasLabels y labels.now → y.view.blocks ≡ blocks → filled.own ≡ own y.view
        → filled.delayed ≡ delayed y.view → Adds (room_lines root y.view) lines.old lines.new) }
{
    let volume_blocks = u64::from(blocks - first_block(blocks));
    let left = volume_blocks
        .saturating_sub(filled.own)
        .saturating_sub(filled.delayed);
    note_least(lines, root, 2 * overheads(labels) + 256, left)?;
    Ok(())
}
