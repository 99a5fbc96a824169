//! What rules 9 and 10 say of a pointer by itself, along a walk without stops.

ghost use Rattle.std.specs.Prelude.{◌≡◌, ◌≤◌, Bool, flat_map, map, max, nat_le, IfOk, OnOk};
ghost use Rattle.fv_codec.specs.Fields.{in_range};
ghost use Rattle.fv_image.specs.ReachRules.{kind_of};
ghost use Rattle.fv_faults.specs.Adding.{Adds};
ghost use Rattle.fv_faults.specs.Lines.{expects, line, says, unless};
ghost use Rattle.fv_faults.specs.Met.{IsClean, met};
ghost use Rattle.fv_faults.specs.Walks.{steps};
ghost use Rattle.fv_walk.specs.Causes.{HasWalkCause};
ghost use Rattle.fv_walk.specs.Sights.{sight_of};
ghost use Rattle.fv_walk.specs.Visits.{item_of, rooted};
ghost use Rattle.fv_third_pass.specs.Judged.{greatest, judged_lines, kind_found, marks_in, own_lines};
ghost use Rattle.fv_third_pass.specs.Files.{levels_of};

use crate::files::note_file_levels;
use fv_codec::Pointer;
use fv_faults::{Fault, Lines};
use fv_walk::{Below, Both, Found, Source, Table, Visit, Visitor, WalkFault, walk};
use std::alloc::{AllocError, Global};

/// Notes what rules 9 and 10 say of each pointer that it is shown, by itself.
#[derive(Drop)]
pub(crate) struct Judge {
    /// Whether the table is one of the volume itself, and not its base table.
    pub own: bool,
    /// The volume's last stamp.
    pub last: u64,
    /// The lines that are noted.
    pub lines: Lines,
}

/// The kind of the block that a pointer leads to.
fn kind_of(visit: &Visit) -> u64
    ensures { result ≡ kind_of (item_of visit.now) }
{
    let level = u64::from(visit.level);
    if visit.owner == u64::MAX {
        5 + level.min(2)
    } else {
        1 + level
    }
}

/// The kind of the entry at which a VVBN is found, 0 for a hole.
fn kind_found(at: Option<Found>) -> u64
    ensures { result ≡ kind_found at }
{
    match at {
        Some(found) => u64::from(found.kind),
        None => 0,
    }
}

/// Notes a line of rule 9 where the entry has another kind than its block.
#[tactic(auto, using(fv_faults::proofs::Adding::nothing_added))]
fn note_kind(lines: &mut Lines, block: u64, want: u64, found: u64) -> Result<(), AllocError>
    ensures { OnOk result (Adds (expects 9 block want found) lines.old lines.new) }
{
    if want == found {
        return Ok(());
    }
    lines.note(Fault {
        rule: 9,
        block,
        want,
        found,
    })
}

/// The greatest stamp of some pointers, 0 of none.
fn greatest(pointers: &[Pointer]) -> u64
    ensures { result ≡ greatest pointers.now }
{
    let mut most = 0;
    for k in 0..pointers.len() {
        most = pointers[k].stamp.max(most);
    }
    most
}

/// Notes a line of rule 10 where a number passes a bound.
#[tactic(auto, using(fv_faults::proofs::Adding::nothing_added))]
fn note_past(lines: &mut Lines, block: u64, want: u64, found: u64) -> Result<(), AllocError>
    ensures { OnOk result (Adds (says 10 block (in_range 0 want found)) lines.old lines.new) }
{
    if found <= want {
        return Ok(());
    }
    lines.note(Fault {
        rule: 10,
        block,
        want,
        found,
    })
}

/// Notes a line of rule 10 where a mark is below the greatest stamp under it.
#[tactic(auto, using(fv_faults::proofs::Adding::nothing_added))]
fn note_under(lines: &mut Lines, block: u64, want: u64, found: u64) -> Result<(), AllocError>
    ensures { OnOk result (Adds (unless (nat_le want found) (line 10 block want found)) lines.old lines.new) }
{
    if want <= found {
        return Ok(());
    }
    lines.note(Fault {
        rule: 10,
        block,
        want,
        found,
    })
}

/// Notes the line of a mark, by what stands in the block to which it leads.
#[tactic(auto, using(fv_faults::proofs::Adding::nothing_added))]
fn note_mark(lines: &mut Lines, block: u64, stamp: u64, below: &Below) -> Result<(), AllocError>
    ensures { OnOk result (Adds (marks_in block stamp below.now) lines.old lines.new) }
{
    match below {
        Below::Node(node) => note_under(lines, block, greatest(&node.children), stamp),
        Below::Nothing => Ok(()),
        Below::Inodes(_) => Ok(()),
    }
}

/// Notes the lines of the levels of files, by what stands in the block to which a pointer leads.
#[tactic(auto, using(fv_faults::proofs::Adding::nothing_added))]
fn note_files(
    lines: &mut Lines,
    visit: &Visit,
    at: Option<Found>,
    below: &Below,
) -> Result<(), AllocError>
    ensures { OnOk result (Adds (levels_of (record { visit = visit.now; at = at; below = below.now })) lines.old lines.new) }
{
    let Some(found) = at else {
        return Ok(());
    };
    note_file_levels(lines, found.pvbn, below)
}

/// Notes what is said of a pointer in a table of the volume itself alone.
#[tactic(auto, using(fv_faults::proofs::Adding::nothing_added))]
fn note_own(
    lines: &mut Lines,
    own: bool,
    visit: &Visit,
    at: Option<Found>,
    below: &Below,
) -> Result<(), AllocError>
    ensures { OnOk result (Adds (own_lines own (record { visit = visit.now; at = at; below = below.now })) lines.old lines.new) }
{
    if !own {
        return Ok(());
    }
    note_kind(lines, visit.block, kind_of(visit), kind_found(at))?;
    note_mark(lines, visit.block, visit.pointer.stamp, below)?;
    note_files(lines, visit, at, below)?;
    Ok(())
}

impl Visitor for Judge {
    ghost use Rattle.fv_third_pass.specs.Judges.{Judges, judges_none, judges_on};

    ghost sees = { Judges };

    fn see(&mut self, visit: &Visit, at: Option<Found>, below: &Below) -> Result<(), AllocError> {
        note_own(&mut self.lines, self.own, visit, at, below)?;
        note_past(&mut self.lines, visit.block, self.last, visit.pointer.stamp)?;
        Ok(())
    }

    ghost sees_none = { judges_none };

    ghost sees_on = { judges_on };
}

/// What a walk along a table gives: the lines, and the visitor that was shown the same pointers.
#[derive(Drop)]
pub struct Walked<V> {
    /// The lines that were given, and those that are noted.
    pub lines: Lines,
    /// The visitor, with what it was shown.
    pub visitor: V,
}

/// Walks along the pointers of a table, whose root stands in the label at a place, and notes what rules 9 and 10 (`docs/FORMAT.md`) say of
/// each by itself: its entry has the kind of its block, no stamp is below one under it, the files whose records stand there have the levels
/// that their reserves ask for, and no stamp passes the volume's last. Of a base table (`own` is false) the last alone is said. The lines
/// come back with those that are noted. A visitor is shown the same pointers, and comes back too. The table is one of which the second
/// pass found nothing.
///
/// The one other error is want of memory; the lines and the visitor are gone at any. Costs what `walk` costs, and what the visitor takes.
pub fn judge_table<S: Source, V: Visitor + Drop>(
    alloc: Global,
    source: &mut S,
    visitor: V,
    lines: Lines,
    label: u64,
    table: &Table,
    own: bool,
    last: u64,
) -> Result<Walked<V>, WalkFault>
    requires { table.now.levels ≤ 3 }
    ensures adds { S.fits source.old → IfOk result (λ walked. IsClean (steps (S.volume source.old) label (rooted table.now))
        → Adds (judged_lines own last (steps (S.volume source.old) label (rooted table.now))) lines walked.lines) }
    ensures saw { S.fits source.old → IfOk result (λ walked. V.sees visitor
        (map (sight_of (S.volume source.old)) (met (S.volume source.old) label (rooted table.now))) walked.visitor) }
    ensures reads { S.reads source.old source.new }
    ensures cause { HasWalkCause (S.faults source.old) (S.faults source.new) result }
{
    let mut both = Both {
        first: Judge { own, last, lines },
        second: visitor,
    };
    walk(alloc, source, &mut both, label, table)?;
    Ok(Walked {
        lines: both.first.lines,
        visitor: both.second,
    })
}
