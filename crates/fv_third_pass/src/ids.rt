//! Rules 9 and 10 over the tables of a volume and of its base.

ghost use Rattle.std.specs.Prelude.{◌≡◌, ◌≤◌, ◌++◌, [], List, flat_map, IfOk};
ghost use Rattle.fv_faults.specs.Adding.{Adds};
ghost use Rattle.fv_faults.specs.Met.{IsClean};
ghost use Rattle.fv_faults.specs.ThirdPass.{stamp_lines};
ghost use Rattle.fv_faults.specs.Walks.{steps};
ghost use Rattle.fv_walk.specs.declared.visit.Visit.{Visit};
ghost use Rattle.fv_walk.specs.Causes.{HasWalkCause};
ghost use Rattle.fv_walk.specs.Visits.{rooted};
ghost use Rattle.fv_third_pass.specs.Twinned.{HasSeen, twin_lines, visits};
ghost use Rattle.fv_third_pass.specs.Volumes.{AreClean, AreFew, own_tables, shown, shown_one};

use crate::judge::judge_table;
use crate::roots::MapRoot;
use crate::tables::{join_lines, note_tables};
use crate::twins::IdJudge;
use fv_faults::Lines;
use fv_walk::{Source, Table, WalkFault};
use std::alloc::Global;

/// Notes what is said of the tables of a volume's roots, whose pointers stand in the label at a place, and of the ids in them. Answers the
/// judge that saw them, with the lines. Walks along each table once.
pub(crate) fn judge_own<S: Source>(
    alloc: Global,
    source: &mut S,
    lines: Lines,
    label: u64,
    roots: &[MapRoot],
    last: u64,
) -> Result<IdJudge, WalkFault>
    requires { AreFew roots.now }
    ensures seen { S.fits source.old → IfOk result (HasSeen (visits (shown (S.volume source.old) label roots.now))) }
    ensures adds { S.fits source.old → IfOk result (λ judge. AreClean (S.volume source.old) label roots.now
        → Adds (own_tables (S.volume source.old) label last roots.now
        ++ twin_lines [] (visits (shown (S.volume source.old) label roots.now))) lines judge.lines) }
    ensures reads { S.reads source.old source.new }
    ensures cause { HasWalkCause (S.faults source.old) (S.faults source.new) result }
{
    let fresh = IdJudge::new(alloc, Lines::new(alloc));
    let walked = note_tables(alloc, source, fresh, lines, label, roots, last)?;
    let judge = walked.visitor;
    let mut all = walked.lines;
    join_lines(&mut all, judge.lines)?;
    Ok(IdJudge {
        ids: judge.ids,
        vvbns: judge.vvbns,
        lines: all,
    })
}

/// Notes what is said of the base table of a volume: its ids, by a judge that saw the volume's own tables, and stamps above the volume's
/// last. Walks along it once.
pub(crate) fn judge_base<S: Source>(
    alloc: Global,
    source: &mut S,
    judge: IdJudge,
    label: u64,
    table: &Table,
    last: u64,
) -> Result<Lines, WalkFault>
    requires { table.now.levels ≤ 2 }
    ensures adds { S.fits source.old → IfOk result (λ lines. (done : List Visit) → HasSeen done judge
        → IsClean (steps (S.volume source.old) label (rooted table.now))
        → Adds (twin_lines done (shown_one (S.volume source.old) label (rooted table.now))
        ++ flat_map (stamp_lines last) (steps (S.volume source.old) label (rooted table.now))) judge.lines lines) }
    ensures reads { S.reads source.old source.new }
    ensures cause { HasWalkCause (S.faults source.old) (S.faults source.new) result }
{
    let walked = judge_table(
        alloc,
        source,
        judge,
        Lines::new(alloc),
        label,
        table,
        false,
        last,
    )?;
    let judge = walked.visitor;
    let mut lines = judge.lines;
    join_lines(&mut lines, walked.lines)?;
    Ok(lines)
}
