//! What rules 9 and 10 say of the tables of roots, with one walk for each.

ghost use Rattle.std.specs.Prelude.{◌≡◌, ◌≤◌, map, OnOk, IfOk};
ghost use Rattle.fv_faults.specs.Adding.{Adds};
ghost use Rattle.fv_faults.specs.Met.{IsClean, met};
ghost use Rattle.fv_faults.specs.Walks.{steps};
ghost use Rattle.fv_walk.specs.Causes.{HasWalkCause};
ghost use Rattle.fv_walk.specs.Sights.{sight_of};
ghost use Rattle.fv_walk.specs.Visits.{rooted};
ghost use Rattle.fv_third_pass.specs.TwinJudges.{Twins};
ghost use Rattle.fv_third_pass.specs.Volumes.{AreClean, AreFew, own_table, own_tables, shown};

use crate::files::note_table_levels;
use crate::judge::{Walked, judge_table};
use crate::lengths::LengthJudge;
use crate::roots::MapRoot;
use crate::twins::IdJudge;
use fv_faults::Lines;
use fv_walk::{Both, Source, Table, Visitor, WalkFault};
use std::alloc::{AllocError, Global};

/// Notes all lines that another judge has noted.
pub(crate) fn join_lines(lines: &mut Lines, others: Lines) -> Result<(), AllocError>
    ensures { OnOk result (Adds others.lines.keys lines.old lines.new) }
{
    let mut others = others;
    lines.lines.append(&mut others.lines)?;
    Ok(())
}

/// Notes what rules 9 and 10 (`docs/FORMAT.md`) say of the table of a root of a volume, whose root stands in the label at a place, by each
/// pointer and each file: kinds, stamps, lengths and levels. `last` is the volume's last stamp. The lines come back with those that are
/// noted. A visitor is shown the same pointers, and comes back too. The table is one of which the second pass found nothing.
///
/// The one other error is want of memory; the lines and the visitor are gone at any. Costs what `walk` costs, and what the visitor takes.
pub fn note_table<S: Source, V: Visitor + Drop>(
    alloc: Global,
    source: &mut S,
    visitor: V,
    lines: Lines,
    label: u64,
    table: &Table,
    last: u64,
) -> Result<Walked<V>, WalkFault>
    requires { table.now.levels ≤ 2 }
    ensures adds { S.fits source.old → IfOk result (λ walked. IsClean (steps (S.volume source.old) label (rooted table.now))
        → Adds (own_table label last (rooted table.now) (steps (S.volume source.old) label (rooted table.now))) lines walked.lines) }
    ensures saw { S.fits source.old → IfOk result (λ walked. V.sees visitor
        (map (sight_of (S.volume source.old)) (met (S.volume source.old) label (rooted table.now))) walked.visitor) }
    ensures reads { S.reads source.old source.new }
    ensures cause { HasWalkCause (S.faults source.old) (S.faults source.new) result }
{
    let both = Both {
        first: LengthJudge::new(alloc),
        second: visitor,
    };
    let walked = judge_table(alloc, source, both, lines, label, table, true, last)?;
    let mut all = walked.lines;
    let seen = walked.visitor;
    let judge = seen.first;
    join_lines(&mut all, judge.lines)?;
    note_table_levels(&mut all, label, table)?;
    Ok(Walked {
        lines: all,
        visitor: seen.second,
    })
}

/// Notes those of the tables of several roots, and shows their pointers to a judge of ids.
pub(crate) fn note_tables<S: Source>(
    alloc: Global,
    source: &mut S,
    judge: IdJudge,
    lines: Lines,
    label: u64,
    roots: &[MapRoot],
    last: u64,
) -> Result<Walked<IdJudge>, WalkFault>
    requires { AreFew roots.now }
    ensures adds { S.fits source.old → IfOk result (λ walked. AreClean (S.volume source.old) label roots.now
        → Adds (own_tables (S.volume source.old) label last roots.now) lines walked.lines) }
    ensures saw { S.fits source.old → IfOk result (λ walked. Twins judge (shown (S.volume source.old) label roots.now) walked.visitor) }
    ensures reads { S.reads source.old source.new }
    ensures cause { HasWalkCause (S.faults source.old) (S.faults source.new) result }
{
    let mut walked = Walked {
        lines,
        visitor: judge,
    };
    for k in 0..roots.len() {
        walked = note_table(
            alloc,
            source,
            walked.visitor,
            walked.lines,
            label,
            &roots[k].table,
            last,
        )?;
    }
    Ok(walked)
}
