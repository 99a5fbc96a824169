//! What the third pass says of one volume.

ghost use Rattle.std.specs.Prelude.{◌≡◌, ◌≤◌, ◌<◌, ◌++◌, List, IsTrue, Some, None, flat_map, length, IfOk, IfSome};
ghost use Rattle.std.specs.Option.{option_map};
ghost use Rattle.fv_disk.specs.DiskCalls.{OnlyReads};
ghost use Rattle.fv_codec.specs.Blocks.{IsLabel};
ghost use Rattle.fv_image.specs.Views.{head_of};
ghost use Rattle.fv_image.specs.Volumes.{snap_at};
ghost use Rattle.fv_faults.specs.Adding.{Adds};
ghost use Rattle.fv_faults.specs.Met.{IsClean};
ghost use Rattle.fv_faults.specs.ThirdPass.{stamp_lines};
ghost use Rattle.fv_faults.specs.Walks.{steps};
ghost use Rattle.fv_first_pass.specs.Causes.{HasRead};
ghost use Rattle.fv_walk.specs.declared.visit.Visit.{Visit};
ghost use Rattle.fv_walk.specs.Causes.{HasWalkCause};
ghost use Rattle.fv_walk.specs.Visits.{rooted};
ghost use Rattle.fv_third_pass.specs.Surveys.{HasRange, IsLabelledAt, IsVolumeOf, IsVolumeSurvey, ground_of, label_place, tables_said, visits_in};
ghost use Rattle.fv_third_pass.specs.Twinned.{HasSeen, twin_lines};
ghost use Rattle.fv_third_pass.specs.Volumes.{shown_one};

use crate::ids::{judge_base, judge_own};
use crate::survey::{Survey, VolumeSurvey};
use crate::twins::IdJudge;
use fv_codec::Label;
use fv_disk::Disk;
use fv_faults::Lines;
use fv_first_pass::CheckFault;
use fv_second_pass::VolumeSource;
use fv_walk::{Table, WalkFault};
use std::alloc::Global;

/// The table of the snapshot in a map slot of a parent, 1 to 24, if there is one.
#[tactic(auto, using(crate::proofs::SnapTables::free_table, crate::proofs::SnapTables::used_table))]
pub fn snap_table(parent: &Label, slot: u8) -> Option<Table>
    requires label { IsLabel parent.now }
    requires long { length parent.now.snapshots ≡ 24 }
    ensures table { 1 ≤ slot → slot ≤ 24 → option_map rooted result ≡ option_map (λ p. p.table) (snap_at (head_of parent.entry.now) slot) }
    ensures levels { IfSome result (λ table. table.levels ≤ 2) }
{
    if slot == 0 || slot > 24 {
        return None;
    }
    let snapshot = &parent.snapshots[usize::from(slot) - 1];
    if snapshot.name_length == 0 {
        return None;
    }
    Some(Table {
        levels: snapshot.levels,
        root: snapshot.root,
    })
}

/// Notes what is said of the tables of the roots of a volume, and of the ids in them. Walks along each once.
pub(crate) fn note_own<D: Disk>(
    alloc: Global,
    disk: &mut D,
    volume: &VolumeSurvey<'_>,
    lines: Lines,
) -> Result<IdJudge, CheckFault>
    requires { IsVolumeSurvey volume.now }
    ensures seen { IsTrue (D.shown disk.old).tells → IfOk result (λ judge.
        IsVolumeOf volume.now (D.shown disk.old).reads → HasSeen (visits_in volume.now (D.shown disk.old).reads) judge) }
    ensures adds { IsTrue (D.shown disk.old).tells → IfOk result (λ judge.
        IsVolumeOf volume.now (D.shown disk.old).reads → Adds (tables_said volume.now (D.shown disk.old).reads) lines judge.lines) }
    ensures read { HasRead (D.shown disk.old) (D.shown disk.new) result }
{
    let mut source = VolumeSource {
        disk,
        root: volume.survey.root,
        known: volume.survey.known,
        slot: volume.slot,
        span: volume.label.span,
    };
    match judge_own(
        alloc,
        &mut source,
        lines,
        volume.at,
        volume.roots,
        volume.label.now,
    ) {
        Ok(judge) => Ok(judge),
        Err(WalkFault::DiskFault) => Err(CheckFault::DiskFault),
        Err(WalkFault::Memory) => Err(CheckFault::Memory),
    }
}

/// Walks along the base table of a volume, which is one of the volume of a slot, its parent, and notes what is said of its ids and stamps.
pub(crate) fn walk_base<D: Disk>(
    alloc: Global,
    disk: &mut D,
    survey: &Survey<'_, '_, '_>,
    slot: u8,
    parent: &Label,
    table: &Table,
    judge: IdJudge,
    last: u64,
) -> Result<Lines, WalkFault>
    requires range { HasRange survey.now }
    requires slot { slot < 64 }
    requires levels { table.now.levels ≤ 2 }
    ensures adds { IsTrue (D.shown disk.old).tells
        → IsLabelledAt survey.now (D.shown disk.old).reads slot parent.entry.now
        → IfOk result (λ lines. (done : List Visit) → HasSeen done judge
        → IsClean (steps (ground_of survey.now (D.shown disk.old).reads slot parent.entry.now)
        (label_place survey.now slot) (rooted table.now))
        → Adds (twin_lines done (shown_one
        (ground_of survey.now (D.shown disk.old).reads slot parent.entry.now)
        (label_place survey.now slot) (rooted table.now))
        ++ flat_map (stamp_lines last) (steps
        (ground_of survey.now (D.shown disk.old).reads slot parent.entry.now)
        (label_place survey.now slot) (rooted table.now))) judge.lines lines) }
    ensures only_reads { OnlyReads (D.shown disk.old) (D.shown disk.new) }
    ensures cause { HasWalkCause (D.shown disk.old).faults (D.shown disk.new).faults result }
{
    let at = u64::from(survey.root.root.labels[usize::from(slot)]);
    let mut source = VolumeSource {
        disk,
        root: survey.root,
        known: survey.known,
        slot,
        span: parent.span,
    };
    judge_base(alloc, &mut source, judge, at, table, last)
}
