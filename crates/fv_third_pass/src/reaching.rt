//! Rule 6 over the roots of a volume.

ghost use Rattle.std.specs.Prelude.{◌≡◌, ◌≤◌, ℕ, IsTrue, List, map, OnOk, option_copied};
ghost use Rattle.fv_image.specs.Views.{Head, Rooted, View};
ghost use Rattle.fv_faults.specs.Adding.{Adds};
ghost use Rattle.fv_faults.specs.ThirdPass.{reach_lines};
ghost use Rattle.fv_faults.specs.Walks.{Step};
ghost use Rattle.fv_first_pass.specs.Causes.{HasRead};
ghost use Rattle.fv_third_pass.specs.Maps.{HasWords};
ghost use Rattle.fv_third_pass.specs.Surveys.{IsVolumeSurvey};
ghost use Rattle.fv_third_pass.specs.Volumes.{AreReachIn, IsReachIn, map_lines, reach_at, root_of};

use crate::survey::VolumeSurvey;
use crate::volume_map::{VolumeMap, note_reach};
use fv_bits::BitMap;
use fv_disk::Disk;
use fv_faults::Lines;
use fv_first_pass::CheckFault;

/// Notes the lines of rule 6 of the map of a root, by what the root reaches, as the second pass tells it.
pub(crate) fn note_root_map<D: Disk>(
    disk: &mut D,
    row: &[u32],
    map: VolumeMap,
    reach: Option<&BitMap>,
    lines: &mut Lines,
) -> Result<(), CheckFault>
    requires { map.span ≤ 1048576 }
    ensures adds { IsTrue (D.shown disk.old).tells
        → OnOk result ((w : View) (s : ℕ) (h : Head) (ss : List Step) → h.span ≡ map.span → HasWords (D.shown disk.old).reads w s row.now
        → IsReachIn map.span ss (option_copied reach.entry) → Adds (reach_lines w s h map.slot ss) lines.old lines.new) }
    ensures read { HasRead (D.shown disk.old) (D.shown disk.new) result }
{
    let Some(reach) = reach else {
        return Ok(());
    };
    if reach.len() != map.span {
        return Ok(());
    }
    note_reach(disk, row, map, reach, lines)
}

/// Notes those of the maps of all roots of a volume.
#[tactic(auto, using(fv_disk::proofs::Resting::reads_then))]
pub(crate) fn note_root_maps<D: Disk>(
    disk: &mut D,
    row: &[u32],
    volume: &VolumeSurvey<'_>,
    lines: &mut Lines,
) -> Result<(), CheckFault>
    requires { IsVolumeSurvey volume.now }
    ensures adds { IsTrue (D.shown disk.old).tells
        → OnOk result ((w : View) (s : ℕ) (h : Head) (of : ℕ × Rooted → List Step) → h.span ≡ volume.now.label.now.span
        → HasWords (D.shown disk.old).reads w s row.now
        → AreReachIn volume.now.label.now.span of (reach_at volume.now.survey.now.reached.now volume.now.slot) (map root_of volume.now.roots.now)
        → Adds (map_lines w s h of (map root_of volume.now.roots.now)) lines.old lines.new) }
    ensures read { HasRead (D.shown disk.old) (D.shown disk.new) result }
{
    let reached = volume.survey.reached;
    let roots = volume.roots;
    for k in 0..roots.len() {
        let map = VolumeMap {
            span: volume.label.span,
            slot: roots[k].slot,
        };
        note_root_map(disk, row, map, reached.of(volume.slot, map.slot), lines)?;
    }
    Ok(())
}
