//! The third pass: held blocks, the aggregate map, and slot by slot what is said of a volume.

ghost use Rattle.std.specs.Prelude.{◌≡◌, ◌<◌, List, IsTrue, Some, Ok, None, get_or, length, IfOk, IfSome};
ghost use Rattle.std.specs.Option.{option_map};
ghost use Rattle.fv_codec.specs.Blocks.{IsLabel};
ghost use Rattle.fv_image.specs.Views.{head_of};
ghost use Rattle.fv_faults.specs.Adding.{Adds};
ghost use Rattle.fv_faults.specs.ThirdPass.{third_pass, volume_lines};
ghost use Rattle.fv_first_pass.specs.Causes.{HasRead};
ghost use Rattle.fv_walk.specs.declared.visit.Visit.{Visit};
ghost use Rattle.fv_second_pass.specs.Told.{IsKnown};
ghost use Rattle.fv_third_pass.specs.Counted.{label_of, words_of};
ghost use Rattle.fv_third_pass.specs.Surveys.{HasRange, IsSurveyAt, IsSurveyOf, IsVolumeOf, IsVolumeSurvey, Passes, base_said_in, label_place, layout_of, maps_said};
ghost use Rattle.fv_third_pass.specs.Twinned.{HasSeen};
ghost use Rattle.fv_third_pass.specs.Volumes.{slot_lines, slots_to};

use crate::alone::{is_alone, note_alone};
use crate::bases::count_base_ids;
use crate::counting::{count_holders, words_in};
use crate::map::note_map;
use crate::reaching::note_root_maps;
use crate::roots::roots_of;
use crate::span::note_span;
use crate::survey::{Survey, VolumeSurvey};
use crate::twice::note_twice;
use crate::twins::IdJudge;
use crate::volume::{note_own, snap_table, walk_base};
use crate::volume_map::note_map_kinds;
use fv_codec::Label;
use fv_disk::Disk;
use fv_faults::Lines;
use fv_first_pass::{CheckFault, Known};
use fv_walk::WalkFault;
use std::alloc::Global;

/// The label of a slot, where it has one with its shape. Costs one step.
pub fn label_of(known: &Known, slot: u8) -> Option<&Label>
    requires { IsKnown known.now }
    ensures label { option_map (λ label. label.now) result ≡ label_of (get_or known.now.labels.items slot None) }
    ensures range { IfSome result (λ label. IsLabel label.now × (length label.now.snapshots ≡ 24)) }
{
    let at = usize::from(slot);
    if at >= known.labels.len() {
        return None;
    }
    match &known.labels[at] {
        Some(Ok(label)) => Some(label),
        _ => None,
    }
}

/// The words of the entries of a slot, as the first pass reads them; where there is no row, there are none. Costs one step.
pub fn row_of(known: &Known, slot: u8) -> &[u32]
    ensures { result.now ≡ words_of (get_or known.now.rows.items slot None) }
{
    words_in(&known.rows, usize::from(slot))
}

/// Notes what is said of the span and of the maps of a volume.
fn note_maps<D: Disk>(
    disk: &mut D,
    volume: &VolumeSurvey<'_>,
    lines: Lines,
) -> Result<Lines, CheckFault>
    requires { IsVolumeSurvey volume.now }
    ensures { Passes (D.shown disk.old) (D.shown disk.new) (IsVolumeOf volume.now) (maps_said volume.now) lines result }
{
    let survey = volume.survey;
    let label = volume.label;
    let row = row_of(survey.known, volume.slot);
    let mut noted = lines;
    note_span(
        &mut noted,
        label,
        volume.at,
        count_base_ids(survey.reached, label),
    )?;
    note_map_kinds(row, label, volume.at, &mut noted)?;
    note_root_maps(disk, row, volume, &mut noted)?;
    Ok(noted)
}

/// Notes what is said of the base table of a volume, by a judge that saw the volume's own tables.
fn note_base<D: Disk>(
    alloc: Global,
    disk: &mut D,
    volume: &VolumeSurvey<'_>,
    judge: IdJudge,
) -> Result<Lines, CheckFault>
    requires { IsVolumeSurvey volume.now }
    ensures adds { IsTrue (D.shown disk.old).tells → IfOk result (λ lines. (done : List Visit) → HasSeen done judge
        → IsVolumeOf volume.now (D.shown disk.old).reads
        → Adds (base_said_in volume.now (D.shown disk.old).reads done) judge.lines lines) }
    ensures read { HasRead (D.shown disk.old) (D.shown disk.new) result }
{
    let label = volume.label;
    if label.parent == 0 {
        return Ok(judge.lines);
    }
    let survey = volume.survey;
    let slot = label.parent - 1;
    let Some(parent) = label_of(survey.known, slot) else {
        return Ok(judge.lines);
    };
    let Some(table) = snap_table(parent, label.base_slot) else {
        return Ok(judge.lines);
    };
    match walk_base(alloc, disk, survey, slot, parent, &table, judge, label.now) {
        Ok(lines) => Ok(lines),
        Err(WalkFault::DiskFault) => Err(CheckFault::DiskFault),
        Err(WalkFault::Memory) => Err(CheckFault::Memory),
    }
}

/// Notes what is said of the volume of a label in a slot.
fn note_volume<D: Disk>(
    alloc: Global,
    disk: &mut D,
    survey: &Survey<'_, '_, '_>,
    slot: u8,
    label: &Label,
    lines: Lines,
) -> Result<Lines, CheckFault>
    requires range { HasRange survey.now }
    requires slot { slot < 64 }
    requires label { IsLabel label.now }
    requires long { length label.now.snapshots ≡ 24 }
    ensures { Passes (D.shown disk.old) (D.shown disk.new) (λ i. IsSurveyAt survey.now i slot label.entry.now)
        (λ i. volume_lines (layout_of survey.now i) slot (label_place survey.now slot) (head_of label.entry.now)) lines result }
{
    let owned = roots_of(alloc, label)?;
    let volume = VolumeSurvey {
        survey,
        slot,
        label,
        at: u64::from(survey.root.root.labels[usize::from(slot)]),
        roots: owned.as_slice(),
    };
    let noted = note_maps(disk, &volume, lines)?;
    if is_alone(label, volume.roots) {
        let alone = note_alone(alloc, disk, &volume, noted)?;
        return Ok(alone);
    }
    let judge = note_own(alloc, disk, &volume, noted)?;
    let all = note_base(alloc, disk, &volume, judge)?;
    Ok(all)
}

/// Notes what is said of the volume of a slot, if it has one.
fn note_slot<D: Disk>(
    alloc: Global,
    disk: &mut D,
    survey: &Survey<'_, '_, '_>,
    slot: u8,
    lines: Lines,
) -> Result<Lines, CheckFault>
    requires range { HasRange survey.now }
    requires slot { slot < 64 }
    ensures { Passes (D.shown disk.old) (D.shown disk.new) (IsSurveyOf survey.now)
        (λ i. slot_lines (layout_of survey.now i) slot) lines result }
{
    let Some(label) = label_of(survey.known, slot) else {
        return Ok(lines);
    };
    let noted = note_volume(alloc, disk, survey, slot, label, lines)?;
    Ok(noted)
}

/// Notes what is said of the volumes of all slots.
#[tactic(auto, using(fv_disk::proofs::Resting::reads_then))]
fn note_slots<D: Disk>(
    alloc: Global,
    disk: &mut D,
    survey: &Survey<'_, '_, '_>,
    lines: Lines,
) -> Result<Lines, CheckFault>
    requires { HasRange survey.now }
    ensures { Passes (D.shown disk.old) (D.shown disk.new) (IsSurveyOf survey.now)
        (λ i. slots_to (layout_of survey.now i) 64) lines result }
{
    let mut noted = lines;
    for slot in 0..64u8 {
        noted = note_slot(alloc, disk, survey, slot, noted)?;
    }
    Ok(noted)
}

/// Makes the third pass over an aggregate in which the first two found nothing, by what they learnt of it: notes the lines of rules 2, 6,
/// 7, 8, 9 and 10 that it has (`docs/FORMAT.md`), of spans, maps, held blocks, kinds and tables. The lines come back with those that are
/// noted.
///
/// `DiskFault` comes only where a read failed, `Memory` where memory was refused; the lines that were given are gone then. It reads each
/// inner node of a container, each block of the maps, and each node and inode block that a root leads to once, and those under the root of
/// a base once more for each volume on it. It takes a bit for each block, and for one volume at a time that has snapshots or a base what it
/// met of each pointer of its tables.
pub fn pass_three<D: Disk>(
    alloc: Global,
    disk: &mut D,
    survey: &Survey<'_, '_, '_>,
    lines: Lines,
) -> Result<Lines, CheckFault>
    requires { HasRange survey.now }
    ensures { Passes (D.shown disk.old) (D.shown disk.new) (IsSurveyOf survey.now) (λ i. third_pass (layout_of survey.now i)) lines result }
{
    let holders = count_holders(alloc, disk, survey.root, survey.known)?;
    let mut noted = lines;
    note_twice(&holders, &mut noted)?;
    note_map(disk, survey.root, &holders, &mut noted)?;
    let all = note_slots(alloc, disk, survey, noted)?;
    Ok(all)
}
