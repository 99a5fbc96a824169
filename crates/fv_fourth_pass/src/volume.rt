//! Rules 11 to 13 of one volume, and what the reserves of its files still need.

ghost use Rattle.std.specs.Prelude.{◌≡◌, ◌≤◌, ◌++◌, ◌^◌, IsTrue, length, map, IfOk, IfSome};
ghost use Rattle.fv_codec.specs.Blocks.{IsLabel};
ghost use Rattle.fv_image.specs.Seen.{roots_of};
ghost use Rattle.fv_image.specs.Views.{head_of};
ghost use Rattle.fv_image.specs.Volumes.{volume_told};
ghost use Rattle.fv_model.specs.Space.{need};
ghost use Rattle.fv_faults.specs.Adding.{Adds};
ghost use Rattle.fv_faults.specs.FourthPass.{place_lines};
ghost use Rattle.fv_first_pass.specs.Causes.{HasRead};
ghost use Rattle.fv_walk.specs.Causes.{HasWalkCause};
ghost use Rattle.fv_third_pass.specs.Surveys.{IsVolumeSurvey};
ghost use Rattle.fv_third_pass.specs.Volumes.{AreClean, AreFew, root_of};
ghost use Rattle.fv_fourth_pass.specs.Based.{IsOver};
ghost use Rattle.fv_fourth_pass.specs.Needed.{HasShared};
ghost use Rattle.fv_fourth_pass.specs.Noted.{hinted_roots};
ghost use Rattle.fv_fourth_pass.specs.Placed.{IsBased};
ghost use Rattle.fv_fourth_pass.specs.Silent.{IsSilentWith, need_in, rules_said};

use crate::bases::note_base;
use crate::reach_sets::{Sets, shared_by};
use crate::tables::{Walked, note_roots};
use fv_bits::BitMap;
use fv_codec::Label;
use fv_disk::Disk;
use fv_faults::Lines;
use fv_first_pass::CheckFault;
use fv_second_pass::VolumeSource;
use fv_third_pass::{MapRoot, VolumeSurvey, row_of};
use fv_walk::{Source, WalkFault};
use std::alloc::Global;

/// Notes what rules 11 to 13 say of the volume of a label, by its sets and the words of its entries, and counts what the reserves of its
/// files still need. `shared` has the VVBNs that its snapshots or its base reach.
fn note_pointers<S: Source>(
    alloc: Global,
    source: &mut S,
    label: &Label,
    place: u64,
    roots: &[MapRoot],
    sets: &Sets,
    shared: BitMap,
    row: &[u32],
    lines: Lines,
) -> Result<Walked, WalkFault>
    requires label { IsLabel label.now }
    requires few { AreFew roots.now }
    requires held { length sets.now.held ≡ label.now.span }
    requires base { IfSome sets.now.base (λ set. length set ≡ label.now.span) }
    ensures adds { S.fits source.old → map root_of roots.now ≡ roots_of (head_of label.entry.now)
        → AreClean (S.volume source.old) place roots.now
        → IsBased (S.volume source.old).view (S.volume source.old).slot (head_of label.entry.now) sets.now.base row.now
        → IsOver (S.volume source.old).view (S.volume source.old).slot (head_of label.entry.now) sets.now.held sets.now.base row.now
        → IfOk result (λ walked. Adds (hinted_roots (S.volume source.old) place roots.now
        ++ place_lines (S.volume source.old).view (S.volume source.old).slot place (head_of label.entry.now)) lines walked.lines) }
    ensures exact { S.fits source.old → map root_of roots.now ≡ roots_of (head_of label.entry.now)
        → HasShared (S.volume source.old).view (S.volume source.old).slot (head_of label.entry.now) shared → IfOk result (λ walked.
        walked.needed ≡ need (volume_told (S.volume source.old).view (S.volume source.old).slot (head_of label.entry.now))) }
    ensures most { IfOk result (λ walked. walked.needed ≤ 2 ^ 55) }
    ensures reads { S.reads source.old source.new }
    ensures cause { HasWalkCause (S.faults source.old) (S.faults source.new) result }
{
    let base = sets.base();
    let mut walked = note_roots(alloc, source, lines, label, place, roots, base, row, shared)?;
    note_base(label, &sets.held, base, row, place, &mut walked.lines)?;
    Ok(walked)
}

/// Notes what rules 11 to 13 say of a volume, and counts what the reserves of its files still need.
pub(crate) fn note_walked<D: Disk>(
    alloc: Global,
    disk: &mut D,
    volume: &VolumeSurvey<'_>,
    sets: &Sets,
    lines: Lines,
) -> Result<Walked, CheckFault>
    requires volume { IsVolumeSurvey volume.now }
    requires held { length sets.now.held ≡ volume.now.label.now.span }
    requires base { IfSome sets.now.base (λ set. length set ≡ volume.now.label.now.span) }
    ensures adds { IsTrue (D.shown disk.old).tells → IfOk result (λ walked.
        IsSilentWith volume.now (D.shown disk.old).reads sets.now
        → Adds (rules_said volume.now (D.shown disk.old).reads) lines walked.lines) }
    ensures exact { IsTrue (D.shown disk.old).tells → IfOk result (λ walked.
        IsSilentWith volume.now (D.shown disk.old).reads sets.now → walked.needed ≡ need_in volume.now (D.shown disk.old).reads) }
    ensures most { IfOk result (λ walked. walked.needed ≤ 2 ^ 55) }
    ensures read { HasRead (D.shown disk.old) (D.shown disk.new) result }
{
    let survey = volume.survey;
    let slot = volume.slot;
    let label = volume.label;
    let roots = volume.roots;
    let shared = shared_by(alloc, survey.reached, slot, label.span, roots, sets.base())?;
    let row = row_of(survey.known, slot);
    let mut source = VolumeSource {
        disk,
        root: survey.root,
        known: survey.known,
        slot,
        span: label.span,
    };
    match note_pointers(
        alloc,
        &mut source,
        label,
        volume.at,
        roots,
        sets,
        shared,
        row,
        lines,
    ) {
        Ok(walked) => Ok(walked),
        Err(WalkFault::DiskFault) => Err(CheckFault::DiskFault),
        Err(WalkFault::Memory) => Err(CheckFault::Memory),
    }
}
