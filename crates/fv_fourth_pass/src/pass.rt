//! The fourth pass: slot by slot what is said of a volume, and then of the space of all.

ghost use Rattle.std.specs.Prelude.{◌≡◌, ◌<◌, ◌+◌, IsTrue, length, IfOk, OnOk};
ghost use Rattle.fv_codec.specs.Blocks.{IsLabel};
ghost use Rattle.fv_image.specs.Layout.{root_place};
ghost use Rattle.fv_image.specs.Views.{head_of};
ghost use Rattle.fv_faults.specs.Adding.{Adds};
ghost use Rattle.fv_faults.specs.FourthPass.{fourth_pass};
ghost use Rattle.fv_first_pass.specs.Causes.{HasRead};
ghost use Rattle.fv_third_pass.specs.Surveys.{HasRange, Passes, label_place, layout_of};
ghost use Rattle.fv_fourth_pass.specs.Noted.{slot_lines, slots_to, volume_lines};
ghost use Rattle.fv_fourth_pass.specs.Silent.{IsSilentAt, IsSilentOf};
ghost use Rattle.fv_fourth_pass.specs.Summed.{AreSums, AreWithin, IsSpace, IsSpaceAt, IsWithin};

use crate::reach_sets::sets_of;
use crate::space::{Filled, note_commits, note_room};
use crate::space_sums::{NOTHING, Sums, VolumeSpace, add_space, count_space};
use crate::uses::note_use;
use crate::volume::note_walked;
use fv_codec::Label;
use fv_disk::Disk;
use fv_faults::Lines;
use fv_first_pass::CheckFault;
use fv_root::root_place;
use fv_third_pass::{Survey, VolumeSurvey, label_of, roots_of, row_of};
use std::alloc::Global;

/// What was noted of a volume, and what it takes.
#[derive(Debug, Drop)]
struct Noted {
    /// The lines with those that were noted.
    lines: Lines,
    /// What it takes.
    space: VolumeSpace,
}

/// Notes what is said of the volume of a label in a slot, and counts what it takes.
fn note_volume<D: Disk>(
    alloc: Global,
    disk: &mut D,
    survey: &Survey<'_, '_, '_>,
    slot: u8,
    label: &Label,
    lines: Lines,
) -> Result<Noted, CheckFault>
    requires range { HasRange survey.now }
    requires slot { slot < 64 }
    requires label { IsLabel label.now }
    requires long { length label.now.snapshots ≡ 24 }
    ensures adds { IsTrue (D.shown disk.old).tells → IfOk result (λ noted.
        IsSilentAt survey.now (D.shown disk.old).reads slot label.entry.now
        → Adds (volume_lines (layout_of survey.now (D.shown disk.old).reads).view slot (label_place survey.now slot)
        (head_of label.entry.now)) lines noted.lines) }
    ensures space { IsTrue (D.shown disk.old).tells → IfOk result (λ noted.
        IsSilentAt survey.now (D.shown disk.old).reads slot label.entry.now
        → IsSpace (layout_of survey.now (D.shown disk.old).reads).view slot (head_of label.entry.now) noted.space) }
    ensures within { IfOk result (λ noted. IsWithin noted.space) }
    ensures read { HasRead (D.shown disk.old) (D.shown disk.new) result }
{
    let owned = roots_of(alloc, label)?;
    let volume = VolumeSurvey {
        survey,
        slot,
        label,
        at: u64::from(survey.root.root.labels[usize::from(slot)]),
        roots: owned.as_slice(),
    };
    let sets = sets_of(alloc, survey.reached, slot, label, volume.roots)?;
    let walked = note_walked(alloc, disk, &volume, &sets, lines)?;
    let space = count_space(label, &sets, row_of(survey.known, slot), walked.needed);
    let mut noted = walked.lines;
    note_use(label, space.used, volume.at, &mut noted)?;
    Ok(Noted {
        lines: noted,
        space,
    })
}

/// Notes what is said of the volume of a slot, if it has one, and adds what it takes.
fn note_slot<D: Disk>(
    alloc: Global,
    disk: &mut D,
    survey: &Survey<'_, '_, '_>,
    slot: u8,
    sums: &mut Sums,
    lines: Lines,
) -> Result<Lines, CheckFault>
    requires range { HasRange survey.now }
    requires slot { slot < 64 }
    requires at { length sums.old.uses.items ≡ slot }
    requires within { AreWithin sums.old }
    ensures passes { Passes (D.shown disk.old) (D.shown disk.new) (IsSilentOf survey.now)
        (λ i. slot_lines (layout_of survey.now i) slot) lines result }
    ensures sums { IsTrue (D.shown disk.old).tells → OnOk result (IsSilentOf survey.now (D.shown disk.old).reads
        → AreSums (layout_of survey.now (D.shown disk.old).reads).view slot sums.old
        → AreSums (layout_of survey.now (D.shown disk.old).reads).view (slot + 1) sums.new) }
    ensures at { OnOk result (length sums.new.uses.items ≡ slot + 1) }
    ensures within { OnOk result (AreWithin sums.new) }
{
    let Some(label) = label_of(survey.known, slot) else {
        add_space(sums, NOTHING)?;
        return Ok(lines);
    };
    let noted = note_volume(alloc, disk, survey, slot, label, lines)?;
    add_space(sums, noted.space)?;
    Ok(noted.lines)
}

/// Notes what is said of the volumes of all slots, and adds up what they take.
#[tactic(auto, using(fv_disk::proofs::Resting::reads_then))]
fn note_slots<D: Disk>(
    alloc: Global,
    disk: &mut D,
    survey: &Survey<'_, '_, '_>,
    sums: &mut Sums,
    lines: Lines,
) -> Result<Lines, CheckFault>
    requires range { HasRange survey.now }
    requires at { length sums.old.uses.items ≡ 0 }
    requires within { AreWithin sums.old }
    ensures passes { Passes (D.shown disk.old) (D.shown disk.new) (IsSilentOf survey.now)
        (λ i. slots_to (layout_of survey.now i) 64) lines result }
    ensures sums { IsTrue (D.shown disk.old).tells → OnOk result (IsSilentOf survey.now (D.shown disk.old).reads
        → AreSums (layout_of survey.now (D.shown disk.old).reads).view 0 sums.old
        → AreSums (layout_of survey.now (D.shown disk.old).reads).view 64 sums.new) }
    ensures within { OnOk result (AreWithin sums.new) }
{
    let mut noted = lines;
    for slot in 0..64u8 {
        noted = note_slot(alloc, disk, survey, slot, sums, noted)?;
    }
    Ok(noted)
}

/// Makes the fourth pass over an aggregate in which the first three found nothing, by what the first two learnt of it: notes the lines of
/// rules 11 to 14 that it has (`docs/FORMAT.md`), of hints, unknown places, bases and space. The lines come back with those that are noted.
///
/// `DiskFault` comes only where a read failed, `Memory` where memory was refused; the lines that were given are gone then. It reads the
/// nodes and inode blocks that a root leads to, once for each root. For one volume at a time it takes four bits for each VVBN, and 40 bytes
/// and a map's share for each pointer that is wrong.
pub fn pass_four<D: Disk>(
    alloc: Global,
    disk: &mut D,
    survey: &Survey<'_, '_, '_>,
    lines: Lines,
) -> Result<Lines, CheckFault>
    requires { HasRange survey.now }
    ensures { Passes (D.shown disk.old) (D.shown disk.new) (IsSilentOf survey.now)
        (λ i. fourth_pass (root_place survey.now.root.now.slot) (layout_of survey.now i)) lines result }
{
    let mut sums = Sums {
        uses: Vec::with_capacity(alloc, 64)?,
        filled: Filled { own: 0, delayed: 0 },
    };
    let mut noted = note_slots(alloc, disk, survey, &mut sums, lines)?;
    let root = survey.root;
    let known = survey.known;
    let at = root_place(root.slot);
    note_commits(root.blocks, &known.labels, &sums.uses, at, &mut noted)?;
    note_room(root.blocks, &known.labels, sums.filled, at, &mut noted)?;
    Ok(noted)
}
