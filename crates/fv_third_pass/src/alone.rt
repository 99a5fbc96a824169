//! The volume of one table: no ids are kept of it, since along one table no two pointers have one id or one VVBN.

ghost use Rattle.std.specs.Prelude.{◌≡◌, ◌==◌, ◌&&◌, length};
ghost use Rattle.fv_third_pass.specs.Surveys.{IsVolumeOf, IsVolumeSurvey, Passes, tables_said};

use crate::roots::MapRoot;
use crate::survey::VolumeSurvey;
use crate::tables::note_table;
use fv_codec::Label;
use fv_disk::Disk;
use fv_faults::Lines;
use fv_first_pass::CheckFault;
use fv_second_pass::VolumeSource;
use fv_walk::{Below, Found as FoundAt, Visit, Visitor, WalkFault};
use std::alloc::{AllocError, Global};

/// A visitor that keeps nothing of what it is shown.
#[derive(Drop)]
struct Idle;

impl Visitor for Idle {
    ghost use Rattle.std.specs.Prelude.{⊤};

    ghost sees = { λ old sights new. ⊤ };

    fn see(
        &mut self,
        _visit: &Visit,
        _at: Option<FoundAt>,
        _below: &Below,
    ) -> Result<(), AllocError> {
        Ok(())
    }

    ghost sees_none = { λ visitor. tt };

    ghost sees_on = { λ old mid new first second one two. tt };
}

/// Whether the volume of a label, whose roots are these, has one table and no base.
pub(crate) fn is_alone(label: &Label, roots: &[MapRoot]) -> bool
    ensures { result ≡ ((label.entry.now.parent == 0) && (length roots.now == 1)) }
{
    label.parent == 0 && roots.len() == 1
}

/// Notes what is said of the one table of a volume; nothing is said of the ids in it. Walks along it once.
pub(crate) fn note_alone<D: Disk>(
    alloc: Global,
    disk: &mut D,
    volume: &VolumeSurvey<'_>,
    lines: Lines,
) -> Result<Lines, CheckFault>
    requires volume { IsVolumeSurvey volume.now }
    requires alone { length volume.now.roots.now ≡ 1 }
    ensures { Passes (D.shown disk.old) (D.shown disk.new) (IsVolumeOf volume.now) (tables_said volume.now) lines result }
{
    let mut source = VolumeSource {
        disk,
        root: volume.survey.root,
        known: volume.survey.known,
        slot: volume.slot,
        span: volume.label.span,
    };
    match note_table(
        alloc,
        &mut source,
        Idle,
        lines,
        volume.at,
        &volume.roots[0].table,
        volume.label.now,
    ) {
        Ok(walked) => Ok(walked.lines),
        Err(WalkFault::DiskFault) => Err(CheckFault::DiskFault),
        Err(WalkFault::Memory) => Err(CheckFault::Memory),
    }
}
