//! The blocks of a volume on a disk, as walks reach them.

use crate::entries::{found_in, word_of};
use fv_disk::{Block, Disk, Failed};
use fv_first_pass::Known;
use fv_walk::{Found, Source};

/// The blocks of the volume of a slot: on the disk, by what the first pass read of it. Where that pass found nothing, a walk over them is
/// one over the volume. A VVBN of the span is found at the first entry along the volume and its parents, which costs a step for each; the
/// block there costs one read.
#[derive(Drop)]
pub struct VolumeSource<'d, 'r, 'k, D: Disk> {
    /// The disk.
    pub disk: &'d mut D,
    /// Its root.
    pub root: &'r fv_root::Found,
    /// What the first pass read under that root.
    pub known: &'k Known,
    /// The slot of the volume, 0 to 63.
    pub slot: u8,
    /// Its span: how many VVBNs it has.
    pub span: u32,
}

impl<'d, 'r, 'k, D: Disk> Source for VolumeSource<'d, 'r, 'k, D> {
    ghost use Rattle.std.specs.Prelude.{◌≡◌, refl};
    ghost use Rattle.std.proofs.Common.{◌∙◌};
    ghost use Rattle.fv_second_pass.specs.Lent.{Fits, ReadsOver, lent_by, volume_of};
    ghost use Rattle.fv_second_pass.specs.LentLaws.{fits_then, reads_itself, reads_then, same_volume};

    ghost volume = { λ b. volume_of (lent_by (D.shown b.disk.now) b.root.now b.known.now b.slot b.span) };

    ghost fits = { λ b. Fits (lent_by (D.shown b.disk.now) b.root.now b.known.now b.slot b.span) };

    ghost faults = { λ b. (D.shown b.disk.now).faults };

    ghost reads = { λ a b. (b.disk.ghost_name ≡ a.disk.ghost_name)
        × ReadsOver (lent_by (D.shown a.disk.now) a.root.now a.known.now a.slot a.span)
        (lent_by (D.shown b.disk.now) b.root.now b.known.now b.slot b.span) };

    ghost reads_nothing = { λ b. (refl, reads_itself _) };

    ghost reads_on = { λ a b c first second. (second.0 ∙ first.0, reads_then _ _ _ first.1 second.1) };

    ghost same_volume = { λ a b reads. same_volume _ _ reads.1 };

    ghost fits_on = { λ a b reads fits. fits_then _ _ reads.1 fits };

    fn find(&self, vvbn: u64) -> Option<Found> {
        found_in(word_of(self.known, self.slot, self.span, vvbn))
    }

    fn read(&mut self, at: u64, into: &mut Block) -> Result<(), Failed> {
        self.disk.read(at, into)
    }
}
