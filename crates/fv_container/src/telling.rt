//! What clauses say of a container after its steps.

ghost use Rattle.std.specs.Prelude.{◌≡◌};

use crate::entry::Entry;
use crate::told::{Names, Told};
use fv_bits::BitMap;
use fv_codec::ContainerLeaf;
use fv_disk::Disk;

/// A container is made of so many entries, and none of them is read: all are holes.
#[derive(Drop)]
pub(crate) struct Making<'a> {
    pub(crate) count: u32,
    pub(crate) known: &'a [bool],
}

pub(crate) struct AfterMake;

impl<'a> Names<Making<'a>> for AfterMake {
    ghost use Rattle.std.specs.Prelude.{replicate, None};

    ghost entries = { λ x. replicate x.count None };

    ghost sure = { λ x. x.known.now };
}

/// A container is opened: its entries are those that the leaves at these places spell.
#[derive(Drop)]
pub(crate) struct Opening<'a, D: Disk> {
    pub(crate) disk: &'a D,
    pub(crate) tree: &'a [u32],
    pub(crate) count: u32,
    pub(crate) known: &'a [bool],
}

pub(crate) struct AfterOpen;

impl<'a, D: Disk> Names<Opening<'a, D>> for AfterOpen {
    ghost use Rattle.fv_container.specs.Paged.{entries_spelled};

    ghost entries = { λ x. entries_spelled (D.shown x.disk.now).reads x.tree.now x.count };

    ghost sure = { λ x. x.known.now };
}

/// The leaf of a region was read.
#[derive(Drop)]
pub(crate) struct Learning<'a> {
    pub(crate) told: &'a Told,
    pub(crate) leaves: &'a [Option<Box<ContainerLeaf>>],
    pub(crate) used: &'a BitMap,
    pub(crate) region: usize,
}

pub(crate) struct AfterLearn;

impl<'a> Names<Learning<'a>> for AfterLearn {
    ghost use Rattle.fv_container.specs.Paged.{sure_after};

    ghost entries = { λ x. x.told.now.entries };

    ghost sure = { λ x. sure_after x.told.now.sure x.told.now.entries x.region x.leaves.now x.used.now };
}

/// An entry was set.
#[derive(Drop)]
pub(crate) struct Setting<'a> {
    pub(crate) told: &'a Told,
    pub(crate) vvbn: usize,
    pub(crate) entry: Option<Entry>,
}

pub(crate) struct AfterSet;

impl<'a> Names<Setting<'a>> for AfterSet {
    ghost use Rattle.std.specs.Prelude.{slice_set};

    ghost entries = { λ x. slice_set x.told.now.entries x.vvbn x.entry };

    ghost sure = { λ x. x.told.now.sure };
}
