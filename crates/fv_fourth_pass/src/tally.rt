//! How many pointers of a volume's roots are unknown, or wrong while it is being split, each counted once for the block in which it stands:
//! roots share blocks.

ghost use Rattle.std.specs.Prelude.{◌≡◌, ◌||◌, OnOk};
ghost use Rattle.std.specs.BTreeSet as sets;
ghost use Rattle.std.specs.Ordering.{eq_by_cmp};
ghost use Rattle.fv_bits.specs.Members.{is_member};
ghost use Rattle.fv_walk.specs.Visits.{item_of};
ghost use Rattle.fv_fourth_pass.specs.declared.tally.Mark.{Mark as SpecMark};
ghost use Rattle.fv_fourth_pass.specs.Tallied.{counts, mark_cmp, mark_of};

use crate::hints::{is_known, is_unknown};
use fv_bits::BitMap;
use fv_walk::{Below, Found, Visit, Visitor};
use std::alloc::AllocError;
use std::collections::BTreeSet;

/// What tells a pointer of a volume from all others: the block in which it stands and its position, or its root where that is the label.
#[derive(Clone, Copy, Debug, PartialEq, Eq, PartialOrd, Ord)]
pub(crate) struct Mark {
    /// Of a pointer in the label, the number of its root: one more than its map slot. 0 of others.
    pub root: u16,
    /// The VVBN of the block in which it stands, 0 for the label.
    pub vvbn: u64,
    /// The number of its file, or 2^64 - 1 for the inode file; 0 in the label.
    pub owner: u64,
    /// Its level, 0 in the label.
    pub level: u8,
    /// Which range of its level it stands for, 0 in the label.
    pub place: u64,
}

/// Keeps the marks of the pointers that it is shown and that are counted.
#[derive(Drop)]
pub(crate) struct Tally {
    /// Where there are copies, known pointers to them and in them and in the label are counted; where there are none, unknown pointers.
    pub copies: Option<BitMap>,
    /// The number of the root along which the walk goes: one more than its map slot.
    pub root: u16,
    /// The marks.
    pub marks: BTreeSet<Mark>,
}

/// Whether a number is in a set; one past the set's end isn't.
#[tactic(auto, using(fv_bits::proofs::Laws::is_member_past))]
pub(crate) fn has(set: &BitMap, number: u64) -> bool
    ensures { result ≡ is_member set.now number }
{
    if number >= u64::from(set.len()) {
        return false;
    }
    set.get(number as u32)
}

/// Whether a pointer is counted.
fn counts(copies: &Option<BitMap>, visit: &Visit) -> bool
    ensures { result ≡ counts copies.now (item_of visit.now) }
{
    match copies {
        None => is_unknown(&visit.pointer),
        Some(copies) => {
            is_known(&visit.pointer)
                && (visit.holder.stamp == 0
                    || has(copies, visit.pointer.vvbn)
                    || has(copies, visit.holder.vvbn))
        }
    }
}

/// The mark of a pointer that a root reaches.
fn mark_of(root: u16, visit: &Visit) -> Mark
    ensures { result ≡ mark_of root (item_of visit.now) }
{
    if visit.holder.stamp == 0 {
        return Mark {
            root,
            vvbn: 0,
            owner: 0,
            level: 0,
            place: 0,
        };
    }
    Mark {
        root: 0,
        vvbn: visit.holder.vvbn,
        owner: visit.owner,
        level: visit.level,
        place: visit.place,
    }
}

/// Keeps a mark.
fn keep(marks: &mut BTreeSet<Mark>, mark: Mark) -> Result<(), AllocError>
    ensures { OnOk result ((k : SpecMark)
        → sets.contains mark_cmp marks.new k ≡ (sets.contains mark_cmp marks.old k || eq_by_cmp mark_cmp k mark)) }
{
    match marks.insert(mark) {
        Ok(_) => Ok(()),
        Err(e) => Err(AllocError::from(e)),
    }
}

impl Visitor for Tally {
    ghost use Rattle.fv_fourth_pass.specs.Tallying.{Tallies, tallies_none, tallies_on};

    ghost sees = { Tallies };

    fn see(&mut self, visit: &Visit, _at: Option<Found>, _below: &Below) -> Result<(), AllocError> {
        if counts(&self.copies, visit) {
            keep(&mut self.marks, mark_of(self.root, visit))?;
        }
        Ok(())
    }

    ghost sees_none = { tallies_none };

    ghost sees_on = { tallies_on };
}
