//! Rule 10: no cell of a file is at or past its length.

ghost use Rattle.std.specs.Prelude.{◌≡◌, [], OnOk};
ghost use Rattle.fv_faults.specs.Adding.{Adds};
ghost use Rattle.fv_faults.specs.ThirdPass.{before};
ghost use Rattle.fv_third_pass.specs.Lengths.{cell_lines, length_if, length_in, length_line, records_after};

use fv_codec::InodeBlock;
use fv_faults::{Fault, Lines};
use fv_walk::{Below, Found, Visit, Visitor};
use std::alloc::{AllocError, Global};

/// The records of an inode block.
#[derive(Clone, Copy, Debug, PartialEq, Eq)]
pub(crate) struct Records {
    /// Which of its table's inode blocks it is: it has the records of 16 files, and 16 times this is the number of the first.
    pub place: u64,
    /// The block.
    pub block: InodeBlock,
}

/// Notes a line of rule 10 for each cell that it is shown at or past the length of its file. A walk comes to the tree of a file right
/// behind the block of its record, so it keeps the last block of records alone.
#[derive(Drop)]
pub(crate) struct LengthJudge {
    /// The records that it was shown last.
    pub records: Option<Records>,
    /// The lines that are noted.
    pub lines: Lines,
}

impl LengthJudge {
    /// A judge that saw nothing and noted nothing. It takes no memory.
    pub fn new(alloc: Global) -> LengthJudge
        ensures { result.lines.lines.keys ≡ [] }
    {
        LengthJudge {
            records: None,
            lines: Lines::new(alloc),
        }
    }
}

/// The number before a length; that before 0 is 2^64 - 1.
fn before(length: u32) -> u64
    ensures { result ≡ before length }
{
    if length == 0 {
        u64::MAX
    } else {
        u64::from(length) - 1
    }
}

/// Notes a line of rule 10 where the place of a cell is at or past a length.
#[tactic(auto, using(fv_faults::proofs::Adding::nothing_added))]
fn note_past(lines: &mut Lines, block: u64, place: u64, length: u32) -> Result<(), AllocError>
    ensures { OnOk result (Adds (length_line block place length) lines.old lines.new) }
{
    if place < u64::from(length) {
        return Ok(());
    }
    lines.note(Fault {
        rule: 10,
        block,
        want: before(length),
        found: place,
    })
}

/// Notes that line where the length is known.
#[tactic(auto, using(fv_faults::proofs::Adding::nothing_added))]
fn note_if(lines: &mut Lines, block: u64, place: u64, length: Option<u32>) -> Result<(), AllocError>
    ensures { OnOk result (Adds (length_if block place length) lines.old lines.new) }
{
    let Some(length) = length else {
        return Ok(());
    };
    note_past(lines, block, place, length)
}

/// The length of the file of a number, where its record stands among these.
fn length_in(records: &Option<Records>, number: u64) -> Option<u32>
    ensures { result ≡ length_in records.now number }
{
    let Some(records) = records else {
        return None;
    };
    if number / 16 != records.place {
        return None;
    }
    Some(records.block.files[(number % 16) as usize].length)
}

/// Notes the line of a pointer, if it is to a cell.
#[tactic(auto, using(fv_faults::proofs::Adding::nothing_added))]
fn note_cell(lines: &mut Lines, records: &Option<Records>, visit: &Visit) -> Result<(), AllocError>
    ensures { OnOk result (Adds (cell_lines records.now visit.now) lines.old lines.new) }
{
    if visit.leads_on() {
        return Ok(());
    }
    note_if(
        lines,
        visit.block,
        visit.place,
        length_in(records, visit.owner),
    )
}

/// Keeps the records that stand in the block to which a pointer leads, if there are any.
fn keep_records(records: &mut Option<Records>, visit: &Visit, below: &Below)
    ensures { records.new ≡ records_after records.old visit.now below.now }
{
    if let Below::Inodes(block) = below {
        *records = Some(Records {
            place: visit.place,
            block: *block,
        });
    }
}

impl Visitor for LengthJudge {
    ghost use Rattle.fv_third_pass.specs.LengthJudges.{JudgesLengths, lengths_none, lengths_on};

    ghost sees = { JudgesLengths };

    fn see(&mut self, visit: &Visit, _at: Option<Found>, below: &Below) -> Result<(), AllocError> {
        note_cell(&mut self.lines, &self.records, visit)?;
        keep_records(&mut self.records, visit, below);
        Ok(())
    }

    ghost sees_none = { lengths_none };

    ghost sees_on = { lengths_on };
}
