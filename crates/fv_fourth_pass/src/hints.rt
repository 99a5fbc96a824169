//! What rules 11 and 12 say of a pointer by itself, along a walk without stops.

ghost use Rattle.std.specs.Prelude.{◌≡◌, ◌≤◌, not, ◌||◌, ◌==◌, count_by, length, OnOk};
ghost use Rattle.fv_image.specs.HintRules.{is_known, is_unknown};
ghost use Rattle.fv_faults.specs.Adding.{Adds};
ghost use Rattle.fv_faults.specs.Lines.{line, unless};
ghost use Rattle.fv_fourth_pass.specs.Hinted.{has_unknown_root, is_right, place_found, unknown_in};

use fv_codec::{InodeRecord, Pointer};
use fv_faults::{Fault, Lines};
use fv_walk::{Below, Found, Visit, Visitor};
use std::alloc::AllocError;

/// Notes what rules 11 and 12 say of each pointer that it is shown, by itself.
#[derive(Drop)]
pub(crate) struct HintJudge {
    /// The lines that are noted.
    pub lines: Lines,
}

/// Whether a pointer leads to a block of which the place is known.
pub(crate) fn is_known(pointer: &Pointer) -> bool
    ensures { result ≡ is_known pointer.now }
{
    pointer.stamp != 0 && pointer.pvbn != 0
}

/// Whether a pointer leads to a block of which the place isn't known.
pub(crate) fn is_unknown(pointer: &Pointer) -> bool
    ensures { result ≡ is_unknown pointer.now }
{
    pointer.stamp != 0 && pointer.pvbn == 0
}

/// Whether a record is used and its root is unknown.
fn has_unknown_root(record: &InodeRecord) -> bool
    ensures { result ≡ has_unknown_root record.now }
{
    record.name_length != 0 && is_unknown(&record.root)
}

/// How many of some pointers are unknown.
#[tactic(auto, using(std::proofs::lemmas::List::Sums::count_by_more_yes, std::proofs::lemmas::List::Sums::count_by_more_no))]
fn unknown_children(children: &[Pointer]) -> u64
    requires { length children.now ≤ 128 }
    ensures { result ≡ count_by is_unknown children.now }
{
    let mut count = 0;
    for k in 0..children.len() {
        if is_unknown(&children[k]) {
            count += 1;
        }
    }
    count
}

/// How many of some records are used and have an unknown root.
#[tactic(auto, using(std::proofs::lemmas::List::Sums::count_by_more_yes, std::proofs::lemmas::List::Sums::count_by_more_no))]
fn unknown_roots(files: &[InodeRecord]) -> u64
    requires { length files.now ≤ 16 }
    ensures { result ≡ count_by has_unknown_root files.now }
{
    let mut count = 0;
    for k in 0..files.len() {
        if has_unknown_root(&files[k]) {
            count += 1;
        }
    }
    count
}

/// How many unknown pointers stand in a block.
fn unknown_in(below: &Below) -> u64
    ensures { result ≡ unknown_in below.now }
{
    match below {
        Below::Nothing => 0,
        Below::Node(node) => unknown_children(&node.children),
        Below::Inodes(block) => unknown_roots(&block.files),
    }
}

/// The place at which a VVBN is found, 0 for a hole.
fn place_found(at: Option<Found>) -> u64
    ensures { result ≡ place_found at }
{
    match at {
        Some(found) => u64::from(found.pvbn),
        None => 0,
    }
}

/// Whether a hint is unknown or leads to the place at which its VVBN is found.
fn is_right(pvbn: u64, at: Option<Found>) -> bool
    ensures { result ≡ is_right pvbn at }
{
    match at {
        Some(found) => pvbn == 0 || u64::from(found.pvbn) == pvbn,
        None => pvbn == 0,
    }
}

/// Notes a line of rule 11 where a hint is known and wrong.
#[tactic(auto, using(fv_faults::proofs::Adding::nothing_added))]
fn note_hint(lines: &mut Lines, block: u64, pvbn: u64, at: Option<Found>) -> Result<(), AllocError>
    ensures { OnOk result (Adds (unless (is_right pvbn at) (line 11 block (place_found at) pvbn)) lines.old lines.new) }
{
    if is_right(pvbn, at) {
        return Ok(());
    }
    lines.note(Fault {
        rule: 11,
        block,
        want: place_found(at),
        found: pvbn,
    })
}

/// Notes a line of rule 12 where a known pointer leads to a block that holds so many unknown ones.
#[tactic(auto, using(fv_faults::proofs::Adding::nothing_added))]
fn note_unknown(lines: &mut Lines, block: u64, known: bool, count: u64) -> Result<(), AllocError>
    ensures { OnOk result (Adds (unless (not known || (count == 0)) (line 12 block 0 count)) lines.old lines.new) }
{
    if !known || count == 0 {
        return Ok(());
    }
    lines.note(Fault {
        rule: 12,
        block,
        want: 0,
        found: count,
    })
}

impl Visitor for HintJudge {
    ghost use Rattle.fv_fourth_pass.specs.Hinting.{Hints, hints_none, hints_on};

    ghost sees = { Hints };

    fn see(&mut self, visit: &Visit, at: Option<Found>, below: &Below) -> Result<(), AllocError> {
        note_hint(&mut self.lines, visit.block, visit.pointer.pvbn, at)?;
        note_unknown(
            &mut self.lines,
            visit.block,
            is_known(&visit.pointer),
            unknown_in(below),
        )?;
        Ok(())
    }

    ghost sees_none = { hints_none };

    ghost sees_on = { hints_on };
}
