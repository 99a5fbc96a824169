//! Rule 10: ids and VVBNs are one to one.

ghost use Rattle.std.specs.Prelude.{◌≡◌, [], ◌∷◌, OnOk};
ghost use Rattle.std.specs.Ordering.{nat_cmp};
ghost use Rattle.std.specs.BTreeMap as maps;
ghost use Rattle.fv_faults.specs.Adding.{Adds};
ghost use Rattle.fv_third_pass.specs.Twinned.{HasSeen, IsKept, id_against, id_cmp, id_of, ids_differ, vvbn_against};

use fv_faults::{Fault, Lines};
use fv_walk::{Below, Found, Visit, Visitor};
use std::alloc::{AllocError, Global};
use std::collections::BTreeMap;

/// What tells a block of a volume's tables from all others: the position of its cell or mark, and the stamp.
#[derive(Clone, Copy, Debug, PartialEq, Eq, PartialOrd, Ord)]
pub(crate) struct Id {
    /// The number of the file, or 2^64 - 1 for the inode file.
    pub owner: u64,
    /// The level, 0 for cells.
    pub level: u8,
    /// Which range of its level.
    pub place: u64,
    /// The stamp.
    pub stamp: u64,
}

/// Notes a line for each pointer that it is shown and that has the id of an earlier one and not its VVBN, or the VVBN and not the id.
#[derive(Drop)]
pub(crate) struct IdJudge {
    /// The VVBN of the first pointer with each id.
    pub ids: BTreeMap<Id, u64>,
    /// The id of the first pointer with each VVBN.
    pub vvbns: BTreeMap<u64, Id>,
    /// The lines that are noted.
    pub lines: Lines,
}

impl IdJudge {
    /// A judge that saw nothing, with lines to which it adds. It takes no memory.
    pub fn new(alloc: Global, lines: Lines) -> IdJudge
        ensures seen { HasSeen [] result }
        ensures lines { result.lines ≡ lines }
    {
        IdJudge {
            ids: BTreeMap::new(alloc),
            vvbns: BTreeMap::new(alloc),
            lines,
        }
    }
}

/// The id of a pointer.
fn id_of(visit: &Visit) -> Id
    ensures { result ≡ id_of visit.now }
{
    Id {
        owner: visit.owner,
        level: visit.level,
        place: visit.place,
        stamp: visit.pointer.stamp,
    }
}

/// Notes a line of rule 10.
fn note_line(lines: &mut Lines, block: u64, want: u64, found: u64) -> Result<(), AllocError>
    ensures { OnOk result (Adds (record { rule = 10; block = block; want = want; found = found } ∷ []) lines.old lines.new) }
{
    lines.note(Fault {
        rule: 10,
        block,
        want,
        found,
    })
}

/// Notes the line of a pointer to a VVBN, by that of the first pointer with its id.
#[tactic(auto, using(fv_faults::proofs::Adding::nothing_added))]
fn note_vvbn(lines: &mut Lines, block: u64, vvbn: u64, first: Option<u64>) -> Result<(), AllocError>
    ensures { OnOk result (Adds (vvbn_against block vvbn first) lines.old lines.new) }
{
    let Some(first) = first else {
        return Ok(());
    };
    if first == vvbn {
        return Ok(());
    }
    note_line(lines, block, first, vvbn)
}

/// Notes the line of two ids: that of the first of stamp, place, level and owner in which they differ.
#[tactic(auto, using(fv_faults::proofs::Adding::nothing_added))]
fn note_ids(lines: &mut Lines, block: u64, first: &Id, id: &Id) -> Result<(), AllocError>
    ensures { OnOk result (Adds (ids_differ block first.now id.now) lines.old lines.new) }
{
    if first.stamp != id.stamp {
        note_line(lines, block, first.stamp, id.stamp)
    } else if first.place != id.place {
        note_line(lines, block, first.place, id.place)
    } else if first.level != id.level {
        note_line(lines, block, u64::from(first.level), u64::from(id.level))
    } else if first.owner != id.owner {
        note_line(lines, block, first.owner, id.owner)
    } else {
        Ok(())
    }
}

/// Notes the line of a pointer with an id, by that of the first pointer to its VVBN.
#[tactic(auto, using(fv_faults::proofs::Adding::nothing_added))]
fn note_id(lines: &mut Lines, block: u64, id: &Id, first: Option<Id>) -> Result<(), AllocError>
    ensures { OnOk result (Adds (id_against block id.now first) lines.old lines.new) }
{
    let Some(first) = first else {
        return Ok(());
    };
    note_ids(lines, block, &first, id)
}

/// The VVBN of the first pointer with an id.
fn vvbn_with(ids: &BTreeMap<Id, u64>, id: &Id) -> Option<u64>
    ensures { result ≡ maps.get id_cmp ids.now id.now }
{
    match ids.get(id) {
        Some(vvbn) => Some(*vvbn),
        None => None,
    }
}

/// The id of the first pointer to a VVBN.
fn id_with(vvbns: &BTreeMap<u64, Id>, vvbn: u64) -> Option<Id>
    ensures { result ≡ maps.get nat_cmp vvbns.now vvbn }
{
    match vvbns.get(&vvbn) {
        Some(id) => Some(*id),
        None => None,
    }
}

/// Keeps the VVBN of a pointer with an id, unless one came before it.
fn keep_vvbn(
    ids: &mut BTreeMap<Id, u64>,
    id: Id,
    vvbn: u64,
    before: Option<u64>,
) -> Result<(), AllocError>
    requires { before ≡ maps.get id_cmp ids.old id }
    ensures { OnOk result (IsKept id_cmp id vvbn ids.old ids.new) }
{
    if before.is_some() {
        return Ok(());
    }
    ids.insert(id, vvbn)?;
    Ok(())
}

/// Keeps the id of a pointer to a VVBN, unless one came before it.
fn keep_id(
    vvbns: &mut BTreeMap<u64, Id>,
    vvbn: u64,
    id: Id,
    before: Option<Id>,
) -> Result<(), AllocError>
    requires { before ≡ maps.get nat_cmp vvbns.old vvbn }
    ensures { OnOk result (IsKept nat_cmp vvbn id vvbns.old vvbns.new) }
{
    if before.is_some() {
        return Ok(());
    }
    vvbns.insert(vvbn, id)?;
    Ok(())
}

impl Visitor for IdJudge {
    ghost use Rattle.fv_third_pass.specs.TwinJudges.{Twins, twins_none, twins_on};

    ghost sees = { Twins };

    fn see(&mut self, visit: &Visit, _at: Option<Found>, _below: &Below) -> Result<(), AllocError> {
        let id = id_of(visit);
        let vvbn = visit.pointer.vvbn;
        let first_vvbn = vvbn_with(&self.ids, &id);
        let first_id = id_with(&self.vvbns, vvbn);
        note_vvbn(&mut self.lines, visit.block, vvbn, first_vvbn)?;
        note_id(&mut self.lines, visit.block, &id, first_id)?;
        keep_vvbn(&mut self.ids, id, vvbn, first_vvbn)?;
        keep_id(&mut self.vvbns, vvbn, id, first_id)?;
        Ok(())
    }

    ghost sees_none = { twins_none };

    ghost sees_on = { twins_on };
}
