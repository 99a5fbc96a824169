//! The walk without stops.

ghost use Rattle.std.specs.Prelude.{◌≡◌, ◌≤◌, Bool, true, false, map, OnOk};
ghost use Rattle.fv_faults.specs.Met.{met};
ghost use Rattle.fv_walk.specs.Causes.{HasWalkCause};
ghost use Rattle.fv_walk.specs.Meetings.{met_from};
ghost use Rattle.fv_walk.specs.Sights.{sight_of};
ghost use Rattle.fv_walk.specs.Visits.{IsVisit, item_of, leads_on, rooted};
ghost use Rattle.fv_walk.specs.declared.below.Below.TheVariants.{Nothing};

use crate::below::{Below, read_below};
use crate::children::children;
use crate::fault::WalkFault;
use crate::source::Source;
use crate::visit::{Table, Visit};
use crate::visitor::Visitor;
use std::alloc::{AllocError, Global};

/// Walks along the pointers of a table, whose root stands in the label at a place, and shows each that isn't a hole to a visitor: depth
/// first, the pointers of a block in their order, those of files below their records.
///
/// It goes below each pointer that leads on, also below one whose VVBN it came to before. So it is for a table on which the walk with
/// stops finds nothing: there it comes to each VVBN once, and costs one read for each node and inode block and a step for each pointer.
/// The one other error is want of memory.
pub fn walk<S: Source, V: Visitor>(
    alloc: Global,
    source: &mut S,
    visitor: &mut V,
    label: u64,
    table: &Table,
) -> Result<(), WalkFault>
    requires { table.now.levels ≤ 3 }
    ensures saw { S.fits source.old → OnOk result (V.sees visitor.old
        (map (sight_of (S.volume source.old)) (met (S.volume source.old) label (rooted table.now))) visitor.new) }
    ensures reads { S.reads source.old source.new }
    ensures cause { HasWalkCause (S.faults source.old) (S.faults source.new) result }
{
    walk_from(alloc, source, visitor, &Visit::root(table, label), true)
}

/// Walks from a pointer to a node or an inode block on, in the tree of an inode file or of another file.
fn walk_from<S: Source, V: Visitor>(
    alloc: Global,
    source: &mut S,
    visitor: &mut V,
    visit: &Visit,
    of_inodes: bool,
) -> Result<(), WalkFault>
    requires visit { IsVisit visit.now }
    requires leads { leads_on visit.now ≡ true }
    ensures saw { S.fits source.old → OnOk result (V.sees visitor.old
        (map (sight_of (S.volume source.old)) (met_from (S.volume source.old) of_inodes (item_of visit.now) visit.now.block)) visitor.new) }
    ensures reads { S.reads source.old source.new }
    ensures cause { HasWalkCause (S.faults source.old) (S.faults source.new) result }
{
    if visit.pointer.stamp == 0 {
        return Ok(());
    }
    let at = source.find(visit.pointer.vvbn);
    let below = read_below(source, visit, at)?;
    visitor.see(visit, at, &below)?;
    let Some(found) = at else {
        return Ok(());
    };
    if visit.ends(of_inodes) {
        return Ok(());
    }
    let inside = visit.stays(of_inodes);
    let children = children(alloc, visit, &below, found.pvbn)?;
    let nothing = Below::Nothing;
    for child in &children {
        if child.leads_on() {
            walk_from(alloc, source, visitor, child, inside)?;
        } else {
            show_data(&*source, visitor, child, &nothing)?;
        }
    }
    Ok(())
}

/// Shows a visitor a pointer to a data block, unless it is a hole. `nothing` is what leads on from there: it is lent, so that it isn't made
/// anew for each pointer.
fn show_data<S: Source, V: Visitor>(
    source: &S,
    visitor: &mut V,
    visit: &Visit,
    nothing: &Below,
) -> Result<(), AllocError>
    requires data { leads_on visit.now ≡ false }
    requires nothing { nothing.now ≡ Nothing }
    ensures { OnOk result (S.fits source.now → (of_inodes : Bool) → V.sees visitor.old
        (map (sight_of (S.volume source.now)) (met_from (S.volume source.now) of_inodes (item_of visit.now) visit.now.block)) visitor.new) }
{
    if visit.pointer.stamp == 0 {
        return Ok(());
    }
    let at = source.find(visit.pointer.vvbn);
    visitor.see(visit, at, nothing)?;
    Ok(())
}
