//! The lines of a block.

ghost use Rattle.std.specs.Prelude.{◌++◌, ℕ, List, IfOk, IfSome, OnOk};
ghost use Rattle.std.specs.List.{All};
ghost use Rattle.std.specs.Option.{option_map};
ghost use Rattle.fv_codec.specs.declared.inode.InodeRecord.{InodeRecord};
ghost use Rattle.fv_faults.specs.Adding.{Adds};
ghost use Rattle.fv_faults.specs.Lines.{expects};
ghost use Rattle.fv_faults.specs.Walks.{name_lines};
ghost use Rattle.fv_walk.specs.Blocks.{IsInRange, Outcome, files_at, files_in, lines_in, no_shape, shape_by};
ghost use Rattle.fv_walk.specs.Limiting.{IsLimits};
ghost use Rattle.fv_walk.specs.Looks.{IsJudged};
ghost use Rattle.fv_walk.specs.Naming.{IsNames};
ghost use Rattle.fv_walk.specs.Noting.{Notes};
ghost use Rattle.fv_walk.specs.Sights.{IsBelow};
ghost use Rattle.fv_walk.specs.Visits.{IsUnder, IsVisit, item_of};

use crate::below::{Below, spell};
use crate::children::children;
use crate::limits::Limits;
use crate::look::Looked;
use crate::names::Names;
use crate::notes::{both, expect, keep_pointers};
use crate::visit::Visit;
use fv_codec::Node;
use fv_faults::{Fault, Lines};
use fv_scan::Judged;
use std::alloc::{AllocError, Global};

/// Notes the lines of a block that lies at `block`, as the one to which a pointer leads, and answers the pointers in it where it has
/// none. The names in it count as met, whatever its lines. The one error is want of memory.
pub(crate) fn note_block(
    alloc: Global,
    names: &mut Names,
    lines: &mut Lines,
    limits: &Limits,
    visit: &Visit,
    block: u64,
    looked: &Looked,
) -> Result<Option<Vec<Visit>>, AllocError>
    requires visit { IsVisit visit.now }
    requires limits { IsLimits limits.now }
    requires judged { IsJudged visit.now looked.now }
    ensures lines { (met : List (ℕ × InodeRecord)) → IsNames met names.old → OnOk result (Adds (lines_in limits.now met (item_of visit.now) block looked.now.body) lines.old lines.new) }
    ensures names { (met : List (ℕ × InodeRecord)) → IsNames met names.old → OnOk result (IsNames (met ++ files_in (item_of visit.now) looked.now.body) names.new) }
    ensures outcome { (met : List (ℕ × InodeRecord)) → IsNames met names.old → IfOk result (λ r. Outcome limits.now met (item_of visit.now) block looked.now.body (option_map (λ all. all.items) r)) }
    ensures under { IfOk result (λ r. IfSome r (λ all. All (IsUnder visit.now) all.items)) }
    ensures range { IfOk result (λ r. IfSome r (λ all. All (IsInRange limits.now) all.items)) }
{
    let below = spell(visit, &looked.body);
    let all = children(alloc, visit, &below, block)?;
    let shape = note_shape(lines, visit, block, &looked.judged, &below)?;
    let range = keep_pointers(lines, limits, block, &all)?;
    let fresh = note_names(names, lines, visit, block, &below)?;
    let rest = both(range, fresh);
    let clean = both(shape, rest);
    if clean { Ok(Some(all)) } else { Ok(None) }
}

/// Notes the lines of rules 1 and 4 on the shape and the position of a block that was judged and spells what is below.
fn note_shape(
    lines: &mut Lines,
    visit: &Visit,
    block: u64,
    judged: &Judged,
    below: &Below,
) -> Result<bool, AllocError>
    ensures { Notes (shape_by (item_of visit.now) block judged.now below.now) lines.old lines.new result }
{
    match below {
        Below::Nothing => note_no_shape(lines, visit, block, judged),
        Below::Node(node) => note_position(lines, visit, block, node),
        Below::Inodes(inodes) => expect(lines, 4, block, visit.place, inodes.index),
    }
}

/// Notes the line of rule 1 of a block without its shape.
fn note_no_shape(
    lines: &mut Lines,
    visit: &Visit,
    block: u64,
    judged: &Judged,
) -> Result<bool, AllocError>
    ensures { Notes (no_shape (item_of visit.now) block judged.now) lines.old lines.new result }
{
    if !visit.leads_on() {
        return Ok(true);
    }
    lines.note(Fault {
        rule: 1,
        block,
        want: judged.want,
        found: judged.found,
    })?;
    Ok(false)
}

/// Notes the lines of rule 4 of a node at another position.
#[tactic(auto, using(crate::proofs::Noting::both))]
fn note_position(
    lines: &mut Lines,
    visit: &Visit,
    block: u64,
    node: &Node,
) -> Result<bool, AllocError>
    ensures { Notes (expects 4 block visit.now.level node.now.level ++ (expects 4 block visit.now.owner node.now.owner ++ expects 4 block visit.now.place node.now.place)) lines.old lines.new result }
{
    let level = expect(
        lines,
        4,
        block,
        u64::from(visit.level),
        u64::from(node.level),
    )?;
    let owner = expect(lines, 4, block, visit.owner, node.owner)?;
    let place = expect(lines, 4, block, visit.place, node.place)?;
    let rest = both(owner, place);
    Ok(both(level, rest))
}

/// Notes the lines of rule 4 on the names in a block.
#[tactic(auto, using(crate::proofs::Naming::nothing_says, crate::proofs::Naming::nothing_names, crate::proofs::Ranges::place_fits))]
fn note_names(
    names: &mut Names,
    lines: &mut Lines,
    visit: &Visit,
    block: u64,
    below: &Below,
) -> Result<bool, AllocError>
    requires visit { IsVisit visit.now }
    requires below { IsBelow visit.now below.now }
    ensures lines { (met : List (ℕ × InodeRecord)) → IsNames met names.old → Notes (name_lines block met (files_at (item_of visit.now) below.now)) lines.old lines.new result }
    ensures names { (met : List (ℕ × InodeRecord)) → IsNames met names.old → OnOk result (IsNames (met ++ files_at (item_of visit.now) below.now) names.new) }
{
    match below {
        Below::Nothing => Ok(true),
        Below::Node(_) => Ok(true),
        Below::Inodes(inodes) => names.note_files(lines, block, 16 * visit.place, &inodes.files),
    }
}
