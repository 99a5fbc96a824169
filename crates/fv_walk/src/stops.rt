//! The walk with its stops.

ghost use Rattle.std.specs.Prelude.{◌≡◌, ◌≢◌, ◌<◌, ◌≤◌, ◌++◌, ◌∷◌, ◌^◌, [], Bool, List, true, false, flat_map, length, IfOk, IfSome, OnOk};
ghost use Rattle.std.specs.List.{All};
ghost use Rattle.std.specs.Option.{option_map};
ghost use Rattle.fv_faults.specs.declared.lines.Lines.{Lines};
ghost use Rattle.fv_faults.specs.Adding.{Adds};
ghost use Rattle.fv_faults.specs.Lines.{line};
ghost use Rattle.fv_faults.specs.Walks.{Step, step, steps};
ghost use Rattle.fv_walk.specs.Blocks.{IsInRange};
ghost use Rattle.fv_walk.specs.Causes.{HasWalkCause};
ghost use Rattle.fv_walk.specs.Goings.{Reaches, StepsTo, Tracks, going_from};
ghost use Rattle.fv_walk.specs.Looks.{IsAhead, IsJudged};
ghost use Rattle.fv_walk.specs.Limiting.{IsLimits, IsLimitsOf, IsReady};
ghost use Rattle.fv_walk.specs.Visits.{IsUnder, IsVisit, item_of, leads_on, rooted};

use crate::block::note_block;
use crate::fault::WalkFault;
use crate::gather::gather;
use crate::limits::Limits;
use crate::look::{Looked, look_unless};
use crate::source::Source;
use crate::state::State;
use crate::visit::{Table, Visit};
use fv_bits::BitMap;
use fv_faults::{Fault, Lines};
use std::alloc::{AllocError, Global};

/// Walks along the pointers of a table, whose root stands in the label at a place, notes the lines of rules 1, 2, 4 and 5
/// (`docs/FORMAT.md`) that its blocks and pointers have, and answers which VVBNs the root has reached.
///
/// It ends at a VVBN that the root has reached before or that is a hole along the chain, and at a block that has a line itself. So it ends
/// over each image.
///
/// The one other error is want of memory. At either error some of the lines are noted. Costs at most one read for each pointer to a node or
/// an inode block that it comes to, which is one for each such block where nothing is wrong; a step for each pointer, the logarithm of the
/// number of names for each file, a bit for each VVBN, and memory for at most 128 blocks a level, at most seven levels.
pub fn walk_with_stops<S: Source>(
    alloc: Global,
    source: &mut S,
    lines: &mut Lines,
    limits: &Limits,
    label: u64,
    table: &Table,
) -> Result<BitMap, WalkFault>
    requires levels { table.now.levels ≤ 3 }
    requires root { table.now.root.stamp ≢ 0 → table.now.root.vvbn < limits.now.span }
    requires limits { IsLimits limits.now }
    requires span { limits.now.span < 2 ^ 32 }
    ensures lines { S.fits source.old → IsLimitsOf (S.volume source.old) limits.now
        → OnOk result (Adds (flat_map (λ s. s.lines) (steps (S.volume source.old) label (rooted table.now))) lines.old lines.new) }
    ensures reach { S.fits source.old → IsLimitsOf (S.volume source.old) limits.now
        → IfOk result (Reaches (S.volume source.old) (steps (S.volume source.old) label (rooted table.now))) }
    ensures size { IfOk result (λ reach. length reach ≡ limits.now.span) }
    ensures reads { S.reads source.old source.new }
    ensures cause { HasWalkCause (S.faults source.old) (S.faults source.new) result }
{
    let mut state = State::new(alloc, limits)?;
    let root = Visit::root(table, label);
    stop_from(source, &mut state, lines, &root, None, true)?;
    Ok(state.reach)
}

/// Walks from a pointer to a node or an inode block on, which may have been read ahead, in the tree of an inode file or of another file.
fn stop_from<S: Source>(
    source: &mut S,
    state: &mut State,
    lines: &mut Lines,
    visit: &Visit,
    ahead: Option<Looked>,
    of_inodes: bool,
) -> Result<(), WalkFault>
    requires visit { IsVisit visit.now }
    requires leads { leads_on visit.now ≡ true }
    requires range { IsInRange state.old.limits visit.now }
    requires ready { IsReady state.old }
    requires ahead { IfSome ahead (IsJudged visit.now) }
    ensures tracks { S.fits source.old → IsLimitsOf (S.volume source.old) state.old.limits → IsAhead (S.volume source.old) visit.now ahead
        → (before : Lines) → (done : List Step) → Tracks (S.volume source.old) before done state.old lines.old
        → OnOk result (Tracks (S.volume source.old) before
        (going_from (S.volume source.old) of_inodes (item_of visit.now) visit.now.block done) state.new lines.new) }
    ensures limits { state.new.limits ≡ state.old.limits }
    ensures ready { IsReady state.new }
    ensures reads { S.reads source.old source.new }
    ensures cause { HasWalkCause (S.faults source.old) (S.faults source.new) result }
{
    if visit.pointer.stamp == 0 {
        return Ok(());
    }
    let Some(children) = take_step(source, state, lines, visit, ahead)? else {
        return Ok(());
    };
    if visit.ends(of_inodes) {
        return Ok(());
    }
    let inside = visit.stays(of_inodes);
    let visits = children.as_slice();
    let gathered = gather(source, &*state, visits)?;
    for slot in 0..visits.len() {
        if visits[slot].leads_on() {
            let next = gathered.at(slot);
            stop_from(source, state, lines, &visits[slot], next, inside)?;
        } else {
            step_to_data(&*source, state, lines, &visits[slot])?;
        }
    }
    Ok(())
}

/// Makes a step along a pointer to a data block, unless it is a hole, and notes its line.
fn step_to_data<S: Source>(
    source: &S,
    state: &mut State,
    lines: &mut Lines,
    visit: &Visit,
) -> Result<(), AllocError>
    requires data { leads_on visit.now ≡ false }
    requires range { IsInRange state.old.limits visit.now }
    requires ready { IsReady state.old }
    ensures tracks { OnOk result (S.fits source.now → IsLimitsOf (S.volume source.now) state.old.limits
        → (of_inodes : Bool) → (before : Lines) → (done : List Step) → Tracks (S.volume source.now) before done state.old lines.old
        → Tracks (S.volume source.now) before
        (going_from (S.volume source.now) of_inodes (item_of visit.now) visit.now.block done) state.new lines.new) }
    ensures limits { state.new.limits ≡ state.old.limits }
    ensures ready { IsReady state.new }
{
    if visit.pointer.stamp == 0 {
        return Ok(());
    }
    let vvbn = visit.pointer.vvbn as u32;
    if state.reach.get(vvbn) {
        note_reach(lines, visit.block, 2)?;
        return Ok(());
    }
    state.reach.set(vvbn);
    let at = source.find(visit.pointer.vvbn);
    if at.is_none() {
        note_reach(lines, visit.block, 0)?;
        return Ok(());
    }
    Ok(())
}

/// Notes the line of rule 5 of a pointer in a block: `found` is 2 where its VVBN was reached before, and 0 where that is a hole.
fn note_reach(lines: &mut Lines, block: u64, found: u64) -> Result<(), AllocError>
    ensures { OnOk result (Adds (line 5 block 1 found ∷ []) lines.old lines.new) }
{
    lines.note(Fault {
        rule: 5,
        block,
        want: 1,
        found,
    })
}

/// Makes a step along a pointer to a node or an inode block, notes its lines, and answers the pointers below it where the walk goes on.
fn take_step<S: Source>(
    source: &mut S,
    state: &mut State,
    lines: &mut Lines,
    visit: &Visit,
    ahead: Option<Looked>,
) -> Result<Option<Vec<Visit>>, WalkFault>
    requires visit { IsVisit visit.now }
    requires leads { leads_on visit.now ≡ true }
    requires some { visit.now.pointer.stamp ≢ 0 }
    requires range { visit.now.pointer.vvbn < state.old.limits.span }
    requires ready { IsReady state.old }
    requires ahead { IfSome ahead (IsJudged visit.now) }
    ensures tracks { S.fits source.old → IsLimitsOf (S.volume source.old) state.old.limits → IsAhead (S.volume source.old) visit.now ahead
        → (before : Lines) → (done : List Step) → Tracks (S.volume source.old) before done state.old lines.old
        → OnOk result (Tracks (S.volume source.old) before
        (done ++ step (S.volume source.old) done (item_of visit.now) visit.now.block ∷ []) state.new lines.new) }
    ensures steps_to { S.fits source.old → IsLimitsOf (S.volume source.old) state.old.limits → IsAhead (S.volume source.old) visit.now ahead
        → (before : Lines) → (done : List Step) → Tracks (S.volume source.old) before done state.old lines.old
        → IfOk result (λ r. StepsTo (step (S.volume source.old) done (item_of visit.now) visit.now.block)
        (option_map (λ all. all.items) r)) }
    ensures under { IfOk result (λ r. IfSome r (λ all. All (λ v. IsUnder visit.now v × IsInRange state.old.limits v) all.items)) }
    ensures limits { state.new.limits ≡ state.old.limits }
    ensures ready { IsReady state.new }
    ensures reads { S.reads source.old source.new }
    ensures cause { HasWalkCause (S.faults source.old) (S.faults source.new) result }
{
    let vvbn = visit.pointer.vvbn as u32;
    if state.reach.get(vvbn) {
        note_reach(lines, visit.block, 2)?;
        return Ok(None);
    }
    state.reach.set(vvbn);
    let Some(found) = source.find(visit.pointer.vvbn) else {
        note_reach(lines, visit.block, 0)?;
        return Ok(None);
    };
    let looked = look_unless(source, visit, &found, ahead)?;
    let children = note_block(
        state.alloc,
        &mut state.names,
        lines,
        &state.limits,
        visit,
        found.pvbn,
        &looked,
    )?;
    Ok(children)
}
