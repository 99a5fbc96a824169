//! The walks along the roots of one volume.

ghost use Rattle.std.specs.Prelude.{◌≡◌, ◌≤◌, ◌<◌, ◌^◌, ◌++◌, ◌∷◌, [], ℕ, length, IfOk, OnOk};
ghost use Rattle.fv_codec.specs.Blocks.{IsLabel, IsSnapRecord};
ghost use Rattle.fv_image.specs.Views.{head_of};
ghost use Rattle.fv_image.specs.Seen.{roots_of};
ghost use Rattle.fv_faults.specs.Adding.{Adds};
ghost use Rattle.fv_faults.specs.Walks.{steps};
ghost use Rattle.fv_walk.specs.Causes.{HasWalkCause};
ghost use Rattle.fv_walk.specs.Limiting.{IsLimits, IsLimitsOf};
ghost use Rattle.fv_walk.specs.Visits.{rooted};
ghost use Rattle.fv_second_pass.specs.Told.{AreWithin, IsWithin};
ghost use Rattle.fv_second_pass.specs.Reaching.{AreReached, IsReach, ReachesIf, root_lines, roots_if, walk_lines};

use fv_bits::BitMap;
use fv_codec::{Label, SnapRecord};
use fv_faults::Lines;
use fv_walk::{Limits, Source, Table, WalkFault, walk_with_stops};
use std::alloc::{AllocError, Global};

/// Walks along the pointers of a table, notes their lines, and answers which VVBNs are reached. A table of which the root is past the span
/// isn't walked: the first pass has a line of it.
fn note_table<S: Source>(
    alloc: Global,
    source: &mut S,
    lines: &mut Lines,
    limits: &Limits,
    label: u64,
    table: &Table,
) -> Result<BitMap, WalkFault>
    requires levels { table.now.levels ≤ 3 }
    requires limits { IsLimits limits.now }
    requires span { limits.now.span < 2 ^ 32 }
    ensures lines { S.fits source.old → IsLimitsOf (S.volume source.old) limits.now → IsWithin limits.now.span table.now.root
        → OnOk result (Adds (walk_lines (S.volume source.old) label (rooted table.now)) lines.old lines.new) }
    ensures reach { S.fits source.old → IsLimitsOf (S.volume source.old) limits.now → IsWithin limits.now.span table.now.root
        → IfOk result (IsReach (S.volume source.old) (steps (S.volume source.old) label (rooted table.now))) }
    ensures reads { S.reads source.old source.new }
    ensures cause { HasWalkCause (S.faults source.old) (S.faults source.new) result }
{
    if table.root.stamp != 0 && table.root.vvbn >= limits.span {
        let nothing = BitMap::new(alloc, limits.span as u32)?;
        return Ok(nothing);
    }
    walk_with_stops(alloc, source, lines, limits, label, table)
}

/// Walks along the pointers of the snapshot that a label's record names, where it names one.
fn note_snapshot<S: Source>(
    alloc: Global,
    source: &mut S,
    lines: &mut Lines,
    limits: &Limits,
    label: u64,
    snapshot: &SnapRecord,
) -> Result<Option<BitMap>, WalkFault>
    requires snapshot { IsSnapRecord snapshot.now }
    requires limits { IsLimits limits.now }
    requires span { limits.now.span < 2 ^ 32 }
    ensures lines { (j : ℕ) → S.fits source.old → IsLimitsOf (S.volume source.old) limits.now
        → AreWithin limits.now.span (roots_if j snapshot.now)
        → OnOk result (Adds (root_lines (S.volume source.old) label (roots_if j snapshot.now)) lines.old lines.new) }
    ensures reach { (j : ℕ) → S.fits source.old → IsLimitsOf (S.volume source.old) limits.now
        → AreWithin limits.now.span (roots_if j snapshot.now)
        → IfOk result (ReachesIf (S.volume source.old) label (roots_if j snapshot.now)) }
    ensures reads { S.reads source.old source.new }
    ensures cause { HasWalkCause (S.faults source.old) (S.faults source.new) result }
{
    if snapshot.name_length == 0 {
        return Ok(None);
    }
    let table = Table {
        levels: snapshot.levels,
        root: snapshot.root,
    };
    let reach = note_table(alloc, source, lines, limits, label, &table)?;
    Ok(Some(reach))
}

/// Adds what the root of the next map slot reaches.
fn add(maps: &mut Vec<Option<BitMap>>, reach: Option<BitMap>) -> Result<(), AllocError>
    ensures { OnOk result (maps.new.items ≡ maps.old.items ++ reach ∷ []) }
{
    maps.push(reach)?;
    Ok(())
}

/// Walks along the pointers of all roots of a label that lies at a place, notes their lines, and answers by map slot what each reaches.
pub(crate) fn note_roots<S: Source>(
    alloc: Global,
    source: &mut S,
    lines: &mut Lines,
    limits: &Limits,
    at: u64,
    label: &Label,
) -> Result<Vec<Option<BitMap>>, WalkFault>
    requires label { IsLabel label.now }
    requires long { length label.now.snapshots ≡ 24 }
    requires limits { IsLimits limits.now }
    requires span { limits.now.span < 2 ^ 32 }
    ensures lines { S.fits source.old → IsLimitsOf (S.volume source.old) limits.now
        → AreWithin limits.now.span (roots_of (head_of label.entry.now))
        → OnOk result (Adds (root_lines (S.volume source.old) at (roots_of (head_of label.entry.now))) lines.old lines.new) }
    ensures reach { S.fits source.old → IsLimitsOf (S.volume source.old) limits.now
        → AreWithin limits.now.span (roots_of (head_of label.entry.now))
        → IfOk result (λ maps. AreReached (S.volume source.old) at (roots_of (head_of label.entry.now)) maps.items) }
    ensures reads { S.reads source.old source.new }
    ensures cause { HasWalkCause (S.faults source.old) (S.faults source.new) result }
{
    let mut maps = Vec::with_capacity(alloc, 25)?;
    let active = Table {
        levels: label.levels,
        root: label.root,
    };
    let first = note_table(alloc, source, lines, limits, at, &active)?;
    add(&mut maps, Some(first))?;
    for slot in 0..24usize {
        let reach = note_snapshot(alloc, source, lines, limits, at, &label.snapshots[slot])?;
        add(&mut maps, reach)?;
    }
    Ok(maps)
}
