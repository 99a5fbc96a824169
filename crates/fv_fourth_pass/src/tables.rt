//! What one walk along each table of a volume notes and counts: hints, the pointers that rule 13 counts, and what reserves still need.

ghost use Rattle.std.specs.Prelude.{◌≡◌, ◌≤◌, ◌^◌, ◌∷◌, ◌++◌, [], ℕ, Bool, List, Option, IfOk, OnOk, map, option_copied};
ghost use Rattle.fv_codec.specs.Blocks.{IsLabel};
ghost use Rattle.fv_faults.specs.Adding.{Adds};
ghost use Rattle.fv_faults.specs.Met.{IsClean, met};
ghost use Rattle.fv_faults.specs.Walks.{Ground, steps};
ghost use Rattle.fv_image.specs.Seen.{roots_of};
ghost use Rattle.fv_image.specs.Views.{Rooted, head_of};
ghost use Rattle.fv_image.specs.Volumes.{volume_told};
ghost use Rattle.fv_model.specs.Space.{need};
ghost use Rattle.fv_third_pass.specs.Volumes.{AreClean, AreFew, root_of};
ghost use Rattle.fv_walk.specs.Causes.{HasWalkCause};
ghost use Rattle.fv_walk.specs.Sights.{sight_of};
ghost use Rattle.fv_walk.specs.Visits.{rooted};
ghost use Rattle.fv_fourth_pass.specs.declared.tally.Tally.{Tally as SpecTally};
ghost use Rattle.fv_fourth_pass.specs.Hinted.{hinted_lines};
ghost use Rattle.fv_fourth_pass.specs.Needed.{HasShared};
ghost use Rattle.fv_fourth_pass.specs.Noted.{hinted_roots};
ghost use Rattle.fv_fourth_pass.specs.Placed.{IsBased};
ghost use Rattle.fv_fourth_pass.specs.Tallied.{how_many_in};
ghost use Rattle.fv_fourth_pass.specs.Tallying.{Gains};
ghost use Rattle.fv_fourth_pass.specs.WalkedTables.{HasNoMarks, IsAskedOf, is_asked, number_lines};

use crate::bases::{is_splitting, note_none};
use crate::hints::HintJudge;
use crate::needs::{NeedTally, is_by_file};
use crate::places::{copies_of, has_known_places};
use crate::tally::Tally;
use fv_bits::BitMap;
use fv_codec::Label;
use fv_faults::Lines;
use fv_third_pass::MapRoot;
use fv_walk::{Both, Source, Visitor, WalkFault, walk};
use std::alloc::{AllocError, Global};
use std::collections::BTreeSet;

/// What is noted and counted along the tables of a volume.
#[derive(Debug, Drop)]
pub struct Walked {
    /// The lines with those that were noted.
    pub lines: Lines,
    /// How many blocks the reserves of the volume's files still need, at most 2^55.
    pub needed: u64,
}

/// What is noted and counted along the active table alone.
#[derive(Drop)]
struct Active {
    lines: Lines,
    tally: Tally,
    needed: u64,
}

/// Shows a visitor and a tally the pointers of a root, which stands in the label at a place.
fn show_root<S: Source, V: Visitor>(
    alloc: Global,
    source: &mut S,
    both: &mut Both<V, Tally>,
    label: u64,
    root: &MapRoot,
) -> Result<(), WalkFault>
    requires { root.now.table.levels ≤ 2 }
    ensures saw { S.fits source.old → OnOk result (V.sees both.old.first
        (map (sight_of (S.volume source.old)) (met (S.volume source.old) label (rooted root.now.table))) both.new.first) }
    ensures gains { S.fits source.old
        → OnOk result (Gains (S.volume source.old) label (root_of root.now ∷ []) both.old.second both.new.second) }
    ensures reads { S.reads source.old source.new }
    ensures cause { HasWalkCause (S.faults source.old) (S.faults source.new) result }
{
    both.second.root = u16::from(root.slot) + 1;
    walk(alloc, source, both, label, &root.table)?;
    Ok(())
}

/// Notes what rules 11 and 12 say of the tables of several roots, and shows a tally their pointers.
fn note_tables<S: Source>(
    alloc: Global,
    source: &mut S,
    both: &mut Both<HintJudge, Tally>,
    label: u64,
    roots: &[MapRoot],
) -> Result<(), WalkFault>
    requires { AreFew roots.now }
    ensures adds { S.fits source.old → AreClean (S.volume source.old) label roots.now
        → OnOk result (Adds (hinted_roots (S.volume source.old) label roots.now) both.old.first.lines both.new.first.lines) }
    ensures gains { S.fits source.old
        → OnOk result (Gains (S.volume source.old) label (map root_of roots.now) both.old.second both.new.second) }
    ensures reads { S.reads source.old source.new }
    ensures cause { HasWalkCause (S.faults source.old) (S.faults source.new) result }
{
    for k in 0..roots.len() {
        show_root(alloc, source, both, label, &roots[k])?;
    }
    Ok(())
}

/// Notes what rules 11 and 12 say of the active table of a volume, by its root, shows a tally its pointers, and counts what reserves need.
fn note_active<S: Source>(
    alloc: Global,
    source: &mut S,
    lines: Lines,
    tally: Tally,
    label: &Label,
    place: u64,
    root: &MapRoot,
    shared: BitMap,
) -> Result<Active, WalkFault>
    requires { root.now.table.levels ≤ 2 }
    ensures adds { S.fits source.old → IfOk result (λ active. IsClean (steps (S.volume source.old) place (rooted root.now.table))
        → Adds (hinted_lines (steps (S.volume source.old) place (rooted root.now.table))) lines active.lines) }
    ensures gains { S.fits source.old
        → IfOk result (λ active. Gains (S.volume source.old) place (root_of root.now ∷ []) tally active.tally) }
    ensures exact { S.fits source.old → rooted root.now.table ≡ (head_of label.entry.now).active
        → HasShared (S.volume source.old).view (S.volume source.old).slot (head_of label.entry.now) shared → IfOk result (λ active.
        active.needed ≡ need (volume_told (S.volume source.old).view (S.volume source.old).slot (head_of label.entry.now))) }
    ensures most { IfOk result (λ active. active.needed ≤ 2 ^ 55) }
    ensures reads { S.reads source.old source.new }
    ensures cause { HasWalkCause (S.faults source.old) (S.faults source.new) result }
{
    let hints = HintJudge { lines };
    if !is_by_file(label) {
        let mut both = Both {
            first: hints,
            second: tally,
        };
        show_root(alloc, source, &mut both, place, root)?;
        return Ok(Active {
            lines: both.first.lines,
            tally: both.second,
            needed: 0,
        });
    }
    let judge = Both {
        first: hints,
        second: NeedTally::new(shared, &root.table),
    };
    let mut both = Both {
        first: judge,
        second: tally,
    };
    show_root(alloc, source, &mut both, place, root)?;
    let needed = both.first.second.needed();
    let judge = both.first;
    Ok(Active {
        lines: judge.first.lines,
        tally: both.second,
        needed,
    })
}

/// A tally without marks, of unknown pointers where all places of a volume are known, and else of known ones by the copies of its base.
fn tally_of(
    alloc: Global,
    label: &Label,
    base: Option<&BitMap>,
    row: &[u32],
) -> Result<Tally, AllocError>
    ensures asked { IfOk result (λ tally. IsAskedOf label.entry.now (option_copied base.entry) row.now tally.copies) }
    ensures empty { IfOk result HasNoMarks }
{
    let mut copies = None;
    if !has_known_places(label) {
        copies = Some(copies_of(alloc, base, row)?);
    }
    Ok(Tally {
        copies,
        root: 0,
        marks: BTreeSet::new(alloc),
    })
}

/// How many pointers a tally has marks of.
fn count_marks(tally: &Tally) -> u64
    ensures { (g : Ground) (label : ℕ) (rs : List (ℕ × Rooted)) (start : SpecTally) → HasNoMarks start → Gains g label rs start tally.now
        → result ≡ how_many_in g start.copies rs }
{
    tally.marks.len() as u64
}

/// Whether rule 13 asks how many pointers of a volume are counted: in one of which all places are known, and in one that is being split.
fn is_asked(label: &Label) -> bool
    ensures { result ≡ is_asked label.entry.now }
{
    has_known_places(label) || is_splitting(label)
}

/// Notes the line of rule 13 on the pointers that a tally has marks of, where it is asked.
fn note_marks(lines: &mut Lines, label: &Label, place: u64, tally: &Tally) -> Result<(), AllocError>
    requires { IsLabel label.now }
    ensures { OnOk result ((g : Ground) (at : ℕ) (rs : List (ℕ × Rooted)) (start : SpecTally) (base : Option (List Bool)) (row : List ℕ)
        → IsAskedOf label.entry.now base row start.copies → HasNoMarks start → Gains g at rs start tally.now
        → rs ≡ roots_of (head_of label.entry.now) → IsBased g.view g.slot (head_of label.entry.now) base row
        → Adds (number_lines g.view g.slot place (head_of label.entry.now)) lines.old lines.new) }
{
    if is_asked(label) {
        note_none(lines, place, count_marks(tally))?;
    }
    Ok(())
}

/// Walks once along each table of a volume, by its label, which stands at a place, and by the roots that the label names. It notes what
/// rules 11 and 12 (`docs/FORMAT.md`) say of each pointer, and of rule 13 how many pointers are unknown in a volume of which all places are
/// known, and how many are known in one that is being split though they stand in the label, lead to a copy or stand in one. It counts what
/// the reserves of the volume's files still need, in blocks, at most 2^55: a block for each place that a reserve stands for and that has
/// none yet, or one that a snapshot or the base has, too; 0 of a volume of another kind than `file`. `base` has the VVBNs that its base
/// table reaches, `shared` those that its snapshots or the base reach, also while it is being split, and `row` the words of its entries.
/// The lines come back with those that are noted.
///
/// The one error beside a fault of the disk is want of memory. Costs what `walk` costs for each root and a step for each VVBN of a base;
/// memory for each pointer that is counted, and a bit for each VVBN.
pub fn note_roots<S: Source>(
    alloc: Global,
    source: &mut S,
    lines: Lines,
    label: &Label,
    place: u64,
    roots: &[MapRoot],
    base: Option<&BitMap>,
    row: &[u32],
    shared: BitMap,
) -> Result<Walked, WalkFault>
    requires label { IsLabel label.now }
    requires few { AreFew roots.now }
    ensures adds { S.fits source.old → AreClean (S.volume source.old) place roots.now
        → map root_of roots.now ≡ roots_of (head_of label.entry.now)
        → IsBased (S.volume source.old).view (S.volume source.old).slot (head_of label.entry.now) (option_copied base.entry) row.now
        → IfOk result (λ walked. Adds (hinted_roots (S.volume source.old) place roots.now
        ++ number_lines (S.volume source.old).view (S.volume source.old).slot place (head_of label.entry.now)) lines walked.lines) }
    ensures exact { S.fits source.old → map root_of roots.now ≡ roots_of (head_of label.entry.now)
        → HasShared (S.volume source.old).view (S.volume source.old).slot (head_of label.entry.now) shared → IfOk result (λ walked.
        walked.needed ≡ need (volume_told (S.volume source.old).view (S.volume source.old).slot (head_of label.entry.now))) }
    ensures most { IfOk result (λ walked. walked.needed ≤ 2 ^ 55) }
    ensures reads { S.reads source.old source.new }
    ensures cause { HasWalkCause (S.faults source.old) (S.faults source.new) result }
{
    let Some((first, rest)) = roots.split_first() else {
        return Ok(Walked { lines, needed: 0 });
    };
    let tally = tally_of(alloc, label, base, row)?;
    let active = note_active(alloc, source, lines, tally, label, place, first, shared)?;
    let mut both = Both {
        first: HintJudge {
            lines: active.lines,
        },
        second: active.tally,
    };
    note_tables(alloc, source, &mut both, place, rest)?;
    note_marks(&mut both.first.lines, label, place, &both.second)?;
    Ok(Walked {
        lines: both.first.lines,
        needed: active.needed,
    })
}
