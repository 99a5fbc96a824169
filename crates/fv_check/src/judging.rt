//! The check: pass by pass, each made only where those before found nothing.

ghost use Rattle.std.specs.Prelude.{◌≡◌, ◌≢◌, ◌↔◌, ℕ, [], IsTrue, IfOk};
ghost use Rattle.std.specs.List.Sorted.{IsStrictlySortedBy};
ghost use Rattle.fv_image.specs.Layout.{root_place};
ghost use Rattle.fv_image.specs.Held.{layout_at};
ghost use Rattle.fv_root.specs.Finding.{IsDamaged, IsInRange, root_found};
ghost use Rattle.fv_faults.specs.Faults.{passes};
ghost use Rattle.fv_faults.specs.FourthPass.{fourth_pass};
ghost use Rattle.fv_faults.specs.Lines.{fault_cmp, or_next};
ghost use Rattle.fv_faults.specs.ThirdPass.{third_pass};
ghost use Rattle.fv_first_pass.specs.Causes.{HasRead};
ghost use Rattle.fv_first_pass.specs.Verdicts.{Checks, IsVerdict};
ghost use Rattle.fv_third_pass.specs.Surveys.{HasRange, IsSurveyOf, layout_of};
ghost use Rattle.fv_check.specs.Judged.{BeginsPasses, IsJudged, JudgesKnown};

use crate::cached::Cached;
use crate::totals::count_totals;
use fv_disk::Disk;
use fv_faults::Lines;
use fv_first_pass::{CheckFault, Known, Verdict, note_roots, pass_one};
use fv_fourth_pass::pass_four;
use fv_root::{Found, RootFault, find_root};
use fv_second_pass::pass_two;
use fv_store::Store;
use fv_third_pass::{Survey, pass_three};
use std::alloc::Global;

/// How many blocks the passes after the first hold at once, 64 MB of them. Memory is taken as blocks come.
const HELD_BLOCKS: usize = 16_384;

/// Whether there is a line. Lines stand in their order.
fn has_lines(lines: &Lines) -> bool
    ensures any { IsTrue result ↔ (lines.now.lines.keys ≢ []) }
    ensures ordered { IsStrictlySortedBy fault_cmp lines.now.lines.keys }
{
    lines.lines.len() > 0
}

/// What is said of an aggregate of which a root behind an open gate hasn't its shape.
fn judge_roots<D: Disk>(alloc: Global, disk: &mut D) -> Result<Verdict, CheckFault>
    ensures says { IsTrue (D.shown disk.old).tells → (at want found : ℕ) → IsDamaged (D.shown disk.old).reads at want found
        → IfOk result (IsVerdict (D.shown disk.old).reads) }
    ensures read { HasRead (D.shown disk.old) (D.shown disk.new) result }
{
    let mut lines = Lines::new(alloc);
    note_roots(disk, &mut lines)?;
    // It is asked for what it says of the lines: they stand in their order.
    let _ = has_lines(&lines);
    Ok(Verdict::Faults(lines))
}

/// Makes the third and the fourth pass, by what the first two learnt, and counts the volumes where they find nothing.
fn judge_walked<D: Disk>(
    alloc: Global,
    disk: &mut D,
    survey: &Survey<'_, '_, '_>,
    lines: Lines,
) -> Result<Verdict, CheckFault>
    requires range { HasRange survey.now }
    requires clean { lines.lines.keys ≡ [] }
    ensures says { IsTrue (D.shown disk.old).tells → IsSurveyOf survey.now (D.shown disk.old).reads
        → IfOk result (IsJudged (layout_of survey.now (D.shown disk.old).reads).view
        (or_next (third_pass (layout_of survey.now (D.shown disk.old).reads))
        (fourth_pass (root_place survey.now.root.now.slot) (layout_of survey.now (D.shown disk.old).reads)))) }
    ensures read { HasRead (D.shown disk.old) (D.shown disk.new) result }
{
    let third = pass_three(alloc, disk, survey, lines)?;
    if has_lines(&third) {
        return Ok(Verdict::Faults(third));
    }
    let fourth = pass_four(alloc, disk, survey, third)?;
    if has_lines(&fourth) {
        return Ok(Verdict::Faults(fourth));
    }
    let totals = count_totals(alloc, survey)?;
    Ok(Verdict::Valid {
        volumes: totals.volumes,
        charged: totals.charged,
    })
}

/// Makes the passes after the first, by what that one read.
fn judge_known<D: Disk>(
    alloc: Global,
    disk: &mut D,
    root: &Found,
    known: &Known,
    lines: Lines,
) -> Result<Verdict, CheckFault>
    requires { BeginsPasses root.now known.now lines }
    ensures says { JudgesKnown (D.shown disk.old) root.now known.now result }
    ensures read { HasRead (D.shown disk.old) (D.shown disk.new) result }
{
    let mut second = lines;
    let reached = pass_two(alloc, disk, root, known, &mut second)?;
    if has_lines(&second) {
        return Ok(Verdict::Faults(second));
    }
    let survey = Survey {
        root,
        known,
        reached: &reached,
    };
    judge_walked(alloc, disk, &survey, second)
}

/// Makes these passes through a cache, which stands over the same disk afterwards.
#[tactic(auto, using(crate::proofs::Lent::same_loan, crate::proofs::Lent::read_back))]
fn judge_held<D: Disk>(
    alloc: Global,
    cached: &mut Cached<'_, '_, D>,
    root: &Found,
    known: &Known,
    lines: Lines,
) -> Result<Verdict, CheckFault>
    requires { BeginsPasses root.now known.now lines }
    ensures same { cached.new.disk.ghost_name ≡ cached.old.disk.ghost_name }
    ensures says { JudgesKnown (D.shown cached.old.disk.now) root.now known.now result }
    ensures read { HasRead (D.shown cached.old.disk.now) (D.shown cached.new.disk.now) result }
{
    judge_known(alloc, cached, root, known, lines)
}

/// Makes these passes over a disk: each reads a block of it only where it isn't among the last so many that they read.
fn judge_read<D: Disk>(
    alloc: Global,
    disk: &mut D,
    root: &Found,
    known: &Known,
    lines: Lines,
) -> Result<Verdict, CheckFault>
    requires { BeginsPasses root.now known.now lines }
    ensures says { JudgesKnown (D.shown disk.old) root.now known.now result }
    ensures read { HasRead (D.shown disk.old) (D.shown disk.new) result }
{
    let mut store = Store::new(alloc, HELD_BLOCKS)?;
    let mut cached = Cached {
        disk,
        store: &mut store,
    };
    judge_held(alloc, &mut cached, root, known, lines)
}

/// Makes the passes over the aggregate with this root.
fn judge<D: Disk>(alloc: Global, disk: &mut D, root: &Found) -> Result<Verdict, CheckFault>
    requires { IsInRange root.now }
    ensures says { IsTrue (D.shown disk.old).tells
        → IfOk result (IsJudged (layout_at (root_found root.now) (D.shown disk.old).reads).view
        (passes (root_place root.now.slot) (layout_at (root_found root.now) (D.shown disk.old).reads))) }
    ensures read { HasRead (D.shown disk.old) (D.shown disk.new) result }
{
    let mut first = Lines::new(alloc);
    let known = pass_one(alloc, disk, root, &mut first)?;
    if has_lines(&first) {
        return Ok(Verdict::Faults(first));
    }
    judge_read(alloc, disk, root, &known, first)
}

/// Checks the aggregate on a disk: `Valid` where it is sound, with the number of its volumes and the sum of what they are charged, in
/// blocks; else `Faults` with its fault lines (`docs/FORMAT.md`), one at least, in their order.
///
/// `NotAggregate` comes exactly where block 0 is no superblock or neither gate is open, `DiskFault` only where a read failed in this call,
/// `Memory` where memory was refused. It writes nothing and opens no session. No block is read more than three times as long as what the
/// passes after the first read fits in 16,384 blocks: the nodes and inode blocks of all roots, the maps, and the inner nodes of
/// containers; past that, a node or an inode block may be read three times for each root that leads to it. No data block is read. It takes
/// four bytes for each entry, a bit for each VVBN of each root, for one volume at a time what the third pass met of each pointer, and
/// those 16,384 blocks as they come.
pub fn check<D: Disk>(alloc: Global, disk: &mut D) -> Result<Verdict, CheckFault>
    ensures { Checks (D.shown disk.old) (D.shown disk.new) result }
{
    match find_root(disk) {
        Ok(root) => judge(alloc, disk, &root),
        Err(RootFault::Damaged { .. }) => judge_roots(alloc, disk),
        Err(RootFault::NotAggregate) => Err(CheckFault::NotAggregate),
        Err(RootFault::DiskFault) => Err(CheckFault::DiskFault),
    }
}
