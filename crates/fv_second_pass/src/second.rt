//! The second pass: the walks along the pointers of all roots, slot by slot.

ghost use Rattle.std.specs.Prelude.{◌≡◌, ◌≤◌, ◌<◌, ◌++◌, ◌∷◌, [], ℕ, IsTrue, length, get_or, None, IfOk, IfSome, OnOk};
ghost use Rattle.std.specs.Option.{option_map};
ghost use Rattle.fv_disk.specs.DiskCalls.{OnlyReads};
ghost use Rattle.fv_codec.specs.Blocks.{IsLabel};
ghost use Rattle.fv_image.specs.Views.{head_of};
ghost use Rattle.fv_image.specs.Held.{layout_at};
ghost use Rattle.fv_image.specs.Seen.{roots_of};
ghost use Rattle.fv_root.specs.Finding.{IsInRange, root_found};
ghost use Rattle.fv_root.specs.Formatted.{IsSize};
ghost use Rattle.fv_faults.specs.Adding.{Adds};
ghost use Rattle.fv_faults.specs.SecondPass.{second_pass};
ghost use Rattle.fv_first_pass.specs.Causes.{HasRead};
ghost use Rattle.fv_walk.specs.Causes.{HasWalkCause};
ghost use Rattle.fv_walk.specs.Limiting.{IsLimits};
ghost use Rattle.fv_second_pass.specs.Told.{IsKnown, IsLabelled, IsPassed, ground_at, shaped_label};
ghost use Rattle.fv_second_pass.specs.Reaching.{AllReached, AreReached, SlotReached, root_lines, slot_lines, slots_to};

use crate::reached::Reached;
use crate::roots::note_roots;
use crate::volume_source::VolumeSource;
use fv_bits::BitMap;
use fv_codec::Label;
use fv_disk::Disk;
use fv_faults::Lines;
use fv_first_pass::{CheckFault, Known};
use fv_root::{Found, first_block};
use fv_walk::{Limits, WalkFault};
use std::alloc::{AllocError, Global};

/// What numbers in pointers of a volume may be.
fn limits_of(root: &Found, label: &Label) -> Limits
    requires size { IsSize root.now.blocks }
    requires span { 1 ≤ label.now.span }
    ensures limits { IsLimits result }
    ensures blocks { result.blocks ≡ root.now.blocks }
    ensures span { result.span ≡ label.entry.now.span }
{
    Limits {
        blocks: u64::from(root.blocks),
        first: u64::from(first_block(root.blocks)),
        span: u64::from(label.span),
    }
}

/// The label of a slot, where it has one with its shape.
fn label_of(known: &Known, slot: u8) -> Option<&Label>
    requires { IsKnown known.now }
    ensures label { option_map (λ label. label.now) result ≡ shaped_label (get_or known.now.labels.items slot None) }
    ensures range { IfSome result (λ label. IsLabel label.now × (length label.now.snapshots ≡ 24)) }
{
    let at = usize::from(slot);
    if at >= known.labels.len() {
        return None;
    }
    match &known.labels[at] {
        Some(Ok(label)) => Some(label),
        _ => None,
    }
}

/// Walks along the roots of the label of a slot.
fn walk_volume<D: Disk>(
    alloc: Global,
    disk: &mut D,
    root: &Found,
    known: &Known,
    slot: u8,
    label: &Label,
    lines: &mut Lines,
) -> Result<Vec<Option<BitMap>>, WalkFault>
    requires root { IsInRange root.now }
    requires known { IsKnown known.now }
    requires slot { slot < 64 }
    requires label { IsLabel label.now }
    requires long { length label.now.snapshots ≡ 24 }
    ensures adds { IsTrue (D.shown disk.old).tells
        → IsLabelled (root_found root.now) (D.shown disk.old).reads known.now slot label.entry.now
        → OnOk result (Adds (root_lines (ground_at (root_found root.now) (D.shown disk.old).reads slot label.entry.now.span)
        (get_or root.now.root.labels slot 0) (roots_of (head_of label.entry.now))) lines.old lines.new) }
    ensures reach { IsTrue (D.shown disk.old).tells
        → IsLabelled (root_found root.now) (D.shown disk.old).reads known.now slot label.entry.now
        → IfOk result (λ maps. AreReached (ground_at (root_found root.now) (D.shown disk.old).reads slot label.entry.now.span)
        (get_or root.now.root.labels slot 0) (roots_of (head_of label.entry.now)) maps.items) }
    ensures only_reads { OnlyReads (D.shown disk.old) (D.shown disk.new) }
    ensures cause { HasWalkCause (D.shown disk.old).faults (D.shown disk.new).faults result }
{
    let at = u64::from(root.root.labels[usize::from(slot)]);
    let limits = limits_of(root, label);
    let mut source = VolumeSource {
        disk,
        root,
        known,
        slot,
        span: label.span,
    };
    note_roots(alloc, &mut source, lines, &limits, at, label)
}

/// Walks along the roots of the volume of a slot, and answers what they reach, if the slot has a volume.
fn note_slot<D: Disk>(
    alloc: Global,
    disk: &mut D,
    root: &Found,
    known: &Known,
    slot: u8,
    lines: &mut Lines,
) -> Result<Option<Vec<Option<BitMap>>>, CheckFault>
    requires root { IsInRange root.now }
    requires known { IsKnown known.now }
    requires slot { slot < 64 }
    ensures adds { IsTrue (D.shown disk.old).tells → OnOk result (IsPassed (root_found root.now) (D.shown disk.old).reads known.now
        → Adds (slot_lines (layout_at (root_found root.now) (D.shown disk.old).reads) slot) lines.old lines.new) }
    ensures reach { IsTrue (D.shown disk.old).tells → IfOk result (λ maps. IsPassed (root_found root.now) (D.shown disk.old).reads known.now
        → SlotReached (layout_at (root_found root.now) (D.shown disk.old).reads) slot maps) }
    ensures read { HasRead (D.shown disk.old) (D.shown disk.new) result }
{
    let Some(label) = label_of(known, slot) else {
        return Ok(None);
    };
    match walk_volume(alloc, disk, root, known, slot, label, lines) {
        Ok(maps) => Ok(Some(maps)),
        Err(WalkFault::DiskFault) => Err(CheckFault::DiskFault),
        Err(WalkFault::Memory) => Err(CheckFault::Memory),
    }
}

/// Adds what the roots of the next slot reach.
fn add(
    volumes: &mut Vec<Option<Vec<Option<BitMap>>>>,
    maps: Option<Vec<Option<BitMap>>>,
) -> Result<(), AllocError>
    ensures { OnOk result (volumes.new.items ≡ volumes.old.items ++ maps ∷ []) }
{
    volumes.push(maps)?;
    Ok(())
}

/// Walks along the roots of all slots.
fn note_slots<D: Disk>(
    alloc: Global,
    disk: &mut D,
    root: &Found,
    known: &Known,
    lines: &mut Lines,
) -> Result<Vec<Option<Vec<Option<BitMap>>>>, CheckFault>
    requires root { IsInRange root.now }
    requires known { IsKnown known.now }
    ensures adds { IsTrue (D.shown disk.old).tells → OnOk result (IsPassed (root_found root.now) (D.shown disk.old).reads known.now
        → Adds (slots_to (layout_at (root_found root.now) (D.shown disk.old).reads) 64) lines.old lines.new) }
    ensures reach { IsTrue (D.shown disk.old).tells
        → IfOk result (λ volumes. IsPassed (root_found root.now) (D.shown disk.old).reads known.now
        → (s : ℕ) → s < 64 → SlotReached (layout_at (root_found root.now) (D.shown disk.old).reads) s (get_or volumes.items s None)) }
    ensures read { HasRead (D.shown disk.old) (D.shown disk.new) result }
{
    let mut volumes = Vec::with_capacity(alloc, 64)?;
    for slot in 0..64 {
        let maps = note_slot(alloc, disk, root, known, slot, lines)?;
        add(&mut volumes, maps)?;
    }
    Ok(volumes)
}

/// Makes the second pass over the aggregate with this root: walks along the pointers of all roots of all volumes, notes the lines of rules
/// 1, 2, 4 and 5 that they have, and answers what each root reaches. It is for an aggregate in which the first pass found nothing, by what
/// that pass read (`known`). `DiskFault` comes only where a read failed, `Memory` where memory was refused.
///
/// It reads the disk alone: a node or an inode block once for each pointer of a root to it, which is once a root where nothing is wrong,
/// and no data block. What it answers takes a bit for each VVBN of each root: 512 bytes for one of the least span, 128 KiB for one of the
/// greatest. Beside that a walk takes up to 128 blocks a level, and each name of its files.
pub fn pass_two<D: Disk>(
    alloc: Global,
    disk: &mut D,
    root: &Found,
    known: &Known,
    lines: &mut Lines,
) -> Result<Reached, CheckFault>
    requires root { IsInRange root.now }
    requires known { IsKnown known.now }
    ensures adds { IsTrue (D.shown disk.old).tells → OnOk result (IsPassed (root_found root.now) (D.shown disk.old).reads known.now
        → Adds (second_pass (layout_at (root_found root.now) (D.shown disk.old).reads)) lines.old lines.new) }
    ensures reach { IsTrue (D.shown disk.old).tells
        → IfOk result (λ reached. IsPassed (root_found root.now) (D.shown disk.old).reads known.now
        → AllReached (layout_at (root_found root.now) (D.shown disk.old).reads) reached.volumes.items) }
    ensures read { HasRead (D.shown disk.old) (D.shown disk.new) result }
{
    let volumes = note_slots(alloc, disk, root, known, lines)?;
    Ok(Reached { volumes })
}
