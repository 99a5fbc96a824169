//! Noting the lines of a block. Each call answers whether there are none, and its one error is want of memory.

ghost use Rattle.std.specs.Prelude.{◌≡◌, ◌&&◌, [], ◌==◌, if◌then◌else◌, flat_map};
ghost use Rattle.fv_faults.specs.Lines.{expects, leads, unless, within};
ghost use Rattle.fv_faults.specs.Walks.{pointer_lines};
ghost use Rattle.fv_walk.specs.Noting.{Notes};
ghost use Rattle.fv_walk.specs.Limiting.{IsLimits};

use crate::limits::Limits;
use crate::visit::Visit;
use fv_codec::Pointer;
use fv_faults::{Fault, Lines};
use std::alloc::AllocError;

/// Whether both hold.
pub(crate) fn both(one: bool, other: bool) -> bool
    ensures { result ≡ (one && other) }
{
    one && other
}

/// Notes a line where a test doesn't hold.
#[tactic(auto, using(crate::proofs::Noting::unless_good, crate::proofs::Noting::unless_bad))]
pub(crate) fn note_unless(lines: &mut Lines, good: bool, fault: Fault) -> Result<bool, AllocError>
    ensures { Notes (unless good fault) lines.old lines.new result }
{
    if good {
        return Ok(true);
    }
    lines.note(fault)?;
    Ok(false)
}

/// Notes a line where a number isn't the one that is wanted.
pub(crate) fn expect(
    lines: &mut Lines,
    rule: u8,
    block: u64,
    want: u64,
    found: u64,
) -> Result<bool, AllocError>
    ensures { Notes (expects rule block want found) lines.old lines.new result }
{
    note_unless(
        lines,
        want == found,
        Fault {
            rule,
            block,
            want,
            found,
        },
    )
}

/// Notes a line of rule 2 where a number in a block passes its bounds.
#[tactic(auto, using(crate::proofs::Noting::within_low, crate::proofs::Noting::within_high, crate::proofs::Noting::within_fine))]
fn keep_within(
    lines: &mut Lines,
    block: u64,
    least: u64,
    greatest: u64,
    found: u64,
) -> Result<bool, AllocError>
    ensures { Notes (within block least greatest found) lines.old lines.new result }
{
    if found < least {
        lines.note(Fault {
            rule: 2,
            block,
            want: least,
            found,
        })?;
        return Ok(false);
    }
    if greatest < found {
        lines.note(Fault {
            rule: 2,
            block,
            want: greatest,
            found,
        })?;
        return Ok(false);
    }
    Ok(true)
}

/// Notes the lines of rule 2 of a pointer in a block: its VVBN is below the span, and its PVBN is unknown or lies where a block of a
/// volume can.
#[tactic(auto, using(crate::proofs::Noting::hole_says, crate::proofs::Noting::pointer_says))]
fn keep_pointer(
    lines: &mut Lines,
    limits: &Limits,
    block: u64,
    pointer: &Pointer,
) -> Result<bool, AllocError>
    requires { IsLimits limits.now }
    ensures { Notes (pointer_lines limits.now.blocks limits.now.span block pointer.now) lines.old lines.new result }
{
    if pointer.stamp == 0 {
        return Ok(true);
    }
    let below = keep_within(lines, block, 0, limits.span - 1, pointer.vvbn)?;
    let known = keep_known(lines, limits, block, pointer)?;
    Ok(both(below, known))
}

#[tactic(auto, using(crate::proofs::Noting::known_none, crate::proofs::Noting::known_some))]
fn keep_known(
    lines: &mut Lines,
    limits: &Limits,
    block: u64,
    pointer: &Pointer,
) -> Result<bool, AllocError>
    requires { IsLimits limits.now }
    ensures { Notes (if pointer.now.pvbn == 0 then [] else leads limits.now.blocks block pointer.now.pvbn) lines.old lines.new result }
{
    if pointer.pvbn == 0 {
        return Ok(true);
    }
    keep_within(lines, block, limits.first, limits.blocks - 1, pointer.pvbn)
}

/// Notes the lines of rule 2 of the pointers in a block.
#[tactic(auto, using(crate::proofs::Noting::each_more, crate::proofs::Noting::none))]
pub(crate) fn keep_pointers(
    lines: &mut Lines,
    limits: &Limits,
    block: u64,
    children: &[Visit],
) -> Result<bool, AllocError>
    requires { IsLimits limits.now }
    ensures { Notes (flat_map (λ v. pointer_lines limits.now.blocks limits.now.span block v.pointer) children.now) lines.old lines.new result }
{
    let mut clean = true;
    for child in children {
        let kept = keep_pointer(lines, limits, block, &child.pointer)?;
        clean = both(clean, kept);
    }
    Ok(clean)
}
