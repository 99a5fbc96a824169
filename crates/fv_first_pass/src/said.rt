//! Lines of one number in a block.

ghost use Rattle.std.specs.Prelude.{◌≡◌, ◌++◌, [], ◌∷◌, OnOk};
ghost use Rattle.fv_root.specs.Formatted.{IsSize};
ghost use Rattle.fv_faults.specs.Lines.{expects, leads, line, unless, within};
ghost use Rattle.fv_faults.specs.Walks.{pointer_lines};

use fv_codec::Pointer;
use fv_faults::Fault;
use fv_root::first_block;
use std::alloc::AllocError;

/// Adds a line to those of a block.
pub(crate) fn say(
    found: &mut Vec<Fault>,
    rule: u8,
    block: u64,
    want: u64,
    value: u64,
) -> Result<(), AllocError>
    ensures { OnOk result (found.new.items ≡ found.old.items ++ line rule block want value ∷ []) }
{
    found.push(Fault {
        rule,
        block,
        want,
        found: value,
    })?;
    Ok(())
}

/// A line of a rule where a number isn't the one that is wanted.
pub(crate) fn expect(
    found: &mut Vec<Fault>,
    rule: u8,
    block: u64,
    want: u64,
    value: u64,
) -> Result<(), AllocError>
    ensures { OnOk result (found.new.items ≡ found.old.items ++ expects rule block want value) }
{
    if value != want {
        say(found, rule, block, want, value)?;
    }
    Ok(())
}

/// A line of a rule where a test doesn't hold.
pub(crate) fn say_unless(
    found: &mut Vec<Fault>,
    good: bool,
    rule: u8,
    block: u64,
    want: u64,
    value: u64,
) -> Result<(), AllocError>
    ensures { OnOk result (found.new.items ≡ found.old.items ++ unless good (line rule block want value)) }
{
    if !good {
        say(found, rule, block, want, value)?;
    }
    Ok(())
}

/// A line of rule 2 where a number passes its bounds.
pub(crate) fn bound(
    found: &mut Vec<Fault>,
    block: u64,
    least: u64,
    greatest: u64,
    value: u64,
) -> Result<(), AllocError>
    ensures { OnOk result (found.new.items ≡ found.old.items ++ within block least greatest value) }
{
    if value < least {
        return say(found, 2, block, least, value);
    }
    if value > greatest {
        return say(found, 2, block, greatest, value);
    }
    Ok(())
}

/// A line of rule 2 where a number leads to no place of a volume's block, in an aggregate of so many blocks.
pub(crate) fn lead(
    found: &mut Vec<Fault>,
    blocks: u32,
    block: u64,
    place: u64,
) -> Result<(), AllocError>
    requires { IsSize blocks }
    ensures { OnOk result (found.new.items ≡ found.old.items ++ leads blocks block place) }
{
    bound(
        found,
        block,
        u64::from(first_block(blocks)),
        u64::from(blocks - 1),
        place,
    )
}

/// Lines of rule 2 of a pointer of a volume with this span; a hole has none.
pub(crate) fn point(
    found: &mut Vec<Fault>,
    blocks: u32,
    span: u32,
    block: u64,
    pointer: &Pointer,
) -> Result<(), AllocError>
    requires { IsSize blocks }
    ensures { OnOk result (found.new.items ≡ found.old.items ++ pointer_lines blocks span block pointer.now) }
{
    if pointer.stamp == 0 {
        return Ok(());
    }
    bound(
        found,
        block,
        0,
        u64::from(span.saturating_sub(1)),
        pointer.vvbn,
    )?;
    if pointer.pvbn != 0 {
        lead(found, blocks, block, pointer.pvbn)?;
    }
    Ok(())
}
