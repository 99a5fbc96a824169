//! How the blocks of a crash are put together.

ghost use Rattle.std.specs.Prelude.{◌≡◌, ℕ, ◌<◌, ◌+◌, length, replicate, OnOk, IfOk, if◌then◌else◌};
ghost use Rattle.std.specs.Ordering.{nat_cmp};
ghost use Rattle.std.specs.BTreeSet.{contains};
ghost use Rattle.fv_disk.specs.Shown.{Image};
ghost use Rattle.fv_memdisk.specs.Past.{State, is_among, noted, blank, step, replay};
ghost use Rattle.fv_memdisk.specs.Blocks.{disk_of};
ghost use Rattle.fv_memdisk.specs.Tears.{Stands, StandsAt, IsTail, IsByteOf, image_of};

use crate::Tear;
use crate::blocks::Blocks;
use crate::kept::{Event, Kept};
use crate::unsettled::find_unsettled;
use fv_disk::Block;
use std::alloc::{AllocError, Global};
use std::collections::BTreeSet;

fn put_one(blocks: &mut Blocks, event: &Event) -> Result<(), AllocError>
    ensures { OnOk result ((s : State) → Stands blocks.old s → Stands blocks.new (step s event.now)) }
{
    if let Event::Write(at, block) = event {
        blocks.put(*at, block)?;
    }
    Ok(())
}

/// Puts what the events wrote over the blocks.
pub(crate) fn put_all(blocks: &mut Blocks, events: &[Kept]) -> Result<(), AllocError>
    ensures { OnOk result ((s : State) → Stands blocks.old s → Stands blocks.new (replay s events.now)) }
{
    for kept in events {
        put_one(blocks, &kept.event)?;
    }
    Ok(())
}

fn put_one_at(blocks: &mut Blocks, chosen: &BTreeSet<u64>, event: &Event) -> Result<(), AllocError>
    ensures { OnOk result ((s : State) (others : Image) → StandsAt chosen.now others blocks.old s → StandsAt chosen.now others blocks.new (step s event.now)) }
{
    if let Event::Write(at, block) = event {
        if chosen.contains(at) {
            blocks.put(*at, block)?;
        }
    }
    Ok(())
}

/// Puts what the events wrote over the chosen blocks.
pub(crate) fn put_all_at(
    blocks: &mut Blocks,
    chosen: &BTreeSet<u64>,
    events: &[Kept],
) -> Result<(), AllocError>
    ensures { OnOk result ((s : State) (others : Image) → StandsAt chosen.now others blocks.old s → StandsAt chosen.now others blocks.new (replay s events.now)) }
{
    for kept in events {
        put_one_at(blocks, chosen, &kept.event)?;
    }
    Ok(())
}

/// Fills these blocks with one byte.
pub(crate) fn fill_all(blocks: &mut Blocks, places: &[u64], byte: u8) -> Result<(), AllocError>
    ensures byte { byte < 256 }
    ensures filled { OnOk result ((a : ℕ) → disk_of blocks.new a ≡ (if is_among places.now a then replicate 4096 byte else disk_of blocks.old a)) }
{
    let full: Block = [byte; 4096];
    for at in places {
        blocks.put(*at, &full)?;
    }
    Ok(())
}

/// The set of these blocks.
pub(crate) fn set_of(alloc: Global, places: &[u64]) -> Result<BTreeSet<u64>, AllocError>
    ensures { IfOk result (λ chosen. (a : ℕ) → contains nat_cmp chosen a ≡ is_among places.now a) }
{
    let mut chosen = BTreeSet::new(alloc);
    for at in places {
        chosen.insert(*at)?;
    }
    Ok(chosen)
}

/// Makes of the blocks as they were at a barrier those that a crash leaves after the calls since.
fn tear_off(
    alloc: Global,
    blocks: &mut Blocks,
    since: &[Kept],
    written: &[u64],
    tear: Tear,
) -> Result<(), AllocError>
    ensures byte { IsByteOf tear }
    ensures content { OnOk result ((s : State) → Stands blocks.old s → IsTail s since.now written.now → (a : ℕ) → disk_of blocks.new a ≡ image_of tear (replay s since.now) a) }
{
    match tear {
        Tear::Old => Ok(()),
        Tear::New => put_all(blocks, since),
        Tear::Fill(byte) => fill_all(blocks, written, byte),
        Tear::First(count) => {
            let count = (count as usize).min(written.len());
            let chosen = set_of(alloc, &written[..count])?;
            put_all_at(blocks, &chosen, since)
        }
    }
}

/// The blocks that a crash leaves after these calls. Costs the calls, with a block for each write,
/// and the logarithm of the number of blocks for each of them.
pub(crate) fn torn(
    alloc: Global,
    base: &Blocks,
    past: &[Kept],
    tear: Tear,
) -> Result<Blocks, AllocError>
    ensures byte { IfOk result (λ _. IsByteOf tear) }
    ensures content { IfOk result (λ blocks. (a : ℕ) → disk_of blocks a ≡ image_of tear (replay (blank (disk_of base.now)) past.now) a) }
{
    let found = find_unsettled(alloc, past)?;
    let (before, since) = past.split_at(found.start);
    let mut blocks = base.copied()?;
    put_all(&mut blocks, before)?;
    tear_off(alloc, &mut blocks, since, &found.written, tear)?;
    Ok(blocks)
}
