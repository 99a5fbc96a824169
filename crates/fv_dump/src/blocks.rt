//! The map of an aggregate: a letter for each block.

ghost use Rattle.std.specs.Prelude.{◌<◌};
ghost use Rattle.fv_dump.specs.Looking.{Looks, fault_of};

use crate::ending::Fault;
use crate::held::{is_set, read_held};
use crate::letters::Letters;
use crate::loading::read_container;
use crate::look::{Look, read};
use crate::taken::Taken;
use crate::text::Text;
use crate::volume::{BLOCK_BITS, Volume, read_volume};
use fv_codec::SLOTS;
use fv_root::{area_blocks, area_place};
use std::alloc::Global;

/// Tells what holds each block: a letter for each, 128 a line, in the order of the blocks. What can't be read is told before them. Costs a
/// block for each label, node of a container and block of a map, and a byte for each block.
#[tactic(auto, using(crate::proofs::Looking::looks_on, crate::proofs::Looking::looks_not))]
pub(crate) fn tell_blocks<L: Look>(
    alloc: Global,
    look: &mut L,
    text: &mut Text,
    taken: &Taken,
) -> Result<(), Fault>
    ensures { Looks (L.shown look.old) (L.shown look.new) (fault_of result) }
{
    let mut letters = Letters::new(alloc, taken.blocks)?;
    mark_fixed(&mut letters, taken.blocks);
    for slot in 0..SLOTS {
        mark_label(&mut letters, taken, slot);
        if let Some(volume) = read_volume(look, text, taken, slot)? {
            mark_volume(alloc, look, text, taken, &volume, &mut letters)?;
        }
    }
    mark_area(look, taken, &mut letters)?;
    letters.tell(look, text)
}

/// Marks the superblock, the gates, the roots and both map areas.
fn mark_fixed(letters: &mut Letters, blocks: u32) {
    letters.mark(0, b'S');
    letters.mark(1, b'G');
    letters.mark(2, b'G');
    letters.mark(3, b'R');
    letters.mark(4, b'R');
    for k in 0..2 * u64::from(area_blocks(blocks)) {
        letters.mark(5 + k, b'A');
    }
}

#[tactic(auto, using(crate::proofs::Looking::looks_on, crate::proofs::Looking::looks_not))]
fn mark_volume<L: Look>(
    alloc: Global,
    look: &mut L,
    text: &mut Text,
    taken: &Taken,
    volume: &Volume,
    letters: &mut Letters,
) -> Result<(), Fault>
    ensures { Looks (L.shown look.old) (L.shown look.new) (fault_of result) }
{
    let container = read_container(alloc, look, text, taken, volume)?;
    let held = read_held(alloc, look, volume, &container)?;
    letters.mark_container(&container, &held);
    Ok(())
}

/// Marks what the aggregate map holds and nothing was found to hold.
#[tactic(auto, using(crate::proofs::Looking::looks_on, crate::proofs::Looking::looks_not))]
fn mark_area<L: Look>(look: &mut L, taken: &Taken, letters: &mut Letters) -> Result<(), Fault>
    ensures { Looks (L.shown look.old) (L.shown look.new) (fault_of result) }
{
    for k in 0..area_blocks(taken.blocks) {
        let block = read(look, area_place(taken.blocks, taken.slot, k))?;
        for bit in 0..BLOCK_BITS {
            if is_set(&block, bit) {
                letters.mark_free(u64::from(BLOCK_BITS) * u64::from(k) + u64::from(bit), b'?');
            }
        }
    }
    Ok(())
}

/// Marks the place of the label of a slot below 64, where it has one.
fn mark_label(letters: &mut Letters, taken: &Taken, slot: u8)
    requires { slot < 64 }
{
    let at = taken.root.labels[usize::from(slot)];
    if at != 0 {
        letters.mark(u64::from(at), b'L');
    }
}
