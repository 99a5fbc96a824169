//! Which VVBNs of a volume are in use. An entry of another one is delayed: its block was freed in the volume, and not yet in the aggregate.

ghost use Rattle.std.specs.Prelude.{◌<◌, ◌^◌};
ghost use Rattle.fv_dump.specs.Looking.{Looks, fault_of};

use crate::container::Container;
use crate::ending::Fault;
use crate::look::{Look, read};
use crate::volume::{BLOCK_BITS, MAPS, Volume};
use fv_bits::BitMap;
use fv_disk::Block;
use std::alloc::Global;

/// The VVBNs in use: of the span those in a map that is in use, and of the blocks of maps those of a map that is in use. Costs a block for
/// each block of such a map, and a step for each bit of it.
#[tactic(auto, using(crate::proofs::Looking::looks_on, crate::proofs::Looking::looks_not))]
pub(crate) fn read_held<L: Look>(
    alloc: Global,
    look: &mut L,
    volume: &Volume,
    container: &Container,
) -> Result<BitMap, Fault>
    ensures { Looks (L.shown look.old) (L.shown look.new) (fault_of result) }
{
    let mut held = BitMap::new(alloc, volume.numbers())?;
    for map in 0..MAPS {
        if volume.uses_map(map) {
            read_map(look, volume, container, &mut held, map)?;
        }
    }
    Ok(held)
}

/// Takes the VVBNs of a map, and those of its blocks.
#[tactic(auto, using(crate::proofs::Looking::looks_on, crate::proofs::Looking::looks_not))]
fn read_map<L: Look>(
    look: &mut L,
    volume: &Volume,
    container: &Container,
    held: &mut BitMap,
    map: u32,
) -> Result<(), Fault>
    requires { map < 25 }
    ensures { Looks (L.shown look.old) (L.shown look.new) (fault_of result) }
{
    let blocks = volume.map_blocks();
    for k in 0..blocks {
        let vvbn = volume.map_vvbn(map, k);
        put(held, vvbn);
        let entry = container.entry(vvbn as usize);
        if entry.kind != 0 {
            let block = read(look, u64::from(entry.at))?;
            take_bits(held, volume.label.span, BLOCK_BITS * k, &block);
        }
    }
    Ok(())
}

/// Takes the numbers below the span whose bits are set in a block of a map, which has those from a number on.
fn take_bits(held: &mut BitMap, span: u32, from: u32, block: &Block)
    requires { from < 2 ^ 31 }
{
    for bit in 0..BLOCK_BITS {
        if from + bit < span && is_set(block, bit) {
            put(held, from + bit);
        }
    }
}

/// Whether a bit below 32,768 is set in a block of a map.
pub(crate) fn is_set(block: &Block, bit: u32) -> bool
    requires { bit < 32768 }
{
    (block[(bit / 8) as usize] >> (bit % 8)) & 1 == 1
}

fn put(held: &mut BitMap, vvbn: u32) {
    if vvbn < held.len() {
        held.set(vvbn);
    }
}

/// Whether a VVBN is in use.
pub(crate) fn is_held(held: &BitMap, vvbn: usize) -> bool {
    vvbn < held.len() as usize && held.get(vvbn as u32)
}
