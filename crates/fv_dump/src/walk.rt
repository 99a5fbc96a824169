//! A walk over the blocks of one table: it comes to each block once.

ghost use Rattle.fv_dump.specs.Looking.{Looks, fault_of};

use crate::ending::Fault;
use crate::finding::find;
use crate::look::{Look, read};
use crate::met::{Coming, end_at, enter};
use crate::taken::Taken;
use crate::text::Text;
use crate::volume::Volume;
use crate::volumes::begin;
use fv_bits::BitMap;
use fv_codec::{Pointer, Shape};
use fv_disk::Block;

/// The blocks of one table that were met.
#[derive(Drop)]
pub(crate) struct Walk {
    /// The table's map slot: 0 for the active table, 1 to 24 for those of snapshots.
    pub(crate) map: u8,
    /// The blocks that were met.
    pub(crate) met: BitMap,
}

/// A block that a walk came to.
#[derive(Clone, Copy)]
pub(crate) struct Found {
    /// Its place.
    pub(crate) at: u64,
    /// Its bytes.
    pub(crate) block: Block,
}

/// Begins a line on a table of a volume.
pub(crate) fn begin_in(text: &mut Text, volume: &Volume, map: u8) {
    begin(text, volume);
    if map != 0 {
        text.add_named(b"snapshot", u64::from(map));
        text.add(b" ");
    }
}

/// Tells what a block of the inode file isn't.
pub(crate) fn tell_no(
    text: &mut Text,
    volume: &Volume,
    map: u8,
    at: u64,
    what: &[u8],
    shape: &Shape,
) {
    begin_in(text, volume, map);
    text.add_named(b"block at", at);
    text.end_without(what, shape);
}

/// The block to which a pointer leads, where it isn't a hole. It is `None`, and that is told, where the walk met it before, where it lies
/// past the last block, and where the pointer doesn't know its place and no container does.
#[tactic(auto, using(crate::proofs::Looking::looks_on, crate::proofs::Looking::looks_not))]
pub(crate) fn block_under<L: Look>(
    look: &mut L,
    text: &mut Text,
    taken: &Taken,
    volume: &Volume,
    walk: &mut Walk,
    pointer: &Pointer,
) -> Result<Option<Found>, Fault>
    ensures { Looks (L.shown look.old) (L.shown look.new) (fault_of result) }
{
    if pointer.stamp == 0 {
        return Ok(None);
    }
    let Some(at) = place_of(look, taken, volume, pointer)? else {
        begin_in(text, volume, walk.map);
        text.add_named(b"vvbn", pointer.vvbn);
        text.add(b": no place\n");
        return Ok(None);
    };
    let coming = enter(&mut walk.met, at);
    if coming != Coming::New {
        begin_in(text, volume, walk.map);
        text.add(b"block ");
        end_at(text, at, coming);
        return Ok(None);
    }
    let block = read(look, at)?;
    Ok(Some(Found { at, block }))
}

/// The place to which a pointer leads: the one that it knows, or else that of its VVBN.
#[tactic(auto, using(crate::proofs::Looking::looks_on, crate::proofs::Looking::looks_not))]
fn place_of<L: Look>(
    look: &mut L,
    taken: &Taken,
    volume: &Volume,
    pointer: &Pointer,
) -> Result<Option<u64>, Fault>
    ensures { Looks (L.shown look.old) (L.shown look.new) (fault_of result) }
{
    if pointer.pvbn != 0 {
        return Ok(Some(pointer.pvbn));
    }
    find(look, taken, &volume.label, pointer.vvbn)
}
