//! The superblock, the gates and the roots, as text.

ghost use Rattle.fv_dump.specs.Looking.{Looks, fault_of};

use crate::ending::Fault;
use crate::look::{Look, read};
use crate::text::{Text, give};
use fv_codec::{Root, Super, gate_open};
use fv_disk::Block;
use fv_root::root_place;

/// The block that holds the superblock.
const SUPERBLOCK: u64 = 0;

/// The block that holds the gate of slot 0 or 1.
pub(crate) fn gate_place(slot: u8) -> u64 {
    1 + u64::from(slot)
}

/// Tells what stands in the superblock, and in the gate and the root of each slot, whether the gate is open or not.
#[tactic(auto, using(crate::proofs::Looking::looks_on, crate::proofs::Looking::looks_not))]
pub(crate) fn tell_fixed<L: Look>(look: &mut L, text: &mut Text) -> Result<(), Fault>
    ensures { Looks (L.shown look.old) (L.shown look.new) (fault_of result) }
{
    let block = read(look, SUPERBLOCK)?;
    tell_super(text, &block);
    tell_slot(look, text, 0)?;
    tell_slot(look, text, 1)?;
    give(look, text)
}

fn tell_super(text: &mut Text, block: &Block) {
    text.add_named(b"superblock at", SUPERBLOCK);
    match Super::decode(block) {
        Ok(superblock) => {
            text.add_named(b": blocks", u64::from(superblock.blocks));
            text.add(b"\n");
        }
        Err(shape) => text.end_without(b"superblock", &shape),
    }
}

#[tactic(auto, using(crate::proofs::Looking::looks_on, crate::proofs::Looking::looks_not))]
fn tell_slot<L: Look>(look: &mut L, text: &mut Text, slot: u8) -> Result<(), Fault>
    ensures { Looks (L.shown look.old) (L.shown look.new) (fault_of result) }
{
    let at = gate_place(slot);
    let gate = read(look, at)?;
    text.add_named(b"gate", u64::from(slot));
    text.add_named(b" at", at);
    text.add(if gate_open(&gate) {
        b": open\n"
    } else {
        b": closed\n"
    });
    let at = root_place(slot);
    let root = read(look, at)?;
    tell_root(text, slot, at, &root);
    Ok(())
}

/// Tells what stands in the block of a root.
pub(crate) fn tell_root(text: &mut Text, slot: u8, at: u64, block: &Block) {
    text.add_named(b"root", u64::from(slot));
    text.add_named(b" at", at);
    match Root::decode(block) {
        Ok(root) => tell_head(text, slot, &root),
        Err(shape) => text.end_without(b"root", &shape),
    }
}

fn tell_head(text: &mut Text, slot: u8, root: &Root) {
    text.add_named(b": generation", root.generation);
    text.add_named(b" version", u64::from(root.version));
    text.add(b"\n");
    for k in 0..64usize {
        let at = root.labels[k];
        if at != 0 {
            text.add_named(b"root", u64::from(slot));
            text.add_named(b" label", k as u64);
            text.add_named(b" at", u64::from(at));
            text.add(b"\n");
        }
    }
}
