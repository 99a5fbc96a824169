//! The root whose volumes are looked at.

ghost use Rattle.fv_dump.specs.Looking.{Ends, Looks, fault_of};

use crate::ending::Fault;
use crate::fixed::{gate_place, tell_root};
use crate::look::{Look, read};
use crate::text::Text;
use fv_codec::{Root, Super, gate_open};
use fv_root::{RootFault, root_place};

/// The root whose volumes are looked at, in an aggregate of so many blocks.
#[derive(Clone, Copy)]
pub(crate) struct Taken {
    /// How many blocks the aggregate has, from 512 to 1,048,576.
    pub(crate) blocks: u32,
    /// The slot of the root, 0 or 1.
    pub(crate) slot: u8,
    /// The root.
    pub(crate) root: Root,
    /// Whether it counts. It doesn't where the root behind the other gate, which is open, hasn't its shape.
    pub(crate) counts: bool,
}

/// The root that counts. Where a root behind an open gate hasn't its shape none counts; that is told, and then it is the other one, where
/// its gate is open and it has its shape.
#[tactic(auto, using(crate::proofs::Told::ends_shut, crate::proofs::Told::looks_end))]
pub(crate) fn take_root<L: Look>(look: &mut L, text: &mut Text) -> Result<Option<Taken>, Fault>
    ensures { Ends (L.shown look.old) (L.shown look.new) (fault_of result) }
{
    match look.look_for_root() {
        Ok(found) => Ok(Some(Taken {
            blocks: found.blocks,
            slot: found.slot,
            root: found.root,
            counts: true,
        })),
        Err(RootFault::Damaged { at, .. }) => take_other(look, text, at),
        Err(RootFault::NotAggregate) => Err(Fault::NotAggregate),
        Err(RootFault::DiskFault) => Err(Fault::Disk),
    }
}

/// The root of the slot that hasn't its root in this block.
#[tactic(auto, using(crate::proofs::Looking::looks_on, crate::proofs::Looking::looks_not))]
fn take_other<L: Look>(look: &mut L, text: &mut Text, at: u64) -> Result<Option<Taken>, Fault>
    ensures { Looks (L.shown look.old) (L.shown look.new) (fault_of result) }
{
    let bad = if at == root_place(0) { 0 } else { 1 };
    let block = read(look, at)?;
    tell_root(text, bad, at, &block);
    let slot = 1 - bad;
    let gate = read(look, gate_place(slot))?;
    if !gate_open(&gate) {
        return Ok(None);
    }
    let superblock = read(look, 0)?;
    let block = read(look, root_place(slot))?;
    Ok(taken_in(&superblock, slot, &block))
}

fn taken_in(superblock: &[u8; 4096], slot: u8, block: &[u8; 4096]) -> Option<Taken> {
    let Ok(superblock) = Super::decode(superblock) else {
        return None;
    };
    let Ok(root) = Root::decode(block) else {
        return None;
    };
    Some(Taken {
        blocks: superblock.blocks,
        slot,
        root,
        counts: false,
    })
}

/// Tells which root counts, and which is looked at.
pub(crate) fn tell_taken(text: &mut Text, taken: &Option<Taken>) {
    match taken {
        Some(taken) if taken.counts => {
            text.add_named(b"root", u64::from(taken.slot));
            text.add(b" counts\n");
        }
        Some(taken) => {
            text.add(b"no root counts, but ");
            text.add_named(b"root", u64::from(taken.slot));
            text.add(b" has its shape\n");
        }
        None => text.add(b"no root counts\n"),
    }
}
