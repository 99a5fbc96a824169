//! The files of a table, as text.

ghost use Rattle.std.specs.Prelude.{◌<◌};
ghost use Rattle.fv_dump.specs.Looking.{Looks, fault_of};

use crate::ending::Fault;
use crate::look::Look;
use crate::taken::Taken;
use crate::text::{Text, give, name_in};
use crate::volume::Volume;
use crate::walk::{Walk, begin_in, block_under, tell_no};
use fv_bits::BitMap;
use fv_codec::{InodeBlock, InodeRecord, Node, Pointer};
use std::alloc::Global;

/// A table of a volume.
#[derive(Clone, Copy)]
pub(crate) struct Table {
    /// Its map slot: 0 for the active table, 1 to 24 for those of snapshots.
    pub(crate) map: u8,
    /// The levels of its inode file, at most 2.
    pub(crate) levels: u8,
    /// The pointer to the root of its inode file.
    pub(crate) root: Pointer,
}

/// Tells of the files of a table. Costs a block for each node of the inode
/// file and for each inode block, and a bit for each block of the aggregate.
#[tactic(auto, using(crate::proofs::Looking::looks_on, crate::proofs::Looking::looks_not))]
pub(crate) fn tell_files<L: Look>(
    alloc: Global,
    look: &mut L,
    text: &mut Text,
    taken: &Taken,
    volume: &Volume,
    table: &Table,
) -> Result<(), Fault>
    ensures { Looks (L.shown look.old) (L.shown look.new) (fault_of result) }
{
    let mut walk = Walk {
        map: table.map,
        met: BitMap::new(alloc, taken.blocks)?,
    };
    match table.levels {
        0 => tell_inodes(look, text, taken, volume, &mut walk, &table.root, 0)?,
        1 => tell_below(look, text, taken, volume, &mut walk, &table.root, 0)?,
        _ => tell_top(look, text, taken, volume, &mut walk, &table.root)?,
    }
    give(look, text)
}

/// The files below a node of level 2.
#[tactic(auto, using(crate::proofs::Looking::looks_on, crate::proofs::Looking::looks_not))]
fn tell_top<L: Look>(
    look: &mut L,
    text: &mut Text,
    taken: &Taken,
    volume: &Volume,
    walk: &mut Walk,
    pointer: &Pointer,
) -> Result<(), Fault>
    ensures { Looks (L.shown look.old) (L.shown look.new) (fault_of result) }
{
    let Some(node) = node_under(look, text, taken, volume, walk, pointer)? else {
        return Ok(());
    };
    for child in 0..128u32 {
        tell_below(
            look,
            text,
            taken,
            volume,
            walk,
            &node.children[child as usize],
            child,
        )?;
    }
    Ok(())
}

/// The files below a node of level 1, whose number on its level is below 128.
#[tactic(auto, using(crate::proofs::Looking::looks_on, crate::proofs::Looking::looks_not))]
fn tell_below<L: Look>(
    look: &mut L,
    text: &mut Text,
    taken: &Taken,
    volume: &Volume,
    walk: &mut Walk,
    pointer: &Pointer,
    place: u32,
) -> Result<(), Fault>
    requires { place < 128 }
    ensures { Looks (L.shown look.old) (L.shown look.new) (fault_of result) }
{
    let Some(node) = node_under(look, text, taken, volume, walk, pointer)? else {
        return Ok(());
    };
    for child in 0..128u32 {
        let pointer = &node.children[child as usize];
        tell_inodes(
            look,
            text,
            taken,
            volume,
            walk,
            pointer,
            128 * place + child,
        )?;
    }
    Ok(())
}

/// The node to which a pointer leads. Where its block hasn't its shape that is told.
#[tactic(auto, using(crate::proofs::Looking::looks_on, crate::proofs::Looking::looks_not))]
fn node_under<L: Look>(
    look: &mut L,
    text: &mut Text,
    taken: &Taken,
    volume: &Volume,
    walk: &mut Walk,
    pointer: &Pointer,
) -> Result<Option<Node>, Fault>
    ensures { Looks (L.shown look.old) (L.shown look.new) (fault_of result) }
{
    let Some(met) = block_under(look, text, taken, volume, walk, pointer)? else {
        return Ok(None);
    };
    match Node::decode(&met.block) {
        Ok(node) => Ok(Some(node)),
        Err(shape) => {
            tell_no(text, volume, walk.map, met.at, b"node", &shape);
            Ok(None)
        }
    }
}

/// The files of an inode block, whose number in the inode file is below 16,384.
#[tactic(auto, using(crate::proofs::Looking::looks_on, crate::proofs::Looking::looks_not))]
fn tell_inodes<L: Look>(
    look: &mut L,
    text: &mut Text,
    taken: &Taken,
    volume: &Volume,
    walk: &mut Walk,
    pointer: &Pointer,
    place: u32,
) -> Result<(), Fault>
    requires { place < 16384 }
    ensures { Looks (L.shown look.old) (L.shown look.new) (fault_of result) }
{
    let Some(met) = block_under(look, text, taken, volume, walk, pointer)? else {
        return Ok(());
    };
    match InodeBlock::decode(&met.block) {
        Ok(inodes) => tell_records(text, volume, walk.map, place, &inodes.files),
        Err(shape) => tell_no(text, volume, walk.map, met.at, b"inode block", &shape),
    }
    give(look, text)
}

fn tell_records(text: &mut Text, volume: &Volume, map: u8, place: u32, files: &[InodeRecord; 16])
    requires { place < 16384 }
{
    for k in 0..16u32 {
        let file = &files[k as usize];
        if file.name_length != 0 {
            tell_record(text, volume, map, 16 * place + k, file);
        }
    }
}

fn tell_record(text: &mut Text, volume: &Volume, map: u8, number: u32, file: &InodeRecord) {
    begin_in(text, volume, map);
    text.add_named(b"file", u64::from(number));
    text.add(b" ");
    text.add(name_in(&file.name, file.name_length));
    text.add_named(b" length", u64::from(file.length));
    text.add_named(b" reserve", u64::from(file.reserve));
    text.add_named(b" levels", u64::from(file.levels));
    text.add(b" root ");
    text.add_pointer(&file.root);
    text.add(b"\n");
}
