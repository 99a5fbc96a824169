//! Reading a container, from its root down to the leaves. What can't be read is told, and the rest goes on.

ghost use Rattle.std.specs.Prelude.{◌<◌, ◌^◌};
ghost use Rattle.fv_dump.specs.Looking.{Looks, fault_of};

use crate::container::Container;
use crate::ending::Fault;
use crate::look::{Look, read};
use crate::met::{Coming, end_at, enter};
use crate::taken::Taken;
use crate::text::Text;
use crate::volume::Volume;
use crate::volumes::begin;
use fv_codec::{ContainerInner, ContainerLeaf, Shape};
use fv_disk::Block;
use std::alloc::Global;

/// Reads the container of a volume. A node of it that was met before, lies past the last block or hasn't its shape is told, and what it
/// would lead to counts as holes. Costs a block for each node, and eight bytes for each number of the volume.
#[tactic(auto, using(crate::proofs::Looking::looks_on, crate::proofs::Looking::looks_not))]
pub(crate) fn read_container<L: Look>(
    alloc: Global,
    look: &mut L,
    text: &mut Text,
    taken: &Taken,
    volume: &Volume,
) -> Result<Container, Fault>
    ensures { Looks (L.shown look.old) (L.shown look.new) (fault_of result) }
{
    let mut container = Container::new(alloc, volume.numbers(), taken.blocks)?;
    let root = u64::from(volume.label.container);
    if volume.label.height == 1 {
        read_low(look, text, volume, &mut container, root, 0)?;
    } else {
        read_top(look, text, volume, &mut container, root)?;
    }
    Ok(container)
}

/// Reads what lies below a node of level 2.
#[tactic(auto, using(crate::proofs::Looking::looks_on, crate::proofs::Looking::looks_not))]
fn read_top<L: Look>(
    look: &mut L,
    text: &mut Text,
    volume: &Volume,
    container: &mut Container,
    at: u64,
) -> Result<(), Fault>
    ensures { Looks (L.shown look.old) (L.shown look.new) (fault_of result) }
{
    let Some(node) = read_inner(look, text, volume, container, at)? else {
        return Ok(());
    };
    for child in 0..256usize {
        read_low(
            look,
            text,
            volume,
            container,
            u64::from(node.children[child]),
            child,
        )?;
    }
    Ok(())
}

/// Reads what lies below a node of level 1, whose number on its level is below 256.
#[tactic(auto, using(crate::proofs::Looking::looks_on, crate::proofs::Looking::looks_not))]
fn read_low<L: Look>(
    look: &mut L,
    text: &mut Text,
    volume: &Volume,
    container: &mut Container,
    at: u64,
    place: usize,
) -> Result<(), Fault>
    requires { place < 256 }
    ensures { Looks (L.shown look.old) (L.shown look.new) (fault_of result) }
{
    if 65536 * place >= container.entries.len() {
        return Ok(());
    }
    let Some(node) = read_inner(look, text, volume, container, at)? else {
        return Ok(());
    };
    for child in 0..256usize {
        let from = 65536 * place + 256 * child;
        read_leaf(
            look,
            text,
            volume,
            container,
            u64::from(node.children[child]),
            from,
        )?;
    }
    Ok(())
}

#[tactic(auto, using(crate::proofs::Looking::looks_on, crate::proofs::Looking::looks_not))]
fn read_inner<L: Look>(
    look: &mut L,
    text: &mut Text,
    volume: &Volume,
    container: &mut Container,
    at: u64,
) -> Result<Option<ContainerInner>, Fault>
    ensures { Looks (L.shown look.old) (L.shown look.new) (fault_of result) }
{
    let Some(block) = read_node(look, text, volume, container, at)? else {
        return Ok(None);
    };
    match ContainerInner::decode(&block) {
        Ok(node) => Ok(Some(node)),
        Err(shape) => {
            tell_no(text, volume, at, b"inner node", &shape);
            Ok(None)
        }
    }
}

/// Reads the leaf that has the entries from a VVBN on.
#[tactic(auto, using(crate::proofs::Looking::looks_on, crate::proofs::Looking::looks_not))]
fn read_leaf<L: Look>(
    look: &mut L,
    text: &mut Text,
    volume: &Volume,
    container: &mut Container,
    at: u64,
    from: usize,
) -> Result<(), Fault>
    requires { from < 2 ^ 32 }
    ensures { Looks (L.shown look.old) (L.shown look.new) (fault_of result) }
{
    if from >= container.entries.len() {
        return Ok(());
    }
    let Some(block) = read_node(look, text, volume, container, at)? else {
        return Ok(());
    };
    match ContainerLeaf::decode(&block) {
        Ok(leaf) => container.take_leaf(from, &leaf),
        Err(shape) => tell_no(text, volume, at, b"leaf", &shape),
    }
    Ok(())
}

/// Reads the block of a node; an absent one is at 0.
#[tactic(auto, using(crate::proofs::Looking::looks_on, crate::proofs::Looking::looks_not))]
fn read_node<L: Look>(
    look: &mut L,
    text: &mut Text,
    volume: &Volume,
    container: &mut Container,
    at: u64,
) -> Result<Option<Block>, Fault>
    ensures { Looks (L.shown look.old) (L.shown look.new) (fault_of result) }
{
    if at == 0 {
        return Ok(None);
    }
    let coming = enter(&mut container.met, at);
    if coming != Coming::New {
        begin(text, volume);
        text.add(b"container ");
        end_at(text, at, coming);
        return Ok(None);
    }
    let Ok(()) = container.nodes.push(at) else {
        return Err(Fault::Memory);
    };
    let block = read(look, at)?;
    Ok(Some(block))
}

fn tell_no(text: &mut Text, volume: &Volume, at: u64, what: &[u8], shape: &Shape) {
    begin(text, volume);
    text.add_named(b"container at", at);
    text.end_without(what, shape);
}
