//! Where the nodes of a container lie.

ghost use Rattle.std.specs.Prelude.{◌≡◌, ◌≢◌, ◌<◌, ◌%◌, ◌++◌, ◌∷◌, [], ℕ, IsTrue, List, length, get_or, IfOk, OnOk};
ghost use Rattle.fv_codec.specs.Blocks.{inner_at};
ghost use Rattle.fv_image.specs.Containers.{child_in, fan, lying};
ghost use Rattle.fv_first_pass.specs.Causes.{HasRead};
ghost use Rattle.fv_third_pass.specs.Nodes.{at_places, below_blocks, level_below, node_blocks, over};
ghost use Rattle.fv_third_pass.specs.Tallied.{Tallies};

use crate::holders::Holders;
use crate::sizes::{leaf_count, middle_count};
use crate::words::{hold_places, word_in};
use fv_codec::{ContainerInner, Label};
use fv_disk::{Disk, ZERO};
use fv_first_pass::CheckFault;
use std::alloc::{AllocError, Global};

/// Reads an inner node. Where the place is 0, and where the block hasn't its shape, there is none.
fn read_inner<D: Disk>(disk: &mut D, at: u32) -> Result<Option<ContainerInner>, CheckFault>
    ensures value { IsTrue (D.shown disk.old).tells → IfOk result (λ node. node ≡ lying inner_at (D.shown disk.old).reads at) }
    ensures read { HasRead (D.shown disk.old) (D.shown disk.new) result }
{
    if at == 0 {
        return Ok(None);
    }
    let mut block = ZERO;
    disk.read(u64::from(at), &mut block)?;
    Ok(ContainerInner::decode(&block).ok())
}

/// The place of a child; an absent node has none.
fn child_in(node: &Option<ContainerInner>, number: usize) -> u32
    requires { number < 256 }
    ensures { result ≡ child_in node.now number }
{
    match node {
        None => 0,
        Some(node) => node.children[number],
    }
}

/// Reads the node over node `number` of a level, where it isn't the one over the node before.
fn go_over<D: Disk>(
    disk: &mut D,
    above: &[u32],
    number: usize,
    node: &mut Option<ContainerInner>,
) -> Result<(), CheckFault>
    ensures value { IsTrue (D.shown disk.old).tells
        → (number % fan ≢ 0 → node.old ≡ over (D.shown disk.old).reads above.now number)
        → OnOk result (node.new ≡ over (D.shown disk.old).reads above.now number) }
    ensures read { HasRead (D.shown disk.old) (D.shown disk.new) result }
{
    if number % 256 == 0 {
        *node = read_inner(disk, word_in(above, number / 256))?;
    }
    Ok(())
}

/// Adds the place of the next node.
fn add(places: &mut Vec<u32>, place: u32) -> Result<(), AllocError>
    ensures { OnOk result (places.new.items ≡ places.old.items ++ place ∷ []) }
{
    places.push(place)?;
    Ok(())
}

/// The places of the first so many nodes of a level, by those of the level over it, each of which is read once.
#[tactic(auto, using(fv_disk::proofs::Resting::reads_then))]
fn read_level<D: Disk>(
    alloc: Global,
    disk: &mut D,
    above: &[u32],
    width: usize,
) -> Result<Vec<u32>, CheckFault>
    ensures places { IsTrue (D.shown disk.old).tells
        → IfOk result (λ places. places.items ≡ level_below (D.shown disk.old).reads above.now width) }
    ensures read { HasRead (D.shown disk.old) (D.shown disk.new) result }
{
    let mut places = Vec::new(alloc);
    let mut node = None;
    for number in 0..width {
        go_over(disk, above, number, &mut node)?;
        add(&mut places, child_in(&node, number % 256))?;
    }
    Ok(places)
}

/// Counts the blocks of the first so many nodes of a level, and answers their places, by those of the level over it.
fn hold_level<D: Disk>(
    alloc: Global,
    disk: &mut D,
    above: &[u32],
    width: usize,
    holders: &mut Holders,
) -> Result<Vec<u32>, CheckFault>
    ensures places { IsTrue (D.shown disk.old).tells
        → IfOk result (λ places. places.items ≡ level_below (D.shown disk.old).reads above.now width) }
    ensures size { length holders.new.held ≡ length holders.old.held }
    ensures tallies { IsTrue (D.shown disk.old).tells → (list : List ℕ) → Tallies list holders.old
        → OnOk result (Tallies (list ++ at_places (level_below (D.shown disk.old).reads above.now width)) holders.new) }
    ensures read { HasRead (D.shown disk.old) (D.shown disk.new) result }
{
    let places = read_level(alloc, disk, above, width)?;
    hold_places(holders, &places)?;
    Ok(places)
}

/// Counts the blocks of the nodes below the root of a container, whose place stands alone in `top`.
fn hold_below<D: Disk>(
    alloc: Global,
    disk: &mut D,
    label: &Label,
    top: &[u32],
    holders: &mut Holders,
) -> Result<(), CheckFault>
    ensures size { length holders.new.held ≡ length holders.old.held }
    ensures tallies { IsTrue (D.shown disk.old).tells → (list : List ℕ) → Tallies list holders.old
        → OnOk result (Tallies (list ++ below_blocks (D.shown disk.old).reads label.entry.now top.now) holders.new) }
    ensures read { HasRead (D.shown disk.old) (D.shown disk.new) result }
{
    if label.height == 1 {
        hold_level(alloc, disk, top, leaf_count(label.span), holders)?;
        return Ok(());
    }
    let middle = hold_level(alloc, disk, top, middle_count(label.span), holders)?;
    hold_level(alloc, disk, &middle, leaf_count(label.span), holders)?;
    Ok(())
}

/// Counts the blocks of the nodes of a container, which has one or two levels of inner nodes. Each inner node is read once, and no leaf.
pub(crate) fn hold_nodes<D: Disk>(
    alloc: Global,
    disk: &mut D,
    label: &Label,
    holders: &mut Holders,
) -> Result<(), CheckFault>
    ensures size { length holders.new.held ≡ length holders.old.held }
    ensures tallies { IsTrue (D.shown disk.old).tells → (list : List ℕ) → Tallies list holders.old
        → OnOk result (Tallies (list ++ node_blocks (D.shown disk.old).reads label.entry.now) holders.new) }
    ensures read { HasRead (D.shown disk.old) (D.shown disk.new) result }
{
    let top = [label.container];
    hold_places(holders, &top)?;
    hold_below(alloc, disk, label, &top, holders)?;
    Ok(())
}
