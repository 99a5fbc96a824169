//! Reading a container from its root down: the lines of its nodes are noted, and its entries are kept. A node is read once, and nothing
//! below one that has a line.

ghost use Rattle.std.specs.Prelude.{◌≡◌, ◌≤◌, ◌<◌, ◌+◌, ◌*◌, ◌/◌, ◌%◌, ◌≢◌, ℕ, IsTrue, Some, None, Ok, Err, IfOk, OnOk, length, get_or};
ghost use Rattle.fv_codec.specs.Blocks.{IsContainerLeaf, IsEntry, inner_at, leaf_at};
ghost use Rattle.fv_image.specs.Containers.{level_width, shaped};
ghost use Rattle.fv_faults.specs.Adding.{Adds};
ghost use Rattle.fv_faults.specs.FirstPass.{inner_lines, leaf_lines};
ghost use Rattle.fv_first_pass.specs.Below.{below, child_at, entry_word};
ghost use Rattle.fv_first_pass.specs.Causes.{HasRead};
ghost use Rattle.fv_first_pass.specs.Sites.{IsSite, bare};
ghost use Rattle.fv_first_pass.specs.Filled.{Fills, FillsLeaf, IsNumber, Judges};
ghost use Rattle.fv_image.specs.Views.{entry_count};

use crate::child::entry_count;
use crate::fault::CheckFault;
use crate::noting::{note_inner, note_leaf, note_shape};
use crate::site::{Site, Spot};
use fv_codec::{ContainerInner, ContainerLeaf};
use fv_disk::{Block, Disk, ZERO};
use fv_faults::Lines;
use std::alloc::{AllocError, Global};

/// The entries of a leaf, and the children of an inner node.
const FAN: u32 = 256;

/// What one kind counts in the word of an entry.
const KIND: u32 = 16_777_216;

/// Reads a block.
pub(crate) fn read_block<D: Disk>(disk: &mut D, at: u32) -> Result<Block, CheckFault>
    ensures value { IsTrue (D.shown disk.old).tells → IfOk result (λ block. block ≡ (D.shown disk.old).reads at) }
    ensures read { HasRead (D.shown disk.old) (D.shown disk.new) result }
{
    let mut block = ZERO;
    disk.read(u64::from(at), &mut block)?;
    Ok(block)
}

/// An entry as one word.
#[tactic(auto, using(crate::proofs::Words::few))]
fn word_of(pvbn: u32, kind: u32) -> u32
    requires { IsEntry (pvbn, kind) }
    ensures { result ≡ entry_word (pvbn, kind) }
{
    kind * KIND + pvbn
}

/// Keeps a word, where the row goes so far.
fn keep(entries: &mut [u32], at: usize, word: u32)
    ensures long { length entries.new ≡ length entries.old }
    ensures here { at < length entries.old → get_or entries.new at 0 ≡ word }
    ensures others { (v : ℕ) → v ≢ at → get_or entries.new v 0 ≡ get_or entries.old v 0 }
{
    if at < entries.len() {
        entries[at] = word;
    }
}

/// Keeps the entries of a leaf.
#[tactic(auto, using(crate::proofs::Words::entry_of))]
fn fill(entries: &mut [u32], number: u32, leaf: &ContainerLeaf)
    requires number { number ≤ 65535 }
    requires range { IsContainerLeaf leaf.now }
    ensures filled { FillsLeaf number (Some leaf.now) entries.old entries.new }
{
    for c in 0..256 {
        let word = word_of(leaf.pvbns[c], leaf.kinds[c]);
        keep(entries, (FAN * number) as usize + c, word);
    }
}

/// Judges a leaf: notes its lines, and keeps its entries.
fn judge_leaf(
    alloc: Global,
    site: &Site,
    spot: Spot,
    block: &Block,
    lines: &mut Lines,
    entries: &mut [u32],
) -> Result<(), AllocError>
    requires site { IsSite site.now }
    requires number { spot.number ≤ 65535 }
    ensures adds { OnOk result
        (Adds (leaf_lines (bare site.now.blocks) site.now.label spot.number spot.at (leaf_at block.now)) lines.old lines.new) }
    ensures filled { OnOk result (FillsLeaf spot.number (shaped (leaf_at block.now)) entries.old entries.new) }
{
    match ContainerLeaf::decode(block) {
        Err(shape) => note_shape(lines, spot.at, shape),
        Ok(leaf) => {
            fill(entries, spot.number, &leaf);
            note_leaf(alloc, site, spot, &leaf, lines)
        }
    }
}

/// Reads a leaf.
#[tactic(auto, using(crate::proofs::Filling::absent_adds, crate::proofs::Filling::absent_fills, crate::proofs::Filling::leaf_adds, crate::proofs::Filling::leaf_fills))]
fn read_leaf<D: Disk>(
    alloc: Global,
    disk: &mut D,
    site: &Site,
    spot: Spot,
    lines: &mut Lines,
    entries: &mut [u32],
) -> Result<(), CheckFault>
    requires site { IsSite site.now }
    requires number { spot.number ≤ 65535 }
    ensures adds { IsTrue (D.shown disk.old).tells
        → OnOk result (Adds (below (D.shown disk.old).reads site.now 0 spot.number spot.at) lines.old lines.new) }
    ensures filled { IsTrue (D.shown disk.old).tells
        → OnOk result (Fills (D.shown disk.old).reads site.now 0 spot.number spot.at entries.old entries.new) }
    ensures read { HasRead (D.shown disk.old) (D.shown disk.new) result }
{
    if spot.at == 0 {
        return Ok(());
    }
    let block = read_block(disk, spot.at)?;
    judge_leaf(alloc, site, spot, &block, lines, entries)?;
    Ok(())
}

/// Judges an inner node of a level: notes its lines, and answers it where it has none.
fn judge_inner(
    alloc: Global,
    site: &Site,
    level: u8,
    spot: Spot,
    block: &Block,
    lines: &mut Lines,
) -> Result<Option<ContainerInner>, AllocError>
    requires site { IsSite site.now }
    requires level { level ≤ 2 }
    requires number { spot.number ≤ 65535 }
    ensures adds { OnOk result
        (Adds (inner_lines (bare site.now.blocks) site.now.label level spot.number spot.at (inner_at block.now)) lines.old lines.new) }
    ensures judges { IfOk result (Judges
        (inner_lines (bare site.now.blocks) site.now.label level spot.number spot.at (inner_at block.now)) (inner_at block.now)) }
{
    let node = match ContainerInner::decode(block) {
        Err(shape) => {
            note_shape(lines, spot.at, shape)?;
            return Ok(None);
        }
        Ok(node) => node,
    };
    if note_inner(alloc, site, level, spot, &node, lines)? {
        return Ok(Some(node));
    }
    Ok(None)
}

/// Where a child of an inner node lies: past the width of its level there is none.
fn child_of(site: &Site, level: u8, node: &ContainerInner, number: u32) -> Spot
    requires site { IsSite site.now }
    requires level { level ≤ 1 }
    ensures number { result.number ≡ number }
    ensures at { result.at ≡ child_at site.now level (Some node.now) number }
{
    let at = if number < width(site, level) {
        node.children[(number % FAN) as usize]
    } else {
        0
    };
    Spot { number, at }
}

/// How many nodes a level of the container has.
fn width(site: &Site, level: u8) -> u32
    requires site { IsSite site.now }
    requires level { level ≤ 1 }
    ensures { result ≡ level_width (entry_count site.now.label.span) level }
{
    let leaves = entry_count(site.label.span).div_ceil(FAN);
    if level == 0 {
        return leaves;
    }
    leaves.div_ceil(FAN).max(1)
}

/// Reads the node of a level, and what is below it.
#[tactic(auto, using(fv_disk::proofs::Resting::reads_then, crate::proofs::Filling::absent_adds, crate::proofs::Filling::absent_fills))]
pub(crate) fn read_node<D: Disk>(
    alloc: Global,
    disk: &mut D,
    site: &Site,
    level: u8,
    spot: Spot,
    lines: &mut Lines,
    entries: &mut [u32],
) -> Result<(), CheckFault>
    requires site { IsSite site.now }
    requires level { level ≤ 2 }
    requires number { IsNumber level spot.number }
    ensures adds { IsTrue (D.shown disk.old).tells
        → OnOk result (Adds (below (D.shown disk.old).reads site.now level spot.number spot.at) lines.old lines.new) }
    ensures filled { IsTrue (D.shown disk.old).tells
        → OnOk result (Fills (D.shown disk.old).reads site.now level spot.number spot.at entries.old entries.new) }
    ensures read { HasRead (D.shown disk.old) (D.shown disk.new) result }
{
    if level == 0 {
        return read_leaf(alloc, disk, site, spot, lines, entries);
    }
    if spot.at == 0 {
        return Ok(());
    }
    let block = read_block(disk, spot.at)?;
    let Some(node) = judge_inner(alloc, site, level, spot, &block, lines)? else {
        return Ok(());
    };
    for c in 0..FAN {
        let child = child_of(site, level - 1, &node, FAN * spot.number + c);
        read_node(alloc, disk, site, level - 1, child, lines, entries)?;
    }
    Ok(())
}
