//! Trees as their blocks spell them.

use crate::memory::MemBlocks;
use crate::tests::pair::{OWNER, block, tree_at};
use fv_codec::Pointer;
use fv_tree::{Blocks, Tree, TreeFault};
use std::alloc::Global;

/// The word with which a node begins.
pub const MARK: u64 = 0x4656_4e4f_4445_3030;

/// A block of words at offsets.
fn words(words: &[(usize, u64)]) -> [u8; 4096] {
    let mut block = [0; 4096];
    for (at, word) in words {
        if *at <= 4088 {
            block[*at..*at + 8].copy_from_slice(&word.to_be_bytes());
        }
    }
    block
}

/// The block of a node of a level and place, with so many pointers: to VVBNs from one on, each so far apart.
pub fn node(level: u64, place: u64, count: u32, first: u32, apart: u32) -> [u8; 4096] {
    let mut block = words(&[(0, MARK), (8, level), (16, OWNER), (24, place)]);
    for child in 0..if count > 128 { 128 } else { count } {
        let at = 1024 + 24 * child as usize;
        let vvbn = u64::from(first).wrapping_add(u64::from(apart).wrapping_mul(u64::from(child)));
        if at <= 4072 {
            block[at..at + 8].copy_from_slice(&vvbn.to_be_bytes());
            block[at + 8..at + 16].copy_from_slice(&vvbn.wrapping_add(1).to_be_bytes());
            block[at + 16..at + 24].copy_from_slice(&1u64.to_be_bytes());
        }
    }
    block
}

/// The tree over blocks under the last VVBN that was placed.
fn over(alloc: Global, blocks: &MemBlocks, levels: u8) -> Tree {
    let vvbn = blocks.calls().saturating_sub(1);
    let root = Pointer {
        vvbn,
        pvbn: vvbn.wrapping_add(1),
        stamp: 1,
    };
    tree_at(alloc, levels, root)
}

/// A tree of two levels with the cells 0, 1 and 128: under the VVBNs 0, 1 and 2, the nodes over them under 3
/// and 4, and the root under 5.
pub fn small(alloc: Global) -> Result<(Tree, MemBlocks), TreeFault> {
    let mut blocks = MemBlocks::new(alloc);
    for cell in 0..3 {
        blocks.place(1, &block(cell))?;
    }
    blocks.place(2, &node(1, 0, 2, 0, 1))?;
    blocks.place(2, &node(1, 1, 1, 2, 1))?;
    blocks.place(3, &node(2, 0, 2, 3, 1))?;
    Ok((over(alloc, &blocks, 2), blocks))
}

/// A tree of one level over the cell 0 and another block in place of the node.
pub fn wrong(alloc: Global, root: &[u8; 4096]) -> Result<(Tree, MemBlocks), TreeFault> {
    let mut blocks = MemBlocks::new(alloc);
    blocks.place(1, &block(7))?;
    blocks.place(2, root)?;
    Ok((over(alloc, &blocks, 1), blocks))
}

/// A file of 100,000 cells that share one block: VVBN 0 is the cell, the nodes of level 1 follow, then those of
/// level 2 and the root's.
pub fn large(alloc: Global) -> Result<(Tree, MemBlocks), TreeFault> {
    let mut blocks = MemBlocks::new(alloc);
    blocks.place(1, &block(7))?;
    for place in 0..782 {
        let count = if place == 781 { 32 } else { 128 };
        blocks.place(2, &node(1, place, count, 0, 0))?;
    }
    for place in 0..7u32 {
        let count = if place == 6 { 14 } else { 128 };
        blocks.place(3, &node(2, u64::from(place), count, 1 + 128 * place, 1))?;
    }
    blocks.place(4, &node(3, 0, 7, 783, 1))?;
    Ok((over(alloc, &blocks, 3), blocks))
}
