//! Where blocks lie, and the nodes of containers.

use crate::image::Image;
use fv_codec::{ContainerInner, ContainerLeaf, Label};
use std::alloc::{AllocError, Global};

/// How many bits a block of a map has.
pub const BLOCK_BITS: u64 = 32_768;

/// How many entries a leaf has, and how many children an inner node.
pub const FAN: u64 = 256;

/// A node of a container, at its position.
#[derive(Clone, Copy)]
pub struct Node {
    /// 0 for a leaf.
    pub level: u64,
    pub number: u64,
    pub place: u64,
}

/// How many blocks each of the two areas of the aggregate map has.
pub fn area_blocks(blocks: u64) -> u64 {
    blocks.div_ceil(BLOCK_BITS)
}

/// The first block that can be allocated.
pub fn first_block(blocks: u64) -> u64 {
    area_blocks(blocks).saturating_mul(2).saturating_add(5)
}

/// How many blocks a map of a volume has.
pub fn map_blocks(label: &Label) -> u64 {
    u64::from(label.span).div_ceil(BLOCK_BITS)
}

/// How many entries a container has: one for each VVBN of the span, and for each block of 25 maps.
pub fn entries_of(label: &Label) -> u64 {
    u64::from(label.span).saturating_add(map_blocks(label).saturating_mul(25))
}

/// How many leaves a container has.
pub fn leaves_of(label: &Label) -> u64 {
    entries_of(label).div_ceil(FAN)
}

/// The least height, at least 1, whose fan-out covers the leaves.
pub fn height_of(label: &Label) -> u64 {
    if leaves_of(label) <= FAN { 1 } else { 2 }
}

impl Node {
    /// The children of an inner node that are there.
    fn children(&self, alloc: Global, image: &Image) -> Result<Vec<Node>, AllocError> {
        let mut children = Vec::new(alloc);
        if self.level == 0 {
            return Ok(children);
        }
        let Ok(inner) = ContainerInner::decode(&image.block(self.place)) else {
            return Ok(children);
        };
        for (child, place) in inner.children.iter().enumerate() {
            if *place != 0 {
                children.push(Node {
                    level: self.level.saturating_sub(1),
                    number: self.number.saturating_mul(FAN).saturating_add(child as u64),
                    place: u64::from(*place),
                })?;
            }
        }
        Ok(children)
    }

    /// The entries of a leaf, each with its VVBN, its place and its kind.
    pub fn entries(
        &self,
        alloc: Global,
        image: &Image,
    ) -> Result<Vec<(u64, u64, u64)>, AllocError> {
        let mut entries = Vec::new(alloc);
        if self.level != 0 {
            return Ok(entries);
        }
        let Ok(leaf) = ContainerLeaf::decode(&image.block(self.place)) else {
            return Ok(entries);
        };
        let first = self.number.saturating_mul(FAN);
        for (k, (pvbn, kind)) in leaf.pvbns.iter().zip(leaf.kinds.iter()).enumerate() {
            entries.push((
                first.saturating_add(k as u64),
                u64::from(*pvbn),
                u64::from(*kind),
            ))?;
        }
        Ok(entries)
    }
}

/// The root of a container.
pub fn root_of(label: &Label) -> Node {
    Node {
        level: u64::from(label.height),
        number: 0,
        place: u64::from(label.container),
    }
}

/// The nodes of a container in which nothing is wrong.
pub fn nodes_of(alloc: Global, image: &Image, label: &Label) -> Result<Vec<Node>, AllocError> {
    let mut nodes = Vec::new(alloc);
    let mut left = Vec::new(alloc);
    left.push(root_of(label))?;
    for _ in 0..u64::MAX {
        let Some(node) = left.pop() else {
            break;
        };
        nodes.push(node)?;
        let children = node.children(alloc, image)?;
        left.extend_from_slice(children.as_slice())?;
    }
    Ok(nodes)
}
