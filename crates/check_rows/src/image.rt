//! Images in memory, as the blocks that aren't zero.

use fv_disk::Block;
use std::alloc::{AllocError, Global};

/// A block with its number.
#[derive(Clone, Copy)]
pub struct Laid {
    pub at: u64,
    pub block: Block,
}

/// The image of an aggregate, with a name.
#[derive(Drop)]
pub struct Image {
    pub name: String,
    /// The blocks that have been laid. All others are zero.
    pub laid: Vec<Laid>,
}

/// An image of zeros.
pub fn zeros(alloc: Global, name: &str) -> Result<Image, AllocError> {
    Ok(Image {
        name: String::from_str(alloc, name)?,
        laid: Vec::new(alloc),
    })
}

impl Image {
    /// The image again.
    pub fn copied(&self, alloc: Global) -> Result<Image, AllocError> {
        Ok(Image {
            name: String::from_str(alloc, self.name.as_str())?,
            laid: Vec::from_slice(alloc, self.laid.as_slice())?,
        })
    }

    /// What stands in a block.
    pub fn block(&self, at: u64) -> Block {
        for laid in self.laid.iter() {
            if laid.at == at {
                return laid.block;
            }
        }
        [0; 4096]
    }

    /// Writes bytes into a block, from an offset on.
    pub fn lay(&mut self, at: u64, offset: usize, bytes: &[u8]) -> Result<(), AllocError> {
        for laid in self.laid.iter_mut() {
            if laid.at == at {
                write(&mut laid.block, offset, bytes);
                return Ok(());
            }
        }
        let mut block = [0; 4096];
        write(&mut block, offset, bytes);
        self.laid.push(Laid { at, block })?;
        Ok(())
    }
}

/// Writes bytes into a block, as far as they are in it.
fn write(block: &mut Block, offset: usize, bytes: &[u8]) {
    for (into, byte) in block.iter_mut().skip(offset).zip(bytes) {
        *into = *byte;
    }
}

/// A bit of a map of bits, of which each byte has eight, the first in its least; clear past the block.
pub fn bit_in(block: &Block, bit: u64) -> bool {
    match block.get((bit / 8) as usize) {
        Some(byte) => (*byte >> (bit % 8)) & 1 == 1,
        None => false,
    }
}
