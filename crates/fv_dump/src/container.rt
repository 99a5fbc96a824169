//! A container as far as it was read.

ghost use Rattle.std.specs.Prelude.{◌<◌, ◌^◌};

use fv_bits::BitMap;
use fv_codec::ContainerLeaf;
use std::alloc::{AllocError, Global};

/// An entry of a container; all of a hole is 0.
#[derive(Clone, Copy, Debug, PartialEq, Eq)]
pub(crate) struct Entry {
    /// The place of its block.
    pub(crate) at: u32,
    /// Its kind, 0 to 8.
    pub(crate) kind: u32,
}

/// A hole.
pub(crate) const HOLE: Entry = Entry { at: 0, kind: 0 };

/// What was read of a container so far.
#[derive(Drop)]
pub(crate) struct Container {
    /// Its entries, by VVBN.
    pub(crate) entries: Vec<Entry>,
    /// The places of its nodes.
    pub(crate) nodes: Vec<u64>,
    /// The blocks that were met.
    pub(crate) met: BitMap,
}

impl Container {
    /// Holes alone, of so many numbers, in an aggregate of so many blocks.
    pub(crate) fn new(alloc: Global, numbers: u32, blocks: u32) -> Result<Container, AllocError> {
        Ok(Container {
            entries: vec![in alloc; HOLE; numbers as usize]?,
            nodes: Vec::new(alloc),
            met: BitMap::new(alloc, blocks)?,
        })
    }

    /// The entry of a VVBN; a hole past the last one.
    pub(crate) fn entry(&self, vvbn: usize) -> Entry {
        if vvbn < self.entries.len() {
            self.entries[vvbn]
        } else {
            HOLE
        }
    }

    /// Takes the entries of a leaf as those from a VVBN on.
    pub(crate) fn take_leaf(&mut self, from: usize, leaf: &ContainerLeaf)
        requires { from < 2 ^ 32 }
    {
        for c in 0..256usize {
            if from + c < self.entries.len() {
                self.entries[from + c] = Entry {
                    at: leaf.pvbns[c],
                    kind: leaf.kinds[c],
                };
            }
        }
    }
}
