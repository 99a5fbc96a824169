//! Blocks by their numbers.

ghost use Rattle.std.specs.Prelude.{◌≡◌, ◌==◌, ℕ, None, Some, OnOk, OnErr, IfOk, if◌then◌else◌};
ghost use Rattle.std.specs.Option.{option_copied};

use fv_disk::Block;
use std::alloc::{AllocError, Global};
use std::collections::BTreeMap;

// The blocks lie in boxes of their own, so that the map moves no block.
#[derive(Drop)]
pub(crate) struct Blocks {
    alloc: Global,
    map: BTreeMap<u64, Box<Block>>,
}

impl Blocks {
    ghost use Rattle.fv_memdisk.specs.Blocks.{found, Puts};

    pub(crate) fn new(alloc: Global) -> Self
        ensures { (a : ℕ) → found result a ≡ None }
    {
        Blocks {
            alloc,
            map: BTreeMap::new(alloc),
        }
    }

    pub(crate) fn get(&self, at: u64) -> Option<&Block>
        ensures { option_copied result ≡ found self.now at }
    {
        match self.map.get(&at) {
            Some(block) => Some(&**block),
            None => None,
        }
    }

    /// Puts a block in the place of the one there. At `Err` nothing changed.
    pub(crate) fn put(&mut self, at: u64, block: &Block) -> Result<(), AllocError>
        ensures put { OnOk result (Puts self.old self.new at block.now) }
        ensures stays { OnErr result ((a : ℕ) → found self.new a ≡ found self.old a) }
    {
        let boxed = Box::new(self.alloc, *block)?;
        self.map.insert(at, boxed)?;
        Ok(())
    }

    pub(crate) fn copied(&self) -> Result<Blocks, AllocError>
        ensures { IfOk result (λ copy. (a : ℕ) → found copy a ≡ found self.now a) }
    {
        Ok(Blocks {
            alloc: self.alloc,
            map: self.map.clone()?,
        })
    }
}
