//! Blocks that were placed and aren't written yet.

ghost use Rattle.std.specs.Prelude.{◌≡◌, IsTrue, OnOk, OnErr, cond, option_copied, ℕ};
ghost use Rattle.std.specs.Ordering.{nat_cmp};
ghost use Rattle.std.specs.FinMap as fin;
ghost use Rattle.fv_store.specs.Held.{StandsOn};
ghost use Rattle.fv_disk.specs.Sparing.{Spares};
ghost use Rattle.fv_pool.specs.Keeping.{IsUnkept, kept_in, seen};

use fv_disk::{Block, Disk, Failed};
use fv_store::Store;
use std::alloc::{AllocError, Global};
use std::collections::BTreeMap;
use std::marker::Model;

/// The blocks by PVBN, each in a box of its own: the tree moves boxes, and no block.
type Boxes = BTreeMap<u32, Box<Block>>;

/// The blocks that were placed and aren't written yet, by PVBN. Contracts see a finite map from PVBN to
/// block.
#[derive(Drop)]
pub struct Kept {
    alloc: Global,
    blocks: Boxes,
}

impl Model for Kept {
    ghost use Rattle.std.specs.Ordering.{nat_cmp};
    ghost use Rattle.std.specs.FinMap as fin;
    ghost use Rattle.fv_pool.specs.Keeping.{Blocks, kept_in};
    ghost use Rattle.std.specs.Coded.{coded_ℕ, coded_list};

    ghost Value = { Blocks };

    ghost coded = { fin.code coded_ℕ (coded_list coded_ℕ) };

    ghost view = { λ kept. kept_in kept.blocks };
}

impl Kept {
    /// No block is kept. It takes no memory.
    pub fn new(alloc: Global) -> Kept
        ensures { result ≡ fin.empty }
    {
        Kept {
            alloc,
            blocks: BTreeMap::new(alloc),
        }
    }

    /// The block that is kept under a PVBN, `None` exactly where there is none. Costs a step for each
    /// level of a balanced tree of the kept blocks.
    pub fn get(&self, pvbn: u32) -> Option<&Block>
        ensures { option_copied result ≡ fin.get self.now pvbn }
    {
        match self.blocks.get(&pvbn) {
            Some(block) => Some(&**block),
            None => None,
        }
    }

    /// Keeps a block under a PVBN, in place of one kept there before. The one error is want of memory;
    /// nothing changes then.
    pub fn keep(&mut self, pvbn: u32, block: &Block) -> Result<(), AllocError>
        ensures kept { OnOk result (self.new ≡ fin.insert self.old pvbn block.now) }
        ensures failed { OnErr result (self.new ≡ self.old) }
    {
        if overwrite(&mut self.blocks, pvbn, block) {
            return Ok(());
        }
        let boxed = Box::new(self.alloc, *block)?;
        self.blocks.insert(pvbn, boxed)?;
        Ok(())
    }

    /// Keeps the block of a PVBN no more, if one is kept there. It takes no memory. Costs a step for each level of a balanced tree of the
    /// kept blocks.
    pub fn forget(&mut self, pvbn: u32)
        ensures { self.new ≡ fin.remove self.old pvbn }
    {
        let _ = self.blocks.remove(&pvbn);
    }

    /// Keeps no block any more. It takes no memory.
    pub fn clear(&mut self)
        ensures { self.new ≡ fin.empty }
    {
        self.blocks.clear();
    }

    /// Writes each kept block to its place and goes on keeping it. It takes no memory and reads nothing.
    /// The one error is a failed write. Costs a write for each kept block.
    pub fn write<D: Disk>(&self, store: &mut Store, disk: &mut D) -> Result<(), Failed>
        requires stands { StandsOn (D.shown disk.old) store.old.pairs }
        ensures written { IsTrue (D.shown disk.old).tells
            → OnOk result ((b : ℕ) → (D.shown disk.new).reads b ≡ seen self.now (D.shown disk.old).reads b) }
        ensures spares { Spares (IsUnkept self.now) (D.shown disk.old) (D.shown disk.new) result }
        ensures stands { StandsOn (D.shown disk.new) store.new.pairs }
    {
        write_blocks(&self.blocks, store, disk)
    }
}

/// Copies a block over the one that is kept under a PVBN, and says whether there is one.
fn overwrite(blocks: &mut Boxes, pvbn: u32, block: &Block) -> bool
    ensures { kept_in blocks.new ≡ cond result (fin.insert (kept_in blocks.old) pvbn block.now) (kept_in blocks.old) }
{
    match blocks.get_mut(&pvbn) {
        Some(kept) => {
            **kept = *block;
            true
        }
        None => false,
    }
}

/// Writes each block to its place.
fn write_blocks<D: Disk>(blocks: &Boxes, store: &mut Store, disk: &mut D) -> Result<(), Failed>
    requires stands { StandsOn (D.shown disk.old) store.old.pairs }
    ensures written { IsTrue (D.shown disk.old).tells
        → OnOk result ((b : ℕ) → (D.shown disk.new).reads b ≡ seen (kept_in blocks.now) (D.shown disk.old).reads b) }
    ensures spares { Spares (IsUnkept (kept_in blocks.now)) (D.shown disk.old) (D.shown disk.new) result }
    ensures stands { StandsOn (D.shown disk.new) store.new.pairs }
{
    for (pvbn, block) in blocks.iter() {
        store.put(disk, *pvbn, &**block)?;
    }
    Ok(())
}
