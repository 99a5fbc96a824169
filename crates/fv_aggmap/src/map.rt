//! The map itself.

ghost use Rattle.std.specs.Prelude.{◌≡◌, ◌<◌, ◌≤◌, length, slice_set, true, false, IsTrue, IfOk, IfErr, IfSome, IfNone};
ghost use Rattle.fv_disk.specs.DiskCalls.{OnlyReads};
ghost use Rattle.fv_disk.specs.Faults.{HasBlockCause};
ghost use Rattle.fv_root.specs.Finding.{IsInRange};
ghost use Rattle.fv_root.specs.Formatted.{IsSize};
ghost use Rattle.fv_container.specs.Spelled.{is_at};
ghost use Rattle.fv_aggmap.specs.Giving.{HasGiven};
ghost use Rattle.fv_aggmap.specs.Loading.{IsFault, IsLoaded};
ghost use Rattle.std.specs.FinSet as set;
ghost use Rattle.fv_aggmap.specs.Freeing.{room_of};
ghost use Rattle.fv_aggmap.specs.Space.{IsFree, IsFull, blocks_of, free_blocks};

use crate::fault::AggFault;
use crate::free::{clear_from, find_free, freed};
use crate::load::read_area;
use fv_bits::BitMap;
use fv_disk::Disk;
use fv_root::{Found, first_block};
use std::alloc::Global;
use std::marker::Model;

/// The blocks of an aggregate: those that the root on the disk holds, and those that the next root will
/// hold. Contracts see the two sets.
#[derive(Drop)]
pub struct AggMap {
    committed: BitMap,
    next: BitMap,
    /// The first block that can be allocated.
    first: u32,
    /// Where the search for a free block goes on.
    cursor: u32,
    /// How many blocks are free.
    free: u32,
}

impl Model for AggMap {
    ghost use Rattle.fv_aggmap.specs.Space.{Space, IsKept};

    ghost Value = { Space };

    ghost view = { λ map. record { committed = map.committed; next = map.next } };

    ghost invariant = { λ map. IsKept map.committed map.next map.first map.cursor map.free };
}

impl AggMap {
    /// Reads the map area of the root that was found: both sets are the blocks that it says are held.
    /// `Damaged` comes exactly where a bit is set past the last block, with the first such bit, `DiskFault`
    /// only where a read failed in this call, and `Memory` where memory ran out. It reads one map area,
    /// changes nothing on the disk, and costs a bit twice for each block.
    pub fn load<D: Disk>(alloc: Global, disk: &mut D, found: &Found) -> Result<AggMap, AggFault>
        requires { IsInRange found.now }
        ensures loaded { IsTrue (D.shown disk.old).tells → IfOk result (IsLoaded (D.shown disk.old).reads found.now) }
        ensures size { IfOk result (λ map. blocks_of map ≡ found.now.blocks) }
        ensures fault { IsTrue (D.shown disk.old).tells → IfErr result (IsFault (D.shown disk.old).reads found.now) }
        ensures only_reads { OnlyReads (D.shown disk.old) (D.shown disk.new) }
        ensures cause { HasBlockCause (D.shown disk.old).faults (D.shown disk.new).faults result }
    {
        let mut committed = BitMap::new(alloc, found.blocks)?;
        let mut next = BitMap::new(alloc, found.blocks)?;
        read_area(disk, found, &mut committed)?;
        next.copy_from(&committed);
        let first = first_block(found.blocks);
        let free = clear_from(&committed, first);
        Ok(AggMap {
            committed,
            next,
            first,
            cursor: first,
            free,
        })
    }

    /// How many blocks the aggregate has: each set has numbers below it.
    pub fn blocks(&self) -> u32
        ensures value { result ≡ blocks_of self.now }
        ensures next { result ≡ length self.now.next }
        ensures size { IsSize (blocks_of self.now) }
    {
        self.committed.len()
    }

    /// How many blocks are free: they can be allocated, and neither set has them. It is kept, and costs
    /// a step.
    pub fn free_count(&self) -> u32
        ensures value { result ≡ free_blocks self.now }
        ensures room { result ≡ set.len (room_of self.now).free }
    {
        self.free
    }

    /// The set that the next root will hold.
    pub fn next_map(&self) -> &BitMap
        ensures value { result.now ≡ self.now.next }
        ensures size { length result.now ≡ blocks_of self.now }
    {
        &self.next
    }

    /// Takes a free block for the next root, and answers `None` exactly where there is none. The search
    /// goes on from where the last one ended and turns once: it costs a step for each word of 64 blocks
    /// that is passed, and for each run of blocks that one of the sets has alone. It takes no memory.
    pub fn take_free(&mut self) -> Option<u32>
        ensures none { IfNone result (IsFull self.old) }
        ensures some { IfSome result (IsFree self.old) }
        ensures taken { IfSome result (λ b. self.new ≡ record self.old { next = slice_set self.old.next b true }) }
        ensures unchanged { IfNone result (self.new ≡ self.old) }
        ensures size { IsSize (blocks_of self.old) }
        ensures same { length self.old.next ≡ blocks_of self.old }
    {
        let at = find_free(&self.committed, &self.next, self.first, self.cursor)?;
        self.next.set(at);
        self.cursor = at + 1;
        self.free -= 1;
        Some(at)
    }

    /// Says that the next root won't hold a block. A block that the root on the disk holds isn't free
    /// before the next commit. It costs a step and takes no memory.
    pub fn release_after_commit(&mut self, pvbn: u32)
        requires { pvbn < blocks_of self.old }
        ensures { self.new ≡ record self.old { next = slice_set self.old.next pvbn false } }
    {
        self.free += freed(&self.committed, &self.next, self.first, pvbn);
        self.next.clear(pvbn);
    }

    /// Gives a block back: the next root won't hold it, as `release_after_commit` says. 0 is no block, and neither is a number past the
    /// last one; nothing changes then. It costs a step and takes no memory.
    pub fn give_back(&mut self, place: u32)
        ensures { HasGiven self.old (λ b. is_at b place) self.new }
    {
        if place != 0 && place < self.blocks() {
            self.release_after_commit(place);
        }
    }

    /// Says that the next root is on the disk: the set that it holds is the committed one, too. It costs
    /// a step for each word of 64 blocks, as the commit did, and takes no memory.
    pub fn committed(&mut self)
        ensures { self.new ≡ record { committed = self.old.next; next = self.old.next } }
    {
        self.committed.copy_from(&self.next);
        self.free = clear_from(&self.next, self.first);
    }
}
