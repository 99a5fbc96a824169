//! A disk whose blocks are read through a cache.

ghost use Rattle.fv_check.specs.Lending.{Caches};

use fv_disk::{Block, Disk, Failed};
use fv_store::Store;

/// The largest number of a block that may be held.
const LAST_HELD: u64 = 0xffff_ffff;

/// A disk that is lent, and a store for the blocks of it that were read last. It reads as the disk does, and calls it only for blocks that
/// the store doesn't hold. A block whose number takes more than 32 bits is never held: no block of an aggregate has one.
#[derive(Drop)]
pub(crate) struct Cached<'d, 's, D: Disk> {
    /// The disk.
    pub disk: &'d mut D,
    /// What is held of it.
    pub store: &'s mut Store,
    ghost caches: { Caches (D.shown disk.now) store.now.pairs },
}

impl<'d, 's, D: Disk> Disk for Cached<'d, 's, D> {
    ghost use Rattle.fv_check.specs.Lending.{lent_shown, laws_lent};

    ghost shown = { λ c. lent_shown c.disk.ghost_name (D.shown c.disk.now) };

    ghost laws = { λ c. laws_lent c.disk.ghost_name (D.shown c.disk.now) (D.laws c.disk.now) };

    #[tactic(auto, using(crate::proofs::Lent::reads_lent))]
    fn read(&mut self, at: u64, into: &mut Block) -> Result<(), Failed> {
        if at > LAST_HELD {
            return self.disk.read(at, into);
        }
        self.store.get(self.disk, at as u32, into)
    }

    #[tactic(auto, using(crate::proofs::Lent::writes_lent))]
    fn write(&mut self, at: u64, block: &Block) -> Result<(), Failed> {
        if at > LAST_HELD {
            return self.disk.write(at, block);
        }
        self.store.put(self.disk, at as u32, block)
    }

    #[tactic(auto, using(crate::proofs::Lent::settles_lent))]
    fn barrier(&mut self) -> Result<(), Failed> {
        self.disk.barrier()
    }

    fn faults(&self) -> u64 {
        self.disk.faults()
    }

    fn write_faults(&self) -> u64 {
        self.disk.write_faults()
    }
}
