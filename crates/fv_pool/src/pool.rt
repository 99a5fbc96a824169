//! What the volumes of an aggregate share.

ghost use Rattle.std.specs.Prelude.{◌≡◌, IsTrue, OnOk, OnErr, ℕ, IfSome};
ghost use Rattle.std.specs.FinMap as fin;
ghost use Rattle.fv_codec.specs.Forms.{has_form};
ghost use Rattle.fv_disk.specs.DiskCalls.{OnlyReads};
ghost use Rattle.fv_disk.specs.Shown.{HasCause};
ghost use Rattle.fv_store.specs.Held.{StandsOn};
ghost use Rattle.fv_root.specs.Finding.{IsInRange};
ghost use Rattle.fv_disk.specs.Sparing.{Spares};
ghost use Rattle.fv_pool.specs.BlocksOver.{LeavesPool};
ghost use Rattle.fv_pool.specs.Causes.{WithBlockFault};
ghost use Rattle.fv_pool.specs.Keeping.{IsUnkept, seen};
ghost use Rattle.fv_pool.specs.Opening.{OpensPool};

use crate::fault::VolumeFault;
use crate::kept::Kept;
use fv_aggmap::AggMap;
use fv_codec::{Form, has_form};
use fv_container::Containers;
use fv_disk::{Block, BlockFault, Disk, Failed};
use fv_root::Found;
use fv_store::Store;
use std::alloc::{AllocError, Global};

/// How many blocks the cache holds: 4 MiB of them, which bounds the memory for reads whatever the aggregate's size. The way to a block of a
/// file has at most seven blocks, so the ways of more than a hundred files stay in memory (`docs/SPACE.md`).
const CACHED: usize = 1024;

/// What the volumes of an aggregate share.
#[derive(Drop)]
pub struct Pool {
    /// Reads through a cache of 1024 blocks.
    pub store: Store,
    /// Which blocks the root on the disk holds, and which the next root will hold.
    pub map: AggMap,
    /// The containers of the volumes, by slot.
    pub containers: Containers,
    /// The blocks that were placed and aren't written yet, by PVBN.
    pub kept: Kept,
    /// The root on the disk that counts, with its slot.
    pub found: Found,
    /// The version of the format that the next root will have.
    pub version: u8,
}

impl Pool {
    /// Reads the aggregate map of the root that was found: nothing is kept, and no slot has a container.
    ///
    /// # Errors
    /// `Damaged` comes exactly where a bit of the map is set past the last block: the block of the map
    /// area, the last block's number and the bit's. `DiskFault` comes only where a read failed in this
    /// call, and `Memory` where memory ran out.
    ///
    /// It reads one map area and writes nothing. It takes memory for a bit twice for each block of the
    /// aggregate, and for a cache of 1024 blocks as it fills.
    pub fn open<D: Disk>(alloc: Global, disk: &mut D, found: Found) -> Result<Pool, BlockFault>
        requires range { IsInRange found }
        ensures { OpensPool (D.shown disk.old) found (D.shown disk.new) result }
    {
        let map = AggMap::load(alloc, disk, &found)?;
        let store = Store::new(alloc, CACHED)?;
        let containers = Containers::new(alloc)?;
        Ok(Pool {
            store,
            map,
            containers,
            kept: Kept::new(alloc),
            version: found.root.version,
            found,
        })
    }

    /// As `open`, with its fault as one of volumes; nothing is `Refused`. Costs what `open` costs.
    pub fn load<D: Disk>(alloc: Global, disk: &mut D, found: Found) -> Result<Pool, VolumeFault>
        requires range { IsInRange found }
        ensures { WithBlockFault (OpensPool (D.shown disk.old) found (D.shown disk.new)) result }
    {
        Ok(Pool::open(alloc, disk, found)?)
    }

    /// Reads the block of a PVBN: the kept one without a disk call, which can't fail, and else what the store reads there.
    /// `Failed` comes only where a read failed in this call. Costs at most one block.
    pub fn read<D: Disk>(&mut self, disk: &mut D, pvbn: u32, into: &mut Block) -> Result<(), Failed>
        requires stands { StandsOn (D.shown disk.old) self.old.store.pairs }
        ensures block { IsTrue (D.shown disk.old).tells → OnOk result (into.new ≡ seen self.old.kept (D.shown disk.old).reads pvbn) }
        ensures untouched { IfSome (fin.get self.old.kept pvbn) (λ block. into.new ≡ block) }
        ensures kept { IfSome (fin.get self.old.kept pvbn) (λ block. OnErr result ⊥ × ((self.new ≡ self.old) × (disk.new ≡ disk.old))) }
        ensures leaves { LeavesPool self.old self.new }
        ensures stands { StandsOn (D.shown disk.new) self.new.store.pairs }
        ensures only_reads { OnlyReads (D.shown disk.old) (D.shown disk.new) }
        ensures cause { HasCause (D.shown disk.old).faults (D.shown disk.new).faults result }
    {
        if let Some(block) = self.kept.get(pvbn) {
            *into = *block;
            return Ok(());
        }
        self.store.get(disk, pvbn, into)
    }

    /// As `read`, and tells whether the block has a form: whether it spells a node, or an inode block. A block that the
    /// cache holds is judged once, and a kept one at each call. At `Err` also `has` is open.
    pub fn read_as<D: Disk>(
        &mut self,
        disk: &mut D,
        pvbn: u32,
        form: Form,
        into: &mut Block,
        has: &mut bool,
    ) -> Result<(), Failed>
        requires stands { StandsOn (D.shown disk.old) self.old.store.pairs }
        ensures form { OnOk result (has.new ≡ has_form form into.new) }
        ensures block { IsTrue (D.shown disk.old).tells → OnOk result (into.new ≡ seen self.old.kept (D.shown disk.old).reads pvbn) }
        ensures untouched { IfSome (fin.get self.old.kept pvbn) (λ block. into.new ≡ block) }
        ensures kept { IfSome (fin.get self.old.kept pvbn) (λ block. OnErr result ⊥ × ((self.new ≡ self.old) × (disk.new ≡ disk.old))) }
        ensures leaves { LeavesPool self.old self.new }
        ensures stands { StandsOn (D.shown disk.new) self.new.store.pairs }
        ensures only_reads { OnlyReads (D.shown disk.old) (D.shown disk.new) }
        ensures cause { HasCause (D.shown disk.old).faults (D.shown disk.new).faults result }
    {
        if let Some(block) = self.kept.get(pvbn) {
            *into = *block;
            *has = has_form(into, form);
            return Ok(());
        }
        self.store.get_as(disk, pvbn, form, into, has)
    }

    /// Keeps a block under a PVBN, in place of one kept there before. The one error is want of memory;
    /// nothing changes then.
    pub fn keep(&mut self, pvbn: u32, block: &Block) -> Result<(), AllocError>
        ensures kept { OnOk result (self.new ≡ record self.old { kept = fin.insert self.old.kept pvbn block.now }) }
        ensures failed { OnErr result (self.new ≡ self.old) }
    {
        self.kept.keep(pvbn, block)
    }

    /// Writes the kept blocks to their places; none is kept afterwards. It takes no memory and reads
    /// nothing. The one error is a failed write; the blocks are kept then. Costs a write for each kept
    /// block.
    pub fn write_kept<D: Disk>(&mut self, disk: &mut D) -> Result<(), Failed>
        requires stands { StandsOn (D.shown disk.old) self.old.store.pairs }
        ensures empty { OnOk result (self.new.kept ≡ fin.empty) }
        ensures failed { OnErr result (self.new.kept ≡ self.old.kept) }
        ensures written { IsTrue (D.shown disk.old).tells
            → OnOk result ((b : ℕ) → (D.shown disk.new).reads b ≡ seen self.old.kept (D.shown disk.old).reads b) }
        ensures writes { Spares (IsUnkept self.old.kept) (D.shown disk.old) (D.shown disk.new) result }
        ensures map { self.new.map ≡ self.old.map }
        ensures containers { self.new.containers ≡ self.old.containers }
        ensures found { self.new.found ≡ self.old.found }
        ensures version { self.new.version ≡ self.old.version }
        ensures stands { StandsOn (D.shown disk.new) self.new.store.pairs }
    {
        self.kept.write(&mut self.store, disk)?;
        self.kept.clear();
        Ok(())
    }
}
