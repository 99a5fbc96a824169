//! Which entries of a container aren't holes, and to which blocks they lead: what is learned of leaves that aren't held.

ghost use Rattle.std.specs.Prelude.{◌≡◌, ◌<◌, ◌*◌, ◌/◌, ℕ, true, length, get_or, IsTrue, IfErr, IfNone, IfSome, OnErr, OnOk};
ghost use Rattle.fv_image.specs.Containers.{level_width};
ghost use Rattle.fv_store.specs.Held.{StandsOn};
ghost use Rattle.fv_disk.specs.DiskCalls.{OnlyReads};
ghost use Rattle.fv_disk.specs.Faults.{HasBlockCause};
ghost use Rattle.fv_container.specs.Clean.{IsCleanOn};
ghost use Rattle.fv_container.specs.Mapped.{IsMapped};
ghost use Rattle.fv_container.specs.Paged.{is_known, is_sure};
ghost use Rattle.fv_container.specs.Loading.{HasLearned, HasNoRegionFrom, IsNextRegion, KeepsMap, IsReadFault, Marks, delayed_in_region, has_entry_at, leads_somewhere};
ghost use Rattle.fv_container.specs.Reading.{IsBadNode};
ghost use Rattle.fv_container.specs.Seeing.{IsSomeFault};

use crate::bits::{learn_in, occupy};
use crate::container::Container;
use crate::fault::ContainerFault;
use crate::layout::leaf_count;
use crate::leaf::read_region;
use crate::marking::mark_all;
use crate::telling::{AfterLearn, Learning};
use crate::told::Told;
use fv_bits::BitMap;
use fv_disk::Disk;
use fv_store::Store;

impl Container {
    /// Learns which entries of a region are holes. The region has a VVBN below the number of entries. A leaf that is read isn't held.
    ///
    /// # Errors
    /// `Damaged` comes only where the leaf on the disk hasn't the shape of one, and `DiskFault` only where a read failed in this call;
    /// after each nothing has changed. `Memory` doesn't come. It reads one block at most, and none where the region is known, as one is
    /// from the first read of it on.
    fn learn<D: Disk>(
        &mut self,
        store: &mut Store,
        disk: &mut D,
        region: u32,
    ) -> Result<(), ContainerFault>
        requires within { 256 * region < length self.old.map.entries }
        requires stands { StandsOn (D.shown disk.old) store.old.pairs }
        ensures learned { OnOk result (HasLearned (D.shown disk.old) region self.old self.new) }
        ensures failed { OnErr result (self.new ≡ self.old) }
        ensures fault { IsTrue (D.shown disk.old).tells
            → IfErr result (IsBadNode (D.shown disk.old).reads (get_or self.old.map.tree region 0) 0) }
        ensures kind { IfErr result IsReadFault }
        ensures only_reads { OnlyReads (D.shown disk.old) (D.shown disk.new) }
        ensures stands { StandsOn (D.shown disk.new) store.new.pairs }
        ensures cause { HasBlockCause (D.shown disk.old).faults (D.shown disk.new).faults result }
    {
        let at = region as usize;
        if self.known[at] {
            return Ok(());
        }
        let count = self.count as usize;
        let leaf = read_region(store, disk, self.tree[at], at, count, self.most_kind)?;
        learn_in(&mut self.used, 256 * region, &leaf);
        occupy(&mut self.occupied, &self.used, region);
        self.known[at] = true;
        self.told = Told::of::<Learning<'_>, AfterLearn>(&Learning {
            told: &self.told,
            leaves: &self.leaves,
            used: &self.used,
            region: at,
        });
        Ok(())
    }

    /// Learns of all regions which of their entries are holes. A leaf that is read isn't held. At an error some regions are known, and every
    /// entry stays.
    ///
    /// # Errors
    /// `Damaged` comes only where one of the leaves on the disk hasn't the shape of one, and `DiskFault` only where a read failed in this
    /// call. `Memory` doesn't come. It reads one block at most for each region that isn't known, and costs a step for each region.
    #[tactic(auto, using(crate::proofs::Loaded::keeps_itself, crate::proofs::Loaded::learned_keeps, crate::proofs::Loaded::learned_more, crate::proofs::Loaded::planned_fault, crate::proofs::Reading::reads_none, fv_disk::proofs::Resting::reads_then))]
    pub fn learn_all<D: Disk>(
        &mut self,
        store: &mut Store,
        disk: &mut D,
    ) -> Result<(), ContainerFault>
        requires stands { StandsOn (D.shown disk.old) store.old.pairs }
        ensures kept { KeepsMap (D.shown disk.old) self.old self.new }
        ensures here { self.new.here ≡ self.old.here }
        ensures learned { OnOk result ((k : ℕ) → 256 * k < length self.new.map.entries → is_known self.new k ≡ true) }
        ensures fault { IsTrue (D.shown disk.old).tells
            → IfErr result (IsSomeFault (D.shown disk.old).reads self.old.map.tree (level_width (length self.old.map.entries) 0)) }
        ensures kind { IfErr result IsReadFault }
        ensures only_reads { OnlyReads (D.shown disk.old) (D.shown disk.new) }
        ensures stands { StandsOn (D.shown disk.new) store.new.pairs }
        ensures cause { HasBlockCause (D.shown disk.old).faults (D.shown disk.new).faults result }
    {
        for k in 0..leaf_count(self.count as usize) {
            if self.knows(k as u32) {
                continue;
            }
            self.learn(store, disk, k as u32)?;
        }
        Ok(())
    }

    /// Whether it is known which entries of a region are holes.
    fn knows(&self, region: u32) -> bool
        requires { 256 * region < length self.now.map.entries }
        ensures { result ≡ is_known self.now region }
    {
        self.known[region as usize]
    }

    /// Whether the entry of a VVBN isn't a hole, where that is known of its region. It takes no memory and makes no disk call. Costs one
    /// step.
    pub fn has_entry(&self, vvbn: u32) -> bool
        requires within { vvbn < length self.now.map.entries }
        requires known { is_known self.now (vvbn / 256) ≡ true }
        ensures { is_sure self.now (vvbn / 256) ≡ true → result ≡ has_entry_at self.now.map vvbn }
    {
        self.used.get(vvbn)
    }

    /// The least region from `from` on that has an entry, as far as what is known of the regions is sure: it has one, each one before it
    /// has none, and `None` comes only where no other has one. Of a region of which it isn't known nothing is said. It takes no memory and
    /// makes no disk call. Costs a step for each word of 64 regions that is passed.
    pub fn next_region(&self, from: u32) -> Option<u32>
        ensures none { IfNone result (HasNoRegionFrom self.now from) }
        ensures next { IfSome result (IsNextRegion self.now from) }
    {
        self.occupied.first_member(from)
    }

    /// How many entries of a region are delayed: they aren't holes, and their VVBNs aren't members of `held`. It is known which of the
    /// region's entries are holes. It takes no memory and makes no disk call. Costs a step for each word of 64 VVBNs.
    pub fn delayed(&self, held: &BitMap, region: u32) -> u32
        requires within { 256 * region < length self.now.map.entries }
        requires known { is_known self.now region ≡ true }
        ensures { is_sure self.now region ≡ true → result ≡ delayed_in_region self.now.map held.now region }
    {
        self.used
            .count_apart(held, 256 * region, 256 * region + 256)
    }

    /// Marks the blocks to which entries lead in a map of bits, as far as it has them. A leaf that is read isn't held.
    ///
    /// # Errors
    /// `Damaged` comes only where a leaf on the disk hasn't the shape of one, and `DiskFault` only where a read failed in this call. After
    /// each some blocks may be marked. `Memory` doesn't come. It reads one block for each leaf that is there and not in memory.
    pub fn mark_blocks<D: Disk>(
        &self,
        store: &mut Store,
        disk: &mut D,
        bits: &mut BitMap,
    ) -> Result<(), ContainerFault>
        requires stands { StandsOn (D.shown disk.old) store.old.pairs }
        ensures marked { IsTrue (D.shown disk.old).tells → IsCleanOn (D.shown disk.old).reads self.now
            → OnOk result (Marks bits.old (leads_somewhere self.now.map) bits.new) }
        ensures valid { IsMapped self.now.map }
        ensures fault { IsTrue (D.shown disk.old).tells
            → IfErr result (IsSomeFault (D.shown disk.old).reads self.now.map.tree (level_width (length self.now.map.entries) 0)) }
        ensures kind { IfErr result IsReadFault }
        ensures only_reads { OnlyReads (D.shown disk.old) (D.shown disk.new) }
        ensures stands { StandsOn (D.shown disk.new) store.new.pairs }
        ensures cause { HasBlockCause (D.shown disk.old).faults (D.shown disk.new).faults result }
    {
        mark_all(
            store,
            disk,
            &self.leaves,
            &self.tree,
            self.count as usize,
            bits,
            self.most_kind,
        )
    }
}
