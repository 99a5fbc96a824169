//! Looking up one entry: in the leaf in memory, and else in that on the disk, which isn't held.

ghost use Rattle.std.specs.Prelude.{◌≡◌, ◌<◌, ◌≤◌, ◌+◌, ◌*◌, ◌/◌, ℕ, false, None, length, get_or, IsTrue, IfOk, IfSome, IfErr};
ghost use Rattle.fv_container.specs.Clean.{IsCleanOn};
ghost use Rattle.fv_container.specs.Loading.{IsReadFault};
ghost use Rattle.fv_container.specs.Mapped.{IsHeld, entry_under};
ghost use Rattle.fv_container.specs.Paged.{is_here};
ghost use Rattle.fv_container.specs.Reading.{HasRead, IsBadNode};
ghost use Rattle.fv_container.specs.Spelled.{IsOpened};
ghost use Rattle.fv_disk.specs.DiskCalls.{OnlyReads};
ghost use Rattle.fv_disk.specs.Faults.{HasBlockCause};
ghost use Rattle.fv_store.specs.Held.{StandsOn};

use crate::container::Container;
use crate::entry::Entry;
use crate::fault::ContainerFault;
use crate::layout::FAN;
use crate::leaf::look_in;
use crate::steps::Steps;
use fv_disk::Disk;
use fv_store::Store;
use std::sync::ledger::Ledger;

impl Container {
    /// The entry of a VVBN below the number of entries, `None` exactly for a hole. It counts one step. A leaf that isn't in memory is read,
    /// and isn't held.
    ///
    /// # Errors
    /// `Damaged` comes only where the leaf on the disk hasn't the shape of one, and `DiskFault` only where a read failed in this call.
    /// `Memory` doesn't come. It reads one block at most.
    pub fn look_up<D: Disk, L: Ledger>(
        &mut self,
        store: &mut Store,
        disk: &mut D,
        vvbn: u32,
        steps: &mut Steps<L>,
    ) -> Result<Option<Entry>, ContainerFault>
        requires within { vvbn < length self.old.map.entries }
        requires stands { StandsOn (D.shown disk.old) store.old.pairs }
        ensures entry { IsTrue (D.shown disk.old).tells → IsCleanOn (D.shown disk.old).reads self.old
            → IfOk result (λ entry. entry ≡ entry_under self.old.map vvbn) }
        ensures held { IfOk result (λ entry. IfSome entry IsHeld) }
        ensures same { self.new ≡ self.old }
        ensures step { steps.new ≡ steps.old + 1 }
        ensures fault { IsTrue (D.shown disk.old).tells
            → IfErr result (IsBadNode (D.shown disk.old).reads (get_or self.old.map.tree (vvbn / 256) 0) 0) }
        ensures kind { IfErr result IsReadFault }
        ensures only_reads { OnlyReads (D.shown disk.old) (D.shown disk.new) }
        ensures stands { StandsOn (D.shown disk.new) store.new.pairs }
        ensures cause { HasBlockCause (D.shown disk.old).faults (D.shown disk.new).faults result }
    {
        steps.tick();
        self.find(store, disk, vvbn)
    }

    /// As `look_up`, where that isn't counted. In a container whose leaf there isn't in memory, and which was opened from what the disk
    /// reads, it is the map's entry whatever the positions that nodes name.
    ///
    /// # Errors
    /// As those of `look_up`.
    pub fn find<D: Disk>(
        &self,
        store: &mut Store,
        disk: &mut D,
        vvbn: u32,
    ) -> Result<Option<Entry>, ContainerFault>
        requires within { vvbn < length self.now.map.entries }
        requires stands { StandsOn (D.shown disk.old) store.old.pairs }
        ensures entry { IsTrue (D.shown disk.old).tells → IsCleanOn (D.shown disk.old).reads self.now
            → IfOk result (λ entry. entry ≡ entry_under self.now.map vvbn) }
        ensures opened { (root height : ℕ) → IsTrue (D.shown disk.old).tells → IsOpened (D.shown disk.old).reads root height self.now.map
            → is_here self.now (vvbn / 256) ≡ false → IfOk result (λ entry. entry ≡ entry_under self.now.map vvbn) }
        ensures held { IfOk result (λ entry. IfSome entry IsHeld) }
        ensures fault { IsTrue (D.shown disk.old).tells
            → IfErr result (IsBadNode (D.shown disk.old).reads (get_or self.now.map.tree (vvbn / 256) 0) 0) }
        ensures kind { IfErr result IsReadFault }
        ensures read { HasRead (D.shown disk.old) (D.shown disk.new) store.new.pairs result }
    {
        let at = vvbn as usize;
        look_in(
            store,
            disk,
            &self.leaves,
            self.tree[at / FAN],
            at / FAN,
            at % FAN,
            self.most_kind,
        )
    }

    /// The entry of a VVBN, where the container has it.
    #[tactic(auto, using(crate::proofs::Chains::past_none, crate::proofs::Reading::reads_none))]
    pub(crate) fn find_or_none<D: Disk>(
        &self,
        store: &mut Store,
        disk: &mut D,
        vvbn: u32,
    ) -> Result<Option<Entry>, ContainerFault>
        requires stands { StandsOn (D.shown disk.old) store.old.pairs }
        ensures entry { IsTrue (D.shown disk.old).tells → IsCleanOn (D.shown disk.old).reads self.now
            → IfOk result (λ entry. entry ≡ entry_under self.now.map vvbn) }
        ensures held { IfOk result (λ entry. IfSome entry IsHeld) }
        ensures fault { IsTrue (D.shown disk.old).tells
            → IfErr result (λ fault. (vvbn < length self.now.map.entries) × IsBadNode (D.shown disk.old).reads (get_or self.now.map.tree (vvbn / 256) 0) 0 fault) }
        ensures kind { IfErr result IsReadFault }
        ensures read { HasRead (D.shown disk.old) (D.shown disk.new) store.new.pairs result }
    {
        if vvbn < self.count {
            self.find(store, disk, vvbn)
        } else {
            Ok(None)
        }
    }
}
