//! The numbers of a volume's files in memory: reading them, and keeping them.

ghost use Rattle.std.specs.Prelude.{◌≡◌, ◌+◌, true, is_some, IfOk, OnOk, OnErr};
ghost use Rattle.fv_charge.specs.Changes.{IsChanged, IsDeltaOf};
ghost use Rattle.fv_charge.specs.Ledgers.{IsLedgerOf};
ghost use Rattle.fv_model.specs.Volumes.{Volume};
ghost use Rattle.fv_inode.specs.Files.{IsFreeNumber, IsNumberIf};
ghost use Rattle.fv_files.specs.Numbering.{AreNumbersOf};
ghost use Rattle.fv_pool.specs.Calls.{BlockCause, Reads};
ghost use Rattle.fv_volume.specs.Asking.{TellsActive};
ghost use Rattle.fv_volume.specs.Changing.{FitsLedger};
ghost use Rattle.fv_pool.specs.Lending.{lent_for};
ghost use Rattle.fv_volume.specs.Numbering.{LacksFile, TellsFile};
ghost use Rattle.fv_volume.specs.OneVolume.{home_in, standing_for, table_for, IsReady, IsStanding};

use crate::active::over_table;
use crate::admitting::Making;
use crate::changing::count_change;
use crate::state::VolumeState;
use fv_charge::Delta;
use fv_disk::{BlockFault, Disk};
use fv_files::FileNumbers;
use fv_model::Name;
use fv_pool::{Pool, number_told, numbers_told};
use std::alloc::Global;

impl VolumeState {
    /// Reads the numbers of all files by their names into memory, where they aren't there. From then on no call looks through the inode
    /// blocks for a name or for a free number, until a file is made or removed: memory can lack for its number then, and no clause says that it
    /// does where they are gone. Nothing else of the volume changes, and of the pool nothing but its cache.
    ///
    /// # Errors
    ///
    /// `DiskFault` only where a read failed in this call. `Damaged` for a pointer to a VVBN that isn't held, at the place of the volume's
    /// label with 1 and 0, and for a node, an inode block or a leaf of a container without its shape: its place, and its first field that
    /// isn't as said, where `length` says so. `Memory` where memory ran out. Nothing changes then.
    ///
    /// Costs one step where the numbers are in memory, without a call of the disk and with no change of the pool. Else it costs a block for each
    /// inode block and each node over them, and memory for each name and for each free number below the greatest that is taken.
    pub fn read_numbers<D: Disk>(
        &mut self,
        alloc: Global,
        pool: &mut Pool,
        disk: &mut D,
    ) -> Result<(), BlockFault>
        requires ready { IsReady (D.shown disk.old) pool.old self.old }
        ensures there { OnOk result (is_some self.new.numbers ≡ true) }
        ensures same { self.new ≡ record self.old { numbers = self.new.numbers } }
        ensures kept { OnErr result (self.new ≡ self.old) }
        ensures idle { is_some self.old.numbers ≡ true → (disk.new ≡ disk.old) × ((pool.new ≡ pool.old) × (self.new ≡ self.old)) }
        ensures standing { IsStanding (D.shown disk.old) pool.old self.old → IsStanding (D.shown disk.new) pool.new self.new }
        ensures ready { IsReady (D.shown disk.new) pool.new self.new }
        ensures reads { Reads (D.shown disk.old) pool.old (D.shown disk.new) pool.new }
        ensures cause { BlockCause (TellsActive (D.shown disk.old) pool.old self.old) (standing_for (D.shown disk.old) pool.old self.old)
            (lent_for pool.old self.old.map (D.shown disk.old) 0 (home_in self.old) 0) (D.shown disk.new).faults result }
    {
        if self.numbers.is_some() {
            return Ok(());
        }
        let numbers = count_files(self, alloc, pool, disk)?;
        self.numbers = Some(numbers);
        Ok(())
    }
}

/// The numbers of all files by their names.
#[tactic(auto, using(crate::proofs::OneVolumes::root_fits, crate::proofs::OneVolumes::levels_fit))]
fn count_files<D: Disk>(
    volume: &mut VolumeState,
    alloc: Global,
    pool: &mut Pool,
    disk: &mut D,
) -> Result<FileNumbers, BlockFault>
    requires ready { IsReady (D.shown disk.old) pool.old volume.old }
    ensures numbers { IsStanding (D.shown disk.old) pool.old volume.old → IfOk result (λ m. AreNumbersOf m (table_for (D.shown disk.old) pool.old volume.old)) }
    ensures same { volume.new ≡ volume.old }
    ensures reads { Reads (D.shown disk.old) pool.old (D.shown disk.new) pool.new }
    ensures cause { BlockCause (TellsActive (D.shown disk.old) pool.old volume.old) (standing_for (D.shown disk.old) pool.old volume.old)
        (lent_for pool.old volume.old.map (D.shown disk.old) 0 (home_in volume.old) 0) (D.shown disk.new).faults result }
{
    over_table!(volume, |alloc, pool, disk| numbers_told())
}

/// The least number that no file has, by the numbers of files where these are in memory and else by the records of all files; `None` where
/// all below 262,144 are taken.
#[tactic(auto, using(crate::proofs::OneVolumes::root_fits, crate::proofs::OneVolumes::levels_fit))]
pub(crate) fn find_number<D: Disk>(
    volume: &mut VolumeState,
    alloc: Global,
    pool: &mut Pool,
    disk: &mut D,
) -> Result<Option<u32>, BlockFault>
    requires ready { IsReady (D.shown disk.old) pool.old volume.old }
    ensures number { TellsActive (D.shown disk.old) pool.old volume.old → IfOk result (IsFreeNumber (standing_for (D.shown disk.old) pool.old volume.old).inode) }
    ensures range { IfOk result IsNumberIf }
    ensures same { volume.new ≡ volume.old }
    ensures reads { Reads (D.shown disk.old) pool.old (D.shown disk.new) pool.new }
    ensures cause { BlockCause (TellsActive (D.shown disk.old) pool.old volume.old) (standing_for (D.shown disk.old) pool.old volume.old)
        (lent_for pool.old volume.old.map (D.shown disk.old) 0 (home_in volume.old) 0) (D.shown disk.new).faults result }
{
    if let Some(numbers) = &volume.numbers {
        return Ok(numbers.free_number());
    }
    over_table!(volume, |alloc, pool, disk| number_told())
}

/// Counts a new file of a volume, changes its ledger by it, and keeps the numbers.
pub(crate) fn count_made(volume: &mut VolumeState, making: &Making, file: &Name)
    requires fits { FitsLedger volume.old making.now.delta }
    ensures now { volume.new.now ≡ volume.old.now + 1 }
    ensures ledger { IsChanged volume.old.ledger making.now.delta volume.new.ledger }
    ensures machine { (x y : Volume) → IsLedgerOf x volume.old.ledger → IsDeltaOf x y making.now.delta → IsLedgerOf y volume.new.ledger }
    ensures tells { TellsFile volume.old.numbers volume.new.numbers file.now making.now.number }
    ensures others { volume.new ≡ record volume.old { now = volume.new.now; ledger = volume.new.ledger; numbers = volume.new.numbers; changed = true } }
{
    count_change(volume, &making.delta);
    volume.numbers = with_file(volume.numbers.take(), file, making.number);
}

/// Counts the removal of a file of a volume, changes its ledger by it, and keeps the numbers.
pub(crate) fn count_removed(volume: &mut VolumeState, delta: &Delta, file: &Name, number: u32)
    requires fits { FitsLedger volume.old delta.now }
    ensures now { volume.new.now ≡ volume.old.now + 1 }
    ensures ledger { IsChanged volume.old.ledger delta.now volume.new.ledger }
    ensures machine { (x y : Volume) → IsLedgerOf x volume.old.ledger → IsDeltaOf x y delta.now → IsLedgerOf y volume.new.ledger }
    ensures lacks { LacksFile volume.old.numbers volume.new.numbers file.now number }
    ensures others { volume.new ≡ record volume.old { now = volume.new.now; ledger = volume.new.ledger; numbers = volume.new.numbers; changed = true } }
{
    count_change(volume, delta);
    volume.numbers = without_file(volume.numbers.take(), file, number);
}

/// The numbers once a file has a name and a number; `None` where there are none or memory lacks.
fn with_file(numbers: Option<FileNumbers>, name: &Name, number: u32) -> Option<FileNumbers>
    ensures { TellsFile numbers result name.now number }
{
    let mut numbers = numbers?;
    numbers.add(name, number).ok()?;
    Some(numbers)
}

/// The numbers once no file has a name and its number; `None` where there are none or memory lacks.
fn without_file(numbers: Option<FileNumbers>, name: &Name, number: u32) -> Option<FileNumbers>
    ensures { LacksFile numbers result name.now number }
{
    let mut numbers = numbers?;
    numbers.remove(name, number).ok()?;
    Some(numbers)
}
