//! Changes of the files of a volume: writing a block of a file, and making a file.

ghost use Rattle.std.specs.Prelude.{◌≡◌, ◌≤◌, ◌<◌, ◌+◌, ◌^◌, ℕ, List, true, IfOk, IfErr, OnOk, OnErr};
ghost use Rattle.fv_codec.specs.Blocks.{most_cells};
ghost use Rattle.fv_model.specs.Numbers.{most_changes};
ghost use Rattle.fv_model.specs.Tables.{new};
ghost use Rattle.fv_model.specs.Volumes.{Volume};
ghost use Rattle.fv_model.specs.declared.commands.Command.TheVariants.{New, Put};
ghost use Rattle.fv_model.specs.declared.commands.Kind.TheVariants as kinds;
ghost use Rattle.fv_charge.specs.Changes.{IsChanged, IsDeltaOf};
ghost use Rattle.fv_charge.specs.Ledgers.{IsLedgerOf};
ghost use Rattle.fv_inode.specs.Files.{IsInfo, IsLeastFree};
ghost use Rattle.fv_files.specs.Calls.{WritesCell};
ghost use Rattle.fv_files.specs.Tables.{IsInfoOf};
ghost use Rattle.fv_volume.specs.Asking.{TellsActive};
ghost use Rattle.fv_volume.specs.Calls.{Changes, HasBeside, KeepsHead};
ghost use Rattle.fv_pool.specs.Calls.{BlockCause, CallCause, Reads};
ghost use Rattle.fv_volume.specs.Changing.{AcceptsNew, AcceptsPut, AltersTable, FitsLedger, KeepsTable, NamesNew, RefusedIn};
ghost use Rattle.fv_pool.specs.Lending.{lent_for};
ghost use Rattle.fv_volume.specs.OneVolume.{home_in, standing_for, table_for, volume_for, IsReady, IsStanding};

use crate::active::change_table;
use crate::admitting::{Admission, MOST_CHANGES, Making, admit_change, more_blocks};
use crate::asking::find_file;
use crate::moving::{count_new, count_put};
use crate::numbering::{count_made, find_number};
use crate::state::VolumeState;
use fv_charge::Delta;
use fv_disk::{Block, BlockFault, Disk};
use fv_inode::Info;
use fv_model::{Name, Refusal, in_index, in_reserve};
use fv_pool::{Pool, VolumeFault, create_told, write_told};
use std::alloc::Global;

impl VolumeState {
    /// Writes a block of a file at an index; the file reaches at least just past it. The volume counts one change more, whose
    /// number is the stamp. What changed is in memory. Of the pool nothing changes but its cache.
    ///
    /// `others` is what the other volumes of the aggregate commit together, in blocks, at most 2^62.
    ///
    /// # Errors
    ///
    /// `Refused` as the machine refuses `put`, in this order: the index passes 2,097,151; no file has the name; the volume has
    /// counted 2^62 changes; it would use more than its size; all volumes would commit more than the aggregate's capacity.
    /// `DiskFault`, `Damaged` and `Memory` as `length`. After each of them the volume stands for what it stood for, and where the disk
    /// tells its content as there, whatever that stands for, its active table is told as before.
    ///
    /// Costs what `length` does, then a block for each node over the cell and for the file's inode block with the nodes over it,
    /// as far as they aren't in memory. `docs/MACHINE.md` has the command, and `docs/SPACE.md` what it is charged for.
    #[tactic(auto, using(crate::proofs::OneVolumes::reads_then, crate::proofs::Calling::refused_ready, crate::proofs::Calling::left_table))]
    pub fn put<D: Disk>(
        &mut self,
        alloc: Global,
        pool: &mut Pool,
        disk: &mut D,
        others: u64,
        file: &Name,
        index: u32,
        block: &Block,
    ) -> Result<(), VolumeFault>
        requires ready { IsReady (D.shown disk.old) pool.old self.old }
        requires others { others ≤ 2 ^ 62 }
        ensures changes { IsStanding (D.shown disk.old) pool.old self.old
            → Changes (HasBeside self.old.name (volume_for (D.shown disk.old) pool.old self.old) others pool.old.found.blocks) (Put self.old.name file.now index block.now) self.old.name
            (volume_for (D.shown disk.old) pool.old self.old) (volume_for (D.shown disk.new) pool.new self.new) result }
        ensures standing { IsStanding (D.shown disk.old) pool.old self.old → IsStanding (D.shown disk.new) pool.new self.new }
        ensures table { IsStanding (D.shown disk.old) pool.old self.old → KeepsTable (D.shown disk.old) pool.old self.old (D.shown disk.new) pool.new self.new }
        ensures told { TellsActive (D.shown disk.old) pool.old self.old
            → OnErr result (table_for (D.shown disk.new) pool.new self.new ≡ table_for (D.shown disk.old) pool.old self.old) }
        ensures ready { IsReady (D.shown disk.new) pool.new self.new }
        ensures map { self.new.map ≡ self.old.map }
        ensures numbers { self.new.numbers ≡ self.old.numbers }
        ensures head { KeepsHead self.old self.new result }
        ensures reads { Reads (D.shown disk.old) pool.old (D.shown disk.new) pool.new }
        ensures cause { CallCause (TellsActive (D.shown disk.old) pool.old self.old) (standing_for (D.shown disk.old) pool.old self.old)
            (lent_for pool.old self.old.map (D.shown disk.old) 0 (home_in self.old) 0) (D.shown disk.new).faults result }
    {
        let admission = judge_put(self, alloc, pool, disk, others, file, index)?;
        write_block(self, alloc, pool, disk, &admission.info, index, block)?;
        count_change(self, &admission.delta);
        Ok(())
    }
}

/// Whether a write is accepted, of which file, and how the ledger changes by it.
#[tactic(auto, using(crate::proofs::OneVolumes::reads_then, crate::proofs::Calling::refused_ready))]
pub(crate) fn judge_put<D: Disk>(
    volume: &mut VolumeState,
    alloc: Global,
    pool: &mut Pool,
    disk: &mut D,
    others: u64,
    file: &Name,
    index: u32,
) -> Result<Admission, VolumeFault>
    requires ready { IsReady (D.shown disk.old) pool.old volume.old }
    requires others { others ≤ 2 ^ 62 }
    ensures refused { IsStanding (D.shown disk.old) pool.old volume.old
        → IfErr result (λ e. (block : List ℕ) → RefusedIn (HasBeside volume.old.name (volume_for (D.shown disk.old) pool.old volume.old) others pool.old.found.blocks) (Put volume.old.name file.now index block) e) }
    ensures accepted { IsStanding (D.shown disk.old) pool.old volume.old
        → IfOk result (λ a. AcceptsPut (D.shown disk.old) pool.old volume.old others file.now index a.info a.delta) }
    ensures found { TellsActive (D.shown disk.old) pool.old volume.old → IfOk result (λ a. IsInfoOf (standing_for (D.shown disk.old) pool.old volume.old).inode a.info) }
    ensures near { OnOk result (index < 2097152) }
    ensures range { IfOk result (λ a. IsInfo a.info) }
    ensures fits { IfOk result (λ a. FitsLedger volume.old a.delta) }
    ensures same { volume.new ≡ volume.old }
    ensures reads { Reads (D.shown disk.old) pool.old (D.shown disk.new) pool.new }
    ensures cause { CallCause (TellsActive (D.shown disk.old) pool.old volume.old) (standing_for (D.shown disk.old) pool.old volume.old)
        (lent_for pool.old volume.old.map (D.shown disk.old) 0 (home_in volume.old) 0) (D.shown disk.new).faults result }
{
    if !in_index(u64::from(index)) {
        return Err(VolumeFault::Refused(Refusal::Range));
    }
    let Some(info) = find_file(volume, alloc, pool, disk, file)? else {
        return Err(VolumeFault::Refused(Refusal::NoFile));
    };
    if volume.now >= MOST_CHANGES {
        return Err(VolumeFault::Refused(Refusal::TooMany));
    }
    let count = count_put(volume, alloc, pool, disk, &info, index)?;
    let delta = more_blocks(&volume.ledger, count);
    admit_change(&volume.ledger, &delta, others, pool.found.blocks)?;
    Ok(Admission { info, delta })
}

/// Writes a cell of the file of which this is known, stamped with the number of the next change.
#[tactic(auto, using(crate::proofs::OneVolumes::root_fits, crate::proofs::OneVolumes::levels_fit))]
fn write_block<D: Disk>(
    volume: &mut VolumeState,
    alloc: Global,
    pool: &mut Pool,
    disk: &mut D,
    info: &Info,
    index: u32,
    block: &Block,
) -> Result<(), BlockFault>
    requires ready { IsReady (D.shown disk.old) pool.old volume.old }
    requires more { volume.old.now < most_changes }
    requires index { index < 2097152 }
    requires range { IsInfo info.now }
    requires there { TellsActive (D.shown disk.old) pool.old volume.old → IsInfoOf (standing_for (D.shown disk.old) pool.old volume.old).inode info.now }
    ensures written { IsStanding (D.shown disk.old) pool.old volume.old
        → OnOk result (WritesCell (standing_for (D.shown disk.old) pool.old volume.old) (standing_for (D.shown disk.old) pool.old volume.new) info.now.number index (volume.old.now + 1) block.now) }
    ensures map { volume.new.map ≡ volume.old.map }
    ensures alters { AltersTable (D.shown disk.old) pool.old (D.shown disk.new) pool.new volume.old volume.new result }
    ensures cause { BlockCause (TellsActive (D.shown disk.old) pool.old volume.old) (standing_for (D.shown disk.old) pool.old volume.old)
        (lent_for pool.old volume.old.map (D.shown disk.old) 0 (home_in volume.old) 0) (D.shown disk.new).faults result }
{
    let stamp = volume.now + 1;
    change_table!(
        volume,
        |alloc, pool, disk| write_told(info, index, block, stamp)
    )
}

impl VolumeState {
    /// Makes a file of length 0 with a name and a reserve, in blocks. The volume counts one change more, whose number is the stamp.
    /// What changed is in memory. Of the pool nothing changes but its cache. In a volume of kind `file` the reserve has to be 0: one
    /// above it isn't built yet.
    ///
    /// `others` is what the other volumes of the aggregate commit together, in blocks, at most 2^62.
    ///
    /// # Errors
    ///
    /// `Refused` as the machine refuses `new`, in this order: the reserve passes 2,097,152; a file has the name; there is a reserve
    /// and the volume isn't of kind `file`; the table has 262,144 files, or the volume has counted 2^62 changes; it would use more
    /// than its size; all volumes would commit more than the aggregate's capacity. The other errors as `put`. After each of them
    /// the volume stands for what it stood for, and its active table is told as before, as after `put`.
    ///
    /// Costs what `length` does, then a block for the file's inode block and for each node over it, as far as they aren't in memory,
    /// and where the numbers aren't in memory a block for each inode block and each node over them. `docs/MACHINE.md` has the command.
    #[tactic(auto, using(crate::proofs::OneVolumes::reads_then, crate::proofs::Calling::refused_ready, crate::proofs::Calling::left_table))]
    pub fn new_file<D: Disk>(
        &mut self,
        alloc: Global,
        pool: &mut Pool,
        disk: &mut D,
        others: u64,
        file: &Name,
        reserve: u32,
    ) -> Result<(), VolumeFault>
        requires ready { IsReady (D.shown disk.old) pool.old self.old }
        requires others { others ≤ 2 ^ 62 }
        requires form { self.old.kind ≡ kinds.File → reserve ≡ 0 }
        ensures changes { IsStanding (D.shown disk.old) pool.old self.old
            → Changes (HasBeside self.old.name (volume_for (D.shown disk.old) pool.old self.old) others pool.old.found.blocks) (New self.old.name file.now reserve) self.old.name
            (volume_for (D.shown disk.old) pool.old self.old) (volume_for (D.shown disk.new) pool.new self.new) result }
        ensures standing { IsStanding (D.shown disk.old) pool.old self.old → IsStanding (D.shown disk.new) pool.new self.new }
        ensures table { IsStanding (D.shown disk.old) pool.old self.old → KeepsTable (D.shown disk.old) pool.old self.old (D.shown disk.new) pool.new self.new }
        ensures told { TellsActive (D.shown disk.old) pool.old self.old
            → OnErr result (table_for (D.shown disk.new) pool.new self.new ≡ table_for (D.shown disk.old) pool.old self.old) }
        ensures ready { IsReady (D.shown disk.new) pool.new self.new }
        ensures map { self.new.map ≡ self.old.map }
        ensures head { KeepsHead self.old self.new result }
        ensures reads { Reads (D.shown disk.old) pool.old (D.shown disk.new) pool.new }
        ensures cause { CallCause (TellsActive (D.shown disk.old) pool.old self.old) (standing_for (D.shown disk.old) pool.old self.old)
            (lent_for pool.old self.old.map (D.shown disk.old) 0 (home_in self.old) 0) (D.shown disk.new).faults result }
    {
        let making = judge_new(self, alloc, pool, disk, others, file, reserve)?;
        create_file(self, alloc, pool, disk, making.number, file, reserve)?;
        count_made(self, &making, file);
        Ok(())
    }
}

/// Whether a new file is accepted, under which number, and how the ledger changes by it.
#[tactic(auto, using(crate::proofs::OneVolumes::reads_then, crate::proofs::Calling::refused_ready))]
pub(crate) fn judge_new<D: Disk>(
    volume: &mut VolumeState,
    alloc: Global,
    pool: &mut Pool,
    disk: &mut D,
    others: u64,
    file: &Name,
    reserve: u32,
) -> Result<Making, VolumeFault>
    requires ready { IsReady (D.shown disk.old) pool.old volume.old }
    requires others { others ≤ 2 ^ 62 }
    requires form { volume.old.kind ≡ kinds.File → reserve ≡ 0 }
    ensures refused { IsStanding (D.shown disk.old) pool.old volume.old
        → IfErr result (RefusedIn (HasBeside volume.old.name (volume_for (D.shown disk.old) pool.old volume.old) others pool.old.found.blocks) (New volume.old.name file.now reserve)) }
    ensures accepted { IsStanding (D.shown disk.old) pool.old volume.old → IfOk result (λ a. AcceptsNew (D.shown disk.old) pool.old volume.old others file.now reserve a.number a.delta) }
    ensures free { TellsActive (D.shown disk.old) pool.old volume.old → IfOk result (λ a. IsLeastFree (standing_for (D.shown disk.old) pool.old volume.old).inode a.number) }
    ensures low { IfOk result (λ a. a.number < 262144) }
    ensures none { OnOk result (reserve ≡ 0) }
    ensures fits { IfOk result (λ a. FitsLedger volume.old a.delta) }
    ensures same { volume.new ≡ volume.old }
    ensures reads { Reads (D.shown disk.old) pool.old (D.shown disk.new) pool.new }
    ensures cause { CallCause (TellsActive (D.shown disk.old) pool.old volume.old) (standing_for (D.shown disk.old) pool.old volume.old)
        (lent_for pool.old volume.old.map (D.shown disk.old) 0 (home_in volume.old) 0) (D.shown disk.new).faults result }
{
    let number = judge_name(volume, alloc, pool, disk, file, reserve)?;
    let count = count_new(volume, alloc, pool, disk, number)?;
    let delta = more_blocks(&volume.ledger, count);
    admit_change(&volume.ledger, &delta, others, pool.found.blocks)?;
    Ok(Making { number, delta })
}

/// Whether a new file is accepted but for its space, and which number it gets.
#[tactic(auto, using(crate::proofs::OneVolumes::reads_then, crate::proofs::Calling::refused_ready))]
fn judge_name<D: Disk>(
    volume: &mut VolumeState,
    alloc: Global,
    pool: &mut Pool,
    disk: &mut D,
    file: &Name,
    reserve: u32,
) -> Result<u32, VolumeFault>
    requires ready { IsReady (D.shown disk.old) pool.old volume.old }
    requires form { volume.old.kind ≡ kinds.File → reserve ≡ 0 }
    ensures refused { IsStanding (D.shown disk.old) pool.old volume.old
        → IfErr result (λ e. (others : ℕ) → RefusedIn (HasBeside volume.old.name (volume_for (D.shown disk.old) pool.old volume.old) others pool.old.found.blocks) (New volume.old.name file.now reserve) e) }
    ensures accepted { IsStanding (D.shown disk.old) pool.old volume.old → IfOk result (NamesNew (standing_for (D.shown disk.old) pool.old volume.old) file.now reserve) }
    ensures none { OnOk result (reserve ≡ 0) }
    ensures free { TellsActive (D.shown disk.old) pool.old volume.old → IfOk result (IsLeastFree (standing_for (D.shown disk.old) pool.old volume.old).inode) }
    ensures low { IfOk result (λ number. number < 262144) }
    ensures more { OnOk result (volume.old.now < most_changes) }
    ensures same { volume.new ≡ volume.old }
    ensures reads { Reads (D.shown disk.old) pool.old (D.shown disk.new) pool.new }
    ensures cause { CallCause (TellsActive (D.shown disk.old) pool.old volume.old) (standing_for (D.shown disk.old) pool.old volume.old)
        (lent_for pool.old volume.old.map (D.shown disk.old) 0 (home_in volume.old) 0) (D.shown disk.new).faults result }
{
    if !in_reserve(u64::from(reserve)) {
        return Err(VolumeFault::Refused(Refusal::Range));
    }
    let found = find_file(volume, alloc, pool, disk, file)?;
    if found.is_some() {
        return Err(VolumeFault::Refused(Refusal::FileExists));
    }
    if reserve > 0 {
        return Err(VolumeFault::Refused(Refusal::WrongKind));
    }
    let Some(number) = find_number(volume, alloc, pool, disk)? else {
        return Err(VolumeFault::Refused(Refusal::TooMany));
    };
    if volume.now >= MOST_CHANGES {
        return Err(VolumeFault::Refused(Refusal::TooMany));
    }
    Ok(number)
}

/// Makes a file, stamped with the number of the next change.
#[tactic(auto, using(crate::proofs::OneVolumes::root_fits, crate::proofs::OneVolumes::levels_fit))]
fn create_file<D: Disk>(
    volume: &mut VolumeState,
    alloc: Global,
    pool: &mut Pool,
    disk: &mut D,
    number: u32,
    file: &Name,
    reserve: u32,
) -> Result<(), BlockFault>
    requires ready { IsReady (D.shown disk.old) pool.old volume.old }
    requires more { volume.old.now < most_changes }
    requires reserve { reserve ≤ most_cells }
    requires number { number < 262144 }
    requires free { TellsActive (D.shown disk.old) pool.old volume.old → IsLeastFree (standing_for (D.shown disk.old) pool.old volume.old).inode number }
    ensures made { IsStanding (D.shown disk.old) pool.old volume.old
        → OnOk result (table_for (D.shown disk.old) pool.old volume.new ≡ new (table_for (D.shown disk.old) pool.old volume.old) file.now reserve (volume.old.now + 1)) }
    ensures map { volume.new.map ≡ volume.old.map }
    ensures alters { AltersTable (D.shown disk.old) pool.old (D.shown disk.new) pool.new volume.old volume.new result }
    ensures cause { BlockCause (TellsActive (D.shown disk.old) pool.old volume.old) (standing_for (D.shown disk.old) pool.old volume.old)
        (lent_for pool.old volume.old.map (D.shown disk.old) 0 (home_in volume.old) 0) (D.shown disk.new).faults result }
{
    let stamp = volume.now + 1;
    change_table!(
        volume,
        |alloc, pool, disk| create_told(number, file, reserve, stamp)
    )
}

/// Counts a change of a volume, and changes its ledger by it.
pub(crate) fn count_change(volume: &mut VolumeState, delta: &Delta)
    requires fits { FitsLedger volume.old delta.now }
    ensures now { volume.new.now ≡ volume.old.now + 1 }
    ensures ledger { IsChanged volume.old.ledger delta.now volume.new.ledger }
    ensures machine { (x y : Volume) → IsLedgerOf x volume.old.ledger → IsDeltaOf x y delta.now → IsLedgerOf y volume.new.ledger }
    ensures others { volume.new ≡ record volume.old { now = volume.new.now; ledger = volume.new.ledger; changed = true } }
{
    volume.ledger.change(delta);
    volume.now += 1;
    volume.changed = true;
}
