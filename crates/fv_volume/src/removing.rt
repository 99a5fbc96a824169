//! Removals of blocks and of files of a volume.

ghost use Rattle.std.specs.Prelude.{◌≡◌, ◌≤◌, ◌<◌, ◌+◌, ◌^◌, pos, ◌+ℤ◌, ◌≤ℤ◌, IfOk, IfErr, IfSome, OnOk, OnErr};
ghost use Rattle.fv_tree.specs.Taking.{AreBelow};
ghost use Rattle.fv_charge.specs.Changes.{CanChange};
ghost use Rattle.fv_model.specs.Numbers.{most_changes};
ghost use Rattle.fv_model.specs.declared.commands.Command.TheVariants.{Cut, Remove};
ghost use Rattle.fv_inode.specs.Files.{IsFirst, IsInfo};
ghost use Rattle.fv_files.specs.Calls.{CutsFile, RemovesFile, TakesByCut, TakesByRemoval};
ghost use Rattle.fv_files.specs.Tables.{IsInfoOf};
ghost use Rattle.fv_pool.specs.Calls.{BlockCause, CallCause, Reads};
ghost use Rattle.fv_volume.specs.Asking.{TellsActive};
ghost use Rattle.fv_volume.specs.Calls.{Changes, HasBeside, HasWithin, KeepsHead};
ghost use Rattle.fv_volume.specs.Changing.{AcceptsCut, AcceptsRemoval, AltersTable, CutsWithin, FitsLedger, IsDeltaBy, KeepsTable, RefusedIn};
ghost use Rattle.fv_pool.specs.Lending.{lent_for};
ghost use Rattle.fv_volume.specs.OneVolume.{greatest_charge, home_in, standing_for, table_for, volume_for, IsReady, IsStanding};

use crate::active::change_table;
use crate::admitting::{MOST_CHANGES, Removing, admit_change};
use crate::asking::find_file;
use crate::changing::count_change;
use crate::moving::{count_cut, count_removal};
use crate::numbering::count_removed;
use crate::state::VolumeState;
use fv_charge::{Delta, Ledger};
use fv_disk::{BlockFault, Disk};
use fv_inode::Info;
use fv_model::{Name, Refusal, in_reserve};
use fv_pool::{Pool, VolumeFault, cut_told, remove_told};
use fv_tree::Taken;
use std::alloc::Global;

impl VolumeState {
    /// Cuts a file to a length, in blocks: its cells from there on go. The volume counts one change more, whose number is the
    /// stamp, also where no cell goes. What changed is in memory. Of the pool nothing changes but its cache, and of the volume's
    /// maps only the active one, out of which the numbers of what went are taken.
    ///
    /// `others` is what the other volumes of the aggregate commit together, in blocks, at most 2^62.
    ///
    /// # Errors
    ///
    /// `Refused` as the machine refuses `cut`, in this order: the length passes 2,097,152; no file has the name; the length passes the
    /// file's; the volume has counted 2^62 changes; in a volume with snapshots or a base that it would use more than its size, and that all
    /// volumes would commit more than the aggregate's capacity: what a snapshot has stays charged, and what gets another stamp in place of
    /// a block of the base is charged from then on. A volume with neither never refuses it for space: nor does the machine where no volume
    /// uses more than its size and all of them commit no more than there is. The other errors as `put`. After each of them the volume stands
    /// for what it stood for.
    ///
    /// Costs what `length` does, then a block for each node and cell that goes and for the file's inode block with the nodes over
    /// it, as far as they aren't in memory; in a volume with snapshots or a base the nodes once more. `docs/MACHINE.md` has the command.
    #[tactic(auto, using(crate::proofs::OneVolumes::reads_then, crate::proofs::Calling::refused_ready, crate::proofs::Calling::left_table))]
    pub fn cut<D: Disk>(
        &mut self,
        alloc: Global,
        pool: &mut Pool,
        disk: &mut D,
        others: u64,
        file: &Name,
        length: u32,
    ) -> Result<(), VolumeFault>
        requires ready { IsReady (D.shown disk.old) pool.old self.old }
        requires others { others ≤ 2 ^ 62 }
        ensures changes { IsStanding (D.shown disk.old) pool.old self.old
            → Changes (HasWithin self.old.name (volume_for (D.shown disk.old) pool.old self.old) others pool.old.found.blocks) (Cut self.old.name file.now length) self.old.name
            (volume_for (D.shown disk.old) pool.old self.old) (volume_for (D.shown disk.new) pool.new self.new) result }
        ensures refused { IsStanding (D.shown disk.old) pool.old self.old
            → IfErr result (RefusedIn (HasBeside self.old.name (volume_for (D.shown disk.old) pool.old self.old) others pool.old.found.blocks) (Cut self.old.name file.now length)) }
        ensures standing { IsStanding (D.shown disk.old) pool.old self.old → IsStanding (D.shown disk.new) pool.new self.new }
        ensures table { IsStanding (D.shown disk.old) pool.old self.old → KeepsTable (D.shown disk.old) pool.old self.old (D.shown disk.new) pool.new self.new }
        ensures told { TellsActive (D.shown disk.old) pool.old self.old
            → OnErr result (table_for (D.shown disk.new) pool.new self.new ≡ table_for (D.shown disk.old) pool.old self.old) }
        ensures ready { IsReady (D.shown disk.new) pool.new self.new }
        ensures numbers { self.new.numbers ≡ self.old.numbers }
        ensures head { KeepsHead self.old self.new result }
        ensures reads { Reads (D.shown disk.old) pool.old (D.shown disk.new) pool.new }
        ensures cause { CallCause (TellsActive (D.shown disk.old) pool.old self.old) (standing_for (D.shown disk.old) pool.old self.old)
            (lent_for pool.old self.old.map (D.shown disk.old) 0 (home_in self.old) 0) (D.shown disk.new).faults result }
    {
        let removing = judge_cut(self, alloc, pool, disk, others, file, length)?;
        let count = cut_blocks(self, alloc, pool, disk, &removing.info, length)?;
        let delta = removal_delta(&self.ledger, &removing.delta, count);
        count_change(self, &delta);
        Ok(())
    }

    /// Removes a file. The volume counts one change more, whose number is the stamp. What changed is in memory. Of the pool nothing
    /// changes but its cache, and of the volume's maps only the active one, out of which the numbers of what went are taken.
    ///
    /// `others` is what the other volumes of the aggregate commit together, in blocks, at most 2^62.
    ///
    /// # Errors
    ///
    /// `Refused` as the machine refuses `rm`, in this order: no file has the name; the volume has counted 2^62 changes; for space as `cut`.
    /// The other errors as `cut`.
    ///
    /// Costs what `length` does, then a block for each node and cell of the file and for its inode block with the nodes over it, as
    /// far as they aren't in memory; in a volume with snapshots or a base the nodes once more. `docs/MACHINE.md` has the command.
    #[tactic(auto, using(crate::proofs::OneVolumes::reads_then, crate::proofs::Calling::refused_ready, crate::proofs::Calling::left_table))]
    pub fn remove<D: Disk>(
        &mut self,
        alloc: Global,
        pool: &mut Pool,
        disk: &mut D,
        others: u64,
        file: &Name,
    ) -> Result<(), VolumeFault>
        requires ready { IsReady (D.shown disk.old) pool.old self.old }
        requires others { others ≤ 2 ^ 62 }
        ensures changes { IsStanding (D.shown disk.old) pool.old self.old
            → Changes (HasWithin self.old.name (volume_for (D.shown disk.old) pool.old self.old) others pool.old.found.blocks) (Remove self.old.name file.now) self.old.name
            (volume_for (D.shown disk.old) pool.old self.old) (volume_for (D.shown disk.new) pool.new self.new) result }
        ensures refused { IsStanding (D.shown disk.old) pool.old self.old
            → IfErr result (RefusedIn (HasBeside self.old.name (volume_for (D.shown disk.old) pool.old self.old) others pool.old.found.blocks) (Remove self.old.name file.now)) }
        ensures standing { IsStanding (D.shown disk.old) pool.old self.old → IsStanding (D.shown disk.new) pool.new self.new }
        ensures table { IsStanding (D.shown disk.old) pool.old self.old → KeepsTable (D.shown disk.old) pool.old self.old (D.shown disk.new) pool.new self.new }
        ensures told { TellsActive (D.shown disk.old) pool.old self.old
            → OnErr result (table_for (D.shown disk.new) pool.new self.new ≡ table_for (D.shown disk.old) pool.old self.old) }
        ensures ready { IsReady (D.shown disk.new) pool.new self.new }
        ensures head { KeepsHead self.old self.new result }
        ensures reads { Reads (D.shown disk.old) pool.old (D.shown disk.new) pool.new }
        ensures cause { CallCause (TellsActive (D.shown disk.old) pool.old self.old) (standing_for (D.shown disk.old) pool.old self.old)
            (lent_for pool.old self.old.map (D.shown disk.old) 0 (home_in self.old) 0) (D.shown disk.new).faults result }
    {
        let removing = judge_removal(self, alloc, pool, disk, others, file)?;
        let count = drop_file(self, alloc, pool, disk, &removing.info)?;
        let delta = removal_delta(&self.ledger, &removing.delta, count);
        count_removed(self, &delta, file, removing.info.number);
        Ok(())
    }
}

/// Whether a cut is accepted, and of which file.
#[tactic(auto, using(crate::proofs::OneVolumes::reads_then, crate::proofs::Calling::refused_ready))]
pub(crate) fn judge_cut<D: Disk>(
    volume: &mut VolumeState,
    alloc: Global,
    pool: &mut Pool,
    disk: &mut D,
    others: u64,
    file: &Name,
    length: u32,
) -> Result<Removing, VolumeFault>
    requires ready { IsReady (D.shown disk.old) pool.old volume.old }
    requires others { others ≤ 2 ^ 62 }
    ensures refused { IsStanding (D.shown disk.old) pool.old volume.old
        → IfErr result (RefusedIn (HasBeside volume.old.name (volume_for (D.shown disk.old) pool.old volume.old) others pool.old.found.blocks) (Cut volume.old.name file.now length)) }
    ensures accepted { IsStanding (D.shown disk.old) pool.old volume.old → IfOk result (λ r. AcceptsCut (D.shown disk.old) pool.old volume.old others file.now length r.info r.delta) }
    ensures near { OnOk result (length ≤ 2097152) }
    ensures found { TellsActive (D.shown disk.old) pool.old volume.old → IfOk result (λ r. IsInfoOf (standing_for (D.shown disk.old) pool.old volume.old).inode r.info) }
    ensures range { IfOk result (λ r. IsInfo r.info) }
    ensures fits { IfOk result (λ r. IfSome r.delta (FitsLedger volume.old)) }
    ensures more { OnOk result (volume.old.now < most_changes) }
    ensures same { volume.new ≡ volume.old }
    ensures reads { Reads (D.shown disk.old) pool.old (D.shown disk.new) pool.new }
    ensures cause { CallCause (TellsActive (D.shown disk.old) pool.old volume.old) (standing_for (D.shown disk.old) pool.old volume.old)
        (lent_for pool.old volume.old.map (D.shown disk.old) 0 (home_in volume.old) 0) (D.shown disk.new).faults result }
{
    if !in_reserve(u64::from(length)) {
        return Err(VolumeFault::Refused(Refusal::Range));
    }
    let Some(info) = find_file(volume, alloc, pool, disk, file)? else {
        return Err(VolumeFault::Refused(Refusal::NoFile));
    };
    if info.length < length {
        return Err(VolumeFault::Refused(Refusal::Range));
    }
    if volume.now >= MOST_CHANGES {
        return Err(VolumeFault::Refused(Refusal::TooMany));
    }
    let delta = admit_cut(volume, alloc, pool, disk, others, file, &info, length)?;
    Ok(Removing { info, delta })
}

/// Whether the removal of a file is accepted, and of which file.
#[tactic(auto, using(crate::proofs::OneVolumes::reads_then, crate::proofs::Calling::refused_ready))]
pub(crate) fn judge_removal<D: Disk>(
    volume: &mut VolumeState,
    alloc: Global,
    pool: &mut Pool,
    disk: &mut D,
    others: u64,
    file: &Name,
) -> Result<Removing, VolumeFault>
    requires ready { IsReady (D.shown disk.old) pool.old volume.old }
    requires others { others ≤ 2 ^ 62 }
    ensures refused { IsStanding (D.shown disk.old) pool.old volume.old
        → IfErr result (RefusedIn (HasBeside volume.old.name (volume_for (D.shown disk.old) pool.old volume.old) others pool.old.found.blocks) (Remove volume.old.name file.now)) }
    ensures accepted { IsStanding (D.shown disk.old) pool.old volume.old → IfOk result (λ r. AcceptsRemoval (D.shown disk.old) pool.old volume.old others file.now r.info r.delta) }
    ensures found { TellsActive (D.shown disk.old) pool.old volume.old → IfOk result (λ r. IsInfoOf (standing_for (D.shown disk.old) pool.old volume.old).inode r.info) }
    ensures range { IfOk result (λ r. IsInfo r.info) }
    ensures fits { IfOk result (λ r. IfSome r.delta (FitsLedger volume.old)) }
    ensures more { OnOk result (volume.old.now < most_changes) }
    ensures same { volume.new ≡ volume.old }
    ensures reads { Reads (D.shown disk.old) pool.old (D.shown disk.new) pool.new }
    ensures cause { CallCause (TellsActive (D.shown disk.old) pool.old volume.old) (standing_for (D.shown disk.old) pool.old volume.old)
        (lent_for pool.old volume.old.map (D.shown disk.old) 0 (home_in volume.old) 0) (D.shown disk.new).faults result }
{
    let Some(info) = find_file(volume, alloc, pool, disk, file)? else {
        return Err(VolumeFault::Refused(Refusal::NoFile));
    };
    if volume.now >= MOST_CHANGES {
        return Err(VolumeFault::Refused(Refusal::TooMany));
    }
    let delta = admit_removal(volume, alloc, pool, disk, others, file, &info)?;
    Ok(Removing { info, delta })
}

/// Whether there is room for a cut of a file to a length, and how the ledger changes by it, where that is told before: in a volume with
/// snapshots or a base.
fn admit_cut<D: Disk>(
    volume: &mut VolumeState,
    alloc: Global,
    pool: &mut Pool,
    disk: &mut D,
    others: u64,
    file: &Name,
    info: &Info,
    length: u32,
) -> Result<Option<Delta>, VolumeFault>
    requires ready { IsReady (D.shown disk.old) pool.old volume.old }
    requires others { others ≤ 2 ^ 62 }
    requires range { IsInfo info.now }
    requires more { volume.old.now < most_changes }
    requires within { CutsWithin info.now length }
    requires first { TellsActive (D.shown disk.old) pool.old volume.old → IsFirst (standing_for (D.shown disk.old) pool.old volume.old).inode file.now info.now }
    ensures refused { IsStanding (D.shown disk.old) pool.old volume.old
        → IfErr result (RefusedIn (HasBeside volume.old.name (volume_for (D.shown disk.old) pool.old volume.old) others pool.old.found.blocks) (Cut volume.old.name file.now length)) }
    ensures accepted { IsStanding (D.shown disk.old) pool.old volume.old → IfOk result (AcceptsCut (D.shown disk.old) pool.old volume.old others file.now length info.now) }
    ensures fits { IfOk result (λ known. IfSome known (FitsLedger volume.old)) }
    ensures same { volume.new ≡ volume.old }
    ensures reads { Reads (D.shown disk.old) pool.old (D.shown disk.new) pool.new }
    ensures cause { CallCause (TellsActive (D.shown disk.old) pool.old volume.old) (standing_for (D.shown disk.old) pool.old volume.old)
        (lent_for pool.old volume.old.map (D.shown disk.old) 0 (home_in volume.old) 0) (D.shown disk.new).faults result }
{
    if volume.has_one_table() {
        return Ok(None);
    }
    let taken = count_cut(volume, alloc, pool, disk, info, length)?;
    let delta = moved_blocks(&volume.ledger, &taken);
    admit_change(&volume.ledger, &delta, others, pool.found.blocks)?;
    Ok(Some(delta))
}

/// Whether there is room for the removal of a file, and how the ledger changes by it, where that is told before: in a volume with
/// snapshots or a base.
fn admit_removal<D: Disk>(
    volume: &mut VolumeState,
    alloc: Global,
    pool: &mut Pool,
    disk: &mut D,
    others: u64,
    file: &Name,
    info: &Info,
) -> Result<Option<Delta>, VolumeFault>
    requires ready { IsReady (D.shown disk.old) pool.old volume.old }
    requires others { others ≤ 2 ^ 62 }
    requires range { IsInfo info.now }
    requires more { volume.old.now < most_changes }
    requires first { TellsActive (D.shown disk.old) pool.old volume.old → IsFirst (standing_for (D.shown disk.old) pool.old volume.old).inode file.now info.now }
    ensures refused { IsStanding (D.shown disk.old) pool.old volume.old
        → IfErr result (RefusedIn (HasBeside volume.old.name (volume_for (D.shown disk.old) pool.old volume.old) others pool.old.found.blocks) (Remove volume.old.name file.now)) }
    ensures accepted { IsStanding (D.shown disk.old) pool.old volume.old → IfOk result (AcceptsRemoval (D.shown disk.old) pool.old volume.old others file.now info.now) }
    ensures fits { IfOk result (λ known. IfSome known (FitsLedger volume.old)) }
    ensures same { volume.new ≡ volume.old }
    ensures reads { Reads (D.shown disk.old) pool.old (D.shown disk.new) pool.new }
    ensures cause { CallCause (TellsActive (D.shown disk.old) pool.old volume.old) (standing_for (D.shown disk.old) pool.old volume.old)
        (lent_for pool.old volume.old.map (D.shown disk.old) 0 (home_in volume.old) 0) (D.shown disk.new).faults result }
{
    if volume.has_one_table() {
        return Ok(None);
    }
    let taken = count_removal(volume, alloc, pool, disk, info)?;
    let delta = moved_blocks(&volume.ledger, &taken);
    admit_change(&volume.ledger, &delta, others, pool.found.blocks)?;
    Ok(Some(delta))
}

/// A change of a ledger by so many blocks that stay charged though they go or are replaced, and so many that go, down to none.
fn moved_blocks(ledger: &Ledger, taken: &Taken) -> Delta
    requires charge { ledger.now.charge ≤ greatest_charge }
    requires need { ledger.now.need ≡ 0 }
    requires few { AreBelow 8388608 taken.now }
    ensures charge { taken.now.gone ≤ ledger.now.charge + taken.now.staying → (result.charge +ℤ pos taken.now.gone) ≡ pos (0 + taken.now.staying) }
    ensures need { result.need ≡ pos 0 }
    ensures size { result.size ≡ ledger.now.size }
    ensures kind { result.kind ≡ ledger.now.kind }
    ensures fits { CanChange ledger.now result }
{
    let gone = lesser(taken.gone, ledger.charge + taken.staying);
    Delta {
        charge: balance(taken.staying, gone),
        need: 0,
        size: ledger.size,
        kind: ledger.kind,
    }
}

/// What is left of one number without another, or lacks to it, where it is negative.
fn balance(more: u32, fewer: u32) -> i64
    ensures { (result +ℤ pos fewer) ≡ pos more }
{
    i64::from(more) - i64::from(fewer)
}

/// How a ledger changes by a removal by which so many positions went: as it was told before, and else by so many blocks fewer.
fn removal_delta(ledger: &Ledger, known: &Option<Delta>, count: u32) -> Delta
    requires charge { ledger.now.charge ≤ greatest_charge }
    requires need { ledger.now.need ≡ 0 }
    ensures by { IsDeltaBy ledger.now known.now count result }
{
    match known {
        Some(delta) => *delta,
        None => fewer_blocks(ledger, count),
    }
}

/// A change of a ledger by so many blocks fewer, down to none.
fn fewer_blocks(ledger: &Ledger, count: u32) -> Delta
    requires charge { ledger.now.charge ≤ greatest_charge }
    requires need { ledger.now.need ≡ 0 }
    ensures charge { count ≤ ledger.now.charge → (result.charge +ℤ pos count) ≡ pos 0 }
    ensures need { result.need ≡ pos 0 }
    ensures size { result.size ≡ ledger.now.size }
    ensures kind { result.kind ≡ ledger.now.kind }
    ensures fits { CanChange ledger.now result }
    ensures less { (result.charge ≤ℤ pos 0) }
{
    let taken = lesser(count, ledger.charge);
    Delta {
        charge: fallen(taken),
        need: 0,
        size: ledger.size,
        kind: ledger.kind,
    }
}

/// The lesser of two numbers.
fn lesser(count: u32, most: u32) -> u32
    ensures within { result ≤ most }
    ensures same { count ≤ most → result ≡ count }
{
    count.min(most)
}

/// A number of blocks, as one by which a charge falls.
fn fallen(count: u32) -> i64
    ensures { (result +ℤ pos count) ≡ pos 0 }
{
    -i64::from(count)
}

/// Cuts the file of which this is known, stamped with the number of the next change; answers how many positions went.
#[tactic(auto, using(crate::proofs::OneVolumes::root_fits, crate::proofs::OneVolumes::levels_fit))]
fn cut_blocks<D: Disk>(
    volume: &mut VolumeState,
    alloc: Global,
    pool: &mut Pool,
    disk: &mut D,
    info: &Info,
    length: u32,
) -> Result<u32, BlockFault>
    requires ready { IsReady (D.shown disk.old) pool.old volume.old }
    requires more { volume.old.now < most_changes }
    requires length { length ≤ 2097152 }
    requires range { IsInfo info.now }
    requires there { TellsActive (D.shown disk.old) pool.old volume.old → IsInfoOf (standing_for (D.shown disk.old) pool.old volume.old).inode info.now }
    ensures cut { IsStanding (D.shown disk.old) pool.old volume.old
        → OnOk result (CutsFile (standing_for (D.shown disk.old) pool.old volume.old) (standing_for (D.shown disk.old) pool.old volume.new) info.now.number length (volume.old.now + 1)) }
    ensures counted { IsStanding (D.shown disk.old) pool.old volume.old → IfOk result (TakesByCut (standing_for (D.shown disk.old) pool.old volume.old) info.now.number length (volume.old.now + 1)) }
    ensures alters { AltersTable (D.shown disk.old) pool.old (D.shown disk.new) pool.new volume.old volume.new result }
    ensures cause { BlockCause (TellsActive (D.shown disk.old) pool.old volume.old) (standing_for (D.shown disk.old) pool.old volume.old)
        (lent_for pool.old volume.old.map (D.shown disk.old) 0 (home_in volume.old) 0) (D.shown disk.new).faults result }
{
    let stamp = volume.now + 1;
    change_table!(volume, |alloc, pool, disk| cut_told(info, length, stamp))
}

/// Removes the file of which this is known, stamped with the number of the next change; answers how many positions went.
#[tactic(auto, using(crate::proofs::OneVolumes::root_fits, crate::proofs::OneVolumes::levels_fit))]
fn drop_file<D: Disk>(
    volume: &mut VolumeState,
    alloc: Global,
    pool: &mut Pool,
    disk: &mut D,
    info: &Info,
) -> Result<u32, BlockFault>
    requires ready { IsReady (D.shown disk.old) pool.old volume.old }
    requires more { volume.old.now < most_changes }
    requires range { IsInfo info.now }
    requires there { TellsActive (D.shown disk.old) pool.old volume.old → IsInfoOf (standing_for (D.shown disk.old) pool.old volume.old).inode info.now }
    ensures removed { IsStanding (D.shown disk.old) pool.old volume.old
        → OnOk result (RemovesFile (standing_for (D.shown disk.old) pool.old volume.old) (standing_for (D.shown disk.old) pool.old volume.new) info.now.number (volume.old.now + 1)) }
    ensures counted { IsStanding (D.shown disk.old) pool.old volume.old → IfOk result (TakesByRemoval (standing_for (D.shown disk.old) pool.old volume.old) info.now.number (volume.old.now + 1)) }
    ensures alters { AltersTable (D.shown disk.old) pool.old (D.shown disk.new) pool.new volume.old volume.new result }
    ensures cause { BlockCause (TellsActive (D.shown disk.old) pool.old volume.old) (standing_for (D.shown disk.old) pool.old volume.old)
        (lent_for pool.old volume.old.map (D.shown disk.old) 0 (home_in volume.old) 0) (D.shown disk.new).faults result }
{
    let stamp = volume.now + 1;
    change_table!(volume, |alloc, pool, disk| remove_told(info, stamp))
}
