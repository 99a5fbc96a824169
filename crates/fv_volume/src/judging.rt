//! The commands that change the files of a volume: whether one is accepted, and making it.

ghost use Rattle.std.specs.Prelude.{◌≡◌, ◌≤◌, ◌-◌, ◌^◌, min, true, OnErr};
ghost use Rattle.fv_model.specs.Machines.{Machine};
ghost use Rattle.fv_pool.specs.Calls.{CallCause, Reads};
ghost use Rattle.fv_volume.specs.Asking.{TellsActive};
ghost use Rattle.fv_volume.specs.Calls.{Agrees, Changes, HasWithin, KeepsHead};
ghost use Rattle.fv_volume.specs.Changing.{IsChangeOf, KeepsTable, keeps_numbers};
ghost use Rattle.fv_pool.specs.Lending.{lent_for};
ghost use Rattle.fv_pool.specs.Tables.{pending_of};
ghost use Rattle.fv_volume.specs.OneVolume.{home_in, standing_for, table_for, volume_for, IsReady, IsStanding};

use crate::changing::{judge_new, judge_put};
use crate::removing::{judge_cut, judge_removal};
use crate::state::VolumeState;
use fv_disk::Disk;
use fv_model::Command;
use fv_pool::{Pool, VolumeFault};
use std::alloc::Global;

impl VolumeState {
    /// Whether a command that changes a file of this volume is accepted: `new` with reserve 0, `put`, `cut` or `rm`. Nothing is changed, and of
    /// the pool nothing but its cache. It answers what `change` would.
    ///
    /// `others` is what the other volumes of the aggregate commit together, in blocks, at most 2^62.
    ///
    /// # Errors
    ///
    /// As `new_file`, `put`, `cut` and `remove`.
    ///
    /// Costs what the command does that is judged, but for the writing. `docs/MACHINE.md` has the commands.
    pub fn judge<D: Disk>(
        &mut self,
        alloc: Global,
        pool: &mut Pool,
        disk: &mut D,
        others: u64,
        command: &Command,
    ) -> Result<(), VolumeFault>
        requires ready { IsReady (D.shown disk.old) pool.old self.old }
        requires others { others ≤ 2 ^ 62 }
        requires change { IsChangeOf self.old.name command.now }
        ensures agrees { IsStanding (D.shown disk.old) pool.old self.old → (m : Machine)
            → HasWithin self.old.name (volume_for (D.shown disk.old) pool.old self.old) others pool.old.found.blocks m → Agrees m command.now result }
        ensures same { self.new ≡ self.old }
        ensures reads { Reads (D.shown disk.old) pool.old (D.shown disk.new) pool.new }
        ensures cause { CallCause (TellsActive (D.shown disk.old) pool.old self.old) (standing_for (D.shown disk.old) pool.old self.old)
            (lent_for pool.old self.old.map (D.shown disk.old) 0 (home_in self.old) 0) (D.shown disk.new).faults result }
    {
        match command {
            Command::New { file, reserve, .. } => {
                match judge_new(self, alloc, pool, disk, others, file, *reserve) {
                    Ok(_) => Ok(()),
                    Err(fault) => Err(fault),
                }
            }
            Command::Put { file, index, .. } => {
                match judge_put(self, alloc, pool, disk, others, file, *index) {
                    Ok(_) => Ok(()),
                    Err(fault) => Err(fault),
                }
            }
            Command::Cut { file, length, .. } => {
                match judge_cut(self, alloc, pool, disk, others, file, *length) {
                    Ok(_) => Ok(()),
                    Err(fault) => Err(fault),
                }
            }
            Command::Remove { file, .. } => {
                match judge_removal(self, alloc, pool, disk, others, file) {
                    Ok(_) => Ok(()),
                    Err(fault) => Err(fault),
                }
            }
            _ => Ok(()),
        }
    }

    /// Carries out a command that changes a file of this volume: `new` with reserve 0, `put`, `cut` or `rm`, as `new_file`, `put`, `cut` and
    /// `remove` do, with their errors and their costs.
    ///
    /// `others` is what the other volumes of the aggregate commit together, in blocks, at most 2^62.
    pub fn change<D: Disk>(
        &mut self,
        alloc: Global,
        pool: &mut Pool,
        disk: &mut D,
        others: u64,
        command: &Command,
    ) -> Result<(), VolumeFault>
        requires ready { IsReady (D.shown disk.old) pool.old self.old }
        requires others { others ≤ 2 ^ 62 }
        requires change { IsChangeOf self.old.name command.now }
        ensures changes { IsStanding (D.shown disk.old) pool.old self.old
            → Changes (HasWithin self.old.name (volume_for (D.shown disk.old) pool.old self.old) others pool.old.found.blocks) command.now self.old.name
            (volume_for (D.shown disk.old) pool.old self.old) (volume_for (D.shown disk.new) pool.new self.new) result }
        ensures standing { IsStanding (D.shown disk.old) pool.old self.old → IsStanding (D.shown disk.new) pool.new self.new }
        ensures table { IsStanding (D.shown disk.old) pool.old self.old → KeepsTable (D.shown disk.old) pool.old self.old (D.shown disk.new) pool.new self.new }
        ensures told { TellsActive (D.shown disk.old) pool.old self.old
            → OnErr result (table_for (D.shown disk.new) pool.new self.new ≡ table_for (D.shown disk.old) pool.old self.old) }
        ensures ready { IsReady (D.shown disk.new) pool.new self.new }
        ensures numbers { keeps_numbers command.now ≡ true → self.new.numbers ≡ self.old.numbers }
        ensures head { KeepsHead self.old self.new result }
        ensures reads { Reads (D.shown disk.old) pool.old (D.shown disk.new) pool.new }
        ensures cause { CallCause (TellsActive (D.shown disk.old) pool.old self.old) (standing_for (D.shown disk.old) pool.old self.old)
            (lent_for pool.old self.old.map (D.shown disk.old) 0 (home_in self.old) 0) (D.shown disk.new).faults result }
    {
        match command {
            Command::New { file, reserve, .. } => self.new_file(
                alloc, pool, disk, others, file, *reserve,
            ),
            Command::Put {
                file,
                index,
                block,
                ..
            } => self.put(alloc, pool, disk, others, file, *index, block),
            Command::Cut { file, length, .. } => self.cut(alloc, pool, disk, others, file, *length),
            Command::Remove { file, .. } => self.remove(alloc, pool, disk, others, file),
            _ => Ok(()),
        }
    }

    /// How many blocks a `flush` of the files places at most, or 2^64 - 1 where that is less. It costs one step, and takes no memory.
    pub fn pending(&self) -> u64
        ensures { result ≡ min (pending_of self.entry.now.files) (2 ^ 64 - 1) }
    {
        match &self.files {
            Some(files) => files.pending(),
            None => 0,
        }
    }
}
