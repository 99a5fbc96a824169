//! The commands on all volumes that are there, or on one as a whole: what they hold, a size and a kind of guarantee, and a removal.

ghost use Rattle.std.specs.Prelude.{◌≡◌, ◌<◌, ◌≤◌, ◌-◌, ◌^◌, ℕ, IsNone, IfSome};
ghost use Rattle.fv_container.specs.Chains.{slot_count};
ghost use Rattle.fv_cp.specs.Lent.{FitTogether};
ghost use Rattle.fv_model.specs.declared.commands.Command.TheVariants.{VolGuarantee, VolResize, VolStat};
ghost use Rattle.fv_volume.specs.OneVolume.{IsBooked};
ghost use Rattle.fv_volume.specs.Slots.{committed_by, sum_of};
ghost use Rattle.fv_volume.specs.States.{state_at};
ghost use Rattle.fv_aggregate.specs.Aiming.{IsOnVolumes};
ghost use Rattle.fv_aggregate.specs.Answers.{answer};
ghost use Rattle.fv_aggregate.specs.Applying.{HasApplied};
ghost use Rattle.fv_aggregate.specs.Managing.{Manages, told_as};
ghost use Rattle.fv_aggregate.specs.Removing.{HasRemoved};
ghost use Rattle.fv_aggregate.specs.Standing.{StandsReady};

use crate::aiming::volume_in;
use crate::fault::Fault;
use crate::replies::{done, list, refuse, stat};
use crate::session::Session;
use crate::volumes::names_of;
use fv_container::Steps;
use fv_cp::known_slots;
use fv_disk::Disk;
use fv_model::{Command, Kind, Name, Refusal, Reply};
use std::sync::ledger::Ledger;

impl Session {
    /// Carries out a command that lists names, or that is on one volume as a whole, and hands each other one on to be served.
    pub(crate) fn manage<D: Disk, L: Ledger>(
        &mut self,
        disk: &mut D,
        command: &Command,
        steps: &mut Steps<L>,
        into: &mut Reply,
    ) -> Result<(), Fault>
        requires fresh { IsNone self.old.failed }
        requires stands { StandsReady (D.shown disk.old) self.old }
        requires fits { FitTogether self.old.pool self.old.volumes }
        requires there { IsOnVolumes command.now }
        ensures { HasApplied command.now (D.shown disk.old) disk.old self.old steps.old
            (D.shown disk.new) disk.new self.new steps.new (answer into.new result) }
    {
        match command {
            Command::VolList => {
                list(into, names_of(self.alloc, &self.volumes)?);
                return Ok(());
            }
            Command::SnapList { volume } => {
                self.snapshots(volume, into)?;
                return Ok(());
            }
            Command::VolDestroy { volume } => return self.destroy(disk, volume, into),
            Command::VolResize { volume, size } => {
                self.resize(volume, *size, into);
                return Ok(());
            }
            Command::VolGuarantee { volume, kind } => {
                self.guarantee(volume, *kind, into);
                return Ok(());
            }
            Command::VolStat { volume } => {
                self.stat(volume, into);
                return Ok(());
            }
            _ => return self.serve(disk, command, steps, into),
        }
    }

    /// Removes a volume, once the leaves of its container are read. `docs/SPACE.md` says when its blocks can be used again.
    pub(crate) fn destroy<D: Disk>(
        &mut self,
        disk: &mut D,
        volume: &Name,
        into: &mut Reply,
    ) -> Result<(), Fault>
        requires fresh { IsNone self.old.failed }
        requires stands { StandsReady (D.shown disk.old) self.old }
        ensures { HasRemoved (D.shown disk.old) disk.old self.old volume.now (D.shown disk.new) disk.new self.new (answer into.new result) }
    {
        known_slots(&self.pool.containers);
        let made = self
            .volumes
            .destroy(&mut self.pool, disk, &mut self.commits, volume);
        done(into);
        self.replied(disk, made, into)
    }

    /// Gives a volume another size, in blocks.
    pub(crate) fn resize(&mut self, volume: &Name, size: u32, into: &mut Reply)
        requires fresh { IsNone self.old.failed }
        requires booked { (s : ℕ) → IfSome (state_at self.old.volumes s) IsBooked }
        ensures { Manages self.old (VolResize volume.now size) self.new into.new }
    {
        let blocks = self.pool.found.blocks;
        let made = self.volumes.resize(blocks, &mut self.commits, volume, size);
        tell(made, into);
    }

    /// Gives a volume another kind of guarantee.
    pub(crate) fn guarantee(&mut self, volume: &Name, kind: Kind, into: &mut Reply)
        requires fresh { IsNone self.old.failed }
        requires booked { (s : ℕ) → IfSome (state_at self.old.volumes s) IsBooked }
        ensures { Manages self.old (VolGuarantee volume.now kind) self.new into.new }
    {
        let blocks = self.pool.found.blocks;
        let made = self
            .volumes
            .guarantee(blocks, &mut self.commits, volume, kind);
        tell(made, into);
    }

    /// What all volumes but that of a slot commit together, in blocks. Costs a step: the sum of all is kept.
    pub(crate) fn commits_beside(&self, slot: u8) -> u64
        requires fresh { IsNone self.now.failed }
        requires slot { slot < slot_count }
        requires few { sum_of self.now.volumes ≤ 2 ^ 40 }
        ensures sum { result ≡ sum_of self.entry.now.volumes - committed_by (state_at self.entry.now.volumes slot) }
        ensures most { result ≤ 2 ^ 40 }
    {
        self.volumes.commits_beside(self.commits, slot)
    }

    /// Tells what a volume holds and is promised.
    pub(crate) fn stat(&self, volume: &Name, into: &mut Reply)
        requires fresh { IsNone self.now.failed }
        ensures { Manages self.entry.now (VolStat volume.entry.now) self.entry.now into.new }
    {
        match self.volumes.find(volume) {
            Some(slot) => stat(into, volume_in(&self.volumes, slot).stat()),
            None => refuse(into, Refusal::NoVolume),
        }
    }
}

/// The reply to a command that was done or refused.
fn tell(made: Result<(), Refusal>, into: &mut Reply)
    ensures { into.new ≡ told_as made }
{
    match made {
        Ok(()) => done(into),
        Err(refusal) => refuse(into, refusal),
    }
}
