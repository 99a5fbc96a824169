//! The commands on one volume that is there: at which slot they are aimed, and what each asks.

ghost use Rattle.std.specs.Prelude.{◌≡◌, ◌<◌, true, is_some, Some, IsNone};
ghost use Rattle.std.specs.Borrow.{Lends, sem};
ghost use Rattle.fv_container.specs.Chains.{slot_count};
ghost use Rattle.fv_volumes.specs.Rows.{state_row};
ghost use Rattle.fv_volumes.specs.contracts.volumes.Volumes.{the_row};
ghost use Rattle.fv_volume.specs.States.{state_at, with_state};
ghost use Rattle.fv_cp.specs.Lent.{FitTogether};
ghost use Rattle.fv_aggregate.specs.Aiming.{Aims, AimsAt, IsAimed, IsServed};
ghost use Rattle.fv_aggregate.specs.Answers.{answer};
ghost use Rattle.fv_aggregate.specs.Applying.{HasApplied};
ghost use Rattle.fv_aggregate.specs.Standing.{StandsReady};

use crate::fault::Fault;
use crate::replies::refuse;
use crate::session::Session;
use fv_container::Steps;
use fv_disk::Disk;
use fv_model::{Command, Name, Refusal, Reply, in_index, in_reserve};
use fv_volume::VolumeState;
use fv_volumes::Volumes;
use std::sync::ledger::Ledger;

/// What a command asks of one volume.
#[derive(Clone, Copy)]
pub(crate) enum Task {
    /// To tell of its files: `get`, `len`, `ls` and `probe`.
    Look,
    /// To change a file: `new` without a reserve, `put`, `cut` and `rm`.
    Change,
    /// To make, remove or restore a snapshot.
    Snap,
}

/// The volume at which a command is aimed, by its slot, and what the command asks of it.
#[derive(Clone, Copy)]
pub(crate) struct Aim {
    /// The slot, which has a volume.
    pub(crate) slot: u8,
    /// What is asked.
    pub(crate) task: Task,
}

impl Session {
    /// Carries out a command on one volume, and refuses each that isn't built.
    pub(crate) fn serve<D: Disk, L: Ledger>(
        &mut self,
        disk: &mut D,
        command: &Command,
        steps: &mut Steps<L>,
        into: &mut Reply,
    ) -> Result<(), Fault>
        requires fresh { IsNone self.old.failed }
        requires stands { StandsReady (D.shown disk.old) self.old }
        requires served { IsServed command.now }
        ensures { HasApplied command.now (D.shown disk.old) disk.old self.old steps.old
            (D.shown disk.new) disk.new self.new steps.new (answer into.new result) }
    {
        match self.aim(command) {
            Ok(aim) => return self.carry(disk, aim, command, steps, into),
            Err(refusal) => {
                refuse(into, refusal);
                return Ok(());
            }
        }
    }

    /// Where a command on one volume is aimed, and what it asks there. It is refused where its number is out of range, and else where no
    /// volume has the name. Costs a comparison for each slot.
    fn aim(&self, command: &Command) -> Result<Aim, Refusal>
        requires fresh { IsNone self.now.failed }
        ensures aims { Aims self.entry.now.volumes command.entry.now result }
        ensures fits { FitTogether self.entry.now.pool self.entry.now.volumes }
    {
        let volumes = &self.volumes;
        match command {
            Command::Get { volume, index, .. } => {
                aim_at(volumes, volume, in_index(u64::from(*index)), Task::Look)
            }
            Command::Len { volume, .. } => aim_at(volumes, volume, true, Task::Look),
            Command::Ls { volume, .. } => aim_at(volumes, volume, true, Task::Look),
            Command::Probe { volume, index, .. } => {
                aim_at(volumes, volume, in_index(u64::from(*index)), Task::Look)
            }
            Command::New {
                volume,
                reserve: 0,
                ..
            } => aim_at(volumes, volume, true, Task::Change),
            Command::Put { volume, index, .. } => {
                aim_at(volumes, volume, in_index(u64::from(*index)), Task::Change)
            }
            Command::Cut { volume, length, .. } => {
                aim_at(
                    volumes,
                    volume,
                    in_reserve(u64::from(*length)),
                    Task::Change,
                )
            }
            Command::Remove { volume, .. } => aim_at(volumes, volume, true, Task::Change),
            Command::SnapCreate { volume, .. } => aim_at(volumes, volume, true, Task::Snap),
            Command::SnapDelete { volume, .. } => aim_at(volumes, volume, true, Task::Snap),
            Command::SnapRestore { volume, .. } => aim_at(volumes, volume, true, Task::Snap),
            _ => Err(Refusal::Syntax),
        }
    }

    /// Carries out a command on the volume at which it is aimed.
    fn carry<D: Disk, L: Ledger>(
        &mut self,
        disk: &mut D,
        aim: Aim,
        command: &Command,
        steps: &mut Steps<L>,
        into: &mut Reply,
    ) -> Result<(), Fault>
        requires fresh { IsNone self.old.failed }
        requires stands { StandsReady (D.shown disk.old) self.old }
        requires aimed { IsAimed self.old.volumes aim.slot aim.task command.now }
        ensures { HasApplied command.now (D.shown disk.old) disk.old self.old steps.old
            (D.shown disk.new) disk.new self.new steps.new (answer into.new result) }
    {
        match aim.task {
            Task::Look => return self.look_at(disk, aim.slot, command, steps, into),
            Task::Change => return self.change_at(disk, aim.slot, command, into),
            Task::Snap => return self.snap_at(disk, aim.slot, command, into),
        }
    }
}

/// The volume of a name, at which a command is aimed whose number may be in its range.
fn aim_at(volumes: &Volumes, volume: &Name, near: bool, task: Task) -> Result<Aim, Refusal>
    ensures { AimsAt volumes.entry.now volume.entry.now near task result }
{
    if !near {
        return Err(Refusal::Range);
    }
    match volumes.find(volume) {
        Some(slot) => Ok(Aim { slot, task }),
        None => Err(Refusal::NoVolume),
    }
}

/// The volume of a slot, which is there, to be changed: what the caller makes of it is the slot's afterwards.
pub(crate) fn volume_at(volumes: &mut Volumes, slot: u8) -> &mut VolumeState
    requires slot { slot < slot_count }
    requires there { is_some (state_at volumes.old slot) ≡ true }
    ensures* writes_back { sem 𝓛 (Lends the_row state_row volumes.entry result (λ state. with_state volumes.old slot (Some state))) }
    ensures state { state_at volumes.old slot ≡ Some result.now }
{
    match volumes.get_mut(slot) {
        Some(state) => state,
        None => unreachable!(),
    }
}

/// The volume of a slot, which is there.
pub(crate) fn volume_in(volumes: &Volumes, slot: u8) -> &VolumeState
    requires slot { slot < slot_count }
    requires there { is_some (state_at volumes.now slot) ≡ true }
    ensures { state_at volumes.now slot ≡ Some result.now }
{
    match volumes.get(slot) {
        Some(state) => state,
        None => unreachable!(),
    }
}
