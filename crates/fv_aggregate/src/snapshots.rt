//! The commands on snapshots: one is made of a volume's active table, one is removed, the active table becomes that of one, and their
//! names are told.

ghost use Rattle.std.specs.Prelude.{◌≡◌, ◌≢◌, ◌≤◌, ◌+◌, ◌-◌, ◌^◌, ◌⊎◌, false, None, Some, Ok, IsNone, IfErr, IfOk, IfSome};
ghost use Rattle.fv_cp.specs.Placing.{HaveNoFiles};
ghost use Rattle.fv_disk.specs.DiskCalls.{OnlyReads};
ghost use Rattle.fv_model.specs.declared.answers.Refusal.{Refusal};
ghost use Rattle.fv_model.specs.declared.answers.Refusal.TheVariants.{NoVolume};
ghost use Rattle.fv_model.specs.declared.answers.Reply.TheVariants.{Refused};
ghost use Rattle.fv_pool.specs.declared.fault.VolumeFault.TheVariants as of_volume;
ghost use Rattle.fv_root.specs.Formatted.{IsSize};
ghost use Rattle.fv_volume.specs.Files.{IsLabelled};
ghost use Rattle.fv_volume.specs.OneVolume.{IsBooked, IsReady};
ghost use Rattle.fv_volume.specs.Slots.{committed_by, sum_of};
ghost use Rattle.fv_volume.specs.States.{state_at};
ghost use Rattle.fv_aggregate.specs.declared.fault.Fault.TheVariants.{Memory};
ghost use Rattle.fv_aggregate.specs.Answers.{answer};
ghost use Rattle.fv_aggregate.specs.Calls.{NeedsSnapshot, TellsSnapshots};
ghost use Rattle.fv_aggregate.specs.Commands.{dirty_limit, is_refusal, places_files, room_by};
ghost use Rattle.fv_aggregate.specs.Looking.{HasSnapped, IsSnapAimed, SnapsAt};
ghost use Rattle.fv_aggregate.specs.Reclaiming.{MakesRoom};
ghost use Rattle.fv_aggregate.specs.Snapping.{HasGrant, JudgesSnap};
ghost use Rattle.fv_aggregate.specs.Standing.{StandsReady};

use crate::aiming::{volume_at, volume_in};
use crate::fault::Fault;
use crate::replies::{done, list, refuse};
use crate::session::Session;
use fv_disk::Disk;
use fv_model::{Command, Name, Refusal, Reply};
use fv_snapshot::{Granted, judge_create};
use fv_volume::{Pool, VolumeFault, VolumeState};
use fv_volumes::Volumes;
use std::alloc::AllocError;

/// What is granted to a command that makes no snapshot.
const NOTHING: Granted = Granted { slot: 0, room: 0 };

impl Session {
    /// Carries out a command that makes, removes or restores a snapshot of the volume of a slot. A snapshot that is made is judged before
    /// the point that its map would ask for, so that what is refused is refused before it.
    pub(crate) fn snap_at<D: Disk>(
        &mut self,
        disk: &mut D,
        slot: u8,
        command: &Command,
        into: &mut Reply,
    ) -> Result<(), Fault>
        requires fresh { IsNone self.old.failed }
        requires stands { StandsReady (D.shown disk.old) self.old }
        requires aimed { IsSnapAimed self.old.volumes slot command.now }
        ensures snapped { HasSnapped (D.shown disk.old) disk.old self.old command.now (D.shown disk.new) disk.new self.new (answer into.new result) }
        ensures roomy { MakesRoom (room_by self.old.volumes command.now) (D.shown disk.old) self.old (D.shown disk.new) (answer into.new result) }
        ensures needs { NeedsSnapshot self.old.volumes command.now (answer into.new result) }
    {
        let others = self.commits_beside(slot);
        let state = volume_in(&self.volumes, slot);
        match judge_snap(state, self.pool.found.blocks, others, command) {
            Ok(granted) => return self.snap_with(disk, slot, others, granted, command, into),
            Err(refusal) => {
                refuse(into, refusal);
                return Ok(());
            }
        }
    }

    /// Carries out such a command to which this was granted. Where its room passes the dirty limit room is made first.
    fn snap_with<D: Disk>(
        &mut self,
        disk: &mut D,
        slot: u8,
        others: u64,
        granted: Granted,
        command: &Command,
        into: &mut Reply,
    ) -> Result<(), Fault>
        requires fresh { IsNone self.old.failed }
        requires stands { StandsReady (D.shown disk.old) self.old }
        requires aimed { IsSnapAimed self.old.volumes slot command.now }
        requires others { others ≡ sum_of self.old.volumes - committed_by (state_at self.old.volumes slot) }
        requires most { others ≤ 2 ^ 62 }
        requires granted { HasGrant (state_at self.old.volumes slot) self.old.pool.found.blocks others command.now granted }
        ensures snapped { HasSnapped (D.shown disk.old) disk.old self.old command.now (D.shown disk.new) disk.new self.new (answer into.new result) }
        ensures roomy { MakesRoom (room_by self.old.volumes command.now) (D.shown disk.old) self.old (D.shown disk.new) (answer into.new result) }
        ensures needs { NeedsSnapshot self.old.volumes command.now (answer into.new result) }
    {
        if granted.room == 0 || self.has_room(granted.room) {
            return self.snap_now(disk, slot, others, granted, command, into);
        }
        self.make_room(disk, granted.room)?;
        self.snap_now(disk, slot, others, granted, command, into)
    }

    /// Carries out such a command for which there is room. It writes nothing, and reads leaves of containers where it places files.
    fn snap_now<D: Disk>(
        &mut self,
        disk: &mut D,
        slot: u8,
        others: u64,
        granted: Granted,
        command: &Command,
        into: &mut Reply,
    ) -> Result<(), Fault>
        requires fresh { IsNone self.old.failed }
        requires stands { StandsReady (D.shown disk.old) self.old }
        requires aimed { IsSnapAimed self.old.volumes slot command.now }
        requires others { others ≡ sum_of self.old.volumes - committed_by (state_at self.old.volumes slot) }
        requires most { others ≤ 2 ^ 62 }
        requires few { (granted.room ≡ 0) ⊎ (self.old.pending + granted.room ≤ dirty_limit) }
        requires granted { HasGrant (state_at self.old.volumes slot) self.old.pool.found.blocks others command.now granted }
        ensures snapped { HasSnapped (D.shown disk.old) disk.old self.old command.now (D.shown disk.new) disk.new self.new (answer into.new result) }
        ensures only_reads { OnlyReads (D.shown disk.old) (D.shown disk.new) }
        ensures placed { HaveNoFiles self.old.volumes → IfErr (answer into.new result) (λ e. e ≡ Memory) }
        ensures accepted { granted.room ≢ 0 → IfOk (answer into.new result) (λ reply. is_refusal reply ≡ false) }
        ensures needs { NeedsSnapshot self.old.volumes command.now (answer into.new result) }
    {
        let made = change_snaps(
            &mut self.volumes,
            slot,
            &mut self.pool,
            disk,
            others,
            granted,
            command,
        );
        self.commits = others + volume_in(&self.volumes, slot).ledger.commit();
        if made.is_ok() {
            self.pending += granted.room;
        }
        done(into);
        self.replied(disk, made, into)
    }

    /// Tells the names of the snapshots of a volume, in byte order. The one error is want of memory.
    pub(crate) fn snapshots(&self, volume: &Name, into: &mut Reply) -> Result<(), AllocError>
        requires fresh { IsNone self.now.failed }
        ensures { IfOk (answer into.new result) (TellsSnapshots self.entry.now volume.entry.now) }
    {
        let Some(slot) = self.volumes.find(volume) else {
            refuse(into, Refusal::NoVolume);
            return Ok(());
        };
        let names = volume_in(&self.volumes, slot).snapshot_names(self.alloc)?;
        list(into, names);
        Ok(())
    }
}

/// Whether a command on snapshots of a volume is refused before room is made for it, and what it is granted: a snapshot that is made gets a
/// slot and the room of its map, and each other command nothing.
fn judge_snap(
    state: &VolumeState,
    blocks: u32,
    others: u64,
    command: &Command,
) -> Result<Granted, Refusal>
    requires booked { IsBooked state.now }
    requires labelled { IsLabelled state.now.slot state.now }
    requires blocks { IsSize blocks }
    requires others { others ≤ 2 ^ 62 }
    ensures { JudgesSnap state.entry.now blocks others command.now result }
{
    match command {
        Command::SnapCreate { snapshot, .. } => judge_create(state, blocks, others, snapshot),
        _ => Ok(NOTHING),
    }
}

/// Makes the change of a command on snapshots of the volume of a slot, to which this was granted.
fn change_snaps<D: Disk>(
    volumes: &mut Volumes,
    slot: u8,
    pool: &mut Pool,
    disk: &mut D,
    others: u64,
    granted: Granted,
    command: &Command,
) -> Result<(), VolumeFault>
    requires aimed { IsSnapAimed volumes.old slot command.now }
    requires ready { IfSome (state_at volumes.old slot) (IsReady (D.shown disk.old) pool.old) }
    requires others { others ≤ 2 ^ 62 }
    requires granted { HasGrant (state_at volumes.old slot) pool.old.found.blocks others command.now granted }
    ensures snaps { SnapsAt (D.shown disk.old) pool.old volumes.old slot others command.now (D.shown disk.new) pool.new volumes.new result }
    ensures refused { IfErr result (λ e. (r : Refusal) → e ≡ of_volume.Refused r → disk.new ≡ disk.old) }
    ensures kept { places_files command.now ≡ false → disk.new ≡ disk.old }
    ensures idle { IfSome (state_at volumes.old slot) (λ x. x.files ≡ None) → disk.new ≡ disk.old }
{
    match command {
        Command::SnapCreate { snapshot, .. } => {
            fv_snapshot::make(volume_at(volumes, slot), pool, disk, granted, snapshot)
        }
        Command::SnapDelete { snapshot, .. } => {
            fv_snapshot::delete(volumes, slot, pool, disk, snapshot)
        }
        Command::SnapRestore { snapshot, .. } => {
            fv_snapshot::restore(volume_at(volumes, slot), pool, disk, others, snapshot)
        }
        _ => Err(VolumeFault::Refused(Refusal::Syntax)),
    }
}
