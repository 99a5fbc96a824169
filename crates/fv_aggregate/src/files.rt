//! The commands that change files.

ghost use Rattle.std.specs.Prelude.{◌≡◌, ◌≤◌, ◌<◌, ◌+◌, ◌-◌, max, min, false, true, Some, None, Ok, IsNone, IfErr, OnErr, OnOk};
ghost use Rattle.fv_disk.specs.DiskCalls.{OnlyReads};
ghost use Rattle.fv_model.specs.declared.answers.Reply.TheVariants.{Refused};
ghost use Rattle.fv_volume.specs.Changing.{keeps_numbers};
ghost use Rattle.fv_volume.specs.States.{state_at};
ghost use Rattle.fv_aggregate.specs.Answers.{answer};
ghost use Rattle.fv_aggregate.specs.Commands.{AsksTable, dirty_limit, file_room, finds_file};
ghost use Rattle.fv_aggregate.specs.Failing.{IsUnmade};
ghost use Rattle.fv_aggregate.specs.Known.{KeepsNumbersBut, KnowsNumbers};
ghost use Rattle.fv_aggregate.specs.Looking.{HasJudged, IsChangeAt, IsTableFault, Makes, refusal_in};
ghost use Rattle.fv_aggregate.specs.Reclaiming.{MakesRoom};
ghost use Rattle.fv_aggregate.specs.Standing.{StandsReady};

use crate::aiming::volume_at;
use crate::fault::Fault;
use crate::replies::done;
use crate::session::Session;
use fv_disk::Disk;
use fv_model::{Command, Refusal, Reply};

/// The room of a command that changes a file: so many blocks it adds at most. `docs/SPACE.md` counts them.
const FILE_ROOM: u64 = 16;

impl Session {
    /// Carries out a command that changes a file of the volume of a slot, with the numbers of its files in memory.
    pub(crate) fn change_at<D: Disk>(
        &mut self,
        disk: &mut D,
        slot: u8,
        command: &Command,
        into: &mut Reply,
    ) -> Result<(), Fault>
        requires fresh { IsNone self.old.failed }
        requires stands { StandsReady (D.shown disk.old) self.old }
        requires aimed { IsChangeAt self.old.volumes slot command.now }
        ensures makes { Makes file_room (AsksTable slot None false) (D.shown disk.old) self.old command.now (D.shown disk.new) self.new (answer into.new result) }
        ensures roomy { MakesRoom file_room (D.shown disk.old) self.old (D.shown disk.new) (answer into.new result) }
        ensures unmade { self.old.pending + file_room ≤ dirty_limit → OnErr (answer into.new result) (IsUnmade (D.shown disk.old) self.old slot (D.shown disk.new) self.new) }
        ensures kept { IsNone self.new.failed → KeepsNumbersBut (λ s. (s ≡ slot) × (keeps_numbers command.now ≡ false)) self.old.volumes self.new.volumes }
        ensures finds { finds_file command.now ≡ true → OnOk (answer into.new result) (KnowsNumbers (state_at self.new.volumes slot)) }
    {
        self.read_numbers(disk, slot)?;
        self.decide(disk, slot, command, into)
    }

    /// Carries out a command that changes a file of the volume of a slot. It is decided before the point that its room would ask for, so
    /// that what is refused is refused before it.
    fn decide<D: Disk>(
        &mut self,
        disk: &mut D,
        slot: u8,
        command: &Command,
        into: &mut Reply,
    ) -> Result<(), Fault>
        requires fresh { IsNone self.old.failed }
        requires stands { StandsReady (D.shown disk.old) self.old }
        requires aimed { IsChangeAt self.old.volumes slot command.now }
        ensures makes { Makes file_room (AsksTable slot None false) (D.shown disk.old) self.old command.now (D.shown disk.new) self.new (answer into.new result) }
        ensures roomy { MakesRoom file_room (D.shown disk.old) self.old (D.shown disk.new) (answer into.new result) }
        ensures unmade { self.old.pending + file_room ≤ dirty_limit → OnErr (answer into.new result) (IsUnmade (D.shown disk.old) self.old slot (D.shown disk.new) self.new) }
        ensures kept { IsNone self.new.failed → KeepsNumbersBut (λ s. (s ≡ slot) × (keeps_numbers command.now ≡ false)) self.old.volumes self.new.volumes }
    {
        if self.has_room(FILE_ROOM) {
            return self.carry_out(disk, slot, command, into);
        }
        self.judge(disk, slot, command, into)?;
        match refused_by(into) {
            Some(_) => return Ok(()),
            None => {
                self.make_room(disk, FILE_ROOM)?;
                return self.carry_out(disk, slot, command, into);
            }
        }
    }

    /// Makes the change of a command on the volume of a slot, and counts the blocks that it adds.
    fn carry_out<D: Disk>(
        &mut self,
        disk: &mut D,
        slot: u8,
        command: &Command,
        into: &mut Reply,
    ) -> Result<(), Fault>
        requires fresh { IsNone self.old.failed }
        requires stands { StandsReady (D.shown disk.old) self.old }
        requires few { self.old.pending + file_room ≤ max dirty_limit file_room }
        requires aimed { IsChangeAt self.old.volumes slot command.now }
        ensures makes { Makes file_room (AsksTable slot None false) (D.shown disk.old) self.old command.now (D.shown disk.new) self.new (answer into.new result) }
        ensures reads { OnlyReads (D.shown disk.old) (D.shown disk.new) }
        ensures damage { IfErr (answer into.new result) (IsTableFault (AsksTable slot None false) (D.shown disk.new) self.old self.new) }
        ensures unmade { OnErr (answer into.new result) (IsUnmade (D.shown disk.old) self.old slot (D.shown disk.new) self.new) }
        ensures kept { KeepsNumbersBut (λ s. (s ≡ slot) × (keeps_numbers command.now ≡ false)) self.old.volumes self.new.volumes }
    {
        let others = self.commits_beside(slot);
        let state = volume_at(&mut self.volumes, slot);
        let before = state.pending();
        let made = state.change(self.alloc, &mut self.pool, disk, others, command);
        let more = added(before, state.pending());
        self.commits = others + state.ledger.commit();
        self.pending += more;
        done(into);
        self.replied(disk, made, into)
    }

    /// What a command on the volume of a slot will be answered, without a change.
    fn judge<D: Disk>(
        &mut self,
        disk: &mut D,
        slot: u8,
        command: &Command,
        into: &mut Reply,
    ) -> Result<(), Fault>
        requires fresh { IsNone self.old.failed }
        requires stands { StandsReady (D.shown disk.old) self.old }
        requires aimed { IsChangeAt self.old.volumes slot command.now }
        ensures judged { HasJudged slot (D.shown disk.old) self.old command.now (D.shown disk.new) self.new (answer into.new result) }
        ensures volumes { self.new.volumes ≡ self.old.volumes }
    {
        let others = self.commits_beside(slot);
        let state = volume_at(&mut self.volumes, slot);
        let judged = state.judge(self.alloc, &mut self.pool, disk, others, command);
        done(into);
        self.replied(disk, judged, into)
    }
}

/// The refusal that a reply is, if it is one.
fn refused_by(reply: &Reply) -> Option<Refusal>
    ensures { result ≡ refusal_in reply.now }
{
    match reply {
        Reply::Refused(refusal) => Some(*refusal),
        _ => None,
    }
}

/// How many blocks a change added to those that are pending, of which the volume had so many before it and has so many after it: at most the
/// room of a command.
fn added(before: u64, after: u64) -> u64
    ensures { result ≡ min (after - before) file_room }
{
    after.saturating_sub(before).min(FILE_ROOM)
}
