//! The volumes that a session makes.

ghost use Rattle.std.specs.Prelude.{◌≡◌, ◌≤◌, ◌+◌, length, max, IsTrue, IsNone, IfOk, OnOk, OnErr};
ghost use Rattle.fv_container.specs.Chains.{slot_count};
ghost use Rattle.fv_model.specs.Machines.{Machine};
ghost use Rattle.fv_model.specs.Space.{overhead, span_of};
ghost use Rattle.fv_model.specs.Refusals.{next};
ghost use Rattle.fv_model.specs.Replies.{Allows};
ghost use Rattle.fv_model.specs.declared.answers.Reply.TheVariants.{Done};
ghost use Rattle.fv_model.specs.declared.commands.Command.TheVariants.{VolCreate};
ghost use Rattle.fv_volumes.specs.Creating.{Admits};
ghost use Rattle.fv_aggregate.specs.Adding.{IsCreated};
ghost use Rattle.fv_aggregate.specs.Answers.{answer};
ghost use Rattle.fv_aggregate.specs.Commands.{dirty_limit, is_refusal, most_overhead};
ghost use Rattle.fv_aggregate.specs.Deciding.{DecidesMaking};
ghost use Rattle.fv_aggregate.specs.Making.{MakesVolume};
ghost use Rattle.fv_aggregate.specs.Standing.{StandsFor, StandsReady};

use crate::fault::Fault;
use crate::replies::{done, refuse};
use crate::session::Session;
use fv_charge::overhead;
use fv_cp::known_slots;
use fv_disk::Disk;
use fv_model::{Kind, Name, Reply};
use fv_volumes::Admitted;
use std::alloc::AllocError;

impl Session {
    /// Makes a volume: it is decided first, so that what is refused is refused before the point that its room would ask for.
    pub(crate) fn create<D: Disk>(
        &mut self,
        disk: &mut D,
        name: &Name,
        size: u32,
        kind: Kind,
        into: &mut Reply,
    ) -> Result<(), Fault>
        requires fresh { IsNone self.old.failed }
        requires stands { StandsReady (D.shown disk.old) self.old }
        ensures made { MakesVolume D.shown (overhead (span_of size 0 0))
            (λ m. next m (VolCreate name.now size kind)) disk.old self.old disk.new self.new (answer into.new result) }
        ensures reply { IsTrue (D.shown disk.old).tells → (last m : Machine) → StandsFor (D.shown disk.old) self.old last m
            → IfOk (answer into.new result) (Allows m (VolCreate name.now size kind)) }
        ensures decides { IfOk (answer into.new result) (DecidesMaking self.old.volumes self.old.pool.found.blocks (VolCreate name.now size kind)) }
        ensures refused { IfOk (answer into.new result) (λ reply. IsTrue (is_refusal reply) → (disk.new ≡ disk.old) × (self.new ≡ self.old)) }
    {
        let blocks = self.pool.found.blocks;
        match self.volumes.admit(blocks, self.commits, name, size, kind) {
            Ok(admitted) => return self.make(disk, name, size, kind, admitted, into),
            Err(refusal) => {
                refuse(into, refusal);
                return Ok(());
            }
        }
    }

    /// Makes a volume that is admitted: first room for it, and then the volume in memory.
    fn make<D: Disk>(
        &mut self,
        disk: &mut D,
        name: &Name,
        size: u32,
        kind: Kind,
        admitted: Admitted,
        into: &mut Reply,
    ) -> Result<(), Fault>
        requires fresh { IsNone self.old.failed }
        requires stands { StandsReady (D.shown disk.old) self.old }
        requires long { length self.old.volumes ≡ slot_count }
        requires admitted { Admits self.old.volumes self.old.pool.found.blocks name.now size kind admitted.slot admitted.span }
        ensures made { MakesVolume D.shown (overhead admitted.span)
            (λ m. next m (VolCreate name.now size kind)) disk.old self.old disk.new self.new (answer into.new result) }
        ensures reply { IfOk (answer into.new result) (λ reply. reply ≡ Done) }
    {
        let room = u64::from(overhead(admitted.span()));
        self.make_room(disk, room)?;
        self.add(name, size, kind, admitted, room)?;
        done(into);
        Ok(())
    }

    /// Adds a volume in memory, with this room.
    fn add(
        &mut self,
        name: &Name,
        size: u32,
        kind: Kind,
        admitted: Admitted,
        room: u64,
    ) -> Result<(), AllocError>
        requires fresh { IsNone self.old.failed }
        requires few { self.old.pending + room ≤ max dirty_limit room }
        requires least { room ≤ most_overhead }
        requires room { room ≡ overhead admitted.span }
        requires admitted { Admits self.old.volumes self.old.pool.found.blocks name.now size kind admitted.slot admitted.span }
        ensures added { OnOk result (IsCreated self.old name.now size kind room self.new) }
        ensures pending { OnOk result (self.new.pending ≡ self.old.pending + room) }
        ensures same { OnErr result (self.new ≡ self.old) }
    {
        known_slots(&self.pool.containers);
        self.volumes.create(
            &mut self.pool,
            &mut self.commits,
            name,
            size,
            kind,
            admitted,
        )?;
        self.pending += room;
        Ok(())
    }
}
