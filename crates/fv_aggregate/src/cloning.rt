//! The clones that a session makes.

ghost use Rattle.std.specs.Prelude.{◌≡◌, ◌≤◌, ◌+◌, length, max, IsTrue, IsNone, IfOk, OnOk, OnErr};
ghost use Rattle.fv_container.specs.Chains.{slot_count};
ghost use Rattle.fv_model.specs.Machines.{Machine};
ghost use Rattle.fv_model.specs.Space.{overhead};
ghost use Rattle.fv_model.specs.Refusals.{next};
ghost use Rattle.fv_model.specs.Replies.{Allows};
ghost use Rattle.fv_model.specs.declared.answers.Reply.TheVariants.{Done};
ghost use Rattle.fv_model.specs.declared.commands.Command.TheVariants.{CloneCreate};
ghost use Rattle.fv_clone.specs.Admitting.{Admits, CanMake};
ghost use Rattle.fv_aggregate.specs.Adding.{IsCloned};
ghost use Rattle.fv_aggregate.specs.Answers.{answer};
ghost use Rattle.fv_aggregate.specs.Commands.{dirty_limit, is_refusal, most_overhead, room_by};
ghost use Rattle.fv_aggregate.specs.Deciding.{DecidesMaking};
ghost use Rattle.fv_aggregate.specs.Making.{MakesVolume};
ghost use Rattle.fv_aggregate.specs.Standing.{StandsFor, StandsReady};

use crate::fault::Fault;
use crate::replies::{done, refuse};
use crate::session::Session;
use fv_charge::overhead;
use fv_clone::{Admitted, admit, make};
use fv_cp::known_slots;
use fv_disk::Disk;
use fv_model::{Kind, Name, Reply};
use std::alloc::AllocError;

impl Session {
    /// Makes a clone of a snapshot of a volume: it is decided first, so that what is refused is refused before the point that its room would
    /// ask for.
    pub(crate) fn clone_volume<D: Disk>(
        &mut self,
        disk: &mut D,
        name: &Name,
        parent: &Name,
        snapshot: &Name,
        size: u32,
        kind: Kind,
        into: &mut Reply,
    ) -> Result<(), Fault>
        requires fresh { IsNone self.old.failed }
        requires stands { StandsReady (D.shown disk.old) self.old }
        ensures made { MakesVolume D.shown (room_by self.old.volumes (CloneCreate name.now parent.now snapshot.now size kind))
            (λ m. next m (CloneCreate name.now parent.now snapshot.now size kind)) disk.old self.old disk.new self.new (answer into.new result) }
        ensures reply { IsTrue (D.shown disk.old).tells → (last m : Machine) → StandsFor (D.shown disk.old) self.old last m
            → IfOk (answer into.new result) (Allows m (CloneCreate name.now parent.now snapshot.now size kind)) }
        ensures decides { IfOk (answer into.new result)
            (DecidesMaking self.old.volumes self.old.pool.found.blocks (CloneCreate name.now parent.now snapshot.now size kind)) }
        ensures refused { IfOk (answer into.new result) (λ reply. IsTrue (is_refusal reply) → (disk.new ≡ disk.old) × (self.new ≡ self.old)) }
    {
        let blocks = self.pool.found.blocks;
        match admit(
            &self.volumes,
            blocks,
            self.commits,
            parent,
            snapshot,
            name,
            size,
            kind,
        ) {
            Ok(admitted) => return self.make_clone(disk, name, size, kind, admitted, into),
            Err(refusal) => {
                refuse(into, refusal);
                return Ok(());
            }
        }
    }

    /// Makes a clone that is admitted: first room for it, and then the clone in memory.
    fn make_clone<D: Disk>(
        &mut self,
        disk: &mut D,
        name: &Name,
        size: u32,
        kind: Kind,
        admitted: Admitted,
        into: &mut Reply,
    ) -> Result<(), Fault>
        requires fresh { IsNone self.old.failed }
        requires stands { StandsReady (D.shown disk.old) self.old }
        requires long { length self.old.volumes ≡ slot_count }
        requires admitted { Admits self.old.volumes self.old.pool.found.blocks name.now size kind admitted }
        ensures made { MakesVolume D.shown (overhead admitted.span)
            (λ m. next m (CloneCreate name.now admitted.base.name admitted.base.snapshot size kind)) disk.old self.old disk.new self.new (answer into.new result) }
        ensures reply { IfOk (answer into.new result) (λ reply. reply ≡ Done) }
    {
        let room = u64::from(overhead(admitted.span));
        self.make_room(disk, room)?;
        self.add_clone(name, size, kind, admitted, room)?;
        done(into);
        Ok(())
    }

    /// Adds a clone in memory, with this room.
    fn add_clone(
        &mut self,
        name: &Name,
        size: u32,
        kind: Kind,
        admitted: Admitted,
        room: u64,
    ) -> Result<(), AllocError>
        requires fresh { IsNone self.old.failed }
        requires few { self.old.pending + room ≤ max dirty_limit room }
        requires least { room ≤ most_overhead }
        requires room { room ≡ overhead admitted.span }
        requires admitted { CanMake self.old.volumes self.old.pool.found.blocks name.now size kind admitted }
        ensures added { OnOk result (IsCloned self.old name.now size kind admitted room self.new) }
        ensures pending { OnOk result (self.new.pending ≡ self.old.pending + room) }
        ensures same { OnErr result (self.new ≡ self.old) }
    {
        known_slots(&self.pool.containers);
        make(
            &mut self.volumes,
            &mut self.pool,
            &mut self.commits,
            name,
            size,
            kind,
            admitted,
        )?;
        self.pending += room;
        Ok(())
    }
}
