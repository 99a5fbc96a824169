//! The mirrors that a session makes.

ghost use Rattle.std.specs.Prelude.{◌≡◌, ◌≤◌, ◌<◌, ◌+◌, ◌-◌, ◌^◌, ℕ, length, max, IsTrue, IsNone, IfErr, IfOk, IfSome, OnOk};
ghost use Rattle.fv_disk.specs.Shown.{IsSettled};
ghost use Rattle.fv_container.specs.Chains.{slot_count};
ghost use Rattle.fv_model.specs.Machines.{Machine};
ghost use Rattle.fv_model.specs.Numbers.{greatest_span};
ghost use Rattle.fv_model.specs.Space.{overhead};
ghost use Rattle.fv_model.specs.Refusals.{next};
ghost use Rattle.fv_model.specs.Replies.{Allows};
ghost use Rattle.fv_model.specs.declared.answers.Reply.TheVariants.{Done};
ghost use Rattle.fv_model.specs.declared.commands.Command.TheVariants.{Mirror};
ghost use Rattle.fv_volmap.specs.Slots.{IsVolume};
ghost use Rattle.fv_volume.specs.States.{state_at};
ghost use Rattle.fv_mirror.specs.Admitting.{Admits, CanMake};
ghost use Rattle.fv_aggregate.specs.Answers.{answer};
ghost use Rattle.fv_aggregate.specs.Commands.{dirty_limit, is_refusal};
ghost use Rattle.fv_aggregate.specs.Mirroring.{AddsMirror, IsSettledLive, LeavesCopies, MakesMirror, Mirrors, SettlesSession};
ghost use Rattle.fv_aggregate.specs.Standing.{StandsFor, StandsReady};

use crate::fault::Fault;
use crate::points::failure;
use crate::replies::{done, refuse};
use crate::session::Session;
use fv_charge::overhead;
use fv_cp::known_slots;
use fv_disk::{BlockFault, Disk};
use fv_mirror::{Admitted, admit, make};
use fv_model::{Kind, Name, Reply};
use fv_volumes::Volumes;

/// So many blocks a mirror adds: its overhead, and a copy of each block that its source reaches.
fn room_of(span: u32, count: u32) -> u64
    requires { span ≤ greatest_span }
    ensures { result ≡ overhead span + count }
{
    u64::from(overhead(span)) + u64::from(count)
}

impl Session {
    /// Makes a mirror of a snapshot of the volume `source`: it is decided first, so that what is refused is refused before the point that its
    /// room would ask for.
    pub(crate) fn mirror_volume<D: Disk>(
        &mut self,
        disk: &mut D,
        source: &Name,
        snapshot: &Name,
        name: &Name,
        size: u32,
        kind: Kind,
        into: &mut Reply,
    ) -> Result<(), Fault>
        requires fresh { IsNone self.old.failed }
        requires stands { StandsReady (D.shown disk.old) self.old }
        ensures { Mirrors D.shown source.now snapshot.now name.now size kind disk.old self.old disk.new self.new (answer into.new result) }
    {
        let blocks = self.pool.found.blocks;
        match admit(
            &self.volumes,
            blocks,
            self.commits,
            source,
            snapshot,
            name,
            size,
            kind,
        ) {
            Ok(admitted) => return self.make_mirror(disk, name, size, kind, admitted, into),
            Err(refusal) => {
                refuse(into, refusal);
                return Ok(());
            }
        }
    }

    /// Makes a mirror that is admitted: first room for it, whole, since no point can run while blocks are copied; and then the mirror.
    fn make_mirror<D: Disk>(
        &mut self,
        disk: &mut D,
        name: &Name,
        size: u32,
        kind: Kind,
        admitted: Admitted,
        into: &mut Reply,
    ) -> Result<(), Fault>
        requires fresh { IsNone self.old.failed }
        requires stands { StandsReady (D.shown disk.old) self.old }
        requires long { length self.old.volumes ≡ slot_count }
        requires admitted { Admits self.old.volumes self.old.pool.found.blocks name.now size kind admitted }
        ensures made { MakesMirror D.shown (overhead admitted.span + admitted.count) admitted
            (λ m. next m (Mirror admitted.source.name admitted.source.snapshot name.now size kind)) disk.old self.old disk.new self.new (answer into.new result) }
        ensures reply { IfOk (answer into.new result) (λ reply. reply ≡ Done) }
    {
        let room = room_of(admitted.span, admitted.count);
        self.make_room(disk, room)?;
        self.add_mirror(disk, name, size, kind, admitted, room)?;
        done(into);
        Ok(())
    }

    /// Copies what the mirror has, with this room, and makes the disk settled again: each copy is written to a block that neither root holds, so
    /// a crash leaves the last point's volumes.
    fn add_mirror<D: Disk>(
        &mut self,
        disk: &mut D,
        name: &Name,
        size: u32,
        kind: Kind,
        admitted: Admitted,
        room: u64,
    ) -> Result<(), Fault>
        requires fresh { IsNone self.old.failed }
        requires stands { StandsReady (D.shown disk.old) self.old }
        requires few { self.old.pending + room ≤ max dirty_limit room }
        requires room { room ≡ overhead admitted.span + admitted.count }
        requires admitted { CanMake self.old.volumes self.old.pool.found.blocks name.now size kind admitted }
        ensures added { AddsMirror (D.shown disk.old) self.old name.now size kind admitted room (D.shown disk.new) self.new result }
        ensures leaves { LeavesCopies (D.shown disk.old) self.old (D.shown disk.new) self.new }
        ensures settled { IsTrue (D.shown disk.old).tells → IsNone self.new.failed → IsSettled (D.shown disk.new) }
    {
        let made = self.copy(disk, name, size, kind, admitted, room);
        self.settle(disk, made)
    }

    /// Makes the mirror. Where a write failed the session has failed.
    fn copy<D: Disk>(
        &mut self,
        disk: &mut D,
        name: &Name,
        size: u32,
        kind: Kind,
        admitted: Admitted,
        room: u64,
    ) -> Result<(), Fault>
        requires fresh { IsNone self.old.failed }
        requires stands { StandsReady (D.shown disk.old) self.old }
        requires few { self.old.pending + room ≤ max dirty_limit room }
        requires room { room ≡ overhead admitted.span + admitted.count }
        requires admitted { CanMake self.old.volumes self.old.pool.found.blocks name.now size kind admitted }
        ensures added { AddsMirror (D.shown disk.old) self.old name.now size kind admitted room (D.shown disk.new) self.new result }
        ensures leaves { LeavesCopies (D.shown disk.old) self.old (D.shown disk.new) self.new }
    {
        known_slots(&self.pool.containers);
        known_map(&self.volumes, admitted.source.parent);
        let before = disk.write_faults();
        match make(
            &mut self.volumes,
            &mut self.pool,
            disk,
            &mut self.commits,
            name,
            size,
            kind,
            admitted,
        ) {
            Ok(()) => {
                self.pending += room;
                Ok(())
            }
            Err(BlockFault::DiskFault) => {
                self.failed = failure(disk, before);
                Err(Fault::DiskFault)
            }
            Err(BlockFault::Damaged { at, want, found }) => Err(Fault::Damaged { at, want, found }),
            Err(BlockFault::Memory) => Err(Fault::Memory),
        }
    }

    /// Makes the disk settled, and answers what was answered before. Where the barrier fails the session has failed. One that had failed before
    /// reaches the disk no more.
    fn settle<D: Disk>(&mut self, disk: &mut D, made: Result<(), Fault>) -> Result<(), Fault>
        ensures { SettlesSession D.shown disk.old self.old made disk.new self.new result }
    {
        match self.failed {
            Some(_) => made,
            None => self.wait(disk, made),
        }
    }

    /// So it does in a session that hasn't failed.
    fn wait<D: Disk>(&mut self, disk: &mut D, made: Result<(), Fault>) -> Result<(), Fault>
        ensures { IsSettledLive (D.shown disk.old) self.old made (D.shown disk.new) self.new result }
    {
        match disk.barrier() {
            Ok(()) => made,
            Err(_) => {
                let count = count_faults(disk);
                self.failed = Some(count);
                Err(Fault::DiskFault)
            }
        }
    }
}

/// The maps of the volume of a slot are whole. It costs some steps: it is here so that a proof sees it.
fn known_map(volumes: &Volumes, slot: u8)
    requires { slot < slot_count }
    ensures { IfSome (state_at volumes.now slot) (λ x. IsVolume x.map) }
{
    if let Some(state) = volumes.get(slot) {
        let _ = state.count_in(0);
    }
}

/// The disk's count of faults, which is a number of 64 bits.
fn count_faults<D: Disk>(disk: &D) -> u64
    ensures count { result ≡ (D.shown disk.now).faults }
    ensures most { result ≤ 2 ^ 64 - 1 }
{
    disk.faults()
}
