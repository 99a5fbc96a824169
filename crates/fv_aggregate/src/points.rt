//! The consistency points of a session.

ghost use Rattle.std.specs.Prelude.{◌≡◌, ◌≤◌, ◌<◌, ◌+◌, nat_le, max, IsTrue, IsNone, IfErr, IfOk, OnErr, OnOk, Some};
ghost use Rattle.fv_disk.specs.Shown.{Rose};
ghost use Rattle.fv_model.specs.Machines.{Machine, capacity};
ghost use Rattle.fv_model.specs.Space.{commits};
ghost use Rattle.fv_model.specs.declared.answers.Reply.TheVariants.{Done};
ghost use Rattle.fv_cp.specs.Placing.{HaveNoFiles, KeepCores};
ghost use Rattle.fv_aggregate.specs.declared.fault.Fault.TheVariants.{Memory};
ghost use Rattle.fv_aggregate.specs.Answers.{answer};
ghost use Rattle.fv_aggregate.specs.Adding.{HasRoom, IsPointed, StillAdmits};
ghost use Rattle.fv_aggregate.specs.Calls.{Goes, GoesFor, IsForWant, IsUnpointed, KeepsAsking, KeepsHolding, Runs};
ghost use Rattle.fv_aggregate.specs.Commands.{AsksNothing, AsksPoint, dirty_limit};
ghost use Rattle.fv_aggregate.specs.Known.{KeepsNumbers};
ghost use Rattle.fv_aggregate.specs.LeftOver.{todo_under};
ghost use Rattle.fv_aggregate.specs.PathShown.{KeepsTables};
ghost use Rattle.fv_aggregate.specs.Reclaiming.{HasPointed, Points};
ghost use Rattle.fv_aggregate.specs.Standing.{IsWithoutFiles, StandsFor, StandsReady};
ghost use Rattle.fv_aggregate.specs.Working.{todo};

use crate::fault::Fault;
use crate::replies::done;
use crate::session::Session;
use fv_cp::full_point;
use fv_disk::Disk;
use fv_model::Reply;
use fv_volume::VolumeFault;

/// The dirty limit: so many blocks may be pending, with the room of the next event, before a consistency point runs. `docs/SPACE.md`
/// has the rule; beside the overheads of the last point at least as many blocks are free. More would be taken from each capacity, span and
/// memory; less makes more points, each of three barriers. At least 16 changes of files fit, each of room 16 at most.
const DIRTY_LIMIT: u64 = 256;

impl Session {
    /// Runs a consistency point where what is pending and this room would pass the dirty limit together.
    pub(crate) fn make_room<D: Disk>(&mut self, disk: &mut D, room: u64) -> Result<(), Fault>
        requires fresh { IsNone self.old.failed }
        requires stands { StandsReady (D.shown disk.old) self.old }
        requires some { 0 < room }
        ensures runs { Runs room AsksNothing (λ m. m) (D.shown disk.old) self.old (D.shown disk.new) self.new result }
        ensures room { IsTrue (D.shown disk.old).tells → (last m : Machine) → StandsFor (D.shown disk.old) self.old last m
            → commits m + room ≤ capacity m.blocks → OnOk result (HasRoom (D.shown disk.new) self.new room) }
        ensures pending { self.new.pending ≤ self.old.pending }
        ensures few { OnOk result (self.new.pending + room ≤ max dirty_limit room) }
        ensures admits { OnOk result (StillAdmits self.old self.new) }
        ensures cores { OnOk result (KeepCores self.old.volumes self.new.volumes) }
        ensures calm { self.old.pending + room ≤ dirty_limit → (disk.new ≡ disk.old) × (self.new ≡ self.old) }
        ensures pointed { dirty_limit < self.old.pending + room → OnOk result (IsPointed (D.shown disk.old) self.old self.new) }
        ensures reclaimed { IsTrue (D.shown disk.old).tells → (last m : Machine) → StandsFor (D.shown disk.old) self.old last m
            → dirty_limit < self.old.pending + room → OnOk result (HasPointed room self.old (D.shown disk.new) self.new m) }
        ensures holding { KeepsHolding (D.shown disk.old) self.old self.new result }
        ensures left { IsTrue (D.shown disk.old).tells → (last m : Machine) → StandsFor (D.shown disk.old) self.old last m
            → HaveNoFiles self.old.volumes → OnOk result (todo (D.shown disk.new) self.new ≡ todo (D.shown disk.old) self.old) }
        ensures files { HaveNoFiles self.old.volumes → OnOk result (HaveNoFiles self.new.volumes) }
        ensures shown { IsTrue (D.shown disk.old).tells → (last m : Machine) → StandsFor (D.shown disk.old) self.old last m
            → dirty_limit < self.old.pending + room
            → OnOk result (todo (D.shown disk.new) self.new ≡ todo_under self.new.pool.found (D.shown disk.new).reads) }
        ensures undone { IsNone self.new.failed → OnErr result (IsUnpointed (D.shown disk.old) self.old (D.shown disk.new) self.new) }
    {
        if self.has_room(room) {
            Ok(())
        } else {
            self.point(disk, room)
        }
    }

    /// Whether what is pending and this room stay within the dirty limit together.
    pub(crate) fn has_room(&self, room: u64) -> bool
        ensures { result ≡ nat_le (self.now.pending + room) dirty_limit }
    {
        self.pending <= DIRTY_LIMIT && room <= DIRTY_LIMIT - self.pending
    }

    /// The consistency point that a command asks for.
    pub(crate) fn reclaim<D: Disk>(&mut self, disk: &mut D, into: &mut Reply) -> Result<(), Fault>
        requires fresh { IsNone self.old.failed }
        requires stands { StandsReady (D.shown disk.old) self.old }
        ensures runs { Runs 0 AsksPoint (λ m. m) (D.shown disk.old) self.old (D.shown disk.new) self.new (answer into.new result) }
        ensures points { Points 0 (D.shown disk.old) self.old (D.shown disk.new) self.new (answer into.new result) }
        ensures reply { IfOk (answer into.new result) (λ reply. reply ≡ Done) }
        ensures files { IsTrue (D.shown disk.old).tells → OnOk (answer into.new result) (IsWithoutFiles self.new) }
        ensures left { IsTrue (D.shown disk.old).tells → (last m : Machine) → StandsFor (D.shown disk.old) self.old last m
            → HaveNoFiles self.old.volumes
            → OnOk (answer into.new result) (todo (D.shown disk.new) self.new ≡ todo (D.shown disk.old) self.old) }
        ensures tables { IsTrue (D.shown disk.old).tells → (last m : Machine) → StandsFor (D.shown disk.old) self.old last m
            → HaveNoFiles self.old.volumes
            → OnOk (answer into.new result) (KeepsTables (D.shown disk.old).reads self.old (D.shown disk.new).reads self.new) }
    {
        self.point(disk, 0)?;
        done(into);
        Ok(())
    }

    /// A consistency point in a session that hasn't failed; the event that asks for it has this room.
    pub(crate) fn point<D: Disk>(&mut self, disk: &mut D, want: u64) -> Result<(), Fault>
        requires fresh { IsNone self.old.failed }
        requires stands { StandsReady (D.shown disk.old) self.old }
        ensures goes { Goes 0 AsksPoint (D.shown disk.old) self.old (D.shown disk.new) self.new result }
        ensures asks { KeepsAsking 0 (D.shown disk.old) self.old (D.shown disk.new) self.new }
        ensures damage { IfErr result (IsForWant (D.shown disk.old) self.old (D.shown disk.new) self.new) }
        ensures goes_for { IsTrue (D.shown disk.old).tells → (last m : Machine) → StandsFor (D.shown disk.old) self.old last m
            → GoesFor (D.shown disk.old) last m m (D.shown disk.new) self.new result }
        ensures numbers { IsNone self.new.failed → KeepsNumbers self.old.volumes self.new.volumes }
        ensures points { Points want (D.shown disk.old) self.old (D.shown disk.new) self.new result }
        ensures kept { IsTrue (D.shown disk.old).tells → (last m : Machine) → StandsFor (D.shown disk.old) self.old last m
            → IsNone self.new.failed → OnErr result (StandsFor (D.shown disk.new) self.new last m) }
        ensures room { IsTrue (D.shown disk.old).tells → (last m : Machine) → StandsFor (D.shown disk.old) self.old last m
            → commits m + want ≤ capacity m.blocks → OnOk result (HasRoom (D.shown disk.new) self.new want) }
        ensures left { IsTrue (D.shown disk.old).tells → (last m : Machine) → StandsFor (D.shown disk.old) self.old last m
            → HaveNoFiles self.old.volumes → OnOk result (todo (D.shown disk.new) self.new ≡ todo (D.shown disk.old) self.old) }
        ensures tables { IsTrue (D.shown disk.old).tells → (last m : Machine) → StandsFor (D.shown disk.old) self.old last m
            → HaveNoFiles self.old.volumes
            → OnOk result (KeepsTables (D.shown disk.old).reads self.old (D.shown disk.new).reads self.new) }
        ensures shown { IsTrue (D.shown disk.old).tells → (last m : Machine) → StandsFor (D.shown disk.old) self.old last m
            → OnOk result (todo (D.shown disk.new) self.new ≡ todo_under self.new.pool.found (D.shown disk.new).reads) }
    {
        let before = disk.write_faults();
        match full_point(
            &mut self.volumes,
            &mut self.pool,
            disk,
            &mut self.delays,
            want,
        ) {
            Ok(()) => {
                self.pending = 0;
                Ok(())
            }
            Err(VolumeFault::DiskFault) => {
                self.failed = failure(disk, before);
                Err(Fault::DiskFault)
            }
            Err(VolumeFault::Damaged { at, want, found }) => Err(Fault::Damaged {
                at,
                want,
                found,
            }),
            Err(VolumeFault::Memory) => Err(Fault::Memory),
            Err(VolumeFault::Refused(_)) => unreachable!(),
        }
    }
}

/// The disk's count of faults, where a write or a barrier has failed since its count of those was `before`. A count that stands at its
/// greatest value counts as risen.
pub(crate) fn failure<D: Disk>(disk: &D, before: u64) -> Option<u64>
    ensures failed { Rose before (D.shown disk.now).write_faults → result ≡ Some (D.shown disk.now).faults }
    ensures goes_on { ¬ Rose before (D.shown disk.now).write_faults → IsNone result }
{
    let now = disk.write_faults();
    if before < now || now == u64::MAX {
        Some(disk.faults())
    } else {
        None
    }
}
