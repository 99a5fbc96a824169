//! A session.

ghost use Rattle.std.specs.Prelude.{◌≡◌, IsTrue, IsNone, IsSome, IfOk, IfErr, OnErr, OnOk, Some};
ghost use Rattle.fv_disk.specs.Shown.{IsSettled, Rose};
ghost use Rattle.fv_container.specs.Chains.{slot_count};
ghost use Rattle.fv_model.specs.Machines.{Machine};
ghost use Rattle.fv_model.specs.declared.commands.Command.TheVariants.{Cp};
ghost use Rattle.fv_image.specs.WholeMachine.{machine_of};
ghost use Rattle.fv_volume.specs.Trees.{Trees};
ghost use Rattle.fv_volume.specs.Files.{Over};
ghost use Rattle.fv_cp.specs.Placing.{HaveNoFiles};
ghost use Rattle.fv_aggregate.specs.declared.fault.Fault.TheVariants.{Memory};
ghost use Rattle.fv_aggregate.specs.Asking.{AsksWithin};
ghost use Rattle.fv_aggregate.specs.Answers.{answer};
ghost use Rattle.fv_aggregate.specs.Applying.{HasApplied};
ghost use Rattle.fv_aggregate.specs.Calls.{Runs, SameCounts};
ghost use Rattle.fv_aggregate.specs.Commands.{AsksPoint};
ghost use Rattle.fv_aggregate.specs.Causes.{HasOpenCause, IsUnwritten, OpenFails};
ghost use Rattle.fv_aggregate.specs.LeftOver.{todo_under};
ghost use Rattle.fv_aggregate.specs.Opening.{IsFresh, IsOpened, TellsDelayed};
ghost use Rattle.fv_aggregate.specs.PathShown.{HasPathsOf};
ghost use Rattle.fv_aggregate.specs.Reclaiming.{Points};
ghost use Rattle.fv_aggregate.specs.Standing.{IsWithoutFiles, Stands, StandsFor, StandsReady, charged_in};
ghost use Rattle.fv_aggregate.specs.Telling.{charged_from};
ghost use Rattle.fv_aggregate.specs.Working.{todo};

use crate::fault::{Fault, OpenFault};
use crate::opening::load;
use crate::volumes::sum_charges;
use fv_container::Steps;
use fv_disk::Disk;
use fv_model::{Command, Reply};
use fv_volume::Pool;
use fv_volumes::Volumes;
use std::alloc::Global;
use std::marker::Model;
use std::sync::ledger::Ledger;

/// An open aggregate: its volumes over the disk on which they stand. Contracts see its volumes, what they share, how many
/// blocks are pending, and whether it has failed.
#[derive(Drop)]
pub struct Session {
    pub(crate) alloc: Global,
    pub(crate) volumes: Volumes,
    pub(crate) pool: Pool,
    /// By slot: whether entries of its volume may be delayed though it hasn't changed. A point counts those of such a volume, and of one that changed.
    pub(crate) delays: [bool; 64],
    /// How many blocks were added since the last consistency point, at most: overheads of new volumes, and blocks of files.
    pub(crate) pending: u64,
    /// What all volumes commit together, in blocks.
    pub(crate) commits: u64,
    /// The disk's count of faults after the call in which a write or a barrier failed.
    pub(crate) failed: Option<u64>,
}

impl Model for Session {
    ghost use Rattle.std.specs.Prelude.{◌≡◌, IsNone};
    ghost use Rattle.fv_cp.specs.Lent.{FitTogether};
    ghost use Rattle.fv_volume.specs.Slots.{sum_of};
    ghost use Rattle.fv_aggregate.specs.Parts.{AreSet, Parts, parts_code};

    ghost Value = { Parts };

    ghost coded = { parts_code };

    ghost view = { λ s. record { volumes = s.volumes; pool = s.pool; delays = s.delays; pending = s.pending; failed = s.failed } };

    ghost invariant = { λ s. (IsNone s.failed → FitTogether s.pool s.volumes) × (IsNone s.failed → s.commits ≡ sum_of s.volumes)
        × (IsNone s.failed → AreSet s.pool s.volumes) };
}

impl Session {
    /// Opens the aggregate on a disk: a barrier first, so that what it reads is what a crash would leave. It writes nothing.
    ///
    /// Over an image that stands for a machine the session then knows by counts whether some entry is delayed. Where none is, no point reads a leaf
    /// of a volume to learn that before the volume changes.
    ///
    /// # Errors
    /// `NotAggregate` comes exactly where block 0 isn't a superblock or neither gate is open. `Damaged` comes only where a block
    /// that this call read isn't as it has to be, or a label is of a form that can't be loaded yet: its place, and what was wanted
    /// and found. `DiskFault` comes only where the barrier or a read failed, and `Memory` where memory ran out; over an image that
    /// stands for a machine nothing else keeps it from being opened.
    ///
    /// Costs a barrier, a read for each fixed block, each block of one map area, each label and map block of the volumes, each node above the
    /// leaves of their containers, and each leaf that has the entry of a map's block. It holds up to 1024 blocks of cache, two bits for each
    /// block of the aggregate, and for each VVBN of each volume a bit and one for each map slot in use. While it counts it takes one bit more for
    /// each block, and a step for each node of the containers. `docs/FORMAT.md` has what it reads.
    pub fn open<D: Disk>(alloc: Global, disk: &mut D) -> Result<Session, OpenFault>
        ensures stands { IfOk result (StandsReady (D.shown disk.new)) }
        ensures fresh { IfOk result IsFresh }
        ensures asks { IsTrue (D.shown disk.old).tells → IfOk result (λ session. AsksWithin (D.shown disk.new) session 0) }
        ensures none { IsTrue (D.shown disk.old).tells → IfOk result IsWithoutFiles }
        ensures settled { IsTrue (D.shown disk.old).tells → OnOk result (IsSettled (D.shown disk.new)) }
        ensures at_rest { IsTrue (D.shown disk.old).tells → ¬ Rose (D.shown disk.old).write_faults (D.shown disk.new).write_faults
            → IsSettled (D.shown disk.new) }
        ensures loaded { IsTrue (D.shown disk.old).tells → IfOk result (IsOpened (D.shown disk.old).reads) }
        ensures machine { IsTrue (D.shown disk.old).tells → (m : Machine) → machine_of (D.shown disk.old).reads ≡ Some m
            → IfOk result (λ session. StandsFor (D.shown disk.new) session m m) }
        ensures delays { IsTrue (D.shown disk.old).tells → (m : Machine) → machine_of (D.shown disk.old).reads ≡ Some m
            → IfOk result (TellsDelayed (D.shown disk.old).reads) }
        ensures left { IsTrue (D.shown disk.old).tells → (m : Machine) → machine_of (D.shown disk.old).reads ≡ Some m
            → IfOk result (λ session. todo (D.shown disk.new) session ≡ todo_under session.pool.found (D.shown disk.old).reads) }
        ensures paths { IsTrue (D.shown disk.old).tells → (m : Machine) → machine_of (D.shown disk.old).reads ≡ Some m
            → IfOk result (HasPathsOf (D.shown disk.old).reads (D.shown disk.new).reads) }
        ensures fault { IsTrue (D.shown disk.old).tells → IfErr result (OpenFails (D.shown disk.old).reads) }
        ensures unwritten { IsUnwritten (D.shown disk.old) (D.shown disk.new) }
        ensures cause { HasOpenCause (D.shown disk.old).faults (D.shown disk.new).faults result }
        ensures counts { OnOk result (SameCounts (D.shown disk.old) (D.shown disk.new)) }
    {
        disk.barrier()?;
        load(alloc, disk)
    }

    /// Applies a command, and answers the machine's reply, refusals included. A command whose room, in blocks, would pass the dirty
    /// limit of 256 together with the blocks pending is preceded by a consistency point, and contracts say that no other one is. One that is
    /// refused changes nothing but the cache and the numbers of files in memory: so no point comes before it. Of a command on files whose room
    /// passes the limit contracts say this where the session stands for a machine. So far the commands that begin with `vol` or `snap`, `clone create`,
    /// `mirror`, `clean`, `work`, `cp`, `new` without a reserve, `put`, `get`, `len`, `cut`, `rm`, `ls` and `probe` are built, and every other one is
    /// refused as none.
    ///
    /// `clean` and `work` take background steps, with as many consistency points between them as they need: one before each step for which 8 blocks
    /// lack room, with those pending. Files in memory are placed before the first step. `clean` takes steps of its volume until none is left, and the
    /// volume knows all its places then; one that knows them already is left as it is. `work` takes so many steps as it asks for, or all that are
    /// left, each of the first volume, by its slot, that has one; the machine stays. Both are answered `ok`. For example, of a mirror three pointers
    /// are unknown: that of its label, and two in the node to which it leads. Then `work 1` fills in the two, and a `clean` of the mirror the third.
    /// Where no file is in memory a `cp`, a command that only asks, and one that is refused leave to such steps what there was to do, and leave the
    /// places of all blocks that an active table reaches as a `probe` counts them.
    ///
    /// `steps` counts the unknown pointers that a `get` passes; there are none where the volume has no unknown place. A `probe` answers how many
    /// lie on the path to its cell, and counts none.
    ///
    /// # Errors
    /// `DiskFault` comes only where a read, a write or a barrier failed in this call. Where it was a write or a barrier the session
    /// has failed: it answers `Failed`, with the disk's count of faults of that moment, to every call from then on, and reaches the
    /// disk no more. `Memory` comes where memory ran out. `Damaged` comes where fewer blocks or numbers are free than a consistency point
    /// asks for, or a block of a volume's files, or a leaf of its container, isn't as it has to be; of a mirror where what it copies isn't; and of
    /// `clean` and `work` where a block that a step reads hasn't the shape of its kind, or leads nowhere.
    /// Over an image that stands for a machine it never comes; over another one contracts tell which of these it was, that the command came to
    /// it, of which volume and table, and at which place (`HasDamage`, and `HasWorkDamage` of steps). After these, and after a read that failed,
    /// the session goes on; where it stood for a machine it still stands for it. After a fault in a `clean` or a `work` the steps that were taken
    /// stay taken: the machine is that of before the command, and the next command of these has the less to do.
    /// A command on files that ends with a fault before which no point came made no change: what it left is in memory alone (`IsUnmade`).
    ///
    /// Costs a step for each slot, and memory for the names in `vol list`. A command on files costs what the call of `VolumeState` does.
    /// The first one that names a file of a volume costs a block for each inode block and each node over them, and the session
    /// then holds each name with its number, and each free number below the greatest that is taken; a later one finds its file by
    /// these, and costs nothing for the others, unless a file was made or removed since, for whose number memory can lack.
    /// Where room has to be made the command is judged first, which costs its reads twice, from the cache where they fit there. `vol create`
    /// costs a step for each VVBN of the new volume, and holds a bit for each. `clone create` costs a step for each word of 64 VVBNs of the clone,
    /// and for each region of its container, and reads no file, however many the snapshot has; it takes memory for three bits for each VVBN of the
    /// clone's span: for two maps, which it holds, and for their union. `mirror` costs a step for each word of 64 numbers of its source's span, a
    /// read, a look-up and a write for each block that the snapshot reaches, and a barrier; it takes memory for the entries of its container, for
    /// three bits for each VVBN of its span and for a bit for each place, and keeps none of the blocks. Its room is its overhead and all these
    /// blocks: so where both pass the limit a point comes before it, and the first blocks of the mirror are written behind that. Where it ends with a
    /// fault free blocks may have been written. `clean` and `work` cost for each step what `clean_step` of `fv_cleaner` does, `work` so for each volume
    /// up to the one that has a step, and a consistency point each time that room has to be made; a step adds one block at most, and `clean` takes no
    /// more than 2^34 steps. `vol stat`, `vol resize` and `vol guarantee` take no memory and walk nothing but the slots; `vol destroy` costs a read
    /// for each leaf of the volume's container that isn't in memory, a step for each entry and each node of it, and memory for a bit for each block
    /// that an aggregate can have. `snap create`, `snap delete` and
    /// `snap restore` cost what the calls of `fv_snapshot` do, where the first two read the leaves of what they place, and `snap list` memory for
    /// the names; but for `mirror` none of these writes but by a point. Where a consistency point runs it costs what `consistency_point` does.
    /// `docs/SPACE.md` has the dirty limit, and `docs/MACHINE.md` the commands.
    pub fn apply<D: Disk, L: Ledger>(
        &mut self,
        disk: &mut D,
        command: &Command,
        steps: &mut Steps<L>,
    ) -> Result<Reply, Fault>
        requires stands { IsNone self.old.failed → Stands (D.shown disk.old) self.old }
        ensures { HasApplied command.now (D.shown disk.old) disk.old self.old steps.old
            (D.shown disk.new) disk.new self.new steps.new result }
    {
        let mut reply = Reply::Done;
        self.apply_into(disk, command, steps, &mut reply)?;
        Ok(reply)
    }

    /// As `apply`, with the reply in `into`, which is open at `Err`. A reply has the size of a block: so none is moved on its way.
    ///
    /// # Errors
    /// As of `apply`, and its cost.
    pub fn apply_into<D: Disk, L: Ledger>(
        &mut self,
        disk: &mut D,
        command: &Command,
        steps: &mut Steps<L>,
        into: &mut Reply,
    ) -> Result<(), Fault>
        requires stands { IsNone self.old.failed → Stands (D.shown disk.old) self.old }
        ensures { HasApplied command.now (D.shown disk.old) disk.old self.old steps.old
            (D.shown disk.new) disk.new self.new steps.new (answer into.new result) }
    {
        if let Some(faults) = self.failed {
            return Err(Fault::Failed { faults });
        }
        match command {
            Command::VolCreate { volume, size, kind } => {
                return self.create(disk, volume, *size, *kind, into);
            }
            Command::CloneCreate {
                clone,
                parent,
                snapshot,
                size,
                kind,
            } => {
                return self.clone_volume(disk, clone, parent, snapshot, *size, *kind, into);
            }
            Command::Mirror {
                source,
                snapshot,
                volume,
                size,
                kind,
            } => {
                return self.mirror_volume(disk, source, snapshot, volume, *size, *kind, into);
            }
            Command::Clean { volume } => return self.clean_volume(disk, volume, into),
            Command::Work { steps } => return self.work_steps(disk, *steps, into),
            Command::Cp => return self.reclaim(disk, into),
            _ => return self.manage(disk, command, steps, into),
        }
    }

    /// Makes the session's machine that of the image: afterwards the disk is settled, and a crash leaves this machine. Also without changes another
    /// root counts then, one generation on.
    ///
    /// # Errors
    /// As of `apply`: what fails, what a session does then, and what stays. Where the session goes on, nothing was written; and without a file in
    /// memory only leaves of containers came into memory.
    ///
    /// Costs for each volume with files in memory a step for each number of its span, and memory and a write for each block that is
    /// placed; for each volume that changed or may have delayed entries a step for each entry, and up to 25 more for one that is no hole, and so
    /// again, twice in these regions, where a region of it is reclaimed; for each one that changed, or of which a region is reclaimed, in writes at
    /// most its overhead and the blocks of its snapshots' maps that wait; and then, also without changes, a commit: the blocks of one map area,
    /// a root and at most two gates in writes, and two barriers or three. Before all writes it reads leaves of containers that it needs and that
    /// aren't in memory: those with entries of what it places, those of which it isn't known which entries are holes, and those that change. It
    /// takes memory for these and for files alone.
    /// `docs/SPACE.md` has the order.
    pub fn consistency_point<D: Disk>(&mut self, disk: &mut D) -> Result<(), Fault>
        requires stands { IsNone self.old.failed → Stands (D.shown disk.old) self.old }
        ensures runs { Runs 0 AsksPoint (λ m. m) (D.shown disk.old) self.old (D.shown disk.new) self.new result }
        ensures points { Points 0 (D.shown disk.old) self.old (D.shown disk.new) self.new result }
        ensures kept { IsTrue (D.shown disk.old).tells → (last m : Machine) → StandsFor (D.shown disk.old) self.old last m
            → IsNone self.new.failed → OnErr result (StandsFor (D.shown disk.new) self.new last m) }
        ensures left { IsTrue (D.shown disk.old).tells → (last m : Machine) → StandsFor (D.shown disk.old) self.old last m
            → HaveNoFiles self.old.volumes → OnOk result (todo (D.shown disk.new) self.new ≡ todo (D.shown disk.old) self.old) }
        ensures shown { IsTrue (D.shown disk.old).tells → (last m : Machine) → StandsFor (D.shown disk.old) self.old last m
            → OnOk result (todo (D.shown disk.new) self.new ≡ todo_under self.new.pool.found (D.shown disk.new).reads) }
        ensures dead { IsSome self.old.failed → disk.new ≡ disk.old }
    {
        match self.failed {
            Some(faults) => Err(Fault::Failed { faults }),
            None => self.point(disk, 0),
        }
    }

    /// The sum of the charges of all volumes, in blocks: what the machine's are that the session stands for. Costs a step for each slot.
    pub fn charged(&self) -> u64
        ensures over { (trees : Trees) → Over self.now.pool self.now.volumes trees (λ m. result ≡ charged_in m) }
        ensures slots { result ≡ charged_from self.now.volumes 0 slot_count }
    {
        sum_charges(&self.volumes)
    }
}
