//! What is asked of a volume. None of it changes the volume.

ghost use Rattle.std.specs.Prelude.{◌≡◌, ◌≤◌, None, false, true, IfOk, IfErr, OnOk, option_copied};
ghost use Rattle.fv_inode.specs.Files.{Finds, IsInfoIf};
ghost use Rattle.std.specs.FinMap as fin;
ghost use Rattle.fv_model.specs.Numbers.{greatest_span, is_index};
ghost use Rattle.fv_model.specs.Replies.{stat_of};
ghost use Rattle.fv_model.specs.declared.answers.Refusal.{Refusal};
ghost use Rattle.fv_model.specs.declared.answers.Refusal.TheVariants.{Range};
ghost use Rattle.fv_model.specs.declared.answers.Reply.TheVariants as reply;
ghost use Rattle.fv_model.specs.declared.commands.Command.TheVariants.{Get, Len, Ls};
ghost use Rattle.fv_charge.specs.Ledgers.{IsLedgerOf};
ghost use Rattle.fv_volume.specs.Asking.{standing_read, trees_read, IsRefusedUnread, ReadsRead, RefusesLost, TellsActive, TellsRead};
ghost use Rattle.fv_pool.specs.Calls.{BlockCause, CallCause, Reads};
ghost use Rattle.fv_volume.specs.Calls.{Asks, Has};
ghost use Rattle.fv_pool.specs.Lending.{lent_for};
ghost use Rattle.fv_volume.specs.Promising.{told_by};
ghost use Rattle.fv_volume.specs.Paths.{StepsTo};
ghost use Rattle.fv_pool.specs.declared.fault.VolumeFault.TheVariants.{Refused};
ghost use Rattle.fv_volume.specs.OneVolume.{home_in, standing_for, volume_as, volume_for, Content, IsReady, IsStanding};

use crate::state::VolumeState;
use crate::tables::{TableAsked, find_in, list_in, read_in, table_asked};
use fv_container::Steps;
use fv_disk::{Block, BlockFault, Disk};
use fv_inode::Info;
use fv_model::{Name, Names, Refusal, Stat, in_index};
use fv_pool::{Pool, VolumeFault};
use std::alloc::Global;
use std::sync::ledger::Ledger;

impl VolumeState {
    /// The length of the file of a name, in blocks, in the active table or in that of a snapshot. The volume stays, and of the pool nothing
    /// changes but its cache.
    ///
    /// # Errors
    ///
    /// `Refused` as the machine refuses `len`: a snapshot that isn't there, for which nothing is read; no file has the name. `DiskFault`
    /// only where a read failed in this call. `Damaged` for a pointer to a VVBN that isn't held, at the place of the volume's
    /// label with 1 and 0, and for a node, an inode block or a leaf of a container without its shape: its place, and its first field that
    /// isn't as said. That is proved of a disk that tells its content, where the volume's entries lie apart, the containers are clean on
    /// it, the table's pointers tell no wrong places, and the numbers of files in memory are the table's, whatever the volume stands for.
    /// `Memory` where memory ran out.
    ///
    /// By the numbers of files in memory (`read_numbers`) it costs a block for the file's inode block and
    /// for each node over it, and without them, as of a snapshot, one for each inode block before the file's, too. For a pointer that tells
    /// no place a leaf of a container is read besides. A snapshot is found by a step for each there is. `docs/MACHINE.md` has the command.
    pub fn length<D: Disk>(
        &mut self,
        alloc: Global,
        pool: &mut Pool,
        disk: &mut D,
        snapshot: Option<&Name>,
        file: &Name,
    ) -> Result<u32, VolumeFault>
        requires ready { IsReady (D.shown disk.old) pool.old self.old }
        ensures asked { IsStanding (D.shown disk.old) pool.old self.old
            → Asks (Has self.old.name (volume_for (D.shown disk.old) pool.old self.old)) (Len self.old.name (option_copied snapshot.entry) file.now) (λ n. reply.Number n) result }
        ensures snapshot { RefusesLost self.old (option_copied snapshot.entry) disk.old pool.old disk.new pool.new result }
        ensures same { self.new ≡ self.old }
        ensures reads { Reads (D.shown disk.old) pool.old (D.shown disk.new) pool.new }
        ensures cause { CallCause (TellsRead (D.shown disk.old) pool.old self.old (option_copied snapshot.entry)) (standing_read (D.shown disk.old) pool.old self.old (option_copied snapshot.entry))
            (lent_for pool.old self.old.map (D.shown disk.old) 0 (home_in self.old) 0) (D.shown disk.new).faults result }
    {
        let Some(table) = table_asked(self, snapshot) else {
            return Err(VolumeFault::Refused(Refusal::NoSnapshot));
        };
        match find_in(self, alloc, pool, disk, &table, file)? {
            None => Err(VolumeFault::Refused(Refusal::NoFile)),
            Some(info) => Ok(info.length),
        }
    }

    /// The names of all files of the active table or of a snapshot's, in byte order. The volume stays, and of the pool nothing changes but
    /// its cache.
    ///
    /// # Errors
    ///
    /// As `length`; the one refusal is that of a snapshot. Costs a block for each inode block and each node over them, and memory
    /// for each name twice. `docs/MACHINE.md` has the command, `ls`.
    pub fn list<D: Disk>(
        &mut self,
        alloc: Global,
        pool: &mut Pool,
        disk: &mut D,
        snapshot: Option<&Name>,
    ) -> Result<Names, VolumeFault>
        requires ready { IsReady (D.shown disk.old) pool.old self.old }
        ensures asked { IsStanding (D.shown disk.old) pool.old self.old
            → Asks (Has self.old.name (volume_for (D.shown disk.old) pool.old self.old)) (Ls self.old.name (option_copied snapshot.entry)) (λ names. reply.Names names) result }
        ensures snapshot { RefusesLost self.old (option_copied snapshot.entry) disk.old pool.old disk.new pool.new result }
        ensures same { self.new ≡ self.old }
        ensures reads { Reads (D.shown disk.old) pool.old (D.shown disk.new) pool.new }
        ensures cause { CallCause (TellsRead (D.shown disk.old) pool.old self.old (option_copied snapshot.entry)) (standing_read (D.shown disk.old) pool.old self.old (option_copied snapshot.entry))
            (lent_for pool.old self.old.map (D.shown disk.old) 0 (home_in self.old) 0) (D.shown disk.new).faults result }
    {
        let Some(table) = table_asked(self, snapshot) else {
            return Err(VolumeFault::Refused(Refusal::NoSnapshot));
        };
        Ok(list_in(self, alloc, pool, disk, &table)?)
    }

    /// The block of a file of the active table or of a snapshot's at an index, zeros for a hole. The volume stays, and of the pool nothing
    /// changes but its cache. At `Err` the content of `into` is open.
    ///
    /// The steps rise by the unknown pointers on the path from the root of the table that is asked to the file's record and from there to
    /// the cell, whatever of it is in memory, but for those to what isn't placed yet; so not at all where all are known. The search for the name isn't counted, and a refused call makes no step.
    ///
    /// # Errors
    ///
    /// As `length`, and `Refused` too where the index passes 2,097,151, which is asked first, or isn't below the file's length,
    /// which is asked last. Costs what `length` does, then a block for each node over the file's inode block and that block, a block
    /// for each level of the file's tree and one for the cell. `docs/MACHINE.md` has the command.
    pub fn get<D: Disk, L: Ledger>(
        &mut self,
        alloc: Global,
        pool: &mut Pool,
        disk: &mut D,
        snapshot: Option<&Name>,
        file: &Name,
        index: u32,
        into: &mut Block,
        steps: &mut Steps<L>,
    ) -> Result<(), VolumeFault>
        requires ready { IsReady (D.shown disk.old) pool.old self.old }
        ensures asked { IsStanding (D.shown disk.old) pool.old self.old
            → Asks (Has self.old.name (volume_for (D.shown disk.old) pool.old self.old)) (Get self.old.name (option_copied snapshot.entry) file.now index) (λ _. reply.Content into.new) result }
        ensures range { is_index index ≡ false → IsRefusedUnread Range disk.old pool.old disk.new pool.new result }
        ensures snapshot { is_index index ≡ true → RefusesLost self.old (option_copied snapshot.entry) disk.old pool.old disk.new pool.new result }
        ensures steps { IsStanding (D.shown disk.old) pool.old self.old → OnOk result (StepsTo (standing_read (D.shown disk.old) pool.old self.old (option_copied snapshot.entry)) (trees_read (D.shown disk.old) pool.old self.old (option_copied snapshot.entry)) file.now index steps.old steps.new) }
        ensures unmoved { IfErr result (λ e. (r : Refusal) → e ≡ Refused r → steps.new ≡ steps.old) }
        ensures same { self.new ≡ self.old }
        ensures reads { Reads (D.shown disk.old) pool.old (D.shown disk.new) pool.new }
        ensures cause { CallCause (ReadsRead (D.shown disk.old) pool.old self.old (option_copied snapshot.entry)) (standing_read (D.shown disk.old) pool.old self.old (option_copied snapshot.entry))
            (lent_for pool.old self.old.map (D.shown disk.old) 0 (home_in self.old) 0) (D.shown disk.new).faults result }
    {
        if !in_index(u64::from(index)) {
            return Err(VolumeFault::Refused(Refusal::Range));
        }
        let Some(table) = table_asked(self, snapshot) else {
            return Err(VolumeFault::Refused(Refusal::NoSnapshot));
        };
        match find_in(self, alloc, pool, disk, &table, file)? {
            None => Err(VolumeFault::Refused(Refusal::NoFile)),
            Some(info) => {
                if info.length <= index {
                    return Err(VolumeFault::Refused(Refusal::Range));
                }
                Ok(read_in(self, alloc, pool, disk, &table, &info, index, into, steps)?)
            }
        }
    }

    /// What `vol stat` answers, for a volume whose ledger is that of the volume that it stands for. Costs a step and takes no memory.
    #[tactic(auto, using(crate::proofs::Asked::stat_is))]
    pub fn stat(&self) -> Stat
        requires { self.now.ledger.span ≤ greatest_span }
        ensures told { result ≡ told_by self.entry.now }
        ensures right { (content : Content) → IsLedgerOf (volume_as self.entry.now content) self.entry.now.ledger → result ≡ stat_of (volume_as self.entry.now content) }
    {
        Stat {
            size: self.size,
            used: self.ledger.charge(),
            need: self.ledger.need(),
            commit: self.ledger.commit(),
            kind: self.kind,
            clean: self.known,
        }
    }
}

/// What is known of the file of a name; `None` exactly where no file has it.
pub(crate) fn find_file<D: Disk>(
    volume: &mut VolumeState,
    alloc: Global,
    pool: &mut Pool,
    disk: &mut D,
    name: &Name,
) -> Result<Option<Info>, BlockFault>
    requires ready { IsReady (D.shown disk.old) pool.old volume.old }
    ensures found { TellsActive (D.shown disk.old) pool.old volume.old → IfOk result (Finds (standing_for (D.shown disk.old) pool.old volume.old).inode name.now) }
    ensures range { IfOk result IsInfoIf }
    ensures same { volume.new ≡ volume.old }
    ensures reads { Reads (D.shown disk.old) pool.old (D.shown disk.new) pool.new }
    ensures cause { BlockCause (TellsActive (D.shown disk.old) pool.old volume.old) (standing_for (D.shown disk.old) pool.old volume.old)
        (lent_for pool.old volume.old.map (D.shown disk.old) 0 (home_in volume.old) 0) (D.shown disk.new).faults result }
{
    find_in(volume, alloc, pool, disk, &TableAsked::Active, name)
}
