//! The commands that ask for files. None of them changes a volume.

ghost use Rattle.std.specs.Prelude.{◌≡◌, ◌<◌, false, true, None, Some, Ok, Err, IsTrue, IsNone, IfSome, IfOk, OnOk};
ghost use Rattle.fv_model.specs.declared.answers.Refusal.TheVariants.{NoSnapshot};
ghost use Rattle.fv_model.specs.declared.answers.Reply.TheVariants.{Refused};
ghost use Rattle.fv_model.specs.Machines.{Machine};
ghost use Rattle.fv_volume.specs.Asking.{table_named, IsRefusedUnread};
ghost use Rattle.fv_pool.specs.declared.fault.VolumeFault.TheVariants as of_volume;
ghost use Rattle.fv_volume.specs.OneVolume.{IsReady};
ghost use Rattle.fv_volume.specs.States.{state_at};
ghost use Rattle.fv_aggregate.specs.Answers.{answer};
ghost use Rattle.fv_aggregate.specs.Calls.{IsUntouched, MakesNoStep};
ghost use Rattle.fv_aggregate.specs.Commands.{finds_file, has_range, is_get, is_refusal, snapshot_asked, volume_asked};
ghost use Rattle.fv_aggregate.specs.Known.{KeepsNumbers, KnowsNumbers};
ghost use Rattle.fv_aggregate.specs.Looking.{AsksState, Breaks, IsAsked, Looks, Replied};
ghost use Rattle.fv_aggregate.specs.Probing.{CountsPath};
ghost use Rattle.fv_aggregate.specs.Standing.{StandsFor, StandsReady};

use crate::aiming::volume_at;
use crate::fault::Fault;
use crate::points::failure;
use crate::replies::{count, list, make_content, refuse};
use crate::session::Session;
use fv_container::Steps;
use fv_disk::Disk;
use fv_model::{Command, Refusal, Reply};
use fv_volume::{Pool, VolumeFault, VolumeState};
use std::alloc::Global;
use std::sync::ledger::Ledger;

impl Session {
    /// Answers a command that asks for files of the volume of a slot. `get`, `len` and `probe` have the numbers of its files in memory; `ls` reads all
    /// names itself, and a file of a snapshot is found without the numbers, which aren't those of its table.
    pub(crate) fn look_at<D: Disk, L: Ledger>(
        &mut self,
        disk: &mut D,
        slot: u8,
        command: &Command,
        steps: &mut Steps<L>,
        into: &mut Reply,
    ) -> Result<(), Fault>
        requires fresh { IsNone self.old.failed }
        requires stands { StandsReady (D.shown disk.old) self.old }
        requires asked { IsAsked self.old.volumes slot command.now }
        ensures looks { Looks slot (D.shown disk.old) self.old command.now (D.shown disk.new) self.new (answer into.new result) }
        ensures lost { has_range command.now ≡ true → IfSome (state_at self.old.volumes slot) (λ x. table_named x (snapshot_asked command.now) ≡ None → (answer into.new result ≡ Ok (Refused NoSnapshot)) × IsUntouched disk.old self.old disk.new self.new) }
        ensures only { answer into.new result ≡ Ok (Refused NoSnapshot) → IfSome (state_at self.old.volumes slot) (λ x. table_named x (snapshot_asked command.now) ≡ None) }
        ensures steps { is_get command.now ≡ false → steps.new ≡ steps.old }
        ensures known { IsTrue (D.shown disk.old).tells → (last m : Machine) → StandsFor (D.shown disk.old) self.old last m → MakesNoStep m command.now (answer into.new result) steps.old steps.new }
        ensures counts { IsTrue (D.shown disk.old).tells → (last m : Machine) → StandsFor (D.shown disk.old) self.old last m → IfOk (answer into.new result) (λ reply. IfSome (state_at self.old.volumes slot) (λ x. CountsPath (D.shown disk.old) self.old.pool x steps.old steps.new reply command.now)) }
        ensures kept { KeepsNumbers self.old.volumes self.new.volumes }
        ensures finds { finds_file command.now ≡ true → OnOk (answer into.new result) (KnowsNumbers (state_at self.new.volumes slot)) }
    {
        if !finds(command) {
            return self.ask(disk, slot, command, steps, into);
        }
        self.read_numbers(disk, slot)?;
        self.ask(disk, slot, command, steps, into)
    }

    /// Asks the volume of a slot.
    fn ask<D: Disk, L: Ledger>(
        &mut self,
        disk: &mut D,
        slot: u8,
        command: &Command,
        steps: &mut Steps<L>,
        into: &mut Reply,
    ) -> Result<(), Fault>
        requires fresh { IsNone self.old.failed }
        requires stands { StandsReady (D.shown disk.old) self.old }
        requires asked { IsAsked self.old.volumes slot command.now }
        ensures looks { Looks slot (D.shown disk.old) self.old command.now (D.shown disk.new) self.new (answer into.new result) }
        ensures lost { has_range command.now ≡ true → IfSome (state_at self.old.volumes slot) (λ x. table_named x (snapshot_asked command.now) ≡ None → (answer into.new result ≡ Ok (Refused NoSnapshot)) × IsUntouched disk.old self.old disk.new self.new) }
        ensures only { answer into.new result ≡ Ok (Refused NoSnapshot) → IfSome (state_at self.old.volumes slot) (λ x. table_named x (snapshot_asked command.now) ≡ None) }
        ensures steps { is_get command.now ≡ false → steps.new ≡ steps.old }
        ensures known { IsTrue (D.shown disk.old).tells → (last m : Machine) → StandsFor (D.shown disk.old) self.old last m → MakesNoStep m command.now (answer into.new result) steps.old steps.new }
        ensures counts { IsTrue (D.shown disk.old).tells → (last m : Machine) → StandsFor (D.shown disk.old) self.old last m → IfOk (answer into.new result) (λ reply. IfSome (state_at self.old.volumes slot) (λ x. CountsPath (D.shown disk.old) self.old.pool x steps.old steps.new reply command.now)) }
        ensures volumes { self.new.volumes ≡ self.old.volumes }
    {
        let state = volume_at(&mut self.volumes, slot);
        let asked = ask_state(
            state,
            self.alloc,
            &mut self.pool,
            disk,
            command,
            steps,
            into,
        );
        self.replied(disk, asked, into)
    }

    /// What a session answers for a call on a volume that left its reply in `into`: a refusal is a reply, too.
    pub(crate) fn replied<D: Disk>(
        &mut self,
        disk: &D,
        asked: Result<(), VolumeFault>,
        into: &mut Reply,
    ) -> Result<(), Fault>
        requires fresh { IsNone self.old.failed }
        ensures { Replied (D.shown disk.now) (answer into.old asked) self.old self.new (answer into.new result) }
    {
        match asked {
            Ok(()) => return Ok(()),
            Err(VolumeFault::Refused(refusal)) => {
                refuse(into, refusal);
                return Ok(());
            }
            Err(fault) => return Err(self.fault_of(disk, fault)),
        }
    }

    /// What a session makes of a fault of a call on a volume. After a read that failed it goes on.
    pub(crate) fn fault_of<D: Disk>(&mut self, disk: &D, fault: VolumeFault) -> Fault
        requires fresh { IsNone self.old.failed }
        ensures { Breaks (D.shown disk.now) fault self.old self.new result }
    {
        match fault {
            VolumeFault::Damaged { at, want, found } => Fault::Damaged { at, want, found },
            VolumeFault::Memory => Fault::Memory,
            VolumeFault::DiskFault | VolumeFault::Refused(_) => {
                self.failed = failure(disk, disk.write_faults());
                Fault::DiskFault
            }
        }
    }
}

/// Whether a command finds a file of a volume by the numbers in memory, and leaves the names of all files. In a snapshot it doesn't.
fn finds(command: &Command) -> bool
    ensures { result ≡ finds_file command.now }
{
    match command {
        Command::Put { .. } => true,
        Command::Cut { .. } => true,
        Command::Get { snapshot, .. } => snapshot.is_none(),
        Command::Len { snapshot, .. } => snapshot.is_none(),
        Command::Probe { .. } => true,
        _ => false,
    }
}

/// Asks a volume, and leaves its reply in `into`.
fn ask_state<D: Disk, L: Ledger>(
    state: &mut VolumeState,
    alloc: Global,
    pool: &mut Pool,
    disk: &mut D,
    command: &Command,
    steps: &mut Steps<L>,
    into: &mut Reply,
) -> Result<(), VolumeFault>
    requires ready { IsReady (D.shown disk.old) pool.old state.old }
    requires asks { volume_asked command.now ≡ Some state.old.name }
    ensures asks { AsksState (D.shown disk.old) pool.old state.old command.now steps.old (D.shown disk.new) pool.new steps.new (answer into.new result) }
    ensures lost { has_range command.now ≡ true → table_named state.old (snapshot_asked command.now) ≡ None → IsRefusedUnread NoSnapshot disk.old pool.old disk.new pool.new (answer into.new result) }
    ensures only { answer into.new result ≡ Err (of_volume.Refused NoSnapshot) → table_named state.old (snapshot_asked command.now) ≡ None }
    ensures told { IfOk (answer into.new result) (λ reply. is_refusal reply ≡ false) }
    ensures same { state.new ≡ state.old }
    ensures steps { is_get command.now ≡ false → steps.new ≡ steps.old }
{
    match command {
        Command::Get {
            snapshot,
            file,
            index,
            ..
        } => {
            make_content(into);
            let Reply::Content(block) = into else {
                unreachable!();
            };
            match state.get(
                alloc,
                pool,
                disk,
                snapshot.as_ref(),
                file,
                *index,
                block,
                steps,
            ) {
                Ok(()) => return Ok(()),
                Err(fault) => return Err(fault),
            }
        }
        Command::Len { snapshot, file, .. } => {
            match state.length(alloc, pool, disk, snapshot.as_ref(), file) {
                Ok(length) => {
                    count(into, u64::from(length));
                    return Ok(());
                }
                Err(fault) => return Err(fault),
            }
        }
        Command::Ls { snapshot, .. } => {
            match state.list(alloc, pool, disk, snapshot.as_ref()) {
                Ok(names) => {
                    list(into, names);
                    return Ok(());
                }
                Err(fault) => return Err(fault),
            }
        }
        Command::Probe { file, index, .. } => {
            match state.probe(alloc, pool, disk, file, *index) {
                Ok(pointers) => {
                    count(into, u64::from(pointers));
                    return Ok(());
                }
                Err(fault) => return Err(fault),
            }
        }
        _ => return Err(VolumeFault::Refused(Refusal::Syntax)),
    }
}
