//! Background steps: the places that volumes don't know are filled in, block by block.

ghost use Rattle.std.specs.Prelude.{◌≡◌, ◌<◌, ◌≤◌, ◌+◌, ℕ, length, true, false, IsNone, Some, Ok, Err};
ghost use Rattle.fv_container.specs.Chains.{slot_count};
ghost use Rattle.fv_volume.specs.States.{state_at};
ghost use Rattle.fv_cp.specs.Placing.{HaveNoFiles};
ghost use Rattle.fv_aggregate.specs.declared.fault.Fault.TheVariants.{Failed};
ghost use Rattle.fv_aggregate.specs.Calls.{IsUntouched};
ghost use Rattle.fv_aggregate.specs.Commands.{dirty_limit};
ghost use Rattle.fv_aggregate.specs.Standing.{Stands, StandsReady};
ghost use Rattle.fv_aggregate.specs.Working.{AreKnown, PlacesAll, SeeksStep, TakesStep, Works, WorksOnce, is_unclean, step_room};

use crate::fault::Fault;
use crate::session::Session;
use fv_cleaner::clean_step;
use fv_codec::SLOTS;
use fv_cp::flush;
use fv_disk::Disk;
use fv_volumes::Volumes;

/// So many blocks a step may add. One that moves a block adds a block; each other part of a volume is counted in its overhead.
pub(crate) const STEP_ROOM: u64 = 8;

impl Session {
    /// Takes so many background steps, and answers how many it took: fewer only where nothing is left to do. Each step is one of the
    /// volume of the first slot, in order, that doesn't know all its places and has one left. The machine stays.
    ///
    /// For example, of a mirror three pointers are unknown: that of its label, and two in the node to which it leads. Then
    /// `work(disk, 5)` answers 2.
    ///
    /// # Errors
    /// As of `apply`: what fails, what a session does then, and what stays. `Damaged` comes too where a block that a step reads hasn't
    /// the shape of its kind, or leads nowhere. The steps that were taken before stay taken.
    ///
    /// Costs a look at each slot, and where all volumes know their places nothing else is done. Else it places the files in memory, and
    /// costs for each step what `clean_step` does for each slot up to that one, and a consistency point where room for 8 blocks is lacking.
    pub fn work<D: Disk>(&mut self, disk: &mut D, n: u32) -> Result<u32, Fault>
        requires stands { IsNone self.old.failed → Stands (D.shown disk.old) self.old }
        ensures works { IsNone self.old.failed → Works n (D.shown disk.old) self.old (D.shown disk.new) self.new result }
        ensures idle { IsNone self.old.failed → AreKnown self.old.volumes → (result ≡ Ok 0) × IsUntouched disk.old self.old disk.new self.new }
        ensures dead { (faults : ℕ) → self.old.failed ≡ Some faults → (result ≡ Err (Failed faults))
            × ((disk.new ≡ disk.old) × (self.new ≡ self.old)) }
    {
        match self.failed {
            Some(faults) => Err(Fault::Failed { faults }),
            None => self.take_steps(disk, n),
        }
    }

    /// Takes steps in a session that hasn't failed.
    pub(crate) fn take_steps<D: Disk>(&mut self, disk: &mut D, n: u32) -> Result<u32, Fault>
        requires fresh { IsNone self.old.failed }
        requires stands { StandsReady (D.shown disk.old) self.old }
        ensures works { Works n (D.shown disk.old) self.old (D.shown disk.new) self.new result }
        ensures idle { AreKnown self.old.volumes → (result ≡ Ok 0) × IsUntouched disk.old self.old disk.new self.new }
    {
        if !has_unclean(&self.volumes) {
            return Ok(0);
        }
        for taken in 0..n {
            if !self.work_step(disk)? {
                return Ok(taken);
            }
        }
        Ok(n)
    }

    /// Takes one step, and says whether there was one to take.
    fn work_step<D: Disk>(&mut self, disk: &mut D) -> Result<bool, Fault>
        requires fresh { IsNone self.old.failed }
        requires stands { StandsReady (D.shown disk.old) self.old }
        ensures { WorksOnce (D.shown disk.old) self.old (D.shown disk.new) self.new result }
    {
        self.make_room(disk, STEP_ROOM)?;
        self.place_all(disk)?;
        self.seek_step(disk)
    }

    /// Places what changed of the files of all volumes, so that none is in memory.
    pub(crate) fn place_all<D: Disk>(&mut self, disk: &mut D) -> Result<(), Fault>
        requires fresh { IsNone self.old.failed }
        requires stands { StandsReady (D.shown disk.old) self.old }
        ensures { PlacesAll D.shown disk.old self.old disk.new self.new result }
    {
        match flush(&mut self.volumes, &mut self.pool, disk) {
            Ok(()) => Ok(()),
            Err(fault) => Err(self.fault_of(disk, fault)),
        }
    }

    /// Looks for a step slot by slot, and takes the first one.
    fn seek_step<D: Disk>(&mut self, disk: &mut D) -> Result<bool, Fault>
        requires fresh { IsNone self.old.failed }
        requires stands { StandsReady (D.shown disk.old) self.old }
        requires long { length self.old.volumes ≡ slot_count }
        requires none { HaveNoFiles self.old.volumes }
        requires few { self.old.pending + step_room ≤ dirty_limit }
        ensures { SeeksStep (D.shown disk.old) self.old (D.shown disk.new) self.new result }
    {
        for slot in 0..SLOTS {
            if self.step_at(disk, slot)? {
                return Ok(true);
            }
        }
        Ok(false)
    }

    /// Takes a step of the volume of a slot, where it doesn't know all its places and has one left.
    fn step_at<D: Disk>(&mut self, disk: &mut D, slot: u8) -> Result<bool, Fault>
        requires fresh { IsNone self.old.failed }
        requires stands { StandsReady (D.shown disk.old) self.old }
        requires slot { slot < slot_count }
        requires none { HaveNoFiles self.old.volumes }
        requires few { self.old.pending + step_room ≤ dirty_limit }
        ensures { TakesStep slot (D.shown disk.old) self.old (D.shown disk.new) self.new result }
    {
        if is_unclean(&self.volumes, slot) {
            self.clean_at(disk, slot)
        } else {
            Ok(false)
        }
    }

    /// Takes a clean step of the volume of a slot, which doesn't know all its places.
    pub(crate) fn clean_at<D: Disk>(&mut self, disk: &mut D, slot: u8) -> Result<bool, Fault>
        requires fresh { IsNone self.old.failed }
        requires stands { StandsReady (D.shown disk.old) self.old }
        requires slot { slot < slot_count }
        requires unclean { is_unclean (state_at self.old.volumes slot) ≡ true }
        requires none { HaveNoFiles self.old.volumes }
        requires few { self.old.pending + step_room ≤ dirty_limit }
        ensures { TakesStep slot (D.shown disk.old) self.old (D.shown disk.new) self.new result }
    {
        match clean_step(&mut self.volumes, slot, &mut self.pool, disk) {
            Ok(true) => {
                self.pending += 1;
                Ok(true)
            }
            Ok(false) => Ok(false),
            Err(fault) => Err(self.fault_of(disk, fault)),
        }
    }
}

/// Whether a volume is there of which not all places are known. Costs a look at each slot.
fn has_unclean(volumes: &Volumes) -> bool
    ensures none { result ≡ false → AreKnown volumes.now }
    ensures some { result ≡ true → AreKnown volumes.now → ⊥ }
{
    for slot in 0..SLOTS {
        if is_unclean(volumes, slot) {
            return true;
        }
    }
    false
}

/// Whether a slot has a volume of which not all places are known. Costs a step.
pub(crate) fn is_unclean(volumes: &Volumes, slot: u8) -> bool
    requires { slot < slot_count }
    ensures { result ≡ is_unclean (state_at volumes.now slot) }
{
    match volumes.get(slot) {
        Some(state) => !state.known,
        None => false,
    }
}
