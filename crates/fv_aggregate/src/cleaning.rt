//! The commands that take background steps: `clean`, until a volume knows all its places, and `work`, as many as are asked for.

ghost use Rattle.std.specs.Prelude.{◌≡◌, ◌<◌, ℕ, List, true, IsNone};
ghost use Rattle.fv_container.specs.Chains.{slot_count};
ghost use Rattle.fv_model.specs.Refusals.{next};
ghost use Rattle.fv_model.specs.declared.commands.Command.TheVariants.{Clean};
ghost use Rattle.fv_volume.specs.Slots.{HasName};
ghost use Rattle.fv_volume.specs.States.{state_at};
ghost use Rattle.fv_aggregate.specs.Answers.{answer};
ghost use Rattle.fv_aggregate.specs.Cleaning.{Cleans, CleansOnce, Learns, TakesAll};
ghost use Rattle.fv_aggregate.specs.Standing.{StandsReady};
ghost use Rattle.fv_aggregate.specs.Working.{is_unclean};

use crate::fault::Fault;
use crate::replies::{done, refuse};
use crate::session::Session;
use crate::working::{STEP_ROOM, is_unclean};
use fv_cleaner::clean_finish;
use fv_disk::Disk;
use fv_model::{Name, Refusal, Reply, in_steps};

/// So many steps suffice for a volume: each fills in one pointer at least, and the volumes of an aggregate have fewer. A disk that doesn't keep what is
/// written can ask for more.
const MOST_STEPS: u64 = 17_179_869_184;

impl Session {
    /// Fills in all places of a volume, step by step, and says then that it knows them.
    pub(crate) fn clean_volume<D: Disk>(
        &mut self,
        disk: &mut D,
        volume: &Name,
        into: &mut Reply,
    ) -> Result<(), Fault>
        requires fresh { IsNone self.old.failed }
        requires stands { StandsReady (D.shown disk.old) self.old }
        ensures { Cleans volume.now (D.shown disk.old) disk.old self.old (D.shown disk.new) disk.new self.new (answer into.new result) }
    {
        let Some(slot) = self.volumes.find(volume) else {
            refuse(into, Refusal::NoVolume);
            return Ok(());
        };
        if is_unclean(&self.volumes, slot) {
            self.learn(disk, slot)?;
        }
        done(into);
        Ok(())
    }

    /// Takes steps of the volume of a slot until none is left, and says then that it knows all its places.
    fn learn<D: Disk>(&mut self, disk: &mut D, slot: u8) -> Result<(), Fault>
        requires fresh { IsNone self.old.failed }
        requires stands { StandsReady (D.shown disk.old) self.old }
        requires slot { slot < slot_count }
        requires unclean { is_unclean (state_at self.old.volumes slot) ≡ true }
        ensures { (name : List ℕ) → HasName self.old.volumes slot name
            → Learns (λ m. next m (Clean name)) slot (D.shown disk.old) self.old (D.shown disk.new) self.new result }
    {
        for _ in 0..MOST_STEPS {
            if !self.clean_once(disk, slot)? {
                clean_finish(&mut self.volumes, slot);
                return Ok(());
            }
        }
        Err(Fault::Damaged {
            at: 0,
            want: MOST_STEPS,
            found: MOST_STEPS + 1,
        })
    }

    /// Takes one step of the volume of a slot, and says whether there was one to take.
    fn clean_once<D: Disk>(&mut self, disk: &mut D, slot: u8) -> Result<bool, Fault>
        requires fresh { IsNone self.old.failed }
        requires stands { StandsReady (D.shown disk.old) self.old }
        requires slot { slot < slot_count }
        requires unclean { is_unclean (state_at self.old.volumes slot) ≡ true }
        ensures { CleansOnce slot (D.shown disk.old) self.old (D.shown disk.new) self.new result }
    {
        self.make_room(disk, STEP_ROOM)?;
        self.place_all(disk)?;
        self.clean_at(disk, slot)
    }

    /// Takes so many background steps, or all that are left, where their number is in its range.
    pub(crate) fn work_steps<D: Disk>(
        &mut self,
        disk: &mut D,
        steps: u32,
        into: &mut Reply,
    ) -> Result<(), Fault>
        requires fresh { IsNone self.old.failed }
        requires stands { StandsReady (D.shown disk.old) self.old }
        ensures { TakesAll steps (D.shown disk.old) disk.old self.old (D.shown disk.new) disk.new self.new (answer into.new result) }
    {
        if !in_steps(u64::from(steps)) {
            refuse(into, Refusal::Range);
            return Ok(());
        }
        self.take_steps(disk, steps)?;
        done(into);
        Ok(())
    }
}
