//! The numbers of files by their names, which a session has in memory of each volume from the first command on its files on.

ghost use Rattle.std.specs.Prelude.{◌≡◌, ◌<◌, true, is_some, IsNone, OnOk};
ghost use Rattle.fv_container.specs.Chains.{slot_count};
ghost use Rattle.fv_volume.specs.States.{state_at};
ghost use Rattle.fv_aggregate.specs.Failing.{IsUnmade};
ghost use Rattle.fv_aggregate.specs.Known.{KnowsNumbers};
ghost use Rattle.fv_aggregate.specs.Numbering.{HasNumbered};
ghost use Rattle.fv_aggregate.specs.Standing.{StandsReady};

use crate::aiming::volume_at;
use crate::fault::Fault;
use crate::session::Session;
use fv_disk::Disk;
use fv_volume::VolumeFault;

impl Session {
    /// Reads the numbers of all files of a slot's volume into memory, where they aren't there. No call on the volume walks its inode file
    /// for a name or a free number from then on, until a file is made or removed, for whose number memory can lack.
    pub(crate) fn read_numbers<D: Disk>(&mut self, disk: &mut D, slot: u8) -> Result<(), Fault>
        requires fresh { IsNone self.old.failed }
        requires stands { StandsReady (D.shown disk.old) self.old }
        requires slot { slot < slot_count }
        requires there { is_some (state_at self.old.volumes slot) ≡ true }
        ensures there { OnOk result (KnowsNumbers (state_at self.new.volumes slot)) }
        ensures idle { KnowsNumbers (state_at self.old.volumes slot)
            → (disk.new ≡ disk.old) × ((self.new.pool ≡ self.old.pool) × (self.new.volumes ≡ self.old.volumes)) }
        ensures numbered { HasNumbered slot (D.shown disk.old) self.old (D.shown disk.new) self.new result }
        ensures unmade { IsUnmade (D.shown disk.old) self.old slot (D.shown disk.new) self.new }
    {
        let state = volume_at(&mut self.volumes, slot);
        let read = state.read_numbers(self.alloc, &mut self.pool, disk);
        match read {
            Ok(()) => Ok(()),
            Err(fault) => Err(self.fault_of(disk, VolumeFault::from(fault))),
        }
    }
}
