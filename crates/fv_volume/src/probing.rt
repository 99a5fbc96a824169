//! How many pointers on the path to a cell tell no place. A probe doesn't change the volume.

ghost use Rattle.std.specs.Prelude.{◌≡◌, ◌≢◌, ◌≤◌, ◌<◌, None, false, min, IfOk, IfErr};
ghost use Rattle.fv_model.specs.Machines.{Machine};
ghost use Rattle.fv_model.specs.Numbers.{is_index};
ghost use Rattle.fv_model.specs.declared.answers.Refusal.TheVariants.{NoSnapshot, Range};
ghost use Rattle.fv_model.specs.declared.commands.Command.TheVariants.{Probe};
ghost use Rattle.fv_pool.specs.declared.fault.VolumeFault.TheVariants.{Refused};
ghost use Rattle.fv_pool.specs.Calls.{CallCause, Reads};
ghost use Rattle.fv_pool.specs.Lending.{lent_for};
ghost use Rattle.fv_volume.specs.Asking.{IsRefusedUnread, ReadsRead};
ghost use Rattle.fv_volume.specs.Calls.{Agrees, Has};
ghost use Rattle.fv_volume.specs.OneVolume.{home_in, standing_for, trees_for, volume_for, IsReady, IsStanding};
ghost use Rattle.fv_volume.specs.Probing.{IsPath};

use crate::state::VolumeState;
use fv_container::Steps;
use fv_disk::Disk;
use fv_model::Name;
use fv_pool::{Pool, VolumeFault};
use std::alloc::Global;
use std::marker::Brand;
use std::sync::ledger::{Blank, Ledger};

/// The most pointers that lie on a path: three of the inode file and four of a file.
const MOST_POINTERS: u8 = 7;

impl VolumeState {
    /// How many unknown pointers lie on the path from the root of the active table to the record of the file of a name, and from there
    /// to the cell of an index, at most 7: the steps of a `get` of that cell. A path ends at a hole, and a pointer to what isn't placed
    /// yet counts as known. The volume stays, and of the pool nothing changes but its cache.
    ///
    /// # Errors
    ///
    /// As `get` of the active table. It reads the cell, and costs what that does. `docs/MACHINE.md` has the command.
    pub fn probe<D: Disk>(
        &mut self,
        alloc: Global,
        pool: &mut Pool,
        disk: &mut D,
        file: &Name,
        index: u32,
    ) -> Result<u8, VolumeFault>
        requires ready { IsReady (D.shown disk.old) pool.old self.old }
        ensures agrees { IsStanding (D.shown disk.old) pool.old self.old
            → (m : Machine) → Has self.old.name (volume_for (D.shown disk.old) pool.old self.old) m → Agrees m (Probe self.old.name file.now index) result }
        ensures path { IsStanding (D.shown disk.old) pool.old self.old
            → IfOk result (IsPath (standing_for (D.shown disk.old) pool.old self.old) (trees_for (D.shown disk.old) pool.old self.old) file.now index) }
        ensures few { IfOk result (λ count. count ≤ 7) }
        ensures there { IfErr result (λ e. e ≢ Refused NoSnapshot) }
        ensures range { is_index index ≡ false → IsRefusedUnread Range disk.old pool.old disk.new pool.new result }
        ensures same { self.new ≡ self.old }
        ensures reads { Reads (D.shown disk.old) pool.old (D.shown disk.new) pool.new }
        ensures cause { CallCause (ReadsRead (D.shown disk.old) pool.old self.old None) (standing_for (D.shown disk.old) pool.old self.old)
            (lent_for pool.old self.old.map (D.shown disk.old) 0 (home_in self.old) 0) (D.shown disk.new).faults result }
    {
        count_path::<D, Brand>(self, alloc, pool, disk, Blank::new(1), file, index)
    }
}

/// As `probe`, by a counter of its own.
fn count_path<D: Disk, L: Ledger>(
    volume: &mut VolumeState,
    alloc: Global,
    pool: &mut Pool,
    disk: &mut D,
    blank: Blank,
    file: &Name,
    index: u32,
) -> Result<u8, VolumeFault>
    requires name { blank.name ≡ L.name }
    requires parts { blank.parts ≡ L.parts }
    requires some { 0 < L.parts }
    requires ready { IsReady (D.shown disk.old) pool.old volume.old }
    ensures agrees { IsStanding (D.shown disk.old) pool.old volume.old
        → (m : Machine) → Has volume.old.name (volume_for (D.shown disk.old) pool.old volume.old) m → Agrees m (Probe volume.old.name file.now index) result }
    ensures path { IsStanding (D.shown disk.old) pool.old volume.old
        → IfOk result (IsPath (standing_for (D.shown disk.old) pool.old volume.old) (trees_for (D.shown disk.old) pool.old volume.old) file.now index) }
    ensures few { IfOk result (λ count. count ≤ 7) }
    ensures there { IfErr result (λ e. e ≢ Refused NoSnapshot) }
    ensures range { is_index index ≡ false → IsRefusedUnread Range disk.old pool.old disk.new pool.new result }
    ensures same { volume.new ≡ volume.old }
    ensures reads { Reads (D.shown disk.old) pool.old (D.shown disk.new) pool.new }
    ensures cause { CallCause (ReadsRead (D.shown disk.old) pool.old volume.old None) (standing_for (D.shown disk.old) pool.old volume.old)
        (lent_for pool.old volume.old.map (D.shown disk.old) 0 (home_in volume.old) 0) (D.shown disk.new).faults result }
{
    let mut steps: Steps<L> = Steps::open(blank);
    let mut block = [0; 4096];
    volume.get(alloc, pool, disk, None, file, index, &mut block, &mut steps)?;
    Ok(pointers(steps.counted()))
}

/// A number of pointers on a path, no more than it can have.
fn pointers(steps: u64) -> u8
    ensures { result ≡ min steps 7 }
{
    if steps <= u64::from(MOST_POINTERS) {
        steps as u8
    } else {
        MOST_POINTERS
    }
}
