//! Placing what changed of the files of a volume.

ghost use Rattle.std.specs.Prelude.{◌≡◌, ◌≤◌, min, true, Some, None, OnOk, IfErr};
ghost use Rattle.fv_pool.specs.BlocksOver.{HasRoom};
ghost use Rattle.fv_volmap.specs.Slots.{IsVolume};
ghost use Rattle.fv_volume.specs.Held.{HasPlaceCause, IsPlacedAs, MayFail};
ghost use Rattle.fv_pool.specs.Lending.{lent_for};
ghost use Rattle.fv_volume.specs.OneVolume.{home_in, IsReady, IsStanding};
ghost use Rattle.fv_pool.specs.Causes.{IsNoDamage};
ghost use Rattle.fv_pool.specs.Placing.{FlushCause, Goes, KeepsUnused};
ghost use Rattle.fv_pool.specs.Tables.{pending_of};
ghost use Rattle.fv_volume.specs.Placing.{KeepsPlaced, PlacesFiles, PlacesVolume, TellsSound};

use crate::state::VolumeState;
use fv_codec::Pointer;
use fv_disk::Disk;
use fv_files::Files;
use fv_pool::{Home, Pool, Rooted, VolumeFault, known_maps, place_table};
use std::marker::Brand;

impl VolumeState {
    /// Places what changed of the files since the last flush: each block gets a VVBN and a PVBN, its entry is set, and it is kept in
    /// the pool until the next consistency point. The files' trees come first, each with its root laid into its inode block, and the
    /// inode file last. Then nothing of the files is in memory, and `active` names them. In every outcome the volume stands for what it
    /// stood for, as each other one does, and a later flush goes on where one failed. Under a number that isn't in use afterwards the
    /// entry stays. It writes nothing to the disk.
    ///
    /// `room` says how many numbers and blocks the caller made sure of. It doesn't rise, and so many are free afterwards. For a volume that
    /// stands it falls by no more than what is pending does. Where it is enough for all that is pending, and the trees of the table stand on
    /// their blocks, no damage comes.
    ///
    /// # Errors
    ///
    /// `Damaged` only where the room is used up and a number or a block is lacking: at the place of the label or of the root, with 1 and
    /// 0; or where a leaf of the container doesn't stand where it has to. `DiskFault` only where a read failed in this call, and `Memory` where
    /// memory ran out. It refuses nothing. A volume of which a tree doesn't stand on its blocks could answer other damage, and `Memory` where
    /// the inode block of a file in memory isn't there, too. Without a file in memory no fault comes.
    ///
    /// Costs a block for each node and cell that changed, for each inode block of a file that changed and each node over those, and a read
    /// for each leaf of the container that gets an entry and isn't in memory yet, at most. `docs/SPACE.md` has what waits for a point.
    pub fn flush<D: Disk>(
        &mut self,
        pool: &mut Pool,
        disk: &mut D,
        room: &mut u32,
    ) -> Result<(), VolumeFault>
        requires ready { IsReady (D.shown disk.old) pool.old self.old }
        requires free { HasRoom pool.old.map self.old.map room.old }
        ensures places { IsStanding (D.shown disk.old) pool.old self.old → PlacesVolume (D.shown disk.old) pool.old self.old room.old (D.shown disk.new) pool.new self.new room.new result }
        ensures files { PlacesFiles self.old self.new result }
        ensures ready { IsReady (D.shown disk.new) pool.new self.new }
        ensures keeps { KeepsPlaced self.old self.new }
        ensures idle { self.old.files ≡ None → (pool.new ≡ pool.old) × ((self.new ≡ self.old) × ((room.new ≡ room.old) × (disk.new ≡ disk.old))) }
        ensures goes { Goes (lent_for pool.old self.old.map (D.shown disk.old) 0 (home_in self.old) room.old) pool.new self.new.map (D.shown disk.new) room.new }
        ensures unused { IsStanding (D.shown disk.old) pool.old self.old → KeepsUnused pool.old.containers pool.new.containers self.old.slot self.new.map }
        ensures free { HasRoom pool.new.map self.new.map room.new }
        ensures enough { TellsSound (D.shown disk.old) pool.old self.old → pending_of self.old.files ≤ room.old → IfErr result IsNoDamage }
        ensures cause { FlushCause (TellsSound (D.shown disk.old) pool.old self.old) (lent_for pool.old self.old.map (D.shown disk.old) 0 (home_in self.old) room.old) (D.shown disk.new).faults room.new result }
    {
        let Some(mut files) = self.files.take() else {
            return Ok(());
        };
        self.changed = true;
        let home = Home {
            slot: self.slot,
            label: self.label,
        };
        match place_table::<Brand, D>(&mut files, pool, disk, &mut self.map, &home, room) {
            Ok(root) => {
                self.active = rooted(&files, root);
                Ok(())
            }
            Err(fault) => {
                self.files = Some(files);
                Err(fault.into())
            }
        }
    }

    /// Places what changed of the files of the volume, as `flush` does, with all the room that there is for it.
    ///
    /// # Errors
    ///
    /// As `flush`. Where the trees of the table stand on their blocks and the volume has more free numbers, and the aggregate more free
    /// blocks, than are pending, no damage comes. Without a file in memory no fault comes.
    ///
    /// Costs what `flush` and `room` cost, and a step without a file in memory.
    pub fn place_files<D: Disk>(&mut self, pool: &mut Pool, disk: &mut D) -> Result<(), VolumeFault>
        requires ready { IsReady (D.shown disk.old) pool.old self.old }
        ensures placed { IsPlacedAs (D.shown disk.old) pool.old self.old (D.shown disk.new) pool.new self.new }
        ensures idle { self.old.files ≡ None → disk.new ≡ disk.old }
        ensures none { OnOk result (self.new.files ≡ None) }
        ensures whole { IsVolume self.new.map }
        ensures fails { IfErr result (MayFail (D.shown disk.old) pool.old (Some self.old)) }
        ensures cause { HasPlaceCause (D.shown disk.old) (D.shown disk.new) result }
    {
        let mut room = self.room_to_place(pool);
        let flushed = self.flush(pool, disk, &mut room);
        known_maps(&self.map);
        flushed
    }
}

/// The table that a root spells. An inode file has at most two levels.
fn rooted(files: &Files, root: Pointer) -> Rooted
    ensures { result ≡ record { levels = min files.now.inode.tree.levels 2; root = root } }
{
    let levels = files.levels();
    Rooted {
        levels: if levels < 2 { levels } else { 2 },
        root,
    }
}
