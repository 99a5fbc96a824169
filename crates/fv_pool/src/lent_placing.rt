//! The flush of the table of one volume over what a session lends. It places and gives up blocks, and loads none of them.

ghost use Rattle.fv_store.specs.Held.{StandsOn};
ghost use Rattle.fv_tree.specs.Standing.{under};
ghost use Rattle.fv_files.specs.Altering.{AreLaid};
ghost use Rattle.fv_files.specs.Tables.{AreStanding};
ghost use Rattle.fv_pool.specs.BlocksOver.{HasRoom};
ghost use Rattle.fv_pool.specs.Lending.{CanLend, IsTold, lent_for, sees};
ghost use Rattle.fv_pool.specs.Placing.{Goes, IsInNoSnap, KeepsUnused, PlaceCause, PlacesTable, TakesRoom};

use crate::blocks::Home;
use crate::noted::Noted;
use crate::pool::Pool;
use crate::volume_blocks::Guard;
use crate::volume_places::VolumePlaces;
use fv_codec::Pointer;
use fv_disk::{BlockFault, Disk};
use fv_files::Files;
use fv_volmap::VolMap;
use std::marker::PhantomData;

/// Places what changed of the table of a volume, over the volume's blocks. Answers the root of its inode file. `room` says how many
/// numbers and blocks the caller made sure of, and afterwards how many of them are left.
///
/// # Errors
///
/// `Damaged` only where the room is used up and a number or a block is lacking, or where a leaf of the container doesn't stand where it
/// has to. `DiskFault` only where a read failed in this call, and `Memory` where memory ran out. What was placed until then stays so.
///
/// Its cost is that of `Files::flush`: a block for each node and cell that changed, and a read at most for each leaf of the container
/// that gets an entry and isn't in memory yet.
pub fn place_table<K: Guard, D: Disk>(
    files: &mut Files,
    pool: &mut Pool,
    disk: &mut D,
    map: &mut VolMap,
    home: &Home,
    room: &mut u32,
) -> Result<Pointer, BlockFault>
    requires lent { CanLend pool.old map.old (D.shown disk.old) home.now.slot }
    requires free { HasRoom pool.old.map map.old room.old }
    requires told { K.told → IsTold (D.shown disk.old) pool.old map.old home.now.slot }
    requires stands { K.told → AreStanding (sees pool.old map.old (D.shown disk.old) home.now) files.old }
    ensures table { PlacesTable K.told (sees pool.old map.old (D.shown disk.old) home.now)
        (under (sees pool.new map.new (D.shown disk.new) home.now)) (sees pool.new map.new (D.shown disk.new) home.now).used (IsInNoSnap (D.shown disk.old) pool.old map.old home.now.slot) files.old files.new result }
    ensures unused { K.told → AreLaid (under (sees pool.old map.old (D.shown disk.old) home.now)) files.old → KeepsUnused pool.old.containers pool.new.containers home.now.slot map.new }
    ensures goes { Goes (lent_for pool.old map.old (D.shown disk.old) 0 home.now room.old) pool.new map.new (D.shown disk.new) room.new }
    ensures room { TakesRoom K.told files.old files.new room.old room.new result }
    ensures stands { StandsOn (D.shown disk.new) pool.new.store.pairs }
    ensures told { K.told → IsTold (D.shown disk.new) pool.new map.new home.now.slot }
    ensures free { HasRoom pool.new.map map.new room.new }
    ensures cause { PlaceCause K.told (lent_for pool.old map.old (D.shown disk.old) 0 home.now room.old) (D.shown disk.new).faults room.new result }
{
    let mut blocks: VolumePlaces<'_, '_, '_, K, D> = VolumePlaces {
        pool,
        disk,
        map,
        home: *home,
        room: *room,
        strays: 0,
        noted: Noted::NONE,
        of: PhantomData,
    };
    let placed = files.flush(&mut blocks);
    *room = blocks.room;
    placed
}
