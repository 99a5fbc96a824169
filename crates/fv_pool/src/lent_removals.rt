//! Removals from the table of one volume over what a session lends. They load and give up blocks, and place none.

ghost use Rattle.std.specs.Prelude.{◌≤◌, IfOk, OnOk};
ghost use Rattle.fv_files.specs.Right.{HasRightTrees};
ghost use Rattle.fv_inode.specs.Files.{rooted, IsInfo};
ghost use Rattle.fv_files.specs.Calls.{RemovesFile, TakesByRemoval};
ghost use Rattle.fv_files.specs.Tables.{table_in, AreStanding, IsInfoOf};
ghost use Rattle.fv_pool.specs.Calls.{BlockCause, CutsTold, GivesUp, HasWellTable, LeavesTable, Reads};
ghost use Rattle.fv_pool.specs.Lending.{CanLend, IsLedger, IsTold, lent_for, sees};

use crate::blocks::Home;
use crate::noted::Noted;
use crate::pool::Pool;
use crate::volume_blocks::Guard;
use crate::volume_drops::VolumeDrops;
use fv_container::Steps;
use fv_disk::{BlockFault, Disk};
use fv_files::Files;
use fv_inode::Info;
use fv_volmap::VolMap;
use std::marker::PhantomData;
use std::sync::ledger::{Blank, Ledger};

/// Cuts the file of which this is known to a length; answers how many positions went.
///
/// Its faults and its cost are those of `Files::cut`, over the blocks of the volume.
#[tactic(auto, using(crate::proofs::DropCauses::drops_reads, crate::proofs::DropCauses::drops_maps, crate::proofs::TableCauses::lent_removal))]
pub fn cut_told<K: Guard, D: Disk, L: Ledger>(
    files: &mut Files,
    pool: &mut Pool,
    disk: &mut D,
    map: &mut VolMap,
    home: &Home,
    blank: Blank,
    info: &Info,
    length: u32,
    stamp: u64,
) -> Result<u32, BlockFault>
    requires blank { IsLedger blank.name blank.parts L.name L.parts }
    requires lent { CanLend pool.old map.old (D.shown disk.old) home.now.slot }
    requires told { K.told → IsTold (D.shown disk.old) pool.old map.old home.now.slot }
    requires right { K.told → HasRightTrees (sees pool.old map.old (D.shown disk.old) home.now) files.old }
    requires length { length ≤ 2097152 }
    requires stamp { 1 ≤ stamp }
    requires range { IsInfo info.now }
    requires there { K.told → IsInfoOf (rooted (sees pool.old map.old (D.shown disk.old) home.now) files.old.inode) info.now }
    ensures cuts { CutsTold K.told (sees pool.old map.old (D.shown disk.old) home.now) (sees pool.old map.new (D.shown disk.old) home.now) files.old files.new info.now.number length stamp result }
    ensures leaves { LeavesTable K.told (HasWellTable (sees pool.old map.old (D.shown disk.old) home.now) files.old) (sees pool.old map.old (D.shown disk.old) home.now) (sees pool.old map.new (D.shown disk.old) home.now) files.old files.new stamp result }
    ensures maps { GivesUp map.old map.new }
    ensures reads { Reads (D.shown disk.old) pool.old (D.shown disk.new) pool.new }
    ensures told { K.told → IsTold (D.shown disk.new) pool.new map.new home.now.slot }
    ensures cause { BlockCause K.told (table_in (sees pool.old map.old (D.shown disk.old) home.now) files.old) (lent_for pool.old map.old (D.shown disk.old) 0 home.now 0) (D.shown disk.new).faults result }
{
    let mut steps: Steps<L> = Steps::open(blank);
    let mut blocks: VolumeDrops<'_, '_, '_, '_, K, D, L> = VolumeDrops {
        pool,
        disk,
        map,
        steps: &mut steps,
        home: *home,
        strays: 0,
        noted: Noted::NONE,
        of: PhantomData,
    };
    files.cut(&mut blocks, info, length, stamp)
}

/// Removes the file of which this is known; answers how many positions went.
///
/// Its faults and its cost are those of `Files::remove`, over the blocks of the volume.
#[tactic(auto, using(crate::proofs::DropCauses::drops_reads, crate::proofs::DropCauses::drops_maps, crate::proofs::TableCauses::lent_removal))]
pub fn remove_told<K: Guard, D: Disk, L: Ledger>(
    files: &mut Files,
    pool: &mut Pool,
    disk: &mut D,
    map: &mut VolMap,
    home: &Home,
    blank: Blank,
    info: &Info,
    stamp: u64,
) -> Result<u32, BlockFault>
    requires blank { IsLedger blank.name blank.parts L.name L.parts }
    requires lent { CanLend pool.old map.old (D.shown disk.old) home.now.slot }
    requires told { K.told → IsTold (D.shown disk.old) pool.old map.old home.now.slot }
    requires right { K.told → HasRightTrees (sees pool.old map.old (D.shown disk.old) home.now) files.old }
    requires stamp { 1 ≤ stamp }
    requires range { IsInfo info.now }
    requires there { K.told → IsInfoOf (rooted (sees pool.old map.old (D.shown disk.old) home.now) files.old.inode) info.now }
    ensures removed { K.told → OnOk result (AreStanding (sees pool.old map.old (D.shown disk.old) home.now) files.old
        → RemovesFile (table_in (sees pool.old map.old (D.shown disk.old) home.now) files.old) (table_in (sees pool.old map.new (D.shown disk.old) home.now) files.new) info.now.number stamp) }
    ensures counted { K.told → IfOk result (λ count. AreStanding (sees pool.old map.old (D.shown disk.old) home.now) files.old
        → TakesByRemoval (table_in (sees pool.old map.old (D.shown disk.old) home.now) files.old) info.now.number stamp count) }
    ensures leaves { LeavesTable K.told (HasWellTable (sees pool.old map.old (D.shown disk.old) home.now) files.old) (sees pool.old map.old (D.shown disk.old) home.now) (sees pool.old map.new (D.shown disk.old) home.now) files.old files.new stamp result }
    ensures maps { GivesUp map.old map.new }
    ensures reads { Reads (D.shown disk.old) pool.old (D.shown disk.new) pool.new }
    ensures told { K.told → IsTold (D.shown disk.new) pool.new map.new home.now.slot }
    ensures cause { BlockCause K.told (table_in (sees pool.old map.old (D.shown disk.old) home.now) files.old) (lent_for pool.old map.old (D.shown disk.old) 0 home.now 0) (D.shown disk.new).faults result }
{
    let mut steps: Steps<L> = Steps::open(blank);
    let mut blocks: VolumeDrops<'_, '_, '_, '_, K, D, L> = VolumeDrops {
        pool,
        disk,
        map,
        steps: &mut steps,
        home: *home,
        strays: 0,
        noted: Noted::NONE,
        of: PhantomData,
    };
    files.remove(&mut blocks, info, stamp)
}
