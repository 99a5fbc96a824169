//! What changes of the table of one volume take and what of that stays charged, over what a session lends. These calls only load.

ghost use Rattle.std.specs.Prelude.{◌≡◌, ◌≤◌, ◌<◌, IfOk};
ghost use Rattle.fv_files.specs.Right.{HasRightTrees};
ghost use Rattle.fv_tree.specs.Standing.{under};
ghost use Rattle.fv_tree.specs.Taking.{AreBelow};
ghost use Rattle.fv_inode.specs.Files.{rooted, IsInfo};
ghost use Rattle.fv_files.specs.Sharing.{staying_by_new, staying_by_put};
ghost use Rattle.fv_files.specs.Tables.{loaded_trees, table_in, IsInfoOf};
ghost use Rattle.fv_files.specs.Taking.{CutTakes, RemovalTakes};
ghost use Rattle.fv_volmap.specs.Slots.{is_elsewhere};
ghost use Rattle.fv_pool.specs.Calls.{BlockCause, Reads};
ghost use Rattle.fv_pool.specs.Lending.{CanLend, IsLedger, IsTold, lent_for, sees};

use crate::blocks::Home;
use crate::pool::Pool;
use crate::volume_blocks::{Guard, VolumeBlocks, lend_blocks};
use fv_container::Steps;
use fv_disk::{BlockFault, Disk};
use fv_files::Files;
use fv_inode::Info;
use fv_tree::Taken;
use fv_volmap::VolMap;
use std::sync::ledger::{Blank, Ledger};

/// How many blocks that a write of a cell of the file of which this is known replaces stay charged, at most 8.
///
/// Its faults and its cost are those of `Files::staying`, over the blocks of the volume.
#[tactic(auto, using(crate::proofs::CallCauses::lent_reads, crate::proofs::CallCauses::lent_map, crate::proofs::TableCauses::lent_table))]
pub fn staying_told<K: Guard, D: Disk, L: Ledger>(
    files: &mut Files,
    pool: &mut Pool,
    disk: &mut D,
    map: &mut VolMap,
    home: &Home,
    blank: Blank,
    info: &Info,
    index: u32,
) -> Result<u32, BlockFault>
    requires blank { IsLedger blank.name blank.parts L.name L.parts }
    requires lent { CanLend pool.old map.old (D.shown disk.old) home.now.slot }
    requires told { K.told → IsTold (D.shown disk.old) pool.old map.old home.now.slot }
    requires right { K.told → HasRightTrees (sees pool.old map.old (D.shown disk.old) home.now) files.old }
    requires range { IsInfo info.now }
    requires there { K.told → IsInfoOf (rooted (sees pool.old map.old (D.shown disk.old) home.now) files.old.inode) info.now }
    ensures staying { K.told → IfOk result (λ count. count ≡ staying_by_put (loaded_trees (under (sees pool.old map.old (D.shown disk.old) home.now)) files.old) (is_elsewhere map.old) info.now.number index) }
    ensures few { IfOk result (λ count. count ≤ 8) }
    ensures files { files.new ≡ files.old }
    ensures map { map.new ≡ map.old }
    ensures reads { Reads (D.shown disk.old) pool.old (D.shown disk.new) pool.new }
    ensures cause { BlockCause K.told (table_in (sees pool.old map.old (D.shown disk.old) home.now) files.old) (lent_for pool.old map.old (D.shown disk.old) 0 home.now 0) (D.shown disk.new).faults result }
{
    let mut steps: Steps<L> = Steps::open(blank);
    let mut blocks: VolumeBlocks<'_, '_, '_, '_, K, D, L> = lend_blocks!(
        pool, disk, map, &mut steps, home
    );
    files.staying(&mut blocks, info, index)
}

/// How many blocks that a new file under a number replaces stay charged, at most 4.
///
/// Its faults and its cost are those of `Files::staying_by_new`, over the blocks of the volume.
#[tactic(auto, using(crate::proofs::CallCauses::lent_reads, crate::proofs::CallCauses::lent_map, crate::proofs::TableCauses::lent_inodes))]
pub fn staying_new_told<K: Guard, D: Disk, L: Ledger>(
    files: &mut Files,
    pool: &mut Pool,
    disk: &mut D,
    map: &mut VolMap,
    home: &Home,
    blank: Blank,
    number: u32,
) -> Result<u32, BlockFault>
    requires blank { IsLedger blank.name blank.parts L.name L.parts }
    requires lent { CanLend pool.old map.old (D.shown disk.old) home.now.slot }
    requires told { K.told → IsTold (D.shown disk.old) pool.old map.old home.now.slot }
    requires right { K.told → HasRightTrees (sees pool.old map.old (D.shown disk.old) home.now) files.old }
    ensures staying { K.told → IfOk result (λ count. count ≡ staying_by_new (loaded_trees (under (sees pool.old map.old (D.shown disk.old) home.now)) files.old) (is_elsewhere map.old) number) }
    ensures few { IfOk result (λ count. count ≤ 4) }
    ensures files { files.new ≡ files.old }
    ensures map { map.new ≡ map.old }
    ensures reads { Reads (D.shown disk.old) pool.old (D.shown disk.new) pool.new }
    ensures cause { BlockCause K.told (table_in (sees pool.old map.old (D.shown disk.old) home.now) files.old) (lent_for pool.old map.old (D.shown disk.old) 0 home.now 0) (D.shown disk.new).faults result }
{
    let mut steps: Steps<L> = Steps::open(blank);
    let mut blocks: VolumeBlocks<'_, '_, '_, '_, K, D, L> = lend_blocks!(
        pool, disk, map, &mut steps, home
    );
    files.staying_by_new(&mut blocks, number)
}

/// What a cut of the file of which this is known takes, and what of that stays charged.
///
/// Its faults and its cost are those of `Files::taken_by_cut`, over the blocks of the volume.
#[tactic(auto, using(crate::proofs::CallCauses::lent_reads, crate::proofs::CallCauses::lent_map, crate::proofs::TableCauses::lent_table))]
pub fn taken_cut_told<K: Guard, D: Disk, L: Ledger>(
    files: &mut Files,
    pool: &mut Pool,
    disk: &mut D,
    map: &mut VolMap,
    home: &Home,
    blank: Blank,
    info: &Info,
    length: u32,
) -> Result<Taken, BlockFault>
    requires blank { IsLedger blank.name blank.parts L.name L.parts }
    requires lent { CanLend pool.old map.old (D.shown disk.old) home.now.slot }
    requires told { K.told → IsTold (D.shown disk.old) pool.old map.old home.now.slot }
    requires right { K.told → HasRightTrees (sees pool.old map.old (D.shown disk.old) home.now) files.old }
    requires range { IsInfo info.now }
    requires there { K.told → IsInfoOf (rooted (sees pool.old map.old (D.shown disk.old) home.now) files.old.inode) info.now }
    ensures taken { K.told → IfOk result (CutTakes (table_in (sees pool.old map.old (D.shown disk.old) home.now) files.old) (loaded_trees (under (sees pool.old map.old (D.shown disk.old) home.now)) files.old) (is_elsewhere map.old) info.now.number length) }
    ensures few { IfOk result (AreBelow 8388608) }
    ensures files { files.new ≡ files.old }
    ensures map { map.new ≡ map.old }
    ensures reads { Reads (D.shown disk.old) pool.old (D.shown disk.new) pool.new }
    ensures cause { BlockCause K.told (table_in (sees pool.old map.old (D.shown disk.old) home.now) files.old) (lent_for pool.old map.old (D.shown disk.old) 0 home.now 0) (D.shown disk.new).faults result }
{
    let mut steps: Steps<L> = Steps::open(blank);
    let mut blocks: VolumeBlocks<'_, '_, '_, '_, K, D, L> = lend_blocks!(
        pool, disk, map, &mut steps, home
    );
    files.taken_by_cut(&mut blocks, info, length)
}

/// What the removal of the file of which this is known takes, and what of that stays charged.
///
/// Its faults and its cost are those of `Files::taken_by_removal`, over the blocks of the volume.
#[tactic(auto, using(crate::proofs::CallCauses::lent_reads, crate::proofs::CallCauses::lent_map, crate::proofs::TableCauses::lent_table))]
pub fn taken_removal_told<K: Guard, D: Disk, L: Ledger>(
    files: &mut Files,
    pool: &mut Pool,
    disk: &mut D,
    map: &mut VolMap,
    home: &Home,
    blank: Blank,
    info: &Info,
) -> Result<Taken, BlockFault>
    requires blank { IsLedger blank.name blank.parts L.name L.parts }
    requires lent { CanLend pool.old map.old (D.shown disk.old) home.now.slot }
    requires told { K.told → IsTold (D.shown disk.old) pool.old map.old home.now.slot }
    requires right { K.told → HasRightTrees (sees pool.old map.old (D.shown disk.old) home.now) files.old }
    requires range { IsInfo info.now }
    requires there { K.told → IsInfoOf (rooted (sees pool.old map.old (D.shown disk.old) home.now) files.old.inode) info.now }
    ensures taken { K.told → IfOk result (RemovalTakes (table_in (sees pool.old map.old (D.shown disk.old) home.now) files.old) (loaded_trees (under (sees pool.old map.old (D.shown disk.old) home.now)) files.old) (is_elsewhere map.old) info.now.number) }
    ensures few { IfOk result (AreBelow 8388608) }
    ensures files { files.new ≡ files.old }
    ensures map { map.new ≡ map.old }
    ensures reads { Reads (D.shown disk.old) pool.old (D.shown disk.new) pool.new }
    ensures cause { BlockCause K.told (table_in (sees pool.old map.old (D.shown disk.old) home.now) files.old) (lent_for pool.old map.old (D.shown disk.old) 0 home.now 0) (D.shown disk.new).faults result }
{
    let mut steps: Steps<L> = Steps::open(blank);
    let mut blocks: VolumeBlocks<'_, '_, '_, '_, K, D, L> = lend_blocks!(
        pool, disk, map, &mut steps, home
    );
    files.taken_by_removal(&mut blocks, info)
}
