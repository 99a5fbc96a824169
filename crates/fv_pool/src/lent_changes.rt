//! Changes of the table of one volume over what a session lends. They load blocks and place none.

ghost use Rattle.std.specs.Prelude.{◌≡◌, ◌≤◌, ◌<◌, IfOk, OnOk};
ghost use Rattle.fv_files.specs.Right.{HasRightTrees};
ghost use Rattle.fv_codec.specs.Blocks.{most_cells};
ghost use Rattle.fv_model.specs.Numbers.{most_files};
ghost use Rattle.fv_model.specs.Tables.{new};
ghost use Rattle.fv_tables.specs.Told.{table_told};
ghost use Rattle.fv_inode.specs.Files.{rooted, IsFreeNumber, IsInfo, IsLeastFree, IsNumberIf};
ghost use Rattle.fv_files.specs.Calls.{AddsCell, AddsFile, WritesCell};
ghost use Rattle.fv_files.specs.Tables.{table_in, AreStanding, IsInfoOf};
ghost use Rattle.fv_pool.specs.Calls.{BlockCause, LeavesTable, Reads};
ghost use Rattle.fv_pool.specs.Lending.{CanLend, IsLedger, IsTold, lent_for, sees};

use crate::blocks::Home;
use crate::pool::Pool;
use crate::volume_blocks::{Guard, VolumeBlocks, lend_blocks};
use fv_container::Steps;
use fv_disk::{Block, BlockFault, Disk};
use fv_files::Files;
use fv_inode::Info;
use fv_model::Name;
use fv_volmap::VolMap;
use std::sync::ledger::{Blank, Ledger};

/// How many positions a write of a cell adds to the file of which this is known, at most 6.
///
/// Its faults and its cost are those of `Files::added`, over the blocks of the volume.
#[tactic(auto, using(crate::proofs::CallCauses::lent_reads, crate::proofs::CallCauses::lent_map, crate::proofs::TableCauses::lent_table))]
pub fn added_told<K: Guard, D: Disk, L: Ledger>(
    files: &mut Files,
    pool: &mut Pool,
    disk: &mut D,
    map: &mut VolMap,
    home: &Home,
    blank: Blank,
    info: &Info,
    index: u32,
) -> Result<u32, BlockFault>
    requires blank { IsLedger blank.name blank.parts L.name L.parts }
    requires lent { CanLend pool.old map.old (D.shown disk.old) home.now.slot }
    requires told { K.told → IsTold (D.shown disk.old) pool.old map.old home.now.slot }
    requires right { K.told → HasRightTrees (sees pool.old map.old (D.shown disk.old) home.now) files.old }
    requires index { index < 2097152 }
    requires range { IsInfo info.now }
    requires there { K.told → IsInfoOf (rooted (sees pool.old map.old (D.shown disk.old) home.now) files.old.inode) info.now }
    ensures added { K.told → IfOk result (AddsCell (table_in (sees pool.old map.old (D.shown disk.old) home.now) files.old) info.now.number index) }
    ensures few { IfOk result (λ count. count ≤ 6) }
    ensures files { files.new ≡ files.old }
    ensures map { map.new ≡ map.old }
    ensures reads { Reads (D.shown disk.old) pool.old (D.shown disk.new) pool.new }
    ensures cause { BlockCause K.told (table_in (sees pool.old map.old (D.shown disk.old) home.now) files.old) (lent_for pool.old map.old (D.shown disk.old) 0 home.now 0) (D.shown disk.new).faults result }
{
    let mut steps: Steps<L> = Steps::open(blank);
    let mut blocks: VolumeBlocks<'_, '_, '_, '_, K, D, L> = lend_blocks!(
        pool, disk, map, &mut steps, home
    );
    files.added(&mut blocks, info, index)
}

/// Writes a cell of the file of which this is known.
///
/// Its faults and its cost are those of `Files::write`, over the blocks of the volume.
#[tactic(auto, using(crate::proofs::CallCauses::lent_reads, crate::proofs::CallCauses::lent_map, crate::proofs::TableCauses::lent_change))]
pub fn write_told<K: Guard, D: Disk, L: Ledger>(
    files: &mut Files,
    pool: &mut Pool,
    disk: &mut D,
    map: &mut VolMap,
    home: &Home,
    blank: Blank,
    info: &Info,
    index: u32,
    block: &Block,
    stamp: u64,
) -> Result<(), BlockFault>
    requires blank { IsLedger blank.name blank.parts L.name L.parts }
    requires lent { CanLend pool.old map.old (D.shown disk.old) home.now.slot }
    requires told { K.told → IsTold (D.shown disk.old) pool.old map.old home.now.slot }
    requires right { K.told → HasRightTrees (sees pool.old map.old (D.shown disk.old) home.now) files.old }
    requires index { index < 2097152 }
    requires stamp { 1 ≤ stamp }
    requires range { IsInfo info.now }
    requires there { K.told → IsInfoOf (rooted (sees pool.old map.old (D.shown disk.old) home.now) files.old.inode) info.now }
    ensures written { K.told → OnOk result (WritesCell (table_in (sees pool.old map.old (D.shown disk.old) home.now) files.old) (table_in (sees pool.old map.new (D.shown disk.old) home.now) files.new) info.now.number index stamp block.now) }
    ensures leaves { LeavesTable K.told (Unit {0}) (sees pool.old map.old (D.shown disk.old) home.now) (sees pool.old map.new (D.shown disk.old) home.now) files.old files.new stamp result }
    ensures map { map.new ≡ map.old }
    ensures reads { Reads (D.shown disk.old) pool.old (D.shown disk.new) pool.new }
    ensures cause { BlockCause K.told (table_in (sees pool.old map.old (D.shown disk.old) home.now) files.old) (lent_for pool.old map.old (D.shown disk.old) 0 home.now 0) (D.shown disk.new).faults result }
{
    let mut steps: Steps<L> = Steps::open(blank);
    let mut blocks: VolumeBlocks<'_, '_, '_, '_, K, D, L> = lend_blocks!(
        pool, disk, map, &mut steps, home
    );
    files.write(&mut blocks, info, index, block, stamp)
}

/// The least number that no file has; `None` where all below 262,144 are taken.
///
/// Its faults and its cost are those of `Files::free_number`, over the blocks of the volume.
#[tactic(auto, using(crate::proofs::CallCauses::lent_reads, crate::proofs::CallCauses::lent_map, crate::proofs::TableCauses::lent_inodes))]
pub fn number_told<K: Guard, D: Disk, L: Ledger>(
    files: &mut Files,
    pool: &mut Pool,
    disk: &mut D,
    map: &mut VolMap,
    home: &Home,
    blank: Blank,
) -> Result<Option<u32>, BlockFault>
    requires blank { IsLedger blank.name blank.parts L.name L.parts }
    requires lent { CanLend pool.old map.old (D.shown disk.old) home.now.slot }
    requires told { K.told → IsTold (D.shown disk.old) pool.old map.old home.now.slot }
    requires right { K.told → HasRightTrees (sees pool.old map.old (D.shown disk.old) home.now) files.old }
    ensures number { K.told → IfOk result (IsFreeNumber (rooted (sees pool.old map.old (D.shown disk.old) home.now) files.old.inode)) }
    ensures range { IfOk result IsNumberIf }
    ensures files { files.new ≡ files.old }
    ensures map { map.new ≡ map.old }
    ensures reads { Reads (D.shown disk.old) pool.old (D.shown disk.new) pool.new }
    ensures cause { BlockCause K.told (table_in (sees pool.old map.old (D.shown disk.old) home.now) files.old) (lent_for pool.old map.old (D.shown disk.old) 0 home.now 0) (D.shown disk.new).faults result }
{
    let mut steps: Steps<L> = Steps::open(blank);
    let mut blocks: VolumeBlocks<'_, '_, '_, '_, K, D, L> = lend_blocks!(
        pool, disk, map, &mut steps, home
    );
    files.free_number(&mut blocks)
}

/// How many positions of the inode file a file of this number adds, at most 6.
///
/// Its faults and its cost are those of `Files::added_by_new`, over the blocks of the volume.
#[tactic(auto, using(crate::proofs::CallCauses::lent_reads, crate::proofs::CallCauses::lent_map, crate::proofs::TableCauses::lent_inodes))]
pub fn room_told<K: Guard, D: Disk, L: Ledger>(
    files: &mut Files,
    pool: &mut Pool,
    disk: &mut D,
    map: &mut VolMap,
    home: &Home,
    blank: Blank,
    number: u32,
) -> Result<u32, BlockFault>
    requires blank { IsLedger blank.name blank.parts L.name L.parts }
    requires lent { CanLend pool.old map.old (D.shown disk.old) home.now.slot }
    requires told { K.told → IsTold (D.shown disk.old) pool.old map.old home.now.slot }
    requires right { K.told → HasRightTrees (sees pool.old map.old (D.shown disk.old) home.now) files.old }
    requires number { number < 262144 }
    ensures added { K.told → IfOk result (AddsFile (table_in (sees pool.old map.old (D.shown disk.old) home.now) files.old) number) }
    ensures few { IfOk result (λ count. count ≤ 6) }
    ensures files { files.new ≡ files.old }
    ensures map { map.new ≡ map.old }
    ensures reads { Reads (D.shown disk.old) pool.old (D.shown disk.new) pool.new }
    ensures cause { BlockCause K.told (table_in (sees pool.old map.old (D.shown disk.old) home.now) files.old) (lent_for pool.old map.old (D.shown disk.old) 0 home.now 0) (D.shown disk.new).faults result }
{
    let mut steps: Steps<L> = Steps::open(blank);
    let mut blocks: VolumeBlocks<'_, '_, '_, '_, K, D, L> = lend_blocks!(
        pool, disk, map, &mut steps, home
    );
    files.added_by_new(&mut blocks, number)
}

/// Makes a file of a name under a number, the least that is free.
///
/// Its faults and its cost are those of `Files::create`, over the blocks of the volume.
#[tactic(auto, using(crate::proofs::CallCauses::lent_reads, crate::proofs::CallCauses::lent_map, crate::proofs::TableCauses::lent_change))]
pub fn create_told<K: Guard, D: Disk, L: Ledger>(
    files: &mut Files,
    pool: &mut Pool,
    disk: &mut D,
    map: &mut VolMap,
    home: &Home,
    blank: Blank,
    number: u32,
    name: &Name,
    reserve: u32,
    stamp: u64,
) -> Result<(), BlockFault>
    requires blank { IsLedger blank.name blank.parts L.name L.parts }
    requires lent { CanLend pool.old map.old (D.shown disk.old) home.now.slot }
    requires told { K.told → IsTold (D.shown disk.old) pool.old map.old home.now.slot }
    requires right { K.told → HasRightTrees (sees pool.old map.old (D.shown disk.old) home.now) files.old }
    requires stamp { 1 ≤ stamp }
    requires reserve { reserve ≤ most_cells }
    requires number { number < most_files }
    requires free { K.told → IsLeastFree (rooted (sees pool.old map.old (D.shown disk.old) home.now) files.old.inode) number }
    ensures made { K.told → OnOk result (AreStanding (sees pool.old map.old (D.shown disk.old) home.now) files.old → table_told (table_in (sees pool.old map.new (D.shown disk.old) home.now) files.new) ≡ new (table_told (table_in (sees pool.old map.old (D.shown disk.old) home.now) files.old)) name.now reserve stamp) }
    ensures leaves { LeavesTable K.told (Unit {0}) (sees pool.old map.old (D.shown disk.old) home.now) (sees pool.old map.new (D.shown disk.old) home.now) files.old files.new stamp result }
    ensures map { map.new ≡ map.old }
    ensures reads { Reads (D.shown disk.old) pool.old (D.shown disk.new) pool.new }
    ensures cause { BlockCause K.told (table_in (sees pool.old map.old (D.shown disk.old) home.now) files.old) (lent_for pool.old map.old (D.shown disk.old) 0 home.now 0) (D.shown disk.new).faults result }
{
    let mut steps: Steps<L> = Steps::open(blank);
    let mut blocks: VolumeBlocks<'_, '_, '_, '_, K, D, L> = lend_blocks!(
        pool, disk, map, &mut steps, home
    );
    files.create(&mut blocks, number, name, reserve, stamp)
}
