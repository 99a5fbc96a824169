//! The table of one volume over what a session lends: each call of the table, over the volume's blocks.

ghost use Rattle.std.specs.Prelude.{◌≡◌, ◌≤◌, ◌+◌, ℕ, Bool, cond, IfOk, OnOk, IfSome, Option, Some, None};
ghost use Rattle.std.specs.FinMap as fin;
ghost use Rattle.fv_codec.specs.Blocks.{IsPointer};
ghost use Rattle.fv_laws.specs.WellFormed.{IsWellTable};
ghost use Rattle.fv_tables.specs.Spelled.{Under};
ghost use Rattle.fv_tables.specs.Told.{table_told};
ghost use Rattle.fv_files.specs.Right.{AreReadableTrees, HasRightTrees};
ghost use Rattle.fv_tree.specs.Sources.{Use};
ghost use Rattle.fv_tree.specs.Standing.{under};
ghost use Rattle.fv_inode.specs.Files.{rooted, Finds, IsInfo, IsInfoIf};
ghost use Rattle.fv_inode.specs.Listing.{names_told};
ghost use Rattle.fv_files.specs.Calls.{path_cost, GivesCell};
ghost use Rattle.fv_files.specs.Apart.{AreAlike, AreLed};
ghost use Rattle.fv_files.specs.Numbering.{AreNumbersIf, AreNumbersOf};
ghost use Rattle.fv_files.specs.Pending.{pending_in};
ghost use Rattle.fv_files.specs.Tables.{changed, loaded_trees, table_in, AreSound, IsInfoOf, IsStoredOn};
ghost use Rattle.fv_files.specs.Trees.{standing_in};
ghost use Rattle.fv_pool.specs.Calls.{BlockCause, Reads};
ghost use Rattle.fv_pool.specs.Lending.{CanLend, IsLedger, IsTold, lent_for, sees};
ghost use Rattle.fv_pool.specs.Tables.{standing_by, AreSoundBy, pending_of, AreLedBy, AreStoredBy, trees_by};

use crate::blocks::Home;
use crate::pool::Pool;
use crate::rooted::Rooted;
use crate::volume_blocks::{Guard, VolumeBlocks, lend_blocks};
use fv_container::Steps;
use fv_disk::{Block, BlockFault, Disk};
use fv_files::{FileNumbers, Files};
use fv_inode::Info;
use fv_model::{Name, Names};
use fv_volmap::VolMap;
use std::alloc::Global;
use std::sync::ledger::{Blank, Ledger};

/// Takes the table out of a volume. One that isn't in memory is the one under the active root.
///
/// Reads nothing and takes no memory.
pub fn take_table(files: &mut Option<Files>, active: &Rooted, alloc: Global) -> Files
    requires levels { active.now.levels ≤ 2 }
    requires root { IsPointer active.now.root }
    ensures table { (blocks : Under) → standing_in blocks (changed result) ≡ standing_by blocks active.now files.old }
    ensures trees { (blocks : Under) (used : ℕ → Option Use) → AreSoundBy blocks used active.now files.old → AreSound blocks used result }
    ensures alike { (blocks : Under) → AreAlike (loaded_trees blocks result) (trees_by blocks active.now files.old) }
    ensures led { (blocks : Under) (used : ℕ → Option Use) → AreLedBy blocks used active.now files.old → AreLed used (loaded_trees blocks result) }
    ensures well { (known : Bool) (blocks : Under) → AreStoredBy known blocks active.now files.old → IsStoredOn known blocks result }
    ensures pending { pending_in result ≡ pending_of files.old }
    ensures held { IfSome files.old (λ f. result ≡ f) }
    ensures left { files.new ≡ None }
{
    match files.take() {
        Some(table) => table,
        None => Files::at(alloc, active.levels, active.root),
    }
}

/// The table as a volume keeps it: only where it was in memory.
///
/// Costs one step.
pub fn kept_table(held: bool, files: Files) -> Option<Files>
    ensures { result ≡ cond held (Some files) None }
{
    if held { Some(files) } else { None }
}

/// What is known of the file of a name, by the numbers of files where these are in memory; `None` exactly where no file has it.
///
/// Its faults and its cost are those of `Files::find_by` and `Files::find`, over the blocks of the volume.
#[tactic(auto, using(crate::proofs::CallCauses::lent_reads, crate::proofs::CallCauses::lent_map, crate::proofs::TableCauses::lent_inodes))]
pub fn find_told<K: Guard, D: Disk, L: Ledger>(
    files: &mut Files,
    pool: &mut Pool,
    disk: &mut D,
    map: &mut VolMap,
    home: &Home,
    blank: Blank,
    numbers: &Option<FileNumbers>,
    name: &Name,
) -> Result<Option<Info>, BlockFault>
    requires blank { IsLedger blank.name blank.parts L.name L.parts }
    requires lent { CanLend pool.old map.old (D.shown disk.old) home.now.slot }
    requires told { K.told → IsTold (D.shown disk.old) pool.old map.old home.now.slot }
    requires right { K.told → HasRightTrees (sees pool.old map.old (D.shown disk.old) home.now) files.old }
    requires numbers { K.told → AreNumbersIf numbers.now (table_told (table_in (sees pool.old map.old (D.shown disk.old) home.now) files.old)) }
    ensures found { K.told → IfOk result (Finds (rooted (sees pool.old map.old (D.shown disk.old) home.now) files.old.inode) name.now) }
    ensures range { IfOk result IsInfoIf }
    ensures files { files.new ≡ files.old }
    ensures map { map.new ≡ map.old }
    ensures reads { Reads (D.shown disk.old) pool.old (D.shown disk.new) pool.new }
    ensures cause { BlockCause K.told (table_in (sees pool.old map.old (D.shown disk.old) home.now) files.old) (lent_for pool.old map.old (D.shown disk.old) 0 home.now 0) (D.shown disk.new).faults result }
{
    let mut steps: Steps<L> = Steps::open(blank);
    let mut blocks: VolumeBlocks<'_, '_, '_, '_, K, D, L> = lend_blocks!(
        pool, disk, map, &mut steps, home
    );
    match numbers {
        Some(numbers) => files.find_by(&mut blocks, numbers, name),
        None => files.find(&mut blocks, name),
    }
}

/// The numbers of all files by their names.
///
/// Its faults and its cost are those of `Files::numbers`, over the blocks of the volume.
#[tactic(auto, using(crate::proofs::CallCauses::lent_reads, crate::proofs::CallCauses::lent_map, crate::proofs::TableCauses::lent_inodes))]
pub fn numbers_told<K: Guard, D: Disk, L: Ledger>(
    files: &mut Files,
    pool: &mut Pool,
    disk: &mut D,
    map: &mut VolMap,
    home: &Home,
    blank: Blank,
) -> Result<FileNumbers, BlockFault>
    requires blank { IsLedger blank.name blank.parts L.name L.parts }
    requires lent { CanLend pool.old map.old (D.shown disk.old) home.now.slot }
    requires told { K.told → IsTold (D.shown disk.old) pool.old map.old home.now.slot }
    requires right { K.told → HasRightTrees (sees pool.old map.old (D.shown disk.old) home.now) files.old }
    ensures numbers { K.told → IfOk result (λ m. (now : ℕ) → IsWellTable now (table_told (table_in (sees pool.old map.old (D.shown disk.old) home.now) files.old))
        → AreNumbersOf m (table_told (table_in (sees pool.old map.old (D.shown disk.old) home.now) files.old))) }
    ensures files { files.new ≡ files.old }
    ensures map { map.new ≡ map.old }
    ensures reads { Reads (D.shown disk.old) pool.old (D.shown disk.new) pool.new }
    ensures cause { BlockCause K.told (table_in (sees pool.old map.old (D.shown disk.old) home.now) files.old) (lent_for pool.old map.old (D.shown disk.old) 0 home.now 0) (D.shown disk.new).faults result }
{
    let mut steps: Steps<L> = Steps::open(blank);
    let mut blocks: VolumeBlocks<'_, '_, '_, '_, K, D, L> = lend_blocks!(
        pool, disk, map, &mut steps, home
    );
    files.numbers(&mut blocks)
}

/// The names of all files, in byte order.
///
/// Its faults and its cost are those of `Files::list`, over the blocks of the volume.
#[tactic(auto, using(crate::proofs::CallCauses::lent_reads, crate::proofs::CallCauses::lent_map, crate::proofs::TableCauses::lent_inodes))]
pub fn list_told<K: Guard, D: Disk, L: Ledger>(
    files: &mut Files,
    pool: &mut Pool,
    disk: &mut D,
    map: &mut VolMap,
    home: &Home,
    blank: Blank,
) -> Result<Names, BlockFault>
    requires blank { IsLedger blank.name blank.parts L.name L.parts }
    requires lent { CanLend pool.old map.old (D.shown disk.old) home.now.slot }
    requires told { K.told → IsTold (D.shown disk.old) pool.old map.old home.now.slot }
    requires right { K.told → HasRightTrees (sees pool.old map.old (D.shown disk.old) home.now) files.old }
    ensures names { K.told → IfOk result (λ names. names ≡ fin.keys (names_told (rooted (sees pool.old map.old (D.shown disk.old) home.now) files.old.inode))) }
    ensures files { files.new ≡ files.old }
    ensures map { map.new ≡ map.old }
    ensures reads { Reads (D.shown disk.old) pool.old (D.shown disk.new) pool.new }
    ensures cause { BlockCause K.told (table_in (sees pool.old map.old (D.shown disk.old) home.now) files.old) (lent_for pool.old map.old (D.shown disk.old) 0 home.now 0) (D.shown disk.new).faults result }
{
    let mut steps: Steps<L> = Steps::open(blank);
    let mut blocks: VolumeBlocks<'_, '_, '_, '_, K, D, L> = lend_blocks!(
        pool, disk, map, &mut steps, home
    );
    files.list(&mut blocks)
}

/// A block of the file of which this is known, or zeros, with the steps of the whole path to it from the root of the table.
///
/// Its faults and its cost are those of `Files::read_by_path`, over the blocks of the volume.
#[tactic(auto, using(crate::proofs::CallCauses::lent_reads, crate::proofs::CallCauses::lent_map))]
pub fn cell_told<K: Guard, D: Disk, L: Ledger>(
    files: &mut Files,
    pool: &mut Pool,
    disk: &mut D,
    map: &mut VolMap,
    steps: &mut Steps<L>,
    home: &Home,
    info: &Info,
    index: u32,
    into: &mut Block,
) -> Result<(), BlockFault>
    requires lent { CanLend pool.old map.old (D.shown disk.old) home.now.slot }
    requires told { K.told → IsTold (D.shown disk.old) pool.old map.old home.now.slot }
    requires right { K.told → AreReadableTrees (sees pool.old map.old (D.shown disk.old) home.now) files.old }
    requires range { IsInfo info.now }
    requires there { K.told → IsInfoOf (rooted (sees pool.old map.old (D.shown disk.old) home.now) files.old.inode) info.now }
    ensures block { K.told → OnOk result (GivesCell (table_in (sees pool.old map.old (D.shown disk.old) home.now) files.old) info.now.number index into.new) }
    ensures steps { K.told → OnOk result (steps.new ≡ steps.old + path_cost (sees pool.old map.old (D.shown disk.old) home.now).cost (loaded_trees (under (sees pool.old map.old (D.shown disk.old) home.now)) files.old) info.now.number index) }
    ensures files { files.new ≡ files.old }
    ensures map { map.new ≡ map.old }
    ensures reads { Reads (D.shown disk.old) pool.old (D.shown disk.new) pool.new }
    ensures cause { BlockCause K.told (table_in (sees pool.old map.old (D.shown disk.old) home.now) files.old) (lent_for pool.old map.old (D.shown disk.old) steps.old home.now 0) (D.shown disk.new).faults result }
{
    let mut blocks: VolumeBlocks<'_, '_, '_, '_, K, D, L> = lend_blocks!(
        pool, disk, map, steps, home
    );
    files.read_by_path(&mut blocks, info, index, into)
}
