//! The tables of a volume that a command can ask, and what is read of each.
//!
//! The active table may have trees in memory. Of a snapshot's table nothing is, and the numbers of files in memory aren't its.

ghost use Rattle.std.specs.Prelude.{◌≡◌, ◌≤◌, ◌+◌, IfOk, OnOk, None, is_some, option_copied};
ghost use Rattle.std.specs.FinMap as fin;
ghost use Rattle.fv_inode.specs.Files.{Finds, IsInfo, IsInfoIf};
ghost use Rattle.fv_inode.specs.Listing.{names_told};
ghost use Rattle.fv_files.specs.Calls.{GivesCell};
ghost use Rattle.fv_files.specs.Tables.{changed, IsInfoOf};
ghost use Rattle.fv_files.specs.Trees.{standing_in};
ghost use Rattle.fv_codec.specs.Blocks.{IsPointer};
ghost use Rattle.fv_tables.specs.Spelled.{Under};
ghost use Rattle.fv_volume.specs.Asking.{closed, numbers_asked, root_asked, standing_of, standing_opened, table_named, trees_of, IsTableOf, OpensAs, ReadsAsked, TellsAsked};
ghost use Rattle.fv_pool.specs.Calls.{BlockCause, Reads};
ghost use Rattle.fv_pool.specs.Lending.{lent_for};
ghost use Rattle.fv_volume.specs.OneVolume.{home_in, IsReady, IsStanding};
ghost use Rattle.fv_volume.specs.Paths.{unknown_over};

use crate::active::lend_table;
use crate::state::VolumeState;
use fv_container::Steps;
use fv_disk::{Block, BlockFault, Disk};
use fv_files::{FileNumbers, Files};
use fv_inode::Info;
use fv_model::{Name, Names};
use fv_pool::{Home, Pool, Rooted, cell_told, find_told, kept_table, list_told, take_table};
use std::alloc::Global;
use std::marker::Brand;
use std::sync::ledger::Ledger;

/// A table of a volume that a command asks.
#[derive(Clone, Copy, Debug)]
pub enum TableAsked {
    /// The active one.
    Active,
    /// That of a snapshot, under this root.
    Kept(Rooted),
}

/// The table that a command asks; `None` exactly where it names a snapshot that the volume doesn't have. Costs a step for each
/// snapshot, and takes no memory.
pub(crate) fn table_asked(volume: &VolumeState, snapshot: Option<&Name>) -> Option<TableAsked>
    ensures { result ≡ table_named volume.entry.now (option_copied snapshot.entry) }
{
    match snapshot {
        None => Some(TableAsked::Active),
        Some(name) => match volume.snapshots.named(name) {
            None => None,
            Some(snap) => Some(TableAsked::Kept(snap.table)),
        },
    }
}

/// Takes the table that a command asks out of a volume, with all of it that is in memory: the active one by what the volume has in memory and
/// by its root, that of a snapshot by its root alone.
pub(crate) fn open_table(
    files: &mut Option<Files>,
    active: &Rooted,
    table: &TableAsked,
    alloc: Global,
) -> Files
    requires levels { (root_asked active.now table.now).levels ≤ 2 }
    requires root { IsPointer (root_asked active.now table.now).root }
    ensures table { (blocks : Under) → standing_in blocks (changed result) ≡ standing_opened blocks active.now files.old table.now }
    ensures opens { OpensAs active.now files.old result table.now }
    ensures again { closed table.now (is_some files.old) result files.new ≡ files.old }
{
    match table {
        TableAsked::Active => take_table(files, active, alloc),
        TableAsked::Kept(root) => Files::at(alloc, root.levels, root.root),
    }
}

/// Puts a table back that was opened: the active one where it was in memory.
pub(crate) fn close_table(files: &mut Option<Files>, held: bool, table: &TableAsked, opened: Files)
    ensures { files.new ≡ closed table.now held opened files.old }
{
    match table {
        TableAsked::Active => *files = kept_table(held, opened),
        TableAsked::Kept(_) => {}
    }
}

/// The numbers of files in memory, where they are those of the table that is asked: those of the active one.
fn numbers_for<'a>(
    table: &TableAsked,
    numbers: &'a Option<FileNumbers>,
    none: &'a Option<FileNumbers>,
) -> &'a Option<FileNumbers>
    requires none { none.now ≡ None }
    ensures { result.now ≡ numbers_asked table.now numbers.now }
{
    match table {
        TableAsked::Active => numbers,
        TableAsked::Kept(_) => none,
    }
}

/// What a call of the table that a command asks answers over the volume's blocks: opens the table, makes the call, and closes it.
macro_rules! over_asked {
    ($volume:ident, $alloc:ident, $table:ident, |$files:ident| $call:expr) => {{
        let held = $volume.files.is_some();
        let mut $files = open_table(&mut $volume.files, &$volume.active, $table, $alloc);
        let answer = $call;
        close_table(&mut $volume.files, held, $table, $files);
        answer
    }};
}

/// What is known of the file of a name in a table; `None` exactly where no file of it has the name.
#[tactic(auto, using(crate::proofs::KeptReads::asked_levels_fit, crate::proofs::KeptReads::asked_root_fits))]
pub(crate) fn find_in<D: Disk>(
    volume: &mut VolumeState,
    alloc: Global,
    pool: &mut Pool,
    disk: &mut D,
    table: &TableAsked,
    name: &Name,
) -> Result<Option<Info>, BlockFault>
    requires ready { IsReady (D.shown disk.old) pool.old volume.old }
    requires of { IsTableOf volume.old table.now }
    ensures found { TellsAsked (D.shown disk.old) pool.old volume.old table.now → IfOk result (Finds (standing_of (D.shown disk.old) pool.old volume.old table.now).inode name.now) }
    ensures range { IfOk result IsInfoIf }
    ensures same { volume.new ≡ volume.old }
    ensures reads { Reads (D.shown disk.old) pool.old (D.shown disk.new) pool.new }
    ensures cause { BlockCause (TellsAsked (D.shown disk.old) pool.old volume.old table.now) (standing_of (D.shown disk.old) pool.old volume.old table.now)
        (lent_for pool.old volume.old.map (D.shown disk.old) 0 (home_in volume.old) 0) (D.shown disk.new).faults result }
{
    let none = None;
    over_asked!(
        volume,
        alloc,
        table,
        |files| lend_table!(
            files,
            volume,
            |pool, disk| find_told(numbers_for(table, &volume.numbers, &none), name)
        )
    )
}

/// The names of all files of a table.
#[tactic(auto, using(crate::proofs::KeptReads::asked_levels_fit, crate::proofs::KeptReads::asked_root_fits))]
pub(crate) fn list_in<D: Disk>(
    volume: &mut VolumeState,
    alloc: Global,
    pool: &mut Pool,
    disk: &mut D,
    table: &TableAsked,
) -> Result<Names, BlockFault>
    requires ready { IsReady (D.shown disk.old) pool.old volume.old }
    requires of { IsTableOf volume.old table.now }
    ensures names { IsStanding (D.shown disk.old) pool.old volume.old → IfOk result (λ names. names ≡ fin.keys (names_told (standing_of (D.shown disk.old) pool.old volume.old table.now).inode)) }
    ensures same { volume.new ≡ volume.old }
    ensures reads { Reads (D.shown disk.old) pool.old (D.shown disk.new) pool.new }
    ensures cause { BlockCause (TellsAsked (D.shown disk.old) pool.old volume.old table.now) (standing_of (D.shown disk.old) pool.old volume.old table.now)
        (lent_for pool.old volume.old.map (D.shown disk.old) 0 (home_in volume.old) 0) (D.shown disk.new).faults result }
{
    over_asked!(
        volume,
        alloc,
        table,
        |files| lend_table!(files, volume, |pool, disk| list_told())
    )
}

/// A block of the file of which this is known in a table, or zeros, with the steps of the whole path to it.
#[tactic(auto, using(crate::proofs::KeptReads::asked_levels_fit, crate::proofs::KeptReads::asked_root_fits))]
pub(crate) fn read_in<D: Disk, L: Ledger>(
    volume: &mut VolumeState,
    alloc: Global,
    pool: &mut Pool,
    disk: &mut D,
    table: &TableAsked,
    info: &Info,
    index: u32,
    into: &mut Block,
    steps: &mut Steps<L>,
) -> Result<(), BlockFault>
    requires ready { IsReady (D.shown disk.old) pool.old volume.old }
    requires of { IsTableOf volume.old table.now }
    requires range { IsInfo info.now }
    requires there { TellsAsked (D.shown disk.old) pool.old volume.old table.now → IsInfoOf (standing_of (D.shown disk.old) pool.old volume.old table.now).inode info.now }
    ensures block { IsStanding (D.shown disk.old) pool.old volume.old → OnOk result (GivesCell (standing_of (D.shown disk.old) pool.old volume.old table.now) info.now.number index into.new) }
    ensures steps { IsStanding (D.shown disk.old) pool.old volume.old → OnOk result (steps.new ≡ steps.old + unknown_over (trees_of (D.shown disk.old) pool.old volume.old table.now) info.now.number index) }
    ensures same { volume.new ≡ volume.old }
    ensures reads { Reads (D.shown disk.old) pool.old (D.shown disk.new) pool.new }
    ensures cause { BlockCause (ReadsAsked (D.shown disk.old) pool.old volume.old table.now) (standing_of (D.shown disk.old) pool.old volume.old table.now)
        (lent_for pool.old volume.old.map (D.shown disk.old) steps.old (home_in volume.old) 0) (D.shown disk.new).faults result }
{
    let home = Home {
        slot: volume.slot,
        label: volume.label,
    };
    over_asked!(
        volume,
        alloc,
        table,
        |files| cell_told::<Brand, D, L>(
            &mut files,
            pool,
            disk,
            &mut volume.map,
            steps,
            &home,
            info,
            index,
            into,
        )
    )
}
