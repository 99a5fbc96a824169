//! Calls of a table in memory that meet their premises by a look.

ghost use Rattle.fv_tree.specs.Places.{TrustsAll};

use fv_files::{Files, FilesFault};
use fv_model::Name;
use fv_tree::{Blocks, Sharing, Taken};

/// The most cells that a file has.
const MOST_CELLS: u32 = 2_097_152;

/// Whether a call was made, which asks for its premises.
pub type Done = Result<bool, FilesFault>;

/// What is told of a file; `None` where there is no such file.
pub type Told<T> = Result<Option<T>, FilesFault>;

/// What is told of the file of a name.
macro_rules! told {
    ($table:ident, $blocks:ident, $name:ident, $info:ident => $told:expr) => {
        match $table.find($blocks, $name)? {
            None => Ok(None),
            Some($info) => Ok(Some($told)),
        }
    };
}

/// Makes a file under the least free number; false where none is free.
///
/// # Errors
///
/// As `Files::free_number` and `Files::create`.
#[tactic(auto, using(fv_tree::proofs::Right::trusted_tree, fv_files::proofs::Right::trusted_trees))]
pub fn make<B: Blocks>(
    table: &mut Files,
    blocks: &mut B,
    name: &Name,
    reserve: u32,
    stamp: u64,
) -> Done
    requires right { B.told → TrustsAll B.shown }
{
    if stamp == 0 || reserve > MOST_CELLS {
        return Ok(false);
    }
    match table.free_number(blocks)? {
        None => Ok(false),
        Some(number) => {
            table.create(blocks, number, name, reserve, stamp)?;
            Ok(true)
        }
    }
}

/// Writes a block of a file; false where there is no such file.
///
/// # Errors
///
/// As `Files::find` and `Files::write`.
#[tactic(auto, using(fv_files::proofs::Tables::first_info, fv_tree::proofs::Right::trusted_tree, fv_files::proofs::Right::trusted_trees))]
pub fn write<B: Blocks>(
    table: &mut Files,
    blocks: &mut B,
    name: &Name,
    index: u32,
    block: &[u8; 4096],
    stamp: u64,
) -> Done
    requires right { B.told → TrustsAll B.shown }
{
    if stamp == 0 || index >= MOST_CELLS {
        return Ok(false);
    }
    match table.find(blocks, name)? {
        None => Ok(false),
        Some(info) => {
            table.write(blocks, &info, index, block, stamp)?;
            Ok(true)
        }
    }
}

/// Reads a block of a file over blocks of which nothing is told; false where there is no such file.
///
/// # Errors
///
/// As `Files::find` and `Files::read`.
pub fn read<B: Blocks>(
    table: &mut Files,
    blocks: &mut B,
    name: &Name,
    index: u32,
    into: &mut [u8; 4096],
) -> Done
    requires untold { B.told → ⊥ }
{
    match table.find(blocks, name)? {
        None => Ok(false),
        Some(info) => {
            table.read(blocks, &info, index, into)?;
            Ok(true)
        }
    }
}

/// The length of a file; `None` where there is no such file.
///
/// # Errors
///
/// As `Files::find`.
#[tactic(auto, using(fv_tree::proofs::Right::trusted_tree, fv_files::proofs::Right::trusted_trees))]
pub fn length<B: Blocks>(table: &mut Files, blocks: &mut B, name: &Name) -> Told<u32>
    requires right { B.told → TrustsAll B.shown }
{
    told!(table, blocks, name, info => info.length)
}

/// How many shared blocks a write of a block of a file replaces; `None` where there is no such file.
///
/// # Errors
///
/// As `Files::find` and `Files::staying`.
#[tactic(auto, using(fv_files::proofs::Tables::first_info, fv_tree::proofs::Right::trusted_tree, fv_files::proofs::Right::trusted_trees))]
pub fn staying<B: Sharing>(table: &mut Files, blocks: &mut B, name: &Name, cell: u32) -> Told<u32>
    requires right { B.told → TrustsAll B.shown }
{
    told!(table, blocks, name, info => table.staying(blocks, &info, cell)?)
}

/// How many shared blocks the removal of a file replaces or lets go; `None` where there is no such file.
///
/// # Errors
///
/// As `Files::find` and `Files::staying_by_removal`.
#[tactic(auto, using(fv_files::proofs::Tables::first_info, fv_tree::proofs::Right::trusted_tree, fv_files::proofs::Right::trusted_trees))]
pub fn staying_by_removal<B: Sharing>(table: &mut Files, blocks: &mut B, name: &Name) -> Told<u32>
    requires right { B.told → TrustsAll B.shown }
{
    told!(table, blocks, name, info => table.staying_by_removal(blocks, &info)?)
}

/// What a cut of a file to a length takes; `None` where there is no such file.
///
/// # Errors
///
/// As `Files::find` and `Files::taken_by_cut`.
#[tactic(auto, using(fv_files::proofs::Tables::first_info, fv_tree::proofs::Right::trusted_tree, fv_files::proofs::Right::trusted_trees))]
pub fn taken_by_cut<B: Sharing>(
    table: &mut Files,
    blocks: &mut B,
    name: &Name,
    length: u32,
) -> Told<Taken>
    requires right { B.told → TrustsAll B.shown }
{
    told!(table, blocks, name, info => table.taken_by_cut(blocks, &info, length)?)
}

/// What the removal of a file takes; `None` where there is no such file.
///
/// # Errors
///
/// As `Files::find` and `Files::taken_by_removal`.
#[tactic(auto, using(fv_files::proofs::Tables::first_info, fv_tree::proofs::Right::trusted_tree, fv_files::proofs::Right::trusted_trees))]
pub fn taken_by_removal<B: Sharing>(table: &mut Files, blocks: &mut B, name: &Name) -> Told<Taken>
    requires right { B.told → TrustsAll B.shown }
{
    told!(table, blocks, name, info => table.taken_by_removal(blocks, &info)?)
}
