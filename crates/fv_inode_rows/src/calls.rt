//! Changes of files by their names.

ghost use Rattle.std.specs.Prelude.{◌≡◌};
ghost use Rattle.fv_tree.specs.Places.{TrustsAll};

use fv_codec::Pointer;
use fv_inode::{Info, InodeFault, InodeFile};
use fv_model::Name;
use fv_tree::Blocks;

/// The most cells that a file has.
const MOST_CELLS: u32 = 2_097_152;

/// The last VVBN and the last PVBN that there can be.
const LAST_PLACE: u64 = 1_048_575;

/// Makes a file under the least free number; `None` where none is free.
///
/// # Errors
///
/// As `InodeFile::free_number` and `InodeFile::create`.
#[tactic(auto, using(fv_tree::proofs::Right::trusted_tree))]
pub fn create<B: Blocks>(
    file: &mut InodeFile,
    blocks: &mut B,
    name: &Name,
    reserve: u32,
    stamp: u64,
) -> Result<Option<Info>, InodeFault>
    requires right { B.told → TrustsAll B.shown }
{
    if stamp == 0 || reserve > MOST_CELLS {
        return Ok(None);
    }
    match file.free_number(blocks)? {
        None => Ok(None),
        Some(number) => {
            let info = file.create(blocks, number, name, reserve, stamp)?;
            Ok(Some(info))
        }
    }
}

/// Gives the file of a name a length; false where there is none.
///
/// # Errors
///
/// As `InodeFile::change`.
#[tactic(auto, using(fv_tree::proofs::Right::trusted_tree))]
pub fn change<B: Blocks>(
    file: &mut InodeFile,
    blocks: &mut B,
    name: &Name,
    length: u32,
    stamp: u64,
) -> Result<bool, InodeFault>
    requires right { B.told → TrustsAll B.shown }
{
    if stamp == 0 || length > MOST_CELLS {
        return Ok(false);
    }
    match file.find(blocks, name)? {
        None => Ok(false),
        Some(info) => {
            file.change(blocks, &Info { length, ..info }, stamp)?;
            Ok(true)
        }
    }
}

/// Takes the file of a name away; false where there is none.
///
/// # Errors
///
/// As `InodeFile::remove`.
#[tactic(auto, using(fv_tree::proofs::Right::trusted_tree))]
pub fn remove<B: Blocks>(
    file: &mut InodeFile,
    blocks: &mut B,
    name: &Name,
    stamp: u64,
) -> Result<bool, InodeFault>
    requires right { B.told → TrustsAll B.shown }
{
    if stamp == 0 {
        return Ok(false);
    }
    match file.find(blocks, name)? {
        None => Ok(false),
        Some(info) => {
            file.remove(blocks, info.number, stamp)?;
            Ok(true)
        }
    }
}

/// Lets the record of the file of a name lead to another root, of a tree of so many levels; false where there is no
/// such file, or where the levels or the root aren't of the format.
///
/// # Errors
///
/// As `InodeFile::set_root`.
#[tactic(auto, using(fv_tree::proofs::Right::trusted_tree))]
pub fn set_root<B: Blocks>(
    file: &mut InodeFile,
    blocks: &mut B,
    name: &Name,
    levels: u8,
    root: Pointer,
) -> Result<bool, InodeFault>
    requires right { B.told → TrustsAll B.shown }
{
    if root.stamp == 0 || root.vvbn > LAST_PLACE || root.pvbn > LAST_PLACE || levels > 3 {
        return Ok(false);
    }
    match file.find(blocks, name)? {
        None => Ok(false),
        Some(info) => {
            file.set_root(blocks, info.number, levels, root)?;
            Ok(true)
        }
    }
}
