//! A table of which what changed is in memory.

ghost use Rattle.std.specs.Prelude.{◌≡◌, ◌≤◌, ℕ, Bool, Option, None};
ghost use Rattle.fv_codec.specs.Blocks.{IsPointer};
ghost use Rattle.fv_tables.specs.Spelled.{Under, hole};
ghost use Rattle.fv_tables.specs.Told.{standing_at};
ghost use Rattle.fv_tree.specs.Sources.{Use};
ghost use Rattle.fv_files.specs.Trees.{standing_in};
ghost use Rattle.fv_files.specs.Apart.{AreAlike, AreLed, stored_trees};
ghost use Rattle.fv_files.specs.Tables.{changed, loaded_trees, tree_in, AreReached, AreSound, IsStoredOn, IsStoredUnder};
ghost use Rattle.fv_files.specs.Pending.{pending_in};
ghost use Rattle.fv_files.specs.Altering.{AreLaid};

use crate::held::HeldTrees;
use fv_codec::Pointer;
use fv_disk::BlockFault;
use fv_inode::InodeFile;
use std::alloc::Global;

/// Why a call on a table failed.
pub type FilesFault = BlockFault;

/// The active table of a volume: its inode file, and the trees of those files that changed since the last flush, by number.
/// The tree of any other file is that to which its record leads. While a file's tree is in memory, its record's levels and
/// root are those of its last flush.
#[derive(Drop)]
pub struct Files {
    pub(crate) inode: InodeFile,
    pub(crate) trees: HeldTrees,
    pub(crate) alloc: Global,
}

impl Files {
    /// A table without a file. Takes no memory before a file comes.
    pub fn new(alloc: Global) -> Files
        ensures stored { (blocks : Under) → standing_in blocks (changed result) ≡ standing_at blocks 0 hole }
        ensures none { (n : ℕ) → tree_in result n ≡ None }
        ensures well { (known : Bool) (blocks : Under) → IsStoredOn known blocks result }
        ensures laid { (blocks : Under) → AreLaid blocks result }
        ensures pending { pending_in result ≡ 0 }
    {
        Files {
            inode: InodeFile::new(alloc),
            trees: HeldTrees::new(alloc),
            alloc,
        }
    }

    /// The table whose inode file has so many levels, at most 2, and this root. Reads nothing and takes no memory.
    pub fn at(alloc: Global, levels: u8, root: Pointer) -> Files
        requires levels { levels ≤ 2 }
        requires root { IsPointer root }
        ensures stored { (blocks : Under) → standing_in blocks (changed result) ≡ standing_at blocks levels root }
        ensures none { (n : ℕ) → tree_in result n ≡ None }
        ensures stands { (blocks : Under) (used : ℕ → Option Use) → AreReached blocks used levels root → AreSound blocks used result }
        ensures alike { (blocks : Under) → AreAlike (loaded_trees blocks result) (stored_trees blocks levels root) }
        ensures led { (blocks : Under) (used : ℕ → Option Use) → AreLed used (stored_trees blocks levels root) → AreLed used (loaded_trees blocks result) }
        ensures well { (known : Bool) (blocks : Under) → IsStoredUnder known blocks levels root → IsStoredOn known blocks result }
        ensures laid { (blocks : Under) → AreLaid blocks result }
        ensures pending { pending_in result ≡ 0 }
    {
        Files {
            inode: InodeFile::at(alloc, levels, root),
            trees: HeldTrees::new(alloc),
            alloc,
        }
    }

    /// How many levels of nodes the inode file has.
    pub fn levels(&self) -> u8
        ensures { result ≡ self.now.inode.tree.levels }
    {
        self.inode.levels()
    }
}
