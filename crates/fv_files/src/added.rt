//! How many blocks a change of a table adds, before it is made.

ghost use Rattle.std.specs.Prelude.{◌≡◌, ◌≤◌, ◌<◌, IfOk};
ghost use Rattle.fv_model.specs.Numbers.{most_files};
ghost use Rattle.fv_files.specs.Right.{HasRightFile, HasRightTrees};
ghost use Rattle.fv_tree.specs.Places.{HasRightPlaces};
ghost use Rattle.fv_tree.specs.Counting.{added_at};
ghost use Rattle.fv_tree.specs.Calls.{LoadsFrom};
ghost use Rattle.fv_tree.specs.Standing.{Fails};
ghost use Rattle.fv_inode.specs.Files.{rooted, IsInfo};
ghost use Rattle.fv_inode.specs.Failing as inodes;
ghost use Rattle.fv_files.specs.Tables.{table_in, tree_known, IsInfoOf};
ghost use Rattle.fv_files.specs.Failing.{Looks};
ghost use Rattle.fv_files.specs.Calls.{AddsCell, AddsFile};

use crate::files::{Files, FilesFault};
use crate::hold::{of_known, stored_tree};
use fv_inode::Info;
use fv_tree::Blocks;

impl Files {
    /// How many cells and marks a write of block `index`, below 2,097,152, adds to the file of which this is known: at most 6.
    /// It keeps nothing in memory, and loads at most the nodes over the cell.
    ///
    /// # Errors
    ///
    /// As `Tree::added`.
    pub fn added<B: Blocks>(
        &self,
        blocks: &mut B,
        info: &Info,
        index: u32,
    ) -> Result<u32, FilesFault>
        requires index { index < 2097152 }
        requires range { IsInfo info.now }
        requires there { B.told → IsInfoOf (rooted (B.shown blocks.old) self.now.inode) info.now }
        requires right { B.told → HasRightTrees (B.shown blocks.old) self.now }
        ensures added { B.told → IfOk result (AddsCell (table_in (B.shown blocks.old) self.now) info.now.number index) }
        ensures few { IfOk result (λ count. count ≤ 6) }
        ensures looks { Looks B.told (table_in (B.shown blocks.old) self.now) (B.shown blocks.old) (B.shown blocks.new) result }
        ensures reads { B.reads blocks.old blocks.new }
    {
        added_cell(self, blocks, info, index)
    }

    /// How many cells and marks a new file under a number below 262,144 adds to the inode file: at most 6. It keeps nothing
    /// in memory, and loads at most the nodes over its inode cell.
    ///
    /// # Errors
    ///
    /// As `InodeFile::added`.
    pub fn added_by_new<B: Blocks>(&self, blocks: &mut B, number: u32) -> Result<u32, FilesFault>
        requires number { number < most_files }
        requires right { B.told → HasRightPlaces (B.shown blocks.old) self.now.inode.tree }
        ensures added { B.told → IfOk result (AddsFile (table_in (B.shown blocks.old) self.now) number) }
        ensures few { IfOk result (λ count. count ≤ 6) }
        ensures looks { inodes.Looks B.told (rooted (B.shown blocks.old) self.now.inode) (B.shown blocks.old) (B.shown blocks.new) result }
        ensures reads { B.reads blocks.old blocks.new }
    {
        self.inode.added(blocks, number)
    }
}

/// How many positions a write of a cell adds, by the pointers of the file's tree.
fn added_cell<B: Blocks>(
    files: &Files,
    blocks: &mut B,
    info: &Info,
    index: u32,
) -> Result<u32, FilesFault>
    requires index { index < 2097152 }
    requires range { IsInfo info.now }
    requires right { B.told → HasRightFile (B.shown blocks.old) files.now info.now }
    ensures added { B.told → IfOk result (λ count. count ≡ added_at (tree_known (table_in (B.shown blocks.old) files.now) info.now) index) }
    ensures few { IfOk result (λ count. count ≤ 6) }
    ensures loads { LoadsFrom (B.reads blocks.old blocks.new) (Fails B.told (tree_known (table_in (B.shown blocks.old) files.now) info.now) (B.shown blocks.old) (B.shown blocks.new)) (B.shown blocks.old) (B.shown blocks.new) result }
{
    of_known!(files, info, |tree| tree.added(blocks, index))
}
