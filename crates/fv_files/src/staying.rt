//! How many blocks that a change of a table replaces stay charged, before it is made.

ghost use Rattle.std.specs.Prelude.{◌≡◌, ◌≤◌, ◌<◌, Some, IfOk};
ghost use Rattle.fv_files.specs.Right.{HasRightFile, HasRightTrees};
ghost use Rattle.fv_tree.specs.Places.{HasRightPlaces};
ghost use Rattle.fv_tree.specs.Calls.{LoadsFrom};
ghost use Rattle.fv_tree.specs.Standing.{under, Fails};
ghost use Rattle.fv_inode.specs.Files.{rooted, IsInfo};
ghost use Rattle.fv_inode.specs.Failing as inodes;
ghost use Rattle.fv_files.specs.Tables.{loaded_trees, table_in, tree_known, IsInfoOf, IsKnown};
ghost use Rattle.fv_files.specs.Failing.{Looks};
ghost use Rattle.fv_files.specs.Sharing.{staying_in, staying_of, staying_by_put, staying_by_removal, staying_by_new};

use crate::files::{Files, FilesFault};
use crate::hold::{of_known, stored_tree};
use fv_inode::Info;
use fv_tree::Sharing;

impl Files {
    /// How many blocks that a write of block `index` of the file of which this is known replaces are shared, so that they stay
    /// charged: those over the file's block and over its inode block, as `Tree::staying` counts them, at most 8. It keeps nothing
    /// in memory, and loads at most the nodes over both.
    ///
    /// # Errors
    ///
    /// As `Tree::staying`.
    pub fn staying<B: Sharing>(
        &self,
        blocks: &mut B,
        info: &Info,
        index: u32,
    ) -> Result<u32, FilesFault>
        requires range { IsInfo info.now }
        requires there { B.told → IsInfoOf (rooted (B.shown blocks.old) self.now.inode) info.now }
        requires right { B.told → HasRightTrees (B.shown blocks.old) self.now }
        ensures staying { B.told → IfOk result (λ count. count ≡ staying_by_put (loaded_trees (under (B.shown blocks.old)) self.now) (B.shared blocks.old) info.now.number index) }
        ensures few { IfOk result (λ count. count ≤ 8) }
        ensures looks { Looks B.told (table_in (B.shown blocks.old) self.now) (B.shown blocks.old) (B.shown blocks.new) result }
        ensures reads { B.reads blocks.old blocks.new }
    {
        let cell = staying_cell(self, blocks, info, index)?;
        let inode = self.inode.staying(blocks, info.number)?;
        Ok(cell + inode)
    }

    /// How many blocks that the removal of the file of which this is known lets go or replaces are shared, so that they stay
    /// charged: all of its tree and those over its inode block, as `Tree::staying_all` and `Tree::staying` count them. It keeps
    /// nothing in memory, and loads each node of the file's tree that isn't there once, and at most the nodes over the inode block.
    ///
    /// # Errors
    ///
    /// As `Tree::staying`.
    pub fn staying_by_removal<B: Sharing>(
        &self,
        blocks: &mut B,
        info: &Info,
    ) -> Result<u32, FilesFault>
        requires range { IsInfo info.now }
        requires there { B.told → IsInfoOf (rooted (B.shown blocks.old) self.now.inode) info.now }
        requires right { B.told → HasRightTrees (B.shown blocks.old) self.now }
        ensures staying { B.told → IfOk result (λ count. count ≡ staying_by_removal (loaded_trees (under (B.shown blocks.old)) self.now) (B.shared blocks.old) info.now.number) }
        ensures few { IfOk result (λ count. count < 4194308) }
        ensures looks { Looks B.told (table_in (B.shown blocks.old) self.now) (B.shown blocks.old) (B.shown blocks.new) result }
        ensures reads { B.reads blocks.old blocks.new }
    {
        let tree = staying_tree(self, blocks, info)?;
        let inode = self.inode.staying(blocks, info.number)?;
        Ok(tree + inode)
    }

    /// How many blocks that a new file under a number replaces are shared, so that they stay charged: those over its inode
    /// block, as `Tree::staying` counts them, at most 4. It keeps nothing in memory, and loads at most the nodes over it.
    ///
    /// # Errors
    ///
    /// As `InodeFile::staying`.
    pub fn staying_by_new<B: Sharing>(&self, blocks: &mut B, number: u32) -> Result<u32, FilesFault>
        requires right { B.told → HasRightPlaces (B.shown blocks.old) self.now.inode.tree }
        ensures staying { B.told → IfOk result (λ count. count ≡ staying_by_new (loaded_trees (under (B.shown blocks.old)) self.now) (B.shared blocks.old) number) }
        ensures few { IfOk result (λ count. count ≤ 4) }
        ensures looks { inodes.Looks B.told (rooted (B.shown blocks.old) self.now.inode) (B.shown blocks.old) (B.shown blocks.new) result }
        ensures reads { B.reads blocks.old blocks.new }
    {
        self.inode.staying(blocks, number)
    }
}

/// How many blocks over a block of a file are shared, by the pointers of the file's tree.
fn staying_cell<B: Sharing>(
    files: &Files,
    blocks: &mut B,
    info: &Info,
    index: u32,
) -> Result<u32, FilesFault>
    requires known { IsKnown B.told (B.shown blocks.old) files.now info.now }
    requires right { B.told → HasRightFile (B.shown blocks.old) files.now info.now }
    ensures staying { B.told → IfOk result (λ count. count ≡ staying_in (loaded_trees (under (B.shown blocks.old)) files.now (Some info.now.number)) (B.shared blocks.old) index) }
    ensures few { IfOk result (λ count. count ≤ 4) }
    ensures loads { LoadsFrom (B.reads blocks.old blocks.new) (Fails B.told (tree_known (table_in (B.shown blocks.old) files.now) info.now) (B.shown blocks.old) (B.shown blocks.new)) (B.shown blocks.old) (B.shown blocks.new) result }
{
    of_known!(files, info, |tree| tree.staying(blocks, index))
}

/// How many blocks of a file's tree are shared, by its pointers.
fn staying_tree<B: Sharing>(files: &Files, blocks: &mut B, info: &Info) -> Result<u32, FilesFault>
    requires known { IsKnown B.told (B.shown blocks.old) files.now info.now }
    requires right { B.told → HasRightFile (B.shown blocks.old) files.now info.now }
    ensures staying { B.told → IfOk result (λ count. count ≡ staying_of (loaded_trees (under (B.shown blocks.old)) files.now (Some info.now.number)) (B.shared blocks.old)) }
    ensures few { IfOk result (λ count. count < 4194304) }
    ensures loads { LoadsFrom (B.reads blocks.old blocks.new) (Fails B.told (tree_known (table_in (B.shown blocks.old) files.now) info.now) (B.shown blocks.old) (B.shown blocks.new)) (B.shown blocks.old) (B.shown blocks.new) result }
{
    of_known!(files, info, |tree| tree.staying_all(blocks))
}
