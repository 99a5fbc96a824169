//! What a cut and a removal take of a table, before they are made.

ghost use Rattle.std.specs.Prelude.{◌≡◌, ◌<◌, ◌≤◌, Some, IfOk, nat_le};
ghost use Rattle.fv_files.specs.Right.{HasRightFile, HasRightTrees};
ghost use Rattle.fv_tree.specs.Calls.{LoadsFrom};
ghost use Rattle.fv_tree.specs.Standing.{under, Fails};
ghost use Rattle.fv_tree.specs.Erasing.{HoldsCells};
ghost use Rattle.fv_tree.specs.Taking.{gone_with, AreBelow};
ghost use Rattle.fv_inode.specs.Files.{rooted, IsInfo};
ghost use Rattle.fv_files.specs.Tables.{loaded_trees, table_in, tree_known, IsInfoOf, IsKnown};
ghost use Rattle.fv_files.specs.Failing.{Looks};
ghost use Rattle.fv_files.specs.Taking.{staying_where, CutTakes, RemovalTakes};

use crate::files::{Files, FilesFault};
use crate::hold::{of_known, stored_tree};
use fv_inode::Info;
use fv_tree::{Sharing, Taken};

impl Files {
    /// What a cut of the file of which this is known to a length, in blocks, takes of a well-formed table: how many cells and marks of
    /// the file go, and how many blocks stay charged, those that are shared over its cells from the length on and over its inode block.
    /// So a cut needs as many blocks more as the second number passes the first by. It keeps nothing in memory, and loads at most what
    /// `Tree::taken` loads and the nodes over the inode block.
    ///
    /// # Errors
    ///
    /// As `Tree::taken`.
    pub fn taken_by_cut<B: Sharing>(
        &self,
        blocks: &mut B,
        info: &Info,
        length: u32,
    ) -> Result<Taken, FilesFault>
        requires range { IsInfo info.now }
        requires there { B.told → IsInfoOf (rooted (B.shown blocks.old) self.now.inode) info.now }
        requires right { B.told → HasRightTrees (B.shown blocks.old) self.now }
        ensures taken { B.told → IfOk result (CutTakes (table_in (B.shown blocks.old) self.now) (loaded_trees (under (B.shown blocks.old)) self.now) (B.shared blocks.old) info.now.number length) }
        ensures few { IfOk result (AreBelow 4194312) }
        ensures looks { Looks B.told (table_in (B.shown blocks.old) self.now) (B.shown blocks.old) (B.shown blocks.new) result }
        ensures reads { B.reads blocks.old blocks.new }
    {
        let tree = taken_tree(self, blocks, info, length)?;
        let inode = self.inode.staying(blocks, info.number)?;
        Ok(Taken {
            gone: tree.gone,
            staying: tree.staying + inode,
        })
    }

    /// What the removal of the file of which this is known takes of a well-formed table: how many cells and marks go, all of the file's
    /// and those of the inode file that no other file needs; and how many blocks stay charged, those that are shared of its tree and
    /// over its inode block. So a removal needs as many blocks more as the second number passes the first by. It keeps nothing in
    /// memory, and loads each node of the file's tree that isn't there once, and at most what `InodeFile::taken` loads.
    ///
    /// # Errors
    ///
    /// As `Tree::taken` and `InodeFile::taken`.
    pub fn taken_by_removal<B: Sharing>(
        &self,
        blocks: &mut B,
        info: &Info,
    ) -> Result<Taken, FilesFault>
        requires range { IsInfo info.now }
        requires there { B.told → IsInfoOf (rooted (B.shown blocks.old) self.now.inode) info.now }
        requires right { B.told → HasRightTrees (B.shown blocks.old) self.now }
        ensures taken { B.told → IfOk result (RemovalTakes (table_in (B.shown blocks.old) self.now) (loaded_trees (under (B.shown blocks.old)) self.now) (B.shared blocks.old) info.now.number) }
        ensures few { IfOk result (AreBelow 8388608) }
        ensures looks { Looks B.told (table_in (B.shown blocks.old) self.now) (B.shown blocks.old) (B.shown blocks.new) result }
        ensures reads { B.reads blocks.old blocks.new }
    {
        let tree = taken_tree(self, blocks, info, 0)?;
        let inode = self.inode.taken(blocks, info.number)?;
        Ok(Taken {
            gone: tree.gone + inode.gone,
            staying: tree.staying + inode.staying,
        })
    }
}

/// What goes of a file's tree with its cells from a length on, by its pointers.
fn taken_tree<B: Sharing>(
    files: &Files,
    blocks: &mut B,
    info: &Info,
    length: u32,
) -> Result<Taken, FilesFault>
    requires known { IsKnown B.told (B.shown blocks.old) files.now info.now }
    requires right { B.told → HasRightFile (B.shown blocks.old) files.now info.now }
    ensures gone { B.told → HoldsCells (tree_known (table_in (B.shown blocks.old) files.now) info.now) → IfOk result (λ taken. taken.gone ≡ gone_with (tree_known (table_in (B.shown blocks.old) files.now) info.now) (nat_le length)) }
    ensures staying { B.told → HoldsCells (tree_known (table_in (B.shown blocks.old) files.now) info.now)
        → IfOk result (λ taken. taken.staying ≡ staying_where (loaded_trees (under (B.shown blocks.old)) files.now (Some info.now.number)) (B.shared blocks.old) (nat_le length)) }
    ensures few { IfOk result (AreBelow 4194304) }
    ensures loads { LoadsFrom (B.reads blocks.old blocks.new) (Fails B.told (tree_known (table_in (B.shown blocks.old) files.now) info.now) (B.shown blocks.old) (B.shown blocks.new)) (B.shown blocks.old) (B.shown blocks.new) result }
{
    of_known!(files, info, |tree| tree.taken(blocks, length))
}
