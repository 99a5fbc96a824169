//! Reading a block of a file.

ghost use Rattle.std.specs.Prelude.{◌≡◌, ◌+◌, ℕ, cond, replicate, Option, Some, None, IfOk, IfErr, OnOk};
ghost use Rattle.fv_tables.specs.Spelled.{Under, stored, block_at};
ghost use Rattle.fv_files.specs.Right.{known_loaded, AreReadableTrees, IsReadableFile};
ghost use Rattle.fv_tree.specs.Places.{IsReadable};
ghost use Rattle.fv_tree.specs.Sources.{Counts, IsUntouched, Use};
ghost use Rattle.fv_tree.specs.Standing.{standing, under, Fails};
ghost use Rattle.fv_tree.specs.Flushing.{loaded, loaded_over, IsSound, ReachesOnce};
ghost use Rattle.fv_tree.specs.Lookups.{way_cost};
ghost use Rattle.fv_inode.specs.Files.{rooted, IsInfo};
ghost use Rattle.fv_files.specs.Tables.{loaded_trees, table_in, tree_in, tree_known, IsInfoOf};
ghost use Rattle.fv_files.specs.Failing.{Looks};
ghost use Rattle.fv_files.specs.Calls.{path_cost, way_in, GivesCell};

use crate::files::{Files, FilesFault};
use crate::hold::stored_tree;
use fv_inode::Info;
use fv_tree::{Blocks, Tree};

impl Files {
    /// Block `index` of the file of which this is known; zeros for a hole and for a block past the file's length. It keeps
    /// nothing in memory, and loads exactly one block for each pointer from the root of the file's tree to the cell that isn't a
    /// hole, unless what it leads to changed in memory. So its look-ups are told by what lies on the disk.
    ///
    /// # Errors
    ///
    /// As `Tree::get`. Then the content of `into` is open.
    pub fn read<B: Blocks>(
        &self,
        blocks: &mut B,
        info: &Info,
        index: u32,
        into: &mut [u8; 4096],
    ) -> Result<(), FilesFault>
        requires range { IsInfo info.now }
        requires there { B.told → IsInfoOf (rooted (B.shown blocks.old) self.now.inode) info.now }
        requires right { B.told → AreReadableTrees (B.shown blocks.old) self.now }
        ensures block { B.told → OnOk result (GivesCell (table_in (B.shown blocks.old) self.now) info.now.number index into.new) }
        ensures spent { B.told → OnOk result ((B.shown blocks.new).spent ≡ (B.shown blocks.old).spent + way_in (B.shown blocks.old).cost (loaded_trees (under (B.shown blocks.old)) self.now (Some info.now.number)) index) }
        ensures looks { Looks B.told (table_in (B.shown blocks.old) self.now) (B.shown blocks.old) (B.shown blocks.new) result }
        ensures reads { B.reads blocks.old blocks.new }
    {
        if !read_cell(self, blocks, info, index, into)? {
            clear(into);
        }
        Ok(())
    }

    /// Block `index` of the file of which this is known, as `read` gives it, with the look-ups of the whole path to it: it follows the path
    /// from the root of the table to the record of the file first, and so loads the blocks that `look` does besides.
    ///
    /// # Errors
    ///
    /// As `look` and `read`. Then the content of `into` is open.
    pub fn read_by_path<B: Blocks>(
        &self,
        blocks: &mut B,
        info: &Info,
        index: u32,
        into: &mut [u8; 4096],
    ) -> Result<(), FilesFault>
        requires range { IsInfo info.now }
        requires there { B.told → IsInfoOf (rooted (B.shown blocks.old) self.now.inode) info.now }
        requires right { B.told → AreReadableTrees (B.shown blocks.old) self.now }
        ensures block { B.told → OnOk result (GivesCell (table_in (B.shown blocks.old) self.now) info.now.number index into.new) }
        ensures spent { B.told → OnOk result ((B.shown blocks.new).spent ≡ (B.shown blocks.old).spent + path_cost (B.shown blocks.old).cost (loaded_trees (under (B.shown blocks.old)) self.now) info.now.number index) }
        ensures looks { Looks B.told (table_in (B.shown blocks.old) self.now) (B.shown blocks.old) (B.shown blocks.new) result }
        ensures reads { B.reads blocks.old blocks.new }
    {
        self.look(blocks, info.number)?;
        self.read(blocks, info, index, into)?;
        Ok(())
    }
}

/// Zeros.
fn clear(into: &mut [u8; 4096])
    ensures { into.new ≡ replicate 4096 0 }
{
    *into = [0; 4096];
}

/// A cell of the file of which this is known; false for a hole.
fn read_cell<B: Blocks>(
    files: &Files,
    blocks: &mut B,
    info: &Info,
    index: u32,
    into: &mut [u8; 4096],
) -> Result<bool, FilesFault>
    requires range { IsInfo info.now }
    requires right { B.told → IsReadableFile (B.shown blocks.old) files.now info.now }
    ensures cell { B.told → IfOk result (λ there. block_at (tree_known (table_in (B.shown blocks.old) files.now) info.now) index ≡ cond there (Some into.new) None) }
    ensures spent { B.told → OnOk result ((B.shown blocks.new).spent ≡ (B.shown blocks.old).spent + way_cost (B.shown blocks.old).cost (known_loaded (under (B.shown blocks.old)) info.now (tree_in files.now info.now.number)) index) }
    ensures untouched { IsUntouched (B.shown blocks.old) (B.shown blocks.new) }
    ensures counts { Counts (B.shown blocks.old) (B.shown blocks.new) result }
    ensures cause { IfErr result (Fails B.told (tree_known (table_in (B.shown blocks.old) files.now) info.now) (B.shown blocks.old) (B.shown blocks.new)) }
    ensures reads { B.reads blocks.old blocks.new }
{
    match files.trees.get(info.number) {
        Some(tree) => read_tree(tree, blocks, index, into),
        None => {
            let tree = stored_tree(files.alloc, info);
            read_tree(&tree, blocks, index, into)
        }
    }
}

/// A cell of a tree; false for a hole.
fn read_tree<B: Blocks>(
    tree: &Tree,
    blocks: &mut B,
    index: u32,
    into: &mut [u8; 4096],
) -> Result<bool, FilesFault>
    requires right { B.told → IsReadable (B.shown blocks.old) tree.now }
    ensures cell { B.told → IfOk result (λ there. block_at (standing (under (B.shown blocks.old)) tree.now) index ≡ cond there (Some into.new) None) }
    ensures spent { B.told → OnOk result ((B.shown blocks.new).spent ≡ (B.shown blocks.old).spent + way_cost (B.shown blocks.old).cost (loaded (B.shown blocks.old) tree.now) index) }
    ensures untouched { IsUntouched (B.shown blocks.old) (B.shown blocks.new) }
    ensures counts { Counts (B.shown blocks.old) (B.shown blocks.new) result }
    ensures cause { IfErr result (Fails B.told (standing (under (B.shown blocks.old)) tree.now) (B.shown blocks.old) (B.shown blocks.new)) }
    ensures reads { B.reads blocks.old blocks.new }
{
    let place = tree.read(blocks, index, into)?;
    Ok(place.is_some())
}
