//! The roots of files, as a flush lays them into the inode blocks.

ghost use Rattle.std.specs.Prelude.{◌≡◌, ◌≤◌, ◌/◌, ◌+◌, true, false, is_some, IfErr, OnOk, OnErr};
ghost use Rattle.std.specs.List.{All};
ghost use Rattle.fv_codec.specs.Blocks.{all_free, IsInodeRecord, IsPointer};
ghost use Rattle.fv_tables.specs.Spelled.{block_at};
ghost use Rattle.fv_tables.specs.Told.{records_each, file_at};
ghost use Rattle.fv_tree.specs.Places.{HasRightPlaces};
ghost use Rattle.fv_tree.specs.Standing.{standing, under};
ghost use Rattle.fv_disk.specs.declared.fault.BlockFault.TheVariants.{Memory};
ghost use Rattle.fv_tree.specs.Readying.{IsReady};
ghost use Rattle.fv_tree.specs.Altering.{Leaves};
ghost use Rattle.fv_tree.specs.Flushing.{changed_of, loaded, Stands};
ghost use Rattle.fv_inode.specs.Readying.{IsReadyFile};
ghost use Rattle.fv_tree.specs.Costs.{pending, Rises};
ghost use Rattle.fv_inode.specs.Files.{rooted, with_root};
ghost use Rattle.fv_inode.specs.Failing.{OnlyLoads};
ghost use Rattle.fv_inode.specs.Changing.{FillsFiles, SetsRoot};

use crate::file::InodeFile;
use crate::info::InodeFault;
use crate::records::{EACH, read_files, spell};
use fv_codec::{InodeRecord, Pointer};
use fv_tree::{Blocks, Tree};

impl InodeFile {
    /// Lets the record of a file lead to another root, of a tree of so many levels, at most 3: what a flush does once
    /// it placed the file's tree. A number that has no file changes nothing. The file's name, length and reserve stay, and
    /// so do all other records, the levels of the inode file and every stamp. It places nothing. It loads what isn't in memory of the file's inode block and of the nodes over it:
    /// nothing after a `create` or a `change` of the file since the last `flush`. They stay in memory, and the next
    /// `flush` places them; where the inode block had changed already, no more than without it. After a fault the inode file is seen as before.
    ///
    /// # Errors
    ///
    /// As `change`.
    pub fn set_root<B: Blocks>(
        &mut self,
        blocks: &mut B,
        number: u32,
        levels: u8,
        root: Pointer,
    ) -> Result<(), InodeFault>
        requires levels { levels ≤ 3 }
        requires root { IsPointer root }
        requires right { B.told → HasRightPlaces (B.shown blocks.old) self.old.tree }
        ensures set { B.told → is_some (file_at (rooted (B.shown blocks.old) self.old) number) ≡ true → OnOk result (SetsRoot (rooted (B.shown blocks.old) self.old) (rooted (B.shown blocks.new) self.new) number levels root) }
        ensures loads { OnlyLoads B.told (B.shown blocks.old) (B.shown blocks.new) self.old.tree self.new.tree result }
        ensures held { B.told → IsReadyFile self.old number → IfErr result (λ e. e ≡ Memory) }
        ensures leaves { B.told → Stands (B.shown blocks.old) self.old.tree → changed_of self.old.tree 0 (number / records_each) ≡ true → Leaves (loaded (B.shown blocks.old) self.old.tree) (loaded (B.shown blocks.new) self.new.tree) }
        ensures rises { Rises self.old.tree self.new.tree 4 1 }
        ensures still { OnErr result (pending self.new.tree ≤ pending self.old.tree) }
        ensures reads { B.reads blocks.old blocks.new }
    {
        let cell = number / EACH;
        let slot = (number % EACH) as usize;
        let mut files = read_files(&self.tree, blocks, cell)?;
        if files[slot].name_length == 0 {
            return Ok(());
        }
        files[slot] = with_root(&files[slot], levels, root);
        refill_files(&mut self.tree, blocks, cell, &files)
    }
}

/// A record with another root.
fn with_root(file: &InodeRecord, levels: u8, root: Pointer) -> InodeRecord
    ensures { result ≡ with_root levels root file.now }
{
    InodeRecord {
        name_length: file.name_length,
        name: file.name,
        length: file.length,
        reserve: file.reserve,
        levels,
        root,
    }
}

/// Gives the inode block at a cell that stands these records, of which not all are free, under the stamp that it has.
fn refill_files<B: Blocks>(
    tree: &mut Tree,
    blocks: &mut B,
    cell: u32,
    files: &[InodeRecord; 16],
) -> Result<(), InodeFault>
    requires there { B.told → is_some (block_at (standing (under (B.shown blocks.old)) tree.old) cell) ≡ true }
    requires range { All IsInodeRecord files.now }
    requires some { all_free files.now ≡ false }
    requires right { B.told → HasRightPlaces (B.shown blocks.old) tree.old }
    ensures filled { B.told → OnOk result (FillsFiles (standing (under (B.shown blocks.old)) tree.old) (standing (under (B.shown blocks.new)) tree.new) cell files.now) }
    ensures loads { OnlyLoads B.told (B.shown blocks.old) (B.shown blocks.new) tree.old tree.new result }
    ensures held { IsReady tree.old cell → IfErr result (λ e. e ≡ Memory) }
    ensures leaves { B.told → Stands (B.shown blocks.old) tree.old → changed_of tree.old 0 cell ≡ true → Leaves (loaded (B.shown blocks.old) tree.old) (loaded (B.shown blocks.new) tree.new) }
    ensures rises { Rises tree.old tree.new 4 1 }
    ensures still { OnErr result (pending tree.new ≤ pending tree.old) }
    ensures reads { B.reads blocks.old blocks.new }
{
    let mut block = [0; 4096];
    spell(cell, files, &mut block);
    tree.refill(blocks, cell, &block)?;
    Ok(())
}
