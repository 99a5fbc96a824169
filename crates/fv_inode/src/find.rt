//! Looking a file up by its name.

ghost use Rattle.std.specs.Prelude.{◌≡◌, ◌≤◌, ◌<◌, ◌*◌, ◌+◌, ◌/◌, IfOk, OnOk, OnErr};
ghost use Rattle.std.specs.List.{All};
ghost use Rattle.std.specs.Option.{option_map};
ghost use Rattle.fv_codec.specs.Blocks.{IsInodeRecord};
ghost use Rattle.fv_tables.specs.Spelled.{Rooted};
ghost use Rattle.fv_tables.specs.Told.{records_each, used_record, file_at};
ghost use Rattle.fv_tree.specs.Places.{HasRightPlaces, IsReadable};
ghost use Rattle.fv_tree.specs.Standing.{standing, under};
ghost use Rattle.fv_tree.specs.Flushing.{loaded};
ghost use Rattle.fv_tree.specs.Lookups.{way_cost};
ghost use Rattle.fv_inode.specs.Files.{rooted, info_of, AreRecords, IsInfoIf, Finds, FindsBelow, HasNoneBelow};
ghost use Rattle.fv_inode.specs.Readying.{IsReadyFile};
ghost use Rattle.fv_inode.specs.Failing.{Looks};

use crate::file::InodeFile;
use crate::info::{Info, InodeFault};
use crate::records::{EACH, cells, is_named, read_file, read_file_held, read_files};
use fv_codec::InodeRecord;
use fv_model::Name;
use fv_tree::{Blocks, Tree};

impl InodeFile {
    /// What is known of the file of a name; `None` exactly where no file has it, and of several files of one name
    /// that with the least number. It goes over the inode blocks by number, reads each at most once, with at most
    /// a node for each level before it, and stops where it finds the name. It keeps nothing in memory.
    ///
    /// # Errors
    ///
    /// `DiskFault` and `Damaged` as the `Blocks` answers them, and `Damaged` for a block without the shape of a
    /// node or of an inode block, whatever position it names: its place, and its first field that isn't as said.
    /// `Memory` only from the `Blocks`.
    pub fn find<B: Blocks>(
        &mut self,
        blocks: &mut B,
        name: &Name,
    ) -> Result<Option<Info>, InodeFault>
        requires right { B.told → HasRightPlaces (B.shown blocks.old) self.old.tree }
        ensures found { B.told → IfOk result (Finds (rooted (B.shown blocks.old) self.old) name.now) }
        ensures range { IfOk result IsInfoIf }
        ensures tree { self.new ≡ self.old }
        ensures looks { Looks B.told (rooted (B.shown blocks.old) self.old) (B.shown blocks.old) (B.shown blocks.new) result }
        ensures reads { B.reads blocks.old blocks.new }
    {
        find_named(&self.tree, blocks, name)
    }

    /// What is known of the file of a number; `None` exactly where no file has it. It loads the file's inode block
    /// and the nodes over it, but for what changed in memory, and keeps nothing. So its look-ups are told by what lies on the disk.
    ///
    /// # Errors
    ///
    /// As `find`.
    pub fn look<B: Blocks>(&self, blocks: &mut B, number: u32) -> Result<Option<Info>, InodeFault>
        requires right { B.told → IsReadable (B.shown blocks.old) self.now.tree }
        ensures found { B.told → IfOk result (λ found. found ≡ option_map (info_of number) (file_at (rooted (B.shown blocks.old) self.now) number)) }
        ensures range { IfOk result IsInfoIf }
        ensures spent { B.told → OnOk result ((B.shown blocks.new).spent ≡ (B.shown blocks.old).spent + way_cost (B.shown blocks.old).cost (loaded (B.shown blocks.old) self.now.tree) (number / records_each)) }
        ensures looks { Looks B.told (rooted (B.shown blocks.old) self.now) (B.shown blocks.old) (B.shown blocks.new) result }
        ensures reads { B.reads blocks.old blocks.new }
    {
        let file = read_file(&self.tree, blocks, number)?;
        Ok(info_in(number, &file))
    }

    /// As `look`, but a node or the inode block is taken from memory wherever it is there: a file whose inode block is ready is
    /// looked up without a fault. How many look-ups it makes isn't told.
    ///
    /// # Errors
    ///
    /// As `find`.
    pub fn look_held<B: Blocks>(
        &self,
        blocks: &mut B,
        number: u32,
    ) -> Result<Option<Info>, InodeFault>
        requires right { B.told → HasRightPlaces (B.shown blocks.old) self.now.tree }
        ensures found { B.told → IfOk result (λ found. found ≡ option_map (info_of number) (file_at (rooted (B.shown blocks.old) self.now) number)) }
        ensures range { IfOk result IsInfoIf }
        ensures held { B.told → IsReadyFile self.now number → OnErr result ⊥ }
        ensures looks { Looks B.told (rooted (B.shown blocks.old) self.now) (B.shown blocks.old) (B.shown blocks.new) result }
        ensures reads { B.reads blocks.old blocks.new }
    {
        let file = read_file_held(&self.tree, blocks, number)?;
        Ok(info_in(number, &file))
    }
}

/// What a record that isn't free says of a file.
fn info_in(number: u32, file: &InodeRecord) -> Option<Info>
    requires range { IsInodeRecord file.now }
    ensures told { result ≡ option_map (info_of number) (used_record file.now) }
    ensures range { IsInfoIf result }
{
    if file.name_length == 0 {
        None
    } else {
        Some(info_of(number, file))
    }
}

/// The first file of a name.
fn find_named<B: Blocks>(
    tree: &Tree,
    blocks: &mut B,
    name: &Name,
) -> Result<Option<Info>, InodeFault>
    requires right { B.told → HasRightPlaces (B.shown blocks.old) tree.now }
    ensures found { B.told → IfOk result (Finds (standing (under (B.shown blocks.old)) tree.now) name.now) }
    ensures range { IfOk result IsInfoIf }
    ensures looks { Looks B.told (standing (under (B.shown blocks.old)) tree.now) (B.shown blocks.old) (B.shown blocks.new) result }
    ensures reads { B.reads blocks.old blocks.new }
{
    for cell in 0..cells(tree) {
        let found = find_at(tree, blocks, cell, name)?;
        if found.is_some() {
            return Ok(found);
        }
    }
    Ok(None)
}

/// The first file of a name, where no inode block before that at a cell has it.
fn find_at<B: Blocks>(
    tree: &Tree,
    blocks: &mut B,
    cell: u32,
    name: &Name,
) -> Result<Option<Info>, InodeFault>
    requires cell { cell < 2097152 }
    requires right { B.told → HasRightPlaces (B.shown blocks.old) tree.now }
    ensures found { B.told → IfOk result (λ found. HasNoneBelow (standing (under (B.shown blocks.old)) tree.now) name.now (records_each * cell) → FindsBelow (standing (under (B.shown blocks.old)) tree.now) name.now (records_each * cell + records_each) found) }
    ensures range { IfOk result IsInfoIf }
    ensures few { tree.now.levels ≤ 3 }
    ensures looks { Looks B.told (standing (under (B.shown blocks.old)) tree.now) (B.shown blocks.old) (B.shown blocks.new) result }
    ensures reads { B.reads blocks.old blocks.new }
{
    let files = read_files(tree, blocks, cell)?;
    Ok(first_named(&files, cell, name))
}

/// The first file of a name among the records of the inode block at a cell.
fn first_named(files: &[InodeRecord; 16], cell: u32, name: &Name) -> Option<Info>
    requires cell { cell < 2097152 }
    requires range { All IsInodeRecord files.now }
    ensures range { IsInfoIf result }
    ensures found { (t : Rooted) → AreRecords t cell files.now → HasNoneBelow t name.now (records_each * cell) → FindsBelow t name.now (records_each * cell + records_each) result }
{
    for slot in 0..EACH {
        let file = &files[slot as usize];
        if is_named(file, name) {
            return Some(info_of(EACH * cell + slot, file));
        }
    }
    None
}

/// What a record says of a file.
pub fn info_of(number: u32, file: &InodeRecord) -> Info
    ensures { result ≡ info_of number file.now }
{
    Info {
        number,
        length: file.length,
        reserve: file.reserve,
        levels: file.levels,
        root: file.root,
    }
}
