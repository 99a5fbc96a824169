//! Making a file.

ghost use Rattle.std.specs.Prelude.{◌≡◌, ◌≤◌, ◌<◌, ◌+◌, ◌-◌, ◌/◌, ◌^◌, ◌++◌, ℕ, true, None, Some, is_some, get_or, IfOk, length, replicate};
ghost use Rattle.std.specs.List.{All};
ghost use Rattle.fv_codec.specs.Blocks.{IsInodeRecord, most_cells};
ghost use Rattle.fv_model.specs.Numbers.{most_files};
ghost use Rattle.fv_model.specs.Spelling.{is_name};
ghost use Rattle.fv_model.specs.Trees.{fan, least_levels};
ghost use Rattle.fv_tables.specs.Spelled.{Rooted};
ghost use Rattle.fv_tables.specs.Told.{records_each, free_record, used_record, file_at};
ghost use Rattle.fv_tree.specs.Places.{HasRightPlaces};
ghost use Rattle.fv_tree.specs.Standing.{standing, under};
ghost use Rattle.fv_tree.specs.Counting.{added_at, staying_at};
ghost use Rattle.fv_tree.specs.Flushing.{loaded};
ghost use Rattle.fv_tree.specs.Costs.{Rises};
ghost use Rattle.fv_tree.specs.Altering.{Alters};
ghost use Rattle.fv_inode.specs.Files.{rooted, IsFirstFree, IsFreeNumber, IsInfo, IsLeastFree, IsNumberIf, new_record};
ghost use Rattle.fv_inode.specs.Failing.{Looks, OnlyLoads};
ghost use Rattle.fv_inode.specs.Changing.{Makes};

use crate::file::InodeFile;
use crate::find::info_of;
use crate::info::{Info, InodeFault};
use crate::records::{EACH, HOLE, cells, free_files, read_files, write_files};
use fv_codec::InodeRecord;
use fv_model::Name;
use fv_tree::{Blocks, Sharing, Tree};

/// How many numbers of files there are.
const MOST_FILES: u32 = 262_144;

/// How many cells the greatest inode file has.
const MOST_CELLS: u32 = 16_384;

impl InodeFile {
    /// Makes a file of a name under a number below 262,144, the least that is free, without a cell and with the levels with
    /// which its reserve begins, of at most 2,097,152 blocks; answers what is known of it. Its inode cell, the marks over that
    /// and those that a growth makes get the stamp, which is at least 1. That no file has the name is the caller's to see to.
    /// It reads the file's inode block with the nodes over it; these are loaded once more for the write. After a fault the
    /// inode file is seen as before.
    ///
    /// # Errors
    ///
    /// As `find`, and `Memory` where there is no memory for the nodes and the inode block.
    pub fn create<B: Blocks>(
        &mut self,
        blocks: &mut B,
        number: u32,
        name: &Name,
        reserve: u32,
        stamp: u64,
    ) -> Result<Info, InodeFault>
        requires number { number < most_files }
        requires free { B.told → IsLeastFree (rooted (B.shown blocks.old) self.old) number }
        requires stamp { 1 ≤ stamp }
        requires reserve { reserve ≤ most_cells }
        requires right { B.told → HasRightPlaces (B.shown blocks.old) self.old.tree }
        ensures made { B.told → IfOk result (Makes (rooted (B.shown blocks.old) self.old) (rooted (B.shown blocks.new) self.new) name.now reserve stamp) }
        ensures range { IfOk result IsInfo }
        ensures loads { OnlyLoads B.told (B.shown blocks.old) (B.shown blocks.new) self.old.tree self.new.tree result }
        ensures alters { B.told → Alters stamp (loaded (B.shown blocks.old) self.old.tree) (loaded (B.shown blocks.new) self.new.tree) }
        ensures rises { Rises self.old.tree self.new.tree 6 1 }
        ensures reads { B.reads blocks.old blocks.new }
    {
        let mut files = read_files(&self.tree, blocks, number / EACH)?;
        let file = new_record(name, reserve);
        files[(number % EACH) as usize] = file;
        write_files(&mut self.tree, blocks, number / EACH, &files, stamp)?;
        Ok(info_of(number, &file))
    }

    /// The least free number, below 262,144; `None` exactly where none is free. It reads the inode blocks up to the first with
    /// a free record, each once, with at most a node for each level before it, and keeps nothing in memory.
    ///
    /// # Errors
    ///
    /// As `find`.
    pub fn free_number<B: Blocks>(&self, blocks: &mut B) -> Result<Option<u32>, InodeFault>
        requires right { B.told → HasRightPlaces (B.shown blocks.old) self.now.tree }
        ensures number { B.told → IfOk result (IsFreeNumber (rooted (B.shown blocks.old) self.now)) }
        ensures range { IfOk result IsNumberIf }
        ensures looks { Looks B.told (rooted (B.shown blocks.old) self.now) (B.shown blocks.old) (B.shown blocks.new) result }
        ensures reads { B.reads blocks.old blocks.new }
    {
        let number = find_free(&self.tree, blocks)?;
        Ok(within(number))
    }

    /// How many positions of the inode file, cells and marks, a write of the record of a number below 262,144 would
    /// add: at most 6. It loads at most the nodes over the file's inode block.
    ///
    /// # Errors
    ///
    /// As `find`.
    pub fn added<B: Blocks>(&self, blocks: &mut B, number: u32) -> Result<u32, InodeFault>
        requires number { number < most_files }
        requires right { B.told → HasRightPlaces (B.shown blocks.old) self.now.tree }
        ensures added { B.told → IfOk result (λ count. count ≡ added_at (rooted (B.shown blocks.old) self.now) (number / records_each)) }
        ensures few { IfOk result (λ count. count ≤ 6) }
        ensures looks { Looks B.told (rooted (B.shown blocks.old) self.now) (B.shown blocks.old) (B.shown blocks.new) result }
        ensures reads { B.reads blocks.old blocks.new }
    {
        self.tree.added(blocks, number / EACH)
    }

    /// How many of the inode block of a number and the nodes over it are shared, as `Tree::staying` counts them: at most 4.
    /// It loads at most the nodes over the file's inode block.
    ///
    /// # Errors
    ///
    /// As `find`.
    pub fn staying<B: Sharing>(&self, blocks: &mut B, number: u32) -> Result<u32, InodeFault>
        requires right { B.told → HasRightPlaces (B.shown blocks.old) self.now.tree }
        ensures staying { B.told → IfOk result (λ count. count ≡ staying_at (loaded (B.shown blocks.old) self.now.tree) (B.shared blocks.old) (number / records_each)) }
        ensures few { IfOk result (λ count. count ≤ 4) }
        ensures looks { Looks B.told (rooted (B.shown blocks.old) self.now) (B.shown blocks.old) (B.shown blocks.new) result }
        ensures reads { B.reads blocks.old blocks.new }
    {
        self.tree.staying(blocks, number / EACH)
    }
}

/// A number, where it is one of a file.
fn within(number: u32) -> Option<u32>
    ensures some { number < most_files → result ≡ Some number }
    ensures none { most_files ≤ number → result ≡ None }
    ensures range { IsNumberIf result }
{
    if number < MOST_FILES {
        Some(number)
    } else {
        None
    }
}

/// The first number that is free, or 262,144 where none below is.
fn find_free<B: Blocks>(tree: &Tree, blocks: &mut B) -> Result<u32, InodeFault>
    requires right { B.told → HasRightPlaces (B.shown blocks.old) tree.now }
    ensures number { B.told → IfOk result (IsFirstFree (standing (under (B.shown blocks.old)) tree.now)) }
    ensures bound { IfOk result (λ number. number ≤ most_files) }
    ensures looks { Looks B.told (standing (under (B.shown blocks.old)) tree.now) (B.shown blocks.old) (B.shown blocks.new) result }
    ensures reads { B.reads blocks.old blocks.new }
{
    let count = numbered_cells(tree);
    for cell in 0..count {
        let files = read_files(tree, blocks, cell)?;
        if let Some(slot) = first_free(&files) {
            return Ok(EACH * cell + slot);
        }
    }
    Ok(EACH * count)
}

/// How many cells of a tree have numbers below 262,144.
fn numbered_cells(tree: &Tree) -> u32
    ensures few { result ≤ 16384 }
    ensures within { result ≤ fan ^ tree.now.levels }
    ensures all { result < 16384 → result ≡ fan ^ tree.now.levels }
{
    let count = cells(tree);
    if count < MOST_CELLS {
        count
    } else {
        MOST_CELLS
    }
}

/// The first free record of an inode block.
fn first_free(files: &[InodeRecord; 16]) -> Option<u32>
    ensures none { result ≡ None → (k : ℕ) → k < records_each → is_some (used_record (get_or files.now k free_record)) ≡ true }
    ensures some { (slot : ℕ) → result ≡ Some slot → (slot < records_each) × (used_record (get_or files.now slot free_record) ≡ None) × ((k : ℕ) → k < slot → is_some (used_record (get_or files.now k free_record)) ≡ true) }
{
    for slot in 0..EACH {
        if files[slot as usize].name_length == 0 {
            return Some(slot);
        }
    }
    None
}

/// The record of a new file.
fn new_record(name: &Name, reserve: u32) -> InodeRecord
    requires reserve { reserve ≤ most_cells }
    ensures record { result ≡ new_record name.now reserve }
    ensures range { IsInodeRecord result }
    ensures form { is_name name.now ≡ true }
{
    let bytes = name.as_bytes();
    InodeRecord {
        name_length: bytes.len() as u8,
        name: padded(bytes),
        length: 0,
        reserve,
        levels: least_levels(reserve),
        root: HOLE,
    }
}

/// Bytes with zero bytes after them.
fn padded(bytes: &[u8]) -> [u8; 64]
    requires { length bytes.now ≤ 64 }
    ensures { result ≡ bytes.now ++ replicate (64 - length bytes.now) 0 }
{
    let mut padded = [0; 64];
    padded[..bytes.len()].copy_from_slice(bytes);
    padded
}

/// The least number of levels that hold so many cells.
pub fn least_levels(cells: u32) -> u8
    requires { cells ≤ most_cells }
    ensures least { result ≡ least_levels cells }
    ensures few { result ≤ 3 }
{
    if cells <= 1 {
        0
    } else if cells <= 128 {
        1
    } else if cells <= 16_384 {
        2
    } else {
        3
    }
}
