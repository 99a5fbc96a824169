//! The records of one inode block.

ghost use Rattle.std.specs.Prelude.{◌≡◌, ◌≤◌, ◌<◌, ◌^◌, ◌+◌, ◌/◌, ℕ, Option, Some, true, false, IfOk, IfErr, OnOk, OnErr, Ok, Err, get_or, length, replicate};
ghost use Rattle.std.specs.List.{All};
ghost use Rattle.fv_codec.specs.declared.shape.Shape.{Shape};
ghost use Rattle.fv_disk.specs.declared.fault.BlockFault.TheVariants.{Damaged};
ghost use Rattle.fv_codec.specs.Blocks.{all_free, inodes_at, IsInodeRecord};
ghost use Rattle.fv_codec.specs.Forms.{has_form};
ghost use Rattle.fv_codec.specs.declared.form.Form.TheVariants.{Inodes};
ghost use Rattle.fv_model.specs.Spelling.{is_same_name};
ghost use Rattle.fv_model.specs.Trees.{fan};
ghost use Rattle.fv_tables.specs.Told.{records_each, file_at, free_record, used_record, records_in};
ghost use Rattle.fv_tables.specs.Spelled.{Under};
ghost use Rattle.fv_tree.specs.Places.{HasRightPlaces, IsReadable};
ghost use Rattle.fv_tree.specs.Standing.{standing, under};
ghost use Rattle.fv_tree.specs.Readying.{IsReady};
ghost use Rattle.fv_tree.specs.Costs.{Rises};
ghost use Rattle.fv_tree.specs.Lookups.{way_cost};
ghost use Rattle.fv_tree.specs.Altering.{Alters, AltersHeld};
ghost use Rattle.fv_tree.specs.Flushing.{changed_of, loaded};
ghost use Rattle.fv_inode.specs.Files.{AreRecords, blank_record, has_name};
ghost use Rattle.fv_inode.specs.Failing.{Looks, OnlyLoads};
ghost use Rattle.fv_inode.specs.Changing.{WritesFiles};
ghost use Rattle.fv_inode.specs.Readying.{HoldsFile};

use crate::info::InodeFault;
use fv_codec::{Form, InodeBlock, InodeRecord, Pointer, Shape};
use fv_model::Name;
use fv_tree::{Blocks, Tree};
use std::cmp::Ordering;

/// How many files an inode block has records of.
pub const EACH: u32 = 16;

/// A pointer that leads to nothing.
pub const HOLE: Pointer = Pointer::HOLE;

/// A record that is free.
pub fn free_record() -> InodeRecord
    ensures { result ≡ blank_record }
{
    InodeRecord {
        name_length: 0,
        name: [0; 64],
        length: 0,
        reserve: 0,
        levels: 0,
        root: HOLE,
    }
}

/// The records of an inode block without a file.
pub fn free_files() -> [InodeRecord; 16]
    ensures { result ≡ replicate 16 blank_record }
{
    [free_record(); 16]
}

/// How many cells the levels of a tree hold.
pub fn cells(tree: &Tree) -> u32
    ensures is { result ≡ fan ^ tree.now.levels }
    ensures few { result ≤ 2097152 }
    ensures levels { tree.now.levels ≤ 3 }
{
    match tree.levels() {
        0 => 1,
        1 => 128,
        2 => 16_384,
        _ => 2_097_152,
    }
}

/// The records of the inode block at a cell; free ones where there is no cell, and past the levels without a load.
/// It loads at most a node for each level and the inode block, those that aren't in memory.
///
/// # Errors
///
/// As a tree's `read`, and `Damaged` for a block without the shape of an inode block: its place, and its first
/// field that isn't as said.
pub fn read_files<B: Blocks>(
    tree: &Tree,
    blocks: &mut B,
    cell: u32,
) -> Result<[InodeRecord; 16], InodeFault>
    requires right { B.told → HasRightPlaces (B.shown blocks.old) tree.now }
    ensures files { B.told → IfOk result (AreRecords (standing (under (B.shown blocks.old)) tree.now) cell) }
    ensures range { IfOk result (All IsInodeRecord) }
    ensures long { IfOk result (λ files. length files ≡ 16) }
    ensures within { IfOk result (λ files. all_free files ≡ false → cell < 2097152) }
    ensures held { B.told → (n : ℕ) → n / records_each ≡ cell → HoldsFile tree.now n → OnErr result ⊥ }
    ensures few { tree.now.levels ≤ 3 }
    ensures looks { Looks B.told (standing (under (B.shown blocks.old)) tree.now) (B.shown blocks.old) (B.shown blocks.new) result }
    ensures reads { B.reads blocks.old blocks.new }
{
    if cell >= cells(tree) {
        return Ok(free_files());
    }
    let mut block = [0; 4096];
    match tree.read_held(blocks, cell, &mut block)? {
        None => Ok(free_files()),
        Some(at) => files_of(at, &block),
    }
}

/// The record of a number; a free one where no file has it. It loads what a tree's `read` does, so its look-ups
/// are told by what lies on the disk, and of a block that spells an inode block it reads that record alone.
///
/// # Errors
///
/// As `read_files`.
pub fn read_file<B: Blocks>(
    tree: &Tree,
    blocks: &mut B,
    number: u32,
) -> Result<InodeRecord, InodeFault>
    requires right { B.told → IsReadable (B.shown blocks.old) tree.now }
    ensures file { B.told → IfOk result (λ file. used_record file ≡ file_at (standing (under (B.shown blocks.old)) tree.now) number) }
    ensures range { IfOk result IsInodeRecord }
    ensures spent { B.told → OnOk result ((B.shown blocks.new).spent ≡ (B.shown blocks.old).spent + way_cost (B.shown blocks.old).cost (loaded (B.shown blocks.old) tree.now) (number / records_each)) }
    ensures looks { Looks B.told (standing (under (B.shown blocks.old)) tree.now) (B.shown blocks.old) (B.shown blocks.new) result }
    ensures reads { B.reads blocks.old blocks.new }
{
    let cell = number / EACH;
    if cell >= cells(tree) {
        return Ok(free_record());
    }
    let mut block = [0; 4096];
    let mut is_inodes = false;
    match tree.read_as(blocks, cell, Form::Inodes, &mut block, &mut is_inodes)? {
        None => Ok(free_record()),
        Some(at) => file_of(at, is_inodes, &block, number % EACH),
    }
}

/// As `read_file`, from the records that `read_files` gives.
///
/// # Errors
///
/// As `read_files`.
pub fn read_file_held<B: Blocks>(
    tree: &Tree,
    blocks: &mut B,
    number: u32,
) -> Result<InodeRecord, InodeFault>
    requires right { B.told → HasRightPlaces (B.shown blocks.old) tree.now }
    ensures file { B.told → IfOk result (λ file. used_record file ≡ file_at (standing (under (B.shown blocks.old)) tree.now) number) }
    ensures range { IfOk result IsInodeRecord }
    ensures held { B.told → HoldsFile tree.now number → OnErr result ⊥ }
    ensures looks { Looks B.told (standing (under (B.shown blocks.old)) tree.now) (B.shown blocks.old) (B.shown blocks.new) result }
    ensures reads { B.reads blocks.old blocks.new }
{
    let files = read_files(tree, blocks, number / EACH)?;
    Ok(files[(number % EACH) as usize])
}

/// One record of the inode block that a block spells, which was read at a place.
#[tactic(auto, using(crate::proofs::Slots::own_file))]
fn file_of(
    at: u32,
    is_inodes: bool,
    block: &[u8; 4096],
    slot: u32,
) -> Result<InodeRecord, InodeFault>
    requires slot { slot < records_each }
    requires form { is_inodes ≡ has_form Inodes block.now }
    ensures file { IfOk result (λ file. get_or (records_in (Some block.now)) slot free_record ≡ file) }
    ensures range { IfOk result IsInodeRecord }
    ensures damage { IfErr result (λ e. (shape : Shape) × (inodes_at block.now ≡ Err shape) × (e ≡ Damaged at shape.want shape.found)) }
{
    if is_inodes {
        return Ok(InodeBlock::record(block, slot));
    }
    decoded_file(at, block, slot)
}

/// One record of the inode block that a block spells whole, which was read at a place.
#[tactic(auto, using(crate::proofs::Slots::own_file))]
fn decoded_file(at: u32, block: &[u8; 4096], slot: u32) -> Result<InodeRecord, InodeFault>
    requires slot { slot < records_each }
    ensures file { IfOk result (λ file. get_or (records_in (Some block.now)) slot free_record ≡ file) }
    ensures range { IfOk result IsInodeRecord }
    ensures damage { IfErr result (λ e. (shape : Shape) × (inodes_at block.now ≡ Err shape) × (e ≡ Damaged at shape.want shape.found)) }
{
    let files = files_of(at, block)?;
    Ok(files[slot as usize])
}

/// The records of the inode block that a block spells, which was read at a place.
fn files_of(at: u32, block: &[u8; 4096]) -> Result<[InodeRecord; 16], InodeFault>
    ensures files { IfOk result (λ files. records_in (Some block.now) ≡ files) }
    ensures range { IfOk result (All IsInodeRecord) }
    ensures long { IfOk result (λ files. length files ≡ 16) }
    ensures damage { IfErr result (λ e. (shape : Shape) × (inodes_at block.now ≡ Err shape) × (e ≡ Damaged at shape.want shape.found)) }
{
    let inodes = decoded(at, block)?;
    Ok(records(&inodes))
}

/// The records of an inode block.
fn records(inodes: &InodeBlock) -> [InodeRecord; 16]
    ensures { result ≡ inodes.now.files }
{
    inodes.files
}

/// The inode block that a block spells, which was read at a place.
fn decoded(at: u32, block: &[u8; 4096]) -> Result<InodeBlock, InodeFault>
    ensures inodes { IfOk result (λ inodes. inodes_at block.now ≡ Ok inodes) }
    ensures range { IfOk result (λ inodes. All IsInodeRecord inodes.files) }
    ensures long { IfOk result (λ inodes. length inodes.files ≡ 16) }
    ensures damage { IfErr result (λ e. (shape : Shape) × (inodes_at block.now ≡ Err shape) × (e ≡ Damaged at shape.want shape.found)) }
{
    match InodeBlock::decode(block) {
        Ok(inodes) => Ok(inodes),
        Err(shape) => Err(InodeFault::Damaged {
            at: u64::from(at),
            want: shape.want,
            found: shape.found,
        }),
    }
}

/// The records of the inode block at a cell, which is in memory; free ones where it hasn't the shape of one.
pub fn held_files(tree: &Tree, cell: u32) -> [InodeRecord; 16]
    requires ready { IsReady tree.now cell }
    ensures files { (blocks : Under) → AreRecords (standing blocks tree.now) cell result }
    ensures range { All IsInodeRecord result }
    ensures long { length result ≡ 16 }
    ensures within { cell < 2097152 }
{
    let mut block = [0; 4096];
    tree.content(cell, &mut block);
    match files_of(0, &block) {
        Ok(files) => files,
        Err(_) => free_files(),
    }
}

/// Writes the inode block at a cell below 2,097,152, of which not all records are free, with a stamp of at least 1.
pub fn write_files<B: Blocks>(
    tree: &mut Tree,
    blocks: &mut B,
    cell: u32,
    files: &[InodeRecord; 16],
    stamp: u64,
) -> Result<(), InodeFault>
    requires cell { cell < 2097152 }
    requires stamp { 1 ≤ stamp }
    requires range { All IsInodeRecord files.now }
    requires some { all_free files.now ≡ false }
    requires right { B.told → HasRightPlaces (B.shown blocks.old) tree.old }
    ensures written { B.told → OnOk result (WritesFiles (standing (under (B.shown blocks.old)) tree.old) (standing (under (B.shown blocks.new)) tree.new) cell stamp files.now) }
    ensures loads { OnlyLoads B.told (B.shown blocks.old) (B.shown blocks.new) tree.old tree.new result }
    ensures alters { B.told → Alters stamp (loaded (B.shown blocks.old) tree.old) (loaded (B.shown blocks.new) tree.new) }
    ensures rises { Rises tree.old tree.new 6 1 }
    ensures reads { B.reads blocks.old blocks.new }
{
    let mut block = [0; 4096];
    spell(cell, files, &mut block);
    tree.put(blocks, cell, &block, stamp)
}

/// Writes the inode block at a cell that is in memory, of which not all records are free, with a stamp of at least 1.
pub fn rewrite_files(tree: &mut Tree, cell: u32, files: &[InodeRecord; 16], stamp: u64)
    requires ready { IsReady tree.old cell }
    requires stamp { 1 ≤ stamp }
    requires range { All IsInodeRecord files.now }
    requires some { all_free files.now ≡ false }
    ensures written { (blocks : Under) → WritesFiles (standing blocks tree.old) (standing blocks tree.new) cell stamp files.now }
    ensures ready { IsReady tree.new cell }
    ensures alters { AltersHeld tree.old tree.new stamp }
    ensures marked { changed_of tree.new 0 cell ≡ true }
    ensures rises { Rises tree.old tree.new 4 0 }
{
    let mut block = [0; 4096];
    spell(cell, files, &mut block);
    tree.rewrite(cell, &block, stamp);
}

/// Spells the inode block of an index with these records.
pub fn spell(cell: u32, files: &[InodeRecord; 16], into: &mut [u8; 4096])
    requires range { All IsInodeRecord files.now }
    requires some { all_free files.now ≡ false }
    ensures { inodes_at into.new ≡ Ok (record { index = cell; files = files.now }) }
{
    let inodes = InodeBlock {
        index: u64::from(cell),
        files: *files,
    };
    inodes.encode(into);
}

/// Whether a record isn't free and has this name.
pub fn is_named(file: &InodeRecord, name: &Name) -> bool
    requires { file.now.name_length ≤ 64 }
    ensures { result ≡ has_name (used_record file.now) name.now }
{
    file.name_length != 0 && is_same(&file.name[..usize::from(file.name_length)], name)
}

/// Whether bytes are a name.
fn is_same(bytes: &[u8], name: &Name) -> bool
    ensures { result ≡ is_same_name bytes.now name.now }
{
    bytes.cmp(name.as_bytes()) == Ordering::Equal
}

/// Whether all records are free.
pub fn all_free(files: &[InodeRecord; 16]) -> bool
    ensures { result ≡ all_free files.now }
{
    for file in files {
        if file.name_length != 0 {
            return false;
        }
    }
    true
}
