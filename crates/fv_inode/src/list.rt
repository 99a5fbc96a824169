//! Listing the files by their names.

ghost use Rattle.std.specs.Prelude.{◌≡◌, ◌≤◌, ◌<◌, ◌*◌, ◌+◌, ◌++◌, ◌∷◌, [], ℕ, suc, IfOk, IfErr, OnOk};
ghost use Rattle.std.specs.List.{All};
ghost use Rattle.std.specs.Map.{keys_of};
ghost use Rattle.std.specs.Option.{option_map};
ghost use Rattle.std.specs.FinMap as fin;
ghost use Rattle.fv_disk.specs.declared.fault.BlockFault.TheVariants.{Memory};
ghost use Rattle.fv_codec.specs.Blocks.{IsInodeRecord};
ghost use Rattle.fv_tables.specs.Spelled.{Rooted};
ghost use Rattle.fv_tables.specs.Told.{records_each, used_record, file_at};
ghost use Rattle.fv_tree.specs.Places.{HasRightPlaces};
ghost use Rattle.fv_tree.specs.Standing.{standing, under};
ghost use Rattle.fv_inode.specs.Files.{rooted, name_of, AreRecords};
ghost use Rattle.fv_inode.specs.Listing.{numbers_in, names_from, names_told};
ghost use Rattle.fv_inode.specs.Failing.{Looks};

use crate::file::InodeFile;
use crate::info::InodeFault;
use crate::records::{EACH, cells, read_files};
use fv_codec::InodeRecord;
use fv_model::{Name, Names};
use fv_tree::{Blocks, Tree};
use std::alloc::Global;
use std::collections::BTreeMap;

impl InodeFile {
    /// The names of all files, in byte order; each name once. It reads each inode block once, with at most a node for
    /// each level before it, and keeps nothing of them in memory; it takes memory for each name twice.
    ///
    /// # Errors
    ///
    /// As `find`, and `Memory` where there is no memory for the names.
    pub fn list<B: Blocks>(&mut self, blocks: &mut B) -> Result<Names, InodeFault>
        requires right { B.told → HasRightPlaces (B.shown blocks.old) self.old.tree }
        ensures names { B.told → IfOk result (λ names. names ≡ fin.keys (names_told (rooted (B.shown blocks.old) self.old))) }
        ensures tree { self.new ≡ self.old }
        ensures looks { Looks B.told (rooted (B.shown blocks.old) self.old) (B.shown blocks.old) (B.shown blocks.new) result }
        ensures reads { B.reads blocks.old blocks.new }
    {
        list_names(self.alloc, &self.tree, blocks)
    }

    /// The numbers of all files by their names; of two files of one name that with the lesser number counts. It costs what `list` does, and
    /// memory for each name once.
    ///
    /// # Errors
    ///
    /// As `list`.
    pub fn index<B: Blocks>(&self, blocks: &mut B) -> Result<BTreeMap<Name, u32>, InodeFault>
        requires right { B.told → HasRightPlaces (B.shown blocks.old) self.now.tree }
        ensures numbers { B.told → IfOk result (λ numbers. numbers_in numbers ≡ names_told (rooted (B.shown blocks.old) self.now)) }
        ensures looks { Looks B.told (rooted (B.shown blocks.old) self.now) (B.shown blocks.old) (B.shown blocks.new) result }
        ensures reads { B.reads blocks.old blocks.new }
    {
        numbers_by_name(self.alloc, &self.tree, blocks)
    }
}

/// The names of all files, in byte order.
fn list_names<B: Blocks>(alloc: Global, tree: &Tree, blocks: &mut B) -> Result<Names, InodeFault>
    requires right { B.told → HasRightPlaces (B.shown blocks.old) tree.now }
    ensures names { B.told → IfOk result (λ names. names ≡ fin.keys (names_told (standing (under (B.shown blocks.old)) tree.now))) }
    ensures looks { Looks B.told (standing (under (B.shown blocks.old)) tree.now) (B.shown blocks.old) (B.shown blocks.new) result }
    ensures reads { B.reads blocks.old blocks.new }
{
    let numbers = numbers_by_name(alloc, tree, blocks)?;
    in_order(alloc, &numbers)
}

/// The numbers of all files by their names; of two files of one name that with the lesser number counts.
fn numbers_by_name<B: Blocks>(
    alloc: Global,
    tree: &Tree,
    blocks: &mut B,
) -> Result<BTreeMap<Name, u32>, InodeFault>
    requires right { B.told → HasRightPlaces (B.shown blocks.old) tree.now }
    ensures numbers { B.told → IfOk result (λ numbers. numbers_in numbers ≡ names_told (standing (under (B.shown blocks.old)) tree.now)) }
    ensures looks { Looks B.told (standing (under (B.shown blocks.old)) tree.now) (B.shown blocks.old) (B.shown blocks.new) result }
    ensures reads { B.reads blocks.old blocks.new }
{
    let mut numbers = BTreeMap::new(alloc);
    let mut cell = cells(tree);
    while cell > 0 {
        cell -= 1;
        let files = read_files(tree, blocks, cell)?;
        add_names(&mut numbers, &files, cell)?;
    }
    Ok(numbers)
}

/// Adds the files of the inode block at a cell, where those past it are there.
fn add_names(
    numbers: &mut BTreeMap<Name, u32>,
    files: &[InodeRecord; 16],
    cell: u32,
) -> Result<(), InodeFault>
    requires cell { cell < 2097152 }
    requires range { All IsInodeRecord files.now }
    ensures added { OnOk result ((t : Rooted) (count : ℕ) → AreRecords t cell files.now → numbers_in numbers.old ≡ names_from t (records_each * cell + records_each) count → numbers_in numbers.new ≡ names_from t (records_each * cell) (records_each + count)) }
    ensures memory { IfErr result (λ e. e ≡ Memory) }
{
    let mut slot = EACH;
    while slot > 0 {
        slot -= 1;
        add_name(numbers, &files[slot as usize], EACH * cell + slot)?;
    }
    Ok(())
}

/// Adds a file, where those past its number are there.
fn add_name(
    numbers: &mut BTreeMap<Name, u32>,
    file: &InodeRecord,
    number: u32,
) -> Result<(), InodeFault>
    requires range { IsInodeRecord file.now }
    ensures added { OnOk result ((t : Rooted) (count : ℕ) → used_record file.now ≡ file_at t number → numbers_in numbers.old ≡ names_from t (number + 1) count → numbers_in numbers.new ≡ names_from t number (suc count)) }
    ensures memory { IfErr result (λ e. e ≡ Memory) }
{
    match name_in(file) {
        None => Ok(()),
        Some(name) => insert(numbers, name, number),
    }
}

/// Gives a name a number.
fn insert(numbers: &mut BTreeMap<Name, u32>, name: Name, number: u32) -> Result<(), InodeFault>
    ensures inserted { OnOk result (numbers_in numbers.new ≡ fin.insert (numbers_in numbers.old) name number) }
    ensures memory { IfErr result (λ e. e ≡ Memory) }
{
    match numbers.insert(name, number) {
        Ok(_) => Ok(()),
        Err(_) => Err(InodeFault::Memory),
    }
}

/// The name in a record that isn't free.
fn name_in(file: &InodeRecord) -> Option<Name>
    requires range { IsInodeRecord file.now }
    ensures { result ≡ option_map name_of (used_record file.now) }
{
    Name::read(&file.name[..usize::from(file.name_length)])
}

/// The names in order.
fn in_order(alloc: Global, numbers: &BTreeMap<Name, u32>) -> Result<Names, InodeFault>
    ensures names { IfOk result (λ names. names ≡ fin.keys (numbers_in numbers.now)) }
    ensures memory { IfErr result (λ e. e ≡ Memory) }
{
    let _count = numbers.len();
    listed(alloc, numbers)
}

/// The keys as a list.
fn listed(alloc: Global, numbers: &BTreeMap<Name, u32>) -> Result<Names, InodeFault>
    ensures names { IfOk result (λ names. names ≡ keys_of numbers.now.entries) }
    ensures memory { IfErr result (λ e. e ≡ Memory) }
{
    let mut names = Names::new(alloc);
    for name in numbers.keys() {
        push(&mut names, name)?;
    }
    Ok(names)
}

/// Adds a name at the end.
fn push(names: &mut Names, name: &Name) -> Result<(), InodeFault>
    ensures pushed { OnOk result (names.new ≡ names.old ++ name.now ∷ []) }
    ensures memory { IfErr result (λ e. e ≡ Memory) }
{
    match names.push(name) {
        Ok(()) => Ok(()),
        Err(_) => Err(InodeFault::Memory),
    }
}
