//! The numbers of a table's files, held in memory: by the files' names, and which are taken.

ghost use Rattle.std.specs.Prelude.{◌≡◌, ◌<◌, ◌≤◌, ◌||◌, ◌&&◌, not, ℕ, List, true, false, nat_eq, IfOk, IfErr, OnOk};
ghost use Rattle.std.specs.BTreeMap as maps;
ghost use Rattle.fv_tree.specs.Places.{HasRightPlaces};
ghost use Rattle.fv_disk.specs.declared.fault.BlockFault.TheVariants.{Memory};
ghost use Rattle.fv_laws.specs.WellFormed.{IsWellTable};
ghost use Rattle.fv_model.specs.Numbers.{most_files};
ghost use Rattle.fv_model.specs.Spelling.{name_cmp};
ghost use Rattle.fv_tables.specs.Told.{Standing, table_told};
ghost use Rattle.fv_inode.specs.Files.{rooted, Finds, IsFreeNumber, IsInfoIf, IsNumberIf};
ghost use Rattle.fv_inode.specs.Failing as inodes;
ghost use Rattle.fv_files.specs.Numbering.{has_value, is_taken, AreNumbersOf, IsNamed, IsUnnamed};
ghost use Rattle.fv_files.specs.Tables.{table_in};

use crate::files::{Files, FilesFault};
use crate::taken::{MOST_FILES, TakenNumbers};
use fv_inode::Info;
use fv_model::Name;
use fv_tree::Blocks;
use std::alloc::Global;
use std::collections::BTreeMap;

/// The numbers of files by their names, and which numbers are taken.
#[derive(Drop)]
pub struct FileNumbers {
    by_name: BTreeMap<Name, u32>,
    taken: TakenNumbers,
}

impl Files {
    /// The numbers of all files by their names, for a table of the machine. Its cost is that of `InodeFile::index`, and a step and
    /// memory for each free number below the greatest that is taken.
    ///
    /// # Errors
    ///
    /// As `InodeFile::index`.
    pub fn numbers<B: Blocks>(&self, blocks: &mut B) -> Result<FileNumbers, FilesFault>
        requires right { B.told → HasRightPlaces (B.shown blocks.old) self.now.inode.tree }
        ensures numbers { B.told → IfOk result (λ m. (now : ℕ) → IsWellTable now (table_told (table_in (B.shown blocks.old) self.now)) → AreNumbersOf m (table_told (table_in (B.shown blocks.old) self.now))) }
        ensures looks { inodes.Looks B.told (rooted (B.shown blocks.old) self.now.inode) (B.shown blocks.old) (B.shown blocks.new) result }
        ensures reads { B.reads blocks.old blocks.new }
    {
        let by_name = self.inode.index(blocks)?;
        FileNumbers::of_names(self.alloc, by_name)
    }

    /// What is known of the file of a name, by the numbers of this table's files; `None` exactly where no file has it. It loads at
    /// most the file's inode block and the nodes over it.
    ///
    /// # Errors
    ///
    /// As `look`.
    pub fn find_by<B: Blocks>(
        &self,
        blocks: &mut B,
        numbers: &FileNumbers,
        name: &Name,
    ) -> Result<Option<Info>, FilesFault>
        requires numbers { B.told → AreNumbersOf numbers.now (table_told (table_in (B.shown blocks.old) self.now)) }
        requires right { B.told → HasRightPlaces (B.shown blocks.old) self.now.inode.tree }
        ensures found { B.told → IfOk result (Finds (rooted (B.shown blocks.old) self.now.inode) name.now) }
        ensures range { IfOk result IsInfoIf }
        ensures looks { inodes.Looks B.told (rooted (B.shown blocks.old) self.now.inode) (B.shown blocks.old) (B.shown blocks.new) result }
        ensures reads { B.reads blocks.old blocks.new }
    {
        match numbers.get(name) {
            None => Ok(None),
            Some(number) => self.inode.look_held(blocks, number),
        }
    }
}

impl FileNumbers {
    /// The numbers of a map, all of them taken that are below 262,144.
    fn of_names(alloc: Global, by_name: BTreeMap<Name, u32>) -> Result<FileNumbers, FilesFault>
        ensures names { IfOk result (λ m. m.by_name ≡ by_name) }
        ensures taken { IfOk result (λ m. (n : ℕ) → n < most_files → is_taken m.taken n ≡ has_value by_name n) }
        ensures ordered { maps.IsOrdered name_cmp by_name }
        ensures memory { IfErr result (λ e. e ≡ Memory) }
    {
        let taken = taken_by(alloc, &by_name)?;
        Ok(FileNumbers { by_name, taken })
    }

    /// The number of the file of a name, `None` exactly where no file has it. Costs a comparison for each level of a balanced tree.
    pub fn get(&self, name: &Name) -> Option<u32>
        ensures { result ≡ maps.get name_cmp self.now.by_name name.now }
    {
        match self.by_name.get(name) {
            Some(number) => Some(*number),
            None => None,
        }
    }

    /// The least number below 262,144 that no file has; `None` where all are taken. Costs a step for each level of a balanced tree.
    pub fn free_number(&self) -> Option<u32>
        ensures number { (x : Standing) → AreNumbersOf self.now (table_told x) → IsFreeNumber x.inode result }
        ensures range { IsNumberIf result }
    {
        let number = self.taken.least_free();
        if number < MOST_FILES {
            Some(number)
        } else {
            None
        }
    }

    /// A file of this name has the number now. After a fault they are no longer those of a table.
    ///
    /// # Errors
    ///
    /// `Memory` where there is no memory for the name.
    pub fn add(&mut self, name: &Name, number: u32) -> Result<(), FilesFault>
        ensures named { OnOk result (IsNamed self.old self.new name.now number) }
    {
        self.taken.take(number)?;
        insert(&mut self.by_name, name, number)
    }

    /// The file of this name and number is gone. After a fault they are no longer those of a table.
    ///
    /// # Errors
    ///
    /// `Memory` where there is no memory for the free number.
    pub fn remove(&mut self, name: &Name, number: u32) -> Result<(), FilesFault>
        ensures unnamed { OnOk result (IsUnnamed self.old self.new name.now number) }
    {
        let _ = self.by_name.remove(name);
        self.taken.release(number)
    }
}

/// Gives a name a number.
fn insert(numbers: &mut BTreeMap<Name, u32>, name: &Name, number: u32) -> Result<(), FilesFault>
    ensures inserted { OnOk result (maps.Updates name_cmp numbers.old numbers.new name.now (Some number)) }
{
    match numbers.insert(*name, number) {
        Ok(_) => Ok(()),
        Err(_) => Err(FilesFault::Memory),
    }
}

/// The numbers of a map below 262,144 as taken.
fn taken_by(alloc: Global, by_name: &BTreeMap<Name, u32>) -> Result<TakenNumbers, FilesFault>
    ensures taken { IfOk result (λ taken. (n : ℕ) → n < most_files → is_taken taken n ≡ has_value by_name.now n) }
    ensures ordered { maps.IsOrdered name_cmp by_name.now }
    ensures memory { IfErr result (λ e. e ≡ Memory) }
{
    let mut taken = TakenNumbers::new(alloc);
    for number in by_name.values() {
        taken.take(*number)?;
    }
    Ok(taken)
}
