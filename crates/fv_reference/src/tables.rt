//! Tables of files, and the four changes of a table.
ghost use Rattle.std.specs.Prelude.{◌≡◌, ◌+◌, ◌/◌, ◌<◌, ◌≤◌, IfOk, OnOk, not, nat_lt, nat_le, map, filter, find, option_map, List, ℕ};
ghost use Rattle.std.specs.List.{prefix_len, range_with_len};
ghost use Rattle.std.specs.Ordering.{nat_cmp};
ghost use Rattle.std.specs.FinMap as fin;
ghost use Rattle.fv_model.specs.Numbers.{most_files};
ghost use Rattle.fv_model.specs.Trees.{least_levels, written};
ghost use Rattle.fv_model.specs.Spelling.{is_same_name};
ghost use Rattle.fv_model.specs.Tables.{empty_table, inode_cell, free_number, file_named, file_put, file_cut, new, put, cut, rm};
ghost use Rattle.fv_reference.specs.Maps.{map_of};
ghost use Rattle.fv_model.specs.Tables as tables;
ghost use Rattle.fv_reference.specs.Codes.{file_code, table_code};

use crate::maps::{copy, get, insert, keys, len, remove};
use crate::trees::{Tree, least_levels};
use fv_model::{Block, Name};
use std::alloc::{AllocError, Global};
use std::collections::BTreeMap;
use std::marker::Model;
use std::rc::Rc;

/// The content of a cell. Copies of a table share it.
#[derive(Drop)]
pub struct Cell {
    bytes: Rc<Block>,
}

impl Model for Cell {
    ghost Value = { List ℕ };

    ghost view = { λ c. c.bytes.value };
}

impl Clone for Cell {
    ghost is_clone = { λ x y. y ≡ x };

    fn clone(&self) -> Result<Cell, AllocError> {
        Ok(Cell {
            bytes: self.bytes.clone()?,
        })
    }
}

impl Cell {
    /// The content.
    pub fn block(&self) -> &Block
        ensures { result.now ≡ self.now }
    {
        &*self.bytes
    }
}

/// A file: its blocks, and the stamps of its cells and marks.
#[derive(Drop)]
pub struct File {
    name: Name,
    length: u64,
    reserve: u32,
    blocks: BTreeMap<u32, Cell>,
    tree: Tree,
}

impl Model for File {
    ghost Value = { tables.File };

    ghost coded = { file_code };

    ghost view = { λ f. record { name = f.name; length = f.length; reserve = f.reserve; blocks = map_of nat_cmp f.blocks; tree = f.tree } };
}

impl Clone for File {
    ghost is_clone = { λ x y. y ≡ x };

    fn clone(&self) -> Result<File, AllocError> {
        Ok(File {
            name: self.name,
            length: self.length,
            reserve: self.reserve,
            blocks: copy(&self.blocks)?,
            tree: self.tree.clone()?,
        })
    }
}

impl File {
    /// A file of length 0.
    fn new(alloc: Global, name: &Name, reserve: u32) -> File
        ensures { result ≡ record { name = name.now; length = 0; reserve = reserve; blocks = fin.empty; tree = record { levels = least_levels reserve; stamps = fin.empty } } }
    {
        File {
            name: *name,
            length: 0,
            reserve,
            blocks: BTreeMap::new(alloc),
            tree: Tree::new(alloc, least_levels(u64::from(reserve))),
        }
    }

    /// The name.
    pub fn name(&self) -> &Name
        ensures { result.now ≡ self.now.name }
    {
        &self.name
    }

    /// The length in blocks.
    pub fn length(&self) -> u64
        ensures { result ≡ self.now.length }
    {
        self.length
    }

    /// The reserve in blocks.
    pub fn reserve(&self) -> u32
        ensures { result ≡ self.now.reserve }
    {
        self.reserve
    }

    /// The stamps of its cells and marks.
    pub fn tree(&self) -> &Tree
        ensures { result.now ≡ self.now.tree }
    {
        &self.tree
    }

    /// The block of a cell, if it was written.
    pub fn cell(&self, index: u32) -> Option<&Cell>
        ensures { option_map (λ c. c.now) result ≡ fin.get self.now.blocks index }
    {
        get(&self.blocks, &index)
    }

    /// The file after a cell was written.
    fn put(&self, alloc: Global, index: u32, block: &Block, stamp: u64) -> Result<File, AllocError>
        ensures { IfOk result (λ f. f ≡ file_put self.now index block.now stamp) }
    {
        let mut blocks = copy(&self.blocks)?;
        let bytes = Rc::new(alloc, *block)?;
        insert(&mut blocks, index, Cell { bytes })?;
        let tree = self.tree.written(alloc, stamp, index)?;
        Ok(File {
            name: self.name,
            length: self.length.max(u64::from(index) + 1),
            reserve: self.reserve,
            blocks,
            tree,
        })
    }

    /// The file after its cells from a length on were removed.
    fn cut(&self, alloc: Global, length: u32, stamp: u64) -> Result<File, AllocError>
        ensures { IfOk result (λ f. f ≡ file_cut self.now length stamp) }
    {
        let gone = from_on(alloc, &keys(alloc, &self.blocks)?, length)?;
        let mut blocks = copy(&self.blocks)?;
        keep_below(&mut blocks, length);
        let left = keys(alloc, &blocks)?;
        let tree = self.tree.erased(
            alloc,
            stamp,
            least_levels(u64::from(self.reserve)),
            &gone,
            &left,
        )?;
        Ok(File {
            name: self.name,
            length: u64::from(length),
            reserve: self.reserve,
            blocks,
            tree,
        })
    }
}

/// Those indexes that aren't below a length.
fn from_on(alloc: Global, indexes: &[u32], length: u32) -> Result<Vec<u32>, AllocError>
    ensures { IfOk result (λ v. v.items ≡ filter (λ i. nat_le length i) indexes.now) }
{
    indexes
        .iter()
        .copied()
        .filter(|index| length <= *index)
        .collect(alloc)
}

/// Takes out the blocks of cells that aren't below a length.
fn keep_below(blocks: &mut BTreeMap<u32, Cell>, length: u32)
    ensures { map_of nat_cmp blocks.new ≡ fin.retain_keys (map_of nat_cmp blocks.old) (λ i. nat_lt i length) }
{
    blocks.retain(|index, _| *index < length);
}

/// Files by number, and the inode file.
#[derive(Drop)]
pub struct Table {
    files: BTreeMap<u32, File>,
    inode: Tree,
}

impl Model for Table {
    ghost Value = { tables.Table };

    ghost coded = { table_code };

    ghost view = { λ t. record { files = map_of nat_cmp t.files; inode = t.inode } };
}

impl Clone for Table {
    ghost is_clone = { λ x y. y ≡ x };

    fn clone(&self) -> Result<Table, AllocError> {
        Ok(Table {
            files: copy(&self.files)?,
            inode: self.inode.clone()?,
        })
    }
}

impl Table {
    /// A table without a file.
    pub fn new(alloc: Global) -> Table
        ensures { result ≡ empty_table }
    {
        Table {
            files: BTreeMap::new(alloc),
            inode: Tree::new(alloc, 0),
        }
    }

    /// The files by number.
    pub fn files(&self) -> &BTreeMap<u32, File>
        ensures { map_of nat_cmp result.now ≡ self.now.files }
    {
        &self.files
    }

    /// The inode file.
    pub fn inode(&self) -> &Tree
        ensures { result.now ≡ self.now.inode }
    {
        &self.inode
    }

    /// The file of a name, with its number.
    pub fn file_named(&self, name: &Name) -> Option<(u32, &File)>
        ensures { option_map (λ e. (e.0, e.1.now)) result ≡ file_named self.now name.now }
    {
        find_file(&self.files, name)
    }

    /// The table after a change made a file.
    #[tactic(auto, unfolding(fv_model::specs::Tables::new))]
    pub fn new_file(
        &self,
        alloc: Global,
        name: &Name,
        reserve: u32,
        stamp: u64,
    ) -> Result<Table, AllocError>
        requires { fin.len self.now.files < most_files }
        ensures { IfOk result (λ t. t ≡ new self.now name.now reserve stamp) }
    {
        let number = free_number(&self.files);
        self.with_file(alloc, number, File::new(alloc, name, reserve), stamp)
    }

    /// The table after a change wrote a cell of a file.
    #[tactic(auto, unfolding(fv_model::specs::Tables::put))]
    pub fn put(
        &self,
        alloc: Global,
        number: u32,
        file: &File,
        index: u32,
        block: &Block,
        stamp: u64,
    ) -> Result<Table, AllocError>
        ensures { IfOk result (λ t. t ≡ put self.now number file.now index block.now stamp) }
    {
        let file = file.put(alloc, index, block, stamp)?;
        self.with_file(alloc, number, file, stamp)
    }

    /// The table after a change cut a file to a length.
    #[tactic(auto, unfolding(fv_model::specs::Tables::cut))]
    pub fn cut(
        &self,
        alloc: Global,
        number: u32,
        file: &File,
        length: u32,
        stamp: u64,
    ) -> Result<Table, AllocError>
        ensures { IfOk result (λ t. t ≡ cut self.now number file.now length stamp) }
    {
        let file = file.cut(alloc, length, stamp)?;
        self.with_file(alloc, number, file, stamp)
    }

    /// The table with a file under a number, whose inode cell a change wrote.
    fn with_file(
        &self,
        alloc: Global,
        number: u32,
        file: File,
        stamp: u64,
    ) -> Result<Table, AllocError>
        ensures { IfOk result (λ t. t ≡ record { files = fin.insert self.now.files number file; inode = written stamp (inode_cell number) self.now.inode }) }
    {
        let mut files = copy(&self.files)?;
        insert(&mut files, number, file)?;
        let inode = self.inode.written(alloc, stamp, number / 16)?;
        Ok(Table { files, inode })
    }

    /// The table after a change removed a file.
    #[tactic(auto, unfolding(fv_model::specs::Tables::rm))]
    pub fn remove(&self, alloc: Global, number: u32, stamp: u64) -> Result<Table, AllocError>
        ensures { IfOk result (λ t. t ≡ rm self.now number stamp) }
    {
        let mut files = copy(&self.files)?;
        remove(&mut files, &number);
        let left = inode_cells(alloc, &keys(alloc, &files)?)?;
        let inode = self.inode.erased(alloc, stamp, 0, &[number / 16], &left)?;
        Ok(Table { files, inode })
    }
}

/// The inode cells of file numbers.
fn inode_cells(alloc: Global, numbers: &[u32]) -> Result<Vec<u32>, AllocError>
    ensures { IfOk result (λ v. v.items ≡ map inode_cell numbers.now) }
{
    numbers.iter().map(|number| *number / 16).collect(alloc)
}

/// The least number that no file has.
#[tactic(auto, using(crate::proofs::Levels::free_here, crate::proofs::Levels::none_free))]
fn free_number(files: &BTreeMap<u32, File>) -> u32
    requires { fin.len (map_of nat_cmp files.now) < most_files }
    ensures { result ≡ prefix_len (λ k. fin.contains_key (map_of nat_cmp files.now) k) (range_with_len 0 (fin.len (map_of nat_cmp files.now) + 1)) }
{
    let end = len(files) as u32 + 1;
    for number in 0..end {
        if is_free(files, number) {
            return number;
        }
    }
    end
}

fn is_free(files: &BTreeMap<u32, File>, number: u32) -> bool
    ensures { result ≡ not (fin.contains_key (map_of nat_cmp files.now) number) }
{
    get(files, &number).is_none()
}

/// The first file of a name, with its number.
fn find_file<'a>(files: &'a BTreeMap<u32, File>, name: &Name) -> Option<(u32, &'a File)>
    ensures { option_map (λ e. (e.0, e.1.now)) result ≡ find (λ e. is_same_name e.1.name name.now) (fin.entries (map_of nat_cmp files.now)) }
{
    let _count = files.len();
    find_listed(files, name)
}

fn find_listed<'a>(files: &'a BTreeMap<u32, File>, name: &Name) -> Option<(u32, &'a File)>
    ensures { option_map (λ e. (e.0, e.1.now)) result ≡ find (λ e. is_same_name e.1.name name.now) files.now.entries }
{
    for (number, file) in files {
        if file.name() == name {
            return Some((*number, file));
        }
    }
    None
}
