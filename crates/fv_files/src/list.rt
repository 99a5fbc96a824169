//! What is asked of a table's files. None of it changes the table.

ghost use Rattle.std.specs.Prelude.{◌≡◌, ◌+◌, ◌/◌, IfOk, OnOk};
ghost use Rattle.std.specs.Option.{option_map};
ghost use Rattle.std.specs.FinMap as fin;
ghost use Rattle.fv_tables.specs.Told.{file_at, records_each};
ghost use Rattle.fv_tree.specs.Places.{HasRightPlaces, IsReadable};
ghost use Rattle.fv_tree.specs.Flushing.{loaded};
ghost use Rattle.fv_tree.specs.Lookups.{way_cost};
ghost use Rattle.fv_inode.specs.Files.{rooted, info_of, Finds, IsFreeNumber, IsInfoIf, IsNumberIf};
ghost use Rattle.fv_inode.specs.Listing.{names_told};
ghost use Rattle.fv_inode.specs.Failing as inodes;

use crate::files::{Files, FilesFault};
use fv_inode::Info;
use fv_model::{Name, Names};
use fv_tree::Blocks;

impl Files {
    /// What is known of the file of a name; `None` exactly where no file has it. Its cost is that of `InodeFile::find`.
    ///
    /// # Errors
    ///
    /// As `InodeFile::find`.
    pub fn find<B: Blocks>(
        &mut self,
        blocks: &mut B,
        name: &Name,
    ) -> Result<Option<Info>, FilesFault>
        requires right { B.told → HasRightPlaces (B.shown blocks.old) self.old.inode.tree }
        ensures found { B.told → IfOk result (Finds (rooted (B.shown blocks.old) self.old.inode) name.now) }
        ensures range { IfOk result IsInfoIf }
        ensures same { self.new ≡ self.old }
        ensures looks { inodes.Looks B.told (rooted (B.shown blocks.old) self.old.inode) (B.shown blocks.old) (B.shown blocks.new) result }
        ensures reads { B.reads blocks.old blocks.new }
    {
        self.inode.find(blocks, name)
    }

    /// What is known of the file of a number; `None` exactly where no file has it. Its cost is that of `InodeFile::look`.
    ///
    /// # Errors
    ///
    /// As `InodeFile::look`.
    pub fn look<B: Blocks>(&self, blocks: &mut B, number: u32) -> Result<Option<Info>, FilesFault>
        requires right { B.told → IsReadable (B.shown blocks.old) self.now.inode.tree }
        ensures found { B.told → IfOk result (λ found. found ≡ option_map (info_of number) (file_at (rooted (B.shown blocks.old) self.now.inode) number)) }
        ensures spent { B.told → OnOk result ((B.shown blocks.new).spent ≡ (B.shown blocks.old).spent + way_cost (B.shown blocks.old).cost (loaded (B.shown blocks.old) self.now.inode.tree) (number / records_each)) }
        ensures range { IfOk result IsInfoIf }
        ensures looks { inodes.Looks B.told (rooted (B.shown blocks.old) self.now.inode) (B.shown blocks.old) (B.shown blocks.new) result }
        ensures reads { B.reads blocks.old blocks.new }
    {
        self.inode.look(blocks, number)
    }

    /// The least number below 262,144 that no file has, which a new file gets; `None` where all are taken. Its cost is that
    /// of `InodeFile::free_number`.
    ///
    /// # Errors
    ///
    /// As `InodeFile::free_number`.
    pub fn free_number<B: Blocks>(&self, blocks: &mut B) -> Result<Option<u32>, FilesFault>
        requires right { B.told → HasRightPlaces (B.shown blocks.old) self.now.inode.tree }
        ensures number { B.told → IfOk result (IsFreeNumber (rooted (B.shown blocks.old) self.now.inode)) }
        ensures range { IfOk result IsNumberIf }
        ensures looks { inodes.Looks B.told (rooted (B.shown blocks.old) self.now.inode) (B.shown blocks.old) (B.shown blocks.new) result }
        ensures reads { B.reads blocks.old blocks.new }
    {
        self.inode.free_number(blocks)
    }

    /// The names of all files, in byte order; each name once. Its cost is that of `InodeFile::list`.
    ///
    /// # Errors
    ///
    /// As `InodeFile::list`.
    pub fn list<B: Blocks>(&mut self, blocks: &mut B) -> Result<Names, FilesFault>
        requires right { B.told → HasRightPlaces (B.shown blocks.old) self.old.inode.tree }
        ensures names { B.told → IfOk result (λ names. names ≡ fin.keys (names_told (rooted (B.shown blocks.old) self.old.inode))) }
        ensures same { self.new ≡ self.old }
        ensures looks { inodes.Looks B.told (rooted (B.shown blocks.old) self.old.inode) (B.shown blocks.old) (B.shown blocks.new) result }
        ensures reads { B.reads blocks.old blocks.new }
    {
        self.inode.list(blocks)
    }
}
