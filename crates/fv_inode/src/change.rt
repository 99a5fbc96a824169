//! Changing what is known of a file.

ghost use Rattle.std.specs.Prelude.{◌≡◌, ◌≤◌, ◌/◌, ◌+◌, ℕ, Option, true, is_some, OnOk};
ghost use Rattle.std.specs.Option.{option_map};
ghost use Rattle.fv_tables.specs.Spelled.{Under};
ghost use Rattle.fv_tables.specs.Told.{records_each, file_at};
ghost use Rattle.fv_tree.specs.Places.{HasRightPlaces};
ghost use Rattle.fv_tree.specs.Standing.{standing};
ghost use Rattle.fv_tree.specs.Costs.{Rises};
ghost use Rattle.fv_tree.specs.Altering.{Alters, AltersHeld};
ghost use Rattle.fv_tree.specs.Flushing.{changed_of, loaded};
ghost use Rattle.fv_inode.specs.Files.{rooted, with_info, IsInfo};
ghost use Rattle.fv_inode.specs.Failing.{OnlyLoads};
ghost use Rattle.fv_inode.specs.Readying.{IsReadyFile};
ghost use Rattle.fv_inode.specs.Changing.{Rewrites};

use crate::file::InodeFile;
use crate::info::{Info, InodeFault};
use crate::records::EACH;
use fv_codec::{InodeBlock, InodeRecord};
use fv_tree::Blocks;

impl InodeFile {
    /// Lets the record of a file say this of it; its name stays. The file's inode cell and the marks over it get the
    /// stamp, which is at least 1. A file has the number; over content that isn't told, one that has no file changes
    /// nothing. It loads as `ready` does. Those nodes and the inode block stay in memory. After a fault the inode file
    /// is seen as before.
    ///
    /// # Errors
    ///
    /// As `ready`.
    pub fn change<B: Blocks>(
        &mut self,
        blocks: &mut B,
        info: &Info,
        stamp: u64,
    ) -> Result<(), InodeFault>
        requires stamp { 1 ≤ stamp }
        requires there { B.told → is_some (file_at (rooted (B.shown blocks.old) self.old) info.now.number) ≡ true }
        requires info { IsInfo info.now }
        requires right { B.told → HasRightPlaces (B.shown blocks.old) self.old.tree }
        ensures changed { B.told → OnOk result (Rewrites (rooted (B.shown blocks.old) self.old) (rooted (B.shown blocks.new) self.new) info.now.number stamp (option_map (with_info info.now) (file_at (rooted (B.shown blocks.old) self.old) info.now.number))) }
        ensures loads { OnlyLoads B.told (B.shown blocks.old) (B.shown blocks.new) self.old.tree self.new.tree result }
        ensures alters { B.told → Alters stamp (loaded (B.shown blocks.old) self.old.tree) (loaded (B.shown blocks.new) self.new.tree) }
        ensures rises { Rises self.old.tree self.new.tree 4 1 }
        ensures reads { B.reads blocks.old blocks.new }
    {
        let there = self.ready(blocks, info.number)?;
        if !there {
            return Ok(());
        }
        self.rewrite(info, stamp);
        Ok(())
    }

    /// Lets the record of a file say this of it, where `ready` brought it into memory; its name stays. The file's inode
    /// cell and the marks over it get the stamp, which is at least 1. It takes no memory, makes no call and can't fail.
    pub fn rewrite(&mut self, info: &Info, stamp: u64)
        requires stamp { 1 ≤ stamp }
        requires ready { IsReadyFile self.old info.now.number }
        requires info { IsInfo info.now }
        ensures rewrites { (blocks : Under) → Rewrites (standing blocks self.old.tree) (standing blocks self.new.tree) info.now.number stamp (option_map (with_info info.now) (file_at (standing blocks self.old.tree) info.now.number)) }
        ensures ready { IsReadyFile self.new info.now.number }
        ensures alters { AltersHeld self.old.tree self.new.tree stamp }
        ensures marked { changed_of self.new.tree 0 (info.now.number / records_each) ≡ true }
        ensures rises { Rises self.old.tree self.new.tree 4 0 }
    {
        let cell = info.number / EACH;
        let slot = info.number % EACH;
        let mut block = [0; 4096];
        self.tree.content(cell, &mut block);
        let file = with_info(&InodeBlock::record(&block, slot), info);
        InodeBlock::renew(&mut block, u64::from(cell), slot, &file);
        self.tree.rewrite(cell, &block, stamp);
    }
}

/// A record with the numbers of an info.
fn with_info(file: &InodeRecord, info: &Info) -> InodeRecord
    ensures { result ≡ with_info info.now file.now }
{
    InodeRecord {
        name_length: file.name_length,
        name: file.name,
        length: info.length,
        reserve: info.reserve,
        levels: info.levels,
        root: info.root,
    }
}
