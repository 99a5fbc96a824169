//! Taking a file away.

ghost use Rattle.std.specs.Prelude.{◌≡◌, ◌≢◌, ◌≤◌, ◌+◌, ◌/◌, ℕ, true, is_some, Ok};
ghost use Rattle.fv_tables.specs.Told.{records_each, file_at};
ghost use Rattle.fv_tree.specs.Places.{HasRightPlaces};
ghost use Rattle.fv_tree.specs.Readying.{IsReady};
ghost use Rattle.fv_tree.specs.Costs.{Rises};
ghost use Rattle.fv_inode.specs.Files.{rooted};
ghost use Rattle.fv_inode.specs.Readying.{IsReadyFile};
ghost use Rattle.fv_inode.specs.Changing.{TakesFile};

use crate::file::InodeFile;
use crate::info::InodeFault;
use crate::records::{EACH, all_free, free_record, held_files, rewrite_files};
use fv_tree::Blocks;

impl InodeFile {
    /// Takes a file away; a file has the number, and over content that isn't told one that has no file changes nothing.
    /// Answers how many positions of the inode file went, its cell and marks. While another file is in its inode block, the
    /// inode cell and the marks over it get the stamp, which is at least 1. With the last one the cell goes, each mark
    /// without a cell goes, and the other marks over it get the stamp; with the last file of all the levels become 0. It
    /// loads as `ready` does. Each placed block that it drops is named once to `gone`, after its last load. After a fault
    /// the inode file is seen as before, and none was named.
    ///
    /// # Errors
    ///
    /// As `ready`.
    pub fn remove<B: Blocks>(
        &mut self,
        blocks: &mut B,
        number: u32,
        stamp: u64,
    ) -> Result<u32, InodeFault>
        requires stamp { 1 ≤ stamp }
        requires there { B.told → is_some (file_at (rooted (B.shown blocks.old) self.old) number) ≡ true }
        requires right { B.told → HasRightPlaces (B.shown blocks.old) self.old.tree }
        ensures takes { TakesFile B.told (B.goes blocks.old blocks.new) (B.shown blocks.old) (B.shown blocks.new) self.old.tree self.new.tree number stamp result }
        ensures rises { Rises self.old.tree self.new.tree 4 1 }
    {
        let there = self.ready(blocks, number)?;
        if !there {
            return Ok(0);
        }
        Ok(self.erase(blocks, number, stamp))
    }

    /// Takes a file away as `remove` does, where `ready` brought it into memory; answers how many positions of the inode
    /// file went. It takes no memory and can't fail.
    pub fn erase<B: Blocks>(&mut self, blocks: &mut B, number: u32, stamp: u64) -> u32
        requires stamp { 1 ≤ stamp }
        requires ready { IsReadyFile self.old number }
        ensures takes { TakesFile B.told (B.goes blocks.old blocks.new) (B.shown blocks.old) (B.shown blocks.new) self.old.tree self.new.tree number stamp (Ok result) }
        ensures others_ready { (m : ℕ) → m ≢ number → IsReadyFile self.old m → IsReady self.new.tree (m / records_each) }
        ensures rises { Rises self.old.tree self.new.tree 4 0 }
    {
        let cell = number / EACH;
        let mut files = held_files(&self.tree, cell);
        files[(number % EACH) as usize] = free_record();
        if all_free(&files) {
            self.tree.erase(blocks, cell, 0, stamp)
        } else {
            rewrite_files(&mut self.tree, cell, &files, stamp);
            0
        }
    }
}
