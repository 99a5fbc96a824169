//! Making a file.

ghost use Rattle.std.specs.Prelude.{◌≡◌, ◌≤◌, ◌<◌, ◌+◌, OnOk};
ghost use Rattle.fv_codec.specs.Blocks.{most_cells};
ghost use Rattle.fv_model.specs.Numbers.{most_files};
ghost use Rattle.fv_model.specs.Tables.{new};
ghost use Rattle.fv_tables.specs.Told.{table_told};
ghost use Rattle.fv_tree.specs.Places.{HasRightPlaces};
ghost use Rattle.fv_tree.specs.Sources.{IsUntouched};
ghost use Rattle.fv_inode.specs.Files.{rooted, IsLeastFree};
ghost use Rattle.fv_files.specs.Tables.{table_in, AreStanding};
ghost use Rattle.fv_files.specs.Failing.{FilesFail};
ghost use Rattle.fv_files.specs.Calls.{Changes, KeepsLed};
ghost use Rattle.fv_files.specs.Pending.{pending_in};
ghost use Rattle.fv_files.specs.Altering.{AltersPlaces};

use crate::files::{Files, FilesFault};
use fv_model::Name;
use fv_tree::Blocks;

impl Files {
    /// Makes a file of a name under a number below 262,144, the least that is free, of length 0, with a reserve of at most
    /// 2,097,152 blocks and a stamp of at least 1: the machine's new, for a table that stands on its blocks. That no file has the
    /// name is the caller's to see to. Its cost is that of `InodeFile::create`. A flush has at most 14 blocks more to place
    /// afterwards. After a fault the table is told as before.
    ///
    /// # Errors
    ///
    /// As `InodeFile::create`.
    pub fn create<B: Blocks>(
        &mut self,
        blocks: &mut B,
        number: u32,
        name: &Name,
        reserve: u32,
        stamp: u64,
    ) -> Result<(), FilesFault>
        requires stamp { 1 ≤ stamp }
        requires reserve { reserve ≤ most_cells }
        requires number { number < most_files }
        requires free { B.told → IsLeastFree (rooted (B.shown blocks.old) self.old.inode) number }
        requires right { B.told → HasRightPlaces (B.shown blocks.old) self.old.inode.tree }
        ensures made { B.told → OnOk result (AreStanding (B.shown blocks.old) self.old → table_told (table_in (B.shown blocks.new) self.new) ≡ new (table_told (table_in (B.shown blocks.old) self.old)) name.now reserve stamp) }
        ensures changes { Changes B.told (Unit {0}) (B.shown blocks.old) (B.shown blocks.new) self.old self.new (FilesFail B.told (table_in (B.shown blocks.old) self.old) (B.shown blocks.old) (B.shown blocks.new)) result }
        ensures alters { AltersPlaces B.told (Unit {0}) (B.shown blocks.old) (B.shown blocks.new) self.old self.new stamp result }
        ensures led { B.told → KeepsLed (B.shown blocks.old) (B.shown blocks.new) self.old self.new }
        ensures pending { pending_in self.new ≤ pending_in self.old + 14 }
        ensures untouched { IsUntouched (B.shown blocks.old) (B.shown blocks.new) }
        ensures reads { B.reads blocks.old blocks.new }
    {
        match self.inode.create(blocks, number, name, reserve, stamp) {
            Ok(_) => Ok(()),
            Err(fault) => Err(fault),
        }
    }
}
