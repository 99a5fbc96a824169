//! What goes with a file, before it is taken away.

ghost use Rattle.std.specs.Prelude.{◌≡◌, ◌<◌, ◌≤◌, ◌/◌, slice_set, length, IfOk};
ghost use Rattle.fv_codec.specs.Blocks.{all_free};
ghost use Rattle.fv_tables.specs.Told.{records_each};
ghost use Rattle.fv_tree.specs.Places.{HasRightPlaces};
ghost use Rattle.fv_tree.specs.Counting.{staying_at};
ghost use Rattle.fv_tree.specs.Erasing.{HoldsCells};
ghost use Rattle.fv_tree.specs.Flushing.{loaded};
ghost use Rattle.fv_inode.specs.Files.{rooted, blank_record};
ghost use Rattle.fv_inode.specs.Failing.{Looks};
ghost use Rattle.fv_inode.specs.Losing.{IsLost};

use crate::file::InodeFile;
use crate::info::InodeFault;
use crate::records::{EACH, all_free, free_record, read_files};
use fv_codec::InodeRecord;
use fv_tree::{Sharing, Taken};

impl InodeFile {
    /// What goes of the inode file when the file of a number is taken away, where no mark lies over holes alone: its inode cell and each
    /// mark over that alone, if no other file is in its inode block, and else none. What stays charged is that of the cell and of the
    /// nodes over it, as `staying` counts it. It keeps nothing in memory. It loads at most the file's inode block with the nodes over
    /// it, and these twice more.
    ///
    /// # Errors
    ///
    /// As `find`.
    pub fn taken<B: Sharing>(&self, blocks: &mut B, number: u32) -> Result<Taken, InodeFault>
        requires right { B.told → HasRightPlaces (B.shown blocks.old) self.now.tree }
        ensures gone { B.told → HoldsCells (rooted (B.shown blocks.old) self.now) → IfOk result (λ taken. IsLost (rooted (B.shown blocks.old) self.now) number taken.gone) }
        ensures staying { B.told → IfOk result (λ taken. taken.staying ≡ staying_at (loaded (B.shown blocks.old) self.now.tree) (B.shared blocks.old) (number / records_each)) }
        ensures few { IfOk result (λ taken. (taken.gone < 4194304) × (taken.staying ≤ 4)) }
        ensures looks { Looks B.told (rooted (B.shown blocks.old) self.now) (B.shown blocks.old) (B.shown blocks.new) result }
        ensures reads { B.reads blocks.old blocks.new }
    {
        let staying = self.staying(blocks, number)?;
        let gone = lost(self, blocks, number)?;
        Ok(Taken { gone, staying })
    }
}

/// How many positions of the inode file go with the file of a number.
fn lost<B: Sharing>(file: &InodeFile, blocks: &mut B, number: u32) -> Result<u32, InodeFault>
    requires right { B.told → HasRightPlaces (B.shown blocks.old) file.now.tree }
    ensures lost { B.told → HoldsCells (rooted (B.shown blocks.old) file.now) → IfOk result (IsLost (rooted (B.shown blocks.old) file.now) number) }
    ensures few { IfOk result (λ count. count < 4194304) }
    ensures looks { Looks B.told (rooted (B.shown blocks.old) file.now) (B.shown blocks.old) (B.shown blocks.new) result }
    ensures reads { B.reads blocks.old blocks.new }
{
    let files = read_files(&file.tree, blocks, number / EACH)?;
    if !is_last(&files, number % EACH) {
        return Ok(0);
    }
    file.tree.lost(blocks, number / EACH)
}

/// Whether all other records of an inode block are free.
fn is_last(files: &[InodeRecord; 16], slot: u32) -> bool
    requires { slot < 16 }
    ensures { result ≡ all_free (slice_set files.now slot blank_record) }
{
    let mut others = *files;
    others[slot as usize] = free_record();
    all_free(&others)
}
