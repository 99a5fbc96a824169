//! A file whose record can be changed without a fault.

ghost use Rattle.std.specs.Prelude.{◌≡◌, ◌≤◌, ◌+◌, ◌/◌, ℕ, true, is_some, IfOk};
ghost use Rattle.fv_tables.specs.Spelled.{Under};
ghost use Rattle.fv_tables.specs.Told.{records_each, file_at};
ghost use Rattle.fv_tree.specs.Places.{HasRightPlaces};
ghost use Rattle.fv_tree.specs.Standing.{standing, under};
ghost use Rattle.fv_tree.specs.Writing.{IsAlike, Remains};
ghost use Rattle.fv_tree.specs.Readying.{IsReady};
ghost use Rattle.fv_tree.specs.Costs.{Rises};
ghost use Rattle.fv_tree.specs.Altering.{Leaves};
ghost use Rattle.fv_tree.specs.Flushing.{loaded};
ghost use Rattle.fv_inode.specs.Files.{rooted};
ghost use Rattle.fv_inode.specs.Failing.{OnlyLoads};
ghost use Rattle.fv_inode.specs.Readying.{HoldsFile, IsReadyFile};

use crate::file::InodeFile;
use crate::info::InodeFault;
use crate::records::{EACH, read_files};
use fv_codec::{Form, InodeBlock, has_form};
use fv_tree::{Blocks, Tree};

impl InodeFile {
    /// Brings the inode block of a file and the nodes over it into memory, so that a `rewrite` or an `erase` of the file
    /// can't fail; false exactly where no file has the number. The inode file stays as it is, after a fault, too. Where they
    /// are in memory it loads nothing; else it loads what `Tree::ready` loads, and once more to read the record. They stay in
    /// memory unchanged: for them alone a `flush` places nothing.
    ///
    /// # Errors
    ///
    /// As `find`, and `Memory` where there is no memory for the nodes and the inode block.
    pub fn ready<B: Blocks>(&mut self, blocks: &mut B, number: u32) -> Result<bool, InodeFault>
        requires right { B.told → HasRightPlaces (B.shown blocks.old) self.old.tree }
        ensures ready { IfOk result (λ there. there ≡ true → IsReadyFile self.new number) }
        ensures there { B.told → IfOk result (λ there. is_some (file_at (rooted (B.shown blocks.old) self.old) number) ≡ there) }
        ensures alike { B.told → IsAlike (rooted (B.shown blocks.old) self.old) (rooted (B.shown blocks.new) self.new) }
        ensures remains { B.told → Remains (rooted (B.shown blocks.old) self.old) (rooted (B.shown blocks.new) self.new) }
        ensures files { B.told → (n : ℕ) → file_at (rooted (B.shown blocks.new) self.new) n ≡ file_at (rooted (B.shown blocks.old) self.old) n }
        ensures levels { self.new.tree.levels ≡ self.old.tree.levels }
        ensures loads { OnlyLoads B.told (B.shown blocks.old) (B.shown blocks.new) self.old.tree self.new.tree result }
        ensures leaves { B.told → Leaves (loaded (B.shown blocks.old) self.old.tree) (loaded (B.shown blocks.new) self.new.tree) }
        ensures rises { Rises self.old.tree self.new.tree 0 1 }
        ensures reads { B.reads blocks.old blocks.new }
    {
        ready_file(&mut self.tree, blocks, number)
    }
}

/// Brings the inode block of a file and the nodes over it into memory, once it has the shape of one.
fn ready_file<B: Blocks>(tree: &mut Tree, blocks: &mut B, number: u32) -> Result<bool, InodeFault>
    requires right { B.told → HasRightPlaces (B.shown blocks.old) tree.old }
    ensures ready { IfOk result (λ there. there ≡ true → HoldsFile tree.new number) }
    ensures there { B.told → IfOk result (λ there. is_some (file_at (standing (under (B.shown blocks.old)) tree.old) number) ≡ there) }
    ensures alike { B.told → IsAlike (standing (under (B.shown blocks.old)) tree.old) (standing (under (B.shown blocks.new)) tree.new) }
    ensures levels { tree.new.levels ≡ tree.old.levels }
    ensures loads { OnlyLoads B.told (B.shown blocks.old) (B.shown blocks.new) tree.old tree.new result }
    ensures leaves { B.told → Leaves (loaded (B.shown blocks.old) tree.old) (loaded (B.shown blocks.new) tree.new) }
    ensures rises { Rises tree.old tree.new 0 1 }
    ensures reads { B.reads blocks.old blocks.new }
{
    if holds_file(tree, number) {
        return Ok(true);
    }
    let files = read_files(tree, blocks, number / EACH)?;
    if files[(number % EACH) as usize].name_length == 0 {
        return Ok(false);
    }
    hold(tree, blocks, number)
}

/// Brings the inode block of a file and the nodes over it into memory.
fn hold<B: Blocks>(tree: &mut Tree, blocks: &mut B, number: u32) -> Result<bool, InodeFault>
    requires right { B.told → HasRightPlaces (B.shown blocks.old) tree.old }
    ensures ready { IfOk result (λ there. there ≡ true → HoldsFile tree.new number) }
    ensures there { B.told → IfOk result (λ there. is_some (file_at (standing (under (B.shown blocks.old)) tree.old) number) ≡ there) }
    ensures alike { B.told → IsAlike (standing (under (B.shown blocks.old)) tree.old) (standing (under (B.shown blocks.new)) tree.new) }
    ensures levels { tree.new.levels ≡ tree.old.levels }
    ensures loads { OnlyLoads B.told (B.shown blocks.old) (B.shown blocks.new) tree.old tree.new result }
    ensures leaves { B.told → Leaves (loaded (B.shown blocks.old) tree.old) (loaded (B.shown blocks.new) tree.new) }
    ensures rises { Rises tree.old tree.new 0 1 }
    ensures reads { B.reads blocks.old blocks.new }
{
    let there = tree.ready(blocks, number / EACH)?;
    if !there {
        return Ok(false);
    }
    Ok(has_record(tree, number))
}

/// Whether the inode block of a file and the nodes over it are in memory, and a file has the number.
fn holds_file(tree: &Tree, number: u32) -> bool
    ensures { result ≡ true → HoldsFile tree.now number }
{
    if !tree.is_ready(number / EACH) {
        return false;
    }
    has_record(tree, number)
}

/// Whether a file has a number, whose inode block is in memory.
fn has_record(tree: &Tree, number: u32) -> bool
    requires ready { IsReady tree.now (number / records_each) }
    ensures { (blocks : Under) → is_some (file_at (standing blocks tree.now) number) ≡ result }
{
    let mut block = [0; 4096];
    tree.content(number / EACH, &mut block);
    if !has_form(&block, Form::Inodes) {
        return false;
    }
    InodeBlock::record(&block, number % EACH).name_length != 0
}
