//! Writing a block of a file.

ghost use Rattle.std.specs.Prelude.{◌≡◌, ◌≤◌, ◌<◌, ◌+◌, true, is_some, OnOk};
ghost use Rattle.std.specs.Ordering.{nat_cmp};
ghost use Rattle.std.specs.BTreeMap as maps;
ghost use Rattle.fv_files.specs.Right.{HasRightKept, HasRightTrees};
ghost use Rattle.fv_tree.specs.Sources.{IsUntouched};
ghost use Rattle.fv_inode.specs.Files.{rooted, IsInfo};
ghost use Rattle.fv_files.specs.Tables.{table_in, IsInfoOf, tree_in};
ghost use Rattle.fv_files.specs.Failing.{FilesFail};
ghost use Rattle.fv_files.specs.Calls.{IsPrepared, longer, Changes, KeepsLed, KeptFails, PutsKept, WritesCell};
ghost use Rattle.fv_files.specs.Pending.{pending_in};
ghost use Rattle.fv_files.specs.Altering.{AltersPlaces};

use crate::files::{Files, FilesFault};
use crate::held::{HeldTrees, cost_of, recounted};
use crate::hold::prepare;
use fv_inode::Info;
use fv_tree::Blocks;

impl Files {
    /// Writes block `index` of the file of which this is known, below 2,097,152, with a stamp of at least 1: the machine's
    /// put. The file's tree is in memory afterwards, and its record has the length. It loads at most what
    /// `InodeFile::ready` and `Tree::put` load. A flush has at most 14 blocks more to place afterwards. After a fault the table
    /// is told as before.
    ///
    /// # Errors
    ///
    /// As `InodeFile::ready` and `Tree::put`, and `Memory` where there is no memory for the tree.
    #[tactic(auto, using(crate::proofs::Prepared::changes_handed, crate::proofs::Prepared::table_handed, crate::proofs::Prepared::prepared_alone, crate::proofs::Prepared::table_alone, crate::proofs::Prepared::prepared_led, crate::proofs::Prepared::few_pending))]
    pub fn write<B: Blocks>(
        &mut self,
        blocks: &mut B,
        info: &Info,
        index: u32,
        block: &[u8; 4096],
        stamp: u64,
    ) -> Result<(), FilesFault>
        requires index { index < 2097152 }
        requires stamp { 1 ≤ stamp }
        requires range { IsInfo info.now }
        requires there { B.told → IsInfoOf (rooted (B.shown blocks.old) self.old.inode) info.now }
        requires right { B.told → HasRightTrees (B.shown blocks.old) self.old }
        ensures written { B.told → OnOk result (WritesCell (table_in (B.shown blocks.old) self.old) (table_in (B.shown blocks.new) self.new) info.now.number index stamp block.now) }
        ensures changes { Changes B.told (Unit {0}) (B.shown blocks.old) (B.shown blocks.new) self.old self.new (FilesFail B.told (table_in (B.shown blocks.old) self.old) (B.shown blocks.old) (B.shown blocks.new)) result }
        ensures alters { AltersPlaces B.told (Unit {0}) (B.shown blocks.old) (B.shown blocks.new) self.old self.new stamp result }
        ensures led { B.told → KeepsLed (B.shown blocks.old) (B.shown blocks.new) self.old self.new }
        ensures pending { pending_in self.new ≤ pending_in self.old + 14 }
        ensures untouched { IsUntouched (B.shown blocks.old) (B.shown blocks.new) }
        ensures reads { B.reads blocks.old blocks.new }
    {
        if !prepare(self, blocks, info)? {
            return Ok(());
        }
        write_ready(self, blocks, info, index, block, stamp)
    }
}

/// Writes a block of a file that is held ready.
fn write_ready<B: Blocks>(
    files: &mut Files,
    blocks: &mut B,
    info: &Info,
    index: u32,
    block: &[u8; 4096],
    stamp: u64,
) -> Result<(), FilesFault>
    requires index { index < 2097152 }
    requires stamp { 1 ≤ stamp }
    requires prepared { IsPrepared B.told (B.shown blocks.old) files.old info.now }
    requires right { B.told → HasRightKept (B.shown blocks.old) (tree_in files.old info.now.number) }
    ensures written { B.told → OnOk result (WritesCell (table_in (B.shown blocks.old) files.old) (table_in (B.shown blocks.new) files.new) info.now.number index stamp block.now) }
    ensures changes { Changes B.told (Unit {0}) (B.shown blocks.old) (B.shown blocks.new) files.old files.new (KeptFails B.told (B.shown blocks.old) (B.shown blocks.new) files.old info.now.number) result }
    ensures alters { AltersPlaces B.told (Unit {0}) (B.shown blocks.old) (B.shown blocks.new) files.old files.new stamp result }
    ensures led { B.told → KeepsLed (B.shown blocks.old) (B.shown blocks.new) files.old files.new }
    ensures pending { pending_in files.new ≤ pending_in files.old + 10 }
    ensures untouched { IsUntouched (B.shown blocks.old) (B.shown blocks.new) }
    ensures reads { B.reads blocks.old blocks.new }
{
    put_kept(&mut files.trees, blocks, info.number, index, block, stamp)?;
    files.inode.rewrite(&longer(info, index), stamp);
    Ok(())
}

/// Writes a cell of a tree in memory.
fn put_kept<B: Blocks>(
    trees: &mut HeldTrees,
    blocks: &mut B,
    number: u32,
    index: u32,
    block: &[u8; 4096],
    stamp: u64,
) -> Result<(), FilesFault>
    requires index { index < 2097152 }
    requires stamp { 1 ≤ stamp }
    requires kept { is_some (maps.get nat_cmp trees.old number) ≡ true }
    requires right { B.told → HasRightKept (B.shown blocks.old) (maps.get nat_cmp trees.old number) }
    ensures puts { PutsKept B.told (B.shown blocks.old) (B.shown blocks.new) trees.old trees.new number index stamp block.now result }
    ensures reads { B.reads blocks.old blocks.new }
{
    let _ = trees.by_number.len();
    match trees.by_number.get_mut(&number) {
        Some(tree) => {
            let before = cost_of(tree);
            let result = tree.put(blocks, index, block, stamp);
            trees.cost = recounted(trees.cost, before, cost_of(tree));
            result
        }
        None => Ok(()),
    }
}

/// What is known of a file once a cell was written, but for its tree.
fn longer(info: &Info, index: u32) -> Info
    requires range { IsInfo info.now }
    requires index { index < 2097152 }
    ensures is { result ≡ longer info.now index }
    ensures range { IsInfo result }
{
    let reach = index + 1;
    let length = if info.length < reach {
        reach
    } else {
        info.length
    };
    Info { length, ..*info }
}
