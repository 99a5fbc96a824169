//! Cutting a file to a length.

ghost use Rattle.std.specs.Prelude.{◌≡◌, ◌≤◌, ◌+◌, ℕ, true, is_some, IfOk, OnOk, OnErr};
ghost use Rattle.std.specs.Ordering.{nat_cmp};
ghost use Rattle.std.specs.BTreeMap as maps;
ghost use Rattle.fv_files.specs.Right.{HasRightKept, HasRightTrees};
ghost use Rattle.fv_codec.specs.Blocks.{most_cells};
ghost use Rattle.fv_laws.specs.WellFormed.{IsWellTable};
ghost use Rattle.fv_tables.specs.Told.{table_told};
ghost use Rattle.fv_inode.specs.Files.{rooted, IsInfo};
ghost use Rattle.fv_files.specs.Tables.{table_in, AreStanding, IsInfoOf, tree_in};
ghost use Rattle.fv_files.specs.Failing.{FilesFail};
ghost use Rattle.fv_files.specs.Calls.{IsPrepared, shortened, Changes, CutsFile, CutsKept, KeepsLed, KeptFails, TakesByCut};
ghost use Rattle.fv_files.specs.Pending.{pending_in};
ghost use Rattle.fv_files.specs.Altering.{AltersPlaces};

use crate::files::{Files, FilesFault};
use crate::held::{HeldTrees, cost_of, recounted};
use crate::hold::prepare;
use fv_inode::{Info, least_levels};
use fv_tree::Blocks;

impl Files {
    /// Cuts the file of which this is known to a length of at most 2,097,152 blocks, with a stamp of at least 1: the machine's
    /// cut, of a table that stands on its blocks. Answers how many cells and marks of the file went. Its record has the
    /// length, also a greater one, and its inode cell gets the stamp even where no cell goes. It loads at most what
    /// `InodeFile::ready` and `Tree::cut` load. Each placed block that goes is named once to `gone`, after the last load.
    /// A flush has at most 14 blocks more to place afterwards. After a fault the table is told as before, and none was named.
    ///
    /// # Errors
    ///
    /// As `InodeFile::ready` and `Tree::cut`, and `Memory` where there is no memory for the tree.
    #[tactic(auto, using(crate::proofs::Prepared::changes_handed, crate::proofs::Prepared::table_handed, crate::proofs::Prepared::prepared_alone, crate::proofs::Prepared::table_alone, crate::proofs::Prepared::prepared_led))]
    pub fn cut<B: Blocks>(
        &mut self,
        blocks: &mut B,
        info: &Info,
        length: u32,
        stamp: u64,
    ) -> Result<u32, FilesFault>
        requires length { length ≤ most_cells }
        requires stamp { 1 ≤ stamp }
        requires range { IsInfo info.now }
        requires there { B.told → IsInfoOf (rooted (B.shown blocks.old) self.old.inode) info.now }
        requires right { B.told → HasRightTrees (B.shown blocks.old) self.old }
        ensures cut { B.told → OnOk result (AreStanding (B.shown blocks.old) self.old → CutsFile (table_in (B.shown blocks.old) self.old) (table_in (B.shown blocks.new) self.new) info.now.number length stamp) }
        ensures counted { B.told → IfOk result (λ count. AreStanding (B.shown blocks.old) self.old → TakesByCut (table_in (B.shown blocks.old) self.old) info.now.number length stamp count) }
        ensures alters { AltersPlaces B.told (Unit {0}) (B.shown blocks.old) (B.shown blocks.new) self.old self.new stamp result }
        ensures led { B.told → KeepsLed (B.shown blocks.old) (B.shown blocks.new) self.old self.new }
        ensures pending { OnErr result (pending_in self.new ≤ pending_in self.old + 14) }
        ensures pending_done { B.told → OnOk result (AreStanding (B.shown blocks.old) self.old → (now : ℕ) → IsWellTable now (table_told (table_in (B.shown blocks.old) self.old)) → pending_in self.new ≤ pending_in self.old + 14) }
        ensures changes { Changes B.told (Unit {0}) (B.shown blocks.old) (B.shown blocks.new) self.old self.new (FilesFail B.told (table_in (B.shown blocks.old) self.old) (B.shown blocks.old) (B.shown blocks.new)) result }
        ensures calls { B.goes blocks.old blocks.new }
    {
        if !prepare(self, blocks, info)? {
            return Ok(0);
        }
        cut_ready(self, blocks, info, length, stamp)
    }
}

/// Cuts a file that is held ready.
fn cut_ready<B: Blocks>(
    files: &mut Files,
    blocks: &mut B,
    info: &Info,
    length: u32,
    stamp: u64,
) -> Result<u32, FilesFault>
    requires length { length ≤ most_cells }
    requires stamp { 1 ≤ stamp }
    requires prepared { IsPrepared B.told (B.shown blocks.old) files.old info.now }
    requires right { B.told → HasRightKept (B.shown blocks.old) (tree_in files.old info.now.number) }
    ensures cut { B.told → OnOk result (AreStanding (B.shown blocks.old) files.old → CutsFile (table_in (B.shown blocks.old) files.old) (table_in (B.shown blocks.new) files.new) info.now.number length stamp) }
    ensures counted { B.told → IfOk result (λ count. AreStanding (B.shown blocks.old) files.old → TakesByCut (table_in (B.shown blocks.old) files.old) info.now.number length stamp count) }
    ensures alters { AltersPlaces B.told (Unit {0}) (B.shown blocks.old) (B.shown blocks.new) files.old files.new stamp result }
    ensures led { B.told → KeepsLed (B.shown blocks.old) (B.shown blocks.new) files.old files.new }
    ensures pending { OnErr result (pending_in files.new ≤ pending_in files.old) }
    ensures pending_done { B.told → OnOk result (AreStanding (B.shown blocks.old) files.old → (now : ℕ) → IsWellTable now (table_told (table_in (B.shown blocks.old) files.old)) → pending_in files.new ≤ pending_in files.old + 7) }
    ensures changes { Changes B.told (Unit {0}) (B.shown blocks.old) (B.shown blocks.new) files.old files.new (KeptFails B.told (B.shown blocks.old) (B.shown blocks.new) files.old info.now.number) result }
    ensures calls { B.goes blocks.old blocks.new }
{
    let start = least_levels(info.reserve);
    let count = cut_kept(&mut files.trees, blocks, info.number, length, start, stamp)?;
    files.inode.rewrite(&shortened(info, length), stamp);
    Ok(count)
}

/// Removes the cells from a length on of a tree in memory.
pub fn cut_kept<B: Blocks>(
    trees: &mut HeldTrees,
    blocks: &mut B,
    number: u32,
    length: u32,
    start: u8,
    stamp: u64,
) -> Result<u32, FilesFault>
    requires start { start ≤ 3 }
    requires stamp { 1 ≤ stamp }
    requires kept { is_some (maps.get nat_cmp trees.old number) ≡ true }
    requires right { B.told → HasRightKept (B.shown blocks.old) (maps.get nat_cmp trees.old number) }
    ensures { CutsKept B.told (B.goes blocks.old blocks.new) (B.shown blocks.old) (B.shown blocks.new) trees.old trees.new number length start stamp result }
{
    let _ = trees.by_number.len();
    match trees.by_number.get_mut(&number) {
        Some(tree) => {
            let before = cost_of(tree);
            let result = tree.cut(blocks, length, start, stamp);
            trees.cost = recounted(trees.cost, before, cost_of(tree));
            result
        }
        None => Ok(0),
    }
}

/// What is known of a file once it was cut to a length, but for its tree.
fn shortened(info: &Info, length: u32) -> Info
    requires range { IsInfo info.now }
    requires length { length ≤ most_cells }
    ensures is { result ≡ shortened info.now length }
    ensures range { IsInfo result }
{
    Info { length, ..*info }
}
