//! Taking a file away.

ghost use Rattle.std.specs.Prelude.{◌≡◌, ◌≤◌, ◌+◌, ℕ, true, cond, nat_eq, None, Some, is_some, IfOk, OnOk};
ghost use Rattle.std.specs.Ordering.{nat_cmp};
ghost use Rattle.std.specs.BTreeMap as maps;
ghost use Rattle.fv_laws.specs.WellFormed.{IsWellTable};
ghost use Rattle.fv_tables.specs.Told.{table_told};
ghost use Rattle.fv_files.specs.Right.{HasRightKept, HasRightTrees};
ghost use Rattle.fv_tree.specs.declared.kept.Tree as kept;
ghost use Rattle.fv_tree.specs.Erasing.{HoldsCells};
ghost use Rattle.fv_inode.specs.Files.{rooted, IsInfo};
ghost use Rattle.fv_files.specs.Tables.{table_in, AreStanding, IsInfoOf, tree_in};
ghost use Rattle.fv_files.specs.Failing.{FilesFail};
ghost use Rattle.fv_files.specs.Calls.{IsPrepared, Changes, KeepsLed, KeptFails, RemovesFile, TakesByRemoval};
ghost use Rattle.fv_files.specs.Pending.{pending_in, pending_trees, tree_cost};
ghost use Rattle.fv_files.specs.Altering.{AltersPlaces};

use crate::cut::cut_kept;
use crate::files::{Files, FilesFault};
use crate::held::{HeldTrees, cost_of_any, recounted};
use crate::hold::prepare;
use fv_inode::{Info, least_levels};
use fv_tree::Blocks;

impl Files {
    /// Takes the file of which this is known away, with a stamp of at least 1: the machine's rm, of a table that stands on
    /// its blocks. Answers how many cells and marks went, of the file and of the inode file. It loads at most what
    /// `InodeFile::ready` and `Tree::cut` of the whole file load. Each placed block that goes is named once to `gone`, after
    /// the last load. A flush has at most 14 blocks more to place afterwards. After a fault the table is told as before, and none
    /// was named.
    ///
    /// # Errors
    ///
    /// As `InodeFile::ready` and `Tree::cut`, and `Memory` where there is no memory for the tree.
    #[tactic(auto, using(crate::proofs::Prepared::changes_handed, crate::proofs::Prepared::table_handed, crate::proofs::Prepared::prepared_alone, crate::proofs::Prepared::table_alone, crate::proofs::Prepared::prepared_led, crate::proofs::Prepared::few_pending))]
    pub fn remove<B: Blocks>(
        &mut self,
        blocks: &mut B,
        info: &Info,
        stamp: u64,
    ) -> Result<u32, FilesFault>
        requires stamp { 1 ≤ stamp }
        requires range { IsInfo info.now }
        requires there { B.told → IsInfoOf (rooted (B.shown blocks.old) self.old.inode) info.now }
        requires right { B.told → HasRightTrees (B.shown blocks.old) self.old }
        ensures removed { B.told → OnOk result (AreStanding (B.shown blocks.old) self.old → RemovesFile (table_in (B.shown blocks.old) self.old) (table_in (B.shown blocks.new) self.new) info.now.number stamp) }
        ensures counted { B.told → IfOk result (λ count. AreStanding (B.shown blocks.old) self.old → TakesByRemoval (table_in (B.shown blocks.old) self.old) info.now.number stamp count) }
        ensures led { B.told → (now : ℕ) → IsWellTable now (table_told (table_in (B.shown blocks.old) self.old)) → KeepsLed (B.shown blocks.old) (B.shown blocks.new) self.old self.new }
        ensures alters { AltersPlaces B.told (HoldsCells (rooted (B.shown blocks.old) self.old.inode)) (B.shown blocks.old) (B.shown blocks.new) self.old self.new stamp result }
        ensures pending { pending_in self.new ≤ pending_in self.old + 14 }
        ensures changes { Changes B.told (HoldsCells (rooted (B.shown blocks.old) self.old.inode)) (B.shown blocks.old) (B.shown blocks.new) self.old self.new (FilesFail B.told (table_in (B.shown blocks.old) self.old) (B.shown blocks.old) (B.shown blocks.new)) result }
        ensures calls { B.goes blocks.old blocks.new }
    {
        if !prepare(self, blocks, info)? {
            return Ok(0);
        }
        remove_ready(self, blocks, info, stamp)
    }
}

/// Takes a file away that is held ready.
fn remove_ready<B: Blocks>(
    files: &mut Files,
    blocks: &mut B,
    info: &Info,
    stamp: u64,
) -> Result<u32, FilesFault>
    requires stamp { 1 ≤ stamp }
    requires prepared { IsPrepared B.told (B.shown blocks.old) files.old info.now }
    requires right { B.told → HasRightKept (B.shown blocks.old) (tree_in files.old info.now.number) }
    ensures removed { B.told → OnOk result (AreStanding (B.shown blocks.old) files.old → RemovesFile (table_in (B.shown blocks.old) files.old) (table_in (B.shown blocks.new) files.new) info.now.number stamp) }
    ensures counted { B.told → IfOk result (λ count. AreStanding (B.shown blocks.old) files.old → TakesByRemoval (table_in (B.shown blocks.old) files.old) info.now.number stamp count) }
    ensures led { B.told → (now : ℕ) → IsWellTable now (table_told (table_in (B.shown blocks.old) files.old)) → KeepsLed (B.shown blocks.old) (B.shown blocks.new) files.old files.new }
    ensures alters { AltersPlaces B.told (HoldsCells (rooted (B.shown blocks.old) files.old.inode)) (B.shown blocks.old) (B.shown blocks.new) files.old files.new stamp result }
    ensures pending { pending_in files.new ≤ pending_in files.old + 4 }
    ensures changes { Changes B.told (HoldsCells (rooted (B.shown blocks.old) files.old.inode)) (B.shown blocks.old) (B.shown blocks.new) files.old files.new (KeptFails B.told (B.shown blocks.old) (B.shown blocks.new) files.old info.now.number) result }
    ensures calls { B.goes blocks.old blocks.new }
{
    let start = least_levels(info.reserve);
    let own = cut_kept(&mut files.trees, blocks, info.number, 0, start, stamp)?;
    let inode = files.inode.erase(blocks, info.number, stamp);
    forget(&mut files.trees, info.number);
    let count = own.saturating_add(inode);
    Ok(count)
}

/// Takes a tree out of memory.
pub fn forget(trees: &mut HeldTrees, number: u32)
    ensures gone { (k : ℕ) → maps.get nat_cmp trees.new k ≡ cond (nat_eq k number) None (maps.get nat_cmp trees.old k) }
    ensures len { is_some (maps.get nat_cmp trees.old number) ≡ true → maps.btree_map_len trees.new + 1 ≡ maps.btree_map_len trees.old }
    ensures cost { (t : kept.Tree) → maps.get nat_cmp trees.old number ≡ Some t → pending_trees trees.new + tree_cost t ≡ pending_trees trees.old }
    ensures fewer { pending_trees trees.new ≤ pending_trees trees.old }
{
    let gone = trees.by_number.remove(&number);
    trees.cost = recounted(trees.cost, cost_of_any(&gone), 0);
}
