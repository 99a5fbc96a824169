//! Placing what changed of a table: its files by number, and the inode file last.

ghost use Rattle.std.specs.Prelude.{◌≡◌, ◌≤◌, ◌+◌, ◌-◌, ℕ, Bool, true, false, Some, None, is_some, IfNone, IfOk, IfSome, OnOk};
ghost use Rattle.std.specs.Ordering.{nat_cmp};
ghost use Rattle.std.specs.BTreeMap as maps;
ghost use Rattle.fv_tables.specs.Told.{file_at};
ghost use Rattle.fv_tree.specs.Places.{TrustsAll};
ghost use Rattle.fv_tree.specs.declared.kept.Tree as kept;
ghost use Rattle.fv_tree.specs.Sources.{WasFree};
ghost use Rattle.fv_tree.specs.Standing.{under};
ghost use Rattle.fv_tree.specs.Stored.{KeepsPlaces};
ghost use Rattle.fv_inode.specs.Files.{rooted};
ghost use Rattle.fv_files.specs.Tables.{tree_in, AreStanding};
ghost use Rattle.fv_files.specs.Calls.{KeepsStored, StoresUnder};
ghost use Rattle.fv_files.specs.Flushing.{FlushesKept, FlushesTable, HasRoot, KeptAnew, KeptKeeps, LaysTrees};
ghost use Rattle.fv_files.specs.Altering.{AreLaid, FlushesKeep, FlushesPlaces};

use crate::files::{Files, FilesFault};
use crate::held::{HeldTrees, cost_of, recounted};
use crate::remove::forget;
use fv_codec::Pointer;
use fv_inode::Info;
use fv_tree::Blocks;

impl Files {
    /// Places each block that changed since the last flush once: the trees of the files by number, each with its root laid into
    /// the file's inode block, unless the file's record has that root and as many levels already, and the inode file last. Each
    /// block that one of them replaces is named once to `gone`. Answers the root of the inode file, and then nothing is in
    /// memory, and the table stands under that root. It is told as before in every outcome, and a later flush goes on where one
    /// failed. It places no more blocks than are pending; with room for so many no damage is answered. It fails as `place` does
    /// or for want of memory, since the inode block of each tree in memory is there, too. All this is so for a table that stands
    /// on its blocks. Of another it loads what isn't in memory of those inode blocks. Where such a table is laid, what the source has
    /// under a VVBN that isn't in use afterwards stays.
    ///
    /// # Errors
    ///
    /// As `place` of the `Blocks` answers them, and as `InodeFile::set_root`.
    pub fn flush<B: Blocks>(&mut self, blocks: &mut B) -> Result<Pointer, FilesFault>
        requires right { B.told → TrustsAll B.shown }
        ensures flushes { FlushesTable B.told (B.shown blocks.old) (B.shown blocks.new) self.old self.new result }
        ensures places { FlushesPlaces B.told (WasFree B.shown B.goes blocks.old blocks.new) (B.shown blocks.old) (B.shown blocks.new) self.old self.new }
        ensures stored_well { B.told → (known : Bool) → (known ≡ true → B.known) → KeepsStored known (B.shown blocks.old) (B.shown blocks.new) self.old self.new }
        ensures stored_under { B.told → (known : Bool) → (known ≡ true → B.known) → IfOk result (λ root. StoresUnder known (B.shown blocks.old) self.old (under (B.shown blocks.new)) self.new.inode.tree.levels root) }
        ensures keeps { B.told → AreStanding (B.shown blocks.old) self.old → AreLaid (under (B.shown blocks.old)) self.old → (v : ℕ) → (B.shown blocks.new).used v ≡ None → B.keeps v blocks.old blocks.new }
        ensures calls { B.goes blocks.old blocks.new }
    {
        flush_trees(self, blocks)?;
        self.inode.flush(blocks, false)
    }
}

/// Places the trees of all files that are in memory.
fn flush_trees<B: Blocks>(files: &mut Files, blocks: &mut B) -> Result<(), FilesFault>
    requires right { B.told → TrustsAll B.shown }
    ensures lays { LaysTrees B.told (B.shown blocks.old) (B.shown blocks.new) files.old files.new result }
    ensures places { FlushesPlaces B.told (WasFree B.shown B.goes blocks.old blocks.new) (B.shown blocks.old) (B.shown blocks.new) files.old files.new }
    ensures keeps { FlushesKeep B.told (λ v. B.keeps v blocks.old blocks.new) (B.shown blocks.old) (B.shown blocks.new) files.old files.new }
    ensures stored_well { B.told → (known : Bool) → (known ≡ true → B.known) → KeepsStored known (B.shown blocks.old) (B.shown blocks.new) files.old files.new }
    ensures none { OnOk result (maps.btree_map_len files.new.trees ≡ 0) }
    ensures calls { B.goes blocks.old blocks.new }
{
    for _ in 0..files.trees.len() {
        flush_first(files, blocks)?;
    }
    Ok(())
}

/// Places the tree in memory with the least number.
fn flush_first<B: Blocks>(files: &mut Files, blocks: &mut B) -> Result<(), FilesFault>
    requires right { B.told → TrustsAll B.shown }
    ensures lays { LaysTrees B.told (B.shown blocks.old) (B.shown blocks.new) files.old files.new result }
    ensures places { FlushesPlaces B.told (WasFree B.shown B.goes blocks.old blocks.new) (B.shown blocks.old) (B.shown blocks.new) files.old files.new }
    ensures keeps { FlushesKeep B.told (λ v. B.keeps v blocks.old blocks.new) (B.shown blocks.old) (B.shown blocks.new) files.old files.new }
    ensures stored_well { B.told → (known : Bool) → (known ≡ true → B.known) → KeepsStored known (B.shown blocks.old) (B.shown blocks.new) files.old files.new }
    ensures fewer { OnOk result (maps.btree_map_len files.new.trees ≡ maps.btree_map_len files.old.trees - 1) }
    ensures calls { B.goes blocks.old blocks.new }
{
    match files.trees.first_number() {
        None => Ok(()),
        Some(number) => flush_file(files, blocks, number),
    }
}

/// Places the tree of a file that is in memory, and lays its root into the file's inode block. One without a file goes, which a
/// table that stands on its blocks doesn't have.
fn flush_file<B: Blocks>(files: &mut Files, blocks: &mut B, number: u32) -> Result<(), FilesFault>
    requires kept { is_some (tree_in files.old number) ≡ true }
    requires right { B.told → TrustsAll B.shown }
    ensures lays { LaysTrees B.told (B.shown blocks.old) (B.shown blocks.new) files.old files.new result }
    ensures places { FlushesPlaces B.told (WasFree B.shown B.goes blocks.old blocks.new) (B.shown blocks.old) (B.shown blocks.new) files.old files.new }
    ensures keeps { FlushesKeep B.told (λ v. B.keeps v blocks.old blocks.new) (B.shown blocks.old) (B.shown blocks.new) files.old files.new }
    ensures stored_well { B.told → (known : Bool) → (known ≡ true → B.known) → KeepsStored known (B.shown blocks.old) (B.shown blocks.new) files.old files.new }
    ensures fewer { OnOk result (maps.btree_map_len files.new.trees + 1 ≡ maps.btree_map_len files.old.trees) }
    ensures calls { B.goes blocks.old blocks.new }
{
    match files.inode.look_held(blocks, number)? {
        None => {
            forget(&mut files.trees, number);
            Ok(())
        }
        Some(info) => lay_file(files, blocks, number, &info),
    }
}

/// Places the tree of a file, and lays its root into the file's inode block. Where the file's record has that root and as many
/// levels already, the inode block stays as it is.
fn lay_file<B: Blocks>(
    files: &mut Files,
    blocks: &mut B,
    number: u32,
    info: &Info,
) -> Result<(), FilesFault>
    requires kept { is_some (tree_in files.old number) ≡ true }
    requires there { B.told → HasRoot (file_at (rooted (B.shown blocks.old) files.old.inode) number) info.now.levels info.now.root }
    requires right { B.told → TrustsAll B.shown }
    ensures lays { LaysTrees B.told (B.shown blocks.old) (B.shown blocks.new) files.old files.new result }
    ensures places { FlushesPlaces B.told (WasFree B.shown B.goes blocks.old blocks.new) (B.shown blocks.old) (B.shown blocks.new) files.old files.new }
    ensures keeps { FlushesKeep B.told (λ v. B.keeps v blocks.old blocks.new) (B.shown blocks.old) (B.shown blocks.new) files.old files.new }
    ensures stored_well { B.told → (known : Bool) → (known ≡ true → B.known) → KeepsStored known (B.shown blocks.old) (B.shown blocks.new) files.old files.new }
    ensures fewer { OnOk result (maps.btree_map_len files.new.trees + 1 ≡ maps.btree_map_len files.old.trees) }
    ensures calls { B.goes blocks.old blocks.new }
{
    let levels = kept_levels(&files.trees, number);
    let root = flush_kept(&mut files.trees, blocks, number)?;
    if has_root(info, levels, &root) {
        forget(&mut files.trees, number);
        return Ok(());
    }
    files.inode.set_root(blocks, number, levels, root)?;
    forget(&mut files.trees, number);
    Ok(())
}

/// Whether the record of a file has this root, of a tree of so many levels.
fn has_root(info: &Info, levels: u8, root: &Pointer) -> bool
    ensures same { result ≡ true → (info.now.levels ≡ levels) × (info.now.root ≡ root.now) }
    ensures other { result ≡ false → info.now.levels ≡ levels → info.now.root ≡ root.now → ⊥ }
{
    info.levels == levels && info.root == *root
}

/// How many levels a tree in memory has.
fn kept_levels(trees: &HeldTrees, number: u32) -> u8
    ensures levels { (t : kept.Tree) → maps.get nat_cmp trees.now number ≡ Some t → result ≡ t.levels }
    ensures few { result ≤ 3 }
{
    match trees.get(number) {
        Some(tree) => tree.levels(),
        None => 0,
    }
}

/// Places a tree in memory.
fn flush_kept<B: Blocks>(
    trees: &mut HeldTrees,
    blocks: &mut B,
    number: u32,
) -> Result<Pointer, FilesFault>
    requires kept { is_some (maps.get nat_cmp trees.old number) ≡ true }
    ensures flushes { FlushesKept B.told (B.shown blocks.old) (B.shown blocks.new) trees.old trees.new number result }
    ensures anew { B.told → KeptAnew (WasFree B.shown B.goes blocks.old blocks.new) (B.shown blocks.old) (B.shown blocks.new) trees.old trees.new number }
    ensures keeps { B.told → KeptKeeps (λ v. B.keeps v blocks.old blocks.new) (B.shown blocks.old) (B.shown blocks.new) trees.old trees.new number }
    ensures places { B.known → KeepsPlaces (B.shown blocks.old) (B.shown blocks.new) }
    ensures len { maps.btree_map_len trees.new ≡ maps.btree_map_len trees.old }
    ensures calls { B.goes blocks.old blocks.new }
{
    let _ = trees.by_number.len();
    match trees.by_number.get_mut(&number) {
        Some(tree) => {
            let before = cost_of(tree);
            let result = tree.flush(blocks, false);
            trees.cost = recounted(trees.cost, before, cost_of(tree));
            result
        }
        None => Ok(Pointer::HOLE),
    }
}
