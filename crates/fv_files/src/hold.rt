//! Holding a file ready for a change.

ghost use Rattle.std.specs.Prelude.{◌≡◌, ◌≢◌, ◌≤◌, ◌+◌, ℕ, Option, Some, cond, nat_eq, IfErr, OnOk, OnErr};
ghost use Rattle.std.specs.Ordering.{nat_cmp};
ghost use Rattle.std.specs.BTreeMap as maps;
ghost use Rattle.fv_disk.specs.declared.fault.BlockFault.TheVariants.{Memory};
ghost use Rattle.fv_tables.specs.Spelled.{Under, stored};
ghost use Rattle.fv_files.specs.Right.{HasRightKept, HasRightTrees};
ghost use Rattle.fv_tree.specs.Sources.{Use};
ghost use Rattle.fv_tree.specs.Standing.{standing};
ghost use Rattle.fv_tree.specs.Costs.{pending};
ghost use Rattle.fv_tree.specs.Flushing.{loaded_over, IsSound, ReachesOnce};
ghost use Rattle.fv_inode.specs.Files.{rooted, IsInfo};
ghost use Rattle.fv_files.specs.Tables.{IsInfoOf, tree_in};
ghost use Rattle.fv_files.specs.Calls.{Holds, Prepares};
ghost use Rattle.fv_files.specs.Pending.{pending_in, pending_trees, root_cost, tree_cost};

use crate::files::{Files, FilesFault};
use crate::held::{HeldTrees, cost_of, cost_of_any, recounted};
use fv_inode::Info;
use fv_tree::{Blocks, Tree};
use std::alloc::Global;

/// Holds a file ready for a change, its inode block and its tree in memory; false where no file has the number. The table
/// stays as it is, after a fault, too.
pub fn prepare<B: Blocks>(
    files: &mut Files,
    blocks: &mut B,
    info: &Info,
) -> Result<bool, FilesFault>
    requires range { IsInfo info.now }
    requires there { B.told → IsInfoOf (rooted (B.shown blocks.old) files.old.inode) info.now }
    requires right { B.told → HasRightTrees (B.shown blocks.old) files.old }
    ensures prepares { Prepares B.told (B.shown blocks.old) (B.shown blocks.new) files.old files.new info.now result }
    ensures right { B.told → HasRightKept (B.shown blocks.new) (tree_in files.new info.now.number) }
    ensures pending { pending_in files.new ≤ pending_in files.old + 4 }
    ensures reads { B.reads blocks.old blocks.new }
{
    if !files.inode.ready(blocks, info.number)? {
        return Ok(false);
    }
    hold(&mut files.trees, files.alloc, info)?;
    Ok(true)
}

/// Holds the tree of a file in memory: the one that is there, or else the one to which its record leads.
fn hold(trees: &mut HeldTrees, alloc: Global, info: &Info) -> Result<(), FilesFault>
    requires range { IsInfo info.now }
    ensures holds { OnOk result (Holds trees.old trees.new info.now) }
    ensures failed { OnErr result ((k : ℕ) → maps.get nat_cmp trees.new k ≡ maps.get nat_cmp trees.old k) }
    ensures cost { pending_trees trees.new ≤ pending_trees trees.old + root_cost }
    ensures memory { IfErr result (λ e. e ≡ Memory) }
{
    if trees.get(info.number).is_some() {
        return Ok(());
    }
    insert(trees, info.number, stored_tree(alloc, info))
}

/// The tree to which the record of a file leads.
pub fn stored_tree(alloc: Global, info: &Info) -> Tree
    requires range { IsInfo info.now }
    ensures stored { (blocks : Under) → standing blocks result ≡ stored blocks info.now.number info.now.levels info.now.root }
    ensures stands { (blocks : Under) (used : ℕ → Option Use) → ReachesOnce used (stored blocks info.now.number info.now.levels info.now.root) → IsSound used (loaded_over blocks result) }
    ensures pending { pending result ≡ 0 }
{
    Tree::at(alloc, u64::from(info.number), info.levels, info.root)
}

/// What a call of the tree of a file answers, of which this is known: of the one in memory, or else of the one that it says.
macro_rules! of_known {
    ($files:ident, $info:ident, |$tree:ident| $call:expr) => {
        match $files.trees.get($info.number) {
            Some($tree) => $call,
            None => {
                let $tree = stored_tree($files.alloc, $info);
                $call
            }
        }
    };
}

pub(crate) use of_known;

/// Takes a tree into memory.
fn insert(trees: &mut HeldTrees, number: u32, tree: Tree) -> Result<(), FilesFault>
    ensures inserted { OnOk result ((k : ℕ) → maps.get nat_cmp trees.new k ≡ cond (nat_eq k number) (Some tree) (maps.get nat_cmp trees.old k)) }
    ensures failed { OnErr result ((k : ℕ) → maps.get nat_cmp trees.new k ≡ maps.get nat_cmp trees.old k) }
    ensures cost { pending_trees trees.new ≤ pending_trees trees.old + tree_cost tree }
    ensures memory { IfErr result (λ e. e ≡ Memory) }
{
    let now = cost_of(&tree);
    match trees.by_number.insert(number, tree) {
        Ok(before) => {
            let _ = trees.by_number.len();
            trees.cost = recounted(trees.cost, cost_of_any(&before), now);
            Ok(())
        }
        Err(_) => Err(FilesFault::Memory),
    }
}
