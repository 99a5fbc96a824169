//! An inode file as a tree of inode blocks.

ghost use Rattle.std.specs.Prelude.{◌≡◌, ◌≤◌, ℕ, false, Option, IfOk, OnOk};
ghost use Rattle.std.specs.FinMap as fin;
ghost use Rattle.fv_codec.specs.Blocks.{IsPointer, greatest_word};
ghost use Rattle.fv_tables.specs.Spelled.{Under, hole, stored};
ghost use Rattle.fv_tables.specs.Told.{file_at};
ghost use Rattle.fv_tree.specs.Sources.{Use};
ghost use Rattle.fv_tree.specs.Standing.{standing, under, Shows};
ghost use Rattle.fv_tree.specs.Writing.{Remains};
ghost use Rattle.fv_tree.specs.Stored.{HasPlaces, IsStoredWell, TellsPlaces};
ghost use Rattle.fv_tree.specs.Unknown.{KnowsRoots};
ghost use Rattle.fv_tree.specs.Costs.{pending};
ghost use Rattle.fv_tree.specs.Flushing.{loaded, loaded_over, IsSound, ReachesOnce, Stands};
ghost use Rattle.fv_tree.specs.Calls.{PlacesChanged};
ghost use Rattle.fv_inode.specs.Files.{rooted};

use crate::info::InodeFault;
use fv_codec::Pointer;
use fv_tree::{Blocks, Tree};
use std::alloc::Global;

/// The owner of an inode file's nodes.
const INODE_FILE: u64 = u64::MAX;

/// The inode file of a table, of which what changed or was held ready since the last `flush` is in memory. The record of file n is
/// number n mod 16 of the inode block at cell n / 16.
#[derive(Drop)]
pub struct InodeFile {
    pub(crate) tree: Tree,
    pub(crate) alloc: Global,
}

impl InodeFile {
    /// An inode file without a file. Takes no memory before a file comes.
    pub fn new(alloc: Global) -> InodeFile
        ensures stored { (blocks : Under) → standing blocks result.tree ≡ stored blocks greatest_word 0 hole }
        ensures seen { (blocks : Under) → Shows (standing blocks result.tree) (record { levels = 0; stamps = fin.empty }) fin.empty }
        ensures stands { (blocks : Under) (used : ℕ → Option Use) → IsSound used (loaded_over blocks result.tree) }
        ensures pending { pending result.tree ≡ 0 }
    {
        InodeFile {
            tree: Tree::new(alloc, INODE_FILE, 0),
            alloc,
        }
    }

    /// The inode file that a root pointer spells, of at most 2 levels. Reads nothing and takes no memory.
    pub fn at(alloc: Global, levels: u8, root: Pointer) -> InodeFile
        requires levels { levels ≤ 2 }
        requires root { IsPointer root }
        ensures stored { (blocks : Under) → standing blocks result.tree ≡ stored blocks greatest_word levels root }
        ensures stands { (blocks : Under) (used : ℕ → Option Use) → ReachesOnce used (stored blocks greatest_word levels root) → IsSound used (loaded_over blocks result.tree) }
        ensures pending { pending result.tree ≡ 0 }
    {
        InodeFile {
            tree: Tree::at(alloc, INODE_FILE, levels, root),
            alloc,
        }
    }

    /// How many levels of nodes it has.
    pub fn levels(&self) -> u8
        ensures { result ≡ self.now.tree.levels }
    {
        self.tree.levels()
    }

    /// How many inode blocks and nodes in memory differ from their blocks: a `flush` places at most so many. It costs
    /// one step, takes no memory and makes no call.
    pub fn pending(&self) -> u64
        ensures { result ≡ pending self.now.tree }
    {
        self.tree.pending()
    }

    /// Places each inode block and each node that changed since the last `flush` once, a node after all that it
    /// leads to, and names each block that one of them replaces once to `gone`. What holds an unknown pointer, or the
    /// unknown root of a file, gets an unknown pointer itself; where the flush `hides` places, each new block does.
    /// Answers the root, and then nothing is in memory. All files stay as they are, also after a fault, and a later flush
    /// then goes on where this one ended. All this is so for an inode file that stands on its blocks. It takes no memory
    /// and loads nothing.
    ///
    /// # Errors
    ///
    /// As `place` of the `Blocks` answers them.
    pub fn flush<B: Blocks>(&mut self, blocks: &mut B, hides: bool) -> Result<Pointer, InodeFault>
        ensures remains { B.told → Stands (B.shown blocks.old) self.old.tree → Remains (rooted (B.shown blocks.old) self.old) (rooted (B.shown blocks.new) self.new) }
        ensures files { B.told → Stands (B.shown blocks.old) self.old.tree → (n : ℕ) → file_at (rooted (B.shown blocks.new) self.new) n ≡ file_at (rooted (B.shown blocks.old) self.old) n }
        ensures stored_well { B.told → Stands (B.shown blocks.old) self.old.tree → IsStoredWell (loaded (B.shown blocks.old) self.old.tree) → IsStoredWell (loaded (B.shown blocks.new) self.new.tree) }
        ensures tells { B.told → Stands (B.shown blocks.old) self.old.tree → hides ≡ false → HasPlaces (B.shown blocks.new).used → KnowsRoots (loaded (B.shown blocks.old) self.old.tree)
            → TellsPlaces (loaded (B.shown blocks.old) self.old.tree) → TellsPlaces (loaded (B.shown blocks.new) self.new.tree) }
        ensures pending { OnOk result (pending self.new.tree ≡ 0) }
        ensures root { IfOk result (λ root. root ≡ self.new.tree.root) }
        ensures pointer { IfOk result IsPointer }
        ensures stored { IfOk result (λ root. rooted (B.shown blocks.new) self.new ≡ stored (under (B.shown blocks.new)) self.old.tree.owner self.old.tree.levels root) }
        ensures reaches { B.told → IfOk result (λ root. Stands (B.shown blocks.old) self.old.tree → ReachesOnce (B.shown blocks.new).used (stored (under (B.shown blocks.new)) self.old.tree.owner self.old.tree.levels root)) }
        ensures flushing { PlacesChanged hides B.told B.known B.shown B.goes B.keeps blocks.old blocks.new self.old.tree self.new.tree result }
    {
        self.tree.flush(blocks, hides)
    }
}
