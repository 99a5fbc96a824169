//! Removing a cell.

ghost use Rattle.std.specs.Prelude.{◌≤◌, ◌+◌, nat_eq, Ok};
ghost use Rattle.fv_tree.specs.Places.{HasRightPlaces};
ghost use Rattle.fv_tree.specs.Readying.{IsReady, KeepsOthersReady};
ghost use Rattle.fv_tree.specs.Removal.{Removal};
ghost use Rattle.fv_tree.specs.Costs.{pending};

use crate::blocks::{Blocks, TreeFault};
use crate::erase::erase_cell;
use crate::keep::keep_path;
use crate::kept::Tree;
use crate::sizes::width;

impl Tree {
    /// Removes the cell at `index`, with each mark that has no cell left. Each other mark over it gets the stamp,
    /// which is at least 1. With no cell left the levels become `start`, at most 3. A hole changes nothing. It
    /// loads at most the nodes over the cell that aren't in memory, and names each placed block that it drops once
    /// to `gone`, after its last load. Answers how many positions went: the cell and those marks. After a fault the tree
    /// is seen as before, and none was named.
    ///
    /// # Errors
    ///
    /// As `get`, and `Memory` where there is no memory for the nodes.
    pub fn remove<B: Blocks>(
        &mut self,
        blocks: &mut B,
        index: u32,
        start: u8,
        stamp: u64,
    ) -> Result<u32, TreeFault>
        requires start { start ≤ 3 }
        requires stamp { 1 ≤ stamp }
        requires right { B.told → HasRightPlaces (B.shown blocks.old) self.old }
        ensures pending { pending self.new ≤ pending self.old + 3 }
        ensures removal { Removal B.told (B.goes blocks.old blocks.new) (B.shown blocks.old) (B.shown blocks.new) self.old self.new (nat_eq index) start stamp result }
    {
        if index >= width(self.levels) {
            return Ok(0);
        }
        let pointer = keep_path(self, blocks, index)?;
        if pointer.stamp == 0 {
            return Ok(0);
        }
        Ok(erase_cell(self, blocks, index, start, stamp))
    }

    /// Removes a cell that is in memory with the nodes over it, as `remove` does, and answers how many positions went.
    /// It loads nothing and takes no memory, so it can't fail.
    pub fn erase<B: Blocks>(&mut self, blocks: &mut B, index: u32, start: u8, stamp: u64) -> u32
        requires ready { IsReady self.old index }
        requires start { start ≤ 3 }
        requires stamp { 1 ≤ stamp }
        ensures others_ready { KeepsOthersReady self.old self.new index }
        ensures pending { pending self.new ≤ pending self.old + 3 }
        ensures removal { Removal B.told (B.goes blocks.old blocks.new) (B.shown blocks.old) (B.shown blocks.new) self.old self.new (nat_eq index) start stamp (Ok result) }
    {
        erase_cell(self, blocks, index, start, stamp)
    }
}
