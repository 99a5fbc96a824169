//! How much a flush has to place.

ghost use Rattle.std.specs.Prelude.{◌≡◌, ◌≤◌, ◌<◌, ◌+◌, ◌^◌, true, cond};
ghost use Rattle.fv_tree.specs.Costs.{pending};

use crate::kept::Tree;

impl Tree {
    /// How many cells and nodes in memory differ from their blocks: a `flush` of a tree that stands on its blocks
    /// places at most so many blocks. The tree keeps the two numbers, so this looks for nothing.
    pub fn pending(&self) -> u64
        ensures { result ≡ pending self.now }
    {
        let (nodes, cells) = (self.changed_nodes, self.changed_cells);
        let fits = nodes <= self.nodes.len() as u64 && cells <= self.cells.len() as u64;
        prove!(fits);
        nodes + cells
    }
}

/// The count of what differs from its block among at most so many, where one of them that did so `before` or not does so
/// `now` or not.
pub fn recounted(count: u64, most: usize, before: bool, now: bool) -> u64
    requires few { count ≤ most }
    requires most { most < 2 ^ 63 }
    requires before { before ≡ true → 1 ≤ count }
    ensures { result + cond before 1 0 ≡ count + cond now 1 0 }
{
    count + one_for(now) - one_for(before)
}

/// One for what differs from its block, and else 0.
fn one_for(changed: bool) -> u64
    ensures { result ≡ cond changed 1 0 }
{
    if changed { 1 } else { 0 }
}
