//! Whether a cell is in memory with the nodes over it.

ghost use Rattle.std.specs.Prelude.{◌≡◌, true, false};
ghost use Rattle.fv_tree.specs.Readying.{HoldsWay, IsReady};

use crate::kept::Tree;
use crate::placing::pointer_in;
use crate::sizes::width;

impl Tree {
    /// Whether the cell at `index` and all nodes over it are in memory, and each pointer on the way to it leads somewhere:
    /// what `content`, `rewrite` and `erase` need. It looks once at each level, of at most 3, and loads nothing.
    pub fn is_ready(&self, index: u32) -> bool
        ensures ready { result ≡ true → IsReady self.now index }
        ensures other { result ≡ false → IsReady self.now index → ⊥ }
    {
        index < width(self.levels) && self.cells.contains_key(&index) && holds_way(self, index)
    }
}

/// Whether each pointer on the way to a cell leads somewhere, as the root and the nodes in memory have it.
fn holds_way(tree: &Tree, index: u32) -> bool
    ensures ready { result ≡ true → HoldsWay tree.now index }
    ensures other { result ≡ false → HoldsWay tree.now index → ⊥ }
{
    let mut level = 0;
    while level <= tree.levels {
        if pointer_in(tree, level, index / width(level)).stamp == 0 {
            return false;
        }
        level += 1;
    }
    true
}
