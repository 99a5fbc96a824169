//! Blocks in memory of which nothing is told, for tests of what calls of trees load.

ghost use Rattle.std.specs.Prelude.{◌≡◌};
ghost use Rattle.fv_tree_rows.specs.InMemory.{shown_in_memory, in_memory_is_source};

use crate::memory::MemBlocks;
use fv_codec::{Form, Pointer};
use fv_tree::{Blocks, Placed, TreeFault};

/// Blocks that are lent, of which it isn't told what a load gives. So a call on a tree over them asks nothing of the tree.
#[derive(Drop)]
pub struct Untold<'b> {
    /// The blocks.
    pub blocks: &'b mut MemBlocks,
}

impl<'b> Blocks for Untold<'b> {
    ghost use Rattle.std.specs.Prelude.{refl};
    ghost use Rattle.std.proofs.Common.{◌∙◌};

    ghost shown = { λ b. shown_in_memory b.blocks.now.blocks b.blocks.now.next b.blocks.now.loads b.blocks.now.strays b.blocks.now.faults };

    ghost told = { ⊥ };

    ghost known = { ⊥ };

    ghost reads = { λ a b. b.blocks.ghost_name ≡ a.blocks.ghost_name };

    ghost goes = { λ a b. b.blocks.ghost_name ≡ a.blocks.ghost_name };

    ghost keeps = { λ v a b. Unit {0} };

    ghost laws = { λ b. in_memory_is_source b.blocks.now.blocks b.blocks.now.next b.blocks.now.loads b.blocks.now.strays b.blocks.now.faults };

    ghost reads_nothing = { λ b. refl };

    ghost reads_on = { λ a b c first second. second ∙ first };

    ghost reads_go = { λ a b is. is };

    ghost goes_nothing = { λ b. refl };

    ghost goes_on = { λ a b c first second. second ∙ first };

    ghost reads_keep = { λ v a b is. tt };

    ghost keeps_on = { λ v a b c first second. tt };

    fn load(&mut self, pointer: &Pointer, into: &mut [u8; 4096]) -> Result<u32, TreeFault> {
        self.blocks.load(pointer, into)
    }

    fn load_as(
        &mut self,
        pointer: &Pointer,
        form: Form,
        into: &mut [u8; 4096],
        has: &mut bool,
    ) -> Result<u32, TreeFault> {
        self.blocks.load_as(pointer, form, into, has)
    }

    fn place(&mut self, kind: u8, block: &[u8; 4096]) -> Result<Placed, TreeFault> {
        self.blocks.place(kind, block)
    }

    fn gone(&mut self, vvbn: u32) {
        self.blocks.gone(vvbn);
    }
}
