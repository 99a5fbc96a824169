//! Blocks of which nothing is told, for tests of trees.

ghost use Rattle.std.specs.Prelude.{◌≡◌};
ghost use Rattle.fv_tree_rows.specs.Silence.{shown_in_silence, silence_is_source};

use fv_codec::{Form, Pointer, has_form};
use fv_tree::{Blocks, Placed, TreeFault};

/// A source that tells nothing: a load gives the same block under each pointer, and none is placed.
#[derive(Drop)]
pub struct Silent {
    block: [u8; 4096],
    strays: u64,
}

impl Silent {
    /// A source whose loads give this block.
    pub fn new(block: [u8; 4096]) -> Silent {
        Silent { block, strays: 0 }
    }
}

impl Blocks for Silent {
    ghost shown = { λ b. shown_in_silence b.strays };

    ghost told = { ⊥ };

    ghost known = { ⊥ };

    ghost reads = { λ a b. Unit {0} };

    ghost goes = { λ a b. Unit {0} };

    ghost keeps = { λ v a b. Unit {0} };

    ghost laws = { λ b. silence_is_source b.strays };

    ghost reads_nothing = { λ b. tt };

    ghost reads_on = { λ a b c first second. tt };

    ghost reads_go = { λ a b is. tt };

    ghost goes_nothing = { λ b. tt };

    ghost goes_on = { λ a b c first second. tt };

    ghost reads_keep = { λ v a b is. tt };

    ghost keeps_on = { λ v a b c first second. tt };

    fn load(&mut self, pointer: &Pointer, into: &mut [u8; 4096]) -> Result<u32, TreeFault> {
        *into = self.block;
        Ok(0)
    }

    fn load_as(
        &mut self,
        pointer: &Pointer,
        form: Form,
        into: &mut [u8; 4096],
        has: &mut bool,
    ) -> Result<u32, TreeFault> {
        let at = self.load(pointer, into)?;
        *has = has_form(into, form);
        Ok(at)
    }

    fn place(&mut self, kind: u8, block: &[u8; 4096]) -> Result<Placed, TreeFault> {
        Err(TreeFault::Memory)
    }

    fn gone(&mut self, vvbn: u32) {
        self.strays = self.strays.saturating_add(1);
    }
}
