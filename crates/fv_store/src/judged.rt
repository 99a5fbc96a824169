//! A held block, which is judged once.

ghost use Rattle.std.specs.Prelude.{◌≡◌};
ghost use Rattle.fv_codec.specs.Forms.{has_form};

use fv_codec::{Form, has_form};
use fv_disk::Block;
use std::marker::Model;

/// A block with the form that it is known to have, if it was found to have one. Contracts see the block alone:
/// the mark is true of it.
#[derive(Drop)]
pub(crate) struct Judged {
    block: Block,
    mark: Option<Form>,
}

impl Model for Judged {
    ghost use Rattle.std.specs.Prelude.{◌≡◌, ℕ, List, true, IfSome};
    ghost use Rattle.fv_codec.specs.Forms.{has_form};

    ghost Value = { List ℕ };

    ghost view = { λ judged. judged.block };

    ghost invariant = { λ judged. IfSome judged.mark (λ form. has_form form judged.block ≡ true) };
}

impl Judged {
    /// A block that wasn't judged yet.
    pub(crate) fn new(block: &Block) -> Judged
        ensures { result ≡ block.now }
    {
        Judged {
            block: *block,
            mark: None,
        }
    }

    /// Copies the block.
    pub(crate) fn copy(&self, into: &mut Block)
        ensures { into.new ≡ self.now }
    {
        *into = self.block;
    }

    /// Another block in its place, which wasn't judged yet.
    pub(crate) fn renew(&mut self, block: &Block)
        ensures { self.new ≡ block.now }
    {
        self.mark = None;
        self.block = *block;
    }

    /// Whether the block has a form. One that is marked with it isn't judged again, and one that is found to have it is
    /// marked.
    pub(crate) fn judge(&mut self, form: Form) -> bool
        ensures told { result ≡ has_form form self.old }
        ensures same { self.new ≡ self.old }
    {
        if self.mark == Some(form) {
            return true;
        }
        if has_form(&self.block, form) {
            self.mark = Some(form);
            return true;
        }
        false
    }
}
