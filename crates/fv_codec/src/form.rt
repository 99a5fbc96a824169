//! Forms of the blocks through which a file is found.

ghost use Rattle.std.specs.Prelude.{◌≡◌};
ghost use Rattle.fv_codec.specs.Forms.{has_form};

use crate::inode::InodeBlock;
use crate::node::Node;

/// What a block can be judged as on the way to a cell.
#[derive(Clone, Copy, Debug, PartialEq, Eq)]
pub enum Form {
    /// A node of a file's tree.
    Node,
    /// An inode block.
    Inodes,
}

/// Whether a block spells a node, or an inode block. Costs a decode.
pub fn has_form(block: &[u8; 4096], form: Form) -> bool
    ensures { result ≡ has_form form block.now }
{
    match form {
        Form::Node => Node::decode(block).is_ok(),
        Form::Inodes => InodeBlock::decode(block).is_ok(),
    }
}
