//! What stands in a block, by the kind of its entry.

ghost use Rattle.std.specs.Prelude.{◌≡◌};
ghost use Rattle.fv_places.specs.ByKind.{form_of};

use fv_codec::Form;

/// What has the pointers in a block of a kind: a node (2 to 4, 6 and 7) or an inode block (5). Data (1), volume maps (8) and numbers that
/// are no kind have none. Costs a step.
pub fn form_of(kind: u8) -> Option<Form>
    ensures { result ≡ form_of kind }
{
    match kind {
        2..=4 | 6..=7 => Some(Form::Node),
        5 => Some(Form::Inodes),
        _ => None,
    }
}
