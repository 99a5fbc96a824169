//! What every value of a type is, told where a proof needs it.
//!
//! Names have an invariant, which their methods tell. A body that needs nothing else of such a method calls this: it does nothing,
//! and costs nothing.

ghost use Rattle.std.specs.Prelude.{◌≡◌, true};
ghost use Rattle.fv_model.specs.Spelling.{is_name};

use fv_model::Name;

/// A name has 1 to 64 bytes, each of those that a name can have.
pub(crate) fn known_name(name: &Name)
    ensures { is_name name.now ≡ true }
{
    let _ = name.as_bytes();
}
