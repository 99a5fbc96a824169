//! What a walk shows each pointer to.

ghost use Rattle.std.specs.Prelude.{◌++◌, ◌∷◌, [], List, OnOk};
ghost use Rattle.fv_walk.specs.Sights.{Sight};

use crate::below::Below;
use crate::source::Found;
use crate::visit::Visit;
use std::alloc::AllocError;

/// What a walk shows each pointer to, in the order in which it comes to them.
pub trait Visitor {
    /// What being shown some pointers, one after another, makes of it.
    ghost sees: { Self → List Sight → Self → Type 0 };

    /// Takes a pointer, with where its VVBN is found and what stands in the block there. The one error is want of memory.
    fn see(&mut self, visit: &Visit, at: Option<Found>, below: &Below) -> Result<(), AllocError>
        ensures { OnOk result (sees self.old ((record { visit = visit.now; at = at; below = below.now }) ∷ []) self.new) };

    /// To be shown none leaves it, and to be shown some and then others is to be shown all of them.
    ghost sees_none: { (visitor : Self) → sees visitor [] visitor };

    ghost sees_on: { (old mid new : Self) (first second : List Sight) → sees old first mid → sees mid second new → sees old (first ++ second) new };
}
