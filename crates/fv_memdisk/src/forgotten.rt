//! The places of writes for whose record no memory was found.
//!
//! A write that failed counts as written, so what a crash may leave changes with it even where not
//! one byte could be kept. This list is what proofs know of such writes. It takes no memory, and its
//! methods do nothing at run time.

ghost use Rattle.std.specs.Prelude.{◌≡◌, ℕ, List, [], ◌∷◌};
ghost use Rattle.std.specs.Borrow.{ftrue};

use std::marker::Model;

/// A write of block `at` that came after `moment` records.
#[derive(Clone, Copy)]
pub(crate) struct Place {
    pub(crate) moment: usize,
    pub(crate) at: u64,
}

#[derive(Drop)]
pub struct Forgotten {
    pub ghost places: { List (ℕ × ℕ) },
}

impl Model for Forgotten {
    ghost also_owns = { λ _. ftrue };
}

impl Forgotten {
    pub(crate) fn new() -> Forgotten
        ensures { result.places ≡ [] }
    {
        Forgotten {}
    }

    pub(crate) fn with(_before: &Forgotten, _place: &Place) -> Forgotten
        ensures { result.places ≡ (_place.now.moment, _place.now.at) ∷ _before.now.places }
    {
        Forgotten {}
    }
}
