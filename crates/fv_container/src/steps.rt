//! A counter of steps.

ghost use Rattle.std.specs.Prelude.{◌≡◌, ◌≤◌, ◌<◌, ◌+◌};
ghost use Rattle.fv_codec.specs.Blocks.{greatest_word};

use std::marker::Model;
use std::sync::ledger::{Blank, Book, Ledger, Share};

/// How many steps were taken. Only `tick` changes it, and `counted` tells it.
///
/// A step is one look-up of a VVBN, in one container or along a whole chain. Contracts see the number. It has eight bytes, in which a
/// number of 64 bits counts the same steps and stays at its greatest once it has reached that.
#[derive(Drop)]
pub struct Steps<L: Ledger> {
    book: Book<L>,
    share: Share<L>,
    count: u64,
}

impl<L: Ledger> Model for Steps<L> {
    ghost use Rattle.std.specs.Prelude.{ℕ, ◌≡◌, ◌≤◌, ◌<◌};
    ghost use Rattle.fv_codec.specs.Blocks.{greatest_word};

    ghost Value = { ℕ };

    ghost view = { λ steps. steps.book.total };

    ghost invariant = { λ steps. (0 < steps.share.parts) × (steps.book.total ≤ greatest_word → steps.count ≡ steps.book.total) };
}

impl<L: Ledger> Steps<L> {
    /// A counter that has counted nothing yet.
    pub fn open(blank: Blank) -> Steps<L>
        requires name { blank.name ≡ L.name }
        requires parts { blank.parts ≡ L.parts }
        requires some { 0 < L.parts }
        ensures { result ≡ 0 }
    {
        let (book, share) = blank.open();
        Steps {
            book,
            share,
            count: 0,
        }
    }

    /// Counts a step.
    pub fn tick(&mut self)
        ensures { self.new ≡ self.old + 1 }
    {
        self.book.add(&mut self.share, 1);
        self.count = self.count.saturating_add(1);
    }

    /// How many steps were counted, where that is a number of 64 bits.
    pub fn counted(&self) -> u64
        ensures { self.now ≤ greatest_word → result ≡ self.now }
    {
        self.count
    }
}
