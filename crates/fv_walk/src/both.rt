//! Two visitors that share one walk.

use crate::below::Below;
use crate::source::Found;
use crate::visit::Visit;
use crate::visitor::Visitor;
use std::alloc::AllocError;

/// Two visitors as one: it shows each pointer to the first and then to the second. So two judges share one walk, and each block is read
/// once for both.
#[derive(Drop)]
pub struct Both<A, B> {
    /// The visitor that is shown each pointer first.
    pub first: A,
    /// The visitor that is shown it then.
    pub second: B,
}

impl<A: Visitor, B: Visitor> Visitor for Both<A, B> {
    ghost sees = { λ old sights new. A.sees old.first sights new.first × B.sees old.second sights new.second };

    fn see(&mut self, visit: &Visit, at: Option<Found>, below: &Below) -> Result<(), AllocError> {
        self.first.see(visit, at, below)?;
        self.second.see(visit, at, below)?;
        Ok(())
    }

    ghost sees_none = { λ both. (A.sees_none both.first, B.sees_none both.second) };

    ghost sees_on = { λ old mid new first second one two. (
      A.sees_on old.first mid.first new.first first second one.0 two.0,
      B.sees_on old.second mid.second new.second first second one.1 two.1,
    ) };
}
