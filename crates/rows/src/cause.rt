//! How a case may come out otherwise.

use std::alloc::AllocError;

/// What came out otherwise, in words, and two numbers that tell more of it.
#[derive(Clone, Copy)]
pub struct Cause {
    pub what: &'static str,
    pub at: u64,
    pub found: u64,
}

/// A cause, with its two numbers.
pub fn because(what: &'static str, at: u64, found: u64) -> Cause {
    Cause { what, at, found }
}

/// A line can't be read.
pub fn unread() -> Cause {
    because("can't be read", 0, 0)
}

impl From<AllocError> for Cause {
    fn from(_: AllocError) -> Cause {
        because("memory ran out", 0, 0)
    }
}
