//! The kinds of calls, and the kinds of crashes.

/// A kind of call of a host.
#[derive(Clone, Copy, Debug, PartialEq, Eq)]
pub enum Call {
    Read,
    Write,
    Barrier,
    Take,
    Give,
}

/// What a crash does to the blocks written since the last barrier.
#[derive(Clone, Copy, Debug, PartialEq, Eq)]
pub enum Tear {
    /// All are as they were before.
    Old,
    /// All are as last written.
    New,
    /// All hold this byte everywhere.
    Fill(u8),
    /// The first so many, in the order of their first writes, are as last written, and the others as
    /// they were before.
    First(u32),
}
