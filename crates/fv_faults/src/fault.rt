//! A fault line.

/// A line that a check finds. Lines come by rule, then by block, then by what is wanted and what is found (`docs/FORMAT.md`).
#[derive(Clone, Copy, Debug, PartialEq, Eq, PartialOrd, Ord)]
pub struct Fault {
    /// The number of the rule, 1 to 14.
    pub rule: u8,
    /// The block of which it is said, a number of the aggregate's blocks.
    pub block: u64,
    /// What has to stand there: any word.
    pub want: u64,
    /// What stands there: any word.
    pub found: u64,
}
