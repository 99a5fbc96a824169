//! What numbers in pointers may be.

/// What numbers in pointers of a volume may be.
#[derive(Clone, Copy, Debug, PartialEq, Eq)]
pub struct Limits {
    /// How many blocks the aggregate has, 512 to 1,048,576.
    pub blocks: u64,
    /// The first that may hold a block of a volume.
    pub first: u64,
    /// How many VVBNs the volume has, at least 1 and below 2^32.
    pub span: u64,
}
