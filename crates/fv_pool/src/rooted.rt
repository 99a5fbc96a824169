//! A table by its root.

use fv_codec::Pointer;

/// A table as a label names it.
#[derive(Clone, Copy, Debug, PartialEq, Eq)]
pub struct Rooted {
    /// How many levels of nodes the inode file has, 0 to 2.
    pub levels: u8,
    /// The pointer to the root of the inode file; a hole where there are no files.
    pub root: Pointer,
}
