//! What is judged, and what is said of it.

/// A block with the kind as which it is judged.
#[derive(Clone, Copy, Debug, PartialEq, Eq)]
pub struct Item {
    /// The kind of the entry that leads to the block: 2 to 4 for nodes of files, 5 for inode blocks, 6 and 7 for nodes of the inode
    /// file (`docs/FORMAT.md`). Every other number is judged as a node's.
    pub kind: u8,
    /// The block.
    pub body: [u8; 4096],
}

/// What is said of a block by itself.
#[derive(Clone, Copy, Debug, PartialEq, Eq)]
pub struct Judged {
    /// Whether the block has the shape of its kind.
    pub shaped: bool,
    /// What had to stand in its first field that isn't as said; 0 where it has the shape.
    pub want: u64,
    /// What stands there; 0 where it has the shape.
    pub found: u64,
    /// How many pointers in it, holes left out, have a known place, 0 to 128; 0 where it lacks the shape.
    pub known: u32,
    /// How many pointers in it, holes left out, have an unknown place, 0 to 128; 0 where it lacks the shape.
    pub unknown: u32,
}
