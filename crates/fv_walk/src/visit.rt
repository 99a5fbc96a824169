//! A pointer that a walk comes to.

ghost use Rattle.std.specs.Prelude.{◌≡◌, ◌≤◌, ◌==◌, ◌&&◌, not};
ghost use Rattle.fv_walk.specs.Visits.{IsVisit, leads_on, root_visit, rooted};

use fv_codec::Pointer;

/// A table, as a label or a snapshot's record names it.
#[derive(Clone, Copy, Debug, PartialEq, Eq)]
pub struct Table {
    /// The levels of its inode file.
    pub levels: u8,
    /// The pointer to the root of its inode file.
    pub root: Pointer,
}

/// A pointer that a walk comes to, with its position in its tree.
#[derive(Clone, Copy, Debug, PartialEq, Eq)]
pub struct Visit {
    /// The number of the file whose tree it is, or 2^64 - 1 for the inode file.
    pub owner: u64,
    /// The levels of that tree.
    pub levels: u8,
    /// Its own level, 0 to 3, where 0 is that of cells.
    pub level: u8,
    /// Which range of its level it stands for.
    pub place: u64,
    /// The pointer.
    pub pointer: Pointer,
    /// The pointer to the block in which it stands; a hole where that is a label.
    pub holder: Pointer,
    /// The place of the block in which it stands.
    pub block: u64,
}

impl Visit {
    /// The pointer to the root of a table, which stands in the label at a place.
    #[tactic(auto, using(crate::proofs::Ranges::root_is_visit))]
    pub fn root(table: &Table, label: u64) -> Visit
        requires { table.now.levels ≤ 3 }
        ensures visit { result ≡ root_visit (rooted table.now) label }
        ensures range { IsVisit result }
    {
        Visit {
            owner: u64::MAX,
            levels: table.levels,
            level: table.levels,
            place: 0,
            pointer: table.root,
            holder: Pointer::HOLE,
            block: label,
        }
    }

    /// Whether the block that it leads to holds pointers: that of a node or an inode block does, and a data block doesn't.
    pub fn leads_on(&self) -> bool
        ensures { result ≡ leads_on self.now }
    {
        self.level != 0 || self.owner == u64::MAX
    }

    /// Whether a walk ends below it for want of pointers, in the tree of an inode file or of another file: it does at a cell of a file.
    pub(crate) fn ends(&self, of_inodes: bool) -> bool
        ensures { result ≡ ((self.now.level == 0) && not of_inodes) }
    {
        self.level == 0 && !of_inodes
    }

    /// Whether the pointers below it are of the tree of the inode file, where it is in the tree of an inode file or of another file: those
    /// of a node are, and those of an inode block are roots of files.
    pub(crate) fn stays(&self, of_inodes: bool) -> bool
        ensures { result ≡ (of_inodes && not (self.now.level == 0)) }
    {
        of_inodes && self.level != 0
    }
}
