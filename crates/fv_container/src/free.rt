//! Where blocks for new nodes come from.

ghost use Rattle.fv_container.specs.Freeing.{IsRoom, Releases, Room, Takes};

/// A map of blocks that can be taken.
///
/// Contracts see the finite set of the free blocks, which are from 1 to 1,048,575, which blocks the next
/// root will hold, and which the root on the disk holds. No call changes the last.
pub trait Free {
    /// The free blocks, and which blocks each of the two roots holds.
    ghost room: { Self → Room };

    /// Takes a free block out of the set for the next root; `None` exactly where none is free.
    fn take_free(&mut self) -> Option<u32>
        ensures { Takes (room self.old) (room self.new) result };

    /// Says that the next root won't hold a block. It may be free afterwards, and nothing else in the set
    /// changes.
    fn release_after_commit(&mut self, pvbn: u32)
        ensures { Releases (room self.old) pvbn (room self.new) };

    /// What holds of every map at every moment.
    ghost laws: { (map : Self) → IsRoom (room map) };
}
