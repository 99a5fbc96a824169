//! How much a flush has to place.

ghost use Rattle.std.specs.Prelude.{◌≡◌, ◌-◌, ◌^◌, min};
ghost use Rattle.fv_files.specs.Pending.{pending_in};

use crate::files::Files;

impl Files {
    /// How many blocks a `flush` of a table that stands on its blocks places at most, or 2^64 - 1 where that is less: what
    /// differs of the inode file from its blocks, and for each tree in memory what differs of it and 4 for its root. Both
    /// numbers are kept, so this looks for nothing.
    pub fn pending(&self) -> u64
        ensures { result ≡ min (pending_in self.now) (2 ^ 64 - 1) }
    {
        let inode = self.inode.pending();
        match u64::try_from(self.trees.cost()) {
            Ok(trees) => inode.saturating_add(trees),
            Err(_) => u64::MAX,
        }
    }
}
