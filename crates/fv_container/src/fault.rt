//! Why a container wasn't read.

use fv_disk::BlockFault;

/// Why a container wasn't read: `DiskFault` where a read failed, `Memory` where memory ran out, and
/// `Damaged` where a block of the tree hasn't the shape of a node. That has the place of the block, what had
/// to stand in its first field that isn't as said, and what stands there.
pub type ContainerFault = BlockFault;
