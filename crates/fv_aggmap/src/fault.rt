//! Why an aggregate map wasn't read.

use fv_disk::BlockFault;

/// Why an aggregate map wasn't read: `DiskFault` where a read failed, `Memory` where memory ran out, and
/// `Damaged` where a bit is set past the last block. That has the block of the map area with the bit, the
/// number of the last block, and the number of the first bit that is set past it.
pub type AggFault = BlockFault;
