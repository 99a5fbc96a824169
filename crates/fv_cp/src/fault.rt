//! Why a consistency point wasn't done.

use fv_disk::BlockFault;

/// Why a consistency point wasn't done: `DiskFault` where a read, a write or a barrier failed, and `Damaged` where
/// fewer blocks are free than the point asks for, or a leaf of a container doesn't stand where it has to. The first has the
/// place of the root that counts, how many blocks the point asks for, and how many are free; the other the place of the leaf.
/// `Memory` comes where there is none for a leaf. All but a failed write or barrier come before anything is written.
pub type CpFault = BlockFault;
