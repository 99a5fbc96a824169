//! Regions of containers.

use crate::listed::Listed;

/// A region of a volume's container: the entries of one of its leaves.
#[derive(Clone, Copy, Debug, PartialEq, Eq)]
pub struct Region {
    /// The slot of the volume, below 64.
    pub slot: u8,
    /// Its number in the volume's container: it has the VVBNs from 256 times that on.
    pub region: u32,
}

/// Regions in an order. Contracts see the list of them.
pub type Regions = Listed<Region>;
