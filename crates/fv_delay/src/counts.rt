//! How many delayed entries regions have.

use crate::listed::Listed;

/// How many delayed entries a region has.
#[derive(Clone, Copy, Debug, PartialEq, Eq)]
pub struct Count {
    /// The slot of the volume, below 64.
    pub slot: u8,
    /// The number of the region in the volume's container: it has the VVBNs from 256 times that on.
    pub region: u32,
    /// How many of its 256 entries are delayed.
    pub count: u32,
}

/// The counts of regions in an order. Contracts see the list of them.
pub type Counts = Listed<Count>;
