//! What a check says of an aggregate.

use fv_faults::Lines;

/// What a check says of an aggregate.
#[derive(Debug, Drop)]
pub enum Verdict {
    /// It is sound.
    Valid {
        /// How many volumes it has, 0 to 64.
        volumes: u32,
        /// The sum of what they are charged, in blocks.
        charged: u64,
    },
    /// It isn't, and these are its fault lines, one at least.
    Faults(Lines),
}
