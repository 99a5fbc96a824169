//! How a command changes a ledger.

use fv_model::Kind;

/// How a command changes a volume's ledger.
#[derive(Clone, Copy, Debug, PartialEq, Eq)]
pub struct Delta {
    /// By how many blocks the charge rises; it falls where that is below 0.
    pub charge: i64,
    /// By how many blocks the need rises; it falls where that is below 0.
    pub need: i64,
    /// The size afterwards, in blocks.
    pub size: u32,
    /// The kind of guarantee afterwards.
    pub kind: Kind,
}
