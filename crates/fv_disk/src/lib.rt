//! The outside of the product: blocks, a disk with its crashes, and a host that adds a byte source
//! and a byte sink.
//!
//! `Disk` and `Host` are traits whose contracts are the whole model of the outside: what reads give,
//! what a crash may leave, when a call may fail. `specs/` has that model, `proofs/Moments.antt` the laws
//! by which clauses on crashes compose over several calls. A real file is one implementation
//! (`fv_filehost`); `docs/PROOFS.md` says which premises rest on it.
#![tactic(auto)]

mod disk;
mod fault;
mod give;
mod host;

pub use disk::Disk;
pub use fault::BlockFault;
pub use give::give_all;
pub use host::Host;

/// A block of the disk: 4096 bytes.
pub type Block = [u8; 4096];

/// The block of zeros, as which a block reads that was never written.
pub const ZERO: Block = [0; 4096];

/// A call of the outside failed. Which count rose tells of what kind it was.
#[derive(Clone, Copy, Debug, PartialEq, Eq)]
pub struct Failed;
