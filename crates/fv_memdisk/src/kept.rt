//! What the host keeps of a call.

use fv_disk::Block;

/// A call that changed the disk or the output.
#[derive(Clone, Copy)]
pub(crate) enum Event {
    Write(u64, Block),
    /// A write that failed: a crash may leave any block there.
    Torn(u64),
    Barrier,
    Give,
}

/// An event, with the length of the output after it.
#[derive(Clone, Copy)]
pub(crate) struct Kept {
    pub(crate) event: Event,
    pub(crate) output: usize,
}
