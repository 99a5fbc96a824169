//! Blocks that a walk has met, so that it comes to each once.

use crate::text::Text;
use fv_bits::BitMap;

/// Whether a set of blocks may take one more.
#[derive(Clone, Copy, PartialEq, Eq)]
pub(crate) enum Coming {
    /// It was not in it, and is now.
    New,
    /// It was in it already.
    Again,
    /// It lies past the last block.
    Past,
}

/// Puts a block into a set of blocks, where it is below the set's length.
pub(crate) fn enter(met: &mut BitMap, at: u64) -> Coming {
    if at >= u64::from(met.len()) {
        return Coming::Past;
    }
    let at = at as u32;
    if met.get(at) {
        return Coming::Again;
    }
    met.set(at);
    Coming::New
}

/// Ends a line by why a block isn't looked at.
pub(crate) fn end_at(text: &mut Text, at: u64, coming: Coming) {
    text.add_named(b"at", at);
    text.add(if coming == Coming::Past {
        b": past the last block\n"
    } else {
        b": met before\n"
    });
}
