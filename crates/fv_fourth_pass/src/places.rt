//! What rule 13 asks of a volume's pointers by: whether its places are known, and which VVBNs of its base have an entry of its own.

ghost use Rattle.std.specs.Prelude.{◌≡◌, ◌<◌, ◌+◌, ◌==◌, Some, length, IfOk, option_copied};
ghost use Rattle.fv_fourth_pass.specs.Placed.{HasCopies, HasCopiesTo};

use crate::bases::is_copied;
use fv_bits::BitMap;
use fv_codec::Label;
use std::alloc::{AllocError, Global};

/// Adds a VVBN of a base to those that have an entry of the volume's own, if it has one.
fn add_copy(copies: &mut BitMap, base: &BitMap, row: &[u32], vvbn: u32)
    requires low { vvbn < length base.now }
    requires size { length copies.old ≡ length base.now }
    ensures has { HasCopiesTo base.now row.now copies.old vvbn → HasCopiesTo base.now row.now copies.new (vvbn + 1) }
    ensures size { length copies.new ≡ length base.now }
{
    if !is_copied(base, row, vvbn) {
        return;
    }
    copies.set(vvbn);
}

/// The VVBNs of a base that have an entry of the volume's own.
fn copies_in(alloc: Global, base: &BitMap, row: &[u32]) -> Result<BitMap, AllocError>
    ensures { IfOk result (HasCopies (Some base.now) row.now) }
{
    let mut copies = BitMap::new(alloc, base.len())?;
    for vvbn in 0..base.len() {
        add_copy(&mut copies, base, row, vvbn);
    }
    Ok(copies)
}

/// Those of a base, if there is one.
pub(crate) fn copies_of(
    alloc: Global,
    base: Option<&BitMap>,
    row: &[u32],
) -> Result<BitMap, AllocError>
    ensures { IfOk result (HasCopies (option_copied base.entry) row.now) }
{
    match base {
        Some(base) => copies_in(alloc, base, row),
        None => {
            let copies = BitMap::new(alloc, 0)?;
            Ok(copies)
        }
    }
}

/// Whether all places of a volume are known.
pub(crate) fn has_known_places(label: &Label) -> bool
    ensures { result ≡ (label.entry.now.known == 1) }
{
    label.known == 1
}
