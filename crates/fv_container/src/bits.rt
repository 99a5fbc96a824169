//! Bits of the entries that aren't holes.

ghost use Rattle.std.specs.Prelude.{◌≡◌, ◌<◌, ◌≤◌, ◌*◌, ◌+◌, ◌^◌, false, length, get_or, slice_set, count_by};
ghost use Rattle.std.specs.List.{range_with_len};
ghost use Rattle.fv_container.specs.Kept.{has_number};
ghost use Rattle.fv_container.specs.Putting.{LearnsIn};

use crate::layout::FAN;
use fv_bits::BitMap;
use fv_codec::ContainerLeaf;

/// Puts one bit of a map.
pub(crate) fn put_bit(used: &mut BitMap, at: u32, value: bool)
    requires { at < length used.old }
    ensures { used.new ≡ slice_set used.old at value }
{
    if value {
        used.set(at);
    } else {
        used.clear(at);
    }
}

/// Puts the bits of a leaf into a map.
pub(crate) fn learn_in(used: &mut BitMap, from: u32, leaf: &ContainerLeaf)
    requires few { from < 2 ^ 30 }
    requires kinds { length leaf.now.kinds ≡ 256 }
    ensures { LearnsIn from leaf.now used.old used.new }
{
    for c in 0..FAN {
        let at = from + c as u32;
        if at < used.len() {
            put_bit(used, at, leaf.kinds[c] != 0);
        }
    }
}

/// How many of the 256 numbers from one on, which is below its length, are members of a map. Costs a step for each word of 64 numbers.
#[tactic(auto, using(crate::proofs::Counting::members_from))]
fn count_from(used: &BitMap, from: u32) -> u32
    requires few { from < 2 ^ 30 }
    requires within { from < length used.now }
    ensures { result ≡ count_by (λ v. get_or used.now v false) (range_with_len from 256) }
{
    used.count_range(from, (from + 256).min(used.len()))
}

/// Puts the bit that says whether a region has a number that is a member of a map. Costs a step for each word of 64 numbers.
pub(crate) fn occupy(occupied: &mut BitMap, used: &BitMap, region: u32)
    requires few { region < 65536 }
    requires within { 256 * region < length used.now }
    requires room { region < length occupied.old }
    ensures { occupied.new ≡ slice_set occupied.old region (has_number used.now region) }
{
    put_bit(occupied, region, count_from(used, 256 * region) > 0);
}
