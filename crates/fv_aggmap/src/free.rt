//! Finding a number that neither of two sets has, and counting those that are free.

ghost use Rattle.std.specs.Prelude.{◌≡◌, ◌<◌, ◌≤◌, length, IfSome, IfNone, if◌then◌else◌};
ghost use Rattle.fv_aggmap.specs.Space.{AreHeldFrom, IsFreeIn, becomes_free, free_from};

use fv_bits::BitMap;

/// A number from `first` on that neither set has: the next one from `cursor` on, and where there is none,
/// the first one of all.
pub(crate) fn find_free(committed: &BitMap, next: &BitMap, first: u32, cursor: u32) -> Option<u32>
    requires same { length next.now ≡ length committed.now }
    requires within { cursor ≤ length committed.now }
    requires after { first ≤ cursor }
    ensures none { IfNone result (AreHeldFrom committed.now next.now first) }
    ensures some { IfSome result (IsFreeIn committed.now next.now first) }
{
    match free_from(committed, next, cursor) {
        Some(at) => Some(at),
        None => free_from(committed, next, first),
    }
}

/// The first number from `from` on that neither set has. Costs a step for each word of 64 numbers that is
/// passed, and for each run of numbers that one of the two has alone.
fn free_from(left: &BitMap, right: &BitMap, from: u32) -> Option<u32>
    requires same { length right.now ≡ length left.now }
    requires within { from ≤ length left.now }
    ensures none { IfNone result (AreHeldFrom left.now right.now from) }
    ensures some { IfSome result (IsFreeIn left.now right.now from) }
{
    let mut at = from;
    while let Some(left_free) = left.first_free(at) {
        let right_free = right.first_free(left_free)?;
        if right_free == left_free {
            return Some(right_free);
        }
        at = right_free;
    }
    None
}

/// How many numbers become free where the next set gives one up: one or none.
pub(crate) fn freed(committed: &BitMap, next: &BitMap, first: u32, b: u32) -> u32
    requires same { length next.now ≡ length committed.now }
    requires within { b < length committed.now }
    ensures { result ≡ (if becomes_free committed.now next.now first b then 1 else 0) }
{
    u32::from(b >= first && next.get(b) && !committed.get(b))
}

/// How many numbers from `first` on a set hasn't.
pub(crate) fn clear_from(map: &BitMap, first: u32) -> u32
    requires { first ≤ length map.now }
    ensures { result ≡ free_from map.now map.now first }
{
    map.len() - first - map.count_range(first, map.len())
}
