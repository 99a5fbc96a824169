//! Whether a node that was read is the one of its position.

ghost use Rattle.std.specs.Prelude.{◌≡◌, ◌≢◌, ◌<◌, ◌≤◌, ◌&&◌, ℕ, true, length, get_or};
ghost use Rattle.fv_codec.specs.Blocks.{last_place};
ghost use Rattle.fv_container.specs.Reading.{IsInnerAs};

use crate::layout::FAN;
use fv_codec::ContainerInner;

/// The last place of a block.
const LAST_PLACE: u32 = 1_048_575;

/// Whether what was read at a place is the inner node of a level and number, with at most so many children. Where `at` is 0 nothing was.
pub(crate) fn is_inner_as(
    at: u32,
    node: &ContainerInner,
    level: u8,
    number: usize,
    width: usize,
) -> bool
    ensures whole { result ≡ true → at ≢ 0 → IsInnerAs node.now level number width }
    ensures kept { (at ≢ 0 → IsInnerAs node.now level number width) → result ≡ true }
{
    at == 0
        || (node.level == level
            && node.place == number as u64
            && has_no_child(&node.children, width))
}

/// Whether an inner node has no child from a number on.
fn has_no_child(children: &[u32; 256], from: usize) -> bool
    ensures whole { result ≡ true → (c : ℕ) → from ≤ c → c < 256 → get_or children.now c 0 ≡ 0 }
    ensures kept { ((c : ℕ) → from ≤ c → c < 256 → get_or children.now c 0 ≡ 0) → result ≡ true }
{
    for c in 0..FAN {
        if c >= from && children[c] != 0 {
            return false;
        }
    }
    true
}

/// Whether each number of a row is a place, or 0.
pub(crate) fn are_places(places: &[u32]) -> bool
    ensures whole { result ≡ true → (m : ℕ) → get_or places.now m 0 ≤ last_place }
    ensures kept { ((m : ℕ) → get_or places.now m 0 ≤ last_place) → result ≡ true }
{
    for n in 0..places.len() {
        if places[n] > LAST_PLACE {
            return false;
        }
    }
    true
}

/// Whether both are so.
pub(crate) fn both(first: bool, second: bool) -> bool
    ensures { result ≡ (first && second) }
{
    first && second
}
