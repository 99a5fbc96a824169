//! Counts over the maps of a volume.

ghost use Rattle.std.specs.Prelude.{◌≡◌, ◌≤◌, ◌<◌, length, IfSome, option_copied};
ghost use Rattle.fv_charge.specs.Counted.{count_apart, count_held, is_apart};

use fv_bits::BitMap;

/// Whether a number below both lengths is held and isn't in the map of the base.
fn is_apart(held: &BitMap, base: &BitMap, number: u32) -> bool
    requires held { number < length held.now }
    requires base { number < length base.now }
    ensures { result ≡ is_apart held.now base.now number }
{
    held.get(number) && !base.get(number)
}

/// How many numbers are held and aren't in the map of the base.
#[tactic(auto, using(crate::proofs::Counting::counted_yes, crate::proofs::Counting::counted_no), unfolding(crate::specs::Counted::count_apart))]
pub(crate) fn count_apart(held: &BitMap, base: &BitMap) -> u32
    requires { length base.now ≡ length held.now }
    ensures exact { result ≡ count_apart held.now base.now }
    ensures most { result ≤ length held.now }
{
    let mut count = 0;
    for number in 0..held.len() {
        if is_apart(held, base, number) {
            count += 1;
        }
    }
    count
}

/// How many numbers are held and aren't in the map of the base, where there is one.
#[tactic(auto, using(crate::proofs::Counting::held_le))]
pub(crate) fn count_held(held: &BitMap, base: Option<&BitMap>) -> u32
    requires { IfSome (option_copied base) (λ map. length map ≡ length held.now) }
    ensures exact { result ≡ count_held held.now (option_copied base.entry) }
    ensures most { result ≤ length held.now }
{
    match base {
        None => held.count(),
        Some(map) => count_apart(held, map),
    }
}
