//! The reclaim of a region.

ghost use Rattle.std.specs.Prelude.{◌≡◌, ◌<◌, ◌≤◌, ◌/◌, ◌==◌, true, false, None, length};
ghost use Rattle.fv_container.specs.Leading.{place_at};
ghost use Rattle.fv_container.specs.Loading.{HasPut};
ghost use Rattle.fv_container.specs.Paged.{is_here, is_sure};
ghost use Rattle.fv_container.specs.Spelled.{is_at};
ghost use Rattle.fv_image.specs.Views.{entry_count};
ghost use Rattle.fv_model.specs.Numbers.{greatest_span};
ghost use Rattle.fv_delay.specs.Delay.{IsHereIn, IsSureIn, delayed_in, is_delayed};
ghost use Rattle.fv_delay.specs.Reclaims.{HasGiven, HasGivenSome, HasReclaimed, HasStayed};

use crate::delayed::{end_of, entry_count, first_of, is_held};
use fv_aggmap::AggMap;
use fv_container::Container;
use fv_volmap::VolMap;

/// Reclaims a region of a volume's container: its delayed entries become holes, and their blocks are given back, so that the next root won't
/// hold them. No block is taken of those that the root on the disk holds until the next one is committed. Every other entry stays. It answers
/// how many became holes. The container has an entry for each VVBN of the map's span and for each block of 25 maps, and the region's leaf is in
/// memory. A region behind its last entry has none.
///
/// It takes no memory and makes no disk call. Costs a step for each of the at most 256 entries and each slot. `docs/SPACE.md` says when the
/// blocks can be used again.
pub fn reclaim(container: &mut Container, map: &VolMap, region: u32, pool_map: &mut AggMap) -> u32
    requires span { map.now.span ≤ greatest_span }
    requires entries { length container.old.map.entries ≡ entry_count map.now.span }
    requires loaded { IsHereIn container.old region }
    ensures count { IsSureIn container.old region → result ≡ delayed_in map.now container.old.map region }
    ensures reclaimed { IsSureIn container.old region
        → HasReclaimed map.now (λ r. r == region) container.old pool_map.old container.new pool_map.new }
    ensures stayed { HasStayed container.old container.new }
    ensures given { HasGivenSome pool_map.old pool_map.new }
{
    let entries = entry_count(map);
    let first = first_of(region, entries);
    let end = end_of(first, entries);
    let mut count = 0;
    for vvbn in first..end {
        count += u32::from(reclaim_entry(container, map, vvbn, pool_map));
    }
    count
}

/// Makes an entry a hole where it is delayed, gives its block back, and says whether it was.
fn reclaim_entry(container: &mut Container, map: &VolMap, vvbn: u32, pool_map: &mut AggMap) -> bool
    requires within { vvbn < length container.old.map.entries }
    requires entries { length container.old.map.entries ≡ entry_count map.now.span }
    requires loaded { is_here container.old (vvbn / 256) ≡ true }
    ensures delayed { is_sure container.old (vvbn / 256) ≡ true → result ≡ is_delayed map.now container.old.map vvbn }
    ensures same { result ≡ false → (container.new ≡ container.old) × (pool_map.new ≡ pool_map.old) }
    ensures hole { result ≡ true → HasPut vvbn None container.old container.new }
    ensures given { is_sure container.old (vvbn / 256) ≡ true → result ≡ true
        → HasGiven pool_map.old (λ b. is_at b (place_at container.old.map vvbn)) pool_map.new }
    ensures some { result ≡ true → HasGivenSome pool_map.old pool_map.new }
{
    let Some(entry) = container.entry_at(vvbn) else {
        return false;
    };
    if is_held(map, vvbn) {
        return false;
    }
    container.make_hole(vvbn);
    pool_map.give_back(entry.pvbn);
    true
}
