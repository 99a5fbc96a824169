//! Which entries of a container are delayed.

ghost use Rattle.std.specs.Prelude.{◌≡◌, ◌<◌, ◌≤◌, ◌*◌, ◌+◌, ◌-◌, ◌/◌, true, false, length, min};
ghost use Rattle.fv_image.specs.Containers.{fan, level_width, most_entries};
ghost use Rattle.fv_image.specs.Views.{entry_count};
ghost use Rattle.fv_model.specs.Numbers.{greatest_span};
ghost use Rattle.fv_container.specs.Paged.{is_known, is_sure};
ghost use Rattle.fv_container.specs.Loading.{delayed_in_region};
ghost use Rattle.fv_volmap.specs.Slots.{active_of, stored_count};
ghost use Rattle.fv_delay.specs.Delay.{HoldsAlone, IsKnownIn, IsSureIn, delayed_in, is_delayed, is_held, is_used};

use fv_container::Container;
use fv_model::{map_blocks, map_slot};
use fv_volmap::{MapSlot, STORED_SLOTS, VolMap};

/// How many entries of a region of a volume's container are delayed: they aren't holes, and their VVBNs are held neither by the active map nor
/// by a snapshot's. The VVBN of a block of a map is held exactly while its slot is in use. The container has an entry for each VVBN
/// of the map's span and for each block of 25 maps, and it is known which entries of the region are holes. From its last region on none is
/// delayed.
///
/// Costs a step for each word of 64 VVBNs. Where a snapshot uses a slot, or the region isn't whole in the span, an entry that isn't a hole and
/// whose VVBN the active map hasn't makes it cost one besides for each of the at most 256 entries, and up to 25 more for each that isn't a
/// hole. It takes no memory and makes no disk call.
pub fn delayed_by_region(container: &Container, map: &VolMap, region: u32) -> u32
    requires span { map.now.span ≤ greatest_span }
    requires entries { length container.now.map.entries ≡ entry_count map.now.span }
    requires known { IsKnownIn container.now region }
    ensures { IsSureIn container.now region → result ≡ delayed_in map.now container.now.map region }
{
    let unmapped = count_unmapped(container, map, region);
    if unmapped == 0 || is_held_alone(map, region) {
        return unmapped;
    }
    let entries = entry_count(map);
    let first = first_of(region, entries);
    let end = end_of(first, entries);
    let mut count = 0;
    for vvbn in first..end {
        count += u32::from(is_delayed(container, map, vvbn));
    }
    count
}

/// How many entries of a region aren't holes and have VVBNs that the active map hasn't: where there is none, none is delayed. VVBNs behind
/// the span aren't in that map, and from its last region on a container has no entry.
fn count_unmapped(container: &Container, map: &VolMap, region: u32) -> u32
    requires span { map.now.span ≤ greatest_span }
    requires entries { length container.now.map.entries ≡ entry_count map.now.span }
    requires known { IsKnownIn container.now region }
    ensures none { IsSureIn container.now region → result ≡ 0 → delayed_in map.now container.now.map region ≡ 0 }
    ensures count { IsSureIn container.now region → fan * region < length container.now.map.entries
        → result ≡ delayed_in_region container.now.map (active_of map.now) region }
{
    if region < region_count(map) {
        container.delayed(map.active(), region)
    } else {
        0
    }
}

/// Whether the VVBNs of a region are held just where the active map has them: the region lies in the span, and no snapshot uses a slot.
/// `false` says nothing.
fn is_held_alone(map: &VolMap, region: u32) -> bool
    ensures within { result ≡ true → fan * region + fan ≤ map.now.span }
    ensures alone { result ≡ true → HoldsAlone map.now region }
{
    map.is_alone() && region < span_of(map) / 256
}

/// How many regions a volume's container has, which has an entry for each VVBN of the map's span and for each block of 25 maps. From that
/// number on no region has an entry.
#[tactic(auto, using(crate::proofs::Parts::regions_are))]
fn region_count(map: &VolMap) -> u32
    requires { map.now.span ≤ greatest_span }
    ensures { result ≡ level_width (entry_count map.now.span) 0 }
{
    entry_count(map).div_ceil(256)
}

/// Whether the entry of a VVBN is delayed, where it is known which entries of its region are holes.
fn is_delayed(container: &Container, map: &VolMap, vvbn: u32) -> bool
    requires within { vvbn < length container.now.map.entries }
    requires entries { length container.now.map.entries ≡ entry_count map.now.span }
    requires known { is_known container.now (vvbn / 256) ≡ true }
    ensures { is_sure container.now (vvbn / 256) ≡ true → result ≡ is_delayed map.now container.now.map vvbn }
{
    container.has_entry(vvbn) && !is_held(map, vvbn)
}

/// Whether a VVBN is held.
pub(crate) fn is_held(map: &VolMap, vvbn: u32) -> bool
    requires { vvbn < entry_count map.now.span }
    ensures { result ≡ is_held map.now vvbn }
{
    let span = span_of(map);
    if vvbn < span {
        map.held(vvbn)
    } else {
        is_used(map, map_slot(span, vvbn))
    }
}

/// Whether a slot is in use whose map stands on the disk; that of the active table always is.
fn is_used(map: &VolMap, slot: MapSlot) -> bool
    requires { slot < stored_count }
    ensures { result ≡ is_used map.now slot }
{
    slot == 0 || map.snapshot(slot).is_some()
}

/// The span of a volume's maps.
#[tactic(auto, using(crate::proofs::Held::active_long))]
fn span_of(map: &VolMap) -> u32
    ensures { result ≡ map.now.span }
{
    map.active().len()
}

/// The entries of a volume's container: one for each VVBN of its span and for each block of 25 maps.
pub(crate) fn entry_count(map: &VolMap) -> u32
    requires { map.now.span ≤ greatest_span }
    ensures value { result ≡ entry_count map.now.span }
    ensures most { result ≤ most_entries }
{
    let span = span_of(map);
    span + STORED_SLOTS as u32 * map_blocks(span)
}

/// The first VVBN of a region, or the number of entries where the region lies behind them.
pub(crate) fn first_of(region: u32, entries: u32) -> u32
    ensures { result ≡ min (fan * region) entries }
{
    region.saturating_mul(256).min(entries)
}

/// The end of a region with this first VVBN.
pub(crate) fn end_of(first: u32, entries: u32) -> u32
    requires { first ≤ entries }
    ensures { result ≡ first + min (entries - first) fan }
{
    first + (entries - first).min(256)
}
