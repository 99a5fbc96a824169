//! Giving back what a volume has.

ghost use Rattle.std.specs.Prelude.{◌≡◌, ◌<◌, ◌≤◌, ◌/◌, true, false, length};
ghost use Rattle.fv_image.specs.Views.{entry_count};
ghost use Rattle.fv_container.specs.Spelled.{is_at};
ghost use Rattle.fv_container.specs.Paged.{is_sure};
ghost use Rattle.fv_delay.specs.Reclaims.{HasGivenSome};
ghost use Rattle.fv_volume.specs.Writing.{HasEntries, HasGiven, HasMapLeaves, HasSureMaps, has_maps_at};
ghost use Rattle.fv_volume.specs.Stored.{is_map_written, place_at, place_in};

use crate::taking::is_map_written;
use fv_aggmap::AggMap;
use fv_container::{Container, Entry};
use fv_volume::{VolumeState, entry_count};

/// The place of an entry; a hole has none, 0.
pub(crate) fn place_in(entry: Option<Entry>) -> u32
    ensures { result ≡ place_in entry }
{
    match entry {
        Some(entry) => entry.pvbn,
        None => 0,
    }
}

/// Gives the block under a VVBN behind the span back where it is one of a map that a consistency point writes.
fn give_back_map(state: &VolumeState, container: &Container, map: &mut AggMap, vvbn: u32)
    requires past { state.now.span ≤ vvbn }
    requires within { vvbn < entry_count state.now.span }
    requires entries { vvbn < length container.now.map.entries }
    requires loaded { HasMapLeaves state.now container.now }
    ensures same { is_map_written state.entry.now vvbn ≡ false → map.new ≡ map.old }
    ensures given { is_sure container.entry.now (vvbn / 256) ≡ true → is_map_written state.entry.now vvbn ≡ true → HasGiven map.old (λ b. is_at b (place_at container.entry.now.map vvbn)) map.new }
    ensures some { HasGivenSome map.old map.new }
{
    if is_map_written(state, vvbn) {
        map.give_back(place_in(container.entry_at(vvbn)));
    }
}

/// Gives back the old blocks of the maps that a consistency point writes. Their leaves are in memory. Costs a step for each VVBN behind
/// the span.
pub(crate) fn give_back_maps(state: &VolumeState, container: &Container, map: &mut AggMap)
    requires entries { HasEntries state.now container.now.map }
    requires loaded { HasMapLeaves state.now container.now }
    ensures given { HasSureMaps state.entry.now container.entry.now → HasGiven map.old (has_maps_at state.entry.now container.entry.now.map (entry_count state.entry.now.span)) map.new }
    ensures some { HasGivenSome map.old map.new }
{
    for vvbn in state.span..entry_count(state.span) {
        give_back_map(state, container, map, vvbn);
    }
}
