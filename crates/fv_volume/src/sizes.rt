//! How large a container is, and a map.

ghost use Rattle.std.specs.Prelude.{◌≡◌, ◌<◌, ◌≤◌};
ghost use Rattle.fv_image.specs.Containers.{most_entries};
ghost use Rattle.fv_image.specs.Views.{entry_count, map_vvbn};
ghost use Rattle.fv_model.specs.Numbers.{greatest_span};
ghost use Rattle.fv_model.specs.Space.{map_blocks};
ghost use Rattle.fv_volmap.specs.Slots.{stored_count};

use fv_model::map_blocks;
use fv_volmap::{MapSlot, STORED_SLOTS};

/// How many entries the container of a volume of this span has: one for each VVBN of the span and for each block of 25 maps, 1,049,376 at
/// most. Costs some steps. `docs/FORMAT.md` has the container.
pub fn entry_count(span: u32) -> u32
    requires { span ≤ greatest_span }
    ensures value { result ≡ entry_count span }
    ensures most { result ≤ most_entries }
{
    span + STORED_SLOTS as u32 * map_blocks(span)
}

/// The VVBN of block `index` of the map of a slot below 25: behind the span the blocks of the maps lie slot by slot, slot 0 that of the
/// active table. Costs some steps. `docs/FORMAT.md` has the container.
#[tactic(auto, using(fv_image::proofs::Behind::map_vvbn_within))]
pub fn map_vvbn(span: u32, slot: MapSlot, index: u32) -> u32
    requires span { span ≤ greatest_span }
    requires slot { slot < stored_count }
    requires within { index < map_blocks span }
    ensures value { result ≡ map_vvbn span slot index }
    ensures below { result < entry_count span }
{
    span + (u32::from(slot) * map_blocks(span) + index)
}
