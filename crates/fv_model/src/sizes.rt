//! The blocks of a volume's maps.

ghost use Rattle.std.specs.Prelude.{◌≡◌, ◌<◌, ◌≤◌};
ghost use Rattle.fv_model.specs.Space.{entries_by, map_blocks, map_index, map_slot};

/// How many blocks a map of a volume has: a bit for each number of its span, 32,768 to a block (`docs/FORMAT.md`). At most 32, since a span
/// is at most 1,048,576. Costs a step and takes no memory.
pub fn map_blocks(span: u32) -> u32
    ensures { result ≡ map_blocks span }
{
    span.div_ceil(32_768)
}

/// The slot whose map has the block under a VVBN behind the span: there lie the blocks of 25 maps, slot after slot (`docs/FORMAT.md`). The
/// active table has slot 0. Costs a step and takes no memory.
#[tactic(auto, using(crate::proofs::MapPlaces::slot_within))]
pub fn map_slot(span: u32, vvbn: u32) -> u8
    requires past { span ≤ vvbn }
    requires within { vvbn < entries_by 1 span }
    ensures value { result ≡ map_slot span vvbn }
    ensures few { result < 25 }
{
    ((vvbn - span) / map_blocks(span)) as u8
}

/// Which block of its map the block under a VVBN behind the span is, counted from 0. Costs a step and takes no memory.
#[tactic(auto, using(crate::proofs::MapPlaces::index_within))]
pub fn map_index(span: u32, vvbn: u32) -> u32
    requires past { span ≤ vvbn }
    requires within { vvbn < entries_by 1 span }
    ensures value { result ≡ map_index span vvbn }
    ensures within { result < map_blocks span }
{
    (vvbn - span) % map_blocks(span)
}
