//! Where the fixed blocks lie.

ghost use Rattle.std.specs.Prelude.{◌≡◌, ◌<◌};
ghost use Rattle.fv_image.specs.Layout.{gate_place, root_place, area_blocks, area_place};

use crate::sizes::area_blocks;

pub(crate) const SUPERBLOCK: u64 = 0;

pub(crate) const FIRST_GATE: u64 = 1;

pub(crate) const SECOND_GATE: u64 = 2;

pub(crate) const FIRST_ROOT: u64 = 3;

pub(crate) const FIRST_AREA: u64 = 5;

/// The block that holds a slot's gate.
pub(crate) fn gate_place(slot: u8) -> u64
    ensures { result ≡ gate_place slot }
{
    FIRST_GATE + u64::from(slot)
}

/// The block that holds the root of slot 0 or 1.
pub fn root_place(slot: u8) -> u64
    ensures { result ≡ root_place slot }
{
    FIRST_ROOT + u64::from(slot)
}

/// Block `k` of the map area that goes with slot 0 or 1, in an aggregate of so many blocks.
pub fn area_place(blocks: u32, slot: u8, k: u32) -> u64
    requires { k < area_blocks blocks }
    ensures { result ≡ area_place blocks slot k }
{
    FIRST_AREA + (u64::from(slot) * u64::from(area_blocks(blocks)) + u64::from(k))
}
