//! A volume, as its label tells of it.

ghost use Rattle.std.specs.Prelude.{◌≡◌, ◌<◌, ◌≤◌};
ghost use Rattle.fv_dump.specs.Looking.{Looks, fault_of};

use crate::ending::Fault;
use crate::look::{Look, read};
use crate::taken::Taken;
use crate::text::{Text, name_in};
use fv_codec::Label;

/// The bits that one block of a map holds.
pub(crate) const BLOCK_BITS: u32 = 32768;

/// The maps of a volume: that of the active table, and one for each of 24 snapshots.
pub(crate) const MAPS: u32 = 25;

/// A volume of the root that is looked at.
#[derive(Clone, Copy)]
pub(crate) struct Volume {
    /// Its slot, below 64.
    pub(crate) slot: u8,
    /// The place of its label.
    pub(crate) at: u64,
    /// Its label.
    pub(crate) label: Label,
    ghost span_in_range: { label.span ≤ 1048576 },
}

impl Volume {
    ghost use Rattle.fv_model.specs.Space.{map_blocks};
    ghost use Rattle.fv_image.specs.Views.{entry_count, map_vvbn};

    /// Its name.
    pub(crate) fn name(&self) -> &[u8] {
        name_in(&self.label.name, self.label.name_length)
    }

    /// How many blocks each of its maps has.
    pub(crate) fn map_blocks(&self) -> u32
        ensures blocks { result ≡ map_blocks self.now.label.span }
        ensures few { result ≤ 32 }
    {
        self.label.span.div_ceil(BLOCK_BITS)
    }

    /// How many entries its container has.
    pub(crate) fn numbers(&self) -> u32
        ensures count { result ≡ entry_count self.now.label.span }
        ensures few { result ≤ 1049376 }
    {
        self.label.span + MAPS * self.map_blocks()
    }

    /// The VVBN of a block of the map in a slot below 25.
    pub(crate) fn map_vvbn(&self, map: u32, k: u32) -> u32
        requires map { map < 25 }
        requires block { k < map_blocks self.now.label.span }
        ensures { result ≡ map_vvbn self.now.label.span map k }
    {
        self.label.span + (map * self.map_blocks() + k)
    }

    /// Whether the map in a slot below 25 is in use.
    pub(crate) fn uses_map(&self, map: u32) -> bool
        requires { map < 25 }
    {
        map == 0 || self.label.snapshots[(map - 1) as usize].name_length != 0
    }
}

/// The volume of a slot below 64. Where the root has none it is `None`, and where its label hasn't its shape, which is told.
#[tactic(auto, using(crate::proofs::Looking::looks_on, crate::proofs::Looking::looks_not))]
pub(crate) fn read_volume<L: Look>(
    look: &mut L,
    text: &mut Text,
    taken: &Taken,
    slot: u8,
) -> Result<Option<Volume>, Fault>
    requires { slot < 64 }
    ensures { Looks (L.shown look.old) (L.shown look.new) (fault_of result) }
{
    let at = u64::from(taken.root.labels[usize::from(slot)]);
    if at == 0 {
        return Ok(None);
    }
    let block = read(look, at)?;
    match Label::decode(&block) {
        Ok(label) => Ok(Some(Volume { slot, at, label })),
        Err(shape) => {
            text.add_named(b"label", u64::from(slot));
            text.add_named(b" at", at);
            text.end_without(b"label", &shape);
            Ok(None)
        }
    }
}
