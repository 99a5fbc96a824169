//! What the roots of volumes reach.

ghost use Rattle.std.specs.Prelude.{◌≡◌, get_or, None};
ghost use Rattle.std.specs.Option.{option_map};
ghost use Rattle.fv_second_pass.specs.Reaching.{maps_of};

use fv_bits::BitMap;

/// Which VVBNs the roots of the volumes of an aggregate reach.
#[derive(Debug, Drop)]
pub struct Reached {
    /// For each of 64 slots, in their order, what the roots of its volume reach by their map slots: the active root has slot 0, and
    /// snapshots have 1 to 24. A slot that isn't in use has none. Of each root there is a bit for each VVBN of the volume.
    pub volumes: Vec<Option<Vec<Option<BitMap>>>>,
}

impl Reached {
    /// What the root of a map slot reaches, in the volume of a slot. `None` where one of the slots isn't in use. Costs one step.
    pub fn of(&self, slot: u8, map: u8) -> Option<&BitMap>
        ensures { option_map (λ reach. reach.now) result ≡ get_or (maps_of (get_or self.now.volumes.items slot None)) map None }
    {
        match self.volumes.get(usize::from(slot)) {
            Some(Some(maps)) => match maps.get(usize::from(map)) {
                Some(Some(reach)) => Some(reach),
                _ => None,
            },
            _ => None,
        }
    }
}
