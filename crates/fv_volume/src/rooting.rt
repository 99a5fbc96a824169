//! Places for the root pointers of a volume's label.

ghost use Rattle.std.specs.Prelude.{◌≡◌, map, get_or};
ghost use Rattle.fv_volume.specs.Placements.{put_at, rooted_at, snap_at, with_places};

use crate::state::{Snap, VolumeState};
use fv_codec::Pointer;
use fv_pool::Rooted;
use fv_volmap::STORED_SLOTS;

impl VolumeState {
    /// Gives the root pointers of the active table and of the snapshots the places that `places` has for their map slots, 0 for the active
    /// table. A place of 0 leaves a pointer as it is. The next consistency point writes the label. Costs a step for each snapshot.
    pub fn place_roots(&mut self, places: &[u32; STORED_SLOTS])
        ensures { self.new ≡ with_places self.old places.entry.now }
    {
        self.active = rooted_at(self.active, places[0]);
        self.snapshots.put_roots(places);
        self.changed = true;
    }
}

/// Gives the root pointer of each snapshot the place that there is for its map slot.
pub(crate) fn place_snaps(snaps: &mut [Snap], places: &[u32; STORED_SLOTS])
    ensures { snaps.new ≡ map (snap_at places.entry.now) snaps.old }
{
    for i in 0..snaps.len() {
        place_snap(&mut snaps[i], places);
    }
}

/// Gives the root pointer of a snapshot the place that there is for its map slot.
fn place_snap(snap: &mut Snap, places: &[u32; STORED_SLOTS])
    ensures { snap.new ≡ snap_at places.entry.now snap.old }
{
    snap.table = rooted_at(snap.table, place_for(places, snap.slot as usize));
}

/// The place for a map slot; none past the last.
fn place_for(places: &[u32; STORED_SLOTS], slot: usize) -> u32
    ensures { result ≡ get_or places.entry.now slot 0 }
{
    if slot < STORED_SLOTS { places[slot] } else { 0 }
}

/// A table at a place.
fn rooted_at(table: Rooted, place: u32) -> Rooted
    ensures { result ≡ rooted_at place table }
{
    Rooted {
        levels: table.levels,
        root: put_at(table.root, place),
    }
}

/// A pointer at a place, or as it is where none is given.
fn put_at(pointer: Pointer, place: u32) -> Pointer
    ensures { result ≡ put_at place pointer }
{
    if place == 0 {
        return pointer;
    }
    Pointer {
        vvbn: pointer.vvbn,
        pvbn: u64::from(place),
        stamp: pointer.stamp,
    }
}
