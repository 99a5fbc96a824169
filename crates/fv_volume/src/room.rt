//! How much room there is for the flush of a volume.

ghost use Rattle.std.specs.Prelude.{◌≡◌, ◌+◌, true, is_some, min};
ghost use Rattle.fv_aggmap.specs.Space.{free_blocks};
ghost use Rattle.fv_pool.specs.BlocksOver.{HasRoom, free_numbers};
ghost use Rattle.fv_pool.specs.Tables.{pending_of};

use crate::state::VolumeState;
use fv_pool::Pool;

impl VolumeState {
    /// How many numbers and blocks there are for a `flush` of the volume: as many as are free of both, and at most one more than is
    /// pending. So where some of it is left after the flush, nothing was lacking.
    ///
    /// Costs what `VolMap::count_free` costs: some steps for each number that it passes until it has counted so many. It takes no memory and
    /// makes no call of a disk.
    #[tactic(auto, unfolding(fv_pool::specs::BlocksOver::free_numbers))]
    pub fn room(&self, pool: &Pool) -> u32
        ensures free { HasRoom pool.now.map self.entry.now.map result }
        ensures exact { result ≡ min (min (free_blocks pool.now.map) (pending_of self.entry.now.files + 1)) (free_numbers self.entry.now.map) }
    {
        let blocks = least(pool.map.free_count(), self.pending().saturating_add(1));
        self.map.count_free(blocks)
    }

    /// The room for a `flush` of the volume, as `room` counts it, and none without files in memory, where there is nothing to place.
    ///
    /// Costs what `room` costs, and a step without files in memory.
    pub(crate) fn room_to_place(&self, pool: &Pool) -> u32
        ensures free { HasRoom pool.now.map self.entry.now.map result }
        ensures exact { is_some self.entry.now.files ≡ true → result ≡ min (min (free_blocks pool.now.map) (pending_of self.entry.now.files + 1)) (free_numbers self.entry.now.map) }
    {
        if self.files.is_some() {
            self.room(pool)
        } else {
            0
        }
    }
}

/// The lesser of two numbers.
fn least(blocks: u32, wanted: u64) -> u32
    ensures { result ≡ min blocks wanted }
{
    if u64::from(blocks) <= wanted {
        blocks
    } else {
        wanted as u32
    }
}
