//! The aggregate map as a map of blocks that can be taken.

use crate::map::AggMap;
use fv_container::Free;

impl Free for AggMap {
    ghost use Rattle.fv_aggmap.specs.Freeing.{is_room, room_of};

    ghost room = { room_of };

    ghost laws = { is_room };

    fn take_free(&mut self) -> Option<u32> {
        AggMap::take_free(self)
    }

    fn release_after_commit(&mut self, pvbn: u32) {
        if pvbn < self.blocks() {
            AggMap::release_after_commit(self, pvbn)
        }
    }
}
