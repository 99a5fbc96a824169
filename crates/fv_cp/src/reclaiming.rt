//! Reclaiming the regions of a plan.

ghost use Rattle.std.specs.Prelude.{◌≡◌, ◌≤◌, ◌<◌, ℕ, Some, length, true};
ghost use Rattle.fv_model.specs.Numbers.{greatest_span};
ghost use Rattle.fv_image.specs.Views.{entry_count};
ghost use Rattle.fv_container.specs.Chains.{slot_count};
ghost use Rattle.fv_delay.specs.Holding.{held_by};
ghost use Rattle.fv_delay.specs.Delay.{AreKnown};
ghost use Rattle.fv_delay.specs.Reclaims.{HasGivenSome, HasReclaimed, HasStayed};
ghost use Rattle.fv_volume.specs.States.{state_at, with_state};
ghost use Rattle.fv_cp.specs.Choosing.{marked_at};
ghost use Rattle.fv_cp.specs.Planning.{IsReclaimable, LeavesDelays, is_set, takes_of};

use crate::planning::Plan;
use fv_aggmap::AggMap;
use fv_codec::SLOTS;
use fv_container::Container;
use fv_delay::reclaim_taken;
use fv_volmap::VolMap;
use fv_volumes::Volumes;

/// Says of each volume that is due that there is something to write.
pub(crate) fn mark(volumes: &mut Volumes, due: &[bool; 64])
    requires long { length volumes.old ≡ slot_count }
    ensures marked { (s : ℕ) → state_at volumes.new s ≡ marked_at (is_set due.now) volumes.old s }
    ensures long { length volumes.new ≡ slot_count }
{
    for slot in 0..SLOTS {
        mark_slot(volumes, due[slot as usize], slot);
    }
}

/// Says it of the volume of a slot, if it is due.
fn mark_slot(volumes: &mut Volumes, due: bool, slot: u8)
    requires slot { slot < slot_count }
    requires long { length volumes.old ≡ slot_count }
    ensures { volumes.new ≡ with_state volumes.old slot (marked_at (λ s. due) volumes.old slot) }
{
    if let Some(state) = volumes.get_mut(slot)
        && due
    {
        state.mark();
    }
}

/// Reclaims the regions of a plan in the container of the volume of a slot: their delayed entries become holes, and their blocks are given
/// back, so that the next root won't hold them. Every other entry stays. The container has an entry for each VVBN of the maps' span and for
/// each block of 25 maps. Where the volume is due, it is known which entries are holes, the leaves of the regions that are taken are in
/// memory, and `delays` says of its slot whether an entry is delayed then.
///
/// It takes no memory and reads nothing. Costs what `reclaim_taken` of `fv_delay` costs for a volume that is due.
pub(crate) fn reclaim_due(
    plan: &Plan,
    slot: u8,
    container: &mut Container,
    map: &VolMap,
    pool_map: &mut AggMap,
    delays: &mut [bool; 64],
)
    requires slot { slot < slot_count }
    requires span { map.now.span ≤ greatest_span }
    requires entries { length container.old.map.entries ≡ entry_count map.now.span }
    requires known { is_set plan.now.due slot ≡ true → AreKnown container.old }
    ensures reclaimed { IsReclaimable plan.now slot map.now container.old
        → HasReclaimed map.now (takes_of plan.now slot (Some (held_by map.now container.old.map))) container.old pool_map.old container.new pool_map.new }
    ensures delays { IsReclaimable plan.now slot map.now container.old
        → LeavesDelays plan.now slot (Some (held_by map.now container.old.map)) delays.old delays.new }
    ensures stayed { HasStayed container.old container.new }
    ensures given { HasGivenSome pool_map.old pool_map.new }
{
    let at = slot as usize;
    if plan.due[at] {
        delays[at] = reclaim_taken(plan.starts[at], container, map, pool_map);
    }
}
