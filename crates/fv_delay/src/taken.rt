//! The regions of a volume's container, counted in one walk, and those of them reclaimed that a threshold takes.

ghost use Rattle.std.specs.Prelude.{◌≡◌, ◌≢◌, ◌<◌, ◌≤◌, ◌&&◌, ◌||◌, ℕ, true, false, length, get_or};
ghost use Rattle.fv_image.specs.Containers.{level_width};
ghost use Rattle.fv_container.specs.Paged.{is_here};
ghost use Rattle.fv_image.specs.Views.{entry_count};
ghost use Rattle.fv_model.specs.Numbers.{greatest_span};
ghost use Rattle.fv_delay.specs.ByThreshold.{AreTakenHere, IsTable, TakesAll, passed, taken_in, takes_delayed};
ghost use Rattle.fv_delay.specs.Delay.{AreKnown, AreSure};
ghost use Rattle.fv_delay.specs.Holding.{counts_in, held_by};
ghost use Rattle.fv_delay.specs.Reclaims.{HasGivenSome, HasReclaimed, HasStayed};

use crate::counts::Count;
use crate::delayed::delayed_by_region;
use crate::reclaiming::reclaim;
use crate::threshold::{Table, Threshold};
use fv_aggmap::AggMap;
use fv_container::Container;
use fv_volmap::VolMap;

/// The table of a volume's regions with delayed entries. The container has an entry for each VVBN of the map's span and for each block of 25
/// maps, and it is known of all regions which entries are holes.
///
/// It takes no memory and makes no disk call. Costs a step for each word of 64 regions, and what `delayed_by_region` costs for each region
/// with an entry that is no hole.
pub fn table_of(container: &Container, map: &VolMap) -> Table
    requires span { map.now.span ≤ greatest_span }
    requires entries { length container.now.map.entries ≡ entry_count map.now.span }
    requires known { AreKnown container.now }
    ensures { AreSure container.now → (slot : ℕ) → IsTable result (counts_in slot (held_by map.now container.now.map)) }
{
    let mut table = Table::new();
    let mut from = 0;
    while let Some(region) = container.next_region(from) {
        let count = delayed_by_region(container, map, region);
        if count != 0 {
            table.add(Count {
                slot: 0,
                region,
                count,
            });
        }
        from = region + 1;
    }
    table
}

/// Marks in a plan the regions with delayed entries of a volume's container that a threshold takes, asked of all in the order of their
/// numbers: those whose leaves `reclaim_taken` needs in memory. A mark that is there stays. The container has an entry for each VVBN of
/// the map's span and for each block of 25 maps, it is known of all regions which entries are holes, and the plan has a mark for each
/// region. Marks behind them stay.
///
/// It takes no memory and makes no disk call. Costs a step for each word of 64 regions, and what `delayed_by_region` costs for each region
/// with an entry that is no hole.
pub fn mark_taken(start: Threshold, container: &Container, map: &VolMap, plan: &mut [bool])
    requires span { map.now.span ≤ greatest_span }
    requires entries { length container.now.map.entries ≡ entry_count map.now.span }
    requires known { AreKnown container.now }
    requires long { level_width (length container.now.map.entries) 0 ≤ length plan.old }
    ensures long { length plan.new ≡ length plan.old }
    ensures marked { AreSure container.now → (region : ℕ) → region < level_width (length container.now.map.entries) 0
        → get_or plan.new region false ≡ (taken_in start (held_by map.now container.now.map) region || get_or plan.old region false) }
    ensures others { (k : ℕ) → level_width (length container.now.map.entries) 0 ≤ k → get_or plan.new k false ≡ get_or plan.old k false }
{
    let mut threshold = start;
    let mut from = 0;
    while let Some(region) = container.next_region(from) {
        let count = delayed_by_region(container, map, region);
        let is_taken = takes_delayed(&mut threshold, count);
        mark(plan, region as usize, is_taken);
        from = region + 1;
    }
}

/// Marks a region where it is taken.
fn mark(plan: &mut [bool], region: usize, is_taken: bool)
    requires within { region < length plan.old }
    ensures long { length plan.new ≡ length plan.old }
    ensures here { get_or plan.new region false ≡ (is_taken || get_or plan.old region false) }
    ensures others { (k : ℕ) → k ≢ region → get_or plan.new k false ≡ get_or plan.old k false }
{
    if is_taken {
        plan[region] = true;
    }
}

/// Reclaims those regions of a volume's container that a threshold takes, asked of all in the order of their numbers, and says exactly whether
/// a region with delayed entries is left. Every other entry stays. The container has an entry for each VVBN of the map's span and for each block
/// of 25 maps, and it is known of all regions which entries are holes. The leaves of the regions that are taken are in memory; a region whose
/// leaf isn't stays as it is.
///
/// It takes no memory and makes no disk call. Costs a step for each word of 64 regions, and what `delayed_by_region` costs for each region
/// with an entry that is no hole, and what `reclaim` costs for each that is taken.
pub fn reclaim_taken(
    start: Threshold,
    container: &mut Container,
    map: &VolMap,
    pool_map: &mut AggMap,
) -> bool
    requires span { map.now.span ≤ greatest_span }
    requires entries { length container.old.map.entries ≡ entry_count map.now.span }
    requires known { AreKnown container.old }
    ensures reclaimed { AreSure container.old → AreTakenHere start map.now container.old
        → HasReclaimed map.now (taken_in start (held_by map.now container.old.map)) container.old pool_map.old container.new pool_map.new }
    ensures rest { AreSure container.old → AreTakenHere start map.now container.old
        → result ≡ false → TakesAll start (held_by map.now container.old.map) }
    ensures left { AreSure container.old → AreTakenHere start map.now container.old
        → result ≡ true → TakesAll start (held_by map.now container.old.map) → ⊥ }
    ensures stayed { HasStayed container.old container.new }
    ensures given { HasGivenSome pool_map.old pool_map.new }
{
    let mut threshold = start;
    let mut is_left = false;
    let mut from = 0;
    while let Some(region) = container.next_region(from) {
        let count = delayed_by_region(container, map, region);
        if takes_here(&mut threshold, container, region, count) {
            reclaim(container, map, region, pool_map);
        } else if count != 0 {
            is_left = true;
        }
        from = region + 1;
    }
    is_left
}

/// Whether a threshold takes the next region, which has so many delayed entries; one without any isn't taken.
fn takes_delayed(threshold: &mut Threshold, count: u32) -> bool
    ensures taken { result ≡ takes_delayed threshold.old count }
    ensures passed { threshold.new ≡ passed threshold.old count }
{
    let is_taken = threshold.takes(count);
    0 < count && is_taken
}

/// Whether a threshold takes the next region, which has so many delayed entries, and its leaf is in memory.
fn takes_here(threshold: &mut Threshold, container: &Container, region: u32, count: u32) -> bool
    ensures taken { result ≡ (takes_delayed threshold.old count && is_here container.now region) }
    ensures passed { threshold.new ≡ passed threshold.old count }
{
    takes_delayed(threshold, count) && container.is_here(region)
}
