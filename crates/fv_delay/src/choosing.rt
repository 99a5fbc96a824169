//! The choice of regions.

ghost use Rattle.std.specs.Prelude.{◌≡◌, ◌-◌, ◌++◌, filter, IfOk, OnOk};
ghost use Rattle.fv_delay.specs.Choice.{chosen, is_full, is_partial, partial, region_counted, regions_counted, total, while_short};

use crate::counts::{Count, Counts};
use crate::regions::{Region, Regions};
use std::alloc::{AllocError, Global};
use std::cmp::Reverse;

/// So many delayed entries are worth the writing of their leaf, whatever is lacking: a quarter of its 256.
const FULL: u32 = 64;

/// The regions that a consistency point reclaims, where the space rule lacks so many blocks before any reclaim: each region with at least
/// 64 delayed entries in the order of the counts, and then those with most, the lower volume slot and in it the lower region first
/// among equals, each only while the counts taken so far sum to less than `missing`. A region without delayed entries is never taken.
///
/// The one error is want of memory. Costs the number of counts times its logarithm. `docs/SPACE.md` has the space rule.
pub fn choose_regions(alloc: Global, counts: &Counts, missing: u64) -> Result<Regions, AllocError>
    ensures { IfOk result (λ regions. regions ≡ regions_counted (chosen counts.now missing)) }
{
    let mut regions = Regions::new(alloc);
    let left = take_full(counts.as_slice(), missing, &mut regions)?;
    let rest = partial_in_order(alloc, counts.as_slice())?;
    take_while_short(rest.as_slice(), left, &mut regions)?;
    Ok(regions)
}

/// Takes each full region, and answers how many blocks are missing still.
fn take_full(counts: &[Count], missing: u64, regions: &mut Regions) -> Result<u64, AllocError>
    ensures regions { OnOk result (regions.new ≡ regions.old ++ regions_counted (filter is_full counts.now)) }
    ensures left { IfOk result (λ left. left ≡ missing - total (filter is_full counts.now)) }
{
    let mut left = missing;
    for count in counts {
        if is_full(count) {
            regions.push(region_of(count))?;
            left = left.saturating_sub(u64::from(count.count));
        }
    }
    Ok(left)
}

/// The regions that have delayed entries and aren't full, in the order in which they are taken.
fn partial_in_order(alloc: Global, counts: &[Count]) -> Result<Vec<Count>, AllocError>
    ensures { IfOk result (λ rest. rest.items ≡ partial counts.now) }
{
    let mut rest = Vec::new(alloc);
    for count in counts {
        if is_partial(count) {
            rest.push(*count)?;
        }
    }
    rest.sort_by_key(|count: &Count| (Reverse(count.count), count.slot, count.region))?;
    Ok(rest)
}

/// Takes regions in order while some blocks are missing.
fn take_while_short(rest: &[Count], missing: u64, regions: &mut Regions) -> Result<(), AllocError>
    ensures { OnOk result (regions.new ≡ regions.old ++ regions_counted (while_short 0 missing rest.now)) }
{
    let mut left = missing;
    for count in rest {
        if left == 0 {
            return Ok(());
        }
        regions.push(region_of(count))?;
        left = left.saturating_sub(u64::from(count.count));
    }
    Ok(())
}

/// Whether a region is taken whatever is missing.
fn is_full(count: &Count) -> bool
    ensures { result ≡ is_full count.now }
{
    count.count >= FULL
}

/// Whether a region has delayed entries and isn't full.
fn is_partial(count: &Count) -> bool
    ensures { result ≡ is_partial count.now }
{
    0 < count.count && count.count < FULL
}

/// The region of a count.
fn region_of(count: &Count) -> Region
    ensures { result ≡ region_counted count.now }
{
    Region {
        slot: count.slot,
        region: count.region,
    }
}
