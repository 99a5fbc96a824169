//! Lines of a child in a container's node.

ghost use Rattle.std.specs.Prelude.{◌≡◌, ◌≤◌, ◌<◌, ◌+◌, ◌*◌, ◌/◌, ◌^◌, ◌==◌, ◌++◌, get_or, OnOk};
ghost use Rattle.std.specs.List.{list_any, range_with_len};
ghost use Rattle.fv_model.specs.Space.{map_blocks};
ghost use Rattle.fv_image.specs.Containers.{fan};
ghost use Rattle.fv_image.specs.Views.{Snap, entry_count};
ghost use Rattle.fv_first_pass.specs.Records.{any_in, free, snap_if};
ghost use Rattle.fv_faults.specs.FirstPass.{child_lines, covers, wanted};
ghost use Rattle.fv_first_pass.specs.Sites.{IsSite, bare};

use crate::bases::either;
use crate::said::{bound, lead};
use crate::site::Site;
use fv_faults::Fault;
use fv_model::map_blocks;
use std::alloc::AllocError;

/// How many entries a child of a node of this level covers.
fn covered(level: u8) -> u32
    requires { level ≤ 2 }
    ensures { result ≡ fan ^ level }
{
    match level {
        0 => 1,
        1 => 256,
        _ => 65_536,
    }
}

/// How many entries the container of a volume of this span has.
pub(crate) fn entry_count(span: u32) -> u32
    requires { span ≤ 1048576 }
    ensures value { result ≡ entry_count span }
    ensures most { result ≤ 1049376 }
{
    span + 25 * map_blocks(span)
}

/// Whether one of the entries of the blocks of a map, of which the first has this VVBN, lies under a child of a node of this level.
#[tactic(auto, using(crate::proofs::Covers::meets_is))]
fn meets(first: u32, count: u32, level: u8, number: u32) -> bool
    requires level { level ≤ 2 }
    requires first { first ≤ 4000000 }
    requires count { count ≤ 32 }
    requires number { number ≤ 16777216 }
    ensures { result ≡ list_any (λ v. v / fan ^ level == number) (range_with_len first count) }
{
    let width = u64::from(covered(level));
    let low = u64::from(number) * width;
    let first = u64::from(first);
    let end = first + u64::from(count);
    first.max(low) < end.min(low + width)
}

/// Whether a block of the map of record `j`, if a snapshot has it, has its entry under a child of a node of this level.
fn record_meets(site: &Site, j: usize, level: u8, number: u32) -> bool
    requires record { j < 24 }
    requires level { level ≤ 2 }
    requires number { number ≤ 16777216 }
    requires site { IsSite site.now }
    ensures { result ≡ list_any
        (λ (p : Snap). any_in (λ v. v / fan ^ level == number) site.now.label.span (map_blocks site.now.label.span) p.slot)
        (snap_if (1 + j) (get_or site.now.label.snapshots j free)) }
{
    if site.label.snapshots[j].name_length == 0 {
        return false;
    }
    let blocks = map_blocks(site.label.span);
    meets(
        site.label.span + (1 + j as u32) * blocks,
        blocks,
        level,
        number,
    )
}

/// Whether a block of a map that is in use has its entry under a child of a node of this level.
fn covers(site: &Site, level: u8, number: u32) -> bool
    requires level { level ≤ 2 }
    requires number { number ≤ 16777216 }
    requires site { IsSite site.now }
    ensures { result ≡ covers (wanted (bare 0) site.now.label) level number }
{
    let mut any = meets(site.label.span, map_blocks(site.label.span), level, number);
    for j in 0..24 {
        any = either(record_meets(site, j, level, number), any);
    }
    any
}

/// Lines of the child of a node of a level at `at`: rule 2 of its place and of its number, or of its absence. `presence` is 0 where it
/// is absent.
pub(crate) fn child_lines(
    found: &mut Vec<Fault>,
    site: &Site,
    at: u64,
    level: u8,
    number: u32,
    place: u32,
    presence: u32,
) -> Result<(), AllocError>
    requires site { IsSite site.now }
    requires level { level ≤ 2 }
    requires number { number ≤ 16777216 }
    ensures { OnOk result (found.new.items
        ≡ found.old.items ++ child_lines (bare site.now.blocks) site.now.label at level (number, (place, presence))) }
{
    if presence != 0 {
        lead(found, site.blocks, at, u64::from(place))?;
        let last = u64::from(entry_count(site.label.span).saturating_sub(1));
        return bound(
            found,
            at,
            0,
            last,
            u64::from(number) * u64::from(covered(level)),
        );
    }
    if !covers(site, level, number) {
        return Ok(());
    }
    lead(found, site.blocks, at, 0)
}
