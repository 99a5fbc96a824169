//! Lines of a container's node, by itself.

ghost use Rattle.std.specs.Prelude.{◌≡◌, ◌≤◌, ◌<◌, ◌+◌, ◌*◌, ◌/◌, ◌++◌, Ok, OnOk};
ghost use Rattle.std.specs.List.{flat_map, enumerate_from, zip};
ghost use Rattle.fv_image.specs.Containers.{fan};
ghost use Rattle.fv_faults.specs.FirstPass.{child_lines, inner_lines, leaf_lines};
ghost use Rattle.fv_first_pass.specs.Sites.{IsSite, bare};

use crate::child::child_lines;
use crate::said::expect;
use crate::site::Site;
use fv_codec::{ContainerInner, ContainerLeaf};
use fv_faults::Fault;
use std::alloc::AllocError;

/// Lines of the children of a node, each with its place and with a number that is 0 where it is absent.
fn children_lines(
    found: &mut Vec<Fault>,
    site: &Site,
    at: u64,
    level: u8,
    number: u32,
    places: &[u32; 256],
    presences: &[u32; 256],
) -> Result<(), AllocError>
    requires site { IsSite site.now }
    requires level { level ≤ 2 }
    requires number { number ≤ 65535 }
    ensures { OnOk result (found.new.items ≡ found.old.items
        ++ flat_map (child_lines (bare site.now.blocks) site.now.label at level)
        (enumerate_from (fan * number) (zip places.now presences.now))) }
{
    for c in 0..256 {
        child_lines(
            found,
            site,
            at,
            level,
            256 * number + c as u32,
            places[c],
            presences[c],
        )?;
    }
    Ok(())
}

/// Lines of a leaf at `at`, by its position and its entries.
pub(crate) fn leaf_lines(
    found: &mut Vec<Fault>,
    site: &Site,
    number: u32,
    at: u64,
    leaf: &ContainerLeaf,
) -> Result<(), AllocError>
    requires site { IsSite site.now }
    requires number { number ≤ 65535 }
    ensures { OnOk result (found.new.items ≡ found.old.items ++ leaf_lines (bare site.now.blocks) site.now.label number at (Ok leaf.now)) }
{
    expect(found, 4, at, u64::from(number), leaf.index)?;
    children_lines(found, site, at, 0, number, &leaf.pvbns, &leaf.kinds)?;
    Ok(())
}

/// Lines of an inner node of a level at `at`, by its position and its children.
pub(crate) fn inner_lines(
    found: &mut Vec<Fault>,
    site: &Site,
    level: u8,
    number: u32,
    at: u64,
    node: &ContainerInner,
) -> Result<(), AllocError>
    requires site { IsSite site.now }
    requires level { level ≤ 2 }
    requires number { number ≤ 65535 }
    ensures { OnOk result (found.new.items
        ≡ found.old.items ++ inner_lines (bare site.now.blocks) site.now.label level number at (Ok node.now)) }
{
    expect(found, 4, at, u64::from(level), u64::from(node.level))?;
    expect(found, 4, at, u64::from(number), node.place)?;
    children_lines(
        found,
        site,
        at,
        level,
        number,
        &node.children,
        &node.children,
    )?;
    Ok(())
}
