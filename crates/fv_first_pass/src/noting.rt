//! Noting the lines of one block of a container.

ghost use Rattle.std.specs.Prelude.{◌≡◌, ◌≤◌, ◌↔◌, IsTrue, [], ◌∷◌, Ok, IfOk, OnOk};
ghost use Rattle.fv_faults.specs.Adding.{Adds};
ghost use Rattle.fv_faults.specs.FirstPass.{inner_lines, leaf_lines};
ghost use Rattle.fv_faults.specs.Lines.{line};
ghost use Rattle.fv_first_pass.specs.Sites.{IsSite, bare};

use crate::node::{inner_lines, leaf_lines};
use crate::site::{Site, Spot};
use fv_codec::{ContainerInner, ContainerLeaf, Shape};
use fv_faults::{Fault, Lines};
use std::alloc::{AllocError, Global};

/// Notes lines, one after the other.
#[tactic(auto, using(crate::proofs::Noted::adds_first, crate::proofs::Noted::adds_more, crate::proofs::Noted::adds_all))]
pub(crate) fn note_all(lines: &mut Lines, found: &[Fault]) -> Result<(), AllocError>
    ensures { OnOk result (Adds found.now lines.old lines.new) }
{
    for k in 0..found.len() {
        lines.note(found[k])?;
    }
    Ok(())
}

/// Notes the line of a block that hasn't its shape.
pub(crate) fn note_shape(lines: &mut Lines, at: u32, shape: Shape) -> Result<(), AllocError>
    ensures { OnOk result (Adds (line 1 at shape.want shape.found ∷ []) lines.old lines.new) }
{
    lines.note(Fault {
        rule: 1,
        block: u64::from(at),
        want: shape.want,
        found: shape.found,
    })
}

/// Notes the lines of a leaf.
pub(crate) fn note_leaf(
    alloc: Global,
    site: &Site,
    spot: Spot,
    leaf: &ContainerLeaf,
    lines: &mut Lines,
) -> Result<(), AllocError>
    requires site { IsSite site.now }
    requires number { spot.number ≤ 65535 }
    ensures { OnOk result (Adds (leaf_lines (bare site.now.blocks) site.now.label spot.number spot.at (Ok leaf.now)) lines.old lines.new) }
{
    let mut found = Vec::new(alloc);
    leaf_lines(&mut found, site, spot.number, u64::from(spot.at), leaf)?;
    note_all(lines, &found)?;
    Ok(())
}

/// Notes the lines of an inner node of a level, and says whether it has none.
pub(crate) fn note_inner(
    alloc: Global,
    site: &Site,
    level: u8,
    spot: Spot,
    node: &ContainerInner,
    lines: &mut Lines,
) -> Result<bool, AllocError>
    requires site { IsSite site.now }
    requires level { level ≤ 2 }
    requires number { spot.number ≤ 65535 }
    ensures adds { OnOk result
        (Adds (inner_lines (bare site.now.blocks) site.now.label level spot.number spot.at (Ok node.now)) lines.old lines.new) }
    ensures clean { IfOk result (λ clean. IsTrue clean
        ↔ (inner_lines (bare site.now.blocks) site.now.label level spot.number spot.at (Ok node.now) ≡ [])) }
{
    let mut found = Vec::new(alloc);
    inner_lines(
        &mut found,
        site,
        level,
        spot.number,
        u64::from(spot.at),
        node,
    )?;
    note_all(lines, &found)?;
    Ok(found.is_empty())
}
