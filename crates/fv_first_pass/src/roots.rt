//! Lines of the roots behind open gates.

ghost use Rattle.std.specs.Prelude.{◌≡◌, ◌<◌, ◌++◌, Some, IsTrue, OnOk};
ghost use Rattle.fv_codec.specs.Blocks.{root_at};
ghost use Rattle.fv_image.specs.Layout.{root_place};
ghost use Rattle.fv_image.specs.NewerRoot.{behind};
ghost use Rattle.fv_faults.specs.Adding.{Adds};
ghost use Rattle.fv_faults.specs.Faults.{root_shape};
ghost use Rattle.fv_first_pass.specs.Causes.{HasRead};

use crate::fault::CheckFault;
use crate::noting::note_shape;
use crate::tree::read_block;
use fv_codec::{Root, gate_open};
use fv_disk::{Block, Disk};
use fv_faults::Lines;
use std::alloc::AllocError;

/// The block of the gate of slot 0.
const GATES: u32 = 1;

/// The block of the root of slot 0.
const ROOTS: u32 = 3;

/// Notes the line of a root's block, where it hasn't its shape.
fn note_root(block: &Block, at: u32, lines: &mut Lines) -> Result<(), AllocError>
    ensures { OnOk result (Adds (root_shape at (Some (root_at block.now))) lines.old lines.new) }
{
    if let Err(shape) = Root::decode(block) {
        note_shape(lines, at, shape)?;
    }
    Ok(())
}

/// Notes the line of the root of a slot, where its gate is open and it hasn't its shape.
#[tactic(auto, using(crate::proofs::RootShapes::shut_adds, crate::proofs::RootShapes::open_adds))]
fn note_behind<D: Disk>(disk: &mut D, slot: u8, lines: &mut Lines) -> Result<(), CheckFault>
    requires { slot < 2 }
    ensures adds { IsTrue (D.shown disk.old).tells
        → OnOk result (Adds (root_shape (root_place slot) (behind (D.shown disk.old).reads slot)) lines.old lines.new) }
    ensures read { HasRead (D.shown disk.old) (D.shown disk.new) result }
{
    let gate = read_block(disk, GATES + u32::from(slot))?;
    if !gate_open(&gate) {
        return Ok(());
    }
    let at = ROOTS + u32::from(slot);
    let block = read_block(disk, at)?;
    note_root(&block, at, lines)?;
    Ok(())
}

/// Notes the lines of an aggregate of which a root behind an open gate hasn't its shape, rule 1: one for each such root. They are all the
/// lines that it has. `DiskFault` comes only where a read failed, `Memory` where memory was refused. It reads at most four blocks.
#[tactic(auto, using(fv_disk::proofs::Resting::reads_then, fv_faults::proofs::Adding::adds_then))]
pub fn note_roots<D: Disk>(disk: &mut D, lines: &mut Lines) -> Result<(), CheckFault>
    ensures adds { IsTrue (D.shown disk.old).tells
        → OnOk result (Adds
        (root_shape (root_place 0) (behind (D.shown disk.old).reads 0) ++ root_shape (root_place 1) (behind (D.shown disk.old).reads 1))
        lines.old lines.new) }
    ensures read { HasRead (D.shown disk.old) (D.shown disk.new) result }
{
    note_behind(disk, 0, lines)?;
    note_behind(disk, 1, lines)?;
    Ok(())
}
