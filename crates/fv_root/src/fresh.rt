//! Making a new aggregate.

ghost use Rattle.std.specs.Prelude.{◌≡◌, ◌≢◌, ◌<◌, ◌+◌, ◌⊎◌, ℕ, IsTrue, OnOk, Some, Ok, true, replicate};
ghost use Rattle.fv_disk.specs.Shown.{IsSettled, SameBut};
ghost use Rattle.fv_disk.specs.Crash.{Leaves};
ghost use Rattle.fv_disk.specs.Sparing.{Spares};
ghost use Rattle.fv_image.specs.WholeMachine.{machine_of};
ghost use Rattle.fv_image.specs.Layout.{gate_place, area_blocks};
ghost use Rattle.fv_codec.specs.Blocks.{super_at, gate_open, root_at};
ghost use Rattle.fv_model.specs.Machines.{empty_machine, first_block};
ghost use Rattle.fv_root.specs.Formatted.{AreClosed, IsFormatted, IsNoGate, IsSize, OldClosedOrNew, WritesFixed, first_root};
ghost use Rattle.fv_root.specs.Commits.{IsNotGate};
ghost use Rattle.fv_root.specs.Steps.{IsBesides, IsLaidOut, IsCleared};

use crate::places::{FIRST_AREA, FIRST_GATE, FIRST_ROOT, SECOND_GATE, SUPERBLOCK};
use crate::sizes::area_blocks;
use fv_codec::{Root, Super, open_gate};
use fv_disk::{Block, Disk, Failed, ZERO};

/// Makes a new aggregate of `blocks` blocks, from 512 to 1,048,576, over whatever the disk holds. At
/// `Ok` the disk is settled, has the superblock, the root of generation 1 behind the one open gate and a clear map, and stands for the
/// machine without volumes; after an `Err`, which comes
/// only where a write or barrier failed, it is as a crash might have left it. It writes the fixed blocks
/// that it needs, once each but for one gate, makes three barriers, reads nothing and takes no memory.
///
/// Both gates are closed on the disk before anything behind them changes, and the first is opened
/// only once all that it leads to is on the disk. So a crash leaves all but the gates as one before
/// might have left them, or both gates closed, or the whole new aggregate; an open gate never leads to a root or a map that isn't
/// whole, but for one of before. What was in flight before the call may be so still, and the old gates
/// may be open.
#[tactic(auto, using(crate::proofs::Making::closing_moment, crate::proofs::Fixed::fixed_gates, crate::proofs::Fixed::fixed_behind, crate::proofs::Fixed::fixed_gate, crate::proofs::Fixed::fixed_then))]
pub fn format<D: Disk>(disk: &mut D, blocks: u32) -> Result<(), Failed>
    requires { IsSize blocks }
    ensures stands { IsTrue (D.shown disk.old).tells
        → OnOk result (machine_of (D.shown disk.new).reads ≡ Some (empty_machine blocks)) }
    ensures laid_out { IsTrue (D.shown disk.old).tells → OnOk result (IsFormatted blocks (D.shown disk.new).reads) }
    ensures settled { IsTrue (D.shown disk.old).tells → OnOk result (IsSettled (D.shown disk.new)) }
    ensures any_moment { IsTrue (D.shown disk.old).tells
        → Leaves (D.shown disk.old) (D.shown disk.new) (OldClosedOrNew blocks (D.shown disk.old)) }
    ensures writes { WritesFixed blocks (D.shown disk.old) (D.shown disk.new) result }
{
    close_gates(disk)?;
    lay_out(disk, blocks)?;
    open_first_gate(disk)
}

/// Closes both gates, and waits until they are so on the disk.
#[tactic(auto, using(fv_disk::proofs::Sparing::spares_barrier, fv_disk::proofs::Sparing::spares_then))]
fn close_gates<D: Disk>(disk: &mut D) -> Result<(), Failed>
    ensures closed { IsTrue (D.shown disk.old).tells → OnOk result (AreClosed (D.shown disk.new).reads) }
    ensures settled { IsTrue (D.shown disk.old).tells → OnOk result (IsSettled (D.shown disk.new)) }
    ensures spares { Spares IsNoGate (D.shown disk.old) (D.shown disk.new) result }
{
    close_gate(disk, FIRST_GATE)?;
    close_gate(disk, SECOND_GATE)?;
    disk.barrier()
}

/// Writes a gate closed.
fn close_gate<D: Disk>(disk: &mut D, at: u64) -> Result<(), Failed>
    requires { (at ≡ gate_place 0) ⊎ (at ≡ gate_place 1) }
    ensures closed { IsTrue (D.shown disk.old).tells → OnOk result ((D.shown disk.new).reads at ≡ replicate 4096 0) }
    ensures others { IsTrue (D.shown disk.old).tells → SameBut at (D.shown disk.old).reads (D.shown disk.new).reads }
    ensures spares { Spares IsNoGate (D.shown disk.old) (D.shown disk.new) result }
{
    disk.write(at, &ZERO)
}

/// Writes what the first gate leads to, and waits until it is on the disk.
#[tactic(auto, using(crate::proofs::Making::laid_out, fv_disk::proofs::Sparing::spares_barrier, fv_disk::proofs::Sparing::spares_then))]
fn lay_out<D: Disk>(disk: &mut D, blocks: u32) -> Result<(), Failed>
    requires { IsSize blocks }
    ensures laid_out { IsTrue (D.shown disk.old).tells → OnOk result (IsLaidOut blocks (D.shown disk.new).reads) }
    ensures settled { IsTrue (D.shown disk.old).tells → OnOk result (IsSettled (D.shown disk.new)) }
    ensures spares { Spares (IsBesides blocks) (D.shown disk.old) (D.shown disk.new) result }
{
    write_super_and_root(disk, blocks)?;
    clear_area(disk, blocks)?;
    disk.barrier()
}

/// Writes one of the fixed blocks behind the gates.
#[tactic(auto, using(crate::proofs::Fixed::besides, fv_disk::proofs::Sparing::spares_write))]
fn write_behind<D: Disk>(disk: &mut D, blocks: u32, at: u64, block: &Block) -> Result<(), Failed>
    requires fixed { at < first_block blocks }
    requires behind { IsNoGate at }
    ensures written { IsTrue (D.shown disk.old).tells → OnOk result ((D.shown disk.new).reads at ≡ block.now) }
    ensures others { IsTrue (D.shown disk.old).tells → SameBut at (D.shown disk.old).reads (D.shown disk.new).reads }
    ensures spares { Spares (IsBesides blocks) (D.shown disk.old) (D.shown disk.new) result }
{
    disk.write(at, block)
}

fn super_block(blocks: u32) -> Block
    requires { IsSize blocks }
    ensures { super_at result ≡ Ok (record { blocks = blocks }) }
{
    let mut block = ZERO;
    Super { blocks }.encode(&mut block);
    block
}

fn root_block() -> Block
    ensures { root_at result ≡ Ok first_root }
{
    let mut block = ZERO;
    let root = Root {
        generation: 1,
        version: 1,
        labels: [0; 64],
    };
    root.encode(&mut block);
    block
}

#[tactic(auto, using(fv_disk::proofs::Sparing::spares_then))]
fn write_super_and_root<D: Disk>(disk: &mut D, blocks: u32) -> Result<(), Failed>
    requires { IsSize blocks }
    ensures superblock { IsTrue (D.shown disk.old).tells
        → OnOk result (super_at ((D.shown disk.new).reads 0) ≡ Ok (record { blocks = blocks })) }
    ensures root { IsTrue (D.shown disk.old).tells → OnOk result (root_at ((D.shown disk.new).reads 3) ≡ Ok first_root) }
    ensures spares { Spares (IsBesides blocks) (D.shown disk.old) (D.shown disk.new) result }
{
    write_behind(disk, blocks, SUPERBLOCK, &super_block(blocks))?;
    write_behind(disk, blocks, FIRST_ROOT, &root_block())
}

#[tactic(auto, using(fv_disk::proofs::Sparing::spares_then))]
fn clear_area<D: Disk>(disk: &mut D, blocks: u32) -> Result<(), Failed>
    requires { IsSize blocks }
    ensures cleared { IsTrue (D.shown disk.old).tells
        → OnOk result (IsCleared (area_blocks blocks) (D.shown disk.old).reads (D.shown disk.new).reads) }
    ensures spares { Spares (IsBesides blocks) (D.shown disk.old) (D.shown disk.new) result }
{
    for k in 0..area_blocks(blocks) {
        write_behind(disk, blocks, FIRST_AREA + u64::from(k), &ZERO)?;
    }
    Ok(())
}

/// Opens the first gate, and waits until it is so on the disk.
#[tactic(auto, using(fv_disk::proofs::Sparing::spares_write, fv_disk::proofs::Sparing::spares_barrier, fv_disk::proofs::Sparing::spares_then))]
fn open_first_gate<D: Disk>(disk: &mut D) -> Result<(), Failed>
    ensures opened { IsTrue (D.shown disk.old).tells
        → OnOk result (gate_open ((D.shown disk.new).reads (gate_place 0)) ≡ true) }
    ensures settled { IsTrue (D.shown disk.old).tells → OnOk result (IsSettled (D.shown disk.new)) }
    ensures spares { Spares (IsNotGate 0) (D.shown disk.old) (D.shown disk.new) result }
{
    let mut block = ZERO;
    open_gate(&mut block);
    disk.write(FIRST_GATE, &block)?;
    disk.barrier()
}
