//! Rule 10: the levels of files.

ghost use Rattle.std.specs.Prelude.{◌≡◌, flat_map, OnOk};
ghost use Rattle.fv_model.specs.Trees.{least_levels};
ghost use Rattle.fv_image.specs.TableRules.{are_levels};
ghost use Rattle.fv_faults.specs.Adding.{Adds};
ghost use Rattle.fv_faults.specs.ThirdPass.{level_lines};
ghost use Rattle.fv_third_pass.specs.Files.{levels_in, record_lines};

use fv_codec::{InodeRecord, Pointer};
use fv_faults::{Fault, Lines};
use fv_walk::{Below, Table};
use std::alloc::AllocError;

/// The least number of levels of nodes that hold so many blocks.
fn least_levels(blocks: u32) -> u8
    ensures { result ≡ least_levels blocks }
{
    if blocks <= 1 {
        0
    } else if blocks <= 128 {
        1
    } else if blocks <= 16_384 {
        2
    } else if blocks <= 2_097_152 {
        3
    } else if blocks <= 268_435_456 {
        4
    } else {
        5
    }
}

/// Whether a tree with this reserve may have these levels, where its root has that stamp.
fn are_levels(reserve: u32, levels: u8, stamp: u64) -> bool
    ensures { result ≡ are_levels reserve levels stamp }
{
    let least = least_levels(reserve);
    if stamp == 0 {
        levels == least
    } else {
        least <= levels
    }
}

/// Notes a line of rule 10 where a tree has fewer levels than its reserve asks for, or others without a cell.
#[tactic(auto, using(fv_faults::proofs::Adding::nothing_added))]
fn note_levels(
    lines: &mut Lines,
    block: u64,
    reserve: u32,
    levels: u8,
    root: &Pointer,
) -> Result<(), AllocError>
    ensures { OnOk result (Adds (level_lines block reserve levels root.now) lines.old lines.new) }
{
    if are_levels(reserve, levels, root.stamp) {
        return Ok(());
    }
    lines.note(Fault {
        rule: 10,
        block,
        want: u64::from(least_levels(reserve)),
        found: u64::from(levels),
    })
}

/// Notes the line of the file of a record in the block at a place; a free record has none.
#[tactic(auto, using(fv_faults::proofs::Adding::nothing_added))]
fn note_record(lines: &mut Lines, block: u64, file: &InodeRecord) -> Result<(), AllocError>
    ensures { OnOk result (Adds (record_lines block file.now) lines.old lines.new) }
{
    if file.name_length == 0 {
        return Ok(());
    }
    note_levels(lines, block, file.reserve, file.levels, &file.root)
}

/// Notes those of the files of several records.
#[tactic(auto, using(crate::proofs::Noting::each_first, crate::proofs::Noting::each_next, crate::proofs::Noting::each_all))]
fn note_records(lines: &mut Lines, block: u64, records: &[InodeRecord]) -> Result<(), AllocError>
    ensures { OnOk result (Adds (flat_map (record_lines block) records.now) lines.old lines.new) }
{
    for k in 0..records.len() {
        note_record(lines, block, &records[k])?;
    }
    Ok(())
}

/// Notes a line of rule 10 for each file whose record stands in a block, which lies at a place, and that has other levels than its reserve
/// asks for (`docs/FORMAT.md`). A block without records has none.
#[tactic(auto, using(fv_faults::proofs::Adding::nothing_added))]
pub(crate) fn note_file_levels(
    lines: &mut Lines,
    block: u64,
    below: &Below,
) -> Result<(), AllocError>
    ensures { OnOk result (Adds (levels_in block below.now) lines.old lines.new) }
{
    match below {
        Below::Inodes(inodes) => note_records(lines, block, &inodes.files),
        Below::Nothing => Ok(()),
        Below::Node(_) => Ok(()),
    }
}

/// Notes the line of rule 10 of the levels of a table's inode file, whose root stands in the label at a place (`docs/FORMAT.md`): without a
/// cell it has none. The one error is want of memory.
pub fn note_table_levels(lines: &mut Lines, label: u64, table: &Table) -> Result<(), AllocError>
    ensures { OnOk result (Adds (level_lines label 0 table.now.levels table.now.root) lines.old lines.new) }
{
    note_levels(lines, label, 0, table.levels, &table.root)
}
