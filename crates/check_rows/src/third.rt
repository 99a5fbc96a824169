//! Pass 3: what holds a block, maps, kinds and the rules on tables, by the rules 2 and 6 to 10.

use crate::blocks::{BLOCK_BITS, area_blocks, map_blocks};
use crate::fault::Lines;
use crate::image::{Image, bit_in};
use crate::layout::{Layout, map_vvbn};
use crate::space::ids_in;
use crate::table::{Table, Tables};
use crate::walk::{INODES, Item, Step, files_under, is_one_id, pointers_under};
use fv_codec::Pointer;
use std::alloc::{AllocError, Global};

/// The kind of the entry of a block of a map.
const MAP: u64 = 8;

/// The lines of the pass.
pub fn third_pass(
    alloc: Global,
    image: &Image,
    layout: &Layout,
    volumes: &[Tables],
    lines: &mut Lines,
) -> Result<(), AllocError> {
    let holders = holders_of(alloc, layout)?;
    for (block, count) in holders.iter().enumerate() {
        if *count > 1 {
            lines.add(7, block as u64, 1, *count)?;
        }
    }
    area_lines(image, layout, holders.as_slice(), lines)?;
    for volume in volumes.iter() {
        span_lines(alloc, volume, lines)?;
        map_kind_lines(layout, volume, lines)?;
        for table in volume.tables.iter() {
            reach_lines(layout, volume, table, lines)?;
            table_lines(alloc, image, volume, table, lines)?;
        }
        let all = volume.all_steps(alloc)?;
        one_to_one_lines(all.as_slice(), lines)?;
        for step in all.iter() {
            lines.within(10, step.block, 0, volume.label.now, step.item.pointer.stamp)?;
        }
    }
    Ok(())
}

/// How often each block is held: by labels, nodes of containers and entries.
fn holders_of(alloc: Global, layout: &Layout) -> Result<Vec<u64>, AllocError> {
    let mut holders = vec![in alloc; 0u64; layout.blocks as usize]?;
    for volume in layout.volumes.iter() {
        raise(&mut holders, volume.place);
        for node in volume.nodes.iter() {
            raise(&mut holders, node.place);
        }
        for entry in volume.entries.iter() {
            if entry.kind != 0 {
                raise(&mut holders, entry.pvbn);
            }
        }
    }
    Ok(holders)
}

fn raise(holders: &mut Vec<u64>, block: u64) {
    if let Some(count) = holders.get_mut(block as usize) {
        *count = count.saturating_add(1);
    }
}

/// Rule 8: a bit of the aggregate map is set exactly where its block is held.
fn area_lines(
    image: &Image,
    layout: &Layout,
    holders: &[u64],
    lines: &mut Lines,
) -> Result<(), AllocError> {
    let area = area_blocks(layout.blocks);
    for k in 0..area {
        let at = layout
            .root
            .saturating_mul(area)
            .saturating_add(5)
            .saturating_add(k);
        let block = image.block(at);
        for bit in 0..BLOCK_BITS {
            let number = k.saturating_mul(BLOCK_BITS).saturating_add(bit);
            let is_held = match holders.get(number as usize) {
                Some(count) => *count != 0,
                None => false,
            };
            lines.want(
                8,
                number,
                u64::from(is_held),
                u64::from(bit_in(&block, bit)),
            )?;
        }
    }
    Ok(())
}

/// Rule 2: a span has room for `most` blocks, for the ids of the base and for 256 more.
fn span_lines(alloc: Global, volume: &Tables, lines: &mut Lines) -> Result<(), AllocError> {
    let base = ids_in(alloc, volume.base.as_slice())?.len() as u64;
    let wanted = u64::from(volume.label.most)
        .saturating_add(base)
        .saturating_add(256);
    let span = u64::from(volume.label.span);
    if wanted > span {
        lines.add(2, volume.place, wanted, span)?;
    }
    Ok(())
}

/// Rule 9: the entries of the blocks of maps in use have their kind.
fn map_kind_lines(layout: &Layout, volume: &Tables, lines: &mut Lines) -> Result<(), AllocError> {
    for table in volume.tables.iter() {
        for k in 0..map_blocks(&volume.label) {
            let vvbn = map_vvbn(&volume.label, table.root.map, k);
            let kind = match layout.own(volume.slot, vvbn) {
                Some(entry) => entry.kind,
                None => 0,
            };
            lines.want(9, volume.place, MAP, kind)?;
        }
    }
    Ok(())
}

/// Rule 6: a bit of a volume's map is set exactly where its root reaches that VVBN.
fn reach_lines(
    layout: &Layout,
    volume: &Tables,
    table: &Table,
    lines: &mut Lines,
) -> Result<(), AllocError> {
    for (vvbn, bit) in table.bits.iter().enumerate() {
        let vvbn = vvbn as u64;
        let is_reached = table.walk.reaches(vvbn);
        if is_reached != *bit {
            let map = map_vvbn(&volume.label, table.root.map, vvbn / BLOCK_BITS);
            let at = match layout.own(volume.slot, map) {
                Some(entry) => entry.pvbn,
                None => 0,
            };
            lines.add(6, at, u64::from(is_reached), u64::from(*bit))?;
        }
    }
    Ok(())
}

/// The kind of the block to which a pointer of a position leads.
fn kind_of(item: &Item) -> u64 {
    if item.owner == INODES {
        item.level.min(2).saturating_add(5)
    } else {
        item.level.saturating_add(1)
    }
}

/// Rules 9 and 10 of a table: kinds, marks, lengths and levels.
fn table_lines(
    alloc: Global,
    image: &Image,
    volume: &Tables,
    table: &Table,
    lines: &mut Lines,
) -> Result<(), AllocError> {
    level_lines(
        lines,
        volume.place,
        0,
        table.root.levels,
        &table.root.pointer,
    )?;
    for step in table.walk.steps.iter() {
        let Some(entry) = step.at else {
            continue;
        };
        lines.want(9, step.block, kind_of(&step.item), entry.kind)?;
        let files = files_under(alloc, image, step.item, entry)?;
        for file in files.iter() {
            let reserve = u64::from(file.record.reserve);
            let levels = u64::from(file.record.levels);
            level_lines(lines, entry.pvbn, reserve, levels, &file.record.root)?;
        }
        if step.item.level != 0 {
            let under = pointers_under(alloc, image, step.item, entry)?;
            mark_lines(step, under.as_slice(), lines)?;
        }
        length_lines(table, step, lines)?;
    }
    Ok(())
}

/// Rule 10: no mark has a stamp below one directly under it.
fn mark_lines(step: &Step, under: &[Item], lines: &mut Lines) -> Result<(), AllocError> {
    let mut greatest: u64 = 0;
    for child in under {
        greatest = child.pointer.stamp.max(greatest);
    }
    if greatest > step.item.pointer.stamp {
        lines.add(10, step.block, greatest, step.item.pointer.stamp)?;
    }
    Ok(())
}

/// Rule 10: a file has the levels of its reserve at least, and just those without cells. The reserve of an inode file is 0.
fn level_lines(
    lines: &mut Lines,
    block: u64,
    reserve: u64,
    levels: u64,
    root: &Pointer,
) -> Result<(), AllocError> {
    let start = least_levels(reserve);
    let fits = if root.stamp == 0 {
        levels == start
    } else {
        levels >= start
    };
    if fits {
        return Ok(());
    }
    lines.add(10, block, start, levels)
}

/// The least number of levels whose one topmost range holds so many indexes.
fn least_levels(indexes: u64) -> u64 {
    if indexes <= 1 {
        0
    } else if indexes <= 128 {
        1
    } else if indexes <= 16_384 {
        2
    } else {
        3
    }
}

/// Rule 10: no cell of a file is at or past its length.
fn length_lines(table: &Table, step: &Step, lines: &mut Lines) -> Result<(), AllocError> {
    for file in table.walk.files.iter() {
        let length = u64::from(file.record.length);
        let is_cell = step.item.owner == file.number && step.item.level == 0;
        if is_cell && step.item.place >= length {
            lines.add(10, step.block, length.wrapping_sub(1), step.item.place)?;
        }
    }
    Ok(())
}

/// Rule 10: ids and VVBNs are one to one. Each pointer is held against the first that has its id, and the first that has its VVBN.
fn one_to_one_lines(steps: &[Step], lines: &mut Lines) -> Result<(), AllocError> {
    for (number, step) in steps.iter().enumerate() {
        for first in steps.iter().take(number) {
            if is_one_id(&first.item, &step.item) {
                lines.want(
                    10,
                    step.block,
                    first.item.pointer.vvbn,
                    step.item.pointer.vvbn,
                )?;
                break;
            }
        }
        for first in steps.iter().take(number) {
            if first.item.pointer.vvbn == step.item.pointer.vvbn {
                id_lines(&first.item, step, lines)?;
                break;
            }
        }
    }
    Ok(())
}

/// The line of a pointer with the VVBN of an earlier one and another id: the first of stamp, place, level and owner that differs.
fn id_lines(first: &Item, step: &Step, lines: &mut Lines) -> Result<(), AllocError> {
    let item = &step.item;
    let (want, found) = if first.pointer.stamp != item.pointer.stamp {
        (first.pointer.stamp, item.pointer.stamp)
    } else if first.place != item.place {
        (first.place, item.place)
    } else if first.level != item.level {
        (first.level, item.level)
    } else {
        (first.owner, item.owner)
    };
    lines.want(10, step.block, want, found)
}
