//! Delayed entries and free blocks, as the blocks of a disk tell them: nothing of the programs is called to find them.

use crate::blocks::{block_at, word_in};
use crate::cause::{Cause, because};
use crate::lines::{gaps, number};
use fv_disk::Block;
use fv_memdisk::MemHost;

/// What an open gate begins with.
const OPEN: u64 = 0x4741_5445_4f50_454e;

/// So many delayed entries no region keeps over a point.
const FULL: u64 = 64;

/// Whether so many entries of a region of the volume of a slot are delayed, as `0 1 is 63` says for region 1 of slot 0.
pub fn are_delayed(host: &mut MemHost, text: &str) -> Result<(), Cause> {
    let (slot, region, count) = gaps(text, "1 2 is 3")?;
    let root = newer_root(host);
    let label = label_at(host, &root, number(slot)?);
    let found = delayed_in(host, &label, number(region)?);
    if found == number(count)? {
        Ok(())
    } else {
        Err(because("so many entries are delayed", number(region)?, found))
    }
}

/// Whether so many blocks are free by the map of the newer root, as `is 1007` says.
pub fn are_free(host: &mut MemHost, text: &str) -> Result<(), Cause> {
    let (count, _, _) = gaps(text, "is 1")?;
    let blocks = word_in(&block_at(host, 0), 1);
    let area = blocks.div_ceil(32_768);
    let fixed = area.saturating_mul(2).saturating_add(5);
    let first = match newer_slot(host) {
        Some(4) => area.saturating_add(5),
        _ => 5,
    };
    let mut found = blocks.saturating_sub(fixed);
    for at in first..first.saturating_add(area) {
        found = found.saturating_sub(bits_in(&block_at(host, at)));
    }
    if found == number(count)? {
        Ok(())
    } else {
        Err(because("so many blocks are free", number(count)?, found))
    }
}

/// How many bits of a block are set.
fn bits_in(block: &Block) -> u64 {
    let mut count: u64 = 0;
    for byte in block {
        count = count.saturating_add(u64::from(byte.count_ones()));
    }
    count
}

/// Whether a region of a volume of the newer root has as many delayed entries as no point leaves.
pub fn has_full_region(host: &mut MemHost) -> bool {
    let root = newer_root(host);
    for slot in 0..64 {
        let label = label_at(host, &root, slot);
        for region in 0..regions_of(&label) {
            if delayed_in(host, &label, region) >= FULL {
                return true;
            }
        }
    }
    false
}

/// The label of a slot by a root; zeros where the slot has none.
fn label_at(host: &mut MemHost, root: &Block, slot: u64) -> Block {
    named(host, root, slot.saturating_add(8))
}

/// The block of the root that counts; zeros where no gate is open.
fn newer_root(host: &mut MemHost) -> Block {
    match newer_slot(host) {
        Some(at) => block_at(host, at),
        None => [0; 4096],
    }
}

/// The generation of the root that counts; 0 where no gate is open.
pub fn generation(host: &mut MemHost) -> u64 {
    word_in(&newer_root(host), 1)
}

/// Where the root lies that counts: that of the open gate, and of two the one whose generation follows the other's.
fn newer_slot(host: &mut MemHost) -> Option<u64> {
    let first = word_in(&block_at(host, 3), 1);
    let second = word_in(&block_at(host, 4), 1);
    match (is_open(host, 1), is_open(host, 2)) {
        (false, false) => None,
        (true, false) => Some(3),
        (false, true) => Some(4),
        _ if second == first.wrapping_add(1) => Some(4),
        _ => Some(3),
    }
}

fn is_open(host: &mut MemHost, gate: u64) -> bool {
    word_in(&block_at(host, gate), 0) == OPEN
}

/// The block that a word of another one names; zeros where that is 0.
fn named(host: &mut MemHost, block: &Block, word: u64) -> Block {
    match word_in(block, word) {
        0 => [0; 4096],
        at => block_at(host, at),
    }
}

/// How many blocks the map of each slot of a volume has.
fn map_blocks(label: &Block) -> u64 {
    word_in(label, 13).div_ceil(32_768)
}

/// How many regions a volume's container has.
fn regions_of(label: &Block) -> u64 {
    let entries = word_in(label, 13).saturating_add(map_blocks(label).saturating_mul(25));
    entries.div_ceil(256)
}

/// The leaf of a region of a volume's container; zeros, which are holes, where it is absent.
fn leaf_at(host: &mut MemHost, label: &Block, region: u64) -> Block {
    let root = named(host, label, 19);
    let above = if word_in(label, 20) == 2 {
        named(host, &root, (region / 256).saturating_add(128))
    } else {
        root
    };
    named(host, &above, (region % 256).saturating_add(128))
}

/// The place of one of the 256 entries of a leaf, which have twelve bytes each; a hole has none, 0.
fn place_in(leaf: &Block, entry: u64) -> u64 {
    let at = (entry % 256) as usize * 12 + 1028;
    u64::from(u32::from_be_bytes([leaf[at], leaf[at + 1], leaf[at + 2], leaf[at + 3]]))
}

/// How many entries of a region are delayed: they are no holes, and their VVBNs aren't held.
fn delayed_in(host: &mut MemHost, label: &Block, region: u64) -> u64 {
    let leaf = leaf_at(host, label, region);
    if word_in(&leaf, 0) == 0 {
        return 0;
    }
    let held = held_in(host, label, region);
    let mut count: u64 = 0;
    for (at, held) in held.iter().enumerate() {
        if place_in(&leaf, at as u64) != 0 && !*held {
            count = count.saturating_add(1);
        }
    }
    count
}

/// Which VVBNs of a region are held: below the span by a map of a slot in use, and past it where they are of such a map.
fn held_in(host: &mut MemHost, label: &Block, region: u64) -> [bool; 256] {
    let mut held = [false; 256];
    for slot in 0..25 {
        if is_used(label, slot) {
            hold_mapped(host, label, region, slot, &mut held);
            hold_map(label, region, slot, &mut held);
        }
    }
    held
}

/// Whether a map slot is in use: the active one is, and those whose record in the label has a name.
fn is_used(label: &Block, slot: u64) -> bool {
    slot == 0 || word_in(label, slot.saturating_mul(16).saturating_add(16)) != 0
}

/// Adds the VVBNs of a region that the map of a slot has. 128 regions share a block of it.
fn hold_mapped(host: &mut MemHost, label: &Block, region: u64, slot: u64, held: &mut [bool; 256]) {
    let span = word_in(label, 13);
    if region.saturating_mul(256) >= span {
        return;
    }
    let behind = slot
        .saturating_mul(map_blocks(label))
        .saturating_add(region / 128);
    let vvbn = span.saturating_add(behind);
    let leaf = leaf_at(host, label, vvbn / 256);
    let map = match place_in(&leaf, vvbn % 256) {
        0 => [0; 4096],
        at => block_at(host, at),
    };
    let first = (region % 128).saturating_mul(32);
    for (at, held) in held.iter_mut().enumerate() {
        let byte = first.saturating_add(at as u64 / 8);
        *held = *held || has_bit(&map, byte, at as u64 % 8);
    }
}

/// Whether a bit of a byte of a block is set.
fn has_bit(block: &Block, byte: u64, bit: u64) -> bool {
    (u64::from(block[(byte % 4096) as usize]) >> (bit % 8)) % 2 == 1
}

/// Adds the VVBNs of a region that are those of the map of a slot.
fn hold_map(label: &Block, region: u64, slot: u64, held: &mut [bool; 256]) {
    let blocks = map_blocks(label);
    let first = word_in(label, 13).saturating_add(slot.saturating_mul(blocks));
    let end = first.saturating_add(blocks);
    for (at, held) in held.iter_mut().enumerate() {
        let vvbn = region.saturating_mul(256).saturating_add(at as u64);
        *held = *held || (first <= vvbn && vvbn < end);
    }
}
