//! The maps of a volume: rule 6, and rule 9 of their blocks.

ghost use Rattle.std.specs.Prelude.{◌≡◌, ◌<◌, ◌≤◌, ◌*◌, ◌/◌, ◌%◌, ℕ, IsTrue, List, length, get_or, IfOk, OnOk};
ghost use Rattle.fv_bits.specs.Bits.{bit_of_bytes};
ghost use Rattle.fv_model.specs.Space.{map_blocks};
ghost use Rattle.fv_image.specs.Views.{Head, View, block_in, head_of, map_kind, map_vvbn};
ghost use Rattle.fv_faults.specs.Adding.{Adds};
ghost use Rattle.fv_faults.specs.Lines.{expects};
ghost use Rattle.fv_faults.specs.ThirdPass.{map_kind_lines, pvbn_at, reach_lines};
ghost use Rattle.fv_faults.specs.Walks.{Step};
ghost use Rattle.fv_first_pass.specs.Causes.{HasRead};
ghost use Rattle.fv_first_pass.specs.Passed.{spelled};
ghost use Rattle.fv_third_pass.specs.Maps.{HasWords, IsReachOf, block_lines, kinds_if, kinds_to, reach_to};
ghost use Rattle.fv_disk.specs.Shown.{Image};

use crate::bits::{Saying, note_block};
use crate::words::{KIND, word_in};
use fv_bits::BitMap;
use fv_codec::{Label, SnapRecord};
use fv_disk::{Block, Disk, ZERO};
use fv_faults::{Fault, Lines};
use fv_first_pass::CheckFault;
use fv_model::map_blocks;
use std::alloc::AllocError;

/// The kind of the entry of a map's block.
const MAP_KIND: u32 = 8;

/// One of the maps of a volume.
#[derive(Clone, Copy, Debug, PartialEq, Eq)]
pub struct VolumeMap {
    /// The span of the volume.
    pub span: u32,
    /// The slot of the map, 0 for that of the active root and 1 to 24 for those of snapshots.
    pub slot: u8,
}

/// The word of the entry of block `k` of a map.
fn block_word(row: &[u32], map: VolumeMap, k: u32) -> u32
    ensures { result ≡ get_or row.now (map_vvbn map.span map.slot k) 0 }
{
    let before = map.slot as usize * map_blocks(map.span) as usize;
    word_in(row, map.span as usize + (before + k as usize))
}

/// The place that a word tells of; that of a hole is 0.
#[tactic(auto, using(crate::proofs::VolumeMaps::hole_place, crate::proofs::VolumeMaps::block_place))]
fn place_of(word: u32) -> u32
    ensures { (i : Image) → result ≡ pvbn_at (spelled i word) }
{
    if word / KIND == 0 { 0 } else { word % KIND }
}

/// Reads the block that a word leads to; a hole leads to clear bits.
#[tactic(auto, using(crate::proofs::VolumeMaps::hole_bits, crate::proofs::VolumeMaps::block_bits_are))]
fn read_bits<D: Disk>(disk: &mut D, word: u32) -> Result<Block, CheckFault>
    ensures bits { IsTrue (D.shown disk.old).tells
        → IfOk result (λ block. (b : ℕ) → bit_of_bytes block b ≡ bit_of_bytes (block_in (spelled (D.shown disk.old).reads word)) b) }
    ensures read { HasRead (D.shown disk.old) (D.shown disk.new) result }
{
    let mut block = ZERO;
    if word / KIND == 0 {
        return Ok(block);
    }
    disk.read(u64::from(word % KIND), &mut block)?;
    Ok(block)
}

/// Notes the lines of rule 6 of block `k` of a map, by the word of its entry.
fn note_map_block<D: Disk>(
    disk: &mut D,
    word: u32,
    reach: &BitMap,
    k: u32,
    lines: &mut Lines,
) -> Result<(), CheckFault>
    requires k { k < 32 }
    requires within { 32768 * k < length reach.now }
    ensures adds { IsTrue (D.shown disk.old).tells
        → OnOk result (Adds (block_lines (D.shown disk.old).reads word reach.now k) lines.old lines.new) }
    ensures read { HasRead (D.shown disk.old) (D.shown disk.new) result }
{
    let block = read_bits(disk, word)?;
    let saying = Saying {
        rule: 6,
        at: Some(u64::from(place_of(word))),
    };
    note_block(lines, saying, reach, k, &block)?;
    Ok(())
}

/// Notes those of all blocks of a map.
#[tactic(auto, using(fv_disk::proofs::Resting::reads_then))]
fn note_blocks<D: Disk>(
    disk: &mut D,
    row: &[u32],
    map: VolumeMap,
    reach: &BitMap,
    lines: &mut Lines,
) -> Result<(), CheckFault>
    requires span { map.span ≤ 1048576 }
    requires size { length reach.now ≡ map.span }
    ensures adds { IsTrue (D.shown disk.old).tells
        → OnOk result (Adds (reach_to (D.shown disk.old).reads row.now map.span map.slot reach.now (map_blocks map.span)) lines.old lines.new) }
    ensures read { HasRead (D.shown disk.old) (D.shown disk.new) result }
{
    for k in 0..map_blocks(map.span) {
        note_map_block(disk, block_word(row, map, k), reach, k, lines)?;
    }
    Ok(())
}

/// Notes a line of rule 6 for each bit of a map of a volume, to the end of its last block, that isn't set just where the map's root reaches
/// that VVBN (`docs/FORMAT.md`). `row` has the words of the volume's entries, and `reach` what the root reaches.
///
/// `DiskFault` comes only where a read failed, `Memory` where memory was refused. It reads each block of the map once.
pub fn note_reach<D: Disk>(
    disk: &mut D,
    row: &[u32],
    map: VolumeMap,
    reach: &BitMap,
    lines: &mut Lines,
) -> Result<(), CheckFault>
    requires span { map.span ≤ 1048576 }
    requires size { length reach.now ≡ map.span }
    ensures adds { IsTrue (D.shown disk.old).tells
        → OnOk result ((w : View) (s : ℕ) (h : Head) (ss : List Step) → h.span ≡ map.span → HasWords (D.shown disk.old).reads w s row.now
        → IsReachOf ss reach.now → Adds (reach_lines w s h map.slot ss) lines.old lines.new) }
    ensures read { HasRead (D.shown disk.old) (D.shown disk.new) result }
{
    note_blocks(disk, row, map, reach, lines)?;
    Ok(())
}

/// Notes the line of a map's block whose entry has another kind.
#[tactic(auto, using(fv_faults::proofs::Adding::nothing_added))]
fn note_kind(lines: &mut Lines, label: u64, kind: u32) -> Result<(), AllocError>
    ensures { OnOk result (Adds (expects 9 label map_kind kind) lines.old lines.new) }
{
    if kind == MAP_KIND {
        return Ok(());
    }
    lines.note(Fault {
        rule: 9,
        block: label,
        want: u64::from(MAP_KIND),
        found: u64::from(kind),
    })
}

/// Notes the lines of rule 9 of the blocks of one map, by the words of the volume's entries.
#[tactic(auto, using(crate::proofs::Noting::range_first, crate::proofs::Noting::range_next), unfolding(crate::specs::Maps::kinds_to))]
fn note_kinds(row: &[u32], map: VolumeMap, label: u64, lines: &mut Lines) -> Result<(), AllocError>
    ensures { OnOk result (Adds (kinds_to row.now label map.span map.slot (map_blocks map.span)) lines.old lines.new) }
{
    for k in 0..map_blocks(map.span) {
        note_kind(lines, label, block_word(row, map, k) / KIND)?;
    }
    Ok(())
}

/// Notes those of the map of a snapshot, where a label's record names one.
#[tactic(auto, using(crate::proofs::MapKinds::kinds_free, crate::proofs::MapKinds::kinds_used))]
fn note_snapshot_kinds(
    row: &[u32],
    map: VolumeMap,
    snapshot: &SnapRecord,
    label: u64,
    lines: &mut Lines,
) -> Result<(), AllocError>
    ensures { OnOk result (Adds (kinds_if row.now label map.span map.slot snapshot.now) lines.old lines.new) }
{
    if snapshot.name_length == 0 {
        return Ok(());
    }
    note_kinds(row, map, label, lines)?;
    Ok(())
}

/// Notes a line of rule 9 for each block of the maps of a volume whose entry has another kind (`docs/FORMAT.md`), said of the label's block,
/// which is `at`. `row` has the words of the volume's entries. The one error is want of memory. It looks at each map block's word once.
pub fn note_map_kinds(
    row: &[u32],
    label: &Label,
    at: u64,
    lines: &mut Lines,
) -> Result<(), AllocError>
    requires { length label.now.snapshots ≡ 24 }
    ensures { OnOk result ((i : Image) (w : View) (s : ℕ) → HasWords i w s row.now
        → Adds (map_kind_lines w s at (head_of label.entry.now)) lines.old lines.new) }
{
    let active = VolumeMap {
        span: label.span,
        slot: 0,
    };
    note_kinds(row, active, at, lines)?;
    for j in 0..24u8 {
        let map = VolumeMap {
            span: label.span,
            slot: j + 1,
        };
        note_snapshot_kinds(row, map, &label.snapshots[usize::from(j)], at, lines)?;
    }
    Ok(())
}
