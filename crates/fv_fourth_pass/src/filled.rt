//! Which entries of a volume lead to blocks: those that are its own, and those that are delayed.

ghost use Rattle.std.specs.Prelude.{◌≡◌, ◌≤◌, ◌<◌, ◌^◌, ℕ, length, count_by};
ghost use Rattle.std.specs.List.{range_with_len};
ghost use Rattle.fv_codec.specs.Blocks.{IsLabel};
ghost use Rattle.fv_image.specs.Views.{View, entry_count, head_of, is_active_map, is_delayed, is_own, vvbns};
ghost use Rattle.fv_fourth_pass.specs.Filled.{HasFilled, is_delayed_by, is_kept, is_own_by, is_used_slot};

use crate::bases::has_entry_at;
use crate::space::Filled;
use fv_bits::BitMap;
use fv_codec::Label;
use fv_model::{map_blocks, map_slot};
use fv_third_pass::{entry_count, snap_table};

/// Whether a map slot of a volume is in use.
fn is_used_slot(label: &Label, slot: u8) -> bool
    requires label { IsLabel label.now }
    requires long { length label.now.snapshots ≡ 24 }
    requires low { slot ≤ 24 }
    ensures { result ≡ is_used_slot (head_of label.entry.now) slot }
{
    if slot == 0 {
        return true;
    }
    snap_table(label, slot).is_some()
}

/// Whether an entry of a volume is held: its VVBN is reached, or it is that of a map block whose slot is in use.
fn is_kept(label: &Label, held: &BitMap, vvbn: usize) -> bool
    requires label { IsLabel label.now }
    requires long { length label.now.snapshots ≡ 24 }
    requires held { length held.now ≡ label.now.span }
    requires low { vvbn < entry_count label.now.span }
    ensures { result ≡ is_kept (head_of label.entry.now) held.now vvbn }
{
    let span = label.span as usize;
    if vvbn < span {
        return held.get(vvbn as u32);
    }
    is_used_slot(label, map_slot(label.span, vvbn as u32))
}

/// Whether an entry is that of a block of the active map.
fn is_active_map(label: &Label, vvbn: usize) -> bool
    ensures { result ≡ is_active_map (head_of label.entry.now) vvbn }
{
    let span = label.span as usize;
    span <= vvbn && vvbn < span + map_blocks(label.span) as usize
}

/// Whether an entry is a volume's own.
fn is_own(label: &Label, held: &BitMap, row: &[u32], vvbn: usize) -> bool
    requires label { IsLabel label.now }
    requires long { length label.now.snapshots ≡ 24 }
    requires held { length held.now ≡ label.now.span }
    requires low { vvbn < entry_count label.now.span }
    ensures { result ≡ is_own_by (head_of label.entry.now) held.now row.now vvbn }
{
    has_entry_at(row, vvbn) && is_kept(label, held, vvbn) && !is_active_map(label, vvbn)
}

/// Whether an entry is delayed.
fn is_delayed(label: &Label, held: &BitMap, row: &[u32], vvbn: usize) -> bool
    requires label { IsLabel label.now }
    requires long { length label.now.snapshots ≡ 24 }
    requires held { length held.now ≡ label.now.span }
    requires low { vvbn < entry_count label.now.span }
    ensures { result ≡ is_delayed_by (head_of label.entry.now) held.now row.now vvbn }
{
    has_entry_at(row, vvbn) && !is_kept(label, held, vvbn)
}

/// How many entries of a volume are its own.
#[tactic(auto, using(crate::proofs::Sums::counted_yes, crate::proofs::Sums::counted_no))]
fn count_own(label: &Label, held: &BitMap, row: &[u32]) -> u64
    requires label { IsLabel label.now }
    requires long { length label.now.snapshots ≡ 24 }
    requires held { length held.now ≡ label.now.span }
    ensures exact { result ≡ count_by (is_own_by (head_of label.entry.now) held.now row.now)
        (range_with_len 0 (entry_count label.entry.now.span)) }
    ensures most { result ≤ 2 ^ 33 }
{
    let mut count = 0;
    for vvbn in 0..entry_count(label.span) {
        if is_own(label, held, row, vvbn) {
            count += 1;
        }
    }
    count
}

/// How many entries of a volume are delayed.
#[tactic(auto, using(crate::proofs::Sums::counted_yes, crate::proofs::Sums::counted_no))]
fn count_delayed(label: &Label, held: &BitMap, row: &[u32]) -> u64
    requires label { IsLabel label.now }
    requires long { length label.now.snapshots ≡ 24 }
    requires held { length held.now ≡ label.now.span }
    ensures exact { result ≡ count_by (is_delayed_by (head_of label.entry.now) held.now row.now)
        (range_with_len 0 (entry_count label.entry.now.span)) }
    ensures most { result ≤ 2 ^ 33 }
{
    let mut count = 0;
    for vvbn in 0..entry_count(label.span) {
        if is_delayed(label, held, row, vvbn) {
            count += 1;
        }
    }
    count
}

/// How many entries of the volume of a label lead to blocks: those that are its own, and those that are delayed. `held` has the VVBNs that
/// its roots reach, and `row` the words of its entries. Costs two steps for each entry.
pub fn count_filled(label: &Label, held: &BitMap, row: &[u32]) -> Filled
    requires label { IsLabel label.now }
    requires long { length label.now.snapshots ≡ 24 }
    requires held { length held.now ≡ label.now.span }
    ensures own { (w : View) (s : ℕ) → HasFilled w s (head_of label.entry.now) held.now row.now
        → result.own ≡ count_by (is_own w s (head_of label.entry.now)) (vvbns label.entry.now.span) }
    ensures delayed { (w : View) (s : ℕ) → HasFilled w s (head_of label.entry.now) held.now row.now
        → result.delayed ≡ count_by (is_delayed w s (head_of label.entry.now)) (vvbns label.entry.now.span) }
    ensures most_own { result.own ≤ 2 ^ 33 }
    ensures most_delayed { result.delayed ≤ 2 ^ 33 }
{
    Filled {
        own: count_own(label, held, row),
        delayed: count_delayed(label, held, row),
    }
}
