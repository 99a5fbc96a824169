//! How many nodes a tree has.

ghost use Rattle.std.specs.Prelude.{◌≡◌, ◌<◌, ◌≤◌, ◌+◌, ◌^◌, ◌++◌, ℕ, true, false, length, get_or, replicate, IfOk};
ghost use Rattle.std.specs.Vec.{vec_capacity};
ghost use Rattle.fv_image.specs.Containers.{height_of, level_width, most_entries};
ghost use Rattle.fv_container.specs.Mapped.{grown, node_count};

use std::alloc::{AllocError, Global};

/// The entries of a leaf, and the children of an inner node.
pub(crate) const FAN: usize = 256;

/// How many entries a container of so many may grow to: 231 more for each block of a map, of which each has 32,793 entries at most, and
/// 256 more.
pub(crate) fn grown(entries: usize) -> usize
    requires { entries ≤ most_entries }
    ensures value { result ≡ grown entries }
    ensures few { result ≤ 2 ^ 25 }
{
    entries + 231 * ((entries + 32_792) / 32_793) + 256
}

/// How many leaves cover so many entries.
pub(crate) fn leaf_count(entries: usize) -> usize
    requires { entries ≤ 2 ^ 25 }
    ensures { result ≡ level_width entries 0 }
{
    (entries + 255) / FAN
}

/// How many nodes stand above the leaves, at least one.
pub(crate) fn inner_count(entries: usize) -> usize
    requires { entries ≤ 2 ^ 25 }
    ensures { result ≡ level_width entries 1 }
{
    let covering = (leaf_count(entries) + 255) / FAN;
    if covering == 0 { 1 } else { covering }
}

/// How many nodes stand above the leaves, with a root above these.
pub(crate) fn above_count(entries: usize) -> usize
    requires { entries ≤ most_entries }
    ensures { result ≡ level_width entries 1 + 1 }
{
    inner_count(entries) + 1
}

/// How many nodes a tree can have: leaves, the level above them, and a root above that.
pub(crate) fn node_count(entries: usize) -> usize
    requires { entries ≤ 2 ^ 25 }
    ensures { result ≡ node_count entries }
{
    leaf_count(entries) + inner_count(entries) + 1
}

/// The height of the tree of so many entries, at most 16,777,216: the least, at least 1, whose fan-out of
/// 256 covers the leaves. `flush` writes trees of this height. Costs one step.
pub fn height_of(entries: u32) -> u8
    requires { entries ≤ most_entries }
    ensures { result ≡ height_of entries }
{
    if leaf_count(entries as usize) <= FAN {
        1
    } else {
        2
    }
}

/// A vector of so many copies of a value, with room for so many items.
pub(crate) fn filled<T: Copy + Drop>(
    alloc: Global,
    count: usize,
    room: usize,
    value: T,
) -> Result<Vec<T>, AllocError>
    ensures items { IfOk result (λ items. items.items ≡ replicate count value) }
    ensures room { IfOk result (λ items. room ≤ vec_capacity items) }
{
    let mut items = Vec::with_capacity(alloc, room)?;
    for _ in 0..count {
        items.push(value)?;
    }
    Ok(items)
}

/// Marks of nodes, with room for so many: none of so many leaves is marked, and each of so many nodes above them where that is wished.
pub(crate) fn marks_above(
    alloc: Global,
    leaves: usize,
    above: usize,
    room: usize,
    wished: bool,
) -> Result<Vec<bool>, AllocError>
    requires leaves { leaves ≤ 65536 }
    requires above { above ≤ 65536 }
    ensures marks { IfOk result (λ marks. marks.items ≡ replicate leaves false ++ replicate above wished) }
    ensures room { IfOk result (λ marks. room ≤ vec_capacity marks) }
{
    let mut marks = Vec::with_capacity(alloc, room)?;
    for _ in 0..leaves {
        marks.push(false)?;
    }
    for _ in 0..above {
        marks.push(wished)?;
    }
    Ok(marks)
}

/// Which of so many leaves are absent, whose places stand first in a row, with room for so many.
pub(crate) fn absent_leaves(
    alloc: Global,
    tree: &[u32],
    leaves: usize,
    room: usize,
) -> Result<Vec<bool>, AllocError>
    requires { leaves ≤ length tree.now }
    ensures long { IfOk result (λ absent. length absent.items ≡ leaves) }
    ensures room { IfOk result (λ absent. room ≤ vec_capacity absent) }
    ensures absent { IfOk result (λ absent. (k : ℕ) → k < leaves → get_or absent.items k false ≡ true → get_or tree.now k 0 ≡ 0) }
    ensures there { IfOk result (λ absent. (k : ℕ) → k < leaves → get_or tree.now k 0 ≡ 0 → get_or absent.items k false ≡ true) }
{
    let mut absent = filled(alloc, leaves, room, false)?;
    for k in 0..leaves {
        absent[k] = tree[k] == 0;
    }
    Ok(absent)
}

/// Puts one value into a whole row.
pub(crate) fn fill(row: &mut [bool], value: bool)
    ensures len { length row.new ≡ length row.old }
    ensures all { (m : ℕ) → m < length row.new → get_or row.new m true ≡ value }
{
    for n in 0..row.len() {
        row[n] = value;
    }
}

/// Puts 0 into a whole row.
pub(crate) fn clear(row: &mut [u32])
    ensures len { length row.new ≡ length row.old }
    ensures all { (m : ℕ) → m < length row.new → get_or row.new m 0 ≡ 0 }
{
    for n in 0..row.len() {
        row[n] = 0;
    }
}
