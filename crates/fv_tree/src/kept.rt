//! What a tree holds in memory.

ghost use Rattle.std.specs.Prelude.{◌≡◌, ◌≤◌, ◌<◌, ◌^◌, true, false, count_by, length};
ghost use Rattle.std.specs.BTreeMap as maps;
ghost use Rattle.std.specs.List.{All};
ghost use Rattle.fv_codec.specs.Blocks.{IsPointer, all_holes};

use fv_codec::Pointer;
use std::alloc::Global;
use std::collections::BTreeMap;

/// A pointer that leads to nothing.
pub const HOLE: Pointer = Pointer::HOLE;

/// A node in memory.
#[derive(Clone, Copy)]
pub struct KeptNode {
    /// Its pointers.
    pub children: [Pointer; 128],
    /// Whether it differs from its block.
    pub changed: bool,
    /// Whether the pointer to it leads to a block that it replaces.
    pub placed: bool,
    ghost long: { length children ≡ 128 },
    ghost pointers: { All IsPointer children },
    ghost some: { changed ≡ true → all_holes children ≡ false },
}

/// A cell in memory. Its content lies in a box, so that a map of cells moves no block.
#[derive(Drop)]
pub struct KeptCell {
    /// Its content.
    pub block: Box<[u8; 4096]>,
    /// Whether it differs from its block.
    pub changed: bool,
    /// Whether the pointer to it leads to a block that it replaces.
    pub placed: bool,
}

/// A tree of a file, or of an inode file, of which what changed or was held ready since the last `flush` is in memory,
/// with the nodes over it. Each `put`, `ready` or `refill` brings in at most one cell. It keeps the numbers of nodes and of
/// cells that differ from their blocks, so that none is looked for.
#[derive(Drop)]
pub struct Tree {
    pub(crate) owner: u64,
    pub(crate) levels: u8,
    pub(crate) root: Pointer,
    pub(crate) nodes: BTreeMap<(u8, u32), KeptNode>,
    pub(crate) cells: BTreeMap<u32, KeptCell>,
    pub(crate) changed_nodes: u64,
    pub(crate) changed_cells: u64,
    pub(crate) alloc: Global,
    ghost few: { levels ≤ 3 },
    ghost pointer: { IsPointer root },
    ghost counted_nodes: { changed_nodes ≡ count_by (λ kept. kept.changed) (maps.values nodes) },
    ghost counted_cells: { changed_cells ≡ count_by (λ kept. kept.changed) (maps.values cells) },
    ghost fits_nodes: { changed_nodes < 2 ^ 64 },
    ghost fits_cells: { changed_cells < 2 ^ 64 },
}
