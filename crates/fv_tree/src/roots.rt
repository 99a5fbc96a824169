//! Taking the places out of the roots of files.

ghost use Rattle.std.specs.Prelude.{◌≡◌, map, Err};
ghost use Rattle.fv_codec.specs.declared.shape.Shape.{Shape};
ghost use Rattle.fv_codec.specs.declared.inode.InodeRecord.{InodeRecord};
ghost use Rattle.fv_codec.specs.Blocks.{inodes_at};
ghost use Rattle.fv_tables.specs.Alike.{hintless_record};
ghost use Rattle.fv_tree.specs.Rooting.{hintless_spelled, BlanksCell, BlanksCells, BlanksRoots};

use crate::blank::hintless;
use crate::kept::{KeptCell, Tree};
use fv_codec::{InodeBlock, InodeRecord};
use std::collections::BTreeMap;

impl Tree {
    /// Takes the place out of the root of each file in an inode block in memory that changed, which a later flush writes
    /// whole. Such a root gets PVBN 0; its VVBN and stamp, and all else of each record, stay. It is for the tree of an
    /// inode file; a cell that isn't an inode block stays. It goes over the cells in memory once, and over each inode
    /// block that changed. It takes no memory and loads nothing.
    pub fn blank_roots(&mut self)
        ensures { BlanksRoots self.old self.new }
    {
        blank_cells(&mut self.cells);
    }
}

/// Takes the places out of the inode blocks that changed.
fn blank_cells(cells: &mut BTreeMap<u32, KeptCell>)
    ensures { BlanksCells cells.old cells.new }
{
    // As for nodes: contracts say what `retain` wrote.
    cells.retain(|_, cell| {
        blank_cell(cell);
        true
    });
}

/// Takes the places out of an inode block, where it changed.
fn blank_cell(cell: &mut KeptCell)
    ensures { BlanksCell cell.old cell.new }
{
    if cell.changed {
        blank_block(&mut cell.block);
    }
}

/// Takes the places out of the roots in a block, where it is an inode block.
fn blank_block(block: &mut [u8; 4096])
    ensures inodes { inodes_at block.new ≡ hintless_spelled (inodes_at block.old) }
    ensures other { (fault : Shape) → inodes_at block.old ≡ Err fault → block.new ≡ block.old }
{
    if let Ok(mut inodes) = InodeBlock::decode(block) {
        blank_files(&mut inodes.files);
        inodes.encode(block);
    }
}

/// Takes the places out of the roots of records.
fn blank_files(files: &mut [InodeRecord; 16])
    ensures { files.new ≡ map hintless_record files.old }
{
    for slot in 0..16 {
        files[slot].root = hintless(&files[slot].root);
    }
}
