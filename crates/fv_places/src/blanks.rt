//! Blocks without places: each pointer in them is unknown.

ghost use Rattle.std.specs.Prelude.{◌≡◌, true, Some, map, OnOk, OnErr};
ghost use Rattle.fv_codec.specs.declared.form.Form.TheVariants.{Node as OfNode, Inodes as OfInodes};
ghost use Rattle.fv_tables.specs.Alike.{hintless, hintless_record};
ghost use Rattle.fv_places.specs.ByKind.{form_of, shape_in};
ghost use Rattle.fv_places.specs.Changed.{Blanks, are_blank, is_blank};

use crate::kind::form_of;
use crate::unknown::roots_of;
use fv_codec::{Form, InodeBlock, InodeRecord, Node, Pointer, Shape};

/// Takes the place out of each pointer in a block of a kind: of the 128 of a node, and of the roots of the 16 records of an inode block.
/// Data and volume maps stay as they are. `Err` says why the block hasn't the shape of its kind, and leaves it. Costs a decode,
/// and an encode where a place is known.
pub fn blank(kind: u8, block: &mut [u8; 4096]) -> Result<(), Shape>
    ensures shape { result ≡ shape_in (form_of kind) block.old }
    ensures blanks { OnOk result (Blanks (form_of kind) block.old block.new) }
    ensures stays { is_blank (form_of kind) block.old ≡ true → block.new ≡ block.old }
    ensures kept { OnErr result (block.new ≡ block.old) }
{
    match form_of(kind) {
        Some(Form::Node) => blank_node(block),
        Some(Form::Inodes) => blank_inodes(block),
        None => Ok(()),
    }
}

fn blank_node(block: &mut [u8; 4096]) -> Result<(), Shape>
    ensures shape { result ≡ shape_in (Some OfNode) block.old }
    ensures blanks { OnOk result (Blanks (Some OfNode) block.old block.new) }
    ensures stays { is_blank (Some OfNode) block.old ≡ true → block.new ≡ block.old }
    ensures kept { OnErr result (block.new ≡ block.old) }
{
    let mut node = Node::decode(block)?;
    if !are_blank(&node.children) {
        hide(&mut node.children);
        node.encode(block);
    }
    Ok(())
}

fn blank_inodes(block: &mut [u8; 4096]) -> Result<(), Shape>
    ensures shape { result ≡ shape_in (Some OfInodes) block.old }
    ensures blanks { OnOk result (Blanks (Some OfInodes) block.old block.new) }
    ensures stays { is_blank (Some OfInodes) block.old ≡ true → block.new ≡ block.old }
    ensures kept { OnErr result (block.new ≡ block.old) }
{
    let mut inodes = InodeBlock::decode(block)?;
    if !are_blank(&roots_of(&inodes.files)) {
        hide_roots(&mut inodes.files);
        inodes.encode(block);
    }
    Ok(())
}

/// Whether no pointer tells a place.
fn are_blank(pointers: &[Pointer]) -> bool
    ensures { result ≡ are_blank pointers.now }
{
    for pointer in pointers {
        if pointer.pvbn != 0 {
            return false;
        }
    }
    true
}

/// Makes each pointer unknown.
fn hide(pointers: &mut [Pointer])
    ensures { pointers.new ≡ map hintless pointers.old }
{
    for i in 0..pointers.len() {
        pointers[i].pvbn = 0;
    }
}

/// Makes each root unknown.
fn hide_roots(files: &mut [InodeRecord])
    ensures { files.new ≡ map hintless_record files.old }
{
    for i in 0..files.len() {
        files[i].root.pvbn = 0;
    }
}
