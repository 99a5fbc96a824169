//! Pointers that lead to a block whose place isn't known.

ghost use Rattle.std.specs.Prelude.{◌≡◌, ◌≤◌, Some, length, map, IfOk};
ghost use Rattle.std.specs.List.{list_any};
ghost use Rattle.fv_codec.specs.declared.form.Form.TheVariants.{Node as OfNode, Inodes as OfInodes};
ghost use Rattle.fv_codec.specs.declared.inode.InodeRecord.{InodeRecord};
ghost use Rattle.fv_codec.specs.Fields.{verdict_of};
ghost use Rattle.fv_image.specs.HintRules.{is_unknown};
ghost use Rattle.fv_places.specs.ByKind.{form_of, shape_in, pointers_by};
ghost use Rattle.fv_places.specs.Firsts.{IsFirst};

use crate::kind::form_of;
use fv_codec::{Form, InodeBlock, InodeRecord, Node, Pointer, Shape};

/// Whether a pointer in a block of a kind leads to a block whose place isn't known: it has a stamp, and its PVBN is 0. Data and volume maps
/// have no pointers. `Err` says why the block hasn't the shape of its kind. Costs a decode.
#[tactic(auto, using(crate::proofs::Firsts::found_any))]
pub fn has_unknown(kind: u8, block: &[u8; 4096]) -> Result<bool, Shape>
    ensures shape { verdict_of result ≡ shape_in (form_of kind) block.now }
    ensures exact { IfOk result (λ found. found ≡ list_any is_unknown (pointers_by (form_of kind) block.now)) }
{
    Ok(first_unknown(kind, block, 0)?.is_some())
}

/// The first such pointer of a block from an index on, and its index: that of a node's child, below 128, or of the record of an inode block
/// whose root it is, below 16. `Err` says why the block hasn't the shape of its kind. Costs a decode.
pub fn first_unknown(
    kind: u8,
    block: &[u8; 4096],
    from: u32,
) -> Result<Option<(u32, Pointer)>, Shape>
    ensures shape { verdict_of result ≡ shape_in (form_of kind) block.now }
    ensures exact { IfOk result (IsFirst (pointers_by (form_of kind) block.now) from) }
{
    match form_of(kind) {
        Some(Form::Node) => first_child(block, from),
        Some(Form::Inodes) => first_root(block, from),
        None => Ok(None),
    }
}

fn first_child(block: &[u8; 4096], from: u32) -> Result<Option<(u32, Pointer)>, Shape>
    ensures shape { verdict_of result ≡ shape_in (Some OfNode) block.now }
    ensures exact { IfOk result (IsFirst (pointers_by (Some OfNode) block.now) from) }
{
    let node = Node::decode(block)?;
    Ok(first_of(&node.children, from))
}

#[tactic(auto, unfolding(fv_tables::specs::Told::records_in))]
fn first_root(block: &[u8; 4096], from: u32) -> Result<Option<(u32, Pointer)>, Shape>
    ensures shape { verdict_of result ≡ shape_in (Some OfInodes) block.now }
    ensures exact { IfOk result (IsFirst (pointers_by (Some OfInodes) block.now) from) }
{
    let inodes = InodeBlock::decode(block)?;
    Ok(first_of(&roots_of(&inodes.files), from))
}

/// The roots of the records of an inode block, in their order. Costs a copy of each.
pub fn roots_of(files: &[InodeRecord; 16]) -> [Pointer; 16]
    ensures { result ≡ map (λ (r : InodeRecord). r.root) files.now }
{
    let mut roots = [Pointer::HOLE; 16];
    for i in 0..16 {
        roots[i] = files[i].root;
    }
    roots
}

/// The first unknown pointer from an index on.
fn first_of(pointers: &[Pointer], from: u32) -> Option<(u32, Pointer)>
    requires { length pointers.now ≤ 128 }
    ensures { IsFirst pointers.now from result }
{
    for i in from as usize..pointers.len() {
        if is_unknown(&pointers[i]) {
            return Some((i as u32, pointers[i]));
        }
    }
    None
}

/// Whether a pointer leads to a block whose place isn't known: it has a stamp, and its PVBN is 0. Costs a step.
pub fn is_unknown(pointer: &Pointer) -> bool
    ensures { result ≡ is_unknown pointer.now }
{
    pointer.stamp != 0 && pointer.pvbn == 0
}
