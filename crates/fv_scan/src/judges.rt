//! Judging.

ghost use Rattle.std.specs.Prelude.{◌≡◌, ◌<◌, ◌+◌, map, cond, true, IfOk};
ghost use Rattle.fv_codec.specs.Blocks.{inodes_at, node_at};
ghost use Rattle.fv_image.specs.HintRules.{is_known, is_unknown};
ghost use Rattle.fv_scan.specs.Judging.{judged_inodes, judged_node, judgement, roots, said, unshaped};

use crate::item::{Item, Judged};
use fv_codec::{InodeBlock, InodeRecord, Node, Pointer, Shape};
use std::alloc::{AllocError, Global};

/// The kind of an inode block.
const INODES: u8 = 5;

/// Judges a block by itself: `Judged` is the answer of `InodeBlock::decode` for kind 5 and of `Node::decode` for every other, with the
/// numbers of pointers. It takes no memory and goes over the block once.
#[tactic(auto, unfolding(crate::specs::Judging::judgement))]
pub fn judge(item: &Item) -> Judged
    ensures { result ≡ judgement item.now }
{
    if item.kind == INODES {
        judge_inodes(&item.body)
    } else {
        judge_node(&item.body)
    }
}

/// Judges blocks by themselves, and answers what is said of each, in their order. The one error is want of memory. Costs a `judge` for
/// each.
pub fn judge_all(alloc: Global, items: &[Item]) -> Result<Vec<Judged>, AllocError>
    ensures { IfOk result (λ all. all.items ≡ map judgement items.now) }
{
    let mut all = Vec::new(alloc);
    for item in items {
        all.push(judge(item))?;
    }
    Ok(all)
}

fn judge_node(body: &[u8; 4096]) -> Judged
    ensures { result ≡ judged_node (node_at body.now) }
{
    match Node::decode(body) {
        Ok(node) => say(&node.children),
        Err(shape) => refuse(shape),
    }
}

fn judge_inodes(body: &[u8; 4096]) -> Judged
    ensures { result ≡ judged_inodes (inodes_at body.now) }
{
    match InodeBlock::decode(body) {
        Ok(block) => say_roots(&block.files),
        Err(shape) => refuse(shape),
    }
}

/// What is said of a block without its shape.
fn refuse(shape: Shape) -> Judged
    ensures { result ≡ unshaped shape }
{
    Judged {
        shaped: false,
        want: shape.want,
        found: shape.found,
        known: 0,
        unknown: 0,
    }
}

/// What is said of a block with its shape, in which these pointers stand.
fn say(pointers: &[Pointer; 128]) -> Judged
    ensures { result ≡ said pointers.now }
{
    let mut counts = Counts {
        known: 0,
        unknown: 0,
    };
    for pointer in pointers {
        counts.note(pointer);
    }
    counts.judged()
}

/// What is said of a block with its shape, in which the roots of these files stand.
fn say_roots(files: &[InodeRecord; 16]) -> Judged
    ensures { result ≡ said (roots files.now) }
{
    let mut counts = Counts {
        known: 0,
        unknown: 0,
    };
    for file in files {
        counts.note(&file.root);
    }
    counts.judged()
}

/// Numbers of pointers that aren't holes.
#[derive(Drop)]
struct Counts {
    known: u32,
    unknown: u32,
}

impl Counts {
    /// Counts a pointer.
    fn note(&mut self, pointer: &Pointer)
        requires { self.old.known + self.old.unknown < 128 }
        ensures known { self.new.known ≡ self.old.known + cond (is_known pointer.now) 1 0 }
        ensures unknown { self.new.unknown ≡ self.old.unknown + cond (is_unknown pointer.now) 1 0 }
    {
        if pointer.stamp == 0 {
            return;
        }
        if pointer.pvbn == 0 {
            self.unknown += 1;
        } else {
            self.known += 1;
        }
    }

    /// What is said of a block with its shape and these numbers.
    fn judged(&self) -> Judged
        ensures { result ≡ record { shaped = true; want = 0; found = 0; known = self.now.known; unknown = self.now.unknown } }
    {
        Judged {
            shaped: true,
            want: 0,
            found: 0,
            known: self.known,
            unknown: self.unknown,
        }
    }
}
