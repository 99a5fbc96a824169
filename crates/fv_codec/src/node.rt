ghost use Rattle.std.specs.Prelude.{◌≡◌, ◌≢◌, ◌≤◌, ◌<◌, ◌^◌, ◌+◌, ◌*◌, ◌++◌, true, get_or, length, IfOk, IfErr, OnOk};
ghost use Rattle.std.specs.List.{flat_map};

use crate::page::Page;
use crate::pointer::Pointer;
use crate::reading::{some_filled, tail, word_in, zeros_in};
use crate::shape::Shape;

/// `FVNODE00` as a word.
const MARK: u64 = 0x4656_4e4f_4445_3030;

/// A node of a file's tree: 128 pointers, not all of them holes.
#[derive(Clone, Copy, Debug, PartialEq, Eq)]
pub struct Node {
    /// How far the node is above the cells, 1 to 3.
    pub level: u8,
    /// The file's number, or 2^64 - 1 for the inode file.
    pub owner: u64,
    /// Which range of its level the node stands for.
    pub place: u64,
    /// The pointers to the ranges of the level below, or to the cells.
    pub children: [Pointer; 128],
}

impl Node {
    ghost use Rattle.fv_codec.specs.Fields.{each, items};
    ghost use Rattle.fv_codec.specs.Blocks.{all_holes, asks_pointer, node_at, pointer_of, IsNode};
    ghost use Rattle.fv_codec.specs.Forms.{hole};
    ghost use Rattle.fv_codec.specs.Spelling.{node_bytes, pointer_bytes};

    /// The node that a block spells, or the first field that isn't as said; a node of holes alone wants 1
    /// and has 0. Goes over the block once.
    #[tactic(auto, using(crate::proofs::Decoded::node_in_range, crate::proofs::Decoded::node_differs))]
    pub fn decode(block: &[u8; 4096]) -> Result<Node, Shape>
        ensures exact { result ≡ node_at block.now }
        ensures in_range { IfOk result IsNode }
        ensures differs { IfErr result (λ s. s.want ≢ s.found) }
    {
        Node::read(block)
    }

    #[tactic(auto, unfolding(crate::specs::Blocks::node_at), using(crate::proofs::Nodes::holes_alone))]
    fn read(block: &[u8; 4096]) -> Result<Node, Shape>
        ensures { result ≡ node_at block.now }
    {
        word_in(block, 0, MARK, MARK)?;
        let level = word_in(block, 8, 1, 3)?;
        let owner = word_in(block, 16, 0, u64::MAX)?;
        let place = word_in(block, 24, 0, u64::MAX)?;
        zeros_in(block, 32, 992)?;
        let mut children = [Pointer::HOLE; 128];
        Node::read_children(tail(block, 1024), &mut children)?;
        some_filled(Node::all_holes(&children))?;
        Ok(Node {
            level: level as u8,
            owner,
            place,
            children,
        })
    }

    /// The child in a slot below 128 of the node that a block spells. It reads the pointer's 24 bytes and judges nothing:
    /// of a block that spells no node it answers any numbers.
    #[tactic(auto, using(crate::proofs::Picked::child_of))]
    pub fn child(block: &[u8; 4096], slot: u32) -> Pointer
        requires { slot < 128 }
        ensures { IfOk (node_at block.now) (λ n. get_or n.children slot hole ≡ result) }
    {
        Pointer::pick(tail(block, 1024 + 24 * slot as usize))
    }

    /// Writes the node into a block; every byte of it is written.
    #[tactic(auto, using(crate::proofs::Nodes::node_again))]
    pub fn encode(&self, into: &mut [u8; 4096])
        requires { IsNode self.now }
        ensures reads_back { node_at into.new ≡ Ok self.now }
    {
        self.page().finish(into);
    }

    fn page(&self) -> Page
        ensures written { result ≡ node_bytes self.now }
        ensures length { length result ≡ 4096 }
        ensures owner { self.now.owner < 2 ^ 64 }
        ensures place { self.now.place < 2 ^ 64 }
        ensures children { length self.now.children ≡ 128 }
    {
        let mut page = Page::new();
        page.word(MARK);
        page.word(u64::from(self.level));
        page.word(self.owner);
        page.word(self.place);
        page.skip(992);
        Node::write_children(&self.children, &mut page);
        page
    }

    /// Pointers one after the other.
    #[tactic(auto, unfolding(crate::specs::Fields::each, crate::specs::Fields::items))]
    fn read_children(bytes: &[u8], into: &mut [Pointer]) -> Result<(), Shape>
        requires { 24 * length into.old ≤ length bytes.now }
        ensures verdict { result ≡ each (length into.old) 24 (asks_pointer true) bytes.now }
        ensures value { OnOk result (into.new ≡ items (length into.old) 24 pointer_of bytes.now) }
    {
        for i in 0..into.len() {
            let child = Pointer::read(tail(bytes, 24 * i), true)?;
            into[i] = child;
        }
        Ok(())
    }

    /// Whether all of the pointers are holes.
    fn all_holes(pointers: &[Pointer]) -> bool
        ensures { result ≡ all_holes pointers.now }
    {
        for pointer in pointers {
            if pointer.stamp != 0 {
                return false;
            }
        }
        true
    }

    fn write_children(children: &[Pointer], page: &mut Page)
        requires { length page.old + 24 * length children.now ≤ 4096 }
        ensures written { page.new ≡ page.old ++ flat_map pointer_bytes children.now }
        ensures length { length page.new ≡ length page.old + 24 * length children.now }
    {
        for child in children {
            child.write(page);
        }
    }
}
