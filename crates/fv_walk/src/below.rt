//! What stands in the block to which a pointer leads.

ghost use Rattle.std.specs.Prelude.{◌≡◌, ◌≢◌, true, IfOk};
ghost use Rattle.fv_disk.specs.Shown.{HasCause};
ghost use Rattle.fv_codec.specs.Blocks.{inodes_at, node_at};
ghost use Rattle.fv_faults.specs.Met.{place_at};
ghost use Rattle.fv_walk.specs.Sources.{found_at};
ghost use Rattle.fv_walk.specs.declared.visit.Visit.{Visit};
ghost use Rattle.fv_walk.specs.Visits.{item_of, leads_on};
ghost use Rattle.fv_walk.specs.Sights.{IsBelow, below_of, inodes_in, node_in, spelled};

use crate::source::{Found, Source};
use crate::visit::Visit;
use fv_codec::{InodeBlock, Node};
use fv_disk::{Block, Failed, ZERO};

/// What stands in the block to which a pointer leads.
#[derive(Clone, Copy, Debug, PartialEq, Eq)]
pub enum Below {
    /// No pointers: a data block, a hole along the chain, or a block without its shape.
    Nothing,
    /// A node.
    Node(Node),
    /// An inode block.
    Inodes(InodeBlock),
}

/// Reads what stands in the node or the inode block to which a pointer leads, where it is found. Costs at most one block.
#[tactic(auto, using(crate::proofs::Seeing::below_nowhere, crate::proofs::Seeing::below_block))]
pub(crate) fn read_below<S: Source>(
    source: &mut S,
    visit: &Visit,
    at: Option<Found>,
) -> Result<Below, Failed>
    requires leads { leads_on visit.now ≡ true }
    requires found { S.fits source.old → at ≡ found_at (S.volume source.old) visit.now.pointer.vvbn }
    ensures below { S.fits source.old → IfOk result (λ below. below ≡ below_of (item_of visit.now) (place_at (S.volume source.old) (item_of visit.now))) }
    ensures range { IfOk result (IsBelow visit.now) }
    ensures reads { S.reads source.old source.new }
    ensures cause { HasCause (S.faults source.old) (S.faults source.new) result }
{
    let Some(found) = at else {
        return Ok(Below::Nothing);
    };
    let mut block = ZERO;
    source.read(found.pvbn, &mut block)?;
    Ok(spell(visit, &block))
}

/// What a block spells, as the one to which the pointer leads.
#[tactic(auto, unfolding(crate::specs::Sights::spelled))]
pub(crate) fn spell(visit: &Visit, block: &Block) -> Below
    ensures below { result ≡ spelled (item_of visit.now) block.now }
    ensures range { IsBelow visit.now result }
{
    if visit.level == 0 {
        if visit.owner == u64::MAX {
            spell_inodes(block)
        } else {
            Below::Nothing
        }
    } else {
        spell_node(block)
    }
}

fn spell_node(block: &Block) -> Below
    ensures below { result ≡ node_in (node_at block.now) }
    ensures range { (v : Visit) → v.level ≢ 0 → IsBelow v result }
{
    match Node::decode(block) {
        Ok(node) => Below::Node(node),
        Err(_) => Below::Nothing,
    }
}

fn spell_inodes(block: &Block) -> Below
    ensures below { result ≡ inodes_in (inodes_at block.now) }
    ensures range { (v : Visit) → v.level ≡ 0 → IsBelow v result }
{
    match InodeBlock::decode(block) {
        Ok(inodes) => Below::Inodes(inodes),
        Err(_) => Below::Nothing,
    }
}
