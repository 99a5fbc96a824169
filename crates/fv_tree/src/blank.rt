//! Taking the places out of pointers.

ghost use Rattle.std.specs.Prelude.{◌≡◌, map};
ghost use Rattle.fv_tables.specs.Alike.{hintless};
ghost use Rattle.fv_tree.specs.Blanking.{hintless_in, Blanks, BlanksNodes};

use crate::kept::{KeptNode, Tree};
use fv_codec::Pointer;
use std::collections::BTreeMap;

impl Tree {
    /// Takes the place out of each pointer that a later flush writes: out of the root, and out of all pointers of each
    /// node in memory that changed. They get PVBN 0; VVBNs, stamps and holes stay. A flush that hides places then writes
    /// unknown pointers alone. Nodes that didn't change stand in their blocks and stay, and so do cells. It goes over the
    /// nodes in memory once, takes no memory and loads nothing.
    pub fn blank(&mut self)
        ensures { Blanks self.old self.new }
    {
        self.root = hintless(&self.root);
        blank_nodes(&mut self.nodes);
    }
}

/// Takes the places out of the nodes that changed.
fn blank_nodes(nodes: &mut BTreeMap<(u8, u32), KeptNode>)
    ensures { BlanksNodes nodes.old nodes.new }
{
    // Contracts say what `retain` wrote to each node, and nothing of a loop over `values_mut`.
    nodes.retain(|_, node| {
        blank_node(node);
        true
    });
}

/// Takes the places out of a node, where it changed.
fn blank_node(node: &mut KeptNode)
    ensures children { node.new.children ≡ hintless_in node.old }
    ensures changed { node.new.changed ≡ node.old.changed }
    ensures placed { node.new.placed ≡ node.old.placed }
{
    if node.changed {
        blank_all(&mut node.children);
    }
}

/// Takes the places out of all pointers of a node.
fn blank_all(children: &mut [Pointer; 128])
    ensures { children.new ≡ map hintless children.old }
{
    for slot in 0..128 {
        children[slot] = hintless(&children[slot]);
    }
}

/// The pointer without the place of its block; a hole stays one.
pub fn hintless(pointer: &Pointer) -> Pointer
    ensures { result ≡ hintless pointer.now }
{
    Pointer {
        vvbn: pointer.vvbn,
        pvbn: 0,
        stamp: pointer.stamp,
    }
}
