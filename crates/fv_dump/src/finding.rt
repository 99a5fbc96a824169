//! Where a VVBN lies, along the chain of bases, read off the containers.

ghost use Rattle.std.specs.Prelude.{◌<◌};
ghost use Rattle.fv_dump.specs.Looking.{Looks, fault_of};

use crate::ending::Fault;
use crate::look::{Look, read};
use crate::taken::Taken;
use fv_codec::{ContainerInner, ContainerLeaf, Label};

/// How far a chain of bases is followed: no aggregate has more volumes.
const LONGEST: u32 = 64;

/// The place of a VVBN: that of the volume's own entry, or else of an entry of its parent, of the parent's parent and so on. `None` where
/// all are holes, and where a block on the way hasn't its shape. Costs at most four blocks for each volume of the chain.
#[tactic(auto, using(crate::proofs::Looking::looks_on, crate::proofs::Looking::looks_not))]
pub(crate) fn find<L: Look>(
    look: &mut L,
    taken: &Taken,
    label: &Label,
    vvbn: u64,
) -> Result<Option<u64>, Fault>
    ensures { Looks (L.shown look.old) (L.shown look.new) (fault_of result) }
{
    let mut label = *label;
    for _ in 0..LONGEST {
        if let Some(at) = entry_of(look, &label, vvbn)? {
            return Ok(Some(at));
        }
        match parent_of(look, taken, &label)? {
            Some(parent) => label = parent,
            None => return Ok(None),
        }
    }
    Ok(None)
}

#[tactic(auto, using(crate::proofs::Looking::looks_on, crate::proofs::Looking::looks_not))]
fn parent_of<L: Look>(look: &mut L, taken: &Taken, label: &Label) -> Result<Option<Label>, Fault>
    ensures { Looks (L.shown look.old) (L.shown look.new) (fault_of result) }
{
    if label.parent == 0 || label.parent > 64 {
        return Ok(None);
    }
    let at = taken.root.labels[usize::from(label.parent - 1)];
    if at == 0 {
        return Ok(None);
    }
    let block = read(look, u64::from(at))?;
    Ok(Label::decode(&block).ok())
}

/// The place that a volume's own entry has for a VVBN, and `None` for a hole.
#[tactic(auto, using(crate::proofs::Looking::looks_on, crate::proofs::Looking::looks_not))]
fn entry_of<L: Look>(look: &mut L, label: &Label, vvbn: u64) -> Result<Option<u64>, Fault>
    ensures { Looks (L.shown look.old) (L.shown look.new) (fault_of result) }
{
    if vvbn >= u64::from(label.span) {
        return Ok(None);
    }
    let top = u64::from(label.container);
    let above = if label.height == 1 {
        top
    } else {
        child_of(look, top, vvbn / 65536)?
    };
    let leaf = child_of(look, above, vvbn / 256 % 256)?;
    if leaf == 0 {
        return Ok(None);
    }
    let block = read(look, leaf)?;
    Ok(place_in(&block, (vvbn % 256) as usize))
}

/// The place of a child of an inner node, and 0 where it is absent, or the node is, or hasn't its shape.
#[tactic(auto, using(crate::proofs::Looking::looks_on, crate::proofs::Looking::looks_not))]
fn child_of<L: Look>(look: &mut L, at: u64, child: u64) -> Result<u64, Fault>
    ensures { Looks (L.shown look.old) (L.shown look.new) (fault_of result) }
{
    if at == 0 || child >= 256 {
        return Ok(0);
    }
    let block = read(look, at)?;
    match ContainerInner::decode(&block) {
        Ok(node) => Ok(u64::from(node.children[child as usize])),
        Err(_) => Ok(0),
    }
}

/// The place that an entry below 256 of the leaf that a block spells has, and `None` for a hole, and where it spells none.
fn place_in(block: &[u8; 4096], entry: usize) -> Option<u64>
    requires { entry < 256 }
{
    let Ok(leaf) = ContainerLeaf::decode(block) else {
        return None;
    };
    if leaf.kinds[entry] == 0 {
        return None;
    }
    Some(u64::from(leaf.pvbns[entry]))
}
