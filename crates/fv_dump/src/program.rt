//! The dump as one call over a host.

ghost use Rattle.std.specs.Prelude.{◌≡◌, ◌∷◌, [], ◌↔◌, map, string_bytes, false, Contains, IsTrue};
ghost use Rattle.fv_root.specs.Finding.{IsNoAggregate};
ghost use Rattle.fv_dump.specs.Looking.{Ends, Looks, Obeys, fault_of, raised_by};
ghost use Rattle.fv_dump.specs.Meaning.{has_meaning};

use crate::blocks::tell_blocks;
use crate::ending::Fault;
use crate::entries::tell_entries;
use crate::fixed::tell_fixed;
use crate::look::Look;
use crate::taken::{take_root, tell_taken};
use crate::text::{Text, give};
use crate::volumes::tell_volumes;
use std::alloc::Global;

/// Tells of the aggregate that a host's disk has, as the words of the command line after the file's name ask, and answers the status that
/// the program ends with.
///
/// Without a word it tells of the fixed blocks, and of each volume of the root that counts: the fields of its label, its snapshots and its
/// files. `blocks` tells a letter for each block, and `entries V` the entries of the container of volume V. What can't be decoded is told as
/// such, and the rest goes on.
///
/// The status is 0 where all was told, 2 where block 0 is no superblock or neither gate is open, 4 where the sink failed, 5 where the
/// disk failed, 6 for want of memory, and 7 where the words have no meaning. `docs/DUMP.md` tells of the lines.
#[tactic(auto, using(crate::proofs::Told::told_looks, crate::proofs::Told::told_shut, crate::proofs::Told::told_usage, crate::proofs::Told::told_done, crate::proofs::Told::done_looks))]
pub fn dump<L: Look>(alloc: Global, words: &[String], look: &mut L) -> u8
    ensures statuses { Contains (0 ∷ 2 ∷ 4 ∷ 5 ∷ 6 ∷ 7 ∷ []) result }
    ensures usage { (result ≡ 7) ↔ (has_meaning (map string_bytes words.now) ≡ false) }
    ensures untouched { has_meaning (map string_bytes words.now) ≡ false → look.new ≡ look.old }

    // Of a host that tells its content: 2 comes only where block 0 is no superblock or neither gate is open.
    ensures shut { result ≡ 2 → IsTrue (L.shown look.old).tells → IsNoAggregate (L.shown look.old).reads }

    // Nothing is written and nothing is taken. The disk's count of faults rose exactly at 5, and the sink's exactly at 4.
    ensures looks { Looks (L.shown look.old) (L.shown look.new) (raised_by result) }
{
    match obey(alloc, words, look) {
        Ok(()) => 0,
        Err(fault) => fault.status(),
    }
}

#[tactic(auto, unfolding(crate::specs::Meaning::has_meaning), using(crate::proofs::Looking::looks_not))]
fn obey<L: Look>(alloc: Global, words: &[String], look: &mut L) -> Result<(), Fault>
    ensures told { Obeys (has_meaning (map string_bytes words.now)) (L.shown look.old) (L.shown look.new) (fault_of result) }
    ensures untouched { has_meaning (map string_bytes words.now) ≡ false → look.new ≡ look.old }
{
    match words {
        [] => tell_all(alloc, look),
        [word] if word.as_str() == "blocks" => map_blocks(alloc, look),
        [word, name] if word.as_str() == "entries" => list_entries(alloc, look, name.as_bytes()),
        _ => Err(Fault::Usage),
    }
}

#[tactic(auto, using(crate::proofs::Told::looks_end, crate::proofs::Told::ends_on))]
fn tell_all<L: Look>(alloc: Global, look: &mut L) -> Result<(), Fault>
    ensures { Ends (L.shown look.old) (L.shown look.new) (fault_of result) }
{
    let mut text = Text::new(alloc);
    tell_fixed(look, &mut text)?;
    // A root without its shape is told among the fixed blocks already.
    let mut again = Text::new(alloc);
    let taken = take_root(look, &mut again)?;
    tell_taken(&mut text, &taken);
    match taken {
        Some(taken) => tell_volumes(alloc, look, &mut text, &taken),
        None => give(look, &mut text),
    }
}

#[tactic(auto, using(crate::proofs::Told::looks_end, crate::proofs::Told::ends_on))]
fn map_blocks<L: Look>(alloc: Global, look: &mut L) -> Result<(), Fault>
    ensures { Ends (L.shown look.old) (L.shown look.new) (fault_of result) }
{
    let mut text = Text::new(alloc);
    match take_root(look, &mut text)? {
        Some(taken) => tell_blocks(alloc, look, &mut text, &taken),
        None => give(look, &mut text),
    }
}

#[tactic(auto, using(crate::proofs::Told::looks_end, crate::proofs::Told::ends_on))]
fn list_entries<L: Look>(alloc: Global, look: &mut L, name: &[u8]) -> Result<(), Fault>
    ensures { Ends (L.shown look.old) (L.shown look.new) (fault_of result) }
{
    let mut text = Text::new(alloc);
    match take_root(look, &mut text)? {
        Some(taken) => tell_entries(alloc, look, &mut text, &taken, name),
        None => give(look, &mut text),
    }
}
