//! The entries of a volume's container, as text.

ghost use Rattle.fv_dump.specs.Looking.{Looks, fault_of};

use crate::container::Container;
use crate::ending::Fault;
use crate::held::{is_held, read_held};
use crate::loading::read_container;
use crate::look::Look;
use crate::taken::Taken;
use crate::text::{Text, give};
use crate::volume::{Volume, read_volume};
use fv_bits::BitMap;
use fv_codec::SLOTS;
use std::alloc::Global;

/// How many entries are given at once.
const PIECE: usize = 256;

/// Tells the entries of each volume with a name, in order of their VVBNs, without holes. Costs a block for each node of the container and
/// each block of a map.
#[tactic(auto, using(crate::proofs::Looking::looks_on, crate::proofs::Looking::looks_not))]
pub(crate) fn tell_entries<L: Look>(
    alloc: Global,
    look: &mut L,
    text: &mut Text,
    taken: &Taken,
    name: &[u8],
) -> Result<(), Fault>
    ensures { Looks (L.shown look.old) (L.shown look.new) (fault_of result) }
{
    let mut none = true;
    for slot in 0..SLOTS {
        if let Some(volume) = read_volume(look, text, taken, slot)? {
            if volume.name() == name {
                none = false;
                tell_container(alloc, look, text, taken, &volume)?;
            }
        }
    }
    if none {
        text.add(b"no volume of that name\n");
    }
    give(look, text)
}

#[tactic(auto, using(crate::proofs::Looking::looks_on, crate::proofs::Looking::looks_not))]
fn tell_container<L: Look>(
    alloc: Global,
    look: &mut L,
    text: &mut Text,
    taken: &Taken,
    volume: &Volume,
) -> Result<(), Fault>
    ensures { Looks (L.shown look.old) (L.shown look.new) (fault_of result) }
{
    let container = read_container(alloc, look, text, taken, volume)?;
    let held = read_held(alloc, look, volume, &container)?;
    give(look, text)?;
    for vvbn in 0..container.entries.len() {
        tell_entry(text, &container, &held, vvbn);
        if vvbn % PIECE == PIECE - 1 {
            give(look, text)?;
        }
    }
    give(look, text)
}

fn tell_entry(text: &mut Text, container: &Container, held: &BitMap, vvbn: usize) {
    let entry = container.entry(vvbn);
    if entry.kind == 0 {
        return;
    }
    text.add_named(b"entry", vvbn as u64);
    text.add_named(b" place", u64::from(entry.at));
    text.add_named(b" kind", u64::from(entry.kind));
    text.add(if is_held(held, vvbn) {
        b"\n"
    } else {
        b" delayed\n"
    });
}
