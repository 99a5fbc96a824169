//! The volumes, as text: their numbers, snapshots and files.

ghost use Rattle.fv_dump.specs.Looking.{Looks, fault_of};

use crate::ending::Fault;
use crate::files::{Table, tell_files};
use crate::look::Look;
use crate::taken::Taken;
use crate::text::{Text, give, name_in};
use crate::volume::{Volume, read_volume};
use fv_codec::{Label, Pointer, SLOTS, SnapRecord};
use std::alloc::Global;

/// Tells of each volume of a root.
#[tactic(auto, using(crate::proofs::Looking::looks_on, crate::proofs::Looking::looks_not))]
pub(crate) fn tell_volumes<L: Look>(
    alloc: Global,
    look: &mut L,
    text: &mut Text,
    taken: &Taken,
) -> Result<(), Fault>
    ensures { Looks (L.shown look.old) (L.shown look.new) (fault_of result) }
{
    for slot in 0..SLOTS {
        if let Some(volume) = read_volume(look, text, taken, slot)? {
            tell_volume(alloc, look, text, taken, &volume)?;
        }
    }
    give(look, text)
}

/// Tells of a volume: the fields of its label, a line each, its files, and each snapshot with its files.
#[tactic(auto, using(crate::proofs::Looking::looks_on, crate::proofs::Looking::looks_not))]
fn tell_volume<L: Look>(
    alloc: Global,
    look: &mut L,
    text: &mut Text,
    taken: &Taken,
    volume: &Volume,
) -> Result<(), Fault>
    ensures { Looks (L.shown look.old) (L.shown look.new) (fault_of result) }
{
    tell_label(text, volume);
    give(look, text)?;
    tell_files(alloc, look, text, taken, volume, &active_of(&volume.label))?;
    for map in 1..25u8 {
        let snap = &volume.label.snapshots[usize::from(map - 1)];
        if snap.name_length != 0 {
            tell_snapshot(text, volume, map, snap);
            tell_files(alloc, look, text, taken, volume, &table_of(map, snap))?;
        }
    }
    Ok(())
}

/// The active table.
fn active_of(label: &Label) -> Table {
    Table {
        map: 0,
        levels: label.levels,
        root: label.root,
    }
}

/// The table of the snapshot in a map slot.
fn table_of(map: u8, snap: &SnapRecord) -> Table {
    Table {
        map,
        levels: snap.levels,
        root: snap.root,
    }
}

/// Begins a line on a volume.
pub(crate) fn begin(text: &mut Text, volume: &Volume) {
    text.add_named(b"volume", u64::from(volume.slot));
    text.add(b" ");
}

fn tell_number(text: &mut Text, volume: &Volume, word: &[u8], number: u64) {
    begin(text, volume);
    text.add_named(word, number);
    text.add(b"\n");
}

fn tell_word(text: &mut Text, volume: &Volume, word: &[u8], told: &[u8]) {
    begin(text, volume);
    text.add(word);
    text.add(b" ");
    text.add(told);
    text.add(b"\n");
}

fn tell_label(text: &mut Text, volume: &Volume) {
    let label = &volume.label;
    tell_number(text, volume, b"label", volume.at);
    tell_word(text, volume, b"name", volume.name());
    tell_word(text, volume, b"kind", kind_word(label.kind));
    tell_number(text, volume, b"size", u64::from(label.size));
    tell_number(text, volume, b"most", u64::from(label.most));
    tell_number(text, volume, b"span", u64::from(label.span));
    tell_number(text, volume, b"now", label.now);
    tell_base(text, volume, label);
    tell_number(text, volume, b"known", u64::from(label.known));
    tell_number(text, volume, b"container", u64::from(label.container));
    tell_number(text, volume, b"height", u64::from(label.height));
    tell_number(text, volume, b"levels", u64::from(label.levels));
    begin(text, volume);
    tell_root(text, &label.root);
}

fn tell_base(text: &mut Text, volume: &Volume, label: &Label) {
    tell_number(text, volume, b"parent", u64::from(label.parent));
    tell_number(text, volume, b"base", u64::from(label.base_slot));
    tell_number(text, volume, b"splitting", u64::from(label.splitting));
}

fn tell_root(text: &mut Text, root: &Pointer) {
    text.add(b"root ");
    text.add_pointer(root);
    text.add(b"\n");
}

/// The word for a kind of space guarantee, 0 to 2.
fn kind_word(kind: u8) -> &'static [u8] {
    match kind {
        0 => b"volume",
        1 => b"file",
        _ => b"none",
    }
}

fn tell_snapshot(text: &mut Text, volume: &Volume, map: u8, snap: &SnapRecord) {
    begin(text, volume);
    text.add_named(b"snapshot", u64::from(map));
    text.add(b" ");
    text.add(name_in(&snap.name, snap.name_length));
    text.add_named(b" levels", u64::from(snap.levels));
    text.add(b" ");
    tell_root(text, &snap.root);
}
