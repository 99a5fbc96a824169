//! Where a VVBN is found by the entries that the first pass read.

ghost use Rattle.std.specs.Prelude.{◌≡◌, ◌<◌, ℕ, get_or, None};
ghost use Rattle.std.specs.Option.{option_map};
ghost use Rattle.fv_disk.specs.Shown.{Image};
ghost use Rattle.fv_image.specs.NewerRoot.{Taken};
ghost use Rattle.fv_image.specs.Chains.{along, place, span_at};
ghost use Rattle.fv_image.specs.Held.{layout_at};
ghost use Rattle.fv_first_pass.specs.Passed.{Spells, spelled, word_in};
ghost use Rattle.fv_walk.specs.Sources.{found_of};
ghost use Rattle.fv_second_pass.specs.Told.{IsKnown};

use fv_first_pass::{Known, parent_from};
use fv_walk::Found;

/// What one kind counts in the word of an entry.
const KIND: u32 = 16_777_216;

/// The word of a VVBN's own entry in the container of a slot: its kind times 2^24 and its place, and 0 for a hole. Costs one step.
pub fn entry_word(known: &Known, slot: u8, vvbn: u64) -> u32
    ensures { result ≡ word_in (get_or known.now.rows.items slot None) vvbn }
{
    let at = usize::from(slot);
    if at >= known.rows.len() {
        return 0;
    }
    match &known.rows[at] {
        Some(row) => word_at(row, vvbn),
        None => 0,
    }
}

/// The word of a VVBN in a row of entries.
fn word_at(row: &[u32], vvbn: u64) -> u32
    ensures { result ≡ get_or row.now vvbn 0 }
{
    let at = vvbn as usize;
    if at < row.len() { row[at] } else { 0 }
}

/// The word of the first entry for a VVBN that isn't a hole, along the volume of a slot and its parents; 0 where there is none. Costs a
/// step for each of them, at most 64.
fn word_along(known: &Known, slot: u8, vvbn: u64) -> u32
    ensures { (t : Taken) (i : Image) → Spells t i known.now.labels.items known.now.rows.items → IsKnown known.now → slot < 64
        → spelled i result ≡ along (layout_at t i).view 64 slot vvbn }
{
    let mut at = slot;
    for _ in 0..64_usize {
        let word = entry_word(known, at, vvbn);
        if word >= KIND {
            return word;
        }
        let Some(parent) = parent_from(&known.labels, at) else {
            return 0;
        };
        at = parent;
    }
    0
}

/// The word of the entry at which a VVBN is found, in the volume of a slot with a span; 0 where it is found nowhere. Behind the span only
/// the volume's own entry counts.
pub(crate) fn word_of(known: &Known, slot: u8, span: u32, vvbn: u64) -> u32
    ensures { (t : Taken) (i : Image) → Spells t i known.now.labels.items known.now.rows.items → IsKnown known.now → slot < 64
        → span ≡ span_at (layout_at t i).view slot → spelled i result ≡ place (layout_at t i).view slot vvbn }
{
    if vvbn < u64::from(span) {
        word_along(known, slot, vvbn)
    } else {
        entry_word(known, slot, vvbn)
    }
}

/// Where an entry leads by its word.
pub(crate) fn found_in(word: u32) -> Option<Found>
    ensures { (i : Image) → result ≡ option_map found_of (spelled i word) }
{
    if word < KIND {
        return None;
    }
    Some(Found {
        pvbn: u64::from(word % KIND),
        kind: (word / KIND) as u8,
    })
}
