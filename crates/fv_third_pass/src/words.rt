//! The blocks that places and entries tell of.

ghost use Rattle.std.specs.Prelude.{◌≡◌, ◌++◌, ℕ, List, flat_map, get_or, length, OnOk};
ghost use Rattle.fv_image.specs.Views.{entry_count};
ghost use Rattle.fv_third_pass.specs.Tallied.{Tallies};
ghost use Rattle.fv_third_pass.specs.Nodes.{at_places};
ghost use Rattle.fv_third_pass.specs.Words.{at_place, at_word, in_row};

use crate::holders::Holders;
use crate::sizes::entry_count;
use std::alloc::AllocError;

/// What one kind counts in the word of an entry.
pub(crate) const KIND: u32 = 16_777_216;

/// Counts the block of a place; 0 is no place.
#[tactic(auto, using(crate::proofs::Blocks::no_place, crate::proofs::Blocks::some_place))]
pub(crate) fn hold_place(holders: &mut Holders, place: u32) -> Result<(), AllocError>
    ensures size { length holders.new.held ≡ length holders.old.held }
    ensures tallies { (list : List ℕ) → Tallies list holders.old → OnOk result (Tallies (list ++ at_place place) holders.new) }
{
    if place == 0 {
        return Ok(());
    }
    holders.hold(place)
}

/// Counts the blocks of places, of which 0 is none.
#[tactic(auto, using(crate::proofs::Blocks::places_next, crate::proofs::Blocks::places_all))]
pub(crate) fn hold_places(holders: &mut Holders, places: &[u32]) -> Result<(), AllocError>
    ensures size { length holders.new.held ≡ length holders.old.held }
    ensures tallies { (list : List ℕ) → Tallies list holders.old → OnOk result (Tallies (list ++ at_places places.now) holders.new) }
{
    for k in 0..places.len() {
        hold_place(holders, places[k])?;
    }
    Ok(())
}

/// Counts the block of an entry by its word.
#[tactic(auto, using(crate::proofs::Blocks::no_word, crate::proofs::Blocks::some_word))]
fn hold_word(holders: &mut Holders, word: u32) -> Result<(), AllocError>
    ensures size { length holders.new.held ≡ length holders.old.held }
    ensures tallies { (list : List ℕ) → Tallies list holders.old → OnOk result (Tallies (list ++ at_word word) holders.new) }
{
    if word / KIND == 0 {
        return Ok(());
    }
    holders.hold(word % KIND)
}

/// A word of a row; past its end it is 0.
pub(crate) fn word_in(row: &[u32], at: usize) -> u32
    ensures { result ≡ get_or row.now at 0 }
{
    if at < row.len() { row[at] } else { 0 }
}

/// Counts the blocks of the entries of a volume of this span.
pub(crate) fn hold_row(holders: &mut Holders, row: &[u32], span: u32) -> Result<(), AllocError>
    ensures size { length holders.new.held ≡ length holders.old.held }
    ensures tallies { (list : List ℕ) → Tallies list holders.old
        → OnOk result (Tallies (list ++ in_row row.now (entry_count span)) holders.new) }
{
    for vvbn in 0..entry_count(span) {
        hold_word(holders, word_in(row, vvbn))?;
    }
    Ok(())
}
