//! What one word says: a number, a kind, a table.

ghost use Rattle.std.specs.Prelude.{◌≡◌, ◌≤◌, ◌<◌, ◌+◌, ◌-◌, ◌^◌, bytes_eq, drop, fold, length, min};
ghost use Rattle.std.specs.Char.{is_ascii_digit};
ghost use Rattle.std.specs.List.{list_all};
ghost use Rattle.fv_model.specs.Words.{is_number, kind_of, table_of, value_of};
ghost use Rattle.fv_model.specs.Numbers.{is_size, is_reserve, is_index, is_step_count};
ghost use Rattle.fv_script.specs.CommandLine.{blocks_of};
ghost use Rattle.fv_script.specs.Parts.{before_at, held, in_range};

use crate::LineFault;
use fv_model::{Kind, Name, in_index, in_reserve, in_size, in_steps};

/// The most digits that a number on a command line has.
pub(crate) const MOST_DIGITS: usize = 20;

/// The least and the most blocks of an aggregate.
const LEAST: u32 = 512;

const MOST: u32 = 1_048_576;

/// The number of blocks that a word of a command line names: 1 to 20 decimal digits, from 512 to 1,048,576.
/// Every other word names none. It costs by the word's bytes and takes no memory.
#[tactic(auto, unfolding(crate::specs::CommandLine::blocks_of))]
pub fn read_blocks(word: &[u8]) -> Option<u32>
    ensures { result ≡ blocks_of word.now }
{
    if !is_number(word) || word.len() > MOST_DIGITS {
        return None;
    }
    let blocks = value(word);
    if LEAST <= blocks && blocks <= MOST {
        Some(blocks)
    } else {
        None
    }
}

/// Whether the word is one or more decimal digits.
pub fn is_number(word: &[u8]) -> bool
    ensures { result ≡ is_number word.now }
{
    1 <= word.len() && has_digits_alone(word)
}

fn has_digits_alone(word: &[u8]) -> bool
    ensures { result ≡ list_all is_ascii_digit word.now }
{
    word.iter().all(|b| b.is_ascii_digit())
}

/// The value of decimal digits, or the greatest `u32` where it is greater, which no range of these reaches.
fn value(digits: &[u8]) -> u32
    ensures { result ≡ min (value_of digits.now) (2 ^ 32 - 1) }
{
    let value = wide_value(digits);
    if value <= u128::from(u32::MAX) {
        value as u32
    } else {
        u32::MAX
    }
}

/// The value of decimal digits, or the greatest `u128` where it is greater, which no range reaches.
#[tactic(auto, using(crate::proofs::Held::value_held))]
pub(crate) fn wide_value(digits: &[u8]) -> u128
    ensures { result ≡ min (value_of digits.now) (2 ^ 128 - 1) }
{
    held_value(digits)
}

fn held_value(digits: &[u8]) -> u128
    ensures { result ≡ fold held 0 digits.now }
{
    digits.iter().fold(0, |value, digit| held(value, *digit))
}

/// The value with one more digit.
fn held(value: u128, digit: u8) -> u128
    ensures { result ≡ held value digit }
{
    value
        .saturating_mul(10)
        .saturating_add(u128::from(digit.saturating_sub(b'0')))
}

/// The value of decimal digits where it is in a range.
macro_rules! ranged {
    ($digits:ident, $within:ident) => {{
        let value = value($digits);
        if $within(u64::from(value)) {
            Ok(value)
        } else {
            Err(LineFault::Range)
        }
    }};
}

/// The size of a volume in blocks.
pub fn size(digits: &[u8]) -> Result<u32, LineFault>
    ensures { result ≡ in_range (is_size (value_of digits.now)) (value_of digits.now) }
{
    ranged!(digits, in_size)
}

/// The reserve or the length of a file in blocks.
pub fn blocks(digits: &[u8]) -> Result<u32, LineFault>
    ensures { result ≡ in_range (is_reserve (value_of digits.now)) (value_of digits.now) }
{
    ranged!(digits, in_reserve)
}

/// The index of a cell.
pub fn index(digits: &[u8]) -> Result<u32, LineFault>
    ensures { result ≡ in_range (is_index (value_of digits.now)) (value_of digits.now) }
{
    ranged!(digits, in_index)
}

/// The kind that the word names.
#[tactic(auto, unfolding(fv_model::specs::Words::kind_of))]
pub fn kind_of(word: &[u8]) -> Option<Kind>
    ensures { result ≡ kind_of word.now }
{
    if is(word, b"volume") {
        Some(Kind::Volume)
    } else if is(word, b"file") {
        Some(Kind::File)
    } else if is(word, b"none") {
        Some(Kind::Thin)
    } else {
        None
    }
}

/// The volume, or the volume and its snapshot with `@` between, that the word names.
#[tactic(auto, using(crate::proofs::Ats::table_cut, crate::proofs::Ats::table_pair, crate::proofs::Ats::table_alone))]
pub fn table_of(word: &[u8]) -> Option<(Name, Option<Name>)>
    ensures { result ≡ table_of word.now }
{
    let at = before_at(word);
    let volume = Name::read(&word[..at])?;
    if at == word.len() {
        return Some((volume, None));
    }
    let snapshot = Name::read(behind(word, at))?;
    Some((volume, Some(snapshot)))
}

/// What stands behind the byte at a place.
fn behind(word: &[u8], at: usize) -> &[u8]
    requires { at < length word.now }
    ensures { result.now ≡ drop (at + 1) word.now }
{
    &word[at + 1..]
}

/// How many bytes stand before the first `@`.
#[tactic(auto, using(crate::proofs::Ats::at_within))]
fn before_at(word: &[u8]) -> usize
    ensures value { result ≡ before_at word.now }
    ensures within { result ≤ length word.now }
{
    word.iter().take_while(|b| **b != b'@').count()
}

/// A number of background steps.
pub fn steps(digits: &[u8]) -> Result<u32, LineFault>
    ensures { result ≡ in_range (is_step_count (value_of digits.now)) (value_of digits.now) }
{
    ranged!(digits, in_steps)
}

/// Whether the word is this text.
pub fn is(word: &[u8], text: &[u8]) -> bool
    ensures { result ≡ bytes_eq word.now text.now }
{
    word == text
}
