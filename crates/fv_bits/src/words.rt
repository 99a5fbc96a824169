//! The words of a bit map in a row: bit `b` stands in word `b / 64`.

ghost use Rattle.std.specs.Prelude.{◌≡◌, ◌≢◌, ℕ, ◌+◌, ◌-◌, ◌*◌, ◌/◌, ◌%◌, ◌^◌, ◌<◌, ◌≤◌, true, false, length, slice_index, max, IfSome, IfNone, sum_by, count_ones, count_by};
ghost use Rattle.std.specs.List.{range_with_len};
ghost use Rattle.fv_bits.specs.Stored.{bit_of_words, is_apart, IsApart, IsFirst, PutsBitOf, Unites, AreAll, AreClearFrom};

use crate::word;

/// The word at this place; past the end there are no bits.
pub(crate) fn word_at(words: &[u64], at: usize) -> u64
    ensures { result ≡ slice_index words.now at }
{
    if at < words.len() { words[at] } else { 0 }
}

/// Whether bit `b` is set.
#[tactic(auto, unfolding(crate::specs::Stored::bit_of_words))]
pub(crate) fn get(words: &[u64], b: u32) -> bool
    ensures { result ≡ bit_of_words words.now b }
{
    word::is_set(word_at(words, (b / 64) as usize), b % 64)
}

/// Sets bit `b`.
#[tactic(auto, using(crate::proofs::Rows::put_word_bit))]
pub(crate) fn set(words: &mut [u64], b: u32)
    requires { b < 64 * length words.old }
    ensures { PutsBitOf words.old b true words.new }
{
    words[(b / 64) as usize] = word::with_bit(words[(b / 64) as usize], b % 64);
}

/// Clears bit `b`.
#[tactic(auto, using(crate::proofs::Rows::put_word_bit))]
pub(crate) fn clear(words: &mut [u64], b: u32)
    requires { b < 64 * length words.old }
    ensures { PutsBitOf words.old b false words.new }
{
    words[(b / 64) as usize] = word::without_bit(words[(b / 64) as usize], b % 64);
}

/// Sets each bit that is set in `others`, word by word.
#[tactic(auto, using(crate::proofs::Rows::unite_words))]
pub(crate) fn unite(words: &mut [u64], others: &[u64])
    requires { length others.now ≡ length words.old }
    ensures { Unites words.old others.now words.new }
{
    for at in 0..words.len() {
        words[at] |= others[at];
    }
}

/// Takes each of these words in place of what was there.
pub(crate) fn copy(words: &mut [u64], others: &[u64])
    requires { length others.now ≡ length words.old }
    ensures { words.new ≡ others.now }
{
    words.copy_from_slice(others);
}

/// How many bits of these words are set.
pub(crate) fn ones(words: &[u64]) -> u64
    requires { length words.now < 2 ^ 40 }
    ensures value { result ≡ sum_by count_ones words.now }
    ensures bound { result ≤ 64 * length words.now }
{
    let mut total = 0;
    for word in words {
        total += word.count_ones() as u64;
    }
    total
}

/// How many bits are set from `from` up to `to`, without `to`. Each word in between is read
/// once, and the words of the two ends once more.
#[tactic(auto, using(crate::proofs::Counts::count_by_words, crate::proofs::Counts::passing_le))]
pub(crate) fn count_between(words: &[u64], from: u32, to: u32) -> u32
    requires ordered { from ≤ to }
    requires within { to ≤ 64 * length words.now }
    ensures { result ≡ count_by (bit_of_words words.now) (range_with_len from (to - from)) }
{
    let first = (from / 64) as usize;
    let last = (to / 64) as usize;
    let whole = ones(&words[first..last]);
    let above = word::low_bits(word_at(words, last), to % 64).count_ones();
    let below = word::low_bits(word_at(words, first), from % 64).count_ones();
    (whole + above as u64 - below as u64) as u32
}

/// The bits of the word at this place that are clear in the word of another row there.
#[tactic(auto, using(crate::proofs::Apart::apart_word))]
fn apart_at(words: &[u64], others: &[u64], at: usize) -> u64
    ensures { IsApart words.now others.now at result }
{
    word_at(words, at) & !word_at(others, at)
}

/// How many bits of the words from `first` up to `last`, without `last`, are set and clear in another row.
fn ones_apart(words: &[u64], others: &[u64], first: usize, last: usize) -> u64
    requires ordered { first ≤ last }
    requires few { last < 2 ^ 40 }
    ensures { result ≡ count_by (is_apart words.now others.now) (range_with_len (64 * first) (64 * (last - first))) }
{
    let mut total = 0;
    for at in first..last {
        total += apart_at(words, others, at).count_ones() as u64;
    }
    total
}

/// How many bits are set from `from` up to `to`, without `to`, that are clear in another row. Each word in
/// between is read once, and the words of the two ends once more.
#[tactic(auto, using(crate::proofs::Apart::apart_by_words, crate::proofs::Counts::passing_le))]
pub(crate) fn count_apart(words: &[u64], others: &[u64], from: u32, to: u32) -> u32
    requires { from ≤ to }
    ensures { result ≡ count_by (is_apart words.now others.now) (range_with_len from (to - from)) }
{
    let first = (from / 64) as usize;
    let last = (to / 64) as usize;
    let whole = ones_apart(words, others, first, last);
    let above = word::low_bits(apart_at(words, others, last), to % 64).count_ones();
    let below = word::low_bits(apart_at(words, others, first), from % 64).count_ones();
    (whole + above as u64 - below as u64) as u32
}

/// The first place from `from` on whose word isn't `skipped`, or a place past the end.
fn first_other(words: &[u64], from: usize, skipped: u64) -> usize
    ensures after { from ≤ result }
    ensures within { result ≤ max from (length words.now) }
    ensures skips { AreAll words.now skipped from result }
    ensures other { result < length words.now → slice_index words.now result ≢ skipped }
{
    let mut at = from;
    while at < words.len() && words[at] == skipped {
        at += 1;
    }
    at
}

/// The first bit from `from` on that is clear; past the end all are.
pub(crate) fn first_clear(words: &[u64], from: u32) -> u64
    requires { length words.now < 2 ^ 40 }
    ensures { IsFirst words.now false from result }
{
    let start = (from / 64) as usize;
    let head = word::first_clear(word_at(words, start), from % 64);
    if head < 64 {
        return start as u64 * 64 + head as u64;
    }
    let next = first_other(words, start + 1, u64::MAX);
    next as u64 * 64 + word::first_clear(word_at(words, next), 0) as u64
}

/// The first bit from `from` on that is set.
pub(crate) fn first_set(words: &[u64], from: u32) -> Option<u64>
    requires { length words.now < 2 ^ 40 }
    ensures none { IfNone result (AreClearFrom words.now from) }
    ensures first { IfSome result (IsFirst words.now true from) }
{
    let start = (from / 64) as usize;
    let head = word::first_set(word_at(words, start), from % 64);
    if head < 64 {
        return Some(start as u64 * 64 + head as u64);
    }
    let next = first_other(words, start + 1, 0);
    if next >= words.len() {
        return None;
    }
    Some(next as u64 * 64 + word::first_set(word_at(words, next), 0) as u64)
}
