//! The bit map itself.

ghost use Rattle.std.specs.Prelude.{◌≡◌, ℕ, ◌*◌, ◌^◌, ◌<◌, ◌≤◌, true, false, length, replicate, slice_set, count_by, IfOk, IfSome, IfNone, OnSome};
ghost use Rattle.fv_bits.specs.Bits.{block_bits};
ghost use Rattle.fv_bits.specs.Members.{HasNoneFrom, IsBlockOf, IsFirstFree, IsFirstMember, IsFirstPast, IsFullFrom, IsUnion, TakesBlock, apart_between, count_between, count_of, is_member};
ghost use Rattle.fv_bits.specs.Stored.{AreClearFrom, AreSet, HasNoneAbove, IsFirst, IsFirstAbove, IsStored, bit_of_words};
ghost use Rattle.std.specs.List.{range_with_len};

use crate::{block, words};
use std::alloc::{AllocError, Global};
use std::marker::Model;

/// A set of numbers below a length, one bit for each number.
///
/// Contracts see the list that says for each number below the length whether it is a member. All
/// calls but `new` take no memory.
#[derive(Debug, Drop)]
pub struct BitMap {
    len: u32,
    words: Vec<u64>,
}

impl Model for BitMap {
    ghost use Rattle.std.specs.Prelude.{Bool, List};
    ghost use Rattle.fv_bits.specs.Stored.{IsStored, map_of};

    ghost Value = { List Bool };

    ghost view = { λ map. map_of map.len map.words.items };

    ghost invariant = { λ map. IsStored map.len map.words.items };
}

impl BitMap {
    /// The empty set of numbers below `len`. The one error is want of memory. Costs a bit for each
    /// number.
    pub fn new(alloc: Global, len: u32) -> Result<BitMap, AllocError>
        ensures empty { IfOk result (λ map. map ≡ replicate len false) }
    {
        let words = vec![in alloc; 0; (len as usize).div_ceil(64)]?;
        Ok(BitMap { len, words })
    }

    /// The length, which every member is below. Costs one step.
    #[tactic(auto, using(crate::proofs::Seen::length_seen))]
    pub fn len(&self) -> u32
        ensures { result ≡ length self.now }
    {
        self.len
    }

    /// Whether `i`, which is below the length, is a member. Costs one step.
    #[tactic(auto, using(crate::proofs::Seen::member_seen, crate::proofs::Seen::within_seen))]
    pub fn get(&self, i: u32) -> bool
        requires { i < length self.now }
        ensures { result ≡ is_member self.now i }
    {
        words::get(&self.words, i)
    }

    /// Makes `i`, which is below the length, a member. Costs one step.
    #[tactic(auto, using(crate::proofs::Seen::put_seen, crate::proofs::Seen::put_stored_seen, crate::proofs::Seen::within_seen, std::proofs::lemmas::List::with_items_is))]
    pub fn set(&mut self, i: u32)
        requires { i < length self.old }
        ensures { self.new ≡ slice_set self.old i true }
    {
        words::set(&mut self.words, i);
    }

    /// Takes `i`, which is below the length, out of the set. Costs one step.
    #[tactic(auto, using(crate::proofs::Seen::put_seen, crate::proofs::Seen::put_stored_seen, crate::proofs::Seen::within_seen, std::proofs::lemmas::List::with_items_is))]
    pub fn clear(&mut self, i: u32)
        requires { i < length self.old }
        ensures { self.new ≡ slice_set self.old i false }
    {
        words::clear(&mut self.words, i);
    }

    /// The least number from `from` on that is no member, and `None` exactly where there is none below
    /// the length. `from` is at most the length. Costs a step for each word of 64 numbers that is passed
    /// over, which is read once.
    #[tactic(auto, using(crate::proofs::Seen::full_seen, crate::proofs::Seen::found_seen))]
    pub fn first_free(&self, from: u32) -> Option<u32>
        requires { from ≤ length self.now }
        ensures none { IfNone result (IsFullFrom self.now from) }
        ensures first { IfSome result (IsFirstFree self.now from) }
    {
        first_free(&self.words, self.len, from)
    }

    /// The least member from `from` on, and `None` exactly where there is none. Costs a step for each word of 64
    /// numbers that is passed over, which is read once.
    #[tactic(auto, using(crate::proofs::Seen::none_seen, crate::proofs::Seen::first_seen, crate::proofs::Seen::stored_seen))]
    pub fn first_member(&self, from: u32) -> Option<u32>
        ensures none { IfNone result (HasNoneFrom self.now from) }
        ensures first { IfSome result (IsFirstMember self.now from) }
    {
        first_member(&self.words, self.len, from)
    }

    /// How many members there are. Costs a step for each word of 64 numbers, which is read once.
    #[tactic(auto, using(crate::proofs::Seen::count_all_seen, crate::proofs::Seen::stored_seen))]
    pub fn count(&self) -> u32
        ensures { result ≡ count_of self.now }
    {
        count(&self.words, self.len)
    }

    /// How many members there are from `from` up to `to`, without `to`, where `from` is at most `to` and
    /// `to` at most the length. Costs a step for each word of 64 numbers in between.
    #[tactic(auto, using(crate::proofs::Seen::count_seen, crate::proofs::Seen::within_seen))]
    pub fn count_range(&self, from: u32, to: u32) -> u32
        requires ordered { from ≤ to }
        requires within { to ≤ length self.now }
        ensures { result ≡ count_between self.now from to }
    {
        words::count_between(&self.words, from, to)
    }

    /// How many members there are from `from` up to `to`, without `to`, that are no members of `other`, which may
    /// have another length: from its end on it has no member. `from` is at most `to`. Costs a step for each word
    /// of 64 numbers in between.
    #[tactic(auto, using(crate::proofs::Seen::apart_seen))]
    pub fn count_apart(&self, other: &BitMap, from: u32, to: u32) -> u32
        requires { from ≤ to }
        ensures { result ≡ apart_between self.now other.now from to }
    {
        words::count_apart(&self.words, &other.words, from, to)
    }

    /// Makes each member of `other`, which has the same length, a member of this map. Costs a step for
    /// each word of 64 numbers.
    #[tactic(auto, using(crate::proofs::Seen::unite_seen, crate::proofs::Seen::unite_stored_seen, crate::proofs::Seen::words_seen, std::proofs::lemmas::List::with_items_is))]
    pub fn or(&mut self, other: &BitMap)
        requires { length other.now ≡ length self.old }
        ensures { IsUnion self.new self.old other.now }
    {
        words::unite(&mut self.words, &other.words);
    }

    /// Makes this map equal to `other`, which has the same length. Costs a step for each word of 64
    /// numbers.
    #[tactic(auto, using(crate::proofs::Seen::copy_seen, crate::proofs::Seen::copy_stored_seen, crate::proofs::Seen::words_seen, std::proofs::lemmas::List::with_items_is))]
    pub fn copy_from(&mut self, other: &BitMap)
        requires { length other.now ≡ length self.old }
        ensures { self.new ≡ other.now }
    {
        words::copy(&mut self.words, &other.words);
    }

    /// Writes block `index` of the map, the 32,768 numbers from `32768 * index` on: bit `b` is bit
    /// `b % 8` of byte `b / 8`, counted from the least, and past the length the bits are clear. Some
    /// number of the block is below the length. Costs a step for each word of 64 numbers.
    #[tactic(auto, using(crate::proofs::Seen::block_seen))]
    pub fn to_block(&self, index: u32, into: &mut [u8; 4096])
        requires { block_bits * index < length self.now }
        ensures { IsBlockOf self.now index into.new }
    {
        block::write(&self.words, 512 * index as usize, into);
    }

    /// Takes the bits of block `index` in place of those that are there, and answers `None`. Where a bit
    /// past the length is set, nothing changes, and the first such number is answered. Some number of
    /// the block is below the length. Costs a step for each word of 64 numbers.
    #[tactic(auto, using(crate::proofs::Seen::length_seen, crate::proofs::Seen::past_seen, crate::proofs::Seen::block_stored_seen, crate::proofs::Seen::block_taken_seen, std::proofs::lemmas::List::with_items_is))]
    pub fn from_block(&mut self, index: u32, block: &[u8; 4096]) -> Option<u32>
        requires { block_bits * index < length self.old }
        ensures taken { IfNone result (TakesBlock self.old self.new index block.now) }
        ensures past { IfSome result (IsFirstPast (length self.old) index block.now) }
        ensures unchanged { OnSome result (self.new ≡ self.old) }
    {
        let read = block::read(block);
        if let Some(number) = first_past(&read, index, self.len) {
            return Some(number);
        }
        block::put(&mut self.words, 512 * index as usize, &read);
        None
    }
}

/// The first clear bit from `from` on that is below the length.
fn first_free(words: &[u64], len: u32, from: u32) -> Option<u32>
    requires { length words.now < 2 ^ 40 }
    ensures none { IfNone result (AreSet words.now from len) }
    ensures first { IfSome result (IsFirst words.now false from) }
    ensures within { IfSome result (λ at. at < len) }
{
    let at = words::first_clear(words, from);
    if at < len as u64 {
        Some(at as u32)
    } else {
        None
    }
}

/// The first set bit from `from` on.
#[tactic(auto, using(crate::proofs::Maps::set_below))]
fn first_member(words: &[u64], len: u32, from: u32) -> Option<u32>
    requires { IsStored len words.now }
    ensures none { IfNone result (AreClearFrom words.now from) }
    ensures first { IfSome result (IsFirst words.now true from) }
{
    let at = words::first_set(words, from)?;
    Some(at as u32)
}

/// The first number past the length whose bit is set in block `index`, which has these words.
fn first_past(read: &[u64; 512], index: u32, len: u32) -> Option<u32>
    requires { block_bits * index < len }
    ensures none { IfNone result (HasNoneAbove read.now index len) }
    ensures first { IfSome result (IsFirstAbove read.now index len) }
{
    let start = index * 32768;
    let room = len - start;
    if room >= 32768 {
        return None;
    }
    let at = words::first_set(read, room)?;
    Some(start + at as u32)
}

/// How many bits are set in the words of a map of this length. Reads each word once.
fn count(words: &[u64], len: u32) -> u32
    requires { IsStored len words.now }
    ensures { result ≡ count_by (bit_of_words words.now) (range_with_len 0 len) }
{
    words::ones(words) as u32
}
