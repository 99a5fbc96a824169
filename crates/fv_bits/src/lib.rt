//! Bit maps: sets of numbers below a length, a bit for each number, as they stand in the blocks of an
//! aggregate.
//!
//! A map is kept in words of 64 bits, and each call goes by words. `specs/Bits.antt` says which bit of
//! a block stands for which number, `specs/Members.antt` what each call does to the set, and
//! `proofs/Laws.antt` has the laws that callers need.
#![tactic(auto)]

mod block;
mod map;
mod word;
mod words;

pub use map::BitMap;
