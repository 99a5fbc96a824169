//! Words as bytes: bit `b` of a block is bit `b % 8` of byte `b / 8`, counted from the least.

ghost use Rattle.std.specs.Prelude.{◌≡◌, ℕ, ◌+◌, ◌*◌, ◌^◌, ◌<◌, ◌≤◌, length};
ghost use Rattle.fv_bits.specs.Stored.{HasBitsOf, IsWordOf, PutsBlock, PutsWord};

use crate::words;

/// Word `at` of a block.
fn word_of(block: &[u8; 4096], at: usize) -> u64
    requires { at < 512 }
    ensures { IsWordOf block.now at result }
{
    let mut bytes = [0; 8];
    bytes.copy_from_slice(&block[8 * at..8 * at + 8]);
    u64::from_le_bytes(bytes)
}

/// Puts word `at` into a block.
fn put_word(word: u64, at: usize, into: &mut [u8; 4096])
    requires { at < 512 }
    ensures { PutsWord into.old at word into.new }
{
    into[8 * at..8 * at + 8].copy_from_slice(&word.to_le_bytes());
}

/// Writes the bits of the words from `first` on as a block, with clear bits past the last word.
pub(crate) fn write(words: &[u64], first: usize, into: &mut [u8; 4096])
    requires { first < 2 ^ 42 }
    ensures len { length into.new ≡ 4096 }
    ensures bits { HasBitsOf words.now first into.new }
{
    for at in 0..512 {
        put_word(words::word_at(words, first + at), at, into);
    }
}

/// Reads a block as words.
pub(crate) fn read(block: &[u8; 4096]) -> [u64; 512]
    ensures len { length result ≡ 512 }
    ensures bits { HasBitsOf result 0 block.now }
{
    let mut words = [0; 512];
    for at in 0..512 {
        words[at] = word_of(block, at);
    }
    words
}

/// Puts the words of a block over those from `first` on, as far as there are so many.
pub(crate) fn put(words: &mut [u64], first: usize, block: &[u64; 512])
    requires { first < 2 ^ 42 }
    ensures { PutsBlock words.old first block.now words.new }
{
    for at in 0..512 {
        if first + at < words.len() {
            words[first + at] = block[at];
        }
    }
}
