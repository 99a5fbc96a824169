//! Blocks of a disk, by their places and words.

use crate::cause::{Cause, because};
use crate::lines::{add_pairs, gaps, hexadecimal, number};
use fv_aggregate::{OpenFault, Session};
use fv_disk::{Block, Disk};
use fv_memdisk::MemHost;
use std::alloc::Global;

/// A block as a disk reads it; zeros where the read failed.
pub fn block_at(host: &mut MemHost, at: u64) -> Block {
    let mut block = [0; 4096];
    match host.read(at, &mut block) {
        Ok(()) => block,
        Err(_) => [0; 4096],
    }
}

/// A word of eight bytes of a block, from its most significant byte on; 0 past the block.
pub fn word_in(block: &Block, word: u64) -> u64 {
    match block.chunks(8).nth(word as usize) {
        Some([a, b, c, d, e, f, g, h]) => { u64::from_be_bytes([*a, *b, *c, *d, *e, *f, *g, *h]) }
        _ => 0,
    }
}

/// The number of a block: `4:8` is the block that word 8 of block 4 names.
fn block_of(host: &mut MemHost, place: &str) -> Result<u64, Cause> {
    let mut words = place.split(':');
    let mut at = number(words.next().unwrap_or(""))?;
    for word in words {
        at = word_in(&block_at(host, at), number(word)?);
    }
    Ok(at)
}

/// A block becomes zeros.
pub fn zero(host: &mut MemHost, text: &str) -> Result<(), Cause> {
    let (place, _, _) = gaps(text, "block 1")?;
    let at = block_of(host, place)?;
    let _ = host.write(at, &[0; 4096]);
    Ok(())
}

/// A block is written over another.
pub fn copy(host: &mut MemHost, text: &str) -> Result<(), Cause> {
    let (from, to, _) = gaps(text, "block 1 to 2")?;
    let from = block_of(host, from)?;
    let to = block_of(host, to)?;
    let block = block_at(host, from);
    let _ = host.write(to, &block);
    Ok(())
}

/// Writes bytes into a block, from an offset on.
fn patch(host: &mut MemHost, at: u64, offset: u64, bytes: &[u8]) {
    let mut block = block_at(host, at);
    for (into, byte) in block.iter_mut().skip(offset as usize).zip(bytes) {
        *into = *byte;
    }
    let _ = host.write(at, &block);
}

/// A word of a block becomes another.
pub fn set(host: &mut MemHost, text: &str) -> Result<(), Cause> {
    let (place, word, value) = gaps(text, "block 1 word 2 to 3")?;
    let at = block_of(host, place)?;
    let bytes = hexadecimal(value)?.to_be_bytes();
    patch(host, at, number(word)?.saturating_mul(8), &bytes);
    Ok(())
}

/// Bytes of a block become those that hexadecimal digits say.
pub fn lay(alloc: Global, host: &mut MemHost, text: &str) -> Result<(), Cause> {
    let (place, offset, digits) = gaps(text, "1 2 3")?;
    let at = block_of(host, place)?;
    let mut bytes = Vec::new(alloc);
    add_pairs(&mut bytes, digits)?;
    patch(host, at, number(offset)?, bytes.as_slice());
    Ok(())
}

/// Whether a word of the disk is this one.
pub fn is_word(host: &mut MemHost, text: &str) -> Result<(), Cause> {
    let (place, word, value) = gaps(text, "1 word 2 is 3")?;
    let at = block_of(host, place)?;
    let found = word_in(&block_at(host, at), number(word)?);
    if found == hexadecimal(value)? {
        Ok(())
    } else {
        Err(because("the word is another", at, found))
    }
}

/// Whether opening the aggregate of a disk finds this damage.
pub fn is_damaged(alloc: Global, host: &mut MemHost, text: &str) -> Result<(), Cause> {
    let (place, want, found) = gaps(text, "at 1 wanted 2 found 3")?;
    let at = block_of(host, place)?;
    let want = hexadecimal(want)?;
    let found = hexadecimal(found)?;
    match Session::open(alloc, host) {
        Err(fault) if fault == (OpenFault::Damaged { at, want, found }) => Ok(()),
        _ => Err(because("opening finds another damage, or none", at, found)),
    }
}
