//! Readers of fields: each reads one field at an offset and judges it.

ghost use Rattle.std.specs.Prelude.{◌≡◌, ◌≤◌, ◌<◌, ◌+◌, ◌*◌, length, take, drop, IfOk, OnOk};
ghost use Rattle.fv_codec.specs.Bytes.{word_at, half_at, byte_at};
ghost use Rattle.fv_codec.specs.Fields.{in_range, in_steps, is_name_byte, all_name, name_filled, all_zero, each, items, some_filled, up_to, verdict_of};
ghost use Rattle.fv_codec.specs.Blocks.{asks_place, place_of};

use crate::shape::Shape;
use byteorder::{BigEndian, ByteOrder};

/// The greatest place of a block: an aggregate has at most 1,048,576 blocks.
pub(crate) const LAST_PLACE: u64 = 1_048_575;

/// The word at an offset.
#[tactic(auto, unfolding(crate::specs::Bytes::word_at))]
pub(crate) fn word_at(bytes: &[u8], at: usize) -> u64
    requires { at + 8 ≤ length bytes.now }
    ensures { result ≡ word_at at bytes.now }
{
    BigEndian::read_u64(&bytes[at..])
}

/// The number in the four bytes at an offset.
#[tactic(auto, unfolding(crate::specs::Bytes::half_at))]
pub(crate) fn half_at(bytes: &[u8], at: usize) -> u32
    requires { at + 4 ≤ length bytes.now }
    ensures { result ≡ half_at at bytes.now }
{
    BigEndian::read_u32(&bytes[at..])
}

/// A greatest value that is allowed under a condition, else 0.
pub(crate) fn up_to(allowed: bool, greatest: u64) -> u64
    ensures { result ≡ up_to allowed greatest }
{
    if allowed { greatest } else { 0 }
}

/// A number, if it is from the least to the greatest that is allowed.
pub(crate) fn in_range(number: u64, least: u64, greatest: u64) -> Result<u64, Shape>
    ensures verdict { verdict_of result ≡ in_range least greatest number }
    ensures value { IfOk result (λ x. x ≡ number) }
    ensures within { IfOk result (λ x. (least ≤ x) × (x ≤ greatest)) }
{
    if number < least {
        return Err(Shape {
            want: least,
            found: number,
        });
    }
    if greatest < number {
        return Err(Shape {
            want: greatest,
            found: number,
        });
    }
    Ok(number)
}

/// The word at an offset, if it is from the least to the greatest that is allowed.
pub(crate) fn word_in(bytes: &[u8], at: usize, least: u64, greatest: u64) -> Result<u64, Shape>
    requires { at + 8 ≤ length bytes.now }
    ensures verdict { verdict_of result ≡ in_range least greatest (word_at at bytes.now) }
    ensures value { IfOk result (λ x. x ≡ word_at at bytes.now) }
    ensures within { IfOk result (λ x. (least ≤ x) × (x ≤ greatest)) }
{
    in_range(word_at(bytes, at), least, greatest)
}

/// The number in the four bytes at an offset, if it is from the least to the greatest that is allowed.
pub(crate) fn half_in(bytes: &[u8], at: usize, least: u64, greatest: u64) -> Result<u64, Shape>
    requires { at + 4 ≤ length bytes.now }
    ensures verdict { verdict_of result ≡ in_range least greatest (half_at at bytes.now) }
    ensures value { IfOk result (λ x. x ≡ half_at at bytes.now) }
    ensures within { IfOk result (λ x. (least ≤ x) × (x ≤ greatest)) }
{
    in_range(u64::from(half_at(bytes, at)), least, greatest)
}

/// The byte at an offset, if it is from the least to the greatest that is allowed.
#[tactic(auto, unfolding(crate::specs::Bytes::byte_at))]
pub(crate) fn byte_in(bytes: &[u8], at: usize, least: u64, greatest: u64) -> Result<u64, Shape>
    requires { at + 1 ≤ length bytes.now }
    ensures verdict { verdict_of result ≡ in_range least greatest (byte_at at bytes.now) }
    ensures value { IfOk result (λ x. x ≡ byte_at at bytes.now) }
    ensures within { IfOk result (λ x. (least ≤ x) × (x ≤ greatest)) }
{
    in_range(u64::from(bytes[at]), least, greatest)
}

/// The word at an offset, if it is a multiple of a step from the least to the greatest that is allowed.
pub(crate) fn step_in(
    bytes: &[u8],
    at: usize,
    step: u64,
    least: u64,
    greatest: u64,
) -> Result<u64, Shape>
    requires room { at + 8 ≤ length bytes.now }
    requires step { 0 < step }
    ensures verdict { verdict_of result ≡ in_steps step least greatest (word_at at bytes.now) }
    ensures value { IfOk result (λ x. x ≡ word_at at bytes.now) }
    ensures within { IfOk result (λ x. (least ≤ x) × (x ≤ greatest)) }
{
    let number = word_in(bytes, at, least, greatest)?;
    let over = number % step;
    if over != 0 {
        return Err(Shape {
            want: number - over,
            found: number,
        });
    }
    Ok(number)
}

/// Whether a name may have a byte.
fn is_name_byte(byte: u8) -> bool
    ensures { result ≡ is_name_byte byte }
{
    matches!(byte, b'a'..=b'z' | b'0'..=b'9' | b'_')
}

/// Whether all of the bytes are ones that a name may have.
#[tactic(auto, using(crate::proofs::Runs::all_name_drop), unfolding(crate::specs::Fields::all_name))]
fn all_name(bytes: &[u8]) -> Result<(), Shape>
    ensures { result ≡ all_name bytes.now }
{
    for byte in bytes {
        if !is_name_byte(*byte) {
            return Err(Shape {
                want: u64::from(b'a'),
                found: u64::from(*byte),
            });
        }
    }
    Ok(())
}

/// Whether bytes are a name of so many bytes and zeros behind it.
#[tactic(auto, unfolding(crate::specs::Fields::name_filled))]
fn name_filled(bytes: &[u8], len: usize) -> Result<(), Shape>
    requires { len ≤ length bytes.now }
    ensures { result ≡ name_filled len bytes.now }
{
    all_name(&bytes[..len])?;
    all_zero(&bytes[len..])?;
    Ok(())
}

/// The name of so many bytes in the 64 bytes from an offset.
pub(crate) fn name_in(bytes: &[u8], at: usize, len: usize) -> Result<[u8; 64], Shape>
    requires room { at + 64 ≤ length bytes.now }
    requires fits { len ≤ 64 }
    ensures verdict { verdict_of result ≡ name_filled len (take 64 (drop at bytes.now)) }
    ensures value { IfOk result (λ n. n ≡ take 64 (drop at bytes.now)) }
{
    let mut name = [0; 64];
    name.copy_from_slice(&bytes[at..at + 64]);
    name_filled(&name, len)?;
    Ok(name)
}

/// One is wanted where none of the items is filled.
pub(crate) fn some_filled(none: bool) -> Result<(), Shape>
    ensures { result ≡ some_filled none }
{
    if none {
        return Err(Shape { want: 1, found: 0 });
    }
    Ok(())
}

/// Whether all of the bytes are zero. Words of zeros are passed over first.
#[tactic(auto, unfolding(crate::specs::Fields::all_zero))]
fn all_zero(bytes: &[u8]) -> Result<(), Shape>
    ensures { result ≡ all_zero bytes.now }
{
    each_zero(tail(bytes, zero_words(bytes)))
}

/// How many bytes the words of zeros have with which the bytes begin.
fn zero_words(bytes: &[u8]) -> usize
    ensures within { result ≤ length bytes.now }
    ensures rest { all_zero bytes.now ≡ all_zero (drop result bytes.now) }
{
    let mut at = 0;
    while bytes.len() - at >= 8 && word_at(bytes, at) == 0 {
        at += 8;
    }
    at
}

/// Whether all of the bytes are zero, one after the other.
#[tactic(auto, using(crate::proofs::Runs::all_zero_drop), unfolding(crate::specs::Fields::all_zero))]
fn each_zero(bytes: &[u8]) -> Result<(), Shape>
    ensures { result ≡ all_zero bytes.now }
{
    for byte in bytes {
        if *byte != 0 {
            return Err(Shape {
                want: 0,
                found: u64::from(*byte),
            });
        }
    }
    Ok(())
}

/// So many zero bytes from an offset.
pub(crate) fn zeros_in(bytes: &[u8], at: usize, count: usize) -> Result<(), Shape>
    requires { at + count ≤ length bytes.now }
    ensures { result ≡ all_zero (take count (drop at bytes.now)) }
{
    all_zero(&bytes[at..at + count])
}

/// The bytes from an offset on.
pub(crate) fn tail(bytes: &[u8], at: usize) -> &[u8]
    requires { at ≤ length bytes.now }
    ensures value { result.now ≡ drop at bytes.now }
    ensures length { length result.now + at ≡ length bytes.now }
{
    &bytes[at..]
}

/// Words one after the other, each a block's place or 0.
#[tactic(auto, unfolding(crate::specs::Fields::each, crate::specs::Fields::items))]
pub(crate) fn places_in(bytes: &[u8], into: &mut [u32]) -> Result<(), Shape>
    requires { 8 * length into.old ≤ length bytes.now }
    ensures verdict { result ≡ each (length into.old) 8 asks_place bytes.now }
    ensures value { OnOk result (into.new ≡ items (length into.old) 8 place_of bytes.now) }
{
    for i in 0..into.len() {
        let place = word_in(tail(bytes, 8 * i), 0, 0, LAST_PLACE)?;
        into[i] = place as u32;
    }
    Ok(())
}
