//! The bits of a map's block, held against those that have to be set.

ghost use Rattle.std.specs.Prelude.{◌≡◌, ◌<◌, ◌≤◌, ◌+◌, ◌*◌, ◌^◌, length, Bool, List, OnOk};
ghost use Rattle.fv_bits.specs.Bits.{bit_of_bytes};
ghost use Rattle.fv_bits.specs.Members.{IsBlockOf};
ghost use Rattle.fv_faults.specs.Adding.{Adds};
ghost use Rattle.fv_faults.specs.ThirdPass.{bit_lines};
ghost use Rattle.fv_third_pass.specs.Bits.{differing, differs, said_of};

use fv_bits::BitMap;
use fv_disk::{Block, ZERO};
use fv_faults::{Fault, Lines};
use std::alloc::AllocError;

/// How many bits a block of a map holds.
const BLOCK_BITS: u32 = 32_768;

/// What the lines of a map say: by which rule, and of which block. Where no block is given, bit b stands for block b.
#[derive(Clone, Copy, Debug, PartialEq, Eq)]
pub(crate) struct Saying {
    pub(crate) rule: u8,
    pub(crate) at: Option<u64>,
}

/// A bit of a block.
#[tactic(auto, using(std::proofs::lemmas::Nat::Bits::shr_and_one), unfolding(fv_bits::specs::Bits::bit_of_bytes, fv_bits::specs::Bits::bit_of_number))]
fn bit_of(block: &Block, bit: u32) -> bool
    requires { bit < 32768 }
    ensures { result ≡ bit_of_bytes block.now bit }
{
    (block[(bit / 8) as usize] >> (bit % 8)) & 1 == 1
}

/// Notes a line where a bit isn't as it has to be.
#[tactic(auto, using(crate::proofs::Bitwise::same_bits))]
fn note_bit(
    lines: &mut Lines,
    rule: u8,
    block: u64,
    wanted: bool,
    found: bool,
) -> Result<(), AllocError>
    ensures { OnOk result (Adds (bit_lines rule block wanted found) lines.old lines.new) }
{
    if wanted == found {
        return Ok(());
    }
    lines.note(Fault {
        rule,
        block,
        want: u64::from(wanted),
        found: u64::from(found),
    })
}

/// The block of which the line of a bit is said.
fn said_of(at: Option<u64>, bit: u32) -> u64
    ensures { result ≡ said_of at bit }
{
    match at {
        Some(at) => at,
        None => u64::from(bit),
    }
}

/// Notes a line for each bit of block `k` of a map that isn't as it has to be.
fn note_each(
    lines: &mut Lines,
    saying: Saying,
    k: u32,
    wanted: &Block,
    found: &Block,
) -> Result<(), AllocError>
    requires { k < 32 }
    ensures { OnOk result ((set : List Bool) → IsBlockOf set k wanted.now
        → Adds (differing saying.rule saying.at set k found.now) lines.old lines.new) }
{
    for bit in 0..BLOCK_BITS {
        let block = said_of(saying.at, BLOCK_BITS * k + bit);
        note_bit(
            lines,
            saying.rule,
            block,
            bit_of(wanted, bit),
            bit_of(found, bit),
        )?;
    }
    Ok(())
}

/// Notes a line for each bit of block `k` of a map that isn't as it has to be, by the set of those that have to be set. Where no bit differs
/// that costs one comparison of blocks. The one error is want of memory.
#[tactic(auto, using(crate::proofs::Bitwise::same_block))]
pub(crate) fn note_block(
    lines: &mut Lines,
    saying: Saying,
    set: &BitMap,
    k: u32,
    found: &Block,
) -> Result<(), AllocError>
    requires k { k < 32 }
    requires within { 32768 * k < length set.now }
    ensures { OnOk result (Adds (differing saying.rule saying.at set.now k found.now) lines.old lines.new) }
{
    let mut wanted = ZERO;
    set.to_block(k, &mut wanted);
    if wanted == *found {
        return Ok(());
    }
    note_each(lines, saying, k, &wanted, found)
}
