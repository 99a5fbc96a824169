//! A block by its hexadecimal digits.

ghost use Rattle.std.specs.Prelude.{◌≡◌, ◌≤◌, ◌<◌, ◌+◌, ◌*◌, ◌/◌, ◌-◌, ◌++◌, true, length, replicate, IfSome};
ghost use Rattle.std.specs.Char.{is_ascii_hexdigit};
ghost use Rattle.std.specs.List.{list_all};
ghost use Rattle.std.specs.Option.{option_map};
ghost use Rattle.fv_model.specs.Words.{block_of, bytes_of, is_hex, nibble, padded};
ghost use Rattle.fv_script.specs.Parts.{AreDigits};

use crate::values::is;
use fv_model::Block;

/// The digits of the block that the word spells: the word itself, or none for a dash.
#[tactic(auto, unfolding(fv_model::specs::Words::block_of))]
pub fn digits_of(word: &[u8]) -> Option<&[u8]>
    ensures spelled { option_map (λ digits. padded (bytes_of digits.now)) result ≡ block_of word.now }
    ensures digits { IfSome result (λ digits. AreDigits digits.now) }
{
    if is(word, b"-") {
        return Some(&word[..0]);
    }
    if is_hex(word) {
        return Some(word);
    }
    None
}

fn is_hex(word: &[u8]) -> bool
    ensures { result ≡ is_hex word.now }
{
    2 <= word.len() && word.len() <= 8192 && word.len() % 2 == 0 && has_hex_alone(word)
}

/// It looks at each byte, also behind one that is no digit, so that a compiler can look at many in one step.
#[tactic(auto, using(crate::proofs::Befores::tests_begin, crate::proofs::Befores::tests_more, crate::proofs::Befores::tests_end))]
fn has_hex_alone(word: &[u8]) -> bool
    ensures { result ≡ list_all is_ascii_hexdigit word.now }
{
    let mut all = true;
    for byte in word {
        all &= byte.is_ascii_hexdigit();
    }
    all
}

/// Lays the bytes of the digits at the front of a zero block.
#[tactic(auto, using(crate::proofs::Digits::begins, crate::proofs::Digits::turn, crate::proofs::Digits::ended, crate::proofs::Digits::is_digit))]
pub fn fill(block: &mut Block, digits: &[u8])
    requires zero { block.old ≡ replicate 4096 0 }
    requires digits { AreDigits digits.now }
    ensures { block.new ≡ padded (bytes_of digits.now) }
{
    for i in 0..digits.len() / 2 {
        block[i] = byte(digits[2 * i], digits[2 * i + 1]);
    }
}

fn byte(high: u8, low: u8) -> u8
    requires high { is_ascii_hexdigit high ≡ true }
    requires low { is_ascii_hexdigit low ≡ true }
    ensures { result ≡ 16 * nibble high + nibble low }
{
    16 * nibble(high) + nibble(low)
}

/// The value of a hexadecimal digit.
fn nibble(digit: u8) -> u8
    requires { is_ascii_hexdigit digit ≡ true }
    ensures value { result ≡ nibble digit }
    ensures small { result < 16 }
{
    match digit {
        b'0'..=b'9' => digit - b'0',
        b'A'..=b'F' => digit - b'A' + 10,
        _ => digit - b'a' + 10,
    }
}
