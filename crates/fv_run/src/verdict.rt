//! The text of a verdict.

ghost use Rattle.std.specs.Prelude.{◌≡◌, ◌≤◌, ◌<◌, ◌+◌, ◌++◌, decimal, length};
ghost use Rattle.fv_model.specs.Texts.{hex_digit};
ghost use Rattle.fv_run.specs.CheckTexts.{fault_text, hex_word, valid_text};

use arrayvec::{ArrayString, ArrayVec};
use fv_faults::Fault;
use itoa::Buffer;

/// The line of a fault has at most 82 bytes.
pub(crate) type Line = ArrayVec<u8, 96>;

/// The line of an aggregate that is sound. It has at most 54 bytes.
pub(crate) fn valid_line(volumes: u32, charged: u64) -> ArrayString<64>
    ensures { result.bytes ≡ valid_text volumes charged }
{
    let mut line = ArrayString::new();
    line.push_str("valid volumes ");
    line.push_str(Buffer::new().format(volumes));
    line.push_str(" charged ");
    line.push_str(Buffer::new().format(charged));
    line.push_str("\n");
    line
}

/// The line of a fault.
pub(crate) fn fault_line(fault: &Fault) -> Line
    ensures { result.items ≡ fault_text fault.now }
{
    let mut line = Line::new();
    add(&mut line, b"fault ");
    add_number(&mut line, u64::from(fault.rule));
    line.push(b' ');
    add_number(&mut line, fault.block);
    line.push(b' ');
    add_word(&mut line, fault.want);
    line.push(b' ');
    add_word(&mut line, fault.found);
    line.push(b'\n');
    line
}

fn add(line: &mut Line, bytes: &[u8])
    requires room { length line.old.items + length bytes.now ≤ 96 }
    ensures spelled { line.new.items ≡ line.old.items ++ bytes.now }
    ensures long { length line.new.items ≡ length line.old.items + length bytes.now }
{
    line.try_extend_from_slice(bytes).unwrap();
}

/// Adds the decimal digits of a number, at most 20.
fn add_number(line: &mut Line, number: u64)
    requires room { length line.old.items ≤ 76 }
    ensures spelled { line.new.items ≡ line.old.items ++ decimal number }
    ensures long { length line.new.items ≤ length line.old.items + 20 }
{
    add(line, Buffer::new().format(number).as_bytes());
}

/// Adds the 16 hexadecimal digits of a word.
#[tactic(auto, using(crate::proofs::Digits::begins, crate::proofs::Digits::turn, crate::proofs::Digits::ended))]
fn add_word(line: &mut Line, word: u64)
    requires room { length line.old.items ≤ 80 }
    ensures spelled { line.new.items ≡ line.old.items ++ hex_word word }
    ensures long { length line.new.items ≡ length line.old.items + 16 }
{
    let bytes = word.to_be_bytes();
    for i in 0..8 {
        line.push(digit(bytes[i] / 16));
        line.push(digit(bytes[i] % 16));
    }
}

fn digit(value: u8) -> u8
    requires { value < 16 }
    ensures { result ≡ hex_digit value }
{
    if value < 10 {
        b'0' + value
    } else {
        b'a' + value - 10
    }
}
