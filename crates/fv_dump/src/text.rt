//! The lines that are told.

ghost use Rattle.fv_dump.specs.Looking.{Looks, fault_of};

use crate::ending::Fault;
use crate::look::Look;
use fv_codec::{Pointer, Shape};
use fv_disk::Failed;
use itoa::Buffer;
use std::alloc::Global;

/// The digits of a hexadecimal number.
const DIGITS: [u8; 16] = *b"0123456789abcdef";

/// Lines that wait to be given out. Where memory runs out that is kept in mind, and told when they are given.
#[derive(Drop)]
pub(crate) struct Text {
    bytes: Vec<u8>,
    starved: bool,
}

impl Text {
    /// No lines. It takes no memory.
    pub(crate) fn new(alloc: Global) -> Text {
        Text {
            bytes: Vec::new(alloc),
            starved: false,
        }
    }

    /// Adds bytes.
    pub(crate) fn add(&mut self, bytes: &[u8]) {
        if self.bytes.extend_from_slice(bytes).is_err() {
            self.starved = true;
        }
    }

    /// Adds a number in decimal digits.
    pub(crate) fn add_number(&mut self, number: u64) {
        self.add(Buffer::new().format(number).as_bytes());
    }

    /// Adds a word, a space and a number.
    pub(crate) fn add_named(&mut self, word: &[u8], number: u64) {
        self.add(word);
        self.add(b" ");
        self.add_number(number);
    }

    /// Adds a number in sixteen hexadecimal digits.
    fn add_hex(&mut self, number: u64) {
        for byte in number.to_be_bytes() {
            self.add(&[
                DIGITS[usize::from(byte >> 4)],
                DIGITS[usize::from(byte & 15)],
            ]);
        }
    }

    /// Adds a pointer: `hole`, or its VVBN, `@` and its PVBN, which is `?` where it is unknown, and its stamp.
    pub(crate) fn add_pointer(&mut self, pointer: &Pointer) {
        if pointer.stamp == 0 {
            self.add(b"hole");
            return;
        }
        self.add_number(pointer.vvbn);
        self.add(b"@");
        if pointer.pvbn == 0 {
            self.add(b"?");
        } else {
            self.add_number(pointer.pvbn);
        }
        self.add(b" ");
        self.add_named(b"stamp", pointer.stamp);
    }

    /// Ends a line by what a block isn't.
    pub(crate) fn end_without(&mut self, what: &[u8], shape: &Shape) {
        self.add(b": no ");
        self.add(what);
        self.add(b" (want ");
        self.add_hex(shape.want);
        self.add(b", found ");
        self.add_hex(shape.found);
        self.add(b")\n");
    }
}

/// Gives out the lines that wait.
#[tactic(auto, using(crate::proofs::Looking::looks_on, crate::proofs::Looking::looks_not))]
pub(crate) fn give<L: Look>(look: &mut L, text: &mut Text) -> Result<(), Fault>
    ensures { Looks (L.shown look.old) (L.shown look.new) (fault_of result) }
{
    if text.starved {
        return Err(Fault::Memory);
    }
    let Ok(()) = look.say(text.bytes.as_slice()) else {
        return Err(Fault::Sink);
    };
    text.bytes.clear();
    Ok(())
}

/// The bytes of a name that is filled up with zeros.
pub(crate) fn name_in(name: &[u8; 64], length: u8) -> &[u8] {
    &name[..usize::from(length).min(64)]
}
