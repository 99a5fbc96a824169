//! A letter for each block of an aggregate, by what it belongs to.

ghost use Rattle.std.specs.Prelude.{◌≡◌};
ghost use Rattle.fv_dump.specs.Letters.{letter_of};
ghost use Rattle.fv_dump.specs.Looking.{Looks, fault_of};

use crate::container::Container;
use crate::ending::Fault;
use crate::held::is_held;
use crate::look::Look;
use crate::text::{Text, give};
use fv_bits::BitMap;
use std::alloc::{AllocError, Global};

/// A block that nothing was found to hold.
const FREE: u8 = b'.';

/// A block that more than one holds.
const TWICE: u8 = b'!';

/// How many letters a line has.
const LINE: usize = 128;

/// The letters of the blocks.
#[derive(Drop)]
pub(crate) struct Letters {
    letters: Vec<u8>,
}

impl Letters {
    /// Free blocks alone.
    pub(crate) fn new(alloc: Global, blocks: u32) -> Result<Letters, AllocError> {
        Ok(Letters {
            letters: vec![in alloc; FREE; blocks as usize]?,
        })
    }

    /// Says what holds a block. One past the last block has no letter.
    pub(crate) fn mark(&mut self, at: u64, letter: u8) {
        if at < self.letters.len() as u64 {
            let at = at as usize;
            self.letters[at] = if self.letters[at] == FREE {
                letter
            } else {
                TWICE
            };
        }
    }

    /// Says what holds a block where nothing was found to hold it.
    pub(crate) fn mark_free(&mut self, at: u64, letter: u8) {
        if at < self.letters.len() as u64 && self.letters[at as usize] == FREE {
            self.letters[at as usize] = letter;
        }
    }

    /// Marks the nodes of a container, and the blocks of its entries.
    pub(crate) fn mark_container(&mut self, container: &Container, held: &BitMap) {
        for at in &container.nodes {
            self.mark(*at, b'C');
        }
        for vvbn in 0..container.entries.len() {
            let entry = container.entries[vvbn];
            if entry.kind != 0 {
                self.mark(
                    u64::from(entry.at),
                    letter_of(entry.kind, is_held(held, vvbn)),
                );
            }
        }
    }

    /// Tells the letters, 128 a line.
    #[tactic(auto, using(crate::proofs::Looking::looks_on, crate::proofs::Looking::looks_not))]
    pub(crate) fn tell<L: Look>(&self, look: &mut L, text: &mut Text) -> Result<(), Fault>
        ensures { Looks (L.shown look.old) (L.shown look.new) (fault_of result) }
    {
        for line in self.letters.chunks(LINE) {
            text.add(line);
            text.add(b"\n");
            give(look, text)?;
        }
        Ok(())
    }
}

/// The letter of an entry of a kind, which is in use or delayed.
fn letter_of(kind: u32, held: bool) -> u8
    ensures { result ≡ letter_of kind held }
{
    if !held {
        return b'x';
    }
    match kind {
        1 => b'd',
        2 | 3 | 4 => b'f',
        5 => b'i',
        6 | 7 => b'n',
        _ => b'm',
    }
}
