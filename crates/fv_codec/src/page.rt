//! A block that is written from its front, the rest of it zero.

use std::marker::Model;

/// A block of which the front is written; a contract sees what is written.
#[derive(Drop)]
pub(crate) struct Page {
    bytes: [u8; 4096],
    at: usize,
}

impl Model for Page {
    ghost use Rattle.std.specs.Prelude.{◌≡◌, ◌≤◌, ◌-◌, ℕ, List, take, drop};
    ghost use Rattle.fv_codec.specs.Bytes.{zeros};

    ghost Value = { List ℕ };

    ghost view = { λ p. take p.at p.bytes };

    ghost invariant = { λ p. (p.at ≤ 4096) × (drop p.at p.bytes ≡ zeros (4096 - p.at)) };
}

impl Page {
    ghost use Rattle.std.specs.Prelude.{◌≡◌, ◌≤◌, ◌+◌, ◌*◌, ◌++◌, [], length};
    ghost use Rattle.std.specs.List.{flat_map};
    ghost use Rattle.fv_codec.specs.Bytes.{word, half, zeros};

    /// A page of which nothing is written.
    pub(crate) fn new() -> Page
        ensures written { result ≡ [] }
        ensures length { length result ≡ 0 }
    {
        Page {
            bytes: [0; 4096],
            at: 0,
        }
    }

    /// Writes a run of bytes.
    pub(crate) fn put(&mut self, run: &[u8])
        requires { length self.old + length run.now ≤ 4096 }
        ensures written { self.new ≡ self.old ++ run.now }
        ensures length { length self.new ≡ length self.old + length run.now }
    {
        self.bytes[self.at..self.at + run.len()].copy_from_slice(run);
        self.at += run.len();
    }

    /// Writes a number as eight bytes.
    #[tactic(auto, unfolding(crate::specs::Bytes::word))]
    pub(crate) fn word(&mut self, value: u64)
        requires { length self.old + 8 ≤ 4096 }
        ensures written { self.new ≡ self.old ++ word value }
        ensures length { length self.new ≡ length self.old + 8 }
    {
        self.put(&value.to_be_bytes());
    }

    /// Writes a number as four bytes.
    #[tactic(auto, unfolding(crate::specs::Bytes::half))]
    pub(crate) fn half(&mut self, value: u32)
        requires { length self.old + 4 ≤ 4096 }
        ensures written { self.new ≡ self.old ++ half value }
        ensures length { length self.new ≡ length self.old + 4 }
    {
        self.put(&value.to_be_bytes());
    }

    /// Leaves so many zero bytes.
    pub(crate) fn skip(&mut self, count: usize)
        requires { length self.old + count ≤ 4096 }
        ensures written { self.new ≡ self.old ++ zeros count }
        ensures length { length self.new ≡ length self.old + count }
    {
        self.at += count;
    }

    /// Writes numbers as eight bytes each.
    pub(crate) fn places(&mut self, places: &[u32])
        requires { length self.old + 8 * length places.now ≤ 4096 }
        ensures written { self.new ≡ self.old ++ flat_map word places.now }
        ensures length { length self.new ≡ length self.old + 8 * length places.now }
    {
        for place in places {
            self.word(u64::from(*place));
        }
    }

    /// What is written.
    pub(crate) fn front(&self) -> &[u8]
        ensures { result.now ≡ self.now }
    {
        &self.bytes[..self.at]
    }

    /// Copies the whole block out.
    pub(crate) fn finish(&self, into: &mut [u8; 4096])
        requires { length self.now ≡ 4096 }
        ensures { into.new ≡ self.now }
    {
        *into = self.bytes;
    }
}
