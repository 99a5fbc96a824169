ghost use Rattle.std.specs.Prelude.{◌≡◌, ◌≤◌, ◌+◌, ◌*◌, ◌++◌, length, IfOk, OnOk};
ghost use Rattle.std.specs.List.{flat_map};
ghost use Rattle.fv_codec.specs.Fields.{each, items, up_to, verdict_of};

use crate::page::Page;
use crate::reading::{LAST_PLACE, tail, up_to, word_at, word_in};
use crate::shape::Shape;

/// A pointer to a block of a volume; all three numbers of a hole are 0.
#[derive(Clone, Copy, Debug, PartialEq, Eq)]
pub struct Pointer {
    /// The block's number in the volume, below 1,048,576.
    pub vvbn: u64,
    /// The block's place in the aggregate, below 1,048,576, or 0 where it is unknown.
    pub pvbn: u64,
    /// When the block was written, or 0 for a hole.
    pub stamp: u64,
}

impl Pointer {
    ghost use Rattle.fv_codec.specs.Blocks.{asks_pointer, pointed, pointer_of};
    ghost use Rattle.fv_codec.specs.Spelling.{pointer_bytes};

    /// A hole: a pointer that leads to no block. All three of its numbers are 0 (`docs/FORMAT.md`).
    pub const HOLE: Pointer = Pointer {
        vvbn: 0,
        pvbn: 0,
        stamp: 0,
    };

    /// The greatest VVBN and PVBN beside a stamp, where the pointer may be in use.
    fn pointed(used: bool, stamp: u64) -> u64
        ensures { result ≡ pointed used stamp }
    {
        up_to(used && stamp != 0, LAST_PLACE)
    }

    /// The pointer that bytes begin with, which has to be a hole where it isn't in use.
    #[tactic(auto, unfolding(crate::specs::Blocks::asks_pointer, crate::specs::Blocks::pointer_of))]
    pub(crate) fn read(bytes: &[u8], used: bool) -> Result<Pointer, Shape>
        requires { 24 ≤ length bytes.now }
        ensures verdict { verdict_of result ≡ asks_pointer used bytes.now }
        ensures value { IfOk result (λ p. p ≡ pointer_of bytes.now) }
    {
        let pointed = Pointer::pointed(used, word_at(bytes, 16));
        let vvbn = word_in(bytes, 0, 0, pointed)?;
        let pvbn = word_in(bytes, 8, 0, pointed)?;
        let stamp = word_in(bytes, 16, 0, up_to(used, u64::MAX))?;
        Ok(Pointer { vvbn, pvbn, stamp })
    }

    /// The pointer that bytes begin with, which isn't judged.
    #[tactic(auto, unfolding(crate::specs::Blocks::pointer_of))]
    pub(crate) fn pick(bytes: &[u8]) -> Pointer
        requires { 24 ≤ length bytes.now }
        ensures { result ≡ pointer_of bytes.now }
    {
        Pointer {
            vvbn: word_at(bytes, 0),
            pvbn: word_at(bytes, 8),
            stamp: word_at(bytes, 16),
        }
    }

    /// Writes the pointer.
    #[tactic(auto, unfolding(crate::specs::Spelling::pointer_bytes))]
    pub(crate) fn write(&self, page: &mut Page)
        requires { length page.old + 24 ≤ 4096 }
        ensures written { page.new ≡ page.old ++ pointer_bytes self.now }
        ensures length { length page.new ≡ length page.old + 24 }
    {
        page.word(self.vvbn);
        page.word(self.pvbn);
        page.word(self.stamp);
    }
}
