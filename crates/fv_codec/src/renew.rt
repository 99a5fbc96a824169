//! One record of an inode block, written in its place.

ghost use Rattle.std.specs.Prelude.{◌≡◌, ◌≤◌, ◌<◌, is_ok, slice_set, true, Ok, IfOk};
ghost use Rattle.fv_codec.specs.Bytes.{word};
ghost use Rattle.fv_codec.specs.Blocks.{inodes_at, IsInodeRecord};

use crate::inode::{InodeBlock, InodeRecord};
use crate::page::Page;

impl InodeBlock {
    /// Writes the record of a file, whose name has a byte, into a slot below 16 of the inode block that a block spells, and
    /// the index of the inode block. It writes those 248 bytes alone, and judges nothing (`docs/FORMAT.md`).
    pub fn renew(block: &mut [u8; 4096], index: u64, slot: u32, file: &InodeRecord)
        requires slot { slot < 16 }
        requires shaped { is_ok (inodes_at block.old) ≡ true }
        requires range { IsInodeRecord file.now }
        requires used { 1 ≤ file.now.name_length }
        ensures { IfOk (inodes_at block.old) (λ b. inodes_at block.new ≡ Ok (record { index = index; files = slice_set b.files slot file.now })) }
    {
        let mut page = Page::new();
        file.write(&mut page);
        let at = 256 + 240 * slot as usize;
        block[8..16].copy_from_slice(&spelled(index));
        block[at..at + 240].copy_from_slice(page.front());
    }
}

/// A number as eight bytes.
#[tactic(auto, unfolding(crate::specs::Bytes::word))]
fn spelled(number: u64) -> [u8; 8]
    ensures { result ≡ word number }
{
    number.to_be_bytes()
}
