ghost use Rattle.std.specs.Prelude.{◌≡◌, ◌≢◌, length, IfOk, IfErr};

use crate::page::Page;
use crate::reading::{word_in, zeros_in};
use crate::shape::Shape;

/// `FVAGGR01` as a word.
const MARK: u64 = 0x4656_4147_4752_3031;

/// The superblock of an aggregate.
#[derive(Clone, Copy, Debug, PartialEq, Eq)]
pub struct Super {
    /// How many blocks the aggregate has, from 512 to 1,048,576.
    pub blocks: u32,
}

impl Super {
    ghost use Rattle.fv_codec.specs.Blocks.{super_at, IsSuper};
    ghost use Rattle.fv_codec.specs.Spelling.{super_bytes};

    /// The superblock that a block spells, or the first field that isn't as said. Goes over the block once.
    #[tactic(auto, using(crate::proofs::Decoded::super_in_range, crate::proofs::Decoded::super_differs))]
    pub fn decode(block: &[u8; 4096]) -> Result<Super, Shape>
        ensures exact { result ≡ super_at block.now }
        ensures in_range { IfOk result IsSuper }
        ensures differs { IfErr result (λ s. s.want ≢ s.found) }
    {
        Super::read(block)
    }

    #[tactic(auto, unfolding(crate::specs::Blocks::super_at))]
    fn read(block: &[u8; 4096]) -> Result<Super, Shape>
        ensures { result ≡ super_at block.now }
    {
        word_in(block, 0, MARK, MARK)?;
        let blocks = word_in(block, 8, 512, 1_048_576)?;
        zeros_in(block, 16, 4080)?;
        Ok(Super {
            blocks: blocks as u32,
        })
    }

    /// Writes the superblock into a block; every byte of it is written.
    #[tactic(auto, using(crate::proofs::SuperBytes::super_again))]
    pub fn encode(&self, into: &mut [u8; 4096])
        requires { IsSuper self.now }
        ensures reads_back { super_at into.new ≡ Ok self.now }
    {
        self.page().finish(into);
    }

    fn page(&self) -> Page
        ensures written { result ≡ super_bytes self.now }
        ensures length { length result ≡ 4096 }
    {
        let mut page = Page::new();
        page.word(MARK);
        page.word(u64::from(self.blocks));
        page.skip(4080);
        page
    }
}
