ghost use Rattle.std.specs.Prelude.{◌≡◌, ◌≢◌, ◌<◌, ◌^◌, length, IfOk, IfErr};

use crate::page::Page;
use crate::reading::{places_in, tail, word_in, zeros_in};
use crate::shape::Shape;

/// `FVROOT00` as a word.
const MARK: u64 = 0x4656_524f_4f54_3030;

/// The slots of labels in a root: an aggregate has at most 64 volumes (`docs/FORMAT.md`), and slots go from 0 to 63.
pub const SLOTS: u8 = 64;

/// A root: which generation it is, and where the label of each volume's slot stands.
#[derive(Clone, Copy, Debug, PartialEq, Eq)]
pub struct Root {
    /// The generation, which wraps.
    pub generation: u64,
    /// The version of the format, 1.
    pub version: u8,
    /// The block of each slot's label, below 1,048,576, or 0 for an empty slot.
    pub labels: [u32; 64],
}

impl Root {
    ghost use Rattle.fv_codec.specs.Blocks.{root_at, IsRoot};
    ghost use Rattle.fv_codec.specs.Spelling.{root_bytes};

    /// The root that a block spells, or the first field that isn't as said. Goes over the block once.
    #[tactic(auto, using(crate::proofs::Decoded::root_in_range, crate::proofs::Decoded::root_differs))]
    pub fn decode(block: &[u8; 4096]) -> Result<Root, Shape>
        ensures exact { result ≡ root_at block.now }
        ensures in_range { IfOk result IsRoot }
        ensures differs { IfErr result (λ s. s.want ≢ s.found) }
    {
        Root::read(block)
    }

    #[tactic(auto, unfolding(crate::specs::Blocks::root_at))]
    fn read(block: &[u8; 4096]) -> Result<Root, Shape>
        ensures { result ≡ root_at block.now }
    {
        word_in(block, 0, MARK, MARK)?;
        let generation = word_in(block, 8, 0, u64::MAX)?;
        let version = word_in(block, 16, 1, 1)?;
        zeros_in(block, 24, 40)?;
        let mut labels = [0; 64];
        places_in(tail(block, 64), &mut labels)?;
        zeros_in(block, 576, 3520)?;
        Ok(Root {
            generation,
            version: version as u8,
            labels,
        })
    }

    /// Writes the root into a block; every byte of it is written.
    #[tactic(auto, using(crate::proofs::RootBytes::root_again))]
    pub fn encode(&self, into: &mut [u8; 4096])
        requires { IsRoot self.now }
        ensures reads_back { root_at into.new ≡ Ok self.now }
    {
        self.page().finish(into);
    }

    fn page(&self) -> Page
        ensures written { result ≡ root_bytes self.now }
        ensures length { length result ≡ 4096 }
        ensures generation { self.now.generation < 2 ^ 64 }
        ensures labels { length self.now.labels ≡ 64 }
    {
        let mut page = Page::new();
        page.word(MARK);
        page.word(self.generation);
        page.word(u64::from(self.version));
        page.skip(40);
        page.places(&self.labels);
        page.skip(3520);
        page
    }
}
