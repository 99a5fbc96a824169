use crate::page::Page;
use crate::reading::{LAST_PLACE, half_at, half_in, places_in, tail, up_to, word_in, zeros_in};
use crate::shape::Shape;

/// `FVCLEAF0` as a word.
const LEAF_MARK: u64 = 0x4656_434c_4541_4630;

/// `FVCINNER` as a word.
const INNER_MARK: u64 = 0x4656_4349_4e4e_4552;

/// The greatest kind of a block.
pub const GREATEST_KIND: u32 = 8;

/// A leaf of a container: where the blocks under 256 VVBNs stand, and what they are.
#[derive(Clone, Copy, Debug, PartialEq, Eq)]
pub struct ContainerLeaf {
    /// Which leaf of its container it is.
    pub index: u64,
    /// The place of each entry's block, below 1,048,576; 0 in a hole.
    pub pvbns: [u32; 256],
    /// The kind of each entry, 0 to 8 (in `decode_in` to the number given); 0 is a hole.
    pub kinds: [u32; 256],
}

impl ContainerLeaf {
    ghost use Rattle.std.specs.Prelude.{◌≡◌, ◌≢◌, ◌≤◌, ◌<◌, ◌^◌, ◌+◌, ◌*◌, ◌++◌, length, IfOk, IfErr, OnOk};
    ghost use Rattle.std.specs.List.{flat_map, zip};
    ghost use Rattle.fv_codec.specs.Fields.{each, items, verdict_of};
    ghost use Rattle.fv_codec.specs.Blocks.{asks_entry, kind_of, leaf_at, leaf_in, place_of, IsContainerLeaf, IsLeafIn};
    ghost use Rattle.fv_codec.specs.Spelling.{entry_bytes, leaf_bytes};

    /// The leaf that a block spells, or the first field that isn't as said. Goes over the block once.
    pub fn decode(block: &[u8; 4096]) -> Result<ContainerLeaf, Shape>
        ensures exact { result ≡ leaf_at block.now }
        ensures in_range { IfOk result IsContainerLeaf }
        ensures differs { IfErr result (λ s. s.want ≢ s.found) }
    {
        ContainerLeaf::decode_in(block, GREATEST_KIND)
    }

    /// The leaf that a block spells where the kinds are 1 to `most_kind`, or the first field that isn't as said. Goes over the block once.
    #[tactic(auto, using(crate::proofs::Decoded::leaf_in_range, crate::proofs::Decoded::leaf_differs))]
    pub fn decode_in(block: &[u8; 4096], most_kind: u32) -> Result<ContainerLeaf, Shape>
        ensures exact { result ≡ leaf_in most_kind block.now }
        ensures in_range { IfOk result (IsLeafIn most_kind) }
        ensures differs { IfErr result (λ s. s.want ≢ s.found) }
    {
        ContainerLeaf::read(block, most_kind)
    }

    #[tactic(auto, unfolding(crate::specs::Blocks::leaf_in))]
    fn read(block: &[u8; 4096], most_kind: u32) -> Result<ContainerLeaf, Shape>
        ensures { result ≡ leaf_in most_kind block.now }
    {
        word_in(block, 0, LEAF_MARK, LEAF_MARK)?;
        let index = word_in(block, 8, 0, u64::MAX)?;
        zeros_in(block, 16, 1008)?;
        let mut pvbns = [0; 256];
        let mut kinds = [0; 256];
        ContainerLeaf::read_entries(tail(block, 1024), most_kind, &mut pvbns, &mut kinds)?;
        Ok(ContainerLeaf {
            index,
            pvbns,
            kinds,
        })
    }

    /// Writes the leaf into a block; every byte of it is written.
    #[tactic(auto, using(crate::proofs::Leaves::leaf_again))]
    pub fn encode(&self, into: &mut [u8; 4096])
        requires { IsContainerLeaf self.now }
        ensures reads_back { leaf_at into.new ≡ Ok self.now }
    {
        self.page().finish(into);
    }

    fn page(&self) -> Page
        ensures written { result ≡ leaf_bytes self.now }
        ensures length { length result ≡ 4096 }
        ensures index { self.now.index < 2 ^ 64 }
        ensures pvbns { length self.now.pvbns ≡ 256 }
        ensures kinds { length self.now.kinds ≡ 256 }
    {
        let mut page = Page::new();
        page.word(LEAF_MARK);
        page.word(self.index);
        page.skip(1008);
        ContainerLeaf::write_entries(&self.pvbns, &self.kinds, &mut page);
        page
    }

    /// The entry that bytes begin with.
    #[tactic(auto, unfolding(crate::specs::Blocks::asks_entry))]
    fn read_entry(bytes: &[u8], most_kind: u32) -> Result<(u32, u32), Shape>
        requires { 12 ≤ length bytes.now }
        ensures verdict { verdict_of result ≡ asks_entry most_kind bytes.now }
        ensures value { IfOk result (λ e. (e.0 ≡ place_of bytes.now) × (e.1 ≡ kind_of bytes.now)) }
    {
        let used = half_at(bytes, 8) != 0;
        let pvbn = word_in(bytes, 0, 0, up_to(used, LAST_PLACE))?;
        let kind = half_in(bytes, 8, 0, u64::from(most_kind))?;
        Ok((pvbn as u32, kind as u32))
    }

    /// Entries one after the other.
    fn read_entries(
        bytes: &[u8],
        most_kind: u32,
        pvbns: &mut [u32],
        kinds: &mut [u32],
    ) -> Result<(), Shape>
        requires room { 12 * length pvbns.old ≤ length bytes.now }
        requires same { length kinds.old ≡ length pvbns.old }
        ensures verdict { result ≡ each (length pvbns.old) 12 (asks_entry most_kind) bytes.now }
        ensures pvbns { OnOk result (pvbns.new ≡ items (length pvbns.old) 12 place_of bytes.now) }
        ensures kinds { OnOk result (kinds.new ≡ items (length pvbns.old) 12 kind_of bytes.now) }
    {
        for i in 0..pvbns.len() {
            let entry = ContainerLeaf::read_entry(tail(bytes, 12 * i), most_kind)?;
            pvbns[i] = entry.0;
            kinds[i] = entry.1;
        }
        Ok(())
    }

    /// Writes an entry.
    #[tactic(auto, unfolding(crate::specs::Spelling::entry_bytes))]
    fn write_entry(pvbn: u32, kind: u32, page: &mut Page)
        requires { length page.old + 12 ≤ 4096 }
        ensures written { page.new ≡ page.old ++ entry_bytes (pvbn, kind) }
        ensures length { length page.new ≡ length page.old + 12 }
    {
        page.word(u64::from(pvbn));
        page.half(kind);
    }

    fn write_entries(pvbns: &[u32], kinds: &[u32], page: &mut Page)
        requires room { length page.old + 12 * length pvbns.now ≤ 4096 }
        requires same { length kinds.now ≡ length pvbns.now }
        ensures written { page.new ≡ page.old ++ flat_map entry_bytes (zip pvbns.now kinds.now) }
        ensures length { length page.new ≡ length page.old + 12 * length pvbns.now }
    {
        for i in 0..pvbns.len() {
            ContainerLeaf::write_entry(pvbns[i], kinds[i], page);
        }
    }
}

/// An inner node of a container: the places of 256 children.
#[derive(Clone, Copy, Debug, PartialEq, Eq)]
pub struct ContainerInner {
    /// How far the node is above the leaves, 1 or 2.
    pub level: u8,
    /// Which node of its level it is.
    pub place: u64,
    /// The place of each child, below 1,048,576, or 0 for an absent child, which holds only holes.
    pub children: [u32; 256],
}

impl ContainerInner {
    ghost use Rattle.std.specs.Prelude.{◌≡◌, ◌≢◌, ◌≤◌, ◌<◌, ◌^◌, ◌+◌, ◌++◌, length, IfOk, IfErr};
    ghost use Rattle.fv_codec.specs.Blocks.{inner_at, IsContainerInner};
    ghost use Rattle.fv_codec.specs.Spelling.{inner_bytes};

    /// The inner node that a block spells, or the first field that isn't as said. Goes over the block once.
    #[tactic(auto, using(crate::proofs::Decoded::inner_in_range, crate::proofs::Decoded::inner_differs))]
    pub fn decode(block: &[u8; 4096]) -> Result<ContainerInner, Shape>
        ensures exact { result ≡ inner_at block.now }
        ensures in_range { IfOk result IsContainerInner }
        ensures differs { IfErr result (λ s. s.want ≢ s.found) }
    {
        ContainerInner::read(block)
    }

    #[tactic(auto, unfolding(crate::specs::Blocks::inner_at))]
    fn read(block: &[u8; 4096]) -> Result<ContainerInner, Shape>
        ensures { result ≡ inner_at block.now }
    {
        word_in(block, 0, INNER_MARK, INNER_MARK)?;
        let level = word_in(block, 8, 1, 2)?;
        let place = word_in(block, 16, 0, u64::MAX)?;
        zeros_in(block, 24, 1000)?;
        let mut children = [0; 256];
        places_in(tail(block, 1024), &mut children)?;
        zeros_in(block, 3072, 1024)?;
        Ok(ContainerInner {
            level: level as u8,
            place,
            children,
        })
    }

    /// Writes the inner node into a block; every byte of it is written.
    #[tactic(auto, using(crate::proofs::Inner::inner_again))]
    pub fn encode(&self, into: &mut [u8; 4096])
        requires { IsContainerInner self.now }
        ensures reads_back { inner_at into.new ≡ Ok self.now }
    {
        self.page().finish(into);
    }

    fn page(&self) -> Page
        ensures written { result ≡ inner_bytes self.now }
        ensures length { length result ≡ 4096 }
        ensures place { self.now.place < 2 ^ 64 }
        ensures children { length self.now.children ≡ 256 }
    {
        let mut page = Page::new();
        page.word(INNER_MARK);
        page.word(u64::from(self.level));
        page.word(self.place);
        page.skip(1000);
        page.places(&self.children);
        page.skip(1024);
        page
    }
}
