use crate::page::Page;
use crate::pointer::Pointer;
use crate::reading::{LAST_PLACE, name_in, step_in, tail, up_to, word_at, word_in, zeros_in};
use crate::shape::Shape;

/// `FVLABEL0` as a word.
const MARK: u64 = 0x4656_4c41_4245_4c30;

/// The greatest size of a volume.
const MOST_SIZE: u64 = 500_000;

/// The greatest stamp, 2^62.
const MOST_STAMPS: u64 = 0x4000_0000_0000_0000;

/// What a label says of one snapshot; all of a free record is 0.
#[derive(Clone, Copy, Debug, PartialEq, Eq)]
pub struct SnapRecord {
    /// The name's length, 1 to 64, or 0 for a free record.
    pub name_length: u8,
    /// The name, filled up with zero bytes.
    pub name: [u8; 64],
    /// How many levels of nodes the snapshot's inode file has, 0 to 2.
    pub levels: u8,
    /// The root pointer of the snapshot's inode file.
    pub root: Pointer,
}

impl SnapRecord {
    ghost use Rattle.std.specs.Prelude.{◌≡◌, ◌≤◌, ◌+◌, ◌++◌, length, IfOk};
    ghost use Rattle.fv_codec.specs.Fields.{verdict_of};
    ghost use Rattle.fv_codec.specs.Blocks.{asks_snap, snap_of};
    ghost use Rattle.fv_codec.specs.Spelling.{snap_bytes};

    /// A free record.
    const FREE: SnapRecord = SnapRecord {
        name_length: 0,
        name: [0; 64],
        levels: 0,
        root: Pointer::HOLE,
    };

    /// The record that bytes begin with.
    #[tactic(auto, unfolding(crate::specs::Blocks::asks_snap, crate::specs::Blocks::snap_of))]
    fn read(bytes: &[u8]) -> Result<SnapRecord, Shape>
        requires { 128 ≤ length bytes.now }
        ensures verdict { verdict_of result ≡ asks_snap bytes.now }
        ensures value { IfOk result (λ s. s ≡ snap_of bytes.now) }
    {
        let name_length = word_in(bytes, 0, 0, 64)?;
        let name = name_in(bytes, 8, name_length as usize)?;
        let used = name_length != 0;
        let levels = word_in(bytes, 72, 0, up_to(used, 2))?;
        let root = Pointer::read(tail(bytes, 80), used)?;
        zeros_in(bytes, 104, 24)?;
        Ok(SnapRecord {
            name_length: name_length as u8,
            name,
            levels: levels as u8,
            root,
        })
    }

    /// Writes the record.
    #[tactic(auto, unfolding(crate::specs::Spelling::snap_bytes))]
    fn write(&self, page: &mut Page)
        requires { length page.old + 128 ≤ 4096 }
        ensures written { page.new ≡ page.old ++ snap_bytes self.now }
        ensures length { length page.new ≡ length page.old + 128 }
    {
        page.word(u64::from(self.name_length));
        page.put(&self.name);
        page.word(u64::from(self.levels));
        self.root.write(page);
        page.skip(24);
    }
}

/// A volume's label.
#[derive(Clone, Copy, Debug, PartialEq, Eq)]
pub struct Label {
    /// The name's length, 1 to 64.
    pub name_length: u8,
    /// The name, filled up with zero bytes.
    pub name: [u8; 64],
    /// How space is guaranteed: 0 for the volume, 1 for its files, 2 for none.
    pub kind: u8,
    /// The size in blocks, 1 to 500,000 and at most `most`.
    pub size: u32,
    /// The greatest size that the volume may get, 2 to 1,000,000.
    pub most: u32,
    /// How many VVBNs there are for data, a multiple of 4096 from 4096 to 1,048,576.
    pub span: u32,
    /// The last stamp that was given, at most 2^62.
    pub now: u64,
    /// 0 for no base, or the parent's slot plus 1, at most 64.
    pub parent: u8,
    /// 0 for no base, or the base snapshot's map slot, 1 to 24.
    pub base_slot: u8,
    /// 1 where the volume is splitting from its base, else 0.
    pub splitting: u8,
    /// 1 where no pointer of the volume is unknown, else 0; 0 where it is splitting.
    pub known: u8,
    /// The place of the container's root, below 1,048,576.
    pub container: u32,
    /// How many levels of inner nodes the container has, 1 or 2.
    pub height: u8,
    /// How many levels of nodes the active inode file has, 0 to 2.
    pub levels: u8,
    /// The root pointer of the active inode file.
    pub root: Pointer,
    /// The snapshots: record `j - 1` is map slot `j`.
    pub snapshots: [SnapRecord; 24],
}

impl Label {
    ghost use Rattle.std.specs.Prelude.{◌≡◌, ◌≤◌, ◌<◌, ◌^◌, ◌+◌, ◌*◌, ◌++◌, ◌≢◌, length, IfOk, IfErr, OnOk};
    ghost use Rattle.std.specs.List.{flat_map};
    ghost use Rattle.fv_codec.specs.Fields.{each, items};
    ghost use Rattle.fv_codec.specs.Blocks.{asks_snap, label_at, snap_of, IsLabel};
    ghost use Rattle.fv_codec.specs.Spelling.{label_bytes, label_head, label_numbers, snap_bytes};

    /// The label that a block spells, or the first field that isn't as said. Goes over the block once.
    #[tactic(auto, using(crate::proofs::Decoded::label_in_range, crate::proofs::Decoded::label_differs))]
    pub fn decode(block: &[u8; 4096]) -> Result<Label, Shape>
        ensures exact { result ≡ label_at block.now }
        ensures in_range { IfOk result IsLabel }
        ensures differs { IfErr result (λ s. s.want ≢ s.found) }
    {
        Label::read(block)
    }

    #[tactic(auto, unfolding(crate::specs::Blocks::label_at))]
    fn read(block: &[u8; 4096]) -> Result<Label, Shape>
        ensures { result ≡ label_at block.now }
    {
        word_in(block, 0, MARK, MARK)?;
        let name_length = word_in(block, 8, 1, 64)?;
        let name = name_in(block, 16, name_length as usize)?;
        let kind = word_in(block, 80, 0, 2)?;
        let size = word_in(block, 88, 1, word_at(block, 96).min(MOST_SIZE))?;
        let most = word_in(block, 96, 2, 1_000_000)?;
        let span = step_in(block, 104, 4096, 4096, 1_048_576)?;
        let now = word_in(block, 112, 0, MOST_STAMPS)?;
        let parent = word_in(block, 120, 0, 64)?;
        let based = parent != 0;
        let base_slot = word_in(block, 128, up_to(based, 1), up_to(based, 24))?;
        let splitting = word_in(block, 136, 0, up_to(based, 1))?;
        let known = word_in(block, 144, 0, up_to(splitting == 0, 1))?;
        let container = word_in(block, 152, 0, LAST_PLACE)?;
        let height = word_in(block, 160, 1, 2)?;
        let levels = word_in(block, 168, 0, 2)?;
        let root = Pointer::read(tail(block, 176), true)?;
        zeros_in(block, 200, 56)?;
        let mut snapshots = [SnapRecord::FREE; 24];
        Label::read_snapshots(tail(block, 256), &mut snapshots)?;
        zeros_in(block, 3328, 768)?;
        Ok(Label {
            name_length: name_length as u8,
            name,
            kind: kind as u8,
            size: size as u32,
            most: most as u32,
            span: span as u32,
            now,
            parent: parent as u8,
            base_slot: base_slot as u8,
            splitting: splitting as u8,
            known: known as u8,
            container: container as u32,
            height: height as u8,
            levels: levels as u8,
            root,
            snapshots,
        })
    }

    /// Writes the label into a block; every byte of it is written.
    #[tactic(auto, using(crate::proofs::Labels::label_again))]
    pub fn encode(&self, into: &mut [u8; 4096])
        requires { IsLabel self.now }
        ensures reads_back { label_at into.new ≡ Ok self.entry.now }
    {
        self.page().finish(into);
    }

    fn page(&self) -> Page
        ensures written { result ≡ label_bytes self.entry.now }
        ensures length { length result ≡ 4096 }
        ensures name { length self.entry.now.name ≡ 64 }
        ensures snapshots { length self.entry.now.snapshots ≡ 24 }
    {
        let mut page = Page::new();
        self.write_head(&mut page);
        self.write_numbers(&mut page);
        self.root.write(&mut page);
        page.skip(56);
        Label::write_snapshots(&self.snapshots, &mut page);
        page.skip(768);
        page
    }

    /// Writes the name and the numbers up to the parent.
    #[tactic(auto, unfolding(crate::specs::Spelling::label_head))]
    fn write_head(&self, page: &mut Page)
        requires { length page.old + 128 ≤ 4096 }
        ensures written { page.new ≡ page.old ++ label_head self.entry.now }
        ensures length { length page.new ≡ length page.old + 128 }
        ensures name { length self.entry.now.name ≡ 64 }
    {
        page.word(MARK);
        page.word(u64::from(self.name_length));
        page.put(&self.name);
        page.word(u64::from(self.kind));
        page.word(u64::from(self.size));
        page.word(u64::from(self.most));
        page.word(u64::from(self.span));
        page.word(self.now);
        page.word(u64::from(self.parent));
    }

    /// Writes the numbers from the base's slot to the levels.
    #[tactic(auto, unfolding(crate::specs::Spelling::label_numbers))]
    fn write_numbers(&self, page: &mut Page)
        requires { length page.old + 48 ≤ 4096 }
        ensures written { page.new ≡ page.old ++ label_numbers self.entry.now }
        ensures length { length page.new ≡ length page.old + 48 }
    {
        page.word(u64::from(self.base_slot));
        page.word(u64::from(self.splitting));
        page.word(u64::from(self.known));
        page.word(u64::from(self.container));
        page.word(u64::from(self.height));
        page.word(u64::from(self.levels));
    }

    /// Records one after the other.
    #[tactic(auto, unfolding(crate::specs::Fields::each, crate::specs::Fields::items))]
    fn read_snapshots(bytes: &[u8], into: &mut [SnapRecord]) -> Result<(), Shape>
        requires { 128 * length into.old ≤ length bytes.now }
        ensures verdict { result ≡ each (length into.old) 128 asks_snap bytes.now }
        ensures value { OnOk result (into.new ≡ items (length into.old) 128 snap_of bytes.now) }
    {
        for i in 0..into.len() {
            let snap = SnapRecord::read(tail(bytes, 128 * i))?;
            into[i] = snap;
        }
        Ok(())
    }

    fn write_snapshots(snapshots: &[SnapRecord], page: &mut Page)
        requires { length page.old + 128 * length snapshots.now ≤ 4096 }
        ensures written { page.new ≡ page.old ++ flat_map snap_bytes snapshots.now }
        ensures length { length page.new ≡ length page.old + 128 * length snapshots.now }
    {
        for snap in snapshots {
            snap.write(page);
        }
    }
}
