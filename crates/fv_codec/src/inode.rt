use crate::page::Page;
use crate::pointer::Pointer;
use crate::reading::{byte_in, name_in, some_filled, tail, up_to, word_at, word_in, zeros_in};
use crate::shape::Shape;

/// `FVINODES` as a word.
const MARK: u64 = 0x4656_494e_4f44_4553;

/// The most cells that a file has.
const MOST_CELLS: u64 = 2_097_152;

/// What an inode block says of one file; all of a free record is 0.
#[derive(Clone, Copy, Debug, PartialEq, Eq)]
pub struct InodeRecord {
    /// The name's length, 1 to 64, or 0 for a free record.
    pub name_length: u8,
    /// The name, filled up with zero bytes.
    pub name: [u8; 64],
    /// The file's length in blocks, at most 2,097,152.
    pub length: u32,
    /// The file's reserve in blocks, at most 2,097,152.
    pub reserve: u32,
    /// How many levels of nodes the file has, 0 to 3.
    pub levels: u8,
    /// The root pointer, which leads to cell 0 where there are no levels.
    pub root: Pointer,
}

impl InodeRecord {
    ghost use Rattle.std.specs.Prelude.{◌≡◌, ◌≤◌, ◌+◌, ◌++◌, length, Ok, IfOk};
    ghost use Rattle.fv_codec.specs.Fields.{verdict_of};
    ghost use Rattle.fv_codec.specs.Blocks.{asks_file, file_of};
    ghost use Rattle.fv_codec.specs.Spelling.{file_bytes};

    /// A free record.
    const FREE: InodeRecord = InodeRecord {
        name_length: 0,
        name: [0; 64],
        length: 0,
        reserve: 0,
        levels: 0,
        root: Pointer::HOLE,
    };

    /// The record that bytes begin with.
    #[tactic(auto, unfolding(crate::specs::Blocks::asks_file, crate::specs::Blocks::file_of))]
    fn read(bytes: &[u8]) -> Result<InodeRecord, Shape>
        requires { 240 ≤ length bytes.now }
        ensures verdict { verdict_of result ≡ asks_file bytes.now }
        ensures value { IfOk result (λ r. r ≡ file_of bytes.now) }
    {
        let name_length = byte_in(bytes, 0, 0, 64)?;
        let name = name_in(bytes, 1, name_length as usize)?;
        zeros_in(bytes, 65, 7)?;
        let used = name_length != 0;
        let length = word_in(bytes, 72, 0, up_to(used, MOST_CELLS))?;
        let reserve = word_in(bytes, 80, 0, up_to(used, MOST_CELLS))?;
        let levels = word_in(bytes, 88, 0, up_to(used, 3))?;
        let root = Pointer::read(tail(bytes, 96), used)?;
        zeros_in(bytes, 120, 120)?;
        Ok(InodeRecord {
            name_length: name_length as u8,
            name,
            length: length as u32,
            reserve: reserve as u32,
            levels: levels as u8,
            root,
        })
    }

    /// The record that bytes begin with, which isn't judged.
    #[tactic(auto, unfolding(crate::specs::Bytes::byte_at, crate::specs::Blocks::file_of))]
    fn pick(bytes: &[u8]) -> InodeRecord
        requires room { 240 ≤ length bytes.now }
        requires said { asks_file bytes.now ≡ Ok tt }
        ensures { result ≡ file_of bytes.now }
    {
        let mut name = [0; 64];
        name.copy_from_slice(&bytes[1..65]);
        InodeRecord {
            name_length: bytes[0],
            name,
            length: word_at(bytes, 72) as u32,
            reserve: word_at(bytes, 80) as u32,
            levels: word_at(bytes, 88) as u8,
            root: Pointer::pick(tail(bytes, 96)),
        }
    }

    /// Writes the record.
    #[tactic(auto, unfolding(crate::specs::Spelling::file_bytes))]
    pub(crate) fn write(&self, page: &mut Page)
        requires { length page.old + 240 ≤ 4096 }
        ensures written { page.new ≡ page.old ++ file_bytes self.now }
        ensures length { length page.new ≡ length page.old + 240 }
    {
        page.put(&[self.name_length]);
        page.put(&self.name);
        page.skip(7);
        page.word(u64::from(self.length));
        page.word(u64::from(self.reserve));
        page.word(u64::from(self.levels));
        self.root.write(page);
        page.skip(120);
    }
}

/// Sixteen records of files, not all of them free.
#[derive(Clone, Copy, Debug, PartialEq, Eq)]
pub struct InodeBlock {
    /// Which inode block of its file it is.
    pub index: u64,
    /// The records of the files.
    pub files: [InodeRecord; 16],
}

impl InodeBlock {
    ghost use Rattle.std.specs.Prelude.{◌≡◌, ◌≢◌, ◌≤◌, ◌<◌, ◌^◌, ◌+◌, ◌*◌, ◌++◌, get_or, is_ok, length, true, IfOk, IfErr, OnOk};
    ghost use Rattle.std.specs.List.{flat_map};
    ghost use Rattle.fv_codec.specs.Fields.{each, items};
    ghost use Rattle.fv_codec.specs.Blocks.{all_free, asks_file, file_of, inodes_at, IsInodeBlock, IsInodeRecord};
    ghost use Rattle.fv_codec.specs.Spelling.{file_bytes, inodes_bytes};

    /// The inode block that a block spells, or the first field that isn't as said; a block of free records
    /// alone wants 1 and has 0. Goes over the block once.
    #[tactic(auto, using(crate::proofs::Decoded::inodes_in_range, crate::proofs::Decoded::inodes_differs))]
    pub fn decode(block: &[u8; 4096]) -> Result<InodeBlock, Shape>
        ensures exact { result ≡ inodes_at block.now }
        ensures in_range { IfOk result IsInodeBlock }
        ensures differs { IfErr result (λ s. s.want ≢ s.found) }
    {
        InodeBlock::read(block)
    }

    #[tactic(auto, unfolding(crate::specs::Blocks::inodes_at), using(crate::proofs::Inodes::free_alone))]
    fn read(block: &[u8; 4096]) -> Result<InodeBlock, Shape>
        ensures { result ≡ inodes_at block.now }
    {
        word_in(block, 0, MARK, MARK)?;
        let index = word_in(block, 8, 0, u64::MAX)?;
        zeros_in(block, 16, 240)?;
        let mut files = [InodeRecord::FREE; 16];
        InodeBlock::read_files(tail(block, 256), &mut files)?;
        some_filled(InodeBlock::all_free(&files))?;
        Ok(InodeBlock { index, files })
    }

    /// The record in a slot below 16 of the inode block that a block spells. It reads the record's 240 bytes and judges
    /// nothing.
    #[tactic(auto, using(crate::proofs::Picked::record_of, crate::proofs::Picked::record_said, crate::proofs::Picked::record_fits))]
    pub fn record(block: &[u8; 4096], slot: u32) -> InodeRecord
        requires slot { slot < 16 }
        requires shaped { is_ok (inodes_at block.now) ≡ true }
        ensures file { (d : InodeRecord) → IfOk (inodes_at block.now) (λ b. get_or b.files slot d ≡ result) }
        ensures range { IsInodeRecord result }
    {
        InodeRecord::pick(tail(block, 256 + 240 * slot as usize))
    }

    /// Writes the inode block into a block; every byte of it is written.
    #[tactic(auto, using(crate::proofs::Inodes::inodes_again))]
    pub fn encode(&self, into: &mut [u8; 4096])
        requires { IsInodeBlock self.now }
        ensures reads_back { inodes_at into.new ≡ Ok self.now }
    {
        self.page().finish(into);
    }

    fn page(&self) -> Page
        ensures written { result ≡ inodes_bytes self.now }
        ensures length { length result ≡ 4096 }
        ensures index { self.now.index < 2 ^ 64 }
        ensures files { length self.now.files ≡ 16 }
    {
        let mut page = Page::new();
        page.word(MARK);
        page.word(self.index);
        page.skip(240);
        InodeBlock::write_files(&self.files, &mut page);
        page
    }

    /// Records one after the other.
    #[tactic(auto, unfolding(crate::specs::Fields::each, crate::specs::Fields::items))]
    fn read_files(bytes: &[u8], into: &mut [InodeRecord]) -> Result<(), Shape>
        requires { 240 * length into.old ≤ length bytes.now }
        ensures verdict { result ≡ each (length into.old) 240 asks_file bytes.now }
        ensures value { OnOk result (into.new ≡ items (length into.old) 240 file_of bytes.now) }
    {
        for i in 0..into.len() {
            let file = InodeRecord::read(tail(bytes, 240 * i))?;
            into[i] = file;
        }
        Ok(())
    }

    /// Whether all of the records are free.
    fn all_free(files: &[InodeRecord]) -> bool
        ensures { result ≡ all_free files.now }
    {
        for file in files {
            if file.name_length != 0 {
                return false;
            }
        }
        true
    }

    fn write_files(files: &[InodeRecord], page: &mut Page)
        requires { length page.old + 240 * length files.now ≤ 4096 }
        ensures written { page.new ≡ page.old ++ flat_map file_bytes files.now }
        ensures length { length page.new ≡ length page.old + 240 * length files.now }
    {
        for file in files {
            file.write(page);
        }
    }
}
