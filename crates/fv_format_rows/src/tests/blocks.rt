//! Blocks of images are read and written again, and each wrong field of one is found.

use crate::tests::vectors::{faults, vectors};
use fv_codec::{
    ContainerInner, ContainerLeaf, InodeBlock, InodeRecord, Label, Node, Pointer, Root, Shape,
    SnapRecord, Super, gate_open, open_gate,
};

const HOLE: Pointer = Pointer {
    vvbn: 0,
    pvbn: 0,
    stamp: 0,
};

/// What the digits that follow are.
#[derive(Clone, Copy)]
enum Digits {
    /// So many digits of an offset.
    Offset(u8),
    /// The first digit of a byte.
    High,
    /// The second digit of a byte, after the first.
    Low(u8),
    Number,
}

/// Blocks that are read from their text.
#[derive(Clone, Copy)]
struct Bench {
    kind: u8,
    base: [u8; 4096],
    block: [u8; 4096],
    at: u32,
    digits: Digits,
    number: u64,
    want: u64,
}

impl Bench {
    fn new() -> Bench {
        Bench {
            kind: 0,
            base: [0; 4096],
            block: [0; 4096],
            at: 0,
            digits: Digits::High,
            number: 0,
            want: 0,
        }
    }

    /// One more byte of the text.
    fn take(&mut self, byte: u8) {
        match byte {
            b'A'..=b'Z' => {
                self.kind = byte;
                self.block = [0; 4096];
            }
            b'@' => {
                self.at = 0;
                self.digits = Digits::Offset(3);
            }
            b';' => self.base = self.block,
            b'+' => self.block = self.base,
            b'=' => {
                self.number = 0;
                self.digits = Digits::Number;
            }
            b'/' => {
                self.want = self.number;
                self.number = 0;
            }
            b'0'..=b'9' => self.digit(byte - b'0'),
            b'a'..=b'f' => self.digit(byte - b'a' + 10),
            _ => {}
        }
    }

    /// Whether the block is as its text says, at a byte that ends one.
    fn holds(&self, byte: u8) -> bool {
        match byte {
            b';' => again(self.kind, &self.block) == Ok(self.block),
            b'!' => {
                let fault = Shape {
                    want: self.want,
                    found: self.number,
                };
                again(self.kind, &self.block) == Err(fault)
            }
            _ => true,
        }
    }

    fn digit(&mut self, digit: u8) {
        match self.digits {
            Digits::Offset(left) => {
                self.at = self.at.wrapping_mul(16).wrapping_add(u32::from(digit));
                self.digits = if left > 1 {
                    Digits::Offset(left - 1)
                } else {
                    Digits::High
                };
            }
            Digits::High => self.digits = Digits::Low(digit),
            Digits::Low(high) => {
                if self.at < 4096 {
                    self.block[self.at as usize] = high.wrapping_mul(16).wrapping_add(digit);
                    self.at += 1;
                }
                self.digits = Digits::High;
            }
            Digits::Number => {
                self.number = self.number.wrapping_mul(16).wrapping_add(u64::from(digit));
            }
        }
    }
}

/// What a block's value is encoded to, over a block of other bytes; or why the block has no shape.
fn again(kind: u8, block: &[u8; 4096]) -> Result<[u8; 4096], Shape> {
    let mut into = [255; 4096];
    match kind {
        b'S' => Super::decode(block)?.encode(&mut into),
        b'R' => Root::decode(block)?.encode(&mut into),
        b'L' => Label::decode(block)?.encode(&mut into),
        b'N' => Node::decode(block)?.encode(&mut into),
        b'I' => InodeBlock::decode(block)?.encode(&mut into),
        b'C' => ContainerLeaf::decode(block)?.encode(&mut into),
        _ => ContainerInner::decode(block)?.encode(&mut into),
    }
    Ok(into)
}

/// How many blocks of a text are as it says, or where the first ends that isn't.
fn go_over(text: &str) -> Result<u32, usize> {
    let mut bench = Bench::new();
    let mut tested: u32 = 0;
    for (i, byte) in text.bytes().enumerate() {
        bench.take(byte);
        if !bench.holds(byte) {
            return Err(i);
        }
        if byte == b';' || byte == b'!' {
            tested = tested.saturating_add(1);
        }
    }
    Ok(tested)
}

#[test]
fn blocks_of_images_are_read_and_written_again(rt: HostRuntime) {
    assert!(rt; go_over(vectors()) == Ok(93));
}

#[test]
fn each_wrong_field_is_found(rt: HostRuntime) {
    assert!(rt; go_over(faults()) == Ok(148));
}

/// The block that a text begins.
fn block_of(text: &str) -> [u8; 4096] {
    let mut bench = Bench::new();
    for byte in text.bytes() {
        bench.take(byte);
    }
    bench.block
}

fn pointer(vvbn: u64, pvbn: u64, stamp: u64) -> Pointer {
    Pointer { vvbn, pvbn, stamp }
}

fn super_is_read() -> bool {
    let block = block_of("@0004656414747523031@00e04");
    Super::decode(&block) == Ok(Super { blocks: 1024 })
}

fn root_is_read() -> bool {
    let block = block_of("@0004656524f4f543030@00f02@01701@04710@04f14");
    let mut labels = [0; 64];
    labels[0] = 16;
    labels[1] = 20;
    let root = Root {
        generation: 2,
        version: 1,
        labels,
    };
    Root::decode(&block) == Ok(root)
}

fn inner_is_read() -> bool {
    let block = block_of("@000465643494e4e4552@00f01@4070d@4870e");
    let mut inner = ContainerInner {
        level: 1,
        place: 0,
        children: [0; 256],
    };
    inner.children[0] = 13;
    inner.children[16] = 14;
    ContainerInner::decode(&block) == Ok(inner)
}

fn leaf_is_read() -> bool {
    let block = block_of("@0004656434c45414630@00f10@4070700000005@4130800000001");
    let mut pvbns = [0; 256];
    let mut kinds = [0; 256];
    pvbns[0] = 7;
    pvbns[1] = 8;
    kinds[0] = 5;
    kinds[1] = 1;
    let leaf = ContainerLeaf {
        index: 16,
        pvbns,
        kinds,
    };
    ContainerLeaf::decode(&block) == Ok(leaf)
}

fn node_is_read() -> bool {
    let block = block_of("@00046564e4f44453030@00f02@40702@40f09@41703@41f03@4270a@42f04");
    let mut children = [HOLE; 128];
    children[0] = pointer(2, 9, 3);
    children[1] = pointer(3, 10, 4);
    let node = Node {
        level: 2,
        owner: 0,
        place: 0,
        children,
    };
    Node::decode(&block) == Ok(node)
}

/// A name of one letter.
fn letter(letter: u8) -> [u8; 64] {
    let mut name = [0; 64];
    name[0] = letter;
    name
}

fn record(name_length: u8, name: [u8; 64], length: u32, levels: u8, root: Pointer) -> InodeRecord {
    InodeRecord {
        name_length,
        name,
        length,
        reserve: 0,
        levels,
        root,
    }
}

fn inodes_are_read() -> bool {
    let block = block_of("@0004656494e4f444553@1000166@14f81@15f02@16701@16f08@17704");
    let mut files = [record(0, [0; 64], 0, 0, HOLE); 16];
    files[0] = record(1, letter(b'f'), 129, 2, pointer(1, 8, 4));
    InodeBlock::decode(&block) == Ok(InodeBlock { index: 0, files })
}

fn snapshot(name_length: u8, name: [u8; 64], levels: u8, root: Pointer) -> SnapRecord {
    SnapRecord {
        name_length,
        name,
        levels,
        root,
    }
}

/// A snapshot `s`, and no other.
fn one_snapshot() -> [SnapRecord; 24] {
    let mut snapshots = [snapshot(0, [0; 64], 0, HOLE); 24];
    snapshots[0] = snapshot(1, letter(b's'), 2, pointer(1, 7, 2));
    snapshots
}

fn label_is_read() -> bool {
    let block = block_of(
        "@00046564c4142454c30@00f0163@05702@05f64@067c8@06e10@07703@07f01@08701@08f01@09f13@0a701@0c702@1070173@14f02@15701@15f07@16702",
    );
    let label = Label {
        name_length: 1,
        name: letter(b'c'),
        kind: 2,
        size: 100,
        most: 200,
        span: 4096,
        now: 3,
        parent: 1,
        base_slot: 1,
        splitting: 1,
        known: 0,
        container: 19,
        height: 1,
        levels: 0,
        root: pointer(0, 0, 2),
        snapshots: one_snapshot(),
    };
    Label::decode(&block) == Ok(label)
}

#[test]
fn fields_are_as_the_images_listing_says(rt: HostRuntime) {
    assert!(rt; super_is_read() && root_is_read() && node_is_read());
    assert!(rt; inner_is_read() && leaf_is_read());
    assert!(rt; inodes_are_read() && label_is_read());
}

/// Whether a gate is open whose byte at this offset is another one.
fn is_open_with(offset: usize, byte: u8) -> bool {
    let mut block = [255; 4096];
    open_gate(&mut block);
    if offset < 4096 {
        block[offset] = byte;
    }
    gate_open(&block)
}

#[test]
fn a_gate_is_open_by_its_first_word(rt: HostRuntime) {
    let mut block = [255; 4096];
    open_gate(&mut block);
    assert!(rt; block == block_of("@000474154454f50454e"));
    assert!(rt; is_open_with(8, 1) && !is_open_with(7, b'M'));
}
