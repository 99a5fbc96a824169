//! Changes of one bit or one field, drawn by lot.

use crate::image::Image;
use fv_disk::Block;

/// How many bytes a mark has.
const MARK: usize = 8;

/// The blocks before this one are fixed and no map.
const FIXED: u64 = 5;

/// A sequence of numbers that looks random.
#[derive(Clone, Copy)]
pub struct Lot {
    state: u64,
}

/// The sequence that begins with a seed.
pub fn lot_of(seed: u64) -> Lot {
    Lot { state: seed }
}

/// A place in an image: which of its blocks that were laid, and an offset there.
#[derive(Clone, Copy)]
struct Spot {
    laid: usize,
    offset: usize,
}

/// A field of a block.
#[derive(Clone, Copy)]
struct Field {
    start: usize,
    /// 8 bytes, or 4 where it is the kind of an entry.
    size: usize,
}

impl Lot {
    /// The next number below a bound, which is below 2^32; 0 where the bound is 0. The multiplier is that of Knuth's MMIX.
    pub fn below(&mut self, bound: u64) -> u64 {
        self.state = self
            .state
            .wrapping_mul(6_364_136_223_846_793_005)
            .wrapping_add(1_442_695_040_888_963_407);
        (self.state >> 32).wrapping_mul(bound) >> 32
    }

    /// A byte that isn't zero behind the mark of a block that was laid, mostly of one that isn't fixed; one time in eight one of the mark, and
    /// one time in four one behind it.
    fn spot(&mut self, image: &Image) -> Spot {
        let laid = self.laid(image);
        let from = if self.below(8) == 0 { 0 } else { MARK };
        let Some(place) = image.laid.get(laid) else {
            return Spot { laid, offset: 0 };
        };
        let chosen = self.below(bytes_in(&place.block, from));
        let behind = if self.below(4) == 0 {
            self.below(48)
        } else {
            0
        };
        let offset = byte_in(&place.block, from, chosen).saturating_add(behind as usize) % 4096;
        Spot { laid, offset }
    }

    /// A block that was laid. One that is fixed is drawn anew, once.
    fn laid(&mut self, image: &Image) -> usize {
        let laid = self.below(image.laid.len() as u64) as usize;
        match image.laid.get(laid) {
            Some(place) if place.at < FIXED => self.below(image.laid.len() as u64) as usize,
            _ => laid,
        }
    }

    /// A number in place of one: its neighbours, a small one, a power of two, or that of a field elsewhere.
    fn number(&mut self, image: &Image, number: u64) -> u64 {
        match self.below(12) {
            0 | 1 => 0,
            2 => number.wrapping_add(1),
            3 => number.wrapping_sub(1),
            4 | 5 => self.below(8),
            6 => self.below(64),
            7 => 1u64 << (self.below(64) % 64),
            _ => {
                let other = self.spot(image);
                match image.laid.get(other.laid) {
                    Some(laid) => read(&laid.block, field_at(&laid.block, other.offset)),
                    None => 0,
                }
            }
        }
    }
}

/// Changes a bit of the image, or a field.
pub fn change(image: &mut Image, lot: &mut Lot) {
    let spot = lot.spot(image);
    let bit = lot.below(8);
    let takes_bit = lot.below(4) == 0;
    let Some(place) = image.laid.get(spot.laid) else {
        return;
    };
    let field = field_at(&place.block, spot.offset);
    let number = read(&place.block, field);
    let other = lot.number(image, number);
    let Some(laid) = image.laid.get_mut(spot.laid) else {
        return;
    };
    if takes_bit {
        flip(&mut laid.block, spot.offset, bit);
    } else {
        write(&mut laid.block, field, other);
    }
}

/// How many bytes of a block from an offset on aren't zero.
fn bytes_in(block: &Block, from: usize) -> u64 {
    let mut count: u64 = 0;
    for byte in block.iter().skip(from) {
        count = count.saturating_add(u64::from(*byte != 0));
    }
    count
}

/// Where the byte of a number, from 0, of those lies; 0 where there is none.
fn byte_in(block: &Block, from: usize, number: u64) -> usize {
    let mut left = number;
    for (offset, byte) in block.iter().enumerate().skip(from) {
        if *byte == 0 {
            continue;
        }
        if left == 0 {
            return offset;
        }
        left -= 1;
    }
    0
}

/// The field in which a byte lies: the place or the kind of an entry of a leaf, and else a word.
fn field_at(block: &Block, offset: usize) -> Field {
    if !block.starts_with(b"FVCLEAF0") || offset < 1024 {
        return Field {
            start: offset.saturating_sub(offset % 8),
            size: 8,
        };
    }
    let behind = (offset - 1024) % 12;
    let entry = offset.saturating_sub(behind);
    if behind < 8 {
        Field {
            start: entry,
            size: 8,
        }
    } else {
        Field {
            start: entry.saturating_add(8),
            size: 4,
        }
    }
}

/// The number that a field says.
fn read(block: &Block, field: Field) -> u64 {
    let mut number: u64 = 0;
    for byte in block.iter().skip(field.start).take(field.size) {
        number = number.wrapping_mul(256).wrapping_add(u64::from(*byte));
    }
    number
}

fn write(block: &mut Block, field: Field, number: u64) {
    let bytes = number.to_be_bytes();
    let own = bytes.iter().skip(8usize.saturating_sub(field.size));
    for (into, byte) in block.iter_mut().skip(field.start).zip(own) {
        *into = *byte;
    }
}

fn flip(block: &mut Block, offset: usize, bit: u64) {
    if let Some(byte) = block.get_mut(offset) {
        *byte ^= 1 << (bit % 8);
    }
}
