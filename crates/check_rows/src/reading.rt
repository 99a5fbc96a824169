//! Reads the rows: images as their bytes, and what is drawn of them.

use crate::image::{Image, zeros};
use std::alloc::{AllocError, Global};

/// From a seed so many images are drawn, with so many changes each.
#[derive(Clone, Copy)]
pub struct Draw {
    pub seed: u64,
    pub images: u64,
    pub changes: u64,
}

/// What a row asks for.
#[derive(Clone, Copy)]
pub enum Row {
    /// It was done: it is a remark, begins an image, or lays bytes of the last one.
    Done,
    /// Each image as it stands is judged.
    Each,
    /// Images are drawn.
    Draw(Draw),
    /// It can't be read.
    Unread,
}

/// Reads a row. The images are those of the rows before.
pub fn read_row(alloc: Global, text: &str, images: &mut Vec<Image>) -> Result<Row, AllocError> {
    if text.is_empty() || text.starts_with('#') {
        return Ok(Row::Done);
    }
    let words: Vec<&str> = text.split(' ').collect(alloc)?;
    match words.as_slice() {
        ["image", name] => {
            images.push(zeros(alloc, name)?)?;
            Ok(Row::Done)
        }
        ["lay", at, offset, digits] => lay(alloc, images, at, offset, digits),
        ["each"] => Ok(Row::Each),
        ["draw", seed, count, changes] => Ok(drawing(seed, count, changes)),
        _ => Ok(Row::Unread),
    }
}

fn drawing(seed: &str, images: &str, changes: &str) -> Row {
    match (
        seed.parse::<u64>(),
        images.parse::<u64>(),
        changes.parse::<u64>(),
    ) {
        (Ok(seed), Ok(images), Ok(changes)) => Row::Draw(Draw {
            seed,
            images,
            changes,
        }),
        _ => Row::Unread,
    }
}

/// Lays the bytes of the digits into a block of the last image, from an offset on.
fn lay(
    alloc: Global,
    images: &mut Vec<Image>,
    at: &str,
    offset: &str,
    digits: &str,
) -> Result<Row, AllocError> {
    let (Ok(at), Ok(offset)) = (at.parse::<u64>(), offset.parse::<usize>()) else {
        return Ok(Row::Unread);
    };
    let Some(bytes) = bytes_of(alloc, digits)? else {
        return Ok(Row::Unread);
    };
    let Some(image) = images.last_mut() else {
        return Ok(Row::Unread);
    };
    image.lay(at, offset, bytes.as_slice())?;
    Ok(Row::Done)
}

/// The bytes that pairs of hexadecimal digits say, if they do.
fn bytes_of(alloc: Global, digits: &str) -> Result<Option<Vec<u8>>, AllocError> {
    let mut bytes = Vec::new(alloc);
    let mut rest = digits;
    for _ in 0..digits.len() {
        if rest.is_empty() {
            break;
        }
        let Some((pair, others)) = rest.split_at_checked(2) else {
            return Ok(None);
        };
        let Ok(byte) = u8::from_str_radix(pair, 16) else {
            return Ok(None);
        };
        bytes.push(byte)?;
        rest = others;
    }
    Ok(Some(bytes))
}
