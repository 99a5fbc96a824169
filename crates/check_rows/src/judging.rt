//! What is said of an image: by the definition, and by the program.

use crate::fault::Lines;
use crate::first::first_pass;
use crate::fourth::fourth_pass;
use crate::image::Image;
use crate::layout::{Counts, Layout, counts_in};
use crate::second::second_pass;
use crate::space::charge_of;
use crate::table::{Tables, tables_of};
use crate::third::third_pass;
use fv_disk::Disk;
use fv_memdisk::MemHost;
use fv_run::flexvol;
use std::alloc::{AllocError, Global};

/// The status of a check, and what it gives out.
#[derive(Drop)]
pub struct Said {
    pub status: u8,
    pub text: String,
}

/// What the program's check says of an image.
pub fn asked(alloc: Global, image: &Image) -> Result<Said, AllocError> {
    let mut host = MemHost::new(alloc, Vec::new(alloc));
    for laid in image.laid.iter() {
        let _ = host.write(laid.at, &laid.block);
    }
    let mut words = Vec::new(alloc);
    words.push(String::from_str(alloc, "check")?)?;
    let status = flexvol(alloc, words.as_slice(), &mut host);
    let given = Vec::from_slice(alloc, host.given())?;
    let text = match String::from_utf8(given).ok() {
        Some(text) => text,
        None => String::new(alloc),
    };
    Ok(Said { status, text })
}

/// What has to be said of an image by the definition. The lines of each rule are counted.
pub fn judged(alloc: Global, image: &Image, counts: &mut [u64; 15]) -> Result<Said, AllocError> {
    match counts_in(alloc, image)? {
        Counts::Nothing => Ok(Said {
            status: 2,
            text: String::new(alloc),
        }),
        Counts::Faults(lines) => with_lines(alloc, lines, counts),
        Counts::Root(layout) => by_passes(alloc, image, layout, counts),
    }
}

fn with_lines(alloc: Global, lines: Lines, counts: &mut [u64; 15]) -> Result<Said, AllocError> {
    let mut lines = lines;
    lines.put_in_order(alloc)?;
    lines.tally(counts);
    Ok(Said {
        status: 1,
        text: lines.text(alloc)?,
    })
}

/// The four passes, each made only where those before found nothing.
fn by_passes(
    alloc: Global,
    image: &Image,
    layout: Layout,
    counts: &mut [u64; 15],
) -> Result<Said, AllocError> {
    let mut layout = layout;
    let mut lines = Lines::new(alloc);
    first_pass(alloc, image, &layout, &mut lines)?;
    if lines.count() != 0 {
        return with_lines(alloc, lines, counts);
    }
    for volume in layout.volumes.iter_mut() {
        volume.read_container(alloc, image)?;
    }
    let volumes = tables_of(alloc, image, &layout)?;
    second_pass(volumes.as_slice(), &mut lines)?;
    if lines.count() == 0 {
        third_pass(alloc, image, &layout, volumes.as_slice(), &mut lines)?;
    }
    if lines.count() == 0 {
        fourth_pass(alloc, image, &layout, volumes.as_slice(), &mut lines)?;
    }
    if lines.count() != 0 {
        return with_lines(alloc, lines, counts);
    }
    valid(alloc, volumes.as_slice())
}

/// An image without a fault is valid: how many volumes it has, and the sum of what they are charged for.
fn valid(alloc: Global, volumes: &[Tables]) -> Result<Said, AllocError> {
    let mut charged: u64 = 0;
    for volume in volumes.iter() {
        charged = charged.saturating_add(charge_of(alloc, volume)?);
    }
    let count = volumes.len();
    Ok(Said {
        status: 0,
        text: format!(in alloc; "valid volumes {count} charged {charged}\n")?,
    })
}
