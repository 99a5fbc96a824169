//! Draws changes of images, and holds what the program's check says of each against the definition of its fault lines, computed slowly.
//!
//! It prints what came out otherwise, and at the end how many images there were, and how many lines of each rule. `README.md` has more.
#![tactic(auto)]

mod blocks;
mod fault;
mod first;
mod fourth;
mod image;
mod judging;
mod layout;
mod lot;
mod reading;
mod second;
mod space;
mod table;
mod third;
mod walk;

use crate::image::Image;
use crate::judging::{asked, judged};
use crate::lot::{change, lot_of};
use crate::reading::{Draw, Row, read_row};
use std::{fs, io};

/// How many images were judged, how many had faults, and how many lines came of each rule.
#[derive(Clone, Copy)]
struct Tally {
    images: u64,
    faulty: u64,
    lines: [u64; 15],
}

fn main(rt: HostRuntime) -> io::Result<()> {
    let text = fs::read_to_string(&rt, "images.row")?;
    let mut images = Vec::new(rt.alloc());
    let mut tally = Tally {
        images: 0,
        faulty: 0,
        lines: [0; 15],
    };
    for line in text.as_str().lines() {
        match read_row(rt.alloc(), line, &mut images)? {
            Row::Done => {}
            Row::Each => judge_each(&rt, images.as_slice(), &mut tally)?,
            Row::Draw(draw) => judge_drawn(&rt, images.as_slice(), draw, &mut tally)?,
            Row::Unread => println!(rt; "can't be read: {line}")?,
        }
    }
    tell(&rt, &tally)
}

/// Judges each image as it stands. None has a fault.
fn judge_each(rt: &HostRuntime, images: &[Image], tally: &mut Tally) -> io::Result<()> {
    for image in images.iter() {
        let before = tally.faulty;
        judge(rt, image, tally)?;
        if tally.faulty != before {
            println!(rt; "{} has faults", image.name.as_str())?;
        }
    }
    Ok(())
}

/// Judges images that are drawn.
fn judge_drawn(
    rt: &HostRuntime,
    images: &[Image],
    draw: Draw,
    tally: &mut Tally,
) -> io::Result<()> {
    let mut lot = lot_of(draw.seed);
    for _ in 0..draw.images {
        let number = lot.below(images.len() as u64);
        let Some(image) = images.get(number as usize) else {
            return Ok(());
        };
        let mut changed = image.copied(rt.alloc())?;
        for _ in 0..draw.changes {
            change(&mut changed, &mut lot);
        }
        judge(rt, &changed, tally)?;
    }
    Ok(())
}

/// Judges an image by the definition, and holds what the program's check says against that.
fn judge(rt: &HostRuntime, image: &Image, tally: &mut Tally) -> io::Result<()> {
    let wanted = judged(rt.alloc(), image, &mut tally.lines)?;
    let said = asked(rt.alloc(), image)?;
    tally.images = tally.images.saturating_add(1);
    tally.faulty = tally.faulty.saturating_add(u64::from(wanted.status != 0));
    if said.status == wanted.status && said.text.as_str() == wanted.text.as_str() {
        return Ok(());
    }
    println!(rt; "image {} of {}", tally.images, image.name.as_str())?;
    println!(rt; "wanted {}\n{}", wanted.status, wanted.text.as_str())?;
    println!(rt; "said {}\n{}", said.status, said.text.as_str())
}

/// Tells what there was.
fn tell(rt: &HostRuntime, tally: &Tally) -> io::Result<()> {
    let mut rules = String::new(rt.alloc());
    for lines in tally.lines.iter().skip(1) {
        rules.push_str(format!(in rt.alloc(); " {lines}")?.as_str())?;
    }
    println!(rt;
        "{} images, {} faulty, lines of the rules 1 to 14:{}",
        tally.images,
        tally.faulty,
        rules.as_str()
    )
}
