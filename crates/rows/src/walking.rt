//! Runs that are stopped at each moment.

use crate::answers::{given_by, image_at, look_at, waiting_at};
use crate::bench::Bench;
use crate::cause::{Cause, because, unread};
use crate::delayed::{generation, has_full_region};
use crate::lines::number;
use fv_memdisk::{MemHost, Tear};
use std::alloc::AllocError;

/// The run is stopped at each moment with each tear, or with the first so many as `3 with 2 tears` says; at least so many answers are seen.
pub fn stopped(bench: &Bench, text: &str) -> Result<(), Cause> {
    let (least, tears) = with_tears(text)?;
    let least = number(least)?;
    let mut seen = unseen(bench)?;
    let mut before: usize = 0;
    for moment in 0..bench.host.moments() {
        let waiting = waiting_at(&bench.host, moment)?;
        let (first, last) = new_tears(before, waiting);
        for number in first..last.min(tears) {
            let state = see_torn(bench, &bench.host, moment, number)?;
            mark(&mut seen, state);
        }
        before = waiting;
    }
    let count = bench.course.count_seen(seen.as_slice());
    if count < least || count == 0 {
        return Err(because("other states were seen", least, count));
    }
    Ok(())
}

/// The run makes at least so many points, and after none of them a region has 64 delayed entries. They are seen as the barriers left the disk.
pub fn pointed(bench: &Bench, least: u64) -> Result<(), Cause> {
    let mut count: u64 = 0;
    let mut last = generation(&mut image_at(&bench.host, 0, Tear::Old)?);
    for moment in 0..bench.host.moments() {
        let mut image = image_at(&bench.host, moment, Tear::Old)?;
        let generation = generation(&mut image);
        if generation != last && has_full_region(&mut image) {
            return Err(because("a point leaves 64 delayed entries", moment, count));
        }
        count = count.saturating_add(u64::from(generation != last));
        last = generation;
    }
    if count < least {
        return Err(because("so many points were made", least, count));
    }
    Ok(())
}

/// What a walk says, and how many tears it tries, as `each with 2 tears` does; all of them where it doesn't say.
pub fn with_tears(text: &str) -> Result<(&str, u32), Cause> {
    match text.split_once(" with ") {
        Some((walk, tears)) => Ok((walk, tears_in(tears)?)),
        None => Ok((text, TEARS)),
    }
}

/// How many tears a text says, as `2 tears` does.
fn tears_in(text: &str) -> Result<u32, Cause> {
    let tears = number(text.strip_suffix(" tears").ok_or(unread())?)?;
    Ok(u32::try_from(tears).unwrap_or(TEARS))
}

/// For each answer of a run that it wasn't seen.
pub fn unseen(bench: &Bench) -> Result<Vec<bool>, AllocError> {
    let mut seen = Vec::new(bench.alloc);
    for _ in bench.course.looks.iter() {
        seen.push(false)?;
    }
    Ok(seen)
}

/// At most so many tears are told apart, of which the first four tear all blocks in one way.
const TEARS: u32 = 67;

/// What the tear of a number does to the blocks that wait for a barrier.
fn tear_of(number: u32) -> Tear {
    match number {
        0 => Tear::Old,
        1 => Tear::New,
        2 => Tear::Fill(255),
        3 => Tear::Fill(0),
        _ => Tear::First(number.saturating_sub(3)),
    }
}

/// How many tears leave different images where so many blocks wait for a barrier: without any, none does anything; and the first so many
/// of all of them are `Tear::New`.
fn tears_of(waiting: usize) -> u32 {
    if waiting == 0 {
        1
    } else {
        u32::try_from(waiting).unwrap_or(TEARS).saturating_add(3)
    }
}

/// The tears that leave other images than those of the moment before, as the number of the first one and that behind the last one. Where
/// one block more waits, the call between wrote it. Then the tears that leave it as it was, `Tear::Old` and the first so many of those
/// before, leave what they left: so where 40 blocks wait and then 41, all images but 3 are those of before.
fn new_tears(before: usize, waiting: usize) -> (u32, u32) {
    if waiting == before.saturating_add(1) {
        (1, 4)
    } else {
        (0, tears_of(waiting))
    }
}

/// Looks at the images of a moment with so many tears, as long as they leave different ones: each stands for a state for which it may stand.
pub fn see(
    bench: &Bench,
    host: &MemHost,
    moment: u64,
    tears: u32,
    seen: &mut Vec<bool>,
) -> Result<(), Cause> {
    let apart = tears_of(waiting_at(host, moment)?);
    for number in 0..apart.min(tears) {
        let state = see_torn(bench, host, moment, number)?;
        mark(seen, state);
    }
    Ok(())
}

/// Looks at the image of a moment with the tear of a number, and answers the number of its answer, which has to be one that it may have. No region
/// has 64 delayed entries, neither in the image nor once it was asked.
pub fn see_torn(bench: &Bench, host: &MemHost, moment: u64, number: u32) -> Result<usize, Cause> {
    let mut image = image_at(host, moment, tear_of(number))?;
    if has_full_region(&mut image) {
        return Err(because("a region has 64 delayed entries", moment, u64::from(number)));
    }
    match state_of(bench, &mut image, given_by(host, moment))? {
        Some(state) if !has_full_region(&mut image) => Ok(state),
        Some(_) => Err(because(
            "a point leaves 64 delayed entries",
            moment,
            u64::from(number),
        )),
        None => Err(because("an image stands for other lines", moment, u64::from(number))),
    }
}

fn mark(seen: &mut Vec<bool>, state: usize) {
    if let Some(seen) = seen.get_mut(state) {
        *seen = true;
    }
}

/// The number of an image's answer, if it may have it. It is asked twice, since the first time makes a consistency point over what the
/// crash left.
fn state_of(bench: &Bench, image: &mut MemHost, given: &[u8]) -> Result<Option<usize>, AllocError> {
    let asks = bench.run.asks();
    let first = look_at(bench.alloc, image, asks)?;
    let again = look_at(bench.alloc, image, asks)?;
    if first.as_slice() != again.as_slice() {
        return Ok(None);
    }
    Ok(bench.course.fits(given, first.as_slice()))
}
