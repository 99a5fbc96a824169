//! Lines of bytes, and what the words of a row stand for.

use crate::cause::{Cause, unread};
use std::alloc::{AllocError, Global};

/// How many lines end in a text.
pub fn lines_in(text: &[u8]) -> u64 {
    let mut count: u64 = 0;
    for byte in text {
        if *byte == b'\n' {
            count = count.saturating_add(1);
        }
    }
    count
}

/// The first lines of a text, all of it where it has fewer, and what comes after them.
pub fn split_lines(text: &[u8], lines: u64) -> (&[u8], &[u8]) {
    let mut left = lines;
    for (at, byte) in text.iter().enumerate() {
        if left == 0 {
            return text.split_at(at);
        }
        if *byte == b'\n' {
            left -= 1;
        }
    }
    (text, b"")
}

/// The number of the first line, from 1, in which two texts differ.
pub fn first_difference(one: &[u8], other: &[u8]) -> Option<u64> {
    if one == other {
        return None;
    }
    let mut line: u64 = 1;
    for (a, b) in one.iter().zip(other) {
        if *a != *b {
            return Some(line);
        }
        if *a == b'\n' {
            line = line.saturating_add(1);
        }
    }
    Some(line)
}

/// The number that a word of decimal digits says.
pub fn number(word: &str) -> Result<u64, Cause> {
    word.parse::<u64>().ok().ok_or(unread())
}

/// The number that a word of hexadecimal digits says.
pub fn hexadecimal(word: &str) -> Result<u64, Cause> {
    u64::from_str_radix(word, 16).ok().ok_or(unread())
}

/// The words of a text where its shape has 1, 2 and 3. All its other words are those of the shape.
pub fn gaps<'a>(text: &'a str, shape: &str) -> Result<(&'a str, &'a str, &'a str), Cause> {
    let mut found = ("", "", "");
    let mut words = text.split(' ');
    for wanted in shape.split(' ') {
        let word = words.next().ok_or(unread())?;
        match wanted {
            "1" => found.0 = word,
            "2" => found.1 = word,
            "3" => found.2 = word,
            _ if wanted == word => {}
            _ => return Err(unread()),
        }
    }
    match words.next() {
        Some(_) => Err(unread()),
        None => Ok(found),
    }
}

/// What a line of a row stands for: a line for each number from the first to the last, with the number or without it between a head
/// and a tail, or a filler so many times.
#[derive(Clone, Copy)]
pub struct Spread<'a> {
    pub first: u64,
    pub last: u64,
    head: &'a str,
    counted: bool,
    times: u64,
    filler: &'a str,
    tail: &'a str,
}

/// What a line stands for. `{0..3}` stands for a number in a line for each, `{3 times}` for so many lines, `{3*x}` for the text so many
/// times.
pub fn read_spread(line: &str) -> Result<Spread<'_>, Cause> {
    let Some((head, rest)) = line.split_once('{') else {
        return Ok(alone(line, ""));
    };
    let (inner, tail) = rest.split_once('}').ok_or(unread())?;
    let mut spread = alone(head, tail);
    if let Some((first, last)) = inner.split_once("..") {
        spread.first = number(first)?;
        spread.last = number(last)?;
        spread.counted = true;
    } else if let Some((times, filler)) = inner.split_once('*') {
        spread.times = number(times)?;
        spread.filler = filler;
    } else {
        spread.last = number(inner.strip_suffix(" times").ok_or(unread())?)?;
    }
    Ok(spread)
}

/// One line.
fn alone<'a>(head: &'a str, tail: &'a str) -> Spread<'a> {
    Spread {
        first: 1,
        last: 1,
        head,
        counted: false,
        times: 0,
        filler: "",
        tail,
    }
}

/// The line with this number.
pub fn line_of(alloc: Global, spread: &Spread<'_>, number: u64) -> Result<String, AllocError> {
    let mut line = String::from_str(alloc, spread.head)?;
    if spread.counted {
        line.push_str(format!(in alloc; "{number}")?.as_str())?;
    }
    for _ in 0..spread.times {
        line.push_str(spread.filler)?;
    }
    line.push_str(spread.tail)?;
    Ok(line)
}

/// Adds the bytes that a text stands for: `\x` and two hexadecimal digits stand for one byte.
pub fn add_bytes(into: &mut Vec<u8>, text: &str) -> Result<(), Cause> {
    let mut pieces = text.split("\\x");
    into.extend_from_slice(pieces.next().unwrap_or("").as_bytes())?;
    for piece in pieces {
        let (digits, rest) = piece.split_at_checked(2).ok_or(unread())?;
        let byte = u8::from_str_radix(digits, 16).ok().ok_or(unread())?;
        into.extend_from_slice(&[byte])?;
        into.extend_from_slice(rest.as_bytes())?;
    }
    Ok(())
}

/// Adds the bytes that pairs of hexadecimal digits say.
pub fn add_pairs(into: &mut Vec<u8>, digits: &str) -> Result<(), Cause> {
    let mut rest = digits;
    for _ in 0..digits.len() / 2 {
        let (pair, others) = rest.split_at_checked(2).ok_or(unread())?;
        let byte = u8::from_str_radix(pair, 16).ok().ok_or(unread())?;
        into.extend_from_slice(&[byte])?;
        rest = others;
    }
    if rest.is_empty() {
        Ok(())
    } else {
        Err(unread())
    }
}

/// Adds a line of a run.
pub fn add_line(into: &mut Vec<u8>, text: &str) -> Result<(), Cause> {
    add_bytes(into, text)?;
    into.extend_from_slice(b"\n")?;
    Ok(())
}

/// Adds a word of a command line. `""` is the empty one.
pub fn add_word(alloc: Global, words: &mut Vec<String>, text: &str) -> Result<(), Cause> {
    let mut bytes = Vec::new(alloc);
    if text != "\"\"" {
        add_bytes(&mut bytes, text)?;
    }
    let word = String::from_utf8(bytes).ok().ok_or(unread())?;
    words.push(word).map_err(AllocError::from)?;
    Ok(())
}
