//! For what a disk may stand while a run goes on.

use crate::answers::{SHUT, add_lines, plain_replies};
use crate::bench::{Bench, Program};
use crate::lines::{lines_in, split_lines};
use fv_run::{Order, read_words};
use std::alloc::{AllocError, Global};

/// The states that a run goes through, and which of them a crash may leave. Without states, they aren't known.
#[derive(Drop)]
pub struct Course {
    /// What a disk answers, each answer once.
    pub looks: Vec<Vec<u8>>,
    /// Which answer each state has.
    states: Vec<usize>,
    /// How many lines so many reply lines acknowledge: those up to the last `cp`.
    acknowledged: Vec<usize>,
    /// Whether all is told at the end, as where an aggregate is made or a script is generated. Then each state may stand before the first byte,
    /// and afterwards the last one alone.
    late: bool,
}

pub fn no_course(alloc: Global) -> Course {
    Course {
        looks: Vec::new(alloc),
        states: Vec::new(alloc),
        acknowledged: Vec::new(alloc),
        late: false,
    }
}

/// What the run asks for of the disk, if it does.
pub fn order_of(bench: &Bench) -> Option<Order> {
    match bench.run.program {
        Program::Reference | Program::Dump => None,
        _ => read_words(bench.run.words.as_slice()).ok(),
    }
}

/// The states of the run, where the disk stands for a plain machine or the run makes one.
pub fn course_of(bench: &Bench) -> Result<Course, AllocError> {
    let mut course = no_course(bench.alloc);
    match order_of(bench) {
        Some(Order::Create { blocks }) => course.make(bench, u64::from(blocks))?,
        Some(Order::Run) if bench.blocks != 0 => course.go_on(bench)?,
        Some(Order::Gen { .. }) if bench.blocks != 0 => {
            course.late = true;
            course.go_on(bench)?;
        }
        _ => {}
    }
    Ok(course)
}

impl Course {
    /// The states while an aggregate is made: as before, none, and the new one.
    fn make(&mut self, bench: &Bench, blocks: u64) -> Result<(), AllocError> {
        self.late = true;
        if bench.blocks == 0 {
            self.add(Vec::from_slice(bench.alloc, SHUT)?)?;
        } else {
            self.add_plain(bench, bench.blocks, bench.lines.as_slice())?;
        }
        self.add(Vec::from_slice(bench.alloc, SHUT)?)?;
        self.add_plain(bench, blocks, b"")
    }

    /// The states before the first line of a script and after each. The plain machine is asked at each of them in one go, since what is
    /// asked changes nothing.
    fn go_on(&mut self, bench: &Bench) -> Result<(), AllocError> {
        let asks = bench.run.asks();
        let mut script = Vec::from_slice(bench.alloc, asks)?;
        let mut least = 0;
        self.acknowledged.push(least)?;
        let mut rest = bench.run.script.as_slice();
        for at in 0..rest.len() {
            if rest.is_empty() {
                break;
            }
            let (line, after) = split_lines(rest, 1);
            add_lines(&mut script, line)?;
            script.extend_from_slice(asks)?;
            if line == b"cp\n".as_slice() || line == b"cp".as_slice() {
                least = at + 1;
            }
            self.acknowledged.push(least)?;
            rest = after;
        }
        let lines = bench.lines.as_slice();
        let replies = plain_replies(bench.alloc, bench.blocks, lines, script.as_slice())?;
        self.add_answers(bench, replies.as_slice())
    }

    /// Adds the states whose answers these are, one after another, with the reply to a line of the script between two.
    fn add_answers(&mut self, bench: &Bench, replies: &[u8]) -> Result<(), AllocError> {
        let asks = lines_in(bench.run.asks());
        let mut rest = replies;
        for _ in 0..self.acknowledged.len() {
            let (look, after) = split_lines(rest, asks);
            self.add(Vec::from_slice(bench.alloc, look)?)?;
            rest = split_lines(after, 1).1;
        }
        Ok(())
    }

    fn add_plain(&mut self, bench: &Bench, blocks: u64, lines: &[u8]) -> Result<(), AllocError> {
        self.add(plain_replies(bench.alloc, blocks, lines, bench.run.asks())?)
    }

    /// Adds a state in which a disk answers so.
    fn add(&mut self, look: Vec<u8>) -> Result<(), AllocError> {
        let number = self.number_of(look.as_slice());
        if number == self.looks.len() {
            self.looks.push(look)?;
        }
        self.states.push(number)?;
        Ok(())
    }

    /// The number of an answer; that of the next one where no state has it.
    fn number_of(&self, look: &[u8]) -> usize {
        for (number, other) in self.looks.iter().enumerate() {
            if other.as_slice() == look {
                return number;
            }
        }
        self.looks.len()
    }

    /// The number of an answer, if a state has it that a crash may leave once this was given out.
    pub fn fits(&self, given: &[u8], look: &[u8]) -> Option<usize> {
        let (least, most) = self.lawful(given);
        let number = self.number_of(look);
        for (state, other) in self.states.iter().enumerate() {
            if *other == number && least <= state && state <= most {
                return Some(number);
            }
        }
        None
    }

    /// The first and the last state that a crash may leave once this was given out.
    fn lawful(&self, given: &[u8]) -> (usize, usize) {
        let last = self.states.len().saturating_sub(1);
        if self.late {
            return (if given.is_empty() { 0 } else { last }, last);
        }
        let answered = lines_in(given) as usize;
        match self.acknowledged.get(answered) {
            Some(least) => (*least, answered.saturating_add(1)),
            None => (last, last),
        }
    }

    /// Whether this is the answer after so many lines.
    pub fn is_after(&self, lines: u64, look: &[u8]) -> bool {
        self.states.get(lines as usize) == Some(&self.number_of(look))
    }

    /// How many answers were seen, where those of the first and of the last state are among them; else none.
    pub fn count_seen(&self, seen: &[bool]) -> u64 {
        if !is_seen(seen, self.states.first()) || !is_seen(seen, self.states.last()) {
            return 0;
        }
        let mut count: u64 = 0;
        for seen in seen {
            if *seen {
                count = count.saturating_add(1);
            }
        }
        count
    }
}

fn is_seen(seen: &[bool], number: Option<&usize>) -> bool {
    match number {
        Some(number) => seen.get(*number) == Some(&true),
        None => false,
    }
}
