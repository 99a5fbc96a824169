//! Fault lines.

use std::alloc::{AllocError, Global};

/// A fault line: its rule, the block of which it is said, what has to stand there, and what does. Lines come in this order.
#[derive(Clone, Copy, Debug, PartialEq, Eq, PartialOrd, Ord)]
pub struct Fault {
    /// 1 to 14.
    pub rule: u64,
    pub block: u64,
    pub want: u64,
    pub found: u64,
}

/// Lines as they were found, in any order and number.
#[derive(Drop)]
pub struct Lines {
    lines: Vec<Fault>,
}

impl Lines {
    pub fn new(alloc: Global) -> Lines {
        Lines {
            lines: Vec::new(alloc),
        }
    }

    /// How many lines were found, equal ones among them.
    pub fn count(&self) -> usize {
        self.lines.len()
    }

    /// A line.
    pub fn add(&mut self, rule: u64, block: u64, want: u64, found: u64) -> Result<(), AllocError> {
        self.lines.push(Fault {
            rule,
            block,
            want,
            found,
        })?;
        Ok(())
    }

    /// A line where a number isn't the one that is wanted.
    pub fn want(&mut self, rule: u64, block: u64, want: u64, found: u64) -> Result<(), AllocError> {
        if want == found {
            return Ok(());
        }
        self.add(rule, block, want, found)
    }

    /// A line of a rule where a number passes its bounds.
    pub fn within(
        &mut self,
        rule: u64,
        block: u64,
        least: u64,
        greatest: u64,
        found: u64,
    ) -> Result<(), AllocError> {
        if found < least {
            self.add(rule, block, least, found)
        } else if found > greatest {
            self.add(rule, block, greatest, found)
        } else {
            Ok(())
        }
    }

    /// All lines of others.
    pub fn add_all(&mut self, others: &Lines) -> Result<(), AllocError> {
        self.lines.extend_from_slice(others.lines.as_slice())
    }

    /// Puts the lines in their order, equal ones once.
    pub fn put_in_order(&mut self, alloc: Global) -> Result<(), AllocError> {
        self.lines.sort()?;
        let mut once = Vec::new(alloc);
        let mut last = None;
        for fault in self.lines.iter() {
            if last != Some(*fault) {
                once.push(*fault)?;
            }
            last = Some(*fault);
        }
        self.lines = once;
        Ok(())
    }

    /// The lines as the program prints them.
    pub fn text(&self, alloc: Global) -> Result<String, AllocError> {
        let mut text = String::new(alloc);
        for fault in self.lines.iter() {
            let Fault {
                rule,
                block,
                want,
                found,
            } = *fault;
            let line = format!(in alloc; "fault {rule} {block} {want:016x} {found:016x}\n")?;
            text.push_str(line.as_str())?;
        }
        Ok(text)
    }

    /// Adds to the number of lines of each rule.
    pub fn tally(&self, counts: &mut [u64; 15]) {
        for fault in self.lines.iter() {
            if let Some(count) = counts.get_mut(fault.rule as usize) {
                *count = count.saturating_add(1);
            }
        }
    }
}
