//! How many calls of each kind there were, and which of them fail.

ghost use Rattle.std.specs.Prelude.{◌≡◌, ◌+◌, ◌-◌, ◌^◌, ◌==◌, min, [], ◌∷◌, ◌++◌, OnOk, OnErr};
ghost use Rattle.std.specs.List.{list_any};

use crate::Call;
use std::alloc::{AllocError, Global};

#[derive(Drop)]
pub(crate) struct Tally {
    made: u64,
    failing: Vec<u64>,
}

impl Tally {
    pub(crate) fn new(alloc: Global) -> Self
        ensures made { result.made ≡ 0 }
        ensures failing { result.failing.items ≡ [] }
    {
        Tally {
            made: 0,
            failing: Vec::new(alloc),
        }
    }

    /// Lets the call number `nth` fail, counted from 0.
    pub(crate) fn fail(&mut self, nth: u64) -> Result<(), AllocError>
        ensures made { self.new.made ≡ self.old.made }
        ensures ok { OnOk result (self.new.failing.items ≡ self.old.failing.items ++ nth ∷ []) }
        ensures err { OnErr result (self.new.failing.items ≡ self.old.failing.items) }
    {
        self.failing.push(nth)?;
        Ok(())
    }

    /// Counts one call, and answers whether it is one of those that fail.
    pub(crate) fn next(&mut self) -> bool
        ensures fails { result ≡ list_any (λ n. n == self.old.made) self.old.failing.items }
        ensures made { self.new.made ≡ min (self.old.made + 1) (2 ^ 64 - 1) }
        ensures failing { self.new.failing.items ≡ self.old.failing.items }
    {
        let fails = self.failing.contains(&self.made);
        self.made = self.made.saturating_add(1);
        fails
    }
}

#[derive(Drop)]
pub(crate) struct Tallies {
    reads: Tally,
    writes: Tally,
    barriers: Tally,
    takes: Tally,
    gives: Tally,
}

impl Tallies {
    ghost use Rattle.fv_memdisk.specs.Tallies.{is_named, IsFresh, CountsOne, Names, SameTallies};

    pub(crate) fn new(alloc: Global) -> Self
        ensures { IsFresh result }
    {
        Tallies {
            reads: Tally::new(alloc),
            writes: Tally::new(alloc),
            barriers: Tally::new(alloc),
            takes: Tally::new(alloc),
            gives: Tally::new(alloc),
        }
    }

    /// Lets the call number `nth` of a kind fail, counted from 0.
    pub(crate) fn fail(&mut self, call: Call, nth: u64) -> Result<(), AllocError>
        ensures ok { OnOk result (Names call nth self.old self.new) }
        ensures err { OnErr result (SameTallies self.old self.new) }
    {
        match call {
            Call::Read => self.reads.fail(nth),
            Call::Write => self.writes.fail(nth),
            Call::Barrier => self.barriers.fail(nth),
            Call::Take => self.takes.fail(nth),
            Call::Give => self.gives.fail(nth),
        }
    }

    /// Counts one call of a kind, and answers whether it is one of those that fail.
    pub(crate) fn next(&mut self, call: Call) -> bool
        ensures fails { result ≡ is_named self.old call }
        ensures counts { CountsOne call self.old self.new }
    {
        match call {
            Call::Read => self.reads.next(),
            Call::Write => self.writes.next(),
            Call::Barrier => self.barriers.next(),
            Call::Take => self.takes.next(),
            Call::Give => self.gives.next(),
        }
    }
}
