//! The bytes of a script, taken from the source in pieces, with the line that lies in them.

ghost use Rattle.std.specs.Prelude.{◌≡◌, ◌≤◌, ◌+◌, length, true, false, take, IfOk};
ghost use Rattle.std.specs.List.{between};
ghost use Rattle.fv_disk.specs.HostCalls.{Takes};
ghost use Rattle.fv_lines.specs.Held.{Held, begun};
ghost use Rattle.fv_lines.specs.Reading.{letters, Fills, IsNext, ReadsOn, SaysAs};

use fv_disk::{Failed, Host};
use fv_script::{LONGEST, before};
use std::marker::Model;

/// The most bytes that are asked of the source at once.
const PIECE: usize = 65_536;

/// How many bytes are held at once: a piece and half of one, so that a line seldom has to move for the next one.
const HELD: usize = 98_304;

/// One byte more than a line may have: so many tell that a line is too long.
const KEPT: usize = LONGEST + 1;

type Pieces = [u8; HELD];

/// The bytes of a script that were taken of the source and aren't read yet, how many bytes more may be read,
/// and whether the source has said that it ends: then none is held, and it isn't asked again. The line that was
/// read last lies before them, as it was taken. A contract sees these.
#[derive(Drop)]
pub struct Script {
    bytes: Pieces,
    // where the line lies
    from: usize,
    to: usize,
    // where the bytes lie that aren't read
    start: usize,
    end: usize,
    // whether the end of the line was read: as long as it wasn't, the bytes that aren't read follow it
    closed: bool,
    room: u64,
    ended: bool,
}

/// What comes next of a line.
#[derive(Clone, Copy, Debug, PartialEq, Eq)]
pub(crate) enum Next {
    /// Its end.
    Line,
    /// Bytes of it, and nothing else is held.
    Part,
    /// Nothing: the script has ended.
    End,
    /// A byte that may not be read.
    PastLimit,
}

impl Model for Script {
    ghost use Rattle.std.specs.Prelude.{◌≡◌, ◌≤◌, ◌+◌, true, false};
    ghost use Rattle.std.specs.List.{between};
    ghost use Rattle.fv_lines.specs.Held.{Held};

    ghost Value = { Held };

    ghost view = { λ s. record { line = between s.from s.to s.bytes; closed = s.closed; bytes = between s.start s.end s.bytes; room = s.room; ended = s.ended } };

    ghost invariant = { λ s. (s.from ≤ s.to) × (s.to ≤ s.start) × (s.start ≤ s.end) × (s.end ≤ 98304) × (s.ended ≡ true → s.start ≡ s.end) × (s.closed ≡ false → s.to ≡ s.start) × (s.end ≤ s.start + 65536) };
}

impl Script {
    ghost use Rattle.fv_lines.specs.Held.{none_taken};

    /// A script of which nothing was taken, and at most `limit` bytes may be read.
    pub fn new(limit: u64) -> Script
        ensures { result ≡ none_taken limit }
    {
        Script {
            bytes: [0; HELD],
            from: 0,
            to: 0,
            start: 0,
            end: 0,
            closed: true,
            room: limit,
            ended: false,
        }
    }

    /// The line that was read last, without its end. Of one that is longer than a command can be it may lack bytes behind the first
    /// 9001, which show so. Costs one step.
    pub fn line(&self) -> &[u8]
        ensures { result.now ≡ self.now.line }
    {
        &self.bytes[self.from..self.to]
    }

    /// Begins with the next line: it goes to the front where nothing is held, so that no byte has to move.
    #[tactic(auto, using(crate::proofs::Spans::none_between))]
    pub(crate) fn begin(&mut self)
        ensures { self.new ≡ begun self.old }
    {
        if self.start == self.end {
            self.start = 0;
            self.end = 0;
        }
        self.from = self.start;
        self.to = self.start;
        self.closed = false;
    }

    /// The next bytes of the line, of those that were taken.
    #[tactic(auto, using(crate::proofs::Pieces::popped_line, crate::proofs::Pieces::popped_part, crate::proofs::Pieces::popped_none, crate::proofs::Pieces::popped_past))]
    fn pop(&mut self) -> Next
        requires { self.old.closed ≡ false }
        ensures { ReadsOn self.old result self.new }
    {
        if self.start == self.end {
            return Next::End;
        }
        let most = self.room.min((self.end - self.start) as u64) as usize;
        let count = count_letters(&self.bytes[self.start..self.start + most]);
        self.start += count;
        self.to = self.start;
        self.room -= count as u64;
        if count < most {
            self.start += 1;
            self.room -= 1;
            self.closed = true;
            return Next::Line;
        }
        if self.start == self.end {
            Next::Part
        } else {
            Next::PastLimit
        }
    }

    /// Takes bytes of the source behind the line where none are left that were taken, and it hasn't said that it ends.
    #[tactic(auto, using(crate::proofs::Pieces::held_still, crate::proofs::Pieces::filled, crate::proofs::Pieces::unfilled))]
    fn fill<H: Host>(&mut self, host: &mut H) -> Result<(), Failed>
        requires { self.old.closed ≡ false }
        ensures fills { Fills self.old (H.shown host.old) self.new (H.shown host.new) result }
        ensures again { self.old.ended ≡ true → (self.new.ended ≡ true) × (host.new ≡ host.old) }
    {
        if self.start < self.end || self.ended {
            return Ok(());
        }
        let (from, to) = make_room(&mut self.bytes, self.from, self.to);
        self.from = from;
        self.to = to;
        self.start = to;
        self.end = to;
        let count = take_behind(host, &mut self.bytes, to)?;
        self.end = to + count;
        self.ended = count == 0;
        Ok(())
    }

    /// What comes next of the line. At `Err` the source failed. A source that has said that it ends isn't
    /// asked again.
    #[tactic(auto, using(crate::proofs::Pieces::nexts, crate::proofs::Pieces::no_next))]
    pub(crate) fn read_on<H: Host>(&mut self, host: &mut H) -> Result<Next, Failed>
        requires { self.old.closed ≡ false }
        ensures next { IsNext self.old (H.shown host.old) self.new (H.shown host.new) result }
        ensures again { self.old.ended ≡ true → (self.new.ended ≡ true) × (host.new ≡ host.old) }
    {
        self.fill(host)?;
        Ok(self.pop())
    }
}

/// How many bytes stand before the first end of a line.
#[tactic(auto, using(fv_script::proofs::Befores::before_within))]
fn count_letters(bytes: &[u8]) -> usize
    ensures count { result ≡ letters bytes.now }
    ensures within { result ≤ length bytes.now }
{
    before(bytes, b'\n')
}

/// Makes room for a piece behind the line that lies between these places: where there is none the line moves to the front, and of one
/// that is too long as many bytes as show so. Answers between which places it lies then.
#[tactic(auto, using(crate::proofs::Spans::moved))]
fn make_room(bytes: &mut Pieces, from: usize, to: usize) -> (usize, usize)
    requires order { from ≤ to }
    requires within { to ≤ 98304 }
    ensures order { result.0 ≤ result.1 }
    ensures room { result.1 + 65536 ≤ 98304 }
    ensures line { SaysAs (between result.0 result.1 bytes.new) (between from to bytes.old) }
{
    if to + PIECE <= HELD {
        return (from, to);
    }
    let kept = (to - from).min(KEPT);
    bytes.copy_within(from..from + kept, 0);
    (0, kept)
}

/// Takes a piece of the source behind so many bytes, and answers how long it is.
fn take_behind<H: Host>(host: &mut H, bytes: &mut Pieces, at: usize) -> Result<usize, Failed>
    requires room { at + 65536 ≤ 98304 }
    ensures takes { Takes (H.shown host.old) (between at (at + 65536) bytes.new) (H.shown host.new) result }
    ensures few { IfOk result (λ count. count ≤ 65536) }
    ensures front { take at bytes.new ≡ take at bytes.old }
{
    host.take(&mut bytes[at..at + PIECE])
}
