//! Which blocks were written since the last barrier.

ghost use Rattle.std.specs.Prelude.{◌≡◌, ℕ, ◌+◌, ◌-◌, ◌^◌, ◌<◌, ◌≤◌, length, OnOk, IfOk};
ghost use Rattle.std.specs.Ordering.{nat_cmp};
ghost use Rattle.std.specs.BTreeSet.{contains};
ghost use Rattle.fv_disk.specs.Shown.{Image};
ghost use Rattle.fv_memdisk.specs.Past.{State, is_among, noted, blank, step, replay};
ghost use Rattle.fv_memdisk.specs.Tears.{IsUnsettled};

use crate::kept::{Event, Kept};
use std::alloc::{AllocError, Global};
use std::collections::BTreeSet;

#[derive(Drop)]
pub(crate) struct Unsettled {
    /// How many calls there were up to the last barrier.
    pub(crate) start: usize,
    /// The blocks written since, in the order of their first writes.
    pub(crate) written: Vec<u64>,
    // the same blocks
    seen: BTreeSet<u64>,
    ghost agrees: { (a : ℕ) → contains nat_cmp seen a ≡ is_among written.items a },
}

impl Unsettled {
    fn new(alloc: Global) -> Self
        ensures { (base : Image) → IsUnsettled result.start result.written.items (blank base) }
    {
        Unsettled {
            start: 0,
            written: Vec::new(alloc),
            seen: BTreeSet::new(alloc),
        }
    }

    fn note(&mut self, at: u64) -> Result<(), AllocError>
        ensures start { self.new.start ≡ self.old.start }
        ensures written { OnOk result (self.new.written.items ≡ noted self.old.written.items at) }
    {
        self.written.reserve(1)?;
        if self.seen.insert(at)? {
            self.written.push_reserved(at);
        }
        Ok(())
    }

    fn settle(&mut self, start: usize)
        ensures start { self.new.start ≡ start }
        ensures written { length self.new.written.items ≡ 0 }
    {
        self.start = start;
        self.written.clear();
        self.seen.clear();
    }

    // `count` calls came before.
    fn add(&mut self, event: &Event, count: usize) -> Result<(), AllocError>
        requires { count + 1 < 2 ^ 64 }
        ensures { OnOk result ((s : State) → s.count ≡ count → IsUnsettled self.old.start self.old.written.items s → IsUnsettled self.new.start self.new.written.items (step s event.now)) }
    {
        match event {
            Event::Write(at, _) => self.note(*at),
            Event::Torn(at) => self.note(*at),
            Event::Barrier => {
                self.settle(count + 1);
                Ok(())
            }
            Event::Give => Ok(()),
        }
    }
}

/// The blocks written since the last of the events that is a barrier. Costs the events, and the
/// logarithm of the number of those blocks for each.
pub(crate) fn find_unsettled(alloc: Global, events: &[Kept]) -> Result<Unsettled, AllocError>
    ensures { IfOk result (λ found. (base : Image) → IsUnsettled found.start found.written.items (replay (blank base) events.now)) }
{
    let mut found = Unsettled::new(alloc);
    for (count, kept) in events.iter().enumerate() {
        found.add(&kept.event, count)?;
    }
    Ok(found)
}
