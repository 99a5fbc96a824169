//! A volume's ledger.

ghost use Rattle.std.specs.Prelude.{◌≡◌, ◌≤◌, ◌^◌, List, ℕ, length, IfSome, option_copied};
ghost use Rattle.fv_model.specs.declared.commands.Command.{Command};
ghost use Rattle.fv_model.specs.Numbers.{greatest_span, most_snapshots};
ghost use Rattle.fv_model.specs.Volumes.{Volume};
ghost use Rattle.fv_model.specs.Machines.{Machine};
ghost use Rattle.fv_model.specs.Space.{commit};
ghost use Rattle.fv_charge.specs.Ledgers.{IsLedgerOf, committed};
ghost use Rattle.fv_charge.specs.Counted.{charge_counted};
ghost use Rattle.fv_charge.specs.Changes.{CanChange, CanMove, IsChanged, IsDeltaOf, IsLeft, Moves, admission, machine_answer};

use crate::count::count_held;
use crate::delta::Delta;
use crate::numbers::overhead;
use fv_bits::BitMap;
use fv_model::{Kind, Refusal, map_blocks};

/// What a volume is charged for and needs, in blocks, with the numbers that its commit follows from.
#[derive(Clone, Copy, Debug, PartialEq, Eq)]
pub struct Ledger {
    /// The blocks that the volume is charged for.
    pub charge: u32,
    /// The blocks that its files' reserves still need.
    pub need: u32,
    /// Its size in blocks.
    pub size: u32,
    /// Its kind of guarantee.
    pub kind: Kind,
    /// Its VVBNs, at most 1,048,576.
    pub span: u32,
}

impl Ledger {
    /// The ledger of a volume, its charge counted from scratch by its maps of `span` numbers: `held` has the numbers of the active map
    /// and of all snapshots' maps, `base` those of the base's, where there is a base and the volume isn't being split from it. It is
    /// right where each block of the volume has its number, as after a flush. Costs a step for each word of the map, and with a base for
    /// each number; takes no memory.
    pub fn counted(
        held: &BitMap,
        base: Option<&BitMap>,
        snapshots: u32,
        need: u32,
        span: u32,
        size: u32,
        kind: Kind,
    ) -> Ledger
        requires held { length held.now ≡ span }
        requires base { IfSome (option_copied base) (λ map. length map ≡ span) }
        requires span { span ≤ greatest_span }
        requires snapshots { snapshots ≤ most_snapshots }
        ensures { result ≡ record { charge = charge_counted held.now (option_copied base.entry) snapshots span; need = need; size = size; kind = kind; span = span } }
    {
        Ledger {
            charge: count_held(held, base) + map_blocks(span) * snapshots,
            need,
            size,
            kind,
            span,
        }
    }

    /// The blocks that the volume is charged for. Costs a step and takes no memory.
    pub fn charge(&self) -> u32
        ensures { result ≡ self.now.charge }
    {
        self.charge
    }

    /// The blocks that its files' reserves still need. Costs a step and takes no memory.
    pub fn need(&self) -> u32
        ensures { result ≡ self.now.need }
    {
        self.need
    }

    /// The blocks that the volume commits of its aggregate: twice its overhead, and its size where it is of kind `volume`, else what
    /// it uses. Costs a step and takes no memory.
    pub fn commit(&self) -> u64
        requires { self.now.span ≤ greatest_span }
        ensures exact { result ≡ committed self.now }
        ensures most { result ≤ 2 ^ 34 }
        ensures machine { (v : Volume) → IsLedgerOf v self.now → result ≡ commit v }
    {
        let promised = match self.kind {
            Kind::Volume => u64::from(self.size),
            Kind::File | Kind::Thin => u64::from(self.charge) + u64::from(self.need),
        };
        2 * u64::from(overhead(self.span)) + promised
    }

    /// Changes the numbers by what a command changed. Both have to stay from 0 up to 2^32 - 1. Costs a step and takes no memory.
    #[tactic(auto, using(crate::proofs::Admissions::changed_ledger))]
    pub fn change(&mut self, delta: &Delta)
        requires { CanChange self.old delta.now }
        ensures exact { IsChanged self.old delta.now self.new }
        ensures machine { (x y : Volume) → IsLedgerOf x self.old → IsDeltaOf x y delta.now → IsLedgerOf y self.new }
    {
        self.charge = moved(self.charge, delta.charge);
        self.need = moved(self.need, delta.need);
        self.size = delta.size;
        self.kind = delta.kind;
    }

    /// Whether there is room for a command that changes the ledger so, in an aggregate of this capacity of which the other volumes
    /// commit so many blocks. Costs a step, takes no memory and changes nothing.
    ///
    /// # Errors
    /// `VolumeFull` exactly where the volume would use more than its size afterwards; else `AggregateFull` exactly where all commits
    /// would pass the capacity.
    #[tactic(auto, using(crate::proofs::Admissions::one_ledger, crate::proofs::Admissions::machine_admits))]
    pub fn admit(&self, delta: &Delta, others: u64, capacity: u32) -> Result<(), Refusal>
        requires change { CanChange self.now delta.now }
        requires span { self.now.span ≤ greatest_span }
        requires others { others ≤ 2 ^ 62 }
        ensures exact { (l : Ledger) → IsChanged self.now delta.now l → result ≡ admission l others capacity }
        ensures machine { (m : Machine) (c : Command) (v : List ℕ) (l : Ledger) → IsChanged self.now delta.now l → IsLeft m c v l others capacity
            → result ≡ machine_answer m c v }
    {
        let mut after = *self;
        after.change(delta);
        if u64::from(after.charge) + u64::from(after.need) > u64::from(after.size) {
            Err(Refusal::VolumeFull)
        } else if others + after.commit() > u64::from(capacity) {
            Err(Refusal::AggregateFull)
        } else {
            Ok(())
        }
    }
}

/// A number of blocks that rose or fell.
fn moved(before: u32, by: i64) -> u32
    requires { CanMove before by }
    ensures { Moves before by result }
{
    (i64::from(before) + by) as u32
}
