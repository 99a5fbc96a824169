//! Whether a new volume is admitted.

ghost use Rattle.std.specs.Prelude.{◌≡◌, length, IfErr, IfOk};
ghost use Rattle.fv_container.specs.Chains.{slot_count};
ghost use Rattle.fv_root.specs.Formatted.{IsSize};
ghost use Rattle.fv_volumes.specs.Creating.{empty_wanted, ledger_wanted, Admits, FindsPlace, Refuses, RefusesWanted};
ghost use Rattle.fv_volume.specs.Slots.{sum_of};

use crate::search::{find_name, free_slot};
use fv_charge::{Ledger, span_of};
use fv_model::{Kind, Name, Refusal, in_size};
use fv_root::capacity;
use fv_volume::VolumeState;

/// What is wanted of a new volume, by numbers alone.
#[derive(Clone, Copy, Debug)]
pub struct Wanted {
    /// Its size in blocks.
    pub size: u32,
    /// Its kind of guarantee.
    pub kind: Kind,
    /// How many ids the table of its base has; 0 for a volume that stands on none.
    pub ids: u32,
    /// The least that its span may be, in VVBNs: that of the volume whose table it gets; 0 for an empty table.
    pub at_least: u32,
    /// The blocks that it is charged for at once.
    pub charge: u32,
    /// The blocks that the reserves of its files need beside them.
    pub need: u32,
}

impl Wanted {
    /// An empty volume of this size in blocks and kind. Costs a step.
    pub fn empty(size: u32, kind: Kind) -> Wanted
        ensures { result ≡ empty_wanted size kind }
    {
        Wanted {
            size,
            kind,
            ids: 0,
            at_least: 0,
            charge: 0,
            need: 0,
        }
    }

    /// The ledger of the volume with this span.
    fn ledger(&self, span: u32) -> Ledger
        ensures { result ≡ ledger_wanted self.now span }
    {
        Ledger {
            charge: self.charge,
            need: self.need,
            size: self.size,
            kind: self.kind,
            span,
        }
    }
}

/// Where a new volume goes: what `Volumes::judge` and `Volumes::admit` hand out, and `Volumes::create` takes.
#[derive(Debug, Drop)]
pub struct Admitted {
    /// Its slot, the least that is free.
    pub(crate) slot: u8,
    /// Its VVBNs for data.
    pub(crate) span: u32,
}

impl Admitted {
    /// The slot of the new volume, below 64. Costs one step.
    pub fn slot(&self) -> u8
        ensures { result ≡ self.now.slot }
    {
        self.slot
    }

    /// How many VVBNs for data the new volume gets, a multiple of 4096 up to 1,048,576. Costs one step.
    pub fn span(&self) -> u32
        ensures { result ≡ self.now.span }
    {
        self.span
    }
}

/// Where a new volume goes, or why it is refused: in this order a size out of range, a name that is
/// taken, no free slot, and commits that pass the capacity of an aggregate of so many blocks. All volumes commit `commits`.
pub(crate) fn admit(
    states: &[Option<VolumeState>],
    blocks: u32,
    commits: u64,
    name: &Name,
    size: u32,
    kind: Kind,
) -> Result<Admitted, Refusal>
    requires few { length states.now ≡ slot_count }
    requires blocks { IsSize blocks }
    requires sum { commits ≡ sum_of states.now }
    ensures admitted { IfOk result (λ a. Admits states.now blocks name.now size kind a.slot a.span) }
    ensures refused { IfErr result (Refuses states.now blocks name.now size kind) }
{
    if !in_size(u64::from(size)) {
        return Err(Refusal::Range);
    }
    if find_name(states, name).is_some() {
        return Err(Refusal::VolumeExists);
    }
    judge(states, blocks, commits, &Wanted::empty(size, kind))
}

/// Where a volume goes that is wanted so, or why it is refused: in this order a span that is too wide, no free slot, more use than its
/// size, and commits that pass the capacity of an aggregate of so many blocks. All volumes commit `commits`.
pub(crate) fn judge(
    states: &[Option<VolumeState>],
    blocks: u32,
    commits: u64,
    wanted: &Wanted,
) -> Result<Admitted, Refusal>
    requires few { length states.now ≡ slot_count }
    requires blocks { IsSize blocks }
    requires sum { commits ≡ sum_of states.now }
    ensures found { IfOk result (λ a. FindsPlace states.now blocks wanted.now a.slot a.span) }
    ensures refused { IfErr result (RefusesWanted states.now blocks wanted.now) }
{
    let Some(span) = span_of(wanted.size, wanted.ids, wanted.at_least) else {
        return Err(Refusal::Range);
    };
    let Some(slot) = free_slot(states) else {
        return Err(Refusal::TooMany);
    };
    let ledger = wanted.ledger(span);
    if u64::from(ledger.charge) + u64::from(ledger.need) > u64::from(ledger.size) {
        return Err(Refusal::VolumeFull);
    }
    if commits.saturating_add(ledger.commit()) > u64::from(capacity(blocks)) {
        return Err(Refusal::AggregateFull);
    }
    Ok(Admitted { slot, span })
}
