//! Which regions of the containers a consistency point reclaims.

ghost use Rattle.std.specs.Prelude.{◌≡◌, ◌≤◌, ◌<◌, ◌+◌, ◌-◌, [], false, true, ℕ, IfSome, List, Option, length, max, min, option_copied};
ghost use Rattle.std.specs.List.{list_all};
ghost use Rattle.fv_model.specs.Machines.{first_block};
ghost use Rattle.fv_model.specs.Numbers.{greatest_span};
ghost use Rattle.fv_root.specs.Finding.{IsInRange};
ghost use Rattle.fv_root.specs.Formatted.{IsSize};
ghost use Rattle.fv_aggmap.specs.Space.{free_blocks};
ghost use Rattle.fv_container.specs.Chains.{container_at, slot_count};
ghost use Rattle.fv_delay.specs.declared.counts.Count.{Count};
ghost use Rattle.fv_delay.specs.ByThreshold.{IsTable, behind, takes_some, threshold_for};
ghost use Rattle.fv_delay.specs.Choice.{full_count};
ghost use Rattle.fv_delay.specs.Holding.{Holding, counts_of, has_some};
ghost use Rattle.fv_volume.specs.Files.{IsLabelled};
ghost use Rattle.fv_volumes.specs.Housed.{AreHoused};
ghost use Rattle.fv_volume.specs.Loading.{Houses};
ghost use Rattle.fv_volume.specs.States.{state_at};
ghost use Rattle.fv_cp.specs.Lent.{blocks_asked};
ghost use Rattle.fv_cp.specs.Choosing.{asked_marked, asked_with, claimed, claimed_by, counts_at, greatest_number, holdings, missing_for, regions_chosen};
ghost use Rattle.fv_cp.specs.Planning.{AreCounted, AreSlotsKnown, AreSlotsSure, AreTables, FlagsDelayed, IsAdded, IsPlan, IsSlotCounted, IsSlotKnown, IsSlotSure, is_set, no_holding};

use crate::asking::blocks_asked;
use fv_charge::overhead;
use fv_codec::SLOTS;
use fv_container::Containers;
use fv_delay::{Table, Threshold, table_of};
use fv_root::first_block;
use fv_volume::{Pool, VolumeState};
use fv_volumes::Volumes;

/// So many blocks are to be had behind a point, whatever is wanted.
const LEAST: u64 = 256;

/// What a consistency point reclaims, by slot.
#[derive(Drop)]
pub struct Plan {
    /// Whether a region of its volume is reclaimed.
    pub(crate) due: [bool; 64],
    /// The threshold in front of its volume's first region.
    pub(crate) starts: [Threshold; 64],
    /// Whether an entry of its volume is delayed.
    pub(crate) delays: [bool; 64],
}

impl Plan {
    /// The plan by which nothing is reclaimed.
    pub fn new() -> Plan
        ensures { (s : ℕ) → s < slot_count → is_set result.due s ≡ false }
    {
        Plan {
            due: [false; 64],
            starts: [Table::new().threshold(0); 64],
            delays: [false; 64],
        }
    }
}

/// Plans what a point reclaims where an event wants so many blocks: the regions that are chosen for what the space rule lacks, or none
/// where with these the volumes ask for more blocks than are free. Each volume with delayed entries is told of in the plan, also where none
/// is reclaimed. Only of volumes that changed, or of which `delays` says that an entry may be delayed, the entries are counted; of these
/// it is known which are holes.
///
/// It takes no memory and reads nothing. Costs what `table_of` of `fv_delay` costs for each of these volumes.
pub(crate) fn choose(
    volumes: &Volumes,
    pool: &Pool,
    delays: &[bool; 64],
    want: u64,
    plan: &mut Plan,
)
    requires range { IsInRange pool.now.found }
    requires housed { AreHoused pool.now.containers volumes.now }
    requires known { AreSlotsKnown pool.now.containers volumes.now delays.now }
    ensures planned { AreSlotsSure pool.now.containers volumes.now delays.now → AreCounted pool.now.containers volumes.now delays.now → asked_with (regions_chosen pool.now volumes.now want) volumes.now ≤ free_blocks pool.now.map
        → IsPlan (holdings pool.now.containers volumes.now) (threshold_for (counts_of (holdings pool.now.containers volumes.now)) (missing_for pool.now volumes.now want)) plan.new }
    ensures fits { free_blocks pool.now.map < asked_marked (is_set plan.new.due) volumes.now → asked_marked (is_set plan.new.due) volumes.now ≡ blocks_asked volumes.now }
    ensures flags { AreSlotsSure pool.now.containers volumes.now delays.now → AreCounted pool.now.containers volumes.now delays.now → FlagsDelayed pool.now.containers volumes.now plan.new.delays }
    ensures none { AreSlotsSure pool.now.containers volumes.now delays.now → AreCounted pool.now.containers volumes.now delays.now → free_blocks pool.now.map < asked_with (regions_chosen pool.now volumes.now want) volumes.now
        → (s : ℕ) → s < slot_count → is_set plan.new.due s ≡ false }
{
    plan_for(volumes, pool, delays, want, plan);
    if u64::from(pool.map.free_count()) < blocks_asked(volumes, &plan.due) {
        plan.due = [false; 64];
    }
}

/// Plans what a point reclaims, whatever is free.
///
/// The threshold comes of all regions. So they are counted first, in a table for each slot, and asked by these tables then. The tables
/// stand in the frame of this call and are lent: each is filled where it stands.
fn plan_for(volumes: &Volumes, pool: &Pool, delays: &[bool; 64], want: u64, plan: &mut Plan)
    requires range { IsInRange pool.now.found }
    requires housed { AreHoused pool.now.containers volumes.now }
    requires known { AreSlotsKnown pool.now.containers volumes.now delays.now }
    ensures { AreSlotsSure pool.now.containers volumes.now delays.now → AreCounted pool.now.containers volumes.now delays.now
        → IsPlan (holdings pool.now.containers volumes.now) (threshold_for (counts_of (holdings pool.now.containers volumes.now)) (missing_for pool.now volumes.now want)) plan.new }
{
    let mut tables = [Table::new(); 64];
    let mut all = Table::new();
    count_all(volumes, &pool.containers, delays, &mut tables, &mut all);
    let missing = missing(volumes, all.total(), pool.found.blocks, want);
    plan_by(&tables, all.threshold(missing), plan);
}

/// Plans to reclaim the regions that a threshold takes of all volumes, by their tables.
fn plan_by(tables: &[Table; 64], threshold: Threshold, plan: &mut Plan)
    requires { threshold.count < full_count }
    ensures { (volumes : ℕ → Option Holding) → AreTables volumes tables.now → IsPlan volumes threshold plan.new }
{
    let mut next = threshold;
    for slot in 0..SLOTS {
        let at = slot as usize;
        plan.starts[at] = next;
        plan.due[at] = ask(&mut next, &tables[at]);
        plan.delays[at] = 0 < tables[at].total();
    }
}

/// Whether a threshold takes one of the regions of a table, which are the next ones and have delayed entries each.
///
/// A table of no region costs one step.
fn ask(next: &mut Threshold, table: &Table) -> bool
    requires { next.old.count < full_count }
    ensures taken { (counts : List Count) → IsTable table.now counts → list_all has_some counts ≡ true → result ≡ takes_some next.old counts }
    ensures passed { (counts : List Count) → IsTable table.now counts → list_all has_some counts ≡ true → next.new ≡ behind next.old counts }
    ensures kept { next.new.count ≡ next.old.count }
{
    if table.total() == 0 {
        return false;
    }
    next.passes(table)
}

// ---- the counts

/// Counts the regions of the volumes of all slots that changed or may have delayed entries, of each in the table of its slot, and adds them
/// to a table of all; of another slot none is counted.
fn count_all(
    volumes: &Volumes,
    containers: &Containers,
    delays: &[bool; 64],
    tables: &mut [Table; 64],
    all: &mut Table,
)
    requires volumes { (s : ℕ) → IfSome (state_at volumes.now s) (IsLabelled s) }
    requires housed { (s : ℕ) → Houses (state_at volumes.now s) (container_at containers.now s) }
    requires known { AreSlotsKnown containers.now volumes.now delays.now }
    requires empty { AreTables no_holding tables.old }
    ensures each { AreSlotsSure containers.now volumes.now delays.now → AreCounted containers.now volumes.now delays.now → AreTables (holdings containers.now volumes.now) tables.new }
    ensures all { AreSlotsSure containers.now volumes.now delays.now → AreCounted containers.now volumes.now delays.now → IsTable all.old [] → IsTable all.new (counts_of (holdings containers.now volumes.now)) }
{
    for slot in 0..SLOTS {
        let at = slot as usize;
        count_slot(volumes, containers, slot, delays[at], &mut tables[at], all);
    }
}

/// Counts the regions of the volume of a slot in a table, and adds them to a table of all, if it changed or may have delayed entries.
fn count_slot(
    volumes: &Volumes,
    containers: &Containers,
    slot: u8,
    may_delay: bool,
    table: &mut Table,
    all: &mut Table,
)
    requires slot { slot < slot_count }
    requires labelled { IfSome (state_at volumes.now slot) (IsLabelled slot) }
    requires housed { Houses (state_at volumes.now slot) (container_at containers.now slot) }
    requires known { IsSlotKnown containers.now volumes.now slot may_delay }
    ensures { IsSlotSure containers.now volumes.now slot may_delay → IsSlotCounted containers.now volumes.now slot may_delay → IsTable table.old []
        → IsAdded (counts_at slot (holdings containers.now volumes.now slot)) table.new all.old all.new }
{
    let Some(state) = volumes.get(slot) else {
        return;
    };
    let Some(container) = containers.get(slot) else {
        return;
    };
    if !may_delay && !state.is_changed() {
        return;
    }
    *table = table_of(container, &state.map);
    all.join(table);
}

// ---- what is missing

/// How many blocks the space rule lacks before any reclaim, in an aggregate of so many blocks with so many delayed entries.
fn missing(volumes: &Volumes, delayed: u64, blocks: u32, want: u64) -> u64
    requires size { IsSize blocks }
    requires long { length volumes.now ≡ slot_count }
    requires volumes { (s : ℕ) → IfSome (state_at volumes.now s) (IsLabelled s) }
    ensures { result ≡ min ((max 256 want + claimed volumes.now) + delayed) greatest_number - (blocks - first_block blocks) }
{
    let behind = u64::from(blocks - first_block(blocks));
    let claimed = add_claims(want.max(LEAST), volumes);
    claimed.saturating_add(delayed).saturating_sub(behind)
}

/// A number with what all volumes claim, as far as it goes.
fn add_claims(first: u64, volumes: &Volumes) -> u64
    requires long { length volumes.now ≡ slot_count }
    requires volumes { (s : ℕ) → IfSome (state_at volumes.now s) (IsLabelled s) }
    ensures { result ≡ min (first + claimed volumes.now) greatest_number }
{
    let mut sum = first;
    for slot in 0..SLOTS {
        sum = sum.saturating_add(claim_of(volumes.get(slot)));
    }
    sum
}

/// What the volume of a slot claims by the space rule: twice its overhead, and the entries that it owns, which its ledger charges. Of a
/// volume that is being split from its base the charge would be too much.
fn claim_of(state: Option<&VolumeState>) -> u64
    requires { IfSome (option_copied state) (λ x. x.span ≤ greatest_span) }
    ensures { result ≡ claimed_by (option_copied state.entry) }
{
    match state {
        Some(state) => u64::from(2 * overhead(state.span)) + u64::from(state.ledger.charge()),
        None => 0,
    }
}
