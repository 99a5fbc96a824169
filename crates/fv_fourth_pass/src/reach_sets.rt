//! The sets of VVBNs that the fourth pass counts a volume by, from what the second pass told of roots.

ghost use Rattle.std.specs.Prelude.{◌≡◌, ◌≤◌, ◌<◌, ◌||◌, ◌+◌, ◌==◌, ℕ, drop, length, map, IfOk, IfSome, option_copied};
ghost use Rattle.std.specs.Option.{is_none};
ghost use Rattle.fv_bits.specs.Members.{is_member};
ghost use Rattle.fv_image.specs.Seen.{roots_of};
ghost use Rattle.fv_image.specs.Views.{head_of};
ghost use Rattle.fv_third_pass.specs.Volumes.{base_set, reach_at, root_of};
ghost use Rattle.fv_fourth_pass.specs.Silent.{AreSetsOf, AreWide, FitsIn, HasLow, any_of, left_of};
ghost use Rattle.fv_fourth_pass.specs.Used.{is_out};

use fv_bits::BitMap;
use fv_codec::Label;
use fv_second_pass::Reached;
use fv_third_pass::MapRoot;
use std::alloc::{AllocError, Global};

/// What the fourth pass counts a volume by. Each set has a bit for each VVBN of the volume.
#[derive(Debug, Drop)]
pub(crate) struct Sets {
    /// The VVBNs that its roots reach.
    pub held: BitMap,
    /// Those that its base table reaches, where it has a base.
    pub base: Option<BitMap>,
}

/// Adds the VVBNs that the root of a map slot reaches to a set of the same length.
fn add_reach(held: &mut BitMap, reached: &Reached, slot: u8, map: u8)
    ensures size { length held.new ≡ length held.old }
    ensures adds { IfSome (reach_at reached.now slot map) (λ set. length set ≡ length held.old)
        → (v : ℕ) → is_member held.new v ≡ (is_member held.old v || is_out (reach_at reached.now slot map) v) }
{
    let Some(set) = reached.of(slot, map) else {
        return;
    };
    if set.len() == held.len() {
        held.or(set);
    }
}

/// The VVBNs that roots of the volume of a slot with a span reach, by what the second pass told.
fn held_by(
    alloc: Global,
    reached: &Reached,
    slot: u8,
    span: u32,
    roots: &[MapRoot],
) -> Result<BitMap, AllocError>
    ensures size { IfOk result (λ held. length held ≡ span) }
    ensures has { AreWide reached.now slot span (map root_of roots.now)
        → IfOk result (λ held. (v : ℕ) → is_member held v ≡ any_of reached.now slot (map root_of roots.now) v) }
{
    let mut held = BitMap::new(alloc, span)?;
    for k in 0..roots.len() {
        add_reach(&mut held, reached, slot, roots[k].slot);
    }
    Ok(held)
}

/// Adds a number to a set where it is in another.
fn add_member(copy: &mut BitMap, from: &BitMap, number: u32)
    requires { number < length from.now }
    ensures size { length copy.new ≡ length copy.old }
    ensures low { length from.now ≤ length copy.old → HasLow from.now copy.old number → HasLow from.now copy.new (number + 1) }
{
    if number < copy.len() && from.get(number) {
        copy.set(number);
    }
}

/// A copy of a set with room for a span. Numbers past the span are left out.
fn copied_to(alloc: Global, span: u32, from: &BitMap) -> Result<BitMap, AllocError>
    ensures size { IfOk result (λ copy. length copy ≡ span) }
    ensures same { length from.now ≤ span → IfOk result (λ copy. (v : ℕ) → is_member copy v ≡ is_member from.now v) }
{
    let mut copy = BitMap::new(alloc, span)?;
    for number in 0..from.len() {
        add_member(&mut copy, from, number);
    }
    Ok(copy)
}

/// A copy of a set, if there is one, with room for a span; else the empty set.
fn copy_of(alloc: Global, span: u32, from: Option<&BitMap>) -> Result<BitMap, AllocError>
    ensures size { IfOk result (λ copy. length copy ≡ span) }
    ensures same { FitsIn span (option_copied from.entry)
        → IfOk result (λ copy. (v : ℕ) → is_member copy v ≡ is_out (option_copied from.entry) v) }
{
    match from {
        Some(set) => copied_to(alloc, span, set),
        None => {
            let copy = BitMap::new(alloc, span)?;
            Ok(copy)
        }
    }
}

/// The VVBNs that the base table of the volume of a label reaches, with room for its span; none without a base. Where nothing was told
/// of that table the set is empty.
fn base_by(alloc: Global, reached: &Reached, label: &Label) -> Result<Option<BitMap>, AllocError>
    ensures size { IfOk result (λ base. IfSome base (λ set. length set ≡ label.entry.now.span)) }
    ensures has { FitsIn label.entry.now.span (base_set reached.now.volumes.items label.entry.now)
        → IfOk result (λ base. (v : ℕ) → is_out base v ≡ is_out (base_set reached.now.volumes.items label.entry.now) v) }
    ensures known { IfOk result (λ base. is_none base ≡ (label.entry.now.parent == 0)) }
{
    if label.parent == 0 {
        return Ok(None);
    }
    let told = reached.of(label.parent - 1, label.base_slot);
    let base = copy_of(alloc, label.span, told)?;
    Ok(Some(base))
}

impl Sets {
    /// The VVBNs that the base table reaches, where there is a base.
    pub(crate) fn base(&self) -> Option<&BitMap>
        ensures { option_copied result ≡ self.now.base }
    {
        match &self.base {
            Some(base) => Some(base),
            None => None,
        }
    }
}

/// The sets of the volume of a label in a slot, whose roots are these, by what the second pass told. It takes a bit for each VVBN of the
/// volume, and with a base another one; the one error is want of memory. Costs a step for each word of a root's set and for each VVBN
/// of the base.
pub(crate) fn sets_of(
    alloc: Global,
    reached: &Reached,
    slot: u8,
    label: &Label,
    roots: &[MapRoot],
) -> Result<Sets, AllocError>
    ensures held { IfOk result (λ sets. length sets.held ≡ label.entry.now.span) }
    ensures base { IfOk result (λ sets. IfSome sets.base (λ set. length set ≡ label.entry.now.span)) }
    ensures are { map root_of roots.now ≡ roots_of (head_of label.entry.now)
        → AreWide reached.now slot label.entry.now.span (roots_of (head_of label.entry.now))
        → FitsIn label.entry.now.span (base_set reached.now.volumes.items label.entry.now)
        → IfOk result (λ sets. AreSetsOf reached.now slot label.entry.now sets.held sets.base (left_of label.entry.now sets.base)) }
{
    let held = held_by(alloc, reached, slot, label.span, roots)?;
    let base = base_by(alloc, reached, label)?;
    Ok(Sets { held, base })
}

/// Some roots without the first, which is that of the active table.
fn snapshots_of(roots: &[MapRoot]) -> &[MapRoot]
    ensures { result.now ≡ drop 1 roots.now }
{
    if roots.is_empty() {
        return roots;
    }
    &roots[1..]
}

/// The VVBNs that the snapshots of the volume of a slot with a span reach, or its base. `roots` are its roots, that of the active table
/// first. It takes a bit for each VVBN of the volume; the one error is want of memory. Costs a step for each word of a root's set.
pub(crate) fn shared_by(
    alloc: Global,
    reached: &Reached,
    slot: u8,
    span: u32,
    roots: &[MapRoot],
    base: Option<&BitMap>,
) -> Result<BitMap, AllocError>
    requires { IfSome (option_copied base) (λ set. length set ≡ span) }
    ensures { AreWide reached.now slot span (map root_of (drop 1 roots.now))
        → IfOk result (λ shared. (v : ℕ) → is_member shared v
        ≡ (any_of reached.now slot (map root_of (drop 1 roots.now)) v || is_out (option_copied base.entry) v)) }
{
    let mut shared = held_by(alloc, reached, slot, span, snapshots_of(roots))?;
    if let Some(base) = base {
        shared.or(base);
    }
    Ok(shared)
}

/// What of a base the volume of a label isn't charged for: all of it, and nothing while the volume is being split from it.
pub(crate) fn left_of<'b>(label: &Label, base: Option<&'b BitMap>) -> Option<&'b BitMap>
    ensures { option_copied result ≡ left_of label.entry.now (option_copied base.entry) }
{
    if label.splitting == 1 { None } else { base }
}
