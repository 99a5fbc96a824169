//! The union of the slots. There is one only since a slot beside the active one was used: before, the active map is the union.

ghost use Rattle.std.specs.Prelude.{◌≡◌, ℕ, ◌<◌, ◌||◌, true, is_some, length, take, All, Some, IfSome, OnOk, OnErr};
ghost use Rattle.fv_bits.specs.Members.{is_member};
ghost use Rattle.fv_volmap.specs.Slots.{slot_of_base, snapshot_count, has, taken_in};
ghost use Rattle.fv_volmap.specs.Kept.{AreUsedTo, IsBare, IsLong, Unites, union_or, with_number};

use crate::slots::copy;
use fv_bits::BitMap;
use std::alloc::{AllocError, Global};

/// The union, which is the active map where there is none.
pub(crate) fn union_or<'a>(union: &'a Option<BitMap>, active: &'a BitMap) -> &'a BitMap
    ensures { result.now ≡ union_or active.now union.now }
{
    match union {
        Some(map) => map,
        None => active,
    }
}

/// Makes the union where there is none.
pub(crate) fn make(
    union: &mut Option<BitMap>,
    alloc: Global,
    active: &BitMap,
) -> Result<(), AllocError>
    ensures made { OnOk result (union.new ≡ Some (union_or active.now union.old)) }
    ensures failed { OnErr result (union.new ≡ union.old) }
{
    if union.is_none() {
        *union = Some(copy(alloc, active)?);
    }
    Ok(())
}

/// Puts a number into the union or takes it out, where there is one.
pub(crate) fn put(union: &mut Option<BitMap>, v: u32, value: bool)
    requires { IfSome union.old (λ map. v < length map) }
    ensures { union.new ≡ with_number union.old v value }
{
    if let Some(map) = union {
        if value {
            map.set(v);
        } else {
            map.clear(v);
        }
    }
}

/// Adds the members of a slot.
fn add(union: &mut BitMap, slot: &Option<BitMap>)
    requires { IsLong (length union.old) slot.now }
    ensures len { length union.new ≡ length union.old }
    ensures members { (v : ℕ) → is_member union.new v ≡ (is_member union.old v || has v slot.now) }
{
    if let Some(map) = slot {
        union.or(map);
    }
}

/// Adds the members of each slot.
#[tactic(auto, using(crate::proofs::Rows::one_more))]
pub(crate) fn add_all(union: &mut BitMap, slots: &[Option<BitMap>])
    requires { All (IsLong (length union.old)) slots.now }
    ensures { Unites union.old slots.now union.new }
{
    for at in 0..slots.len() {
        add(union, &slots[at]);
    }
}

/// Makes it the union of the active map and these others.
pub(crate) fn unite(union: &mut Option<BitMap>, active: &BitMap, others: &[Option<BitMap>])
    requires long { IsLong (length active.now) union.old }
    requires others { All (IsLong (length active.now)) others.now }
    requires bare { IsBare union.old others.now }
    ensures there { is_some union.new ≡ is_some union.old }
    ensures long { IsLong (length active.now) union.new }
    ensures unites { Unites active.now others.now (union_or active.now union.new) }
{
    if let Some(map) = union {
        map.copy_from(active);
        add_all(map, others);
    }
}

/// Makes it the union of the active map and the snapshots' maps; snapshots use the others up to `used`.
#[tactic(auto, using(crate::proofs::Rows::used_slots))]
pub(crate) fn unite_stored(
    union: &mut Option<BitMap>,
    active: &BitMap,
    others: &[Option<BitMap>],
    used: usize,
)
    requires count { length others.now ≡ slot_of_base }
    requires used { AreUsedTo used others.now }
    requires long { IsLong (length active.now) union.old }
    requires others { All (IsLong (length active.now)) others.now }
    requires bare { IsBare union.old others.now }
    ensures there { is_some union.new ≡ is_some union.old }
    ensures long { IsLong (length active.now) union.new }
    ensures unites { Unites active.now (take snapshot_count others.now) (union_or active.now union.new) }
{
    unite(union, active, &others[..used]);
}

/// Makes it the union of all slots, which it is already where `united`.
pub(crate) fn refresh(
    union: &mut Option<BitMap>,
    united: bool,
    active: &BitMap,
    others: &[Option<BitMap>],
)
    requires long { IsLong (length active.now) union.old }
    requires others { All (IsLong (length active.now)) others.now }
    requires bare { IsBare union.old others.now }
    requires exact { united ≡ true
        → (v : ℕ) → is_member (union_or active.now union.old) v ≡ (is_member active.now v || taken_in others.now v) }
    ensures there { is_some union.new ≡ is_some union.old }
    ensures long { IsLong (length active.now) union.new }
    ensures unites { Unites active.now others.now (union_or active.now union.new) }
{
    if !united {
        unite(union, active, others);
    }
}
