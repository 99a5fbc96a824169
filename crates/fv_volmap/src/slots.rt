//! Slots in a row, each free or with a map.

ghost use Rattle.std.specs.Prelude.{◌≡◌, ℕ, ◌*◌, ◌-◌, ◌<◌, ◌≤◌, ◌||◌, ◌∷◌, ◌/◌, ◌≢◌, suc, false, true, cond, count_by, length, min, not, replicate, slice_set, All, Some, None, IsSome, IfSome, IfNone, IfOk, OnErr, OnSome};
ghost use Rattle.std.specs.List.{range_with_len};
ghost use Rattle.fv_bits.specs.Bits.{block_bits};
ghost use Rattle.fv_bits.specs.Members.{is_member, IsFullFrom, IsFirstPast};
ghost use Rattle.fv_volmap.specs.Slots.{slot_of_base, has, taken_in, has_alone, count_beside};
ghost use Rattle.fv_volmap.specs.Kept.{IsLong, AreUsedTo, TakesInto};

use fv_bits::BitMap;
use fv_disk::{Block, ZERO};
use std::alloc::{AllocError, Global};

/// A slot of a volume's maps: 0 the active one, 1 to `SNAPSHOT_SLOTS` of snapshots, and `BASE_SLOT`. The slot of a volume in its aggregate
/// is another number.
pub type MapSlot = u8;

/// How many slots there are for snapshots.
pub const SNAPSHOT_SLOTS: usize = 24;

/// How many slots have their maps on the disk: the active one, and those for snapshots.
pub const STORED_SLOTS: usize = SNAPSHOT_SLOTS + 1;

/// The slot of what a clone's base reaches, behind those that stand on the disk. It is in memory alone.
pub const BASE_SLOT: MapSlot = STORED_SLOTS as MapSlot;

/// How many slots there are after the active one.
pub(crate) const OTHERS: usize = BASE_SLOT as usize;

/// The place of the base's slot among those after the active one; the snapshots' stand before it.
pub(crate) const BASE: usize = SNAPSHOT_SLOTS;

/// Whether the map has this number; it has none from its length on.
#[tactic(auto, using(fv_bits::proofs::Laws::is_member_past))]
pub(crate) fn has_member(map: &BitMap, v: u32) -> bool
    ensures { result ≡ is_member map.now v }
{
    v < map.len() && map.get(v)
}

/// Whether the slot has this number.
pub(crate) fn has(slot: &Option<BitMap>, v: u32) -> bool
    ensures { result ≡ has v slot.now }
{
    match slot {
        Some(map) => has_member(map, v),
        None => false,
    }
}

/// Whether some slot has this number.
#[tactic(auto, using(crate::proofs::Rows::none_more, crate::proofs::Rows::taken_here))]
pub(crate) fn any_has(slots: &[Option<BitMap>], v: u32) -> bool
    ensures { result ≡ taken_in slots.now v }
{
    for at in 0..slots.len() {
        if has(&slots[at], v) {
            return true;
        }
    }
    false
}

/// How many of the slots after the active one there are up to the last that a snapshot uses, 0 where none does.
#[tactic(auto, using(crate::proofs::Rows::used_before))]
pub(crate) fn used_count(others: &[Option<BitMap>]) -> usize
    requires { length others.now ≡ slot_of_base }
    ensures { AreUsedTo result others.now }
{
    let mut count = BASE;
    while count > 0 && others[count - 1].is_none() {
        count -= 1;
    }
    count
}

/// Whether some of the slots after the active one has this number; snapshots use them up to `used`, and the last is the base's.
pub(crate) fn any_used_has(others: &[Option<BitMap>], used: usize, v: u32) -> bool
    requires count { length others.now ≡ slot_of_base }
    requires used { AreUsedTo used others.now }
    ensures { result ≡ taken_in others.now v }
{
    any_has(&others[..used], v) || has(&others[BASE], v)
}

/// Whether no slot has this number; snapshots use those after the active one up to `used`, and the last is the base's.
fn is_free(active: &BitMap, others: &[Option<BitMap>], used: usize, v: u32) -> bool
    requires count { length others.now ≡ slot_of_base }
    requires used { AreUsedTo used others.now }
    ensures { result ≡ not (taken_in (Some active.now ∷ others.now) v) }
{
    !has_member(active, v) && !any_used_has(others, used, v)
}

/// How many numbers from one on up to an end no slot has, or `most` where that is less. It goes no further than to the last that it counts.
pub(crate) fn count_free(
    active: &BitMap,
    others: &[Option<BitMap>],
    used: usize,
    from: u32,
    to: u32,
    most: u32,
) -> u32
    requires count { length others.now ≡ slot_of_base }
    requires used { AreUsedTo used others.now }
    requires ordered { from ≤ to }
    ensures { result ≡ min most (count_by (λ v. not (taken_in (Some active.now ∷ others.now) v)) (range_with_len from (to - from))) }
{
    let mut count = 0;
    for v in from..to {
        if count == most {
            return most;
        }
        count += u32::from(is_free(active, others, used, v));
    }
    count
}

/// Whether some slot but this one has this number.
#[tactic(auto, using(crate::proofs::Rows::taken_beside))]
fn any_other_has(slots: &[Option<BitMap>], at: usize, v: u32) -> bool
    requires { at < length slots.now }
    ensures { result ≡ taken_in (slice_set slots.now at None) v }
{
    any_has(&slots[..at], v) || any_has(&slots[at + 1..], v)
}

/// Whether one of these slots after the active one has this number, and no other of them and not the active one has it.
fn has_alone(active: &BitMap, others: &[Option<BitMap>], at: usize, v: u32) -> bool
    requires { at < length others.now }
    ensures { result ≡ has_alone (Some active.now ∷ others.now) (suc at) v }
{
    has(&others[at], v) && !has_member(active, v) && !any_other_has(others, at, v)
}

/// How many numbers below the span one of these slots after the active one has alone.
pub(crate) fn count_alone(active: &BitMap, others: &[Option<BitMap>], at: usize, span: u32) -> u32
    requires { at < length others.now }
    ensures { result ≡ count_by (has_alone (Some active.now ∷ others.now) (suc at)) (range_with_len 0 span) }
{
    (0..span)
        .filter(|v| has_alone(active, others, at, *v))
        .count() as u32
}

/// How many numbers a union of slots has that the base's slot lacks.
#[tactic(auto, using(crate::proofs::Counting::beside_some))]
pub(crate) fn count_beside(union: &BitMap, base: &Option<BitMap>) -> u32
    ensures { result ≡ count_beside union.now base.now }
{
    match base {
        None => union.count(),
        Some(map) => union.count_apart(map, 0, union.len()),
    }
}

/// A number that is no member, the first from `from` on or else the first of all.
pub(crate) fn next_free(union: &BitMap, from: u32) -> Option<u32>
    requires { from ≤ length union.now }
    ensures none { IfNone result (IsFullFrom union.now 0) }
    ensures within { IfSome result (λ v. v < length union.now) }
    ensures free { IfSome result (λ v. is_member union.now v ≡ false) }
{
    match union.first_free(from) {
        Some(v) => Some(v),
        None => union.first_free(0),
    }
}

/// Takes the bits of a block into a slot, which is used from then on, and answers the first number past
/// the span whose bit is set. Then, and where no memory is found, the slot stays.
pub(crate) fn load(
    slot: &mut Option<BitMap>,
    alloc: Global,
    span: u32,
    index: u32,
    block: &Block,
) -> Result<Option<u32>, AllocError>
    requires long { IsLong span slot.old }
    requires within { block_bits * index < span }
    ensures taken { IfOk result (λ past. IfNone past (TakesInto span slot.old index block.now slot.new)) }
    ensures past { IfOk result (λ past. IfSome past (IsFirstPast span index block.now)) }
    ensures unchanged { IfOk result (λ past. OnSome past (slot.new ≡ slot.old)) }
    ensures failed { OnErr result (slot.new ≡ slot.old) }
{
    if let Some(map) = slot {
        return Ok(map.from_block(index, block));
    }
    let mut map = BitMap::new(alloc, span)?;
    let past = map.from_block(index, block);
    if past.is_none() {
        *slot = Some(map);
    }
    Ok(past)
}

/// Copies the map of a used slot.
pub(crate) fn copy_slot(map: &mut BitMap, slot: &Option<BitMap>)
    requires used { IsSome slot.now }
    requires long { IsLong (length map.old) slot.now }
    ensures { Some map.new ≡ slot.now }
{
    if let Some(from) = slot {
        map.copy_from(from);
    }
}

/// A copy of a map.
#[tactic(auto, using(fv_bits::proofs::Laws::length_new))]
pub(crate) fn copy(alloc: Global, map: &BitMap) -> Result<BitMap, AllocError>
    ensures { IfOk result (λ copy. copy ≡ map.now) }
{
    let mut copy = BitMap::new(alloc, map.len())?;
    copy.copy_from(map);
    Ok(copy)
}

/// Takes the numbers of block `index` of a map that isn't longer, in place of those that are there: no bit of that block is past its end.
#[tactic(auto, using(crate::proofs::Copies::is_taken))]
fn take_block(map: &mut BitMap, from: &BitMap, index: u32)
    requires long { length from.now ≤ length map.old }
    requires within { block_bits * index < length from.now }
    ensures len { length map.new ≡ length map.old }
    ensures taken { (v : ℕ) → v / block_bits ≡ index → is_member map.new v ≡ is_member from.now v }
    ensures others { (v : ℕ) → v / block_bits ≢ index → is_member map.new v ≡ is_member map.old v }
{
    let mut block = ZERO;
    from.to_block(index, &mut block);
    map.from_block(index, &block);
}

/// Takes the members of a map that isn't longer into an empty one.
fn take_members(map: &mut BitMap, from: &BitMap)
    requires long { length from.now ≤ length map.old }
    requires empty { (v : ℕ) → is_member map.old v ≡ false }
    ensures len { length map.new ≡ length map.old }
    ensures members { (v : ℕ) → is_member map.new v ≡ is_member from.now v }
{
    for index in 0..from.len().div_ceil(32768) {
        take_block(map, from, index);
    }
}

/// A map of this length with the members of one that isn't longer.
#[tactic(auto, using(fv_bits::proofs::Laws::length_new, crate::proofs::Copies::none_member))]
pub(crate) fn copy_longer(alloc: Global, map: &BitMap, span: u32) -> Result<BitMap, AllocError>
    requires long { length map.now ≤ span }
    ensures len { IfOk result (λ copy. length copy ≡ span) }
    ensures members { IfOk result (λ copy. (v : ℕ) → is_member copy v ≡ is_member map.now v) }
{
    let mut copy = BitMap::new(alloc, span)?;
    take_members(&mut copy, map);
    Ok(copy)
}

/// This many free slots.
pub(crate) fn free_slots(alloc: Global, count: usize) -> Result<Vec<Option<BitMap>>, AllocError>
    ensures { IfOk result (λ slots. slots.items ≡ replicate count None) }
{
    let mut slots = Vec::with_capacity(alloc, count)?;
    for _ in 0..count {
        slots.push(None)?;
    }
    Ok(slots)
}
