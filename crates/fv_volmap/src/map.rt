//! The slots of a volume.

ghost use Rattle.std.specs.Prelude.{◌≡◌, ℕ, ◌*◌, ◌<◌, ◌≤◌, false, true, count_by, drop, is_some, length, min, not, take, slice_set, Some, None, IsSome, IfSome, IfNone, IfOk, OnOk, OnErr, OnSome, option_copied};
ghost use Rattle.std.specs.List.{list_any, range_with_len};
ghost use Rattle.fv_bits.specs.Bits.{block_bits};
ghost use Rattle.fv_bits.specs.Members.{IsFirstPast};
ghost use Rattle.fv_volmap.specs.Slots.{HoldsActive, Volume, slot_count, stored_count, snapshot_count, slot_of_base, slot_at, active_of, taken_in, with_slot, empty_volume, IsVolume, Loads, TakesBase, CountsBeside, Allocates, alone_in, is_in_snapshot, is_elsewhere};

use crate::slots::{BASE, MapSlot, OTHERS};
use crate::{slots, union};
use fv_bits::BitMap;
use fv_disk::Block;
use std::alloc::{AllocError, Global};
use std::marker::Model;

/// A set of numbers below the span for each used slot.
///
/// Slot 0 is the active one and is always used, 1 to 24 are snapshots, and 25 is the reach of a clone's
/// base. Contracts see the span and the row of the slots, each free or with its set.
#[derive(Drop)]
pub struct VolMap {
    alloc: Global,
    span: u32,
    active: BitMap,
    /// Slots 1 to 25.
    others: Vec<Option<BitMap>>,
    /// How many of `others` there are up to the last that a snapshot uses. Walks for one number go so far, and then to the base's slot.
    used: usize,
    /// The union of all slots, the base's among them, where `united`. There is none before a slot beside the active one is used.
    union: Option<BitMap>,
    united: bool,
    /// Where `allocate` looks first: after the number that it found last.
    next: u32,
}

impl Model for VolMap {
    ghost use Rattle.std.specs.Prelude.{Some, ◌∷◌};
    ghost use Rattle.fv_volmap.specs.Slots.{Volume};
    ghost use Rattle.fv_volmap.specs.Kept.{IsKept};

    ghost Value = { Volume };

    ghost view = { λ map. record { span = map.span; slots = Some map.active ∷ map.others.items } };

    ghost invariant = { λ map. IsKept map.span map.active map.others.items map.used map.union map.united map.next };
}

impl VolMap {
    /// The maps of a volume with this span: all slots but the active one are free, and it is empty. The
    /// one error is want of memory. Costs a step for each word of 64 numbers.
    pub fn new(alloc: Global, span: u32) -> Result<VolMap, AllocError>
        ensures empty { IfOk result (λ volume. volume ≡ empty_volume span) }
    {
        Ok(VolMap {
            alloc,
            span,
            active: BitMap::new(alloc, span)?,
            others: slots::free_slots(alloc, OTHERS)?,
            used: 0,
            union: None,
            united: true,
            next: 0,
        })
    }

    /// The span: every number of a slot is below it. Costs one step.
    pub fn span(&self) -> u32
        ensures { result ≡ self.now.span }
    {
        self.span
    }

    /// Takes the bits of block `index` of a slot's map in place of those that are there, and answers
    /// `None`: the slot is used from then on. Where a bit past the span is set, nothing changes, and the
    /// first such number is answered. Some number of the block is below the span. The one error is want of
    /// memory, for a slot that was free; nothing changes then. Costs a step for each word of 64 numbers of
    /// the block, and of the span for a slot that was free, and one for each free slot after the last that a snapshot uses.
    pub fn load_slot(
        &mut self,
        slot: MapSlot,
        index: u32,
        block: &Block,
    ) -> Result<Option<u32>, AllocError>
        requires slot { slot < slot_count }
        requires within { block_bits * index < self.old.span }
        ensures taken { IfOk result (λ past. IfNone past (Loads self.old slot index block.now self.new)) }
        ensures past { IfOk result (λ past. IfSome past (IsFirstPast self.old.span index block.now)) }
        ensures unchanged { IfOk result (λ past. OnSome past (self.new ≡ self.old)) }
        ensures failed { OnErr result (self.new ≡ self.old) }
        ensures valid { IsVolume self.new }
    {
        self.united = false;
        if slot == 0 {
            return Ok(self.active.from_block(index, block));
        }
        union::make(&mut self.union, self.alloc, &self.active)?;
        let taken = slots::load(
            &mut self.others[slot as usize - 1],
            self.alloc,
            self.span,
            index,
            block,
        );
        self.used = slots::used_count(&self.others);
        taken
    }

    /// The active set. Costs one step.
    pub fn active(&self) -> &BitMap
        ensures active { result.now ≡ active_of self.now }
        ensures valid { IsVolume self.now }
    {
        &self.active
    }

    /// The set of a slot, and `None` exactly for a free one. Costs one step.
    pub fn snapshot(&self, slot: MapSlot) -> Option<&BitMap>
        requires { slot < slot_count }
        ensures set { option_copied result ≡ slot_at self.now slot }
        ensures valid { IsVolume self.now }
    {
        if slot == 0 {
            return Some(&self.active);
        }
        self.others[slot as usize - 1].as_ref()
    }

    /// Copies the active set to a free slot. The one error is want of memory; nothing changes then. Costs
    /// a step for each word of 64 numbers, and one for each free slot after the last that a snapshot uses.
    pub fn keep(&mut self, slot: MapSlot) -> Result<(), AllocError>
        requires slot { slot < slot_count }
        requires free { slot_at self.old slot ≡ None }
        ensures kept { OnOk result (self.new ≡ with_slot self.old slot (Some (active_of self.old))) }
        ensures failed { OnErr result (self.new ≡ self.old) }
        ensures valid { IsVolume self.new }
    {
        let copy = slots::copy(self.alloc, &self.active)?;
        union::make(&mut self.union, self.alloc, &self.active)?;
        self.others[slot as usize - 1] = Some(copy);
        self.used = slots::used_count(&self.others);
        Ok(())
    }

    /// Makes the base's slot that of a used slot of another volume, whose span isn't greater: a clone gets the numbers of its parent's
    /// snapshot. What the base's slot had before is gone, and all other slots stay. A new clone makes them its active set by `restore`
    /// then. The one error is want of memory; nothing changes then. Costs a step for each word of 64 numbers of the span, and of as many
    /// blocks of a map as the other volume's span takes; the next `allocate` unites the used slots anew.
    #[tactic(auto, using(crate::proofs::Copies::slot_long))]
    pub fn stand_on(&mut self, parent: &VolMap, slot: MapSlot) -> Result<(), AllocError>
        requires slot { slot < slot_count }
        requires used { IsSome (slot_at parent.now slot) }
        requires span { parent.now.span ≤ self.old.span }
        ensures stands { OnOk result (TakesBase self.old (slot_at parent.now slot) self.new) }
        ensures failed { OnErr result (self.new ≡ self.old) }
        ensures valid { IsVolume self.new }
    {
        let Some(map) = parent.snapshot(slot) else {
            return Ok(());
        };
        let copy = slots::copy_longer(self.alloc, map, self.span)?;
        union::make(&mut self.union, self.alloc, &self.active)?;
        self.united = false;
        self.others[BASE] = Some(copy);
        Ok(())
    }

    /// Makes a slot free. Costs a step for each free slot after the last that a snapshot uses then; the next `allocate` unites the used
    /// slots anew.
    pub fn forget(&mut self, slot: MapSlot)
        requires above { 0 < slot }
        requires slot { slot < slot_count }
        ensures forgotten { self.new ≡ with_slot self.old slot None }
        ensures valid { IsVolume self.new }
    {
        self.united = false;
        self.others[slot as usize - 1] = None;
        self.used = slots::used_count(&self.others);
    }

    /// Makes the active set that of a used slot, which stays. It takes no memory. Costs a step for each
    /// word of 64 numbers; the next `allocate` unites the used slots anew.
    pub fn restore(&mut self, slot: MapSlot)
        requires slot { slot < slot_count }
        requires used { IsSome (slot_at self.old slot) }
        ensures restored { self.new ≡ with_slot self.old 0 (slot_at self.old slot) }
        ensures valid { IsVolume self.new }
    {
        self.united = false;
        if slot > 0 {
            slots::copy_slot(&mut self.active, &self.others[slot as usize - 1]);
        }
    }

    /// How many numbers the slots from 0 to 24 have together; what the base reaches counts where one of them has it. It takes no memory.
    /// Costs a step for each word of each used slot and of the union, and one for each slot up to the last that a snapshot uses; the next
    /// `allocate` unites the used slots anew.
    pub fn count_united(&mut self) -> u32
        ensures same { self.new ≡ self.old }
        ensures united { CountsBeside self.old None result }
        ensures most { result ≤ self.old.span }
        ensures valid { IsVolume self.old }
    {
        union::unite_stored(&mut self.union, &self.active, &self.others, self.used);
        self.united = false;
        union::union_or(&self.union, &self.active).count()
    }

    /// How many numbers the slots from 0 to 24 have together that the base's slot lacks; all that they have, where that is free. A clone
    /// that isn't being split is charged for so many blocks, where each of its blocks has its number, as after a flush, and for the maps of
    /// its snapshots. It takes no memory. Costs what `count_united` costs.
    pub fn count_charged(&mut self) -> u32
        ensures same { self.new ≡ self.old }
        ensures charged { CountsBeside self.old (slot_at self.old slot_of_base) result }
        ensures most { result ≤ self.old.span }
        ensures valid { IsVolume self.old }
    {
        union::unite_stored(&mut self.union, &self.active, &self.others, self.used);
        self.united = false;
        slots::count_beside(
            union::union_or(&self.union, &self.active),
            &self.others[BASE],
        )
    }

    /// How many numbers a snapshot's slot has that no other slot from 0 to 24 has; what the base reaches is
    /// left out. None for a free slot. Costs a step for each number below the span, and for each that the slot has one for each slot up to
    /// the last that a snapshot uses. For a slot after that it costs one step.
    #[tactic(auto, using(crate::proofs::Rows::used_slots))]
    pub fn count_alone(&self, slot: MapSlot) -> u32
        requires above { 0 < slot }
        requires slot { slot < stored_count }
        ensures { result ≡ alone_in self.now slot }
    {
        let at = slot as usize - 1;
        if at >= self.used {
            return 0;
        }
        slots::count_alone(&self.active, &self.others[..self.used], at, self.span)
    }

    /// How many numbers below the span no slot has, the base's slot among them, or `most` where that is less. It looks first where `allocate`
    /// does. Costs a step for each slot up to the last that a snapshot uses, for each number that it passes until it has counted so many.
    pub fn count_free(&self, most: u32) -> u32
        ensures { result ≡ min most (count_by (λ v. not (taken_in self.now.slots v)) (range_with_len 0 self.now.span)) }
    {
        let behind = slots::count_free(
            &self.active,
            &self.others,
            self.used,
            self.next,
            self.span,
            most,
        );
        let rest = most - behind;
        behind + slots::count_free(&self.active, &self.others, self.used, 0, self.next, rest)
    }

    /// Adds to the active set a number below the span that no slot has, the base's slot among them, and
    /// answers it; `None` exactly where there is none. It takes no memory. Costs a step for each word of 64
    /// numbers from where the last one was found, around once. The first call after slots were loaded,
    /// forgotten or restored also unites the used slots, a step for each of their words and one for each slot.
    #[tactic(auto, using(crate::proofs::Rows::kept_more))]
    pub fn allocate(&mut self) -> Option<u32>
        ensures none { IfNone result ((v : ℕ) → v < self.old.span → taken_in self.old.slots v ≡ true) }
        ensures unchanged { IfNone result (self.new ≡ self.old) }
        ensures found { IfSome result (λ v. Allocates self.old v self.new) }
        ensures valid { IsVolume self.new }
    {
        union::refresh(&mut self.union, self.united, &self.active, &self.others);
        self.united = true;
        let v = slots::next_free(union::union_or(&self.union, &self.active), self.next)?;
        self.active.set(v);
        union::put(&mut self.union, v, true);
        self.next = v + 1;
        Some(v)
    }

    /// Takes a number out of the active set; one that isn't in it changes nothing. Costs a step for each slot up to the last that a
    /// snapshot uses, and one for the base's.
    #[tactic(auto, using(crate::proofs::Rows::kept_fewer, crate::proofs::Rows::kept_still))]
    pub fn release(&mut self, vvbn: u32)
        ensures released { self.new ≡ with_slot self.old 0 (Some (slice_set (active_of self.old) vvbn false)) }
        ensures valid { IsVolume self.new }
    {
        if vvbn >= self.span {
            return;
        }
        self.active.clear(vvbn);
        if !slots::any_used_has(&self.others, self.used, vvbn) {
            union::put(&mut self.union, vvbn, false);
        }
    }

    /// Whether the slot of a snapshot, 1 to 24, has this number, whatever number it is; none has one from the span on. Costs a step for
    /// each slot up to the last that a snapshot uses. `docs/DECISIONS.md` has how what stays charged is counted.
    #[tactic(auto, using(crate::proofs::Rows::used_slots, crate::proofs::Rows::past_none))]
    pub fn in_snapshot(&self, vvbn: u64) -> bool
        ensures { result ≡ is_in_snapshot self.now vvbn }
    {
        if vvbn >= u64::from(self.span) {
            return false;
        }
        slots::any_has(&self.others[..self.used], vvbn as u32)
    }

    /// Whether another slot than the active one has this number, a snapshot's or the base's, whatever number it is; none has one from the
    /// span on. Costs a step for each slot up to the last that a snapshot uses, and one for the base's.
    #[tactic(auto, using(crate::proofs::Rows::past_none))]
    pub fn is_elsewhere(&self, vvbn: u64) -> bool
        ensures { result ≡ is_elsewhere self.now vvbn }
    {
        if vvbn >= u64::from(self.span) {
            return false;
        }
        slots::any_used_has(&self.others, self.used, vvbn as u32)
    }

    /// Whether no snapshot uses a slot: then none from 1 to 24 has a number that the active one lacks. Costs one step.
    pub fn is_alone(&self) -> bool
        ensures exact { result ≡ not (list_any is_some (take snapshot_count (drop 1 self.now.slots))) }
        ensures alone { result ≡ true → HoldsActive self.now }
    {
        self.used == 0
    }

    /// Whether a slot from 0 to 24 has this number; none has one from the span on. Costs a step for each slot up to the last that a
    /// snapshot uses.
    #[tactic(auto, using(crate::proofs::Rows::used_slots))]
    pub fn held(&self, vvbn: u32) -> bool
        ensures { result ≡ taken_in (take stored_count self.now.slots) vvbn }
    {
        slots::has_member(&self.active, vvbn) || slots::any_has(&self.others[..self.used], vvbn)
    }
}
