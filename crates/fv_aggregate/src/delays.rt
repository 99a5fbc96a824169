//! Whether entries are delayed in an aggregate that was just opened, by counts alone.

ghost use Rattle.std.specs.Prelude.{◌≡◌, ◌<◌, ℕ, IfOk, IfSome};
ghost use Rattle.fv_container.specs.Chains.{map_in, paged_at, slot_count};
ghost use Rattle.fv_container.specs.Spelled.{is_at};
ghost use Rattle.fv_volume.specs.States.{label_in_state, state_at};
ghost use Rattle.fv_aggregate.specs.Delayed.{LosesThose, blocks_under, has_more, has_node, held_by, held_in, is_frame};

use fv_aggmap::AggMap;
use fv_bits::BitMap;
use fv_codec::SLOTS;
use fv_container::Free;
use fv_model::map_blocks;
use fv_volume::Pool;
use fv_volumes::Volumes;
use std::alloc::{AllocError, Global};

/// Blocks of a set, as far as they weren't taken out of it. None of them is free.
#[derive(Drop)]
pub(crate) struct Left {
    /// A bit for each block.
    blocks: BitMap,
}

impl Free for Left {
    ghost use Rattle.fv_aggregate.specs.Delayed.{is_room_left, room_left};

    ghost room = { room_left };

    ghost laws = { is_room_left };

    fn take_free(&mut self) -> Option<u32> {
        None
    }

    fn release_after_commit(&mut self, pvbn: u32) {
        if pvbn < self.blocks.len() {
            self.blocks.clear(pvbn);
        }
    }
}

/// Whether other blocks are held than labels, nodes of containers, and one for each VVBN that a volume holds. Over an image that stands for a
/// machine it is so exactly where an entry of some volume is delayed there; no leaf has to be read for that.
///
/// The one error is want of memory. Costs a step for each word of 64 blocks of the aggregate and for each node of the containers, and
/// memory for a bit for each block, which is given back.
pub(crate) fn has_more(alloc: Global, pool: &Pool, volumes: &Volumes) -> Result<bool, AllocError>
    ensures { IfOk result (λ more. more ≡ has_more pool.now volumes.now) }
{
    let under = blocks_under(alloc, pool, volumes)?;
    Ok(u64::from(under) != sum_held(volumes))
}

/// How many blocks the next root will hold beside labels and nodes of containers.
#[tactic(auto, using(crate::proofs::LeftBlocks::framed_none))]
fn blocks_under(alloc: Global, pool: &Pool, volumes: &Volumes) -> Result<u32, AllocError>
    ensures { IfOk result (λ count. count ≡ blocks_under pool.now volumes.now) }
{
    let mut left = all_of(alloc, &pool.map)?;
    for slot in 0..SLOTS {
        take_frame(&mut left, pool, volumes, slot);
    }
    Ok(left.blocks.count())
}

/// The blocks that the next root will hold.
fn all_of(alloc: Global, map: &AggMap) -> Result<Left, AllocError>
    ensures { IfOk result (λ left. left.blocks ≡ map.now.next) }
{
    let mut blocks = BitMap::new(alloc, map.blocks())?;
    blocks.copy_from(map.next_map());
    Ok(Left { blocks })
}

/// Takes out what a slot's volume has beside the blocks of its entries.
#[tactic(auto, using(crate::proofs::LeftBlocks::loses_then))]
fn take_frame(left: &mut Left, pool: &Pool, volumes: &Volumes, slot: u8)
    requires { slot < slot_count }
    ensures { LosesThose left.old.blocks (is_frame (state_at volumes.now slot) (paged_at pool.now.containers slot)) left.new.blocks }
{
    take_label(left, volumes, slot);
    take_nodes(left, pool, slot);
}

/// Takes out the label of a slot's volume.
fn take_label(left: &mut Left, volumes: &Volumes, slot: u8)
    requires { slot < slot_count }
    ensures { LosesThose left.old.blocks (λ b. is_at b (label_in_state (state_at volumes.now slot))) left.new.blocks }
{
    if let Some(state) = volumes.get(slot) {
        take_out(left, state.label_place());
    }
}

/// Takes a block out; 0 is none.
fn take_out(left: &mut Left, place: u32)
    ensures { LosesThose left.old.blocks (λ b. is_at b place) left.new.blocks }
{
    if place != 0 {
        left.release_after_commit(place);
    }
}

/// Takes out the nodes of a slot's container.
fn take_nodes(left: &mut Left, pool: &Pool, slot: u8)
    requires { slot < slot_count }
    ensures { LosesThose left.old.blocks (has_node (map_in (paged_at pool.now.containers slot))) left.new.blocks }
{
    if let Some(container) = pool.containers.get(slot) {
        container.release_tree(left);
    }
}

/// How many VVBNs a slot's volume holds: it is charged for all but those of its active map's blocks.
fn held_of(volumes: &Volumes, slot: u8) -> u64
    requires { slot < slot_count }
    ensures held { result ≡ held_by (state_at volumes.now slot) }
    ensures most { result < 8589934592 }
{
    match volumes.get(slot) {
        Some(state) => u64::from(state.ledger.charge()) + u64::from(map_blocks(state.span)),
        None => 0,
    }
}

/// How many VVBNs all volumes hold.
#[tactic(auto, using(crate::proofs::LeftBlocks::held_none, crate::proofs::LeftBlocks::held_more))]
fn sum_held(volumes: &Volumes) -> u64
    ensures { result ≡ held_in volumes.now slot_count }
{
    let mut sum: u64 = 0;
    for slot in 0..SLOTS {
        sum += held_of(volumes, slot);
    }
    sum
}
