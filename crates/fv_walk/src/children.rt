//! The pointers in the block to which a pointer leads.

ghost use Rattle.std.specs.Prelude.{◌≡◌, ◌≢◌, ◌<◌, ◌*◌, map, IfOk};
ghost use Rattle.std.specs.List.{All, enumerate_from};
ghost use Rattle.fv_codec.specs.Blocks.{IsInodeRecord};
ghost use Rattle.fv_tables.specs.Told.{records_each};
ghost use Rattle.fv_faults.specs.Walks.{child_of, file_root, used_from};
ghost use Rattle.fv_walk.specs.Visits.{IsUnder, IsVisit, item_of, visit_of};
ghost use Rattle.fv_walk.specs.Sights.{IsBelow, pointers_in};

use crate::below::Below;
use crate::visit::Visit;
use fv_codec::{InodeRecord, Pointer};
use std::alloc::{AllocError, Global};

/// The pointers in the block to which a pointer leads, which lies at `block`: of a node all 128, holes among them, and of an inode block
/// the roots of its used records. The one error is want of memory. Costs a step for each.
#[tactic(auto, unfolding(crate::specs::Sights::pointers_in))]
pub(crate) fn children(
    alloc: Global,
    visit: &Visit,
    below: &Below,
    block: u64,
) -> Result<Vec<Visit>, AllocError>
    requires visit { IsVisit visit.now }
    requires below { IsBelow visit.now below.now }
    ensures are { IfOk result (λ all. all.items ≡ map (λ e. visit_of (e, block)) (pointers_in (item_of visit.now) below.now)) }
    ensures under { IfOk result (λ all. All (IsUnder visit.now) all.items) }
{
    match below {
        Below::Nothing => Ok(Vec::new(alloc)),
        Below::Node(node) => node_children(alloc, visit, &node.children, block),
        Below::Inodes(inodes) => file_roots(alloc, visit, &inodes.files, block),
    }
}

#[tactic(auto, using(crate::proofs::Lists::child_more, crate::proofs::Lists::all_more))]
fn node_children(
    alloc: Global,
    visit: &Visit,
    pointers: &[Pointer; 128],
    block: u64,
) -> Result<Vec<Visit>, AllocError>
    requires visit { IsVisit visit.now }
    requires level { visit.now.level ≢ 0 }
    ensures are { IfOk result (λ all. all.items ≡ map (λ e. visit_of (e, block)) (map (child_of (item_of visit.now)) (enumerate_from 0 pointers.now))) }
    ensures under { IfOk result (λ all. All (IsUnder visit.now) all.items) }
{
    let mut all = Vec::with_capacity(alloc, 128)?;
    for slot in 0..128usize {
        all.push(child(visit, slot, pointers[slot], block))?;
    }
    Ok(all)
}

/// The pointer in a slot of a node.
#[tactic(auto, using(crate::proofs::Ranges::child_is_under, crate::proofs::Ranges::place_fits))]
fn child(visit: &Visit, slot: usize, pointer: Pointer, block: u64) -> Visit
    requires visit { IsVisit visit.now }
    requires level { visit.now.level ≢ 0 }
    requires slot { slot < 128 }
    ensures is { result ≡ visit_of (child_of (item_of visit.now) (slot, pointer), block) }
    ensures under { IsUnder visit.now result }
{
    Visit {
        owner: visit.owner,
        levels: visit.levels,
        level: visit.level - 1,
        place: 128 * visit.place + slot as u64,
        pointer,
        holder: visit.pointer,
        block,
    }
}

#[tactic(auto, using(crate::proofs::Lists::root_used, crate::proofs::Lists::root_free, crate::proofs::Ranges::place_fits, crate::proofs::Lists::all_more))]
fn file_roots(
    alloc: Global,
    visit: &Visit,
    files: &[InodeRecord; 16],
    block: u64,
) -> Result<Vec<Visit>, AllocError>
    requires visit { IsVisit visit.now }
    requires level { visit.now.level ≡ 0 }
    requires files { All IsInodeRecord files.now }
    ensures are { IfOk result (λ all. all.items ≡ map (λ e. visit_of (e, block)) (map (file_root (item_of visit.now)) (used_from (records_each * visit.now.place) files.now))) }
    ensures under { IfOk result (λ all. All (IsUnder visit.now) all.items) }
{
    let mut all = Vec::new(alloc);
    for slot in 0..16usize {
        let file = files[slot];
        if file.name_length != 0 {
            all.push(file_root(visit, 16 * visit.place + slot as u64, &file, block))?;
        }
    }
    Ok(all)
}

/// The root of a file's tree, which stands in the file's record.
#[tactic(auto, using(crate::proofs::Ranges::root_is_under))]
fn file_root(visit: &Visit, number: u64, file: &InodeRecord, block: u64) -> Visit
    requires level { visit.now.level ≡ 0 }
    requires file { IsInodeRecord file.now }
    ensures is { result ≡ visit_of (file_root (item_of visit.now) (number, file.now), block) }
    ensures under { IsUnder visit.now result }
{
    Visit {
        owner: number,
        levels: file.levels,
        level: file.levels,
        place: 0,
        pointer: file.root,
        holder: visit.pointer,
        block,
    }
}
