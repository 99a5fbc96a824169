//! Putting a volume that was made among the others.

ghost use Rattle.std.specs.Prelude.{◌≡◌, Some, OnErr, OnOk};
ghost use Rattle.fv_container.specs.Chains.{paged_at, parent_at};
ghost use Rattle.fv_container.specs.Paged.{empty_paged};
ghost use Rattle.fv_image.specs.Views.{entry_count};
ghost use Rattle.fv_volume.specs.Slots.{sum_of};
ghost use Rattle.fv_volume.specs.States.{with_state};
ghost use Rattle.fv_volumes.specs.Creating.{CanPut, with_container_on, with_holes_on};

use crate::volumes::Volumes;
use fv_container::Container;
use fv_volume::{Pool, VolumeState, entry_count};
use std::alloc::{AllocError, Global};

impl Volumes {
    /// What its volumes take their memory from.
    pub fn alloc(&self) -> Global {
        self.alloc
    }

    /// Puts a volume that was made into its slot, which is free, with a container of holes: its label and the blocks of its active map are
    /// placed by the next consistency point. `parent` is the slot of the volume that it stands on, if it stands on one. There is room for what
    /// it commits. `commits` is what all volumes commit together, in blocks, before the call and behind it.
    ///
    /// The one error is want of memory; nothing changes then. Costs a step for each region of the container, and takes memory for it.
    pub fn put(
        &mut self,
        pool: &mut Pool,
        commits: &mut u64,
        state: VolumeState,
        parent: Option<u8>,
    ) -> Result<(), AllocError>
        requires can { CanPut self.old pool.old.found.blocks state parent }
        requires sum { commits.old ≡ sum_of self.old }
        ensures row { OnOk result (self.new ≡ with_state self.old state.slot (Some state)) }
        ensures holes { OnOk result (pool.new ≡ with_holes_on pool.old state.slot state.span parent) }
        ensures container { OnOk result (paged_at pool.new.containers state.slot ≡ Some (empty_paged (entry_count state.span))) }
        ensures parent { OnOk result (parent_at pool.new.containers state.slot ≡ parent) }
        ensures same { OnErr result ((self.new ≡ self.old) × (pool.new ≡ pool.old)) }
        ensures sum { commits.new ≡ sum_of self.new }
    {
        let container = Container::new(self.alloc, entry_count(state.span))?;
        self.put_with(pool, commits, state, container, parent);
        Ok(())
    }

    /// As `put`, with a container that has an entry for each of its VVBNs, in place of one of holes. It takes no memory. Costs some steps.
    pub fn put_with(
        &mut self,
        pool: &mut Pool,
        commits: &mut u64,
        state: VolumeState,
        container: Container,
        parent: Option<u8>,
    )
        requires can { CanPut self.old pool.old.found.blocks state parent }
        requires sum { commits.old ≡ sum_of self.old }
        ensures row { self.new ≡ with_state self.old state.slot (Some state) }
        ensures holds { pool.new ≡ with_container_on pool.old state.slot container parent }
        ensures container { paged_at pool.new.containers state.slot ≡ Some container }
        ensures parent { parent_at pool.new.containers state.slot ≡ parent }
        ensures sum { commits.new ≡ sum_of self.new }
    {
        // There is room for it, so all commit no more than the aggregate has blocks.
        *commits = commits
            .saturating_add(state.ledger.commit())
            .min(u64::from(pool.found.blocks));
        let slot = state.slot;
        self.fill(slot, state);
        pool.containers.put(slot, container, parent);
    }
}
