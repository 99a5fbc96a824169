//! A new container for copies, and the blocks that they take.

ghost use Rattle.std.specs.Prelude.{◌≡◌, ◌≤◌, ◌<◌, ◌≢◌, ℕ, false, true, List, [], length, slice_set, IfErr, IfOk, OnErr, OnOk};
ghost use Rattle.fv_aggmap.specs.Giving.{HasGiven};
ghost use Rattle.fv_aggmap.specs.Space.{blocks_of, free_blocks};
ghost use Rattle.fv_bits.specs.Members.{is_member};
ghost use Rattle.fv_codec.specs.Blocks.{last_place};
ghost use Rattle.fv_container.specs.Chains.{slot_count};
ghost use Rattle.fv_container.specs.Paged.{empty_paged};
ghost use Rattle.fv_disk.specs.Faults.{HasBlockCause};
ghost use Rattle.fv_disk.specs.declared.fault.BlockFault.TheVariants.{Damaged};
ghost use Rattle.fv_image.specs.Containers.{most_entries};
ghost use Rattle.fv_store.specs.Held.{StandsOn};
ghost use Rattle.fv_copies.specs.Copying.{Copy, HasCopied, HasWriteCause, IsSource, IsUndamaged, IsWhole, LeavesTaken, content_of, copies_below};
ghost use Rattle.fv_copies.specs.Landings.{AreUnmarked, GivesBack, HasLanded, IsNoBlock, Lands, TakesMarked, place_count};

use crate::copying::copy_blocks;
use crate::sink::Sink;
use fv_aggmap::AggMap;
use fv_bits::BitMap;
use fv_container::{Container, Entry};
use fv_disk::{Block, BlockFault, Disk};
use fv_pool::{Home, Pool};
use fv_root::root_place;
use std::alloc::{AllocError, Global};

/// How many places there are, to count a row by.
const PLACES: u32 = 1_048_576;

/// A new container, which isn't the pool's yet, and the blocks that were taken for the copies in it.
#[derive(Drop)]
pub struct Landing {
    /// The container: under each VVBN of a copy the place where it was written.
    pub container: Container,
    /// The places that were taken, each also where the write to it failed.
    marks: BitMap,
    ghost all: { length marks ≡ place_count },
}

impl Landing {
    /// A container of so many entries, all of them holes, and no block is taken. The one error is want of memory. Takes a bit for each place
    /// that there may be, 128 KiB, and what a container takes.
    pub fn new(alloc: Global, entries: u32) -> Result<Landing, AllocError>
        requires { entries ≤ most_entries }
        ensures container { IfOk result (λ landing. landing.container ≡ empty_paged entries) }
        ensures marks { IfOk result (λ landing. AreUnmarked landing.marks) }
    {
        Ok(Landing {
            container: Container::new(alloc, entries)?,
            marks: BitMap::new(alloc, PLACES)?,
        })
    }

    /// The container, once all copies are in it. Costs some steps.
    pub fn into_container(self) -> Container
        ensures { result ≡ self.container }
    {
        let Landing {
            container,
            marks: _marks,
        } = self;
        container
    }

    /// Says that the next root won't hold the blocks that were taken. They are free again, as the root on the disk doesn't hold them. Costs a
    /// step for each word of 64 places and for each block.
    #[tactic(auto, using(crate::proofs::Marking::all_back))]
    fn give_back(&self, map: &mut AggMap)
        ensures { GivesBack map.old self.now.marks map.new }
    {
        known_blocks(map);
        give_back_marked(&self.marks, map);
        known_blocks(map);
    }
}

/// Both roots' sets speak of the same blocks. It costs nothing: it is here so that a proof sees it.
fn known_blocks(map: &AggMap)
    ensures { length map.now.next ≡ blocks_of map.now }
{
    let _ = map.blocks();
}

/// Says that the next root won't hold the blocks that are marked. 0 is no block.
fn give_back_marked(marks: &BitMap, map: &mut AggMap)
    ensures { is_member marks.now 0 ≡ false → HasGiven map.old (is_member marks.now) map.new }
{
    // The length is a number of 32 bits, so there is one behind each member.
    let _ = marks.len();
    let mut from = 0;
    while let Some(place) = marks.first_member(from) {
        map.give_back(place);
        from = place + 1;
    }
}

impl Sink for Landing {
    ghost use Rattle.fv_copies.specs.Landings.{HasLanded, Lacks, Lands};
    ghost use Rattle.fv_copies.specs.LandingLaws.{landed_reads, room_same, lands_itself, lands_then};
    ghost use Rattle.fv_aggmap.specs.Giving.{HasGiven};
    ghost use Rattle.fv_aggmap.specs.Space.{blocks_of, free_blocks};

    ghost lacks = { λ landing v. Lacks landing.container v };

    ghost got = { λ landing pool content copies. HasLanded landing.container landing.marks pool content copies };

    ghost room = { λ landing pool. free_blocks pool.map };

    ghost goes = { λ old pool new left. Lands old.container old.marks pool.map new.container new.marks left.map };

    ghost quiet = { Unit {0} };

    ghost got_reads = { λ landing pool left content copies same landed. landed_reads landing.container landing.marks pool left content copies same landed };

    ghost room_reads = { λ landing pool left same. room_same pool left same };

    ghost goes_reads = { λ landing pool left same. lands_itself landing.container landing.marks pool left same };

    ghost goes_on = { λ old mid new pool left last first second. lands_then old.container old.marks mid.container mid.marks new.container new.marks pool.map left.map last.map first second };

    fn take<D: Disk>(
        &mut self,
        pool: &mut Pool,
        disk: &mut D,
        vvbn: u32,
        kind: u8,
        block: &Block,
    ) -> Result<(), BlockFault> {
        self.container.load(&mut pool.store, disk, vvbn / 256)?;
        let root = root_place(pool.found.slot);
        let pvbn = take_marked(&mut pool.map, &mut self.marks, root)?;
        // A block that was kept here was given up: it would stand in the way of the copy.
        pool.kept.forget(pvbn);
        pool.store.put(disk, pvbn, block)?;
        self.container.place(vvbn, Entry { pvbn, kind });
        Ok(())
    }
}

/// Copies the blocks under the numbers of a map to free blocks, each with one write, and sets their entries in a new container, as `copy_blocks`
/// copies. Neither root holds such a block: the next one does.
///
/// # Errors
/// As those of `copy_blocks`; `Damaged` at the place of the root, 1 and 0, where no block is free. All blocks that were taken are given back then.
///
/// Costs a read, a look-up and a write for each number.
pub fn copy_into<D: Disk>(
    pool: &mut Pool,
    disk: &mut D,
    source: &Home,
    map: &BitMap,
    landing: &mut Landing,
) -> Result<(), BlockFault>
    requires slot { source.now.slot < slot_count }
    requires within { length map.now ≤ length landing.old.container.map.entries }
    requires empty { landing.old.container ≡ empty_paged (length landing.old.container.map.entries) }
    requires marks { AreUnmarked landing.old.marks }
    requires stands { StandsOn (D.shown disk.old) pool.old.store.pairs }
    ensures copied { IsSource (D.shown disk.old) pool.old source.now.slot map.now
        → OnOk result (HasCopied (D.shown disk.old) pool.old source.now.slot (copies_below map.now (length map.now))
        (HasLanded landing.new.container landing.new.marks pool.new (content_of (D.shown disk.new))) []) }
    ensures lands { OnOk result (Lands landing.old.container landing.old.marks pool.old.map landing.new.container landing.new.marks pool.new.map) }
    ensures enough { IsSource (D.shown disk.old) pool.old source.now.slot map.now → IsWhole (D.shown disk.old) pool.old source.now.slot map.now
        → length (copies_below map.now (length map.now)) ≤ free_blocks pool.old.map → IfErr result IsUndamaged }
    ensures leaves { LeavesTaken (Unit {0}) (D.shown disk.old) pool.old (D.shown disk.new) pool.new }
    ensures map { OnErr result (pool.new.map ≡ pool.old.map) }
    ensures stands { StandsOn (D.shown disk.new) pool.new.store.pairs }
    ensures cause { HasBlockCause (D.shown disk.old).faults (D.shown disk.new).faults result }
    ensures write_cause { HasWriteCause (D.shown disk.old).write_faults (D.shown disk.new).write_faults result }
{
    if let Err(fault) = copy_blocks(pool, disk, source, map, landing) {
        landing.give_back(&mut pool.map);
        return Err(fault);
    }
    Ok(())
}

/// Takes a free block and marks it.
fn take_marked(map: &mut AggMap, marks: &mut BitMap, root: u64) -> Result<u32, BlockFault>
    requires { length marks.old ≡ place_count }
    ensures taken { IfOk result (λ b. TakesMarked map.old marks.old b map.new marks.new) }
    ensures failed { OnErr result ((map.new ≡ map.old) × (marks.new ≡ marks.old)) }
    ensures fault { IfErr result (IsNoBlock map.old root) }
    ensures range { IfOk result (λ b. (1 ≤ b) × (b ≤ last_place)) }
{
    let Some(pvbn) = map.take_free() else {
        return Err(BlockFault::Damaged {
            at: root,
            want: 1,
            found: 0,
        });
    };
    marks.set(pvbn);
    Ok(pvbn)
}
