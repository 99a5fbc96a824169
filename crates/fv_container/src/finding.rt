//! Looking up a row of entries, where each leaf is read and decoded once.

ghost use Rattle.std.specs.Prelude.{◌≡◌, ◌<◌, ◌≤◌, ◌+◌, ◌*◌, ◌/◌, ◌%◌, ◌^◌, ℕ, None, length, get_or, IsTrue, IfErr, IfSome, OnOk};
ghost use Rattle.fv_codec.specs.Blocks.{IsEntry as IsLeafEntry, greatest_kind};
ghost use Rattle.fv_container.specs.Clean.{IsCleanOn};
ghost use Rattle.fv_container.specs.Finding.{AreAway, AreEntries, AreHeld, IsRowFault, LooksUpFrom, LooksUpRow};
ghost use Rattle.fv_container.specs.Loading.{IsReadFault};
ghost use Rattle.fv_container.specs.Paged.{AreWell, IsLeafFor, pair_at};
ghost use Rattle.fv_container.specs.Reading.{HasRead, IsBadNode};
ghost use Rattle.fv_container.specs.Spelled.{IsOpened, pair_of};
ghost use Rattle.fv_store.specs.Held.{StandsOn};

use crate::container::Container;
use crate::entry::Entry;
use crate::fault::ContainerFault;
use crate::layout::FAN;
use crate::leaf::entry_of;
use crate::load::read_leaf;
use fv_codec::ContainerLeaf;
use fv_disk::{BlockFault, Disk};
use fv_store::Store;

/// Puts entries of a leaf into a row, from a number on up to an end. The row begins at a VVBN.
fn entries_of(
    leaf: &ContainerLeaf,
    first: usize,
    from: usize,
    end: usize,
    into: &mut [Option<Entry>],
)
    requires few { first + end ≤ 2 ^ 32 }
    requires within { end ≤ length into.old }
    requires pvbns { length leaf.now.pvbns ≡ 256 }
    requires kinds { length leaf.now.kinds ≡ 256 }
    requires range { (c : ℕ) → c < 256 → IsLeafEntry (pair_at leaf.now c) }
    ensures len { length into.new ≡ length into.old }
    ensures pairs { (k : ℕ) → from ≤ k → k < end → pair_of (get_or into.new k None) ≡ pair_at leaf.now ((first + k) % 256) }
    ensures held { AreHeld from end into.new }
    ensures before { (k : ℕ) → k < from → get_or into.new k None ≡ get_or into.old k None }
{
    for k in from..end {
        into[k] = entry_of(leaf, (first + k) % FAN);
    }
}

/// Looks up the entries of a row, from a number on up to an end, that one leaf has: the one in memory, or the one that is read.
fn look_part<D: Disk>(
    store: &mut Store,
    disk: &mut D,
    leaf: &Option<Box<ContainerLeaf>>,
    at: u32,
    first: usize,
    from: usize,
    end: usize,
    into: &mut [Option<Entry>],
    most_kind: u32,
) -> Result<(), BlockFault>
    requires few { first + end ≤ 2 ^ 32 }
    requires kinds { most_kind ≡ greatest_kind }
    requires within { end ≤ length into.old }
    requires well { IfSome leaf.now (λ b. IsLeafFor ((first + from) / 256) b.value) }
    requires stands { StandsOn (D.shown disk.old) store.old.pairs }
    ensures len { length into.new ≡ length into.old }
    ensures looked { OnOk result (LooksUpFrom (D.shown disk.old) at leaf.now first from end into.new) }
    ensures held { OnOk result (AreHeld from end into.new) }
    ensures before { (k : ℕ) → k < from → get_or into.new k None ≡ get_or into.old k None }
    ensures fault { IsTrue (D.shown disk.old).tells → IfErr result (IsBadNode (D.shown disk.old).reads at 0) }
    ensures kind { IfErr result IsReadFault }
    ensures read { HasRead (D.shown disk.old) (D.shown disk.new) store.new.pairs result }
{
    match leaf {
        Some(leaf) => entries_of(leaf, first, from, end, into),
        None => {
            let leaf = read_leaf(store, disk, at, most_kind)?;
            entries_of(&leaf, first, from, end, into);
        }
    }
    Ok(())
}

/// Where the entries end that the leaf of one of them has, in a row of so many that begins at a VVBN.
fn leaf_end(first: usize, from: usize, count: usize) -> usize
    requires few { first + count ≤ 2 ^ 32 }
    requires within { from < count }
    ensures further { from < result }
    ensures within { result ≤ count }
    ensures same { first + result ≤ 256 * ((first + from) / 256) + 256 }
{
    count.min(from + FAN - (first + from) % FAN)
}

/// Looks up a row of entries from a VVBN on, leaf by leaf.
#[tactic(auto, using(crate::proofs::Reading::reads_none, fv_disk::proofs::Resting::reads_then))]
fn look_row<D: Disk>(
    store: &mut Store,
    disk: &mut D,
    leaves: &[Option<Box<ContainerLeaf>>],
    tree: &[u32],
    first: usize,
    into: &mut [Option<Entry>],
    most_kind: u32,
) -> Result<(), BlockFault>
    requires few { first + length into.old ≤ 2 ^ 32 }
    requires kinds { most_kind ≡ greatest_kind }
    requires within { first + length into.old ≤ 256 * length leaves.now }
    requires tree { length leaves.now ≤ length tree.now }
    requires well { AreWell leaves.now }
    requires stands { StandsOn (D.shown disk.old) store.old.pairs }
    ensures len { length into.new ≡ length into.old }
    ensures looked { OnOk result (LooksUpRow (D.shown disk.old) leaves.now tree.now first (length into.new) into.new) }
    ensures held { OnOk result (AreHeld 0 (length into.new) into.new) }
    ensures fault { IsTrue (D.shown disk.old).tells
        → IfErr result (IsRowFault (D.shown disk.old).reads tree.now first (length into.old)) }
    ensures kind { IfErr result IsReadFault }
    ensures read { HasRead (D.shown disk.old) (D.shown disk.new) store.new.pairs result }
{
    let mut from = 0;
    while from < into.len() {
        let region = (first + from) / FAN;
        let end = leaf_end(first, from, into.len());
        look_part(
            store,
            disk,
            &leaves[region],
            tree[region],
            first,
            from,
            end,
            into,
            most_kind,
        )?;
        from = end;
    }
    Ok(())
}

impl Container {
    /// The entries of a row of VVBNs, from one on, each `None` exactly for a hole: what `find` answers for each of them. All are below the
    /// number of entries. The row may go over from one region to the next. At an error some entries of the row may be found. It reads and
    /// decodes one leaf at most for each region that the row touches, and none where the leaf is in memory or absent, or the row is empty.
    /// Costs a step for each entry.
    ///
    /// # Errors
    /// As those of `find`, of one of the VVBNs.
    pub fn find_row<D: Disk>(
        &self,
        store: &mut Store,
        disk: &mut D,
        first: u32,
        into: &mut [Option<Entry>],
    ) -> Result<(), ContainerFault>
        requires within { first + length into.old ≤ length self.now.map.entries }
        requires stands { StandsOn (D.shown disk.old) store.old.pairs }
        ensures len { length into.new ≡ length into.old }
        ensures entries { IsTrue (D.shown disk.old).tells → IsCleanOn (D.shown disk.old).reads self.now
            → OnOk result (AreEntries self.now.map first into.new) }
        ensures opened { (root height : ℕ) → IsTrue (D.shown disk.old).tells → IsOpened (D.shown disk.old).reads root height self.now.map
            → AreAway self.now first (length into.old) → OnOk result (AreEntries self.now.map first into.new) }
        ensures held { OnOk result (AreHeld 0 (length into.new) into.new) }
        ensures fault { IsTrue (D.shown disk.old).tells
            → IfErr result (IsRowFault (D.shown disk.old).reads self.now.map.tree first (length into.old)) }
        ensures kind { IfErr result IsReadFault }
        ensures read { HasRead (D.shown disk.old) (D.shown disk.new) store.new.pairs result }
    {
        look_row(
            store,
            disk,
            &self.leaves,
            &self.tree,
            first as usize,
            into,
            self.most_kind,
        )
    }
}
