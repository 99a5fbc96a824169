//! What a tree reaches its blocks through.

ghost use Rattle.std.specs.Prelude.{◌≡◌, ◌≢◌, ◌≤◌, ℕ, IfOk, OnOk};
ghost use Rattle.fv_codec.specs.Forms.{has_form};
ghost use Rattle.fv_tree.specs.Sources.{Shown, IsSource, IsKind, Loads, Places, Drops};

use fv_codec::{Form, Pointer};
use fv_disk::BlockFault;

/// Where a block was placed.
#[derive(Clone, Copy, Debug, PartialEq, Eq)]
pub struct Placed {
    /// The block's number in the volume, below 1,048,576.
    pub vvbn: u32,
    /// The block's place in the aggregate, below 1,048,576, or 0 where the pointer to it has to be unknown.
    pub pvbn: u32,
}

/// Why a call on a tree failed.
pub type TreeFault = BlockFault;

/// The blocks of a volume: a finite map from the VVBNs that are held to their blocks, and the VVBNs of those
/// that its active tree has in use, each with the PVBN that a pointer to it may tell, or 0 where the pointer has
/// to be unknown, and with the kind of its block. A snapshot may hold others.
///
/// It counts faults of the disk and damages that it answered. Both counts never fall, and a call that was done
/// leaves them. It counts strays, too: how often a VVBN was named as gone that wasn't in use. Where that count
/// stays and a VVBN went out of use, the VVBN was named once.
pub trait Blocks {
    /// The map, the VVBNs in use with their PVBNs and kinds, the three counts and the last damage.
    ghost shown: { Self → Shown };

    /// Whether content is told: then a load gives the block that the map has under its VVBN, and what is placed
    /// comes into the map. A source over a disk that promises nothing of its content takes a statement that can't be
    /// shown; all else that it promises stands without it. It is one statement for a type, so it holds for all calls
    /// on a tree or for none.
    ghost told: { Type 0 };

    /// Whether the place of each block that is placed is told: then `place` never answers a PVBN of 0. A source that asks
    /// for unknown pointers takes a statement that can't be shown. It is one for a type, as `told` is.
    ghost known: { Type 0 };

    /// What a load leaves of all else that a source has, as of a pool and a disk that it was lent. Each call on a
    /// tree that only loads ensures it, so its caller knows afterwards what its own parts are.
    ghost reads: { Self → Self → Type 0 };

    /// What any call leaves of all else that a source has. Each call on a tree ensures it.
    ghost goes: { Self → Self → Type 0 };

    /// What stays of all that a source has under a VVBN, in use or not, such as an entry that still stands there. Only `place` may
    /// change it, and only under the VVBN that it answers.
    ghost keeps: { ℕ → Self → Self → Type 0 };

    /// Gives the block under the pointer's VVBN, where content is told, and answers the PVBN that was read, below
    /// 1,048,576, or 0 for a block that isn't placed yet. The map, what is in use and the strays stay. At `Err` the
    /// content of `into` is open.
    ///
    /// # Errors
    ///
    /// `DiskFault` only where the count of disk faults rose in the call, `Damaged` only where that of
    /// damages rose, with the last damage, and the other count stays, and where content is told only if the VVBN isn't in
    /// the map; `Memory` for want of memory alone, with both counts as before.
    fn load(&mut self, pointer: &Pointer, into: &mut [u8; 4096]) -> Result<u32, TreeFault>
        ensures loads { Loads told (shown self.old) pointer.now (shown self.new) into.new result }
        ensures reads { reads self.old self.new };

    /// As `load`, and tells whether the block has a form: whether it spells a node, or an inode block. At `Err` also `has` is
    /// open. A source may remember what it judged, so that it judges a block once.
    fn load_as(
        &mut self,
        pointer: &Pointer,
        form: Form,
        into: &mut [u8; 4096],
        has: &mut bool,
    ) -> Result<u32, TreeFault>
        ensures loads { Loads told (shown self.old) pointer.now (shown self.new) into.new result }
        ensures reads { reads self.old self.new }
        ensures form { OnOk result (has.new ≡ has_form form into.new) };

    /// Adds a block of a kind from 1 to 7 under a VVBN that was neither in the map nor in use, and takes it
    /// into use with that kind and the PVBN that it answers; all else stays in use as it was, and in the map where
    /// content is told.
    ///
    /// # Errors
    ///
    /// `DiskFault`, `Damaged` and `Memory` with the counts as for `load`; the map, what is in use and the strays
    /// stay then. Where content is told no damage comes while there is room.
    fn place(&mut self, kind: u8, block: &[u8; 4096]) -> Result<Placed, TreeFault>
        requires kind { IsKind kind }
        ensures places { Places told (shown self.old) kind block.now (shown self.new) result }
        ensures known { known → IfOk result (λ placed. 1 ≤ placed.pvbn) }
        ensures keeps { (v : ℕ) → IfOk result (λ placed. placed.vvbn ≢ v) → keeps v self.old self.new }
        ensures calls { goes self.old self.new };

    /// Takes that one VVBN out of use, and may drop it from the map; all else stays. One that isn't in use
    /// changes nothing of what is, and counts as a stray. It makes no call that can fail, so the counts of faults
    /// and damages stay.
    fn gone(&mut self, vvbn: u32)
        ensures drops { Drops (shown self.old) vvbn (shown self.new) }
        ensures keeps { (v : ℕ) → keeps v self.old self.new }
        ensures calls { goes self.old self.new };

    /// What holds of every source of blocks: the last damage is one, wherever any was answered.
    ghost laws: { (blocks : Self) → IsSource (shown blocks) };

    /// No call leaves what there is, and two loads leave what one may.
    ghost reads_nothing: { (blocks : Self) → reads blocks blocks };

    ghost reads_on: { (old mid new : Self) → reads old mid → reads mid new → reads old new };

    /// A load leaves what any call may.
    ghost reads_go: { (old new : Self) → reads old new → goes old new };

    /// No call leaves what there is, and two calls leave what one may.
    ghost goes_nothing: { (blocks : Self) → goes blocks blocks };

    ghost goes_on: { (old mid new : Self) → goes old mid → goes mid new → goes old new };

    /// A load leaves what stays under each VVBN, and two calls leave what both do.
    ghost reads_keep: { (v : ℕ) (old new : Self) → reads old new → keeps v old new };

    ghost keeps_on: { (v : ℕ) (old mid new : Self) → keeps v old mid → keeps v mid new → keeps v old new };
}
