//! The roots of a volume: that of its active table, and those of its snapshots.

ghost use Rattle.std.specs.Prelude.{◌≡◌, ◌++◌, ◌∷◌, [], length, map, IfOk, OnOk};
ghost use Rattle.fv_codec.specs.Blocks.{IsLabel, IsSnapRecord};
ghost use Rattle.fv_image.specs.Views.{head_of};
ghost use Rattle.fv_image.specs.Seen.{roots_of};
ghost use Rattle.fv_second_pass.specs.Reaching.{roots_if};
ghost use Rattle.fv_third_pass.specs.Volumes.{AreFew, root_of};

use fv_codec::{Label, SnapRecord};
use fv_walk::Table;
use std::alloc::{AllocError, Global};

/// A root of a volume.
#[derive(Clone, Copy, Debug, PartialEq, Eq)]
pub struct MapRoot {
    /// The slot of its map, 0 for the active table and 1 to 24 for snapshots.
    pub slot: u8,
    /// Its table.
    pub table: Table,
}

/// Adds a root.
fn push_root(roots: &mut Vec<MapRoot>, root: MapRoot) -> Result<(), AllocError>
    ensures { OnOk result (roots.new.items ≡ roots.old.items ++ root ∷ []) }
{
    roots.push(root)?;
    Ok(())
}

/// Adds the root of a snapshot, where a label's record names one.
fn add_root(roots: &mut Vec<MapRoot>, slot: u8, snapshot: &SnapRecord) -> Result<(), AllocError>
    requires { IsSnapRecord snapshot.now }
    ensures roots { OnOk result (map root_of roots.new.items ≡ map root_of roots.old.items ++ roots_if slot snapshot.now) }
    ensures levels { AreFew roots.old.items → OnOk result (AreFew roots.new.items) }
{
    if snapshot.name_length == 0 {
        return Ok(());
    }
    let root = MapRoot {
        slot,
        table: Table {
            levels: snapshot.levels,
            root: snapshot.root,
        },
    };
    push_root(roots, root)?;
    Ok(())
}

/// The roots of the volume of a label, in the order of their map slots. The one error is want of memory.
pub fn roots_of(alloc: Global, label: &Label) -> Result<Vec<MapRoot>, AllocError>
    requires label { IsLabel label.now }
    requires long { length label.now.snapshots ≡ 24 }
    ensures roots { IfOk result (λ roots. map root_of roots.items ≡ roots_of (head_of label.entry.now)) }
    ensures levels { IfOk result (λ roots. AreFew roots.items) }
{
    let mut roots = Vec::with_capacity(alloc, 25)?;
    let active = MapRoot {
        slot: 0,
        table: Table {
            levels: label.levels,
            root: label.root,
        },
    };
    push_root(&mut roots, active)?;
    for slot in 0..24u8 {
        add_root(&mut roots, slot + 1, &label.snapshots[usize::from(slot)])?;
    }
    Ok(roots)
}
