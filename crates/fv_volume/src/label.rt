//! Labels as volumes.

ghost use Rattle.std.specs.Option.{option_map};
ghost use Rattle.std.specs.Prelude.{Ok, ◌≡◌, ◌<◌, ◌≤◌, ◌-◌, ◌++◌, replicate, ◌==◌, true, length, take, find, Some, None, IfOk, IfErr, IfSome, IsTrue, ℕ, option_copied};
ghost use Rattle.fv_codec.specs.Blocks.{IsLabel, IsSnapRecord, label_at};
ghost use Rattle.fv_codec.specs.Fields.{name_filled};
ghost use Rattle.fv_disk.specs.DiskCalls.{OnlyReads};
ghost use Rattle.fv_disk.specs.Faults.{HasBlockCause};
ghost use Rattle.fv_container.specs.Chains.{slot_count};
ghost use Rattle.fv_image.specs.Views.{footing_of, kind_named};
ghost use Rattle.fv_model.specs.Spelling.{is_name};
ghost use Rattle.fv_store.specs.Held.{StandsOn};
ghost use Rattle.fv_volume.specs.Labels.{base_slot_said, kind_number, parent_said, splitting_said};
ghost use Rattle.fv_volume.specs.Loading.{IsBadLabel, form_in};
ghost use Rattle.fv_volume.specs.SnapRecords.{record_said, records_said, snap_said};
ghost use Rattle.fv_volume.specs.States.{footing_in, snap_in, snaps_in};

use crate::state::{Base, Snap};
use fv_codec::{Label, Pointer, SnapRecord};
use fv_disk::{Block, BlockFault, Disk, ZERO};
use fv_model::{Kind, Name};
use fv_pool::Rooted;
use fv_store::Store;
use fv_volmap::{MapSlot, SNAPSHOT_SLOTS};

/// A pointer that leads nowhere.
pub(crate) const HOLE: Pointer = Pointer::HOLE;

/// The record of a snapshot that isn't there.
pub(crate) const FREE: SnapRecord = SnapRecord {
    name_length: 0,
    name: [0; 64],
    levels: 0,
    root: HOLE,
};

/// The first field that is set by a form which can't be loaded: its value without the form, and its own.
#[tactic(auto, unfolding(crate::specs::Loading::form_in))]
fn form_in(label: &Label) -> Option<(u64, u64)>
    ensures { result ≡ form_in label.entry.now }
{
    if label.splitting != 0 {
        return Some((0, u64::from(label.splitting)));
    }
    None
}

/// The label that block `place` spells, where it has no form that can't be loaded.
fn label_in(block: &Block, place: u32) -> Result<Label, BlockFault>
    ensures label { IfOk result (λ l. label_at block.now ≡ Ok l) }
    ensures range { IfOk result IsLabel }
    ensures form { IfOk result (λ l. form_in l ≡ None) }
    ensures fault { IfErr result (IsBadLabel block.now place) }
    ensures cause { (n : ℕ) → HasBlockCause n n result }
{
    let at = u64::from(place);
    let label = match Label::decode(block) {
        Ok(label) => label,
        Err(shape) => {
            return Err(BlockFault::Damaged {
                at,
                want: shape.want,
                found: shape.found,
            });
        }
    };
    match form_in(&label) {
        Some((want, found)) => Err(BlockFault::Damaged { at, want, found }),
        None => Ok(label),
    }
}

/// The name that a label says.
pub(crate) fn name_of(label: &Label) -> Name
    requires { IsLabel label.now }
    ensures name { result ≡ take label.entry.now.name_length label.entry.now.name }
    ensures form { is_name result ≡ true }
{
    name_in(&label.name, label.name_length)
}

/// The name that so many bytes of a field spell.
fn name_in(field: &[u8; 64], bytes: u8) -> Name
    requires least { 1 ≤ bytes }
    requires greatest { bytes ≤ 64 }
    requires filled { name_filled bytes field.now ≡ Ok tt }
    ensures name { result ≡ take bytes field.now }
    ensures form { is_name result ≡ true }
{
    Name::read(&field[..bytes as usize]).unwrap()
}

/// The snapshot of a map slot that a used record says.
pub(crate) fn snap_of(said: &SnapRecord, slot: MapSlot) -> Snap
    requires range { IsSnapRecord said.now }
    requires used { 1 ≤ said.now.name_length }
    ensures { snap_in result ≡ snap_said slot said.entry.now }
{
    Snap {
        slot,
        name: name_in(&said.name, said.name_length),
        table: Rooted {
            levels: said.levels,
            root: said.root,
        },
    }
}

/// The record that says a snapshot.
fn record_of(snap: &Snap) -> SnapRecord
    ensures { result ≡ record_said (Some (snap_in snap.entry.now)) }
{
    let (name_length, name) = name_field(&snap.name);
    SnapRecord {
        name_length,
        name,
        levels: snap.table.levels,
        root: snap.table.root,
    }
}

/// The snapshot of a map slot.
fn snap_at(snaps: &[Snap], slot: MapSlot) -> Option<&Snap>
    ensures { option_copied result ≡ find (λ p. p.slot == slot) snaps.entry.now }
{
    snaps.iter().find(|snap| snap.slot == slot)
}

/// The record of a map slot, free where no snapshot has it.
fn record_at(snaps: &[Snap], slot: MapSlot) -> SnapRecord
    ensures { result ≡ record_said (find (λ p. p.slot == slot) (snaps_in snaps.entry.now)) }
{
    match snap_at(snaps, slot) {
        Some(snap) => record_of(snap),
        None => FREE,
    }
}

/// The records of the map slots from 1 to 24.
pub(crate) fn records_of(snaps: &[Snap]) -> [SnapRecord; SNAPSHOT_SLOTS]
    ensures { result ≡ records_said (snaps_in snaps.entry.now) }
{
    let mut records = [FREE; SNAPSHOT_SLOTS];
    for at in 0..SNAPSHOT_SLOTS {
        records[at] = record_at(snaps, at as MapSlot + 1);
    }
    records
}

/// What a label says that its volume stands on. It says where that is, the slots of its parent and of the parent's snapshot; the volume's
/// own name stands for the names, and a hole for the root, until the parent has said them.
pub(crate) fn base_of(label: &Label) -> Option<Base>
    requires { IsLabel label.now }
    ensures said { option_map footing_in result ≡ footing_of label.entry.now }
    ensures inside { IfSome result (λ base. base.parent < slot_count) }
{
    if label.parent == 0 {
        return None;
    }
    let name = name_of(label);
    Some(Base {
        parent: label.parent - 1,
        slot: label.base_slot,
        splitting: label.splitting == 1,
        name,
        snapshot: name,
        table: Rooted {
            levels: 0,
            root: HOLE,
        },
    })
}

/// What a volume stands on, as a label has it: the slot of its parent and one, the map slot of the parent's snapshot, and 1 while it is
/// being split; zeros without a base.
pub(crate) fn base_fields(base: Option<Base>) -> (u8, MapSlot, u8)
    requires { IfSome base (λ base. base.parent < slot_count) }
    ensures parent { result.0 ≡ parent_said (option_map footing_in base) }
    ensures slot { result.1 ≡ base_slot_said (option_map footing_in base) }
    ensures splitting { result.2 ≡ splitting_said (option_map footing_in base) }
{
    match base {
        None => (0, 0, 0),
        Some(base) => (base.parent + 1, base.slot, u8::from(base.splitting)),
    }
}

/// The kind that a label says.
pub(crate) fn kind_of(label: &Label) -> Kind
    ensures { result ≡ kind_named label.entry.now.kind }
{
    match label.kind {
        0 => Kind::Volume,
        1 => Kind::File,
        _ => Kind::Thin,
    }
}

/// The number of a kind in a label.
pub(crate) fn kind_number(kind: Kind) -> u8
    ensures { result ≡ kind_number kind }
{
    match kind {
        Kind::Volume => 0,
        Kind::File => 1,
        Kind::Thin => 2,
    }
}

/// A name as a label has it: how many bytes it has, and the field, filled up with zero bytes.
pub(crate) fn name_field(name: &Name) -> (u8, [u8; 64])
    ensures length { result.0 ≡ length name.now }
    ensures field { result.1 ≡ name.now ++ replicate (64 - length name.now) 0 }
{
    let bytes = name.as_bytes();
    (bytes.len() as u8, filled(bytes))
}

/// A field with these bytes, and zero bytes after them.
fn filled(bytes: &[u8]) -> [u8; 64]
    requires { length bytes.now ≤ 64 }
    ensures { result ≡ bytes.now ++ replicate (64 - length bytes.now) 0 }
{
    let mut field = [0; 64];
    field[..bytes.len()].copy_from_slice(bytes);
    field
}

/// Reads the label at a PVBN. It is in range, and says a volume that isn't being split.
///
/// # Errors
/// `Damaged` comes only where the block that was read there isn't such a label: it lacks the shape of one, or says that the volume is being
/// split, which can't be loaded. `DiskFault` comes only where the read failed.
///
/// Costs at most one block, and takes no memory. `docs/FORMAT.md` has the label.
pub fn read_label<D: Disk>(store: &mut Store, disk: &mut D, place: u32) -> Result<Label, BlockFault>
    requires { StandsOn (D.shown disk.old) store.old.pairs }
    ensures label { IsTrue (D.shown disk.old).tells → IfOk result (λ l. label_at ((D.shown disk.old).reads place) ≡ Ok l) }
    ensures range { IfOk result IsLabel }
    ensures form { IfOk result (λ l. form_in l ≡ None) }
    ensures fault { IsTrue (D.shown disk.old).tells → IfErr result (IsBadLabel ((D.shown disk.old).reads place) place) }
    ensures only_reads { OnlyReads (D.shown disk.old) (D.shown disk.new) }
    ensures stands { StandsOn (D.shown disk.new) store.new.pairs }
    ensures cause { HasBlockCause (D.shown disk.old).faults (D.shown disk.new).faults result }
{
    let mut block = ZERO;
    store.get(disk, place, &mut block)?;
    label_in(&block, place)
}
