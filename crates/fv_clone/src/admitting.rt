//! Whether a clone is admitted.

ghost use Rattle.std.specs.Prelude.{◌≡◌, ◌<◌, ℕ, IfErr, IfOk, IfSome};
ghost use Rattle.fv_root.specs.Formatted.{IsSize};
ghost use Rattle.fv_volmap.specs.Slots.{slot_count};
ghost use Rattle.fv_volume.specs.Files.{IsLabelled};
ghost use Rattle.fv_volume.specs.Slots.{sum_of};
ghost use Rattle.fv_volume.specs.States.{state_at};
ghost use Rattle.fv_clone.specs.Admitting.{is_split, Admits, IsBaseNamed, IsWantedOn, RefusesParent, Refuses};

use fv_model::{Kind, Name, Refusal, in_size};
use fv_volmap::MapSlot;
use fv_volume::{Base, VolumeState};
use fv_volumes::{Volumes, Wanted};

/// Where a clone goes and what it stands on: what `admit` hands out and `make` takes.
#[derive(Clone, Copy, Debug)]
pub struct Admitted {
    /// Its slot, the least that is free.
    pub slot: u8,
    /// Its VVBNs for data, a multiple of 4096 up to 1,048,576.
    pub span: u32,
    /// The snapshot of another volume that it stands on.
    pub base: Base,
}

/// Whether a clone is made of a snapshot of the volume `parent`, in an aggregate of so many blocks: where it goes and what it stands on, for
/// `make`, or why it is refused.
///
/// # Errors
/// The refusal comes exactly where the machine refuses `clone create`, and is its refusal: a size that isn't 1 to 500,000; no volume
/// `parent`; no such snapshot of it; a name that is taken; a parent that is being split from its own base, or one with a place that isn't known;
/// a clone that would have more than 1,048,576 VVBNs; 64 volumes; and commits that would pass the capacity, in this order.
///
/// `commits` is what all volumes commit together, in blocks. Costs a comparison for each volume and for each snapshot of `parent`, and a step
/// for each word of 64 numbers of its span. It walks no file, reads no block, takes no memory and changes nothing. `docs/MACHINE.md` has the
/// command.
pub fn admit(
    volumes: &Volumes,
    blocks: u32,
    commits: u64,
    parent: &Name,
    snapshot: &Name,
    name: &Name,
    size: u32,
    kind: Kind,
) -> Result<Admitted, Refusal>
    requires each { (s : ℕ) → IfSome (state_at volumes.now s) (IsLabelled s) }
    requires blocks { IsSize blocks }
    requires sum { commits ≡ sum_of volumes.now }
    ensures admitted { IfOk result (Admits volumes.entry.now blocks name.now size kind) }
    ensures named { IfOk result (λ a. IsBaseNamed parent.now snapshot.now a.base) }
    ensures refused { IfErr result (Refuses volumes.entry.now blocks parent.now snapshot.now name.now size kind) }
{
    if !in_size(u64::from(size)) {
        return Err(Refusal::Range);
    }
    let Some(home) = volumes.find(parent) else {
        return Err(Refusal::NoVolume);
    };
    let Some(state) = volumes.get(home) else {
        return Err(Refusal::NoVolume);
    };
    let Some(base) = state.base_at(snapshot) else {
        return Err(Refusal::NoSnapshot);
    };
    if volumes.find(name).is_some() {
        return Err(Refusal::VolumeExists);
    }
    let wanted = judge_parent(state, base.slot, size, kind)?;
    let place = volumes.judge(blocks, commits, &wanted)?;
    Ok(Admitted {
        slot: place.slot(),
        span: place.span(),
        base,
    })
}

/// What is wanted of a clone of this size and kind that stands on the snapshot of a map slot of this volume, or why none can stand on it.
fn judge_parent(
    state: &VolumeState,
    slot: MapSlot,
    size: u32,
    kind: Kind,
) -> Result<Wanted, Refusal>
    requires { slot < slot_count }
    ensures wanted { IfOk result (IsWantedOn state.entry.now slot size kind) }
    ensures refused { IfErr result (RefusesParent state.entry.now slot size) }
{
    if is_split(state.base) {
        return Err(Refusal::VolumeInUse);
    }
    if !state.known {
        return Err(Refusal::ParentNotClean);
    }
    Ok(Wanted {
        size,
        kind,
        ids: state.count_in(slot),
        at_least: state.span,
        charge: 0,
        need: 0,
    })
}

/// Whether a volume with this base is being split from it.
fn is_split(base: Option<Base>) -> bool
    ensures { result ≡ is_split base }
{
    match base {
        Some(base) => base.splitting,
        None => false,
    }
}
