//! Whether a mirror is admitted.

ghost use Rattle.std.specs.Prelude.{◌≡◌, ℕ, IfErr, IfOk, IfSome};
ghost use Rattle.fv_root.specs.Formatted.{IsSize};
ghost use Rattle.fv_volume.specs.Files.{IsLabelled};
ghost use Rattle.fv_volume.specs.Slots.{sum_of};
ghost use Rattle.fv_volume.specs.States.{state_at};
ghost use Rattle.fv_clone.specs.Admitting.{IsBaseNamed};
ghost use Rattle.fv_mirror.specs.Admitting.{Admits, Refuses};

use fv_model::{Kind, Name, Refusal, in_size};
use fv_volume::Base;
use fv_volumes::{Volumes, Wanted};

/// Where a mirror goes and what it is of: what `admit` hands out and `make` takes.
#[derive(Clone, Copy, Debug)]
pub struct Admitted {
    /// Its slot, the least that is free.
    pub slot: u8,
    /// Its VVBNs for data, a multiple of 4096 up to 1,048,576.
    pub span: u32,
    /// The snapshot of another volume that it is a copy of, as one would stand on it.
    pub source: Base,
    /// How many blocks are copied: it is charged for so many.
    pub count: u32,
}

/// Whether a mirror is made of a snapshot of the volume `source`, in an aggregate of so many blocks: where it goes and what it is of, for `make`,
/// or why it is refused.
///
/// # Errors
/// The refusal is, in this order, that of a size that isn't 1 to 500,000; no volume `source`; no such snapshot of it; a name that is taken; a
/// mirror that would have more than 1,048,576 VVBNs; 64 volumes; more blocks in the snapshot than the size; and commits that would pass the
/// capacity.
///
/// `commits` is what all volumes commit together, in blocks. Costs a comparison for each volume and for each snapshot of `source`, and a step
/// for each word of 64 numbers of its span. It walks no file, reads no block, takes no memory and changes nothing. `docs/MACHINE.md` has the
/// command.
pub fn admit(
    volumes: &Volumes,
    blocks: u32,
    commits: u64,
    source: &Name,
    snapshot: &Name,
    name: &Name,
    size: u32,
    kind: Kind,
) -> Result<Admitted, Refusal>
    requires each { (s : ℕ) → IfSome (state_at volumes.now s) (IsLabelled s) }
    requires blocks { IsSize blocks }
    requires sum { commits ≡ sum_of volumes.now }
    ensures admitted { IfOk result (Admits volumes.entry.now blocks name.now size kind) }
    ensures named { IfOk result (λ a. IsBaseNamed source.now snapshot.now a.source) }
    ensures refused { IfErr result (Refuses volumes.entry.now blocks source.now snapshot.now name.now size kind) }
{
    if !in_size(u64::from(size)) {
        return Err(Refusal::Range);
    }
    let Some(home) = volumes.find(source) else {
        return Err(Refusal::NoVolume);
    };
    let Some(state) = volumes.get(home) else {
        return Err(Refusal::NoVolume);
    };
    let Some(base) = state.base_at(snapshot) else {
        return Err(Refusal::NoSnapshot);
    };
    if volumes.find(name).is_some() {
        return Err(Refusal::VolumeExists);
    }
    let count = state.count_in(base.slot);
    let wanted = Wanted {
        size,
        kind,
        ids: 0,
        at_least: state.span,
        charge: count,
        need: 0,
    };
    let place = volumes.judge(blocks, commits, &wanted)?;
    Ok(Admitted {
        slot: place.slot(),
        span: place.span(),
        source: base,
        count,
    })
}
