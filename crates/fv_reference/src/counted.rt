//! A volume with its counts, so that a command recounts only the volume that it changes.
ghost use Rattle.std.specs.Prelude.{◌≡◌, ◌+◌, ◌<◌, ◌≤◌, ◌^◌, IfOk};
ghost use Rattle.fv_model.specs.Space.{charge, need, use_of, commit, promised};
ghost use Rattle.fv_model.specs.Volumes as volumes;
ghost use Rattle.fv_reference.specs.Codes.{volume_code};
ghost use Rattle.fv_reference.specs.Counts.{IsCounted};

use crate::space::{need, overhead};
use crate::volumes::Volume;
use fv_model::Kind;
use std::alloc::{AllocError, Global};
use std::marker::Model;

/// A volume, what it is charged for, and what its reserves still need.
#[derive(Drop)]
pub struct Counted {
    volume: Volume,
    used: u128,
    need: u128,
}

impl Model for Counted {
    ghost Value = { volumes.Volume };

    ghost coded = { volume_code };

    ghost view = { λ c. c.volume };

    ghost invariant = { λ c. IsCounted c.volume c.used c.need };
}

impl Clone for Counted {
    ghost is_clone = { λ x y. y ≡ x };

    fn clone(&self) -> Result<Counted, AllocError> {
        Ok(Counted {
            volume: self.volume.clone()?,
            used: self.used,
            need: self.need,
        })
    }
}

impl Counted {
    /// Counts a volume.
    pub fn new(alloc: Global, volume: Volume) -> Result<Counted, AllocError>
        ensures { IfOk result (λ c. c ≡ volume) }
    {
        let used = volume.charge(alloc)?;
        let need = need(alloc, &volume)?;
        Ok(Counted { volume, used, need })
    }

    /// The volume.
    pub fn volume(&self) -> &Volume
        ensures { result.now ≡ self.now }
    {
        &self.volume
    }

    /// What it is charged for.
    pub fn charge(&self) -> u128
        ensures is { result ≡ charge self.now }
        ensures few { result < 2 ^ 115 }
    {
        self.used
    }

    /// What its reserves still need.
    pub fn need(&self) -> u128
        ensures is { result ≡ need self.now }
        ensures few { result < 2 ^ 127 }
    {
        self.need
    }

    /// The charge and the need.
    pub fn use_of(&self) -> u128
        ensures is { result ≡ use_of self.now }
        ensures few { result < 2 ^ 127 + 2 ^ 115 }
    {
        self.charge() + self.need()
    }

    /// What it commits of its aggregate.
    pub fn commit(&self) -> u128
        ensures is { result ≡ commit self.now }
        ensures few { use_of self.now ≤ self.now.size → result < 2 ^ 64 }
    {
        2 * u128::from(overhead(self.volume.span())) + promised(self)
    }
}

fn promised(counted: &Counted) -> u128
    ensures is { result ≡ promised counted.now counted.now.kind }
    ensures few { result < 2 ^ 127 + 2 ^ 115 }
    ensures fits { use_of counted.now ≤ counted.now.size → result < 2 ^ 32 }
{
    let size = u128::from(counted.volume().size());
    match counted.volume().kind() {
        Kind::Volume => size,
        Kind::File | Kind::Thin => counted.use_of(),
    }
}
