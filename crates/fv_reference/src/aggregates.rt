//! An aggregate: its volumes with their counts, whatever they use.
ghost use Rattle.std.specs.Prelude.{◌≡◌, ◌+◌, ◌≤◌, IfOk, option_map, sum_by, nat_lt};
ghost use Rattle.std.specs.FinMap as fin;
ghost use Rattle.fv_model.specs.Spelling.{name_cmp};
ghost use Rattle.fv_model.specs.Machines.{empty_machine, first_block, capacity};
ghost use Rattle.fv_model.specs.Space.{commit};
ghost use Rattle.fv_model.specs.Refusals.{is_aggregate_full};
ghost use Rattle.fv_reference.specs.Maps.{map_of};
ghost use Rattle.fv_model.specs.Machines as machines;
ghost use Rattle.fv_reference.specs.Codes.{machine_code};

use crate::counted::Counted;
use crate::maps::{copy, get, insert, remove};
use crate::volumes::Volume;
use fv_model::Name;
use std::alloc::{AllocError, Global};
use std::collections::BTreeMap;
use std::marker::Model;

/// An aggregate of so many blocks with its volumes, whatever they use and commit: what a machine holds, or what a command
/// would leave.
#[derive(Drop)]
pub struct Aggregate {
    blocks: u32,
    volumes: BTreeMap<Name, Counted>,
}

impl Model for Aggregate {
    ghost Value = { machines.Machine };

    ghost coded = { machine_code };

    ghost view = { λ m. record { blocks = m.blocks; version = 1; volumes = map_of name_cmp m.volumes } };
}

impl Clone for Aggregate {
    ghost is_clone = { λ x y. y ≡ x };

    fn clone(&self) -> Result<Aggregate, AllocError> {
        Ok(Aggregate {
            blocks: self.blocks,
            volumes: copy(&self.volumes)?,
        })
    }
}

impl Aggregate {
    /// The aggregate of so many blocks without a volume. Takes no memory.
    pub fn new(alloc: Global, blocks: u32) -> Aggregate
        ensures { result ≡ empty_machine blocks }
    {
        Aggregate {
            blocks,
            volumes: BTreeMap::new(alloc),
        }
    }

    /// The number of blocks.
    pub fn blocks(&self) -> u32
        ensures { result ≡ self.now.blocks }
    {
        self.blocks
    }

    /// The volumes.
    pub fn volumes(&self) -> &BTreeMap<Name, Counted>
        ensures { map_of name_cmp result.now ≡ self.now.volumes }
    {
        &self.volumes
    }

    /// The volume of a name.
    pub fn volume(&self, name: &Name) -> Option<&Volume>
        ensures { option_map (λ v. v.now) result ≡ fin.get self.now.volumes name.now }
    {
        match get(&self.volumes, name) {
            None => None,
            Some(counted) => Some(counted.volume()),
        }
    }

    /// The volume of a name with its counts.
    pub fn counted(&self, name: &Name) -> Option<&Counted>
        ensures { option_map (λ v. v.now) result ≡ fin.get self.now.volumes name.now }
    {
        get(&self.volumes, name)
    }

    /// The aggregate with a volume under a name, which is counted anew.
    pub fn with_volume(
        &self,
        alloc: Global,
        name: &Name,
        volume: Volume,
    ) -> Result<Aggregate, AllocError>
        ensures { IfOk result (λ m. m ≡ record self.now { volumes = fin.insert self.now.volumes name.now volume }) }
    {
        let counted = Counted::new(alloc, volume)?;
        let mut volumes = copy(&self.volumes)?;
        insert(&mut volumes, *name, counted)?;
        Ok(Aggregate {
            blocks: self.blocks,
            volumes,
        })
    }

    /// The aggregate without a volume.
    pub fn without_volume(&self, name: &Name) -> Result<Aggregate, AllocError>
        ensures { IfOk result (λ m. m ≡ record self.now { volumes = fin.remove self.now.volumes name.now }) }
    {
        let mut volumes = copy(&self.volumes)?;
        remove(&mut volumes, name);
        Ok(Aggregate {
            blocks: self.blocks,
            volumes,
        })
    }

    /// Whether the volumes commit more than they can.
    pub fn is_full(&self) -> bool
        ensures { result ≡ is_aggregate_full self.now }
    {
        all_exceed(&self.volumes, u128::from(self.capacity()))
    }

    /// What volumes can commit together.
    pub fn capacity(&self) -> u64
        ensures { result ≡ capacity self.now.blocks }
    {
        let blocks = u64::from(self.blocks);
        let first = 5 + 2 * blocks.div_ceil(32_768);
        blocks.saturating_sub(first).saturating_sub(256)
    }
}

fn all_exceed(volumes: &BTreeMap<Name, Counted>, capacity: u128) -> bool
    ensures { result ≡ nat_lt capacity (sum_by (λ e. commit e.1) (fin.entries (map_of name_cmp volumes.now))) }
{
    let _count = volumes.len();
    exceed(volumes, capacity)
}

/// Whether the volumes commit more than there is.
fn exceed(volumes: &BTreeMap<Name, Counted>, capacity: u128) -> bool
    ensures { result ≡ nat_lt capacity (sum_by (λ e. commit e.1) volumes.now.entries) }
{
    let mut left = capacity;
    for (_, counted) in volumes {
        let commit = counted.commit();
        if left < commit {
            return true;
        }
        left -= commit;
    }
    false
}
