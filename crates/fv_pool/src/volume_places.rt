//! The blocks of one volume, as trees reach them that place blocks and give them up, and load none of them.

ghost use Rattle.std.specs.Prelude.{◌≡◌, ◌≢◌, ◌<◌, ◌≤◌, ◌+◌, length, IsTrue};
ghost use Rattle.fv_aggmap.specs.Space.{free_blocks};
ghost use Rattle.fv_codec.specs.Blocks.{last_place};
ghost use Rattle.fv_container.specs.Chains.{AreCleanOn, container_at, own_entry, slot_count};
ghost use Rattle.fv_store.specs.Held.{StandsOn};
ghost use Rattle.fv_pool.specs.BlocksOver.{AreApart, entries_in, free_numbers};
ghost use Rattle.fv_pool.specs.Lending.{WasDamage, lent_by, shown_over};
ghost use Rattle.fv_pool.specs.Putting.{PutsOver, trusting};

use crate::blocks::{Home, drop_number, place_block};
use crate::noted::{Noted, note};
use crate::pool::Pool;
use crate::volume_blocks::Guard;
use fv_codec::{Form, Pointer};
use fv_disk::Disk;
use fv_tree::{Blocks, Placed, TreeFault};
use fv_volmap::VolMap;
use std::marker::PhantomData;

/// The blocks of one volume, as `VolumeBlocks` shows them, for a flush. A table that stands is flushed without a load, so only leaves of the
/// container are read: a `load` would answer `Memory` and change nothing. Under a VVBN under which nothing is placed the volume's own
/// entry stays.
///
/// The caller makes sure of `room` numbers and blocks, as for `VolumeBlocks`.
#[derive(Drop)]
pub struct VolumePlaces<'p, 'd, 'v, K: Guard, D: Disk> {
    /// What the volumes share.
    pub pool: &'p mut Pool,
    /// The disk on which the pool's cache stands.
    pub disk: &'d mut D,
    /// The volume's maps.
    pub map: &'v mut VolMap,
    /// The volume.
    pub home: Home,
    /// So many numbers and blocks are free at least.
    pub room: u32,
    /// How often a VVBN was named as gone that wasn't in use; it stays at 2^64 - 1.
    pub strays: u64,
    /// The damages that were answered.
    pub noted: Noted,
    /// The statement under which content is told.
    pub of: PhantomData<K>,
    ghost within: { home.slot < slot_count },
    ghost stands: { StandsOn (D.shown disk.now) pool.now.store.pairs },
    ghost few: { map.now.span ≤ last_place + 1 },
    ghost entries: { map.now.span ≤ length (entries_in (container_at pool.now.containers home.slot)) },
    ghost numbers: { room ≤ free_numbers map.now },
    ghost blocks: { room ≤ free_blocks pool.now.map },
    ghost damage: { noted.count ≢ 0 → ∥ WasDamage (D.shown disk.now) pool.now home noted ∥₁ },
    ghost tells: { K.told → IsTrue (D.shown disk.now).tells },
    ghost apart: { K.told → AreApart pool.now map.now home.slot },
    ghost clean: { K.told → ∥ AreCleanOn (D.shown disk.now).reads pool.now.containers ∥₁ },
}

impl<'p, 'd, 'v, K: Guard, D: Disk> Blocks for VolumePlaces<'p, 'd, 'v, K, D> {
    ghost use Rattle.std.specs.Prelude.{refl};
    ghost use Rattle.std.proofs.Common.{◌∙◌, ap, subst, sym};
    ghost use Rattle.fv_pool.specs.PuttingLaws.{puts_itself, puts_then};

    ghost shown = { λ b. trusting (shown_over (lent_by b.pool.now b.map.now (D.shown b.disk.now) 0 b.home b.room b.strays b.noted)) };

    ghost told = { K.told };

    ghost known = { Unit {0} };

    ghost reads = { λ a b. b ≡ a };

    ghost goes = { λ a b. (b.pool.ghost_name ≡ a.pool.ghost_name) × (b.disk.ghost_name ≡ a.disk.ghost_name) × (b.map.ghost_name ≡ a.map.ghost_name)
        × PutsOver (lent_by a.pool.now a.map.now (D.shown a.disk.now) 0 a.home a.room a.strays a.noted) (lent_by b.pool.now b.map.now (D.shown b.disk.now) 0 b.home b.room b.strays b.noted) };

    ghost keeps = { λ v a b. own_entry (container_at b.pool.now.containers b.home.slot) v ≡ own_entry (container_at a.pool.now.containers a.home.slot) v };

    ghost laws = { λ b. record { damage = b.damage } };

    ghost reads_nothing = { λ b. refl };

    ghost reads_on = { λ a b c first second. second ∙ first };

    ghost reads_go = { λ a b reads. (
      ap (λ x. x.pool.ghost_name) reads,
      ap (λ x. x.disk.ghost_name) reads,
      ap (λ x. x.map.ghost_name) reads,
      subst (λ x. PutsOver (lent_by a.pool.now a.map.now (D.shown a.disk.now) 0 a.home a.room a.strays a.noted) (lent_by x.pool.now x.map.now (D.shown x.disk.now) 0 x.home x.room x.strays x.noted)) (sym reads) (puts_itself _),
    ) };

    ghost goes_nothing = { λ b. (refl, refl, refl, puts_itself _) };

    ghost goes_on = { λ a b c first second. (second.0 ∙ first.0, second.1 ∙ first.1, second.2 ∙ first.2, puts_then _ _ _ first.3 second.3) };

    ghost reads_keep = { λ v a b reads. ap (λ x. own_entry (container_at x.pool.now.containers x.home.slot) v) reads };

    ghost keeps_on = { λ v a b c first second. second ∙ first };

    fn load(&mut self, _pointer: &Pointer, _into: &mut [u8; 4096]) -> Result<u32, TreeFault> {
        Err(TreeFault::Memory)
    }

    fn load_as(
        &mut self,
        _pointer: &Pointer,
        _form: Form,
        _into: &mut [u8; 4096],
        _has: &mut bool,
    ) -> Result<u32, TreeFault> {
        Err(TreeFault::Memory)
    }

    #[tactic(auto, using(crate::proofs::Fields::loads_blocks, crate::proofs::Fields::loads_entries, crate::proofs::Fields::placed_damage, crate::proofs::Fields::placed_entries, crate::proofs::Fields::placed_few))]
    fn place(&mut self, kind: u8, block: &[u8; 4096]) -> Result<Placed, TreeFault> {
        match place_block(self.pool, self.disk, self.map, &self.home, kind, block) {
            Ok(placed) => {
                self.room = self.room.saturating_sub(1);
                Ok(placed)
            }
            Err(fault) => Err(note(&mut self.noted, fault)),
        }
    }

    #[tactic(auto, using(crate::proofs::Shows::apart_gone, crate::proofs::Shows::numbers_gone))]
    fn gone(&mut self, vvbn: u32) {
        drop_number(self.map, &mut self.strays, vvbn)
    }
}
