//! The blocks of one volume, as trees reach them that give up blocks and place none.

ghost use Rattle.std.specs.Prelude.{◌≡◌, ◌≢◌, ◌<◌, ◌≤◌, ◌+◌, length, IsTrue};
ghost use Rattle.fv_codec.specs.Blocks.{last_place};
ghost use Rattle.fv_container.specs.Chains.{AreCleanOn, container_at, slot_count};
ghost use Rattle.fv_store.specs.Held.{StandsOn};
ghost use Rattle.fv_pool.specs.BlocksOver.{AreApart, entries_in};
ghost use Rattle.fv_pool.specs.Dropping.{DropsOver};
ghost use Rattle.fv_pool.specs.Lending.{ReadsOver, WasDamage, lent_by, shown_over};

use crate::blocks::{Home, drop_number, read_pointed, read_pointed_as};
use crate::noted::{Noted, note};
use crate::pool::Pool;
use crate::volume_blocks::Guard;
use fv_codec::{Form, Pointer};
use fv_container::Steps;
use fv_disk::Disk;
use fv_tree::{Blocks, Placed, Sharing, TreeFault};
use fv_volmap::VolMap;
use std::marker::PhantomData;
use std::sync::ledger::Ledger;

/// The blocks of one volume, as `VolumeBlocks` shows them, for changes that take cells away. Such a change places nothing, so of
/// the pool only the cache changes: a `place` would answer `Memory`.
#[derive(Drop)]
pub struct VolumeDrops<'p, 'd, 'v, 's, K: Guard, D: Disk, L: Ledger> {
    /// What the volumes share.
    pub pool: &'p mut Pool,
    /// The disk on which the pool's cache stands.
    pub disk: &'d mut D,
    /// The volume's maps.
    pub map: &'v mut VolMap,
    /// The counter of steps.
    pub steps: &'s mut Steps<L>,
    /// The volume.
    pub home: Home,
    /// How often a VVBN was named as gone that wasn't in use; it stays at 2^64 - 1.
    pub strays: u64,
    /// The damages that were answered.
    pub noted: Noted,
    /// The statement under which content is told.
    pub of: PhantomData<K>,
    ghost within: { home.slot < slot_count },
    ghost stands: { StandsOn (D.shown disk.now) pool.now.store.pairs },
    ghost few: { map.now.span ≤ last_place + 1 },
    ghost entries: { map.now.span ≤ length (entries_in (container_at pool.now.containers home.slot)) },
    ghost damage: { noted.count ≢ 0 → ∥ WasDamage (D.shown disk.now) pool.now home noted ∥₁ },
    ghost tells: { K.told → IsTrue (D.shown disk.now).tells },
    ghost apart: { K.told → AreApart pool.now map.now home.slot },
    ghost clean: { K.told → ∥ AreCleanOn (D.shown disk.now).reads pool.now.containers ∥₁ },
}

impl<'p, 'd, 'v, 's, K: Guard, D: Disk, L: Ledger> Blocks for VolumeDrops<'p, 'd, 'v, 's, K, D, L> {
    ghost use Rattle.std.specs.Prelude.{refl};
    ghost use Rattle.std.proofs.Common.{◌∙◌};
    ghost use Rattle.fv_pool.specs.DroppingLaws.{drops_itself, drops_then, reads_drops};
    ghost use Rattle.fv_pool.specs.LendingLaws.{reads_itself, reads_then};

    ghost shown = { λ b. shown_over (lent_by b.pool.now b.map.now (D.shown b.disk.now) b.steps.now b.home 0 b.strays b.noted) };

    ghost told = { K.told };

    ghost known = { Unit {0} };

    ghost reads = { λ a b. (b.pool.ghost_name ≡ a.pool.ghost_name) × (b.disk.ghost_name ≡ a.disk.ghost_name) × (b.map.ghost_name ≡ a.map.ghost_name) × (b.steps.ghost_name ≡ a.steps.ghost_name)
        × ReadsOver (lent_by a.pool.now a.map.now (D.shown a.disk.now) a.steps.now a.home 0 a.strays a.noted) (lent_by b.pool.now b.map.now (D.shown b.disk.now) b.steps.now b.home 0 b.strays b.noted) };

    ghost goes = { λ a b. (b.pool.ghost_name ≡ a.pool.ghost_name) × (b.disk.ghost_name ≡ a.disk.ghost_name) × (b.map.ghost_name ≡ a.map.ghost_name) × (b.steps.ghost_name ≡ a.steps.ghost_name)
        × DropsOver (lent_by a.pool.now a.map.now (D.shown a.disk.now) a.steps.now a.home 0 a.strays a.noted) (lent_by b.pool.now b.map.now (D.shown b.disk.now) b.steps.now b.home 0 b.strays b.noted) };

    // Nothing is asked of what stays under a VVBN.
    ghost keeps = { λ v a b. Unit {0} };

    ghost laws = { λ b. record { damage = b.damage } };

    ghost reads_nothing = { λ b. (refl, refl, refl, refl, reads_itself _) };

    ghost reads_on = { λ a b c first second. (second.0 ∙ first.0, second.1 ∙ first.1, second.2 ∙ first.2, second.3 ∙ first.3, reads_then _ _ _ first.4 second.4) };

    ghost reads_go = { λ a b reads. (reads.0, reads.1, reads.2, reads.3, reads_drops _ _ reads.4) };

    ghost goes_nothing = { λ b. (refl, refl, refl, refl, drops_itself _) };

    ghost goes_on = { λ a b c first second. (second.0 ∙ first.0, second.1 ∙ first.1, second.2 ∙ first.2, second.3 ∙ first.3, drops_then _ _ _ first.4 second.4) };

    ghost reads_keep = { λ v a b reads. tt };

    ghost keeps_on = { λ v a b c first second. tt };

    #[tactic(auto, using(crate::proofs::Fields::leaves_apart, crate::proofs::Fields::leaves_clean, crate::proofs::Fields::leaves_damage))]
    fn load(&mut self, pointer: &Pointer, into: &mut [u8; 4096]) -> Result<u32, TreeFault> {
        match read_pointed(
            self.pool, self.disk, self.map, self.steps, &self.home, pointer, into,
        ) {
            Ok(pvbn) => Ok(pvbn),
            Err(fault) => Err(note(&mut self.noted, fault)),
        }
    }

    #[tactic(auto, using(crate::proofs::Fields::leaves_apart, crate::proofs::Fields::leaves_clean, crate::proofs::Fields::leaves_damage))]
    fn load_as(
        &mut self,
        pointer: &Pointer,
        form: Form,
        into: &mut [u8; 4096],
        has: &mut bool,
    ) -> Result<u32, TreeFault> {
        match read_pointed_as(
            self.pool, self.disk, self.map, self.steps, &self.home, pointer, form, into, has,
        ) {
            Ok(pvbn) => Ok(pvbn),
            Err(fault) => Err(note(&mut self.noted, fault)),
        }
    }

    fn place(&mut self, _kind: u8, _block: &[u8; 4096]) -> Result<Placed, TreeFault> {
        Err(TreeFault::Memory)
    }

    #[tactic(auto, using(crate::proofs::Shows::apart_gone))]
    fn gone(&mut self, vvbn: u32) {
        drop_number(self.map, &mut self.strays, vvbn)
    }
}

impl<'p, 'd, 'v, 's, K: Guard, D: Disk, L: Ledger> Sharing
    for VolumeDrops<'p, 'd, 'v, 's, K, D, L> {
    ghost use Rattle.std.proofs.Common.{ap};
    ghost use Rattle.fv_volmap.specs.Slots.{is_elsewhere};

    ghost shared = { λ b. is_elsewhere b.map.now };

    ghost reads_share = { λ a b reads v. ap (λ m. is_elsewhere m v) reads.4.map };

    fn is_shared(&self, vvbn: u64) -> bool {
        self.map.is_elsewhere(vvbn)
    }
}
