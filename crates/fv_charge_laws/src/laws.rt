//! Many changes of a ledger.

ghost use Rattle.std.specs.Prelude.{◌≡◌, ℕ, Bool, List, Option};
ghost use Rattle.fv_model.specs.Volumes.{Volume};
ghost use Rattle.fv_charge.specs.Counted.{charge_counted};
ghost use Rattle.fv_charge.specs.Ledgers.{IsLedgerOf};
ghost use Rattle.fv_charge.specs.declared.ledger.Ledger.{Ledger};
ghost use Rattle.fv_charge_laws.specs.Many.{AreChanges, AreCounted, AreSteps, CanAll, IsPath, Step};

use fv_charge::{Delta, Ledger};

/// Changes a ledger by each of the deltas, one after another. Each has to leave both numbers from 0 up to 2^32 - 1. It is
/// `Ledger::change` in a loop and nothing else, so what it says is a theorem on that call: where the ledger is a volume's, and each
/// delta is how a command changes the volume before it, it is afterwards that of the last volume; and where the maps of that
/// volume are counted from scratch, the kept charge is their count. Costs a step for each delta and takes no memory.
#[tactic(auto, using(crate::proofs::Many::along, crate::proofs::Many::kept_is_counted))]
pub fn change_all(ledger: &mut Ledger, deltas: &[Delta])
    requires { CanAll ledger.old deltas.now }
    ensures changes { AreChanges ledger.old deltas.now ledger.new }
    ensures kept { (x : Volume) → (y : Volume) → (path : List Volume) → IsLedgerOf x ledger.old → IsPath x deltas.now path y → IsLedgerOf y ledger.new }
    ensures counted { (x : Volume) → (y : Volume) → (path : List Volume) → (held : List Bool) → (base : Option (List Bool)) → (snapshots : ℕ)
        → IsLedgerOf x ledger.old → IsPath x deltas.now path y → AreCounted y held base snapshots → ledger.new.charge ≡ charge_counted held base snapshots y.span }
{
    for delta in deltas {
        ledger.change(delta);
    }
}

/// A law: whatever calls are made on a volume, of which each changes its ledger by a delta or counts it anew, the ledger has the numbers of the
/// volume in the end, and its charge is the count from scratch by that volume's maps. It does nothing.
#[tactic(auto, using(crate::proofs::Many::all_kept, crate::proofs::Many::all_counted))]
pub fn calls_keep_it()
    ensures kept { (x : Volume) → (y : Volume) → (l : Ledger) → (last : Ledger) → (steps : List Step) → IsLedgerOf x l → AreSteps x l steps y last → IsLedgerOf y last }
    ensures counted { (x : Volume) → (y : Volume) → (l : Ledger) → (last : Ledger) → (steps : List Step) → (held : List Bool) → (base : Option (List Bool)) → (snapshots : ℕ)
        → IsLedgerOf x l → AreSteps x l steps y last → AreCounted y held base snapshots → last.charge ≡ charge_counted held base snapshots y.span }
{}
