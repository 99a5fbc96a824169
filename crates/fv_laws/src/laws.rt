ghost use Rattle.std.specs.Prelude.{◌≡◌, ◌≢◌, ◌<◌, ◌≤◌, List, ℕ, Some, true, false};
ghost use Rattle.fv_model.specs.declared.commands.Command.{Command as Commanded};
ghost use Rattle.std.specs.FinMap as fin;
ghost use Rattle.fv_model.specs.Tables.{Table, free_number};
ghost use Rattle.fv_model.specs.Machines.{Machine, empty_machine};
ghost use Rattle.fv_model.specs.Space.{IsAdmitted};
ghost use Rattle.fv_model.specs.Refusals.{next, home};
ghost use Rattle.fv_model.specs.Runs.{Line, after};
ghost use Rattle.fv_laws.specs.Isolation.{IsSameAt, AreAlike, IsIsolated};
ghost use Rattle.fv_laws.specs.Guarantee.{IsChangeOf, IsGuaranteed};
ghost use Rattle.fv_laws.specs.Releases.{is_release, RaisesNothing};
ghost use Rattle.fv_laws.specs.WellFormed.{IsWell};
ghost use Rattle.fv_laws.specs.Reserve.{IsReserved, HasRoom};

/// No command changes a volume that isn't its home: the volume that it makes or names. The aggregate's size and the format's
/// version stay, too. Said of every command in every machine; costs nothing. docs/MACHINE.md has the commands.
#[tactic(auto, using(crate::proofs::Changes::others_stay, crate::proofs::Changes::blocks_stay, crate::proofs::Changes::version_stays))]
pub fn others_stay()
    ensures volumes { (m : Machine) (c : Commanded) (name : List ℕ) → home c ≢ Some name → IsSameAt name m (next m c) }
    ensures blocks { (m : Machine) (c : Commanded) → (next m c).blocks ≡ m.blocks }
    ensures version { (m : Machine) (c : Commanded) → (next m c).version ≡ m.version }
{}

/// In a volume of kind `volume` a `put`, `new`, `cut` or `rm` that meets no earlier refusal is refused 8 exactly where its
/// charge after the command would pass its size, is never refused 9, and is accepted otherwise. Said of every machine that
/// keeps the admission rule; costs nothing. docs/MACHINE.md has the rules of space.
#[tactic(auto, using(crate::proofs::Guarantee::guaranteed))]
pub fn refused_by_charge_alone()
    ensures { (m : Machine) (v : List ℕ) (c : Commanded) → IsAdmitted m → IsChangeOf m v c → IsGuaranteed m v c }
{}

/// Every command keeps the admission rule: each volume's use is at most its size, and all commits are at most the capacity.
/// The empty machine keeps it, so every machine that a script reaches from there does, and so does every prefix of a script
/// from any machine that keeps it. Costs nothing. docs/MACHINE.md has the rules of space.
pub fn always_admitted()
    ensures empty { (blocks : ℕ) → IsAdmitted (empty_machine blocks) }
    ensures next { (m : Machine) (c : Commanded) → IsAdmitted m → IsAdmitted (next m c) }
    ensures after { (m : Machine) (lines : List Line) (k : ℕ) → IsAdmitted m → IsAdmitted (after m lines k) }
{}

/// `vol destroy`, `snap delete`, `split finish` and `clean` are never refused for space and need not be: each volume that is
/// left uses no more than before, and all commit no more. Said of every machine; costs nothing. docs/MACHINE.md has the rules
/// of space.
#[tactic(auto, using(crate::proofs::Releases::raises_nothing))]
pub fn releases_raise_nothing()
    ensures { (m : Machine) (c : Commanded) → is_release c ≡ true → RaisesNothing m (next m c) }
{}

/// In a volume of kind `file` a `put` below the reserve of a file is never refused 8 or 9: with any snapshots, and with a base,
/// being split or not. Said of every well-formed machine that keeps the admission rule, so of every one that a script reaches;
/// costs nothing. docs/MACHINE.md has the rules of space.
pub fn reserves_hold()
    ensures { (m : Machine) (v f : List ℕ) (i : ℕ) (block : List ℕ) → IsAdmitted m → IsWell m → IsReserved m v f i → HasRoom m v f i block }
{}

/// A command that looks at its home alone has the same allowed replies, and leaves the same volume, in any two machines of
/// one version that keep the admission rule and hold one volume under its name. Such are `new`, `put`, `get`, `len`, `cut`,
/// `rm`, `ls`, `snap create`, `snap restore`, `snap list`, `vol stat`, `probe`, `clean` and `split finish`; `snap delete` unless
/// a machine refuses it 12, and `split start` unless one refuses it 13. In a volume of kind `volume` that is all; in one of
/// another kind neither machine may refuse the command 9. Costs nothing. docs/MACHINE.md has the refusals.
pub fn home_alone_decides()
    ensures { (m n : Machine) (v : List ℕ) (c : Commanded) → IsAdmitted m → IsAdmitted n → AreAlike m n v c → IsIsolated m n v c }
{}

/// Every command leaves a well-formed machine well-formed, and the empty machine is so; so every machine that a script reaches
/// from there is. In such a machine names of files are distinct, stamps stand exactly over cells and are those of changes so
/// far, levels reach the cells and the reserve, numbers, counts and sizes are in their limits, and bases lead by chains that
/// end to parents that are there and still hold the base's table. Costs nothing. docs/MACHINE.md says what there is in a machine.
pub fn stays_well_formed()
    ensures empty { (blocks : ℕ) → IsWell (empty_machine blocks) }
    ensures next { (m : Machine) (c : Commanded) → IsWell m → IsWell (next m c) }
    ensures after { (m : Machine) (lines : List Line) (k : ℕ) → IsWell m → IsWell (after m lines k) }
{}

/// A new file's number is the least that no file of the table has, and at most the number of its files. Said of every table;
/// costs nothing.
#[tactic(auto, using(crate::proofs::Tables::free_is_free, crate::proofs::Tables::free_is_least, crate::proofs::Tables::free_low))]
pub fn the_least_free_number_is_taken()
    ensures free { (t : Table) → fin.contains_key t.files (free_number t) ≡ false }
    ensures least { (t : Table) (k : ℕ) → k < free_number t → fin.contains_key t.files k ≡ true }
    ensures low { (t : Table) → free_number t ≤ fin.len t.files }
{}
