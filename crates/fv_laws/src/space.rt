//! Laws of space: what volumes use, and when a command is refused for it.
ghost use Rattle.std.specs.Prelude.{◌≡◌, ◌≤◌, ◌+◌, ℕ, List, length, cond, true, Some, None};
ghost use Rattle.std.specs.FinSet as set;
ghost use Rattle.std.specs.Option.{option_or};
ghost use Rattle.std.specs.FinMap as fin;
ghost use Rattle.fv_model.specs.declared.commands.Kind.{Kind};
ghost use Rattle.fv_model.specs.declared.commands.Command.{Command};
ghost use Rattle.fv_model.specs.Volumes.{Volume};
ghost use Rattle.fv_model.specs.Machines.{Machine, empty_machine};
ghost use Rattle.fv_model.specs.Space.{charge, use_of};
ghost use Rattle.fv_model.specs.Tables.{File, free_number, inode_cell, new, put, cut, rm};
ghost use Rattle.fv_model.specs.Places.{Place, Id, Ids};
ghost use Rattle.fv_model.specs.Effects.{stamped, empty_volume};
ghost use Rattle.fv_model.specs.Refusals.{is_splitting, first_of, refusal, next};
ghost use Rattle.fv_laws.specs.Halves.{before_space, for_space};
ghost use Rattle.fv_laws.specs.Paths.{new_path, put_path, cut_path, rm_path, ids_and_maps};
ghost use Rattle.fv_laws.specs.Positions.{positions, added_by, taken_by_cut, taken_by_rm, IsAlone, HasNoReserve, rm_places, staying};
ghost use Rattle.fv_laws.specs.WellFormed.{IsWellTable, IsWellVolume};
ghost use Rattle.fv_laws.specs.Within.{IsWithin};

/// No volume ever uses more than its size: there is none in an empty machine, and each command keeps it so.
#[tactic(auto, using(crate::proofs::Within::empty_within, crate::proofs::Within::next_within))]
pub fn no_volume_outgrows_its_size()
    ensures at_first { (blocks : ℕ) → IsWithin (empty_machine blocks) }
    ensures each { (m : Machine) (c : Command) → IsWithin m → IsWithin (next m c) }
{}

/// What a volume uses doesn't rise when one of its snapshots goes, when its split from its base ends, or when its places
/// become known; a volume without files uses nothing.
#[tactic(auto, using(crate::proofs::Release::use_without_snapshot, crate::proofs::Release::use_once_split, crate::proofs::Release::use_once_clean, crate::proofs::Release::use_when_empty))]
pub fn use_does_not_rise()
    ensures without_snapshot { (v : Volume) (s : List ℕ) → use_of (record v { snapshots = fin.remove v.snapshots s }) ≤ use_of v }
    ensures once_split { (v : Volume) → is_splitting v ≡ true → use_of (record v { base = None }) ≤ use_of v }
    ensures once_clean { (v : Volume) → use_of (record v { known = true }) ≡ use_of v }
    ensures when_empty { (size : ℕ) (kind : Kind) → use_of (empty_volume size kind) ≡ 0 }
{}

/// A command is refused for want of space only where nothing in the machine before it refuses it.
#[tactic(auto, using(crate::proofs::Halves::in_halves))]
pub fn space_is_tried_last()
    ensures { (m : Machine) (c : Command) → refusal m c ≡ option_or (first_of (before_space m c)) (first_of (for_space m c)) }
{}

/// How many ids there are: of a union those of one set and those of the other that aren't in it, of a difference those of the
/// set without those in both, and one more after an insertion of what wasn't there.
#[tactic(auto, using(crate::proofs::Counts::counted_union, crate::proofs::Counts::counted_difference, crate::proofs::Counts::counted_insert))]
pub fn ids_are_counted()
    ensures union { (s t : Ids) → set.len (set.union s t) ≡ set.len s + set.len (set.difference t s) }
    ensures difference { (s t : Ids) → set.len (set.difference s t) + set.len (set.intersection s t) ≡ set.len s }
    ensures insert { (s : Ids) (id : Id) → set.len (set.insert s id) ≡ cond (set.contains s id) (set.len s) (set.len s + 1) }
{}

/// A volume is charged for at most the ids of all its tables, and its maps.
#[tactic(auto, using(crate::proofs::Paths::charge_within))]
pub fn charge_is_within_the_tables()
    ensures { (x : Volume) → charge x ≤ ids_and_maps x }
{}

/// A change adds at most one block for each place on its path: the cells that it writes or removes, the marks over them, the
/// marks that a growth of levels makes, and the file's cell in the inode file with the marks over that.
#[tactic(auto, using(crate::proofs::Paths::new_adds_path, crate::proofs::Paths::put_adds_path, crate::proofs::Paths::cut_adds_path, crate::proofs::Paths::rm_adds_path))]
pub fn a_change_adds_its_path()
    ensures new { (x : Volume) (name : List ℕ) (reserve : ℕ) → charge (stamped x (new x.active name reserve)) ≤ charge x + length (new_path x.active) }
    ensures put { (x : Volume) (n : ℕ) (f : File) (i : ℕ) (block : List ℕ) → fin.get x.active.files n ≡ Some f → charge (stamped x (put x.active n f i block)) ≤ charge x + length (put_path x.active n f i) }
    ensures cut { (x : Volume) (n : ℕ) (f : File) (most : ℕ) → fin.get x.active.files n ≡ Some f → charge (stamped x (cut x.active n f most)) ≤ charge x + length (cut_path x.active n f most) }
    ensures rm { (x : Volume) (n : ℕ) → charge (stamped x (rm x.active n)) ≤ charge x + length (rm_path x.active n) }
{}

/// A volume without snapshots and base is charged for the cells and marks that stand in its table, one block each. A change leaves no id
/// charged there beside those.
#[tactic(auto, using(crate::proofs::Charges::charge_by_positions, crate::proofs::PathCharges::none_stay))]
pub fn positions_are_charged()
    ensures alone { (x : Volume) → IsAlone x → charge x ≡ positions x.active }
    ensures none_stay { (x : Volume) → IsAlone x → (path : List Place) → staying x path ≡ 0 }
{}

/// What a volume is charged for after a change, exactly: one block more for each cell and mark that comes, one less for each that goes, and
/// none for a stamp that changes, unless a snapshot, or a base that isn't charged, has the id with the old stamp.
#[tactic(auto, using(crate::proofs::PathCharges::new_charged, crate::proofs::PathCharges::put_charged, crate::proofs::PathCharges::cut_charged, crate::proofs::PathCharges::rm_charged))]
pub fn a_change_charges_its_path()
    ensures new { (x : Volume) → IsWellVolume x → (name : List ℕ) (reserve : ℕ)
        → charge (stamped x (new x.active name reserve)) ≡ charge x + added_by x.active.inode (inode_cell (free_number x.active)) + staying x (new_path x.active) }
    ensures put { (x : Volume) → IsWellVolume x → (n : ℕ) (f : File) (i : ℕ) (block : List ℕ) → fin.get x.active.files n ≡ Some f
        → charge (stamped x (put x.active n f i block)) ≡ charge x + added_by f.tree i + staying x (put_path x.active n f i) }
    ensures cut { (x : Volume) → IsWellVolume x → (n : ℕ) (f : File) (most : ℕ) → fin.get x.active.files n ≡ Some f
        → charge (stamped x (cut x.active n f most)) + taken_by_cut f most ≡ charge x + staying x (cut_path x.active n f most) }
    ensures rm { (x : Volume) → IsWellVolume x → (n : ℕ) (f : File) → fin.get x.active.files n ≡ Some f
        → charge (stamped x (rm x.active n)) + taken_by_rm x.active n f ≡ charge x + staying x (rm_places x.active n f) }
{}

/// A volume with a well-formed table and without snapshots, a base and reserves uses no more after a `cut` or an `rm` of one of its files
/// than before.
#[tactic(auto, using(crate::proofs::PathCharges::cut_uses_less, crate::proofs::PathCharges::rm_uses_less))]
pub fn removals_use_no_more()
    ensures cut { (x : Volume) → IsAlone x → IsWellTable x.now x.active → HasNoReserve x.active → (n : ℕ) (f : File) (most : ℕ) → fin.get x.active.files n ≡ Some f
        → use_of (stamped x (cut x.active n f most)) ≤ use_of x }
    ensures rm { (x : Volume) → IsAlone x → IsWellTable x.now x.active → HasNoReserve x.active → (n : ℕ) (f : File) → fin.get x.active.files n ≡ Some f
        → use_of (stamped x (rm x.active n)) ≤ use_of x }
{}
