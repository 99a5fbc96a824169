//! Sets, seen as finite sets.
ghost use Rattle.std.specs.Prelude.{◌≡◌, OnOk, OnErr};
ghost use Rattle.std.specs.FinSet as set;
ghost use Rattle.fv_reference.specs.Maps.{set_of};

use std::alloc::AllocError;
use std::collections::BTreeSet;

/// Adds a key; where there is no memory the set stays.
pub fn add<K: Ord + Drop>(keys: &mut BTreeSet<K>, key: K) -> Result<(), AllocError>
    requires ties { set.IsAntisymmetric K.cmp }
    ensures { OnOk result (set_of K.cmp keys.new ≡ set.insert (set_of K.cmp keys.old) key) }
{
    keys.insert(key)?;
    Ok(())
}

/// Takes a key out.
pub fn take<K: Ord + Drop>(keys: &mut BTreeSet<K>, key: &K)
    requires ties { set.IsAntisymmetric K.cmp }
    ensures { set_of K.cmp keys.new ≡ set.remove (set_of K.cmp keys.old) key.now }
{
    let _ = keys.remove(key);
}

/// Whether a key is there.
pub fn has<K: Ord>(keys: &BTreeSet<K>, key: &K) -> bool
    ensures { result ≡ set.contains (set_of K.cmp keys.now) key.now }
{
    keys.contains(key)
}

/// How many keys there are.
pub fn count<K: Ord>(keys: &BTreeSet<K>) -> usize
    ensures { result ≡ set.len (set_of K.cmp keys.now) }
{
    keys.len()
}
