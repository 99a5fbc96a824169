//! Maps, seen as finite maps.
ghost use Rattle.std.specs.Prelude.{◌≡◌, IfOk, OnOk, OnErr, option_copied};
ghost use Rattle.std.specs.Ordering.{nat_cmp};
ghost use Rattle.std.specs.Map.{keys_of};
ghost use Rattle.std.specs.FinMap as fin;
ghost use Rattle.fv_reference.specs.Maps.{map_of};

use std::alloc::{AllocError, Global};
use std::collections::BTreeMap;

/// Gives a key a value; where there is no memory the map stays.
pub fn insert<K: Ord + Drop, V: Drop>(
    map: &mut BTreeMap<K, V>,
    key: K,
    value: V,
) -> Result<(), AllocError>
    ensures ok { OnOk result (map_of K.cmp map.new ≡ fin.insert (map_of K.cmp map.old) key value) }
    ensures err { OnErr result (map_of K.cmp map.new ≡ map_of K.cmp map.old) }
{
    map.insert(key, value)?;
    Ok(())
}

/// Takes a key out.
pub fn remove<K: Ord + Drop, V: Drop>(map: &mut BTreeMap<K, V>, key: &K)
    requires ties { fin.IsAntisymmetric K.cmp }
    ensures { map_of K.cmp map.new ≡ fin.remove (map_of K.cmp map.old) key.now }
{
    let _ = map.remove(key);
}

/// The value of a key.
pub fn get<'a, K: Ord, V>(map: &'a BTreeMap<K, V>, key: &K) -> Option<&'a V>
    ensures { option_copied result ≡ fin.get (map_of K.cmp map.now) key.now }
{
    map.get(key)
}

/// How many keys there are.
pub fn len<K: Ord, V>(map: &BTreeMap<K, V>) -> usize
    ensures { result ≡ fin.len (map_of K.cmp map.now) }
{
    map.len()
}

/// A copy.
pub fn copy<K: Ord + Clone, V: Clone>(map: &BTreeMap<K, V>) -> Result<BTreeMap<K, V>, AllocError>
    requires same_keys { (k c : K) → K.is_clone k c → c ≡ k }
    requires same_values { (v c : V) → V.is_clone v c → c ≡ v }
    ensures { IfOk result (λ m. m.entries ≡ map.now.entries) }
{
    map.clone()
}

/// The keys in order.
pub fn keys<V>(alloc: Global, map: &BTreeMap<u32, V>) -> Result<Vec<u32>, AllocError>
    ensures { IfOk result (λ v. v.items ≡ fin.keys (map_of nat_cmp map.now)) }
{
    let _count = map.len();
    listed_keys(alloc, map)
}

fn listed_keys<V>(alloc: Global, map: &BTreeMap<u32, V>) -> Result<Vec<u32>, AllocError>
    ensures { IfOk result (λ v. v.items ≡ keys_of map.now.entries) }
{
    map.keys().copied().collect(alloc)
}

/// The map of some entries; the first of two with one key counts.
pub fn from_entries<K: Ord + Drop, V: Drop>(
    alloc: Global,
    entries: Vec<(K, V)>,
) -> Result<BTreeMap<K, V>, AllocError>
    ensures { IfOk result (λ m. map_of K.cmp m ≡ fin.from_entries entries.items) }
{
    let mut map = BTreeMap::new(alloc);
    let mut rest = entries;
    while let Some((key, value)) = rest.pop() {
        insert(&mut map, key, value)?;
    }
    Ok(map)
}
