// A map from keys to the places of their entries.
ghost use Rattle.std.specs.Prelude.{◌≡◌, List, is_some, IsSome, Some, None, OnOk, OnErr, IfOk};
ghost use Rattle.php_value.specs.declared.key.Key.{Key};
ghost use Rattle.php_entries.specs.Soundness.{AreKeysDistinct};
ghost use Rattle.php_array.specs.Index.{place_in, SetsPlace};
ghost use Rattle.php_array.specs.Slots.{entries_in, place_of};

use crate::keys::share_key;
use crate::slots::Slots;
use indexmap::IndexMap;
use php_base::NoMemory;
use php_value::Key;

/// The place of a key.
pub fn find_place(places: &IndexMap<Key, usize>, key: &Key) -> Option<usize>
    ensures { result ≡ place_in places.now.entries key.now }
{
    places.get(key).copied()
}

/// Takes a key out.
pub fn forget_place(places: &mut IndexMap<Key, usize>, key: &Key)
    ensures { SetsPlace places.old.entries places.new.entries key.now None }
{
    let _ = places.swap_remove(key);
}

/// Puts a key's place in.
pub fn insert_place(
    places: &mut IndexMap<Key, usize>,
    key: &Key,
    place: usize,
) -> Result<(), NoMemory>
    ensures ok { OnOk result (SetsPlace places.old.entries places.new.entries key.now (Some place)) }
    ensures err { OnErr result ((q : Key) →
        place_in places.new.entries q ≡ place_in places.old.entries q) }
{
    let key = share_key(key)?;
    places.insert(key, place)?;
    Ok(())
}

/// Changes the place of a key that is there.
pub fn move_place(places: &mut IndexMap<Key, usize>, key: &Key, place: usize)
    requires { IsSome (place_in places.old.entries key.now) }
    ensures { SetsPlace places.old.entries places.new.entries key.now (Some place) }
{
    if let Some(old) = places.get_mut(key) {
        *old = place;
    }
}

/// The places of all keys, where no two entries have one key.
pub fn collect_places<T>(slots: &Slots<T>) -> Result<IndexMap<Key, usize>, NoMemory>
    requires { AreKeysDistinct (entries_in slots.now.items) }
    ensures { IfOk result (λ places. (k : Key) →
        place_in places.entries k ≡ place_of k slots.now.items) }
{
    let mut places = IndexMap::with_capacity(slots.allocator(), slots.len())?;
    for place in 0..slots.len() {
        if let Some(entry) = slots.entry(place) {
            insert_place(&mut places, entry.1, place)?;
        }
    }
    Ok(places)
}

/// Puts the keys' present places in. The keys are the same.
pub fn renew_places<T>(places: &mut IndexMap<Key, usize>, slots: &Slots<T>)
    requires distinct { AreKeysDistinct (entries_in slots.now.items) }
    requires same_keys { (k : Key) →
        is_some (place_in places.old.entries k) ≡ is_some (place_of k slots.now.items) }
    ensures { (k : Key) → place_in places.new.entries k ≡ place_of k slots.now.items }
{
    for place in 0..slots.len() {
        if let Some(entry) = slots.entry(place) {
            move_place(places, entry.1, place);
        }
    }
}
