// An index beside the slots whose keys it finds.
ghost use Rattle.std.specs.Prelude.{◌≡◌, ◌++◌, [], ◌∷◌, IsSome, Some, None, OnOk, OnErr, find, option_copied, option_map};
ghost use Rattle.php_entries.specs.Keys.{key_eq};
ghost use Rattle.php_entries.specs.Listing.{Entry};
ghost use Rattle.php_entries.specs.Soundness.{AreKeysDistinct};
ghost use Rattle.php_array.specs.Index.{IsIndexed};
ghost use Rattle.php_array.specs.Slot.{Live};
ghost use Rattle.php_array.specs.Slots.{entries_in, place_of, stored_at, vacated};

use crate::key_index::KeyIndex;
use crate::key_places::{collect_places, insert_place};
use crate::packed::packed_first;
use crate::slots::Slots;
use php_base::NoMemory;
use php_value::Key;

/// Puts the key of an entry in that is about to stand behind the slots.
pub fn index_entry<T>(index: &mut KeyIndex, slots: &Slots<T>, key: &Key) -> Result<(), NoMemory>
    requires indexed { IsIndexed index.old slots.now.items }
    requires distinct { AreKeysDistinct (entries_in slots.now.items) }
    requires absent { place_of key.now slots.now.items ≡ None }
    ensures ok { OnOk result ((e : Entry T) → e.key ≡ key.now →
        IsIndexed index.new (slots.now.items ++ Live e ∷ [])) }
    ensures err { OnErr result (IsIndexed index.new slots.now.items) }
{
    match index {
        KeyIndex::Packed(first) => match packed_first(*first, slots.len(), key) {
            Some(new_first) => {
                *first = new_first;
                Ok(())
            }
            None => {
                let mut places = collect_places(slots)?;
                insert_place(&mut places, key, slots.len())?;
                *index = KeyIndex::Hashed(places);
                Ok(())
            }
        },
        KeyIndex::Hashed(places) => insert_place(places, key, slots.len()),
    }
}

/// The value of a key.
pub fn find_value<'a, T>(index: &KeyIndex, slots: &'a Slots<T>, key: &Key) -> Option<&'a T>
    requires { IsIndexed index.now slots.now.items }
    ensures { option_copied result
        ≡ option_map (λ e. e.value) (find (λ e. key_eq key.now e.key) (entries_in slots.now.items)) }
{
    match index.candidate(key) {
        Some(place) => slots.value(place),
        None => None,
    }
}

/// The place of a key's entry.
pub fn find_live<T>(index: &KeyIndex, slots: &Slots<T>, key: &Key) -> Option<usize>
    requires { IsIndexed index.now slots.now.items }
    ensures { result ≡ place_of key.now slots.now.items }
{
    let place = index.candidate(key)?;
    if slots.is_live(place) {
        Some(place)
    } else {
        None
    }
}

/// Takes the entry at a place out, and leaves a hole. A key that tells its place is an int, and stays in
/// the hole: nothing but the value is touched. Another may be a long text.
pub fn vacate<T>(index: &KeyIndex, slots: &mut Slots<T>, place: usize) -> T
    requires { IsSome (stored_at place slots.old.items) }
    ensures value { option_map (λ e. e.value) (stored_at place slots.old.items) ≡ Some result }
    ensures after { slots.new.items ≡ vacated place slots.old.items }
{
    let value = slots.take(place);
    match index {
        KeyIndex::Packed(_) => value,
        KeyIndex::Hashed(_) => {
            slots.drop_key(place);
            value
        }
    }
}
