// An array: entries in the order of their making, found by their keys.
ghost use Rattle.std.specs.Prelude.{◌≡◌, ◌+◌, ◌-◌, ◌^◌, ◌<◌, ◌≤◌, ◌↔◌, min, IsTrue, IsSome, IsOk, IfOk, IfErr, OnOk, OnErr, is_some, if◌then◌else◌, false, None, Some, Err, pos, option_copied, option_map, vec_len};
ghost use Rattle.std.specs.Borrow.{sem};
ghost use Rattle.std.specs.Option.{option_copied_mut};
ghost use Rattle.php_entries.specs.Listing.{Listing, no_entries, count_of, entry_at, value_at, has_key, entry_after, last_of, is_at_limit};
ghost use Rattle.php_entries.specs.Changes.{Grown, Full, Limit, with_entry, with_value_under, set_value, append_value, remove_key, pop_entry, with_values};
ghost use Rattle.php_entries.specs.Soundness.{IsSound};
ghost use Rattle.php_array.specs.Answers.{unset_value, unappended_value, shown_entry, key_and_value, with_serial};

use crate::indexing::{find_live, find_value, index_entry, vacate};
use crate::key_index::KeyIndex;
use crate::keys::{int_key, key_above, key_without, next_int, share_key};
use crate::places::{next_stored, pop_stored, slots_through, slots_through_near};
use crate::refusal::{NoAppend, NoSet};
use crate::repack::{make_room, settle};
use crate::slots::Slots;
use php_base::{Ledger, NoMemory};
use php_value::Key;
use std::alloc::Global;
use std::marker::Model;

/// The most entries that an array can have.
const ENTRY_LIMIT: usize = 4_194_304;

/// The next serial at which no entry can be made any more.
const SERIAL_LIMIT: u64 = 18_446_744_073_709_551_615;

/// The next key at which nothing can be appended any more.
const KEY_LIMIT: u64 = 9_223_372_036_854_775_808;

/// Entries in the order of their making. A removed entry leaves a hole, so that no other entry moves.
#[derive(Drop)]
pub struct Entries<T> {
    index: KeyIndex,
    slots: Slots<T>,
    // Before this place there are only holes.
    first: usize,
    count: usize,
    next_key: u64,
    next_serial: u64,
}

impl<T> Model for Entries<T> {
    ghost use Rattle.php_entries.specs.Listing.{Listing};

    ghost Value = { Listing T };

    ghost use Rattle.php_array.specs.Kept.{listing_of, IsKept};

    ghost view = { λ a. listing_of a.slots.items a.next_key a.next_serial };

    ghost invariant = { λ a. IsKept a.index a.slots.items a.first a.count a.next_key a.next_serial };
}

impl<T: Drop> Entries<T> {
    ghost use Rattle.php_array.specs.Lends.{lends_value};

    /// An array without entries.
    pub fn new(alloc: Global) -> Entries<T>
        ensures { result ≡ no_entries }
    {
        Entries {
            index: KeyIndex::Packed(0),
            slots: Slots::new(alloc),
            first: 0,
            count: 0,
            next_key: 0,
            next_serial: 1,
        }
    }

    /// The number of entries.
    pub fn len(&self) -> usize
        ensures count { result ≡ count_of self.now }
        ensures sound { IsSound self.now }
    {
        self.count
    }

    /// Whether there are no entries.
    pub fn is_empty(&self) -> bool
        ensures { IsTrue result ↔ (count_of self.now ≡ 0) }
    {
        self.count == 0
    }

    /// The value under a key.
    pub fn get(&self, key: &Key) -> Option<&T>
        ensures { option_copied result ≡ value_at self.now key.now }
    {
        find_value(&self.index, &self.slots, key)
    }

    /// The value under a key, to be written. What is written there last is the value under the key
    /// afterwards; nothing else changes.
    pub fn get_mut(&mut self, key: &Key) -> Option<&mut T>
        ensures* writes_back { sem 𝓛 (lends_value T.row self.entry key.now result) }
        ensures value { option_copied_mut result ≡ value_at self.old key.now }
        ensures sets { IsSome result → (v : T) →
            set_value self.old key.now v ≡ Grown (with_value_under self.old key.now v) }
    {
        let place = find_live(&self.index, &self.slots, key)?;
        Some(self.slots.value_mut(place))
    }

    /// Puts another value in place of the one under a key, and gives that back. Where no entry has
    /// the key, the value is handed back.
    pub fn replace(&mut self, key: &Key, value: T) -> Result<T, T>
        ensures ok { IfOk result (λ old. (value_at self.old key.now ≡ Some old)
            × (set_value self.old key.now value ≡ Grown self.new)) }
        ensures missing { IfErr result (λ v. (value_at self.old key.now ≡ None) × (v ≡ value)) }
        ensures err { OnErr result (self.new ≡ self.old) }
    {
        match find_live(&self.index, &self.slots, key) {
            Some(place) => Ok(self.slots.set_value(place, value)),
            None => Err(value),
        }
    }

    /// Sets a value under a key. A value that is there is replaced in its place and handed back. A
    /// new key gets an entry at the end, which the ledger counts. A refusal changes nothing; it comes
    /// only where a new entry is needed.
    pub fn set(&mut self, key: Key, value: T, ledger: &mut Ledger) -> Result<Option<T>, NoSet<T>>
        ensures set { IfOk result (λ old. (old ≡ value_at self.old key)
            × (set_value self.old key value ≡ Grown self.new)) }
        ensures limit { (result ≡ Err (NoSet.Limit value)) ↔ (set_value self.old key value ≡ Limit) }
        ensures replaced { IsTrue (has_key self.old key) → IsOk result }
        ensures handed_back { IfErr result (λ e. unset_value e ≡ value) }
        ensures err { OnErr result (self.new ≡ self.old) }

        ensures made { IfOk result (λ old. ledger.new.made
            ≡ (if is_some old then ledger.old.made else min (ledger.old.made + 1) (2 ^ 64 - 1))) }
        ensures not_made { OnErr result (ledger.new ≡ ledger.old) }
    {
        let value = match self.replace(&key, value) {
            Ok(old) => return Ok(Some(old)),
            Err(value) => value,
        };
        if self.is_at_limit() {
            return Err(NoSet::Limit(value));
        }
        match self.add_next(key, value) {
            Ok(()) => {
                ledger.add(1);
                Ok(None)
            }
            Err(value) => Err(NoSet::NoMemory(value)),
        }
    }

    /// Adds a value at the end, under the next key, and answers that key. The ledger counts the
    /// entry. A refusal changes nothing, and `Full` goes before `Limit`.
    pub fn append(&mut self, value: T, ledger: &mut Ledger) -> Result<i64, NoAppend<T>>
        ensures appended { IfOk result (λ k. (k ≡ pos self.old.next_key)
            × (append_value self.old value ≡ Grown self.new)) }
        ensures full { (result ≡ Err (NoAppend.Full value)) ↔ (append_value self.old value ≡ Full) }
        ensures limit { (result ≡ Err (NoAppend.Limit value)) ↔ (append_value self.old value ≡ Limit) }
        ensures handed_back { IfErr result (λ e. unappended_value e ≡ value) }
        ensures err { OnErr result (self.new ≡ self.old) }

        ensures made { OnOk result (ledger.new.made ≡ min (ledger.old.made + 1) (2 ^ 64 - 1)) }
        ensures not_made { OnErr result (ledger.new ≡ ledger.old) }
    {
        if self.next_key >= KEY_LIMIT {
            return Err(NoAppend::Full(value));
        }
        if self.is_at_limit() {
            return Err(NoAppend::Limit(value));
        }
        let number = next_int(self.next_key);
        let key = int_key(self.next_key);
        match self.add_next(key, value) {
            Ok(()) => {
                ledger.add(1);
                Ok(number)
            }
            Err(value) => Err(NoAppend::NoMemory(value)),
        }
    }

    /// Takes the entry of a key out. The next key and the next serial stay.
    pub fn remove(&mut self, key: &Key) -> Option<T>
        ensures value { result ≡ value_at self.old key.now }
        ensures after { self.new ≡ remove_key self.old key.now }
    {
        let Some(place) = find_live(&self.index, &self.slots, key) else {
            return None;
        };
        self.index.forget(key);
        let value = vacate(&self.index, &mut self.slots, place);
        self.count -= 1;
        self.first = settle(&mut self.index, &mut self.slots, self.first, self.count);
        Some(value)
    }

    /// Takes the last entry out. Where its key is the int that was given out last, that key is the
    /// next one again.
    pub fn pop(&mut self) -> Option<(Key, T)>
        ensures entry { result ≡ option_map key_and_value (last_of self.old.entries) }
        ensures after { self.new ≡ pop_entry self.old }
    {
        let Some((_, key, value)) = pop_stored(&mut self.slots) else {
            self.first = 0;
            return None;
        };
        self.index.forget(&key);
        self.next_key = key_without(&key, self.next_key);
        self.count -= 1;
        self.first = settle(&mut self.index, &mut self.slots, self.first, self.count);
        Some((key, value))
    }

    /// The first entry that was made after the one with this serial, 0 for the first of all: its
    /// serial, its key and its value.
    pub fn entry_after(&self, serial: u64) -> Option<(u64, &Key, &T)>
        ensures { option_map shown_entry result ≡ entry_after self.now serial }
    {
        let place = slots_through(&self.slots, serial).max(self.first);
        match next_stored(&self.slots, place) {
            Some((_, entry)) => Some(entry),
            None => None,
        }
    }

    /// As `entry_after`, for a walk that keeps the place of the entry it met last: the search tries
    /// that place before any other, and then takes constant time. The place is set to that of the
    /// entry that is answered. Any place is right, 0 at first; after a change it may be a poor one.
    pub fn entry_after_near(&self, serial: u64, place: &mut usize) -> Option<(u64, &Key, &T)>
        ensures { option_map shown_entry result ≡ entry_after self.now serial }
    {
        let from = slots_through_near(&self.slots, serial, *place).max(self.first);
        match next_stored(&self.slots, from) {
            Some((at, entry)) => {
                *place = at;
                Some(entry)
            }
            None => None,
        }
    }

    /// An array with the same keys and serials and with these values, one each in their order. The
    /// ledger counts all of its entries. Where memory is wanting the values are dropped, and the
    /// ledger stays.
    pub fn with_values(&self, values: Vec<T>, ledger: &mut Ledger) -> Result<Entries<T>, NoMemory>
        requires { vec_len values ≡ count_of self.now }
        ensures ok { IfOk result (λ copy. copy ≡ with_values self.now values.items) }

        ensures made { OnOk result (ledger.new.made
            ≡ min (ledger.old.made + vec_len values) (2 ^ 64 - 1)) }
        ensures not_made { OnErr result (ledger.new ≡ ledger.old) }
    {
        let made = values.len() as u64;
        let mut copy = Entries::new(self.slots.allocator());
        let mut place = self.first;
        for value in values {
            let Some((at, entry)) = next_stored(&self.slots, place) else {
                unreachable!();
            };
            let key = share_key(entry.1)?;
            let Ok(()) = copy.add(entry.0, key, value) else {
                return Err(NoMemory);
            };
            place = at + 1;
        }
        copy.next_key = self.next_key;
        copy.next_serial = self.next_serial;
        ledger.add(made);
        Ok(copy)
    }

    // Whether no entry can be added.
    fn is_at_limit(&self) -> bool
        ensures { result ≡ is_at_limit self.now }
    {
        self.count >= ENTRY_LIMIT || self.next_serial >= SERIAL_LIMIT
    }

    // Adds an entry that gets the next serial.
    fn add_next(&mut self, key: Key, value: T) -> Result<(), T>
        requires absent { entry_at self.old key ≡ None }
        requires room { is_at_limit self.old ≡ false }
        ensures ok { OnOk result (self.new ≡ with_entry self.old key value) }
        ensures err { OnErr result (self.new ≡ self.old) }
        ensures handed_back { IfErr result (λ v. v ≡ value) }
    {
        let serial = self.next_serial;
        self.add(serial, key, value)
    }

    // Adds an entry with a serial that is above those of all entries before.
    fn add(&mut self, serial: u64, key: Key, value: T) -> Result<(), T>
        requires absent { entry_at self.old key ≡ None }
        requires room { count_of self.old < ENTRY_LIMIT }
        requires later { self.old.next_serial ≤ serial }
        requires within { serial < SERIAL_LIMIT }
        ensures ok { OnOk result (self.new ≡ with_serial self.old serial key value) }
        ensures err { OnErr result (self.new ≡ self.old) }
        ensures handed_back { IfErr result (λ v. v ≡ value) }
    {
        let Ok(()) = make_room(
            &mut self.index,
            &mut self.slots,
            &mut self.first,
            self.count,
        ) else {
            return Err(value);
        };
        let Ok(()) = index_entry(&mut self.index, &self.slots, &key) else {
            return Err(value);
        };
        self.next_key = key_above(&key, self.next_key);
        self.next_serial = serial + 1;
        self.count += 1;
        self.slots.push_reserved(serial, key, value);
        Ok(())
    }
}
