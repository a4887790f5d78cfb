// The slots of an array, in the order in which their entries were made.
ghost use Rattle.std.specs.Prelude.{◌≡◌, ◌<◌, ◌≤◌, ◌++◌, [], ◌∷◌, ◌↔◌, take, drop, length, IsTrue, IsSome, IfSome, IfNone, OnOk, Some, None, is_some, option_copied, option_map, vec_len};
ghost use Rattle.std.specs.List.{swap};
ghost use Rattle.std.specs.Option.Follows.{option_follows_value};
ghost use Rattle.std.specs.Borrow.{Lends, sem};
ghost use Rattle.php_array.specs.Answers.{shown_entry};
ghost use Rattle.php_array.specs.Slot.{Live, slot_of};
ghost use Rattle.php_array.specs.Slots.{serial_at, stored_at, vacated, with_value_at};

use php_base::NoMemory;
use php_value::Key;
use std::alloc::Global;
use std::marker::Model;
use std::mem;

/// What a slot has beside its value.
#[derive(Drop)]
struct Head {
    serial: u64,
    key: Key,
}

/// Where entries stand, or stood. The values stand by themselves, so that what looks at no serial and
/// no key reads little memory.
#[derive(Drop)]
pub struct Slots<T> {
    heads: Vec<Head>,
    // A hole has no value. It keeps its serial, so that the serials of all slots rise.
    values: Vec<Option<T>>,
}

impl<T> Model for Slots<T> {
    ghost use Rattle.php_array.specs.Slot.{SlotList};

    ghost Value = { SlotList T };

    ghost use Rattle.std.specs.Prelude.{◌≡◌, length, min, vec_capacity};
    ghost use Rattle.php_array.specs.Heads.{slots_of};

    ghost view = { λ a. record { items = slots_of a.heads.items a.values.items; room = min (vec_capacity a.heads) (vec_capacity a.values) } };

    ghost invariant = { λ a. length a.heads.items ≡ length a.values.items };
}

impl<T> Slots<T> {
    ghost use Rattle.php_array.specs.Slots.{with_value_in};
    ghost use Rattle.php_array.specs.contracts.slots.Slots.{the_row};

    pub fn new(alloc: Global) -> Slots<T>
        ensures { result.items ≡ [] }
    {
        Slots {
            heads: Vec::new(alloc),
            values: Vec::new(alloc),
        }
    }

    pub fn allocator(&self) -> Global {
        *self.heads.allocator()
    }

    pub fn len(&self) -> usize
        ensures { result ≡ length self.now.items }
    {
        self.values.len()
    }

    /// Whether an entry stands at a place.
    pub fn is_live(&self, place: usize) -> bool
        ensures { result ≡ is_some (stored_at place self.now.items) }
    {
        if place < self.values.len() {
            self.values[place].is_some()
        } else {
            false
        }
    }

    /// The serial of the slot at a place.
    pub fn serial(&self, place: usize) -> u64
        requires { place < length self.now.items }
        ensures { result ≡ serial_at place self.now.items }
    {
        self.heads[place].serial
    }

    /// The value of the entry at a place.
    pub fn value(&self, place: usize) -> Option<&T>
        ensures { option_copied result ≡ option_map (λ e. e.value) (stored_at place self.now.items) }
    {
        if place < self.values.len() {
            self.values[place].as_ref()
        } else {
            None
        }
    }

    /// The entry at a place: its serial, its key and its value.
    pub fn entry(&self, place: usize) -> Option<(u64, &Key, &T)>
        ensures { option_map shown_entry result ≡ stored_at place self.now.items }
    {
        match self.value(place) {
            Some(value) => {
                let head = &self.heads[place];
                Some((head.serial, &head.key, value))
            }
            None => None,
        }
    }

    /// The value of the entry at a place, to be written.
    pub fn value_mut(&mut self, place: usize) -> &mut T
        requires { IsSome (stored_at place self.old.items) }
        ensures* writes_back { sem 𝓛
            (Lends (the_row T.row) T.row self.entry result (λ v. with_value_in place v self.old)) }
        ensures value { option_map (λ e. e.value) (stored_at place self.old.items) ≡ Some result.now }
    {
        full_mut(&mut self.values[place])
    }

    /// Puts another value in place of the one at a place, and gives that back.
    pub fn set_value(&mut self, place: usize, value: T) -> T
        requires { IsSome (stored_at place self.old.items) }
        ensures old { option_map (λ e. e.value) (stored_at place self.old.items) ≡ Some result }
        ensures after { self.new.items ≡ with_value_at place value self.old.items }
    {
        mem::replace(self.value_mut(place), value)
    }

    /// Takes the value at a place out, and leaves a hole.
    pub fn take(&mut self, place: usize) -> T
        requires { IsSome (stored_at place self.old.items) }
        ensures value { option_map (λ e. e.value) (stored_at place self.old.items) ≡ Some result }
        ensures after { self.new.items ≡ vacated place self.old.items }
    {
        match self.values[place].take() {
            Some(value) => value,
            None => unreachable!(),
        }
    }

    /// Lets go of the key of a hole, which may be a long text.
    pub fn drop_key(&mut self, place: usize)
        requires within { place < length self.old.items }
        requires hole { stored_at place self.old.items ≡ None }
        ensures { self.new.items ≡ self.old.items }
    {
        self.heads[place].key = Key::Int(0);
    }

    /// Whether a further slot takes no memory.
    pub fn has_room(&self) -> bool
        ensures { IsTrue result ↔ (length self.now.items < self.now.room) }
    {
        self.values.len() < self.heads.capacity().min(self.values.capacity())
    }

    /// Makes room for a further slot.
    pub fn reserve(&mut self) -> Result<(), NoMemory>
        ensures items { self.new.items ≡ self.old.items }
        ensures ok { OnOk result (length self.new.items < self.new.room) }
    {
        // Values take less memory, and of two vectors that grow in turn the one that moves last can grow
        // where it stands the next time.
        self.values.reserve(1)?;
        self.heads.reserve(1)?;
        Ok(())
    }

    /// Puts an entry behind all slots.
    pub fn push_reserved(&mut self, serial: u64, key: Key, value: T)
        requires { length self.old.items < self.old.room }
        ensures { self.new.items
            ≡ self.old.items ++ Live (record { serial = serial; key = key; value = value }) ∷ [] }
    {
        self.heads.push_reserved(Head { serial, key });
        self.values.push_reserved(Some(value));
    }

    /// Takes the last slot out: its serial, its key, and its value where it is no hole.
    pub fn pop(&mut self) -> Option<(u64, Key, Option<T>)>
        ensures none { IfNone result ((self.old.items ≡ []) × (self.new.items ≡ [])) }
        ensures some { IfSome result (λ r.
            self.old.items ≡ self.new.items ++ slot_of r.0 r.1 r.2 ∷ []) }
    {
        let Some(value) = self.values.pop() else {
            return None;
        };
        let Some(head) = self.heads.pop() else {
            unreachable!();
        };
        let Head { serial, key } = head;
        Some((serial, key, value))
    }

    pub fn swap(&mut self, one: usize, other: usize)
        requires one { one < length self.old.items }
        requires other { other < length self.old.items }
        ensures { self.new.items ≡ swap self.old.items one other }
    {
        swap_items(&mut self.heads, one, other);
        swap_items(&mut self.values, one, other);
    }
}

impl<T: Drop> Slots<T> {
    /// Drops all slots but the first.
    pub fn truncate(&mut self, len: usize)
        ensures { self.new.items ≡ take len self.old.items }
    {
        self.heads.truncate(len);
        self.values.truncate(len);
    }

    /// Drops the first slots.
    pub fn drop_front(&mut self, first: usize)
        requires { first ≤ length self.old.items }
        ensures { self.new.items ≡ drop first self.old.items }
    {
        drop_first(&mut self.heads, first);
        drop_first(&mut self.values, first);
    }
}

fn swap_items<A>(items: &mut Vec<A>, one: usize, other: usize)
    requires one { one < vec_len items.old }
    requires other { other < vec_len items.old }
    ensures { items.new.items ≡ swap items.old.items one other }
{
    items.as_mut_slice().swap(one, other);
}

/// Drops the first items.
fn drop_first<A: Drop>(items: &mut Vec<A>, first: usize)
    requires { first ≤ vec_len items.old }
    ensures { items.new.items ≡ drop first items.old.items }
{
    let left = items.len() - first;
    items.as_mut_slice().rotate_left(first);
    items.truncate(left);
}

/// The value of a slot that is no hole.
fn full_mut<T>(value: &mut Option<T>) -> &mut T
    requires { IsSome value.old }
    ensures* writes_back { sem 𝓛 (option_follows_value T.row value.entry result) }
    ensures value { value.old ≡ Some result.now }
{
    match value {
        Some(value) => value,
        None => unreachable!(),
    }
}
