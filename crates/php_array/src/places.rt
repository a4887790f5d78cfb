// Work on the slots of an array, by their places.
ghost use Rattle.std.specs.Prelude.{◌≡◌, ℕ, ◌+◌, ◌-◌, ◌^◌, ◌<◌, ◌≤◌, List, [], ◌∷◌, ◌++◌, drop, length, IsTrue, IfSome, IfNone, Some, None};
ghost use Rattle.php_array.specs.Answers.{shown_entry};
ghost use Rattle.php_array.specs.Slot.{Slot, slot_of};
ghost use Rattle.php_array.specs.Slots.{serial_at, stored_in, stored_at, entries_in, AreHoles, DoSerialsRise, HoldsSame};

use crate::slots::Slots;
use php_value::Key;

/// Whether the last slot is a hole.
fn ends_in_hole<T>(slots: &Slots<T>) -> bool
    ensures some { IsTrue result → 0 < length slots.now.items }
    ensures hole { IsTrue result → (front : List (Slot T)) (last : Slot T) →
        slots.now.items ≡ front ++ last ∷ [] → stored_in last ≡ None }
{
    let len = slots.len();
    len > 0 && !slots.is_live(len - 1)
}

/// Drops the holes behind the last entry.
pub fn trim<T: Drop>(slots: &mut Slots<T>)
    ensures { HoldsSame slots.old.items slots.new.items }
{
    while ends_in_hole(slots) {
        let _ = slots.pop();
    }
}

/// Takes the last entry out, and the holes behind it.
pub fn pop_stored<T: Drop>(slots: &mut Slots<T>) -> Option<(u64, Key, T)>
    ensures none { IfNone result (entries_in slots.old.items ≡ []) }
    ensures none_left { IfNone result (HoldsSame slots.old.items slots.new.items) }
    ensures some { IfSome result (λ r.
        HoldsSame slots.old.items (slots.new.items ++ slot_of r.0 r.1 (Some r.2) ∷ [])) }
{
    while let Some((serial, key, slot)) = slots.pop() {
        if let Some(value) = slot {
            return Some((serial, key, value));
        }
    }
    None
}

/// Goes on over holes, from a place before which there are only holes.
pub fn skip_holes<T>(slots: &Slots<T>, first: usize) -> usize
    requires holes { AreHoles first slots.now.items }
    requires within { first ≤ length slots.now.items }
    ensures holes { AreHoles result slots.now.items }
    ensures within { result ≤ length slots.now.items }
{
    let mut place = first;
    while place < slots.len() && !slots.is_live(place) {
        place += 1;
    }
    place
}

/// The first entry at a place or behind it, with its place.
pub fn next_stored<T>(slots: &Slots<T>, from: usize) -> Option<(usize, (u64, &Key, &T))>
    ensures none { IfNone result (entries_in (drop from slots.now.items) ≡ []) }
    ensures place { IfSome result (λ r. from ≤ r.0) }
    ensures fits { IfSome result (λ r. r.0 < 2 ^ 64 - 1) }
    ensures stored { IfSome result (λ r. stored_at r.0 slots.now.items ≡ Some (shown_entry r.1)) }
    ensures entries { IfSome result (λ r. entries_in (drop from slots.now.items)
        ≡ shown_entry r.1 ∷ entries_in (drop (r.0 + 1) slots.now.items)) }
{
    for place in from..slots.len() {
        if let Some(entry) = slots.entry(place) {
            return Some((place, entry));
        }
    }
    None
}

/// The place of a slot with this serial, where no serial is left out before it.
fn place_by_distance<T>(slots: &Slots<T>, serial: u64) -> Option<usize>
    ensures within { IfSome result (λ place. place < length slots.now.items) }
    ensures serial { IfSome result (λ place. serial_at place slots.now.items ≡ serial) }
{
    if slots.len() == 0 {
        return None;
    }
    let place = serial.checked_sub(slots.serial(0))? as usize;
    if place < slots.len() && slots.serial(place) == serial {
        Some(place)
    } else {
        None
    }
}

/// How many slots have at most this serial.
pub fn slots_through<T>(slots: &Slots<T>, serial: u64) -> usize
    requires { (to : ℕ) × DoSerialsRise 0 slots.now.items to }
    ensures within { result ≤ length slots.now.items }
    ensures through { (i : ℕ) → i < result → serial_at i slots.now.items ≤ serial }
    ensures behind { (i : ℕ) → result ≤ i → i < length slots.now.items →
        serial < serial_at i slots.now.items }
{
    let mut high = slots.len();
    if let Some(place) = place_by_distance(slots, serial) {
        return place + 1;
    }
    let mut low = 0;
    while low < high {
        let middle = low + (high - low) / 2;
        if slots.serial(middle) <= serial {
            low = middle + 1;
        } else {
            high = middle;
        }
    }
    low
}

/// How many slots have at most this serial. A place is tried first, at which it is likely to stand.
pub fn slots_through_near<T>(slots: &Slots<T>, serial: u64, near: usize) -> usize
    requires { (to : ℕ) × DoSerialsRise 0 slots.now.items to }
    ensures within { result ≤ length slots.now.items }
    ensures through { (i : ℕ) → i < result → serial_at i slots.now.items ≤ serial }
    ensures behind { (i : ℕ) → result ≤ i → i < length slots.now.items →
        serial < serial_at i slots.now.items }
{
    if near < slots.len() && slots.serial(near) == serial {
        near + 1
    } else {
        slots_through(slots, serial)
    }
}
