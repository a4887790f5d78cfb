// The calls: each one's words, and its answer as a text.

use crate::shown::{key, shown_entry, shown_key, shown_value, value, word};
use crate::subject::Arrays;
use php_array::{Entries, NoAppend, NoSet};
use php_array_callers::{count_key, dequeue, enqueue, zeroed};
use php_base::NoMemory;
use std::alloc::Global;

/// `set KEY VALUE`: the value before, or `none`, or why nothing was set.
pub(crate) fn set(
    alloc: Global,
    arrays: &mut Arrays,
    name: &str,
    new: &str,
) -> Result<String, NoMemory> {
    let key = key(alloc, name)?;
    match arrays.array.set(key, value(new), &mut arrays.ledger) {
        Ok(old) => shown_value(alloc, old),
        Err(NoSet::Limit(_)) => word(alloc, "limit"),
        Err(NoSet::NoMemory(_)) => Err(NoMemory),
    }
}

/// `append VALUE`: the new key, or why nothing was appended.
pub(crate) fn append(alloc: Global, arrays: &mut Arrays, new: &str) -> Result<String, NoMemory> {
    match arrays.array.append(value(new), &mut arrays.ledger) {
        Ok(key) => Ok(format!(in alloc; "{key}")?),
        Err(NoAppend::Full(_)) => word(alloc, "full"),
        Err(NoAppend::Limit(_)) => word(alloc, "limit"),
        Err(NoAppend::NoMemory(_)) => Err(NoMemory),
    }
}

/// `write KEY VALUE`, in place: the value before, or `none`.
pub(crate) fn write(
    alloc: Global,
    array: &mut Entries<u32>,
    name: &str,
    new: &str,
) -> Result<String, NoMemory> {
    let old = written(array, &key(alloc, name)?, value(new));
    shown_value(alloc, old)
}

/// Writes in place, where the key has an entry, and answers the value before.
pub(crate) fn written(array: &mut Entries<u32>, key: &php_value::Key, new: u32) -> Option<u32> {
    let place = array.get_mut(key)?;
    let old = *place;
    *place = new;
    Some(old)
}

/// `replace KEY VALUE`: the value before, or `none`.
pub(crate) fn replace(
    alloc: Global,
    array: &mut Entries<u32>,
    name: &str,
    new: &str,
) -> Result<String, NoMemory> {
    let key = key(alloc, name)?;
    shown_value(alloc, array.replace(&key, value(new)).ok())
}

/// `remove KEY`: the value, or `none`.
pub(crate) fn remove(
    alloc: Global,
    array: &mut Entries<u32>,
    name: &str,
) -> Result<String, NoMemory> {
    let key = key(alloc, name)?;
    shown_value(alloc, array.remove(&key))
}

/// `pop`: the key and the value, or `none`.
pub(crate) fn pop(alloc: Global, array: &mut Entries<u32>) -> Result<String, NoMemory> {
    let Some((key, value)) = array.pop() else {
        return word(alloc, "none");
    };
    let key = shown_key(alloc, &key)?;
    Ok(format!(in alloc; "{key} => {value}")?)
}

fn raised(alloc: Global, array: &Entries<u32>, by: u32) -> Result<Vec<u32>, NoMemory> {
    let mut values = Vec::new(alloc);
    let mut last = 0;
    for _ in 0..array.len() {
        if let Some((serial, _, value)) = array.entry_after(last) {
            values.push(value.saturating_add(by))?;
            last = serial;
        }
    }
    Ok(values)
}

/// `raise NUMBER`: takes a copy with larger values in place of the array, and answers their count.
pub(crate) fn raise(alloc: Global, arrays: &mut Arrays, by: &str) -> Result<String, NoMemory> {
    let values = raised(alloc, &arrays.array, value(by))?;
    if values.len() != arrays.array.len() {
        return word(alloc, "entries are missing");
    }
    arrays.array = arrays.array.with_values(values, &mut arrays.ledger)?;
    len(alloc, &arrays.array)
}

/// `zero`: takes a copy with zeros in place of the array, and answers their count.
pub(crate) fn zero(alloc: Global, arrays: &mut Arrays) -> Result<String, NoMemory> {
    arrays.array = zeroed(alloc, &arrays.array, &mut arrays.ledger)?;
    len(alloc, &arrays.array)
}

/// `enqueue VALUE`: the length of the queue.
pub(crate) fn put_in_line(
    alloc: Global,
    arrays: &mut Arrays,
    new: &str,
) -> Result<String, NoMemory> {
    match enqueue(&mut arrays.array, value(new), &mut arrays.ledger) {
        Ok(()) => len(alloc, &arrays.array),
        Err(_) => Err(NoMemory),
    }
}

/// `dequeue`: the first value, or `none`.
pub(crate) fn take_from_line(alloc: Global, array: &mut Entries<u32>) -> Result<String, NoMemory> {
    let first = dequeue(array)?;
    shown_value(alloc, first)
}

/// `count KEY`: how often the key was counted.
pub(crate) fn count(alloc: Global, arrays: &mut Arrays, name: &str) -> Result<String, NoMemory> {
    let key = key(alloc, name)?;
    match count_key(&mut arrays.tally, key, &mut arrays.ledger) {
        Ok(times) => Ok(format!(in alloc; "{times}")?),
        Err(_) => Err(NoMemory),
    }
}

/// `get KEY`: the value, or `none`.
pub(crate) fn get(alloc: Global, array: &Entries<u32>, name: &str) -> Result<String, NoMemory> {
    let key = key(alloc, name)?;
    shown_value(alloc, array.get(&key).copied())
}

/// `after SERIAL`: the next entry, or `none`.
pub(crate) fn after(alloc: Global, array: &Entries<u32>, serial: u64) -> Result<String, NoMemory> {
    shown_entry(alloc, array.entry_after(serial))
}

/// `near SERIAL`: the same, by the place that was met last.
pub(crate) fn near(alloc: Global, arrays: &mut Arrays, serial: u64) -> Result<String, NoMemory> {
    let entry = arrays.array.entry_after_near(serial, &mut arrays.place);
    shown_entry(alloc, entry)
}

/// `len`: the number of entries, of which 0 is named.
pub(crate) fn len(alloc: Global, array: &Entries<u32>) -> Result<String, NoMemory> {
    if array.is_empty() {
        return word(alloc, "empty");
    }
    Ok(format!(in alloc; "{}", array.len())?)
}
