// Calls by chance, on an array and on a plain list.

use crate::calls::written;
use crate::plain::{Name, Plain};
use php_array::Entries;
use php_base::{Ledger, NoMemory};
use php_value::Key;
use std::alloc::Global;

/// An array and a list that had the same calls.
#[derive(Drop)]
struct Pair {
    array: Entries<u32>,
    ledger: Ledger,
    plain: Plain,
}

fn next_state(state: u64) -> u64 {
    state
        .wrapping_mul(6_364_136_223_846_793_005)
        .wrapping_add(1_442_695_040_888_963_407)
}

/// One of 24 keys, four of which are texts.
fn chosen_name(state: u64) -> Name {
    let number = (state >> 36) % 24;
    if number < 20 {
        Name::Number(number as i64 - 4)
    } else {
        Name::Letter(number as u8)
    }
}

fn append_is_alike(pair: &mut Pair, value: u32) -> Result<bool, NoMemory> {
    let key = pair.array.append(value, &mut pair.ledger).ok();
    Ok(key == Some(pair.plain.append(value)?))
}

fn set_is_alike(pair: &mut Pair, key: Key, name: Name, value: u32) -> Result<bool, NoMemory> {
    let old = pair.array.set(key, value, &mut pair.ledger).ok();
    Ok(old == Some(pair.plain.set(name, value)?))
}

fn write_is_alike(pair: &mut Pair, key: &Key, name: Name, value: u32) -> Result<bool, NoMemory> {
    let old = written(&mut pair.array, key, value);
    if old.is_some() {
        return Ok(pair.plain.set(name, value)? == old);
    }
    Ok(pair.plain.get(name).is_none())
}

fn pop_is_alike(alloc: Global, pair: &mut Pair) -> Result<bool, NoMemory> {
    match (pair.array.pop(), pair.plain.pop()) {
        (Some((key, value)), Some((name, number))) => {
            Ok(key == name.to_key(alloc)? && value == number)
        }
        (None, None) => Ok(true),
        _ => Ok(false),
    }
}

fn entry_is(
    alloc: Global,
    entry: Option<(u64, &Key, &u32)>,
    plain: (u64, Name, u32),
) -> Result<bool, NoMemory> {
    let Some((serial, key, value)) = entry else {
        return Ok(false);
    };
    Ok(serial == plain.0 && *key == plain.1.to_key(alloc)? && *value == plain.2)
}

/// Whether the entries of the array are those of the list, in its order.
fn all_are_alike(alloc: Global, pair: &Pair) -> Result<bool, NoMemory> {
    let mut last = 0;
    let mut place = 0;
    for plain in &pair.plain.entries {
        let near = pair.array.entry_after_near(last, &mut place);
        if !entry_is(alloc, near, *plain)? {
            return Ok(false);
        }
        if !entry_is(alloc, pair.array.entry_after(last), *plain)? {
            return Ok(false);
        }
        last = plain.0;
    }
    Ok(
        pair.array.entry_after(last).is_none()
            && pair.array.len() == pair.plain.entries.len()
            && pair.ledger.made == pair.plain.made(),
    )
}

/// One call by chance.
fn call_is_alike(alloc: Global, pair: &mut Pair, state: u64) -> Result<bool, NoMemory> {
    let value = (state >> 40) as u32;
    let name = chosen_name(state);
    let key = name.to_key(alloc)?;
    match (state >> 33) % 9 {
        0 | 1 => append_is_alike(pair, value),
        2 | 3 => set_is_alike(pair, key, name, value),
        4 | 5 => Ok(pair.array.remove(&key) == pair.plain.remove(name)),
        6 => write_is_alike(pair, &key, name, value),
        7 => pop_is_alike(alloc, pair),
        _ => all_are_alike(alloc, pair),
    }
}

/// The first call of a round whose answers differ, from the state before it.
fn round(alloc: Global, seed: u64, calls: u64) -> Result<Option<u64>, NoMemory> {
    let mut pair = Pair {
        array: Entries::new(alloc),
        ledger: Ledger { made: 0 },
        plain: Plain::new(alloc),
    };
    let mut state = seed;
    for call in 0..calls {
        state = next_state(state);
        if !call_is_alike(alloc, &mut pair, state)? {
            return Ok(Some(call));
        }
    }
    if all_are_alike(alloc, &pair)? {
        Ok(None)
    } else {
        Ok(Some(calls))
    }
}

/// `random SEED ROUNDS CALLS`: `alike`, or where the answers differ. Each round starts from no entries.
pub(crate) fn rounds(
    alloc: Global,
    seed: u64,
    rounds: u64,
    calls: u64,
) -> Result<String, NoMemory> {
    for turn in 0..rounds {
        if let Some(call) = round(alloc, seed.wrapping_add(turn), calls)? {
            return Ok(format!(in alloc; "round {turn} differs at call {call}")?);
        }
    }
    Ok(format!(in alloc; "alike")?)
}
