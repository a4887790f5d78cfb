// Numbers and keys from words, and answers as texts.

use php_array::Entries;
use php_base::NoMemory;
use php_value::{Key, Text};
use std::alloc::{AllocError, Global};

/// A number, 0 where a word is none.
pub(crate) fn number(word: &str) -> u64 {
    word.parse::<u64>().unwrap_or(0)
}

/// A value, 0 where a word is none.
pub(crate) fn value(word: &str) -> u32 {
    word.parse::<u32>().unwrap_or(0)
}

pub(crate) fn key(alloc: Global, word: &str) -> Result<Key, NoMemory> {
    match word.parse::<i64>() {
        Ok(int) => Ok(Key::Int(int)),
        Err(_) => Ok(Key::Str(Text::from_bytes(alloc, word.as_bytes())?)),
    }
}

pub(crate) fn shown_value(alloc: Global, found: Option<u32>) -> Result<String, NoMemory> {
    match found {
        Some(value) => Ok(format!(in alloc; "{value}")?),
        None => word(alloc, "none"),
    }
}

pub(crate) fn shown_key(alloc: Global, key: &Key) -> Result<String, AllocError> {
    match key {
        Key::Int(int) => format!(in alloc; "{int}"),
        Key::Str(text) => shown_bytes(alloc, text.bytes()),
    }
}

fn shown_bytes(alloc: Global, bytes: &[u8]) -> Result<String, AllocError> {
    let mut shown = String::new(alloc);
    for byte in bytes {
        shown.push(*byte as char)?;
    }
    Ok(shown)
}

/// An entry: its serial, its key and its value.
pub(crate) fn shown_entry(
    alloc: Global,
    entry: Option<(u64, &Key, &u32)>,
) -> Result<String, NoMemory> {
    let Some((serial, key, value)) = entry else {
        return word(alloc, "none");
    };
    let key = shown_key(alloc, key)?;
    Ok(format!(in alloc; "{serial}: {key} => {value}")?)
}

pub(crate) fn word(alloc: Global, word: &str) -> Result<String, NoMemory> {
    Ok(String::from_str(alloc, word)?)
}

/// All entries in their order.
pub(crate) fn listed(alloc: Global, array: &Entries<u32>) -> Result<String, NoMemory> {
    let mut list = word(alloc, "[")?;
    let mut last = 0;
    for _ in 0..array.len() {
        let entry = array.entry_after(last);
        if last > 0 {
            list.push_str(", ")?;
        }
        last = match entry {
            Some((serial, _, _)) => serial,
            None => 0,
        };
        let shown = shown_entry(alloc, entry)?;
        list.push_str(shown.as_str())?;
    }
    list.push_str("]")?;
    Ok(list)
}
