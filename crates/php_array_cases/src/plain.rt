// A plain list of entries, to compare an array with.
use php_base::NoMemory;
use php_value::{Key, Text};
use std::alloc::{AllocError, Global};
use std::mem;

/// A key that is copied.
#[derive(Clone, Copy, Debug, Eq, PartialEq)]
pub enum Name {
    Number(i64),
    Letter(u8),
}

impl Name {
    pub fn to_key(self, alloc: Global) -> Result<Key, NoMemory> {
        match self {
            Name::Number(number) => Ok(Key::Int(number)),
            Name::Letter(letter) => Ok(Key::Str(Text::from_bytes(alloc, &[letter])?)),
        }
    }
}

#[derive(Drop)]
pub struct Plain {
    pub entries: Vec<(u64, Name, u32)>,
    next_key: i64,
    next_serial: u64,
}

impl Plain {
    pub fn new(alloc: Global) -> Plain {
        Plain {
            entries: Vec::new(alloc),
            next_key: 0,
            next_serial: 1,
        }
    }

    /// How many entries were made.
    pub fn made(&self) -> u64 {
        self.next_serial.saturating_sub(1)
    }

    pub fn get(&self, name: Name) -> Option<u32> {
        for entry in &self.entries {
            if entry.1 == name {
                return Some(entry.2);
            }
        }
        None
    }

    pub fn set(&mut self, name: Name, value: u32) -> Result<Option<u32>, AllocError> {
        for entry in self.entries.iter_mut() {
            if entry.1 == name {
                return Ok(Some(mem::replace(&mut entry.2, value)));
            }
        }
        self.entries.push((self.next_serial, name, value))?;
        self.next_serial = self.next_serial.saturating_add(1);
        if let Name::Number(number) = name {
            self.next_key = self.next_key.max(number.saturating_add(1));
        }
        Ok(None)
    }

    pub fn append(&mut self, value: u32) -> Result<i64, AllocError> {
        let key = self.next_key;
        self.set(Name::Number(key), value)?;
        Ok(key)
    }

    pub fn remove(&mut self, name: Name) -> Option<u32> {
        let value = self.get(name);
        self.entries.retain(|entry| entry.1 != name);
        value
    }

    pub fn pop(&mut self) -> Option<(Name, u32)> {
        let (_, name, value) = self.entries.pop()?;
        if let Name::Number(number) = name {
            if number >= 0 && number.saturating_add(1) == self.next_key {
                self.next_key = number;
            }
        }
        Some((name, value))
    }
}
