ghost use Rattle.std.specs.Prelude.{◌≡◌, ℕ, ◌+◌, ◌-◌, ◌^◌, ◌<◌, ◌≤◌, min};

use std::alloc::{AllocError, AllocFailed};

/// Memory that was asked for could not be had. No other cause gives this answer.
#[derive(Clone, Copy, Debug, PartialEq, Eq)]
pub struct NoMemory;

impl From<AllocError> for NoMemory {
    fn from(_: AllocError) -> NoMemory {
        NoMemory
    }
}

impl<T: Drop> From<AllocFailed<T>> for NoMemory {
    fn from(_: AllocFailed<T>) -> NoMemory {
        NoMemory
    }
}

/// Counts the array entries that were really made. It stops at the greatest value of its type.
#[derive(Clone, Copy, Debug, PartialEq, Eq)]
pub struct Ledger {
    pub made: u64,
}

impl Ledger {
    /// Counts `entries` further entries.
    pub fn add(&mut self, entries: u64)
        ensures { self.new.made ≡ min (self.old.made + entries) (2 ^ 64 - 1) }
    {
        self.made = self.made.saturating_add(entries);
    }
}
