/// The greatest length of a script, in bytes.
pub(crate) const MOST_BYTES: usize = 1_048_576;

/// The ticks that a run may take where the words tell no number.
pub(crate) const DEFAULT_ALLOWANCE: u64 = 1_000_000_000;
