// Why an array did not take a value. The value is handed back.

/// Why no value was set.
#[derive(Drop)]
pub enum NoSet<T> {
    /// No further entry can be made in this array.
    Limit(T),
    /// Memory could not be had.
    NoMemory(T),
}

/// Why no value was appended.
#[derive(Drop)]
pub enum NoAppend<T> {
    /// No int is left for the key.
    Full(T),
    /// No further entry can be made in this array.
    Limit(T),
    /// Memory could not be had.
    NoMemory(T),
}
