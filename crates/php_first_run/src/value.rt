/// What a variable holds.
#[derive(Clone, Copy, Debug, PartialEq, Eq)]
pub enum Value {
    /// Nothing was assigned: 0 in a sum, and the empty text where it is written.
    Null,
    Int(i64),
}
