// What a memory numbers.

/// A variable's name, by the number that the compiler gave it.
#[derive(Clone, Copy, Debug, Eq, PartialEq)]
pub struct Name(pub u32);

/// What holds the variables and the temporaries of one call.
#[derive(Clone, Copy, Debug, Eq, PartialEq)]
pub struct Block(pub usize);

/// An object. The first one is 1, and no number is used twice.
#[derive(Clone, Copy, Debug, Eq, PartialEq)]
pub struct Obj(pub u64);

/// A variable that outlives every call: a static member, a constant's value, a `static` of a body.
#[derive(Clone, Copy, Debug, Eq, PartialEq)]
pub struct StaticId(pub usize);
