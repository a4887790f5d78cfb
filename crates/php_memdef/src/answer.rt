// What the calls of a memory answer.
use crate::names::{Block, Obj};
use php_value::Text;

/// Whether a place was there to be read.
#[derive(Clone, Copy, Debug, Eq, PartialEq)]
pub enum Read {
    Found,
    Absent,
}

/// How a write went. All but `Done` leave the memory as it was.
#[derive(Clone, Copy, Debug, Eq, PartialEq)]
pub enum Wrote {
    Done,
    /// A step leads into a bool, an int, a string or an object.
    NotArray,
    /// A step appends, and the array has no next key.
    Full,
    /// A new entry is needed, and the array can have none.
    Limit,
}

/// Why no object was made.
#[derive(Clone, Copy, Debug, Eq, PartialEq)]
pub enum NoObject {
    /// All object numbers are used up.
    Limit,
    NoMemory,
}

/// Why a release stopped.
#[derive(Clone, Copy, Debug, Eq, PartialEq)]
pub enum Fallen {
    /// Nothing is left to be released.
    Nothing,
    /// The destructor of this object is to be run. The object stays the first falling item.
    Destroy(Obj),
    /// This frame of a generator, whose object goes, is to be released first.
    Frame(Block),
}

/// How far a path leads.
#[derive(Clone, Copy)]
pub struct Met<'a> {
    /// How many of its steps lead somewhere.
    pub steps: usize,
    /// What stands where the last of these leads, or where the path begins.
    pub end: Peek<'a>,
}

/// What stands at a place.
#[derive(Clone, Copy)]
pub enum Peek<'a> {
    Absent,
    Null,
    Bool(bool),
    Int(i64),
    Str(&'a Text),
    /// An array of so many entries.
    Arr(usize),
    Obj(Obj),
}
